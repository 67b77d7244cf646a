// A line that delivers nothing: it only keeps what each remote user has heard.
ghost use Rattle.std.specs.Prelude.{◌≡◌, ℕ, replicate};
ghost use Rattle.line.specs.Meaning.{Hears};
ghost use Rattle.line.specs.Notices.{fresh};
ghost use Rattle.line.specs.Boards.{BoardCollects, board_standing, BoardTells};

use crate::leg::LegNumber;
use crate::meaning::{Line, Refusal};
use crate::notice::Notice;
use crate::standing::Standing;

// A place for each leg, at its number, and one more.
const PLACES: usize = 65;

// How many notices can be told, always.
const ROOM: usize = 128;

// The standing of each leg, at the leg's number, in memory of fixed size; the first stands for no leg and never changes.
#[derive(Clone, Copy, PartialEq, Eq, Debug)]
pub struct Board {
    standings: [Standing; PLACES],
}

// As many new standings as there are places.
fn new_standings() -> [Standing; PLACES]
    ensures { result ≡ replicate 65 fresh }
{
    [Standing::new(); PLACES]
}

impl Board {
    // Nobody has heard anything.
    pub fn new() -> Board
        ensures { (k : ℕ) → board_standing result k ≡ fresh }
    {
        Board {
            standings: new_standings(),
        }
    }

    // The remote user of a leg hears a notice.
    pub(crate) fn hear(&mut self, leg: LegNumber, notice: Notice)
        ensures { Hears leg.number notice (board_standing self.old) (board_standing self.new) }
    {
        let standing = &mut self.standings[usize::from(leg.number)];
        *standing = standing.after(notice);
    }
}

impl Line for Board {
    ghost standing = { board_standing };

    ghost room = { λ _. 128 };

    ghost tells = { BoardTells };

    ghost collects = { BoardCollects };

    fn tell(&mut self, leg: u8, notice: Notice) -> Result<(), Refusal> {
        self.hear(LegNumber::try_from(leg)?, notice);
        Ok(())
    }

    fn room(&self) -> usize {
        ROOM
    }

    fn standing(&self, leg: u8) -> Result<Standing, Refusal> {
        let leg = LegNumber::try_from(leg)?;
        Ok(self.standings[usize::from(leg.number)])
    }

    fn collect(&mut self) {}
}
