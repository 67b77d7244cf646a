// Tellings and collections, one after another, and what they leave on a line.
ghost use Rattle.std.specs.Prelude.{[]};
ghost use Rattle.line.specs.Acts.{CarriedOut, DoesAct, GoesOn, Both, BothGoOn, NewLines};

use crate::board::Board;
use crate::meaning::{Line, Refusal};
use crate::notice::Notice;
use crate::outbox::Outbox;

// What can be done to a line. It stays data, and no closure, since the law of a run speaks of the list of acts that led to a
// line.
#[derive(Clone, Copy, PartialEq, Eq, Debug)]
pub enum Act {
    Collect,
    Tell { leg: u8, notice: Notice },
}

// Does one act on a line; a collection is never refused.
fn tell_or_collect<L: Line>(line: &mut L, act: Act) -> Result<(), Refusal>
    ensures done { CarriedOut act (L.standing line.old) (L.standing line.new) (L.room line.old) (L.room line.new) result }
    ensures does { DoesAct L.tells L.collects act line.old line.new result }
{
    match act {
        Act::Collect => {
            line.collect();
            Ok(())
        }
        Act::Tell { leg, notice } => line.tell(leg, notice),
    }
}

// Does one act on a line, and nothing else. Whatever acts led here since the line was new, with whatever answers, this one and its
// answer carry them on: the standing of each leg stays what the notices told to it alone give.
pub fn carry_out<L: Line>(line: &mut L, act: Act) -> Result<(), Refusal>
    ensures done { CarriedOut act (L.standing line.old) (L.standing line.new) (L.room line.old) (L.room line.new) result }
    ensures does { DoesAct L.tells L.collects act line.old line.new result }
    ensures law { GoesOn act result (L.standing line.old) (L.standing line.new) (L.room line.old) (L.room line.new) }
{
    tell_or_collect(line, act)
}

// An outbox and a board on which the same was told.
#[derive(PartialEq, Eq, Debug, Drop)]
pub struct BothLines {
    pub outbox: Outbox,
    pub board: Board,
}

impl BothLines {
    // New lines, on which nothing was done.
    fn new() -> BothLines
        ensures { Both [] result }
    {
        BothLines {
            outbox: Outbox::new(),
            board: Board::new(),
        }
    }

    // Does an act on the outbox and, unless it is refused there, on the board, which does not refuse it then.
    fn carry_out(&mut self, act: Act) -> Result<(), Refusal>
        ensures { BothGoOn act self.old self.new }
    {
        carry_out(&mut self.outbox, act)?;
        carry_out(&mut self.board, act)
    }
}

// Does any list of acts on new lines of both kinds; what the outbox refuses is not told to the board. On either the
// standing of a leg is what the notices told to it alone give, so both have equal standings; and what was told since the last
// collection waits on the outbox, and nothing else.
pub fn on_new_lines(acts: &[Act]) -> BothLines
    ensures { NewLines acts.now result }
{
    let mut lines = BothLines::new();
    for act in acts {
        let _ = lines.carry_out(*act);
    }
    lines
}
