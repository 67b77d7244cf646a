// What a line to the remote users means, whatever it is made of.
ghost use Rattle.std.specs.Prelude.{◌≡◌, ℕ, Some, MatchResult};
ghost use Rattle.line.specs.declared.notice.Notice.{Notice as SpecNotice};
ghost use Rattle.line.specs.declared.standing.Standing.{Standing};
ghost use Rattle.line.specs.Refusals.{refusal_number, refusal_text};
ghost use Rattle.line.specs.Meaning.{Tells, Answers, Collects};

use crate::notice::Notice;
use crate::standing::Standing;
use std::error::Error;
use std::fmt;

// Why a line did nothing, each with the number that it carries.
#[derive(Clone, Copy, PartialEq, Eq, Debug)]
pub enum Refusal {
    // a leg that is not 1 to 64
    NoSuchLeg = 3,
    // no room for another notice before the next collection
    NoRoom = 6,
}

impl Refusal {
    // The number that the refusal carries.
    pub fn number(self) -> u8
        ensures { result ≡ refusal_number self }
    {
        self as u8
    }
}

// The number, and the refusal in words.
impl fmt::Display for Refusal {
    ghost output = { λ refusal. Some (refusal_text refusal) };

    fn fmt<W: fmt::Write>(&self, f: &mut fmt::Formatter<W>) -> fmt::Result {
        f.write_str(match self {
            Refusal::NoSuchLeg => "3: no such leg",
            Refusal::NoRoom => "6: no room for another notice",
        })
    }
}

impl Error for Refusal {}

// A line to the remote users, each reached by a leg from 1 to 64. Besides the standings and the room, that every caller knows, a
// kind of line says for itself what a telling does to it and what a collection does: whoever works on lines of any kind can only
// promise these by doing just that.
pub trait Line {
    // what the remote user of each leg has heard
    ghost standing: { Self → ℕ → Standing };

    // how many notices can surely be told before the next collection
    ghost room: { Self → ℕ };

    // what a telling that is not refused does to the line
    ghost tells: { Self → ℕ → SpecNotice → Self → Type 0 };

    // what a collection does to it
    ghost collects: { Self → Self → Type 0 };

    // Tells the remote user of a leg a notice. A leg out of range is refused first, then a line without room; either
    // refusal changes nothing.
    fn tell(&mut self, leg: u8, notice: Notice) -> Result<(), Refusal>
        ensures told { Tells leg notice (standing self.old) (standing self.new) (room self.old) (room self.new) result }
        ensures tells { MatchResult result (λ _. tells self.old leg notice self.new) (λ _. self.new ≡ self.old) };

    fn room(&self) -> usize
        ensures { result ≡ room self.now };

    // What the remote user of a leg has heard; a leg out of range is refused.
    fn standing(&self, leg: u8) -> Result<Standing, Refusal>
        ensures { Answers leg (standing self.now) result };

    // Hands over what waits, if anything does. Every standing stays.
    fn collect(&mut self)
        ensures kept { Collects (standing self.old) (standing self.new) (room self.new) }
        ensures collects { collects self.old self.new };
}
