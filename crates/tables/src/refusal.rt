// Why a report changed nothing, why there is no such level, and why an edit could not be done.
ghost use Rattle.std.specs.Prelude.{◌≡◌, Some};
ghost use Rattle.tables.specs.Refusals.{refusal_number, refusal_text, level_refusal_number, level_refusal_text, full_text};

use std::error::Error;
use std::fmt;

#[derive(Clone, Copy, PartialEq, Eq, Debug)]
pub enum Refusal {
    // a call reference that is not 1 to 127, or a leg that is not 1 to 64
    OutOfRange = 3,
    // not in this state of the call
    WrongState = 4,
    // the leg is up where it must be down, or down where it must be up
    WrongLeg = 5,
    // no room on the line for what the others would be told
    NoRoom = 6,
}

impl Refusal {
    // The number that the refusal carries.
    pub fn number(self) -> u8
        ensures { result ≡ refusal_number self }
    {
        self as u8
    }
}

// The number, and the refusal in words.
impl fmt::Display for Refusal {
    ghost output = { λ refusal. Some (refusal_text refusal) };

    fn fmt<W: fmt::Write>(&self, f: &mut fmt::Formatter<W>) -> fmt::Result {
        f.write_str(match self {
            Refusal::OutOfRange => "3: no such reference or leg",
            Refusal::WrongState => "4: not in this state of the call",
            Refusal::WrongLeg => "5: the leg is up, or it is not",
            Refusal::NoRoom => "6: no room for what the others would be told",
        })
    }
}

impl Error for Refusal {}

// Why there is no such level, each with the number that it carries.
#[derive(Clone, Copy, PartialEq, Eq, Debug)]
pub enum LevelRefusal {
    // a size that is not 1 to 30
    Size = 1,
    // a number of conferences that is not 1 to 8
    Conferences = 2,
}

impl LevelRefusal {
    // The number that the refusal carries.
    pub fn number(self) -> u8
        ensures { result ≡ level_refusal_number self }
    {
        self as u8
    }
}

// The number, and the refusal in words.
impl fmt::Display for LevelRefusal {
    ghost output = { λ refusal. Some (level_refusal_text refusal) };

    fn fmt<W: fmt::Write>(&self, f: &mut fmt::Formatter<W>) -> fmt::Result {
        f.write_str(match self {
            LevelRefusal::Size => "1: not a size from 1 to 30",
            LevelRefusal::Conferences => "2: not 1 to 8 conferences",
        })
    }
}

impl Error for LevelRefusal {}

// There are as many conferences, or parties, as the tables have room for.
#[derive(Clone, Copy, PartialEq, Eq, Debug)]
pub struct Full;

impl fmt::Display for Full {
    ghost output = { λ _. Some full_text };

    fn fmt<W: fmt::Write>(&self, f: &mut fmt::Formatter<W>) -> fmt::Result {
        f.write_str("no room in the tables")
    }
}

impl Error for Full {}
