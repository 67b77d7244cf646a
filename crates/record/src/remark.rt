// What is said of a line that is not recorded.
ghost use Rattle.std.specs.Prelude.{codes, Some};
ghost use Rattle.std.specs.Fmt.{option_append, WritesOnOk};
ghost use Rattle.record.specs.Remarks.{reason_text, remark_text};

use facility::Fault;
use std::fmt;
use tables::{LevelRefusal, Refusal};

// Why a line is not recorded.
#[derive(Clone, Copy)]
pub enum Reason {
    NotUnderstood,
    // no exchange has begun
    NoLevel,
    // one has, and a reel is of one exchange
    SecondLevel,
    LevelRefused(LevelRefusal),
    // a number out of range
    Refused(Refusal),
    // octets that are no request
    Faulty(Fault),
    // the reel has no room for the call; it holds so many
    Full(u32),
}

impl fmt::Display for Reason {
    ghost output = { λ r. Some (reason_text r) };

    fn fmt<W: fmt::Write>(&self, f: &mut fmt::Formatter<W>) -> fmt::Result {
        match *self {
            Reason::NotUnderstood => write!(f, "not understood"),
            Reason::NoLevel => write!(f, "no level"),
            Reason::SecondLevel => write!(f, "second level"),
            Reason::LevelRefused(why) => write!(f, "level refused {}", why.number()),
            Reason::Refused(why) => write!(f, "refused {}", why.number()),
            Reason::Faulty(fault) => write!(f, "{fault}"),
            Reason::Full(calls) => write!(f, "reel full after {calls} calls"),
        }
    }
}

// A line, by its number in the script, and why it is not recorded.
#[derive(Clone, Copy)]
pub struct Remark {
    pub line: u64,
    pub reason: Reason,
}

impl fmt::Display for Remark {
    ghost output = { λ r. Some (remark_text r) };

    fn fmt<W: fmt::Write>(&self, f: &mut fmt::Formatter<W>) -> fmt::Result {
        write!(f, "line {}: {}", self.line, self.reason)
    }
}

// What is said, behind the name of the program.
#[derive(Clone, Copy)]
pub struct Spoken<T>(pub T);

impl<T: fmt::Display> fmt::Display for Spoken<T> {
    ghost output = { λ s. option_append (Some (codes "record: ")) (T.output s.0) };

    fn fmt<W: fmt::Write>(&self, f: &mut fmt::Formatter<W>) -> fmt::Result {
        write!(f, "record: {}", self.0)
    }
}
