// What the exchange reports, and what it is answered.
ghost use Rattle.std.specs.Prelude.{◌≡◌};
ghost use Rattle.controller.specs.Reports.{in_range};

use crate::disc::Disc;
use crate::reporting::{is_leg, is_reference};

#[derive(Clone, Copy, PartialEq, Eq, Debug)]
pub enum Report {
    Calling {
        reference: u8,
    },
    // a remote user answered, on this leg
    Answer {
        reference: u8,
        leg: u8,
        speech: bool,
    },
    Hold {
        reference: u8,
    },
    Retrieve {
        reference: u8,
    },
    RemoteClearing {
        leg: u8,
    },
    Disconnect {
        reference: u8,
    },
    Released {
        reference: u8,
    },
}

impl Report {
    // Whether there is such a reference, and such a leg.
    pub fn in_range(self) -> bool
        ensures { result ≡ in_range self }
    {
        match self {
            Report::Answer { reference, leg, .. } => is_reference(reference) && is_leg(leg),
            Report::RemoteClearing { leg } => is_leg(leg),
            Report::Calling { reference }
            | Report::Hold { reference }
            | Report::Retrieve { reference }
            | Report::Disconnect { reference }
            | Report::Released { reference } => is_reference(reference),
        }
    }
}

// What an accepted report answers: how many legs are gone, and the PartyDISC that is to be sent, if any.
#[derive(Clone, Copy, PartialEq, Eq, Debug)]
pub struct Acceptance {
    pub gone: usize,
    pub disc: Option<Disc>,
}
