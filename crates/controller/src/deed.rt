// What a granted request comes to, once all that it needs is looked up.
ghost use Rattle.std.specs.Prelude.{◌≡◌};
ghost use Rattle.controller.specs.Deeds.{deed_effect};
ghost use Rattle.tables.specs.Table.{Table};

use tables::{Mark, Party};

// The PartyId of whoever is the first in a conference.
pub(crate) const FIRST_PARTY: u8 = 0;

// An operation, with the conference and the party that it is about, by their ids or as they were found.
#[derive(Clone, Copy, PartialEq, Eq, Debug)]
pub enum Deed {
    BeginBySetup {
        id: u8,
        size: u8,
        reference: u8,
    },
    // the leg is that of the call
    BeginOnCall {
        id: u8,
        size: u8,
        reference: u8,
        leg: u8,
    },
    // the PartyId is the one that comes next
    Add {
        conference: u8,
        party: u8,
        reference: u8,
        leg: u8,
    },
    Split {
        conference: u8,
        party: Party,
        reference: u8,
    },
    Drop {
        conference: u8,
        party: Party,
    },
    Remark {
        conference: u8,
        party: Party,
        mark: Mark,
    },
}

impl Deed {
    // How many legs are gone by it.
    pub(crate) fn gone(self) -> usize
        ensures { (t : Table) → result ≡ (deed_effect t self).gone }
    {
        match self {
            Deed::Drop { .. } => 1,
            _ => 0,
        }
    }
}
