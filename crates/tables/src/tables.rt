// The tables: calls by reference, conferences as they began, and all parties as they joined.
ghost use Rattle.std.specs.Prelude.{◌≡◌};
ghost use Rattle.tables.specs.Table.{empty};

use crate::call::Call;
use crate::circle::Circle;
use crate::conference::{Conference, Party};
use arrayvec::ArrayVec;
use std::marker::Model;

mod edits;
mod lookups;

// All memory is in the value: 128 references, eight conferences, and 64 parties in all.
#[derive(PartialEq, Eq, Debug, Drop)]
pub struct Tables {
    calls: [Call; 128],
    conferences: ArrayVec<Conference, 8>,
    parties: ArrayVec<Party, 64>,
    // the last ConferenceId given, and the last invoke id of a PartyDISC
    conference_ids: Circle,
    disc_ids: Circle,
}

impl Model for Tables {
    ghost use Rattle.std.specs.Prelude.{◌≡◌, ◌≤◌, length};
    ghost use Rattle.tables.specs.Table.{Table};

    ghost Value = { Table };

    ghost view = { λ t. record { calls = t.calls; conferences = t.conferences.items; parties = t.parties.items; conference_ids = t.conference_ids.last; disc_ids = t.disc_ids.last } };

    ghost inverse = { λ t. record { calls = t.calls; conferences = record { items = t.conferences }; parties = record { items = t.parties }; conference_ids = record { last = t.conference_ids }; disc_ids = record { last = t.disc_ids } } };

    ghost invariant = { λ t. (length t.calls ≡ 128) × (length t.conferences.items ≤ 8) × (length t.parties.items ≤ 64) };
}

impl Tables {
    // All calls absent, and nothing else.
    pub fn new() -> Tables
        ensures { result ≡ empty }
    {
        Tables {
            calls: [Call::absent(); 128],
            conferences: ArrayVec::new(),
            parties: ArrayVec::new(),
            conference_ids: Circle::new(),
            disc_ids: Circle::new(),
        }
    }
}
