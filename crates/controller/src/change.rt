// What an accepted report comes to, once all that it needs is looked up.
ghost use Rattle.std.specs.Prelude.{◌≡◌};
ghost use Rattle.controller.specs.Changes.{change_accepted};
ghost use Rattle.controller.specs.Deeds.{told_list};
ghost use Rattle.tables.specs.Table.{Table};

use crate::disc::Disc;
use crate::told::Told;
use tables::{Call, Phase, Tables};

#[derive(Clone, Copy, PartialEq, Eq, Debug)]
pub(crate) enum Change {
    // a call changes, and so many legs are gone
    Call {
        reference: u8,
        call: Call,
        gone: usize,
    },
    // a call is disconnected, and the conference that it is the link of is ending
    Ending {
        reference: u8,
        call: Call,
        conference: u8,
    },
    // a call is released, and the conference that it was the link of ends
    End {
        reference: u8,
        call: Call,
        conference: u8,
    },
    // a party leaves, by its PartyId
    Leave {
        conference: u8,
        party: u8,
        disc: Option<Disc>,
    },
}

impl Change {
    // Does to the tables what the change does to them.
    pub(crate) fn carry_out(self, tables: &mut Tables)
        ensures { tables.new ≡ (change_accepted tables.old self).effect.table }
    {
        match self {
            Change::Call {
                reference,
                call,
                ..
            } => {
                tables.set_call(reference, call);
            }
            Change::Ending {
                reference,
                call,
                conference,
            } => {
                tables.set_call(reference, call);
                tables.set_phase(conference, Phase::Ending);
            }
            Change::End {
                reference,
                call,
                conference,
            } => {
                tables.set_call(reference, call);
                tables.end(conference);
            }
            Change::Leave {
                conference,
                party,
                disc,
            } => {
                tables.leave(conference, party);
                if let Some(disc) = disc {
                    tables.give_disc_id(disc.id);
                }
            }
        }
    }

    // What the change tells, by the tables before it.
    pub(crate) fn told(self, tables: &Tables) -> Told
        ensures { told_list result ≡ (change_accepted tables.now self).effect.told }
    {
        match self {
            Change::Leave {
                conference,
                party,
                ..
            } => Told::of_leaving(tables, conference, party),
            _ => Told::nothing(),
        }
    }

    // How many legs are gone by it.
    pub(crate) fn gone(self, tables: &Tables) -> usize
        ensures { result ≡ (change_accepted tables.now self).effect.gone }
    {
        match self {
            Change::Call { gone, .. } => gone,
            Change::End { conference, .. } => tables.party_count(conference),
            Change::Leave { .. } => 1,
            Change::Ending { .. } => 0,
        }
    }

    // The PartyDISC that it sends.
    pub(crate) fn disc(self) -> Option<Disc>
        ensures { (t : Table) → result ≡ (change_accepted t self).disc }
    {
        match self {
            Change::Leave { disc, .. } => disc,
            _ => None,
        }
    }
}
