// Conferences, and the parties in them.
ghost use Rattle.std.specs.Prelude.{◌≡◌};
ghost use Rattle.tables.specs.Edits.{new_conference, given, in_phase, marked};

use crate::circle::Circle;

#[derive(Clone, Copy, PartialEq, Eq, Debug, Default)]
pub enum Phase {
    #[default]
    Open,
    // disconnected by the served user, and not yet released
    Ending,
}

// A conference: its ConferenceId, the most parties that it may have, the reference of its link, and its circle of PartyIds.
#[derive(Clone, Copy, PartialEq, Eq, Debug, Default)]
pub struct Conference {
    pub id: u8,
    pub size: u8,
    pub link: u8,
    pub phase: Phase,
    pub parties: Circle,
}

#[derive(Clone, Copy, PartialEq, Eq, Debug, Default)]
pub enum Mark {
    #[default]
    Joined,
    Isolated,
}

// A party: the conference that it is in, its PartyId there, its leg, and whether it is isolated.
#[derive(Clone, Copy, PartialEq, Eq, Debug, Default)]
pub struct Party {
    pub conference: u8,
    pub id: u8,
    pub leg: u8,
    pub mark: Mark,
}

impl Conference {
    // A new conference, of up to so many parties, linked by a reference.
    pub fn new(id: u8, size: u8, link: u8) -> Conference
        ensures { result ≡ new_conference id size link }
    {
        Conference {
            id,
            size,
            link,
            phase: Phase::Open,
            parties: Circle::new(),
        }
    }

    // The conference once a PartyId is given in the one of an id.
    pub(crate) fn given(self, id: u8, party: u8) -> Conference
        ensures { result ≡ given id party self }
    {
        let parties = Circle { last: party };
        if self.id == id {
            Conference { parties, ..self }
        } else {
            self
        }
    }

    // The conference once the one of an id comes into a phase.
    pub(crate) fn in_phase(self, id: u8, phase: Phase) -> Conference
        ensures { result ≡ in_phase id phase self }
    {
        if self.id == id {
            Conference { phase, ..self }
        } else {
            self
        }
    }
}

impl Party {
    // The party once the one of a conference and a PartyId is marked.
    pub(crate) fn marked(self, conference: u8, id: u8, mark: Mark) -> Party
        ensures { result ≡ marked conference id mark self }
    {
        if self.conference == conference && self.id == id {
            Party { mark, ..self }
        } else {
            self
        }
    }
}
