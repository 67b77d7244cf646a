// The few edits that every step is made of.
ghost use Rattle.std.specs.Prelude.{◌≡◌, ◌<◌, ◌↔◌, length, IsTrue, IsOk, OnOk, OnErr};
ghost use Rattle.tables.specs.Edits.{with_call, with_begun, with_joined, with_marked, with_phase, with_disc, with_left, with_ended};

use super::Tables;
use crate::call::Call;
use crate::circle::Circle;
use crate::conference::{Conference, Mark, Party, Phase};
use crate::each::change_each;
use crate::refusal::Full;

impl Tables {
    // Puts a call at its reference; false, and nothing changes, where there is no such reference.
    pub fn set_call(&mut self, reference: u8, call: Call) -> bool
        ensures done { self.new ≡ with_call reference call self.old }
        ensures answer { IsTrue result ↔ (reference < 128) }
    {
        let place = usize::from(reference);
        let there = place < self.calls.len();
        if there {
            self.calls[place] = call;
        }
        there
    }

    // Begins a conference behind the others; its ConferenceId is then the last given. Nothing changes where there are eight.
    pub fn begin(&mut self, conference: Conference) -> Result<(), Full>
        ensures begun { OnOk result (self.new ≡ with_begun conference self.old) }
        ensures refused { OnErr result (self.new ≡ self.old) }
        ensures answer { IsOk result ↔ (length self.old.conferences < 8) }
    {
        if self.conferences.is_full() {
            return Err(Full);
        }
        self.conferences.push(conference);
        self.conference_ids = Circle {
            last: conference.id,
        };
        Ok(())
    }

    // A party joins behind the others; its PartyId is then the last given in its conference. Nothing changes where there are 64.
    pub fn join(&mut self, conference: u8, id: u8, leg: u8) -> Result<(), Full>
        ensures joined { OnOk result (self.new ≡ with_joined conference id leg self.old) }
        ensures refused { OnErr result (self.new ≡ self.old) }
        ensures answer { IsOk result ↔ (length self.old.parties < 64) }
    {
        if self.parties.is_full() {
            return Err(Full);
        }
        change_each(self.conferences.as_mut_slice(), |c| c.given(conference, id));
        self.parties.push(Party {
            conference,
            id,
            leg,
            mark: Mark::Joined,
        });
        Ok(())
    }

    // A party is marked.
    pub fn mark(&mut self, conference: u8, id: u8, mark: Mark)
        ensures { self.new ≡ with_marked conference id mark self.old }
    {
        change_each(
            self.parties.as_mut_slice(),
            |p| p.marked(conference, id, mark),
        );
    }

    // A conference comes into a phase.
    pub fn set_phase(&mut self, conference: u8, phase: Phase)
        ensures { self.new ≡ with_phase conference phase self.old }
    {
        change_each(
            self.conferences.as_mut_slice(),
            |c| c.in_phase(conference, phase),
        );
    }

    // The invoke id of a PartyDISC was given.
    pub fn give_disc_id(&mut self, id: u8)
        ensures { self.new ≡ with_disc id self.old }
    {
        self.disc_ids = Circle { last: id };
    }

    // A party is no more.
    pub fn leave(&mut self, conference: u8, id: u8)
        ensures { self.new ≡ with_left conference id self.old }
    {
        self.parties
            .retain(|p| !(p.conference == conference && p.id == id));
    }

    // A conference ends, with all its parties.
    pub fn end(&mut self, conference: u8)
        ensures { self.new ≡ with_ended conference self.old }
    {
        self.conferences.retain(|c| c.id != conference);
        self.parties.retain(|p| p.conference != conference);
    }
}
