// What the tables hold: look-ups that change nothing.
ghost use Rattle.std.specs.Prelude.{◌≡◌, ◌==◌, None, length, position};
ghost use Rattle.std.specs.List.{list_any};
ghost use Rattle.tables.specs.Table.{call_at, conference_with, linked_to, parties_of, party_with, next_conference, next_party, next_disc, call_to, party_on, is_up};
ghost use Rattle.tables.specs.Calls.{leads_to_leg};

use super::Tables;
use crate::call::Call;
use crate::conference::{Conference, Party};
use arrayvec::ArrayVec;

// The place of the first call that leads to a leg.
fn place_leading_to(calls: &[Call], leg: u8) -> Option<usize>
    ensures { result ≡ position (λ c. leads_to_leg leg c.state) calls.now }
{
    calls.iter().position(|c| c.leads_to(leg))
}

impl Tables {
    // The call at a reference.
    pub fn call(&self, reference: u8) -> Call
        ensures { result ≡ call_at self.now reference }
    {
        self.calls
            .get(usize::from(reference))
            .copied()
            .unwrap_or(Call::absent())
    }

    // The conference with a ConferenceId.
    pub fn conference(&self, id: u8) -> Option<Conference>
        ensures { result ≡ conference_with self.now id }
    {
        self.conferences.iter().copied().find(|c| c.id == id)
    }

    // The conference that a reference is the link of.
    pub fn linked_to(&self, reference: u8) -> Option<Conference>
        ensures { result ≡ linked_to self.now reference }
    {
        self.conferences
            .iter()
            .copied()
            .find(|c| c.link == reference)
    }

    // How many conferences there are, ending ones too.
    pub fn conference_count(&self) -> usize
        ensures { result ≡ length self.now.conferences }
    {
        self.conferences.len()
    }

    // A party of a conference, by its PartyId.
    pub fn party(&self, conference: u8, id: u8) -> Option<Party>
        ensures { result ≡ party_with self.now conference id }
    {
        self.parties
            .iter()
            .copied()
            .filter(|p| p.conference == conference)
            .find(|p| p.id == id)
    }

    // How many parties a conference has.
    pub fn party_count(&self, conference: u8) -> usize
        ensures { result ≡ length (parties_of self.now conference) }
    {
        self.parties
            .iter()
            .filter(|p| p.conference == conference)
            .count()
    }

    // The ConferenceId in turn, passing over those of the conferences that there are.
    fn conference_in_turn(&self) -> u8
        ensures { result ≡ next_conference self.now }
    {
        self.conference_ids.next(|id| self.conference(id).is_some())
    }

    // The ConferenceId that comes next: no conference has it.
    #[tactic(auto, using(crate::proofs::Circling::conference_free))]
    pub fn next_conference(&self) -> u8
        ensures next { result ≡ next_conference self.now }
        ensures free { conference_with self.now result ≡ None }
    {
        let _ = &self.conferences;
        self.conference_in_turn()
    }

    // The PartyId in turn, passing over those of the parties of the conference.
    fn party_in_turn(&self, conference: Conference) -> u8
        ensures { result ≡ next_party self.now conference }
    {
        conference
            .parties
            .next(|id| self.party(conference.id, id).is_some())
    }

    // The PartyId that comes next in a conference: none of its parties has it.
    #[tactic(auto, using(crate::proofs::Circling::party_free, crate::proofs::Circling::few_of))]
    pub fn next_party(&self, conference: Conference) -> u8
        ensures next { result ≡ next_party self.now conference }
        ensures free { party_with self.now conference.id result ≡ None }
    {
        let _ = &self.parties;
        self.party_in_turn(conference)
    }

    // The invoke id of the next PartyDISC; none is ever in use.
    pub fn next_disc(&self) -> u8
        ensures { result ≡ next_disc self.now }
    {
        self.disc_ids.next(|_| false)
    }

    // The parties of a conference, in the order in which they joined.
    pub fn parties_of(&self, conference: u8) -> ArrayVec<Party, 64>
        ensures { result.items ≡ parties_of self.now conference }
    {
        let mut parties = ArrayVec::new();
        let all = self.parties.as_slice();
        // to collect a chain asks for an allocator, and may fail
        for party in all {
            if party.conference == conference {
                parties.push(*party);
            }
        }
        parties
    }

    // The reference of the call that leads to a leg.
    pub fn call_to(&self, leg: u8) -> Option<u8>
        ensures { result ≡ call_to self.now leg }
    {
        let place = place_leading_to(&self.calls, leg)?;
        u8::try_from(place).ok()
    }

    // The party of a leg.
    pub fn party_on(&self, leg: u8) -> Option<Party>
        ensures { result ≡ party_on self.now leg }
    {
        self.parties.iter().copied().find(|p| p.leg == leg)
    }

    // Whether a leg is up on a call.
    fn is_on_call(&self, leg: u8) -> bool
        ensures { result ≡ list_any (λ c. leads_to_leg leg c.state) self.now.calls }
    {
        self.calls.iter().any(|c| c.leads_to(leg))
    }

    // Whether a leg is up as a party.
    fn is_in_conference(&self, leg: u8) -> bool
        ensures { result ≡ list_any (λ p. p.leg == leg) self.now.parties }
    {
        self.parties.iter().any(|p| p.leg == leg)
    }

    // Whether a leg is up, on a call or as a party.
    pub fn is_up(&self, leg: u8) -> bool
        ensures { result ≡ is_up leg self.now }
    {
        self.is_on_call(leg) || self.is_in_conference(leg)
    }
}
