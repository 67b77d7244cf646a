// What becomes of a report: it is refused, or it comes to a change.
ghost use Rattle.std.specs.Prelude.{◌≡◌, ℕ};
ghost use Rattle.std.specs.Option.{ok_or};
ghost use Rattle.controller.specs.Changes.{change_accepted, outcome};
ghost use Rattle.controller.specs.Reports.{by_event, disc_for, party_cleared, quiet, reported, unless};
ghost use Rattle.controller.specs.Steps.{is_leg, is_reference};
ghost use Rattle.tables.specs.Calls.{next_call};
ghost use Rattle.tables.specs.Edits.{with_call};
ghost use Rattle.tables.specs.Table.{call_at};

use crate::change::Change;
use crate::disc::Disc;
use crate::report::Report;
use crate::told::Told;
use tables::{Call, Conference, Event, Party, Phase, Refusal, Tables};

// The call references that there are.
const FIRST_REFERENCE: u8 = 1;

const LAST_REFERENCE: u8 = 127;

// Whether there is such a call reference.
pub fn is_reference(reference: u8) -> bool
    ensures { result ≡ is_reference reference }
{
    (FIRST_REFERENCE..=LAST_REFERENCE).contains(&reference)
}

// Whether there is such a leg.
pub(crate) fn is_leg(leg: u8) -> bool
    ensures { result ≡ is_leg leg }
{
    line::is_leg(leg)
}

// The call at a reference after an event, if that belongs to its state.
fn after(tables: &Tables, reference: u8, event: Event) -> Result<Call, Refusal>
    ensures { result ≡ ok_or (next_call event (call_at tables.now reference)) Refusal.WrongState }
{
    tables
        .call(reference)
        .after(event)
        .ok_or(Refusal::WrongState)
}

// A report that changes a call, and nothing else.
fn call_changed(tables: &Tables, reference: u8, event: Event) -> Result<Change, Refusal>
    ensures { outcome tables.now result ≡ unless (is_reference reference) Refusal.OutOfRange (by_event (next_call event (call_at tables.now reference)) (λ c. Ok (quiet (with_call reference c tables.now) 0))) }
{
    if !is_reference(reference) {
        return Err(Refusal::OutOfRange);
    }
    let call = after(tables, reference, event)?;
    Ok(Change::Call {
        reference,
        call,
        gone: 0,
    })
}

// A remote user answered, on a leg that has to be down.
fn answered(tables: &Tables, reference: u8, leg: u8, speech: bool) -> Result<Change, Refusal>
    ensures { (room : ℕ) → outcome tables.now result ≡ reported room (Report.Answer reference leg speech) tables.now }
{
    if !is_reference(reference) || !is_leg(leg) {
        return Err(Refusal::OutOfRange);
    }
    let call = after(tables, reference, Event::Answer { leg, speech })?;
    if tables.is_up(leg) {
        return Err(Refusal::WrongLeg);
    }
    Ok(Change::Call {
        reference,
        call,
        gone: 0,
    })
}

// The PartyDISC for a party: only the link of an open conference is sent it.
fn disc_for(tables: &Tables, party: Party, conference: Option<Conference>) -> Option<Disc>
    ensures { result ≡ disc_for tables.now party conference }
{
    let Conference { link, phase, .. } = conference?;
    match phase {
        Phase::Open => Some(Disc {
            link,
            party: party.id,
            id: tables.next_disc(),
        }),
        Phase::Ending => None,
    }
}

// A party clears: it leaves its conference.
fn party_cleared(tables: &Tables, party: Party) -> Change
    ensures { change_accepted tables.now result ≡ party_cleared tables.now party }
{
    Change::Leave {
        conference: party.conference,
        party: party.id,
        disc: disc_for(tables, party, tables.conference(party.conference)),
    }
}

// The remote user of a leg clears: a party whose others there is no room to tell is refused.
fn leg_cleared(room: usize, tables: &Tables, leg: u8) -> Result<Change, Refusal>
    ensures { outcome tables.now result ≡ reported room (Report.RemoteClearing leg) tables.now }
{
    if !is_leg(leg) {
        return Err(Refusal::OutOfRange);
    }
    if let Some(reference) = tables.call_to(leg) {
        let call = after(tables, reference, Event::RemoteClearing)?;
        return Ok(Change::Call {
            reference,
            call,
            gone: 1,
        });
    }
    let party = tables.party_on(leg).ok_or(Refusal::WrongLeg)?;
    if room < Told::of_leaving(tables, party.conference, party.id).count() {
        return Err(Refusal::NoRoom);
    }
    Ok(party_cleared(tables, party))
}

// A call is disconnected; the conference of a link is ending then.
fn disconnected(tables: &Tables, reference: u8) -> Result<Change, Refusal>
    ensures { (room : ℕ) → outcome tables.now result ≡ reported room (Report.Disconnect reference) tables.now }
{
    if !is_reference(reference) {
        return Err(Refusal::OutOfRange);
    }
    let before = tables.call(reference);
    let call = after(tables, reference, Event::Disconnect)?;
    Ok(match before.conference() {
        Some(conference) => Change::Ending {
            reference,
            call,
            conference,
        },
        None => Change::Call {
            reference,
            call,
            gone: usize::from(before.own_leg().is_some()),
        },
    })
}

// A call is released; the conference of a link ends then.
fn released(tables: &Tables, reference: u8) -> Result<Change, Refusal>
    ensures { (room : ℕ) → outcome tables.now result ≡ reported room (Report.Released reference) tables.now }
{
    if !is_reference(reference) {
        return Err(Refusal::OutOfRange);
    }
    let call = after(tables, reference, Event::Released)?;
    Ok(match tables.linked_to(reference) {
        Some(conference) => Change::End {
            reference,
            call,
            conference: conference.id,
        },
        None => Change::Call {
            reference,
            call,
            gone: 0,
        },
    })
}

impl Change {
    // What a report comes to, or why it is refused; so many notices can be told.
    pub(crate) fn by_report(room: usize, report: Report, tables: &Tables) -> Result<Change, Refusal>
        ensures { outcome tables.now result ≡ reported room report tables.now }
    {
        match report {
            Report::Calling { reference } => call_changed(tables, reference, Event::Calling),
            Report::Answer {
                reference,
                leg,
                speech,
            } => answered(tables, reference, leg, speech),
            Report::Hold { reference } => call_changed(tables, reference, Event::Hold),
            Report::Retrieve { reference } => call_changed(tables, reference, Event::Retrieve),
            Report::RemoteClearing { leg } => leg_cleared(room, tables, leg),
            Report::Disconnect { reference } => disconnected(tables, reference),
            Report::Released { reference } => released(tables, reference),
        }
    }
}
