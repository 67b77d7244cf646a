// What becomes of a request: each test in the order of the rules, and the first that fails says why; or the deed that it comes to.
ghost use Rattle.std.specs.Prelude.{◌≡◌};
ghost use Rattle.controller.specs.Judging.{add_to, asked_size, begin_by_setup, begin_on_call, carries, control_of, control_party, in_progress, in_use, is_full, judged, needed, opened, operation_verdict, split_off, verdict};

use crate::carrier::Carrier;
use crate::deed::Deed;
use crate::verdict::OperationError::{
    IllConferenceId, IllPartyId, InvalidCallState, NotActive, NotAllowed, NotAvailable,
    NotSubscribed, NumberOfPartiesExceeded, ResourceUnavailable,
};
use crate::verdict::Verdict;
use crate::verdict::Wrong::{Failed, Rejected};
use facility::InvokeProblem::{ResourceLimitation, UnrecognizedOperation};
use facility::Request;
use tables::{Call, Conference, Level, Mark, Phase, State, Tables};

// Split needs SETUP, begin takes either, and the others need FACILITY.
fn carries(carrier: Carrier, request: Request) -> bool
    ensures { result ≡ carries carrier request }
{
    match (carrier, request) {
        (_, Request::Begin { .. }) => true,
        (Carrier::Facility { .. }, Request::Split { .. }) => false,
        (Carrier::Setup { .. }, Request::Split { .. }) => true,
        (Carrier::Facility { .. }, _) => true,
        (Carrier::Setup { .. }, _) => false,
    }
}

// Whether a SETUP has the reference of a call that there is.
pub(crate) fn in_use(carrier: Carrier, tables: &Tables) -> bool
    ensures { result ≡ in_use carrier tables.now }
{
    match carrier {
        Carrier::Facility { .. } => false,
        Carrier::Setup { reference, .. } => tables.call(reference).state != State::Absent,
    }
}

// A conference that is open.
fn opened(conference: Option<Conference>) -> Option<Conference>
    ensures { result ≡ opened conference }
{
    match conference {
        Some(c) if c.phase == Phase::Open => Some(c),
        _ => None,
    }
}

// Whether a call is idle or held.
fn in_progress(call: Call) -> bool
    ensures { result ≡ in_progress call.state }
{
    matches!(call.state, State::Idle(_) | State::Held(_))
}

// The conference that the call at a reference is the link of.
fn control_of(tables: &Tables, reference: u8) -> Option<Conference>
    ensures { result ≡ control_of tables.now reference }
{
    let id = tables.call(reference).conference()?;
    tables.conference(id)
}

// The size that a begin asks for: the level's, if it gives none.
fn asked_size(level: Level, size: Option<u8>) -> u8
    ensures { result ≡ asked_size level size }
{
    size.unwrap_or(level.size())
}

// Whether a conference has as many parties as it may have.
fn is_full(tables: &Tables, conference: Conference) -> bool
    ensures { result ≡ is_full tables.now conference }
{
    usize::from(conference.size) <= tables.party_count(conference.id)
}

// A conference begun by SETUP.
fn begin_by_setup(level: Level, tables: &Tables, reference: u8, size: u8, speech: bool) -> Verdict
    ensures { result ≡ begin_by_setup level tables.now reference size speech }
{
    if !level.subscribed() {
        return Err(Failed(NotSubscribed));
    }
    if level.size() < size {
        return Err(Failed(NumberOfPartiesExceeded));
    }
    if usize::from(level.conferences()) <= tables.conference_count() {
        return Err(Failed(ResourceUnavailable));
    }
    if !speech {
        return Err(Failed(NotAvailable));
    }
    Ok(Deed::BeginBySetup {
        id: tables.next_conference(),
        size,
        reference,
    })
}

// One begun on a call in progress; the link of a conference has no leg of its own.
fn begin_on_call(level: Level, tables: &Tables, reference: u8, size: u8) -> Verdict
    ensures { result ≡ begin_on_call level tables.now reference size }
{
    let call = tables.call(reference);
    if !level.subscribed() {
        return Err(Failed(NotSubscribed));
    }
    if size == 0 || level.size() < size {
        return Err(Failed(NumberOfPartiesExceeded));
    }
    if usize::from(level.conferences()) <= tables.conference_count() {
        return Err(Failed(ResourceUnavailable));
    }
    if !in_progress(call) {
        return Err(Failed(InvalidCallState));
    }
    if !call.speech || !level.active() {
        return Err(Failed(NotAvailable));
    }
    let leg = call.own_leg().ok_or(Failed(NotAvailable))?;
    Ok(Deed::BeginOnCall {
        id: tables.next_conference(),
        size,
        reference,
        leg,
    })
}

// A call added to a conference.
fn add_to(tables: &Tables, id: u8, reference: u8) -> Verdict
    ensures { result ≡ add_to tables.now id reference }
{
    let conference = opened(tables.conference(id)).ok_or(Failed(IllConferenceId))?;
    let call = tables.call(reference);
    if is_full(tables, conference) {
        return Err(Failed(NumberOfPartiesExceeded));
    }
    if !in_progress(call) {
        return Err(Failed(InvalidCallState));
    }
    if !call.speech {
        return Err(Failed(NotAllowed));
    }
    let leg = call.own_leg().ok_or(Failed(NotAllowed))?;
    Ok(Deed::Add {
        conference: conference.id,
        party: tables.next_party(conference),
        reference,
        leg,
    })
}

// A party split off; without speech that is rejected.
fn split_off(tables: &Tables, id: u8, party: u8, reference: u8, speech: bool) -> Verdict
    ensures { result ≡ split_off tables.now id party reference speech }
{
    let conference = opened(tables.conference(id))
        .ok_or(Failed(IllConferenceId))?
        .id;
    let party = tables.party(conference, party).ok_or(Failed(IllPartyId))?;
    if !speech {
        return Err(Rejected(ResourceLimitation));
    }
    Ok(Deed::Split {
        conference,
        party,
        reference,
    })
}

// A party dropped: the call has to be the link of an open conference.
fn drop_party(tables: &Tables, reference: u8, party: u8) -> Verdict
    ensures { result ≡ control_party tables.now reference party (λ c q. Deed.Drop c q) }
{
    let conference = opened(control_of(tables, reference))
        .ok_or(Failed(NotActive))?
        .id;
    let party = tables.party(conference, party).ok_or(Failed(IllPartyId))?;
    Ok(Deed::Drop { conference, party })
}

// A party isolated or reattached, likewise.
fn mark_party(tables: &Tables, reference: u8, party: u8, mark: Mark) -> Verdict
    ensures { result ≡ control_party tables.now reference party (λ c q. Deed.Remark c q mark) }
{
    let conference = opened(control_of(tables, reference))
        .ok_or(Failed(NotActive))?
        .id;
    let party = tables.party(conference, party).ok_or(Failed(IllPartyId))?;
    Ok(Deed::Remark {
        conference,
        party,
        mark,
    })
}

// The operation's own errors, and what it comes to where there is none.
fn operation_verdict(level: Level, tables: &Tables, carrier: Carrier, request: Request) -> Verdict
    ensures { result ≡ operation_verdict level tables.now carrier request }
{
    match (carrier, request) {
        (Carrier::Setup { reference, speech }, Request::Begin { size }) => begin_by_setup(
            level,
            tables,
            reference,
            asked_size(level, size),
            speech,
        ),
        (Carrier::Facility { reference }, Request::Begin { size }) => begin_on_call(
            level,
            tables,
            reference,
            asked_size(level, size),
        ),
        (Carrier::Facility { reference }, Request::Add { conference }) => add_to(
            tables, conference, reference,
        ),
        (Carrier::Setup { reference, speech }, Request::Split { conference, party }) => split_off(
            tables, conference, party, reference, speech,
        ),
        (Carrier::Facility { reference }, Request::Drop { party }) => {
            drop_party(tables, reference, party)
        }
        (Carrier::Facility { reference }, Request::Isolate { party }) => {
            mark_party(tables, reference, party, Mark::Isolated)
        }
        (Carrier::Facility { reference }, Request::Reattach { party }) => {
            mark_party(tables, reference, party, Mark::Joined)
        }
        _ => Err(Rejected(UnrecognizedOperation)),
    }
}

// The carrier's checks first, and then the operation's errors.
pub(crate) fn judged(level: Level, tables: &Tables, carrier: Carrier, request: Request) -> Verdict
    ensures { result ≡ judged level tables.now carrier request }
{
    if !carries(carrier, request) {
        return Err(Rejected(UnrecognizedOperation));
    }
    if in_use(carrier, tables) {
        return Err(Rejected(ResourceLimitation));
    }
    operation_verdict(level, tables, carrier, request)
}

// How many notices a deed needs room for.
pub(crate) fn needed(tables: &Tables, deed: Deed) -> usize
    ensures { result ≡ needed tables.now deed }
{
    deed.told(tables).count()
}

// What becomes of a request: room, for so many notices, comes last.
pub(crate) fn verdict(
    level: Level,
    tables: &Tables,
    room: usize,
    carrier: Carrier,
    request: Request,
) -> Verdict
    ensures { result ≡ verdict level tables.now room carrier request }
{
    let deed = judged(level, tables, carrier, request)?;
    if room < needed(tables, deed) {
        return Err(Rejected(ResourceLimitation));
    }
    Ok(deed)
}
