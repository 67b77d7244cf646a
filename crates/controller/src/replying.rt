// The message that answers a request: what it begins with, and the component in its Facility element.
ghost use Rattle.std.specs.Prelude.{◌≡◌, ◌++◌};
ghost use Rattle.std.specs.Option.{option_map};
ghost use Rattle.components.specs.Component.{answered, said};
ghost use Rattle.components.specs.Message.{message_octets};
ghost use Rattle.components.specs.Writing.{encoded};
ghost use Rattle.controller.specs.Replies.{head, ids_given, reply, turned_away};
ghost use Rattle.controller.specs.Given.{answer_of, ids_granted};

use crate::carrier::Carrier;
use crate::composing::{CONNECT, DISCONNECT, FACILITY, RELEASE_COMPLETE, compose};
use crate::deed::{Deed, FIRST_PARTY};
use crate::judging::in_use;
use crate::verdict::{Verdict, Wrong};
use ber::{INTEGER, SEQUENCE};
use components::{Answer, Component, Message, Parameter, Problem};
use facility::{InvokeProblem, Operation, RequestInvoke};
use tables::Tables;

// The ids that a granted request gets, as a value: INTEGERs of one octet, those of a begin in a SEQUENCE.
#[derive(Clone, Copy)]
pub(crate) enum IdsGiven {
    Conference([u8; 5]),
    ConferenceAndParty([u8; 8]),
    Party([u8; 3]),
}

impl IdsGiven {
    // The operation that the result answers, and the value.
    fn answer(&self) -> Answer<'_>
        ensures { answered result ≡ answer_of self.now }
    {
        let (operation, octets): (Operation, &[u8]) = match self {
            IdsGiven::Conference(octets) => (Operation::Begin, octets),
            IdsGiven::ConferenceAndParty(octets) => (Operation::Begin, octets),
            IdsGiven::Party(octets) => (Operation::Add, octets),
        };
        let parameter = Parameter { octets, place: 0 };
        Answer {
            operation: operation.number(),
            parameter,
        }
    }
}

// The ids that a deed gives: a begin the ConferenceId, and behind it the PartyId of the call in progress; an add the PartyId.
fn ids_given(deed: Deed) -> Option<IdsGiven>
    ensures { option_map answer_of result ≡ ids_given deed }
{
    match deed {
        Deed::BeginBySetup { id, .. } => {
            Some(IdsGiven::Conference([SEQUENCE, 3, INTEGER, 1, id]))
        }
        Deed::BeginOnCall { id, .. } => {
            let ids = [SEQUENCE, 6, INTEGER, 1, id, INTEGER, 1, FIRST_PARTY];
            Some(IdsGiven::ConferenceAndParty(ids))
        }
        Deed::Add { party, .. } => Some(IdsGiven::Party([INTEGER, 1, party])),
        _ => None,
    }
}

// What the message begins with: FACILITY to FACILITY, but DISCONNECT where a call was added; CONNECT or RELEASE COMPLETE to a
// SETUP, but FACILITY where its reference is that of a call.
fn head(carrier: Carrier, tables: &Tables, verdict: Verdict) -> &'static [u8]
    ensures { result.now ≡ head carrier tables.now verdict }
{
    match (carrier, verdict) {
        (Carrier::Facility { .. }, Ok(Deed::Add { .. })) => DISCONNECT,
        (Carrier::Facility { .. }, _) => FACILITY,
        (Carrier::Setup { .. }, Ok(_)) => CONNECT,
        (Carrier::Setup { .. }, Err(_)) => if in_use(carrier, tables) {
            FACILITY
        } else {
            RELEASE_COMPLETE
        }
    }
}

// The component under an invoke id: a result with the ids given, a return error without parameter, or a reject.
fn component(id: i16, verdict: Verdict, ids: &Option<IdsGiven>) -> Component<'_>
    requires { option_map answer_of ids.now ≡ ids_granted verdict }
    ensures { said result ≡ reply id verdict }
{
    match verdict {
        Ok(_) => Component::ReturnResult {
            id,
            answer: ids.as_ref().map(IdsGiven::answer),
        },
        Err(Wrong::Failed(error)) => Component::ReturnError {
            id,
            error: i16::from(error.number()),
            parameter: None,
        },
        Err(Wrong::Rejected(problem)) => Component::Reject {
            id: Some(id),
            problem: Problem::Invoke(problem.number()),
        },
    }
}

// The message body that answers a request.
#[tactic(auto, using(crate::proofs::Bodies::reply_sound))]
pub(crate) fn reply(carrier: Carrier, id: i16, tables: &Tables, verdict: Verdict) -> Message
    ensures { message_octets result ≡ head carrier tables.now verdict ++ encoded (reply id verdict) }
{
    let ids = verdict.ok().and_then(ids_given);
    let head = head(carrier, tables, verdict);
    compose(head, &component(id, verdict, &ids))
}

// The message body that turns a request away: FACILITY with a reject.
pub(crate) fn turned_away(asked: RequestInvoke) -> Message
    ensures { message_octets result ≡ turned_away asked }
{
    let rejected = Err(Wrong::Rejected(InvokeProblem::ResourceLimitation));
    compose(FACILITY, &component(asked.id, rejected, &None))
}
