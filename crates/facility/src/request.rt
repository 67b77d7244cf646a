// The conference requests: six operations, each invoked with its own argument.
ghost use Rattle.std.specs.Prelude.{◌≡◌, length, IfOk, Ok};
ghost use Rattle.std.specs.Option.{option_map};
ghost use Rattle.components.specs.Component.{part, said};
ghost use Rattle.facility.specs.Requests.{a_number, two_numbers, operation_of, asks, octets_in, requested, requesting, request_octets, Lawful};
ghost use Rattle.components.specs.Writing.{encoded};

use crate::operation::Operation;
use ber::{INTEGER, SEQUENCE, integer_size};
use components::{COMPONENT_PLACE, Cause, Component, Fault, ID_PLACE, Parameter, read_element};

#[derive(Clone, Copy, Debug, PartialEq, Eq)]
pub enum Request {
    // No size asks for the largest that the served user's level allows.
    Begin { size: Option<u8> },
    Add { conference: u8 },
    Split { conference: u8, party: u8 },
    Drop { party: u8 },
    Isolate { party: u8 },
    Reattach { party: u8 },
}

// A request, with the invoke id that its reply refers to.
#[derive(Clone, Copy, Debug, PartialEq, Eq)]
pub struct RequestInvoke {
    pub id: i16,
    pub request: Request,
}

// The numbers of the operations that requests invoke.
const BEGIN: i16 = Operation::Begin as i16;

const ADD: i16 = Operation::Add as i16;

const SPLIT: i16 = Operation::Split as i16;

const DROP: i16 = Operation::Drop as i16;

const ISOLATE: i16 = Operation::Isolate as i16;

const REATTACH: i16 = Operation::Reattach as i16;

// The operation of a request, by its number.
fn operation_of(code: i16) -> Option<Operation>
    ensures { result ≡ operation_of code }
{
    match code {
        BEGIN => Some(Operation::Begin),
        ADD => Some(Operation::Add),
        SPLIT => Some(Operation::Split),
        DROP => Some(Operation::Drop),
        ISOLATE => Some(Operation::Isolate),
        REATTACH => Some(Operation::Reattach),
        _ => None,
    }
}

impl Operation {
    // What the operation asks with its argument, which may be absent at begin alone; none where the argument is wrong.
    fn asked(self, argument: Option<Parameter<'_>>) -> Option<Request>
        ensures { result ≡ asks self (octets_in (option_map part argument.entry)) }
    {
        if let (Operation::Begin, None) = (self, argument) {
            return Some(Request::Begin { size: None });
        }
        let octets = argument?.octets;
        match self {
            Operation::Begin => number(octets).map(|size| Request::Begin { size: Some(size) }),
            Operation::Add => number(octets).map(|conference| Request::Add { conference }),
            Operation::Split => {
                two_numbers(octets).map(|(conference, party)| Request::Split { conference, party })
            }
            Operation::Drop => number(octets).map(|party| Request::Drop { party }),
            Operation::Isolate => number(octets).map(|party| Request::Isolate { party }),
            Operation::Reattach => number(octets).map(|party| Request::Reattach { party }),
            Operation::PartyDisc => None,
        }
    }
}

// The most that a number of a request may be, and the octets of its INTEGER.
pub(crate) const MOST_NUMBER: u8 = 127;

const NUMBER_SIZE: usize = 3;

// A number from 0 to 127: an INTEGER of one octet.
fn number(octets: &[u8]) -> Option<u8>
    ensures { result ≡ a_number octets.now }
{
    match octets {
        [INTEGER, 1, n @ 0..=MOST_NUMBER] => Some(*n),
        _ => None,
    }
}

// A SEQUENCE of a ConferenceId and a PartyId.
fn two_numbers(octets: &[u8]) -> Option<(u8, u8)>
    ensures { result ≡ two_numbers octets.now }
{
    let [SEQUENCE, 6, ids @ ..] = octets else {
        return None;
    };
    let (conference, party) = ids.split_at_checked(NUMBER_SIZE)?;
    Some((number(conference)?, number(party)?))
}

// The request that a component makes, or why it makes none. The component begins at place 3 and its id at 5; `end` is the
// place behind it.
fn request_in(component: Component<'_>, end: usize) -> Result<RequestInvoke, Fault>
    ensures asks { result ≡ requested end (said component.entry) }
    ensures only { IfOk result (λ a. Lawful a × (encoded (said component.entry) ≡ request_octets a)) }
{
    let Component::Invoke {
        id,
        operation,
        argument,
    } = component
    else {
        return Err(Cause::NoInvoke.at(COMPONENT_PLACE));
    };
    let unknown = Cause::Operation { id }.at(ID_PLACE + integer_size(id));
    let operation = operation_of(operation).ok_or(unknown)?;
    let wrong = Cause::Argument { id }.at(argument.map_or(end, |value| value.place));
    let request = operation.asked(argument).ok_or(wrong)?;
    Ok(RequestInvoke { id, request })
}

// The request that an element holds, or the first fault. Each request is made by one element, and by no other.
pub fn read_request(octets: &[u8]) -> Result<RequestInvoke, Fault>
    ensures reads { result ≡ requesting octets.now }
    ensures only { IfOk result (λ a. Lawful a × (octets.now ≡ request_octets a)) }
    ensures every { (a : RequestInvoke) → Lawful a → octets.now ≡ request_octets a → result ≡ Ok a }
{
    request_in(read_element(octets)?, octets.len())
}
