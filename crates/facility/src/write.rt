// Writing the element of a request.
ghost use Rattle.std.specs.Prelude.{◌≡◌, ◌↔◌, IsTrue};
ghost use Rattle.std.specs.Option.{option_map};
ghost use Rattle.components.specs.Component.{said};
ghost use Rattle.facility.specs.Requests.{operation_asked, request_argument, request_said, InRange};
ghost use Rattle.facility.specs.Writing.{Wrote};

use crate::operation::Operation;
use crate::request::{MOST_NUMBER, Request, RequestInvoke};
use ber::{INTEGER, SEQUENCE};
use components::{Component, Parameter, Refusal};

impl Request {
    // The operation that the request invokes.
    fn operation(self) -> Operation
        ensures { result ≡ operation_asked self }
    {
        match self {
            Request::Begin { .. } => Operation::Begin,
            Request::Add { .. } => Operation::Add,
            Request::Split { .. } => Operation::Split,
            Request::Drop { .. } => Operation::Drop,
            Request::Isolate { .. } => Operation::Isolate,
            Request::Reattach { .. } => Operation::Reattach,
        }
    }

    // Whether each number is from 0 to 127.
    fn is_in_range(self) -> bool
        ensures { IsTrue result ↔ InRange self }
    {
        match self {
            Request::Begin { size } => size.is_none_or(|size| size <= MOST_NUMBER),
            Request::Add { conference } => conference <= MOST_NUMBER,
            Request::Split { conference, party } => conference <= MOST_NUMBER
                && party <= MOST_NUMBER,
            Request::Drop { party } | Request::Isolate { party } | Request::Reattach { party } => {
                party <= MOST_NUMBER
            }
        }
    }
}

impl RequestInvoke {
    // The invoke, with these octets as its argument.
    fn with_argument(self, argument: Option<&[u8]>) -> Component<'_>
        requires { option_map (λ octets. octets.now) argument ≡ request_argument self.request }
        ensures { said result ≡ request_said self }
    {
        Component::Invoke {
            id: self.id,
            operation: self.request.operation().number(),
            argument: argument.map(|octets| Parameter { octets, place: 0 }),
        }
    }

    // Writes the invoke, with these octets as its argument.
    fn write_with(self, argument: Option<&[u8]>, memory: &mut [u8]) -> Result<usize, Refusal>
        requires argument { option_map (λ octets. octets.now) argument ≡ request_argument self.request }
        requires in_range { InRange self.request }
        ensures { Wrote self memory.old memory.new result }
    {
        self.with_argument(argument).write(memory)
    }

    // Writes the element that makes the request into the front of the memory, and answers how many octets it has. A number
    // above 127 is refused, and then memory that is too short; nothing is written then.
    pub fn write(self, memory: &mut [u8]) -> Result<usize, Refusal>
        ensures { Wrote self memory.old memory.new result }
    {
        if !self.request.is_in_range() {
            return Err(Refusal::Unreadable);
        }
        match self.request {
            Request::Begin { size: None } => self.write_with(None, memory),
            Request::Begin { size: Some(n) }
            | Request::Add { conference: n }
            | Request::Drop { party: n }
            | Request::Isolate { party: n }
            | Request::Reattach { party: n } => self.write_with(Some(&[INTEGER, 1, n]), memory),
            Request::Split { conference, party } => {
                let ids = [SEQUENCE, 6, INTEGER, 1, conference, INTEGER, 1, party];
                self.write_with(Some(&ids), memory)
            }
        }
    }
}
