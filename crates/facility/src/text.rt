// How a request is printed, and a fault with its reply, in the words of `specs/Wording`.
ghost use Rattle.std.specs.Prelude.{Some};
ghost use Rattle.facility.specs.Wording.{replied_text, request_text};

use crate::request::Request;
use components::{Fault, Pairs};
use std::fmt;

// As in `split conference 3 party 7`.
impl fmt::Display for Request {
    ghost output = { λ r. Some (request_text r) };

    fn fmt<W: fmt::Write>(&self, f: &mut fmt::Formatter<W>) -> fmt::Result {
        match self {
            Request::Begin { size: None } => write!(f, "begin"),
            Request::Begin { size: Some(size) } => write!(f, "begin size {size}"),
            Request::Add { conference } => write!(f, "add conference {conference}"),
            Request::Split { conference, party } => {
                write!(f, "split conference {conference} party {party}")
            }
            Request::Drop { party } => write!(f, "drop party {party}"),
            Request::Isolate { party } => write!(f, "isolate party {party}"),
            Request::Reattach { party } => write!(f, "reattach party {party}"),
        }
    }
}

// A fault, and the reply of the exchange where there is one.
#[derive(Clone, Copy)]
pub struct Replied(pub Fault);

impl fmt::Display for Replied {
    ghost output = { λ r. Some (replied_text r.0) };

    fn fmt<W: fmt::Write>(&self, f: &mut fmt::Formatter<W>) -> fmt::Result {
        let fault = self.0;
        match fault.reply() {
            Some(message) => write!(f, "{fault} reply{}", Pairs(message.octets())),
            None => fault.fmt(f),
        }
    }
}
