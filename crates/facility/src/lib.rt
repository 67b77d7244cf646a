// The conference requests that Facility elements carry, and the elements themselves.
//
// `read_request` answers the request that an element makes, or the first fault. Everything of the layers below that a
// user of requests needs is passed on.
#![tactic(auto)]

mod operation;
mod request;
mod text;
mod write;

pub use components::{
    Answer, Cause, Component, Fault, GeneralProblem, InvokeProblem, Layer, Message, MessageType,
    Pairs, Parameter, Problem, Refusal, read_element,
};
pub use operation::Operation;
pub use request::{Request, RequestInvoke, read_request};
pub use text::Replied;
