// The Facility information element and the component that it holds.
//
// `read_element` answers the component or the element's first fault, `Component::write` puts a component into lent
// memory, and `Fault::reply` is the message that answers a fault. The rules are in `specs/`.
// Components and faults print in words, by `Display`.
#![tactic(auto)]

mod component;
mod element;
mod fault;
mod from_value;
mod kind;
mod layout;
mod message;
mod problem;
mod text;
mod values;
mod write;

pub use component::{Answer, Component, Parameter, Problem};
pub use element::read_element;
pub use fault::{Cause, Fault, Layer};
pub use layout::{COMPONENT_PLACE, ID_PLACE};
pub use message::{Message, MessageType};
pub use problem::{GeneralProblem, InvokeProblem};
pub use text::Pairs;
pub use write::Refusal;
