// Why octets are no component, or no request, and at which octet.

ghost use Rattle.std.specs.Prelude.{◌≡◌};
ghost use Rattle.std.specs.Option.{option_map};
ghost use Rattle.components.specs.Component.{reject};
ghost use Rattle.components.specs.Faults.{at, cause_number, layer_of};
ghost use Rattle.components.specs.declared.fault.Cause.TheVariants.{Structure};
ghost use Rattle.components.specs.Message.{message_octets, rejection, reply_octets};

use crate::component::Problem;
use crate::message::{Message, reject_message};
use crate::problem::GeneralProblem::{
    BadlyStructuredComponent, MistypedComponent, UnrecognizedComponent,
};
use crate::problem::InvokeProblem::{MistypedArgument, UnrecognizedOperation};
use ber::BadValue;

// The layer of the protocol that is at fault.
#[derive(Clone, Copy)]
pub enum Layer {
    Element,
    Component,
    Argument,
}

// What is wrong. The last two know the invoke id, to which the reply refers.
#[derive(Clone, Copy, Debug)]
pub enum Cause {
    // fewer than 3 or more than 132 octets
    Count,
    // octet 0 is not 1C
    Identifier,
    // octet 1 is not the number of octets after it
    Length,
    // octet 2 is not 91
    Profile,
    // octet 3 is missing or no component's tag
    Tag,
    // a value is badly structured, or something stands behind the component
    Structure,
    // a value is not of the type that stands there
    Mistyped,
    // the component is no invoke
    NoInvoke,
    // no such operation
    Operation { id: i16 },
    // the wrong argument for the operation
    Argument { id: i16 },
}

// A cause, and the place that is at fault, counted in octets from the start of the element.
#[derive(Clone, Copy, Debug)]
pub struct Fault {
    pub cause: Cause,
    pub place: usize,
}

impl Cause {
    // By a match, and no numbers of the enum's own: two causes carry an id, and one number stands for two causes.
    pub fn number(self) -> u8
        ensures { result ≡ cause_number self }
    {
        match self {
            Cause::Count => 11,
            Cause::Identifier => 12,
            Cause::Length => 13,
            Cause::Profile => 14,
            Cause::Tag => 15,
            Cause::Structure => 16,
            Cause::Mistyped => 17,
            Cause::NoInvoke => 18,
            Cause::Operation { .. } => 18,
            Cause::Argument { .. } => 19,
        }
    }

    pub fn layer(self) -> Layer
        ensures { result ≡ layer_of self }
    {
        match self {
            Cause::Count | Cause::Identifier | Cause::Length | Cause::Profile => Layer::Element,
            Cause::Tag | Cause::Structure | Cause::Mistyped => Layer::Component,
            Cause::NoInvoke | Cause::Operation { .. } | Cause::Argument { .. } => Layer::Argument,
        }
    }

    // The fault of this cause at a place.
    pub fn at(self, place: usize) -> Fault
        ensures { result ≡ at self place }
    {
        Fault { cause: self, place }
    }
}

// A badly structured value is at fault in its component.
impl From<BadValue> for Fault {
    ghost from_gives = { λ bad fault. fault ≡ at Structure bad.place };

    fn from(bad: BadValue) -> Fault {
        Cause::Structure.at(bad.place)
    }
}

impl Cause {
    // The two fields of the reject that answers the cause, invoke id and problem; none for the element layer, nor without an
    // invoke.
    fn rejection(self) -> Option<(Option<i16>, Problem)>
        ensures { option_map (λ p. reject p.0 p.1) result ≡ rejection self }
    {
        match self {
            Cause::Tag => Some((None, Problem::General(UnrecognizedComponent.number()))),
            Cause::Structure => Some((None, Problem::General(BadlyStructuredComponent.number()))),
            Cause::Mistyped => Some((None, Problem::General(MistypedComponent.number()))),
            Cause::Operation { id } => {
                Some((Some(id), Problem::Invoke(UnrecognizedOperation.number())))
            }
            Cause::Argument { id } => Some((Some(id), Problem::Invoke(MistypedArgument.number()))),
            _ => None,
        }
    }
}

impl Fault {
    // The message that the exchange answers with, if any: a FACILITY with a reject.
    pub fn reply(&self) -> Option<Message>
        ensures { option_map message_octets result ≡ reply_octets self.now.cause }
    {
        let (id, problem) = self.cause.rejection()?;
        Some(reject_message(id, problem))
    }
}
