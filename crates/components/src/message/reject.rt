// Messages made of a head and a component, what they hold, and the FACILITY message that rejects a component.
ghost use Rattle.std.specs.Prelude.{◌≡◌, ◌∷◌};
ghost use Rattle.components.specs.Component.{reject, said};
ghost use Rattle.components.specs.Message.{Composed, message_octets};
ghost use Rattle.components.specs.MessageTypes.{type_octet};
ghost use Rattle.components.specs.Writing.{encoded, Sized};

use super::{MOST_OCTETS, Message, MessageType};
use crate::component::{Component, Problem};
use crate::write::Refusal;

// What a FACILITY begins with.
const FACILITY: u8 = MessageType::Facility as u8;

impl Message {
    // The message of a head, its type octet and any elements that come first, and of the element that holds a component. A
    // component that would not read back is refused, and then a head and an element of more than 23 octets.
    pub fn new(head: &[u8], component: &Component<'_>) -> Result<Message, Refusal>
        ensures composed { Composed head.now (said component.now) result }
        ensures sized { Sized (said component.now) }
    {
        let mut octets = [0; MOST_OCTETS];
        // A longer head leaves no room for an element.
        let start = head.len().min(octets.len());
        let size = component.write(&mut octets[start..])?;
        octets[..start].copy_from_slice(&head[..start]);
        Ok(Message {
            octets,
            length: start + size,
        })
    }

    // The octets of the message.
    pub fn octets(&self) -> &[u8]
        ensures { result.now ≡ message_octets self.now }
    {
        &self.octets[..self.length]
    }
}

// FACILITY with a reject.
pub(crate) fn reject_message(id: Option<i16>, problem: Problem) -> Message
    ensures { message_octets result ≡ type_octet MessageType.Facility ∷ encoded (reject id problem) }
{
    let component = Component::Reject { id, problem };
    let Ok(message) = Message::new(&[FACILITY], &component) else {
        unreachable!()
    };
    message
}
