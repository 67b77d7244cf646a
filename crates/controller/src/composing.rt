// Messages to the served user: what they begin with, and the component in their Facility element.
ghost use Rattle.std.specs.Prelude.{◌≡◌, ◌++◌, ◌≤◌, length};
ghost use Rattle.components.specs.Component.{said};
ghost use Rattle.components.specs.Message.{message_octets};
ghost use Rattle.components.specs.Writing.{encoded, Sound};

use components::{Component, Message, MessageType};

// The identifier of the Cause information element, and what it holds: where it comes from, and its value.
const CAUSE: u8 = 0x08;

const PUBLIC_NETWORK: u8 = 0x82;

const NORMAL_UNSPECIFIED: u8 = 0x9f;

// What stands in front of the Facility element: the type octet, and behind it, where a call is cleared, the cause 31, normal,
// unspecified, of the public network that serves the local user.
pub(crate) const FACILITY: &[u8] = &[MessageType::Facility as u8];

pub(crate) const CONNECT: &[u8] = &[MessageType::Connect as u8];

pub(crate) const DISCONNECT: &[u8] = &[
    MessageType::Disconnect as u8,
    CAUSE,
    2,
    PUBLIC_NETWORK,
    NORMAL_UNSPECIFIED,
];

pub(crate) const RELEASE_COMPLETE: &[u8] = &[
    MessageType::ReleaseComplete as u8,
    CAUSE,
    2,
    PUBLIC_NETWORK,
    NORMAL_UNSPECIFIED,
];

// The message of a head and a component, which read back and fit it.
pub(crate) fn compose(head: &[u8], component: &Component<'_>) -> Message
    requires sound { Sound (said component.now) }
    requires few { length (head.now ++ encoded (said component.now)) ≤ 23 }
    ensures { message_octets result ≡ head.now ++ encoded (said component.now) }
{
    let Ok(message) = Message::new(head, component) else {
        unreachable!()
    };
    message
}
