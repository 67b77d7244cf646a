// The types of messages.
ghost use Rattle.std.specs.Prelude.{◌≡◌};
ghost use Rattle.components.specs.MessageTypes.{type_octet};

// The types of the messages that go to the served user, each with the octet that stands for it.
#[derive(Clone, Copy, PartialEq, Eq, Debug)]
pub enum MessageType {
    Connect = 0x07,
    Disconnect = 0x45,
    ReleaseComplete = 0x5a,
    Facility = 0x62,
}

impl MessageType {
    // The octet that a message of the type begins with.
    pub fn octet(self) -> u8
        ensures { result ≡ type_octet self }
    {
        self as u8
    }
}
