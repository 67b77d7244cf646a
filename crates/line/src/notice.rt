// What a remote user can be told: the codepoints of the Notification indicator that the conference service adds.
ghost use Rattle.std.specs.Prelude.{◌≡◌};
ghost use Rattle.line.specs.Notices.{code_of};

// The nine notices, each with the octet that stands for it.
#[derive(Clone, Copy, PartialEq, Eq, Debug)]
pub enum Notice {
    // the hearer takes part in a conference
    Established = 0xc2,
    // the hearer takes part in a call of two parties again
    Disconnected = 0xc3,
    OtherAdded = 0xc4,
    // the hearer itself
    Isolated = 0xc5,
    // the hearer itself
    Reattached = 0xc6,
    OtherIsolated = 0xc7,
    OtherReattached = 0xc8,
    OtherSplit = 0xc9,
    OtherDisconnected = 0xca,
}

impl Notice {
    // The octet that stands for the notice in a message.
    pub fn code(self) -> u8
        ensures { result ≡ code_of self }
    {
        self as u8
    }
}
