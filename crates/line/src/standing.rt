// What the notices told to a remote user come to.
ghost use Rattle.std.specs.Prelude.{◌≡◌};
ghost use Rattle.line.specs.Notices.{fresh, raised, lowered, after};

use crate::notice::Notice;

// An own notice: one that says what has become of the hearer itself, and not of another party.
#[derive(Clone, Copy, PartialEq, Eq, Debug)]
pub enum OwnNotice {
    Established,
    Disconnected,
    Isolated,
    Reattached,
}

// What a remote user has heard: its latest own notice, and the parties added less those gone since it heard that its
// conference was established. The sum stops at -127 and 127.
#[derive(Clone, Copy, PartialEq, Eq, Debug)]
pub struct Standing {
    pub latest: Option<OwnNotice>,
    pub heard: i8,
}

// A sum with one party more: it stops at 127.
fn one_more(sum: i8) -> i8
    ensures { result ≡ raised sum }
{
    sum.saturating_add(1)
}

// The least sum that there is.
const LEAST_SUM: i8 = -127;

// A sum with one party fewer: it stops at -127.
fn one_fewer(sum: i8) -> i8
    ensures { result ≡ lowered sum }
{
    sum.saturating_sub(1).max(LEAST_SUM)
}

impl Standing {
    // The standing of one who has heard nothing.
    pub fn new() -> Standing
        ensures { result ≡ fresh }
    {
        Standing {
            latest: None,
            heard: 0,
        }
    }

    // The standing once a notice is heard. What a notice does to a standing is worked out here and nowhere else.
    pub fn after(self, notice: Notice) -> Standing
        ensures { result ≡ after notice self }
    {
        match notice {
            Notice::Established => Standing {
                latest: Some(OwnNotice::Established),
                heard: 0,
            },
            Notice::Disconnected => Standing {
                latest: Some(OwnNotice::Disconnected),
                ..self
            },
            Notice::OtherAdded => Standing {
                heard: one_more(self.heard),
                ..self
            },
            Notice::Isolated => Standing {
                latest: Some(OwnNotice::Isolated),
                ..self
            },
            Notice::Reattached => Standing {
                latest: Some(OwnNotice::Reattached),
                ..self
            },
            Notice::OtherIsolated | Notice::OtherReattached => self,
            Notice::OtherSplit | Notice::OtherDisconnected => Standing {
                heard: one_fewer(self.heard),
                ..self
            },
        }
    }
}
