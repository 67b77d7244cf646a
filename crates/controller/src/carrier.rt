// The message that carried a request.
ghost use Rattle.std.specs.Prelude.{◌≡◌};
ghost use Rattle.controller.specs.Judging.{reference_of};
ghost use Rattle.controller.specs.Steps.{is_reference};

use crate::reporting::is_reference;

#[derive(Clone, Copy, PartialEq, Eq, Debug)]
pub enum Carrier {
    Facility { reference: u8 },
    Setup { reference: u8, speech: bool },
}

impl Carrier {
    // The reference that the message came on.
    pub(crate) fn reference(self) -> u8
        ensures { result ≡ reference_of self }
    {
        match self {
            Carrier::Facility { reference } | Carrier::Setup { reference, .. } => reference,
        }
    }

    // Whether there is such a reference.
    pub fn in_range(self) -> bool
        ensures { result ≡ is_reference (reference_of self) }
    {
        is_reference(self.reference())
    }
}
