// What becomes of a request: it is granted, and comes to a deed; or one error or one problem says what is wrong.
ghost use Rattle.std.specs.Prelude.{◌≡◌};
ghost use Rattle.controller.specs.Verdicts.{error_number};

use crate::deed::Deed;
use facility::InvokeProblem;

// The return errors of the conference operations, each with its number.
#[derive(Clone, Copy, PartialEq, Eq, Debug)]
pub enum OperationError {
    NotSubscribed = 0,
    NotAvailable = 3,
    InvalidCallState = 7,
    ResourceUnavailable = 11,
    IllConferenceId = 28,
    IllPartyId = 29,
    NumberOfPartiesExceeded = 30,
    NotActive = 31,
    NotAllowed = 32,
}

impl OperationError {
    // The number that a return error carries.
    pub(crate) fn number(self) -> u8
        ensures { result ≡ error_number self }
    {
        self as u8
    }
}

// Why a request is not granted.
#[derive(Clone, Copy, PartialEq, Eq, Debug)]
pub enum Wrong {
    // answered with a return error
    Failed(OperationError),
    // answered with a reject
    Rejected(InvokeProblem),
}

// Granted, with the deed that it comes to; or why not.
pub(crate) type Verdict = Result<Deed, Wrong>;
