// What one value is read as, by the type that must stand there.
ghost use Rattle.std.specs.Prelude.{◌≡◌, ℕ, List, Option};
ghost use Rattle.components.specs.Typed.{as_integer_or_null, as_problem};
ghost use Rattle.ber.specs.Integer.{as_integer};

use crate::component::Problem;
use crate::layout::{GENERAL_PROBLEM, INVOKE_PROBLEM, RETURN_ERROR_PROBLEM, RETURN_RESULT_PROBLEM};
use ber::{NULL, read_integer};

// What one value of a component is read as.
pub(crate) trait FromValue: Sized {
    ghost read: { List ℕ → Option Self };

    fn from_value(value: &[u8]) -> Option<Self>
        ensures { result ≡ read value.now };
}

impl FromValue for i16 {
    ghost read = { as_integer };

    fn from_value(value: &[u8]) -> Option<i16> {
        read_integer(value)
    }
}

// An INTEGER, or NULL.
impl FromValue for Option<i16> {
    ghost read = { as_integer_or_null };

    fn from_value(value: &[u8]) -> Option<Option<i16>> {
        match value {
            [NULL, 0] => Some(None),
            _ => read_integer(value).map(Some),
        }
    }
}

impl FromValue for Problem {
    ghost read = { as_problem };

    fn from_value(value: &[u8]) -> Option<Problem> {
        match value {
            [GENERAL_PROBLEM, 1, code] => Some(Problem::General(*code)),
            [INVOKE_PROBLEM, 1, code] => Some(Problem::Invoke(*code)),
            [RETURN_RESULT_PROBLEM, 1, code] => Some(Problem::ReturnResult(*code)),
            [RETURN_ERROR_PROBLEM, 1, code] => Some(Problem::ReturnError(*code)),
            _ => None,
        }
    }
}
