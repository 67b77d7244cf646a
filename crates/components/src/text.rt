// How octets, components and faults are printed, in the words of `specs/Wording`.
ghost use Rattle.std.specs.Prelude.{◌≡◌, ◌<◌, ◌≤◌, Some, length, true};
ghost use Rattle.std.specs.Fmt.{digit_glyph};
ghost use Rattle.std.specs.Str.{IsAscii};
ghost use Rattle.components.specs.Component.{part, answered, said};
ghost use Rattle.components.specs.Wording.{spaced, pairs, layer_text, problem_text, parameter_text, answer_text, component_text, fault_text};

use crate::component::{Answer, Component, Parameter, Problem};
use crate::fault::{Fault, Layer};
use arrayvec::ArrayVec;
use std::error::Error;
use std::{fmt, str};

// The pairs of so many octets are written at once.
const TOGETHER: usize = 32;

// The upper-case hex digit of a value below 16.
fn hex_digit(value: u8) -> u8
    requires { value < 16 }
    ensures value { result ≡ digit_glyph true value }
    ensures ascii { result < 128 }
{
    if value < 10 {
        b'0' + value
    } else {
        b'A' + (value - 10)
    }
}

// A space and the two hex digits, for each of at most 32 octets.
fn spaced_pairs(octets: &[u8]) -> ArrayVec<u8, 96>
    requires { length octets.now ≤ 32 }
    ensures pairs { result.items ≡ pairs octets.now }
    ensures ascii { IsAscii result.items }
{
    let mut text = ArrayVec::new();
    for octet in octets {
        text.push(b' ');
        text.push(hex_digit(*octet / 16));
        text.push(hex_digit(*octet % 16));
    }
    text
}

// Octets that print as pairs of hex digits, each behind a space.
#[derive(Clone, Copy, Debug)]
pub struct Pairs<'a>(pub &'a [u8]);

impl fmt::Display for Pairs<'_> {
    ghost output = { λ p. Some (pairs p.0.now) };

    fn fmt<W: fmt::Write>(&self, f: &mut fmt::Formatter<W>) -> fmt::Result {
        for octets in self.0.chunks(TOGETHER) {
            let text = spaced_pairs(octets);
            let Ok(text) = str::from_utf8(text.as_slice()) else {
                unreachable!();
            };
            f.write_str(text)?;
        }
        Ok(())
    }
}

// As in `parameter 02 01 05 at 11`.
impl fmt::Display for Parameter<'_> {
    ghost output = { λ p. Some (parameter_text (part p)) };

    fn fmt<W: fmt::Write>(&self, f: &mut fmt::Formatter<W>) -> fmt::Result {
        write!(f, "parameter{} at {}", Pairs(self.octets), self.place)
    }
}

// As in `operation 41 parameter 02 01 05 at 13`.
impl fmt::Display for Answer<'_> {
    ghost output = { λ a. Some (answer_text (answered a)) };

    fn fmt<W: fmt::Write>(&self, f: &mut fmt::Formatter<W>) -> fmt::Result {
        write!(f, "operation {} {}", self.operation, self.parameter)
    }
}

// As in `invoke problem 2`.
impl fmt::Display for Problem {
    ghost output = { λ p. Some (problem_text p) };

    fn fmt<W: fmt::Write>(&self, f: &mut fmt::Formatter<W>) -> fmt::Result {
        match self {
            Problem::General(code) => write!(f, "general problem {code}"),
            Problem::Invoke(code) => write!(f, "invoke problem {code}"),
            Problem::ReturnResult(code) => write!(f, "result problem {code}"),
            Problem::ReturnError(code) => write!(f, "error problem {code}"),
        }
    }
}

// What may be absent: it prints as nothing, or behind a space.
#[derive(Clone, Copy)]
struct Spaced<'a, T>(&'a Option<T>);

impl<T: fmt::Display> fmt::Display for Spaced<'_, T> {
    ghost output = { λ s. spaced T.output s.0.now };

    fn fmt<W: fmt::Write>(&self, f: &mut fmt::Formatter<W>) -> fmt::Result {
        match self.0 {
            Some(value) => write!(f, " {value}"),
            None => Ok(()),
        }
    }
}

// As in `invoke 5 operation 41 parameter 02 01 05 at 11`, or `reject none general problem 2`.
impl fmt::Display for Component<'_> {
    ghost output = { λ c. Some (component_text (said c)) };

    fn fmt<W: fmt::Write>(&self, f: &mut fmt::Formatter<W>) -> fmt::Result {
        match self {
            Component::Invoke {
                id,
                operation,
                argument,
            } => write!(f, "invoke {id} operation {operation}{}", Spaced(argument)),
            Component::ReturnResult { id, answer } => write!(f, "result {id}{}", Spaced(answer)),
            Component::ReturnError {
                id,
                error,
                parameter,
            } => write!(f, "error {id} error {error}{}", Spaced(parameter)),
            Component::Reject {
                id: Some(id),
                problem,
            } => write!(f, "reject {id} {problem}"),
            Component::Reject { id: None, problem } => write!(f, "reject none {problem}"),
        }
    }
}

// One word.
impl fmt::Display for Layer {
    ghost output = { λ l. Some (layer_text l) };

    fn fmt<W: fmt::Write>(&self, f: &mut fmt::Formatter<W>) -> fmt::Result {
        f.write_str(match self {
            Layer::Element => "element",
            Layer::Component => "component",
            Layer::Argument => "argument",
        })
    }
}

// As in `fault 13 at 1 element`; the reply is not in it.
impl fmt::Display for Fault {
    ghost output = { λ fault. Some (fault_text fault) };

    fn fmt<W: fmt::Write>(&self, f: &mut fmt::Formatter<W>) -> fmt::Result {
        write!(
            f,
            "fault {} at {} {}",
            self.cause.number(),
            self.place,
            self.cause.layer()
        )
    }
}

impl Error for Fault {}
