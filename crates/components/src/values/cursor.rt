// Taking values one at a time, by the type that must stand there.
ghost use Rattle.std.specs.Prelude.{◌≡◌, true, false, [], ◌∷◌, drop, Some, None, MatchOption, MatchResult};
ghost use Rattle.std.specs.Bool.{⊤};
ghost use Rattle.std.specs.Iterator.{YieldsFirstBy, MakesProgress, item_count};
ghost use Rattle.components.specs.declared.fault.Cause.TheVariants.{Mistyped};
ghost use Rattle.components.specs.Component.{part, answered};
ghost use Rattle.components.specs.Cursor.{left, end_of, Took};
ghost use Rattle.components.specs.Faults.{at};
ghost use Rattle.components.specs.Structured.{Well};
ghost use Rattle.components.specs.Typed.{nothing_more, an_answer};
ghost use Rattle.ber.specs.Value.{is_tagged};

use super::Values;
use crate::component::{Answer, Parameter};
use crate::fault::{Cause, Fault};
use crate::from_value::FromValue;
use ber::{HEAD, SEQUENCE, read_value};

impl<'a> Iterator for Values<'a> {
    type Item = Parameter<'a>;

    ghost next_gives = { YieldsFirstBy part left };

    ghost remaining = { item_count left };

    fn next(&mut self) -> Option<Parameter<'a>>
        ensures steps { YieldsFirstBy part left self.old result self.new }
        ensures goes { MakesProgress (λ _. ⊤) (item_count left) self.old result self.new }
        ensures places { MatchOption result (self.old.place ≡ end_of self.old) (λ p. (end_of self.new ≡ end_of self.old) × Well p) }
    {
        let (octets, rest) = read_value(self.rest)?;
        let place = self.place;
        *self = Values {
            rest,
            place: place + octets.len(),
        };
        Some(Parameter { octets, place })
    }
}

impl Values<'_> {
    // Reads the value at the front as the type that must stand there; the end is at fault where nothing is left.
    pub(crate) fn read<T: FromValue>(&mut self) -> Result<T, Fault>
        ensures { Took T.FromValue.read self.old self.new result }
    {
        let end = self.place;
        let value = self.next().ok_or(Cause::Mistyped.at(end))?;
        T::from_value(value.octets).ok_or(Cause::Mistyped.at(value.place))
    }

    // Nothing may be left.
    pub(crate) fn end(mut self) -> Result<(), Fault>
        ensures { result ≡ nothing_more (left self.entry) }
    {
        match self.next() {
            None => Ok(()),
            Some(surplus) => Err(Cause::Mistyped.at(surplus.place)),
        }
    }
}

// What a SEQUENCE holds.
fn sequence(value: &[u8]) -> Option<&[u8]>
    ensures { MatchOption result (is_tagged 0x30 value.now ≡ false) (λ s. (is_tagged 0x30 value.now ≡ true) × (s.now ≡ drop 2 value.now)) }
{
    match value {
        [SEQUENCE, length, contents @ ..] if HEAD + usize::from(*length) == value.len() => Some(
            contents,
        ),
        _ => None,
    }
}

// The answer that a value must be: a SEQUENCE of an INTEGER and one value. Whatever is wrong in it, the SEQUENCE is at fault.
pub(crate) fn read_answer(value: Parameter<'_>) -> Result<Answer<'_>, Fault>
    requires { Well value }
    ensures { MatchResult result (λ a. an_answer (part value.entry) ≡ Some (answered a)) (λ f. (an_answer (part value.entry) ≡ None) × (f ≡ at Mistyped value.entry.place)) }
{
    let wrong = Cause::Mistyped.at(value.place);
    let rest = sequence(value.octets).ok_or(wrong)?;
    let mut values = Values {
        rest,
        place: value.place + HEAD,
    };
    let operation = values.read().map_err(|_| wrong)?;
    let parameter = values.next().ok_or(wrong)?;
    values.end().map_err(|_| wrong)?;
    Ok(Answer {
        operation,
        parameter,
    })
}
