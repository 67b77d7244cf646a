// The element layer, and the component that an element holds.
ghost use Rattle.std.specs.Prelude.{◌≡◌, ◌+◌, ◌≤◌, true, false, length, drop, IfOk, Some, None, MatchResult};
ghost use Rattle.std.specs.Option.{option_map};
ghost use Rattle.std.specs.Result.{result_map_both};
ghost use Rattle.components.specs.declared.fault.Cause.TheVariants.{Structure};
ghost use Rattle.components.specs.Component.{part, said};
ghost use Rattle.components.specs.Cursor.{left, end_of};
ghost use Rattle.components.specs.Faults.{at};
ghost use Rattle.components.specs.Reading.{kind_tag, is_component_tag, bad_component, by_tag, head_fault, reading, read_as};
ghost use Rattle.ber.specs.Structure.{values};
ghost use Rattle.components.specs.Typed.{two_integers, an_invoke, a_result, an_error, a_reject};
ghost use Rattle.ber.specs.Value.{tag};
ghost use Rattle.components.specs.Writing.{encoded, placed};

use crate::component::{Component, Parameter};
use crate::fault::{Cause, Fault};
use crate::kind::{Kind, kind_of};
use crate::layout::{
    COMPONENT_PLACE, ID_PLACE, IDENTIFIER, IDENTIFIER_PLACE, LENGTH_PLACE, LEVELS, MOST_OCTETS,
    PROFILE, PROFILE_PLACE,
};
use crate::values::{Values, read_answer};
use ber::{HEAD, check_structure};

// The octets behind the head 1C, length, 91: the component's place.
fn behind_head(octets: &[u8]) -> Result<&[u8], Fault>
    ensures { MatchResult result (λ s. (head_fault octets.now ≡ None) × (s.now ≡ drop 3 octets.now)) (λ f. head_fault octets.now ≡ Some f) }
{
    let count = octets.len();
    let [identifier, length, profile, component @ ..] = octets else {
        return Err(Cause::Count.at(count));
    };
    if count > MOST_OCTETS {
        return Err(Cause::Count.at(count));
    }
    if *identifier != IDENTIFIER {
        return Err(Cause::Identifier.at(IDENTIFIER_PLACE));
    }
    if usize::from(*length) + HEAD != count {
        return Err(Cause::Length.at(LENGTH_PLACE));
    }
    if *profile != PROFILE {
        return Err(Cause::Profile.at(PROFILE_PLACE));
    }
    Ok(component)
}

// Every value of the component is well structured, and nothing stands behind the component.
fn check_component(octets: &[u8]) -> Result<(), Fault>
    requires { 3 ≤ length octets.now }
    ensures { MatchResult result (λ _. bad_component (drop 3 octets.now) ≡ None) (λ f. (bad_component (drop 3 octets.now) ≡ Some f.place) × (f ≡ at Structure f.place)) }
{
    let end = check_structure(octets, COMPONENT_PLACE, LEVELS)?;
    if end != octets.len() {
        return Err(Cause::Structure.at(end));
    }
    Ok(())
}

// The values behind the tag and the length of a well-structured component.
fn values_of(component: &[u8]) -> Values<'_>
    requires well { bad_component component.now ≡ None }
    requires nested { is_component_tag (tag component.now) ≡ true }
    requires within { 3 + length component.now ≤ 132 }
    ensures left { left result ≡ values 5 (drop 2 component.now) }
    ensures end { end_of result ≡ 3 + length component.now }
{
    let [_tag, _length, rest @ ..] = component else {
        unreachable!()
    };
    Values {
        rest,
        place: ID_PLACE,
    }
}

// What a component of this kind says.
fn read_component(kind: Kind, values: Values<'_>) -> Result<Component<'_>, Fault>
    ensures { read_as result ≡ by_tag (kind_tag kind) (end_of values.entry) (left values.entry) }
{
    match kind {
        Kind::Invoke => invoke(values),
        Kind::ReturnResult => return_result(values),
        Kind::ReturnError => return_error(values),
        Kind::Reject => reject(values),
    }
}

// The component that an element holds, or the element's first fault. A component writes back as the octets it was read from.
pub fn read_element(octets: &[u8]) -> Result<Component<'_>, Fault>
    ensures reads { read_as result ≡ reading octets.now }
    ensures rewrites { IfOk result (λ c. (encoded (said c) ≡ octets.now) × (placed (said c) ≡ said c)) }
{
    let component = behind_head(octets)?;
    let kind = kind_of(component)?;
    check_component(octets)?;
    read_component(kind, values_of(component))
}

// Two INTEGERs, and at most one value behind them: what an invoke holds, and a return error. (The clauses below speak of the
// list of values and the end, as the rules do, which know no cursor.)
fn two_integers(mut values: Values<'_>) -> Result<(i16, i16, Option<Parameter<'_>>), Fault>
    ensures { result_map_both (λ p. (p.0, p.1, option_map part p.2)) (λ f. f) result ≡ two_integers (end_of values.entry) (left values.entry) }
{
    let first = values.read()?;
    let second = values.read()?;
    let last = values.next();
    values.end()?;
    Ok((first, second, last))
}

fn invoke(values: Values<'_>) -> Result<Component<'_>, Fault>
    ensures { read_as result ≡ an_invoke (end_of values.entry) (left values.entry) }
{
    let (id, operation, argument) = two_integers(values)?;
    Ok(Component::Invoke {
        id,
        operation,
        argument,
    })
}

fn return_result(mut values: Values<'_>) -> Result<Component<'_>, Fault>
    ensures { read_as result ≡ a_result (end_of values.entry) (left values.entry) }
{
    let id = values.read()?;
    let answer = values.next().map(read_answer).transpose()?;
    values.end()?;
    Ok(Component::ReturnResult { id, answer })
}

fn return_error(values: Values<'_>) -> Result<Component<'_>, Fault>
    ensures { read_as result ≡ an_error (end_of values.entry) (left values.entry) }
{
    let (id, error, parameter) = two_integers(values)?;
    Ok(Component::ReturnError {
        id,
        error,
        parameter,
    })
}

fn reject(mut values: Values<'_>) -> Result<Component<'_>, Fault>
    ensures { read_as result ≡ a_reject (end_of values.entry) (left values.entry) }
{
    let id = values.read()?;
    let problem = values.read()?;
    values.end()?;
    Ok(Component::Reject { id, problem })
}
