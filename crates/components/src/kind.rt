// The four kinds of component, by their tags.
ghost use Rattle.std.specs.Prelude.{◌≡◌, true, false, MatchResult};
ghost use Rattle.components.specs.declared.fault.Cause.TheVariants.{Tag};
ghost use Rattle.components.specs.Component.{said};
ghost use Rattle.components.specs.Faults.{at};
ghost use Rattle.components.specs.Reading.{kind_tag, is_component_tag};
ghost use Rattle.components.specs.Writing.{component_tag};
ghost use Rattle.ber.specs.Value.{tag};

use crate::component::Component;
use crate::fault::{Cause, Fault};
use crate::layout::COMPONENT_PLACE;

// The kind of a component, with the tag that says it.
#[derive(Clone, Copy, PartialEq, Eq, Debug)]
pub(crate) enum Kind {
    Invoke = 0xa1,
    ReturnResult = 0xa2,
    ReturnError = 0xa3,
    Reject = 0xa4,
}

// The tags, for patterns.
const INVOKE: u8 = Kind::Invoke as u8;

const RETURN_RESULT: u8 = Kind::ReturnResult as u8;

const RETURN_ERROR: u8 = Kind::ReturnError as u8;

const REJECT: u8 = Kind::Reject as u8;

// What kind of component it is, by its tag.
pub(crate) fn kind_of(component: &[u8]) -> Result<Kind, Fault>
    ensures { MatchResult result (λ kind. (kind_tag kind ≡ tag component.now) × (is_component_tag (tag component.now) ≡ true)) (λ f. (is_component_tag (tag component.now) ≡ false) × (f ≡ at Tag 3)) }
{
    match component {
        [INVOKE, ..] => Ok(Kind::Invoke),
        [RETURN_RESULT, ..] => Ok(Kind::ReturnResult),
        [RETURN_ERROR, ..] => Ok(Kind::ReturnError),
        [REJECT, ..] => Ok(Kind::Reject),
        _ => Err(Cause::Tag.at(COMPONENT_PLACE)),
    }
}

impl Component<'_> {
    // The tag of its kind.
    pub(crate) fn tag(&self) -> u8
        ensures { result ≡ component_tag (said self.now) }
    {
        let kind = match self {
            Component::Invoke { .. } => Kind::Invoke,
            Component::ReturnResult { .. } => Kind::ReturnResult,
            Component::ReturnError { .. } => Kind::ReturnError,
            Component::Reject { .. } => Kind::Reject,
        };
        kind as u8
    }
}
