// Writing a component into lent memory.
ghost use Rattle.std.specs.Prelude.{◌≡◌, ◌+◌, ◌∷◌, ◌↔◌, [], ◌++◌, length, MatchResult, FitsSigned};
ghost use Rattle.components.specs.Component.{part, answered, said};
ghost use Rattle.components.specs.Contents.{AppendsIf, Appends};
ghost use Rattle.components.specs.Writing.{answer_octets, component_contents, component_tag, id_octets, optional_octets, problem_octets, refusal_number, Each, One, Fit, Sound, Sized, Written};
ghost use Rattle.ber.specs.Integer.{integer_octets};
ghost use Rattle.std.specs.Int.{w16};
ghost use Rattle.std.specs.Option.{option_map};
ghost use Rattle.components.specs.declared.write.Refusal.TheVariants.{Unreadable};

use crate::component::{Answer, Component, Parameter, Problem};
use crate::layout::{
    GENERAL_PROBLEM, ID_PLACE, IDENTIFIER, INNER_LEVELS, INVOKE_PROBLEM, PROFILE,
    RETURN_ERROR_PROBLEM, RETURN_RESULT_PROBLEM, VALUE_LEVELS,
};
use arrayvec::ArrayVec;
use ber::{INTEGER, NULL, SEQUENCE, check_structure, integer_size, is_short};

// Why nothing was written.
#[derive(Clone, Copy, Debug, PartialEq, Eq)]
pub enum Refusal {
    // the component would not read back
    Unreadable = 16,
    // the memory is too short
    ShortMemory = 8,
}

impl Refusal {
    // The number by which the refusal is known outside.
    pub fn number(self) -> u8
        ensures { result ≡ refusal_number self }
    {
        self as u8
    }
}

// The octets, if they are one value, well structured, for which `levels` of nesting are left.
fn one_value(octets: &[u8], levels: u8) -> Result<&[u8], Refusal>
    ensures { MatchResult result (λ s. One levels octets.now × (s.now ≡ octets.now)) (λ e. (One levels octets.now → ⊥) × (e ≡ Unreadable)) }
{
    match check_structure(octets, 0, levels) {
        Ok(end) if end == octets.len() => Ok(octets),
        _ => Err(Refusal::Unreadable),
    }
}

// What stands behind a component's tag and length, put together piece by piece: at most 127 octets, as many as a length
// octet can count.
#[derive(Drop)]
struct Contents {
    octets: ArrayVec<u8, 127>,
}

impl Contents {
    // A run of octets; refused where there would then be more than 127.
    fn put(&mut self, piece: &[u8]) -> Result<(), Refusal>
        ensures { Appends piece.now self.old self.new result }
    {
        self.octets
            .try_extend_from_slice(piece)
            .map_err(|_| Refusal::Unreadable)
    }

    // An INTEGER, in one octet of contents where it fits, and else in two.
    fn put_integer(&mut self, n: i16) -> Result<(), Refusal>
        ensures { Appends (integer_octets n) self.old self.new result }
    {
        let [high, low] = n.to_be_bytes();
        if is_short(n) {
            self.put(&[INTEGER, 1, low])
        } else {
            self.put(&[INTEGER, 2, high, low])
        }
    }

    // An invoke id, or NULL. (`sized`, here and below, says of a number that it is an `i16`'s, to callers that see an integer.)
    fn put_id(&mut self, id: Option<i16>) -> Result<(), Refusal>
        ensures put { Appends (id_octets id) self.old self.new result }
        ensures sized { Each (λ n. FitsSigned w16 n) id }
    {
        match id {
            Some(n) => self.put_integer(n),
            None => self.put(&[NULL, 0]),
        }
    }

    // A problem's code, under the tag of the kind of component at fault.
    fn put_problem(&mut self, problem: Problem) -> Result<(), Refusal>
        ensures { Appends (problem_octets problem) self.old self.new result }
    {
        let (tag, code) = match problem {
            Problem::General(code) => (GENERAL_PROBLEM, code),
            Problem::Invoke(code) => (INVOKE_PROBLEM, code),
            Problem::ReturnResult(code) => (RETURN_RESULT_PROBLEM, code),
            Problem::ReturnError(code) => (RETURN_ERROR_PROBLEM, code),
        };
        self.put(&[tag, 1, code])
    }

    // A parameter, if there is one.
    fn put_parameter(&mut self, parameter: Option<Parameter<'_>>) -> Result<(), Refusal>
        ensures { AppendsIf (Fit 7 (option_map part parameter.entry)) (optional_octets (option_map part parameter.entry)) self.old self.new result }
    {
        let Some(parameter) = parameter else {
            return Ok(());
        };
        self.put(one_value(parameter.octets, VALUE_LEVELS)?)
    }

    // The SEQUENCE of an operation and the value that answers it.
    #[tactic(auto, using(crate::proofs::ReadBack::one_few))]
    fn put_answer(&mut self, answer: Answer<'_>) -> Result<(), Refusal>
        ensures { AppendsIf (One 6 answer.entry.parameter.octets.now) (answer_octets (Some (answered answer.entry))) self.old self.new result }
    {
        let octets = one_value(answer.parameter.octets, INNER_LEVELS)?;
        let length = integer_size(answer.operation) + octets.len();
        // One value has at most 129 octets, so the length fits an octet.
        self.put(&[SEQUENCE, length as u8])?;
        self.put_integer(answer.operation)?;
        self.put(octets)
    }

    // Two INTEGERs and a parameter, as an invoke and a return error have them.
    fn put_integers(
        &mut self,
        first: i16,
        second: i16,
        parameter: Option<Parameter<'_>>,
    ) -> Result<(), Refusal>
        ensures { AppendsIf (Fit 7 (option_map part parameter.entry)) (integer_octets first ++ (integer_octets second ++ optional_octets (option_map part parameter.entry))) self.old self.new result }
    {
        self.put_integer(first)?;
        self.put_integer(second)?;
        self.put_parameter(parameter)
    }

    // An INTEGER and an answer, as a return result has them.
    fn put_result(&mut self, id: i16, answer: Answer<'_>) -> Result<(), Refusal>
        ensures put { AppendsIf (One 6 answer.entry.parameter.octets.now) (integer_octets id ++ answer_octets (Some (answered answer.entry))) self.old self.new result }
        ensures sized { FitsSigned w16 answer.entry.operation }
    {
        self.put_integer(id)?;
        self.put_answer(answer)
    }

    // What stands behind the component's tag and length.
    fn put_values(&mut self, component: &Component<'_>) -> Result<(), Refusal>
        ensures put { AppendsIf (Sound (said component.now)) (component_contents (said component.now)) self.old self.new result }
        ensures sized { Sized (said component.now) }
    {
        match *component {
            Component::Invoke {
                id,
                operation,
                argument,
            } => self.put_integers(id, operation, argument),
            Component::ReturnResult { id, answer: None } => self.put_integer(id),
            Component::ReturnResult {
                id,
                answer: Some(answer),
            } => self.put_result(id, answer),
            Component::ReturnError {
                id,
                error,
                parameter,
            } => self.put_integers(id, error, parameter),
            Component::Reject { id, problem } => {
                self.put_id(id)?;
                self.put_problem(problem)
            }
        }
    }
}

impl Component<'_> {
    // Writes the element that holds the component into the front of the memory, and answers how many octets it has. A
    // component that would not read back is refused, and then memory that is too short; nothing is written then.
    pub fn write(&self, memory: &mut [u8]) -> Result<usize, Refusal>
        ensures written { Written (said self.now) memory.old memory.new result }
        ensures sized { Sized (said self.now) }
    {
        let mut contents = Contents {
            octets: ArrayVec::new(),
        };
        contents.put_values(self)?;
        let length = contents.octets.len();
        let size = ID_PLACE + length;
        if memory.len() < size {
            return Err(Refusal::ShortMemory);
        }
        // The contents are at most 127 octets, so their number fits an octet.
        let count = length as u8;
        // By index: after a slice's `get_mut` the checker knows nothing of what the slice holds.
        memory[..ID_PLACE].copy_from_slice(&[IDENTIFIER, count + 3, PROFILE, self.tag(), count]);
        memory[ID_PLACE..size].copy_from_slice(contents.octets.as_slice());
        Ok(size)
    }
}
