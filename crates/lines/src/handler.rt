// What takes the lines of an input.
ghost use Rattle.std.specs.Prelude.{ℕ, List};
ghost use Rattle.lines.specs.Answering.{AppendsSome, text_of};

use crate::answers::Answers;
use std::alloc::AllocError;

// It takes lines, one after another, and then the end of the input, and answers each.
pub trait LineHandler {
    // What a line does: the handler before, the line, what it is answered, and the handler behind it.
    ghost takes: { Self → List ℕ → List ℕ → Self → Type 0 };

    // What the end of the input does: the handler before, what is answered, and the handler behind it.
    ghost ends: { Self → List ℕ → Self → Type 0 };

    // Takes a line, and appends what it is answered.
    fn line(&mut self, line: &[u8], answers: &mut Answers) -> Result<(), AllocError>
        ensures { AppendsSome result (text_of answers.old) (text_of answers.new)
            (λ text. takes self.old line.now text self.new) };

    // Takes the end of the input, and appends what is answered to that.
    fn end(&mut self, answers: &mut Answers) -> Result<(), AllocError>
        ensures { AppendsSome result (text_of answers.old) (text_of answers.new)
            (λ text. ends self.old text self.new) };
}
