// Answers lines of hex pairs.
ghost use Rattle.std.specs.Prelude.{◌≡◌, [], IfSome, OnErr, OnOk};
ghost use Rattle.std.specs.Io.KnownBytes.{Appends, IsAtEnd};
ghost use Rattle.lines.specs.Answering.{Says, SaysNothing};
ghost use Rattle.lines.specs.Cutting.{input_lines};
ghost use Rattle.decode.specs.Lines.{BeginsAnswers, line_answer, line_answers};

use crate::account::Account;
use lines::{Answers, HexError, LineHandler, answer_lines, read_octets};
use std::alloc::{AllocError, Global};
use std::io;
use std::io::{Read, Write};

// Memory for a line's octets.
#[derive(Drop)]
struct Decoder {
    octets: Vec<u8>,
}

// Appends the answer to a line.
fn answer(line: &[u8], octets: &mut Vec<u8>, answers: &mut Answers) -> Result<(), AllocError>
    ensures said { Says result answers.old answers.new (line_answer line.now) }
    ensures kept { SaysNothing result answers.old answers.new }
{
    match read_octets(line, octets) {
        Ok(()) if octets.is_empty() => Ok(()),
        Ok(()) => answers.append_line(Account(octets.as_slice())),
        Err(HexError::NotOctets) => answers.append_whole("not octets\n"),
        Err(HexError::OutOfMemory) => Err(AllocError),
    }
}

impl LineHandler for Decoder {
    ghost takes = { λ _ line text _. text ≡ line_answer line };

    ghost ends = { λ _ text _. text ≡ [] };

    fn line(&mut self, line: &[u8], answers: &mut Answers) -> Result<(), AllocError> {
        answer(line, &mut self.octets, answers)
    }

    fn end(&mut self, _answers: &mut Answers) -> Result<(), AllocError> {
        Ok(())
    }
}

// Answers the lines of an input on an output, to its end: each once, and in order, and nothing else. Where memory is wanting, or a
// read or a write fails, what was written is a beginning of that.
pub fn decode<R: Read, W: Write>(heap: Global, input: &mut R, output: &mut W) -> io::Result<()>
    ensures all { OnOk result (IfSome (R.remaining input.old)
        (λ octets. Appends (W.contents output.old) (W.contents output.new) (line_answers (input_lines octets)))) }
    ensures end { OnOk result (IsAtEnd (R.remaining input.new)) }
    ensures some { OnErr result (BeginsAnswers (R.remaining input.old) (R.remaining input.new)
        (W.contents output.old) (W.contents output.new)) }
{
    let mut decoder = Decoder {
        octets: Vec::new(heap),
    };
    answer_lines(heap, &mut decoder, input, output)
}
