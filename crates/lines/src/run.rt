// An input answered on an output, line by line.
ghost use Rattle.std.specs.Prelude.{◌≡◌, ℕ, ◌<◌, ◌≤◌, List, [], ◌++◌, IfNone, IfOk, IfSome, None, OnErr, OnOk, Some, length, take};
ghost use Rattle.std.specs.Io.KnownBytes.{Appends, Consumes, IsAtEnd, Keeps};
ghost use Rattle.lines.specs.Answering.{AnswersAll, AnswersSome, AreAnswered, text_of};
ghost use Rattle.lines.specs.Cutting.{ended, going_on, kept, Takes};

use crate::answers::Answers;
use crate::cutter::LineCutter;
use crate::handler::LineHandler;
use crate::stream::{TRIES, read_block, write_whole};
use std::alloc::{AllocError, Global};
use std::io;
use std::io::{ErrorKind, Read, Write};

const BLOCK: usize = 65536;

// Answers the line that ends first in the block, and tells what stands behind it; none where the line goes on, which is kept. A
// line that lies whole in the block is answered where it lies.
fn answer_next<'a, H: LineHandler>(
    handler: &mut H,
    cutter: &mut LineCutter,
    block: &'a [u8],
    answers: &mut Answers,
) -> Result<Option<&'a [u8]>, AllocError>
    ensures next { IfOk result (λ next. IfSome next (λ rest. (line : List ℕ) × (text : List ℕ)
        × Takes (kept cutter.old) block.now line (Some rest) × (kept cutter.new ≡ [])
        × H.takes handler.old line text handler.new × (text_of answers.new ≡ text_of answers.old ++ text))) }
    ensures last { IfOk result (λ next. IfNone next (Takes (kept cutter.old) block.now (kept cutter.new) None
        × (handler.new ≡ handler.old) × (text_of answers.new ≡ text_of answers.old))) }
{
    if let Some((whole, rest)) = cutter.whole_line(block) {
        handler.line(whole, answers)?;
        return Ok(Some(rest));
    }
    let Some(rest) = cutter.take(block)? else {
        return Ok(None);
    };
    handler.line(cutter.line(), answers)?;
    cutter.clear();
    Ok(Some(rest))
}

// Answers each line that ends in the block, and keeps the one that goes on.
fn answer_block<H: LineHandler>(
    handler: &mut H,
    cutter: &mut LineCutter,
    block: &[u8],
    answers: &mut Answers,
) -> Result<(), AllocError>
    ensures kept { OnOk result (kept cutter.new ≡ going_on (kept cutter.old) block.now) }
    ensures answered { OnOk result ((text : List ℕ)
        × AreAnswered H.takes handler.old (ended (kept cutter.old) block.now) text handler.new
        × (text_of answers.new ≡ text_of answers.old ++ text)) }
{
    let mut rest = block;
    while let Some(next) = answer_next(handler, cutter, rest, answers)? {
        rest = next;
    }
    Ok(())
}

// Writes the answers, and makes room for more.
fn write_answers<W: Write>(output: &mut W, answers: &mut Answers) -> io::Result<()>
    ensures all { OnOk result (Appends (W.contents output.old) (W.contents output.new) (text_of answers.old)) }
    ensures some { OnErr result ((count : ℕ)
        × Appends (W.contents output.old) (W.contents output.new) (take count (text_of answers.old))) }
    ensures cleared { OnOk result (text_of answers.new ≡ []) }
{
    write_whole(output, answers.text())?;
    answers.clear();
    Ok(())
}

// Takes the line that the input ends with, and its end, and appends what they are answered.
fn answer_end<H: LineHandler>(
    handler: &mut H,
    line: &[u8],
    answers: &mut Answers,
) -> Result<(), AllocError>
    ensures { OnOk result ((last : _) × (text : List ℕ) × (tail : List ℕ)
        × H.takes handler.old line.now text last × H.ends last tail handler.new
        × (text_of answers.new ≡ text_of answers.old ++ (text ++ tail))) }
{
    handler.line(line, answers)?;
    handler.end(answers)
}

// Memory for a block of input.
fn new_block(heap: Global) -> Result<Vec<u8>, AllocError>
    ensures { IfOk result (λ block. 0 < length block.items) }
{
    Ok(vec![in heap; 0; BLOCK]?)
}

// Reads the next block of input: how many octets it has; none where the input is at its end.
fn next_block<R: Read>(input: &mut R, block: &mut [u8]) -> io::Result<Option<usize>>
    requires { 0 < length block.old }
    ensures count { IfOk result (λ next. IfSome next (λ count. count ≤ length block.new)) }
    ensures read { IfOk result (λ next. IfSome next
        (λ count. Consumes (R.remaining input.old) (R.remaining input.new) (take count block.new))) }
    ensures end { IfOk result (λ next. IfNone next
        (Consumes (R.remaining input.old) (R.remaining input.new) [] × IsAtEnd (R.remaining input.new))) }
    ensures kept { OnErr result (Keeps (R.remaining input.old) (R.remaining input.new)) }
{
    match read_block(input, block)? {
        0 => Ok(None),
        count => Ok(Some(count)),
    }
}

// Answers all lines of an input on an output, in blocks as long as this memory.
fn answer_blocks<H: LineHandler, R: Read, W: Write>(
    heap: Global,
    block: &mut [u8],
    handler: &mut H,
    input: &mut R,
    output: &mut W,
) -> io::Result<()>
    requires { 0 < length block.old }
    ensures all { OnOk result (AnswersAll H.takes H.ends handler.old handler.new
        (R.remaining input.old) (R.remaining input.new) (W.contents output.old) (W.contents output.new)) }
    ensures some { OnErr result (AnswersSome H.takes H.ends handler.old
        (R.remaining input.old) (R.remaining input.new) (W.contents output.old) (W.contents output.new)) }
{
    let mut cutter = LineCutter::new(heap);
    let mut answers = Answers::new(heap);
    for _ in 0..TRIES {
        match next_block(input, block)? {
            Some(count) => {
                answer_block(handler, &mut cutter, &block[..count], &mut answers)?;
                write_answers(output, &mut answers)?;
            }
            None => {
                answer_end(handler, cutter.line(), &mut answers)?;
                write_answers(output, &mut answers)?;
                return Ok(());
            }
        }
    }
    Err(ErrorKind::Interrupted.into())
}

// Answers all lines of an input on an output, however the input comes in blocks: each once, and in order. Where memory is wanting,
// or a read or a write fails, what was written is a beginning of that.
pub fn answer_lines<H: LineHandler, R: Read, W: Write>(
    heap: Global,
    handler: &mut H,
    input: &mut R,
    output: &mut W,
) -> io::Result<()>
    ensures all { OnOk result (AnswersAll H.takes H.ends handler.old handler.new
        (R.remaining input.old) (R.remaining input.new) (W.contents output.old) (W.contents output.new)) }
    ensures some { OnErr result (AnswersSome H.takes H.ends handler.old
        (R.remaining input.old) (R.remaining input.new) (W.contents output.old) (W.contents output.new)) }
{
    let mut block = new_block(heap)?;
    answer_blocks(heap, &mut block, handler, input, output)
}
