// Runs a script that is read, and writes what its lines are answered.
ghost use Rattle.std.specs.Prelude.{ℕ, List, IfSome, OnErr, OnOk};
ghost use Rattle.std.specs.Io.KnownBytes.{Appends, IsAtEnd};
ghost use Rattle.exchange.specs.Course.{BeginsOutput, IsOutput};

use crate::exchange::Exchange;
use lines::answer_lines;
use std::alloc::Global;
use std::io;
use std::io::{Read, Write};

// Answers the lines of a script on an output, to its end, and gives the account of the last exchange; and nothing else. Where memory
// is wanting, or a read or a write fails, what was written is a beginning of that.
pub fn run_script<R: Read, W: Write>(heap: Global, input: &mut R, output: &mut W) -> io::Result<()>
    ensures all { OnOk result (IfSome (R.remaining input.old)
        (λ script. (text : List ℕ) × IsOutput script text
        × Appends (W.contents output.old) (W.contents output.new) text)) }
    ensures end { OnOk result (IsAtEnd (R.remaining input.new)) }
    ensures some { OnErr result (BeginsOutput (R.remaining input.old) (R.remaining input.new)
        (W.contents output.old) (W.contents output.new)) }
{
    let mut exchange = Exchange::new(heap);
    answer_lines(heap, &mut exchange, input, output)
}
