// Records a script that is read, and writes its reel.
ghost use Rattle.std.specs.Prelude.{IfOk, IfSome, OnErr, OnOk};
ghost use Rattle.std.specs.Io.KnownBytes.{IsAtEnd};
ghost use Rattle.record.specs.Runs.{BeginsRecording, IsRecorded};

use crate::recorder::Recorder;
use lines::{answer_lines, write_whole};
use std::alloc::Global;
use std::io;
use std::io::{Read, Write};

// Records a script, to its end: says what there is to be remarked of its lines, and then writes the reel, and nothing else; and
// answers whether an exchange has begun, and all of its calls are on the reel. Where memory is wanting, or a read or a write fails,
// what was said and written is a beginning of that.
pub fn record_script<R: Read, E: Write, W: Write>(
    heap: Global,
    input: &mut R,
    remarks: &mut E,
    output: &mut W,
) -> io::Result<bool>
    ensures all { IfOk result (λ whole. IfSome (R.remaining input.old) (λ script. IsRecorded script whole
        (E.contents remarks.old) (E.contents remarks.new) (W.contents output.old) (W.contents output.new))) }
    ensures end { OnOk result (IsAtEnd (R.remaining input.new)) }
    ensures some { OnErr result (BeginsRecording (R.remaining input.old) (R.remaining input.new)
        (E.contents remarks.old) (E.contents remarks.new) (W.contents output.old) (W.contents output.new)) }
{
    let mut recorder = Recorder::new(heap)?;
    answer_lines(heap, &mut recorder, input, remarks)?;
    let whole = recorder.is_whole();
    write_whole(output, recorder.close().as_slice())?;
    Ok(whole)
}
