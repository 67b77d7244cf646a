// Replays what is read, and writes what comes of it.
ghost use Rattle.std.specs.Prelude.{◌≡◌, ℕ, ◌<◌, ◌≤◌, List, length, take, IfOk, IfSome, OnErr, OnOk, string_bytes};
ghost use Rattle.std.specs.Io.KnownBytes.{Appends, Consumes, IsAtEnd};
ghost use Rattle.replay.specs.Running.{BeginsReplay, BeginsTelling, fault_line, Replays};
ghost use Rattle.replay.specs.Text.{blamed, outcome_text};

use crate::outcome::Outcome;
use lines::{read_up_to, write_whole};
use reel::MOST_OCTETS;
use std::alloc::{AllocError, Global};
use std::io;
use std::io::{Read, Write};
use tables::Level;

// One octet more than a reel may have: input that is longer is no reel, and is not read further.
fn enough() -> usize
    ensures { result ≡ 65537 }
{
    MOST_OCTETS + 1
}

// Memory for what is read.
fn new_memory(heap: Global) -> Result<Vec<u8>, AllocError>
    ensures { IfOk result (λ memory. length memory.items ≡ 65537) }
{
    Ok(vec![in heap; 0; enough()]?)
}

// What comes of octets, as it is printed.
fn text_of(heap: Global, outcome: &Outcome) -> Result<String, AllocError>
    ensures { IfOk result (λ text. string_bytes text ≡ outcome_text outcome.now) }
{
    let mut text = String::new(heap);
    write!(text, "{outcome}")?;
    Ok(text)
}

// What is told of the fault of an element, if that is to blame.
fn fault_line_of(heap: Global, outcome: &Outcome) -> Result<String, AllocError>
    ensures { IfOk result (λ line. string_bytes line ≡ fault_line (blamed outcome.now)) }
{
    let mut line = String::new(heap);
    if let Some(fault) = outcome.fault() {
        writeln!(line, "replay: {fault}")?;
    }
    Ok(line)
}

// Writes what comes of octets, and then tells of the fault.
fn tell<W: Write, E: Write>(
    heap: Global,
    outcome: &Outcome,
    output: &mut W,
    faults: &mut E,
) -> io::Result<()>
    ensures text { OnOk result (Appends (W.contents output.old) (W.contents output.new) (outcome_text outcome.now)) }
    ensures fault { OnOk result
        (Appends (E.contents faults.old) (E.contents faults.new) (fault_line (blamed outcome.now))) }
    ensures some { OnErr result (BeginsTelling (outcome_text outcome.now) (fault_line (blamed outcome.now))
        (W.contents output.old) (W.contents output.new) (E.contents faults.old) (E.contents faults.new)) }
{
    let text = text_of(heap, outcome)?;
    let line = fault_line_of(heap, outcome)?;
    write_whole(output, text.as_bytes())?;
    write_whole(faults, line.as_bytes())
}

// Replays the octets of an input, of which no more are read than this memory holds.
fn replay_within<R: Read, W: Write, E: Write>(
    heap: Global,
    level: Level,
    memory: &mut [u8],
    input: &mut R,
    output: &mut W,
    faults: &mut E,
) -> io::Result<bool>
    requires { length memory.old ≡ 65537 }
    ensures all { IfOk result (λ is_reel. IfSome (R.remaining input.old) (λ octets. Replays level octets is_reel
        (W.contents output.old) (W.contents output.new) (E.contents faults.old) (E.contents faults.new))) }
    ensures some { OnErr result (IfSome (R.remaining input.old) (λ octets. BeginsReplay level octets
        (W.contents output.old) (W.contents output.new) (E.contents faults.old) (E.contents faults.new))) }
    ensures few { (octets : List ℕ) × (length octets ≤ 65537)
        × Consumes (R.remaining input.old) (R.remaining input.new) octets }
{
    let count = read_up_to(input, memory)?;
    let outcome = Outcome::of(level, &memory[..count]);
    tell(heap, &outcome, output, faults)?;
    Ok(outcome.is_reel())
}

// Replays the octets of an input at a level, and writes what comes of them, and what there is to be told of a fault, and nothing
// else; and answers whether they are a reel. Where memory is wanting, or a read or a write fails, what was written is a beginning
// of that.
pub fn replay<R: Read, W: Write, E: Write>(
    heap: Global,
    level: Level,
    input: &mut R,
    output: &mut W,
    faults: &mut E,
) -> io::Result<bool>
    ensures all { IfOk result (λ is_reel. IfSome (R.remaining input.old) (λ octets. Replays level octets is_reel
        (W.contents output.old) (W.contents output.new) (E.contents faults.old) (E.contents faults.new))) }
    ensures some { OnErr result (IfSome (R.remaining input.old) (λ octets. BeginsReplay level octets
        (W.contents output.old) (W.contents output.new) (E.contents faults.old) (E.contents faults.new))) }
    ensures few { (octets : List ℕ) × (length octets ≤ 65537)
        × Consumes (R.remaining input.old) (R.remaining input.new) octets }
{
    let mut memory = new_memory(heap)?;
    replay_within(heap, level, &mut memory, input, output, faults)
}
