// Reading blocks of octets, and writing octets whole.
ghost use Rattle.std.specs.Prelude.{◌≡◌, ℕ, ◌<◌, ◌≤◌, length, take, IfOk, OnErr, OnOk};
ghost use Rattle.std.specs.Io.KnownBytes.{Appends, Consumes, IsAtEnd, Keeps};

use std::io;
use std::io::{ErrorKind, Read, Write};

// More tries than any run makes: a loop has to be seen to end.
pub(crate) const TRIES: u64 = u64::MAX;

// Reads a block of input: how many octets it has, none only where the input is at its end. An interrupted read is made again;
// where a read fails, nothing was read.
pub fn read_block<R: Read>(input: &mut R, block: &mut [u8]) -> io::Result<usize>
    ensures count { IfOk result (λ count. count ≤ length block.new) }
    ensures read { IfOk result (λ count. Consumes (R.remaining input.old) (R.remaining input.new) (take count block.new)) }
    ensures end { IfOk result (λ count. count ≡ 0 → 0 < length block.old → IsAtEnd (R.remaining input.new)) }
    ensures kept { OnErr result (Keeps (R.remaining input.old) (R.remaining input.new)) }
{
    for _ in 0..TRIES {
        match input.read(block) {
            Err(e) if e.kind() == ErrorKind::Interrupted => {}
            read => return read,
        }
    }
    Err(ErrorKind::Interrupted.into())
}

// Fills memory with what is read: how many octets that are, fewer than there is room for only where the input is at its end.
pub fn read_up_to<R: Read>(input: &mut R, memory: &mut [u8]) -> io::Result<usize>
    ensures count { IfOk result (λ count. count ≤ length memory.new) }
    ensures read { IfOk result (λ count. Consumes (R.remaining input.old) (R.remaining input.new) (take count memory.new)) }
    ensures end { IfOk result (λ count. count < length memory.new → IsAtEnd (R.remaining input.new)) }
    ensures some { OnErr result ((count : ℕ)
        × Consumes (R.remaining input.old) (R.remaining input.new) (take count memory.new)) }
{
    let mut filled = 0;
    while filled < memory.len() {
        match read_block(input, &mut memory[filled..])? {
            0 => return Ok(filled),
            count => filled += count,
        }
    }
    Ok(filled)
}

// Writes some of the octets: how many. An interrupted write is made again; where a write fails, nothing was written.
fn write_some<W: Write>(output: &mut W, octets: &[u8]) -> io::Result<usize>
    ensures count { IfOk result (λ count. count ≤ length octets.now) }
    ensures written { IfOk result (λ count. Appends (W.contents output.old) (W.contents output.new) (take count octets.now)) }
    ensures kept { OnErr result (Keeps (W.contents output.old) (W.contents output.new)) }
{
    for _ in 0..TRIES {
        match output.write(octets) {
            Err(e) if e.kind() == ErrorKind::Interrupted => {}
            written => return written,
        }
    }
    Err(ErrorKind::Interrupted.into())
}

// Writes all of the octets; where that fails, some of them, from the first on, were written.
pub fn write_whole<W: Write>(output: &mut W, octets: &[u8]) -> io::Result<()>
    ensures all { OnOk result (Appends (W.contents output.old) (W.contents output.new) octets.now) }
    ensures some { OnErr result ((count : ℕ)
        × Appends (W.contents output.old) (W.contents output.new) (take count octets.now)) }
{
    let mut written = 0;
    while written < octets.len() {
        match write_some(output, &octets[written..])? {
            0 => return Err(io::Error::new(ErrorKind::WriteZero, "failed to write whole buffer")),
            count => written += count,
        }
    }
    Ok(())
}
