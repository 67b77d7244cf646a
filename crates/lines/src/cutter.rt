// Cuts input into lines, block by block.
ghost use Rattle.std.specs.Prelude.{◌≡◌, [], ◌==◌, position, IfOk, IfSome, Some};
ghost use Rattle.lines.specs.Cutting.{kept, Takes};

use memchr::memchr;
use std::alloc::{AllocError, Global};

// The line that goes on behind the input so far.
#[derive(Drop)]
pub struct LineCutter {
    line: Vec<u8>,
}

// The index of the first line feed.
#[tactic(auto, using(crate::proofs::Cutting::first_is))]
fn line_feed(bytes: &[u8]) -> Option<usize>
    ensures { result ≡ position (λ b. b == 10) bytes.now }
{
    match bytes {
        // A blank line is found without a search.
        [b'\n', ..] => Some(0),
        _ => memchr(b'\n', bytes),
    }
}

impl LineCutter {
    // No line has begun.
    pub fn new(heap: Global) -> LineCutter
        ensures { kept result ≡ [] }
    {
        LineCutter {
            line: Vec::new(heap),
        }
    }

    // What there is of the line.
    pub fn line(&self) -> &[u8]
        ensures { result.now ≡ kept self.now }
    {
        self.line.as_slice()
    }

    // The line that lies whole at the front of a block, and what stands behind it; none where a line goes on, or none ends there.
    pub(crate) fn whole_line<'a>(&self, block: &'a [u8]) -> Option<(&'a [u8], &'a [u8])>
        ensures nothing { IfSome result (λ _. kept self.now ≡ []) }
        ensures cut { IfSome result (λ cut. Takes [] block.now cut.0.now (Some cut.1)) }
    {
        if !self.line.is_empty() {
            return None;
        }
        let end = line_feed(block)?;
        Some((&block[..end], &block[end + 1..]))
    }

    // Takes the bytes of a block up to the end of the line, and answers what stands behind it; none where the line goes on.
    pub fn take<'a>(&mut self, block: &'a [u8]) -> Result<Option<&'a [u8]>, AllocError>
        ensures { IfOk result (λ rest. Takes (kept self.old) block.now (kept self.new) rest) }
    {
        match line_feed(block) {
            Some(end) => {
                self.line.extend_from_slice(&block[..end])?;
                Ok(Some(&block[end + 1..]))
            }
            None => {
                self.line.extend_from_slice(block)?;
                Ok(None)
            }
        }
    }

    // Begins the next line.
    pub fn clear(&mut self)
        ensures { kept self.new ≡ [] }
    {
        self.line.clear();
    }
}
