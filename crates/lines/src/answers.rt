// The answers that are not yet written.
ghost use Rattle.std.specs.Prelude.{◌≡◌, [], ◌++◌, IfSome, OnErr, OnOk};
ghost use Rattle.std.specs.Fmt.{with_newline};
ghost use Rattle.lines.specs.Answering.{text_of};

use std::alloc::{AllocError, Global};
use std::fmt::Display;

// Whole lines of text, and memory in which the next is made: a line that is not whole is not among them.
#[derive(Drop)]
pub struct Answers {
    text: String,
    line: String,
}

impl Answers {
    // No answer yet.
    pub fn new(heap: Global) -> Answers
        ensures { text_of result ≡ [] }
    {
        Answers {
            text: String::new(heap),
            line: String::new(heap),
        }
    }

    // What was appended.
    pub fn text(&self) -> &[u8]
        ensures { result.now ≡ text_of self.now }
    {
        self.text.as_bytes()
    }

    // Appends a line, as it prints, and its line feed. Where memory is wanting, nothing is appended.
    pub fn append_line<D: Display + Drop>(&mut self, line: D) -> Result<(), AllocError>
        ensures whole { OnOk result (IfSome (with_newline (D.output line))
            (λ text. text_of self.new ≡ text_of self.old ++ text)) }
        ensures kept { OnErr result (text_of self.new ≡ text_of self.old) }
    {
        self.line.clear();
        self.line.write(line)?;
        self.line.push_str("\n")?;
        self.text.push_str(self.line.as_str())
    }

    // Appends lines that are whole. Where memory is wanting, nothing is appended.
    pub fn append_whole(&mut self, lines: &str) -> Result<(), AllocError>
        ensures whole { OnOk result (text_of self.new ≡ text_of self.old ++ lines.now) }
        ensures kept { OnErr result (text_of self.new ≡ text_of self.old) }
    {
        self.text.push_str(lines)
    }

    // Makes room for more, once these are written.
    pub fn clear(&mut self)
        ensures { text_of self.new ≡ [] }
    {
        self.text.clear();
    }
}
