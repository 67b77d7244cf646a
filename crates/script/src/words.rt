// The words of a line: what stands between its white space.
ghost use Rattle.std.specs.Prelude.{◌≡◌, not, position};
ghost use Rattle.lines.specs.Spelling.{is_white};
ghost use Rattle.script.specs.Words.{behind_word, digit, either, first_word, is_over, number};

use lines::is_white;

// The place of the first byte of white space.
fn first_white(text: &[u8]) -> Option<usize>
    ensures { result ≡ position is_white text.now }
{
    text.iter().position(|byte| is_white(*byte))
}

// The place of the first other byte.
fn first_black(text: &[u8]) -> Option<usize>
    ensures { result ≡ position (λ b. not (is_white b)) text.now }
{
    text.iter().position(|byte| !is_white(*byte))
}

// The value of a decimal digit.
fn digit(byte: u8) -> Option<u8>
    ensures { result ≡ digit byte }
{
    match byte {
        b'0'..=b'9' => Some(byte - b'0'),
        _ => None,
    }
}

// The number that a word spells.
fn number(word: &[u8]) -> Option<u8>
    ensures { result ≡ number word.now }
{
    if word.is_empty() {
        return None;
    }
    let mut value: u8 = 0;
    for byte in word {
        value = value.saturating_mul(10).saturating_add(digit(*byte)?);
    }
    Some(value)
}

// The words of a text that are not yet taken off.
#[derive(Clone, Copy)]
pub struct Words<'a> {
    pub rest: &'a [u8],
}

impl<'a> Words<'a> {
    // Takes the next word off; at the end it is empty.
    pub fn word(&mut self) -> &'a [u8]
        ensures word { result.now ≡ first_word self.old.rest.now }
        ensures rest { self.new.rest.now ≡ behind_word self.old.rest.now }
    {
        let start = first_black(self.rest).unwrap_or(self.rest.len());
        let text = &self.rest[start..];
        let end = first_white(text).unwrap_or(text.len());
        let (word, rest) = text.split_at(end);
        self.rest = rest;
        word
    }

    // Takes a number off.
    pub fn number(&mut self) -> Option<u8>
        ensures number { result ≡ number (first_word self.old.rest.now) }
        ensures rest { self.new.rest.now ≡ behind_word self.old.rest.now }
    {
        number(self.word())
    }

    // Takes one of two words off: whether it is the first of them.
    pub fn either(&mut self, yes: &[u8], no: &[u8]) -> Option<bool>
        ensures choice { result ≡ either yes.now no.now (first_word self.old.rest.now) }
        ensures rest { self.new.rest.now ≡ behind_word self.old.rest.now }
    {
        let word = self.word();
        if word == yes {
            Some(true)
        } else if word == no {
            Some(false)
        } else {
            None
        }
    }

    // Whether no word is left.
    pub fn is_over(mut self) -> bool
        ensures { result ≡ is_over self.entry.rest.now }
    {
        self.word().is_empty()
    }
}
