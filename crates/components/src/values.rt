// The values that follow one another in well-structured contents, taken one at a time.
ghost use Rattle.components.specs.Structured.{Left};

mod cursor;

pub(crate) use cursor::read_answer;

// What is left of the contents, and the place of its first octet.
#[derive(Clone, Copy)]
pub(crate) struct Values<'a> {
    pub(crate) rest: &'a [u8],
    pub(crate) place: usize,
    ghost well: { Left place rest.now },
}
