// The values that a component is made of: a tag octet, a length octet and contents, in the basic encoding rules.
//
// `read_value` takes one value from the front, `check_structure` looks at a value and everything nested in it, and
// `read_integer` reads an INTEGER. The rules are in `specs/`.
#![tactic(auto)]

mod integer;
mod tags;
mod value;
mod window;

pub use integer::{integer_size, is_short, read_integer};
pub use tags::{HEAD, INTEGER, MOST_CONTENTS, NULL, SEQUENCE};
pub use value::read_value;
pub use window::{BadValue, check_structure};
