// A message to the served user: a type octet and the elements behind it.
ghost use Rattle.std.specs.Prelude.{◌≤◌};

mod reject;
mod types;

pub(crate) use reject::reject_message;
pub use types::MessageType;

// The most octets that there is memory for.
const MOST_OCTETS: usize = 23;

// Up to 23 octets. An array with a length beside it: a message is `Copy`, which an `ArrayVec` is not, and callers may rely on it.
#[derive(Clone, Copy)]
pub struct Message {
    octets: [u8; MOST_OCTETS],
    length: usize,
    ghost few: { length ≤ 23 },
}
