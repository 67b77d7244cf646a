// A line that keeps the messages to the remote users until the exchange collects them.
ghost use Rattle.std.specs.Prelude.{◌≤◌, length};

use crate::board::Board;
use arrayvec::ArrayVec;

mod queue;

pub use queue::Waiting;

// The most messages that can wait.
const MOST_WAITING: usize = 128;

// What each remote user has heard, and up to 128 messages that wait, the oldest first.
#[derive(PartialEq, Eq, Debug, Drop)]
pub struct Outbox {
    board: Board,
    messages: ArrayVec<[u8; 5], MOST_WAITING>,
    ghost few: { length messages.items ≤ 128 },
}
