// The line to the remote users of a conference: what they are told, and what that tells of their company.
//
// A remote user is reached by a leg. A `Notice` changes the `Standing` of the one who hears it; a `Line` tells notices,
// and is known to its callers only by the standing of each leg and by its room. The `Outbox` keeps the messages until they
// are collected, the `Board` keeps standings alone. The rules are in `specs/`.
#![tactic(auto)]

mod acts;
mod board;
mod leg;
mod meaning;
mod notice;
mod outbox;
mod standing;
mod telling;

pub use acts::{Act, BothLines, carry_out, on_new_lines};
pub use board::Board;
pub use leg::is_leg;
pub use meaning::{Line, Refusal};
pub use notice::Notice;
pub use outbox::{Outbox, Waiting};
pub use standing::{OwnNotice, Standing};
pub use telling::tell_each;
