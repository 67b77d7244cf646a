// Input cut into lines, and answered on an output, line by line; the octets that a line of hex pairs spells; reading blocks of
// octets, and writing octets whole.
#![tactic(auto)]

mod answers;
mod cutter;
mod handler;
mod hex;
mod run;
mod stream;

pub use answers::Answers;
pub use cutter::LineCutter;
pub use handler::LineHandler;
pub use hex::{HexError, is_white, read_octets};
pub use run::answer_lines;
pub use stream::{read_block, read_up_to, write_whole};
