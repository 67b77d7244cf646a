// The exchange's tables: levels, calls, conferences and their parties.
//
// The rules are in `specs/`. Nothing here knows of requests, messages or the line.
#![tactic(auto)]

mod call;
mod circle;
mod conference;
mod each;
mod level;
mod refusal;
mod tables;

pub use call::{Call, End, Event, State};
pub use circle::Circle;
pub use conference::{Conference, Mark, Party, Phase};
pub use level::Level;
pub use refusal::{Full, LevelRefusal, Refusal};
pub use tables::Tables;
