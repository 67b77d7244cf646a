// The lines of a script: what an exchange reports, requests and collects, a line each.
//
// Which text is which line is in `specs/`.
#![tactic(auto)]

mod keyword;
mod said;
mod words;

pub use said::Line;
