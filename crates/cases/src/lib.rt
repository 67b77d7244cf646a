// Worked examples, proved by computing the rules, and tests of what contracts cannot say.
#![tactic(auto)]

mod conferring;
mod copying;
mod examples;
mod keeping;
mod reels;
mod showing;
mod telling;
mod writing;

pub use copying::copy_element;
pub use examples::examples_hold;
pub use telling::{first_message, waiting_on, worked_line};
