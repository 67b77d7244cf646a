// The operator: a controller and its line, step after step, and the company law that holds at each of them.
//
// The rules are in `specs/`: what a step does, the roster that is written from the answers, and the law.
#![tactic(auto)]

mod answer;
mod operating;
mod runs;
mod steps;

pub use answer::Answer;
pub use operating::step;
pub use runs::{run, start};
pub use steps::Step;
