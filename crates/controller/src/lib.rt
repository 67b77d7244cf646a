// The conference controller: what the exchange reports and what the served users request, and what is done and told.
//
// The rules are in `specs/`.
#![tactic(auto)]

mod carrier;
mod change;
mod composing;
mod controller;
mod deed;
mod disc;
mod doing;
mod granting;
mod judging;
mod pending;
mod replying;
mod report;
mod reporting;
mod told;
mod verdict;

pub use carrier::Carrier;
pub use controller::Controller;
pub use deed::Deed;
pub use disc::Disc;
pub use pending::{PendingReply, Reply};
pub use report::{Acceptance, Report};
pub use reporting::is_reference;
pub use verdict::{OperationError, Wrong};
