//! The engine of an audit: it takes in fragments, and answers in rounds what all that was received is: serial, pending or
//! violated.
#![tactic(auto)]

mod catching_up;
mod fronts;
mod intake;
mod joining;
mod opening;
mod phases;
mod reports;
mod snapshots;
mod state;
mod steps;
mod tracking;

pub use opening::{is_limit, is_sessions};
pub use reports::{Certificate, Report, received_counts};
pub use state::Engine;
pub use steps::{Claim, Step, StepReply};
