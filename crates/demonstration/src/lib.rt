//! The demonstration: a small store, four collectors and the auditor, each in a thread of its own.
#![tactic(auto)]

mod auditing;
mod collecting;
mod commands;
mod comparing;
mod demos;
mod failures;
mod halls;
mod names;
mod reading;
mod runs;
mod starting;
mod texts;
mod threads;
mod work;

pub use commands::Command;
pub use demos::{demo, demo_run};
pub use failures::{DemoFailure, exit_of};
pub use runs::{Outcome, run};
pub use texts::Shown;
