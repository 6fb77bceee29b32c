//! The running auditor: it takes what collectors hand in, and sends what became of it.
#![tactic(auto)]

mod live;
mod live_core;
mod means;
mod patience;
mod running;
mod searching;
mod steps;

pub use live::{AuditorSide, audit_live};
pub use live_core::Core;
pub use means::Means;
pub use patience::Patience;
pub use polygraph::Effort;
