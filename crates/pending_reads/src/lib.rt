//! The reads that wait for the transaction that they read from.
#![tactic(auto)]

mod index;

pub use index::{PendingRead, PendingReads};
