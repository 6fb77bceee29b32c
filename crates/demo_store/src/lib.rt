//! A small store with faults that can be switched on, to show the auditor at work and to test it against known lies.
#![tactic(auto)]

mod faults;
mod lookups;
mod requests;
mod stores;

pub use requests::{Executed, Fault, Request};
pub use stores::Store;
