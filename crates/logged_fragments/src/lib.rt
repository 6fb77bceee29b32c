//! Fragments of logs that tell which of their transactions aborted, and what such a fragment did to the store.
#![tactic(auto)]

mod logged;

pub use logged::LoggedFragment;
