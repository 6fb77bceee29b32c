//! Cuts of parts, and what they keep.
#![tactic(auto)]

mod applying;
mod fronts;
mod writers;

pub use applying::apply;
