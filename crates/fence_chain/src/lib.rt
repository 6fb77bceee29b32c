//! Fences in known order, and what stands in front of one.
#![tactic(auto)]

mod chaining;
mod fences;
mod fronts;

pub use chaining::chain;
pub use fronts::ids_in_front;
