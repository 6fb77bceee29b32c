//! A search that takes the order of a store's run where that explains, else follows its conflicts, and else is the plain one.
#![tactic(auto)]

mod choosing;
mod conflicts;
mod finding;
mod guided;
mod laws;
mod running;
mod searching;

pub use finding::Conflicts;
pub use guided::{Finder, Guided};
pub use laws::decided_has_one_kind;
