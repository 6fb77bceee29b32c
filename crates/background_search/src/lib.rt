//! The searches that a script may ask for: in place, or beside its lines in a thread of their own.
#![tactic(auto)]

mod searches;
mod under_way;

pub use log_text::Effort;
pub use searches::{Solvers, is_same, search};
pub use under_way::UnderWay;
