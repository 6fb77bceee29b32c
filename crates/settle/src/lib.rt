//! The settled fence that comes after all other settled ones, and the cut at it.
#![tactic(auto)]

mod cuts;
mod finding;
mod lines;
mod writers;

pub use cuts::Cut;
pub use finding::{find, find_in};
