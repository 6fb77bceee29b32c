//! The search for an order that explains parts.
#![tactic(auto)]

mod bad_reads;
mod cubes;
mod found;
mod nodes;
mod ordering;
mod problems;
mod scanning;
mod single;
mod solving;
mod steps;
mod stopping;

pub use problems::Problem;
pub use single::Single;
pub use solving::{Answer, Cube, Effort, PlainSolver, Solver, solve_cube};
pub use stopping::StopWord;
