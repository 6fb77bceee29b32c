//! The search of a problem's cubes, shared by workers.
#![tactic(auto)]

mod gates;
mod laws;
mod lending;
mod picking;
mod seats;
mod sharing;
mod words;
mod workers;

pub use gates::{Gate, OpenGate};
pub use laws::picked_has_one_kind;
pub use lending::Shared;
pub use seats::{Board, Seat};
pub use sharing::solve_all;
pub use words::View;
pub use workers::CubeSolver;
