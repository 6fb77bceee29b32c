//! What every order has to keep, and the choices that it leaves open, over session clocks.
#![tactic(auto)]

mod acyclic;
mod among;
mod branch;
mod by_sources;
mod catching_up;
mod cutting;
mod cycles;
mod due;
mod first_open;
mod index;
mod indexing;
mod laws;
mod linking;
mod lists;
mod nodes;
mod open_choices;
mod passing;
mod ranks;
mod reads;
mod runs;
mod saturated;
mod saturating;
mod settling;
mod sharing;
mod spans;
mod spread;
mod steps;
mod whole;
mod writers;

pub use branch::Branch;
pub use open_choices::OpenChoices;
pub use ranks::Rank;
pub use saturated::Saturated;
pub use steps::Forced;
