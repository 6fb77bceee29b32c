//! What is offered with its times, for rounds that are asked for strict serializability: what may be offered, and the parts that a round
//! is about.
#![tactic(auto)]

mod fitting;
mod laws;
mod offers;
mod spans;

pub use laws::{offers_stay_good, rounds_are_of_good_parts};
pub use offers::Offered;
