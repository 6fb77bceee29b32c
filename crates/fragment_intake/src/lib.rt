//! The desk: where collectors hand in what they saw and the auditor takes it, each collector's parcels in its order.
#![tactic(auto)]

mod desks;
mod rules;
mod tallies;

pub use desks::{AuditorPass, CollectorPass, CollectorPasses, Desk};
pub use rules::{Item, Parcel, View};
pub use tallies::Tally;
