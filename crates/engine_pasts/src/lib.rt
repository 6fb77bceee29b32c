//! What an engine's replies mean behind one order of what is gone, which a cut makes longer and nothing else changes.
#![tactic(auto)]

mod laws;

pub use laws::{
    fresh_engines_hold_behind, halves_are_told_behind, parts_hold_behind,
    reported_events_stand_behind, reported_orders_stand_behind, steps_hold_behind,
};
