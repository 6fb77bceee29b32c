//! What is gone of a history, in an order that explains it, and what remains behind that: which orders of the rest explain the whole.
#![tactic(auto)]

mod laws;

pub use laws::{
    arrivals_stay_behind, bare_parts_stay_behind, content_stays_behind, cuts_move_on,
    orders_behind_are_of_the_whole, unwritten_keys_have_no_last,
};
