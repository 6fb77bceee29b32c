//! What the orders that an engine reports mean of whole histories, also where something of these is gone: each is the end of one that explains
//! all of it.
#![tactic(auto)]

mod laws;

pub use laws::{
    bare_parts_are_left, bounds_leave_left, cuts_leave_the_rest_left, fresh_engines_go_on,
    left_parts_go_on, reported_orders_end_orders, split_parts_tell, steps_go_on,
};
