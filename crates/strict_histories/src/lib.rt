//! Strict serializability of whole histories: what it is, and how a history with times is rewritten so that the same orders
//! explain the rewritten one.
#![tactic(auto)]

mod ends;
mod latest;
mod laws;
mod refuted;
mod rewriting;
mod room;
mod timed;
mod times;

pub use laws::{
    rewriting_adds_few, rewriting_goes_by_place, rewriting_is_well_formed, rewriting_keeps_counts,
    rewriting_keeps_pending, rewriting_keeps_verdict, same_orders_rewritten,
};
pub use refuted::refuted_has_no_strict_order;
pub use rewriting::{end_key, strict_history};
pub use room::{has_low_keys, has_room_for_times};
pub use timed::{Span, TimedTxn};
pub use times::{first_wrong_time, is_timely};
