//! Snapshot isolation of whole histories: what it is, and how a history is split so that some order explains the split
//! one exactly where the history keeps snapshot isolation.
#![tactic(auto)]

mod events;
mod laws;
mod logged;
mod offered;
mod splittable;
mod splitting;

pub use events::{Event, event_of};
pub use laws::{
    arrivals_can_be_split, effects_can_be_split, events_explain, orders_isolate, split_comes_next,
    split_doubles_counts, split_goes_with_arrivals, split_is_well_formed, split_keeps_effects,
    split_keeps_fences, split_keeps_isolation, split_keeps_pending, split_keeps_verdict,
    stars_are_of_keys,
};
pub use logged::split_logged;
pub use offered::check_offered;
pub use splittable::{has_room_to_split, is_splittable};
pub use splitting::{plain_key, split_fragment};
