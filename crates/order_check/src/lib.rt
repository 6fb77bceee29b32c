//! Which orders explain a history of which a part is gone, and what its verdict is.
#![tactic(auto)]

mod cut_laws;
mod explaining;
mod facts;
mod first_entries;
mod front_laws;
mod front_reads;
mod fronts;
mod known_laws;
mod laws;
mod lookups;
mod reads;
mod remainder;
mod rising;
mod rules;
mod search_laws;
mod taken_laws;
mod trial;
mod waiting;
mod writer_map;

pub use cut_laws::{
    cut_keeps_good, cut_keeps_known, cut_keeps_received, cut_keeps_stands_for, cut_keeps_waiting,
    cut_leaves_the_rest, cut_moves_base, cuts_of_fronts_fit, fence_splits_orders, split_law,
};
pub use explaining::{explains, explains_front};
pub use facts::{
    row_base_read, row_empty, row_first_cut, row_gone_read, row_lost_update, row_not_a_writer,
    row_open_choice, row_overwritten, row_pending_arrives, row_pending_in_front, row_reader_first,
    row_real_split, row_session_order, row_silent_session, row_three_fences, row_two_sources,
    row_unordered_writers, row_write_skew,
};
pub use front_laws::{
    close_keeps_front, fragment_keeps_front, front_of_itself, kept_fronts_are_counted,
    settled_stays_settled,
};
pub use fronts::{Front, front_parts};
pub use known_laws::{cycle_leaves_no_order, every_order_keeps_known};
pub use laws::{
    bounds_leave_stands_for, close_keeps_stands_for, join_keeps_stands_for, offer_keeps_stands_for,
    orders_as_of_whole, return_keeps_stands_for, stands_for_what_remains, verdict_as_of_whole,
    verdict_as_stood_for, violated_is_final,
};
pub use remainder::{Base, Kind, LastWriters, Parts};
pub use search_laws::{scans_are_bounded, scans_find_one};
pub use taken_laws::{
    bad_read_leaves_none, cycle_of_arcs_leaves_none, keeping_explains, orders_keep_taken,
    orders_take_sides,
};
pub use trial::{brute, find_order};
