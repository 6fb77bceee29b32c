//! Laws of right replies. The functions do nothing.
ghost use Rattle.report_checking.specs.TrueReplies.{RightRepliesAreTrue};

use cobra::held_is_kept;
use engine_pasts::{
    fresh_engines_hold_behind, halves_are_told_behind, reported_events_stand_behind,
    reported_orders_stand_behind, steps_hold_behind,
};
use isolation_scripts::{
    committed_are_of_commits, halved_counts_are_whole, nothing_is_split, split_steps_follow,
};
use order_check::{
    close_keeps_stands_for, cut_keeps_stands_for, join_keeps_stands_for, offer_keeps_stands_for,
    return_keeps_stands_for, settled_stays_settled, stands_for_what_remains,
};

/// Replies that are found right are true of what the script's lines had offered, behind one order of what is gone: of
/// begins and commits, where the script asks for snapshot isolation.
pub fn right_replies_are_true()
    ensures { RightRepliesAreTrue }
{
    // Laws that the proof cites. They do nothing when they run.
    steps_hold_behind();
    reported_orders_stand_behind();
    reported_events_stand_behind();
    fresh_engines_hold_behind();
    halves_are_told_behind();
    split_steps_follow();
    nothing_is_split();
    committed_are_of_commits();
    halved_counts_are_whole();
    offer_keeps_stands_for();
    join_keeps_stands_for();
    return_keeps_stands_for();
    close_keeps_stands_for();
    settled_stays_settled();
    cut_keeps_stands_for();
    stands_for_what_remains();
    held_is_kept();
}
