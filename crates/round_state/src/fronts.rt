//! What is known of a cut that is kept while the parts go on.
ghost use Rattle.round_state.specs.Kept.{KeptCutsFit};

use order_check::{
    cut_keeps_received, cut_keeps_stands_for, cut_keeps_waiting, cuts_of_fronts_fit,
    settled_stays_settled,
};

/// A cut that is kept fits the parts. It does nothing.
pub(crate) fn kept_cuts_fit()
    ensures { KeptCutsFit }
{
    // Laws that the proof cites. They do nothing when they run.
    settled_stays_settled();
    cuts_of_fronts_fit();
    cut_keeps_received();
    cut_keeps_waiting();
    cut_keeps_stands_for();
}
