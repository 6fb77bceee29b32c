//! Laws of what remains of offered histories. The functions do nothing.
ghost use Rattle.isolation_rests.specs.Laws.{HalvesTellBehind};

use gone_orders::{orders_behind_are_of_the_whole, unwritten_keys_have_no_last};
use isolation_histories::{events_explain, orders_isolate};

/// What remains of a split history tells of the history as it was offered, behind the begins and commits that are gone.
pub fn halves_tell_behind()
    ensures { HalvesTellBehind }
{
    // Laws that the proof cites. They do nothing when they run.
    orders_behind_are_of_the_whole();
    unwritten_keys_have_no_last();
    orders_isolate();
    events_explain();
}
