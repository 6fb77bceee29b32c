ghost use Rattle.strict_histories.specs.Refuted.{RefutedHasNoStrictOrder};

use order_check::orders_as_of_whole;
use refutation::refuted_has_no_order;

/// If a tree refutes the rewritten history, no order explains the history and keeps real time.
pub fn refuted_has_no_strict_order()
    ensures { RefutedHasNoStrictOrder }
{
    // Laws that the proof cites. They do nothing when they run.
    orders_as_of_whole();
    refuted_has_no_order();
}
