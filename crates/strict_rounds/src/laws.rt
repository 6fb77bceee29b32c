//! What reports are right of. The functions do nothing.
ghost use Rattle.strict_rounds.specs.Laws.{RightReportsAreStrict};

use order_check::{orders_as_of_whole, verdict_as_of_whole};
use strict_histories::{rewriting_keeps_counts, rewriting_keeps_verdict, same_orders_rewritten};
use strict_offers::rounds_are_of_good_parts;

/// A report that is right of the parts of a round is right of what was offered.
pub fn right_reports_are_strict()
    ensures { RightReportsAreStrict }
{
    // Laws that the proof cites. They do nothing when they run.
    orders_as_of_whole();
    verdict_as_of_whole();
    rewriting_keeps_counts();
    rewriting_keeps_verdict();
    same_orders_rewritten();
    rounds_are_of_good_parts();
}
