//! What is true of all answers. The function does nothing.
ghost use Rattle.shared_search.specs.Laws.{PickedHasOneKind};

use order_check::scans_find_one;

/// All answers that the cubes of a problem come to, but want of memory, are of one kind.
pub fn picked_has_one_kind()
    ensures { PickedHasOneKind }
{
    // A law that the proof cites. It does nothing when it runs.
    scans_find_one();
}
