//! What is true of all answers. The function does nothing.
ghost use Rattle.guided_search.specs.Laws.{DecidedHasOneKind};

use refutation::refuted_has_no_order;

/// Two lawful answers to a problem, each a yes or a no, are of one kind.
pub fn decided_has_one_kind()
    ensures { DecidedHasOneKind }
{
    refuted_has_no_order();
}
