ghost use Rattle.order_check.specs.Laws.{SameOrdersAsWhole, SameVerdictAsWhole, StandsForWhatRemains, SameVerdictAsStoodFor, OfferKeepsStandsFor, JoinKeepsStandsFor, ReturnKeepsStandsFor, CloseKeepsStandsFor, BoundsLeaveStandsFor, ViolatedIsFinal};

/// An order explains parts of which nothing is gone exactly where it explains the whole history that remains.
pub fn orders_as_of_whole()
    ensures { SameOrdersAsWhole }
{}

/// Parts of which nothing is gone have the verdict of the whole history that remains.
pub fn verdict_as_of_whole()
    ensures { SameVerdictAsWhole }
{}

/// Parts of which nothing is gone stand for the whole history that remains.
pub fn stands_for_what_remains()
    ensures { StandsForWhatRemains }
{}

/// Parts that stand for a history have its verdict.
pub fn verdict_as_stood_for()
    ensures { SameVerdictAsStoodFor }
{}

/// The next fragment leaves parts standing for a history that has it too.
pub fn offer_keeps_stands_for()
    ensures { OfferKeepsStandsFor }
{}

/// A session that joins leaves parts standing for a history that has it too.
pub fn join_keeps_stands_for()
    ensures { JoinKeepsStandsFor }
{}

/// A session that comes back leaves parts standing for a history that has its fragment too.
pub fn return_keeps_stands_for()
    ensures { ReturnKeepsStandsFor }
{}

/// A session's closing leaves parts standing for the same history.
pub fn close_keeps_stands_for()
    ensures { CloseKeepsStandsFor }
{}

/// Other bounds leave parts standing for the same history.
pub fn bounds_leave_stands_for()
    ensures { BoundsLeaveStandsFor }
{}

/// A history that no order explains stays so, whatever comes.
pub fn violated_is_final()
    ensures { ViolatedIsFinal }
{}
