//! Laws of cuts. The functions do nothing.
ghost use Rattle.order_check.specs.CutLaws.{FenceSplitsOrders, SplitLaw, CutKeepsStandsFor, CutsOfFrontsFit, CutKeepsGood, CutKeepsReceived, CutKeepsWaiting, CutLeavesTheRest, CutMovesBase, CutKeepsKnown};

/// A fence that is settled in a front splits every order that explains the whole.
pub fn fence_splits_orders()
    ensures { FenceSplitsOrders }
{}

/// What a cut of a front leaves of the whole has an order, and a pending read, exactly where the whole has.
pub fn split_law()
    ensures { SplitLaw }
{}

/// A cut of a front leaves parts standing for the same history.
pub fn cut_keeps_stands_for()
    ensures { CutKeepsStandsFor }
{}

/// A cut of a front can be applied to the whole.
pub fn cuts_of_fronts_fit()
    ensures { CutsOfFrontsFit }
{}

/// A cut that can be applied leaves good parts good.
pub fn cut_keeps_good()
    ensures { CutKeepsGood }
{}

/// A cut of a front leaves as much received of each session.
pub fn cut_keeps_received()
    ensures { CutKeepsReceived }
{}

/// A cut of a front leaves the same reads waiting.
pub fn cut_keeps_waiting()
    ensures { CutKeepsWaiting }
{}

/// A cut takes out what remained, and leaves the rest as it was.
pub fn cut_leaves_the_rest()
    ensures { CutLeavesTheRest }
{}

/// After a cut a read is one of the base where it was one, or was from a writer that is gone.
pub fn cut_moves_base()
    ensures { CutMovesBase }
{}

/// A cut leaves known of the rest what was known of it.
pub fn cut_keeps_known()
    ensures { CutKeepsKnown }
{}
