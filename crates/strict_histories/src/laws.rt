//! Laws of rewritten histories. The functions do nothing.
ghost use Rattle.strict_histories.specs.Laws.{SameOrdersRewritten, RewritingGoesByPlace, RewritingKeepsPending, RewritingKeepsVerdict, RewritingKeepsCounts, RewritingAddsFew, RewritingIsWellFormed};

/// The orders that explain a history and keep real time are those that explain the rewritten history.
pub fn same_orders_rewritten()
    ensures { SameOrdersRewritten }
{}

/// A read is pending in the rewritten history exactly if one is in the history.
pub fn rewriting_keeps_pending()
    ensures { RewritingKeepsPending }
{}

/// The verdict by strict serializability is the rewritten history's verdict by some order.
pub fn rewriting_keeps_verdict()
    ensures { RewritingKeepsVerdict }
{}

/// The transaction with an id is rewritten into the one with that id.
pub fn rewriting_goes_by_place()
    ensures { RewritingGoesByPlace }
{}

/// A rewritten history has as many sessions, and each as many transactions.
pub fn rewriting_keeps_counts()
    ensures { RewritingKeepsCounts }
{}

/// A transaction gets at most one read more for each session, and at most one write more.
pub fn rewriting_adds_few()
    ensures { RewritingAddsFew }
{}

/// What a well-formed transaction is rewritten into is well formed, if it didn't end before it began and no fence has times.
pub fn rewriting_is_well_formed()
    ensures { RewritingIsWellFormed }
{}
