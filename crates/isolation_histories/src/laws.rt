ghost use Rattle.isolation_histories.specs.Laws.{SplitKeepsIsolation, OrdersIsolate, EventsExplain, SplitKeepsPending, SplitKeepsVerdict, SplitGoesWithArrivals, SplitComesNext, ArrivalsCanBeSplit, SplitIsWellFormed, SplitKeepsFences, SplitDoublesCounts, StarsAreOfKeys, SplitKeepsEffects, EffectsCanBeSplit};

/// A history keeps snapshot isolation exactly where some order explains its split history.
pub fn split_keeps_isolation()
    ensures { SplitKeepsIsolation }
{}

/// An order that explains a split history, read as begins and commits, is snapshot isolation.
pub fn orders_isolate()
    ensures { OrdersIsolate }
{}

/// Begins and commits that are snapshot isolation stand for an order that explains the split history.
pub fn events_explain()
    ensures { EventsExplain }
{}

/// A read is pending in a history exactly where one is in its split history.
pub fn split_keeps_pending()
    ensures { SplitKeepsPending }
{}

/// The verdict by snapshot isolation is the split history's verdict by some order.
pub fn split_keeps_verdict()
    ensures { SplitKeepsVerdict }
{}

/// A history with an arrival is split into the split history with the split arrival.
pub fn split_goes_with_arrivals()
    ensures { SplitGoesWithArrivals }
{}

/// What arrives next of a history, split, arrives next of the split history.
pub fn split_comes_next()
    ensures { SplitComesNext }
{}

/// A history that can be split still can, with a splittable fragment that arrives next.
pub fn arrivals_can_be_split()
    ensures { ArrivalsCanBeSplit }
{}

/// What a splittable fragment of at most 128 transactions is split into is a well-formed fragment.
pub fn split_is_well_formed()
    ensures { SplitIsWellFormed }
{}

/// A fence is split into two fences.
pub fn split_keeps_fences()
    ensures { SplitKeepsFences }
{}

/// A split history has as many sessions, and two transactions for each.
pub fn split_doubles_counts()
    ensures { SplitDoublesCounts }
{}

/// The key of a star is the one that it is made of.
pub fn stars_are_of_keys()
    ensures { StarsAreOfKeys }
{}

/// What a fragment did is split into what the split fragment did.
pub fn split_keeps_effects()
    ensures { SplitKeepsEffects }
{}

/// What a splittable fragment did is splittable.
pub fn effects_can_be_split()
    ensures { EffectsCanBeSplit }
{}
