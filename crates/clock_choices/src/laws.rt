// Laws of closed relations. The functions do nothing.
ghost use Rattle.clock_choices.specs.Closed.{ClosedReachesKnown};

/// Where arcs are known, lead to all that is there from the start, and leave nothing to force, what they reach is what is known.
pub(crate) fn closed_reaches_known()
    ensures { ClosedReachesKnown }
{}
