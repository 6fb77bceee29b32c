//! Laws of fronts that are kept while their parts go on. The functions do nothing.
ghost use Rattle.order_check.specs.CountedFronts.{KeptFrontsAreCounted};
ghost use Rattle.order_check.specs.FrontLaws.{FrontOfItself, FragmentKeepsFront, CloseKeepsFront, SettledStaysSettled};

/// Parts are a front of themselves.
pub fn front_of_itself()
    ensures { FrontOfItself }
{}

/// A front stays one when an open session receives a fragment.
pub fn fragment_keeps_front()
    ensures { FragmentKeepsFront }
{}

/// A front stays one when a session is closed.
pub fn close_keeps_front()
    ensures { CloseKeepsFront }
{}

/// A fence that is settled in a front has behind it all that has come since, and all that may still come.
pub fn settled_stays_settled()
    ensures { SettledStaysSettled }
{}

/// A front that was kept is the one of its own counts.
pub fn kept_fronts_are_counted()
    ensures { KeptFrontsAreCounted }
{}
