//! Laws of what remains behind what is gone. The functions do nothing.
ghost use Rattle.gone_orders.specs.Laws.{ArrivalsStayBehind, BarePartsStayBehind, ContentStaysBehind, CutsMoveOn, OrdersBehindAreOfTheWhole, UnwrittenKeysHaveNoLast};

/// Orders of what remains explain it exactly where, behind what is gone, they explain the whole.
pub fn orders_behind_are_of_the_whole()
    ensures { OrdersBehindAreOfTheWhole }
{}

/// A key has no last gone writer exactly where nothing that is gone writes it.
pub fn unwritten_keys_have_no_last()
    ensures { UnwrittenKeysHaveNoLast }
{}

/// Parts of which nothing is gone remain behind nothing.
pub fn bare_parts_stay_behind()
    ensures { BarePartsStayBehind }
{}

/// What arrives stands behind the same.
pub fn arrivals_stay_behind()
    ensures { ArrivalsStayBehind }
{}

/// Which sessions are closed, and the bounds, play no part in it.
pub fn content_stays_behind()
    ensures { ContentStaysBehind }
{}

/// A cut puts what it takes out behind what is gone.
pub fn cuts_move_on()
    ensures { CutsMoveOn }
{}
