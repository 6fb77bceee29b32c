//! Laws of engines and whole histories. The functions do nothing.
ghost use Rattle.whole_orders.specs.Laws.{BarePartsAreLeft, BoundsLeaveLeft, CutsLeaveTheRestLeft, FreshEnginesGoOn, LeftPartsGoOn, ReportedOrdersEndOrders, SplitPartsTell, StepsGoOn};

use isolation_histories::{orders_isolate, split_keeps_verdict};
use order_check::{close_keeps_front, fragment_keeps_front, front_of_itself, verdict_as_stood_for};

/// Parts of which nothing is gone are what is left of what remains.
pub fn bare_parts_are_left()
    ensures { BarePartsAreLeft }
{}

/// Parts that are left of a history are so under other bounds.
pub fn bounds_leave_left()
    ensures { BoundsLeaveLeft }
{}

/// What a cut leaves of parts is left of the same history.
pub fn cuts_leave_the_rest_left()
    ensures { CutsLeaveTheRestLeft }
{}

/// A fresh engine holds what is left of the history in which nothing was received.
pub fn fresh_engines_go_on()
    ensures { FreshEnginesGoOn }
{}

/// So does an engine with parts that are left of a history, and nothing else.
pub fn left_parts_go_on()
    ensures { LeftPartsGoOn }
{}

/// Whatever an engine does, it holds what is left of what was received.
pub fn steps_go_on()
    ensures { StepsGoOn }
{
    // Laws that the proof cites. They do nothing when they run.
    front_of_itself();
    fragment_keeps_front();
    close_keeps_front();
}

/// An order that is reported is the end of one that explains all that had been received when the round began.
pub fn reported_orders_end_orders()
    ensures { ReportedOrdersEndOrders }
{}

/// Parts of halves tell by their orders what begins and commits of the history as it was offered can be.
pub fn split_parts_tell()
    ensures { SplitPartsTell }
{
    // Laws that the proof cites. They do nothing when they run.
    verdict_as_stood_for();
    split_keeps_verdict();
    orders_isolate();
}
