//! Laws of engines behind what is gone. The functions do nothing.
ghost use Rattle.engine_pasts.specs.Laws.{FreshEnginesHoldBehind, HalvesAreToldBehind, PartsHoldBehind, ReportedEventsStandBehind, ReportedOrdersStandBehind, StepsHoldBehind};

use gone_orders::{
    arrivals_stay_behind, bare_parts_stay_behind, content_stays_behind, cuts_move_on,
    orders_behind_are_of_the_whole,
};
use isolation_histories::orders_isolate;
use isolation_rests::halves_tell_behind;
use whole_orders::{fresh_engines_go_on, left_parts_go_on, steps_go_on};

/// A fresh engine stands behind nothing.
pub fn fresh_engines_hold_behind()
    ensures { FreshEnginesHoldBehind }
{
    // Laws that the proof cites. They do nothing when they run.
    fresh_engines_go_on();
    bare_parts_stay_behind();
}

/// So does an engine with parts that remain behind what is gone, and nothing else.
pub fn parts_hold_behind()
    ensures { PartsHoldBehind }
{
    // Laws that the proof cites. They do nothing when they run.
    left_parts_go_on();
    arrivals_stay_behind();
    orders_behind_are_of_the_whole();
}

/// Whatever an engine does, it stands behind what is gone, and a cut puts what it takes out behind that.
pub fn steps_hold_behind()
    ensures { StepsHoldBehind }
{
    // Laws that the proof cites. They do nothing when they run.
    steps_go_on();
    arrivals_stay_behind();
    content_stays_behind();
    cuts_move_on();
}

/// An order that is reported is, behind what is gone, one that explains all that had been received when the round began.
pub fn reported_orders_stand_behind()
    ensures { ReportedOrdersStandBehind }
{
    // A law that the proof cites. It does nothing when it runs.
    orders_behind_are_of_the_whole();
}

/// An engine of halves tells of the history as it was offered, behind the begins and commits that are gone.
pub fn halves_are_told_behind()
    ensures { HalvesAreToldBehind }
{
    // A law that the proof cites. It does nothing when it runs.
    halves_tell_behind();
}

/// An order of halves that is reported is, behind what is gone, one of begins and commits that is snapshot isolation.
pub fn reported_events_stand_behind()
    ensures { ReportedEventsStandBehind }
{
    // Laws that the proof cites. They do nothing when they run.
    orders_behind_are_of_the_whole();
    orders_isolate();
}
