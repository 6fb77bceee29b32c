//! Laws of scripts. The functions do nothing.
ghost use Rattle.cobra.specs.Final.{ViolationsAreFinal};
ghost use Rattle.cobra.specs.KeptLaws.{HeldIsKept};
ghost use Rattle.cobra.specs.Limits.{BoundsStay};
ghost use Rattle.cobra.specs.SplitStages.{IsolatedStays};
ghost use Rattle.cobra.specs.StrictReports.{EachStrictReportIsTrue};
ghost use Rattle.cobra.specs.TrueReports.{EachReportIsTrue};

use engine_pasts::{
    fresh_engines_hold_behind, halves_are_told_behind, parts_hold_behind,
    reported_orders_stand_behind, steps_hold_behind,
};
use gone_orders::cuts_move_on;
use isolation_histories::{orders_isolate, split_doubles_counts, split_keeps_verdict};
use isolation_scripts::{
    committed_are_of_commits, fresh_engines_are_split, halved_counts_are_whole, nothing_is_split,
    split_engines_stay, split_steps_are_legal, split_steps_follow,
};
use order_check::{cut_keeps_stands_for, cuts_of_fronts_fit, settled_stays_settled};
use strict_offers::offers_stay_good;
use strict_rounds::right_reports_are_strict;
use whole_orders::{
    fresh_engines_go_on, left_parts_go_on, reported_orders_end_orders, steps_go_on,
};

/// Whatever `serve` may leave, each report in it is true of everything that the script's lines had offered and that was answered ok before
/// the report's round began, and stands behind one order of what is gone.
pub fn each_report_is_true()
    ensures { EachReportIsTrue }
{
    split_steps_are_legal();
    // Laws that the proof cites. They do nothing when they run.
    fresh_engines_are_split();
    split_keeps_verdict();
    split_doubles_counts();
    split_steps_follow();
    nothing_is_split();
    committed_are_of_commits();
    halved_counts_are_whole();
    orders_isolate();
    steps_go_on();
    reported_orders_end_orders();
    fresh_engines_go_on();
    left_parts_go_on();
    fresh_engines_hold_behind();
    parts_hold_behind();
    steps_hold_behind();
    reported_orders_stand_behind();
    halves_are_told_behind();
    held_is_kept();
}

/// Whatever `serve` may leave, each report in it that is asked for strict serializability is true of everything that the script's lines had offered
/// with its times and that was answered ok before.
pub fn each_strict_report_is_true()
    ensures { EachStrictReportIsTrue }
{
    // Laws that the proof cites. They do nothing when they run.
    offers_stay_good();
    right_reports_are_strict();
}

/// An engine that stands behind what is gone keeps what remains of the whole history, and the cut that it holds takes out what comes next.
pub fn held_is_kept()
    ensures { HeldIsKept }
{
    // Laws that the proof cites. They do nothing when they run.
    settled_stays_settled();
    cuts_of_fronts_fit();
    cut_keeps_stands_for();
    cuts_move_on();
}

/// What a script has accepted, once it breaks the promise that the script asks for, breaks it still, whatever comes.
pub fn violations_are_final()
    ensures { ViolationsAreFinal }
{}

/// A script keeps the bounds of its version: how many sessions there may be, and how many transactions may remain.
pub fn bounds_stay()
    ensures { BoundsStay }
{}

/// A script that asks for snapshot isolation keeps parts of split transactions.
pub fn isolated_stays()
    ensures { IsolatedStays }
{
    split_engines_stay();
}
