//! Runs of engines that are made from numbers, each beside all that it took in: whatever was cut meanwhile, whoever joined, and whatever aborted,
//! each report is the verdict on the whole history, which is told by trial of all orders.
ghost use Rattle.std.specs.Prelude.{◌<◌};

use crate::beside::{
    Audit, Tally, abort_one, audit_beside, ignored, join_one, nothing, offer, offer_one,
};
use crate::stores::{Store, store_of};
use order_check::Kind::{Pending, Violated};
use order_check::{Kind, Parts, brute};
use polygraph::{Answer, Single, Solver};
use round_state::{Engine, Report, received_counts};
use std::alloc::Global;
use std::process::Abort;
use std::test::*;
use txn::{NoMemory, Refusal, TxnId};

fn begin(alloc: Global, audit: &mut Audit) -> Result<(), NoMemory> {
    if audit.engine.begin(alloc).is_ok() {
        audit.asked = Some(audit.whole.clone()?);
    }
    Ok(())
}

fn verdict_on(rt: &impl Abort, alloc: Global, whole: &Parts) -> Result<Kind, NoMemory> {
    assert!(rt; whole.is_good());
    let count = whole.remaining_count();
    assert!(rt; count <= 8);
    brute(alloc, whole)
}

fn note_report(tally: &mut Tally, kind: Kind, has_cut: bool) {
    tally.reports = tally.reports.wrapping_add(1);
    if has_cut {
        tally.reports_after = tally.reports_after.wrapping_add(1);
        match kind {
            Pending => tally.pending_after = tally.pending_after.wrapping_add(1),
            Violated => tally.violated_after = tally.violated_after.wrapping_add(1),
            _ => {}
        }
    }
}

fn are_counts_of(counts: &[u64], whole: &Parts) -> bool {
    let received = whole.remain.as_slice();
    counts.len() == received.len()
        && counts
            .iter()
            .zip(received.iter())
            .all(|(count, txns)| *count == txns.len() as u64)
}

/// The report has the verdict on all that was received when the round began, and its counts.
fn assert_report(
    rt: &impl Abort,
    alloc: Global,
    report: &Report,
    whole: &Parts,
) -> Result<(), NoMemory> {
    let kind = verdict_on(rt, alloc, whole)?;
    assert_eq!(rt; report.kind, kind, "{whole:?}");
    assert!(rt; are_counts_of(report.counts.as_slice(), whole), "{whole:?}");
    Ok(())
}

/// The answer to the open round's problem, where one is open.
fn answer_to(alloc: Global, engine: &Engine) -> Option<Answer> {
    let problem = engine.problem()?;
    Some(Single.solve(alloc, problem, 4096, 0, 1))
}

fn report_of(alloc: Global, engine: &mut Engine) -> Result<Option<Report>, Refusal> {
    match answer_to(alloc, engine) {
        Some(answer) => Ok(Some(engine.finish(alloc, answer)?)),
        None => Ok(None),
    }
}

fn assert_asked(
    rt: &impl Abort,
    alloc: Global,
    report: &Report,
    asked: &Option<Parts>,
) -> Result<(), NoMemory> {
    match asked {
        Some(whole) => assert_report(rt, alloc, report, whole),
        None => panic!(rt; "{report:?}"),
    }
}

fn finish(
    rt: &impl Abort,
    alloc: Global,
    audit: &mut Audit,
    tally: &mut Tally,
) -> Result<(), Refusal> {
    match report_of(alloc, &mut audit.engine)? {
        Some(report) => {
            note_report(tally, report.kind, audit.has_cut);
            Ok(assert_asked(rt, alloc, &report, &audit.asked)?)
        }
        None => Ok(()),
    }
}

/// What is gone and what remains are together what was received.
fn assert_counts(rt: &impl Abort, alloc: Global, audit: &Audit) -> Result<(), NoMemory> {
    let counts = received_counts(alloc, audit.engine.parts())?;
    assert!(rt; are_counts_of(counts.as_slice(), &audit.whole));
    Ok(())
}

fn truncate(
    rt: &impl Abort,
    alloc: Global,
    audit: &mut Audit,
    tally: &mut Tally,
) -> Result<(), NoMemory> {
    if audit.engine.truncate(alloc).is_ok() {
        tally.cuts = tally.cuts.wrapping_add(1);
        audit.has_cut = true;
    }
    assert_counts(rt, alloc, audit)
}

/// A step that is asked for seldom: a refusal changes nothing.
fn seldom(alloc: Global, engine: &mut Engine, way: u64) {
    match way {
        0 => ignored(engine.close(0)),
        1 => ignored(engine.close(1)),
        2 => ignored(engine.abandon()),
        _ => ignored(engine.rebuild(alloc)),
    }
}

/// Steps go one of these ways; with joins there are more, and with aborts more still.
const WAYS: u64 = 16;

const WAYS_WITH_JOINS: u64 = 18;

const WAYS_WITH_ABORTS: u64 = 21;

fn step(
    rt: &impl Abort,
    alloc: Global,
    audit: &mut Audit,
    store: &mut Store,
    tally: &mut Tally,
    way: u64,
) -> Result<(), Refusal> {
    match way {
        0 => seldom(alloc, &mut audit.engine, store.roll(16)),
        1..=3 => begin(alloc, audit)?,
        4..=6 => finish(rt, alloc, audit, tally)?,
        7..=9 => truncate(rt, alloc, audit, tally)?,
        10..=15 => offer_one(alloc, audit, store)?,
        16 | 17 => join_one(alloc, audit, store, tally)?,
        _ => abort_one(alloc, audit, store, tally)?,
    }
    Ok(())
}

/// Two fences, of which the first is cut: its session may then come back.
fn cut_first(
    rt: &impl Abort,
    alloc: Global,
    audit: &mut Audit,
    store: &mut Store,
    tally: &mut Tally,
) -> Result<(), Refusal> {
    for session in 0..2 {
        let id = TxnId { session, number: 0 };
        let txn = store.fence(alloc)?;
        store.note(id, &txn)?;
        offer(alloc, audit, id, txn)?;
    }
    begin(alloc, audit)?;
    finish(rt, alloc, audit, tally)?;
    Ok(truncate(rt, alloc, audit, tally)?)
}

fn go_through(
    rt: &impl Abort,
    alloc: Global,
    audit: &mut Audit,
    store: &mut Store,
    tally: &mut Tally,
    ways: u64,
) -> Result<(), Refusal>
    requires { 0 < ways }
{
    for _ in 0..48 {
        let way = store.roll(ways);
        step(rt, alloc, audit, store, tally, way)?;
    }
    begin(alloc, audit)?;
    finish(rt, alloc, audit, tally)
}

fn run(
    rt: &impl Abort,
    alloc: Global,
    seed: u64,
    tally: &mut Tally,
    ways: u64,
) -> Result<(), Refusal>
    requires { 0 < ways }
{
    let whole = nothing(alloc)?;
    let mut audit = audit_beside(alloc, whole)?;
    let mut store = store_of(alloc, seed);
    if ways > WAYS {
        cut_first(rt, alloc, &mut audit, &mut store, tally)?;
    }
    go_through(rt, alloc, &mut audit, &mut store, tally, ways)
}

#[test]
fn reports_are_the_verdict_on_all_that_was_received(rt: HostRuntime) -> Result<(), Fail> {
    let mut tally = Tally::default();
    for seed in 0..300 {
        run(&rt, rt.alloc(), seed, &mut tally, WAYS)?;
    }
    assert!(rt; 100 <= tally.cuts && 250 <= tally.reports_after);
    assert!(rt; 25 <= tally.pending_after && 20 <= tally.violated_after);
    Ok(())
}

#[test]
fn so_they_are_where_sessions_join_and_come_back(rt: HostRuntime) -> Result<(), Fail> {
    let mut tally = Tally::default();
    for seed in 0..150 {
        run(&rt, rt.alloc(), seed, &mut tally, WAYS_WITH_JOINS)?;
    }
    assert!(rt; 200 <= tally.cuts && 600 <= tally.reports_after);
    assert!(rt; 70 <= tally.pending_after && 70 <= tally.violated_after);
    assert!(rt; 60 <= tally.joined && 50 <= tally.back);
    Ok(())
}

#[test]
fn so_they_are_where_transactions_abort(rt: HostRuntime) -> Result<(), Fail> {
    let mut tally = Tally::default();
    for seed in 0..150 {
        run(&rt, rt.alloc(), seed, &mut tally, WAYS_WITH_ABORTS)?;
    }
    assert!(rt; 150 <= tally.cuts && 450 <= tally.reports_after);
    assert!(rt; 25 <= tally.pending_after && 60 <= tally.violated_after);
    assert!(rt; 40 <= tally.joined && 20 <= tally.back && 200 <= tally.aborted);
    Ok(())
}
