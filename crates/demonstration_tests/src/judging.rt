//! What an auditor has sent, judged beside all that the store executed: each report's counts and kind, its certificate, and each cut.
use demo_store::Executed;
use order_check::{Base, Kind, LastWriters, Parts, brute, explains};
use refutation::check;
use report_queue::Entry;
use round_state::{Certificate, Report};
use settle::Cut;
use std::alloc::Global;
use std::process::Abort;
use txn::{NoMemory, Sequence, Txn, TxnId};

/// How many transactions a collector of the demonstration submits, each in a fragment of its own.
const TXNS: u64 = 9;

/// What was told so far: how many transactions of each session were accepted, how many of these are gone, the last writers that went, and the last
/// report's counts and kind.
#[derive(Drop)]
pub struct Told {
    pub accepted: [u64; 4],
    pub gone: [u64; 4],
    pub last: LastWriters,
    pub counts: [u64; 4],
    pub kind: Option<Kind>,
}

/// Nothing was told.
fn nothing_told(alloc: Global) -> Told {
    Told {
        accepted: [0; 4],
        gone: [0; 4],
        last: LastWriters::new(alloc),
        counts: [0; 4],
        kind: None,
    }
}

/// The session's count.
fn count_of(counts: &[u64; 4], session: u64) -> u64 {
    if session < 4 {
        counts[session as usize]
    } else {
        u64::MAX
    }
}

/// One more of the session.
fn count_one(counts: &mut [u64; 4], session: u64) {
    if session < 4 {
        counts[session as usize] = counts[session as usize].saturating_add(1);
    }
}

/// The four counts.
fn four_of(counts: &[u64]) -> [u64; 4] {
    match counts {
        [first, second, third, fourth] => [*first, *second, *third, *fourth],
        _ => [u64::MAX; 4],
    }
}

/// The session's transactions from one number on, and before another.
fn remaining_of(
    alloc: Global,
    executed: &[Executed],
    session: u8,
    from: u64,
    before: u64,
) -> Result<Sequence<Txn>, NoMemory> {
    let mut txns = Vec::new(alloc);
    for each in executed {
        if each.id.session == session && from <= each.id.number && each.id.number < before {
            txns.push(each.txn.clone()?)?;
        }
    }
    Ok(Sequence::new(txns))
}

/// What remains of each session, of what the last report counts.
fn remaining(
    alloc: Global,
    executed: &[Executed],
    told: &Told,
) -> Result<Sequence<Sequence<Txn>>, NoMemory> {
    let mut sessions = Vec::new(alloc);
    for session in 0..4u8 {
        let from = count_of(&told.gone, u64::from(session));
        let before = count_of(&told.counts, u64::from(session));
        sessions.push(remaining_of(alloc, executed, session, from, before)?)?;
    }
    Ok(Sequence::new(sessions))
}

/// What has gone.
fn base_of(alloc: Global, told: &Told) -> Result<Base, NoMemory> {
    let marks = Sequence::new(told.gone.to_vec(alloc)?);
    let last = told.last.clone()?;
    Ok(Base { last, marks })
}

/// What remains of what the last report counts, behind what has gone.
fn parts_of(alloc: Global, executed: &[Executed], told: &Told) -> Result<Parts, NoMemory> {
    let closed = Sequence::new([false; 4].to_vec(alloc)?);
    match (base_of(alloc, told), remaining(alloc, executed, told)) {
        (Ok(base), Ok(remain)) => Ok(Parts {
            base,
            remain,
            closed,
            most_sessions: 64,
            limit: 4096,
        }),
        (Err(refused), _) => Err(refused),
        (_, Err(refused)) => Err(refused),
    }
}

/// Whether the certificate shows the report's kind of these parts.
fn is_shown(
    rt: &impl Abort,
    alloc: Global,
    report: &Report,
    parts: &Parts,
) -> Result<bool, NoMemory> {
    assert!(rt; parts.is_good());
    match &report.certificate {
        Certificate::Order(order) => {
            let kind = if parts.has_pending() {
                Kind::Pending
            } else {
                Kind::Serial
            };
            Ok(report.kind == kind && explains(alloc, parts, order.as_slice())?)
        }
        Certificate::Refuted(tree) => {
            Ok(report.kind == Kind::Violated && check(alloc, parts, tree)?)
        }
        Certificate::Nothing => Ok(false),
    }
}

/// Where at most eight transactions are about, trial of all orders tells the same kind.
fn is_tried(rt: &impl Abort, alloc: Global, kind: Kind, parts: &Parts) -> Result<bool, NoMemory> {
    assert!(rt; parts.is_good());
    let count = parts.remaining_count();
    if 8 < count {
        return Ok(true);
    }
    assert!(rt; count <= 8);
    Ok(brute(alloc, parts)? == kind)
}

/// Whether each session's count is no less than the one, and no more than the other.
fn lie_between(least: &[u64; 4], counts: &[u64; 4], most: &[u64; 4]) -> bool {
    for session in 0..4u64 {
        let count = count_of(counts, session);
        if count < count_of(least, session) || count_of(most, session) < count {
            return false;
        }
    }
    true
}

/// The report tells the verdict on what it counts: no less than the report before it, and no more than was accepted, since parcels are taken while
/// a round is searched.
fn judge_report(
    rt: &impl Abort,
    alloc: Global,
    executed: &[Executed],
    told: &mut Told,
    report: &Report,
) -> Result<(), NoMemory> {
    let before = told.counts;
    told.counts = four_of(report.counts.as_slice());
    told.kind = Some(report.kind);
    assert!(rt;
        lie_between(&before, &told.counts, &told.accepted),
        "{report:?}"
    );
    let parts = parts_of(alloc, executed, told)?;
    assert!(rt; is_shown(rt, alloc, report, &parts)?, "{report:?}");
    assert!(rt; is_tried(rt, alloc, report.kind, &parts)?, "{report:?}");
    Ok(())
}

/// What goes is the front of each session.
fn judge_gone(rt: &impl Abort, told: &mut Told, gone: &[TxnId]) {
    for id in gone {
        let session = u64::from(id.session);
        assert_eq!(rt; count_of(&told.gone, session), id.number);
        count_one(&mut told.gone, session);
    }
}

/// Those that a cut leaves as last writers are so from then on.
fn note_last(told: &mut Told, entries: &[(u64, TxnId)]) -> Result<(), NoMemory> {
    for (key, writer) in entries {
        told.last.insert(*key, *writer)?;
    }
    Ok(())
}

fn judge_cut(rt: &impl Abort, alloc: Global, told: &mut Told, cut: &Cut) -> Result<(), NoMemory> {
    judge_gone(rt, told, cut.gone.as_slice());
    let entries = cut.last.entries(alloc)?;
    note_last(told, entries.as_slice())
}

fn judge_entry(
    rt: &impl Abort,
    alloc: Global,
    executed: &[Executed],
    told: &mut Told,
    entry: &Entry,
) -> Result<(), NoMemory> {
    match entry {
        Entry::Accepted { collector, place } => {
            if *place < TXNS {
                count_one(&mut told.accepted, *collector);
            }
            Ok(())
        }
        Entry::Report(report) => judge_report(rt, alloc, executed, told, report),
        Entry::Cut(cut) => judge_cut(rt, alloc, told, cut),
        Entry::Refused { .. } | Entry::Skipped(_) => panic!(rt; "{entry:?}"),
        Entry::End => Ok(()),
    }
}

/// Judges each entry in turn, and gives what all of them have told.
pub fn judge(
    rt: &impl Abort,
    alloc: Global,
    executed: &[Executed],
    entries: &[Entry],
) -> Result<Told, NoMemory> {
    let mut told = nothing_told(alloc);
    for entry in entries {
        judge_entry(rt, alloc, executed, &mut told, entry)?;
    }
    Ok(told)
}
