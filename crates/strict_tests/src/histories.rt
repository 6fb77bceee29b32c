//! Histories with their verdicts by some order, and by one that keeps real time.
use order_check::{Base, Kind, LastWriters, Parts, brute};
use std::alloc::Global;
use std::process::Abort;
use std::test::Fail;
use strict_histories::{Span, TimedTxn, has_room_for_times, strict_history};
use txn::Source::{By, Init};
use txn::{NoMemory, Sequence, Source, Txn, TxnId};

const ID_0_0: TxnId = TxnId {
    session: 0,
    number: 0,
};

const ID_0_2: TxnId = TxnId {
    session: 0,
    number: 2,
};

const ID_1_0: TxnId = TxnId {
    session: 1,
    number: 0,
};

/// What a transaction reads, and which keys it writes.
type Lists = (&'static [(u64, Source)], &'static [u64]);

/// What each of three sessions has.
type Sessions = [&'static [Lists]; 3];

/// When a transaction began and ended.
type Times = (Option<u64>, Option<u64>);

struct Row {
    sessions: Sessions,
    times: &'static [&'static [Times]],
    by_order: Kind,
    in_time: Kind,
}

/// One that writes a key, and one of another session that reads it as it was at first.
const STALE: Sessions = [&[(&[], &[5])], &[(&[(5, Init)], &[])], &[]];

/// One writes a key twice, and another session reads the first version.
const OVERWRITTEN: Sessions = [
    &[(&[], &[5]), (&[], &[5])],
    &[(&[(5, By(ID_0_0))], &[])],
    &[],
];

static ROWS: [Row; 16] = [
    // the read misses what had been committed before
    Row {
        sessions: STALE,
        times: &[&[(Some(1), Some(2))], &[(Some(5), Some(6))]],
        by_order: Kind::Serial,
        in_time: Kind::Violated,
    },
    // at the same time
    Row {
        sessions: STALE,
        times: &[&[(Some(1), Some(5))], &[(Some(2), Some(6))]],
        by_order: Kind::Serial,
        in_time: Kind::Serial,
    },
    // equal times order nothing
    Row {
        sessions: STALE,
        times: &[&[(Some(1), Some(5))], &[(Some(5), Some(6))]],
        by_order: Kind::Serial,
        in_time: Kind::Serial,
    },
    // nor does an end that isn't known
    Row {
        sessions: STALE,
        times: &[&[(Some(1), None)], &[(Some(5), Some(6))]],
        by_order: Kind::Serial,
        in_time: Kind::Serial,
    },
    // nor a begin
    Row {
        sessions: STALE,
        times: &[&[(Some(1), Some(2))], &[(None, Some(6))]],
        by_order: Kind::Serial,
        in_time: Kind::Serial,
    },
    // write skew, one after the other
    Row {
        sessions: [&[(&[(5, Init)], &[6])], &[(&[(6, Init)], &[5])], &[]],
        times: &[&[(Some(1), Some(2))], &[(Some(3), Some(4))]],
        by_order: Kind::Violated,
        in_time: Kind::Violated,
    },
    // its session had gone on since
    Row {
        sessions: [&[(&[], &[5]), (&[], &[])], &[(&[(5, Init)], &[])], &[]],
        times: &[
            &[(Some(1), Some(2)), (Some(3), Some(4))],
            &[(Some(5), Some(6))],
        ],
        by_order: Kind::Serial,
        in_time: Kind::Violated,
    },
    // the second version was written while the reader ran
    Row {
        sessions: OVERWRITTEN,
        times: &[
            &[(Some(1), Some(2)), (Some(4), Some(8))],
            &[(Some(3), Some(9))],
        ],
        by_order: Kind::Serial,
        in_time: Kind::Serial,
    },
    // the second version had been written
    Row {
        sessions: OVERWRITTEN,
        times: &[
            &[(Some(1), Some(2)), (Some(3), Some(4))],
            &[(Some(5), Some(9))],
        ],
        by_order: Kind::Serial,
        in_time: Kind::Violated,
    },
    // one that ran all the time sees the later of two writers and not the earlier
    Row {
        sessions: [
            &[(&[], &[5])],
            &[(&[], &[6])],
            &[(&[(5, Init), (6, By(ID_1_0))], &[])],
        ],
        times: &[
            &[(Some(1), Some(2))],
            &[(Some(3), Some(4))],
            &[(Some(1), Some(9))],
        ],
        by_order: Kind::Serial,
        in_time: Kind::Violated,
    },
    // it comes later through one that began after the writer had ended
    Row {
        sessions: [&[(&[], &[5])], &[(&[], &[])], &[(&[(5, Init)], &[])]],
        times: &[
            &[(Some(1), Some(2))],
            &[(Some(3), Some(4))],
            &[(Some(5), Some(6))],
        ],
        by_order: Kind::Serial,
        in_time: Kind::Violated,
    },
    // and also where that one began as the writer ended
    Row {
        sessions: [&[(&[], &[5])], &[(&[], &[])], &[(&[(5, Init)], &[])]],
        times: &[
            &[(Some(1), Some(3))],
            &[(Some(3), Some(4))],
            &[(Some(5), Some(6))],
        ],
        by_order: Kind::Serial,
        in_time: Kind::Violated,
    },
    // the one between began after the writer had ended, and hadn't ended
    Row {
        sessions: [&[(&[], &[5])], &[(&[], &[])], &[(&[(5, Init)], &[])]],
        times: &[
            &[(Some(1), Some(2))],
            &[(Some(3), Some(9))],
            &[(Some(5), Some(6))],
        ],
        by_order: Kind::Serial,
        in_time: Kind::Violated,
    },
    // its writer hasn't come
    Row {
        sessions: [&[(&[], &[5])], &[(&[(5, By(ID_0_2))], &[])], &[]],
        times: &[&[(Some(1), Some(2))], &[(Some(5), Some(6))]],
        by_order: Kind::Pending,
        in_time: Kind::Pending,
    },
    // times that run back in a session
    Row {
        sessions: [&[(&[], &[5]), (&[], &[6])], &[], &[]],
        times: &[&[(Some(5), Some(6)), (Some(1), Some(2))], &[]],
        by_order: Kind::Serial,
        in_time: Kind::Violated,
    },
    // without times
    Row {
        sessions: STALE,
        times: &[],
        by_order: Kind::Serial,
        in_time: Kind::Serial,
    },
];

fn rows() -> &'static [Row] {
    &ROWS
}

fn txn_of(alloc: Global, lists: Lists) -> Result<Txn, NoMemory> {
    Ok(Txn {
        reads: Sequence::new(lists.0.to_vec(alloc)?),
        writes: Sequence::new(lists.1.to_vec(alloc)?),
    })
}

fn session_of(
    alloc: Global,
    rows: &[Lists],
    times: &[Times],
) -> Result<Sequence<TimedTxn>, NoMemory> {
    let mut all = Vec::new(alloc);
    for (place, lists) in rows.iter().enumerate() {
        let (began, ended) = times.get(place).copied().unwrap_or((None, None));
        let txn = txn_of(alloc, *lists)?;
        all.push(TimedTxn {
            txn,
            span: Span { began, ended },
        })?;
    }
    Ok(Sequence::new(all))
}

fn timed_of(alloc: Global, row: &Row) -> Result<Vec<Sequence<TimedTxn>>, NoMemory> {
    let mut all = Vec::new(alloc);
    for (place, rows) in row.sessions.iter().enumerate() {
        let own = row.times.get(place).copied().unwrap_or(&[]);
        all.push(session_of(alloc, *rows, own)?)?;
    }
    Ok(all)
}

fn untimed_of(alloc: Global, row: &Row) -> Result<Sequence<Sequence<Txn>>, NoMemory> {
    let mut all = Vec::new(alloc);
    for rows in &row.sessions {
        let mut txns = Vec::new(alloc);
        for lists in *rows {
            txns.push(txn_of(alloc, *lists)?)?;
        }
        all.push(Sequence::new(txns))?;
    }
    Ok(Sequence::new(all))
}

/// Parts of three open sessions, of which nothing is gone.
fn parts_of(alloc: Global, remain: Sequence<Sequence<Txn>>) -> Result<Parts, NoMemory> {
    Ok(Parts {
        base: Base {
            last: LastWriters::new(alloc),
            marks: Sequence::new([0, 0, 0].to_vec(alloc)?),
        },
        remain,
        closed: Sequence::new([false, false, false].to_vec(alloc)?),
        most_sessions: 64,
        limit: 16,
    })
}

fn has_its_verdict(rt: &impl Abort, alloc: Global, parts: &Parts, kind: Kind) -> Result<(), Fail> {
    assert!(rt; parts.is_good() && parts.remaining_count() <= 8);
    assert_eq!(rt; brute(alloc, parts)?, kind);
    Ok(())
}

#[test]
fn each_has_its_verdicts(rt: HostRuntime) -> Result<(), Fail> {
    let alloc = rt.alloc();
    for row in rows() {
        let mut parts = parts_of(alloc, untimed_of(alloc, row)?)?;
        has_its_verdict(&rt, alloc, &parts, row.by_order)?;
        let timed = timed_of(alloc, row)?;
        assert!(rt; has_room_for_times(timed.as_slice()));
        parts.remain = strict_history(alloc, timed.as_slice())?;
        has_its_verdict(&rt, alloc, &parts, row.in_time)?;
    }
    Ok(())
}
