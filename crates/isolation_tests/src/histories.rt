//! Histories with their verdicts by some order, and by snapshot isolation.
use isolation_histories::{Event, event_of, has_room_to_split, is_splittable, split_fragment};
use order_check::{Kind, Parts, brute};
use std::alloc::Global;
use std::process::Abort;
use std::test::Fail;
use test_histories::{EMPTY, ID_0_0, ID_0_1, ID_1_0, ID_1_1, ID_2_0, Table};
use txn::Source::{By, Init};
use txn::{Fragment, Sequence, Txn, TxnId, check_fragment};

struct Row {
    table: Table,
    by_order: Kind,
    by_snapshot: Kind,
}

static ROWS: [Row; 8] = [
    // write skew
    Row {
        table: Table {
            remain: &[&[(&[(5, Init)], &[6])], &[(&[(6, Init)], &[5])]],
            ..EMPTY
        },
        by_order: Kind::Violated,
        by_snapshot: Kind::Serial,
    },
    // lost update
    Row {
        table: Table {
            remain: &[&[(&[(5, Init)], &[5])], &[(&[(5, Init)], &[5])]],
            ..EMPTY
        },
        by_order: Kind::Violated,
        by_snapshot: Kind::Violated,
    },
    // long fork: two readers see two writers in opposite orders
    Row {
        table: Table {
            remain: &[
                &[(&[], &[5])],
                &[(&[], &[6])],
                &[(&[(5, By(ID_0_0)), (6, Init)], &[])],
                &[(&[(5, Init), (6, By(ID_1_0))], &[])],
            ],
            marks: &[0, 0, 0, 0],
            closed: &[false, false, false, false],
            ..EMPTY
        },
        by_order: Kind::Violated,
        by_snapshot: Kind::Violated,
    },
    // a read of an aborted write, which did nothing
    Row {
        table: Table {
            remain: &[&[(&[], &[])], &[(&[(5, By(ID_0_0))], &[])]],
            ..EMPTY
        },
        by_order: Kind::Violated,
        by_snapshot: Kind::Violated,
    },
    // a session that doesn't see its own last commit
    Row {
        table: Table {
            remain: &[&[(&[], &[5]), (&[(5, Init)], &[])], &[]],
            ..EMPTY
        },
        by_order: Kind::Violated,
        by_snapshot: Kind::Violated,
    },
    // a reader that began before a writer committed, and commits a key of its own behind another that saw the writer
    Row {
        table: Table {
            remain: &[
                &[(&[], &[5])],
                &[(&[(5, Init)], &[6])],
                &[(&[(5, By(ID_0_0)), (6, Init)], &[7])],
            ],
            marks: &[0, 0, 0],
            closed: &[false, false, false],
            ..EMPTY
        },
        by_order: Kind::Violated,
        by_snapshot: Kind::Serial,
    },
    // fences, one after another
    Row {
        table: Table {
            remain: &[
                &[(&[(0, Init)], &[0]), (&[(0, By(ID_1_0))], &[0])],
                &[(&[(0, By(ID_0_0))], &[0])],
            ],
            ..EMPTY
        },
        by_order: Kind::Serial,
        by_snapshot: Kind::Serial,
    },
    // its writer hasn't come
    Row {
        table: Table {
            remain: &[&[], &[(&[(5, By(ID_0_0))], &[])]],
            ..EMPTY
        },
        by_order: Kind::Pending,
        by_snapshot: Kind::Pending,
    },
];

fn rows() -> &'static [Row] {
    &ROWS
}

fn split_session(
    rt: &impl Abort,
    alloc: Global,
    session: u8,
    txns: &Sequence<Txn>,
) -> Result<Sequence<Txn>, Fail> {
    if txns.is_empty() {
        return Ok(Sequence::new(Vec::new(alloc)));
    }
    let fragment = Fragment {
        session,
        first: 0,
        txns: txns.clone()?,
    };
    assert!(rt; check_fragment(64, &fragment).is_ok());
    assert!(rt; is_splittable(&fragment));
    assert!(rt; has_room_to_split(&fragment));
    Ok(split_fragment(alloc, &fragment)?.txns)
}

fn split_parts(rt: &impl Abort, alloc: Global, parts: Parts) -> Result<Parts, Fail> {
    let mut remain = Vec::new(alloc);
    for (session, txns) in parts.remain.as_slice().iter().enumerate() {
        assert!(rt; session < 64);
        let halves = split_session(rt, alloc, session as u8, txns)?;
        remain.push(halves)?;
    }
    let mut parts = parts;
    parts.remain = Sequence::new(remain);
    Ok(parts)
}

fn has_its_verdict(rt: &impl Abort, alloc: Global, parts: &Parts, kind: Kind) -> Result<(), Fail> {
    assert!(rt; parts.is_good() && parts.remaining_count() <= 8);
    assert_eq!(rt; brute(alloc, parts)?, kind);
    Ok(())
}

#[test]
fn each_has_its_verdicts(rt: HostRuntime) -> Result<(), Fail> {
    let alloc = rt.alloc();
    for row in rows() {
        let parts = row.table.parts(alloc)?;
        has_its_verdict(&rt, alloc, &parts, row.by_order)?;
        let parts = split_parts(&rt, alloc, parts)?;
        has_its_verdict(&rt, alloc, &parts, row.by_snapshot)?;
    }
    Ok(())
}

#[test]
fn halves_are_begins_and_commits(rt: HostRuntime) {
    assert_eq!(rt; event_of(ID_0_0), Event::Begin(ID_0_0));
    assert_eq!(rt; event_of(ID_0_1), Event::Commit(ID_0_0));
    assert_eq!(rt;
        event_of(TxnId {
            session: 1,
            number: 3
        }),
        Event::Commit(ID_1_1)
    );
    assert_eq!(rt;
        event_of(TxnId {
            session: 2,
            number: 0
        }),
        Event::Begin(ID_2_0)
    );
}
