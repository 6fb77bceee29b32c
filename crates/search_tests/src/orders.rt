//! Histories with their verdicts and an order, and calls whose memory is refused.
use order_check::{Kind, brute, explains, find_order};
use std::alloc::Global;
use std::process::Abort;
use std::test::Fail;
use test_histories::{EMPTY, ID_0_0, ID_0_1, ID_1_0, ID_1_1, Table};
use txn::Source::{By, Init};
use txn::TxnId;

struct Row {
    table: Table,
    kind: Kind,
    order: &'static [TxnId],
    explained: bool,
}

static ROWS: [Row; 4] = [
    // a reader from the initial state comes before the writer
    Row {
        table: Table {
            remain: &[&[(&[], &[5])], &[(&[(5, Init)], &[])]],
            ..EMPTY
        },
        kind: Kind::Serial,
        order: &[ID_1_0, ID_0_0],
        explained: true,
    },
    // its writer hasn't come
    Row {
        table: Table {
            remain: &[&[], &[(&[(5, By(ID_0_0))], &[])]],
            ..EMPTY
        },
        kind: Kind::Pending,
        order: &[ID_1_0],
        explained: true,
    },
    // write skew
    Row {
        table: Table {
            remain: &[&[(&[(5, Init)], &[6])], &[(&[(6, Init)], &[5])]],
            ..EMPTY
        },
        kind: Kind::Violated,
        order: &[ID_0_0, ID_1_0],
        explained: false,
    },
    // over a base, a read from a gone writer that isn't the key's last
    Row {
        table: Table {
            last: &[(5, ID_0_1)],
            marks: &[2, 0],
            remain: &[&[], &[(&[], &[6]), (&[(5, By(ID_0_0))], &[])]],
            ..EMPTY
        },
        kind: Kind::Violated,
        order: &[ID_1_0, ID_1_1],
        explained: false,
    },
];

fn rows() -> &'static [Row] {
    &ROWS
}

fn has_its_verdict(rt: &impl Abort, alloc: Global, row: &Row) -> Result<(), Fail> {
    let parts = row.table.parts(alloc)?;
    assert!(rt; parts.is_good() && parts.remaining_count() <= 8);
    assert_eq!(rt; brute(alloc, &parts)?, row.kind);
    assert_eq!(rt;
        find_order(alloc, &parts)?.is_some(),
        row.kind != Kind::Violated
    );
    Ok(())
}

fn has_its_order(rt: &impl Abort, alloc: Global, row: &Row) -> Result<(), Fail> {
    let parts = row.table.parts(alloc)?;
    assert!(rt; parts.is_good());
    assert_eq!(rt; explains(alloc, &parts, row.order)?, row.explained);
    Ok(())
}

#[test]
fn each_has_its_verdict_and_its_order(rt: HostRuntime) -> Result<(), Fail> {
    for row in rows() {
        has_its_verdict(&rt, rt.alloc(), row)?;
        has_its_order(&rt, rt.alloc(), row)?;
    }
    Ok(())
}

/// A call whose memory is refused gives no answer, and the next call answers.
fn answers(rt: &impl Abort, alloc: Global, row: &Row) {
    let Ok(parts) = row.table.parts(alloc) else {
        return;
    };
    assert!(rt; parts.is_good() && parts.remaining_count() <= 8);
    let first = explains(alloc, &parts, row.order);
    let second = brute(alloc, &parts);
    assert!(rt; first.is_ok() || second.is_ok());
    assert_eq!(rt; first.unwrap_or(row.explained), row.explained);
    assert_eq!(rt; second.unwrap_or(row.kind), row.kind);
}

/// The gate refuses no memory: `bench/check/refused_memory.py` runs this with each allocation refused in turn.
#[test]
fn refused_memory_changes_no_answer(rt: HostRuntime) {
    for row in rows() {
        answers(&rt, rt.alloc(), row);
    }
}
