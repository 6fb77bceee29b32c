//! Histories of 256 sessions, as many as there may be: the last of them counts as any other.
use order_check::{Kind, brute, explains, find_order};
use std::alloc::Global;
use std::process::Abort;
use std::test::Fail;
use test_histories::{ID_0_0, ID_255_0, Lists, crowd};
use txn::Source::Init;
use txn::TxnId;

/// What remains of the first and of the last session, the verdict, an order, and whether it explains them.
struct Row {
    first: &'static [Lists],
    last: &'static [Lists],
    kind: Kind,
    order: &'static [TxnId],
    explained: bool,
}

static ROWS: [Row; 3] = [
    // a reader from the initial state comes before the writer
    Row {
        first: &[(&[], &[5])],
        last: &[(&[(5, Init)], &[])],
        kind: Kind::Serial,
        order: &[ID_255_0, ID_0_0],
        explained: true,
    },
    // an order without the last session's is none of all
    Row {
        first: &[(&[], &[5])],
        last: &[(&[], &[6])],
        kind: Kind::Serial,
        order: &[ID_0_0],
        explained: false,
    },
    // write skew
    Row {
        first: &[(&[(5, Init)], &[6])],
        last: &[(&[(6, Init)], &[5])],
        kind: Kind::Violated,
        order: &[ID_0_0, ID_255_0],
        explained: false,
    },
];

fn rows() -> &'static [Row] {
    &ROWS
}

fn has_its_verdict(rt: &impl Abort, alloc: Global, row: &Row) -> Result<(), Fail> {
    let parts = crowd(alloc, row.first, row.last)?;
    assert!(rt; parts.is_good() && parts.remaining_count() <= 8);
    assert_eq!(rt; brute(alloc, &parts)?, row.kind);
    assert_eq!(rt;
        find_order(alloc, &parts)?.is_some(),
        row.kind != Kind::Violated
    );
    Ok(())
}

fn has_its_order(rt: &impl Abort, alloc: Global, row: &Row) -> Result<(), Fail> {
    let parts = crowd(alloc, row.first, row.last)?;
    assert!(rt; parts.is_good());
    assert_eq!(rt; explains(alloc, &parts, row.order)?, row.explained);
    Ok(())
}

#[test]
fn each_has_its_verdict_and_its_order(rt: HostRuntime) -> Result<(), Fail> {
    for row in rows() {
        has_its_verdict(&rt, rt.alloc(), row)?;
        has_its_order(&rt, rt.alloc(), row)?;
    }
    Ok(())
}

/// How many transactions were received of each session, where two were of the last and none of the others.
#[test]
fn the_last_session_is_counted(rt: HostRuntime) -> Result<(), Fail> {
    let parts = crowd(rt.alloc(), &[], &[(&[], &[5]), (&[], &[6])])?;
    assert!(rt; parts.is_good());
    let counts = parts.received_counts(rt.alloc())?;
    assert_eq!(rt; counts.len(), 256);
    assert_eq!(rt; counts.as_slice().first(), Some(&0));
    assert_eq!(rt; counts.as_slice().last(), Some(&2));
    Ok(())
}
