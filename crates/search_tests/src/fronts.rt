//! Fronts of parts up to counts: their orders, their trees, their copies and their problems.
ghost use Rattle.std.specs.Prelude.{◌≤◌, IsTrue};
ghost use Rattle.order_check.specs.Based.{mark_of, received_count};
ghost use Rattle.order_check.specs.CountedFronts.{AreFrontCounts};
ghost use Rattle.order_check.specs.Good.{IsGood};

use order_check::{Kind, Parts, brute, explains_front, front_parts};
use polygraph::Problem;
use refutation::{Leaf, Tree, check_front};
use std::alloc::Global;
use std::process::Abort;
use std::test::*;
use test_histories::{EMPTY, ID_0_0, ID_0_1, ID_0_2, ID_1_0, Table};
use txn::Source::{By, Init};
use txn::{Arc, NoMemory, Sequence, TxnId};

/// 1.0 reads key 5 from 0.0.
const ARRIVES: Table = Table {
    remain: &[&[(&[], &[5])], &[(&[(5, By(ID_0_0))], &[])]],
    ..EMPTY
};

/// The same, but 0.0 doesn't write the key.
const NOT_WRITTEN: Table = Table {
    remain: &[&[(&[], &[6])], &[(&[(5, By(ID_0_0))], &[])]],
    ..EMPTY
};

/// 0.0 reads key 5 from the initial state and writes key 6; 1.0 reads key 6 from it and writes key 5.
const WRITE_SKEW: Table = Table {
    remain: &[&[(&[(5, Init)], &[6])], &[(&[(6, Init)], &[5])]],
    ..EMPTY
};

/// 0.0 and 0.1 are gone, and 0.1 was the last writer of key 5, which 0.2 reads from it.
const OVER_BASE: Table = Table {
    last: &[(5, ID_0_1)],
    marks: &[2, 0],
    remain: &[&[(&[(5, By(ID_0_1))], &[])], &[]],
    ..EMPTY
};

/// The same, but 0.2 reads the key from 0.0.
const OVERWRITTEN: Table = Table {
    last: &[(5, ID_0_1)],
    marks: &[2, 0],
    remain: &[&[(&[(5, By(ID_0_0))], &[])], &[]],
    ..EMPTY
};

/// 0.0 and 1.0 write key 5, and 2.0 reads it from 0.0.
const CHOICE: Table = Table {
    marks: &[0; 3],
    remain: &[&[(&[], &[5])], &[(&[], &[5])], &[(&[(5, By(ID_0_0))], &[])]],
    closed: &[false; 3],
    ..EMPTY
};

/// Whether the count lies between the session's mark and how many were received of it.
fn is_front_count(parts: &Parts, session: u8, count: u64) -> bool
    requires { IsGood parts.now }
    ensures low { IsTrue result → mark_of parts.now session ≤ count }
    ensures high { IsTrue result → count ≤ received_count parts.now session }
{
    parts.mark_of(session) <= count && count <= parts.received_count(session)
}

/// Whether these are the counts of a front of the parts.
fn are_front_counts(parts: &Parts, counts: &[u64]) -> bool
    requires { IsGood parts.now }
    ensures { IsTrue result → AreFrontCounts parts.now counts.now }
{
    if counts.len() != parts.sessions() {
        return false;
    }
    for session in 0..counts.len() {
        if !is_front_count(parts, session as u8, counts[session]) {
            return false;
        }
    }
    true
}

/// An order of a front, whether it explains the front, and the front's verdict.
struct Row {
    table: Table,
    counts: &'static [u64],
    order: &'static [TxnId],
    explained: bool,
    kind: Kind,
}

static ROWS: [Row; 12] = [
    Row {
        table: ARRIVES,
        counts: &[1, 1],
        order: &[ID_0_0, ID_1_0],
        explained: true,
        kind: Kind::Serial,
    },
    // A read from an id at the count is pending.
    Row {
        table: ARRIVES,
        counts: &[0, 1],
        order: &[ID_1_0],
        explained: true,
        kind: Kind::Pending,
    },
    // What stands past its count is in no order.
    Row {
        table: ARRIVES,
        counts: &[0, 1],
        order: &[ID_0_0, ID_1_0],
        explained: false,
        kind: Kind::Pending,
    },
    Row {
        table: ARRIVES,
        counts: &[1, 0],
        order: &[ID_0_0],
        explained: true,
        kind: Kind::Serial,
    },
    Row {
        table: ARRIVES,
        counts: &[0, 0],
        order: &[],
        explained: true,
        kind: Kind::Serial,
    },
    Row {
        table: NOT_WRITTEN,
        counts: &[1, 1],
        order: &[ID_0_0, ID_1_0],
        explained: false,
        kind: Kind::Violated,
    },
    Row {
        table: NOT_WRITTEN,
        counts: &[0, 1],
        order: &[ID_1_0],
        explained: true,
        kind: Kind::Pending,
    },
    Row {
        table: WRITE_SKEW,
        counts: &[1, 1],
        order: &[ID_0_0, ID_1_0],
        explained: false,
        kind: Kind::Violated,
    },
    Row {
        table: WRITE_SKEW,
        counts: &[1, 0],
        order: &[ID_0_0],
        explained: true,
        kind: Kind::Serial,
    },
    Row {
        table: OVER_BASE,
        counts: &[3, 0],
        order: &[ID_0_2],
        explained: true,
        kind: Kind::Serial,
    },
    // Its mark is its count: nothing of it is in the front.
    Row {
        table: OVER_BASE,
        counts: &[2, 0],
        order: &[ID_0_2],
        explained: false,
        kind: Kind::Serial,
    },
    Row {
        table: OVERWRITTEN,
        counts: &[2, 0],
        order: &[],
        explained: true,
        kind: Kind::Serial,
    },
];

fn rows() -> &'static [Row] {
    &ROWS
}

fn has_its_order(rt: &impl Abort, alloc: Global, row: &Row) -> Result<(), Fail> {
    let parts = row.table.parts(alloc)?;
    assert!(rt; parts.is_good() && are_front_counts(&parts, row.counts));
    let explained = explains_front(alloc, &parts, row.counts, row.order)?;
    assert_eq!(rt; explained, row.explained);
    Ok(())
}

fn has_its_verdict(rt: &impl Abort, alloc: Global, row: &Row) -> Result<(), Fail> {
    let parts = row.table.parts(alloc)?;
    assert!(rt; parts.is_good() && are_front_counts(&parts, row.counts));
    assert!(rt; parts.sessions() == 2);
    let front = front_parts(alloc, &parts, row.counts, &[true, true])?;
    assert!(rt; front.remaining_count() <= 8);
    assert_eq!(rt; brute(alloc, &front)?, row.kind);
    Ok(())
}

#[test]
fn fronts_have_their_orders_and_verdicts(rt: HostRuntime) -> Result<(), Fail> {
    for row in rows() {
        has_its_order(&rt, rt.alloc(), row)?;
        has_its_verdict(&rt, rt.alloc(), row)?;
    }
    Ok(())
}

const SKEWED: [Arc; 2] = [
    Arc::Base {
        key: 5,
        from: ID_0_0,
        to: ID_1_0,
    },
    Arc::Base {
        key: 6,
        from: ID_1_0,
        to: ID_0_0,
    },
];

/// What a tree of one leaf shows.
#[derive(Clone, Copy)]
enum Shows {
    Skew,
    NoWrite,
    Gone,
}

/// A front, a leaf, and whether it refutes the front.
type Leafed = (Table, &'static [u64], Shows, bool);

static LEAVES: [Leafed; 7] = [
    (WRITE_SKEW, &[1, 1], Shows::Skew, true),
    // The leaf names an arrival past its count.
    (WRITE_SKEW, &[1, 0], Shows::Skew, false),
    (WRITE_SKEW, &[0, 1], Shows::Skew, false),
    (NOT_WRITTEN, &[1, 1], Shows::NoWrite, true),
    (NOT_WRITTEN, &[0, 1], Shows::NoWrite, false),
    (OVERWRITTEN, &[3, 0], Shows::Gone, true),
    (OVERWRITTEN, &[2, 0], Shows::Gone, false),
];

fn leaves() -> &'static [Leafed] {
    &LEAVES
}

fn leaf_of(alloc: Global, shows: Shows) -> Result<Leaf, NoMemory> {
    match shows {
        Shows::Skew => Ok(Leaf::Cycle(Sequence::new(SKEWED.to_vec(alloc)?))),
        Shows::NoWrite => Ok(Leaf::NoWrite(ID_1_0, 5)),
        Shows::Gone => Ok(Leaf::Gone(ID_0_2, 5)),
    }
}

fn is_judged(rt: &impl Abort, alloc: Global, row: &Leafed) -> Result<(), Fail> {
    let tree = Tree::Close(leaf_of(alloc, row.2)?);
    let parts = row.0.parts(alloc)?;
    assert!(rt; parts.is_good() && are_front_counts(&parts, row.1));
    assert_eq!(rt; check_front(alloc, &parts, row.1, &tree)?, row.3);
    Ok(())
}

#[test]
fn fronts_are_refuted_by_what_they_have(rt: HostRuntime) -> Result<(), Fail> {
    for row in leaves() {
        is_judged(&rt, rt.alloc(), row)?;
    }
    Ok(())
}

/// Counts of the choice's front, which sessions are open in it, and how many choices are.
type Asked = (&'static [u64], &'static [bool], usize);

static ASKED: [Asked; 3] = [
    (&[1, 1, 1], &[true, true, true], 1),
    (&[1, 0, 1], &[true, false, true], 0),
    (&[0, 1, 1], &[false, true, true], 0),
];

fn asked() -> &'static [Asked] {
    &ASKED
}

fn is_asked(rt: &impl Abort, alloc: Global, row: &Asked) -> Result<(), Fail> {
    let parts = CHOICE.parts(alloc)?;
    assert!(rt; parts.is_good() && are_front_counts(&parts, row.0));
    assert!(rt; row.1.len() == parts.sessions());
    let problem = Problem::of_front(alloc, &parts, row.0, row.1)?;
    assert_eq!(rt; problem.open_choices(), row.2);
    for (session, count) in row.0.iter().enumerate() {
        let session = session as u8;
        let found = problem.parts();
        assert_eq!(rt; found.received_count(session), *count);
        assert_eq!(rt; found.is_closed(session), !row.1[usize::from(session)]);
    }
    Ok(())
}

#[test]
fn a_problem_is_asked_about_a_front(rt: HostRuntime) -> Result<(), Fail> {
    for row in asked() {
        is_asked(&rt, rt.alloc(), row)?;
    }
    Ok(())
}
