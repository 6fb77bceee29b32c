//! Trees that refute, forged ones, and deep ones.
use order_check::Parts;
use refutation::{Leaf, Tree, check, join};
use std::alloc::Global;
use std::process::Abort;
use std::test::*;
use test_histories::{EMPTY, ID_0_0, ID_0_1, ID_1_0, ID_1_1, Table};
use txn::Source::{By, Init};
use txn::{Arc, Choice, ForceStep, NoMemory, Sequence, Side, TxnId};

/// 0.0 reads key 5 from the initial state and writes key 6; 1.0 reads key 6 from it and writes key 5.
pub(crate) const WRITE_SKEW: Table = Table {
    remain: &[&[(&[(5, Init)], &[6])], &[(&[(6, Init)], &[5])]],
    ..EMPTY
};

/// 0.0 writes key 5; 0.1 and 1.0 both read that and write the key.
pub(crate) const LOST_UPDATE: Table = Table {
    remain: &[
        &[(&[], &[5]), (&[(5, By(ID_0_0))], &[5])],
        &[(&[(5, By(ID_0_0))], &[5])],
    ],
    ..EMPTY
};

/// 0.0 is gone, 0.1 was the last writer of key 5. 0.2 reads the key from 0.0, and key 6 from 1.0, which doesn't write it.
const GONE: Table = Table {
    last: &[(5, ID_0_1)],
    marks: &[2, 0],
    remain: &[&[(&[(5, By(ID_0_0)), (6, By(ID_1_0))], &[])], &[(&[], &[])]],
    ..EMPTY
};

const READER: TxnId = TxnId {
    session: 0,
    number: 2,
};

pub(crate) const SKEWED: [Arc; 2] = [
    Arc::Base {
        key: 5,
        from: ID_0_0,
        to: ID_1_0,
    },
    Arc::Base {
        key: 6,
        from: ID_1_0,
        to: ID_0_0,
    },
];

/// Arcs over the write skew that are no cycle, or aren't right.
static FORGED: [&[Arc]; 5] = [
    &[],
    &[Arc::Base {
        key: 5,
        from: ID_0_0,
        to: ID_1_0,
    }],
    &[
        Arc::Base {
            key: 5,
            from: ID_0_0,
            to: ID_1_0,
        },
        Arc::Taken {
            from: ID_1_0,
            to: ID_0_0,
        },
    ],
    &[
        Arc::Session {
            from: ID_0_0,
            to: ID_0_1,
        },
        Arc::Session {
            from: ID_0_1,
            to: ID_0_0,
        },
    ],
    &[
        Arc::Read {
            key: 5,
            from: ID_1_0,
            to: ID_0_0,
        },
        Arc::Base {
            key: 5,
            from: ID_0_0,
            to: ID_1_0,
        },
    ],
];

fn forged() -> &'static [&'static [Arc]] {
    &FORGED
}

pub(crate) fn cycle(alloc: Global, arcs: &[Arc]) -> Result<Tree, NoMemory> {
    Ok(Tree::Close(Leaf::Cycle(Sequence::new(arcs.to_vec(alloc)?))))
}

fn is_judged(
    rt: &impl Abort,
    alloc: Global,
    parts: &Parts,
    tree: &Tree,
    wanted: bool,
) -> Result<(), NoMemory> {
    assert!(rt; parts.is_good());
    let refutes = check(alloc, parts, tree)?;
    assert!(rt; refutes == wanted);
    Ok(())
}

/// Stops unless the tree, where memory sufficed to make it, refutes the table's parts as wanted.
pub(crate) fn wants(
    rt: &impl Abort,
    alloc: Global,
    table: &Table,
    tree: Result<Tree, NoMemory>,
    wanted: bool,
) -> Result<(), NoMemory> {
    let tree = tree?;
    let parts = table.parts(alloc)?;
    is_judged(rt, alloc, &parts, &tree, wanted)
}

#[test]
fn forged_cycles_are_refused(rt: HostRuntime) -> Result<(), Fail> {
    let alloc = rt.alloc();
    for arcs in forged() {
        wants(&rt, alloc, &WRITE_SKEW, cycle(alloc, arcs), false)?;
    }
    Ok(())
}

/// Whether a leaf says that a read is gone, or else that its source doesn't write the key; its reader and key; whether it is right.
type Row = (bool, TxnId, u64, bool);

static OF_SKEW: [Row; 3] = [
    (true, ID_0_0, 5, false),
    (false, ID_0_0, 5, false),
    (false, ID_1_1, 5, false),
];

static OF_GONE: [Row; 4] = [
    (true, READER, 5, true),
    (false, READER, 6, true),
    (true, READER, 6, false),
    (false, READER, 5, false),
];

fn of_skew() -> &'static [Row] {
    &OF_SKEW
}

fn of_gone() -> &'static [Row] {
    &OF_GONE
}

fn leaf(gone: bool, reader: TxnId, key: u64) -> Tree {
    if gone {
        Tree::Close(Leaf::Gone(reader, key))
    } else {
        Tree::Close(Leaf::NoWrite(reader, key))
    }
}

fn judges(rt: &impl Abort, alloc: Global, table: &Table, rows: &[Row]) -> Result<(), NoMemory> {
    for (gone, reader, key, wanted) in rows {
        wants(rt, alloc, table, Ok(leaf(*gone, *reader, *key)), *wanted)?;
    }
    Ok(())
}

#[test]
fn bad_reads_close(rt: HostRuntime) -> Result<(), Fail> {
    judges(&rt, rt.alloc(), &WRITE_SKEW, of_skew())?;
    judges(&rt, rt.alloc(), &GONE, of_gone())?;
    Ok(())
}

/// The two readers of the lost update, each with the other as the other writer.
pub(crate) const EARLIER: Choice = Choice {
    reader: ID_0_1,
    key: 5,
    writer: ID_0_0,
    other: ID_1_0,
};

pub(crate) const LATER: Choice = Choice {
    reader: ID_1_0,
    key: 5,
    writer: ID_0_0,
    other: ID_0_1,
};

/// The cycle that closes where the other writer stands before the writer that a choice's reader reads from.
pub(crate) fn before_writer(choice: Choice) -> [Arc; 2] {
    [
        Arc::Taken {
            from: choice.other,
            to: choice.writer,
        },
        Arc::Read {
            key: 5,
            from: choice.writer,
            to: choice.other,
        },
    ]
}

pub(crate) const BOTH_AFTER: [Arc; 2] = [
    Arc::Taken {
        from: ID_0_1,
        to: ID_1_0,
    },
    Arc::Taken {
        from: ID_1_0,
        to: ID_0_1,
    },
];

pub(crate) fn step(alloc: Global, choice: Choice, side: Side) -> Result<ForceStep, NoMemory> {
    Ok(ForceStep {
        choice,
        side,
        cycle: Sequence::new(before_writer(choice).to_vec(alloc)?),
    })
}

pub(crate) fn forced(alloc: Global, side: Side) -> Result<Tree, NoMemory> {
    let mut steps = Sequence::new(Vec::new(alloc));
    steps.push(step(alloc, EARLIER, side)?)?;
    steps.push(step(alloc, LATER, side)?)?;
    Ok(Tree::Force {
        steps,
        rest: Box::new(alloc, cycle(alloc, &BOTH_AFTER)?)?,
    })
}

#[test]
fn forced_sides_close_the_lost_update(rt: HostRuntime) -> Result<(), Fail> {
    let alloc = rt.alloc();
    wants(&rt, alloc, &LOST_UPDATE, forced(alloc, Side::Second), true)?;
    wants(&rt, alloc, &LOST_UPDATE, forced(alloc, Side::First), false)?;
    Ok(())
}

/// The leaves below the splits of both choices, by the cube's number.
pub(crate) fn leaves(alloc: Global) -> Result<Vec<Tree>, NoMemory> {
    let mut trees = Vec::new(alloc);
    trees.push(cycle(alloc, &before_writer(EARLIER))?)?;
    trees.push(cycle(alloc, &before_writer(EARLIER))?)?;
    trees.push(cycle(alloc, &before_writer(LATER))?)?;
    trees.push(cycle(alloc, &BOTH_AFTER)?)?;
    Ok(trees)
}

fn joined(rt: &impl Abort, alloc: Global, choices: [Choice; 2]) -> Result<Tree, NoMemory> {
    let trees = leaves(alloc)?;
    assert!(rt; trees.len() == 4);
    join(alloc, &choices, trees)
}

#[test]
fn joined_leaves_close_the_lost_update(rt: HostRuntime) -> Result<(), Fail> {
    let alloc = rt.alloc();
    let tree = joined(&rt, alloc, [EARLIER, LATER]);
    wants(&rt, alloc, &LOST_UPDATE, tree, true)?;
    let tree = joined(&rt, alloc, [LATER, EARLIER]);
    wants(&rt, alloc, &LOST_UPDATE, tree, false)?;
    Ok(())
}
