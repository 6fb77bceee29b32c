//! Chains of fences, and what stands in front of one.
use clock_choices::Saturated;
use fence_chain::{chain, ids_in_front};
use std::alloc::Global;
use std::process::Abort;
use std::test::Fail;
use test_histories::{EMPTY, ID_0_0, ID_0_1, ID_1_0, ID_1_1, Table};
use txn::Source::{By, Init};
use txn::{NoMemory, TxnId};

/// An id that isn't received in these rows.
const LATER: TxnId = TxnId {
    session: 1,
    number: 7,
};

struct Row {
    table: Table,
    chain: &'static [TxnId],
    /// One that remains, and what stands in front of it.
    fence: TxnId,
    front: &'static [TxnId],
}

static ROWS: [Row; 4] = [
    // each fence follows one of the other session
    Row {
        table: Table {
            remain: &[
                &[(&[(0, Init)], &[0]), (&[(0, By(ID_1_0))], &[0])],
                &[(&[(0, By(ID_0_0))], &[0]), (&[(0, By(ID_0_1))], &[0])],
            ],
            ..EMPTY
        },
        chain: &[ID_0_0, ID_1_0, ID_0_1, ID_1_1],
        fence: ID_0_1,
        front: &[ID_0_0, ID_0_1, ID_1_0],
    },
    // what isn't a fence stands in front of one, and in no chain
    Row {
        table: Table {
            remain: &[
                &[(&[], &[5]), (&[(0, Init)], &[0])],
                &[(&[(0, By(ID_0_1))], &[0])],
            ],
            ..EMPTY
        },
        chain: &[ID_0_1, ID_1_0],
        fence: ID_0_1,
        front: &[ID_0_0, ID_0_1],
    },
    // two fences whose sources haven't come aren't ordered; one that comes before both is
    Row {
        table: Table {
            remain: &[
                &[(&[(0, Init)], &[0]), (&[(0, By(LATER))], &[0])],
                &[(&[(0, By(LATER))], &[0])],
            ],
            ..EMPTY
        },
        chain: &[ID_0_0],
        fence: ID_1_0,
        front: &[ID_0_0, ID_1_0],
    },
    Row {
        table: Table {
            remain: &[&[(&[], &[5])], &[(&[], &[5])]],
            ..EMPTY
        },
        chain: &[],
        fence: ID_1_0,
        front: &[ID_1_0],
    },
];

fn rows() -> &'static [Row] {
    &ROWS
}

pub fn known_of(rt: &impl Abort, alloc: Global, table: &Table) -> Result<Saturated, NoMemory> {
    let parts = table.parts(alloc)?;
    assert!(rt; parts.is_good());
    Saturated::of(alloc, &parts)
}

fn has_its_chain(
    rt: &impl Abort,
    alloc: Global,
    known: &Saturated,
    row: &Row,
) -> Result<(), NoMemory> {
    let fences = chain(alloc, known)?;
    assert!(rt; fences.as_slice() == row.chain);
    Ok(())
}

fn has_its_front(
    rt: &impl Abort,
    alloc: Global,
    known: &Saturated,
    row: &Row,
) -> Result<(), NoMemory> {
    assert!(rt; known.parts().remaining_at(row.fence).is_some());
    let front = ids_in_front(alloc, known, row.fence)?;
    assert!(rt; front.as_slice() == row.front);
    Ok(())
}

fn is_as_told(rt: &impl Abort, alloc: Global, row: &Row) -> Result<(), NoMemory> {
    let known = known_of(rt, alloc, &row.table)?;
    has_its_chain(rt, alloc, &known, row)?;
    has_its_front(rt, alloc, &known, row)
}

#[test]
fn fences_stand_in_known_order(rt: HostRuntime) -> Result<(), Fail> {
    for row in rows() {
        is_as_told(&rt, rt.alloc(), row)?;
    }
    Ok(())
}
