//! The cut that is found after a yes, and histories in which no fence is settled.
ghost use Rattle.std.specs.Prelude.{OnOk};
ghost use Rattle.order_check.specs.Explains.{Explains};

use clock_choices::Saturated;
use order_check::explains;
use polygraph::Problem;
use settle::{Cut, find};
use std::alloc::Global;
use std::process::Abort;
use std::test::Fail;
use test_histories::{EMPTY, ID_0_0, ID_0_1, ID_0_2, ID_1_0, ID_1_1, Table};
use txn::Source::{By, Init};
use txn::{NoMemory, TxnId};

/// The fence of the cut, what it takes out, and the last writers that it leaves.
type Told = (TxnId, &'static [TxnId], &'static [(u64, TxnId)]);

struct Row {
    name: &'static str,
    table: Table,
    order: &'static [TxnId],
    cut: Option<Told>,
}

static ROWS: [Row; 6] = [
    Row {
        name: "the last of three settled fences",
        table: Table {
            remain: &[
                &[(&[(0, Init)], &[0]), (&[(0, By(ID_1_0))], &[0])],
                &[(&[(0, By(ID_0_0))], &[0]), (&[(0, By(ID_0_1))], &[0])],
            ],
            ..EMPTY
        },
        order: &[ID_0_0, ID_1_0, ID_0_1, ID_1_1],
        cut: Some((ID_0_1, &[ID_0_0, ID_0_1, ID_1_0], &[(0, ID_0_1)])),
    },
    Row {
        name: "the first cut",
        table: Table {
            remain: &[
                &[(&[], &[5]), (&[(0, Init)], &[0])],
                &[(&[(0, By(ID_0_1))], &[0])],
            ],
            ..EMPTY
        },
        order: &[ID_0_0, ID_0_1, ID_1_0],
        cut: Some((ID_0_1, &[ID_0_0, ID_0_1], &[(0, ID_0_1), (5, ID_0_0)])),
    },
    Row {
        name: "a closed session needs not be past the fence",
        table: Table {
            remain: &[&[(&[], &[5]), (&[(0, Init)], &[0])], &[]],
            closed: &[false, true],
            ..EMPTY
        },
        order: &[ID_0_0, ID_0_1],
        cut: Some((ID_0_1, &[ID_0_0, ID_0_1], &[(0, ID_0_1), (5, ID_0_0)])),
    },
    Row {
        name: "a silent session",
        table: Table {
            remain: &[&[(&[], &[5]), (&[(0, Init)], &[0])], &[]],
            ..EMPTY
        },
        order: &[ID_0_0, ID_0_1],
        cut: None,
    },
    Row {
        name: "two writers that nothing orders",
        table: Table {
            remain: &[
                &[
                    (&[], &[5]),
                    (&[(0, Init)], &[0]),
                    (&[(0, By(ID_1_1))], &[0]),
                ],
                &[(&[], &[5]), (&[(0, By(ID_0_1))], &[0])],
            ],
            ..EMPTY
        },
        order: &[ID_0_0, ID_1_0, ID_0_1, ID_1_1, ID_0_2],
        cut: None,
    },
    Row {
        name: "a read in front is pending",
        table: Table {
            remain: &[
                &[(&[(5, By(ID_1_1))], &[]), (&[(0, Init)], &[0])],
                &[(&[(0, By(ID_0_1))], &[0])],
            ],
            ..EMPTY
        },
        order: &[ID_0_0, ID_0_1, ID_1_0],
        cut: None,
    },
];

fn rows() -> &'static [Row] {
    &ROWS
}

pub fn problem_of(rt: &impl Abort, alloc: Global, table: &Table) -> Result<Problem, NoMemory> {
    let parts = table.parts(alloc)?;
    assert!(rt; parts.is_good());
    let known = Saturated::of(alloc, &parts)?;
    Problem::about(alloc, known)
}

/// Stops unless the order explains the problem's parts.
pub fn is_explained(
    rt: &impl Abort,
    alloc: Global,
    problem: &Problem,
    order: &[TxnId],
) -> Result<(), NoMemory>
    ensures { OnOk result (Explains problem.now.known.parts order.now) }
{
    let explained = explains(alloc, problem.parts(), order)?;
    assert!(rt; explained);
    Ok(())
}

fn is_cut(rt: &impl Abort, alloc: Global, cut: &Cut, told: &Told) -> Result<(), NoMemory> {
    assert_eq!(rt; cut.fence, told.0);
    assert!(rt; cut.gone.as_slice() == told.1);
    let last = cut.last.entries(alloc)?;
    assert!(rt; last.as_slice() == told.2);
    Ok(())
}

fn is_told(rt: &impl Abort, alloc: Global, found: &Option<Cut>, row: &Row) -> Result<(), NoMemory> {
    match (found, row.cut) {
        (Some(cut), Some(told)) => is_cut(rt, alloc, cut, &told),
        (found, told) => {
            assert!(rt; found.is_none() && told.is_none(), "{}", row.name);
            Ok(())
        }
    }
}

fn is_found(rt: &impl Abort, alloc: Global, problem: &Problem, row: &Row) -> Result<(), NoMemory> {
    is_explained(rt, alloc, problem, row.order)?;
    let found = find(alloc, problem, row.order)?;
    is_told(rt, alloc, &found, row)
}

fn ends_as_told(rt: &impl Abort, alloc: Global, row: &Row) -> Result<(), NoMemory> {
    let problem = problem_of(rt, alloc, &row.table)?;
    is_found(rt, alloc, &problem, row)
}

#[test]
fn the_last_settled_fence_is_found(rt: HostRuntime) -> Result<(), Fail> {
    for row in rows() {
        ends_as_told(&rt, rt.alloc(), row)?;
    }
    Ok(())
}
