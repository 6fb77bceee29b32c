//! Saturations of small histories, what is forced in them, and a side that is assumed.
ghost use Rattle.std.specs.Prelude.{IfOk};
ghost use Rattle.order_check.specs.Known.{IsChoice};

use crate::fences::known_of;
use clock_choices::{Branch, Saturated};
use std::alloc::Global;
use std::process::Abort;
use std::test::Fail;
use test_histories::{EMPTY, ID_0_0, ID_0_1, ID_0_2, ID_1_0, ID_2_0, Table};
use txn::Source::{By, Init};
use txn::{Choice, NoMemory, Side, TxnId};

const ID_4_0: TxnId = TxnId {
    session: 4,
    number: 0,
};

struct Row {
    name: &'static str,
    table: Table,
    /// Each is known to come before those behind it, and nothing else is known of them.
    chain: &'static [TxnId],
    forced: usize,
    open: usize,
}

const THREE: Table = Table {
    marks: &[0; 3],
    remain: &[&[(&[], &[5])], &[(&[], &[5])], &[(&[(5, By(ID_0_0))], &[])]],
    closed: &[false; 3],
    ..EMPTY
};

static ROWS: [Row; 4] = [
    Row {
        name: "two writers",
        table: THREE,
        chain: &[ID_0_0, ID_2_0],
        forced: 0,
        open: 1,
    },
    Row {
        name: "two writers, and a read from the second",
        table: Table {
            remain: &[
                &[(&[], &[5]), (&[(5, By(ID_1_0))], &[])],
                &[(&[], &[5])],
                &[(&[(5, By(ID_0_0))], &[])],
            ],
            ..THREE
        },
        chain: &[ID_0_0, ID_2_0, ID_1_0, ID_0_1],
        forced: 2,
        open: 0,
    },
    Row {
        name: "a side that is there already isn't told",
        table: Table {
            remain: &[&[(&[], &[5]), (&[(5, By(ID_0_0))], &[]), (&[], &[5])], &[]],
            ..EMPTY
        },
        chain: &[ID_0_0, ID_0_1, ID_0_2],
        forced: 0,
        open: 0,
    },
    Row {
        name: "a cycle forces no side that it doesn't touch",
        table: Table {
            marks: &[0; 5],
            remain: &[
                &[(&[(5, Init)], &[6])],
                &[(&[(6, Init)], &[5])],
                &[(&[], &[7])],
                &[(&[], &[7])],
                &[(&[(7, By(ID_2_0))], &[])],
            ],
            closed: &[false; 5],
            ..EMPTY
        },
        chain: &[ID_2_0, ID_4_0],
        forced: 0,
        open: 1,
    },
];

fn rows() -> &'static [Row] {
    &ROWS
}

/// Stops unless these are in the one order that is known, and nothing else is known of them.
fn is_chain(rt: &impl Abort, saturated: &Saturated, row: &Row) {
    for (place, first) in row.chain.iter().enumerate() {
        for (other, second) in row.chain.iter().enumerate() {
            let known = saturated.reaches(*first, *second);
            assert!(rt; known == (place < other), "{}", row.name);
        }
    }
}

fn is_as_told(
    rt: &impl Abort,
    alloc: Global,
    saturated: &Saturated,
    row: &Row,
) -> Result<(), NoMemory> {
    is_chain(rt, saturated, row);
    let open = saturated.open_choices(alloc)?;
    let told = saturated.log().len() == row.forced && open.len() == row.open;
    assert!(rt; told, "{}", row.name);
    Ok(())
}

fn ends_as_told(rt: &impl Abort, alloc: Global, row: &Row) -> Result<(), NoMemory> {
    let saturated = known_of(rt, alloc, &row.table)?;
    is_as_told(rt, alloc, &saturated, row)
}

#[test]
fn what_has_to_be_is_known(rt: HostRuntime) -> Result<(), Fail> {
    for row in rows() {
        ends_as_told(&rt, rt.alloc(), row)?;
    }
    Ok(())
}

fn first_open(rt: &impl Abort, alloc: Global, branch: &Branch) -> Result<Choice, NoMemory>
    ensures { IfOk result (IsChoice branch.now.parts) }
{
    let open = branch.first_open(alloc)?;
    Ok(open.expect(rt, "a choice is open"))
}

/// Takes the first side of the choice, and comes back.
fn assumes(
    rt: &impl Abort,
    alloc: Global,
    branch: &mut Branch,
    choice: Choice,
) -> Result<(), NoMemory>
    requires { IsChoice branch.old.parts choice }
{
    branch.assume(alloc, choice, Side::First)?;
    assert!(rt; branch.depth() == 1 && branch.reaches(choice.other, choice.writer));
    branch.back();
    assert!(rt; !branch.reaches(choice.other, choice.writer));
    Ok(())
}

fn branches(rt: &impl Abort, alloc: Global, saturated: &Saturated) -> Result<(), NoMemory> {
    let mut branch = Branch::of(alloc, saturated)?;
    let choice = first_open(rt, alloc, &branch)?;
    assumes(rt, alloc, &mut branch, choice)?;
    let cycle = branch.cycle(alloc)?;
    assert!(rt; cycle.is_none());
    Ok(())
}

fn branches_of(rt: &impl Abort, alloc: Global, row: &Row) -> Result<(), NoMemory> {
    let saturated = known_of(rt, alloc, &row.table)?;
    branches(rt, alloc, &saturated)
}

#[test]
fn a_side_is_assumed_and_taken_back(rt: HostRuntime) -> Result<(), Fail> {
    if let Some(row) = rows().first() {
        branches_of(&rt, rt.alloc(), row)?;
    }
    Ok(())
}
