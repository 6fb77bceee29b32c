//! Cuts that are applied: what they leave, and the verdict of that.
ghost use Rattle.std.specs.Prelude.{IfOk, Some};
ghost use Rattle.order_check.specs.Cuts.{IsCutOff, IsKeptFront};
ghost use Rattle.order_check.specs.Good.{IsGood};
ghost use Rattle.settle.specs.Found.{IsFound};

use crate::settled::{is_explained, problem_of};
use order_check::{Kind, Parts, brute, cuts_of_fronts_fit, front_of_itself, settled_stays_settled};
use polygraph::Problem;
use settle::{Cut, find};
use std::alloc::Global;
use std::process::Abort;
use std::test::Fail;
use test_histories::{EMPTY, ID_0_0, ID_0_1, ID_0_2, ID_1_0, ID_1_1, Table};
use truncate::apply;
use txn::Source::{By, Init};
use txn::{NoMemory, TxnId};

/// Parts, an order that explains them, and after the cut the last gone writers, the marks, how many transactions remain,
/// and the verdict.
struct Row {
    name: &'static str,
    table: Table,
    order: &'static [TxnId],
    last: &'static [(u64, TxnId)],
    marks: &'static [u64],
    left: usize,
    kind: Kind,
}

static ROWS: [Row; 3] = [
    Row {
        name: "the first cut",
        table: Table {
            remain: &[
                &[(&[], &[5]), (&[(0, Init)], &[0])],
                &[(&[(0, By(ID_0_1))], &[0])],
            ],
            ..EMPTY
        },
        order: &[ID_0_0, ID_0_1, ID_1_0],
        last: &[(0, ID_0_1), (5, ID_0_0)],
        marks: &[2, 0],
        left: 1,
        kind: Kind::Serial,
    },
    Row {
        name: "a read behind the fence waits as before",
        table: Table {
            remain: &[
                &[(&[], &[5]), (&[(0, Init)], &[0])],
                &[(&[(0, By(ID_0_1))], &[0]), (&[(5, By(ID_0_2))], &[])],
            ],
            ..EMPTY
        },
        order: &[ID_0_0, ID_0_1, ID_1_0, ID_1_1],
        last: &[(0, ID_0_1), (5, ID_0_0)],
        marks: &[2, 0],
        left: 2,
        kind: Kind::Pending,
    },
    Row {
        name: "writers of the cut overrule those of the base on their keys",
        table: Table {
            last: &[(3, ID_1_0), (5, ID_0_0)],
            marks: &[1, 1],
            remain: &[
                &[(&[(5, By(ID_0_0))], &[5]), (&[(0, Init)], &[0])],
                &[(&[(0, By(ID_0_2))], &[0])],
            ],
            ..EMPTY
        },
        order: &[ID_0_1, ID_0_2, ID_1_1],
        last: &[(0, ID_0_2), (3, ID_1_0), (5, ID_0_1)],
        marks: &[3, 1],
        left: 1,
        kind: Kind::Serial,
    },
];

fn rows() -> &'static [Row] {
    &ROWS
}

/// What a cut leaves of parts that have gone on since it was found in a front of them.
pub fn cut_past(alloc: Global, front: &Parts, parts: &Parts, cut: &Cut) -> Result<Parts, NoMemory>
    requires good { IsGood parts.now }
    requires kept { IsKeptFront front.now parts.now }
    requires found { IsFound front.now (Some cut.now) }
    ensures good { IfOk result IsGood }
    ensures cut_off { IfOk result (IsCutOff parts.now cut.now.gone) }
{
    settled_stays_settled();
    cuts_of_fronts_fit();
    let mut left = parts.clone()?;
    apply(alloc, &mut left, cut.gone.as_slice(), &cut.last)?;
    Ok(left)
}

/// What the cut leaves of the parts that it was found in.
pub fn cut_through(alloc: Global, parts: &Parts, cut: &Cut) -> Result<Parts, NoMemory>
    requires good { IsGood parts.now }
    requires found { IsFound parts.now (Some cut.now) }
    ensures good { IfOk result IsGood }
    ensures cut_off { IfOk result (IsCutOff parts.now cut.now.gone) }
{
    // Laws that the proof cites. They do nothing when they run.
    front_of_itself();
    cut_past(alloc, parts, parts, cut)
}

fn is_left(rt: &impl Abort, alloc: Global, parts: &Parts, row: &Row) -> Result<(), NoMemory>
    requires { IsGood parts.now }
{
    let last = parts.base.last.entries(alloc)?;
    assert!(rt; last.as_slice() == row.last, "{}", row.name);
    assert!(rt; parts.base.marks.as_slice() == row.marks, "{}", row.name);
    let left = parts.remaining_count();
    assert_eq!(rt; left, row.left);
    assert!(rt; left <= 8, "{}", row.name);
    let kind = brute(alloc, parts)?;
    assert_eq!(rt; kind, row.kind);
    Ok(())
}

fn is_cut(rt: &impl Abort, alloc: Global, problem: &Problem, row: &Row) -> Result<(), NoMemory> {
    is_explained(rt, alloc, problem, row.order)?;
    match find(alloc, problem, row.order)? {
        Some(cut) => {
            let left = cut_through(alloc, problem.parts(), &cut)?;
            is_left(rt, alloc, &left, row)
        }
        None => panic!(rt; "{}", row.name),
    }
}

fn ends_as_told(rt: &impl Abort, alloc: Global, row: &Row) -> Result<(), NoMemory> {
    let problem = problem_of(rt, alloc, &row.table)?;
    is_cut(rt, alloc, &problem, row)
}

#[test]
fn a_cut_leaves_what_comes_after(rt: HostRuntime) -> Result<(), Fail> {
    for row in rows() {
        ends_as_told(&rt, rt.alloc(), row)?;
    }
    Ok(())
}
