//! The known relation of generated histories, as transactions and fragments arrive in several orders and cuts are made in between: all
//! of it is compared with the plain computation.
ghost use Rattle.std.specs.Prelude.{Some, IfOk, IfSome};
ghost use Rattle.settle.specs.Found.{IsFound};

use crate::arrivals::{Turn, give, saturated_of};
use crate::cuts::cut_through;
use crate::defined::{is_all_as_defined, is_as_defined};
use crate::settled::is_explained;
use crate::walks::walk_down;
use clock_choices::Saturated;
use order_check::Parts;
use polygraph::{Cube, Problem, solve_cube};
use settle::{Cut, find};
use std::alloc::Global;
use std::process::Abort;
use std::test::Fail;
use test_histories::{Dice, fenced_by, over, parts_by, stored_by};
use txn::{NoMemory, Sequence, TxnId};

/// The cut that is found behind an order that explains the problem's parts.
pub fn cut_behind(
    rt: &impl Abort,
    alloc: Global,
    problem: &Problem,
    order: &[TxnId],
) -> Result<Option<Cut>, NoMemory>
    ensures { IfOk result (λ found. IfSome found (λ cut. IsFound problem.now.known.parts (Some cut))) }
{
    is_explained(rt, alloc, problem, order)?;
    find(alloc, problem, order)
}

/// The cut that is found in the problem, where an order explains its parts.
fn cut_in(rt: &impl Abort, alloc: Global, problem: &Problem) -> Result<Option<Cut>, NoMemory>
    ensures { IfOk result (λ found. IfSome found (λ cut. IsFound problem.now.known.parts (Some cut))) }
{
    match solve_cube(alloc, problem, 0, 0, 1000) {
        Ok(Cube::Yes(order)) => cut_behind(rt, alloc, problem, order.as_slice()),
        Ok(_) => Ok(None),
        Err(refused) => Err(refused),
    }
}

/// The cut that is found, where an order explains the parts.
fn cut_of(rt: &impl Abort, alloc: Global, saturated: &Saturated) -> Result<Option<Cut>, NoMemory>
    ensures { IfOk result (λ found. IfSome found (λ cut. IsFound saturated.now.parts (Some cut))) }
{
    match Problem::of(alloc, saturated) {
        Ok(problem) => cut_in(rt, alloc, &problem),
        Err(refused) => Err(refused),
    }
}

/// Goes on with what the cut leaves, with every session closed since.
fn cut_at(
    rt: &impl Abort,
    alloc: Global,
    saturated: &mut Saturated,
    cut: &Cut,
) -> Result<(), NoMemory>
    requires { IsFound saturated.old.parts (Some cut.now) }
{
    let closed = Sequence::new([true; 3].to_vec(alloc)?);
    let mut left = cut_through(alloc, saturated.parts(), cut)?;
    left.closed = closed;
    assert!(rt; left.is_good());
    saturated.cut(alloc, cut.gone.as_slice(), &left)
}

/// Whether there was a cut.
fn cuts(rt: &impl Abort, alloc: Global, saturated: &mut Saturated) -> Result<bool, NoMemory> {
    match cut_of(rt, alloc, saturated)? {
        Some(cut) => {
            cut_at(rt, alloc, saturated, &cut)?;
            Ok(true)
        }
        None => Ok(false),
    }
}

/// That one tries to cut.
const CUT: Turn = (3, 0);

/// One by one in turn; one by one, session after session; whole sessions together; and several together.
static ORDERS: [&[Turn]; 4] = [
    &[
        (0, 1),
        (1, 1),
        (2, 1),
        (0, 1),
        (1, 1),
        (2, 1),
        (0, 1),
        (1, 1),
        CUT,
        (2, 1),
        (0, 1),
        (1, 1),
        (2, 1),
        (0, 1),
        (1, 1),
        CUT,
    ],
    &[
        (1, 1),
        (1, 1),
        (1, 1),
        (1, 1),
        (1, 1),
        (0, 1),
        (0, 1),
        (0, 1),
        (0, 1),
        (0, 1),
        CUT,
        (2, 1),
        (2, 1),
        (2, 1),
        (2, 1),
        CUT,
    ],
    &[(2, 9), (0, 9), CUT, (1, 9), CUT],
    &[
        (2, 2),
        (1, 2),
        CUT,
        (0, 3),
        (1, 1),
        CUT,
        (0, 1),
        (2, 1),
        CUT,
        (1, 2),
        (2, 1),
        (0, 1),
        CUT,
    ],
];

fn orders() -> &'static [&'static [Turn]] {
    &ORDERS
}

/// How many transactions are few, so that all is compared after each turn.
const FEW: usize = 20;

/// Stops unless all is as it is defined, where few remain.
fn is_as_defined_of_few(
    rt: &impl Abort,
    alloc: Global,
    saturated: &Saturated,
) -> Result<(), NoMemory> {
    if saturated.parts().remaining_count() > FEW {
        return Ok(());
    }
    is_as_defined(rt, alloc, saturated)
}

/// Whether there was a cut. Open choices are listed before each turn, and what is listed is nothing to go by then.
fn take_turn(
    rt: &impl Abort,
    alloc: Global,
    whole: &Parts,
    saturated: &mut Saturated,
    turn: Turn,
) -> Result<bool, NoMemory> {
    saturated.keep_open(alloc, 2)?;
    if turn != CUT {
        give(rt, alloc, whole, saturated, turn)?;
        is_as_defined_of_few(rt, alloc, saturated)?;
        return Ok(false);
    }
    is_as_defined(rt, alloc, saturated)?;
    let cut = cuts(rt, alloc, saturated)?;
    is_as_defined(rt, alloc, saturated)?;
    Ok(cut)
}

/// Takes the turns; how many cuts there were.
fn arrive(
    rt: &impl Abort,
    alloc: Global,
    whole: &Parts,
    saturated: &mut Saturated,
    order: &[Turn],
) -> Result<u64, NoMemory> {
    let mut made = 0u64;
    for turn in order {
        if take_turn(rt, alloc, whole, saturated, *turn)? {
            made = made.wrapping_add(1);
        }
    }
    Ok(made)
}

/// Stops unless who is ordered with whom, and a branch, are as they are defined, too, where few remain.
fn is_all_as_defined_of_few(
    rt: &impl Abort,
    alloc: Global,
    saturated: &Saturated,
) -> Result<(), NoMemory> {
    if saturated.parts().remaining_count() > FEW {
        return Ok(());
    }
    is_all_as_defined(rt, alloc, saturated)?;
    walk_down(rt, alloc, saturated)
}

fn arrives(rt: &impl Abort, alloc: Global, whole: &Parts, order: &[Turn]) -> Result<u64, NoMemory> {
    let none = over(alloc, whole.base.clone()?)?;
    let mut saturated = saturated_of(rt, alloc, &none)?;
    let made = arrive(rt, alloc, whole, &mut saturated, order)?;
    is_all_as_defined_of_few(rt, alloc, &saturated)?;
    Ok(made)
}

/// Adds in each order, where it is good that the transactions come; how many cuts there were.
fn arrives_in_all(rt: &impl Abort, alloc: Global, whole: &Parts) -> Result<u64, NoMemory> {
    let mut made = 0u64;
    if whole.is_good() {
        is_all_as_defined_of_few(rt, alloc, &saturated_of(rt, alloc, whole)?)?;
        for order in orders() {
            made = made.wrapping_add(arrives(rt, alloc, whole, *order)?);
        }
    }
    Ok(made)
}

#[test]
fn arrivals_and_cuts_leave_what_is_defined(rt: HostRuntime) -> Result<(), Fail> {
    let mut dice = Dice::of(2);
    let mut cuts = 0u64;
    for _ in 0..60 {
        arrives_in_all(&rt, rt.alloc(), &parts_by(rt.alloc(), &mut dice)?)?;
        let made = arrives_in_all(&rt, rt.alloc(), &fenced_by(rt.alloc(), &mut dice)?)?;
        cuts = cuts.wrapping_add(made);
    }
    assert!(rt; cuts > 60);
    Ok(())
}

/// Fragments of up to eighty transactions.
static LONG: [Turn; 6] = [(0, 30), (1, 30), (2, 80), (0, 80), (1, 80), CUT];

fn long_order() -> &'static [Turn] {
    &LONG
}

/// So many transactions, added in fragments, and taken as a whole.
fn is_long(rt: &impl Abort, alloc: Global, count: u64) -> Result<(), NoMemory> {
    let whole = stored_by(alloc, &mut Dice::of(count), count)?;
    arrives(rt, alloc, &whole, long_order())?;
    let saturated = saturated_of(rt, alloc, &whole)?;
    is_as_defined(rt, alloc, &saturated)
}

#[test]
fn long_histories_have_the_relation_that_is_defined(rt: HostRuntime) -> Result<(), Fail> {
    for count in [70, 130] {
        is_long(&rt, rt.alloc(), count)?;
    }
    Ok(())
}
