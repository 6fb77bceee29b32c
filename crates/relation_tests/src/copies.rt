//! Copies of the known relation and branches of it, which stay as they are while it goes on; sessions that close; and the parts that are left.
use crate::arrivals::{Turn, give, saturated_of};
use crate::defined::is_as_defined;
use crate::walks::tells_all;
use clock_choices::{Branch, Saturated};
use order_check::Parts;
use std::alloc::Global;
use std::process::Abort;
use std::test::Fail;
use test_histories::{Dice, fenced_by, over, parts_by};
use txn::NoMemory;

/// What has come before the copies are made.
static FIRST: [Turn; 3] = [(1, 2), (0, 1), (2, 1)];

/// What is left, but of the third session.
static NEXT: [Turn; 2] = [(0, 9), (1, 9)];

/// All of the third session.
static LAST: [Turn; 1] = [(2, 9)];

fn first() -> &'static [Turn] {
    &FIRST
}

fn next() -> &'static [Turn] {
    &NEXT
}

fn last() -> &'static [Turn] {
    &LAST
}

fn give_all(
    rt: &impl Abort,
    alloc: Global,
    whole: &Parts,
    saturated: &mut Saturated,
    turns: &[Turn],
) -> Result<(), NoMemory> {
    for turn in turns {
        give(rt, alloc, whole, saturated, *turn)?;
    }
    Ok(())
}

fn copy_of(saturated: &Saturated) -> Result<Saturated, NoMemory> {
    saturated.clone()
}

/// Stops unless the session is closed then, and nothing else has changed.
fn close(
    rt: &impl Abort,
    alloc: Global,
    saturated: &mut Saturated,
    session: u8,
) -> Result<(), NoMemory> {
    assert!(rt; usize::from(session) < saturated.parts().sessions());
    saturated.close(session);
    assert!(rt; saturated.parts().is_closed(session));
    is_as_defined(rt, alloc, saturated)
}

/// Stops unless the relation is found again from its parts alone.
fn is_left_whole(rt: &impl Abort, alloc: Global, saturated: Saturated) -> Result<(), NoMemory> {
    let count = saturated.parts().remaining_count();
    let parts = saturated.into_parts();
    assert!(rt; parts.remaining_count() == count && parts.is_closed(2) && !parts.is_closed(0));
    let again = saturated_of(rt, alloc, &parts)?;
    is_as_defined(rt, alloc, &again)
}

/// The relation of what comes first of the whole. Its open choices are listed.
fn first_of(rt: &impl Abort, alloc: Global, whole: &Parts) -> Result<Saturated, NoMemory> {
    let none = over(alloc, whole.base.clone()?)?;
    let mut saturated = saturated_of(rt, alloc, &none)?;
    give_all(rt, alloc, whole, &mut saturated, first())?;
    saturated.keep_open(alloc, 2)?;
    Ok(saturated)
}

/// Goes on with the relation, and stops unless a branch of it from before tells what it told.
fn branch_stays(
    rt: &impl Abort,
    alloc: Global,
    whole: &Parts,
    saturated: &mut Saturated,
) -> Result<(), NoMemory> {
    let mut branch = Branch::of(alloc, saturated)?;
    give_all(rt, alloc, whole, saturated, next())?;
    is_as_defined(rt, alloc, saturated)?;
    tells_all(rt, alloc, &mut branch)
}

/// A copy from before the relation went on; it stops unless that tells what the relation told.
fn copy_that_stays(
    rt: &impl Abort,
    alloc: Global,
    whole: &Parts,
    saturated: &mut Saturated,
) -> Result<Saturated, NoMemory> {
    let copy = copy_of(saturated)?;
    branch_stays(rt, alloc, whole, saturated)?;
    is_as_defined(rt, alloc, &copy)?;
    Ok(copy)
}

/// A copy of what comes first, from before the relation went on.
fn copy_of_first(rt: &impl Abort, alloc: Global, whole: &Parts) -> Result<Saturated, NoMemory> {
    let mut saturated = first_of(rt, alloc, whole)?;
    copy_that_stays(rt, alloc, whole, &mut saturated)
}

/// Goes on with the copy, too, on which the third session is closed.
fn copy_goes_on(
    rt: &impl Abort,
    alloc: Global,
    whole: &Parts,
    copy: &mut Saturated,
) -> Result<(), NoMemory> {
    give_all(rt, alloc, whole, copy, last())?;
    close(rt, alloc, copy, 2)?;
    branch_stays(rt, alloc, whole, copy)
}

/// Goes on with a relation and a copy of it, where it is good that the transactions come.
fn goes_on_with(rt: &impl Abort, alloc: Global, whole: &Parts) -> Result<(), NoMemory> {
    if !whole.is_good() {
        return Ok(());
    }
    let mut copy = copy_of_first(rt, alloc, whole)?;
    copy_goes_on(rt, alloc, whole, &mut copy)?;
    is_left_whole(rt, alloc, copy)
}

#[test]
fn copies_and_branches_stay_as_they_are(rt: HostRuntime) -> Result<(), Fail> {
    let mut dice = Dice::of(5);
    for _ in 0..40 {
        goes_on_with(&rt, rt.alloc(), &parts_by(rt.alloc(), &mut dice)?)?;
        goes_on_with(&rt, rt.alloc(), &fenced_by(rt.alloc(), &mut dice)?)?;
    }
    Ok(())
}
