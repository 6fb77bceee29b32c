//! The cut in histories of 256 sessions, as many as there may be: the last of them has to be past the fence as any other.
use crate::settled::is_explained;
use clock_choices::Saturated;
use polygraph::Problem;
use settle::find;
use std::alloc::Global;
use std::process::Abort;
use std::test::Fail;
use test_histories::{ID_0_0, ID_0_1, ID_255_0, Lists, crowd};
use txn::Source::{By, Init};
use txn::{NoMemory, TxnId};

/// A writer, and then a fence.
static FIRST: [Lists; 2] = [(&[], &[5]), (&[(0, Init)], &[0])];

/// What remains of the last session, an order, and the fence of the cut.
struct Row {
    last: &'static [Lists],
    order: &'static [TxnId],
    fence: Option<TxnId>,
}

static ROWS: [Row; 2] = [
    Row {
        last: &[(&[(0, By(ID_0_1))], &[0])],
        order: &[ID_0_0, ID_0_1, ID_255_0],
        fence: Some(ID_0_1),
    },
    Row {
        last: &[],
        order: &[ID_0_0, ID_0_1],
        fence: None,
    },
];

fn first() -> &'static [Lists] {
    &FIRST
}

fn rows() -> &'static [Row] {
    &ROWS
}

fn problem_of(rt: &impl Abort, alloc: Global, last: &[Lists]) -> Result<Problem, NoMemory> {
    let parts = crowd(alloc, first(), last)?;
    assert!(rt; parts.is_good());
    let known = Saturated::of(alloc, &parts)?;
    Problem::about(alloc, known)
}

fn is_cut_at(rt: &impl Abort, alloc: Global, problem: &Problem, row: &Row) -> Result<(), NoMemory> {
    is_explained(rt, alloc, problem, row.order)?;
    let found = find(alloc, problem, row.order)?;
    assert_eq!(rt; found.map(|cut| cut.fence), row.fence);
    Ok(())
}

fn ends_as_told(rt: &impl Abort, alloc: Global, row: &Row) -> Result<(), NoMemory> {
    let problem = problem_of(rt, alloc, row.last)?;
    is_cut_at(rt, alloc, &problem, row)
}

#[test]
fn the_last_session_is_past_the_fence(rt: HostRuntime) -> Result<(), Fail> {
    for row in rows() {
        ends_as_told(&rt, rt.alloc(), row)?;
    }
    Ok(())
}
