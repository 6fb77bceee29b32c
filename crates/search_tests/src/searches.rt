//! Searches: worked histories with budgets.
use crate::worked::{Row, Said, rows};
use clock_choices::Saturated;
use order_check::Parts;
use polygraph::{Answer, Problem, Single, Solver};
use refutation::Tree;
use std::alloc::Global;
use std::process::Abort;
use std::test::*;
use txn::NoMemory;

fn is_force(tree: &Tree) -> bool {
    matches!(tree, Tree::Force { .. })
}

/// Whether each node of steps has some, and none of them stands right below another.
fn is_neat(tree: &Tree) -> bool {
    match tree {
        Tree::Close(_) => true,
        Tree::Force { steps, rest } => !steps.is_empty() && !is_force(rest) && is_neat(rest),
        Tree::Split {
            choice: _,
            first,
            second,
        } => is_neat(first) && is_neat(second),
    }
}

/// A word for the answer, if a tree in it is as the search makes them.
fn said_by(answer: &Answer) -> Said {
    match answer {
        Answer::Yes(_) => "yes",
        Answer::No(tree) if is_neat(tree) => "no",
        Answer::No(_) => "a tree with a node of steps that is empty, or right below another",
        Answer::Spent => "spent",
        Answer::NoMemory => "no memory",
    }
}

pub fn problem_of(rt: &impl Abort, alloc: Global, parts: &Parts) -> Result<Problem, NoMemory> {
    assert!(rt; parts.is_good());
    let known = Saturated::of(alloc, parts)?;
    Problem::of(alloc, &known)
}

/// What the solver of one thread answers, as a word.
pub fn solved(rt: &impl Abort, alloc: Global, problem: &Problem, budget: u64, depth: u64) -> Said {
    assert!(rt; 1 <= budget && budget <= 4_294_967_296 && depth <= 6);
    said_by(&Single.solve(alloc, problem, budget, depth, 1))
}

fn answers(rt: &impl Abort, alloc: Global, row: &Row) -> Result<(), Fail> {
    let parts = row.table.parts(alloc)?;
    let problem = problem_of(rt, alloc, &parts)?;
    assert_eq!(rt; problem.open_choices(), row.open);
    assert_eq!(rt;
        solved(rt, alloc, &problem, row.budget, row.depth),
        row.said
    );
    Ok(())
}

#[test]
fn worked_histories_are_answered(rt: HostRuntime) -> Result<(), Fail> {
    for row in rows() {
        answers(&rt, rt.alloc(), row)?;
    }
    Ok(())
}

/// Stops unless the relation is given back by the last of a problem and its clone, and by no other.
fn is_given_back(rt: &impl Abort, problem: Problem) -> Result<(), NoMemory> {
    let clone = problem.clone()?;
    assert!(rt; problem.into_known().is_none());
    assert!(rt; clone.into_known().is_some());
    Ok(())
}

fn gives_back(rt: &impl Abort, alloc: Global, row: &Row) -> Result<(), NoMemory> {
    let parts = row.table.parts(alloc)?;
    let problem = problem_of(rt, alloc, &parts)?;
    is_given_back(rt, problem)
}

#[test]
fn a_problem_and_its_clone_have_the_relation_in_common(rt: HostRuntime) -> Result<(), Fail> {
    for row in rows() {
        gives_back(&rt, rt.alloc(), row)?;
    }
    Ok(())
}

/// A search that is refused memory answers nothing, and the next one answers.
fn answers_at_last(rt: &impl Abort, alloc: Global, row: &Row) {
    let Ok(parts) = row.table.parts(alloc) else {
        return;
    };
    let Ok(problem) = problem_of(rt, alloc, &parts) else {
        return;
    };
    let first = solved(rt, alloc, &problem, row.budget, row.depth);
    let second = solved(rt, alloc, &problem, row.budget, row.depth);
    assert!(rt; first == row.said || second == row.said);
    for said in [first, second] {
        assert!(rt; said == row.said || said == "no memory");
    }
}

/// The gate refuses no memory: `bench/check/refused_memory.py` runs this with each allocation refused in turn.
#[test]
fn refused_memory_changes_no_answer_of_a_search(rt: HostRuntime) {
    for row in rows() {
        if row.open < 10 {
            answers_at_last(&rt, rt.alloc(), row);
        }
    }
}
