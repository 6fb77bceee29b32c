//! The answers of shared searches, beside those of the solver of one thread.
ghost use Rattle.std.specs.Prelude.{◌≤◌};

use crate::cubes::said_by;
use crate::histories::{Dice, history_by, problem_of, real_split};
use polygraph::{Answer, Problem, Single, Solver};
use refutation::Tree;
use shared_search::{OpenGate, Shared};
use std::alloc::Global;
use std::test::*;
use std::thread::Threads;
use txn::NoMemory;

/// The numbers of workers that are tried.
const WORKERS: [u64; 4] = [1, 2, 4, 16];

/// The budget and the depth of a search.
#[derive(Clone, Copy)]
struct Bounds {
    budget: u64,
    depth: u64,
}

/// Whether the answer is a no whose tree has a split.
fn has_split(answer: &Answer) -> bool {
    matches!(answer, Answer::No(tree) if is_split(tree))
}

fn is_split(tree: &Tree) -> bool {
    match tree {
        Tree::Close(_) => false,
        Tree::Force { steps: _, rest } => is_split(rest),
        Tree::Split {
            choice: _,
            first: _,
            second: _,
        } => true,
    }
}

/// How many shared searches, of these times with each number of workers, answer something else than the solver of one thread, and what that answers.
fn compare<R: Threads + Sync>(
    rt: &R,
    alloc: Global,
    problem: &Problem,
    bounds: Bounds,
    times: u64,
) -> Result<(u64, &'static str), NoMemory>
    requires { (1 ≤ bounds.budget) × (bounds.budget ≤ 4096) × (bounds.depth ≤ 6) }
{
    let single = Single.solve(alloc, problem, bounds.budget, bounds.depth, 1);
    let said = match said_by(&single) {
        "no" if has_split(&single) => "no, by a split",
        other => other,
    };
    let single = format!(in alloc; "{single:?}")?;
    let shared = Shared::new(rt, OpenGate);
    let mut others = 0u64;
    for workers in WORKERS {
        for _ in 0..times {
            let answer = shared.solve(alloc, problem, bounds.budget, bounds.depth, workers);
            if format!(in alloc; "{answer:?}")? != single {
                others = others.saturating_add(1);
            }
        }
    }
    Ok((others, said))
}

#[test]
fn a_worked_refutation_is_the_same_with_all_numbers_of_workers(
    rt: HostRuntime,
) -> Result<(), Fail> {
    let parts = real_split(rt.alloc())?;
    let problem = problem_of(&rt, rt.alloc(), &parts)?;
    for depth in 0..7u64 {
        let bounds = Bounds { budget: 32, depth };
        assert_eq!(&rt;
            compare(&rt, rt.alloc(), &problem, bounds, 10)?,
            (0, "no, by a split")
        );
    }
    Ok(())
}

/// What came of generated histories: those with more open choices than are split at most, shared searches that answered something else than the
/// solver of one thread, how often each kind was told, a no without a split apart from one by a split, and answers unlike those that it gives.
#[derive(Drop, Debug, PartialEq)]
struct Tally {
    deep: u64,
    others: u64,
    yes: u64,
    no: u64,
    split: u64,
    spent: u64,
    unlike: u64,
}

impl Tally {
    fn count(&mut self, others: u64, said: &'static str) {
        self.others = self.others.saturating_add(others);
        match said {
            "yes" => self.yes = self.yes.saturating_add(1),
            "no" => self.no = self.no.saturating_add(1),
            "no, by a split" => self.split = self.split.saturating_add(1),
            "spent" => self.spent = self.spent.saturating_add(1),
            _ => self.unlike = self.unlike.saturating_add(1),
        }
    }
}

#[test]
fn generated_histories_have_one_answer(rt: HostRuntime) -> Result<(), Fail> {
    let mut tally = Tally {
        deep: 0,
        others: 0,
        yes: 0,
        no: 0,
        split: 0,
        spent: 0,
        unlike: 0,
    };
    let mut dice = Dice::of(1);
    for round in 0..200u64 {
        let parts = history_by(rt.alloc(), &mut dice)?;
        let problem = problem_of(&rt, rt.alloc(), &parts)?;
        if problem.open_choices() > 6 {
            tally.deep = tally.deep.saturating_add(1);
        }
        let bounds = Bounds {
            budget: if round % 3 == 0 { 24 } else { 4096 },
            depth: round % 7,
        };
        let times = if round % 10 == 0 { 10 } else { 1 };
        let (others, said) = compare(&rt, rt.alloc(), &problem, bounds, times)?;
        tally.count(others, said);
    }
    let wanted = Tally {
        deep: 176,
        others: 0,
        yes: 105,
        no: 0,
        split: 74,
        spent: 21,
        unlike: 0,
    };
    assert_eq!(&rt; tally, wanted);
    Ok(())
}
