//! Searches that are given up.
ghost use Rattle.std.specs.Prelude.{⊤};

use crate::cubes::said_by;
use crate::guided::few_nodes;
use crate::histories::{problem_of, real_split};
use guided_search::{Conflicts, Finder, Guided};
use polygraph::{Answer, Problem, Single, Solver, StopWord};
use shared_search::{OpenGate, Shared};
use std::alloc::Global;
use std::test::*;
use std::thread::Threads;

/// A finder that finds nothing, and has then given all searches up.
#[derive(Drop)]
struct Raising<'a> {
    word: &'a StopWord,
}

impl<'a> Finder for Raising<'a> {
    ghost finds = { λ problem budget found. ⊤ };

    fn find(&self, alloc: Global, problem: &Problem, budget: u64) -> Answer {
        self.word.give_up_below(u64::MAX);
        Answer::Spent
    }
}

/// What the solvers answer: in one thread, with one worker, two and four, and where the first of them is asked first.
fn answers<R: Threads + Sync>(rt: &R, alloc: Global, problem: &Problem) -> [&'static str; 5] {
    let single = Single.solve(alloc, problem, 32, 2, 1);
    let shared = Shared::new(rt, OpenGate);
    let one = shared.solve(alloc, problem, 32, 6, 1);
    let two = shared.solve(alloc, problem, 32, 6, 2);
    let four = shared.solve(alloc, problem, 32, 6, 4);
    let guided = Guided::new(Conflicts, Single).solve(alloc, problem, 32, 0, 1);
    [
        said_by(&single),
        said_by(&one),
        said_by(&two),
        said_by(&four),
        said_by(&guided),
    ]
}

/// The number of a search, below which number searches are given up, and whether this one is.
const GIVEN_UP: [(u64, u64, bool); 11] = [
    (0, 0, false),
    (0, 1, true),
    (3, 0, false),
    (3, 3, false),
    (3, 4, true),
    (3, 9, true),
    (3, u64::MAX, true),
    (3, 1 << 40, true),
    (1 << 40, 1 << 40, false),
    (1 << 40, (1 << 40) + 1, true),
    (u64::MAX, u64::MAX, false),
];

#[test]
fn searches_are_given_up_by_their_numbers(rt: HostRuntime) -> Result<(), Fail> {
    let parts = real_split(rt.alloc())?;
    for (number, below, is_given_up) in GIVEN_UP {
        let word = StopWord::new(rt.alloc())?;
        let problem = problem_of(&rt, rt.alloc(), &parts)?.stopped_by(&word, number);
        let another = problem.clone()?;
        assert_eq!(&rt; answers(&rt, rt.alloc(), &problem), ["no"; 5]);
        word.another()?.give_up_below(below);
        let said = if is_given_up { "no memory" } else { "no" };
        assert_eq!(&rt; answers(&rt, rt.alloc(), &problem), [said; 5]);
        assert_eq!(&rt; answers(&rt, rt.alloc(), &another), [said; 5]);
    }
    Ok(())
}

/// One that has no number isn't, nor one that was given another word since.
#[test]
fn other_searches_go_on(rt: HostRuntime) -> Result<(), Fail> {
    let parts = real_split(rt.alloc())?;
    let word = StopWord::new(rt.alloc())?;
    let other = StopWord::new(rt.alloc())?;
    word.give_up_below(u64::MAX);
    let none = problem_of(&rt, rt.alloc(), &parts)?;
    let moved = none.clone()?.stopped_by(&word, 3).stopped_by(&other, 3);
    assert_eq!(&rt; answers(&rt, rt.alloc(), &none), ["no"; 5]);
    assert_eq!(&rt; answers(&rt, rt.alloc(), &moved), ["no"; 5]);
    Ok(())
}

/// It is so where the budget allows no node, too.
#[test]
fn a_search_without_nodes_is_given_up(rt: HostRuntime) -> Result<(), Fail> {
    let parts = real_split(rt.alloc())?;
    let word = StopWord::new(rt.alloc())?;
    let problem = problem_of(&rt, rt.alloc(), &parts)?.stopped_by(&word, 0);
    let before = Single.solve(rt.alloc(), &problem, 1, 6, 1);
    word.give_up_below(1);
    let after = Single.solve(rt.alloc(), &problem, 1, 6, 1);
    assert_eq!(&rt; (said_by(&before), said_by(&after)), ("spent", "no memory"));
    Ok(())
}

/// The search that follows its conflicts finds a refutation within these nodes; given up, it answers as if memory were refused. So does the plain
/// search that is made where nothing was found.
#[test]
fn a_guided_search_is_given_up(rt: HostRuntime) -> Result<(), Fail> {
    let parts = real_split(rt.alloc())?;
    let word = StopWord::new(rt.alloc())?;
    let problem = problem_of(&rt, rt.alloc(), &parts)?.stopped_by(&word, 0);
    let nodes = few_nodes(&problem);
    let found = Guided::new(Conflicts, Single).solve(rt.alloc(), &problem, nodes, 6, 1);
    let raising = Guided::new(Raising { word: &word }, Single);
    let raised = raising.solve(rt.alloc(), &problem, 32, 0, 1);
    let given_up = Guided::new(Conflicts, Single).solve(rt.alloc(), &problem, nodes, 6, 1);
    assert_eq!(&rt; (said_by(&found), said_by(&raised)), ("no", "no memory"));
    assert_eq!(&rt; said_by(&given_up), "no memory");
    Ok(())
}
