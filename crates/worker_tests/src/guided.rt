//! The answers of the guided search, beside those of the plain one.
ghost use Rattle.std.specs.Prelude.{◌≤◌};

use crate::cubes::said_by;
use crate::histories::{Dice, history_by, problem_of, real_split, small_history_by};
use guided_search::{Conflicts, Guided};
use order_check::{Kind, Parts, brute};
use polygraph::{Answer, Problem, Single, Solver};
use shared_search::{OpenGate, Shared};
use std::alloc::Global;
use std::test::*;
use std::thread::Threads;
use txn::NoMemory;

/// The most nodes with which the plain search, split to this problem's depth, looks at none: fewer than there are cubes.
pub fn few_nodes(problem: &Problem) -> u64
    ensures { (1 ≤ result) × (result ≤ 63) }
{
    match problem.open_choices() {
        0 | 1 => 1,
        2 => 3,
        3 => 7,
        4 => 15,
        5 => 31,
        _ => 63,
    }
}

#[test]
fn a_worked_refutation_is_found_where_the_plain_search_looks_at_no_node(
    rt: HostRuntime,
) -> Result<(), Fail> {
    let parts = real_split(rt.alloc())?;
    let problem = problem_of(&rt, rt.alloc(), &parts)?;
    let nodes = few_nodes(&problem);
    let plain = Single.solve(rt.alloc(), &problem, nodes, 6, 1);
    let guided = Guided::new(Conflicts, Single).solve(rt.alloc(), &problem, nodes, 6, 1);
    assert_eq!(&rt; (said_by(&plain), said_by(&guided)), ("spent", "no"));
    Ok(())
}

/// Whether the guided search answers a yes or a no where the plain one does.
fn is_as_plain(alloc: Global, problem: &Problem, budget: u64) -> bool
    requires { (1 ≤ budget) × (budget ≤ 4096) }
{
    let plain = Single.solve(alloc, problem, budget, 2, 1);
    let guided = Guided::new(Conflicts, Single).solve(alloc, problem, budget, 2, 1);
    matches!(plain, Answer::Spent) || said_by(&plain) == said_by(&guided)
}

/// What came of generated histories: where the plain search looked at no node, where the guided one was spent too, where it told another kind
/// than a plain one with more nodes, how often it told a yes and a no, and where it told another kind though the plain one decided.
#[derive(Drop, Debug, Default, PartialEq)]
struct Tally {
    blind: u64,
    spent: u64,
    others: u64,
    yes: u64,
    no: u64,
    changed: u64,
}

impl Tally {
    fn count(&mut self, plain: &'static str, guided: &'static str, whole: &'static str) {
        if plain == "spent" {
            self.blind = self.blind.saturating_add(1);
        }
        match guided {
            "yes" => self.yes = self.yes.saturating_add(1),
            "no" => self.no = self.no.saturating_add(1),
            _ => self.spent = self.spent.saturating_add(1),
        }
        if guided != whole {
            self.others = self.others.saturating_add(1);
        }
    }

    fn compare(&mut self, alloc: Global, problem: &Problem) -> Result<(), NoMemory> {
        let nodes = few_nodes(problem);
        let plain = Single.solve(alloc, problem, nodes, 6, 1);
        let guided = Guided::new(Conflicts, Single).solve(alloc, problem, nodes, 6, 1);
        let whole = Single.solve(alloc, problem, 65_536, 0, 1);
        self.count(said_by(&plain), said_by(&guided), said_by(&whole));
        if !is_as_plain(alloc, problem, 24) || !is_as_plain(alloc, problem, 4096) {
            self.changed = self.changed.saturating_add(1);
        }
        Ok(())
    }
}

#[test]
fn generated_histories_have_the_kind_that_a_whole_search_tells(
    rt: HostRuntime,
) -> Result<(), Fail> {
    let mut tally = Tally::default();
    let mut dice = Dice::of(7);
    for _ in 0..100u64 {
        let parts = history_by(rt.alloc(), &mut dice)?;
        let problem = problem_of(&rt, rt.alloc(), &parts)?;
        tally.compare(rt.alloc(), &problem)?;
    }
    let wanted = Tally {
        blind: 100,
        spent: 0,
        others: 0,
        yes: 64,
        no: 36,
        changed: 0,
    };
    assert_eq!(&rt; tally, wanted);
    Ok(())
}

/// What came of small histories, of which the plain search looks at no node and that are told by trial of all orders: how many there were,
/// where the guided search was spent too, where it told another kind than the trial, and how often it told a yes and a no.
#[derive(Drop, Debug, Default, PartialEq)]
struct Trials {
    blind: u64,
    spent: u64,
    others: u64,
    yes: u64,
    no: u64,
}

/// What all orders tell.
fn tried(alloc: Global, parts: &Parts) -> Result<&'static str, NoMemory> {
    if !parts.is_good() || parts.remaining_count() > 8 {
        return Ok("too many");
    }
    match brute(alloc, parts)? {
        Kind::Violated => Ok("no"),
        _ => Ok("yes"),
    }
}

impl Trials {
    fn count(&mut self, guided: &'static str, tried: &'static str) {
        match guided {
            "yes" => self.yes = self.yes.saturating_add(1),
            "no" => self.no = self.no.saturating_add(1),
            _ => self.spent = self.spent.saturating_add(1),
        }
        if guided != "spent" && guided != tried {
            self.others = self.others.saturating_add(1);
        }
    }

    /// Leaves out a history that is told with no node.
    fn compare(&mut self, alloc: Global, parts: &Parts, problem: &Problem) -> Result<(), NoMemory> {
        let nodes = few_nodes(problem);
        let plain = Single.solve(alloc, problem, nodes, 6, 1);
        if said_by(&plain) != "spent" {
            return Ok(());
        }
        self.blind = self.blind.saturating_add(1);
        let guided = Guided::new(Conflicts, Single).solve(alloc, problem, nodes, 6, 1);
        self.count(said_by(&guided), tried(alloc, parts)?);
        Ok(())
    }
}

#[test]
fn small_histories_have_the_kind_that_all_orders_tell(rt: HostRuntime) -> Result<(), Fail> {
    let mut trials = Trials::default();
    let mut dice = Dice::of(11);
    for _ in 0..10_000u64 {
        if trials.blind == 500 {
            break;
        }
        let parts = small_history_by(rt.alloc(), &mut dice)?;
        let problem = problem_of(&rt, rt.alloc(), &parts)?;
        trials.compare(rt.alloc(), &parts, &problem)?;
    }
    let wanted = Trials {
        blind: 500,
        spent: 0,
        others: 0,
        yes: 247,
        no: 253,
    };
    assert_eq!(&rt; trials, wanted);
    Ok(())
}

/// What the plain search says; and of so many numbers of workers, how many have the guided search answer something else than over the plain
/// search of one thread.
fn compare<R: Threads + Sync>(
    rt: &R,
    alloc: Global,
    problem: &Problem,
    nodes: u64,
    depth: u64,
) -> Result<(&'static str, u64), NoMemory>
    requires { (1 ≤ nodes) × (nodes ≤ 63) × (depth ≤ 6) }
{
    let plain = said_by(&Single.solve(alloc, problem, nodes, depth, 1));
    let single = Guided::new(Conflicts, Single).solve(alloc, problem, nodes, depth, 1);
    let single = format!(in alloc; "{single:?}")?;
    let shared = Guided::new(Conflicts, Shared::new(rt, OpenGate));
    let mut others = 0u64;
    for workers in [1u64, 2, 4, 16] {
        let answer = shared.solve(alloc, problem, nodes, depth, workers);
        if format!(in alloc; "{answer:?}")? != single {
            others = others.saturating_add(1);
        }
    }
    Ok((plain, others))
}

/// The plain search looks at no node with few of them, and is spent with one at depth 0.
#[test]
fn answers_are_the_same_with_all_numbers_of_workers(rt: HostRuntime) -> Result<(), Fail> {
    let mut dice = Dice::of(13);
    for _ in 0..40u64 {
        let parts = history_by(rt.alloc(), &mut dice)?;
        let problem = problem_of(&rt, rt.alloc(), &parts)?;
        let nodes = few_nodes(&problem);
        assert_eq!(&rt; compare(&rt, rt.alloc(), &problem, nodes, 6)?, ("spent", 0));
        assert_eq!(&rt; compare(&rt, rt.alloc(), &problem, 1, 0)?, ("spent", 0));
    }
    Ok(())
}
