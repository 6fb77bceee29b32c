ghost use Rattle.std.specs.Prelude.{◌≡◌, ◌≤◌, ◌^◌, length};
ghost use Rattle.order_check.specs.Effort.{IsEffort};
ghost use Rattle.polygraph.specs.Outcomes.{IsPicked};
ghost use Rattle.polygraph.specs.Solving.{IsLawful};

use crate::gates::{Gate, OpenGate};
use crate::sharing::solve_all;
use crate::workers::CubeSolver;
use order_check::scans_find_one;
use polygraph::{Answer, Cube, PlainSolver, Problem, Solver, solve_cube};
use refutation::{joined_depth, joined_trees_refute, shortened};
use std::alloc::Global;
use std::thread::Threads;
use txn::{Choice, NoMemory};

/// A problem that is lent to the workers, with the share of the budget that each cube has.
#[derive(Drop)]
struct Lent<'a> {
    problem: &'a Problem,
    depth: u64,
    share: u64,
    ghost low: { depth ≤ 6 },
}

impl<'a> CubeSolver for Lent<'a> {
    ghost use Rattle.polygraph.specs.Outcomes.{split_choices};
    ghost use Rattle.shared_search.specs.Lent.{MayGive};

    ghost may = { λ s. MayGive s.problem.now s.depth s.share };

    ghost splits = { λ s. split_choices s.problem.now s.depth };

    fn solve(&self, alloc: Global, cube: u64) -> Result<Cube, NoMemory> {
        solve_cube(alloc, self.problem, cube, self.depth, self.share)
    }

    fn choices(&self) -> &[Choice] {
        self.problem.choices(self.depth)
    }
}

/// How many cubes these choices have.
fn count_cubes(choices: &[Choice]) -> u64
    requires { length choices.now ≤ 6 }
    ensures { result ≡ 2 ^ length choices.now }
{
    1u64 << choices.len()
}

/// Shares the budget among the cubes, and has them searched by workers.
fn share_out<R: Threads + Sync, G: Gate + Sync>(
    rt: &R,
    alloc: Global,
    problem: &Problem,
    budget: u64,
    depth: u64,
    workers: u64,
    gate: &G,
) -> Answer
    requires effort { IsEffort budget depth workers }
    ensures lawful { IsLawful problem.now.known.parts budget depth result }
    ensures picked { IsPicked problem.now budget depth result }
{
    // Laws that the proof cites. They do nothing when they run.
    scans_find_one();
    joined_trees_refute();
    joined_depth();
    let choices = problem.choices(depth);
    let cubes = count_cubes(choices);
    let lent = Lent {
        problem,
        depth,
        share: budget / cubes,
    };
    solve_all(rt, alloc, &lent, cubes, workers, gate)
}

/// The same, and where it is a no its tree is shortened.
fn answer_to<R: Threads + Sync, G: Gate + Sync>(
    rt: &R,
    alloc: Global,
    problem: &Problem,
    budget: u64,
    depth: u64,
    workers: u64,
    gate: &G,
) -> Answer
    requires effort { IsEffort budget depth workers }
    ensures lawful { IsLawful problem.now.known.parts budget depth result }
    ensures picked { IsPicked problem.now budget depth result }
{
    match share_out(rt, alloc, problem, budget, depth, workers, gate) {
        Answer::No(tree) => match shortened(alloc, problem.parts(), tree) {
            Ok(tree) => Answer::No(tree),
            Err(_) => Answer::NoMemory,
        },
        answer => answer,
    }
}

/// The solver whose cubes are shared by workers, which start by `rt`. The gate is called before a worker searches a cube, and after.
#[derive(Drop)]
pub struct Shared<R: Threads + Sync, G: Gate + Sync> {
    rt: R,
    gate: G,
}

impl<R: Threads + Sync, G: Gate + Sync> Shared<R, G> {
    pub fn new(rt: R, gate: G) -> Shared<R, G> {
        Shared { rt, gate }
    }

    /// What `Solver::solve` of a solver with this gate answers.
    pub fn answer(
        &self,
        alloc: Global,
        problem: &Problem,
        budget: u64,
        depth: u64,
        workers: u64,
    ) -> Answer
        requires effort { IsEffort budget depth workers }
        ensures lawful { IsLawful problem.now.known.parts budget depth result }
        ensures picked { IsPicked problem.now budget depth result }
    {
        answer_to(&self.rt, alloc, problem, budget, depth, workers, &self.gate)
    }
}

impl<R: Threads + Sync> Solver for Shared<R, OpenGate> {
    ghost use Rattle.std.specs.Thread.{IsSync};

    ghost ready = { IsSync R.row };

    fn solve(
        &self,
        alloc: Global,
        problem: &Problem,
        budget: u64,
        depth: u64,
        workers: u64,
    ) -> Answer
        requires ready { IsSync R.row }
        requires effort { IsEffort budget depth workers }
        ensures lawful { IsLawful problem.now.known.parts budget depth result }
        ensures picked { IsPicked problem.now budget depth result }
    {
        self.answer(alloc, problem, budget, depth, workers)
    }
}

impl<R: Threads + Sync> PlainSolver for Shared<R, OpenGate> {
    fn search(
        &self,
        alloc: Global,
        problem: &Problem,
        budget: u64,
        depth: u64,
        workers: u64,
    ) -> Answer {
        self.answer(alloc, problem, budget, depth, workers)
    }
}
