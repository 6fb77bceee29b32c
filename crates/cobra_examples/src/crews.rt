//! A solver that searches with so many workers, whatever number it is asked for.
ghost use Rattle.std.specs.Prelude.{◌≤◌};
ghost use Rattle.order_check.specs.Effort.{IsEffort};
ghost use Rattle.polygraph.specs.Outcomes.{IsPicked};
ghost use Rattle.polygraph.specs.Solving.{IsLawful};

use polygraph::{Answer, PlainSolver, Problem, Solver};
use std::alloc::Global;

/// How many workers there are.
#[derive(Clone, Copy)]
pub enum Workers {
    One,
    Two,
    Four,
    Sixteen,
}

fn count_of(workers: Workers) -> u64
    ensures { (1 ≤ result) × (result ≤ 16) }
{
    match workers {
        Workers::One => 1,
        Workers::Two => 2,
        Workers::Four => 4,
        Workers::Sixteen => 16,
    }
}

#[derive(Drop)]
pub struct Crew<S: PlainSolver + Drop> {
    solver: S,
    workers: Workers,
}

impl<S: PlainSolver + Drop> Crew<S> {
    pub fn new(solver: S, workers: Workers) -> Crew<S> {
        Crew { solver, workers }
    }
}

impl<S: PlainSolver + Drop> Solver for Crew<S> {
    ghost ready = { S.ready };

    fn solve(
        &self,
        alloc: Global,
        problem: &Problem,
        budget: u64,
        depth: u64,
        workers: u64,
    ) -> Answer
        requires ready { S.ready }
        requires effort { IsEffort budget depth workers }
        ensures lawful { IsLawful problem.now.known.parts budget depth result }
    {
        let _ = workers;
        self.solver
            .search(alloc, problem, budget, depth, count_of(self.workers))
    }
}

impl<S: PlainSolver + Drop> PlainSolver for Crew<S> {
    fn search(
        &self,
        alloc: Global,
        problem: &Problem,
        budget: u64,
        depth: u64,
        workers: u64,
    ) -> Answer
        requires ready { S.ready }
        requires effort { IsEffort budget depth workers }
        ensures lawful { IsLawful problem.now.known.parts budget depth result }
        ensures picked { IsPicked problem.now budget depth result }
    {
        let _ = workers;
        self.solver
            .search(alloc, problem, budget, depth, count_of(self.workers))
    }
}
