ghost use Rattle.std.specs.Prelude.{◌≡◌, ℕ};
ghost use Rattle.order_check.specs.Effort.{IsEffort};
ghost use Rattle.polygraph.specs.ProblemState.{ProblemState};
ghost use Rattle.polygraph.specs.Solving.{IsLawful};
ghost use Rattle.polygraph.specs.declared.solving.Answer.{Answer};
ghost use Rattle.guided_search.specs.Believed.{FollowsFind, IsBelieved};

use polygraph::{Answer, PlainSolver, Problem, Solver};
use std::alloc::Global;

/// What may find an order or a refutation otherwise than the plain search. It isn't told how many workers there are.
pub trait Finder {
    /// What may be found of the problem within the budget.
    ghost finds: { ProblemState → ℕ → Answer → Type 0 };

    /// What is found within so many nodes, spent where nothing is.
    fn find(&self, alloc: Global, problem: &Problem, budget: u64) -> Answer
        ensures finds { finds problem.now budget result }
        ensures believed { IsBelieved problem.now.known.parts result };
}

/// The solver that answers what is found, and where nothing is, what the plain search comes to within the same budget. So the kind of its answer
/// doesn't depend on the workers, which the plain search alone is told of.
#[derive(Drop)]
pub struct Guided<F: Finder + Drop, S: PlainSolver + Drop> {
    finder: F,
    plain: S,
}

impl<F: Finder + Drop, S: PlainSolver + Drop> Guided<F, S> {
    pub fn new(finder: F, plain: S) -> Guided<F, S> {
        Guided { finder, plain }
    }
}

impl<F: Finder + Drop, S: PlainSolver + Drop> Solver for Guided<F, S> {
    ghost ready = { S.ready };

    fn solve(
        &self,
        alloc: Global,
        problem: &Problem,
        budget: u64,
        depth: u64,
        workers: u64,
    ) -> Answer
        requires ready { S.ready }
        requires effort { IsEffort budget depth workers }
        ensures lawful { IsLawful problem.now.known.parts budget depth result }
        ensures found { (first : Answer) × F.finds problem.now budget first × FollowsFind problem.now budget depth first result }
    {
        match self.finder.find(alloc, problem, budget) {
            Answer::Spent => self.plain.search(alloc, problem, budget, depth, workers),
            found => found,
        }
    }
}
