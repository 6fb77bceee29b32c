//! The searches by their names.
ghost use Rattle.std.specs.Prelude.{◌≡◌, IsTrue};
ghost use Rattle.order_check.specs.Effort.{IsEffort};
ghost use Rattle.background_search.specs.Searches.{MayAnswer};

use log_text::{Effort, Search};
use polygraph::{Answer, PlainSolver, Problem, Solver};
use std::alloc::Global;

/// What searches where a script asks for the plain search, and where it asks for the guided one.
#[derive(Drop)]
pub struct Solvers<P, S> {
    pub plain: P,
    pub guided: S,
}

/// Whether both are the same search.
pub fn is_same(one: Search, other: Search) -> bool
    ensures { IsTrue result → one ≡ other }
{
    match one {
        Search::Plain => match other {
            Search::Plain => true,
            Search::Guided => false,
        },
        Search::Guided => match other {
            Search::Plain => false,
            Search::Guided => true,
        },
    }
}

/// What the search answers to the problem.
pub fn search<P: PlainSolver, S: Solver>(
    alloc: Global,
    problem: &Problem,
    effort: Effort,
    solvers: &Solvers<P, S>,
) -> Answer
    requires plain { P.ready }
    requires guided { S.ready }
    requires effort { IsEffort effort.budget effort.depth effort.workers }
    ensures { MayAnswer effort.search problem.now.known.parts effort.budget effort.depth result }
{
    // It tells that the problem's choices are those of its parts.
    let _ = problem.open_choices();
    let Effort {
        budget,
        depth,
        workers,
        search,
    } = effort;
    match search {
        Search::Plain => solvers.plain.search(alloc, problem, budget, depth, workers),
        Search::Guided => solvers.guided.solve(alloc, problem, budget, depth, workers),
    }
}
