//! The searches of open rounds.
ghost use Rattle.std.specs.Prelude.{◌≡◌};
ghost use Rattle.order_check.specs.Effort.{IsEffort};
ghost use Rattle.cobra.specs.Searches.{MayAnswerOf};

use background_search::{Effort, Solvers, search};
use polygraph::{Answer, PlainSolver, Solver};
use round_state::Engine;
use std::alloc::Global;

/// What the search answers to the problem of the round that is open; where none is, nothing is searched.
pub(crate) fn solve<P: PlainSolver, S: Solver>(
    alloc: Global,
    engine: &Engine,
    effort: Effort,
    solvers: &Solvers<P, S>,
) -> Answer
    requires plain { P.ready }
    requires guided { S.ready }
    requires effort { IsEffort effort.budget effort.depth effort.workers }
    ensures { MayAnswerOf effort.search engine.now.asked effort.budget effort.depth result }
{
    match engine.problem() {
        Some(problem) => search(alloc, problem, effort, solvers),
        None => Answer::Spent,
    }
}
