//! Rounds that are one line of a script.
ghost use Rattle.std.specs.Prelude.{IsSome};
ghost use Rattle.order_check.specs.Effort.{IsEffort};
ghost use Rattle.cobra.specs.Scripts.{EndsRound, IsRound};

use crate::open_engine::OpenEngine;
use background_search::{Effort, Solvers};
use polygraph::{PlainSolver, Solver};
use round_state::{Step, StepReply};
use std::alloc::Global;

/// Finishes the open round, or abandons it where memory is wanting.
fn end_round<P: PlainSolver, S: Solver>(
    engine: &mut OpenEngine,
    alloc: Global,
    effort: Effort,
    solvers: &Solvers<P, S>,
) -> StepReply
    requires plain { P.ready }
    requires guided { S.ready }
    requires effort { IsEffort effort.budget effort.depth effort.workers }
    ensures { IsSome engine.old.asked → EndsRound engine.old effort.search effort.budget effort.depth effort.workers result engine.new }
{
    match engine.finish(alloc, effort, solvers) {
        StepReply::Refused(refusal) => {
            let _ = engine.step(alloc, Step::Abandon);
            StepReply::Refused(refusal)
        }
        finished => finished,
    }
}

/// Begins a round and ends it.
pub(crate) fn make_round<P: PlainSolver, S: Solver>(
    engine: &mut OpenEngine,
    alloc: Global,
    effort: Effort,
    solvers: &Solvers<P, S>,
) -> StepReply
    requires plain { P.ready }
    requires guided { S.ready }
    requires effort { IsEffort effort.budget effort.depth effort.workers }
    ensures { IsRound engine.old effort.search effort.budget effort.depth effort.workers result engine.new }
{
    match engine.step(alloc, Step::Begin) {
        StepReply::Done => end_round(engine, alloc, effort, solvers),
        refused => refused,
    }
}
