//! A search in a thread of its own.
ghost use Rattle.std.specs.Prelude.{◌≡◌, IfOk, IfErr};
ghost use Rattle.order_check.specs.Effort.{IsEffort};
ghost use Rattle.polygraph.specs.Solving.{IsLawful};

use crate::means::Means;
use polygraph::{Answer, Effort, Problem, Solver};
use std::alloc::Global;
use std::snapshot::Snapshot;
use std::sync::Arc;
use std::sync::atomic::{AtomicBool, Ordering};
use std::thread::{Promise, PromisedHandle};

/// That an answer is one that a search of this problem may give.
#[derive(Drop)]
pub(crate) struct LawOf {
    pub problem: Snapshot<Problem>,
    pub budget: u64,
    pub depth: u64,
}

impl Promise<Answer> for LawOf {
    ghost use Rattle.polygraph.specs.Solving.{IsLawful};

    ghost kept_by = { λ law answer. IsLawful law.problem.value.known.parts law.budget law.depth answer };
}

/// What the solver answers to the problem, which is let go.
pub(crate) fn solved<S: Solver>(
    alloc: Global,
    problem: Problem,
    solver: &S,
    effort: Effort,
) -> Answer
    requires ready { S.ready }
    requires effort { IsEffort effort.budget effort.depth effort.workers }
    ensures { IsLawful problem.known.parts effort.budget effort.depth result }
{
    solver.solve(alloc, &problem, effort.budget, effort.depth, effort.workers)
}

/// Starts the search in a thread of its own, which sets the flag at its end. Where none can be made, it is made in place.
pub(crate) fn start<'s, E, R, S: Solver + Sync>(
    means: &Means<'_, 's, E, R, S>,
    problem: Problem,
    effort: Effort,
    flag: Arc<AtomicBool, Global>,
) -> Result<PromisedHandle<Answer, LawOf>, Answer>
    requires ready { S.ready }
    requires effort { IsEffort effort.budget effort.depth effort.workers }
    ensures runs { IfOk result (λ thread. (thread.promise.problem.value ≡ problem) × (thread.promise.budget ≡ effort.budget) × (thread.promise.depth ≡ effort.depth)) }
    ensures ended { IfErr result (IsLawful problem.known.parts effort.budget effort.depth) }
{
    let alloc = means.alloc;
    let solver = means.solver;
    let law = LawOf {
        problem: Snapshot::of(&problem),
        budget: effort.budget,
        depth: effort.depth,
    };
    let search = move || -> Answer
        requires { S.ready × IsEffort effort.budget effort.depth effort.workers }
        ensures { IsLawful problem.known.parts effort.budget effort.depth result }
    {
        let answer = solved(alloc, problem, solver, effort);
        flag.store(true, Ordering::SeqCst);
        answer
    };
    match means.scope.spawn_with(law, search) {
        Ok(thread) => Ok(thread),
        Err(refused) => {
            let search = refused.value;
            Err(search())
        }
    }
}
