//! A search beside a script: in a thread of its own, which may be told to stop.
ghost use Rattle.std.specs.Prelude.{◌≡◌, IfOk, IfErr};
ghost use Rattle.order_check.specs.Effort.{IsEffort};
ghost use Rattle.polygraph.specs.declared.solving.Answer.TheVariants as answers;
ghost use Rattle.background_search.specs.Searches.{MayAnswer};
ghost use Rattle.background_search.specs.Ways.{IsWayOf};

use crate::searches::{Solvers, search};
use log_text::Effort;
use order_check::Parts;
use polygraph::{Answer, PlainSolver, Problem, Solver, StopWord};
use std::alloc::Global;
use std::marker::Model;
use std::snapshot::Snapshot;
use std::sync::Arc;
use std::sync::atomic::{AtomicBool, Ordering};
use std::thread::{Promise, PromisedHandle, Scope, Threads};
use txn::{NoMemory, Sequence, TxnId};

/// That an answer is one that such a search of this problem may give.
#[derive(Drop)]
pub struct LawOf {
    pub problem: Snapshot<Problem>,
    pub effort: Effort,
}

impl Promise<Answer> for LawOf {
    ghost use Rattle.background_search.specs.Searches.{MayAnswer};

    ghost kept_by = { λ law answer. MayAnswer law.effort.search law.problem.value.known.parts law.effort.budget law.effort.depth answer };
}

/// A thread that searches: it sets the flag at its end, and gives up once the word says so. Contracts see what it searches.
struct Searcher {
    thread: PromisedHandle<Answer, LawOf>,
    ended: Arc<AtomicBool, Global>,
    stop: StopWord,
}

impl Model for Searcher {
    ghost use Rattle.std.specs.Coded.{codes};
    ghost use Rattle.order_check.specs.Codes.{coded_last};
    ghost use Rattle.background_search.specs.UnderWay.{SearchOf};

    ghost Value = { SearchOf };

    ghost coded = { Prim.hlevel (codes, coded_last) };

    ghost view = { λ s. record { effort = s.thread.promise.effort; parts = s.thread.promise.problem.value.known.parts } };
}

impl Drop for Searcher {
    /// Nobody asks for the answer any more, so it is told to stop; the scope of the thread waits until it has.
    fn drop(self) {
        let Self {
            thread: _thread,
            ended: _ended,
            stop,
        } = self;
        stop.give_up_below(1);
    }
}

impl Searcher {
    /// Waits for the answer.
    fn answer<R: Threads>(self, rt: &R) -> Answer
        ensures { MayAnswer self.effort.search self.parts self.effort.budget self.effort.depth result }
    {
        let Self {
            thread,
            ended: _ended,
            stop: _stop,
        } = self;
        thread.join(rt)
    }
}

/// How far a search is.
#[derive(Drop)]
enum Way {
    Going(Searcher),
    Ended(Answer),
}

/// A search that was begun: it goes on in a thread of its own, or has ended. Contracts see what it is given, and the parts that it is about.
#[derive(Drop)]
pub struct UnderWay {
    effort: Effort,
    parts: Snapshot<Parts>,
    way: Way,
}

impl Model for UnderWay {
    ghost use Rattle.std.specs.Coded.{codes};
    ghost use Rattle.order_check.specs.Codes.{coded_last};
    ghost use Rattle.background_search.specs.UnderWay.{SearchOf};
    ghost use Rattle.background_search.specs.Ways.{IsWayOf};

    ghost Value = { SearchOf };

    ghost coded = { Prim.hlevel (codes, coded_last) };

    ghost view = { λ u. record { effort = u.effort; parts = u.parts.value } };

    ghost invariant = { λ u. IsWayOf (record { effort = u.effort; parts = u.parts.value }) u.way };
}

/// Starts the search in a thread of its own. Where none can be made, it is made in place.
fn start<'s, E, P: PlainSolver + Sync, S: Solver + Sync>(
    scope: &Scope<'s, E>,
    alloc: Global,
    problem: Problem,
    effort: Effort,
    solvers: &'s Solvers<P, S>,
    flag: Arc<AtomicBool, Global>,
) -> Result<PromisedHandle<Answer, LawOf>, Answer>
    requires plain { P.ready }
    requires guided { S.ready }
    requires effort { IsEffort effort.budget effort.depth effort.workers }
    ensures runs { IfOk result (λ thread. (thread.promise.problem.value ≡ problem) × (thread.promise.effort ≡ effort)) }
    ensures ended { IfErr result (MayAnswer effort.search problem.known.parts effort.budget effort.depth) }
{
    let law = LawOf {
        problem: Snapshot::of(&problem),
        effort,
    };
    let job = move || -> Answer
        requires { P.ready × S.ready × IsEffort effort.budget effort.depth effort.workers }
        ensures { MayAnswer effort.search problem.known.parts effort.budget effort.depth result }
    {
        let answer = search(alloc, &problem, effort, solvers);
        flag.store(true, Ordering::SeqCst);
        answer
    };
    match scope.spawn_with(law, job) {
        Ok(thread) => Ok(thread),
        Err(refused) => {
            let job = refused.value;
            Err(job())
        }
    }
}

/// The search in a thread of its own, if one can be made. The thread has the problem in common with whoever asks.
fn begin_on<'s, E, P: PlainSolver + Sync, S: Solver + Sync>(
    scope: &Scope<'s, E>,
    alloc: Global,
    problem: &Problem,
    effort: Effort,
    solvers: &'s Solvers<P, S>,
) -> Result<Way, NoMemory>
    requires plain { P.ready }
    requires guided { S.ready }
    requires effort { IsEffort effort.budget effort.depth effort.workers }
    ensures { IfOk result (IsWayOf (record { effort = effort; parts = problem.now.known.parts })) }
{
    let ended = Arc::new(alloc, AtomicBool::new(false))?;
    let flag = Arc::try_clone(&ended)?;
    let stop = StopWord::new(alloc)?;
    let shared = problem.clone()?;
    let stoppable = shared.stopped_by(&stop, 0);
    match start(scope, alloc, stoppable, effort, solvers, flag) {
        Ok(thread) => Ok(Way::Going(Searcher {
            thread,
            ended,
            stop,
        })),
        Err(answer) => Ok(Way::Ended(answer)),
    }
}

/// The same; where memory is wanting, a search that has ended as one for which it was.
fn way_of<'s, E, P: PlainSolver + Sync, S: Solver + Sync>(
    scope: &Scope<'s, E>,
    alloc: Global,
    problem: &Problem,
    effort: Effort,
    solvers: &'s Solvers<P, S>,
) -> Way
    requires plain { P.ready }
    requires guided { S.ready }
    requires effort { IsEffort effort.budget effort.depth effort.workers }
    ensures { IsWayOf (record { effort = effort; parts = problem.now.known.parts }) result }
{
    // It tells that the problem's choices are those of its parts.
    let _ = problem.open_choices();
    match begin_on(scope, alloc, problem, effort, solvers) {
        Ok(way) => way,
        Err(_) => Way::Ended(Answer::NoMemory),
    }
}

impl UnderWay {
    /// Begins the search in a thread of its own, where one can be made, and else makes it in place. Where memory is wanting for what the thread
    /// needs, the search has ended as one for which memory was wanting.
    pub fn begin<'s, E, P: PlainSolver + Sync, S: Solver + Sync>(
        scope: &Scope<'s, E>,
        alloc: Global,
        problem: &Problem,
        effort: Effort,
        solvers: &'s Solvers<P, S>,
    ) -> UnderWay
        requires plain { P.ready }
        requires guided { S.ready }
        requires effort { IsEffort effort.budget effort.depth effort.workers }
        ensures { result ≡ record { effort = effort; parts = problem.now.known.parts } }
    {
        let way = way_of(scope, alloc, problem, effort, solvers);
        UnderWay {
            effort,
            parts: Snapshot::of(problem.parts()),
            way,
        }
    }

    /// The search of this problem, where it is known to tell this order.
    pub fn told(problem: &Problem, effort: Effort, order: Sequence<TxnId>) -> UnderWay
        requires { MayAnswer effort.search problem.now.known.parts effort.budget effort.depth (answers.Yes order) }
        ensures { result ≡ record { effort = effort; parts = problem.now.known.parts } }
    {
        UnderWay {
            effort,
            parts: Snapshot::of(problem.parts()),
            way: Way::Ended(Answer::Yes(order)),
        }
    }

    /// What it is given.
    pub fn effort(&self) -> Effort
        ensures { result ≡ self.now.effort }
    {
        self.effort
    }

    /// Whether its answer is there, so that nobody has to wait for it.
    pub fn has_ended(&self) -> bool {
        match &self.way {
            Way::Going(searcher) => searcher.ended.load(Ordering::SeqCst),
            Way::Ended(_) => true,
        }
    }

    /// Its answer, once it has ended.
    pub fn answer<R: Threads>(self, rt: &R) -> Answer
        ensures { MayAnswer self.effort.search self.parts self.effort.budget self.effort.depth result }
    {
        let UnderWay {
            effort: _,
            parts: _,
            way,
        } = self;
        match way {
            Way::Going(searcher) => searcher.answer(rt),
            Way::Ended(answer) => answer,
        }
    }

    /// Tells it to stop, and waits until it has.
    pub fn give_up<R: Threads>(self, rt: &R) {
        if let Way::Going(searcher) = &self.way {
            searcher.stop.give_up_below(1);
        }
        let _ = self.answer(rt);
    }
}
