//! An open engine, and the search that goes on beside a script.
ghost use Rattle.std.specs.Prelude.{◌≡◌, Some, None, IfOk, IsSome, MatchBool};
ghost use Rattle.order_check.specs.Effort.{IsEffort};
ghost use Rattle.round_state.specs.Runs.{HasLimits};
ghost use Rattle.cobra.specs.Audits.{IsWhileOpen, unsearched};
ghost use Rattle.cobra.specs.Scripts.{Finishes, Goes, IsStep, IsRound, BeginsSearch, Collects, search_after};

use crate::open_engine::OpenEngine;
use crate::replies::reply_of;
use crate::rounds::make_round;
use background_search::{Effort, Solvers, UnderWay};
use log_text::Reply;
use polygraph::{PlainSolver, Problem, Solver};
use round_state::{Engine, Step, StepReply};
use std::alloc::Global;
use std::marker::Model;
use std::thread::{Scope, Threads};
use txn::{NoMemory, Refusal};

/// An open engine, and the search that was begun for its round, if one was. Contracts see the engine, and what the search was given.
#[derive(Drop)]
pub(crate) struct Audit {
    engine: OpenEngine,
    search: Option<UnderWay>,
}

impl Model for Audit {
    ghost use Rattle.std.specs.Coded.{codes};
    ghost use Rattle.std.specs.Prelude.{option_map};
    ghost use Rattle.order_check.specs.Codes.{coded_last};
    ghost use Rattle.cobra.specs.Audits.{AuditState, IsAboutRound, effort_of};

    ghost Value = { AuditState };

    ghost coded = { Prim.hlevel (codes, coded_last) };

    ghost view = { λ a. record { engine = a.engine; search = option_map effort_of a.search } };

    ghost invariant = { λ a. IsAboutRound a.search a.engine.asked };
}

/// The search, if the round that it was begun for is still open; else it is given up.
fn while_open<R: Threads>(rt: &R, search: Option<UnderWay>, engine: &OpenEngine) -> Option<UnderWay>
    ensures { IsWhileOpen engine.now.asked search result }
{
    match engine.problem() {
        Some(_) => search,
        None => {
            if let Some(search) = search {
                search.give_up(rt);
            }
            None
        }
    }
}

/// Begins a search of the problem, or tells again what one told.
fn begin_on<'s, E, P: PlainSolver + Sync, S: Solver + Sync>(
    scope: &Scope<'s, E>,
    alloc: Global,
    engine: &OpenEngine,
    problem: &Problem,
    effort: Effort,
    solvers: &'s Solvers<P, S>,
) -> UnderWay
    requires plain { P.ready }
    requires guided { S.ready }
    requires effort { IsEffort effort.budget effort.depth effort.workers }
    requires problem { engine.now.asked ≡ Some problem.now.known.parts }
    ensures { result ≡ record { effort = effort; parts = problem.now.known.parts } }
{
    match engine.again(effort) {
        Some(order) => UnderWay::told(problem, effort, order),
        None => UnderWay::begin(scope, alloc, problem, effort, solvers),
    }
}

impl Audit {
    /// No search was begun.
    pub(crate) fn new(engine: OpenEngine) -> Audit
        ensures { result ≡ unsearched engine }
    {
        Audit {
            engine,
            search: None,
        }
    }

    pub(crate) fn engine(&self) -> &Engine
        ensures { result.now ≡ self.now.engine }
    {
        self.engine.engine()
    }

    /// A search is there only while a round is open. It does nothing when it runs: a caller calls it for this contract.
    pub(crate) fn lasts(&self)
        ensures { self.now.search ≡ search_after self.now.search self.now.engine.asked }
    {
        let _ = self.search.is_some();
    }

    /// Whether a search was begun, and isn't collected yet.
    pub(crate) fn is_searched(&self) -> bool
        ensures { MatchBool result (IsSome self.now.search) (self.now.search ≡ None) }
    {
        self.search.is_some()
    }

    /// Makes a step that isn't a finish. Where it ends the round, the search is given up.
    pub(crate) fn step<R: Threads>(&mut self, rt: &R, alloc: Global, step: Step) -> StepReply
        requires { HasLimits step }
        ensures goes { Goes self.old.engine step result self.new.engine }
        ensures search { self.new.search ≡ search_after self.old.search self.new.engine.asked }
    {
        let said = self.engine.step(alloc, step);
        self.search = while_open(rt, self.search.take(), &self.engine);
        said
    }

    /// Finishes the open round by a search that is made in place.
    pub(crate) fn finish<P: PlainSolver, S: Solver>(
        &mut self,
        alloc: Global,
        effort: Effort,
        solvers: &Solvers<P, S>,
    ) -> StepReply
        requires plain { P.ready }
        requires guided { S.ready }
        requires effort { IsEffort effort.budget effort.depth effort.workers }
        requires alone { self.old.search ≡ None }
        ensures finishes { Finishes self.old.engine effort.search effort.budget effort.depth effort.workers result self.new.engine }
        ensures search { self.new.search ≡ None }
    {
        self.search = None;
        self.engine.finish(alloc, effort, solvers)
    }

    /// Makes a whole round, where none is open.
    pub(crate) fn round<R: Threads, P: PlainSolver, S: Solver>(
        &mut self,
        rt: &R,
        alloc: Global,
        effort: Effort,
        solvers: &Solvers<P, S>,
    ) -> StepReply
        requires plain { P.ready }
        requires guided { S.ready }
        requires effort { IsEffort effort.budget effort.depth effort.workers }
        ensures round { IsRound self.old.engine effort.search effort.budget effort.depth effort.workers result self.new.engine }
        ensures search { self.new.search ≡ search_after self.old.search self.new.engine.asked }
    {
        let said = make_round(&mut self.engine, alloc, effort, solvers);
        self.search = while_open(rt, self.search.take(), &self.engine);
        said
    }

    /// Begins a search beside the script, where a round is open and none was begun for it.
    pub(crate) fn begin_search<'s, E, P: PlainSolver + Sync, S: Solver + Sync>(
        &mut self,
        scope: &Scope<'s, E>,
        alloc: Global,
        effort: Effort,
        solvers: &'s Solvers<P, S>,
    ) -> Reply
        requires plain { P.ready }
        requires guided { S.ready }
        requires effort { IsEffort effort.budget effort.depth effort.workers }
        ensures { BeginsSearch self.old effort result self.new }
    {
        let Some(problem) = self.engine.problem() else {
            return Reply::No(Refusal::NoRound);
        };
        if self.search.is_some() {
            return Reply::No(Refusal::RoundOpen);
        }
        let begun = begin_on(scope, alloc, &self.engine, problem, effort, solvers);
        self.search = Some(begun);
        Reply::Done
    }

    /// Finishes the open round by what its search answered, which is waited for.
    fn finish_by<R: Threads>(&mut self, rt: &R, alloc: Global, search: UnderWay) -> StepReply
        requires { self.old.engine.asked ≡ Some search.parts }
        ensures finishes { Finishes self.old.engine search.effort.search search.effort.budget search.effort.depth search.effort.workers result self.new.engine }
        ensures search { self.new.search ≡ None }
    {
        let effort = search.effort();
        let answer = search.answer(rt);
        self.search = None;
        self.engine.finish_by(alloc, effort, answer)
    }

    /// Finishes the open round by what its search has found, once that has ended. Where it goes on, and isn't to be waited for, that is the reply.
    pub(crate) fn collect<R: Threads>(
        &mut self,
        rt: &R,
        alloc: Global,
        waits: bool,
    ) -> Result<Reply, NoMemory>
        ensures { IfOk result (λ answer. Collects waits self.old answer self.new) }
    {
        match self.search.take() {
            None => Ok(Reply::No(Refusal::NoRound)),
            Some(search) => {
                if !waits && !search.has_ended() {
                    self.search = Some(search);
                    return Ok(Reply::Searching);
                }
                let said = self.finish_by(rt, alloc, search);
                reply_of(alloc, said)
            }
        }
    }

    /// Gives the search up, if one was begun, and the open round.
    pub(crate) fn skip<R: Threads>(&mut self, rt: &R, alloc: Global) -> Result<Reply, NoMemory>
        ensures { IfOk result (λ answer. IsStep self.old.engine Step.Abandon answer self.new.engine × (self.new.search ≡ None)) }
    {
        if let Some(search) = self.search.take() {
            search.give_up(rt);
        }
        let said = self.engine.step(alloc, Step::Abandon);
        reply_of(alloc, said)
    }
}
