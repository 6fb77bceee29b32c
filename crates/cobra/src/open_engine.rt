ghost use Rattle.std.specs.Prelude.{◌≡◌, None, Some, IfOk, IfErr, IfSome, MatchOption, OnOk};
ghost use Rattle.order_check.specs.Effort.{IsEffort};
ghost use Rattle.order_check.specs.Good.{IsGood};
ghost use Rattle.polygraph.specs.declared.solving.Answer.TheVariants as answers;
ghost use Rattle.round_state.specs.EngineState.{engine_over};
ghost use Rattle.round_state.specs.Opening.{IsSessions, IsLimit, IsOpenRefusal, IsPartsRefusal, fresh, fresh_state};
ghost use Rattle.round_state.specs.Runs.{HasLimits, Holds};
ghost use Rattle.cobra.specs.Scripts.{Finishes, Goes};
ghost use Rattle.cobra.specs.Searches.{MayAnswerOf};

use crate::last_told::LastTold;
use crate::searches::solve;
use background_search::{Effort, Solvers};
use order_check::Parts;
use polygraph::{Answer, PlainSolver, Problem, Single, Solver};
use round_state::{Engine, Step, StepReply};
use std::alloc::Global;
use std::marker::Model;
use txn::{Refusal, Sequence, TxnId};

/// Finishes the open round by what such a search may answer.
fn finish_by(engine: &mut Engine, alloc: Global, effort: Effort, answer: Answer) -> StepReply
    requires { MayAnswerOf effort.search engine.old.asked effort.budget effort.depth answer }
    ensures { Finishes engine.old effort.search effort.budget effort.depth effort.workers result engine.new }
{
    engine.right_is_legal();
    match engine.finish_lawfully(alloc, answer) {
        Ok(report) => StepReply::Report(report),
        Err(refusal) => StepReply::Refused(refusal),
    }
}

/// An engine, and the order that was told last. Contracts see the engine.
#[derive(Drop)]
pub(crate) struct OpenEngine {
    engine: Engine,
    last: LastTold,
}

impl Model for OpenEngine {
    ghost use Rattle.std.specs.Coded.{codes};
    ghost use Rattle.order_check.specs.Codes.{coded_last};
    ghost use Rattle.round_state.specs.EngineState.{EngineState};
    ghost use Rattle.cobra.specs.LastTold.{Fits};

    ghost Value = { EngineState };

    ghost coded = { Prim.hlevel (codes, coded_last) };

    ghost view = { λ e. e.engine };

    ghost invariant = { λ e. Fits e.engine e.last };
}

impl OpenEngine {
    pub(crate) fn open(
        alloc: Global,
        most_sessions: u64,
        sessions: u64,
        limit: u64,
    ) -> Result<OpenEngine, Refusal>
        ensures ok { IfOk result (λ engine. engine ≡ fresh most_sessions sessions limit) }
        ensures holds { OnOk result (Holds (fresh most_sessions sessions limit) (fresh_state most_sessions sessions limit)) }
        ensures numbers { OnOk result (IsSessions most_sessions sessions × IsLimit limit) }
        ensures err { IfErr result (IsOpenRefusal most_sessions sessions limit) }
    {
        Ok(OpenEngine {
            engine: Engine::open(alloc, most_sessions, sessions, limit)?,
            last: LastTold::nothing(),
        })
    }

    /// An engine that goes on from these parts, where they keep their rules; a refusal hands them back.
    pub(crate) fn over(alloc: Global, parts: Parts) -> Result<OpenEngine, (Parts, Refusal)>
        ensures ok { IfOk result (λ engine. IsGood parts × (engine ≡ engine_over parts)) }
        ensures err { IfErr result (λ back. (back.0 ≡ parts) × IsPartsRefusal parts back.1) }
    {
        let engine = Engine::from_parts(alloc, parts)?;
        Ok(OpenEngine {
            engine,
            last: LastTold::nothing(),
        })
    }

    pub(crate) fn engine(&self) -> &Engine
        ensures { result.now ≡ self.now }
    {
        &self.engine
    }

    /// Begins a round. No search is made.
    fn begin(&mut self, alloc: Global) -> StepReply
        ensures { Goes self.old Step.Begin result self.new }
    {
        match self.engine.step(alloc, Step::Begin, &Single) {
            StepReply::Done => {
                self.last.begin();
                StepReply::Done
            }
            refused => {
                self.last = LastTold::nothing();
                refused
            }
        }
    }

    /// Finishes the open round by an order that such a search told of the same.
    fn finish_again(&mut self, alloc: Global, effort: Effort, order: Sequence<TxnId>) -> StepReply
        requires { MayAnswerOf effort.search self.old.asked effort.budget effort.depth (answers.Yes order) }
        ensures { Finishes self.old effort.search effort.budget effort.depth effort.workers result self.new }
    {
        finish_by(&mut self.engine, alloc, effort, Answer::Yes(order))
    }

    /// The problem of the round that is open, if one is.
    pub(crate) fn problem(&self) -> Option<&Problem>
        ensures { MatchOption result (self.now.asked ≡ None) (λ problem. self.now.asked ≡ Some problem.now.known.parts) }
    {
        self.engine.problem()
    }

    /// The order that such a search told of what the open round is about, where it may be told again.
    pub(crate) fn again(&self, effort: Effort) -> Option<Sequence<TxnId>>
        ensures { IfSome result (λ order. MayAnswerOf effort.search self.now.asked effort.budget effort.depth (answers.Yes order)) }
    {
        self.last.again(effort)
    }

    /// Finishes the open round by what such a search answered to its problem.
    pub(crate) fn finish_by(&mut self, alloc: Global, effort: Effort, answer: Answer) -> StepReply
        requires { MayAnswerOf effort.search self.old.asked effort.budget effort.depth answer }
        ensures { Finishes self.old effort.search effort.budget effort.depth effort.workers result self.new }
    {
        let said = finish_by(&mut self.engine, alloc, effort, answer);
        self.last = self.last.after(&said, effort);
        said
    }

    /// Finishes the open round by a search.
    fn finish_anew<P: PlainSolver, S: Solver>(
        &mut self,
        alloc: Global,
        effort: Effort,
        solvers: &Solvers<P, S>,
    ) -> StepReply
        requires plain { P.ready }
        requires guided { S.ready }
        requires effort { IsEffort effort.budget effort.depth effort.workers }
        ensures { Finishes self.old effort.search effort.budget effort.depth effort.workers result self.new }
    {
        let answer = solve(alloc, &self.engine, effort, solvers);
        self.finish_by(alloc, effort, answer)
    }

    /// Finishes the open round by the order that was told last, where it may be told again, or else by a search.
    pub(crate) fn finish<P: PlainSolver, S: Solver>(
        &mut self,
        alloc: Global,
        effort: Effort,
        solvers: &Solvers<P, S>,
    ) -> StepReply
        requires plain { P.ready }
        requires guided { S.ready }
        requires effort { IsEffort effort.budget effort.depth effort.workers }
        ensures { Finishes self.old effort.search effort.budget effort.depth effort.workers result self.new }
    {
        match self.last.again(effort) {
            Some(order) => self.finish_again(alloc, effort, order),
            None => self.finish_anew(alloc, effort, solvers),
        }
    }

    /// Makes any other step, after which nothing is known of the parts.
    fn step_on(&mut self, alloc: Global, step: Step) -> StepReply
        requires { HasLimits step }
        ensures { Goes self.old step result self.new }
    {
        let said = self.engine.step(alloc, step, &Single);
        self.last = LastTold::nothing();
        said
    }

    /// Makes a step that isn't a finish. It searches nothing.
    pub(crate) fn step(&mut self, alloc: Global, step: Step) -> StepReply
        requires { HasLimits step }
        ensures { Goes self.old step result self.new }
    {
        match step {
            Step::Begin => self.begin(alloc),
            step => self.step_on(alloc, step),
        }
    }
}
