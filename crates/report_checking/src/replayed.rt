ghost use Rattle.std.specs.Prelude.{◌≡◌, ◌+◌, Some, None, IsSome, IsSomeAnd, IfOk, IfErr, OnOk, MatchBool, ⊤};
ghost use Rattle.order_check.specs.declared.remainder.Parts.{Parts};
ghost use Rattle.order_check.specs.Good.{IsGood};
ghost use Rattle.round_state.specs.Opening.{IsOpenRefusal, fresh_state};
ghost use Rattle.round_state.specs.Runs.{HasLimits, Holds, StepsLegally};
ghost use Rattle.round_state.specs.Solving.{IsReportOn};
ghost use Rattle.round_state.specs.Steps.{StepsTo, IsFinishRefusal};
ghost use Rattle.cobra.specs.Scripts.{IsBeginningRefusal, MayBegin, opened_state};
ghost use Rattle.report_checking.specs.Owing.{IsEarned, IsOwedReport};
ghost use Rattle.report_checking.specs.Reading.{HoldsIn, Leads};

use cobra::{may_begin, room_of};
use isolation_scripts::fresh_engines_are_split;
use log_text::Opening;
use order_check::verdict_as_stood_for;
use polygraph::{Answer, Problem, Solver};
use refutation::refuted_has_no_order;
use round_state::{Engine, Report, Step, StepReply};
use std::alloc::Global;
use std::marker::Model;
use txn::Refusal;

/// Searches nothing, and never finds memory for it: rounds are finished by answers that are stored.
struct NoSearch;

impl Solver for NoSearch {
    ghost ready = { ⊤ };

    fn solve(
        &self,
        alloc: Global,
        problem: &Problem,
        budget: u64,
        depth: u64,
        workers: u64,
    ) -> Answer {
        Answer::NoMemory
    }
}

/// An engine that goes through a script once more. Contracts see the engine.
#[derive(Drop)]
pub(crate) struct Replayed {
    engine: Engine,
}

impl Model for Replayed {
    ghost use Rattle.std.specs.Coded.{codes};
    ghost use Rattle.order_check.specs.Codes.{coded_last};
    ghost use Rattle.round_state.specs.EngineState.{EngineState};

    ghost Value = { EngineState };

    ghost coded = { Prim.hlevel (codes, coded_last) };

    ghost view = { λ e. e.engine };
}

impl Replayed {
    /// One with a fresh engine, whatever asked for it.
    fn fresh(
        alloc: Global,
        most_sessions: u64,
        sessions: u64,
        limit: u64,
    ) -> Result<Replayed, Refusal>
        ensures holds { IfOk result (λ engine. Holds engine (fresh_state most_sessions sessions limit)) }
        ensures err { IfErr result (IsOpenRefusal most_sessions sessions limit) }
    {
        Ok(Replayed {
            engine: Engine::open(alloc, most_sessions, sessions, limit)?,
        })
    }

    /// One that is opened for this.
    pub(crate) fn open(
        alloc: Global,
        sessions: u64,
        limit: u64,
        opening: Opening,
    ) -> Result<Replayed, Refusal>
        ensures holds { IfOk result (λ engine. HoldsIn opening engine (opened_state opening sessions limit)) }
        ensures numbers { OnOk result (MayBegin opening sessions limit) }
        ensures err { IfErr result (IsBeginningRefusal opening sessions limit) }
    {
        // A law that the proof cites. It does nothing when it runs.
        fresh_engines_are_split();
        may_begin(opening, sessions, limit)?;
        let most = opening.version().most_sessions();
        Replayed::fresh(alloc, most, sessions, room_of(opening, limit))
    }

    pub(crate) fn engine(&self) -> &Engine
        ensures { result.now ≡ self.now }
    {
        &self.engine
    }

    /// Whether a round is open.
    pub(crate) fn has_round(&self) -> bool
        ensures { MatchBool result (IsSome self.now.asked) (self.now.asked ≡ None) }
    {
        self.engine.problem().is_some()
    }

    /// Makes a step that isn't a finish.
    pub(crate) fn step(&mut self, alloc: Global, step: Step) -> StepReply
        requires { HasLimits step }
        ensures right { StepsTo self.old step result self.new }
        ensures legal { StepsLegally self.old step result self.new }
    {
        self.engine.step(alloc, step, &NoSearch)
    }

    /// The snapshot of the round that is open keeps the rules.
    fn has_good_snapshot(&self)
        ensures { (parts : Parts) → self.now.asked ≡ Some parts → IsGood parts }
    {
        if let Some(problem) = self.engine.problem() {
            let _ = problem.parts();
        }
    }

    /// Finishes the open round by an answer that isn't believed: where it is wrong, nothing has changed.
    pub(crate) fn finish(&mut self, alloc: Global, answer: Answer) -> Result<Report, Refusal>
        ensures answered { IfOk result (λ report. IsSomeAnd self.old.asked (λ parts. IsReportOn parts (self.old.rounds + 1) answer report)) }
        ensures earned { IfOk result (λ report. IsEarned self.old report self.new) }
        ensures owed { IfOk result (λ report. Leads self.old self.new (λ before after. IsOwedReport before report after)) }
        ensures err { IfErr result (λ refusal. IsFinishRefusal self.old answer refusal × (self.new ≡ self.old)) }
    {
        // A law that the proof cites. It does nothing when it runs.
        verdict_as_stood_for();
        refuted_has_no_order();
        self.has_good_snapshot();
        let report = self.engine.finish(alloc, answer)?;
        Ok(report)
    }
}
