ghost use Rattle.std.specs.Prelude.{◌≡◌, ℕ, ◌<◌, ◌≤◌, [], ◌∷◌, ◌++◌, All, IfOk, IfSome, OnErr, vec_len, vec_capacity};
ghost use Rattle.order_check.specs.Effort.{IsEffort};
ghost use Rattle.polygraph.specs.Solving.{IsLawful};
ghost use Rattle.round_state.specs.EngineState.{EngineState};
ghost use Rattle.round_state.specs.Runs.{HasLimits, StepsLegally, RunsLegally};
ghost use Rattle.round_state.specs.Steps.{IsRightFinish, StepsTo, RunsTo, answer_claimed, answer_told};

use crate::reports::Report;
use crate::state::Engine;
use logged_fragments::LoggedFragment;
use order_check::{
    close_keeps_stands_for, join_keeps_stands_for, offer_keeps_stands_for, return_keeps_stands_for,
    verdict_as_stood_for,
};
use polygraph::{Answer, Effort, Solver};
use refutation::{Tree, refuted_has_no_order};
use settle::Cut;
use std::alloc::Global;
use txn::{NoMemory, Refusal, Sequence, TxnId};

/// What is handed in to be judged, wherever it comes from.
#[derive(Drop, Debug)]
pub enum Claim {
    /// This order explains the snapshot.
    Order(Sequence<TxnId>),
    /// No order explains the snapshot, as this tree shows.
    Refuted(Tree),
}

/// A step of an engine.
#[derive(Drop, Debug)]
pub enum Step {
    Offer(LoggedFragment),
    /// Lets a session join with the fragment, or come back with it.
    Join(LoggedFragment),
    /// Closes the session.
    Close(u8),
    Begin,
    /// Solves the open round's problem and finishes by the answer.
    Finish {
        budget: u64,
        depth: u64,
        workers: u64,
    },
    /// Finishes the open round by an order or a tree from anywhere, where that is right.
    Judge(Claim),
    Abandon,
    /// Applies the held cut.
    Truncate,
    /// Makes the engine anew from its parts.
    Rebuild,
}

/// The reply to a step.
#[derive(Drop, Debug)]
pub enum StepReply {
    Done,
    Refused(Refusal),
    Report(Report),
    /// The cut that was applied.
    Cut(Cut),
}

/// The answer of a search that says the same.
fn answer_claimed(claim: Claim) -> Answer
    ensures { result ≡ answer_claimed claim }
{
    match claim {
        Claim::Order(order) => Answer::Yes(order),
        Claim::Refuted(tree) => Answer::No(tree),
    }
}

/// Puts the reply at the end, where there is room for it.
fn note(replies: &mut Vec<StepReply>, reply: StepReply)
    requires { vec_len replies.old < vec_capacity replies.old }
    ensures items { replies.new.items ≡ replies.old.items ++ reply ∷ [] }
    ensures capacity { vec_capacity replies.old ≤ vec_capacity replies.new }
{
    let _ = replies.push(reply);
}

impl Engine {
    fn reply_to_offer(&mut self, alloc: Global, logged: LoggedFragment) -> StepReply
        ensures right { StepsTo self.old (Step.Offer logged) result self.new }
    {
        match self.offer(alloc, logged) {
            Ok(()) => StepReply::Done,
            Err(refusal) => StepReply::Refused(refusal),
        }
    }

    fn reply_to_join(&mut self, alloc: Global, logged: LoggedFragment) -> StepReply
        ensures right { StepsTo self.old (Step.Join logged) result self.new }
    {
        match self.join(alloc, logged) {
            Ok(()) => StepReply::Done,
            Err(refusal) => StepReply::Refused(refusal),
        }
    }

    fn reply_to_close(&mut self, session: u8) -> StepReply
        ensures right { StepsTo self.old (Step.Close session) result self.new }
    {
        match self.close(session) {
            Ok(()) => StepReply::Done,
            Err(refusal) => StepReply::Refused(refusal),
        }
    }

    fn reply_to_begin(&mut self, alloc: Global) -> StepReply
        ensures right { StepsTo self.old Step.Begin result self.new }
    {
        match self.begin(alloc) {
            Ok(_problem) => StepReply::Done,
            Err(refusal) => StepReply::Refused(refusal),
        }
    }

    fn reply_to_finish<S: Solver>(&mut self, alloc: Global, effort: Effort, solver: &S) -> StepReply
        requires ready { S.ready }
        requires effort { IsEffort effort.budget effort.depth effort.workers }
        ensures right { StepsTo self.old (Step.Finish effort.budget effort.depth effort.workers) result self.new }
    {
        let Some(problem) = self.problem() else {
            return StepReply::Refused(Refusal::NoRound);
        };
        let answer = solver.solve(alloc, problem, effort.budget, effort.depth, effort.workers);
        match self.finish_lawfully(alloc, answer) {
            Ok(report) => StepReply::Report(report),
            Err(refusal) => StepReply::Refused(refusal),
        }
    }

    /// Finishes the open round as `finish` does. Where the answer is what a search of this budget and depth may answer for the round's
    /// snapshot, the report or the refusal is right for a finish by such a search, whatever workers share it: it is then refused only for
    /// want of memory, or because no round is open. The report tells that very answer.
    pub fn finish_lawfully(&mut self, alloc: Global, answer: Answer) -> Result<Report, Refusal>
        ensures told { IfOk result (λ report. answer_told report.certificate ≡ answer) }
        ensures right { (budget depth workers : ℕ) → IfSome self.old.asked (λ parts. IsLawful parts budget depth answer) → IsRightFinish self.old budget depth workers result self.new }
    {
        refuted_has_no_order();
        self.has_good_snapshot();
        self.finish(alloc, answer)
    }

    /// What is claimed is judged as a search's answer is, and nothing is believed of it.
    fn reply_to_judge(&mut self, alloc: Global, claim: Claim) -> StepReply
        ensures right { StepsTo self.old (Step.Judge claim) result self.new }
    {
        match self.finish(alloc, answer_claimed(claim)) {
            Ok(report) => StepReply::Report(report),
            Err(refusal) => StepReply::Refused(refusal),
        }
    }

    fn reply_to_abandon(&mut self) -> StepReply
        ensures right { StepsTo self.old Step.Abandon result self.new }
    {
        match self.abandon() {
            Ok(()) => StepReply::Done,
            Err(refusal) => StepReply::Refused(refusal),
        }
    }

    fn reply_to_truncate(&mut self, alloc: Global) -> StepReply
        ensures right { StepsTo self.old Step.Truncate result self.new }
    {
        match self.truncate(alloc) {
            Ok(cut) => StepReply::Cut(cut),
            Err(refusal) => StepReply::Refused(refusal),
        }
    }

    fn reply_to_rebuild(&mut self, alloc: Global) -> StepReply
        ensures right { StepsTo self.old Step.Rebuild result self.new }
    {
        match self.rebuild(alloc) {
            Ok(()) => StepReply::Done,
            Err(refusal) => StepReply::Refused(refusal),
        }
    }

    /// What is right by the engine alone is legal for all whole histories that it stands for. It does nothing: a caller of single calls, each
    /// of which says what is right, learns by it that the call was legal.
    pub fn right_is_legal(&self)
        ensures { (step : Step) (reply : StepReply) (new : EngineState) → StepsTo self.now step reply new → StepsLegally self.now step reply new }
    {
        // Laws that the proof cites. They do nothing when they run.
        offer_keeps_stands_for();
        join_keeps_stands_for();
        return_keeps_stands_for();
        close_keeps_stands_for();
        verdict_as_stood_for();
        refuted_has_no_order();
        self.has_good_snapshot();
        self.has_fitting_cut();
    }

    /// Makes a step by the call for it, and replies to it. Where the reply is a refusal, nothing has changed.
    pub fn step<S: Solver>(&mut self, alloc: Global, step: Step, solver: &S) -> StepReply
        requires ready { S.ready }
        requires limits { HasLimits step }
        ensures right { StepsTo self.old step result self.new }
        ensures legal { StepsLegally self.old step result self.new }
    {
        self.right_is_legal();
        match step {
            Step::Offer(logged) => self.reply_to_offer(alloc, logged),
            Step::Join(logged) => self.reply_to_join(alloc, logged),
            Step::Close(session) => self.reply_to_close(session),
            Step::Begin => self.reply_to_begin(alloc),
            Step::Finish {
                budget,
                depth,
                workers,
            } => {
                let effort = Effort {
                    budget,
                    depth,
                    workers,
                };
                self.reply_to_finish(alloc, effort, solver)
            }
            Step::Judge(claim) => self.reply_to_judge(alloc, claim),
            Step::Abandon => self.reply_to_abandon(),
            Step::Truncate => self.reply_to_truncate(alloc),
            Step::Rebuild => self.reply_to_rebuild(alloc),
        }
    }

    /// Makes a list of steps, and replies to each. Room for the replies is made first: where memory is refused for it, nothing has
    /// changed.
    pub fn run<S: Solver>(
        &mut self,
        alloc: Global,
        steps: Vec<Step>,
        solver: &S,
    ) -> Result<Vec<StepReply>, NoMemory>
        requires ready { S.ready }
        requires limits { All HasLimits steps.items }
        ensures right { IfOk result (λ replies. RunsTo self.old steps.items replies.items self.new) }
        ensures legal { IfOk result (λ replies. RunsLegally self.old steps.items replies.items self.new) }
        ensures err { OnErr result (self.new ≡ self.old) }
    {
        let mut replies = Vec::with_capacity(alloc, steps.len())?;
        for step in steps {
            let reply = self.step(alloc, step, solver);
            note(&mut replies, reply);
        }
        Ok(replies)
    }
}
