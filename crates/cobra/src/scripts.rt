ghost use Rattle.std.specs.Prelude.{◌≡◌, ℕ, List, IfOk, IfSome, IfNone};
ghost use Rattle.log_text.specs.Commands.{HasLimits};
ghost use Rattle.log_text.specs.Replies.{HasKindOfOrder};
ghost use Rattle.order_check.specs.Effort.{IsEffort};
ghost use Rattle.round_state.specs.Runs as runs;
ghost use Rattle.cobra.specs.Held.{AsksWithin, HasAtMost, IsLight};
ghost use Rattle.cobra.specs.Outputs.{Asks, IsTold, AnswersNext, RepliesTo};
ghost use Rattle.cobra.specs.Scripts.{IsStep, AnswersOpen, AnswersBeside, AnswersIn, AnswersIsolated, FinishesAlone, Answers, search_after};
ghost use Rattle.cobra.specs.declared.stages.Stage.{Stage};

use crate::audits::Audit;
use crate::beginnings::begin;
use crate::means::Means;
use crate::replies::{claim_of, reply_of};
use crate::resuming::{answer_handing, answer_resuming};
use crate::saving::saved_told;
use crate::showing::state_told;
use crate::stages::Stage;
use crate::strict::answer_strict;
use background_search::{Effort, Solvers};
use byte_lines::Next;
use isolation_scripts::{isolated_of, split_command};
use log_text::{Command, Names, Opening, Reply, Search, Version, read_line_within, write_reply};
use logged_fragments::LoggedFragment;
use polygraph::{PlainSolver, Solver};
use round_state::Step;
use std::alloc::{AllocError, Global};
use std::mem;
use std::thread::Threads;
use txn::{NoMemory, Refusal};

/// A script under way.
#[derive(Drop)]
pub(crate) struct Script {
    stage: Stage,
}

/// Takes an offer, where the script's version has a form for it.
fn answer_offer<R: Threads>(
    audit: &mut Audit,
    rt: &R,
    alloc: Global,
    version: Version,
    logged: LoggedFragment,
) -> Result<Reply, NoMemory>
    ensures { IfOk result (λ answer. AnswersBeside version audit.old (Command.Offer logged) answer audit.new) }
{
    // For the proof alone: a search that was begun is of the open round.
    audit.lasts();
    if version.has_form(&logged) {
        let said = audit.step(rt, alloc, Step::Offer(logged));
        reply_of(alloc, said)
    } else {
        Ok(Reply::No(Refusal::BadLine))
    }
}

/// The same of a join.
fn answer_join<R: Threads>(
    audit: &mut Audit,
    rt: &R,
    alloc: Global,
    version: Version,
    logged: LoggedFragment,
) -> Result<Reply, NoMemory>
    ensures { IfOk result (λ answer. AnswersBeside version audit.old (Command.Join logged) answer audit.new) }
{
    // For the proof alone: a search that was begun is of the open round.
    audit.lasts();
    if version.has_form(&logged) {
        let said = audit.step(rt, alloc, Step::Join(logged));
        reply_of(alloc, said)
    } else {
        Ok(Reply::No(Refusal::BadLine))
    }
}

/// Makes any other step.
fn answer_step<R: Threads>(
    audit: &mut Audit,
    rt: &R,
    alloc: Global,
    step: Step,
) -> Result<Reply, NoMemory>
    requires { runs.HasLimits step }
    ensures { IfOk result (λ answer. IsStep audit.old.engine step answer audit.new.engine × (audit.new.search ≡ search_after audit.old.search audit.new.engine.asked)) }
{
    let said = audit.step(rt, alloc, step);
    reply_of(alloc, said)
}

fn effort_of(budget: u64, depth: u64, workers: u64, search: Search) -> Effort
    ensures { result ≡ record { budget = budget; depth = depth; workers = workers; search = search } }
{
    Effort {
        budget,
        depth,
        workers,
        search,
    }
}

/// Finishes the open round by a search in place, unless one was begun beside it.
fn answer_finish<P: PlainSolver, S: Solver>(
    audit: &mut Audit,
    alloc: Global,
    version: Version,
    effort: Effort,
    solvers: &Solvers<P, S>,
) -> Result<Reply, NoMemory>
    requires plain { P.ready }
    requires guided { S.ready }
    requires effort { IsEffort effort.budget effort.depth effort.workers }
    ensures { IfOk result (λ answer. FinishesAlone audit.old answer audit.new
        (AnswersOpen version audit.old.engine (Command.Finish effort.budget effort.depth effort.workers effort.search) answer audit.new.engine)) }
{
    if audit.is_searched() {
        return Ok(Reply::No(Refusal::RoundOpen));
    }
    let said = audit.finish(alloc, effort, solvers);
    reply_of(alloc, said)
}

/// Makes a round.
fn answer_round<E, R: Threads, P: PlainSolver, S: Solver>(
    audit: &mut Audit,
    means: &Means<'_, '_, E, R, P, S>,
    version: Version,
    effort: Effort,
) -> Result<Reply, NoMemory>
    requires plain { P.ready }
    requires guided { S.ready }
    requires effort { IsEffort effort.budget effort.depth effort.workers }
    ensures { IfOk result (λ answer. AnswersOpen version audit.old.engine (Command.Round effort.budget effort.depth effort.workers effort.search) answer audit.new.engine
        × (audit.new.search ≡ search_after audit.old.search audit.new.engine.asked)) }
{
    let said = audit.round(means.rt, means.alloc, effort, means.solvers);
    reply_of(means.alloc, said)
}

fn answer_open<'s, E, R: Threads, P: PlainSolver + Sync, S: Solver + Sync>(
    audit: &mut Audit,
    means: &Means<'_, 's, E, R, P, S>,
    version: Version,
    command: Command,
) -> Result<Reply, NoMemory>
    requires plain { P.ready }
    requires guided { S.ready }
    requires limits { HasLimits command }
    ensures { IfOk result (λ answer. AnswersBeside version audit.old command answer audit.new) }
{
    // For the proof alone: a search that was begun is of the open round.
    audit.lasts();
    let rt = means.rt;
    let alloc = means.alloc;
    match command {
        Command::Offer(logged) => answer_offer(audit, rt, alloc, version, logged),
        Command::Join(logged) => answer_join(audit, rt, alloc, version, logged),
        Command::Close(session) => answer_step(audit, rt, alloc, Step::Close(session)),
        Command::Begin => answer_step(audit, rt, alloc, Step::Begin),
        Command::Finish {
            budget,
            depth,
            workers,
            search,
        } => {
            let effort = effort_of(budget, depth, workers, search);
            answer_finish(audit, alloc, version, effort, means.solvers)
        }
        Command::Round {
            budget,
            depth,
            workers,
            search,
        } => {
            let effort = effort_of(budget, depth, workers, search);
            answer_round(audit, means, version, effort)
        }
        Command::BeginSearch {
            budget,
            depth,
            workers,
            search,
        } => {
            let effort = effort_of(budget, depth, workers, search);
            Ok(audit.begin_search(means.scope, alloc, effort, means.solvers))
        }
        Command::Collect { waits } => audit.collect(rt, alloc, waits),
        Command::Skip => audit.skip(rt, alloc),
        Command::Answer(shown) => { answer_step(audit, rt, alloc, Step::Judge(claim_of(shown))) }
        Command::Truncate => answer_step(audit, rt, alloc, Step::Truncate),
        Command::Rebuild => answer_step(audit, rt, alloc, Step::Rebuild),
        Command::Show => state_told(alloc, audit.engine()),
        Command::Save(wanted) => saved_told(alloc, audit.engine(), wanted),
        Command::Start { .. }
        | Command::OfferTimed { .. }
        | Command::Resume { .. }
        | Command::Marks { .. }
        | Command::MarksBegun { .. }
        | Command::Last(_)
        | Command::Resumed => Ok(Reply::No(Refusal::BadLine)),
    }
}

/// The reply to a command of a script that asks for snapshot isolation.
fn answer_isolated<'s, E, R: Threads, P: PlainSolver + Sync, S: Solver + Sync>(
    audit: &mut Audit,
    means: &Means<'_, 's, E, R, P, S>,
    version: Version,
    command: Command,
) -> Result<Reply, NoMemory>
    requires plain { P.ready }
    requires guided { S.ready }
    requires limits { HasLimits command }
    ensures { IfOk result (λ answer. AnswersIsolated version audit.old command answer audit.new) }
{
    match split_command(means.alloc, version.most_sessions(), command)? {
        Ok(split) => {
            let reply = answer_open(audit, means, version, split)?;
            isolated_of(means.alloc, reply)
        }
        Err(refusal) => Ok(Reply::No(refusal)),
    }
}

/// The reply to a command of a script whose engine is open.
fn answer_in<'s, E, R: Threads, P: PlainSolver + Sync, S: Solver + Sync>(
    audit: &mut Audit,
    means: &Means<'_, 's, E, R, P, S>,
    opening: Opening,
    command: Command,
) -> Result<Reply, NoMemory>
    requires plain { P.ready }
    requires guided { S.ready }
    requires limits { HasLimits command }
    ensures { IfOk result (λ answer. AnswersIn opening audit.old command answer audit.new) }
{
    match opening {
        Opening::Ordered(version) => answer_open(audit, means, version, command),
        Opening::Isolated(version) => answer_isolated(audit, means, version, command),
    }
}

/// The reply to a command, and how far the script is then.
fn answered<'s, E, R: Threads, P: PlainSolver + Sync, S: Solver + Sync>(
    means: &Means<'_, 's, E, R, P, S>,
    stage: Stage,
    command: Command,
) -> Result<(Reply, Stage), NoMemory>
    requires plain { P.ready }
    requires guided { S.ready }
    requires limits { HasLimits command }
    ensures { IfOk result (λ answered. Answers stage command answered.0 answered.1) }
{
    let alloc = means.alloc;
    match stage {
        Stage::Nothing => Ok(begin(alloc, command)),
        Stage::Resuming {
            sessions,
            limit,
            opening,
        } => answer_resuming(alloc, sessions, limit, opening, command),
        Stage::Handing { handed, opening } => answer_handing(alloc, handed, opening, command),
        Stage::Open { audit, opening } => {
            let mut audit = audit;
            let reply = answer_in(&mut audit, means, opening, command)?;
            Ok((reply, Stage::Open { audit, opening }))
        }
        Stage::Strict { offered, version } => {
            let mut offered = offered;
            let reply = answer_strict(&mut offered, means, version, command)?;
            Ok((reply, Stage::Strict { offered, version }))
        }
    }
}

/// What is held of the command that was read, where it was one.
fn command_within(
    alloc: Global,
    names: Names,
    next: &Next,
    most: Option<usize>,
) -> Result<Option<Command>, NoMemory>
    ensures some { IfOk result (λ found. IfSome found (λ command. (line : List ℕ) → IsTold line next.now → AsksWithin names most line command)) }
    ensures few { IfOk result (λ found. IfSome found (HasAtMost most)) }
    ensures none { IfOk result (λ found. IfNone found ((line : List ℕ) → IsTold line next.now → (command : Command) → ¬ Asks names line command)) }
    ensures limits { IfOk result (λ found. IfSome found HasLimits) }
{
    let line = match next {
        Next::Line(line) => line,
        Next::TooLong | Next::End => return Ok(None),
    };
    match read_line_within(alloc, names, line, most) {
        Ok(command) => Ok(Some(command)),
        Err(refusal) => match refusal {
            Refusal::NoMemory => Err(AllocError),
            _ => Ok(None),
        },
    }
}

/// The command that was read, where it was one, in lines that name transactions by these names.
pub fn command_in(alloc: Global, names: Names, next: &Next) -> Result<Option<Command>, NoMemory>
    ensures some { IfOk result (λ found. IfSome found (λ command. (line : List ℕ) → IsTold line next.now → Asks names line command)) }
    ensures none { IfOk result (λ found. IfNone found ((line : List ℕ) → IsTold line next.now → (command : Command) → ¬ Asks names line command)) }
    ensures limits { IfOk result (λ found. IfSome found HasLimits) }
{
    command_within(alloc, names, next, None)
}

impl Script {
    pub(crate) fn new() -> Script
        ensures { result.stage ≡ Stage.Nothing }
    {
        Script {
            stage: Stage::Nothing,
        }
    }

    fn answer<'s, E, R: Threads, P: PlainSolver + Sync, S: Solver + Sync>(
        &mut self,
        means: &Means<'_, 's, E, R, P, S>,
        command: Command,
    ) -> Result<Reply, NoMemory>
        requires plain { P.ready }
        requires guided { S.ready }
        requires limits { HasLimits command }
        requires light { IsLight self.old.stage command }
        ensures { IfOk result (λ answer. Answers self.old.stage command answer self.new.stage) }
    {
        let stage = mem::replace(&mut self.stage, Stage::Nothing);
        let (reply, stage) = answered(means, stage, command)?;
        self.stage = stage;
        Ok(reply)
    }

    fn answer_next<'s, E, R: Threads, P: PlainSolver + Sync, S: Solver + Sync>(
        &mut self,
        means: &Means<'_, 's, E, R, P, S>,
        next: &Next,
    ) -> Result<Reply, NoMemory>
        requires plain { P.ready }
        requires guided { S.ready }
        ensures answers { IfOk result (λ answer. AnswersNext self.old.stage next.now answer self.new.stage) }
        ensures kind { IfOk result HasKindOfOrder }
    {
        let names = self.stage.names();
        let most = self.stage.most_held();
        match command_within(means.alloc, names, next, most)? {
            Some(command) => self.answer(means, command),
            None => Ok(Reply::No(Refusal::BadLine)),
        }
    }

    /// The line of the reply to what was read.
    pub(crate) fn answer_line<'s, E, R: Threads, P: PlainSolver + Sync, S: Solver + Sync>(
        &mut self,
        means: &Means<'_, 's, E, R, P, S>,
        next: &Next,
    ) -> Result<Vec<u8>, NoMemory>
        requires plain { P.ready }
        requires guided { S.ready }
        ensures { IfOk result (λ text. RepliesTo self.old.stage next.now text.items self.new.stage) }
    {
        let answer = self.answer_next(means, next)?;
        write_reply(means.alloc, &answer)
    }
}
