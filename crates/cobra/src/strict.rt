//! Scripts that are asked for strict serializability: what is offered with its times, and rounds over all of it.
ghost use Rattle.std.specs.Prelude.{◌≡◌, ◌↔◌, length, IfOk, IsTrue};
ghost use Rattle.order_check.specs.Effort.{IsEffort};
ghost use Rattle.log_text.specs.Commands.{HasLimits};
ghost use Rattle.log_text.specs.declared.commands.Command.{Command};
ghost use Rattle.round_state.specs.EngineState.{engine_over};
ghost use Rattle.strict_offers.specs.Offers.{strict_parts};
ghost use Rattle.cobra.specs.Scripts.{AnswersStrict, RoundsStrictly};
ghost use Rattle.cobra.specs.Strict.{HasItsTimes, OffersStrictly, OffersTimed, begin_of, end_of, span_of, spans_of};

use crate::means::Means;
use crate::open_engine::OpenEngine;
use crate::replies::report_of;
use crate::rounds::make_round;
use background_search::{Effort, Solvers};
use log_text::{Command, Reply, Version};
use logged_fragments::LoggedFragment;
use polygraph::{PlainSolver, Solver};
use round_state::{Report, StepReply};
use std::alloc::{AllocError, Global};
use std::thread::Threads;
use strict_histories::Span;
use strict_offers::Offered;
use txn::{NoMemory, Refusal};

/// When a transaction began, as a line tells it.
fn begin_of(began: u64) -> Option<u64>
    ensures { result ≡ begin_of began }
{
    if began == 0 { None } else { Some(began) }
}

/// When it ended.
fn end_of(ended: u64) -> Option<u64>
    ensures { result ≡ end_of ended }
{
    if ended == u64::MAX { None } else { Some(ended) }
}

fn span_of(began: u64, ended: u64) -> Span
    ensures { result ≡ span_of began ended }
{
    Span {
        began: begin_of(began),
        ended: end_of(ended),
    }
}

fn spans_of(alloc: Global, began: &[u64], ended: &[u64]) -> Result<Vec<Span>, NoMemory>
    requires { length ended.now ≡ length began.now }
    ensures { IfOk result (λ spans. spans.items ≡ spans_of began.now ended.now) }
{
    let mut spans = Vec::with_capacity(alloc, began.len())?;
    for place in 0..began.len() {
        let span = span_of(began[place], ended[place]);
        spans.push(span)?;
    }
    Ok(spans)
}

/// Whether as many began and ended as transactions are told.
fn has_its_times(logged: &LoggedFragment, began: &[u64], ended: &[u64]) -> bool
    ensures { IsTrue result ↔ HasItsTimes logged.now began.now ended.now }
{
    began.len() == logged.aborted.len() && ended.len() == logged.aborted.len()
}

/// Offers a fragment with these times.
fn answer_offered(
    offered: &mut Offered,
    alloc: Global,
    logged: LoggedFragment,
    spans: &[Span],
) -> Reply
    ensures { OffersStrictly offered.old logged spans.now result offered.new }
{
    match offered.offer(alloc, logged, spans) {
        Ok(()) => Reply::Done,
        Err(refusal) => Reply::No(refusal),
    }
}

/// Takes an offer without times.
fn answer_offer(
    offered: &mut Offered,
    alloc: Global,
    version: Version,
    logged: LoggedFragment,
) -> Reply
    ensures { AnswersStrict version offered.old (Command.Offer logged) result offered.new }
{
    if version.has_form(&logged) {
        answer_offered(offered, alloc, logged, &[])
    } else {
        Reply::No(Refusal::BadLine)
    }
}

/// Offers a fragment with the times of its line, if they are as many as its transactions.
fn offer_timed(
    offered: &mut Offered,
    alloc: Global,
    logged: LoggedFragment,
    began: &[u64],
    ended: &[u64],
) -> Result<Reply, NoMemory>
    ensures { IfOk result (λ answer. OffersTimed offered.old logged began.now ended.now answer offered.new) }
{
    if !has_its_times(&logged, began, ended) {
        return Ok(Reply::No(Refusal::BadLine));
    }
    let spans = spans_of(alloc, began, ended)?;
    Ok(answer_offered(offered, alloc, logged, spans.as_slice()))
}

/// Takes an offer with times.
fn answer_timed(
    offered: &mut Offered,
    alloc: Global,
    version: Version,
    logged: LoggedFragment,
    began: &[u64],
    ended: &[u64],
) -> Result<Reply, NoMemory>
    ensures { IfOk result (λ answer. AnswersStrict version offered.old (Command.OfferTimed logged began.now ended.now) answer offered.new) }
{
    if version.has_form(&logged) {
        offer_timed(offered, alloc, logged, began, ended)
    } else {
        Ok(Reply::No(Refusal::BadLine))
    }
}

/// An engine that has what was offered rewritten, and nothing else.
fn engine_of(alloc: Global, offered: &Offered) -> Result<OpenEngine, NoMemory>
    ensures { IfOk result (λ engine. engine ≡ engine_over (strict_parts offered.now)) }
{
    let parts = offered.parts(alloc)?;
    match OpenEngine::over(alloc, parts) {
        Ok(engine) => Ok(engine),
        Err(_) => Err(AllocError),
    }
}

/// The report with this number.
fn numbered(report: Report, round: u64) -> Report
    ensures { result ≡ record report { round = round } }
{
    let Report {
        round: _,
        kind,
        counts,
        certificate,
    } = report;
    Report {
        round,
        kind,
        counts,
        certificate,
    }
}

/// Makes a round over all that was offered. Whatever memory it takes is given back with its end.
fn answer_round<P: PlainSolver, S: Solver>(
    offered: &mut Offered,
    alloc: Global,
    effort: Effort,
    solvers: &Solvers<P, S>,
) -> Reply
    requires plain { P.ready }
    requires guided { S.ready }
    requires effort { IsEffort effort.budget effort.depth effort.workers }
    ensures { RoundsStrictly offered.old effort.search effort.budget effort.depth effort.workers result offered.new }
{
    if let Err(refusal) = offered.may_begin() {
        return Reply::No(refusal);
    }
    let Ok(engine) = engine_of(alloc, offered) else {
        return Reply::No(Refusal::NoMemory);
    };
    let mut engine = engine;
    match make_round(&mut engine, alloc, effort, solvers) {
        StepReply::Report(report) => {
            let round = offered.finish_round();
            report_of(numbered(report, round))
        }
        _ => Reply::No(Refusal::NoMemory),
    }
}

/// The reply to a command of a script that is asked for strict serializability.
pub(crate) fn answer_strict<'s, E, R: Threads, P: PlainSolver + Sync, S: Solver + Sync>(
    offered: &mut Offered,
    means: &Means<'_, 's, E, R, P, S>,
    version: Version,
    command: Command,
) -> Result<Reply, NoMemory>
    requires plain { P.ready }
    requires guided { S.ready }
    requires limits { HasLimits command }
    ensures { IfOk result (λ answer. AnswersStrict version offered.old command answer offered.new) }
{
    let alloc = means.alloc;
    match command {
        Command::Offer(logged) => Ok(answer_offer(offered, alloc, version, logged)),
        Command::OfferTimed {
            logged,
            began,
            ended,
        } => {
            answer_timed(
                offered,
                alloc,
                version,
                logged,
                began.as_slice(),
                ended.as_slice(),
            )
        }
        Command::Round {
            budget,
            depth,
            workers,
            search,
        } => {
            let effort = Effort {
                budget,
                depth,
                workers,
                search,
            };
            Ok(answer_round(offered, alloc, effort, means.solvers))
        }
        _ => Ok(Reply::No(Refusal::BadLine)),
    }
}
