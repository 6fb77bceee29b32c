ghost use Rattle.std.specs.Prelude.{◌≡◌, IfOk, None};
ghost use Rattle.log_text.specs.Commands.{HasLimits};
ghost use Rattle.log_text.specs.Replies.{HasKindOfOrder};
ghost use Rattle.round_state.specs.EngineState.{EngineState};
ghost use Rattle.round_state.specs.Runs.{Holds};
ghost use Rattle.round_state.specs.Steps.{StepsTo};
ghost use Rattle.cobra.specs.Scripts.{IsTakenIn};
ghost use Rattle.report_checking.specs.Owing.{IsEarned, IsPlain, IsStep, OwesFinish, OwesRound, OwesOpen};
ghost use Rattle.report_checking.specs.Reading.{Leads, IsOwedBy, IsToldOf, Earns, OfRight, OwesText, IsTakenAs, IsRefusedBy, Gives, IsAlone, Unshows, unshown_of};
ghost use Rattle.report_checking.specs.Unshown.{ShowsWrongOf, EndsWrong};

use crate::certificates::answer_told;
use crate::findings::{Owed, Unshown};
use crate::replayed::Replayed;
use cobra::{claim_of, reply_of, report_of, saved_told, state_told};
use log_text::{Command, Names, Reply, Version};
use logged_fragments::LoggedFragment;
use polygraph::Answer;
use round_state::{Step, StepReply};
use std::alloc::{AllocError, Global};
use txn::{NoMemory, Refusal};

/// What isn't so where this answer is wrong.
fn unshown_by(answer: &Answer) -> Unshown
    ensures { result ≡ unshown_of answer.now }
{
    match answer {
        Answer::Yes(_) => Unshown::Order,
        Answer::No(_) | Answer::Spent | Answer::NoMemory => Unshown::Refutation,
    }
}

/// What is owed to a step that isn't a finish.
pub(crate) fn owed_step(engine: &mut Replayed, alloc: Global, step: Step) -> Result<Owed, NoMemory>
    requires { IsPlain step }
    ensures owed { IfOk result (IsOwedBy (λ answer. Leads engine.old engine.new (λ before after. IsStep before step answer after))) }
    ensures told { IfOk result (IsToldOf engine.old step) }
{
    let said = engine.step(alloc, step);
    Ok(Owed::Reply(reply_of(alloc, said)?))
}

/// What is owed to a finish, whose report is what the certificate earns that the stored reply tells by these names.
pub(crate) fn owed_finish(
    engine: &mut Replayed,
    alloc: Global,
    names: Names,
    stored: &[u8],
) -> Result<Owed, NoMemory>
    ensures owed { IfOk result (IsOwedBy (λ answer. Leads engine.old engine.new (λ before after. OwesFinish before answer after))) }
    ensures right { IfOk result (λ owed. OfRight names (IsEarned engine.old) stored.now (λ text. OwesText names text owed)) }
    ensures unshown { IfOk result (Unshows (ShowsWrongOf names stored.now engine.old.asked)) }
    ensures none { IfOk result (λ owed. engine.old.asked ≡ None → owed ≡ Owed.Reply (Reply.No Refusal.NoRound)) }
{
    let answer = answer_told(alloc, names, stored)?;
    let unshown = unshown_by(&answer);
    match engine.finish(alloc, answer) {
        Ok(report) => Ok(Owed::Reply(report_of(report))),
        Err(Refusal::NoRound) => Ok(Owed::Reply(Reply::No(Refusal::NoRound))),
        Err(Refusal::BadCertificate) => Ok(Owed::Nothing(unshown)),
        Err(_) => Err(AllocError),
    }
}

fn owed_round(
    engine: &mut Replayed,
    alloc: Global,
    names: Names,
    stored: &[u8],
) -> Result<Owed, NoMemory>
    ensures owed { IfOk result (IsOwedBy (λ answer. Leads engine.old engine.new (λ before after. OwesRound before answer after))) }
    ensures right { IfOk result (λ owed. (begun : EngineState) → StepsTo engine.old Step.Begin StepReply.Done begun → OfRight names (IsEarned begun) stored.now (λ text. OwesText names text owed)) }
    ensures unshown { IfOk result (Unshows (λ why. (begun : EngineState) × StepsTo engine.old Step.Begin StepReply.Done begun × ShowsWrongOf names stored.now begun.asked why)) }
    ensures refused { IfOk result (IsAlone (IsRefusedBy engine.old Step.Begin)) }
{
    match engine.step(alloc, Step::Begin) {
        StepReply::Done => owed_finish(engine, alloc, names, stored),
        refused => Ok(Owed::Reply(reply_of(alloc, refused)?)),
    }
}

/// What is owed to an offer.
fn owed_offer(
    engine: &mut Replayed,
    alloc: Global,
    version: Version,
    logged: LoggedFragment,
) -> Result<Owed, NoMemory>
    ensures owed { IfOk result (IsOwedBy (λ answer. Leads engine.old engine.new (λ before after. IsTakenIn version logged before answer after (IsStep before (Step.Offer logged) answer after)))) }
    ensures told { IfOk result (IsTakenAs version engine.old logged (Step.Offer logged)) }
{
    if version.has_form(&logged) {
        owed_step(engine, alloc, Step::Offer(logged))
    } else {
        Ok(Owed::Reply(Reply::No(Refusal::BadLine)))
    }
}

/// The same of a join.
fn owed_join(
    engine: &mut Replayed,
    alloc: Global,
    version: Version,
    logged: LoggedFragment,
) -> Result<Owed, NoMemory>
    ensures owed { IfOk result (IsOwedBy (λ answer. Leads engine.old engine.new (λ before after. IsTakenIn version logged before answer after (IsStep before (Step.Join logged) answer after)))) }
    ensures told { IfOk result (IsTakenAs version engine.old logged (Step.Join logged)) }
{
    if version.has_form(&logged) {
        owed_step(engine, alloc, Step::Join(logged))
    } else {
        Ok(Owed::Reply(Reply::No(Refusal::BadLine)))
    }
}

/// What is owed to a command that is about an engine alone, for lines of this version, where the stored reply tells by these names.
pub(crate) fn owed_open(
    engine: &mut Replayed,
    alloc: Global,
    version: Version,
    names: Names,
    command: Command,
    stored: &[u8],
) -> Result<Owed, NoMemory>
    ensures owed { IfOk result (IsOwedBy (λ answer. Leads engine.old engine.new (λ before after. OwesOpen version before command answer after))) }
    ensures right { IfOk result (λ owed. OfRight names (Earns engine.old command) stored.now (λ text. OwesText names text owed)) }
    ensures unshown { IfOk result (Unshows (EndsWrong names engine.old command stored.now)) }
    ensures alone { IfOk result (IsAlone (Gives version engine.old command)) }
{
    match command {
        Command::Offer(logged) => owed_offer(engine, alloc, version, logged),
        Command::Join(logged) => owed_join(engine, alloc, version, logged),
        Command::Close(session) => owed_step(engine, alloc, Step::Close(session)),
        Command::Begin => owed_step(engine, alloc, Step::Begin),
        Command::Finish { .. } => owed_finish(engine, alloc, names, stored),
        Command::Round { .. } => owed_round(engine, alloc, names, stored),
        Command::Answer(shown) => owed_step(engine, alloc, Step::Judge(claim_of(shown))),
        Command::Truncate => owed_step(engine, alloc, Step::Truncate),
        Command::Rebuild => owed_step(engine, alloc, Step::Rebuild),
        Command::Show => Ok(Owed::Reply(state_told(alloc, engine.engine())?)),
        Command::Save(wanted) => Ok(Owed::Reply(saved_told(alloc, engine.engine(), wanted)?)),
        Command::BeginSearch { .. } => Ok(Owed::Reply(Reply::No(Refusal::BadLine))),
        Command::Collect { .. } => Ok(Owed::Reply(Reply::No(Refusal::BadLine))),
        Command::Skip => Ok(Owed::Reply(Reply::No(Refusal::BadLine))),
        Command::Start { .. } => Ok(Owed::Reply(Reply::No(Refusal::BadLine))),
        Command::OfferTimed { .. } => Ok(Owed::Reply(Reply::No(Refusal::BadLine))),
        Command::Resume { .. } => Ok(Owed::Reply(Reply::No(Refusal::BadLine))),
        Command::Marks { .. } => Ok(Owed::Reply(Reply::No(Refusal::BadLine))),
        Command::MarksBegun { .. } => Ok(Owed::Reply(Reply::No(Refusal::BadLine))),
        Command::Last(_) => Ok(Owed::Reply(Reply::No(Refusal::BadLine))),
        Command::Resumed => Ok(Owed::Reply(Reply::No(Refusal::BadLine))),
    }
}
