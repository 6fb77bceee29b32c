//! Single steps of an engine, each with what it is by law.
ghost use Rattle.std.specs.Prelude.{◌≡◌, None, IfErr, IfOk, IsSome, IsSomeAnd};
ghost use Rattle.polygraph.specs.Solving.{IsLawful};
ghost use Rattle.round_state.specs.Runs.{StepsLegally};
ghost use Rattle.round_state.specs.Steps.{StepsTo};
ghost use Rattle.live_audit.specs.CoreState.{Search};
ghost use Rattle.live_audit.specs.Takes.{TakesIn, BeginsBy, Finishes, Forgets};

use fragment_intake::Item;
use polygraph::{Answer, Problem};
use report_queue::Entry;
use round_state::{Engine, Report, Step, StepReply};
use settle::Cut;
use std::alloc::Global;
use txn::Refusal;

/// Offers the item's fragment, lets its session join, or closes it.
pub(crate) fn take_in(alloc: Global, engine: &mut Engine, item: Item) -> Result<(), Refusal>
    ensures taken { TakesIn engine.old item result engine.new }
    ensures round { (engine.new.asked ≡ engine.old.asked) × (engine.new.rounds ≡ engine.old.rounds) }
{
    engine.right_is_legal();
    match item {
        Item::Fragment(logged) => engine.offer(alloc, logged),
        Item::Join(logged) => engine.join(alloc, logged),
        Item::Close(session) => engine.close(session),
        Item::End => Ok(()),
    }
}

/// Begins a round, or tells that it was skipped.
pub(crate) fn begin(alloc: Global, engine: &mut Engine) -> Result<Problem, Entry>
    requires { engine.old.asked ≡ None }
    ensures { BeginsBy engine.old result engine.new }
{
    engine.right_is_legal();
    match engine.begin(alloc) {
        Ok(problem) => Ok(problem),
        Err(refusal) => Err(Entry::Skipped(refusal)),
    }
}

/// Finishes the open round, unless memory is wanting: it is still open then.
pub(crate) fn finish(alloc: Global, engine: &mut Engine, answer: Answer) -> Option<Report>
    ensures { (search : Search) → IsSomeAnd engine.old.asked (λ parts. IsLawful parts search.budget search.depth answer) → Finishes search engine.old result engine.new }
{
    engine.right_is_legal();
    match engine.finish_lawfully(alloc, answer) {
        Ok(report) => Some(report),
        Err(_) => None,
    }
}

/// Applies the cut that is held, or tells why there is none to apply, or that memory is wanting.
fn truncated(alloc: Global, engine: &mut Engine) -> Result<Cut, Refusal>
    ensures ok { IfOk result (λ cut. StepsTo engine.old Step.Truncate (StepReply.Cut cut) engine.new) }
    ensures err { IfErr result (λ refusal. StepsTo engine.old Step.Truncate (StepReply.Refused refusal) engine.new) }
{
    engine.truncate(alloc)
}

/// Applies the cut that is held, if one is.
pub(crate) fn forget(alloc: Global, engine: &mut Engine) -> Option<Entry>
    requires { engine.old.asked ≡ None }
    ensures forgot { Forgets engine.old result engine.new }
    ensures round { (engine.new.asked ≡ None) × (engine.new.rounds ≡ engine.old.rounds) }
{
    engine.right_is_legal();
    match truncated(alloc, engine) {
        Ok(cut) => Some(Entry::Cut(cut)),
        Err(_) => None,
    }
}

/// Abandons the open round.
pub(crate) fn give_up(engine: &mut Engine)
    requires { IsSome engine.old.asked }
    ensures legal { StepsLegally engine.old Step.Abandon StepReply.Done engine.new }
    ensures round { (engine.new.asked ≡ None) × (engine.new.rounds ≡ engine.old.rounds) }
{
    engine.right_is_legal();
    let _ = engine.abandon();
}
