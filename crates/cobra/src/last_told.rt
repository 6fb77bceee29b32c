//! The order that a search told last: it is told again where nothing has come or gone since, and no search is made.
ghost use Rattle.std.specs.Prelude.{◌≡◌, ℕ, IfSome};
ghost use Rattle.polygraph.specs.declared.solving.Answer.TheVariants as answers;
ghost use Rattle.round_state.specs.EngineState.{EngineState};
ghost use Rattle.round_state.specs.Steps.{StepsTo};
ghost use Rattle.cobra.specs.LastTold.{Fits};
ghost use Rattle.cobra.specs.Scripts.{Finishes};
ghost use Rattle.cobra.specs.Searches.{MayAnswerOf};

use background_search::{Effort, is_same};
use log_text::Search;
use round_state::{Certificate, Step, StepReply};
use txn::{Sequence, TxnId};

/// An order, and what the search that told it was given. Workers make no difference to it.
#[derive(Drop, Debug)]
pub(crate) struct Told {
    pub search: Search,
    pub budget: u64,
    pub depth: u64,
    pub order: Sequence<TxnId>,
}

/// What is kept from one search to the next.
#[derive(Drop, Debug)]
pub(crate) struct LastTold {
    /// Whether nothing has come or gone since the open round began.
    pub still: bool,
    /// What was told of all that is there.
    pub told: Option<Told>,
}

/// A copy, unless memory is wanting.
fn copy_of(order: &Sequence<TxnId>) -> Option<Sequence<TxnId>>
    ensures { IfSome result (λ copy. copy ≡ order.now) }
{
    match order.clone() {
        Ok(copy) => Some(copy),
        Err(_) => None,
    }
}

/// The order that the certificate has, as such a search told it.
fn told_by(certificate: &Certificate, effort: Effort) -> Option<Told>
    ensures order { IfSome result (λ told. certificate.now ≡ Certificate.Order told.order) }
    ensures search { IfSome result (λ told. (told.search ≡ effort.search) × (told.budget ≡ effort.budget) × (told.depth ≡ effort.depth)) }
{
    match certificate {
        Certificate::Order(order) => {
            let order = copy_of(order)?;
            Some(Told {
                search: effort.search,
                budget: effort.budget,
                depth: effort.depth,
                order,
            })
        }
        _ => None,
    }
}

impl LastTold {
    /// Nothing is kept.
    pub(crate) fn nothing() -> LastTold
        ensures { (engine : EngineState) → Fits engine result }
    {
        LastTold {
            still: false,
            told: None,
        }
    }

    /// A round has begun.
    pub(crate) fn begin(&mut self)
        ensures { (old new : EngineState) → Fits old self.old → StepsTo old Step.Begin StepReply.Done new → Fits new self.new }
    {
        self.still = true;
    }

    /// The order that such a search told of what the open round is about.
    pub(crate) fn again(&self, effort: Effort) -> Option<Sequence<TxnId>>
        ensures { IfSome result (λ order. (engine : EngineState) → Fits engine self.now → MayAnswerOf effort.search engine.asked effort.budget effort.depth (answers.Yes order)) }
    {
        let Some(told) = &self.told else {
            return None;
        };
        if !self.still || told.budget != effort.budget || told.depth != effort.depth {
            return None;
        }
        if !is_same(told.search, effort.search) {
            return None;
        }
        copy_of(&told.order)
    }

    /// What is kept after this reply to a finish by such a search.
    pub(crate) fn after(&self, said: &StepReply, effort: Effort) -> LastTold
        ensures { (old new : EngineState) → Fits old self.now → Finishes old effort.search effort.budget effort.depth effort.workers said.now new → Fits new result }
    {
        if !self.still {
            return LastTold::nothing();
        }
        match said {
            StepReply::Report(report) => LastTold {
                still: false,
                told: told_by(&report.certificate, effort),
            },
            _ => LastTold::nothing(),
        }
    }
}
