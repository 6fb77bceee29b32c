ghost use Rattle.std.specs.Prelude.{◌-◌, ◌<◌, ◌⊎◌, All, Contains, IfOk, OnOk};
ghost use Rattle.std.specs.List.{AllPairs};
ghost use Rattle.txn.specs.declared.transactions.TxnId.{TxnId};
ghost use Rattle.order_check.specs.Settled.{IsBefore};
ghost use Rattle.clock_choices.specs.OrderedAmong.{AreOrdered};
ghost use Rattle.fence_chain.specs.Chains.{IsChain};
ghost use Rattle.fence_chain.specs.Picked.{AreInOrder, IsBetween, IsPutIn, IsSorting};

use crate::fences::fences_among;
use clock_choices::Saturated;
use std::alloc::Global;
use txn::{NoMemory, TxnId};

/// Where the fence's place is between two places, the half of them in which it is.
fn half_of(
    known: &Saturated,
    fence: TxnId,
    chain: &[TxnId],
    low: usize,
    high: usize,
) -> (usize, usize)
    requires chained { AllPairs (IsBefore known.now.parts) chain.now }
    requires ordered { All (λ other. IsBefore known.now.parts other fence ⊎ IsBefore known.now.parts fence other) chain.now }
    requires some { low < high }
    requires between { IsBetween known.now.parts fence chain.now low high }
    ensures less { result.1 - result.0 < high - low }
    ensures between { IsBetween known.now.parts fence chain.now result.0 result.1 }
{
    let middle = low + (high - low) / 2;
    if known.reaches(fence, chain[middle]) {
        return (low, middle);
    }
    (middle + 1, high)
}

/// The first place whose fence is known to come after this one, found by halves.
fn place_of(known: &Saturated, fence: TxnId, chain: &[TxnId]) -> usize
    requires chained { AllPairs (IsBefore known.now.parts) chain.now }
    requires ordered { All (λ other. IsBefore known.now.parts other fence ⊎ IsBefore known.now.parts fence other) chain.now }
    ensures { IsBetween known.now.parts fence chain.now result result }
{
    let mut low = 0;
    let mut high = chain.len();
    while low < high {
        let half = half_of(known, fence, chain, low, high);
        low = half.0;
        high = half.1;
    }
    low
}

/// Puts the fence at its place of the chain.
fn put_in(chain: &mut Vec<TxnId>, known: &Saturated, fence: TxnId) -> Result<(), NoMemory>
    requires chained { AllPairs (IsBefore known.now.parts) chain.old.items }
    requires ordered { All (λ other. IsBefore known.now.parts other fence ⊎ IsBefore known.now.parts fence other) chain.old.items }
    ensures { OnOk result (IsPutIn known.now.parts fence chain.old.items chain.new.items) }
{
    let place = place_of(known, fence, chain.as_slice());
    chain.insert(place, fence)?;
    Ok(())
}

/// The fences, each behind those that are known to come before it.
#[tactic(auto, using(crate::proofs::Chained::sorting_none, crate::proofs::Chained::sorting_all))]
fn chain_of(alloc: Global, known: &Saturated, fences: &[TxnId]) -> Result<Vec<TxnId>, NoMemory>
    requires rise { AreInOrder fences.now }
    requires ordered { (a b : TxnId) → Contains fences.now a → Contains fences.now b → AreOrdered known.now.parts a b }
    ensures { IfOk result (λ chain. IsSorting known.now.parts fences.now chain.items) }
{
    let mut chain = Vec::new(alloc);
    for fence in fences {
        put_in(&mut chain, known, *fence)?;
    }
    Ok(chain)
}

/// The remaining fences that are known to come before or after every other one, in known order. Where there are n it asks some
/// n log n questions of the relation.
pub fn chain(alloc: Global, known: &Saturated) -> Result<Vec<TxnId>, NoMemory>
    ensures { IfOk result (λ fences. IsChain known.now.parts fences.items) }
{
    let ids = known.ids(alloc)?;
    let fences = fences_among(alloc, known.parts(), ids.as_slice())?;
    let all = fences.as_slice();
    let chained = known.ordered_with_all(alloc, all, all)?;
    let chain = chain_of(alloc, known, chained.as_slice())?;
    Ok(chain)
}
