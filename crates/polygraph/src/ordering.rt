ghost use Rattle.std.specs.Prelude.{◌≡◌, IfOk, OnOk};
ghost use Rattle.std.specs.Ordering.{nat_cmp};
ghost use Rattle.std.specs.List.Sorted.{IsNonDecreasingBy, IsPermutation, IsStableByKey};
ghost use Rattle.order_check.specs.Explains.{KeepsSessions};
ghost use Rattle.order_check.specs.Search.{HasCycle};
ghost use Rattle.order_check.specs.TakenSides.{KeepsAllKnown};
ghost use Rattle.clock_choices.specs.BranchState.{assumed};
ghost use Rattle.clock_choices.specs.Ranks.{ids_of};

use clock_choices::{Branch, Rank};
use std::alloc::Global;
use txn::{NoMemory, Sequence, TxnId};

/// Sorts by the counts. Of those with one count each stays behind the ones that it stood behind.
fn sort_by_count(ranks: &mut Vec<Rank>) -> Result<(), NoMemory>
    ensures permutation { IsPermutation ranks.old.items ranks.new.items }
    ensures sorted { OnOk result (IsNonDecreasingBy (λ rank. rank.count) ranks.new.items) }
    ensures stable { IsStableByKey (λ rank. rank.count) nat_cmp ranks.old.items ranks.new.items }
{
    ranks.sort_by_key(|rank| rank.count)
}

/// The ids that are ranked.
fn ids_among(alloc: Global, ranks: &[Rank]) -> Result<Vec<TxnId>, NoMemory>
    ensures { IfOk result (λ ids. ids.items ≡ ids_of ranks.now) }
{
    let mut ids = Vec::new(alloc);
    for rank in ranks {
        ids.push(rank.id)?;
    }
    Ok(ids)
}

/// An order that keeps what is known, where that has no cycle: by how many are known to come before each, since what is known
/// to come before one comes before whatever that one does.
pub fn order_of(alloc: Global, branch: &Branch) -> Result<Sequence<TxnId>, NoMemory>
    requires { ¬ HasCycle branch.now.parts (assumed branch.now.levels) }
    ensures sessions { IfOk result (KeepsSessions branch.now.parts) }
    ensures known { IfOk result (KeepsAllKnown branch.now.parts (assumed branch.now.levels)) }
{
    let mut ranks = branch.ranks(alloc)?;
    sort_by_count(&mut ranks)?;
    let ids = ids_among(alloc, &ranks)?;
    let order = Sequence::new(ids);
    Ok(order)
}
