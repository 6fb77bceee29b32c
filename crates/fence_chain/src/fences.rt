ghost use Rattle.std.specs.Prelude.{◌↔◌, IfOk, OnOk, IsTrue};
ghost use Rattle.txn.specs.Transactions.{IsFence};
ghost use Rattle.fence_chain.specs.Chains.{IsRemainingFence};
ghost use Rattle.fence_chain.specs.Picked.{AreInOrder, IsPicked, PicksOne};

use order_check::Parts;
use std::alloc::Global;
use txn::{EPOCH, NoMemory, Txn, TxnId};

fn is_fence(txn: &Txn) -> bool
    ensures { IsTrue result ↔ IsFence txn.now }
{
    match (txn.reads.as_slice(), txn.writes.as_slice()) {
        ([read], [key]) => read.0 == EPOCH && *key == EPOCH,
        _ => false,
    }
}

fn is_remaining_fence(parts: &Parts, id: TxnId) -> bool
    ensures { IsTrue result ↔ IsRemainingFence parts.now id }
{
    match parts.remaining_at(id) {
        Some(txn) => is_fence(txn),
        None => false,
    }
}

fn push_fence(fences: &mut Vec<TxnId>, parts: &Parts, id: TxnId) -> Result<(), NoMemory>
    ensures { OnOk result (PicksOne (IsRemainingFence parts.now) id fences.old.items fences.new.items) }
{
    if !is_remaining_fence(parts, id) {
        return Ok(());
    }
    fences.push(id)?;
    Ok(())
}

/// Those of the ids that are remaining fences.
#[tactic(auto, using(crate::proofs::Picking::picked_none, crate::proofs::Picking::picked_all))]
pub fn fences_among(alloc: Global, parts: &Parts, ids: &[TxnId]) -> Result<Vec<TxnId>, NoMemory>
    requires { AreInOrder ids.now }
    ensures { IfOk result (λ fences. IsPicked (IsRemainingFence parts.now) ids.now fences.items) }
{
    let mut fences = Vec::new(alloc);
    for id in ids {
        push_fence(&mut fences, parts, *id)?;
    }
    Ok(fences)
}
