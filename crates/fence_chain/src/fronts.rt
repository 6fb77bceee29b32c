ghost use Rattle.std.specs.Prelude.{◌↔◌, Contains, IfOk, OnOk, IsTrue};
ghost use Rattle.txn.specs.declared.transactions.TxnId.{TxnId};
ghost use Rattle.txn.specs.Transactions.{Rises, id_below};
ghost use Rattle.order_check.specs.Based.{Remains};
ghost use Rattle.order_check.specs.Settled.{InFront};
ghost use Rattle.fence_chain.specs.Picked.{AreInOrder, IsPicked, PicksOne};

use clock_choices::Saturated;
use std::alloc::Global;
use txn::{NoMemory, TxnId};

fn is_in_front(known: &Saturated, fence: TxnId, id: TxnId) -> bool
    ensures { IsTrue result ↔ InFront known.now.parts fence id }
{
    id == fence || known.reaches(id, fence)
}

fn push_in_front(
    front: &mut Vec<TxnId>,
    known: &Saturated,
    fence: TxnId,
    id: TxnId,
) -> Result<(), NoMemory>
    ensures { OnOk result (PicksOne (InFront known.now.parts fence) id front.old.items front.new.items) }
{
    if !is_in_front(known, fence, id) {
        return Ok(());
    }
    front.push(id)?;
    Ok(())
}

#[tactic(auto, using(crate::proofs::Picking::picked_none, crate::proofs::Picking::picked_all))]
fn front_among(
    alloc: Global,
    known: &Saturated,
    fence: TxnId,
    ids: &[TxnId],
) -> Result<Vec<TxnId>, NoMemory>
    requires { AreInOrder ids.now }
    ensures { IfOk result (λ front. IsPicked (InFront known.now.parts fence) ids.now front.items) }
{
    let mut front = Vec::new(alloc);
    for id in ids {
        push_in_front(&mut front, known, fence, *id)?;
    }
    Ok(front)
}

/// What stands in front of a transaction: itself and all that is known to come before it, in order of id.
pub fn ids_in_front(alloc: Global, known: &Saturated, fence: TxnId) -> Result<Vec<TxnId>, NoMemory>
    requires { Remains known.now.parts fence }
    ensures rise { IfOk result (λ front. Rises id_below front.items) }
    ensures members { IfOk result (λ front. (id : TxnId) → Contains front.items id ↔ InFront known.now.parts fence id) }
{
    let ids = known.ids(alloc)?;
    let front = front_among(alloc, known, fence, ids.as_slice())?;
    Ok(front)
}
