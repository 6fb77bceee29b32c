ghost use Rattle.std.specs.Prelude.{[], Contains, IfOk};
ghost use Rattle.txn.specs.declared.transactions.TxnId.{TxnId};
ghost use Rattle.order_check.specs.Explains.{Explains};
ghost use Rattle.order_check.specs.Known.{Known};
ghost use Rattle.settle.specs.Found.{IsFound};
ghost use Rattle.settle.specs.Lines.{IsCutOrNone, IsFoundAmong, IsOrderedChain, IsOrderedFence};

use crate::cuts::Cut;
use crate::lines::{are_past, none_waits};
use crate::writers::last_writers;
use clock_choices::Saturated;
use fence_chain::{chain, ids_in_front};
use order_check::cycle_leaves_no_order;
use polygraph::Problem;
use std::alloc::Global;
use txn::{NoMemory, Sequence, TxnId};

/// The cut at the fence, where it is settled.
fn cut_at(alloc: Global, known: &Saturated, fence: TxnId) -> Result<Option<Cut>, NoMemory>
    requires acyclic { (id : TxnId) → ¬ Known known.now.parts [] id id }
    requires fence { IsOrderedFence known.now.parts fence }
    ensures { IfOk result (IsCutOrNone known.now.parts fence) }
{
    if !are_past(known, fence) {
        return Ok(None);
    }
    let front = ids_in_front(alloc, known, fence)?;
    if !none_waits(known.parts(), front.as_slice()) {
        return Ok(None);
    }
    let Some(last) = last_writers(alloc, known, fence, front.as_slice())? else {
        return Ok(None);
    };
    Ok(Some(Cut {
        fence,
        gone: Sequence::new(front),
        last,
    }))
}

/// The cut at the last of the fences that is settled.
#[tactic(auto, using(crate::proofs::Found::left_all, crate::proofs::Found::left_less, crate::proofs::Found::left_none))]
fn last_cut(
    alloc: Global,
    known: &Saturated,
    mut fences: Vec<TxnId>,
) -> Result<Option<Cut>, NoMemory>
    requires acyclic { (id : TxnId) → ¬ Known known.now.parts [] id id }
    requires fences { (id : TxnId) → Contains fences.items id → IsOrderedFence known.now.parts id }
    ensures { IfOk result (IsFoundAmong known.now.parts fences.items) }
{
    while let Some(fence) = fences.pop() {
        if let Some(cut) = cut_at(alloc, known, fence)? {
            return Ok(Some(cut));
        }
    }
    Ok(None)
}

/// The fences that each other remaining transaction comes before or after, in known order.
fn ordered_chain(alloc: Global, known: &Saturated) -> Result<Vec<TxnId>, NoMemory>
    ensures { IfOk result (λ fences. IsOrderedChain known.now.parts fences.items) }
{
    let ids = known.ids(alloc)?;
    let fences = chain(alloc, known)?;
    let ordered = known.ordered_with_all(alloc, fences.as_slice(), ids.as_slice())?;
    Ok(ordered)
}

/// The cut that is found where the relation has no cycle.
#[tactic(auto, using(crate::proofs::Found::found_is))]
fn find_known(alloc: Global, known: &Saturated) -> Result<Option<Cut>, NoMemory>
    requires { (id : TxnId) → ¬ Known known.now.parts [] id id }
    ensures { IfOk result (IsFound known.now.parts) }
{
    let fences = ordered_chain(alloc, known)?;
    let found = last_cut(alloc, known, fences)?;
    Ok(found)
}

/// Where an order explains the parts, no transaction is known to come before itself. It does nothing.
fn has_no_cycle(known: &Saturated, order: &[TxnId])
    requires { Explains known.now.parts order.now }
    ensures { (id : TxnId) → ¬ Known known.now.parts [] id id }
{
    known.parts();
    // A law that the proof cites. It does nothing when it runs.
    cycle_leaves_no_order();
}

/// The cut at the settled fence that comes after all other settled ones, where some fence is settled. The open sessions are
/// those of the parts that the relation is about. The order only shows that there is one.
pub fn find_in(alloc: Global, known: &Saturated, order: &[TxnId]) -> Result<Option<Cut>, NoMemory>
    requires { Explains known.now.parts order.now }
    ensures { IfOk result (IsFound known.now.parts) }
{
    has_no_cycle(known, order);
    let found = find_known(alloc, known)?;
    Ok(found)
}

/// The same in the parts that a problem is about.
pub fn find(alloc: Global, problem: &Problem, order: &[TxnId]) -> Result<Option<Cut>, NoMemory>
    requires { Explains problem.now.known.parts order.now }
    ensures { IfOk result (IsFound problem.now.known.parts) }
{
    find_in(alloc, problem.known(), order)
}
