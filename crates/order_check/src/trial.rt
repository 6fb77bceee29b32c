ghost use Rattle.std.specs.Prelude.{◌≡◌, ◌↔◌, ◌≤◌, ◌<◌, ◌+◌, length, sum_by, IfOk, MatchOption};
ghost use Rattle.order_check.specs.Good.{IsGood};
ghost use Rattle.order_check.specs.Explains.{Explains};
ghost use Rattle.order_check.specs.Fronts.{HasOrderFrom, HasOrderInto, next_of, Tells};
ghost use Rattle.order_check.specs.Verdict.{HasOrder, IsVerdict};
ghost use Rattle.order_check.specs.declared.remainder.Kind.{Kind};

use crate::explaining::explains;
use crate::remainder::{Kind, Parts};
use std::alloc::Global;
use txn::{NoMemory, Sequence, TxnId};

/// The id of the session that follows those of the front, where one remains.
fn next_of(parts: &Parts, front: &[TxnId], session: u8) -> Option<TxnId>
    requires { IsGood parts.now }
    ensures { result ≡ next_of parts.now front.now session }
{
    let place = front.iter().filter(|id| session == id.session).count();
    if place < parts.remaining_of(session).len() {
        Some(TxnId {
            session,
            number: parts.mark_of(session) + place as u64,
        })
    } else {
        None
    }
}

/// Tries each order that begins with the front and has as many more ids.
#[cycle(trial)]
fn extend(
    alloc: Global,
    parts: &Parts,
    front: &mut Vec<TxnId>,
    more: usize,
) -> Result<bool, NoMemory>
    requires good { IsGood parts.now }
    requires whole { length front.old.items + more ≡ sum_by length parts.now.remain }
    ensures { IfOk result (λ found. Tells parts.now front.old.items front.new.items found (HasOrderFrom parts.now front.old.items)) }
{
    if more == 0 {
        return explains(alloc, parts, front);
    }
    for session in 0..parts.sessions() {
        if extend_into(alloc, parts, front, more, session as u8)? {
            return Ok(true);
        }
    }
    Ok(false)
}

/// The same, with an id of the session next.
#[cycle(trial)]
fn extend_into(
    alloc: Global,
    parts: &Parts,
    front: &mut Vec<TxnId>,
    more: usize,
    session: u8,
) -> Result<bool, NoMemory>
    requires good { IsGood parts.now }
    requires some { 0 < more }
    requires whole { length front.old.items + more ≡ sum_by length parts.now.remain }
    ensures { IfOk result (λ found. Tells parts.now front.old.items front.new.items found (HasOrderInto parts.now front.old.items session)) }
{
    let Some(id) = next_of(parts, front, session) else {
        return Ok(false);
    };
    front.push(id)?;
    let found = extend(alloc, parts, front, more - 1)?;
    if !found {
        front.pop();
    }
    Ok(found)
}

/// An order that explains the parts, where there is one, by trial of all orders.
pub fn find_order(alloc: Global, parts: &Parts) -> Result<Option<Sequence<TxnId>>, NoMemory>
    requires good { IsGood parts.now }
    requires few { sum_by length parts.now.remain ≤ 8 }
    ensures { IfOk result (λ found. MatchOption found (¬ HasOrder parts.now) (Explains parts.now)) }
{
    let count = parts.remaining_count();
    let mut order = Vec::with_capacity(alloc, count)?;
    if extend(alloc, parts, &mut order, count)? {
        Ok(Some(Sequence::new(order)))
    } else {
        Ok(None)
    }
}

/// The verdict on the parts, by trial of all orders.
pub fn brute(alloc: Global, parts: &Parts) -> Result<Kind, NoMemory>
    requires good { IsGood parts.now }
    requires few { sum_by length parts.now.remain ≤ 8 }
    ensures { IfOk result (λ kind. (other : Kind) → IsVerdict parts.now other ↔ (other ≡ kind)) }
{
    if find_order(alloc, parts)?.is_none() {
        Ok(Kind::Violated)
    } else if parts.has_pending() {
        Ok(Kind::Pending)
    } else {
        Ok(Kind::Serial)
    }
}
