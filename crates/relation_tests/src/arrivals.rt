//! Transactions and fragments that arrive at a saturation, where it is good that they come.
ghost use Rattle.std.specs.Prelude.{◌≡◌, ◌<◌, length, IfOk, OnOk};
ghost use Rattle.order_check.specs.Based.{received_count};
ghost use Rattle.order_check.specs.Good.{IsGood};
ghost use Rattle.order_check.specs.StandsFor.{parts_with};
ghost use Rattle.clock_choices.specs.SaturatedState.{fragment_of};

use clock_choices::Saturated;
use order_check::Parts;
use std::alloc::Global;
use std::process::Abort;
use txn::{Fragment, NoMemory, Sequence, Txn, TxnId};

/// A session, and how many transactions of it come together.
pub type Turn = (u8, u64);

pub fn saturated_of(rt: &impl Abort, alloc: Global, parts: &Parts) -> Result<Saturated, NoMemory>
    ensures { IfOk result (λ saturated. saturated.parts ≡ parts.now) }
{
    assert!(rt; parts.is_good());
    Saturated::of(alloc, parts)
}

/// One transaction alone.
fn alone(alloc: Global, id: TxnId, txn: &Txn) -> Result<Fragment, NoMemory>
    ensures { IfOk result (λ fragment. fragment ≡ fragment_of id txn.now) }
{
    let mut txns = Vec::with_capacity(alloc, 1)?;
    txns.push(txn.clone()?)?;
    Ok(Fragment {
        session: id.session,
        first: id.number,
        txns: Sequence::new(txns),
    })
}

/// The parts with the fragment at the end of its session.
fn with_fragment(parts: &Parts, fragment: &Fragment) -> Result<Parts, NoMemory>
    requires { fragment.now.session < length parts.now.remain }
    ensures { IfOk result (λ more. more ≡ parts_with parts.now fragment.now) }
{
    let txns = fragment.txns.clone()?;
    let mut more = parts.clone()?;
    more.remain.append_at(usize::from(fragment.session), txns)?;
    Ok(more)
}

/// Stops unless the fragment is that which comes next in its session.
fn is_next(rt: &impl Abort, saturated: &Saturated, fragment: &Fragment)
    ensures session { fragment.now.session < length saturated.now.parts.remain }
    ensures next { fragment.now.first ≡ received_count saturated.now.parts fragment.now.session }
{
    let parts = saturated.parts();
    assert!(rt; usize::from(fragment.session) < parts.sessions());
    assert!(rt; fragment.first == parts.received_count(fragment.session));
}

/// Stops unless it is good to add the fragment next.
fn may_come(rt: &impl Abort, saturated: &Saturated, fragment: &Fragment) -> Result<(), NoMemory>
    ensures session { OnOk result (fragment.now.session < length saturated.now.parts.remain) }
    ensures next { OnOk result (fragment.now.first ≡ received_count saturated.now.parts fragment.now.session) }
    ensures good { OnOk result (IsGood (parts_with saturated.now.parts fragment.now)) }
{
    is_next(rt, saturated, fragment);
    let more = with_fragment(saturated.parts(), fragment)?;
    assert!(rt; more.is_good());
    Ok(())
}

fn add_all(
    rt: &impl Abort,
    alloc: Global,
    saturated: &mut Saturated,
    fragment: &Fragment,
) -> Result<(), NoMemory> {
    may_come(rt, saturated, fragment)?;
    saturated.add_all(alloc, fragment)
}

pub fn add(
    rt: &impl Abort,
    alloc: Global,
    saturated: &mut Saturated,
    id: TxnId,
    txn: &Txn,
) -> Result<(), NoMemory>
    ensures { OnOk result (saturated.new.parts ≡ parts_with saturated.old.parts (fragment_of id txn.now)) }
{
    let fragment = alone(alloc, id, txn)?;
    may_come(rt, saturated, &fragment)?;
    saturated.add(alloc, id, txn)
}

/// What comes next of a session, at most so many transactions.
fn next_of(
    alloc: Global,
    whole: &Parts,
    saturated: &Saturated,
    turn: Turn,
) -> Result<Fragment, NoMemory> {
    let (session, count) = turn;
    let first = saturated.parts().received_count(session);
    let mut txns = Vec::new(alloc);
    for ahead in 0..count {
        let number = first.wrapping_add(ahead);
        if let Some(txn) = whole.remaining_at(TxnId { session, number }) {
            txns.push(txn.clone()?)?;
        }
    }
    Ok(Fragment {
        session,
        first,
        txns: Sequence::new(txns),
    })
}

/// Adds what comes next of a session: one transaction, or several together.
pub fn give(
    rt: &impl Abort,
    alloc: Global,
    whole: &Parts,
    saturated: &mut Saturated,
    turn: Turn,
) -> Result<(), NoMemory> {
    let fragment = next_of(alloc, whole, saturated, turn)?;
    let (session, number) = (fragment.session, fragment.first);
    match fragment.txns.as_slice() {
        [] => Ok(()),
        [txn] => add(rt, alloc, saturated, TxnId { session, number }, txn),
        _ => add_all(rt, alloc, saturated, &fragment),
    }
}
