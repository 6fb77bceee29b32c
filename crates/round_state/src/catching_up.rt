//! The known relation of the last round, kept until the next one: that of a front of the parts, which is caught up with what came since, where
//! that is little, in place of one that is made of the whole.
ghost use Rattle.std.specs.Prelude.{◌≡◌, ◌+◌, ◌<◌, ◌≤◌, drop, length, IfOk, IfSome, OnOk};
ghost use Rattle.order_check.specs.Cuts.{IsContentCutOff};
ghost use Rattle.order_check.specs.Good.{IsGood};
ghost use Rattle.round_state.specs.Behind.{IsBehind, IsCaughtBelow, IsClosedBelow, fragment_behind};

use clock_choices::Saturated;
use order_check::Parts;
use std::alloc::Global;
use txn::{Fragment, NoMemory, Sequence, Txn, TxnId};

/// So many transactions are few, however many remain.
const FEW: usize = 4;

/// Whether little came since the front: no more than a twenty-fourth of what is there, and a few. To add one costs as much as some fifteen do where
/// the whole is made.
fn is_little(front: &Parts, parts: &Parts) -> bool
    requires front { IsGood front.now }
    requires parts { IsGood parts.now }
{
    24 * parts.remaining_count() <= 25 * front.remaining_count() + 24 * FEW
}

/// A copy of the transactions behind the first so many.
fn copy_behind(alloc: Global, txns: &[Txn], there: usize) -> Result<Sequence<Txn>, NoMemory>
    requires { there ≤ length txns.now }
    ensures { IfOk result (λ copy. copy ≡ drop there txns.now) }
{
    let later = &txns[there..];
    Ok(Sequence::new(later.to_vec(alloc)?))
}

/// What came of a session since the front.
fn new_of(alloc: Global, front: &Parts, parts: &Parts, session: u8) -> Result<Fragment, NoMemory>
    requires good { IsGood front.now }
    requires behind { IsBehind front.now parts.now }
    ensures { IfOk result (λ fragment. fragment ≡ fragment_behind front.now parts.now session) }
{
    let there = front.remaining_of(session).len();
    let txns = copy_behind(alloc, parts.remaining_of(session), there)?;
    Ok(Fragment {
        session,
        first: front.received_count(session),
        txns,
    })
}

/// Adds what came of a session.
fn add_new(alloc: Global, known: &mut Saturated, parts: &Parts, session: u8) -> Result<(), NoMemory>
    requires good { IsGood parts.now }
    requires there { session < length parts.now.remain }
    requires before { IsCaughtBelow known.old.parts parts.now session }
    ensures { OnOk result (IsCaughtBelow known.new.parts parts.now (session + 1)) }
{
    let fragment = new_of(alloc, known.parts(), parts, session)?;
    if fragment.txns.is_empty() {
        return Ok(());
    }
    known.add_all(alloc, &fragment)
}

/// Adds what came.
fn add_all_new(alloc: Global, known: &mut Saturated, parts: &Parts) -> Result<(), NoMemory>
    requires good { IsGood parts.now }
    requires behind { IsBehind known.old.parts parts.now }
    ensures { OnOk result (IsClosedBelow known.new.parts parts.now 0) }
{
    let _ = known.parts();
    for session in 0..parts.sessions() {
        add_new(alloc, known, parts, session as u8)?;
    }
    Ok(())
}

/// Closes the session, if it was closed. What needn't be closed isn't: what additions look up is lost by it.
fn close_one(known: &mut Saturated, parts: &Parts, session: u8)
    requires there { session < length parts.now.remain }
    requires before { IsClosedBelow known.old.parts parts.now session }
    ensures { IsClosedBelow known.new.parts parts.now (session + 1) }
{
    if parts.is_closed(session) && !known.parts().is_closed(session) {
        known.close(session);
    }
}

/// Closes the sessions that were closed.
fn close_all_closed(known: &mut Saturated, parts: &Parts)
    requires good { IsGood parts.now }
    requires before { IsClosedBelow known.old.parts parts.now 0 }
    ensures { known.new.parts ≡ parts.now }
{
    for session in 0..parts.sessions() {
        close_one(known, parts, session as u8);
    }
}

/// The relation of a front, caught up with the parts. Nothing where too much came since, or memory is wanting.
fn caught_up(alloc: Global, kept: Option<Saturated>, parts: &Parts) -> Option<Saturated>
    requires good { IsGood parts.now }
    requires behind { IfSome kept (λ known. IsBehind known.parts parts.now) }
    ensures { IfSome result (λ known. known.parts ≡ parts.now) }
{
    let mut known = kept?;
    if !is_little(known.parts(), parts) || add_all_new(alloc, &mut known, parts).is_err() {
        return None;
    }
    close_all_closed(&mut known, parts);
    Some(known)
}

/// The known relation of the parts: that of a front, caught up, or one that is made of the whole.
pub(crate) fn known_of(
    alloc: Global,
    kept: Option<Saturated>,
    parts: &Parts,
) -> Result<Saturated, NoMemory>
    requires good { IsGood parts.now }
    requires behind { IfSome kept (λ known. IsBehind known.parts parts.now) }
    ensures { IfOk result (λ known. known.parts ≡ parts.now) }
{
    match caught_up(alloc, kept, parts) {
        Some(known) => Ok(known),
        None => Saturated::of(alloc, parts),
    }
}

/// The relation of the parts, for a cut that takes so many out: that of a front, caught up, if so few go that to cut it costs less than to make
/// that of what is left.
pub(crate) fn known_to_cut(
    alloc: Global,
    kept: Option<Saturated>,
    parts: &Parts,
    gone: usize,
) -> Option<Saturated>
    requires good { IsGood parts.now }
    requires behind { IfSome kept (λ known. IsBehind known.parts parts.now) }
    ensures { IfSome result (λ known. known.parts ≡ parts.now) }
{
    if gone > parts.remaining_count() / 16 + FEW {
        return None;
    }
    caught_up(alloc, kept, parts)
}

/// The relation of what a cut left. Nothing where memory is wanting.
pub(crate) fn known_after_cut(
    alloc: Global,
    whole: Option<Saturated>,
    gone: &[TxnId],
    parts: &Parts,
) -> Option<Saturated>
    requires good { IsGood parts.now }
    requires cut_off { IfSome whole (λ known. IsContentCutOff known.parts gone.now parts.now) }
    ensures { IfSome result (λ known. known.parts ≡ parts.now) }
{
    let mut known = whole?;
    match known.cut(alloc, gone, parts) {
        Ok(()) => Some(known),
        Err(_) => None,
    }
}
