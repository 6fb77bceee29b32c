//! What a settled fence has to meet, last writers apart.
ghost use Rattle.std.specs.Prelude.{◌≡◌, ◌↔◌, All, IsTrue, MatchOption};
ghost use Rattle.txn.specs.declared.transactions.TxnId.{TxnId};
ghost use Rattle.order_check.specs.Based.{Remains};
ghost use Rattle.order_check.specs.Good.{IsGood};
ghost use Rattle.order_check.specs.Settled.{IsPast};
ghost use Rattle.settle.specs.Lines.{ArePast, IsClosedOrPast, IsLastRemaining, IsPastBy, HasReceivedReads, IsReceivedSource};

use clock_choices::Saturated;
use order_check::Parts;
use txn::{Source, TxnId};

/// The last transaction of the session that remains.
#[tactic(auto, using(crate::proofs::Past::none_remain, crate::proofs::Past::last_remains))]
fn last_remaining(parts: &Parts, session: u8) -> Option<TxnId>
    requires { IsGood parts.now }
    ensures { MatchOption result ((id : TxnId) → id.session ≡ session → ¬ Remains parts.now id) (IsLastRemaining parts.now session) }
{
    let received = parts.received_count(session);
    if received == parts.mark_of(session) {
        return None;
    }
    Some(TxnId {
        session,
        number: received - 1,
    })
}

/// Whether it is the fence or comes after it.
fn is_past_by(known: &Saturated, fence: TxnId, id: TxnId) -> bool
    ensures { IsTrue result ↔ IsPastBy known.now.parts fence id }
{
    id == fence || known.reaches(fence, id)
}

/// Whether the session has a remaining transaction that is the fence or comes after it: whether its last one does.
#[tactic(auto, using(crate::proofs::Past::past_by_last, crate::proofs::Past::no_past))]
fn is_past(known: &Saturated, fence: TxnId, session: u8) -> bool
    ensures { IsTrue result ↔ IsPast known.now.parts fence session }
{
    match last_remaining(known.parts(), session) {
        Some(last) => is_past_by(known, fence, last),
        None => false,
    }
}

/// Whether the session is closed, or past the fence.
fn is_closed_or_past(known: &Saturated, fence: TxnId, session: u8) -> bool
    ensures { IsTrue result ↔ IsClosedOrPast known.now.parts fence session }
{
    known.parts().is_closed(session) || is_past(known, fence, session)
}

/// Whether each open session is past the fence.
pub fn are_past(known: &Saturated, fence: TxnId) -> bool
    ensures { IsTrue result ↔ ArePast known.now.parts fence }
{
    for session in 0..known.parts().sessions() {
        if !is_closed_or_past(known, fence, session as u8) {
            return false;
        }
    }
    true
}

fn is_received_source(parts: &Parts, source: Source) -> bool
    requires { IsGood parts.now }
    ensures { IsTrue result ↔ IsReceivedSource parts.now source }
{
    match source {
        Source::Init => true,
        Source::By(writer) => parts.is_received(writer),
    }
}

fn has_received_reads(parts: &Parts, id: TxnId) -> bool
    requires { IsGood parts.now }
    ensures { IsTrue result ↔ HasReceivedReads parts.now id }
{
    parts
        .reads_of(id)
        .iter()
        .all(|read| is_received_source(parts, read.1))
}

/// Whether no read of these waits for an id that isn't received.
pub fn none_waits(parts: &Parts, ids: &[TxnId]) -> bool
    requires { IsGood parts.now }
    ensures { IsTrue result ↔ All (HasReceivedReads parts.now) ids.now }
{
    ids.iter().all(|id| has_received_reads(parts, *id))
}
