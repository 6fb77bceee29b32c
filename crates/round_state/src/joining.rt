//! Sessions that join, and sessions that come back.
ghost use Rattle.std.specs.Prelude.{◌≡◌, ◌↔◌, ◌<◌, [], ◌∷◌, ◌++◌, length, take, ◌-◌, IsTrue, OnOk, OnErr, MatchOption, MatchResult};
ghost use Rattle.txn.specs.Transactions.{IsFence, IsWellFormedFragment};
ghost use Rattle.session_marks.specs.Marks.{fresh, with_flag};
ghost use Rattle.order_check.specs.declared.remainder.Parts as order;
ghost use Rattle.order_check.specs.Good.{IsGood};
ghost use Rattle.order_check.specs.StandsFor.{IsAnchor, IsAnchored, parts_after, parts_joined, parts_returned};
ghost use Rattle.round_state.specs.Joining.{parts_flagged, parts_more};
ghost use Rattle.round_state.specs.Steps.{IsClosedSession, IsLetIn, JoinFault, MayJoin, arrival_of};
ghost use Rattle.round_state.specs.Tracked.{IsTracked};

use crate::intake::take_in;
use order_check::Parts;
use pending_reads::PendingReads;
use session_marks::Marks;
use std::alloc::{AllocError, Global};
use txn::{Fragment, NoMemory, Refusal, Sequence, Source, Txn, TxnId};

/// The key that fences alone read and write.
const EPOCH: u64 = 0;

/// Where the transaction reads the epoch key from, if it is a fence.
fn fence_source(txn: &Txn) -> Option<Source>
    ensures { MatchOption result (¬ IsFence txn.now) (λ source. (txn.now.reads ≡ (0, source) ∷ []) × (txn.now.writes ≡ 0 ∷ [])) }
{
    match (txn.reads.as_slice(), txn.writes.as_slice()) {
        ([read], [key]) => {
            if read.0 == EPOCH && *key == EPOCH {
                Some(read.1)
            } else {
                None
            }
        }
        _ => None,
    }
}

/// Whether the id is that of a fence that remains, or of the last gone writer of the epoch key.
fn is_anchor(parts: &Parts, id: TxnId) -> bool
    ensures { IsTrue result ↔ IsAnchor parts.now id }
{
    parts.last_gone(EPOCH) == Some(id)
        || match parts.remaining_at(id) {
            Some(txn) => fence_source(txn).is_some(),
            None => false,
        }
}

/// Whether the fragment's first transaction is a fence that reads from an anchor.
fn is_anchored(parts: &Parts, fragment: &Fragment) -> bool
    ensures { IsTrue result ↔ IsAnchored parts.now fragment.now }
{
    let Some(first) = fragment.txns.as_slice().first() else {
        return false;
    };
    match fence_source(first) {
        Some(Source::By(anchor)) => is_anchor(parts, anchor),
        _ => false,
    }
}

/// Whether the session is the next new one, or is closed and nothing of it remains.
fn may_join(parts: &Parts, session: u8) -> bool
    requires { IsGood parts.now }
    ensures { IsTrue result ↔ MayJoin parts.now session }
{
    let place = usize::from(session);
    if place >= parts.sessions() {
        return place == parts.sessions();
    }
    parts.is_closed(session) && parts.remaining_of(session).is_empty()
}

/// Whether a session may join with a well-formed fragment, and it finds room; if not, why.
pub(crate) fn let_in(parts: &Parts, fragment: &Fragment) -> Result<(), Refusal>
    requires good { IsGood parts.now }
    requires well_formed { IsWellFormedFragment parts.now.most_sessions fragment.now }
    ensures { MatchResult result (λ _. IsLetIn parts.now fragment.now) (JoinFault parts.now fragment.now) }
{
    if !may_join(parts, fragment.session) {
        return Err(Refusal::BadSession);
    }
    let received = parts.received_count(fragment.session);
    if received < fragment.first {
        return Err(Refusal::Gap);
    }
    if fragment.first < received {
        return Err(Refusal::Repeat);
    }
    if !is_anchored(parts, fragment) {
        return Err(Refusal::NotAnchored);
    }
    if (parts.remaining_count() + fragment.txns.len()) as u64 > parts.limit {
        return Err(Refusal::Backlog);
    }
    Ok(())
}

/// Adds a session that is open and has nothing, or leaves all as it was.
fn add_session(parts: &mut Parts, marks: &mut Marks) -> Result<(), NoMemory>
    ensures ok { OnOk result ((parts.new ≡ parts_more parts.old) × (marks.new ≡ marks.old ++ fresh ∷ [])) }
    ensures err { OnErr result ((parts.new ≡ parts.old) × (marks.new ≡ marks.old)) }
{
    let alloc = parts.remain.allocator();
    marks.add()?;
    if let Err(refused) = parts.base.marks.push(0) {
        marks.take_last();
        return Err(AllocError::from(refused));
    }
    if let Err(refused) = parts.closed.push(false) {
        let _ = parts.base.marks.pop();
        marks.take_last();
        return Err(AllocError::from(refused));
    }
    if let Err(refused) = parts.remain.push(Sequence::new(Vec::new(alloc))) {
        let _ = parts.closed.pop();
        let _ = parts.base.marks.pop();
        marks.take_last();
        return Err(AllocError::from(refused));
    }
    Ok(())
}

/// Takes away the last session, as it was added.
fn take_session(parts: &mut Parts, marks: &mut Marks)
    ensures marks { marks.new ≡ take (length marks.old - 1) marks.old }
    ensures parts { (before : order.Parts) → parts.old ≡ parts_more before → parts.new ≡ before }
{
    let _ = parts.remain.pop();
    let _ = parts.closed.pop();
    let _ = parts.base.marks.pop();
    marks.take_last();
}

/// Makes a session closed or open, whatever it was.
fn set_closed(parts: &mut Parts, marks: &mut Marks, session: u8, closed: bool)
    requires sessions { session < length marks.old }
    requires flags { session < length parts.old.closed }
    ensures parts { parts.new ≡ parts_flagged parts.old session closed }
    ensures marks { marks.new ≡ with_flag marks.old session closed }
{
    marks.set_closed(session, closed);
    parts.closed.set(usize::from(session), closed);
}

/// Adds a session that has the fragment, or leaves the parts as they were.
fn join_anew(
    alloc: Global,
    parts: &mut Parts,
    marks: &mut Marks,
    waits: &mut PendingReads,
    fragment: Fragment,
) -> Result<(), NoMemory>
    requires tracked { IsTracked marks.old waits.old parts.old }
    requires fits { IsLetIn parts.old fragment }
    requires new { fragment.session ≡ length parts.old.remain }
    ensures tracked { IsTracked marks.new waits.new parts.new }
    ensures ok { OnOk result (parts.new ≡ parts_joined parts.old fragment) }
    ensures err { OnErr result (parts.new ≡ parts.old) }
{
    add_session(parts, marks)?;
    if let Err(refused) = take_in(alloc, parts, marks, waits, fragment) {
        take_session(parts, marks);
        return Err(refused);
    }
    Ok(())
}

/// Opens a closed session with the fragment, or leaves the parts as they were.
fn come_back(
    alloc: Global,
    parts: &mut Parts,
    marks: &mut Marks,
    waits: &mut PendingReads,
    fragment: Fragment,
) -> Result<(), NoMemory>
    requires tracked { IsTracked marks.old waits.old parts.old }
    requires fits { IsLetIn parts.old fragment }
    requires closed { IsClosedSession parts.old fragment.session }
    ensures tracked { IsTracked marks.new waits.new parts.new }
    ensures ok { OnOk result (parts.new ≡ parts_returned parts.old fragment) }
    ensures err { OnErr result (parts.new ≡ parts.old) }
{
    let session = fragment.session;
    set_closed(parts, marks, session, false);
    if let Err(refused) = take_in(alloc, parts, marks, waits, fragment) {
        set_closed(parts, marks, session, true);
        return Err(refused);
    }
    Ok(())
}

/// Takes in a fragment with which a session is let join, or leaves the parts as they were.
pub(crate) fn join_with(
    alloc: Global,
    parts: &mut Parts,
    marks: &mut Marks,
    waits: &mut PendingReads,
    fragment: Fragment,
) -> Result<(), NoMemory>
    requires tracked { IsTracked marks.old waits.old parts.old }
    requires fits { IsLetIn parts.old fragment }
    ensures tracked { IsTracked marks.new waits.new parts.new }
    ensures ok { OnOk result (parts.new ≡ parts_after parts.old (arrival_of (length parts.old.remain) fragment)) }
    ensures err { OnErr result (parts.new ≡ parts.old) }
{
    if usize::from(fragment.session) == parts.sessions() {
        join_anew(alloc, parts, marks, waits, fragment)
    } else {
        come_back(alloc, parts, marks, waits, fragment)
    }
}
