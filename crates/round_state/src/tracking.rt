//! What an engine keeps beside its parts, made from them, and raised after a cut.
ghost use Rattle.std.specs.Prelude.{◌≡◌, ◌+◌, ◌<◌, length, IfOk, OnOk};
ghost use Rattle.order_check.specs.Good.{IsGood};
ghost use Rattle.round_state.specs.Tracked.{AreMarksOf, AreRaisedBelow, IsIndexOf, IsIndexBelow, mark_in};

use crate::intake::awaited_reads;
use order_check::Parts;
use pending_reads::PendingReads;
use session_marks::{Marks, SessionMark};
use std::alloc::Global;
use txn::NoMemory;

/// How far a session is.
fn mark_in(parts: &Parts, session: u8) -> SessionMark
    requires { IsGood parts.now }
    ensures { result ≡ mark_in parts.now session }
{
    SessionMark {
        gone: parts.mark_of(session),
        received: parts.received_count(session),
        closed: parts.is_closed(session),
    }
}

/// The marks of the parts.
#[tactic(auto, using(crate::proofs::Raised::first_none, crate::proofs::Raised::first_all))]
fn marks_of(alloc: Global, parts: &Parts) -> Result<Marks, NoMemory>
    requires { IsGood parts.now }
    ensures { IfOk result (λ marks. AreMarksOf marks parts.now) }
{
    let mut sessions = Vec::with_capacity(alloc, parts.sessions())?;
    for session in 0..parts.sessions() {
        sessions.push(mark_in(parts, session as u8))?;
    }
    Ok(Marks::of(sessions))
}

/// Adds the pending reads of a session.
fn add_pending(
    alloc: Global,
    waits: &mut PendingReads,
    parts: &Parts,
    marks: &Marks,
    session: u8,
) -> Result<(), NoMemory>
    requires good { IsGood parts.now }
    requires marks { AreMarksOf marks.now parts.now }
    requires before { IsIndexBelow waits.old parts.now session }
    ensures { OnOk result (IsIndexBelow waits.new parts.now (session + 1)) }
{
    let mark = parts.mark_of(session);
    let awaited = awaited_reads(alloc, marks, session, mark, parts.remaining_of(session))?;
    waits.add_all(awaited.as_slice())?;
    Ok(())
}

/// The index of the pending reads.
#[tactic(auto, using(crate::proofs::Anew::below_none))]
fn index_of(alloc: Global, parts: &Parts, marks: &Marks) -> Result<PendingReads, NoMemory>
    requires good { IsGood parts.now }
    requires marks { AreMarksOf marks.now parts.now }
    ensures { IfOk result (λ index. IsIndexOf index parts.now) }
{
    let mut waits = PendingReads::new(alloc);
    for session in 0..parts.sessions() {
        add_pending(alloc, &mut waits, parts, marks, session as u8)?;
    }
    Ok(waits)
}

/// The marks and the index of pending reads of the parts.
pub(crate) fn tracks_of(alloc: Global, parts: &Parts) -> Result<(Marks, PendingReads), NoMemory>
    requires { IsGood parts.now }
    ensures { IfOk result (λ tracks. AreMarksOf tracks.0 parts.now × IsIndexOf tracks.1 parts.now) }
{
    let marks = marks_of(alloc, parts)?;
    let waits = index_of(alloc, parts, &marks)?;
    Ok((marks, waits))
}

/// Tells how many are gone of a session.
fn raise_one(marks: &mut Marks, parts: &Parts, session: u8)
    requires good { IsGood parts.now }
    requires there { session < length parts.now.remain }
    requires before { AreRaisedBelow marks.old parts.now session }
    ensures { AreRaisedBelow marks.new parts.now (session + 1) }
{
    let more = parts.mark_of(session) - marks.gone(session);
    marks.raise(session, more);
}

/// Tells how many are gone of each session, where more are gone now.
#[tactic(auto, using(crate::proofs::Raised::raised_all))]
pub(crate) fn raise_all(marks: &mut Marks, parts: &Parts)
    requires good { IsGood parts.now }
    requires before { AreRaisedBelow marks.old parts.now 0 }
    ensures { AreMarksOf marks.new parts.now }
{
    for session in 0..parts.sessions() {
        raise_one(marks, parts, session as u8);
    }
}
