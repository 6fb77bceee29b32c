//! An engine, and beside it all that was offered to it.
ghost use Rattle.std.specs.Prelude.{◌<◌};

use crate::stores::Store;
use logged_fragments::LoggedFragment;
use order_check::{Base, LastWriters, Parts};
use round_state::Engine;
use std::alloc::Global;
use txn::{Fragment, NoMemory, Refusal, Sequence, Txn, TxnId};

/// An engine, and beside it all that it took in, of which nothing is ever gone.
#[derive(Drop)]
pub(crate) struct Audit {
    pub engine: Engine,
    pub whole: Parts,
    /// The same when the open round began.
    pub asked: Option<Parts>,
    pub has_cut: bool,
}

/// What happened in all runs.
#[derive(Clone, Copy, Default)]
pub(crate) struct Tally {
    pub cuts: u64,
    pub reports: u64,
    /// Reports of engines that have cut.
    pub reports_after: u64,
    pub pending_after: u64,
    pub violated_after: u64,
    /// New sessions that joined.
    pub joined: u64,
    /// Sessions that came back.
    pub back: u64,
    /// Transactions that aborted.
    pub aborted: u64,
}

pub(crate) fn none_of_both(alloc: Global) -> Result<Sequence<Sequence<Txn>>, NoMemory> {
    let mut sessions = Vec::new(alloc);
    for _ in 0..2 {
        sessions.push(Sequence::new(Vec::new(alloc)))?;
    }
    Ok(Sequence::new(sessions))
}

/// Two sessions of which nothing was received.
pub(crate) fn nothing(alloc: Global) -> Result<Parts, NoMemory> {
    let remain = none_of_both(alloc)?;
    Ok(Parts {
        base: Base {
            last: LastWriters::new(alloc),
            marks: Sequence::new([0, 0].to_vec(alloc)?),
        },
        remain,
        closed: Sequence::new([false, false].to_vec(alloc)?),
        most_sessions: 64,
        limit: 8,
    })
}

/// An engine of two sessions that has taken in nothing.
pub(crate) fn audit_beside(alloc: Global, whole: Parts) -> Result<Audit, Refusal> {
    match Engine::open(alloc, 64, 2, 8) {
        Ok(engine) => Ok(Audit {
            engine,
            whole,
            asked: None,
            has_cut: false,
        }),
        Err(refusal) => Err(refusal),
    }
}

/// How many were taken in.
pub(crate) fn count_of(whole: &Parts) -> usize {
    let mut count = 0usize;
    for txns in whole.remain.as_slice() {
        count = count.wrapping_add(txns.len());
    }
    count
}

/// What comes next of a session.
pub(crate) fn next_of(whole: &Parts, session: u8) -> TxnId {
    let number = whole.remaining_of(session).len() as u64;
    TxnId { session, number }
}

pub(crate) fn fragment_of(
    alloc: Global,
    id: TxnId,
    txn: &Txn,
    aborted: bool,
) -> Result<LoggedFragment, NoMemory> {
    let fragment = Fragment {
        session: id.session,
        first: id.number,
        txns: Sequence::new(vec![in alloc; txn.clone()?]?),
    };
    Ok(LoggedFragment {
        fragment,
        aborted: Sequence::new(vec![in alloc; aborted]?),
    })
}

/// Puts the transaction into the whole history, and a session where there is none yet.
pub(crate) fn put(alloc: Global, whole: &mut Parts, session: u8, txn: Txn) -> Result<(), NoMemory> {
    let txns = Sequence::new(vec![in alloc; txn]?);
    let place = usize::from(session);
    if place < whole.remain.len() {
        whole.remain.append_at(place, txns)?;
    } else {
        whole.base.marks.push(0)?;
        whole.closed.push(false)?;
        whole.remain.push(txns)?;
    }
    Ok(())
}

/// Offers the transaction, and where it is taken in puts it into the whole history.
pub(crate) fn offer(alloc: Global, audit: &mut Audit, id: TxnId, txn: Txn) -> Result<(), NoMemory> {
    let fragment = fragment_of(alloc, id, &txn, false)?;
    if audit.engine.offer(alloc, fragment).is_ok() {
        put(alloc, &mut audit.whole, id.session, txn)?;
    }
    Ok(())
}

/// A transaction that did nothing.
pub(crate) fn idle(alloc: Global) -> Txn {
    Txn {
        reads: Sequence::new(Vec::new(alloc)),
        writes: Sequence::new(Vec::new(alloc)),
    }
}

/// Offers the transaction as one that aborted, and where it is taken in puts one that did nothing into the whole history.
pub(crate) fn offer_aborted(
    alloc: Global,
    audit: &mut Audit,
    id: TxnId,
    txn: &Txn,
    tally: &mut Tally,
) -> Result<(), NoMemory> {
    let fragment = fragment_of(alloc, id, txn, true)?;
    if audit.engine.offer(alloc, fragment).is_ok() {
        tally.aborted = tally.aborted.wrapping_add(1);
        put(alloc, &mut audit.whole, id.session, idle(alloc))?;
    }
    Ok(())
}

/// Two sessions, or the third too where it has joined.
pub(crate) fn sessions_of(whole: &Parts) -> u64
    ensures some { 0 < result }
    ensures few { result < 4 }
{
    if whole.remain.len() > 2 { 3 } else { 2 }
}

/// Offers what the store made, now and then under a wrong number.
pub(crate) fn offer_one(
    alloc: Global,
    audit: &mut Audit,
    store: &mut Store,
) -> Result<(), NoMemory> {
    if 8 <= count_of(&audit.whole) {
        return Ok(());
    }
    let sessions = sessions_of(&audit.whole);
    let mut id = next_of(&audit.whole, store.roll(sessions) as u8);
    if store.roll(32) == 0 {
        id.number = store.roll(4);
    }
    let txn = store.txn(alloc)?;
    store.note(id, &txn)?;
    offer(alloc, audit, id, txn)
}

/// Lets what the store made abort. Now and then the store doesn't notice.
pub(crate) fn abort_one(
    alloc: Global,
    audit: &mut Audit,
    store: &mut Store,
    tally: &mut Tally,
) -> Result<(), NoMemory> {
    if 8 <= count_of(&audit.whole) {
        return Ok(());
    }
    let sessions = sessions_of(&audit.whole);
    let id = next_of(&audit.whole, store.roll(sessions) as u8);
    let txn = store.txn(alloc)?;
    if store.roll(8) == 0 {
        store.note(id, &txn)?;
    }
    offer_aborted(alloc, audit, id, &txn, tally)
}

pub(crate) fn note_join(tally: &mut Tally, number: u64) {
    if number == 0 {
        tally.joined = tally.joined.wrapping_add(1);
    } else {
        tally.back = tally.back.wrapping_add(1);
    }
}

/// A session of which all is gone, or a new one where there are but two.
pub(crate) fn who_joins(parts: &Parts) -> Option<u8> {
    for session in 0..3 {
        if parts.remaining_of(session).is_empty() && parts.mark_of(session) > 0 {
            return Some(session);
        }
    }
    if parts.sessions() == 2 { Some(2) } else { None }
}

/// Lets a session join or come back with a fence, which mostly reads from the last one.
pub(crate) fn join_one(
    alloc: Global,
    audit: &mut Audit,
    store: &mut Store,
    tally: &mut Tally,
) -> Result<(), NoMemory> {
    if 8 <= count_of(&audit.whole) {
        return Ok(());
    }
    let Some(session) = who_joins(audit.engine.parts()) else {
        return Ok(());
    };
    ignored(audit.engine.close(session));
    let id = next_of(&audit.whole, session);
    let txn = store.fence(alloc)?;
    let fragment = fragment_of(alloc, id, &txn, false)?;
    if audit.engine.join(alloc, fragment).is_ok() {
        note_join(tally, id.number);
        store.note(id, &txn)?;
        put(alloc, &mut audit.whole, id.session, txn)?;
    }
    Ok(())
}

/// A refusal is as good as any other reply.
pub(crate) fn ignored(_: Result<(), Refusal>) {}
