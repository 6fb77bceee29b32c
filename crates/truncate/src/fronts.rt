//! What a cut takes out of each session, and how far its mark rises.
ghost use Rattle.std.specs.Prelude.{◌≡◌, ◌+◌, ◌<◌, ◌≤◌, ◌^◌, ℕ, drop, length, slice_index};
ghost use Rattle.txn.specs.History.{session_of};
ghost use Rattle.order_check.specs.Settled.{count_in};
ghost use Rattle.truncate.specs.TakenOut.{AreCutBelow, AreRaisedBelow};

use std::mem::replace;
use txn::{Sequence, Txn, TxnId};

/// How many of the ids are of the session.
fn count_of(ids: &[TxnId], session: usize) -> usize
    ensures { result ≡ count_in ids.now session }
{
    ids.iter()
        .filter(|id| session == usize::from(id.session))
        .count()
}

/// Takes so many of the first out, without taking memory.
fn drop_front(txns: &mut Sequence<Txn>, count: usize)
    requires { count ≤ length txns.old }
    ensures { txns.new ≡ drop count txns.old }
{
    let none = Sequence::new(Vec::new(txns.allocator()));
    let mut rest = replace(txns, none).into_vec();
    rest.drain(..count);
    *txns = Sequence::new(rest);
}

/// Takes the gone out of each session, of which they are the first.
pub fn drop_fronts(sessions: &mut Vec<Sequence<Txn>>, gone: &[TxnId])
    requires { (s : ℕ) → count_in gone.now s ≤ length (session_of sessions.old.items s) }
    ensures { AreCutBelow gone.now (length sessions.old.items) sessions.old.items sessions.new.items }
{
    for session in 0..sessions.len() {
        let count = count_of(gone, session);
        let txns = &mut sessions[session];
        drop_front(txns, count);
    }
}

/// Raises each session's mark by the number of its gone.
pub fn raise(marks: &mut Sequence<u64>, gone: &[TxnId])
    requires { (s : ℕ) → slice_index marks.old s + count_in gone.now s ≤ 2 ^ 48 }
    ensures { AreRaisedBelow gone.now (length marks.old) marks.old marks.new }
{
    for session in 0..marks.len() {
        let mark = marks.as_slice()[session];
        marks.set(session, mark + count_of(gone, session) as u64);
    }
}
