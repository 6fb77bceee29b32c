//! Whether the log of a store has of its sessions what their collectors have handed in.
ghost use Rattle.std.specs.Prelude.{◌≡◌, IsTrue};
ghost use Rattle.demo_store.specs.Logs.{of_session};
ghost use Rattle.demonstration.specs.Runs.{AreLogged};

use demo_store::Executed;
use txn::{Sequence, Txn};

/// What the transactions of each of the four sessions did, in order.
pub type FourDone = (Sequence<Txn>, Sequence<Txn>, Sequence<Txn>, Sequence<Txn>);

fn is_same(one: &Txn, other: &Txn) -> bool
    ensures { IsTrue result → one.now ≡ other.now }
{
    one.reads.as_slice() == other.reads.as_slice()
        && one.writes.as_slice() == other.writes.as_slice()
}

/// Whether this is what the log has of the session.
fn has_of(log: &[Executed], session: u8, done: &[Txn]) -> bool
    ensures { IsTrue result → done.now ≡ of_session session log.now }
{
    let mut rest = done;
    for executed in log {
        if executed.id.session == session {
            match rest.split_first() {
                Some((txn, more)) if is_same(txn, &executed.txn) => rest = more,
                _ => return false,
            }
        }
    }
    rest.is_empty()
}

/// Whether this is what the log has of the four sessions.
pub fn is_log_of(log: &[Executed], done: &FourDone) -> bool
    ensures { IsTrue result → AreLogged done.now log.now }
{
    has_of(log, 0, done.0.as_slice())
        && has_of(log, 1, done.1.as_slice())
        && has_of(log, 2, done.2.as_slice())
        && has_of(log, 3, done.3.as_slice())
}
