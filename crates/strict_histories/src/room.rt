ghost use Rattle.std.specs.Prelude.{◌↔◌, ◌≤◌, ◌^◌, All, IsTrue, length};
ghost use Rattle.strict_histories.specs.Rewriting.{HasLowKeys, HasRoomForTimes};

use crate::rewriting::KEYS;
use crate::timed::TimedTxn;
use txn::{NUMBERS, Sequence, Txn};

/// How many sessions there may be.
const SESSIONS: usize = 256;

/// Whether each key of the transaction is below 2^62.
pub fn has_low_keys(txn: &Txn) -> bool
    ensures { IsTrue result ↔ HasLowKeys txn.now }
{
    txn.reads.as_slice().iter().all(|read| read.0 < KEYS)
        && txn.writes.as_slice().iter().all(|key| *key < KEYS)
}

/// The same of each transaction of a session.
fn have_low_keys(txns: &[TimedTxn]) -> bool
    ensures { IsTrue result ↔ All (λ t. HasLowKeys t.txn) txns.now }
{
    for txn in txns {
        if !has_low_keys(&txn.txn) {
            return false;
        }
    }
    true
}

/// The same of each session.
fn all_have_low_keys(timed: &[Sequence<TimedTxn>]) -> bool
    ensures { IsTrue result ↔ All (All (λ t. HasLowKeys t.txn)) timed.now }
{
    for txns in timed {
        if !have_low_keys(txns.as_slice()) {
            return false;
        }
    }
    true
}

/// Whether each session has at most 2^48 transactions.
fn have_low_numbers(timed: &[Sequence<TimedTxn>]) -> bool
    ensures { IsTrue result ↔ All (λ txns. length txns ≤ 2 ^ 48) timed.now }
{
    timed.iter().all(|txns| txns.len() as u64 <= NUMBERS)
}

/// Whether a history can be rewritten: there are at most 256 sessions, with at most 2^48 transactions each, and keys are below
/// 2^62.
pub fn has_room_for_times(timed: &[Sequence<TimedTxn>]) -> bool
    ensures { IsTrue result ↔ HasRoomForTimes timed.now }
{
    timed.len() <= SESSIONS && have_low_numbers(timed) && all_have_low_keys(timed)
}
