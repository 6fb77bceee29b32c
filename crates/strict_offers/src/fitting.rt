//! Which times transactions can have.
ghost use Rattle.std.specs.Prelude.{◌≡◌, ◌↔◌, ◌+◌, ◌≤◌, false, length, IsTrue};
ghost use Rattle.txn.specs.Transactions.{SparesEpoch};
ghost use Rattle.strict_histories.specs.Rewriting.{is_earlier};
ghost use Rattle.strict_offers.specs.Latest.{IsLater, IsLatestBegin};
ghost use Rattle.strict_offers.specs.Offers.{FitsTimes, HaveGoodTimes, unknown};

use strict_histories::{Span, TimedTxn, has_low_keys};
use txn::{EPOCH, Txn};

/// How many reads a transaction may have.
const READS: usize = 256;

/// How many keys it may write besides its own.
const WRITES: usize = 255;

fn is_unknown(span: Span) -> bool
    ensures { IsTrue result ↔ (span ≡ unknown) }
{
    match (span.began, span.ended) {
        (None, None) => true,
        _ => false,
    }
}

fn spares_epoch(txn: &Txn) -> bool
    ensures { IsTrue result ↔ SparesEpoch txn.now }
{
    txn.reads.as_slice().iter().all(|read| read.0 != EPOCH)
        && txn.writes.as_slice().iter().all(|key| *key != EPOCH)
}

/// Whether the transaction finds room for what is read and written for its times, where there are so many sessions.
fn finds_room(sessions: usize, txn: &Txn) -> bool
    requires { sessions ≤ 256 }
    ensures { IsTrue result ↔ ((length txn.now.reads + sessions ≤ 256) × (length txn.now.writes ≤ 255)) }
{
    txn.reads.len() <= READS - sessions && txn.writes.len() <= WRITES
}

/// Whether the transaction can have its times, whatever else was offered.
fn fits_times(sessions: usize, timed: &TimedTxn) -> bool
    requires { sessions ≤ 256 }
    ensures { IsTrue result ↔ FitsTimes sessions timed.now }
{
    !timed.span.ended_before(timed.span)
        && has_low_keys(&timed.txn)
        && finds_room(sessions, &timed.txn)
        && (spares_epoch(&timed.txn) || is_unknown(timed.span))
}

/// The later of two times, as far as they are known.
fn later(one: Option<u64>, other: Option<u64>) -> Option<u64>
    ensures { IsLater one other result }
{
    match one {
        None => other,
        Some(a) => match other {
            None => one,
            Some(b) => Some(if a < b { b } else { a }),
        },
    }
}

/// When the last of these began, as far as that is known.
fn latest_begin(txns: &[TimedTxn]) -> Option<u64>
    ensures { IsLatestBegin txns.now result }
{
    let mut latest = None;
    for txn in txns {
        latest = later(latest, txn.span.began);
    }
    latest
}

/// Whether the transaction can have its times behind others, of which the last began then.
fn fits_behind(sessions: usize, latest: Option<u64>, timed: &TimedTxn) -> bool
    requires { sessions ≤ 256 }
    ensures { IsTrue result ↔ (FitsTimes sessions timed.now × (is_earlier timed.now.span.ended latest ≡ false)) }
{
    let last = Span {
        began: latest,
        ended: None,
    };
    fits_times(sessions, timed) && !timed.span.ended_before(last)
}

/// Whether transactions that come can have their times, behind these of their session.
pub(crate) fn have_good_times(sessions: usize, earlier: &[TimedTxn], given: &[TimedTxn]) -> bool
    requires { sessions ≤ 256 }
    ensures { IsTrue result ↔ HaveGoodTimes sessions earlier.now given.now }
{
    let mut latest = latest_begin(earlier);
    for timed in given {
        if !fits_behind(sessions, latest, timed) {
            return false;
        }
        latest = later(latest, timed.span.began);
    }
    true
}
