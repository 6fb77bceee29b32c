//! Which ends are read: the last one of each session, unless it follows through another one.
ghost use Rattle.std.specs.Prelude.{◌≡◌};
ghost use Rattle.strict_histories.specs.Ends.{AreAllEndsOf, AreRising, last_end};
ghost use Rattle.strict_histories.specs.Rewriting.{begin_before, is_earlier, last_since, last_before, later_time, latest_begin, span_at};

use crate::ends::last_end;
use crate::timed::{Span, TimedTxn};
use txn::Sequence;

/// When the transaction with this number began and ended, where there is one.
fn span_at(txns: &[TimedTxn], number: Option<u64>) -> Span
    ensures { result ≡ span_at txns.now number }
{
    let found = match number {
        Some(number) => txns.get(number as usize),
        None => None,
    };
    match found {
        Some(txn) => txn.span,
        None => Span {
            began: None,
            ended: None,
        },
    }
}

/// Whether the one time is before the other, if both are known.
fn is_earlier(one: Option<u64>, other: Option<u64>) -> bool
    ensures { result ≡ is_earlier one other }
{
    match (one, other) {
        (Some(a), Some(b)) => a < b,
        _ => false,
    }
}

/// The later of two times, as far as they are known.
fn later_time(one: Option<u64>, other: Option<u64>) -> Option<u64>
    ensures { result ≡ later_time one other }
{
    match (one, other) {
        (None, _) => other,
        (Some(_), None) => one,
        (Some(a), Some(b)) => Some(if a < b { b } else { a }),
    }
}

/// When the last of a session's transactions that ended before one with this span began had begun itself, if that was earlier. The session's ends are
/// given.
fn begin_before(span: Span, txns: &[TimedTxn], ends: &[(u64, u64)]) -> Option<u64>
    requires rising { AreRising ends.now }
    requires ends { last_end span.began ends.now ≡ last_before span 0 txns.now }
    ensures { result ≡ begin_before span txns.now }
{
    let began = span_at(txns, last_end(ends, span.began)).began;
    if is_earlier(began, span.began) {
        began
    } else {
        None
    }
}

/// The latest of these begins, one of each session.
pub(crate) fn latest_begin(
    span: Span,
    timed: &[Sequence<TimedTxn>],
    ends: &[Sequence<(u64, u64)>],
) -> Option<u64>
    requires { AreAllEndsOf timed.now ends.now }
    ensures { result ≡ latest_begin span timed.now }
{
    let mut latest = None;
    for session in 0..timed.len() {
        let began = begin_before(span, timed[session].as_slice(), ends[session].as_slice());
        latest = later_time(latest, began);
    }
    latest
}

/// The number of the last of a session's transactions that ended before one with this span began, unless it ended before this time. The session's ends
/// are given.
pub(crate) fn last_since(
    since: Option<u64>,
    span: Span,
    txns: &[TimedTxn],
    ends: &[(u64, u64)],
) -> Option<u64>
    requires rising { AreRising ends.now }
    requires ends { last_end span.began ends.now ≡ last_before span 0 txns.now }
    ensures { result ≡ last_since since span txns.now }
{
    let last = last_end(ends, span.began);
    if is_earlier(span_at(txns, last).ended, since) {
        None
    } else {
        last
    }
}
