ghost use Rattle.std.specs.Prelude.{◌≡◌, ◌↔◌, false, All, IsTrue, MatchOption};
ghost use Rattle.strict_histories.specs.Rewriting.{ended_before};
ghost use Rattle.strict_histories.specs.Times.{HasGoodTimes, IsFirstWrongTime};

use crate::timed::{Span, TimedTxn};

/// Whether one with this span ended before none of these began.
pub fn is_timely(span: Span, txns: &[TimedTxn]) -> bool
    ensures { IsTrue result ↔ All (λ t. ended_before span t.span ≡ false) txns.now }
{
    txns.iter().all(|txn| !span.ended_before(txn.span))
}

/// The number of the first of a session's transactions that ended before it began itself, or before an earlier one in its session
/// began. None if times are possible. It looks at each pair.
pub fn first_wrong_time(txns: &[TimedTxn]) -> Option<u64>
    ensures { MatchOption result (HasGoodTimes txns.now) (IsFirstWrongTime txns.now) }
{
    for place in 0..txns.len() {
        if !is_timely(txns[place].span, &txns[..place + 1]) {
            return Some(place as u64);
        }
    }
    None
}
