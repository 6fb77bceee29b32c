//! Transactions and their times, put together.
ghost use Rattle.std.specs.Prelude.{◌≡◌, IfOk, slice_index_or};
ghost use Rattle.strict_offers.specs.Offers.{unknown, with_times};

use std::alloc::Global;
use strict_histories::{Span, TimedTxn};
use txn::{NoMemory, Sequence, Txn};

/// The times at this place; none is known behind the last.
fn span_at(spans: &[Span], place: usize) -> Span
    ensures { result ≡ slice_index_or spans.now place unknown }
{
    if place < spans.len() {
        spans[place]
    } else {
        Span {
            began: None,
            ended: None,
        }
    }
}

fn copy_of(txn: &Txn) -> Result<Txn, NoMemory>
    ensures { IfOk result (λ copy. copy ≡ txn.now) }
{
    txn.clone()
}

/// Transactions with their times, in order.
pub(crate) fn with_times(
    alloc: Global,
    txns: &[Txn],
    spans: &[Span],
) -> Result<Sequence<TimedTxn>, NoMemory>
    ensures { IfOk result (λ timed. timed ≡ with_times txns.now spans.now) }
{
    let mut timed = Vec::with_capacity(alloc, txns.len())?;
    for place in 0..txns.len() {
        let span = span_at(spans, place);
        let txn = copy_of(&txns[place])?;
        timed.push(TimedTxn { txn, span })?;
    }
    Ok(Sequence::new(timed))
}
