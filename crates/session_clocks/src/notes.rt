// Which transactions an arc makes reach more, or be reached by more: those whose rows it changes, noted before it changes them.
ghost use Rattle.std.specs.Prelude.{◌≡◌, ◌+◌, ◌*◌, ◌^◌, ◌<◌, ◌≤◌, OnOk, length, slice_index};
ghost use Rattle.session_clocks.specs.Additions.{IsFrontOf};
ghost use Rattle.session_clocks.specs.Notes.{AreTailNoted, AreTailsNoted, AreSpanNoted, AreSpansNoted};
ghost use Rattle.session_clocks.specs.Sweeps.{FitTops, FitSpans};

use crate::rows::line;
use txn::{NoMemory, TxnId};

/// Notes the transactions of one session whose rows an arc lowers. The session's first row is that of `first`.
fn note_tail(
    noted: &mut Vec<TxnId>,
    numbers: &[u64],
    width: usize,
    top: usize,
    first: TxnId,
    end: TxnId,
) -> Result<(), NoMemory>
    requires session { end.session < width }
    requires within { top * width ≤ length numbers.now }
    requires number { first.number + top < 2 ^ 64 }
    ensures front { IsFrontOf noted.old.items noted.new.items }
    ensures noted { OnOk result (AreTailNoted numbers.now width top first end noted.old.items noted.new.items) }
{
    let session = usize::from(end.session);
    for i in (0..top).rev() {
        if numbers[i * width + session] <= end.number {
            break;
        }
        noted.push(TxnId {
            session: first.session,
            number: first.number + i as u64,
        })?;
    }
    Ok(())
}

/// The same of those whose rows an arc raises.
fn note_span(
    noted: &mut Vec<TxnId>,
    numbers: &[u64],
    width: usize,
    from: usize,
    rows: usize,
    first: TxnId,
    start: TxnId,
) -> Result<(), NoMemory>
    requires session { start.session < width }
    requires order { from ≤ rows }
    requires within { rows * width ≤ length numbers.now }
    requires number { first.number + rows < 2 ^ 64 }
    ensures front { IsFrontOf noted.old.items noted.new.items }
    ensures noted { OnOk result (AreSpanNoted numbers.now width from rows first start noted.old.items noted.new.items) }
{
    let session = usize::from(start.session);
    for i in from..rows {
        if start.number < numbers[i * width + session] {
            break;
        }
        noted.push(TxnId {
            session: first.session,
            number: first.number + i as u64,
        })?;
    }
    Ok(())
}

/// Notes the transactions of all sessions whose rows an arc lowers.
pub(crate) fn note_tails(
    noted: &mut Vec<TxnId>,
    lines: &[Vec<u64>],
    gone: &[u64],
    tops: &[u64],
    end: TxnId,
) -> Result<(), NoMemory>
    requires session { end.session < length gone.now }
    requires few { length lines.now ≤ 256 }
    requires fit { FitTops lines.now gone.now tops.now (length gone.now) }
    ensures front { IsFrontOf noted.old.items noted.new.items }
    ensures noted { OnOk result (AreTailsNoted lines.now (length gone.now) gone.now tops.now end noted.old.items noted.new.items) }
{
    let width = gone.len();
    for at_line in 0..lines.len() {
        let first = TxnId {
            session: at_line as u8,
            number: gone[at_line],
        };
        let top = tops[at_line].saturating_sub(gone[at_line]) as usize;
        note_tail(noted, line(lines, at_line), width, top, first, end)?;
    }
    Ok(())
}

/// The same of those whose rows an arc raises.
pub(crate) fn note_spans(
    noted: &mut Vec<TxnId>,
    lines: &[Vec<u64>],
    gone: &[u64],
    received: &[u64],
    starts: &[u64],
    start: TxnId,
) -> Result<(), NoMemory>
    requires session { start.session < length gone.now }
    requires few { length lines.now ≤ 256 }
    requires fit { FitSpans lines.now gone.now received.now starts.now (length gone.now) }
    ensures front { IsFrontOf noted.old.items noted.new.items }
    ensures noted { OnOk result (AreSpansNoted lines.now (length gone.now) gone.now received.now starts.now start noted.old.items noted.new.items) }
{
    let width = gone.len();
    for at_line in 0..lines.len() {
        let first = TxnId {
            session: at_line as u8,
            number: gone[at_line],
        };
        let rows = (received[at_line] - gone[at_line]) as usize;
        let from = starts[at_line].saturating_sub(gone[at_line]);
        let from = (from as usize).min(rows);
        note_span(noted, line(lines, at_line), width, from, rows, first, start)?;
    }
    Ok(())
}
