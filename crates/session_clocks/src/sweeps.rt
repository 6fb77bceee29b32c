// What an arc changes in the lines of all sessions.
ghost use Rattle.std.specs.Prelude.{◌≡◌, ◌*◌, ◌<◌, ◌≤◌, length};
ghost use Rattle.session_clocks.specs.Rows.{line_at, IsOneLine};
ghost use Rattle.session_clocks.specs.Tails.{IsLowered, IsRaised};
ghost use Rattle.session_clocks.specs.Sweeps.{AreLowered, AreRaised, FitTops, FitSpans};

use crate::tails::{lower_tail, raise_tail};
use txn::TxnId;

/// Lowers the tail of one session's rows.
fn lower_line(lines: &mut [Vec<u64>], line: usize, top: usize, end: TxnId, row: &[u64])
    requires line { line < length lines.old }
    requires session { end.session < length row.now }
    requires within { top * length row.now ≤ length (line_at lines.old line) }
    ensures lowered { IsLowered (line_at lines.old line) (line_at lines.new line) end.session end.number row.now top }
    ensures len { length (line_at lines.new line) ≡ length (line_at lines.old line) }
    ensures others { IsOneLine lines.old lines.new line }
{
    lower_tail(
        &mut lines[line],
        top,
        usize::from(end.session),
        end.number,
        row,
    );
}

/// Raises the tail of one session's rows.
fn raise_line(
    lines: &mut [Vec<u64>],
    line: usize,
    from: usize,
    rows: usize,
    start: TxnId,
    row: &[u64],
)
    requires line { line < length lines.old }
    requires session { start.session < length row.now }
    requires order { from ≤ rows }
    requires within { rows * length row.now ≤ length (line_at lines.old line) }
    ensures raised { IsRaised (line_at lines.old line) (line_at lines.new line) start.session start.number row.now from rows }
    ensures len { length (line_at lines.new line) ≡ length (line_at lines.old line) }
    ensures others { IsOneLine lines.old lines.new line }
{
    raise_tail(
        &mut lines[line],
        from,
        rows,
        usize::from(start.session),
        start.number,
        row,
    );
}

/// Lowers the rows of what is the start of an arc or reaches it, of each session so many, to the row of its end.
pub(crate) fn lower_all(lines: &mut [Vec<u64>], gone: &[u64], tops: &[u64], end: TxnId, row: &[u64])
    requires session { end.session < length row.now }
    requires fit { FitTops lines.old gone.now tops.now (length row.now) }
    ensures { AreLowered lines.old lines.new gone.now tops.now end row.now }
{
    for line in 0..lines.len() {
        let top = tops[line].saturating_sub(gone[line]) as usize;
        lower_line(lines, line, top, end, row);
    }
}

/// Raises the rows of what is the end of an arc or is reached by it, of each session from this number on, to the row of its
/// start.
pub(crate) fn raise_all(
    lines: &mut [Vec<u64>],
    gone: &[u64],
    received: &[u64],
    starts: &[u64],
    start: TxnId,
    row: &[u64],
)
    requires session { start.session < length row.now }
    requires fit { FitSpans lines.old gone.now received.now starts.now (length row.now) }
    ensures { AreRaised lines.old lines.new gone.now received.now starts.now start row.now }
{
    for line in 0..lines.len() {
        let rows = (received[line] - gone[line]) as usize;
        let from = starts[line].saturating_sub(gone[line]);
        let from = (from as usize).min(rows);
        raise_line(lines, line, from, rows, start, row);
    }
}
