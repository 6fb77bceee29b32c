// The arcs and the rows of what stays, when the fronts of sessions go.
ghost use Rattle.std.specs.Prelude.{◌≡◌, ◌↔◌, ℕ, ◌-◌, ◌*◌, ◌<◌, ◌≤◌, IsTrue, filter, length, slice_index};
ghost use Rattle.session_clocks.specs.Drops.{id_stays, arc_stays, first_left, IsBehind, IsDropped, AreDropped};
ghost use Rattle.session_clocks.specs.Rows.{line_at, HasRow, IsOneLine};

use crate::rows::{line, row_of};
use txn::{Arc, TxnId};

/// Whether a transaction isn't among the first ones of its session, of which so many go.
pub(crate) fn id_stays(gone: &[u64], id: TxnId) -> bool
    ensures { result ≡ id_stays gone.now id }
{
    match gone.get(usize::from(id.session)) {
        Some(number) => id.number >= *number,
        None => true,
    }
}

/// Drops the arcs that touch what goes.
pub(crate) fn drop_arcs(arcs: &mut Vec<Arc>, gone: &[u64])
    ensures { arcs.new.items ≡ filter (arc_stays gone.now) arcs.old.items }
{
    arcs.retain(|arc| id_stays(gone, arc.start()) && id_stays(gone, arc.end()));
}

/// Drops so many of the first numbers.
fn drop_numbers(numbers: &mut Vec<u64>, count: usize)
    requires { count ≤ length numbers.old.items }
    ensures { IsDropped numbers.old.items numbers.new.items count }
{
    let rest = numbers.len() - count;
    for j in 0..rest {
        numbers[j] = numbers[count + j];
    }
    numbers.truncate(rest);
}

/// How many numbers so many rows have.
fn rows_len(numbers: &[u64], rows: u64, width: usize) -> usize
    requires { rows * width ≤ length numbers.now }
    ensures { result ≡ rows * width }
{
    rows as usize * width
}

/// Drops so many rows of one session.
pub(crate) fn drop_line(lines: &mut [Vec<u64>], session: usize, rows: u64, width: usize)
    requires session { session < length lines.old }
    requires within { rows * width ≤ length (line_at lines.old session) }
    ensures dropped { IsDropped (line_at lines.old session) (line_at lines.new session) (rows * width) }
    ensures others { IsOneLine lines.old lines.new session }
{
    let count = rows_len(line(lines, session), rows, width);
    drop_numbers(&mut lines[session], count);
}

/// Drops the rows of what goes in each session.
pub(crate) fn drop_rows(lines: &mut [Vec<u64>], were: &[u64], gone: &[u64])
    requires were { length were.now ≡ length lines.old }
    requires gone { length gone.now ≡ length lines.old }
    requires more { (line : ℕ) → slice_index were.now line ≤ slice_index gone.now line }
    requires within { (line : ℕ) → line < length lines.old → (slice_index gone.now line - slice_index were.now line) * length gone.now ≤ length (line_at lines.old line) }
    ensures { AreDropped lines.old lines.new were.now gone.now }
{
    for session in 0..lines.len() {
        drop_line(lines, session, gone[session] - were[session], gone.len());
    }
}

/// Whether a transaction's row has no number of one that goes.
fn is_behind(first: &[Vec<u64>], were: &[u64], gone: &[u64], id: TxnId) -> bool
    requires row { HasRow were.now first.now id }
    requires sessions { length gone.now ≡ length were.now }
    ensures { IsTrue result ↔ IsBehind were.now first.now gone.now id }
{
    let row = row_of(first, were, id);
    for session in 0..gone.len() {
        if row[session] < gone[session] {
            return false;
        }
    }
    true
}

/// Whether the rows of the first ones of all sessions that stay have none.
pub(crate) fn are_behind(first: &[Vec<u64>], were: &[u64], received: &[u64], gone: &[u64]) -> bool
    requires few { length gone.now ≤ 256 }
    requires sessions { length gone.now ≡ length were.now }
    requires received { length received.now ≡ length were.now }
    requires rows { (session : ℕ) → session < length gone.now → slice_index gone.now session < slice_index received.now session → HasRow were.now first.now (first_left gone.now session) }
    ensures { IsTrue result ↔ ((session : ℕ) → session < length gone.now → slice_index gone.now session < slice_index received.now session
        → IsBehind were.now first.now gone.now (first_left gone.now session)) }
{
    for session in 0..gone.len() {
        if received[session] <= gone[session] {
            continue;
        }
        let id = TxnId {
            session: session as u8,
            number: gone[session],
        };
        if !is_behind(first, were, gone, id) {
            return false;
        }
    }
    true
}
