// The rows that an arc changes: of each session only those before its start that don't reach its end yet, or those behind
// its end that its start doesn't reach yet.
ghost use Rattle.std.specs.Prelude.{◌*◌, ◌<◌, ◌≤◌, length};
ghost use Rattle.session_clocks.specs.Tails.{IsLowered, IsRaised};

use crate::rows::{lower, raise};

/// Lowers the rows before `top` to the row, from the last one down to the first one whose number for the session is as low
/// as this already.
pub(crate) fn lower_tail(numbers: &mut [u64], top: usize, session: usize, number: u64, row: &[u64])
    requires session { session < length row.now }
    requires within { top * length row.now ≤ length numbers.old }
    ensures { IsLowered numbers.old numbers.new session number row.now top }
{
    let width = row.len();
    for i in (0..top).rev() {
        if numbers[i * width + session] <= number {
            break;
        }
        lower(numbers, i * width, row);
    }
}

/// Raises the rows from `from` on to the row, up to the first one whose number for the session is above this already.
pub(crate) fn raise_tail(
    numbers: &mut [u64],
    from: usize,
    rows: usize,
    session: usize,
    number: u64,
    row: &[u64],
)
    requires session { session < length row.now }
    requires order { from ≤ rows }
    requires within { rows * length row.now ≤ length numbers.old }
    ensures { IsRaised numbers.old numbers.new session number row.now from rows }
{
    let width = row.len();
    for i in from..rows {
        if number < numbers[i * width + session] {
            break;
        }
        raise(numbers, i * width, row);
    }
}
