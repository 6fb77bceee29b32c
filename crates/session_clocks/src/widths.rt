// Rows with a number more, when a session is added.
ghost use Rattle.std.specs.Prelude.{◌≡◌, ℕ, ◌-◌, ◌*◌, ◌<◌, ◌≤◌, [], ◌∷◌, ◌++◌, IfOk, OnOk, length, slice_index};
ghost use Rattle.session_clocks.specs.Rows.{line_at};
ghost use Rattle.session_clocks.specs.Widths.{IsWidened, AreWidened};

use crate::rows::{line, row_in};
use std::alloc::Global;
use txn::NoMemory;

/// Puts a row behind the others, with a number more at its end.
fn push_wide(wide: &mut Vec<u64>, row: &[u64], number: u64) -> Result<(), NoMemory>
    ensures { OnOk result (wide.new.items ≡ wide.old.items ++ row.now ++ number ∷ []) }
{
    wide.extend_from_slice(row)?;
    wide.push(number)?;
    Ok(())
}

/// The rows of one session, each with a number more at its end.
fn widened(
    alloc: Global,
    numbers: &[u64],
    rows: usize,
    width: usize,
    number: u64,
) -> Result<Vec<u64>, NoMemory>
    requires { length numbers.now ≡ rows * width }
    ensures { IfOk result (λ wide. IsWidened numbers.now wide.items rows width number) }
{
    let mut wide = Vec::new(alloc);
    for row in 0..rows {
        push_wide(&mut wide, row_in(numbers, row, width), number)?;
    }
    Ok(wide)
}

/// The same of all sessions, with one more behind them that has no rows.
pub(crate) fn widened_lines(
    alloc: Global,
    lines: &[Vec<u64>],
    gone: &[u64],
    received: &[u64],
    number: u64,
) -> Result<Vec<Vec<u64>>, NoMemory>
    requires gone { length gone.now ≡ length lines.now }
    requires received { length received.now ≡ length lines.now }
    requires order { (session : ℕ) → slice_index gone.now session ≤ slice_index received.now session }
    requires rows { (session : ℕ) → session < length lines.now → length (line_at lines.now session) ≡ (slice_index received.now session - slice_index gone.now session) * length gone.now }
    ensures { IfOk result (λ wide. AreWidened lines.now wide.items gone.now received.now number) }
{
    let mut wide = Vec::new(alloc);
    for session in 0..lines.len() {
        let rows = (received[session] - gone[session]) as usize;
        let numbers = widened(alloc, line(lines, session), rows, gone.len(), number)?;
        wide.push(numbers)?;
    }
    wide.push(Vec::new(alloc))?;
    Ok(wide)
}

/// The numbers with one more behind them.
pub(crate) fn with_one(alloc: Global, numbers: &[u64], number: u64) -> Result<Vec<u64>, NoMemory>
    ensures { IfOk result (λ more. more.items ≡ numbers.now ++ number ∷ []) }
{
    let mut more = Vec::from_slice(alloc, numbers)?;
    more.push(number)?;
    Ok(more)
}
