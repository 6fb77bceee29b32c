// Rows of numbers, which stand behind one another in one list.
ghost use Rattle.std.specs.Prelude.{◌≡◌, ◌⊎◌, ℕ, ◌+◌, ◌-◌, ◌*◌, ◌^◌, ◌<◌, ◌≤◌, ◌++◌, IfOk, OnOk, OnErr, length, replicate, slice_index};
ghost use Rattle.session_clocks.specs.Rows.{line_at, number_at, clock_of, HasRow, IsLesser, IsGreater, IsFirstRow, IsCountRow, IsFirstOf, IsCountOf};

use std::alloc::{AllocError, Global};
use txn::{NoMemory, TxnId};

/// In the row of a transaction, of a session that it doesn't reach.
pub(crate) const NONE: u64 = u64::MAX;

/// Lowers the numbers from a place on to those of a row.
pub(crate) fn lower(numbers: &mut [u64], at: usize, row: &[u64])
    requires { at + length row.now ≤ length numbers.old }
    ensures joined { (k : ℕ) → k < length row.now → IsLesser (slice_index numbers.old (at + k)) (slice_index row.now k) (slice_index numbers.new (at + k)) }
    ensures others { (j : ℕ) → (j < at) ⊎ (at + length row.now ≤ j) → slice_index numbers.new j ≡ slice_index numbers.old j }
{
    for (k, number) in row.iter().enumerate() {
        if *number < numbers[at + k] {
            numbers[at + k] = *number;
        }
    }
}

/// Raises the numbers from a place on to those of a row.
pub(crate) fn raise(numbers: &mut [u64], at: usize, row: &[u64])
    requires { at + length row.now ≤ length numbers.old }
    ensures joined { (k : ℕ) → k < length row.now → IsGreater (slice_index numbers.old (at + k)) (slice_index row.now k) (slice_index numbers.new (at + k)) }
    ensures others { (j : ℕ) → (j < at) ⊎ (at + length row.now ≤ j) → slice_index numbers.new j ≡ slice_index numbers.old j }
{
    for (k, number) in row.iter().enumerate() {
        if numbers[at + k] < *number {
            numbers[at + k] = *number;
        }
    }
}

/// Copies a row behind it.
fn copy_row(numbers: &mut [u64], from: usize, to: usize, width: usize)
    requires apart { from + width ≤ to }
    requires within { to + width ≤ length numbers.old }
    ensures copied { (k : ℕ) → k < width → slice_index numbers.new (to + k) ≡ slice_index numbers.old (from + k) }
    ensures others { (j : ℕ) → (j < to) ⊎ (to + width ≤ j) → slice_index numbers.new j ≡ slice_index numbers.old j }
{
    for k in 0..width {
        numbers[to + k] = numbers[from + k];
    }
}

/// Puts a row behind the others that has the same number at each place.
fn push_same(numbers: &mut Vec<u64>, width: usize, number: u64) -> Result<(), NoMemory>
    ensures ok { OnOk result (numbers.new.items ≡ numbers.old.items ++ replicate width number) }
    ensures err { OnErr result (numbers.new.items ≡ numbers.old.items) }
{
    let Some(len) = numbers.len().checked_add(width) else {
        return Err(AllocError);
    };
    numbers.resize(len, number)
}

/// Puts a row behind the others: the first ones that the session's next transaction reaches. It is the one behind it in its
/// own session, whether that is there yet or not.
pub(crate) fn push_first(
    numbers: &mut Vec<u64>,
    width: usize,
    session: usize,
    number: u64,
) -> Result<(), NoMemory>
    requires session { session < width }
    requires number { number < 2 ^ 64 - 1 }
    ensures ok { OnOk result (IsFirstRow numbers.old.items numbers.new.items width session number) }
    ensures err { OnErr result (numbers.new.items ≡ numbers.old.items) }
{
    let at = numbers.len();
    push_same(numbers, width, NONE)?;
    numbers[at + session] = number + 1;
    Ok(())
}

/// Puts a row behind the others: how many reach the session's next transaction. These are those that reach the one before
/// it, if that is there, and all of its own session.
pub(crate) fn push_count(
    numbers: &mut Vec<u64>,
    width: usize,
    session: usize,
    number: u64,
) -> Result<(), NoMemory>
    requires session { session < width }
    requires rows { (length numbers.old.items ≡ 0) ⊎ (width ≤ length numbers.old.items) }
    ensures ok { OnOk result (IsCountRow numbers.old.items numbers.new.items width session number) }
    ensures err { OnErr result (numbers.new.items ≡ numbers.old.items) }
{
    let at = numbers.len();
    push_same(numbers, width, 0)?;
    if at > 0 {
        copy_row(numbers, at - width, at, width);
    }
    numbers[at + session] = number;
    Ok(())
}

/// The numbers of a session's rows, none past the last session.
pub(crate) fn line(lines: &[Vec<u64>], session: usize) -> &[u64]
    ensures { result.now ≡ line_at lines.now session }
{
    match lines.get(session) {
        Some(line) => line,
        None => &[],
    }
}

/// A row of a session.
pub(crate) fn row_in(line: &[u64], row: usize, width: usize) -> &[u64]
    requires { row * width + width ≤ length line.now }
    ensures len { length result.now ≡ width }
    ensures numbers { (k : ℕ) → k < width → slice_index result.now k ≡ number_at width line.now row k }
{
    &line[row * width..row * width + width]
}

/// A transaction's row.
pub(crate) fn row_of<'a>(lines: &'a [Vec<u64>], gone: &[u64], id: TxnId) -> &'a [u64]
    requires row { HasRow gone.now lines.now id }
    ensures len { length result.now ≡ length gone.now }
    ensures numbers { (session : ℕ) → session < length gone.now → slice_index result.now session ≡ clock_of gone.now lines.now id session }
{
    let session = usize::from(id.session);
    let row = (id.number - gone[session]) as usize;
    row_in(line(lines, session), row, gone.len())
}

/// The number that a transaction's row has for a session.
pub(crate) fn clock(lines: &[Vec<u64>], gone: &[u64], id: TxnId, session: usize) -> u64
    requires row { HasRow gone.now lines.now id }
    requires session { session < length gone.now }
    ensures { result ≡ clock_of gone.now lines.now id session }
{
    row_of(lines, gone, id)[session]
}

/// The first ones of each session that a transaction is or reaches.
pub(crate) fn first_row(
    alloc: Global,
    lines: &[Vec<u64>],
    gone: &[u64],
    id: TxnId,
) -> Result<Vec<u64>, NoMemory>
    requires row { HasRow gone.now lines.now id }
    ensures { IfOk result (λ row. IsFirstOf gone.now lines.now id row.items) }
{
    let mut row = Vec::from_slice(alloc, row_of(lines, gone, id))?;
    let own = usize::from(id.session);
    if id.number < row[own] {
        row[own] = id.number;
    }
    Ok(row)
}

/// How many of each session are a transaction or reach it.
pub(crate) fn count_row(
    alloc: Global,
    lines: &[Vec<u64>],
    gone: &[u64],
    id: TxnId,
) -> Result<Vec<u64>, NoMemory>
    requires row { HasRow gone.now lines.now id }
    requires number { id.number < 2 ^ 64 - 1 }
    ensures { IfOk result (λ row. IsCountOf gone.now lines.now id row.items) }
{
    let mut row = Vec::from_slice(alloc, row_of(lines, gone, id))?;
    let own = usize::from(id.session);
    if row[own] <= id.number {
        row[own] = id.number + 1;
    }
    Ok(row)
}
