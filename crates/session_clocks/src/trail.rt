// The numbers that additions write over, so that a graph can be taken back to a mark.
ghost use Rattle.std.specs.Prelude.{◌≡◌, ◌≢◌, ◌↔◌, ℕ, ◌+◌, ◌*◌, ◌<◌, ◌≤◌, [], ◌∷◌, All, IfOk, IsTrue, OnOk, length, set, take, drop, slice_index};
ghost use Rattle.session_clocks.specs.Rows.{line_at};
ghost use Rattle.session_clocks.specs.Sweeps.{FitTops, FitSpans, AreAsLong};
ghost use Rattle.session_clocks.specs.SavedNumbers.{Stays, place_in, IsWithin, IsMoreOf, since, had, IsRowSaved, IsTailSaved, IsSpanSaved, AreTailsSaved, AreSpansSaved};

use crate::rows::line;
use std::alloc::{AllocError, Global};
use txn::{NoMemory, TxnId};

/// A number of a line before it was written over, in 16 bytes: a search of many choices saves millions.
#[derive(Clone, Copy, Debug)]
pub(crate) struct Saved {
    pub line: u32,
    pub place: u32,
    pub number: u64,
}

/// What joining another row makes of a row's numbers.
#[derive(Clone, Copy, Debug)]
pub(crate) enum Way {
    Lowered,
    Raised,
}

/// How many arcs there were when a mark was set, and how many saved numbers of each kind.
#[derive(Clone, Copy, Debug)]
pub(crate) struct Mark {
    pub arcs: usize,
    pub first: usize,
    pub count: usize,
}

/// The marks, the first first, and the numbers that were written over behind them, in that order.
#[derive(Drop, Debug)]
pub(crate) struct Trail {
    pub marks: Vec<Mark>,
    pub first: Vec<Saved>,
    pub count: Vec<Saved>,
}

impl Trail {
    pub fn new(alloc: Global) -> Self
        ensures marks { result.marks.items ≡ [] }
        ensures first { result.first.items ≡ [] }
        ensures count { result.count.items ≡ [] }
    {
        Trail {
            marks: Vec::new(alloc),
            first: Vec::new(alloc),
            count: Vec::new(alloc),
        }
    }

    pub fn copied(&self, alloc: Global) -> Result<Trail, NoMemory>
        ensures marks { IfOk result (λ copy. copy.marks.items ≡ self.now.marks.items) }
        ensures first { IfOk result (λ copy. copy.first.items ≡ self.now.first.items) }
        ensures count { IfOk result (λ copy. copy.count.items ≡ self.now.count.items) }
    {
        let marks = Vec::from_slice(alloc, &self.marks)?;
        let first = Vec::from_slice(alloc, &self.first)?;
        let count = Vec::from_slice(alloc, &self.count)?;
        Ok(Trail {
            marks,
            first,
            count,
        })
    }

    /// Saves the numbers of first ones that an arc changes, if a mark is set.
    pub fn save_first(
        &mut self,
        lines: &[Vec<u64>],
        gone: &[u64],
        tops: &[u64],
        end: TxnId,
        row: &[u64],
    ) -> Result<(), NoMemory>
        requires session { end.session < length row.now }
        requires fit { FitTops lines.now gone.now tops.now (length row.now) }
        ensures marks { self.new.marks ≡ self.old.marks }
        ensures count { self.new.count ≡ self.old.count }
        ensures more { IsMoreOf lines.now self.old.first.items self.new.first.items }
        ensures saved { OnOk result (self.old.marks.items ≢ [] → AreTailsSaved lines.now (since self.old.first.items self.new.first.items) gone.now tops.now end row.now) }
    {
        if self.marks.is_empty() {
            return Ok(());
        }
        save_tails(&mut self.first, lines, gone, tops, end, row)
    }

    /// Saves the numbers of counts that an arc changes, if a mark is set.
    pub fn save_count(
        &mut self,
        lines: &[Vec<u64>],
        gone: &[u64],
        received: &[u64],
        starts: &[u64],
        start: TxnId,
        row: &[u64],
    ) -> Result<(), NoMemory>
        requires session { start.session < length row.now }
        requires fit { FitSpans lines.now gone.now received.now starts.now (length row.now) }
        ensures marks { self.new.marks ≡ self.old.marks }
        ensures first { self.new.first ≡ self.old.first }
        ensures more { IsMoreOf lines.now self.old.count.items self.new.count.items }
        ensures saved { OnOk result (self.old.marks.items ≢ [] → AreSpansSaved lines.now (since self.old.count.items self.new.count.items) gone.now received.now starts.now start row.now) }
    {
        if self.marks.is_empty() {
            return Ok(());
        }
        save_spans(&mut self.count, lines, gone, received, starts, start, row)
    }

    /// Forgets the marks.
    pub fn clear(&mut self)
        ensures marks { self.new.marks.items ≡ [] }
        ensures first { self.new.first.items ≡ [] }
        ensures count { self.new.count.items ≡ [] }
    {
        self.marks.clear();
        self.first.clear();
        self.count.clear();
    }
}

/// Whether joining the other number leaves the number as it is.
fn stays(way: Way, number: u64, other: u64) -> bool
    ensures { IsTrue result ↔ Stays way number other }
{
    match way {
        Way::Lowered => number <= other,
        Way::Raised => other <= number,
    }
}

/// A number as it is saved. A line of 2^32 numbers or more counts as want of memory.
fn saved_of(line: usize, place: usize, number: u64) -> Result<Saved, NoMemory>
    ensures { IfOk result (λ saved. saved ≡ record { line = line; place = place; number = number }) }
{
    match (u32::try_from(line), u32::try_from(place)) {
        (Ok(line), Ok(place)) => Ok(Saved {
            line,
            place,
            number,
        }),
        _ => Err(AllocError),
    }
}

/// Saves the numbers of one row of a line that joining the other row changes.
fn save_row(
    saved: &mut Vec<Saved>,
    lines: &[Vec<u64>],
    at_line: usize,
    at: usize,
    way: Way,
    row: &[u64],
) -> Result<(), NoMemory>
    requires line { at_line < length lines.now }
    requires within { at * length row.now + length row.now ≤ length (line_at lines.now at_line) }
    ensures more { IsMoreOf lines.now saved.old.items saved.new.items }
    ensures all { OnOk result (IsRowSaved way lines.now (since saved.old.items saved.new.items) at_line at row.now) }
{
    let numbers = line(lines, at_line);
    let from = at * row.len();
    for k in 0..row.len() {
        let number = numbers[from + k];
        if stays(way, number, row[k]) {
            continue;
        }
        saved.push(saved_of(at_line, from + k, number)?)?;
    }
    Ok(())
}

/// The same of the rows that lowering the tail of one session changes.
fn save_tail(
    saved: &mut Vec<Saved>,
    lines: &[Vec<u64>],
    at_line: usize,
    top: usize,
    end: TxnId,
    row: &[u64],
) -> Result<(), NoMemory>
    requires line { at_line < length lines.now }
    requires session { end.session < length row.now }
    requires within { top * length row.now ≤ length (line_at lines.now at_line) }
    ensures more { IsMoreOf lines.now saved.old.items saved.new.items }
    ensures all { OnOk result (IsTailSaved lines.now (since saved.old.items saved.new.items) at_line end.session end.number row.now top) }
{
    let numbers = line(lines, at_line);
    let session = usize::from(end.session);
    let width = row.len();
    for i in (0..top).rev() {
        if numbers[i * width + session] <= end.number {
            break;
        }
        save_row(saved, lines, at_line, i, Way::Lowered, row)?;
    }
    Ok(())
}

/// The same of the rows that raising them changes.
fn save_span(
    saved: &mut Vec<Saved>,
    lines: &[Vec<u64>],
    at_line: usize,
    from: usize,
    rows: usize,
    start: TxnId,
    row: &[u64],
) -> Result<(), NoMemory>
    requires line { at_line < length lines.now }
    requires session { start.session < length row.now }
    requires order { from ≤ rows }
    requires within { rows * length row.now ≤ length (line_at lines.now at_line) }
    ensures more { IsMoreOf lines.now saved.old.items saved.new.items }
    ensures all { OnOk result (IsSpanSaved lines.now (since saved.old.items saved.new.items) at_line start.session start.number row.now from rows) }
{
    let numbers = line(lines, at_line);
    let session = usize::from(start.session);
    let width = row.len();
    for i in from..rows {
        if start.number < numbers[i * width + session] {
            break;
        }
        save_row(saved, lines, at_line, i, Way::Raised, row)?;
    }
    Ok(())
}

/// The same in the lines of all sessions.
fn save_tails(
    saved: &mut Vec<Saved>,
    lines: &[Vec<u64>],
    gone: &[u64],
    tops: &[u64],
    end: TxnId,
    row: &[u64],
) -> Result<(), NoMemory>
    requires session { end.session < length row.now }
    requires fit { FitTops lines.now gone.now tops.now (length row.now) }
    ensures more { IsMoreOf lines.now saved.old.items saved.new.items }
    ensures all { OnOk result (AreTailsSaved lines.now (since saved.old.items saved.new.items) gone.now tops.now end row.now) }
{
    for at_line in 0..lines.len() {
        let top = tops[at_line].saturating_sub(gone[at_line]) as usize;
        save_tail(saved, lines, at_line, top, end, row)?;
    }
    Ok(())
}

/// The same of what is raised.
fn save_spans(
    saved: &mut Vec<Saved>,
    lines: &[Vec<u64>],
    gone: &[u64],
    received: &[u64],
    starts: &[u64],
    start: TxnId,
    row: &[u64],
) -> Result<(), NoMemory>
    requires session { start.session < length row.now }
    requires fit { FitSpans lines.now gone.now received.now starts.now (length row.now) }
    ensures more { IsMoreOf lines.now saved.old.items saved.new.items }
    ensures all { OnOk result (AreSpansSaved lines.now (since saved.old.items saved.new.items) gone.now received.now starts.now start row.now) }
{
    for at_line in 0..lines.len() {
        let rows = (received[at_line] - gone[at_line]) as usize;
        let from = starts[at_line].saturating_sub(gone[at_line]);
        let from = (from as usize).min(rows);
        save_span(saved, lines, at_line, from, rows, start, row)?;
    }
    Ok(())
}

fn set_number(numbers: &mut [u64], place: usize, number: u64)
    requires { place < length numbers.old }
    ensures { numbers.new ≡ set numbers.old place number }
{
    numbers[place] = number;
}

/// Puts a number back.
fn put(lines: &mut [Vec<u64>], saved: Saved)
    requires { IsWithin lines.old saved }
    ensures long { AreAsLong lines.old lines.new }
    ensures numbers { (line place : ℕ) → place_in lines.new line place ≡ had (saved ∷ []) (place_in lines.old) line place }
{
    set_number(
        &mut lines[saved.line as usize],
        saved.place as usize,
        saved.number,
    );
}

/// Puts all numbers back that were saved behind the first so many, and lets them go.
pub(crate) fn put_back(lines: &mut [Vec<u64>], saved: &mut Vec<Saved>, len: usize)
    requires within { All (IsWithin lines.old) saved.old.items }
    requires some { len ≤ length saved.old.items }
    ensures saved { saved.new.items ≡ take len saved.old.items }
    ensures long { AreAsLong lines.old lines.new }
    ensures numbers { (line place : ℕ) → place_in lines.new line place ≡ had (drop len saved.old.items) (place_in lines.old) line place }
{
    for at in (len..saved.len()).rev() {
        put(lines, saved[at]);
    }
    saved.truncate(len);
}
