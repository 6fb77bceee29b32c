// The lines of the sessions, each with a row for each transaction that is there.
ghost use Rattle.std.specs.Prelude.{◌≡◌, ◌⊎◌, ◌-◌, ◌^◌, ◌<◌, ◌≤◌, IfOk, OnOk, OnErr, length};
ghost use Rattle.session_clocks.specs.Lines.{AreEmptyLines, AreSameNumbers, IsSameList, HasFirstRow, HasCountRow};
ghost use Rattle.session_clocks.specs.Rows.{line_at, IsFirstRow, IsCountRow};

use crate::rows::{push_count, push_first};
use std::alloc::Global;
use txn::NoMemory;

/// Lines with no rows.
pub(crate) fn no_lines(alloc: Global, sessions: usize) -> Result<Vec<Vec<u64>>, NoMemory>
    ensures { IfOk result (λ lines. AreEmptyLines sessions lines.items) }
{
    let mut lines = Vec::with_capacity(alloc, sessions)?;
    for _ in 0..sessions {
        lines.push(Vec::new(alloc))?;
    }
    Ok(lines)
}

/// A copy of the lines.
pub(crate) fn copied(alloc: Global, lines: &[Vec<u64>]) -> Result<Vec<Vec<u64>>, NoMemory>
    ensures { IfOk result (λ copy. AreSameNumbers lines.now copy.items) }
{
    let mut copy = Vec::with_capacity(alloc, lines.len())?;
    for i in 0..lines.len() {
        copy.push(Vec::from_slice(alloc, &lines[i])?)?;
    }
    Ok(copy)
}

/// Puts the rows of a session's next transaction behind the others of its lines.
fn push_both(
    first: &mut Vec<u64>,
    count: &mut Vec<u64>,
    width: usize,
    session: usize,
    number: u64,
) -> Result<(), NoMemory>
    requires width { session < width }
    requires rows { (length count.old.items ≡ 0) ⊎ (width ≤ length count.old.items) }
    requires number { number < 2 ^ 64 - 1 }
    ensures first { OnOk result (IsFirstRow first.old.items first.new.items width session number) }
    ensures count { OnOk result (IsCountRow count.old.items count.new.items width session number) }
    ensures first_err { OnErr result (IsSameList first.old.items first.new.items) }
    ensures count_err { OnErr result (IsSameList count.old.items count.new.items) }
{
    let len = first.len();
    push_first(first, width, session, number)?;
    let pushed = push_count(count, width, session, number);
    if pushed.is_err() {
        first.truncate(len);
    }
    pushed
}

/// The same in the lines of all sessions.
pub(crate) fn push_rows(
    first: &mut [Vec<u64>],
    count: &mut [Vec<u64>],
    width: usize,
    session: usize,
    number: u64,
) -> Result<(), NoMemory>
    requires first { session < length first.old }
    requires count { session < length count.old }
    requires width { session < width }
    requires rows { (length (line_at count.old session) ≡ 0) ⊎ (width ≤ length (line_at count.old session)) }
    requires number { number < 2 ^ 64 - 1 }
    ensures first { OnOk result (HasFirstRow first.old first.new width session number) }
    ensures count { OnOk result (HasCountRow count.old count.new width session number) }
    ensures first_err { OnErr result (AreSameNumbers first.old first.new) }
    ensures count_err { OnErr result (AreSameNumbers count.old count.new) }
{
    push_both(
        &mut first[session],
        &mut count[session],
        width,
        session,
        number,
    )
}
