// The rows of what stays, when a session's last transaction goes.
ghost use Rattle.std.specs.Prelude.{◌≤◌, ◌<◌, length};
ghost use Rattle.session_clocks.specs.Removals.{IsCut, HasRowLess};
ghost use Rattle.session_clocks.specs.Rows.{line_at};

/// Takes so many of the last numbers away.
fn cut(numbers: &mut Vec<u64>, count: usize)
    requires { count ≤ length numbers.old.items }
    ensures { IsCut numbers.old.items numbers.new.items count }
{
    let len = numbers.len() - count;
    numbers.truncate(len);
}

/// Takes the last row of a session away.
pub(crate) fn pop_row(lines: &mut [Vec<u64>], session: usize, width: usize)
    requires session { session < length lines.old }
    requires row { width ≤ length (line_at lines.old session) }
    ensures { HasRowLess lines.old lines.new width session }
{
    cut(&mut lines[session], width);
}
