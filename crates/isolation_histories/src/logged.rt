ghost use Rattle.std.specs.Prelude.{◌≡◌, IfOk};
ghost use Rattle.isolation_histories.specs.Splittable.{HasRoomToSplit};
ghost use Rattle.isolation_histories.specs.Logged.{doubled, split_logged};

use crate::splitting::split_fragment;
use logged_fragments::LoggedFragment;
use std::alloc::Global;
use txn::{NoMemory, Sequence};

/// Each flag twice.
fn doubled(alloc: Global, flags: &[bool]) -> Result<Vec<bool>, NoMemory>
    ensures { IfOk result (λ twice. twice.items ≡ doubled flags.now) }
{
    let mut twice = Vec::new(alloc);
    for flag in flags {
        twice.push(*flag)?;
        twice.push(*flag)?;
    }
    Ok(twice)
}

/// Splits a fragment that tells which of its transactions aborted: where one did, neither of its two did anything.
pub fn split_logged(alloc: Global, logged: &LoggedFragment) -> Result<LoggedFragment, NoMemory>
    requires { HasRoomToSplit logged.now.fragment }
    ensures { IfOk result (λ split. split ≡ split_logged logged.now) }
{
    let fragment = split_fragment(alloc, &logged.fragment)?;
    let aborted = doubled(alloc, logged.aborted.as_slice())?;
    Ok(LoggedFragment {
        fragment,
        aborted: Sequence::new(aborted),
    })
}
