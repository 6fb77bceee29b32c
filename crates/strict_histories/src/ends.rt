//! Ends of a session's transactions, among which the last one before a begin is found.
ghost use Rattle.std.specs.Prelude.{◌≡◌, ℕ, ◌≤◌, length, take, filter, nat_lt, Option, Some, IfOk, OnOk};
ghost use Rattle.strict_histories.specs.Rewriting.{is_earlier};
ghost use Rattle.strict_histories.specs.Ends.{AreAllEndsOf, AreEndsOf, AreRising, last_end, or_last};

use crate::timed::TimedTxn;
use std::alloc::Global;
use txn::{NoMemory, Sequence};

/// How many of these ends are before this time.
fn count_before(ends: &[(u64, u64)], time: u64) -> usize
    requires { AreRising ends.now }
    ensures within { result ≤ length ends.now }
    ensures front { take result ends.now ≡ filter (λ end. nat_lt end.0 time) ends.now }
{
    ends.partition_point(|end| end.0 < time)
}

/// Puts an end behind those that are before it. The others aren't looked for any more: who begins after them begins after this one, which is
/// of a later transaction.
fn push_end(ends: &mut Vec<(u64, u64)>, ended: u64, number: u64) -> Result<(), NoMemory>
    requires { AreRising ends.old.items }
    ensures rising { OnOk result (AreRising ends.new.items) }
    ensures same { OnOk result ((began : Option ℕ) → last_end began ends.new.items ≡ or_last (is_earlier (Some ended) began) number (last_end began ends.old.items)) }
{
    let before = count_before(ends.as_slice(), ended);
    ends.truncate(before);
    ends.push((ended, number))?;
    Ok(())
}

/// The same, if it is known.
fn note_end(ends: &mut Vec<(u64, u64)>, ended: Option<u64>, number: u64) -> Result<(), NoMemory>
    requires { AreRising ends.old.items }
    ensures rising { OnOk result (AreRising ends.new.items) }
    ensures same { OnOk result ((began : Option ℕ) → last_end began ends.new.items ≡ or_last (is_earlier ended began) number (last_end began ends.old.items)) }
{
    match ended {
        Some(ended) => push_end(ends, ended, number),
        None => Ok(()),
    }
}

/// A session's ends.
fn ends_of(alloc: Global, txns: &[TimedTxn]) -> Result<Sequence<(u64, u64)>, NoMemory>
    ensures { IfOk result (λ ends. AreEndsOf txns.now ends) }
{
    let mut ends = Vec::new(alloc);
    for (place, txn) in txns.iter().enumerate() {
        note_end(&mut ends, txn.span.ended, place as u64)?;
    }
    Ok(Sequence::new(ends))
}

/// Each session's ends.
pub(crate) fn all_ends(
    alloc: Global,
    timed: &[Sequence<TimedTxn>],
) -> Result<Sequence<Sequence<(u64, u64)>>, NoMemory>
    ensures { IfOk result (λ ends. AreAllEndsOf timed.now ends) }
{
    let mut all = Vec::new(alloc);
    for txns in timed {
        let ends = ends_of(alloc, txns.as_slice())?;
        all.push(ends)?;
    }
    Ok(Sequence::new(all))
}

/// The number beside the last of these ends that is before this time.
fn last_before(ends: &[(u64, u64)], time: u64) -> Option<u64>
    requires { AreRising ends.now }
    ensures { result ≡ last_end (Some time) ends.now }
{
    let count = count_before(ends, time);
    if count == 0 {
        return None;
    }
    Some(ends[count - 1].1)
}

/// The same of this begin, if it is known.
pub(crate) fn last_end(ends: &[(u64, u64)], began: Option<u64>) -> Option<u64>
    requires { AreRising ends.now }
    ensures { result ≡ last_end began ends.now }
{
    match began {
        Some(time) => last_before(ends, time),
        None => None,
    }
}
