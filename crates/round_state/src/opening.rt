//! What a fresh engine is made of.
ghost use Rattle.std.specs.Prelude.{◌≡◌, ◌↔◌, IsTrue, false, replicate, IfOk};
ghost use Rattle.round_state.specs.Opening.{IsSessions, IsLimit, no_history, empty_parts};

use order_check::{Base, LastWriters, Parts};
use std::alloc::Global;
use txn::{NoMemory, Sequence, Txn};

/// The greatest number of sessions that there may ever be.
const GREATEST_SESSIONS: u64 = 256;

/// The greatest number of transactions that may remain.
const GREATEST_LIMIT: u64 = 1_048_576;

/// Whether an audit may begin with so many sessions, where there may be at most so many.
pub fn is_sessions(most: u64, sessions: u64) -> bool
    ensures { IsTrue result ↔ IsSessions most sessions }
{
    1 <= sessions && sessions <= most && most <= GREATEST_SESSIONS
}

/// Whether so many transactions may be let remain.
pub fn is_limit(limit: u64) -> bool
    ensures { IsTrue result ↔ IsLimit limit }
{
    1 <= limit && limit <= GREATEST_LIMIT
}

fn empty_sessions(alloc: Global, count: usize) -> Result<Sequence<Sequence<Txn>>, NoMemory>
    ensures { IfOk result (λ sessions. sessions ≡ no_history count) }
{
    let mut remain = Vec::with_capacity(alloc, count)?;
    for session in 0..count {
        remain.push(Sequence::new(Vec::new(alloc)))?;
    }
    Ok(Sequence::new(remain))
}

fn zero_marks(alloc: Global, count: usize) -> Result<Sequence<u64>, NoMemory>
    ensures { IfOk result (λ marks. marks ≡ replicate count 0) }
{
    Ok(Sequence::new(vec![in alloc; 0u64; count]?))
}

fn open_flags(alloc: Global, count: usize) -> Result<Sequence<bool>, NoMemory>
    ensures { IfOk result (λ closed. closed ≡ replicate count false) }
{
    Ok(Sequence::new(vec![in alloc; false; count]?))
}

pub(crate) fn empty_parts(
    alloc: Global,
    most_sessions: u64,
    sessions: u64,
    limit: u64,
) -> Result<Parts, NoMemory>
    ensures { IfOk result (λ parts. parts ≡ empty_parts most_sessions sessions limit) }
{
    let count = sessions as usize;
    let base = Base {
        last: LastWriters::new(alloc),
        marks: zero_marks(alloc, count)?,
    };
    Ok(Parts {
        base,
        remain: empty_sessions(alloc, count)?,
        closed: open_flags(alloc, count)?,
        most_sessions,
        limit,
    })
}
