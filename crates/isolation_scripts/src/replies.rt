ghost use Rattle.std.specs.Prelude.{◌≡◌, ◌+◌, ◌/◌, ◌%◌, ◌^◌, nat_eq, nat_lt, map, IfOk};
ghost use Rattle.log_text.specs.Replies.{HasKindOfOrder};
ghost use Rattle.isolation_scripts.specs.Isolated.{halved, committed, own_writers, half_gone, half_begun, whole_writer, given_of, isolated_of};

use crate::wholes::{whole_fragment, whole_of};
use isolation_histories::plain_key;
use log_text::{Names, Reply, Saved};
use std::alloc::Global;
use txn::{NoMemory, Sequence, TxnId};

/// Keys from here on are stars.
const KEYS: u64 = 1 << 63;

fn halved(alloc: Global, counts: &[u64]) -> Result<Sequence<u64>, NoMemory>
    ensures { IfOk result (λ halves. halves ≡ halved counts.now) }
{
    let mut halves = Vec::with_capacity(alloc, counts.len())?;
    for count in counts {
        halves.push(*count / 2)?;
    }
    Ok(Sequence::new(halves))
}

fn is_commit(half: TxnId) -> bool
    ensures { result ≡ nat_eq (half.number % 2) 1 }
{
    half.number % 2 == 1
}

fn committed(alloc: Global, halves: &[TxnId]) -> Result<Sequence<TxnId>, NoMemory>
    ensures { IfOk result (λ whole. whole ≡ committed halves.now) }
{
    let mut whole = Vec::new(alloc);
    for half in halves {
        if is_commit(*half) {
            whole.push(whole_of(*half))?;
        }
    }
    Ok(Sequence::new(whole))
}

fn is_own(entry: (u64, TxnId)) -> bool
    ensures { result ≡ nat_lt entry.0 (2 ^ 63) }
{
    entry.0 < KEYS
}

fn own_writers(alloc: Global, last: &[(u64, TxnId)]) -> Result<Sequence<(u64, TxnId)>, NoMemory>
    ensures { IfOk result (λ own. own ≡ own_writers last.now) }
{
    let mut own = Vec::new(alloc);
    for entry in last {
        if is_own(*entry) {
            own.push((entry.0, whole_of(entry.1)))?;
        }
    }
    Ok(Sequence::new(own))
}

fn is_odd(mark: u64) -> bool
    ensures { result ≡ nat_eq (mark % 2) 1 }
{
    mark % 2 == 1
}

fn half_gone(marks: &[u64]) -> usize
    ensures { result ≡ half_gone marks.now }
{
    let mut count = 0;
    for mark in marks {
        if is_odd(*mark) {
            count += 1;
        }
    }
    count
}

/// So many halves are so many transactions, of which these are halves that are left alone.
fn remaining_of(remaining: u64, marks: &[u64]) -> u64
    ensures { result ≡ (remaining + half_gone marks.now) / 2 }
{
    let alone = half_gone(marks) as u64;
    remaining / 2 + alone / 2 + (remaining % 2 + alone % 2) / 2
}

fn half_begun(alloc: Global, marks: &[u64]) -> Result<Sequence<bool>, NoMemory>
    ensures { IfOk result (λ begun. begun ≡ half_begun marks.now) }
{
    let mut begun = Vec::with_capacity(alloc, marks.len())?;
    for mark in marks {
        begun.push(is_odd(*mark))?;
    }
    Ok(Sequence::new(begun))
}

/// A key's last gone writer; that of a begin is told under the key and 2^63.
fn whole_writer(entry: (u64, TxnId)) -> (u64, TxnId)
    ensures { result ≡ whole_writer entry }
{
    let (key, half) = entry;
    let told = if is_commit(half) {
        key
    } else {
        KEYS + plain_key(key)
    };
    (told, whole_of(half))
}

fn whole_writers(alloc: Global, last: &[(u64, TxnId)]) -> Result<Sequence<(u64, TxnId)>, NoMemory>
    ensures { IfOk result (λ whole. whole ≡ map whole_writer last.now) }
{
    let mut whole = Vec::with_capacity(alloc, last.len())?;
    for entry in last {
        whole.push(whole_writer(*entry))?;
    }
    Ok(Sequence::new(whole))
}

/// How what is given out of split parts is told.
fn given_of(alloc: Global, saved: Saved) -> Result<Saved, NoMemory>
    ensures { IfOk result (λ given. given ≡ given_of saved) }
{
    match saved {
        Saved::Marks { marks, closed } => Ok(Saved::MarksBegun {
            marks: halved(alloc, marks.as_slice())?,
            closed,
            begun: half_begun(alloc, marks.as_slice())?,
        }),
        Saved::Last(last) => Ok(Saved::Last(whole_writers(alloc, last.as_slice())?)),
        Saved::Offer(halves) => Ok(Saved::Offer(whole_fragment(alloc, &halves)?)),
        saved => Ok(saved),
    }
}

/// How a reply of an auditor whose transactions are split is told.
pub fn isolated_of(alloc: Global, reply: Reply) -> Result<Reply, NoMemory>
    ensures told { IfOk result (λ answer. answer ≡ isolated_of reply) }
    ensures kind { IfOk result (λ answer. HasKindOfOrder reply → HasKindOfOrder answer) }
{
    match reply {
        Reply::Order {
            names: _,
            round,
            kind,
            counts,
            order,
        } => Ok(Reply::Order {
            names: Names::Events,
            round,
            kind,
            counts: halved(alloc, counts.as_slice())?,
            order,
        }),
        Reply::Violated {
            names: _,
            round,
            counts,
            tree,
        } => Ok(Reply::Violated {
            names: Names::Events,
            round,
            counts: halved(alloc, counts.as_slice())?,
            tree,
        }),
        Reply::Spent { round, counts } => Ok(Reply::Spent {
            round,
            counts: halved(alloc, counts.as_slice())?,
        }),
        Reply::Cut { fence, gone, last } => Ok(Reply::Cut {
            fence: whole_of(fence),
            gone: committed(alloc, gone.as_slice())?,
            last: own_writers(alloc, last.as_slice())?,
        }),
        Reply::Show {
            marks,
            received,
            closed,
            last,
            remaining,
        } => {
            let remaining = remaining_of(remaining, marks.as_slice());
            Ok(Reply::Show {
                marks: halved(alloc, marks.as_slice())?,
                received: halved(alloc, received.as_slice())?,
                closed,
                last: own_writers(alloc, last.as_slice())?,
                remaining,
            })
        }
        Reply::Saved(saved) => Ok(Reply::Saved(given_of(alloc, saved)?)),
        reply => Ok(reply),
    }
}
