ghost use Rattle.std.specs.Prelude.{◌≡◌, ◌↔◌, ℕ, ◌+◌, Bool, List, length, IfOk, OnOk, IsTrue, slice_index, slice_set, Some};
ghost use Rattle.std.specs.FinMap as map;
ghost use Rattle.order_check.specs.Based.{remaining_at};
ghost use Rattle.order_check.specs.CountedFronts.{AreFrontCounts, front_at};
ghost use Rattle.order_check.specs.Good.{IsGood};
ghost use Rattle.order_check.specs.Explains.{Explains, KeepsSessions, MeetsAllReads};
ghost use Rattle.order_check.specs.Replay.{last_writer, IsMetBy, AreMetBy, writer_after, IsNext, AreAllTaken};

use crate::fronts::Front;
use crate::remainder::{LastWriters, Parts};
use std::alloc::Global;
use txn::{NoMemory, Source, Txn, TxnId};

/// The last writer of the key: of those in front, or else of the gone ones.
fn last_writer(parts: &Front<'_>, front: &LastWriters, key: u64) -> Option<TxnId>
    ensures { result ≡ last_writer parts.now front.now key }
{
    match front.get(key) {
        Some(writer) => Some(writer),
        None => parts.last_gone(key),
    }
}

/// Whether a read of the key from the source is met.
fn is_met(parts: &Front<'_>, front: &LastWriters, key: u64, source: Source) -> bool
    requires { IsGood parts.now }
    ensures { IsTrue result ↔ IsMetBy parts.now front.now key source }
{
    let last = last_writer(parts, front, key);
    match source {
        Source::Init => last.is_none(),
        Source::By(writer) => last == Some(writer) || !parts.is_received(writer),
    }
}

/// Whether each read of the transaction is met.
fn are_met(parts: &Front<'_>, front: &LastWriters, txn: &Txn) -> bool
    requires { IsGood parts.now }
    ensures { IsTrue result ↔ AreMetBy parts.now front.now (Some txn.now) }
{
    txn.reads
        .as_slice()
        .iter()
        .all(|read| is_met(parts, front, read.0, read.1))
}

/// Makes the id the last writer of each key that the transaction writes.
fn note_writes(front: &mut LastWriters, id: TxnId, txn: &Txn) -> Result<(), NoMemory>
    ensures { OnOk result ((key : ℕ) → map.get front.new key ≡ writer_after id (Some txn.now) key (map.get front.old key)) }
{
    for key in txn.writes.as_slice() {
        front.insert(*key, id)?;
    }
    Ok(())
}

/// Whether the next id's reads are met; if they are, its writes are noted.
fn take_id(parts: &Front<'_>, front: &mut LastWriters, id: TxnId) -> Result<bool, NoMemory>
    requires { IsGood parts.now }
    ensures met { IfOk result (λ met. IsTrue met ↔ AreMetBy parts.now front.old (remaining_at parts.now id)) }
    ensures noted { IfOk result (λ met. IsTrue met → (key : ℕ) → map.get front.new key ≡ writer_after id (remaining_at parts.now id) key (map.get front.old key)) }
{
    let Some(txn) = parts.remaining_at(id) else {
        return Ok(true);
    };
    if !are_met(parts, front, txn) {
        return Ok(false);
    }
    note_writes(front, id, txn)?;
    Ok(true)
}

/// Whether each id's reads are met by what stands in front of it.
fn meets_all_reads(alloc: Global, parts: &Front<'_>, order: &[TxnId]) -> Result<bool, NoMemory>
    requires { IsGood parts.now }
    ensures { IfOk result (λ yes. IsTrue yes ↔ MeetsAllReads parts.now order.now) }
{
    let mut front = LastWriters::new(alloc);
    for id in order {
        let met = take_id(parts, &mut front, *id)?;
        if !met {
            return Ok(false);
        }
    }
    Ok(true)
}

/// Counts the id in its session, where it is the next one there that remains.
fn take_next(parts: &Front<'_>, taken: &mut Vec<usize>, id: TxnId) -> bool
    requires good { IsGood parts.now }
    requires counts { length taken.old.items ≡ length parts.now.remain }
    ensures next { IsTrue result ↔ IsNext parts.now taken.old.items id }
    ensures counted { IsTrue result → taken.new.items ≡ slice_set taken.old.items id.session (slice_index taken.old.items id.session + 1) }
{
    let Some(count) = taken.get_mut(usize::from(id.session)) else {
        return false;
    };
    if *count >= parts.remaining_of(id.session).len()
        || id.number != parts.mark_of(id.session) + *count as u64
    {
        return false;
    }
    *count += 1;
    true
}

/// Whether as many were counted of each session as remain of it.
fn are_all_taken(parts: &Front<'_>, taken: &[usize]) -> bool
    requires good { IsGood parts.now }
    requires counts { length taken.now ≡ length parts.now.remain }
    ensures { IsTrue result ↔ AreAllTaken parts.now taken.now }
{
    for session in 0..parts.sessions() {
        if taken[session] != parts.remaining_of(session as u8).len() {
            return false;
        }
    }
    true
}

/// Whether the order has what remains of each session, each id once and in order of number, and nothing else.
fn keeps_sessions(alloc: Global, parts: &Front<'_>, order: &[TxnId]) -> Result<bool, NoMemory>
    requires { IsGood parts.now }
    ensures { IfOk result (λ yes. IsTrue yes ↔ KeepsSessions parts.now order.now) }
{
    let mut taken = vec![in alloc; 0; parts.sessions()]?;
    for id in order {
        if !take_next(parts, &mut taken, *id) {
            return Ok(false);
        }
    }
    Ok(are_all_taken(parts, &taken))
}

/// Whether the order explains a front.
fn explains_all(alloc: Global, parts: &Front<'_>, order: &[TxnId]) -> Result<bool, NoMemory>
    requires { IsGood parts.now }
    ensures { IfOk result (λ yes. IsTrue yes ↔ Explains parts.now order.now) }
{
    if !keeps_sessions(alloc, parts, order)? {
        return Ok(false);
    }
    meets_all_reads(alloc, parts, order)
}

/// Whether the order explains the parts, whatever is handed in as an order: ids may be repeated or unknown.
pub fn explains(alloc: Global, parts: &Parts, order: &[TxnId]) -> Result<bool, NoMemory>
    requires { IsGood parts.now }
    ensures { IfOk result (λ yes. IsTrue yes ↔ Explains parts.now order.now) }
{
    let counts = parts.received_counts(alloc)?;
    explains_front(alloc, parts, counts.as_slice(), order)
}

/// Whether the order explains the front of the parts up to these counts, whichever sessions are open there. A read of an id that isn't
/// below its session's count is pending.
pub fn explains_front(
    alloc: Global,
    parts: &Parts,
    counts: &[u64],
    order: &[TxnId],
) -> Result<bool, NoMemory>
    requires good { IsGood parts.now }
    requires counts { AreFrontCounts parts.now counts.now }
    ensures { IfOk result (λ yes. (live : List Bool) → IsTrue yes ↔ Explains (front_at parts.now counts.now live) order.now) }
{
    let front = Front::new(parts, counts);
    explains_all(alloc, &front, order)
}
