ghost use Rattle.std.specs.Prelude.{◌≡◌, ◌<◌, ◌≤◌, ◌^◌, ◌++◌, All, length, IfOk, IfSome, OnOk};
ghost use Rattle.strict_histories.specs.Ends.{AreAllEndsOf};
ghost use Rattle.strict_histories.specs.Rewriting.{HasRoomForTimes, end_key, end_read, end_reads, end_writes, ends_since, strict_history, strict_txn, strict_txns};

use crate::ends::all_ends;
use crate::latest::{last_since, latest_begin};
use crate::timed::{Span, TimedTxn};
use std::alloc::Global;
use txn::{NUMBERS, NoMemory, Sequence, Source, Txn, TxnId};

/// Keys of histories with times are below it. Above it are the keys of ends.
pub const KEYS: u64 = 1 << 62;

/// The key that this transaction alone writes.
pub fn end_key(id: TxnId) -> u64
    requires { id.number < 2 ^ 48 }
    ensures { result ≡ end_key id }
{
    KEYS + u64::from(id.session) * NUMBERS + id.number
}

/// Puts the read of the key of a session's transaction at the end, if there is one.
fn push_end_read(
    reads: &mut Vec<(u64, Source)>,
    session: u8,
    last: Option<u64>,
) -> Result<(), NoMemory>
    requires { IfSome last (λ number. number < 2 ^ 48) }
    ensures { OnOk result (reads.new.items ≡ reads.old.items ++ end_read session last) }
{
    match last {
        Some(number) => {
            let id = TxnId { session, number };
            let key = end_key(id);
            reads.push((key, Source::By(id)))?;
            Ok(())
        }
        None => Ok(()),
    }
}

/// Puts at the end, of each session, the read of the last end before one with this span began, unless that is before this time. Each session's ends
/// are given.
fn push_ends_since(
    reads: &mut Vec<(u64, Source)>,
    since: Option<u64>,
    span: Span,
    timed: &[Sequence<TimedTxn>],
    ends: &[Sequence<(u64, u64)>],
) -> Result<(), NoMemory>
    requires sessions { length timed.now ≤ 256 }
    requires numbers { All (λ txns. length txns ≤ 2 ^ 48) timed.now }
    requires ends { AreAllEndsOf timed.now ends.now }
    ensures { OnOk result (reads.new.items ≡ reads.old.items ++ ends_since since span 0 timed.now) }
{
    for session in 0..timed.len() {
        let last = last_since(
            since,
            span,
            timed[session].as_slice(),
            ends[session].as_slice(),
        );
        push_end_read(reads, session as u8, last)?;
    }
    Ok(())
}

/// Puts at the end the reads by which one with this span comes after those that ended before it began. Each session's ends are given.
fn push_end_reads(
    reads: &mut Vec<(u64, Source)>,
    span: Span,
    timed: &[Sequence<TimedTxn>],
    ends: &[Sequence<(u64, u64)>],
) -> Result<(), NoMemory>
    requires sessions { length timed.now ≤ 256 }
    requires numbers { All (λ txns. length txns ≤ 2 ^ 48) timed.now }
    requires ends { AreAllEndsOf timed.now ends.now }
    ensures { OnOk result (reads.new.items ≡ reads.old.items ++ end_reads span timed.now) }
{
    let since = latest_begin(span, timed, ends);
    push_ends_since(reads, since, span, timed, ends)
}

/// Puts the transaction's own key at the end, if it's known when it ended.
fn push_end_writes(writes: &mut Vec<u64>, id: TxnId, ended: Option<u64>) -> Result<(), NoMemory>
    requires { id.number < 2 ^ 48 }
    ensures { OnOk result (writes.new.items ≡ writes.old.items ++ end_writes id ended) }
{
    match ended {
        Some(_) => {
            let key = end_key(id);
            writes.push(key)?;
            Ok(())
        }
        None => Ok(()),
    }
}

/// The transaction with this id, rewritten.
fn strict_txn(
    alloc: Global,
    timed: &[Sequence<TimedTxn>],
    ends: &[Sequence<(u64, u64)>],
    id: TxnId,
    txn: &TimedTxn,
) -> Result<Txn, NoMemory>
    requires sessions { length timed.now ≤ 256 }
    requires numbers { All (λ txns. length txns ≤ 2 ^ 48) timed.now }
    requires ends { AreAllEndsOf timed.now ends.now }
    requires number { id.number < 2 ^ 48 }
    ensures { IfOk result (λ rewritten. rewritten ≡ strict_txn timed.now id txn.now) }
{
    let mut reads = txn.txn.reads.as_slice().to_vec(alloc)?;
    push_end_reads(&mut reads, txn.span, timed, ends)?;
    let mut writes = txn.txn.writes.as_slice().to_vec(alloc)?;
    push_end_writes(&mut writes, id, txn.span.ended)?;
    Ok(Txn {
        reads: Sequence::new(reads),
        writes: Sequence::new(writes),
    })
}

/// A session's transactions, rewritten.
fn strict_session(
    alloc: Global,
    timed: &[Sequence<TimedTxn>],
    ends: &[Sequence<(u64, u64)>],
    session: u8,
    txns: &[TimedTxn],
) -> Result<Sequence<Txn>, NoMemory>
    requires sessions { length timed.now ≤ 256 }
    requires numbers { All (λ txns. length txns ≤ 2 ^ 48) timed.now }
    requires ends { AreAllEndsOf timed.now ends.now }
    requires short { length txns.now ≤ 2 ^ 48 }
    ensures { IfOk result (λ rewritten. rewritten ≡ strict_txns timed.now session 0 txns.now) }
{
    let mut all = Vec::new(alloc);
    for (place, txn) in txns.iter().enumerate() {
        let id = TxnId {
            session,
            number: place as u64,
        };
        let rewritten = strict_txn(alloc, timed, ends, id, txn)?;
        all.push(rewritten)?;
    }
    Ok(Sequence::new(all))
}

/// Rewrites a history with times, session by session. Each transaction reads at most one key more for each session, and writes
/// at most one more.
pub fn strict_history(
    alloc: Global,
    timed: &[Sequence<TimedTxn>],
) -> Result<Sequence<Sequence<Txn>>, NoMemory>
    requires { HasRoomForTimes timed.now }
    ensures { IfOk result (λ rewritten. rewritten ≡ strict_history timed.now) }
{
    let all_ends = all_ends(alloc, timed)?;
    let ends = all_ends.as_slice();
    let mut all = Vec::new(alloc);
    for (session, txns) in timed.iter().enumerate() {
        let rewritten = strict_session(alloc, timed, ends, session as u8, txns.as_slice())?;
        all.push(rewritten)?;
    }
    Ok(Sequence::new(all))
}
