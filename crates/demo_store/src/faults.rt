ghost use Rattle.std.specs.Prelude.{◌≡◌, ◌≢◌, ◌<◌, ◌↔◌, ℕ, length, take, Any, Contains, IsNone, IsTrue, MatchOption, Some};
ghost use Rattle.txn.specs.declared.transactions.Source.{Source};
ghost use Rattle.txn.specs.declared.transactions.Source.TheVariants.{Init, By};
ghost use Rattle.demo_store.specs.declared.requests.Fault.TheVariants.{None, StaleRead, LostUpdate, SplitRead, SessionBack, DirtyRead};
ghost use Rattle.demo_store.specs.Faults.{HasWritten, IsDirty, IsFirstOf, IsLie, IsLost, IsSplit, IsStale};
ghost use Rattle.demo_store.specs.Logs.{IsLastLost, IsLastPlace, NoneWrote};

use crate::lookups::{last_lost, last_place, source_of, writes};
use crate::requests::{Executed, Fault, Request};
use txn::{EPOCH, Source, Txn};

/// A key, and the source that its read is answered with in place of the right one.
#[derive(Clone, Copy)]
pub struct Lie {
    pub key: u64,
    pub source: Source,
}

/// The lie that the fault tells of this request, where it applies.
pub fn lie_of(fault: Fault, log: &[Executed], request: &Request) -> Option<Lie>
    ensures exact { MatchOption result ((key : ℕ) (source : Source) → ¬ IsLie fault log.now request.now key source) (λ lie. IsLie fault log.now request.now lie.key lie.source) }
    ensures honest { fault ≡ None → IsNone result }
{
    match fault {
        Fault::None => None,
        Fault::StaleRead => stale_read(log, request),
        Fault::LostUpdate => lost_update(log, request),
        Fault::SplitRead => split_read(log, request),
        Fault::SessionBack => session_back(log, request),
        Fault::DirtyRead => dirty_read(log, request),
    }
}

fn stale_read(log: &[Executed], request: &Request) -> Option<Lie>
    ensures { MatchOption result ((key : ℕ) (source : Source) → ¬ IsLie StaleRead log.now request.now key source) (λ lie. IsLie StaleRead log.now request.now lie.key lie.source) }
{
    for key in request.reads.as_slice() {
        if let Some(lie) = stale_key(log, *key) {
            return Some(lie);
        }
    }
    None
}

/// The writer of the key before the last.
fn stale_key(log: &[Executed], key: u64) -> Option<Lie>
    ensures { MatchOption result (key ≢ EPOCH → (source : Source) → ¬ IsStale log.now key source) (λ lie. (lie.key ≡ key) × (key ≢ EPOCH) × IsStale log.now key lie.source) }
{
    if key == EPOCH {
        return None;
    }
    let place = last_place(log, key)?;
    let source = source_of(&log[..place], key);
    Some(Lie { key, source })
}

fn lost_update(log: &[Executed], request: &Request) -> Option<Lie>
    ensures { MatchOption result ((key : ℕ) (source : Source) → ¬ IsLie LostUpdate log.now request.now key source) (λ lie. IsLie LostUpdate log.now request.now lie.key lie.source) }
{
    let writes = request.writes.as_slice();
    for key in request.reads.as_slice() {
        if let Some(lie) = lost_key(log, writes, *key) {
            return Some(lie);
        }
    }
    None
}

/// Where the last writer of the key read it from, if the key is among those that are written.
fn lost_key(log: &[Executed], writes: &[u64], key: u64) -> Option<Lie>
    ensures { MatchOption result
        (key ≢ EPOCH → Contains writes.now key → (source : Source) → ¬ IsLost log.now key source)
        (λ lie. (lie.key ≡ key) × (key ≢ EPOCH) × Contains writes.now key × IsLost log.now key lie.source) }
{
    if key == EPOCH || !writes.contains(&key) {
        return None;
    }
    let place = last_place(log, key)?;
    let source = source_read(&log[place].txn, key)?;
    Some(Lie { key, source })
}

fn source_read(txn: &Txn, key: u64) -> Option<Source>
    ensures { MatchOption result ((source : Source) → ¬ Contains txn.now.reads (key, source)) (λ source. Contains txn.now.reads (key, source)) }
{
    for read in txn.reads.as_slice() {
        if read.0 == key {
            return Some(read.1);
        }
    }
    None
}

fn split_read(log: &[Executed], request: &Request) -> Option<Lie>
    ensures { MatchOption result ((key : ℕ) (source : Source) → ¬ IsLie SplitRead log.now request.now key source) (λ lie. IsLie SplitRead log.now request.now lie.key lie.source) }
{
    for key in request.reads.as_slice() {
        if let Some(lie) = split_after(log, request.reads.as_slice(), *key) {
            return Some(lie);
        }
    }
    None
}

/// The least of the keys above this one whose only writer is this one's last.
fn split_after(log: &[Executed], keys: &[u64], lower: u64) -> Option<Lie>
    ensures { MatchOption result (lower ≢ EPOCH → ¬ Any (IsSplit log.now lower) keys.now) (λ lie. (lower ≢ EPOCH) × IsFirstOf (IsSplit log.now lower) keys.now lie.key × (lie.source ≡ Init)) }
{
    if lower == EPOCH {
        return None;
    }
    let writer = last_place(log, lower)?;
    for key in keys {
        if lower < *key && is_only_writer(log, *key, writer) {
            return Some(Lie {
                key: *key,
                source: Source::Init,
            });
        }
    }
    None
}

fn is_only_writer(log: &[Executed], key: u64, writer: usize) -> bool
    ensures { IsTrue result ↔ (IsLastPlace log.now key (Some writer) × NoneWrote (take writer log.now) key) }
{
    match last_place(log, key) {
        Some(place) => place == writer && last_place(&log[..place], key).is_none(),
        None => false,
    }
}

fn session_back(log: &[Executed], request: &Request) -> Option<Lie>
    ensures { MatchOption result ((key : ℕ) (source : Source) → ¬ IsLie SessionBack log.now request.now key source) (λ lie. IsLie SessionBack log.now request.now lie.key lie.source) }
{
    for key in request.reads.as_slice() {
        if *key != EPOCH && has_written(log, request.session, *key) {
            return Some(Lie {
                key: *key,
                source: Source::Init,
            });
        }
    }
    None
}

fn has_written(log: &[Executed], session: u8, key: u64) -> bool
    ensures { IsTrue result ↔ HasWritten log.now session key }
{
    for executed in log {
        if executed.id.session == session && writes(executed, key) {
            return true;
        }
    }
    false
}

fn dirty_read(log: &[Executed], request: &Request) -> Option<Lie>
    ensures { MatchOption result ((key : ℕ) (source : Source) → ¬ IsLie DirtyRead log.now request.now key source) (λ lie. IsLie DirtyRead log.now request.now lie.key lie.source) }
{
    for key in request.reads.as_slice() {
        if let Some(lie) = dirty_key(log, *key) {
            return Some(lie);
        }
    }
    None
}

/// The last aborted writer of the key.
fn dirty_key(log: &[Executed], key: u64) -> Option<Lie>
    ensures { MatchOption result (key ≢ EPOCH → (source : Source) → ¬ IsDirty log.now key source) (λ lie. (lie.key ≡ key) × (key ≢ EPOCH) × IsDirty log.now key lie.source) }
{
    if key == EPOCH {
        return None;
    }
    let id = last_lost(log, key)?;
    Some(Lie {
        key,
        source: Source::By(id),
    })
}
