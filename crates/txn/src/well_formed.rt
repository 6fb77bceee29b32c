ghost use Rattle.std.specs.Prelude.{◌≡◌, ◌↔◌, ◌≢◌, ℕ, IsTrue, All, MatchResult, Contains, nat_lt};
ghost use Rattle.txn.specs.Transactions.{Rises, read_below, IsSourceFor, HasGoodLists, IsFence, SparesEpoch, IsWellFormed, IsShort, HasGoodLengths, IsWellFormedFragment, FragmentFault, TxnFault};

use crate::refusals::Refusal;
use crate::transactions::{EPOCH, Fragment, Source, Txn, TxnId};

/// Transactions of a session are numbered below this.
pub const NUMBERS: u64 = 1 << 48;

/// How many transactions a fragment may have.
const FRAGMENT_LENGTH: u64 = 256;

/// How many reads a transaction may have, and how many writes.
const LIST_LENGTH: usize = 256;

/// By key, then source.
fn is_read_below(earlier: (u64, Source), later: (u64, Source)) -> bool
    ensures { result ≡ read_below earlier later }
{
    earlier < later
}

fn reads_rise(reads: &[(u64, Source)]) -> bool
    ensures { IsTrue result ↔ Rises read_below reads.now }
{
    for i in 1..reads.len() {
        if !is_read_below(reads[i - 1], reads[i]) {
            return false;
        }
    }
    true
}

fn writes_rise(writes: &[u64]) -> bool
    ensures { IsTrue result ↔ Rises nat_lt writes.now }
{
    for i in 1..writes.len() {
        if writes[i - 1] >= writes[i] {
            return false;
        }
    }
    true
}

fn is_source_for(sessions: u64, reader: TxnId, source: Source) -> bool
    ensures { IsTrue result ↔ IsSourceFor sessions reader source }
{
    match source {
        Source::Init => true,
        Source::By(writer) => {
            writer != reader && u64::from(writer.session) < sessions && writer.number < NUMBERS
        }
    }
}

fn has_good_lists(sessions: u64, id: TxnId, txn: &Txn) -> bool
    ensures { IsTrue result ↔ HasGoodLists sessions id txn.now }
{
    reads_rise(txn.reads.as_slice())
        && writes_rise(txn.writes.as_slice())
        && txn
            .reads
            .as_slice()
            .iter()
            .all(|read| is_source_for(sessions, id, read.1))
}

fn is_fence(txn: &Txn) -> bool
    ensures { IsTrue result ↔ IsFence txn.now }
{
    match (txn.reads.as_slice(), txn.writes.as_slice()) {
        ([read], [key]) => read.0 == EPOCH && *key == EPOCH,
        _ => false,
    }
}

fn spares_epoch(txn: &Txn) -> bool
    ensures { IsTrue result ↔ SparesEpoch txn.now }
{
    txn.reads.as_slice().iter().all(|read| read.0 != EPOCH)
        && txn.writes.as_slice().iter().all(|key| *key != EPOCH)
}

fn check_txn(sessions: u64, id: TxnId, txn: &Txn) -> Result<(), Refusal>
    ensures { MatchResult result (λ _. IsWellFormed sessions id txn.now) (TxnFault sessions id txn.now) }
{
    if !has_good_lists(sessions, id, txn) {
        return Err(Refusal::BadTxn);
    }
    if is_fence(txn) || spares_epoch(txn) {
        Ok(())
    } else {
        Err(Refusal::BadFence)
    }
}

/// Whether the transaction is well formed as the one with this id, where sessions are numbered below this.
pub fn is_well_formed(sessions: u64, id: TxnId, txn: &Txn) -> bool
    ensures { IsTrue result ↔ IsWellFormed sessions id txn.now }
{
    check_txn(sessions, id, txn).is_ok()
}

/// Whether no list of the transaction is too long.
pub fn is_short(txn: &Txn) -> bool
    ensures { IsTrue result ↔ IsShort txn.now }
{
    txn.reads.len() <= LIST_LENGTH && txn.writes.len() <= LIST_LENGTH
}

fn has_good_lengths(fragment: &Fragment) -> bool
    ensures { IsTrue result ↔ HasGoodLengths fragment.now }
{
    let count = fragment.txns.len() as u64;
    1 <= count
        && count <= FRAGMENT_LENGTH
        && fragment.first <= NUMBERS
        && fragment.first + count <= NUMBERS
        && fragment.txns.as_slice().iter().all(|txn| is_short(txn))
}

/// Whether the fragment is well formed, where sessions are numbered below this; if not, its first fault: the session (BadSession), then the
/// lengths (TooLong), then transaction by transaction the lists (BadTxn) before the epoch key (BadFence).
pub fn check_fragment(sessions: u64, fragment: &Fragment) -> Result<(), Refusal>
    ensures { MatchResult result (λ _. IsWellFormedFragment sessions fragment.now) (FragmentFault sessions fragment.now) }
{
    if u64::from(fragment.session) >= sessions {
        return Err(Refusal::BadSession);
    }
    if !has_good_lengths(fragment) {
        return Err(Refusal::TooLong);
    }
    let mut number = fragment.first;
    for txn in fragment.txns.as_slice() {
        let id = TxnId {
            session: fragment.session,
            number,
        };
        match check_txn(sessions, id, txn) {
            Ok(()) => {}
            Err(refusal) => return Err(refusal),
        }
        number += 1;
    }
    Ok(())
}
