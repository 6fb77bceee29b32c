ghost use Rattle.std.specs.Prelude.{ℕ, ◌↔◌, All, IsTrue};
ghost use Rattle.txn.specs.Transactions.{IsWellFormedFragment};
ghost use Rattle.isolation_histories.specs.Splittable.{IsLowSource, HasLowNumbers, HasRoomToSplit, IsSplittable};

use txn::{Fragment, Source, Txn};

/// Keys of histories that are split are below it.
pub const KEYS: u64 = 1 << 63;

/// Transactions of a session of a history that is split are numbered below it.
pub const NUMBERS: u64 = 1 << 47;

fn is_low_source(source: Source) -> bool
    ensures { IsTrue result ↔ IsLowSource source }
{
    match source {
        Source::Init => true,
        Source::By(writer) => writer.number < NUMBERS,
    }
}

/// Whether each key of the transaction is below 2^63, and each writer that it reads from numbered below 2^47.
pub(crate) fn has_low_numbers(txn: &Txn) -> bool
    ensures { IsTrue result ↔ HasLowNumbers txn.now }
{
    txn.reads
        .as_slice()
        .iter()
        .all(|read| read.0 < KEYS && is_low_source(read.1))
        && txn.writes.as_slice().iter().all(|key| *key < KEYS)
}

fn have_low_numbers(txns: &[Txn]) -> bool
    ensures { IsTrue result ↔ All HasLowNumbers txns.now }
{
    for txn in txns {
        if !has_low_numbers(txn) {
            return false;
        }
    }
    true
}

/// Whether keys are below 2^63, and numbers below 2^47.
pub fn has_room_to_split(fragment: &Fragment) -> bool
    ensures { IsTrue result ↔ HasRoomToSplit fragment.now }
{
    let count = fragment.txns.len() as u64;
    match fragment.first.checked_add(count) {
        Some(end) => end <= NUMBERS && have_low_numbers(fragment.txns.as_slice()),
        None => false,
    }
}

/// Whether a fragment that is well formed, however many sessions there may be, can be split: keys are below 2^63, and numbers below 2^47.
pub fn is_splittable(fragment: &Fragment) -> bool
    ensures { (sessions : ℕ) → IsWellFormedFragment sessions fragment.now → (IsTrue result ↔ IsSplittable sessions fragment.now) }
{
    has_room_to_split(fragment)
}
