ghost use Rattle.std.specs.Prelude.{◌↔◌, IsTrue, All, MatchResult};
ghost use Rattle.txn.specs.Transactions.{IsShort};
ghost use Rattle.isolation_histories.specs.Offered.{HasOfferedLengths, CanBeOffered, OfferedFault};

use crate::splittable::{NUMBERS, has_low_numbers};
use txn::{Fragment, Refusal, Txn, TxnId, check_fragment, is_short, is_well_formed};

/// How many transactions a fragment may have: half as many as a fragment of their halves.
const FRAGMENT_LENGTH: u64 = 128;

fn are_short(txns: &[Txn]) -> bool
    ensures { IsTrue result ↔ All IsShort txns.now }
{
    txns.iter().all(|txn| is_short(txn))
}

fn has_offered_lengths(fragment: &Fragment) -> bool
    ensures { IsTrue result ↔ HasOfferedLengths fragment.now }
{
    let count = fragment.txns.len() as u64;
    1 <= count
        && count <= FRAGMENT_LENGTH
        && fragment.first <= NUMBERS
        && fragment.first + count <= NUMBERS
        && are_short(fragment.txns.as_slice())
}

/// Whether the fragment can be offered where its transactions are split, and sessions are numbered below this; if not, its first fault, as any
/// other fragment's: the session (BadSession), then the lengths (TooLong), then transaction by transaction the lists, keys and numbers
/// (BadTxn) before the epoch key (BadFence).
pub fn check_offered(sessions: u64, fragment: &Fragment) -> Result<(), Refusal>
    ensures { MatchResult result (λ _. CanBeOffered sessions fragment.now) (OfferedFault sessions fragment.now) }
{
    if u64::from(fragment.session) >= sessions {
        return Err(Refusal::BadSession);
    }
    if !has_offered_lengths(fragment) {
        return Err(Refusal::TooLong);
    }
    let judged = check_fragment(sessions, fragment);
    for (place, txn) in fragment.txns.as_slice().iter().enumerate() {
        let id = TxnId {
            session: fragment.session,
            number: fragment.first + place as u64,
        };
        if !has_low_numbers(txn) {
            return Err(Refusal::BadTxn);
        }
        if !is_well_formed(sessions, id, txn) {
            return judged;
        }
    }
    Ok(())
}
