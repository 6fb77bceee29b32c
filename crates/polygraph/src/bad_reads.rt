ghost use Rattle.std.specs.Prelude.{◌≡◌, Contains, IfOk, MatchOption};
ghost use Rattle.txn.specs.History.{reads_in};
ghost use Rattle.order_check.specs.BadReads.{HasBadRead};
ghost use Rattle.order_check.specs.Based.{remaining_at};
ghost use Rattle.polygraph.specs.Reading.{IsGoodRead, AreGoodReads, HaveNoBadRead};
ghost use Rattle.polygraph.specs.Shown.{IsBadRead, leaf_of};

use clock_choices::Branch;
use order_check::Parts;
use refutation::Leaf;
use std::alloc::Global;
use txn::{NoMemory, Source, TxnId};

/// A read that no order explains.
#[derive(Clone, Copy, Debug)]
pub enum BadRead {
    /// The transaction reads the key from one that remains and doesn't write it.
    Silent(TxnId, u64),
    /// The transaction reads the key from what is gone, but not from the last gone writer of it.
    Overwritten(TxnId, u64),
}

pub fn leaf_of(bad: BadRead) -> Leaf
    ensures { result ≡ leaf_of bad }
{
    match bad {
        BadRead::Silent(reader, key) => Leaf::NoWrite(reader, key),
        BadRead::Overwritten(reader, key) => Leaf::Gone(reader, key),
    }
}

/// What is bad about a read of the transaction.
#[tactic(auto, using(crate::proofs::NoBadReads::silent_bad, crate::proofs::NoBadReads::over_bad))]
fn bad_read_in(parts: &Parts, reader: TxnId, read: (u64, Source)) -> Option<BadRead>
    requires { Contains (reads_in (remaining_at parts.now reader)) read }
    ensures { MatchOption result (IsGoodRead parts.now read) (IsBadRead parts.now) }
{
    if parts.is_silent(read.0, read.1) {
        return Some(BadRead::Silent(reader, read.0));
    }
    if parts.is_overwritten(read.0, read.1) {
        return Some(BadRead::Overwritten(reader, read.0));
    }
    None
}

/// The first bad read of the transaction.
#[tactic(auto, using(crate::proofs::NoBadReads::reads_none, crate::proofs::NoBadReads::reads_next, crate::proofs::NoBadReads::reads_all))]
fn bad_read_of(parts: &Parts, reader: TxnId) -> Option<BadRead>
    ensures { MatchOption result (AreGoodReads parts.now (reads_in (remaining_at parts.now reader))) (IsBadRead parts.now) }
{
    for read in parts.reads_of(reader) {
        if let Some(bad) = bad_read_in(parts, reader, *read) {
            return Some(bad);
        }
    }
    None
}

/// The first bad read of these transactions.
#[tactic(auto, using(crate::proofs::NoBadReads::ids_none, crate::proofs::NoBadReads::ids_next, crate::proofs::NoBadReads::ids_all))]
fn bad_read_among(parts: &Parts, ids: &[TxnId]) -> Option<BadRead>
    ensures { MatchOption result (HaveNoBadRead parts.now ids.now) (IsBadRead parts.now) }
{
    for id in ids {
        if let Some(bad) = bad_read_of(parts, *id) {
            return Some(bad);
        }
    }
    None
}

/// A bad read, where there is one.
#[tactic(auto, using(crate::proofs::NoBadReads::none_bad))]
pub fn bad_read(alloc: Global, branch: &Branch) -> Result<Option<BadRead>, NoMemory>
    ensures { IfOk result (λ found. MatchOption found (¬ HasBadRead branch.now.parts) (IsBadRead branch.now.parts)) }
{
    let ids = branch.ids(alloc)?;
    Ok(bad_read_among(branch.parts(), ids.as_slice()))
}
