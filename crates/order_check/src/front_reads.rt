//! What the transactions in a front read and write.
ghost use Rattle.std.specs.Prelude.{◌≡◌, ◌↔◌, IsTrue};
ghost use Rattle.txn.specs.History.{reads_in};
ghost use Rattle.order_check.specs.BadReads.{IsSilent, IsOverwritten};
ghost use Rattle.order_check.specs.Based.{Remains, IsGone, remaining_at};
ghost use Rattle.order_check.specs.Known.{ReadsKey, WritesKey};

use crate::fronts::Front;
use txn::{Source, TxnId};

impl<'a> Front<'a> {
    /// Whether the transaction remains.
    pub fn remains(&self, id: TxnId) -> bool
        ensures { IsTrue result ↔ Remains self.now id }
    {
        self.remaining_at(id).is_some()
    }

    /// Whether the transaction is gone.
    pub fn is_gone(&self, id: TxnId) -> bool
        ensures { IsTrue result ↔ IsGone self.now id }
    {
        id.number < self.mark_of(id.session)
    }

    /// What the transaction reads; nothing where it doesn't remain.
    pub fn reads_of(&self, id: TxnId) -> &[(u64, Source)]
        ensures { result.now ≡ reads_in (remaining_at self.now id) }
    {
        match self.remaining_at(id) {
            Some(txn) => txn.reads.as_slice(),
            None => &[],
        }
    }
    /// Whether a remaining transaction reads the key from the source.
    pub fn reads(&self, id: TxnId, key: u64, source: Source) -> bool
        ensures { IsTrue result ↔ ReadsKey self.now id key source }
    {
        match self.remaining_at(id) {
            Some(txn) => txn.reads.as_slice().contains(&(key, source)),
            None => false,
        }
    }

    /// Whether a remaining transaction writes the key.
    pub fn writes(&self, id: TxnId, key: u64) -> bool
        ensures { IsTrue result ↔ WritesKey self.now id key }
    {
        match self.remaining_at(id) {
            Some(txn) => txn.writes.as_slice().contains(&key),
            None => false,
        }
    }

    /// Whether the source remains and doesn't write the key.
    pub fn is_silent(&self, key: u64, source: Source) -> bool
        ensures { IsTrue result ↔ IsSilent self.now key source }
    {
        match source {
            Source::Init => false,
            Source::By(writer) => self.remains(writer) && !self.writes(writer, key),
        }
    }

    /// Whether the source is gone, and isn't what the base has for the key.
    pub fn is_overwritten(&self, key: u64, source: Source) -> bool
        ensures { IsTrue result ↔ IsOverwritten self.now key source }
    {
        match source {
            Source::Init => self.last_gone(key).is_some(),
            Source::By(writer) => self.is_gone(writer) && self.last_gone(key) != Some(writer),
        }
    }
}
