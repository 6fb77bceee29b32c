ghost use Rattle.std.specs.Prelude.{◌≡◌, ◌↔◌, [], ◌∷◌, Contains, All, Any, ◌++◌, ◌<◌, length, IsTrue, OnOk, OnErr};
ghost use Rattle.std.specs.Map.{lookup};
ghost use Rattle.txn.specs.Transactions.{id_below, same_id, Rises};
ghost use Rattle.pending_reads.specs.Waiting.{Index, waiting_for, Waits, HasWaiting, HasWaitingIn, ChangesOnly, AreNew, HasAlso, WaitsAlso, WaitsAsBefore, all_but_last, AreDistinct, HasReader};

use std::alloc::Global;
use std::collections::BTreeMap;
use std::marker::Model;
use txn::{NoMemory, Sequence, TxnId};

/// A read that waits for the transaction that it reads from.
#[derive(Clone, Copy, Debug, PartialEq, Eq)]
pub struct PendingRead {
    pub reader: TxnId,
    pub key: u64,
    pub writer: TxnId,
}

/// The reads that wait, by the transaction that each waits for. Contracts see that list.
#[derive(Clone, Drop, Debug)]
pub struct PendingReads {
    alloc: Global,
    awaited: BTreeMap<TxnId, Sequence<(TxnId, u64)>>,
}

impl Model for PendingReads {
    ghost use Rattle.pending_reads.specs.Waiting.{Index, IsKept};

    ghost Value = { Index };

    ghost view = { λ p. p.awaited.entries };

    ghost invariant = { λ p. IsKept p.awaited.entries };
}

impl PendingReads {
    pub fn new(alloc: Global) -> Self
        ensures { result ≡ [] }
    {
        PendingReads {
            alloc,
            awaited: BTreeMap::new(alloc),
        }
    }

    /// Adds a read that waits for the writer. Beside memory it takes time of the logarithm of the awaited transactions.
    pub fn add(&mut self, reader: TxnId, key: u64, writer: TxnId) -> Result<(), NoMemory>
        requires { ¬ Waits self.old reader key writer }
        ensures ok { OnOk result (ChangesOnly self.old self.new writer (waiting_for self.old writer ++ (reader, key) ∷ [])) }
        ensures err { OnErr result (self.new ≡ self.old) }
    {
        let read = (reader, key);
        if let Some(reads) = self.awaited.get_mut(&writer) {
            reads.push(read)?;
            return Ok(());
        }
        let reads = vec![in self.alloc; read]?;
        self.awaited.insert(writer, Sequence::new(reads))?;
        Ok(())
    }

    /// Adds reads that wait: all of them, or none. Each takes the time of `add`.
    pub fn add_all(&mut self, reads: &[PendingRead]) -> Result<(), NoMemory>
        requires { AreNew self.old reads.now }
        ensures ok { OnOk result (HasAlso self.old self.new reads.now × WaitsAlso self.old self.new reads.now) }
        ensures err { OnErr result (WaitsAsBefore self.old self.new) }
    {
        for place in 0..reads.len() {
            let read = reads[place];
            if let Err(refused) = self.add(read.reader, read.key, read.writer) {
                self.take_back_all(&reads[..place]);
                return Err(refused);
            }
        }
        Ok(())
    }

    /// Takes out reads that were added last.
    fn take_back_all(&mut self, reads: &[PendingRead])
        ensures { (before : Index) → HasAlso before self.old reads.now → WaitsAsBefore before self.new }
    {
        let mut left = reads.len();
        while left > 0 {
            left -= 1;
            self.take_back(reads[left].writer);
        }
    }

    /// Takes out the read that was added last of those that wait for the writer. It takes no memory.
    fn take_back(&mut self, writer: TxnId)
        ensures { ChangesOnly self.old self.new writer (all_but_last (waiting_for self.old writer)) }
    {
        if !self.has_several(writer) {
            self.awaited.remove(&writer);
            return;
        }
        let Some(reads) = self.awaited.get_mut(&writer) else {
            return;
        };
        reads.pop();
    }

    fn has_several(&self, writer: TxnId) -> bool
        ensures { IsTrue result ↔ (1 < length (waiting_for self.now writer)) }
    {
        match self.awaited.get(&writer) {
            Some(reads) => reads.len() > 1,
            None => false,
        }
    }

    /// Takes out the reads that wait for the writer, in the order in which they were added. It takes no memory, and time of the
    /// logarithm of the awaited transactions: the list is handed out as it is.
    pub fn arrive(&mut self, writer: TxnId) -> Sequence<(TxnId, u64)>
        ensures handed { result ≡ waiting_for self.old writer }
        ensures once { AreDistinct result }
        ensures after { ChangesOnly self.old self.new writer [] }
    {
        match self.awaited.remove(&writer) {
            Some(reads) => reads,
            None => Sequence::new(Vec::new(self.alloc)),
        }
    }

    /// Whether any read waits, in constant time.
    pub fn any(&self) -> bool
        ensures { IsTrue result ↔ HasWaiting self.now }
    {
        !self.awaited.is_empty()
    }

    /// Whether any read of these transactions waits. They are given in ascending order. It looks at each read that waits, in time
    /// of the logarithm of how many are given.
    pub fn any_in(&self, readers: &[TxnId]) -> bool
        requires { Rises id_below readers.now }
        ensures { IsTrue result ↔ HasWaitingIn self.now readers.now }
    {
        has_list_with(&self.awaited, readers)
    }
}

/// Whether one of the lists has a read of one of these transactions.
fn has_list_with(lists: &BTreeMap<TxnId, Sequence<(TxnId, u64)>>, readers: &[TxnId]) -> bool
    requires { Rises id_below readers.now }
    ensures answer { IsTrue result ↔ Any (λ list. HasReader list.1 readers.now) lists.now.entries }
    ensures found { All (λ list. lookup (same_id list.0) lists.now.entries ≡ Some list.1) lists.now.entries }
{
    lists
        .iter()
        .any(|(_, reads)| has_reader(reads.as_slice(), readers))
}

fn is_among(id: TxnId, ids: &[TxnId]) -> bool
    requires { Rises id_below ids.now }
    ensures { IsTrue result ↔ Contains ids.now id }
{
    ids.binary_search(&id).is_ok()
}

/// Whether one of the reads is of one of these transactions.
fn has_reader(reads: &[(TxnId, u64)], readers: &[TxnId]) -> bool
    requires { Rises id_below readers.now }
    ensures { IsTrue result ↔ HasReader reads.now readers.now }
{
    reads.iter().any(|read| is_among(read.0, readers))
}
