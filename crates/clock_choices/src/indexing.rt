// Who writes each key, who reads which key from whom, and who reads each key from the base, as transactions are added.
ghost use Rattle.std.specs.Prelude.{◌≡◌, ◌↔◌, ◌<◌, ℕ, Contains, IfOk, IsTrue, OnOk, length};
ghost use Rattle.txn.specs.declared.transactions.TxnId.{TxnId};
ghost use Rattle.txn.specs.declared.transactions.Source.{Source};
ghost use Rattle.txn.specs.declared.transactions.Source.TheVariants.{By};
ghost use Rattle.order_check.specs.Based.{Remains};
ghost use Rattle.order_check.specs.Good.{IsGood};
ghost use Rattle.order_check.specs.Known.{IsBaseSource};
ghost use Rattle.clock_choices.specs.Adds.{Adds, Among};
ghost use Rattle.clock_choices.specs.Index.{TakesPart, reads_in, reads_of, runs_of};
ghost use Rattle.clock_choices.specs.Indexing.{AreBefore, AreInOrder, IsIndex, IsIndexWith, IsOfSession, IsReadFrom, IsReadOfBase};
ghost use Rattle.clock_choices.specs.Lists.{list_at};
ghost use Rattle.clock_choices.specs.Writers.{AreRuns};

use crate::lists::add_to_list;
use crate::reads::Read;
use crate::runs::Run;
use crate::writers::add_writes;
use order_check::Parts;
use std::alloc::Global;
use std::collections::BTreeMap;
use txn::{NoMemory, Source, TxnId};

/// What is looked up of transactions.
#[derive(Drop, Debug)]
pub(crate) struct Index {
    /// The writers of each key.
    pub writers: BTreeMap<u64, Vec<Run>>,
    /// For each session, by the numbers of its transactions, the reads in which each takes part.
    pub reads: Vec<BTreeMap<u64, Vec<Read>>>,
    /// Those that read each key from the base.
    pub base: BTreeMap<u64, Vec<TxnId>>,
}

/// Makes lists of reads for a session and those before it.
fn widen(
    alloc: Global,
    reads: &mut Vec<BTreeMap<u64, Vec<Read>>>,
    session: usize,
) -> Result<(), NoMemory>
    requires { session < 256 }
    ensures within { OnOk result (session < length reads.new.items) }
    ensures same { OnOk result ((id : TxnId) → reads_of reads.new.items id ≡ reads_of reads.old.items id) }
{
    for _more in reads.len()..session + 1 {
        reads.push(BTreeMap::new(alloc))?;
    }
    Ok(())
}

/// Puts a read among those of a transaction.
fn add_read_at(
    alloc: Global,
    reads: &mut Vec<BTreeMap<u64, Vec<Read>>>,
    id: TxnId,
    read: Read,
) -> Result<(), NoMemory>
    ensures { OnOk result ((other : TxnId) → Adds (Contains (reads_of reads.old.items other)) (Contains (reads_of reads.new.items other)) (λ one. (one ≡ read) × (other ≡ id))) }
{
    let session = usize::from(id.session);
    widen(alloc, reads, session)?;
    add_to_list(alloc, &mut reads[session], id.number, read)
}

/// Puts a read among those of the two that take part in it.
fn add_read(
    alloc: Global,
    reads: &mut Vec<BTreeMap<u64, Vec<Read>>>,
    read: Read,
) -> Result<(), NoMemory>
    ensures { OnOk result ((other : TxnId) → Adds (Contains (reads_of reads.old.items other)) (Contains (reads_of reads.new.items other)) (λ one. (one ≡ read) × TakesPart other one)) }
{
    add_read_at(alloc, reads, read.reader, read)?;
    add_read_at(alloc, reads, read.writer, read)
}

/// Puts what a transaction reads among the reads, if it is from a transaction.
fn add_read_of(
    alloc: Global,
    reads: &mut Vec<BTreeMap<u64, Vec<Read>>>,
    reader: TxnId,
    key: u64,
    source: Source,
) -> Result<(), NoMemory>
    ensures { OnOk result ((other : TxnId) → Adds (Contains (reads_of reads.old.items other)) (Contains (reads_of reads.new.items other)) (IsReadFrom reader other (key, source))) }
{
    let Source::By(writer) = source else {
        return Ok(());
    };
    let read = Read {
        reader,
        key,
        writer,
    };
    add_read(alloc, reads, read)
}

/// Puts all reads of a transaction among those of both who take part in each.
fn add_reads(
    alloc: Global,
    reads: &mut Vec<BTreeMap<u64, Vec<Read>>>,
    reader: TxnId,
    list: &[(u64, Source)],
) -> Result<(), NoMemory>
    ensures { OnOk result ((other : TxnId) → Adds (Contains (reads_of reads.old.items other)) (Contains (reads_of reads.new.items other)) (Among (IsReadFrom reader other) list.now)) }
{
    for (key, source) in list {
        add_read_of(alloc, reads, reader, *key, *source)?;
    }
    Ok(())
}

/// Whether what a read of the key names is what the base has for it.
pub(crate) fn is_base_source(parts: &Parts, key: u64, source: Source) -> bool
    ensures { IsTrue result ↔ IsBaseSource parts.now key source }
{
    match source {
        Source::Init => parts.last_gone(key).is_none(),
        Source::By(writer) => parts.last_gone(key) == Some(writer),
    }
}

/// Puts the reader among those of the base, if it reads from there.
fn add_base_read(
    alloc: Global,
    base: &mut BTreeMap<u64, Vec<TxnId>>,
    parts: &Parts,
    reader: TxnId,
    key: u64,
    source: Source,
) -> Result<(), NoMemory>
    ensures { OnOk result ((other : ℕ) → Adds (Contains (list_at base.old other)) (Contains (list_at base.new other)) (IsReadOfBase parts.now reader other (key, source))) }
{
    if is_base_source(parts, key, source) {
        return add_to_list(alloc, base, key, reader);
    }
    Ok(())
}

/// Puts the reader among those of the base, for each key that it reads from there.
fn add_base_reads(
    alloc: Global,
    base: &mut BTreeMap<u64, Vec<TxnId>>,
    parts: &Parts,
    reader: TxnId,
    list: &[(u64, Source)],
) -> Result<(), NoMemory>
    ensures { OnOk result ((other : ℕ) → Adds (Contains (list_at base.old other)) (Contains (list_at base.new other)) (Among (IsReadOfBase parts.now reader other) list.now)) }
{
    for (key, source) in list {
        add_base_read(alloc, base, parts, reader, *key, *source)?;
    }
    Ok(())
}

/// Adds a transaction that remains.
fn add_txn(alloc: Global, index: &mut Index, parts: &Parts, id: TxnId) -> Result<(), NoMemory>
    requires { (key : ℕ) → AreRuns (runs_of index.old.writers key) }
    ensures runs { OnOk result ((key : ℕ) → AreRuns (runs_of index.new.writers key)) }
    ensures adds { OnOk result (IsIndexWith parts.now index.old index.new (λ other. other ≡ id)) }
{
    let Some(txn) = parts.remaining_at(id) else {
        return Ok(());
    };
    add_writes(alloc, &mut index.writers, txn.writes.as_slice(), id)?;
    add_reads(alloc, &mut index.reads, id, txn.reads.as_slice())?;
    add_base_reads(alloc, &mut index.base, parts, id, txn.reads.as_slice())
}

/// Adds transactions that remain.
pub(crate) fn add_txns(
    alloc: Global,
    index: &mut Index,
    parts: &Parts,
    ids: &[TxnId],
) -> Result<(), NoMemory>
    requires { (key : ℕ) → AreRuns (runs_of index.old.writers key) }
    ensures runs { OnOk result ((key : ℕ) → AreRuns (runs_of index.new.writers key)) }
    ensures adds { OnOk result (IsIndexWith parts.now index.old index.new (Contains ids.now)) }
{
    for id in ids {
        add_txn(alloc, index, parts, *id)?;
    }
    Ok(())
}

/// Puts the ids of what remains of a session at the end.
fn push_ids(ids: &mut Vec<TxnId>, parts: &Parts, session: u8) -> Result<(), NoMemory>
    requires { IsGood parts.now }
    ensures adds { OnOk result (Adds (Contains ids.old.items) (Contains ids.new.items) (IsOfSession parts.now session)) }
    ensures rise { OnOk result (AreBefore session ids.old.items → AreInOrder ids.old.items → AreInOrder ids.new.items) }
{
    let mut number = parts.mark_of(session);
    for _txn in parts.remaining_of(session) {
        ids.push(TxnId { session, number })?;
        number += 1;
    }
    Ok(())
}

/// The ids of what remains of the sessions, in order.
pub(crate) fn remaining_ids_of(alloc: Global, parts: &Parts) -> Result<Vec<TxnId>, NoMemory>
    requires { IsGood parts.now }
    ensures members { IfOk result (λ ids. (id : TxnId) → Contains ids.items id ↔ Remains parts.now id) }
    ensures rise { IfOk result (λ ids. AreInOrder ids.items) }
{
    let mut ids = Vec::new(alloc);
    for session in 0..parts.sessions() {
        push_ids(&mut ids, parts, session as u8)?;
    }
    Ok(ids)
}

/// What is looked up of the parts.
pub(crate) fn index_of(alloc: Global, parts: &Parts) -> Result<Index, NoMemory>
    requires { IsGood parts.now }
    ensures { IfOk result (IsIndex parts.now) }
{
    let ids = remaining_ids_of(alloc, parts)?;
    let mut index = Index {
        writers: BTreeMap::new(alloc),
        reads: Vec::new(alloc),
        base: BTreeMap::new(alloc),
    };
    add_txns(alloc, &mut index, parts, &ids)?;
    Ok(index)
}
