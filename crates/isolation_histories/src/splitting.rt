ghost use Rattle.std.specs.Prelude.{◌≡◌, ◌+◌, ◌<◌, ◌^◌, [], ◌∷◌, ◌++◌, All, map, IfOk, OnOk};
ghost use Rattle.isolation_histories.specs.Halves.{begin_half, commit_half};
ghost use Rattle.isolation_histories.specs.Split.{star, plain_key, split_source, begin_read_of, commit_read_of, begin_txn, commit_txn, split_of};
ghost use Rattle.isolation_histories.specs.Splittable.{IsLowRead, IsLowSource, HasLowNumbers, HasRoomToSplit};

use crate::splittable::KEYS;
use std::alloc::Global;
use txn::{EPOCH, Fragment, NoMemory, Sequence, Source, Txn, TxnId};

/// The key by which a commit reads from its own begin.
fn starred(key: u64) -> u64
    requires { key < 2 ^ 63 }
    ensures { result ≡ star key }
{
    if key == EPOCH { EPOCH } else { key + KEYS }
}

/// The key that a star is of; any other key is its own.
pub fn plain_key(key: u64) -> u64
    ensures { result ≡ plain_key key }
{
    if key < KEYS { key } else { key - KEYS }
}

/// What stands for a transaction's begin.
fn begin_of(id: TxnId) -> TxnId
    requires { id.number < 2 ^ 48 }
    ensures { result ≡ begin_half id }
{
    TxnId {
        session: id.session,
        number: 2 * id.number,
    }
}

/// What a version is read from: the half that commits it.
fn source_of(source: Source) -> Source
    requires { IsLowSource source }
    ensures { result ≡ split_source source }
{
    match source {
        Source::Init => Source::Init,
        Source::By(writer) => Source::By(TxnId {
            session: writer.session,
            number: 2 * writer.number + 1,
        }),
    }
}

/// The reads of the half that begins.
fn begin_reads(alloc: Global, reads: &[(u64, Source)]) -> Result<Vec<(u64, Source)>, NoMemory>
    requires { All IsLowRead reads.now }
    ensures { IfOk result (λ v. v.items ≡ map begin_read_of reads.now) }
{
    let mut all = Vec::new(alloc);
    for read in reads {
        let source = source_of(read.1);
        all.push((read.0, source))?;
    }
    Ok(all)
}

/// The writes of the half that begins.
fn begin_writes(alloc: Global, writes: &[u64]) -> Result<Vec<u64>, NoMemory>
    requires { All (λ key. key < 2 ^ 63) writes.now }
    ensures { IfOk result (λ v. v.items ≡ map star writes.now) }
{
    let mut all = Vec::new(alloc);
    for key in writes {
        let own = starred(*key);
        all.push(own)?;
    }
    Ok(all)
}

/// The reads of the half that commits.
fn commit_reads(alloc: Global, id: TxnId, writes: &[u64]) -> Result<Vec<(u64, Source)>, NoMemory>
    requires low { All (λ key. key < 2 ^ 63) writes.now }
    requires number { id.number < 2 ^ 48 }
    ensures { IfOk result (λ v. v.items ≡ map (commit_read_of id) writes.now) }
{
    let begin = begin_of(id);
    let mut all = Vec::new(alloc);
    for key in writes {
        let own = starred(*key);
        all.push((own, Source::By(begin)))?;
    }
    Ok(all)
}

/// The half that begins.
fn begin(alloc: Global, txn: &Txn) -> Result<Txn, NoMemory>
    requires { HasLowNumbers txn.now }
    ensures { IfOk result (λ half. half ≡ begin_txn txn.now) }
{
    let reads = begin_reads(alloc, txn.reads.as_slice())?;
    let writes = begin_writes(alloc, txn.writes.as_slice())?;
    Ok(Txn {
        reads: Sequence::new(reads),
        writes: Sequence::new(writes),
    })
}

/// The half that commits.
fn commit(alloc: Global, id: TxnId, txn: &Txn) -> Result<Txn, NoMemory>
    requires low { HasLowNumbers txn.now }
    requires number { id.number < 2 ^ 48 }
    ensures { IfOk result (λ half. half ≡ commit_txn id txn.now) }
{
    let reads = commit_reads(alloc, id, txn.writes.as_slice())?;
    let writes = txn.writes.as_slice().to_vec(alloc)?;
    Ok(Txn {
        reads: Sequence::new(reads),
        writes: Sequence::new(writes),
    })
}

/// Puts both halves of a transaction at the end.
fn push_halves(alloc: Global, halves: &mut Vec<Txn>, id: TxnId, txn: &Txn) -> Result<(), NoMemory>
    requires low { HasLowNumbers txn.now }
    requires number { id.number < 2 ^ 48 }
    ensures { OnOk result (halves.new.items ≡ halves.old.items ++ begin_txn txn.now ∷ commit_txn id txn.now ∷ []) }
{
    let first = begin(alloc, txn)?;
    halves.push(first)?;
    let second = commit(alloc, id, txn)?;
    halves.push(second)?;
    Ok(())
}

/// Splits a fragment: it has two transactions for each, at twice the place.
pub fn split_fragment(alloc: Global, fragment: &Fragment) -> Result<Fragment, NoMemory>
    requires { HasRoomToSplit fragment.now }
    ensures { IfOk result (λ split. split ≡ split_of fragment.now) }
{
    let mut halves = Vec::new(alloc);
    for (place, txn) in fragment.txns.as_slice().iter().enumerate() {
        let id = TxnId {
            session: fragment.session,
            number: fragment.first + place as u64,
        };
        push_halves(alloc, &mut halves, id, txn)?;
    }
    Ok(Fragment {
        session: fragment.session,
        first: 2 * fragment.first,
        txns: Sequence::new(halves),
    })
}
