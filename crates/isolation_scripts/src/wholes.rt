//! Transactions as they were offered, of the two that each was split into.
ghost use Rattle.std.specs.Prelude.{◌≡◌, ◌++◌, map, IfOk, OnOk};
ghost use Rattle.isolation_scripts.specs.Wholes.{whole_of, whole_source, whole_read, whole_txn, whole_txns, begun_txns, whole_fragment};

use std::alloc::Global;
use txn::{Fragment, NoMemory, Sequence, Source, Txn, TxnId};

pub(crate) fn whole_of(half: TxnId) -> TxnId
    ensures { result ≡ whole_of half }
{
    TxnId {
        session: half.session,
        number: half.number / 2,
    }
}

fn whole_source(source: Source) -> Source
    ensures { result ≡ whole_source source }
{
    match source {
        Source::Init => Source::Init,
        Source::By(half) => Source::By(whole_of(half)),
    }
}

fn whole_reads(alloc: Global, reads: &[(u64, Source)]) -> Result<Sequence<(u64, Source)>, NoMemory>
    ensures { IfOk result (λ whole. whole ≡ map whole_read reads.now) }
{
    let mut whole = Vec::with_capacity(alloc, reads.len())?;
    for read in reads {
        whole.push((read.0, whole_source(read.1)))?;
    }
    Ok(Sequence::new(whole))
}

fn whole_txn(alloc: Global, begin: &Txn, commit: &Txn) -> Result<Txn, NoMemory>
    ensures { IfOk result (λ whole. whole ≡ whole_txn begin.now commit.now) }
{
    Ok(Txn {
        reads: whole_reads(alloc, begin.reads.as_slice())?,
        writes: commit.writes.clone()?,
    })
}

/// Puts the transactions of these halves, two for each, at the end.
fn push_wholes(alloc: Global, whole: &mut Vec<Txn>, halves: &[Txn]) -> Result<(), NoMemory>
    ensures { OnOk result (whole.new.items ≡ whole.old.items ++ whole_txns halves.now) }
{
    for place in 0..halves.len() / 2 {
        let txn = whole_txn(alloc, &halves[2 * place], &halves[2 * place + 1])?;
        whole.push(txn)?;
    }
    Ok(())
}

fn whole_txns(alloc: Global, halves: &[Txn]) -> Result<Sequence<Txn>, NoMemory>
    ensures { IfOk result (λ whole. whole ≡ whole_txns halves.now) }
{
    let mut whole = Vec::new(alloc);
    push_wholes(alloc, &mut whole, halves)?;
    Ok(Sequence::new(whole))
}

/// The same where the first half is a commit alone.
fn begun_txns(alloc: Global, halves: &[Txn]) -> Result<Sequence<Txn>, NoMemory>
    ensures { IfOk result (λ whole. whole ≡ begun_txns halves.now) }
{
    let mut whole = Vec::new(alloc);
    if let [commit, more @ ..] = halves {
        let begun = Txn {
            reads: Sequence::new(Vec::new(alloc)),
            writes: commit.writes.clone()?,
        };
        whole.push(begun)?;
        push_wholes(alloc, &mut whole, more)?;
    }
    Ok(Sequence::new(whole))
}

/// The transactions of a fragment of halves.
pub(crate) fn whole_fragment(alloc: Global, halves: &Fragment) -> Result<Fragment, NoMemory>
    ensures { IfOk result (λ whole. whole ≡ whole_fragment halves.now) }
{
    let txns = if halves.first % 2 == 1 {
        begun_txns(alloc, halves.txns.as_slice())?
    } else {
        whole_txns(alloc, halves.txns.as_slice())?
    };
    Ok(Fragment {
        session: halves.session,
        first: halves.first / 2,
        txns,
    })
}
