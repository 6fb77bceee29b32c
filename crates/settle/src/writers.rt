//! The last writer of each key in front of a fence.
ghost use Rattle.std.specs.Prelude.{[], ◌↔◌, All, Contains, IfOk, OnOk, IsTrue, MatchOption};
ghost use Rattle.std.specs.FinMap as map;
ghost use Rattle.txn.specs.declared.transactions.TxnId.{TxnId};
ghost use Rattle.order_check.specs.Known.{Known};
ghost use Rattle.order_check.specs.Settled.{InFront};
ghost use Rattle.settle.specs.Writers.{AreNoted, AreWritesOf, AreLastWriters, GainsWrites, HaveLastWriters, IsOverruled, NotesOne, Overrules};

use clock_choices::Saturated;
use order_check::{LastWriters, Parts};
use std::alloc::Global;
use txn::{NoMemory, TxnId};

#[tactic(auto, using(crate::proofs::Written::gains_none, crate::proofs::Written::gains_all))]
fn push_writes(writes: &mut Vec<(u64, TxnId)>, keys: &[u64], id: TxnId) -> Result<(), NoMemory>
    ensures { OnOk result (GainsWrites keys.now id writes.old.items writes.new.items) }
{
    for key in keys {
        writes.push((*key, id))?;
    }
    Ok(())
}

/// Each key that one of the ids writes, with the id.
#[tactic(auto, using(crate::proofs::Written::writes_none, crate::proofs::Written::writes_all))]
fn writes_among(alloc: Global, parts: &Parts, ids: &[TxnId]) -> Result<Vec<(u64, TxnId)>, NoMemory>
    ensures { IfOk result (λ writes. AreWritesOf parts.now ids.now writes.items) }
{
    let mut writes = Vec::new(alloc);
    for id in ids {
        push_writes(&mut writes, parts.writes_of(*id), *id)?;
    }
    Ok(writes)
}

/// Whether the writer comes after the last one so far.
fn overrules(known: &Saturated, last: Option<TxnId>, writer: TxnId) -> bool
    ensures { IsTrue result ↔ Overrules known.now.parts last writer }
{
    match last {
        None => true,
        Some(last) => known.reaches(last, writer),
    }
}

fn note_write(
    last: &mut LastWriters,
    known: &Saturated,
    key: u64,
    writer: TxnId,
) -> Result<(), NoMemory>
    ensures { OnOk result (NotesOne known.now.parts key writer last.old last.new) }
{
    if !overrules(known, last.get(key), writer) {
        return Ok(());
    }
    last.insert(key, writer)?;
    Ok(())
}

/// Of each key a writer that no later one of the list comes after. It is the last writer where the key has one.
#[tactic(auto, using(crate::proofs::Noted::noted_none, crate::proofs::Noted::noted_all))]
fn note_writes(
    alloc: Global,
    known: &Saturated,
    writes: &[(u64, TxnId)],
) -> Result<LastWriters, NoMemory>
    requires { (id : TxnId) → ¬ Known known.now.parts [] id id }
    ensures { IfOk result (λ last. AreNoted known.now.parts writes.now last) }
{
    let mut last = LastWriters::new(alloc);
    for write in writes {
        note_write(&mut last, known, write.0, write.1)?;
    }
    Ok(last)
}

fn is_overruled(known: &Saturated, last: &LastWriters, write: (u64, TxnId)) -> bool
    ensures { IsTrue result ↔ IsOverruled known.now.parts last.now write }
{
    match last.get(write.0) {
        None => false,
        Some(writer) => write.1 == writer || known.reaches(write.1, writer),
    }
}

fn are_overruled(known: &Saturated, last: &LastWriters, writes: &[(u64, TxnId)]) -> bool
    ensures { IsTrue result ↔ All (IsOverruled known.now.parts last.now) writes.now }
{
    for write in writes {
        if !is_overruled(known, last, *write) {
            return false;
        }
    }
    true
}

/// The last writers of the keys that are written in front of the fence, where each of these keys has one.
pub fn last_writers(
    alloc: Global,
    known: &Saturated,
    fence: TxnId,
    front: &[TxnId],
) -> Result<Option<LastWriters>, NoMemory>
    requires acyclic { (id : TxnId) → ¬ Known known.now.parts [] id id }
    requires front { (id : TxnId) → Contains front.now id ↔ InFront known.now.parts fence id }
    ensures { IfOk result (λ found. MatchOption found (¬ HaveLastWriters known.now.parts fence) (AreLastWriters known.now.parts fence)) }
{
    let writes = writes_among(alloc, known.parts(), front)?;
    let last = note_writes(alloc, known, writes.as_slice())?;
    if !are_overruled(known, &last, writes.as_slice()) {
        return Ok(None);
    }
    Ok(Some(last))
}
