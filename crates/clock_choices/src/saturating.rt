// The reads of those that are due are settled, and then of those that this makes due, until none is.
ghost use Rattle.std.specs.Prelude.{◌⊎◌, ℕ, [], All, Contains, IfOk, IsTrue, OnOk};
ghost use Rattle.txn.specs.declared.transactions.TxnId.{TxnId};
ghost use Rattle.order_check.specs.declared.remainder.Parts.{Parts};
ghost use Rattle.session_clocks.specs.Graphs.{HasNode};
ghost use Rattle.clock_choices.specs.Extending.{Extends, reached_in};
ghost use Rattle.clock_choices.specs.Forcing.{Forces, IsGrowth};
ghost use Rattle.clock_choices.specs.Index.{AreReadsOf, AreRunsOf, IsRead, IsRunThere, reads_of, runs_of};
ghost use Rattle.clock_choices.specs.Closed.{IsClosed};
ghost use Rattle.clock_choices.specs.Pending.{IsClosedBut};
ghost use Rattle.clock_choices.specs.Stages.{IsLeftTo, IsReadSettled, IsTxnSettled};

use crate::due::Due;
use crate::index::{is_in_runs, reads_of, runs_of};
use crate::reads::Read;
use crate::runs::Run;
use crate::settling::settle_read;
use crate::steps::Forced;
use session_clocks::Graph;
use std::alloc::{AllocError, Global};
use std::collections::BTreeMap;
use txn::{NoMemory, TxnId};

/// Settles a read, if its source writes the key and remains, and notes whoever has to be looked at again.
fn settle_due(
    alloc: Global,
    writers: &BTreeMap<u64, Vec<Run>>,
    graph: &mut Graph,
    steps: &mut Vec<Forced>,
    due: &mut Due,
    read: Read,
) -> Result<(), NoMemory>
    requires runs { All (IsRunThere graph.old.gone graph.old.received) (runs_of writers.now read.key) }
    requires reader { HasNode graph.old read.reader }
    ensures extends { Extends graph.old graph.new }
    ensures growth { OnOk result (IsGrowth (reached_in graph.old) due.old (reached_in graph.new) due.new) }
    ensures forces { OnOk result ((parts : Parts) → AreRunsOf parts read.key (runs_of writers.now read.key) → IsRead parts read
        → Forces parts graph.old steps.old.items graph.new steps.new.items) }
    ensures settled { OnOk result ((parts : Parts) → AreRunsOf parts read.key (runs_of writers.now read.key)
        → IsReadSettled parts (reached_in graph.new) due.new read) }
{
    let runs = runs_of(writers, read.key);
    if !is_in_runs(runs, read.writer) {
        return Ok(());
    }
    let mut told = Vec::new(alloc);
    settle_read(alloc, graph, steps, &mut told, read, runs)?;
    due.note_all(&told)
}

/// Settles reads, one after another, and notes whoever has to be looked at again.
fn settle_reads(
    alloc: Global,
    writers: &BTreeMap<u64, Vec<Run>>,
    graph: &mut Graph,
    steps: &mut Vec<Forced>,
    due: &mut Due,
    reads: &[Read],
) -> Result<(), NoMemory>
    requires runs { (key : ℕ) → All (IsRunThere graph.old.gone graph.old.received) (runs_of writers.now key) }
    requires readers { All (λ read. HasNode graph.old read.reader) reads.now }
    ensures extends { Extends graph.old graph.new }
    ensures growth { OnOk result (IsGrowth (reached_in graph.old) due.old (reached_in graph.new) due.new) }
    ensures forces { OnOk result ((parts : Parts) → ((key : ℕ) → AreRunsOf parts key (runs_of writers.now key)) → All (IsRead parts) reads.now
        → Forces parts graph.old steps.old.items graph.new steps.new.items) }
    ensures settled { OnOk result ((parts : Parts) → ((key : ℕ) → AreRunsOf parts key (runs_of writers.now key))
        → All (λ read. IsReadSettled parts (reached_in graph.new) due.new read) reads.now) }
{
    for read in reads {
        settle_due(alloc, writers, graph, steps, due, *read)?;
    }
    Ok(())
}

/// Whether the read is another transaction's, which has a turn of its own.
fn is_left(batch: &Due, id: TxnId, read: Read) -> bool
    ensures { IsTrue result → IsLeftTo batch.now id read }
{
    read.reader != id && batch.has(read.reader)
}

/// The reads that are looked at in the transaction's turn: not those that are left to their readers' turns.
fn reads_in_turn(
    alloc: Global,
    batch: &Due,
    id: TxnId,
    reads: &[Read],
) -> Result<Vec<Read>, NoMemory>
    ensures each { IfOk result (λ turn. (read : Read) → Contains turn.items read → Contains reads.now read) }
    ensures all { IfOk result (λ turn. (read : Read) → Contains reads.now read → Contains turn.items read ⊎ IsLeftTo batch.now id read) }
{
    let mut turn = Vec::new(alloc);
    for read in reads {
        if !is_left(batch, id, *read) {
            turn.push(*read)?;
        }
    }
    Ok(turn)
}

/// Settles the reads in which the transactions of a batch take part, and tells who is due then.
fn settle_batch(
    alloc: Global,
    writers: &BTreeMap<u64, Vec<Run>>,
    reads: &[BTreeMap<u64, Vec<Read>>],
    graph: &mut Graph,
    steps: &mut Vec<Forced>,
    batch: &Due,
) -> Result<Due, NoMemory>
    requires runs { (key : ℕ) → All (IsRunThere graph.old.gone graph.old.received) (runs_of writers.now key) }
    requires readers { (id : TxnId) → All (λ read. HasNode graph.old read.reader) (reads_of reads.now id) }
    ensures extends { Extends graph.old graph.new }
    ensures growth { IfOk result (λ then. IsGrowth (reached_in graph.old) [] (reached_in graph.new) then) }
    ensures forces { OnOk result ((parts : Parts) → ((key : ℕ) → AreRunsOf parts key (runs_of writers.now key)) → ((id : TxnId) → AreReadsOf parts id (reads_of reads.now id))
        → Forces parts graph.old steps.old.items graph.new steps.new.items) }
    ensures settled { IfOk result (λ then. (parts : Parts) → ((key : ℕ) → AreRunsOf parts key (runs_of writers.now key)) → ((id : TxnId) → AreReadsOf parts id (reads_of reads.now id))
        → All (IsTxnSettled parts (reached_in graph.new) then) batch.now) }
{
    let mut due = Due::new(alloc, graph.gone(), graph.received())?;
    let ids = batch.ids();
    for id in ids {
        let turn = reads_in_turn(alloc, batch, *id, reads_of(reads, *id))?;
        settle_reads(alloc, writers, graph, steps, &mut due, &turn)?;
    }
    Ok(due)
}

/// Those that are due, each noted once.
fn noted_of(alloc: Global, graph: &Graph, ids: &[TxnId]) -> Result<Due, NoMemory>
    ensures { IfOk result (λ due. (id : TxnId) → Contains ids.now id → Contains due id) }
{
    let mut due = Due::new(alloc, graph.gone(), graph.received())?;
    due.note_all(ids)?;
    Ok(due)
}

/// Settles the reads of those that are due, and of whoever that tells, until none is due. Each turn but the last forces a side that
/// wasn't there, of which there are at most as many as pairs of transactions.
pub(crate) fn saturate(
    alloc: Global,
    writers: &BTreeMap<u64, Vec<Run>>,
    reads: &[BTreeMap<u64, Vec<Read>>],
    graph: &mut Graph,
    steps: &mut Vec<Forced>,
    due: Vec<TxnId>,
) -> Result<(), NoMemory>
    requires runs { (key : ℕ) → All (IsRunThere graph.old.gone graph.old.received) (runs_of writers.now key) }
    requires readers { (id : TxnId) → All (λ read. HasNode graph.old read.reader) (reads_of reads.now id) }
    ensures extends { Extends graph.old graph.new }
    ensures forces { OnOk result ((parts : Parts) → ((key : ℕ) → AreRunsOf parts key (runs_of writers.now key)) → ((id : TxnId) → AreReadsOf parts id (reads_of reads.now id))
        → Forces parts graph.old steps.old.items graph.new steps.new.items) }
    ensures closed { OnOk result ((parts : Parts) → ((key : ℕ) → AreRunsOf parts key (runs_of writers.now key)) → ((id : TxnId) → AreReadsOf parts id (reads_of reads.now id))
        → IsClosedBut parts (reached_in graph.old) (λ id. Contains due.items id)
        → IsClosed parts (reached_in graph.new)) }
{
    let noted = noted_of(alloc, graph, &due)?;
    let mut batch = noted;
    for _turn in 0..u64::MAX {
        if batch.ids().is_empty() {
            return Ok(());
        }
        batch = settle_batch(alloc, writers, reads, graph, steps, &batch)?;
    }
    Err(AllocError)
}
