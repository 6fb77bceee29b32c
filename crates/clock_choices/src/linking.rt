// Arcs that are there from the start: from a writer to those that read from it, and from who reads the base to the other writers of the
// key, of which each session's first one is enough. Whoever an arc touches is noted.
ghost use Rattle.std.specs.Prelude.{◌≡◌, ◌++◌, ◌∷◌, [], ℕ, List, All, Contains, OnOk};
ghost use Rattle.txn.specs.declared.transactions.TxnId.{TxnId};
ghost use Rattle.txn.specs.Arcs.{start_of, end_of};
ghost use Rattle.order_check.specs.declared.remainder.Parts.{Parts};
ghost use Rattle.order_check.specs.Based.{Remains};
ghost use Rattle.order_check.specs.Known.{ReadsBase, ReadsKey};
ghost use Rattle.session_clocks.specs.Graphs.{HasNode};
ghost use Rattle.clock_choices.specs.Extending.{Extends, reached_in};
ghost use Rattle.clock_choices.specs.Forcing.{IsGrowth};
ghost use Rattle.clock_choices.specs.declared.runs.Run.{Run};
ghost use Rattle.clock_choices.specs.Index.{AreRunsOf, IsRead, IsRunThere, runs_of};
ghost use Rattle.clock_choices.specs.Indexing.{IsIndex};
ghost use Rattle.clock_choices.specs.Linking.{AreNodesOf, AreWritersLinked, Brings, IsBaseLinked, IsBeforeRun, IsLinked, IsSessionLinked, IsTxnLinked};

use crate::due::Due;
use crate::index::{is_in_runs, reads_of, runs_of};
use crate::indexing::{Index, is_base_source};
use crate::lists::list_of;
use crate::reads::Read;
use crate::runs::{Run, count_below, first_from};
use order_check::Parts;
use session_clocks::Graph;
use std::alloc::Global;
use std::collections::BTreeMap;
use txn::{Arc, NoMemory, Source, TxnId};

/// Adds an arc, and notes whoever reaches more by it, or is reached by more.
fn link(alloc: Global, graph: &mut Graph, due: &mut Due, arc: Arc) -> Result<(), NoMemory>
    requires start { HasNode graph.old (start_of arc) }
    requires end { HasNode graph.old (end_of arc) }
    ensures extends { Extends graph.old graph.new }
    ensures arcs { OnOk result (graph.new.arcs ≡ graph.old.arcs ++ arc ∷ []) }
    ensures growth { OnOk result (IsGrowth (reached_in graph.old) due.old (reached_in graph.new) due.new) }
{
    let mut told = Vec::new(alloc);
    graph.add_arc(alloc, arc, &mut told)?;
    due.note_all(&told)
}

/// Adds the arc of a read, if its source writes the key and remains, unless it is reached already.
fn link_read(
    alloc: Global,
    writers: &BTreeMap<u64, Vec<Run>>,
    graph: &mut Graph,
    due: &mut Due,
    read: Read,
) -> Result<(), NoMemory>
    requires runs { All (IsRunThere graph.old.gone graph.old.received) (runs_of writers.now read.key) }
    requires reader { HasNode graph.old read.reader }
    ensures extends { Extends graph.old graph.new }
    ensures brings { OnOk result ((parts : Parts) → AreRunsOf parts read.key (runs_of writers.now read.key) → IsRead parts read
        → Brings parts graph.old due.old graph.new due.new
        × IsLinked parts (reached_in graph.new) read) }
{
    if graph.reaches(read.writer, read.reader) {
        return Ok(());
    }
    let runs = runs_of(writers, read.key);
    if !is_in_runs(runs, read.writer) {
        return Ok(());
    }
    let arc = Arc::Read {
        key: read.key,
        from: read.writer,
        to: read.reader,
    };
    link(alloc, graph, due, arc)
}

/// Adds the arcs of reads, one after another.
fn link_reads(
    alloc: Global,
    writers: &BTreeMap<u64, Vec<Run>>,
    graph: &mut Graph,
    due: &mut Due,
    reads: &[Read],
) -> Result<(), NoMemory>
    requires runs { (key : ℕ) → All (IsRunThere graph.old.gone graph.old.received) (runs_of writers.now key) }
    requires readers { All (λ read. HasNode graph.old read.reader) reads.now }
    ensures extends { Extends graph.old graph.new }
    ensures brings { OnOk result ((parts : Parts) → ((key : ℕ) → AreRunsOf parts key (runs_of writers.now key)) → All (IsRead parts) reads.now
        → Brings parts graph.old due.old graph.new due.new
        × All (IsLinked parts (reached_in graph.new)) reads.now) }
{
    for read in reads {
        link_read(alloc, writers, graph, due, *read)?;
    }
    Ok(())
}

/// Adds the arc from a reader of the base to the session's first other writer of the key.
fn link_run(
    alloc: Global,
    graph: &mut Graph,
    due: &mut Due,
    reader: TxnId,
    key: u64,
    run: &Run,
) -> Result<(), NoMemory>
    requires run { IsRunThere graph.old.gone graph.old.received run.now }
    requires reader { HasNode graph.old reader }
    ensures extends { Extends graph.old graph.new }
    ensures brings { OnOk result ((parts : Parts) (runs : List Run) → AreRunsOf parts key runs → Contains runs run.now → ReadsBase parts reader key
        → Brings parts graph.old due.old graph.new due.new
        × IsBeforeRun (reached_in graph.new) reader run.now) }
{
    let Some(first) = first_from(run.session, &run.numbers, reader, reader, 0) else {
        return Ok(());
    };
    if graph.reaches(reader, first) {
        return Ok(());
    }
    let arc = Arc::Base {
        key,
        from: reader,
        to: first,
    };
    link(alloc, graph, due, arc)
}

/// Adds the arcs from a reader of the base to the first other writer of the key in each session.
fn link_runs(
    alloc: Global,
    graph: &mut Graph,
    due: &mut Due,
    reader: TxnId,
    key: u64,
    runs: &[Run],
) -> Result<(), NoMemory>
    requires runs { All (IsRunThere graph.old.gone graph.old.received) runs.now }
    requires reader { HasNode graph.old reader }
    ensures extends { Extends graph.old graph.new }
    ensures brings { OnOk result ((parts : Parts) → AreRunsOf parts key runs.now → ReadsBase parts reader key
        → Brings parts graph.old due.old graph.new due.new
        × All (IsBeforeRun (reached_in graph.new) reader) runs.now) }
{
    for run in runs {
        link_run(alloc, graph, due, reader, key, run)?;
    }
    Ok(())
}

/// Adds the arcs from a transaction to the other writers of the key, if it reads the key from the base.
fn link_base_read(
    alloc: Global,
    parts: &Parts,
    writers: &BTreeMap<u64, Vec<Run>>,
    graph: &mut Graph,
    due: &mut Due,
    reader: TxnId,
    key: u64,
    source: Source,
) -> Result<(), NoMemory>
    requires runs { All (IsRunThere graph.old.gone graph.old.received) (runs_of writers.now key) }
    requires writers { AreRunsOf parts.now key (runs_of writers.now key) }
    requires reader { HasNode graph.old reader }
    requires reads { ReadsKey parts.now reader key source }
    ensures extends { Extends graph.old graph.new }
    ensures brings { OnOk result (Brings parts.now graph.old due.old graph.new due.new
        × IsBaseLinked parts.now (reached_in graph.new) writers.now reader (key, source)) }
{
    if !is_base_source(parts, key, source) {
        return Ok(());
    }
    link_runs(alloc, graph, due, reader, key, runs_of(writers, key))
}

/// Adds the arcs from a transaction to the other writers of each key that it reads from the base.
fn link_base_reads(
    alloc: Global,
    parts: &Parts,
    writers: &BTreeMap<u64, Vec<Run>>,
    graph: &mut Graph,
    due: &mut Due,
    reader: TxnId,
    list: &[(u64, Source)],
) -> Result<(), NoMemory>
    requires runs { (key : ℕ) → All (IsRunThere graph.old.gone graph.old.received) (runs_of writers.now key) }
    requires writers { (key : ℕ) → AreRunsOf parts.now key (runs_of writers.now key) }
    requires reader { HasNode graph.old reader }
    requires reads { All (λ read. ReadsKey parts.now reader read.0 read.1) list.now }
    ensures extends { Extends graph.old graph.new }
    ensures brings { OnOk result (Brings parts.now graph.old due.old graph.new due.new
        × All (IsBaseLinked parts.now (reached_in graph.new) writers.now reader) list.now) }
{
    for (key, source) in list {
        link_base_read(alloc, parts, writers, graph, due, reader, *key, *source)?;
    }
    Ok(())
}

/// Adds the arcs from readers of the base to the first writer of the key in a run.
fn link_readers(
    alloc: Global,
    graph: &mut Graph,
    due: &mut Due,
    key: u64,
    run: &Run,
    readers: &[TxnId],
) -> Result<(), NoMemory>
    requires run { IsRunThere graph.old.gone graph.old.received run.now }
    requires readers { All (HasNode graph.old) readers.now }
    ensures extends { Extends graph.old graph.new }
    ensures brings { OnOk result ((parts : Parts) (runs : List Run) → AreRunsOf parts key runs → Contains runs run.now → All (λ reader. ReadsBase parts reader key) readers.now
        → Brings parts graph.old due.old graph.new due.new
        × All (λ reader. IsBeforeRun (reached_in graph.new) reader run.now) readers.now) }
{
    for reader in readers {
        link_run(alloc, graph, due, *reader, key, run)?;
    }
    Ok(())
}

/// Adds the arcs from readers of the base to a session's run, unless two of its writers stand below the number: each of the readers had an arc
/// to one of these.
fn link_session(
    alloc: Global,
    graph: &mut Graph,
    due: &mut Due,
    key: u64,
    session: u8,
    first: u64,
    run: &Run,
    readers: &[TxnId],
) -> Result<(), NoMemory>
    requires run { IsRunThere graph.old.gone graph.old.received run.now }
    requires readers { All (HasNode graph.old) readers.now }
    ensures extends { Extends graph.old graph.new }
    ensures brings { OnOk result ((parts : Parts) (runs : List Run) → AreRunsOf parts key runs → Contains runs run.now → All (λ reader. ReadsBase parts reader key) readers.now
        → Brings parts graph.old due.old graph.new due.new
        × IsSessionLinked (reached_in graph.new) session first readers.now run.now) }
{
    if run.session != session {
        return Ok(());
    }
    let count = count_below(&run.numbers, first);
    if count >= 2 {
        return Ok(());
    }
    link_readers(alloc, graph, due, key, run, readers)
}

/// Adds the arcs from readers of the base to the session's run among the runs of a key.
fn link_writer(
    alloc: Global,
    graph: &mut Graph,
    due: &mut Due,
    key: u64,
    session: u8,
    first: u64,
    runs: &[Run],
    readers: &[TxnId],
) -> Result<(), NoMemory>
    requires runs { All (IsRunThere graph.old.gone graph.old.received) runs.now }
    requires readers { All (HasNode graph.old) readers.now }
    ensures extends { Extends graph.old graph.new }
    ensures brings { OnOk result ((parts : Parts) → AreRunsOf parts key runs.now → All (λ reader. ReadsBase parts reader key) readers.now
        → Brings parts graph.old due.old graph.new due.new
        × All (IsSessionLinked (reached_in graph.new) session first readers.now) runs.now) }
{
    for run in runs {
        link_session(alloc, graph, due, key, session, first, run, readers)?;
    }
    Ok(())
}

/// Adds the arcs from readers of the base to a writer of these keys.
fn link_writes(
    alloc: Global,
    parts: &Parts,
    index: &Index,
    graph: &mut Graph,
    due: &mut Due,
    session: u8,
    first: u64,
    keys: &[u64],
) -> Result<(), NoMemory>
    requires index { IsIndex parts.now index.now }
    requires nodes { AreNodesOf parts.now graph.old.gone graph.old.received }
    ensures extends { Extends graph.old graph.new }
    ensures brings { OnOk result (Brings parts.now graph.old due.old graph.new due.new
        × All (AreWritersLinked (reached_in graph.new) index.now session first) keys.now) }
{
    for key in keys {
        let runs = runs_of(&index.writers, *key);
        let readers = list_of(&index.base, *key);
        link_writer(alloc, graph, due, *key, session, first, runs, readers)?;
    }
    Ok(())
}

/// Adds the arcs of a transaction that are there from the start, where those before the number in its session have theirs.
fn link_txn(
    alloc: Global,
    parts: &Parts,
    index: &Index,
    graph: &mut Graph,
    due: &mut Due,
    first: u64,
    id: TxnId,
) -> Result<(), NoMemory>
    requires index { IsIndex parts.now index.now }
    requires nodes { AreNodesOf parts.now graph.old.gone graph.old.received }
    requires remains { Remains parts.now id }
    ensures extends { Extends graph.old graph.new }
    ensures brings { OnOk result (Brings parts.now graph.old due.old graph.new due.new
        × IsTxnLinked parts.now (reached_in graph.new) first id) }
{
    let Some(txn) = parts.remaining_at(id) else {
        unreachable!()
    };
    let reads = reads_of(&index.reads, id);
    link_reads(alloc, &index.writers, graph, due, reads)?;
    let list = txn.reads.as_slice();
    link_base_reads(alloc, parts, &index.writers, graph, due, id, list)?;
    let keys = txn.writes.as_slice();
    link_writes(alloc, parts, index, graph, due, id.session, first, keys)
}

/// Adds the arcs of transactions that are there from the start.
pub(crate) fn link_txns(
    alloc: Global,
    parts: &Parts,
    index: &Index,
    graph: &mut Graph,
    due: &mut Due,
    first: u64,
    ids: &[TxnId],
) -> Result<(), NoMemory>
    requires index { IsIndex parts.now index.now }
    requires nodes { AreNodesOf parts.now graph.old.gone graph.old.received }
    requires remain { All (Remains parts.now) ids.now }
    ensures extends { Extends graph.old graph.new }
    ensures brings { OnOk result (Brings parts.now graph.old due.old graph.new due.new
        × All (IsTxnLinked parts.now (reached_in graph.new) first) ids.now) }
{
    for id in ids {
        link_txn(alloc, parts, index, graph, due, first, *id)?;
    }
    Ok(())
}
