// Transactions come to a graph behind those that they read from, where there is an order in which they can. The arc of a read then ends at
// the last transaction of a session, so that few others have to be told of it. Where a source comes after its reader, the arc comes with it.
ghost use Rattle.std.specs.Prelude.{◌≡◌, ◌↔◌, ◌<◌, ℕ, [], All, IfOk, IsTrue, OnOk, length, slice_index};
ghost use Rattle.order_check.specs.declared.remainder.Parts.{Parts};
ghost use Rattle.order_check.specs.Based.{Remains, received_count};
ghost use Rattle.order_check.specs.Cycles.{IsArc};
ghost use Rattle.order_check.specs.Good.{IsGood};
ghost use Rattle.session_clocks.specs.Graphs.{HasNode, IsOneMore};
ghost use Rattle.clock_choices.specs.Extending.{Extends};
ghost use Rattle.clock_choices.specs.Index.{AreRunsOf, IsRead, runs_of};
ghost use Rattle.clock_choices.specs.Indexing.{IsIndex};
ghost use Rattle.clock_choices.specs.Runs.{Climbs};
ghost use Rattle.clock_choices.specs.UpTo.{AreReady, GoesUp, IsGraphUpTo, IsNextReady, IsToCome};
ghost use Rattle.clock_choices.specs.Whole.{AreAll, IsGraphOf};

use crate::index::{is_in_runs, reads_of, runs_of};
use crate::indexing::Index;
use crate::reads::Read;
use crate::runs::Run;
use order_check::Parts;
use session_clocks::Graph;
use std::alloc::Global;
use std::collections::BTreeMap;
use txn::{Arc, NoMemory, Source, TxnId};

/// Adds the arc of a read, if both are there and its source writes the key, unless it is reached already.
fn add_read(
    alloc: Global,
    writers: &BTreeMap<u64, Vec<Run>>,
    graph: &mut Graph,
    read: Read,
) -> Result<(), NoMemory>
    requires { All (λ run. Climbs run.numbers.items) (runs_of writers.now read.key) }
    ensures extends { Extends graph.old graph.new }
    ensures right { OnOk result ((parts : Parts) → AreRunsOf parts read.key (runs_of writers.now read.key) → IsRead parts read
        → All (IsArc parts []) graph.old.arcs → All (IsArc parts []) graph.new.arcs) }
{
    if !graph.contains(read.reader) || !graph.contains(read.writer) {
        return Ok(());
    }
    if graph.reaches(read.writer, read.reader) {
        return Ok(());
    }
    if !is_in_runs(runs_of(writers, read.key), read.writer) {
        return Ok(());
    }
    let arc = Arc::Read {
        key: read.key,
        from: read.writer,
        to: read.reader,
    };
    let mut told = Vec::new(alloc);
    graph.add_arc(alloc, arc, &mut told)?;
    Ok(())
}

/// Adds the arcs of reads, one after another.
fn add_reads(
    alloc: Global,
    writers: &BTreeMap<u64, Vec<Run>>,
    graph: &mut Graph,
    reads: &[Read],
) -> Result<(), NoMemory>
    requires { (key : ℕ) → All (λ run. Climbs run.numbers.items) (runs_of writers.now key) }
    ensures extends { Extends graph.old graph.new }
    ensures right { OnOk result ((parts : Parts) → ((key : ℕ) → AreRunsOf parts key (runs_of writers.now key)) → All (IsRead parts) reads.now
        → All (IsArc parts []) graph.old.arcs → All (IsArc parts []) graph.new.arcs) }
{
    for read in reads {
        add_read(alloc, writers, graph, *read)?;
    }
    Ok(())
}

/// Adds a session's next transaction, with the arcs of its reads. None of the reads of the one behind it has been looked at.
fn add_next(
    alloc: Global,
    parts: &Parts,
    index: &Index,
    graph: &mut Graph,
    session: u8,
    ready: &mut usize,
) -> Result<(), NoMemory>
    requires good { IsGood parts.now }
    requires index { IsIndex parts.now index.now }
    requires graph { IsGraphUpTo parts.now graph.old }
    requires session { session < length graph.old.gone }
    requires next { slice_index graph.old.received session < received_count parts.now session }
    ensures up { OnOk result (GoesUp parts.now graph.old graph.new) }
    ensures one { OnOk result (IsOneMore graph.old.received graph.new.received session) }
    ensures ready { OnOk result (ready.new ≡ 0) }
{
    let id = graph.add_node(session)?;
    *ready = 0;
    add_reads(alloc, &index.writers, graph, reads_of(&index.reads, id))
}

/// Whether the source of a session's read is a transaction of another session that is still to come.
fn is_to_come(parts: &Parts, graph: &Graph, session: u8, source: Source) -> bool
    ensures { IsTrue result ↔ IsToCome parts.now graph.now session source }
{
    let Source::By(writer) = source else {
        return false;
    };
    writer.session != session && !graph.contains(writer) && parts.remaining_at(writer).is_some()
}

/// Up to which read, from this one on, the sources aren't still to come.
fn ready_reads(
    parts: &Parts,
    graph: &Graph,
    session: u8,
    reads: &[(u64, Source)],
    from: usize,
) -> usize
    ensures { AreReady parts.now graph.now session reads.now from result }
{
    for place in from..reads.len() {
        let (_key, source) = reads[place];
        if is_to_come(parts, graph, session, source) {
            return place;
        }
    }
    from.max(reads.len())
}

/// Whether the session has a next transaction, and the sources of its reads, of which so many were looked at, aren't still to come.
fn is_next_ready(parts: &Parts, graph: &Graph, session: u8, ready: &mut usize) -> bool
    requires { session < length graph.now.received }
    ensures { IsTrue result → IsNextReady parts.now graph.now session ready.old ready.new }
{
    let number = graph.received()[usize::from(session)];
    let Some(txn) = parts.remaining_at(TxnId { session, number }) else {
        return false;
    };
    let reads = txn.reads.as_slice();
    *ready = ready_reads(parts, graph, session, reads, *ready);
    *ready >= reads.len()
}

/// Adds a session's next transactions as long as their sources aren't still to come, and says whether there were some.
fn add_ready(
    alloc: Global,
    parts: &Parts,
    index: &Index,
    graph: &mut Graph,
    session: u8,
    ready: &mut usize,
) -> Result<bool, NoMemory>
    requires good { IsGood parts.now }
    requires index { IsIndex parts.now index.now }
    requires graph { IsGraphUpTo parts.now graph.old }
    requires session { session < length graph.old.gone }
    ensures { OnOk result (GoesUp parts.now graph.old graph.new) }
{
    let mut went = false;
    for _txn in parts.remaining_of(session) {
        if !is_next_ready(parts, graph, session, ready) {
            return Ok(went);
        }
        add_next(alloc, parts, index, graph, session, ready)?;
        went = true;
    }
    Ok(went)
}

/// Adds, session by session, the transactions whose sources aren't still to come, and says whether there were some.
fn add_round(
    alloc: Global,
    parts: &Parts,
    index: &Index,
    graph: &mut Graph,
    ready: &mut [usize],
) -> Result<bool, NoMemory>
    requires good { IsGood parts.now }
    requires index { IsIndex parts.now index.now }
    requires graph { IsGraphUpTo parts.now graph.old }
    requires ready { length ready.old ≡ length parts.now.remain }
    ensures up { OnOk result (GoesUp parts.now graph.old graph.new) }
    ensures ready { length ready.new ≡ length ready.old }
{
    let mut went = false;
    for session in 0..parts.sessions() {
        let more = add_ready(
            alloc,
            parts,
            index,
            graph,
            session as u8,
            &mut ready[session],
        )?;
        went = went || more;
    }
    Ok(went)
}

/// Goes over all sessions again and again, until the transactions that are left wait for one another.
fn add_rounds(
    alloc: Global,
    parts: &Parts,
    index: &Index,
    graph: &mut Graph,
    ready: &mut [usize],
) -> Result<(), NoMemory>
    requires good { IsGood parts.now }
    requires index { IsIndex parts.now index.now }
    requires graph { IsGraphUpTo parts.now graph.old }
    requires ready { length ready.old ≡ length parts.now.remain }
    ensures up { OnOk result (GoesUp parts.now graph.old graph.new) }
    ensures ready { length ready.new ≡ length ready.old }
{
    for _round in 0..u64::MAX {
        if !add_round(alloc, parts, index, graph, ready)? {
            return Ok(());
        }
    }
    Ok(())
}

/// Makes sure that a transaction has come: after all that can come before it, and with no regard to its sources where it isn't among
/// these.
fn add_up_to(
    alloc: Global,
    parts: &Parts,
    index: &Index,
    graph: &mut Graph,
    ready: &mut [usize],
    id: TxnId,
) -> Result<(), NoMemory>
    requires good { IsGood parts.now }
    requires index { IsIndex parts.now index.now }
    requires graph { IsGraphUpTo parts.now graph.old }
    requires ready { length ready.old ≡ length parts.now.remain }
    requires remains { Remains parts.now id }
    ensures up { OnOk result (GoesUp parts.now graph.old graph.new) }
    ensures there { OnOk result (HasNode graph.new id) }
    ensures ready { length ready.new ≡ length ready.old }
{
    if graph.contains(id) {
        return Ok(());
    }
    add_rounds(alloc, parts, index, graph, ready)?;
    let session = usize::from(id.session);
    for _missing in graph.received()[session]..id.number + 1 {
        add_next(alloc, parts, index, graph, id.session, &mut ready[session])?;
    }
    Ok(())
}

/// A graph of what remains, with the arcs of its reads.
pub(crate) fn graph_by_sources(
    alloc: Global,
    parts: &Parts,
    index: &Index,
    ids: &[TxnId],
) -> Result<Graph, NoMemory>
    requires good { IsGood parts.now }
    requires index { IsIndex parts.now index.now }
    requires ids { AreAll parts.now ids.now }
    ensures { IfOk result (λ graph. IsGraphOf parts.now graph.gone graph.received graph.arcs) }
{
    let mut graph = Graph::new(alloc, parts.base.marks.as_slice())?;
    let mut ready = Vec::new(alloc);
    ready.resize(parts.sessions(), 0)?;
    for id in ids {
        add_up_to(alloc, parts, index, &mut graph, &mut ready, *id)?;
    }
    Ok(graph)
}
