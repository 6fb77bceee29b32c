// The first choice that a graph leaves open. It takes no memory.
ghost use Rattle.std.specs.Prelude.{◌≡◌, ◌↔◌, All, Contains, MatchOption};
ghost use Rattle.txn.specs.declared.transactions.TxnId.{TxnId};
ghost use Rattle.txn.specs.declared.choices.Choice.{Choice};
ghost use Rattle.order_check.specs.declared.remainder.Parts.{Parts};
ghost use Rattle.order_check.specs.Based.{Remains};
ghost use Rattle.order_check.specs.Known.{ReadsKey, WritesKey};
ghost use Rattle.session_clocks.specs.Graphs.{HasNode};
ghost use Rattle.clock_choices.specs.Extending.{reached_in};
ghost use Rattle.clock_choices.specs.Index.{AreRunsOf, IsRead, IsRunThere};
ghost use Rattle.clock_choices.specs.Indexing.{AreInOrder};
ghost use Rattle.clock_choices.specs.Opens.{ArePassed, IsAsked, IsFirstIn, IsFirstOf, IsOfReader, IsOfRun, IsOfSource, IsOpenIn, IsRunOfRead, NoneOpen, read_of};
ghost use Rattle.clock_choices.specs.Writers.{AreRuns};

use crate::index::{is_in_runs, runs_of};
use crate::indexing::Index;
use crate::reads::Read;
use crate::runs::Run;
use crate::settling::choice_of;
use crate::spans::open_span;
use order_check::Parts;
use session_clocks::Graph;
use txn::{Choice, Source, TxnId};

/// What open choices are looked up in.
#[derive(Clone, Copy)]
pub(crate) struct Asked<'a> {
    pub parts: &'a Parts,
    pub index: &'a Index,
    pub graph: &'a Graph,
}

/// The first choice that is left open, and how many transactions in front of its reader have none.
#[derive(Clone, Copy, Debug)]
pub(crate) struct FirstFound {
    pub choice: Option<Choice>,
    pub passed: usize,
}

/// The first open choice of a read with a writer in the run.
fn first_in_run(graph: &Graph, read: Read, run: &Run) -> Option<Choice>
    requires run { IsRunThere graph.now.gone graph.now.received run.now }
    requires reader { HasNode graph.now read.reader }
    requires writer { HasNode graph.now read.writer }
    requires read { reached_in graph.now read.writer read.reader }
    ensures { (parts : Parts) → IsRunOfRead parts read run.now → MatchOption result
        (NoneOpen parts (reached_in graph.now) (IsOfRun read run.now))
        (IsFirstOf parts (reached_in graph.now) (IsOfRun read run.now)) }
{
    let session = run.session;
    let numbers = run.numbers.as_slice();
    let (from, to) = open_span(graph, read, session, numbers);
    if from >= to {
        return None;
    }
    let number = numbers[from];
    Some(choice_of(read, TxnId { session, number }))
}

/// The first open choice of a read from a writer of its key.
fn first_of_read(graph: &Graph, read: Read, runs: &[Run]) -> Option<Choice>
    requires runs { All (IsRunThere graph.now.gone graph.now.received) runs.now }
    requires rise { AreRuns runs.now }
    requires reader { HasNode graph.now read.reader }
    requires writer { HasNode graph.now read.writer }
    requires read { reached_in graph.now read.writer read.reader }
    ensures { (parts : Parts) → AreRunsOf parts read.key runs.now → IsRead parts read → WritesKey parts read.writer read.key → MatchOption result
        (NoneOpen parts (reached_in graph.now) (λ choice. read_of choice ≡ read))
        (IsFirstOf parts (reached_in graph.now) (λ choice. read_of choice ≡ read)) }
{
    for run in runs {
        if let Some(choice) = first_in_run(graph, read, run) {
            return Some(choice);
        }
    }
    None
}

/// The first open choice of what a transaction reads of a key.
fn first_of_source(asked: &Asked, reader: TxnId, key: u64, source: Source) -> Option<Choice>
    requires asked { IsAsked asked.now.parts.now asked.now.index.now asked.now.graph.now }
    requires reads { ReadsKey asked.now.parts.now reader key source }
    ensures { MatchOption result
        (NoneOpen asked.now.parts.now (reached_in asked.now.graph.now) (IsOfSource reader (key, source)))
        (IsFirstOf asked.now.parts.now (reached_in asked.now.graph.now) (IsOfSource reader (key, source))) }
{
    let Source::By(writer) = source else {
        return None;
    };
    let runs = runs_of(&asked.index.writers, key);
    if !is_in_runs(runs, writer) {
        return None;
    }
    let read = Read {
        reader,
        key,
        writer,
    };
    first_of_read(asked.graph, read, runs)
}

/// The first open choice of a transaction's reads.
fn first_of_txn(asked: &Asked, reader: TxnId) -> Option<Choice>
    requires asked { IsAsked asked.now.parts.now asked.now.index.now asked.now.graph.now }
    requires remains { Remains asked.now.parts.now reader }
    ensures { MatchOption result
        (NoneOpen asked.now.parts.now (reached_in asked.now.graph.now) (IsOfReader reader))
        (IsFirstOf asked.now.parts.now (reached_in asked.now.graph.now) (IsOfReader reader)) }
{
    let Some(txn) = asked.parts.remaining_at(reader) else {
        unreachable!()
    };
    let reads = txn.reads.as_slice();
    for (key, source) in reads {
        if let Some(choice) = first_of_source(asked, reader, *key, *source) {
            return Some(choice);
        }
    }
    None
}

/// The first open choice, where the first so many of the transactions have none. No transaction after its reader is looked at.
pub(crate) fn first_open_from(asked: &Asked, ids: &[TxnId], passed: usize) -> FirstFound
    requires asked { IsAsked asked.now.parts.now asked.now.index.now asked.now.graph.now }
    requires members { (id : TxnId) → Contains ids.now id ↔ Remains asked.now.parts.now id }
    requires rise { AreInOrder ids.now }
    requires passed { ArePassed asked.now.parts.now (reached_in asked.now.graph.now) ids.now passed }
    ensures passed { ArePassed asked.now.parts.now (reached_in asked.now.graph.now) ids.now result.passed }
    ensures choice { MatchOption result.choice
        ((choice : Choice) → ¬ IsOpenIn asked.now.parts.now (reached_in asked.now.graph.now) choice)
        (IsFirstIn asked.now.parts.now (reached_in asked.now.graph.now)) }
{
    for place in passed..ids.len() {
        if let Some(choice) = first_of_txn(asked, ids[place]) {
            return FirstFound {
                choice: Some(choice),
                passed: place,
            };
        }
    }
    FirstFound {
        choice: None,
        passed: ids.len(),
    }
}
