// How many choices a relation leaves open, and the first of them: the others are counted, and not listed.
ghost use Rattle.std.specs.Prelude.{◌≡◌, ◌↔◌, ◌+◌, ◌-◌, ◌^◌, ◌++◌, ⊤, List, [], All, Contains, IfOk, IfSome, OnOk, length, take};
ghost use Rattle.txn.specs.declared.transactions.TxnId.{TxnId};
ghost use Rattle.txn.specs.declared.choices.Choice.{Choice};
ghost use Rattle.order_check.specs.declared.remainder.Parts.{Parts};
ghost use Rattle.order_check.specs.Based.{Remains};
ghost use Rattle.order_check.specs.Good.{IsGood};
ghost use Rattle.order_check.specs.Known.{AreOpenChoices, Known, ReadsKey, WritesKey};
ghost use Rattle.session_clocks.specs.Graphs.{HasNode};
ghost use Rattle.clock_choices.specs.Counted.{IsCounted, TalliesOn};
ghost use Rattle.clock_choices.specs.CountedChoices.{AreFirstOpen};
ghost use Rattle.clock_choices.specs.Extending.{reached_in};
ghost use Rattle.clock_choices.specs.Index.{AreRunsOf, IsRead, IsRunThere};
ghost use Rattle.clock_choices.specs.Indexing.{AreInOrder, IsIndex};
ghost use Rattle.clock_choices.specs.KeptLists.{IsListed};
ghost use Rattle.clock_choices.specs.Linking.{AreNodesOf};
ghost use Rattle.clock_choices.specs.Opens.{AreOpenOf, IsAsked, IsOfReader, IsOfRun, IsOfSource, IsRunOfRead, choices_at, read_of};
ghost use Rattle.clock_choices.specs.SharedIndexes.{IsIndexIn};
ghost use Rattle.clock_choices.specs.Writers.{AreRuns};

use crate::first_open::Asked;
use crate::index::{is_in_runs, runs_of};
use crate::indexing::{Index, remaining_ids_of};
use crate::reads::Read;
use crate::runs::Run;
use crate::settling::choice_of;
use crate::sharing::{SharedIndex, shared_index};
use crate::spans::open_span;
use order_check::Parts;
use session_clocks::Graph;
use std::alloc::{AllocError, Global};
use txn::{Choice, NoMemory, Sequence, Source, TxnId};

/// The first of the open choices, in order of reader, key, writer, other writer, and how many there are.
#[derive(Drop, Debug)]
pub struct OpenChoices {
    pub first: Sequence<Choice>,
    pub count: usize,
}

/// The open choices of a relation as they were listed for one who asked for so many of them.
#[derive(Drop, Debug)]
pub(crate) struct Listed {
    pub most: usize,
    pub choices: OpenChoices,
}

/// Open choices as they are counted: the first of them, and how many there are.
#[derive(Drop)]
pub(crate) struct Tally {
    pub first: Vec<Choice>,
    pub count: usize,
}

/// A whole copy.
fn copy_of_open(choices: &OpenChoices) -> Result<OpenChoices, NoMemory>
    ensures { IfOk result (λ copy. copy ≡ choices.now) }
{
    let first = choices.first.clone()?;
    Ok(OpenChoices {
        first,
        count: choices.count,
    })
}

/// The open choices, where they were listed for one who asked for so many.
pub(crate) fn listed_for(
    listed: &Option<Listed>,
    most: usize,
) -> Result<Option<OpenChoices>, NoMemory>
    ensures { IfOk result (λ found. (parts : Parts) → IfSome listed.now (IsListed parts) → IfSome found (AreFirstOpen parts most)) }
{
    match listed {
        Some(listed) if listed.most == most => {
            let copy = copy_of_open(&listed.choices)?;
            Ok(Some(copy))
        }
        _ => Ok(None),
    }
}

/// The sum, or no memory: so many choices aren't counted.
fn added(count: usize, more: usize) -> Result<usize, NoMemory>
    ensures { IfOk result (λ sum. sum ≡ count + more) }
{
    match count.checked_add(more) {
        Some(sum) => Ok(sum),
        None => Err(AllocError),
    }
}

/// Lists the choices of a read with a session's writers, unless so many are listed.
fn push_within(
    first: &mut Vec<Choice>,
    most: usize,
    read: Read,
    session: u8,
    numbers: &[u64],
) -> Result<(), NoMemory>
    ensures { OnOk result ((all : List Choice) → first.old.items ≡ take most all → first.new.items ≡ take most (all ++ choices_at read session numbers.now)) }
{
    for number in numbers {
        if first.len() >= most {
            return Ok(());
        }
        let other = TxnId {
            session,
            number: *number,
        };
        first.push(choice_of(read, other))?;
    }
    Ok(())
}

/// Counts the open choices of a read with the writers of a run, and lists them unless so many are listed.
fn count_run(
    tally: &mut Tally,
    most: usize,
    graph: &Graph,
    read: Read,
    run: &Run,
) -> Result<(), NoMemory>
    requires run { IsRunThere graph.now.gone graph.now.received run.now }
    requires reader { HasNode graph.now read.reader }
    requires writer { HasNode graph.now read.writer }
    requires read { reached_in graph.now read.writer read.reader }
    ensures { OnOk result ((own : List Choice) × TalliesOn most own tally.old tally.new
        × ((parts : Parts) → IsRunOfRead parts read run.now → AreOpenOf parts (reached_in graph.now) (IsOfRun read run.now) own)) }
{
    let session = run.session;
    let numbers = run.numbers.as_slice();
    let (from, to) = open_span(graph, read, session, numbers);
    let open = &numbers[from..to];
    push_within(&mut tally.first, most, read, session, open)?;
    let sum = added(tally.count, to - from)?;
    tally.count = sum;
    Ok(())
}

/// Counts and lists the open choices of a read from a writer of its key, run by run.
fn count_read(
    tally: &mut Tally,
    most: usize,
    graph: &Graph,
    read: Read,
    runs: &[Run],
) -> Result<(), NoMemory>
    requires runs { All (IsRunThere graph.now.gone graph.now.received) runs.now }
    requires rise { AreRuns runs.now }
    requires reader { HasNode graph.now read.reader }
    requires writer { HasNode graph.now read.writer }
    requires read { reached_in graph.now read.writer read.reader }
    ensures { OnOk result ((own : List Choice) × TalliesOn most own tally.old tally.new
        × ((parts : Parts) → AreRunsOf parts read.key runs.now → IsRead parts read → WritesKey parts read.writer read.key
        → AreOpenOf parts (reached_in graph.now) (λ choice. read_of choice ≡ read) own)) }
{
    for run in runs {
        count_run(tally, most, graph, read, run)?;
    }
    Ok(())
}

/// Counts and lists the open choices of what a transaction reads of a key.
fn count_source(
    tally: &mut Tally,
    most: usize,
    asked: &Asked,
    reader: TxnId,
    key: u64,
    source: Source,
) -> Result<(), NoMemory>
    requires asked { IsAsked asked.now.parts.now asked.now.index.now asked.now.graph.now }
    requires reads { ReadsKey asked.now.parts.now reader key source }
    ensures { OnOk result ((own : List Choice) × TalliesOn most own tally.old tally.new
        × AreOpenOf asked.now.parts.now (reached_in asked.now.graph.now) (IsOfSource reader (key, source)) own) }
{
    let Source::By(writer) = source else {
        return Ok(());
    };
    let runs = runs_of(&asked.index.writers, key);
    if !is_in_runs(runs, writer) {
        return Ok(());
    }
    let read = Read {
        reader,
        key,
        writer,
    };
    count_read(tally, most, asked.graph, read, runs)
}

/// Counts and lists the open choices of all that a transaction reads.
fn count_txn(tally: &mut Tally, most: usize, asked: &Asked, reader: TxnId) -> Result<(), NoMemory>
    requires asked { IsAsked asked.now.parts.now asked.now.index.now asked.now.graph.now }
    requires remains { Remains asked.now.parts.now reader }
    ensures { OnOk result ((own : List Choice) × TalliesOn most own tally.old tally.new
        × AreOpenOf asked.now.parts.now (reached_in asked.now.graph.now) (IsOfReader reader) own) }
{
    let Some(txn) = asked.parts.remaining_at(reader) else {
        unreachable!()
    };
    let reads = txn.reads.as_slice();
    for (key, source) in reads {
        count_source(tally, most, asked, reader, *key, *source)?;
    }
    Ok(())
}

/// The first so many of the open choices, and how many there are.
pub(crate) fn count_open(
    alloc: Global,
    asked: &Asked,
    ids: &[TxnId],
    most: usize,
) -> Result<OpenChoices, NoMemory>
    requires asked { IsAsked asked.now.parts.now asked.now.index.now asked.now.graph.now }
    requires members { (id : TxnId) → Contains ids.now id ↔ Remains asked.now.parts.now id }
    requires rise { AreInOrder ids.now }
    ensures { IfOk result (λ found. (all : List Choice) × AreOpenOf asked.now.parts.now (reached_in asked.now.graph.now) (λ choice. ⊤) all
        × (found.first ≡ take most all) × (found.count ≡ length all)) }
{
    let first = Vec::new(alloc);
    let mut tally = Tally { first, count: 0 };
    for id in ids {
        count_txn(&mut tally, most, asked, *id)?;
    }
    let Tally { first, count } = tally;
    let first = Sequence::new(first);
    Ok(OpenChoices { first, count })
}

/// The first so many of the open choices of parts, of which the graph reaches what is known.
fn open_with(
    alloc: Global,
    parts: &Parts,
    index: &Index,
    graph: &Graph,
    most: usize,
) -> Result<OpenChoices, NoMemory>
    requires good { IsGood parts.now }
    requires index { IsIndex parts.now index.now }
    requires nodes { AreNodesOf parts.now graph.now.gone graph.now.received }
    requires exact { (a b : TxnId) → reached_in graph.now a b ↔ Known parts.now [] a b }
    ensures { IfOk result (AreFirstOpen parts.now most) }
{
    let ids = remaining_ids_of(alloc, parts)?;
    let asked = Asked {
        parts,
        index,
        graph,
    };
    let found = count_open(alloc, &asked, &ids, most)?;
    Ok(found)
}

/// The first so many of the open choices of parts, whose index is made if there is none.
pub(crate) fn open_of(
    alloc: Global,
    parts: &Parts,
    index: &Option<SharedIndex>,
    graph: &Graph,
    most: usize,
) -> Result<OpenChoices, NoMemory>
    requires good { IsGood parts.now }
    requires index { IfSome index.now (IsIndexIn parts.now) }
    requires nodes { AreNodesOf parts.now graph.now.gone graph.now.received }
    requires exact { (a b : TxnId) → reached_in graph.now a b ↔ Known parts.now [] a b }
    ensures { IfOk result (AreFirstOpen parts.now most) }
{
    let shared = shared_index(alloc, index, parts)?;
    open_with(alloc, parts, shared.get(), graph, most)
}

/// The choices, all of them where as many were asked for as there may be.
pub(crate) fn all_of(found: OpenChoices) -> Sequence<Choice>
    ensures { (parts : Parts) → AreFirstOpen parts (2 ^ 64 - 1) found → AreOpenChoices parts [] result }
{
    found.first
}
