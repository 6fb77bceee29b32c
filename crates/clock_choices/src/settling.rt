// Sides of the choices of a read that are forced. In each session one writer of the key decides for a side: the last one before the reader has
// to stand before the writer, and the first one behind the writer behind the reader. The others follow by the session's order.
ghost use Rattle.std.specs.Prelude.{◌≡◌, ⊤, All, MatchOption, OnOk};
ghost use Rattle.txn.specs.declared.choices.Side.TheVariants.{First, Second};
ghost use Rattle.txn.specs.declared.transactions.TxnId.{TxnId};
ghost use Rattle.order_check.specs.declared.remainder.Parts.{Parts};
ghost use Rattle.session_clocks.specs.Graphs.{HasNode};
ghost use Rattle.clock_choices.specs.declared.runs.Run.{Run};
ghost use Rattle.clock_choices.specs.Extending.{Extends, reached_in};
ghost use Rattle.clock_choices.specs.Forcing.{AreRunChoices, Decides, Forces, IsForcedIn, IsGrowth, IsRunSettled, IsSideSettled, choice_of};
ghost use Rattle.clock_choices.specs.Index.{IsRunThere};

use crate::reads::Read;
use crate::runs::{Run, count_below, count_below_near, first_behind, last_in};
use crate::steps::Forced;
use session_clocks::Graph;
use std::alloc::Global;
use txn::{Arc, Choice, NoMemory, Side, TxnId};

/// The choice of a read with another writer of its key.
pub(crate) fn choice_of(read: Read, other: TxnId) -> Choice
    ensures { result ≡ choice_of read other }
{
    Choice {
        reader: read.reader,
        key: read.key,
        writer: read.writer,
        other,
    }
}

/// The last writer in the run that stands before the reader, if it doesn't stand before the read's writer yet. It also says how many of the
/// numbers stand before the reader, if that was looked up: nothing is promised of it.
fn forced_before(graph: &Graph, read: Read, run: &Run) -> (usize, Option<TxnId>)
    requires run { IsRunThere graph.now.gone graph.now.received run.now }
    requires reader { HasNode graph.now read.reader }
    requires writer { HasNode graph.now read.writer }
    ensures { Decides (reached_in graph.now) First read run.now result.1 }
{
    // Both numbers stand in rows that are at hand for each session, so that most sessions are done with before their writers are looked up.
    let bound = graph.before(read.reader, run.session);
    let done = graph.before(read.writer, run.session);
    if bound <= done {
        return (0, None);
    }
    let numbers = run.numbers.as_slice();
    let count = count_below(numbers, bound);
    let Some(last) = last_in(run.session, numbers, read.reader, read.writer, count) else {
        return (count, None);
    };
    if last.number < done {
        return (count, None);
    }
    (count, Some(last))
}

/// The first writer in the run that stands behind the read's writer, if it doesn't stand behind the reader yet. Mostly those of the numbers
/// that stand before the reader stand before that one, and no others: how many these are is the guess.
fn forced_behind(graph: &Graph, read: Read, run: &Run, guess: usize) -> Option<TxnId>
    requires run { IsRunThere graph.now.gone graph.now.received run.now }
    requires reader { HasNode graph.now read.reader }
    requires writer { HasNode graph.now read.writer }
    ensures { Decides (reached_in graph.now) Second read run.now result }
{
    let bound = graph.after(read.writer, run.session);
    let done = graph.after(read.reader, run.session);
    if done <= bound {
        return None;
    }
    let numbers = run.numbers.as_slice();
    let count = count_below_near(numbers, bound, guess);
    let Some(first) = first_behind(run.session, numbers, read.reader, read.writer, count) else {
        return None;
    };
    if done <= first.number {
        return None;
    }
    Some(first)
}

/// Takes the side of the choice with this writer.
fn take(
    alloc: Global,
    graph: &mut Graph,
    steps: &mut Vec<Forced>,
    told: &mut Vec<TxnId>,
    read: Read,
    side: Side,
    other: TxnId,
) -> Result<(), NoMemory>
    requires reader { HasNode graph.old read.reader }
    requires writer { HasNode graph.old read.writer }
    requires other { HasNode graph.old other }
    ensures extends { Extends graph.old graph.new }
    ensures growth { OnOk result (IsGrowth (reached_in graph.old) told.old.items (reached_in graph.new) told.new.items) }
    ensures forces { OnOk result ((parts : Parts) (run : Run) → IsForcedIn (reached_in graph.old) side read run other → AreRunChoices parts read run
        → Forces parts graph.old steps.old.items graph.new steps.new.items) }
    ensures settled { OnOk result ((run : Run) → IsRunThere graph.old.gone graph.old.received run → IsForcedIn (reached_in graph.old) side read run other
        → IsSideSettled (reached_in graph.new) told.new.items side read run) }
{
    let step = Forced {
        choice: choice_of(read, other),
        side,
        arcs: graph.arcs().len(),
    };
    let (from, to) = step.conclusion();
    steps.push(step)?;
    graph.add_arc(alloc, Arc::Taken { from, to }, told)?;
    Ok(())
}

/// Takes the side of the choice with the writer that was found, if one was. Mostly none was, so that this is to be short.
fn force(
    alloc: Global,
    graph: &mut Graph,
    steps: &mut Vec<Forced>,
    told: &mut Vec<TxnId>,
    read: Read,
    side: Side,
    found: Option<TxnId>,
) -> Result<(), NoMemory>
    requires reader { HasNode graph.old read.reader }
    requires writer { HasNode graph.old read.writer }
    requires found { MatchOption found ⊤ (HasNode graph.old) }
    ensures extends { Extends graph.old graph.new }
    ensures growth { OnOk result (IsGrowth (reached_in graph.old) told.old.items (reached_in graph.new) told.new.items) }
    ensures forces { OnOk result ((parts : Parts) (run : Run) → Decides (reached_in graph.old) side read run found → AreRunChoices parts read run
        → Forces parts graph.old steps.old.items graph.new steps.new.items) }
    ensures settled { OnOk result ((run : Run) → IsRunThere graph.old.gone graph.old.received run → Decides (reached_in graph.old) side read run found
        → IsSideSettled (reached_in graph.new) told.new.items side read run) }
{
    let Some(other) = found else {
        return Ok(());
    };
    take(alloc, graph, steps, told, read, side, other)
}

/// Settles a read with the writers in a run: first what stands before the reader, and then what stands behind the writer.
fn settle_run(
    alloc: Global,
    graph: &mut Graph,
    steps: &mut Vec<Forced>,
    told: &mut Vec<TxnId>,
    read: Read,
    run: &Run,
) -> Result<(), NoMemory>
    requires run { IsRunThere graph.old.gone graph.old.received run.now }
    requires reader { HasNode graph.old read.reader }
    requires writer { HasNode graph.old read.writer }
    ensures extends { Extends graph.old graph.new }
    ensures growth { OnOk result (IsGrowth (reached_in graph.old) told.old.items (reached_in graph.new) told.new.items) }
    ensures forces { OnOk result ((parts : Parts) → AreRunChoices parts read run.now → Forces parts graph.old steps.old.items graph.new steps.new.items) }
    ensures settled { OnOk result (IsRunSettled (reached_in graph.new) told.new.items read run.now) }
{
    let (count, last) = forced_before(graph, read, run);
    force(alloc, graph, steps, told, read, Side::First, last)?;
    let first = forced_behind(graph, read, run, count);
    force(alloc, graph, steps, told, read, Side::Second, first)
}

/// Settles a read, session by session.
pub(crate) fn settle_read(
    alloc: Global,
    graph: &mut Graph,
    steps: &mut Vec<Forced>,
    told: &mut Vec<TxnId>,
    read: Read,
    runs: &[Run],
) -> Result<(), NoMemory>
    requires runs { All (IsRunThere graph.old.gone graph.old.received) runs.now }
    requires reader { HasNode graph.old read.reader }
    requires writer { HasNode graph.old read.writer }
    ensures extends { Extends graph.old graph.new }
    ensures growth { OnOk result (IsGrowth (reached_in graph.old) told.old.items (reached_in graph.new) told.new.items) }
    ensures forces { OnOk result ((parts : Parts) → All (AreRunChoices parts read) runs.now → Forces parts graph.old steps.old.items graph.new steps.new.items) }
    ensures settled { OnOk result (All (IsRunSettled (reached_in graph.new) told.new.items read) runs.now) }
{
    for run in runs {
        settle_run(alloc, graph, steps, told, read, run)?;
    }
    Ok(())
}
