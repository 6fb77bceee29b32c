// Who has to be looked at since a new transaction writes a key: the writers of the key that reach it. Of these it is enough to note those
// that reach no earlier writer of the key in its session: for the others what is known of the earlier one says what the new one adds.
ghost use Rattle.std.specs.Prelude.{◌≡◌, ◌<◌, ◌⊎◌, ℕ, All, Contains, IfSome, OnOk, length};
ghost use Rattle.txn.specs.declared.transactions.TxnId.{TxnId};
ghost use Rattle.order_check.specs.Based.{Remains};
ghost use Rattle.session_clocks.specs.Graphs.{HasNode};
ghost use Rattle.session_clocks.specs.Reach.{Reaches};
ghost use Rattle.clock_choices.specs.Growth.{IsNotedFor};
ghost use Rattle.clock_choices.specs.Index.{IsRunThere, runs_of};
ghost use Rattle.clock_choices.specs.Indexing.{IsIndex};
ghost use Rattle.clock_choices.specs.Linking.{AreNodesOf};
ghost use Rattle.clock_choices.specs.Passing.{IsEarlier, IsNotedInRun, IsNotedInRuns, IsPassed};
ghost use Rattle.clock_choices.specs.Runs.{Climbs};

use crate::due::Due;
use crate::index::runs_of;
use crate::indexing::Index;
use crate::runs::{Run, count_below, last_below};
use order_check::Parts;
use session_clocks::Graph;
use txn::{NoMemory, TxnId};

/// A writer of the key before the transaction in its session: the last one, if there is one.
fn earlier_writer(runs: &[Run], id: TxnId) -> Option<TxnId>
    requires { All (λ run. Climbs run.numbers.items) runs.now }
    ensures { IfSome result (IsEarlier runs.now id) }
{
    for run in runs {
        if run.session == id.session {
            return last_below(run.session, &run.numbers, id, id, id.number);
        }
    }
    None
}

/// Up to which number a session reaches the earlier writer, if there is one.
fn passed_below(graph: &Graph, earlier: Option<TxnId>, session: u8) -> u64
    requires there { IfSome earlier (HasNode graph.now) }
    requires session { session < length graph.now.gone }
    ensures { (other : TxnId) → other.session ≡ session → HasNode graph.now other → other.number < result → IsPassed (Reaches graph.now.gone graph.now.received graph.now.arcs) earlier other }
{
    match earlier {
        Some(one) => graph.before(one, session),
        None => 0,
    }
}

/// Notes those of a session that reach the transaction, but for those that reach the earlier writer.
fn note_run(
    graph: &Graph,
    due: &mut Due,
    run: &Run,
    id: TxnId,
    earlier: Option<TxnId>,
) -> Result<(), NoMemory>
    requires run { IsRunThere graph.now.gone graph.now.received run.now }
    requires id { HasNode graph.now id }
    requires earlier { IfSome earlier (HasNode graph.now) }
    ensures stay { OnOk result ((other : TxnId) → Contains due.old other → Contains due.new other) }
    ensures noted { OnOk result (IsNotedInRun (Reaches graph.now.gone graph.now.received graph.now.arcs) due.new id earlier run.now) }
{
    let from = count_below(&run.numbers, passed_below(graph, earlier, run.session));
    let to = count_below(&run.numbers, graph.before(id, run.session));
    for place in from..to {
        due.note(TxnId {
            session: run.session,
            number: run.numbers[place],
        })?;
    }
    Ok(())
}

/// Notes, session by session, those that reach the transaction, but for those that reach the earlier writer.
fn note_runs(
    graph: &Graph,
    due: &mut Due,
    runs: &[Run],
    id: TxnId,
    earlier: Option<TxnId>,
) -> Result<(), NoMemory>
    requires runs { All (IsRunThere graph.now.gone graph.now.received) runs.now }
    requires id { HasNode graph.now id }
    requires earlier { IfSome earlier (HasNode graph.now) }
    ensures stay { OnOk result ((other : TxnId) → Contains due.old other → Contains due.new other) }
    ensures noted { OnOk result (All (IsNotedInRun (Reaches graph.now.gone graph.now.received graph.now.arcs) due.new id earlier) runs.now) }
{
    for run in runs {
        note_run(graph, due, run, id, earlier)?;
    }
    Ok(())
}

/// Notes the transaction, if there is one.
fn note_one(due: &mut Due, id: Option<TxnId>) -> Result<(), NoMemory>
    ensures stay { OnOk result ((other : TxnId) → Contains due.old other → Contains due.new other) }
    ensures here { OnOk result (IfSome id (Contains due.new)) }
{
    let Some(one) = id else {
        return Ok(());
    };
    due.note(one)
}

/// Notes whoever has to be looked at since the transaction is one of these writers of a key.
fn note_key(graph: &Graph, due: &mut Due, runs: &[Run], id: TxnId) -> Result<(), NoMemory>
    requires runs { All (IsRunThere graph.now.gone graph.now.received) runs.now }
    requires id { HasNode graph.now id }
    ensures stay { OnOk result ((other : TxnId) → Contains due.old other → Contains due.new other) }
    ensures noted { OnOk result (IsNotedInRuns (Reaches graph.now.gone graph.now.received graph.now.arcs) due.new runs.now id) }
{
    let earlier = earlier_writer(runs, id);
    note_one(due, earlier)?;
    note_runs(graph, due, runs, id, earlier)
}

/// Notes whoever has to be looked at since the transaction is one of the writers of these keys.
fn note_keys(
    index: &Index,
    graph: &Graph,
    due: &mut Due,
    id: TxnId,
    keys: &[u64],
) -> Result<(), NoMemory>
    requires runs { (key : ℕ) → All (IsRunThere graph.now.gone graph.now.received) (runs_of index.now.writers key) }
    requires id { HasNode graph.now id }
    ensures stay { OnOk result ((other : TxnId) → Contains due.old other → Contains due.new other) }
    ensures noted { OnOk result (All (λ key. IsNotedInRuns (Reaches graph.now.gone graph.now.received graph.now.arcs) due.new (runs_of index.now.writers key) id) keys.now) }
{
    for key in keys {
        let runs = runs_of(&index.writers, *key);
        note_key(graph, due, runs, id)?;
    }
    Ok(())
}

/// Notes whoever has to be looked at since the transaction writes its keys.
fn note_txn(
    parts: &Parts,
    index: &Index,
    graph: &Graph,
    due: &mut Due,
    id: TxnId,
) -> Result<(), NoMemory>
    requires index { IsIndex parts.now index.now }
    requires nodes { AreNodesOf parts.now graph.now.gone graph.now.received }
    requires remains { Remains parts.now id }
    ensures stay { OnOk result ((other : TxnId) → Contains due.old other → Contains due.new other) }
    ensures noted { OnOk result (IsNotedFor parts.now (Reaches graph.now.gone graph.now.received graph.now.arcs) (Contains due.new) id) }
{
    let Some(txn) = parts.remaining_at(id) else {
        unreachable!()
    };
    let keys = txn.writes.as_slice();
    note_keys(index, graph, due, id, keys)
}

/// Notes whoever has to be looked at since these transactions write their keys.
pub(crate) fn note_txns(
    parts: &Parts,
    index: &Index,
    graph: &Graph,
    due: &mut Due,
    ids: &[TxnId],
) -> Result<(), NoMemory>
    requires index { IsIndex parts.now index.now }
    requires nodes { AreNodesOf parts.now graph.now.gone graph.now.received }
    requires remain { All (Remains parts.now) ids.now }
    ensures stay { OnOk result ((other : TxnId) → Contains due.old other → Contains due.new other) }
    ensures noted { OnOk result (All (IsNotedFor parts.now (Reaches graph.now.gone graph.now.received graph.now.arcs) (Contains due.new)) ids.now) }
{
    for id in ids {
        note_txn(parts, index, graph, due, *id)?;
    }
    Ok(())
}
