// Which transactions are known to come before or after each of some others: those of which no other one of these stands, in its session,
// between the last one that is known to come before and the first one that is known to come after.
ghost use Rattle.std.specs.Prelude.{◌≡◌, ◌↔◌, [], All, Contains, IfOk, IsTrue, OnOk, true};
ghost use Rattle.std.specs.List.{AllPairs};
ghost use Rattle.txn.specs.declared.transactions.TxnId.{TxnId};
ghost use Rattle.txn.specs.Transactions.{id_below};
ghost use Rattle.order_check.specs.Based.{Remains};
ghost use Rattle.order_check.specs.Known.{Known};
ghost use Rattle.session_clocks.specs.Graphs.{HasNode};
ghost use Rattle.session_clocks.specs.Reach.{Reaches};
ghost use Rattle.clock_choices.specs.Index.{IsRunThere};
ghost use Rattle.clock_choices.specs.OrderedAmong.{IsOrderedAmong};
ghost use Rattle.clock_choices.specs.Picks.{AreRunsOfIds, IsLinkedWithAll, IsLinkedWithRun, Picks, PicksOne};

use crate::runs::{Run, first_from};
use crate::saturated::Saturated;
use crate::writers::add_to_runs;
use session_clocks::Graph;
use std::alloc::Global;
use txn::{NoMemory, TxnId};

/// The ids by session, put in one after another.
fn runs_of_each(alloc: Global, ids: &[TxnId]) -> Result<Vec<Run>, NoMemory>
    ensures { IfOk result (λ runs. AreRunsOfIds ids.now runs.items) }
{
    let mut runs = Vec::new(alloc);
    for id in ids {
        add_to_runs(alloc, &mut runs, *id)?;
    }
    Ok(runs)
}

/// The ids by session. They are put in in order, so that each goes to the end.
fn runs_of_ids(alloc: Global, ids: &[TxnId]) -> Result<Vec<Run>, NoMemory>
    ensures { IfOk result (λ runs. AreRunsOfIds ids.now runs.items) }
{
    if ids.is_sorted() {
        return runs_of_each(alloc, ids);
    }
    let mut sorted = Vec::from_slice(alloc, ids)?;
    sorted.sort()?;
    let runs = runs_of_each(alloc, &sorted)?;
    Ok(runs)
}

/// Whether each other one of the run reaches the transaction, or is reached by it: the first that doesn't reach it, if there is one, tells
/// of those behind.
fn is_linked_with_run(graph: &Graph, run: &Run, id: TxnId) -> bool
    requires run { IsRunThere graph.now.gone graph.now.received run.now }
    requires there { HasNode graph.now id }
    ensures { IsTrue result ↔ IsLinkedWithRun (Reaches graph.now.gone graph.now.received graph.now.arcs) id run.now }
{
    let before = graph.before(id, run.session);
    match first_from(run.session, &run.numbers, id, id, before) {
        Some(first) => graph.after(id, run.session) <= first.number,
        None => true,
    }
}

/// Whether each other transaction of all these runs reaches the transaction, or is reached by it.
fn is_linked_with_all(graph: &Graph, runs: &[Run], id: TxnId) -> bool
    requires runs { All (IsRunThere graph.now.gone graph.now.received) runs.now }
    requires there { HasNode graph.now id }
    ensures { IsTrue result ↔ IsLinkedWithAll (Reaches graph.now.gone graph.now.received graph.now.arcs) runs.now id }
{
    for run in runs {
        if !is_linked_with_run(graph, run, id) {
            return false;
        }
    }
    true
}

fn push_linked(
    picked: &mut Vec<TxnId>,
    graph: &Graph,
    runs: &[Run],
    id: TxnId,
) -> Result<(), NoMemory>
    requires runs { All (IsRunThere graph.now.gone graph.now.received) runs.now }
    requires there { HasNode graph.now id }
    ensures { OnOk result (PicksOne (IsLinkedWithAll (Reaches graph.now.gone graph.now.received graph.now.arcs) runs.now) id picked.old.items picked.new.items) }
{
    if !is_linked_with_all(graph, runs, id) {
        return Ok(());
    }
    picked.push(id)?;
    Ok(())
}

/// Those of the ids that are linked with each other one of the runs, in the same order.
fn linked_among(
    alloc: Global,
    graph: &Graph,
    runs: &[Run],
    ids: &[TxnId],
) -> Result<Vec<TxnId>, NoMemory>
    requires runs { All (IsRunThere graph.now.gone graph.now.received) runs.now }
    requires there { All (HasNode graph.now) ids.now }
    ensures { IfOk result (λ picked. Picks (IsLinkedWithAll (Reaches graph.now.gone graph.now.received graph.now.arcs) runs.now) ids.now picked.items) }
{
    let mut picked = Vec::new(alloc);
    for id in ids {
        push_linked(&mut picked, graph, runs, *id)?;
    }
    Ok(picked)
}

impl Saturated {
    /// Those of the ids that are known to come before or after each of the others but themselves, in the same order.
    pub fn ordered_with_all(
        &self,
        alloc: Global,
        ids: &[TxnId],
        others: &[TxnId],
    ) -> Result<Vec<TxnId>, NoMemory>
        requires ids { All (Remains self.now.parts) ids.now }
        requires others { All (Remains self.now.parts) others.now }
        ensures members { IfOk result (λ picked. (id : TxnId) → Contains picked.items id ↔ (Contains ids.now id × IsOrderedAmong self.now.parts others.now id)) }
        ensures rise { IfOk result (λ picked. AllPairs (λ a b. id_below a b ≡ true) ids.now → AllPairs (λ a b. id_below a b ≡ true) picked.items) }
        ensures order { IfOk result (λ picked. AllPairs (Known self.now.parts []) ids.now → AllPairs (Known self.now.parts []) picked.items) }
    {
        let runs = runs_of_ids(alloc, others)?;
        let picked = linked_among(alloc, self.graph(), &runs, ids)?;
        Ok(picked)
    }
}
