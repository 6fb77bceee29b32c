// A relation that catches up with parts to which a fragment was added.
ghost use Rattle.std.specs.Prelude.{◌≡◌, ◌+◌, ◌<◌, ◌^◌, List, ℕ, length, map, IfOk, OnOk, OnErr, slice_index};
ghost use Rattle.txn.specs.declared.transactions.TxnId.{TxnId};
ghost use Rattle.order_check.specs.declared.remainder.Parts.{Parts};
ghost use Rattle.order_check.specs.Good.{IsGood};
ghost use Rattle.clock_choices.specs.CatchingUp.{GoesOn};
ghost use Rattle.clock_choices.specs.Extending.{Extends};
ghost use Rattle.clock_choices.specs.Growth.{AreIdsFrom, IsNext};
ghost use Rattle.clock_choices.specs.Held.{IsHeld};
ghost use Rattle.clock_choices.specs.Indexing.{IsIndex};
ghost use Rattle.clock_choices.specs.SaturatedState.{AreNewBehind};
ghost use Rattle.clock_choices.specs.Steps.{bare};

use crate::due::Due;
use crate::indexing::{Index, add_txns};
use crate::linking::link_txns;
use crate::nodes::{add_nodes, remove_nodes};
use crate::passing::note_txns;
use crate::saturating::saturate;
use crate::spread::spread_of;
use crate::steps::Forced;
use order_check::Parts;
use session_clocks::Graph;
use std::alloc::Global;
use txn::{Fragment, NoMemory, TxnId};

/// The ids of a fragment's transactions, in order.
fn ids_of(alloc: Global, fragment: &Fragment) -> Result<Vec<TxnId>, NoMemory>
    requires { fragment.now.first + length fragment.now.txns < 2 ^ 64 }
    ensures { IfOk result (λ ids. AreIdsFrom fragment.now.session fragment.now.first (length fragment.now.txns) ids.items) }
{
    let mut ids = Vec::new(alloc);
    let mut number = fragment.first;
    for _txn in fragment.txns.as_slice() {
        ids.push(TxnId {
            session: fragment.session,
            number,
        })?;
        number += 1;
    }
    Ok(ids)
}

/// Adds what the new transactions bring to the relation, and settles what that makes due.
fn bring_up(
    alloc: Global,
    more: &Parts,
    index: &Index,
    graph: &mut Graph,
    steps: &mut Vec<Forced>,
    first: u64,
    new: &[TxnId],
) -> Result<(), NoMemory>
    requires index { IsIndex more.now index.now }
    requires sessions { length graph.old.gone ≡ length more.now.remain }
    requires goes_on { (parts : Parts) × (few : List ℕ) × (session : ℕ) × (count : ℕ)
        × GoesOn parts more.now graph.old.gone few graph.old.received graph.old.arcs steps.old.items session count new.now
        × (first ≡ slice_index few session) }
    ensures extends { Extends graph.old graph.new }
    ensures held { OnOk result (IsHeld more.now graph.new.gone graph.new.received graph.new.arcs steps.new.items) }
    ensures logged { OnOk result (AreNewBehind more.now (map bare steps.old.items) (map bare steps.new.items)) }
    ensures err { OnErr result (steps.new.items ≡ steps.old.items) }
{
    let mut due = Due::new(alloc, graph.gone(), graph.received())?;
    due.note_all(new)?;
    link_txns(alloc, more, index, graph, &mut due, first, new)?;
    note_txns(more, index, graph, &mut due, new)?;
    let mut forced = Vec::new(alloc);
    saturate(
        alloc,
        &index.writers,
        &index.reads,
        graph,
        &mut forced,
        due.into_ids(),
    )?;
    steps.append(&mut forced)?;
    Ok(())
}

/// Adds what the new transactions bring, in an order in which they are spread. On a cycle that matters most: the last of a session that comes
/// onto it has all before it there.
fn bring_up_spread(
    alloc: Global,
    more: &Parts,
    index: &Index,
    graph: &mut Graph,
    steps: &mut Vec<Forced>,
    first: u64,
    new: &[TxnId],
) -> Result<(), NoMemory>
    requires index { IsIndex more.now index.now }
    requires sessions { length graph.old.gone ≡ length more.now.remain }
    requires goes_on { (parts : Parts) × (few : List ℕ) × (session : ℕ) × (count : ℕ)
        × GoesOn parts more.now graph.old.gone few graph.old.received graph.old.arcs steps.old.items session count new.now
        × (first ≡ slice_index few session) }
    ensures extends { Extends graph.old graph.new }
    ensures held { OnOk result (IsHeld more.now graph.new.gone graph.new.received graph.new.arcs steps.new.items) }
    ensures logged { OnOk result (AreNewBehind more.now (map bare steps.old.items) (map bare steps.new.items)) }
    ensures err { OnErr result (steps.new.items ≡ steps.old.items) }
{
    let spread = spread_of(alloc, graph.gone(), graph.received(), new)?;
    bring_up(alloc, more, index, graph, steps, first, &spread)
}

/// Adds what the new transactions bring, or leaves the graph and the steps as they were, if memory is refused.
fn go_on(
    alloc: Global,
    more: &Parts,
    index: &Index,
    graph: &mut Graph,
    steps: &mut Vec<Forced>,
    first: u64,
    new: &[TxnId],
) -> Result<(), NoMemory>
    requires index { IsIndex more.now index.now }
    requires sessions { length graph.old.gone ≡ length more.now.remain }
    requires goes_on { (parts : Parts) × (few : List ℕ) × (session : ℕ) × (count : ℕ)
        × GoesOn parts more.now graph.old.gone few graph.old.received graph.old.arcs steps.old.items session count new.now
        × (first ≡ slice_index few session) }
    ensures gone { graph.new.gone ≡ graph.old.gone }
    ensures received { graph.new.received ≡ graph.old.received }
    ensures held { OnOk result (IsHeld more.now graph.new.gone graph.new.received graph.new.arcs steps.new.items) }
    ensures logged { OnOk result (AreNewBehind more.now (map bare steps.old.items) (map bare steps.new.items)) }
    ensures err { OnErr result ((steps.new.items ≡ steps.old.items) × (graph.new.arcs ≡ graph.old.arcs)) }
{
    graph.mark()?;
    match bring_up_spread(alloc, more, index, graph, steps, first, new) {
        Ok(()) => {
            graph.forget_marks();
            Ok(())
        }
        Err(error) => {
            graph.back();
            Err(error)
        }
    }
}

/// Makes the relation that of more parts, and gives what is looked up of these.
pub(crate) fn catch_up(
    alloc: Global,
    more: &Parts,
    fragment: &Fragment,
    index: Index,
    graph: &mut Graph,
    steps: &mut Vec<Forced>,
) -> Result<Index, NoMemory>
    requires good { IsGood more.now }
    requires next { (parts : Parts) × IsNext parts more.now fragment.now × IsHeld parts graph.old.gone graph.old.received graph.old.arcs steps.old.items × IsIndex parts index }
    ensures held { OnOk result (IsHeld more.now graph.new.gone graph.new.received graph.new.arcs steps.new.items) }
    ensures logged { OnOk result (AreNewBehind more.now (map bare steps.old.items) (map bare steps.new.items)) }
    ensures index { IfOk result (IsIndex more.now) }
    ensures err { OnErr result ((steps.new.items ≡ steps.old.items) × (graph.new.gone ≡ graph.old.gone) × (graph.new.received ≡ graph.old.received) × (graph.new.arcs ≡ graph.old.arcs)) }
{
    let new = ids_of(alloc, fragment)?;
    let mut index = index;
    add_txns(alloc, &mut index, more, &new)?;
    let count = fragment.txns.len();
    add_nodes(graph, fragment.session, fragment.first, count)?;
    match go_on(alloc, more, &index, graph, steps, fragment.first, &new) {
        Ok(()) => Ok(index),
        Err(error) => {
            remove_nodes(graph, fragment.session, fragment.first, count);
            Err(error)
        }
    }
}
