// The relation of whole parts.
ghost use Rattle.std.specs.Prelude.{◌≡◌, [], length, map, All, Contains, IfOk, OnOk};
ghost use Rattle.order_check.specs.Based.{Remains};
ghost use Rattle.order_check.specs.Cycles.{AreNew};
ghost use Rattle.order_check.specs.Good.{IsGood};
ghost use Rattle.clock_choices.specs.Held.{IsHeld};
ghost use Rattle.clock_choices.specs.Indexing.{IsIndex};
ghost use Rattle.clock_choices.specs.Over.{IsOver};
ghost use Rattle.clock_choices.specs.Steps.{bare};
ghost use Rattle.clock_choices.specs.Whole.{AreAll, IsGraphOf};

use crate::by_sources::graph_by_sources;
use crate::due::Due;
use crate::indexing::{Index, remaining_ids_of};
use crate::linking::link_txns;
use crate::saturating::saturate;
use crate::spread::spread_of;
use crate::steps::Forced;
use order_check::Parts;
use session_clocks::Graph;
use std::alloc::Global;
use txn::{NoMemory, TxnId};

/// Adds all that is there from the start, and settles all reads.
fn bring_all(
    alloc: Global,
    parts: &Parts,
    index: &Index,
    graph: &mut Graph,
    steps: &mut Vec<Forced>,
    ids: &[TxnId],
) -> Result<(), NoMemory>
    requires index { IsIndex parts.now index.now }
    requires graph { IsGraphOf parts.now graph.old.gone graph.old.received graph.old.arcs }
    requires ids { AreAll parts.now ids.now }
    requires steps { steps.old.items ≡ [] }
    ensures held { OnOk result (IsHeld parts.now graph.new.gone graph.new.received graph.new.arcs steps.new.items) }
    ensures new { OnOk result (AreNew parts.now [] (map bare steps.new.items)) }
{
    let mut due = Due::new(alloc, graph.gone(), graph.received())?;
    due.note_all(ids)?;
    // Each reader of the base has its turn: no writer has to look for those.
    link_txns(alloc, parts, index, graph, &mut due, u64::MAX, ids)?;
    saturate(
        alloc,
        &index.writers,
        &index.reads,
        graph,
        steps,
        due.into_ids(),
    )
}

/// The graph of the relation, and the sides that are forced.
pub(crate) fn relation_of(
    alloc: Global,
    parts: &Parts,
    index: &Index,
) -> Result<(Graph, Vec<Forced>), NoMemory>
    requires good { IsGood parts.now }
    requires index { IsIndex parts.now index.now }
    ensures held { IfOk result (λ found. IsHeld parts.now found.0.gone found.0.received found.0.arcs found.1.items) }
    ensures new { IfOk result (λ found. AreNew parts.now [] (map bare found.1.items)) }
{
    let ids = remaining_ids_of(alloc, parts)?;
    let mut graph = graph_by_sources(alloc, parts, index, &ids)?;
    let mut steps = Vec::new(alloc);
    let spread = spread_of(alloc, graph.gone(), graph.received(), &ids)?;
    bring_all(alloc, parts, index, &mut graph, &mut steps, &spread)?;
    Ok((graph, steps))
}
