// Who is on a cycle. Steps along sessions make none by themselves, and a branch knows how many arcs at the front make none, so that only
// what came since is looked at.
ghost use Rattle.std.specs.Prelude.{◌≡◌, ◌<◌, ◌≤◌, IfOk, IfSome, MatchOption, length};
ghost use Rattle.txn.specs.declared.transactions.TxnId.{TxnId};
ghost use Rattle.order_check.specs.Cycles.{IsCycle, Sides};
ghost use Rattle.session_clocks.specs.Graphs.{HasNode};
ghost use Rattle.session_clocks.specs.Reach.{Reaches};
ghost use Rattle.clock_choices.specs.Acyclic.{AddsNoCycle, AreAcyclic, HasNoCycle, IsCycleOf, IsOnCycle, IsRound};
ghost use Rattle.clock_choices.specs.Logging.{AreRight};
ghost use Rattle.clock_choices.specs.Over.{IsOver};

use crate::cycles::push_right_arcs;
use order_check::Parts;
use session_clocks::Graph;
use std::alloc::Global;
use txn::{Arc, NoMemory, Sequence, TxnId};

/// The first of a session that reaches itself.
fn on_cycle_of(graph: &Graph, session: usize) -> Option<TxnId>
    requires { session < length graph.now.gone }
    ensures { MatchOption result
        ((id : TxnId) → id.session ≡ session → HasNode graph.now id → ¬ Reaches graph.now.gone graph.now.received graph.now.arcs id id)
        (IsOnCycle graph.now.gone graph.now.received graph.now.arcs) }
{
    for number in graph.gone()[session]..graph.received()[session] {
        let id = TxnId {
            session: session as u8,
            number,
        };
        if graph.reaches(id, id) {
            return Some(id);
        }
    }
    None
}

/// The first that reaches itself, in order of id.
pub(crate) fn on_cycle(graph: &Graph) -> Option<TxnId>
    ensures { MatchOption result
        (HasNoCycle graph.now.gone graph.now.received graph.now.arcs)
        (IsOnCycle graph.now.gone graph.now.received graph.now.arcs) }
{
    for session in 0..graph.received().len() {
        if let Some(id) = on_cycle_of(graph, session) {
            return Some(id);
        }
    }
    None
}

/// One that reaches itself, if an arc from this place on closes a cycle.
fn on_new_cycle(graph: &Graph, from: usize) -> Option<TxnId>
    ensures { MatchOption result
        (AddsNoCycle graph.now.gone graph.now.received graph.now.arcs from)
        (IsOnCycle graph.now.gone graph.now.received graph.now.arcs) }
{
    let arcs = graph.arcs();
    for place in from..arcs.len() {
        let arc = arcs[place];
        if graph.reaches(arc.end(), arc.start()) {
            return Some(arc.start());
        }
    }
    None
}

/// The first that reaches itself, where so many arcs at the front make no cycle: all are gone through only where an arc behind them
/// closes one.
pub(crate) fn on_any_cycle(graph: &Graph, front: usize) -> Option<TxnId>
    requires { AreAcyclic graph.now.gone graph.now.received graph.now.arcs front }
    ensures { MatchOption result
        (HasNoCycle graph.now.gone graph.now.received graph.now.arcs)
        (IsOnCycle graph.now.gone graph.now.received graph.now.arcs) }
{
    match on_new_cycle(graph, front) {
        None => None,
        Some(_) => on_cycle(graph),
    }
}

/// How many arcs at the front are seen to make no cycle, where so many are known to make none.
pub(crate) fn acyclic_in(graph: &Graph, front: usize) -> usize
    requires { AreAcyclic graph.now.gone graph.now.received graph.now.arcs front }
    ensures { AreAcyclic graph.now.gone graph.now.received graph.now.arcs result }
{
    match on_new_cycle(graph, front) {
        None => graph.arcs().len(),
        Some(_) => front,
    }
}

/// The lowest id from which an arc leads.
fn lowest(path: &[Arc]) -> Option<TxnId> {
    let mut found = path.first()?.start();
    for arc in path {
        found = found.min(arc.start());
    }
    Some(found)
}

/// A way round from the lowest id on the way, if one is found, so that a cycle that is told begins there; else the way itself.
fn from_lowest(
    alloc: Global,
    graph: &Graph,
    front: usize,
    path: Sequence<Arc>,
) -> Result<Sequence<Arc>, NoMemory>
    requires front { front ≤ length graph.now.arcs }
    requires round { IsRound graph.now.gone graph.now.received graph.now.arcs path }
    ensures { IfOk result (IsRound graph.now.gone graph.now.received graph.now.arcs) }
{
    let Some(low) = lowest(path.as_slice()) else {
        return Ok(path);
    };
    if !graph.contains(low) {
        return Ok(path);
    }
    match graph.path_within(alloc, front, low, low)? {
        Some(better) => Ok(better),
        None => Ok(path),
    }
}

/// A way round along the arcs up to the first that closed one, if it is remembered. What came behind these isn't needed to refute anything.
fn first_round(alloc: Global, graph: &Graph) -> Result<Option<Sequence<Arc>>, NoMemory>
    ensures { IfOk result (λ found. IfSome found (IsRound graph.now.gone graph.now.received graph.now.arcs)) }
{
    let Some(place) = graph.closing() else {
        return Ok(None);
    };
    let start = graph.arcs()[place].start();
    if !graph.contains(start) {
        return Ok(None);
    }
    match graph.path_within(alloc, place + 1, start, start)? {
        Some(path) => {
            let path = from_lowest(alloc, graph, place + 1, path)?;
            Ok(Some(path))
        }
        None => Ok(None),
    }
}

/// A way round, along few arcs if the first one that closed one is remembered.
fn way_round(alloc: Global, graph: &Graph, id: TxnId) -> Result<Sequence<Arc>, NoMemory>
    requires { IsOnCycle graph.now.gone graph.now.received graph.now.arcs id }
    ensures { IfOk result (IsRound graph.now.gone graph.now.received graph.now.arcs) }
{
    if let Some(path) = first_round(alloc, graph)? {
        return Ok(path);
    }
    let len = graph.arcs().len();
    let Some(path) = graph.path_within(alloc, len, id, id)? else {
        unreachable!()
    };
    Ok(path)
}

/// A cycle of right arcs, where one is on a cycle.
fn cycle_through(
    alloc: Global,
    parts: &Parts,
    graph: &Graph,
    id: TxnId,
) -> Result<Sequence<Arc>, NoMemory>
    requires over { IsOver parts.now graph.now.gone graph.now.received }
    requires on { IsOnCycle graph.now.gone graph.now.received graph.now.arcs id }
    ensures { IfOk result (λ cycle. (sides : Sides) → AreRight parts.now sides graph.now.arcs → IsCycle parts.now sides cycle) }
{
    let path = way_round(alloc, graph, id)?;
    let mut cycle = Vec::new(alloc);
    push_right_arcs(&mut cycle, parts, path.as_slice())?;
    Ok(Sequence::new(cycle))
}

/// A cycle of right arcs, if there is one, where so many arcs at the front make none.
pub(crate) fn cycle_in(
    alloc: Global,
    parts: &Parts,
    graph: &Graph,
    front: usize,
) -> Result<Option<Sequence<Arc>>, NoMemory>
    requires over { IsOver parts.now graph.now.gone graph.now.received }
    requires acyclic { AreAcyclic graph.now.gone graph.now.received graph.now.arcs front }
    ensures { IfOk result (λ found. MatchOption found
        (HasNoCycle graph.now.gone graph.now.received graph.now.arcs)
        (IsCycleOf parts.now graph.now.gone graph.now.received graph.now.arcs)) }
{
    match on_any_cycle(graph, front) {
        None => Ok(None),
        Some(id) => {
            let cycle = cycle_through(alloc, parts, graph, id)?;
            Ok(Some(cycle))
        }
    }
}
