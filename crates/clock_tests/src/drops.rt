ghost use Rattle.std.specs.Prelude.{◌≡◌, ◌≤◌, ℕ, IfOk, length, slice_index};
ghost use Rattle.session_clocks.specs.Graphs.{HasNode};

use crate::closures::{assert_same, closure_of};
use crate::drawn::{Drawn, SESSIONS, add_node, draw_arcs, draw_graph, next, nothing, pick};
use crate::paths::assert_paths;
use session_clocks::Graph;
use std::alloc::Global;
use std::process::Abort;
use std::test::Fail;
use txn::TxnId;

// The high number, or now and then the one before it, if that isn't too low.
fn high_or_less(low: u64, high: u64, state: &mut u64) -> u64
    requires { low ≤ high }
    ensures low { low ≤ result }
    ensures high { result ≤ high }
{
    if next(state, 6) == 0 && low < high {
        return high - 1;
    }
    high
}

// How many of each session may go: those that reach the transaction, or fewer.
pub(crate) fn draw_fronts(
    alloc: Global,
    graph: &Graph,
    at: TxnId,
    state: &mut u64,
) -> Result<Vec<u64>, Fail>
    requires { HasNode graph.now at }
    ensures len { IfOk result (λ fronts. length fronts.items ≡ length graph.now.gone) }
    ensures more { IfOk result (λ fronts. (session : ℕ) → slice_index graph.now.gone session ≤ slice_index fronts.items session) }
    ensures within { IfOk result (λ fronts. (session : ℕ) → slice_index fronts.items session ≤ slice_index graph.now.received session) }
{
    let mut fronts = Vec::new(alloc);
    let gone = graph.gone();
    for session in 0..gone.len() {
        let high = graph.before(at, session as u8);
        fronts.push(high_or_less(gone[session], high, state))?;
    }
    Ok(fronts)
}

// Whether the transaction isn't among those that go.
pub(crate) fn stays(fronts: &[u64], id: TxnId) -> bool {
    fronts.get(usize::from(id.session)).copied().unwrap_or(0) <= id.number
}

// Whether one that stays reaches one that goes.
fn reaches_back(alloc: Global, drawn: &Drawn, fronts: &[u64]) -> Result<bool, Fail> {
    let reached = closure_of(alloc, &drawn.ids, &drawn.pairs)?;
    for id in &drawn.ids {
        for other in &drawn.ids {
            if stays(fronts, *id) && !stays(fronts, *other) && reached.contains((*id, *other)) {
                return Ok(true);
            }
        }
    }
    Ok(false)
}

// What stays of what was drawn.
fn left_of(alloc: Global, drawn: &Drawn, fronts: &[u64]) -> Result<Drawn, Fail> {
    let mut left = nothing(alloc);
    for id in &drawn.ids {
        if stays(fronts, *id) {
            left.ids.push(*id)?;
        }
    }
    for (from, to) in &drawn.pairs {
        if stays(fronts, *from) && stays(fronts, *to) {
            left.pairs.push((*from, *to))?;
        }
    }
    Ok(left)
}

// Exactly what stays is there, and all that is said of it is what the closure of the rest says.
fn assert_left(
    rt: &impl Abort,
    alloc: Global,
    graph: &Graph,
    drawn: &Drawn,
    fronts: &[u64],
) -> Result<(), Fail> {
    for id in &drawn.ids {
        assert_eq!(rt; graph.contains(*id), stays(fronts, *id));
    }
    let left = left_of(alloc, drawn, fronts)?;
    assert_same(rt, alloc, graph, &left)?;
    assert_paths(rt, alloc, graph, graph.arcs().len(), &left)
}

// The same of what is added then.
fn assert_added(
    rt: &impl Abort,
    alloc: Global,
    mut graph: Graph,
    drawn: &Drawn,
    fronts: &[u64],
    state: &mut u64,
) -> Result<(), Fail> {
    let mut left = left_of(alloc, drawn, fronts)?;
    for session in 0..SESSIONS {
        add_node(rt, &mut graph, &mut left.ids, session)?;
    }
    draw_arcs(rt, alloc, &mut graph, &mut left, state)?;
    assert_same(rt, alloc, &graph, &left)?;
    assert_paths(rt, alloc, &graph, graph.arcs().len(), &left)
}

// Whether fronts of a drawn graph could go, and went.
fn drops_fronts(rt: &impl Abort, alloc: Global, seed: u64) -> Result<bool, Fail> {
    let mut state = seed;
    let (mut graph, drawn) = draw_graph(rt, alloc, &mut state)?;
    let at = pick(&drawn.ids, &mut state)?;
    assert!(rt; graph.contains(at));
    let fronts = draw_fronts(alloc, &graph, at, &mut state)?;
    let can_drop = graph.can_drop(&fronts);
    assert_eq!(rt; can_drop, !reaches_back(alloc, &drawn, &fronts)?);
    if can_drop {
        graph.drop_fronts(&fronts);
        assert_left(rt, alloc, &graph, &drawn, &fronts)?;
        assert_added(rt, alloc, graph, &drawn, &fronts, &mut state)?;
    }
    Ok(can_drop)
}

#[test]
fn fronts_go_where_nothing_reaches_back(rt: HostRuntime) -> Result<(), Fail> {
    let mut dropped = 0u64;
    for seed in 0..200 {
        if drops_fronts(&rt, rt.alloc(), seed)? {
            dropped = dropped.saturating_add(1);
        }
    }
    // The seeds are fixed: some fronts could go, and some couldn't.
    assert!(rt; dropped > 20 && dropped < 180, "{dropped} of 200");
    Ok(())
}
