use crate::closures::closure_of;
use crate::drawn::{Drawn, draw_graph};
use session_clocks::Graph;
use std::alloc::Global;
use std::process::Abort;
use std::test::Fail;
use test_histories::Relation;
use txn::{Arc, TxnId};

// Whether it is one of the arcs, or leads to a later one of the session.
fn is_step(graph: &Graph, arcs: &[Arc], arc: Arc) -> bool {
    if arcs.contains(&arc) {
        return true;
    }
    match arc {
        Arc::Session { from, to } => {
            graph.contains(from)
                && graph.contains(to)
                && from.session == to.session
                && from.number < to.number
        }
        _ => false,
    }
}

// One or more steps lead from the one to the other.
fn assert_leads(
    rt: &impl Abort,
    graph: &Graph,
    arcs: &[Arc],
    path: &[Arc],
    from: TxnId,
    to: TxnId,
) {
    assert!(rt; !path.is_empty());
    let mut here = from;
    for arc in path {
        assert_eq!(rt; arc.start(), here);
        assert!(rt; is_step(graph, arcs, *arc));
        here = arc.end();
    }
    assert_eq!(rt; here, to);
}

// A path over the first so many arcs is found exactly where the one reaches the other by them.
fn assert_path(
    rt: &impl Abort,
    alloc: Global,
    graph: &Graph,
    len: usize,
    reached: &Relation,
    (from, to): (TxnId, TxnId),
) -> Result<(), Fail> {
    let arcs = graph.arcs();
    assert!(rt; graph.contains(from) && graph.contains(to) && len <= arcs.len());
    let found = graph.path_within(alloc, len, from, to)?;
    assert_eq!(rt; found.is_some(), reached.contains((from, to)));
    if let Some(path) = found {
        assert_leads(rt, graph, &arcs[..len], path.as_slice(), from, to);
    }
    Ok(())
}

// A path for each pair that reaches one another by the first so many arcs, and none for the others.
pub(crate) fn assert_paths(
    rt: &impl Abort,
    alloc: Global,
    graph: &Graph,
    len: usize,
    drawn: &Drawn,
) -> Result<(), Fail> {
    assert!(rt; len <= drawn.pairs.len());
    let reached = closure_of(alloc, &drawn.ids, &drawn.pairs[..len])?;
    for from in &drawn.ids {
        for to in &drawn.ids {
            assert_path(rt, alloc, graph, len, &reached, (*from, *to))?;
        }
    }
    Ok(())
}

#[test]
fn paths_lead_exactly_where_the_closure_does(rt: HostRuntime) -> Result<(), Fail> {
    for seed in 0..200 {
        let mut state = seed;
        let (graph, drawn) = draw_graph(&rt, rt.alloc(), &mut state)?;
        let len = drawn.pairs.len();
        assert_paths(&rt, rt.alloc(), &graph, len, &drawn)?;
        assert_paths(&rt, rt.alloc(), &graph, len / 2, &drawn)?;
    }
    Ok(())
}
