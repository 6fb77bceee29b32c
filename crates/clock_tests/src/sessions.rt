ghost use Rattle.std.specs.Prelude.{◌≡◌, ◌<◌, ◌↔◌, IsTrue, IfOk, OnOk, length};
ghost use Rattle.session_clocks.specs.Removals.{IsUntouched};

use crate::closures::assert_same;
use crate::drawn::{Drawn, SESSIONS, add_node, draw_arcs, draw_graph};
use session_clocks::Graph;
use std::alloc::Global;
use std::process::Abort;
use std::test::Fail;
use txn::{Arc, TxnId};

// Whether none of the arcs begins or ends there.
fn is_untouched(arcs: &[Arc], id: TxnId) -> bool
    ensures { IsTrue result → IsUntouched arcs.now id }
{
    for arc in arcs {
        if arc.start() == id || arc.end() == id {
            return false;
        }
    }
    true
}

// Takes the last one of a session away, which no arc touches.
fn remove(rt: &impl Abort, graph: &mut Graph, id: TxnId) {
    let line = usize::from(id.session);
    let received = graph.received();
    assert!(rt;
        line < received.len() && received[line] > id.number && received[line] - id.number == 1
    );
    assert!(rt; graph.contains(id) && is_untouched(graph.arcs(), id));
    graph.remove_node(id);
    assert!(rt; !graph.contains(id));
}

// A transaction is added to each session, arcs lead to and from it behind a mark, and it goes again.
fn assert_removed(
    rt: &impl Abort,
    alloc: Global,
    graph: &mut Graph,
    drawn: &mut Drawn,
    session: u8,
    state: &mut u64,
) -> Result<(), Fail> {
    add_node(rt, graph, &mut drawn.ids, session)?;
    let pairs = drawn.pairs.len();
    graph.mark()?;
    draw_arcs(rt, alloc, graph, drawn, state)?;
    graph.back();
    drawn.pairs.truncate(pairs);
    if let Some(id) = drawn.ids.pop() {
        remove(rt, graph, id);
    }
    assert_same(rt, alloc, graph, drawn)
}

#[test]
fn what_is_added_can_be_removed(rt: HostRuntime) -> Result<(), Fail> {
    for seed in 0..100 {
        let mut state = seed;
        let (mut graph, mut drawn) = draw_graph(&rt, rt.alloc(), &mut state)?;
        for session in 0..SESSIONS {
            assert_removed(&rt, rt.alloc(), &mut graph, &mut drawn, session, &mut state)?;
        }
    }
    Ok(())
}

// A session is added, of which some are gone, and then transactions of it with arcs.
fn assert_joined(
    rt: &impl Abort,
    alloc: Global,
    graph: &mut Graph,
    drawn: &mut Drawn,
    state: &mut u64,
) -> Result<(), Fail> {
    assert!(rt; graph.gone().len() == usize::from(SESSIONS));
    graph.add_session(alloc, 3)?;
    assert_same(rt, alloc, graph, drawn)?;
    add_node(rt, graph, &mut drawn.ids, SESSIONS)?;
    add_node(rt, graph, &mut drawn.ids, SESSIONS)?;
    draw_arcs(rt, alloc, graph, drawn, state)?;
    assert_same(rt, alloc, graph, drawn)
}

#[test]
fn sessions_are_added(rt: HostRuntime) -> Result<(), Fail> {
    for seed in 0..100 {
        let mut state = seed;
        let (mut graph, mut drawn) = draw_graph(&rt, rt.alloc(), &mut state)?;
        assert_joined(&rt, rt.alloc(), &mut graph, &mut drawn, &mut state)?;
    }
    Ok(())
}
