use crate::drawn::{Drawn, SESSIONS, draw_arcs, draw_graph, id};
use session_clocks::Graph;
use std::alloc::Global;
use std::process::Abort;
use std::test::Fail;
use test_histories::Relation;
use txn::TxnId;

// The closure of the pairs and of the sessions.
pub(crate) fn closure_of(
    alloc: Global,
    ids: &[TxnId],
    pairs: &[(TxnId, TxnId)],
) -> Result<Relation, Fail> {
    let mut reached = Relation::none(alloc, ids)?;
    reached.note_all(pairs);
    for id in ids {
        for other in ids {
            if id.session == other.session && id.number < other.number {
                reached.note((*id, *other));
            }
        }
    }
    reached.close();
    Ok(reached)
}

// How many of a session reach the transaction, and which is the first that it reaches.
fn assert_clocks(rt: &impl Abort, graph: &Graph, reached: &Relation, at: TxnId, session: u8) {
    let line = usize::from(session);
    let gone = graph.gone();
    let received = graph.received();
    assert!(rt; line < gone.len() && line < received.len() && graph.contains(at));
    let before = graph.before(at, session);
    let after = graph.after(at, session);
    for number in gone[line]..received[line] {
        let other = id(session, number);
        assert_eq!(rt; number < before, reached.contains((other, at)));
        assert_eq!(rt; after <= number, reached.contains((at, other)));
    }
}

fn assert_reached(rt: &impl Abort, graph: &Graph, reached: &Relation, ids: &[TxnId]) {
    for at in ids {
        for other in ids {
            assert_eq!(rt; graph.reaches(*at, *other), reached.contains((*at, *other)));
        }
    }
}

fn assert_all_clocks(rt: &impl Abort, graph: &Graph, reached: &Relation, ids: &[TxnId]) {
    for at in ids {
        for session in 0..=SESSIONS {
            if usize::from(session) < graph.gone().len() {
                assert_clocks(rt, graph, reached, *at, session);
            }
        }
    }
}

// All that the graph says is what the closure says.
pub(crate) fn assert_same(
    rt: &impl Abort,
    alloc: Global,
    graph: &Graph,
    drawn: &Drawn,
) -> Result<(), Fail> {
    let reached = closure_of(alloc, &drawn.ids, &drawn.pairs)?;
    assert_reached(rt, graph, &reached, &drawn.ids);
    assert_all_clocks(rt, graph, &reached, &drawn.ids);
    Ok(())
}

// Behind a mark arcs come, and go again.
fn assert_back(
    rt: &impl Abort,
    alloc: Global,
    graph: &mut Graph,
    drawn: &mut Drawn,
    state: &mut u64,
) -> Result<(), Fail> {
    let pairs = drawn.pairs.len();
    graph.mark()?;
    draw_arcs(rt, alloc, graph, drawn, state)?;
    let more = drawn.pairs.len();
    graph.mark()?;
    draw_arcs(rt, alloc, graph, drawn, state)?;
    assert_same(rt, alloc, graph, drawn)?;
    graph.back();
    drawn.pairs.truncate(more);
    assert_same(rt, alloc, graph, drawn)?;
    graph.back();
    drawn.pairs.truncate(pairs);
    assert_same(rt, alloc, graph, drawn)
}

// Arcs behind a mark that is forgotten stay.
fn assert_forgotten(
    rt: &impl Abort,
    alloc: Global,
    graph: &mut Graph,
    drawn: &mut Drawn,
    state: &mut u64,
) -> Result<(), Fail> {
    graph.mark()?;
    draw_arcs(rt, alloc, graph, drawn, state)?;
    graph.forget_marks();
    assert_same(rt, alloc, graph, drawn)
}

fn assert_drawn(rt: &impl Abort, alloc: Global, seed: u64) -> Result<(), Fail> {
    let mut state = seed;
    let (mut graph, mut drawn) = draw_graph(rt, alloc, &mut state)?;
    assert_same(rt, alloc, &graph.clone()?, &drawn)?;
    assert_forgotten(rt, alloc, &mut graph, &mut drawn, &mut state)?;
    assert_back(rt, alloc, &mut graph, &mut drawn, &mut state)
}

#[test]
fn clocks_say_what_the_closure_says(rt: HostRuntime) -> Result<(), Fail> {
    for seed in 0..500 {
        assert_drawn(&rt, rt.alloc(), seed)?;
    }
    Ok(())
}
