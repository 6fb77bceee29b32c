// Reads are the longer way, so that only who looks along the nodes' own arcs takes it: a search of all arcs finds the side of a choice first.
ghost use Rattle.std.specs.Prelude.{◌≡◌, ◌≤◌, ℕ, IfOk, OnOk, length, slice_index};
ghost use Rattle.session_clocks.specs.Graphs.{HasNode};

use crate::drawn::{add_node, id};
use session_clocks::Graph;
use std::alloc::Global;
use std::process::Abort;
use std::test::Fail;
use txn::{Arc, TxnId};

fn read(from: TxnId, to: TxnId) -> Arc {
    Arc::Read { key: 1, from, to }
}

fn add(rt: &impl Abort, alloc: Global, graph: &mut Graph, arc: Arc) -> Result<(), Fail>
    ensures { graph.new.marks ≡ graph.old.marks }
{
    assert!(rt; graph.contains(arc.start()) && graph.contains(arc.end()));
    graph.add_arc(alloc, arc, &mut Vec::new(alloc))?;
    Ok(())
}

// One more transaction of each of three sessions. The second one reads from the first, and the third from the second; a side of a choice leads
// from the first to the third.
fn add_three(rt: &impl Abort, alloc: Global, graph: &mut Graph, number: u64) -> Result<(), Fail> {
    let mut ids = Vec::new(alloc);
    for session in 0..3 {
        add_node(rt, graph, &mut ids, session)?;
    }
    let (first, second, third) = (id(0, number), id(1, number), id(2, number));
    add(rt, alloc, graph, read(first, second))?;
    add(rt, alloc, graph, read(second, third))?;
    add(
        rt,
        alloc,
        graph,
        Arc::Taken {
            from: first,
            to: third,
        },
    )
}

// The way from the first to the third takes the reads.
fn assert_reads(rt: &impl Abort, alloc: Global, graph: &Graph, number: u64) -> Result<(), Fail> {
    let (first, second, third) = (id(0, number), id(1, number), id(2, number));
    assert!(rt; graph.contains(first) && graph.contains(third));
    let len = graph.arcs().len();
    let path = graph.path_within(alloc, len, first, third)?;
    let path = path.ok_or("no path")?;
    assert_eq!(rt;
        path.as_slice(),
        [read(first, second), read(second, third)].as_slice()
    );
    Ok(())
}

#[test]
fn a_path_is_found_along_its_own_arcs(rt: HostRuntime) -> Result<(), Fail> {
    let mut graph = Graph::new(rt.alloc(), &[0; 3])?;
    for number in 0..3 {
        add_three(&rt, rt.alloc(), &mut graph, number)?;
    }
    for number in 0..3 {
        assert_reads(&rt, rt.alloc(), &graph, number)?;
        assert_reads(&rt, rt.alloc(), &graph.clone()?, number)?;
    }
    Ok(())
}

#[test]
fn arcs_that_go_back_leave_the_others(rt: HostRuntime) -> Result<(), Fail> {
    let mut graph = Graph::new(rt.alloc(), &[0; 3])?;
    add_three(&rt, rt.alloc(), &mut graph, 0)?;
    graph.mark()?;
    add(&rt, rt.alloc(), &mut graph, read(id(0, 0), id(2, 0)))?;
    add(&rt, rt.alloc(), &mut graph, read(id(0, 0), id(2, 0)))?;
    graph.back();
    assert_reads(&rt, rt.alloc(), &graph, 0)
}

#[test]
fn a_session_more_leaves_the_arcs(rt: HostRuntime) -> Result<(), Fail> {
    let mut graph = Graph::new(rt.alloc(), &[0; 3])?;
    add_three(&rt, rt.alloc(), &mut graph, 0)?;
    assert!(rt; graph.gone().len() == 3);
    graph.add_session(rt.alloc(), 7)?;
    add_three(&rt, rt.alloc(), &mut graph, 1)?;
    assert_reads(&rt, rt.alloc(), &graph, 0)?;
    assert_reads(&rt, rt.alloc(), &graph, 1)
}

// How many of each session reach the transaction.
fn fronts_before(alloc: Global, graph: &Graph, at: TxnId) -> Result<Vec<u64>, Fail>
    requires { HasNode graph.now at }
    ensures len { IfOk result (λ fronts. length fronts.items ≡ length graph.now.gone) }
    ensures more { IfOk result (λ fronts. (session : ℕ) → slice_index graph.now.gone session ≤ slice_index fronts.items session) }
    ensures within { IfOk result (λ fronts. (session : ℕ) → slice_index fronts.items session ≤ slice_index graph.now.received session) }
{
    let mut fronts = Vec::new(alloc);
    for session in 0..graph.gone().len() {
        fronts.push(graph.before(at, session as u8))?;
    }
    Ok(fronts)
}

// What reaches the transaction goes.
fn cut(rt: &impl Abort, alloc: Global, graph: &mut Graph, at: TxnId) -> Result<(), Fail> {
    assert!(rt; graph.contains(at));
    let fronts = fronts_before(alloc, graph, at)?;
    let can_drop = graph.can_drop(&fronts);
    assert!(rt; can_drop);
    graph.drop_fronts(&fronts);
    Ok(())
}

// Places of what went are given to what comes.
#[test]
fn what_stays_and_what_comes_after_a_cut_has_its_own_arcs(rt: HostRuntime) -> Result<(), Fail> {
    let mut graph = Graph::new(rt.alloc(), &[0; 3])?;
    for number in 0..3 {
        add_three(&rt, rt.alloc(), &mut graph, number)?;
    }
    add(&rt, rt.alloc(), &mut graph, read(id(2, 1), id(0, 2)))?;
    cut(&rt, rt.alloc(), &mut graph, id(0, 2))?;
    assert!(rt; !graph.contains(id(0, 1)) && !graph.contains(id(2, 1)));
    assert_reads(&rt, rt.alloc(), &graph, 2)?;
    for number in 3..6 {
        add_three(&rt, rt.alloc(), &mut graph, number)?;
    }
    for number in 2..6 {
        assert_reads(&rt, rt.alloc(), &graph, number)?;
    }
    Ok(())
}
