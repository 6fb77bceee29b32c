// Graphs that are drawn by chance, beside lists of what was drawn.
ghost use Rattle.std.specs.Prelude.{◌≡◌};

use session_clocks::{Addition, Graph};
use std::alloc::Global;
use std::process::Abort;
use std::test::Fail;
use test_histories::Relation;
use txn::{Arc, TxnId};

pub(crate) const SESSIONS: u8 = 4;

// Transactions and arcs that are drawn for one graph.
const DRAWN: usize = 60;

// Arcs that are drawn behind a mark.
const BEHIND_A_MARK: usize = 8;

pub(crate) fn id(session: u8, number: u64) -> TxnId {
    TxnId { session, number }
}

// A generator of numbers (Knuth's constants for 64 bits), whose high bits are taken.
pub(crate) fn next(state: &mut u64, below: usize) -> usize {
    *state = state
        .wrapping_mul(6364136223846793005)
        .wrapping_add(1442695040888963407);
    (*state >> 33) as usize % below.max(1)
}

// The session's next transaction, behind the others of its session.
pub(crate) fn add_node(
    rt: &impl Abort,
    graph: &mut Graph,
    ids: &mut Vec<TxnId>,
    session: u8,
) -> Result<(), Fail> {
    let numbers = graph.received();
    assert!(rt; usize::from(session) < numbers.len());
    assert!(rt; numbers[usize::from(session)] < u64::MAX);
    let added = graph.add_node(session)?;
    assert_eq!(rt; added.session, session);
    ids.push(added)?;
    Ok(())
}

// An arc between two that are there; whether it closes a cycle.
pub(crate) fn add_arc(
    rt: &impl Abort,
    alloc: Global,
    graph: &mut Graph,
    from: TxnId,
    to: TxnId,
    told: &mut Vec<TxnId>,
) -> Result<bool, Fail>
    ensures { graph.new.marks ≡ graph.old.marks }
{
    let arc = if from.number % 3 == 0 {
        Arc::Read { key: 1, from, to }
    } else {
        Arc::Taken { from, to }
    };
    assert!(rt; graph.contains(arc.start()) && graph.contains(arc.end()));
    Ok(graph.add_arc(alloc, arc, told)? == Addition::Cycle)
}

// The pairs of which the graph says that the one reaches the other.
fn said_by(alloc: Global, graph: &Graph, ids: &[TxnId]) -> Result<Relation, Fail> {
    let mut said = Relation::none(alloc, ids)?;
    for from in ids {
        for to in ids {
            if graph.reaches(*from, *to) {
                said.note((*from, *to));
            }
        }
    }
    Ok(said)
}

// Whether it reaches one more than before, or one more reaches it.
fn has_grown(graph: &Graph, before: &Relation, ids: &[TxnId], id: TxnId) -> bool {
    for other in ids {
        if graph.reaches(id, *other) != before.contains((id, *other)) {
            return true;
        }
        if graph.reaches(*other, id) != before.contains((*other, id)) {
            return true;
        }
    }
    false
}

// All those are told of, and no others.
fn assert_told(rt: &impl Abort, graph: &Graph, before: &Relation, ids: &[TxnId], told: &[TxnId]) {
    for id in ids {
        assert_eq!(rt; told.contains(id), has_grown(graph, before, ids, *id));
    }
}

// What was drawn: the transactions, and the pairs that arcs join.
#[derive(Drop)]
pub(crate) struct Drawn {
    pub ids: Vec<TxnId>,
    pub pairs: Vec<(TxnId, TxnId)>,
}

pub(crate) fn pick(ids: &[TxnId], state: &mut u64) -> Result<TxnId, Fail> {
    let found = ids.get(next(state, ids.len())).copied();
    Ok(found.ok_or("no transaction")?)
}

// An arc between two of them, and whether it closes a cycle.
pub(crate) fn draw_arc(
    rt: &impl Abort,
    alloc: Global,
    graph: &mut Graph,
    drawn: &mut Drawn,
    state: &mut u64,
) -> Result<(), Fail>
    ensures { graph.new.marks ≡ graph.old.marks }
{
    let from = pick(&drawn.ids, state)?;
    let to = pick(&drawn.ids, state)?;
    let was_back = from == to || graph.reaches(to, from);
    let before = said_by(alloc, graph, &drawn.ids)?;
    let mut told = Vec::new(alloc);
    let is_cycle = add_arc(rt, alloc, graph, from, to, &mut told)?;
    assert_eq!(rt; is_cycle, was_back);
    assert_told(rt, graph, &before, &drawn.ids, &told);
    drawn.pairs.push((from, to))?;
    Ok(())
}

// One more transaction, or an arc between two of them.
fn draw_one(
    rt: &impl Abort,
    alloc: Global,
    graph: &mut Graph,
    drawn: &mut Drawn,
    state: &mut u64,
) -> Result<(), Fail> {
    if drawn.ids.len() < 2 || next(state, 3) == 0 {
        let session = (next(state, 4) % 4) as u8;
        return add_node(rt, graph, &mut drawn.ids, session);
    }
    draw_arc(rt, alloc, graph, drawn, state)
}

// So many arcs.
pub(crate) fn draw_arcs(
    rt: &impl Abort,
    alloc: Global,
    graph: &mut Graph,
    drawn: &mut Drawn,
    state: &mut u64,
) -> Result<(), Fail>
    ensures { graph.new.marks ≡ graph.old.marks }
{
    for _turn in 0..BEHIND_A_MARK {
        draw_arc(rt, alloc, graph, drawn, state)?;
    }
    Ok(())
}

// None drawn yet.
pub(crate) fn nothing(alloc: Global) -> Drawn {
    Drawn {
        ids: Vec::new(alloc),
        pairs: Vec::new(alloc),
    }
}

// A graph of transactions and arcs between them, and what was drawn.
pub(crate) fn draw_graph(
    rt: &impl Abort,
    alloc: Global,
    state: &mut u64,
) -> Result<(Graph, Drawn), Fail> {
    let mut graph = Graph::new(alloc, &[0; SESSIONS as usize])?;
    let mut drawn = nothing(alloc);
    for _turn in 0..DRAWN {
        draw_one(rt, alloc, &mut graph, &mut drawn, state)?;
    }
    Ok((graph, drawn))
}
