// Transactions that are added to a graph at the end of a session, and taken off again.
ghost use Rattle.std.specs.Prelude.{◌≡◌, ◌+◌, ◌-◌, ◌<◌, ◌≤◌, ◌^◌, ℕ, List, All, OnOk, OnErr, length, slice_index};
ghost use Rattle.session_clocks.specs.Graphs.{IsOneMore};
ghost use Rattle.clock_choices.specs.Nodes.{HaveMore, IsArcThere};

use session_clocks::Graph;
use txn::{NoMemory, TxnId};

/// Takes the last so many transactions of a session away, the first of which has this number. No arc touches them.
pub(crate) fn remove_nodes(graph: &mut Graph, session: u8, first: u64, count: usize)
    requires session { session < length graph.old.gone }
    requires order { slice_index graph.old.gone session ≤ first }
    requires last { slice_index graph.old.received session ≡ first + count }
    requires number { first + count < 2 ^ 64 }
    requires untouched { (few : List ℕ) × HaveMore few graph.old.received session count × All (IsArcThere graph.old.gone few) graph.old.arcs }
    ensures gone { graph.new.gone ≡ graph.old.gone }
    ensures arcs { graph.new.arcs ≡ graph.old.arcs }
    ensures received { (few : List ℕ) → HaveMore few graph.old.received session count → graph.new.received ≡ few }
{
    for left in (0..count).rev() {
        graph.remove_node(TxnId {
            session,
            number: first + left as u64,
        });
    }
}

/// Adds one more behind so many that were added; where memory is refused, these are taken away again.
fn add_or_remove(graph: &mut Graph, session: u8, first: u64, count: usize) -> Result<(), NoMemory>
    requires session { session < length graph.old.gone }
    requires order { slice_index graph.old.gone session ≤ first }
    requires last { slice_index graph.old.received session ≡ first + count }
    requires number { first + count < 2 ^ 64 - 1 }
    requires untouched { (few : List ℕ) × HaveMore few graph.old.received session count × All (IsArcThere graph.old.gone few) graph.old.arcs }
    ensures gone { graph.new.gone ≡ graph.old.gone }
    ensures arcs { graph.new.arcs ≡ graph.old.arcs }
    ensures ok { OnOk result (IsOneMore graph.old.received graph.new.received session) }
    ensures err { OnErr result ((few : List ℕ) → HaveMore few graph.old.received session count → graph.new.received ≡ few) }
{
    match graph.add_node(session) {
        Ok(_id) => Ok(()),
        Err(error) => {
            remove_nodes(graph, session, first, count);
            Err(error)
        }
    }
}

/// Adds so many transactions at the end of a session, all or none.
pub(crate) fn add_nodes(
    graph: &mut Graph,
    session: u8,
    first: u64,
    count: usize,
) -> Result<(), NoMemory>
    requires session { session < length graph.old.gone }
    requires order { slice_index graph.old.gone session ≤ first }
    requires first { slice_index graph.old.received session ≡ first }
    requires number { first + count < 2 ^ 64 }
    requires there { All (IsArcThere graph.old.gone graph.old.received) graph.old.arcs }
    ensures gone { graph.new.gone ≡ graph.old.gone }
    ensures arcs { graph.new.arcs ≡ graph.old.arcs }
    ensures ok { OnOk result (HaveMore graph.old.received graph.new.received session count) }
    ensures err { OnErr result (graph.new.received ≡ graph.old.received) }
{
    for done in 0..count {
        add_or_remove(graph, session, first, done)?;
    }
    Ok(())
}
