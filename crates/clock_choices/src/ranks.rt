// How many are known to come before each.
ghost use Rattle.std.specs.Prelude.{◌≡◌, ◌↔◌, ◌<◌, ◌^◌, All, Contains, IfOk, length};
ghost use Rattle.txn.specs.declared.transactions.TxnId.{TxnId};
ghost use Rattle.txn.specs.Transactions.{Rises, id_below};
ghost use Rattle.order_check.specs.Based.{Remains};
ghost use Rattle.order_check.specs.Explains.{KeepsSessions};
ghost use Rattle.order_check.specs.Known.{Known};
ghost use Rattle.session_clocks.specs.Graphs.{HasNode};
ghost use Rattle.session_clocks.specs.Reach.{Reaches};
ghost use Rattle.clock_choices.specs.AllThere.{all_there};
ghost use Rattle.clock_choices.specs.BranchState.{assumed};
ghost use Rattle.clock_choices.specs.Indexing.{AreInOrder};
ghost use Rattle.clock_choices.specs.Ranks.{Counts, AreRanked, ids_of};

use crate::branch::Branch;
use session_clocks::Graph;
use std::alloc::Global;
use txn::{NoMemory, TxnId};

/// A transaction that remains, and how many of those that remain are known to come before it.
#[derive(Clone, Copy, Debug)]
pub struct Rank {
    pub id: TxnId,
    pub count: usize,
}

/// How many reach the transaction: of each session those below a number.
fn count_before(graph: &Graph, id: TxnId) -> usize
    requires there { HasNode graph.now id }
    requires few { length (all_there graph.now.gone graph.now.received) < 2 ^ 64 }
    ensures { Counts (λ other. Reaches graph.now.gone graph.now.received graph.now.arcs other id) (all_there graph.now.gone graph.now.received) result }
{
    let gone = graph.gone();
    let mut count = 0;
    for session in 0..graph.received().len() {
        let before = graph.before(id, session as u8) - gone[session];
        count += before as usize;
    }
    count
}

/// All that is there, in order of id, each with how many of those reach it.
pub(crate) fn ranks_in(alloc: Global, graph: &Graph, ids: &[TxnId]) -> Result<Vec<Rank>, NoMemory>
    requires rise { AreInOrder ids.now }
    requires there { (id : TxnId) → Contains ids.now id ↔ HasNode graph.now id }
    ensures ids { IfOk result (λ ranks. ids_of ranks.items ≡ ids.now) }
    ensures counts { IfOk result (λ ranks. All (λ rank. Counts (λ id. Reaches graph.now.gone graph.now.received graph.now.arcs id rank.id) ids.now rank.count) ranks.items) }
{
    let mut ranks = Vec::with_capacity(alloc, ids.len())?;
    for id in ids {
        let count = count_before(graph, *id);
        ranks.push(Rank { id: *id, count })?;
    }
    Ok(ranks)
}

impl Branch {
    /// What remains, in order of id, each with how many of those are known to come before it.
    pub fn ranks(&self, alloc: Global) -> Result<Vec<Rank>, NoMemory>
        ensures sessions { IfOk result (λ ranks. KeepsSessions self.now.parts (ids_of ranks.items)) }
        ensures rise { IfOk result (λ ranks. Rises id_below (ids_of ranks.items)) }
        ensures members { IfOk result (λ ranks. (id : TxnId) → Contains (ids_of ranks.items) id ↔ Remains self.now.parts id) }
        ensures known { IfOk result (λ ranks. (a b : TxnId) → Known self.now.parts (assumed self.now.levels) a b
            → Contains (ids_of ranks.items) a × Contains (ids_of ranks.items) b) }
        ensures counts { IfOk result (λ ranks. AreRanked self.now.parts (assumed self.now.levels) ranks.items) }
    {
        let ranks = ranks_in(alloc, &self.graph, &self.ids)?;
        Ok(ranks)
    }
}
