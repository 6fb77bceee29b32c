// An order of transactions in which those far apart come first. An arc changes the rows of a session only as far as another arc from there, or to
// there, has changed them. So in this order arcs between two sessions change few rows each, where in the sessions' own order each might
// change all that stand behind it.
ghost use Rattle.std.specs.Prelude.{◌≡◌, ◌↔◌, ◌<◌, ◌⊎◌, Contains, IfOk, OnOk};
ghost use Rattle.txn.specs.declared.transactions.TxnId.{TxnId};

use crate::due::Due;
use std::alloc::Global;
use txn::{NoMemory, TxnId};

/// Notes the last one, and each so many before it.
fn note_every(due: &mut Due, ids: &[TxnId], step: usize) -> Result<(), NoMemory>
    requires { 0 < step }
    ensures { OnOk result ((id : TxnId) → Contains due.new id → Contains due.old id ⊎ Contains ids.now id) }
{
    let mut left = ids.len();
    while left > 0 {
        due.note(ids[left - 1])?;
        left = left.saturating_sub(step);
    }
    Ok(())
}

/// The transactions, each once: the last one first, then the middle, the quarters, and so on. They are of a graph where so many of each session
/// are gone, and so many were received.
pub(crate) fn spread_of(
    alloc: Global,
    gone: &[u64],
    received: &[u64],
    ids: &[TxnId],
) -> Result<Vec<TxnId>, NoMemory>
    ensures { IfOk result (λ spread. (id : TxnId) → Contains spread.items id ↔ Contains ids.now id) }
{
    let mut due = Due::new(alloc, gone, received)?;
    let mut step = ids.len();
    while step > 1 {
        note_every(&mut due, ids, step)?;
        step /= 2;
    }
    due.note_all(ids)?;
    Ok(due.into_ids())
}
