ghost use Rattle.std.specs.Prelude.{◌≡◌, IfOk, List};
ghost use Rattle.txn.specs.declared.transactions.TxnId.{TxnId};
ghost use Rattle.polygraph.specs.Shown.{outcome_of, OrderKeeps, told_of, StandsAboveAll, StandsAboveLast};

use crate::solving::Cube;
use crate::steps::{below_all, below_last};
use clock_choices::Branch;
use refutation::Pruned;
use std::alloc::Global;
use txn::{NoMemory, Sequence, TxnId};

/// What a search of a node finds.
#[derive(Drop)]
pub enum Found {
    /// This order explains the parts.
    Yes(Sequence<TxnId>),
    /// No order that keeps the sides taken explains the parts, as this tree shows, from which all that plays no part is left out.
    No(Pruned),
    /// The nodes were used up, or the sides more than 2,047.
    Spent,
}

impl Found {
    /// What is told of it.
    pub fn told(self) -> Cube
        ensures { result ≡ told_of self }
    {
        match self {
            Found::Yes(order) => Cube::Yes(order),
            Found::No(pruned) => Cube::No(pruned.tree),
            Found::Spent => Cube::Spent,
        }
    }
}

/// What was found, a tree below a node of those of the branch's last steps that it needs.
pub fn above_last(alloc: Global, branch: &Branch, found: Found) -> Result<Found, NoMemory>
    ensures kind { IfOk result (λ whole. outcome_of (told_of whole) ≡ outcome_of (told_of found)) }
    ensures sides { IfOk result (λ whole. (sides : List (TxnId × TxnId)) → OrderKeeps sides (told_of found) → OrderKeeps sides (told_of whole)) }
    ensures above { IfOk result (StandsAboveLast branch.now found) }
{
    match found {
        Found::No(pruned) => Ok(Found::No(below_last(alloc, branch, pruned)?)),
        found => Ok(found),
    }
}

/// What was found, a tree below a node of those of all the branch's steps that it needs. Where there
/// is a tree, all sides are taken back.
pub fn above_all(alloc: Global, branch: &mut Branch, found: Found) -> Result<Found, NoMemory>
    ensures kind { IfOk result (λ whole. outcome_of (told_of whole) ≡ outcome_of (told_of found)) }
    ensures sides { IfOk result (λ whole. (sides : List (TxnId × TxnId)) → OrderKeeps sides (told_of found) → OrderKeeps sides (told_of whole)) }
    ensures above { IfOk result (StandsAboveAll branch.old found) }
{
    match found {
        Found::No(pruned) => Ok(Found::No(below_all(alloc, branch, pruned)?)),
        found => Ok(found),
    }
}
