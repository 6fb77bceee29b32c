ghost use Rattle.std.specs.Prelude.{◌≡◌, ◌↔◌, ◌+◌, ◌≤◌, ◌∷◌, Contains, IfOk, IsTrue, OnOk, List, max, reverse};
ghost use Rattle.txn.specs.declared.transactions.TxnId.{TxnId};
ghost use Rattle.txn.specs.Choices.{first_side, second_side};
ghost use Rattle.order_check.specs.declared.remainder.Parts.{Parts};
ghost use Rattle.order_check.specs.Cycles.{IsForced, AreForced, sides_after, side_taken};
ghost use Rattle.order_check.specs.Known.{IsChoice};
ghost use Rattle.refutation.specs.declared.trees.Tree.{Close};
ghost use Rattle.refutation.specs.Above.{IsPutAbove, StandsBelow};
ghost use Rattle.refutation.specs.Pruned.{AreAmong, Stands, StandsAboveSteps, StandsOverSplit};
ghost use Rattle.refutation.specs.Refutes.{IsClosed, depth_of};

use crate::above::Above;
use crate::steps::{first_side, second_side};
use crate::trees::{Leaf, Tree};
use crate::used::UsedSides;
use std::alloc::Global;
use txn::{Choice, ForceStep, NoMemory, TxnId};

/// A tree that takes no side that none of its cycles uses, with the sides that have to be taken above it.
#[derive(Drop)]
pub struct Pruned {
    pub tree: Tree,
    pub used: UsedSides,
}

/// A whole copy.
fn copy_of_step(step: &ForceStep) -> Result<ForceStep, NoMemory>
    ensures { IfOk result (λ copy. copy ≡ step.now) }
{
    Ok(ForceStep {
        choice: step.choice,
        side: step.side,
        cycle: step.cycle.clone()?,
    })
}

/// Puts the step before those that are there, if its side is used behind it.
fn put_used(above: &mut Above, step: &ForceStep) -> Result<(), NoMemory>
    ensures stands { OnOk result (IsPutAbove step.now above.old above.new) }
    ensures tree { OnOk result (above.new.tree ≡ above.old.tree) }
{
    if above.needs(step.choice, step.side) {
        above.put(copy_of_step(step)?)?;
    }
    Ok(())
}

/// The sides that the leaf's cycle uses.
fn used_by(alloc: Global, leaf: &Leaf) -> Result<UsedSides, NoMemory>
    ensures { IfOk result (λ used. (parts : Parts) (taken : List (TxnId × TxnId)) → IsClosed parts taken leaf.now → IsClosed parts used leaf.now × AreAmong used taken) }
{
    let mut used = UsedSides::none(alloc);
    match leaf {
        Leaf::Cycle(arcs) => {
            used.add_arcs(arcs.as_slice(), None)?;
            Ok(used)
        }
        Leaf::NoWrite(..) | Leaf::Gone(..) => Ok(used),
    }
}

impl Pruned {
    /// The leaf, and what its cycle uses.
    pub fn leaf(alloc: Global, leaf: Leaf) -> Result<Pruned, NoMemory>
        ensures tree { IfOk result (λ pruned. pruned.tree ≡ Close leaf) }
        ensures stands { IfOk result (λ pruned. (parts : Parts) (taken : List (TxnId × TxnId)) → IsClosed parts taken leaf → Stands parts taken pruned) }
    {
        let used = used_by(alloc, &leaf)?;
        let tree = Tree::Close(leaf);
        Ok(Pruned { tree, used })
    }

    /// The steps whose sides are used behind them, above the rest; where there are none, the rest.
    pub fn above(alloc: Global, steps: &[ForceStep], rest: Pruned) -> Result<Pruned, NoMemory>
        ensures stands { IfOk result (StandsAboveSteps steps.now rest) }
        ensures depth { IfOk result (λ whole. depth_of whole.tree ≤ depth_of rest.tree + 1) }
    {
        let mut above = Above::of(alloc, rest);
        for place in (0..steps.len()).rev() {
            put_used(&mut above, &steps[place])?;
        }
        above.end(alloc)
    }

    /// Whether a cycle of the tree uses the side.
    pub fn uses(&self, side: (TxnId, TxnId)) -> bool
        ensures { IsTrue result ↔ Contains self.now.used side }
    {
        self.used.has(side)
    }

    /// A split between both trees; or the first that doesn't use its side, alone.
    pub fn split(
        alloc: Global,
        choice: Choice,
        first: Pruned,
        second: Pruned,
    ) -> Result<Pruned, NoMemory>
        ensures stands { IfOk result (StandsOverSplit choice first second) }
        ensures depth { IfOk result (λ whole. depth_of whole.tree ≤ max (depth_of first.tree) (depth_of second.tree) + 1) }
    {
        if !first.uses(first_side(choice)) {
            return Ok(first);
        }
        if !second.uses(second_side(choice)) {
            return Ok(second);
        }
        let (mut one, mut other) = (first.used, second.used);
        one.remove(first_side(choice));
        other.remove(second_side(choice));
        let used = one.united(other)?;
        let tree = Tree::Split {
            choice,
            first: Box::new(alloc, first.tree)?,
            second: Box::new(alloc, second.tree)?,
        };
        Ok(Pruned { tree, used })
    }
}
