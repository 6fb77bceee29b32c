ghost use Rattle.std.specs.Prelude.{◌≡◌, ◌↔◌, ◌+◌, ◌≤◌, ◌∷◌, Contains, IfOk, IsTrue, List, OnOk, reverse};
ghost use Rattle.txn.specs.declared.transactions.TxnId.{TxnId};
ghost use Rattle.txn.specs.declared.choices.ForceStep.{ForceStep};
ghost use Rattle.order_check.specs.declared.remainder.Parts.{Parts};
ghost use Rattle.order_check.specs.Cycles.{IsForced, side_taken};
ghost use Rattle.refutation.specs.Above.{IsPutAbove, StandsBelow};
ghost use Rattle.refutation.specs.Pruned.{Stands};
ghost use Rattle.refutation.specs.Refutes.{depth_of};

use crate::pruned::Pruned;
use crate::steps::{first_side, second_side, side_not_taken, side_taken};
use crate::trees::Tree;
use crate::used::UsedSides;
use std::alloc::Global;
use txn::{Choice, ForceStep, NoMemory, Sequence, Side};

/// A tree, and steps that stand above it. They are put there one by one, the last one first, so that
/// those alone need a cycle whose side is used behind them.
#[derive(Drop)]
pub struct Above {
    pub tree: Tree,
    /// The sides that have to be taken above the steps.
    pub used: UsedSides,
    /// The last one first.
    pub steps: Vec<ForceStep>,
}

/// The steps the other way round.
fn turned(steps: Vec<ForceStep>) -> Vec<ForceStep>
    ensures { result.items ≡ reverse steps.items }
{
    let mut steps = steps;
    steps.as_mut_slice().reverse();
    steps
}

impl Above {
    /// No step stands above the tree yet.
    pub fn of(alloc: Global, rest: Pruned) -> Above
        ensures stands { (parts : Parts) (taken : List (TxnId × TxnId)) → Stands parts taken rest → StandsBelow parts taken result }
        ensures tree { result.tree ≡ rest.tree }
    {
        let Pruned { tree, used } = rest;
        Above {
            tree,
            used,
            steps: Vec::new(alloc),
        }
    }

    /// Whether a cycle uses this side of the choice.
    pub fn needs(&self, choice: Choice, side: Side) -> bool
        ensures { (step : ForceStep) → step.choice ≡ choice → step.side ≡ side → IsTrue result ↔ Contains self.now.used (side_taken step) }
    {
        match side {
            Side::First => self.used.has(first_side(choice)),
            Side::Second => self.used.has(second_side(choice)),
        }
    }

    /// Puts the step before those that are there.
    pub fn put(&mut self, step: ForceStep) -> Result<(), NoMemory>
        ensures stands { OnOk result (IsPutAbove step self.old self.new) }
        ensures tree { OnOk result (self.new.tree ≡ self.old.tree) }
    {
        self.used.remove(side_taken(&step));
        self.used
            .add_arcs(step.cycle.as_slice(), Some(side_not_taken(&step)))?;
        self.steps.push(step)?;
        Ok(())
    }

    /// The tree below its steps; where there are none, the tree.
    pub fn end(self, alloc: Global) -> Result<Pruned, NoMemory>
        ensures stands { IfOk result (λ whole. (parts : Parts) (taken : List (TxnId × TxnId)) → StandsBelow parts taken self → Stands parts taken whole) }
        ensures depth { IfOk result (λ whole. depth_of whole.tree ≤ depth_of self.tree + 1) }
    {
        let Above { tree, used, steps } = self;
        if steps.is_empty() {
            return Ok(Pruned { tree, used });
        }
        let tree = Tree::Force {
            steps: Sequence::new(turned(steps)),
            rest: Box::new(alloc, tree)?,
        };
        Ok(Pruned { tree, used })
    }
}
