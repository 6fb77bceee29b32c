//! Why a node of the search has no order: a tree, and the sides that its cycles use. Nothing is promised of it: the whole tree is checked.
ghost use Rattle.std.specs.Prelude.{◌≡◌, ◌<◌, length};
ghost use Rattle.clock_choices.specs.BranchState.{last_steps};

use crate::choosing::Recent;
use clock_choices::Branch;
use refutation::{Leaf, Tree};
use std::alloc::Global;
use std::collections::BTreeSet;
use txn::{Arc, Choice, ForceStep, NoMemory, Sequence, Side, TxnId};

/// A tree that refutes where the sides are taken that its cycles use.
#[derive(Drop)]
pub struct Conflict {
    pub tree: Tree,
    used: BTreeSet<(TxnId, TxnId)>,
}

pub fn arc_of(choice: Choice, side: Side) -> (TxnId, TxnId) {
    match side {
        Side::First => (choice.other, choice.writer),
        Side::Second => (choice.reader, choice.other),
    }
}

pub fn other_side(side: Side) -> Side {
    match side {
        Side::First => Side::Second,
        Side::Second => Side::First,
    }
}

/// Notes the sides that the arcs use, but for one that is only assumed.
fn note_used(
    used: &mut BTreeSet<(TxnId, TxnId)>,
    arcs: &[Arc],
    assumed: Option<(TxnId, TxnId)>,
) -> Result<(), NoMemory> {
    for arc in arcs {
        if let Arc::Taken { from, to } = arc {
            let side = (*from, *to);
            if Some(side) != assumed {
                used.insert(side)?;
            }
        }
    }
    Ok(())
}

/// How many steps the last side assumed forces; where none is assumed, how many were forced before.
fn count_steps(branch: &Branch) -> usize
    ensures { result ≡ length (last_steps branch.now.log branch.now.levels) }
{
    branch.steps().len()
}

/// The last side's step at this place, with its cycle, where its side is used behind it.
fn used_step(
    alloc: Global,
    branch: &Branch,
    place: usize,
    used: &mut BTreeSet<(TxnId, TxnId)>,
) -> Result<Option<ForceStep>, NoMemory>
    requires { place < length (last_steps branch.now.log branch.now.levels) }
{
    let Some(step) = branch.steps().get(place).copied() else {
        return Ok(None);
    };
    if !used.remove(&arc_of(step.choice, step.side)) {
        return Ok(None);
    }
    let against = arc_of(step.choice, other_side(step.side));
    let cycle = branch.cycle_of(alloc, place)?;
    note_used(used, cycle.as_slice(), Some(against))?;
    Ok(Some(ForceStep {
        choice: step.choice,
        side: step.side,
        cycle,
    }))
}

/// The last side's steps whose sides are used behind them, the last one first. The cycles of these alone are looked up.
fn used_steps(
    alloc: Global,
    recent: &mut Recent,
    branch: &Branch,
    used: &mut BTreeSet<(TxnId, TxnId)>,
) -> Result<Vec<ForceStep>, NoMemory> {
    let mut kept = Vec::new(alloc);
    for place in (0..count_steps(branch)).rev() {
        if let Some(step) = used_step(alloc, branch, place, used)? {
            recent.note(step.choice)?;
            kept.push(step)?;
        }
    }
    Ok(kept)
}

/// The sides of both.
fn united(
    one: BTreeSet<(TxnId, TxnId)>,
    other: BTreeSet<(TxnId, TxnId)>,
) -> Result<BTreeSet<(TxnId, TxnId)>, NoMemory> {
    let (mut most, rest) = if one.len() < other.len() {
        (other, one)
    } else {
        (one, other)
    };
    for side in rest {
        most.insert(side)?;
    }
    Ok(most)
}

impl Conflict {
    /// The arcs lead round.
    pub fn of_cycle(alloc: Global, arcs: Sequence<Arc>) -> Result<Conflict, NoMemory> {
        let mut used = BTreeSet::new(alloc);
        note_used(&mut used, arcs.as_slice(), None)?;
        Ok(Conflict {
            tree: Tree::Close(Leaf::Cycle(arcs)),
            used,
        })
    }

    /// The same above those of the last side's steps that it uses, which are noted as recent.
    pub fn above(
        self,
        alloc: Global,
        recent: &mut Recent,
        branch: &Branch,
    ) -> Result<Conflict, NoMemory> {
        let Conflict { tree, mut used } = self;
        let mut kept = used_steps(alloc, recent, branch, &mut used)?;
        if kept.is_empty() {
            return Ok(Conflict { tree, used });
        }
        kept.as_mut_slice().reverse();
        let tree = Tree::Force {
            steps: Sequence::new(kept),
            rest: Box::new(alloc, tree)?,
        };
        Ok(Conflict { tree, used })
    }

    /// Whether it uses the side, which is then taken above it.
    pub fn needs(&mut self, side: (TxnId, TxnId)) -> bool {
        self.used.remove(&side)
    }

    /// A split between two conflicts that both use their side.
    pub fn split(
        alloc: Global,
        choice: Choice,
        first: Conflict,
        second: Conflict,
    ) -> Result<Conflict, NoMemory> {
        let used = united(first.used, second.used)?;
        let tree = Tree::Split {
            choice,
            first: Box::new(alloc, first.tree)?,
            second: Box::new(alloc, second.tree)?,
        };
        Ok(Conflict { tree, used })
    }
}
