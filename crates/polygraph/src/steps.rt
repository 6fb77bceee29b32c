// Forced steps above the tree of what was refuted. Of most steps no cycle is ever asked for, so it
// is looked up only here, of those that a tree needs.
ghost use Rattle.std.specs.Prelude.{◌≡◌, ◌+◌, ◌<◌, ◌≤◌, ◌++◌, IfOk, List, OnOk, Some, length, slice_get};
ghost use Rattle.txn.specs.declared.transactions.TxnId.{TxnId};
ghost use Rattle.polygraph.specs.Shown.{taken_up_to};
ghost use Rattle.refutation.specs.Above.{StandsBelow};
ghost use Rattle.refutation.specs.Pruned.{Stands};
ghost use Rattle.refutation.specs.Refutes.{depth_of};
ghost use Rattle.clock_choices.specs.BranchState.{assumed, all_taken, last_steps, taken_before};
ghost use Rattle.clock_choices.specs.Steps.{bare};

use clock_choices::{Branch, Forced};
use refutation::{Above, Pruned, after_both, forced_with_more};
use std::alloc::Global;
use txn::{ForceStep, NoMemory};

/// One of the branch's last steps.
fn last_step(branch: &Branch, place: usize) -> Forced
    requires { place < length (last_steps branch.now.log branch.now.levels) }
    ensures { slice_get (last_steps branch.now.log branch.now.levels) place ≡ Some (bare result) }
{
    branch.steps()[place]
}

/// Puts one of the branch's last steps above the tree, if it is needed there. More sides may be taken
/// than those of the branch.
fn put_step(alloc: Global, branch: &Branch, place: usize, above: &mut Above) -> Result<(), NoMemory>
    requires { place < length (last_steps branch.now.log branch.now.levels) }
    ensures stands { OnOk result ((more : List (TxnId × TxnId)) → StandsBelow branch.now.parts (more ++ taken_up_to branch.now (place + 1)) above.old
        → StandsBelow branch.now.parts (more ++ taken_up_to branch.now place) above.new) }
    ensures tree { OnOk result (above.new.tree ≡ above.old.tree) }
{
    // Laws that the proof cites. They do nothing when they run.
    after_both();
    forced_with_more();
    let step = last_step(branch, place);
    if above.needs(step.choice, step.side) {
        above.put(ForceStep {
            choice: step.choice,
            side: step.side,
            cycle: branch.cycle_of(alloc, place)?,
        })?;
    }
    Ok(())
}

/// Puts those of the branch's last steps above the tree that are needed there. More sides may be
/// taken than those of the branch.
fn put_last(alloc: Global, branch: &Branch, above: &mut Above) -> Result<(), NoMemory>
    ensures stands { OnOk result ((more : List (TxnId × TxnId)) → StandsBelow branch.now.parts (more ++ all_taken branch.now.log branch.now.levels) above.old
        → StandsBelow branch.now.parts (more ++ taken_before branch.now.log branch.now.levels) above.new) }
    ensures tree { OnOk result (above.new.tree ≡ above.old.tree) }
{
    for place in (0..branch.steps().len()).rev() {
        put_step(alloc, branch, place, above)?;
    }
    Ok(())
}

/// Puts all steps above the tree that are needed there, those of the last level first, and takes all
/// sides back.
fn put_all(alloc: Global, branch: &mut Branch, above: &mut Above) -> Result<(), NoMemory>
    ensures stands { OnOk result (StandsBelow branch.old.parts (all_taken branch.old.log branch.old.levels) above.old → StandsBelow branch.old.parts (assumed branch.old.levels) above.new) }
    ensures tree { OnOk result (above.new.tree ≡ above.old.tree) }
{
    put_last(alloc, branch, above)?;
    while branch.depth() > 0 {
        branch.back();
        put_last(alloc, branch, above)?;
    }
    Ok(())
}

/// The tree below a node of those of the branch's last steps that it needs.
pub fn below_last(alloc: Global, branch: &Branch, rest: Pruned) -> Result<Pruned, NoMemory>
    ensures stands { IfOk result (λ whole. Stands branch.now.parts (all_taken branch.now.log branch.now.levels) rest → Stands branch.now.parts (taken_before branch.now.log branch.now.levels) whole) }
    ensures depth { IfOk result (λ whole. depth_of whole.tree ≤ depth_of rest.tree + 1) }
{
    let mut above = Above::of(alloc, rest);
    put_last(alloc, branch, &mut above)?;
    let whole = above.end(alloc)?;
    Ok(whole)
}

/// The tree below a node of those of all the branch's steps that it needs. All sides are taken
/// back.
pub fn below_all(alloc: Global, branch: &mut Branch, rest: Pruned) -> Result<Pruned, NoMemory>
    ensures stands { IfOk result (λ whole. Stands branch.old.parts (all_taken branch.old.log branch.old.levels) rest → Stands branch.old.parts (assumed branch.old.levels) whole) }
    ensures depth { IfOk result (λ whole. depth_of whole.tree ≤ depth_of rest.tree + 1) }
{
    let mut above = Above::of(alloc, rest);
    put_all(alloc, branch, &mut above)?;
    let whole = above.end(alloc)?;
    Ok(whole)
}
