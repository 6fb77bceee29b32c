ghost use Rattle.std.specs.Prelude.{◌≡◌, suc, ◌≤◌, ◌∷◌, length, IfOk, OnOk, MatchOption};
ghost use Rattle.txn.specs.declared.transactions.TxnId.{TxnId};
ghost use Rattle.txn.specs.declared.choices.Choice.{Choice};
ghost use Rattle.order_check.specs.BadReads.{HasBadRead};
ghost use Rattle.order_check.specs.Explains.{Explains};
ghost use Rattle.order_check.specs.Known.{IsChoice, IsOpen};
ghost use Rattle.order_check.specs.Search.{Scans, IsHopeless, IsFirstOpen};
ghost use Rattle.order_check.specs.TakenSides.{KeepsSides};
ghost use Rattle.clock_choices.specs.BranchState.{arc_of, assumed};
ghost use Rattle.polygraph.specs.Shown.{IsBadRead, IsClosedBy, outcome_of, OrderKeeps, told_of, IsShown, IsShownBeyond};

use crate::bad_reads::{BadRead, leaf_of};
use crate::found::{Found, above_last};
use crate::nodes::Nodes;
use crate::ordering::order_of;
use clock_choices::Branch;
use order_check::keeping_explains;
use refutation::{Leaf, Pruned};
use std::alloc::Global;
use txn::{Choice, NoMemory, Sequence, Side, TxnId};

/// How many sides are assumed at most where a node is looked at.
const GREATEST_DEPTH: usize = 2047;

/// An order that explains the parts, where no choice is left.
fn explaining_order(alloc: Global, branch: &Branch) -> Result<Sequence<TxnId>, NoMemory>
    requires hopeful { ¬ IsHopeless branch.now.parts (assumed branch.now.levels) }
    requires none_open { (choice : Choice) → ¬ IsOpen branch.now.parts (assumed branch.now.levels) choice }
    ensures explains { IfOk result (Explains branch.now.parts) }
    ensures sides { IfOk result (λ order. KeepsSides order (assumed branch.now.levels)) }
{
    // A law that the proof cites. It does nothing when it runs.
    keeping_explains();
    let order = order_of(alloc, branch)?;
    Ok(order)
}

/// What closes the node that the branch stands at.
fn closing_leaf(
    alloc: Global,
    branch: &Branch,
    bad: Option<BadRead>,
) -> Result<Option<Leaf>, NoMemory>
    requires { MatchOption bad (¬ HasBadRead branch.now.parts) (IsBadRead branch.now.parts) }
    ensures { IfOk result (λ found. MatchOption found (¬ IsHopeless branch.now.parts (assumed branch.now.levels)) (IsClosedBy branch.now)) }
{
    if let Some(read) = bad {
        return Ok(Some(leaf_of(read)));
    }
    match branch.cycle(alloc)? {
        Some(arcs) => Ok(Some(Leaf::Cycle(arcs))),
        None => Ok(None),
    }
}

/// Searches where this side is assumed too, and leaves the branch as it was.
#[cycle(scanning)]
fn scan_side(
    alloc: Global,
    branch: &mut Branch,
    bad: Option<BadRead>,
    choice: Choice,
    side: Side,
    nodes: &mut Nodes,
) -> Result<Found, NoMemory>
    requires bad { MatchOption bad (¬ HasBadRead branch.old.parts) (IsBadRead branch.old.parts) }
    requires choice { IsChoice branch.old.parts choice }
    ensures kept { OnOk result (branch.new ≡ branch.old) }
    ensures fewer { OnOk result (nodes.new ≤ nodes.old) }
    ensures scans { IfOk result (λ found. Scans branch.old.parts (arc_of choice side ∷ assumed branch.old.levels) nodes.old (outcome_of (told_of found)) nodes.new) }
    ensures sides { IfOk result (λ found. OrderKeeps (assumed branch.old.levels) (told_of found)) }
    ensures shown { IfOk result (IsShownBeyond branch.old choice side) }
{
    branch.assume(alloc, choice, side)?;
    let found = scan(alloc, branch, bad, nodes)?;
    let found = above_last(alloc, branch, found)?;
    branch.back();
    Ok(found)
}

/// Splits the node that the branch stands at by its first open choice.
#[cycle(scanning)]
fn split(
    alloc: Global,
    branch: &mut Branch,
    bad: Option<BadRead>,
    choice: Choice,
    nodes: &mut Nodes,
) -> Result<Found, NoMemory>
    requires bad { MatchOption bad (¬ HasBadRead branch.old.parts) (IsBadRead branch.old.parts) }
    requires low { length branch.old.levels ≤ 2047 }
    requires hopeful { ¬ IsHopeless branch.old.parts (assumed branch.old.levels) }
    requires first { IsFirstOpen branch.old.parts (assumed branch.old.levels) choice }
    ensures kept { OnOk result (branch.new ≡ branch.old) }
    ensures fewer { OnOk result (nodes.new ≤ nodes.old) }
    ensures scans { IfOk result (λ found. Scans branch.old.parts (assumed branch.old.levels) (suc nodes.old) (outcome_of (told_of found)) nodes.new) }
    ensures sides { IfOk result (λ found. OrderKeeps (assumed branch.old.levels) (told_of found)) }
    ensures shown { IfOk result (IsShown branch.old) }
{
    let first = match scan_side(alloc, branch, bad, choice, Side::First, nodes)? {
        Found::No(pruned) => pruned,
        Found::Yes(order) => return Ok(Found::Yes(order)),
        Found::Spent => return Ok(Found::Spent),
    };
    let second = match scan_side(alloc, branch, bad, choice, Side::Second, nodes)? {
        Found::No(pruned) => pruned,
        Found::Yes(order) => return Ok(Found::Yes(order)),
        Found::Spent => return Ok(Found::Spent),
    };
    Ok(Found::No(Pruned::split(alloc, choice, first, second)?))
}

/// Searches from the node that the branch stands at, within so many nodes, and leaves the branch as it was. Where it was given up, that counts as want
/// of memory.
#[cycle(scanning)]
pub fn scan(
    alloc: Global,
    branch: &mut Branch,
    bad: Option<BadRead>,
    nodes: &mut Nodes,
) -> Result<Found, NoMemory>
    requires { MatchOption bad (¬ HasBadRead branch.old.parts) (IsBadRead branch.old.parts) }
    ensures kept { OnOk result (branch.new ≡ branch.old) }
    ensures fewer { OnOk result (nodes.new ≤ nodes.old) }
    ensures scans { IfOk result (λ found. Scans branch.old.parts (assumed branch.old.levels) nodes.old (outcome_of (told_of found)) nodes.new) }
    ensures sides { IfOk result (λ found. OrderKeeps (assumed branch.old.levels) (told_of found)) }
    ensures shown { IfOk result (IsShown branch.old) }
{
    if nodes.left() == 0 {
        return Ok(Found::Spent);
    }
    if branch.depth() > GREATEST_DEPTH {
        nodes.use_up();
        return Ok(Found::Spent);
    }
    nodes.take()?;
    if let Some(leaf) = closing_leaf(alloc, branch, bad)? {
        return Ok(Found::No(Pruned::leaf(alloc, leaf)?));
    }
    match branch.first_open(alloc)? {
        Some(choice) => split(alloc, branch, bad, choice, nodes),
        None => Ok(Found::Yes(explaining_order(alloc, branch)?)),
    }
}
