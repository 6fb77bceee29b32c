ghost use Rattle.std.specs.Prelude.{◌≡◌, ◌≤◌, IfOk, IfSome, IsTrue};
ghost use Rattle.order_check.specs.Good.{IsGood};
ghost use Rattle.refutation.specs.Refutes.{IsRefutation};
ghost use Rattle.refutation.specs.Sizes.{size_of};

use crate::checking::check;
use crate::pruning::prune;
use crate::trees::Tree;
use order_check::Parts;
use std::alloc::Global;
use txn::NoMemory;

/// How many forced steps, splits and leaves the tree has, if that is a number of 64 bits.
fn size_of(tree: &Tree) -> Option<usize>
    ensures { IfSome result (λ size. size ≡ size_of tree.now) }
{
    match tree {
        Tree::Close(_) => Some(1),
        Tree::Force { steps, rest } => steps.len().checked_add(size_of(rest)?),
        Tree::Split {
            choice: _,
            first,
            second,
        } => size_of(first)?
            .checked_add(size_of(second)?)?
            .checked_add(1),
    }
}

fn is_no_larger(tree: &Tree, than: &Tree) -> bool
    ensures { IsTrue result → size_of tree.now ≤ size_of than.now }
{
    match (size_of(tree), size_of(than)) {
        (Some(size), Some(most)) => size <= most,
        _ => false,
    }
}

/// Whether the tree refutes the parts, and is no larger than the other one.
fn is_shorter(alloc: Global, parts: &Parts, tree: &Tree, than: &Tree) -> Result<bool, NoMemory>
    requires { IsGood parts.now }
    ensures refutes { IfOk result (λ yes. IsTrue yes → IsRefutation parts.now tree.now) }
    ensures size { IfOk result (λ yes. IsTrue yes → size_of tree.now ≤ size_of than.now) }
{
    Ok(check(alloc, parts, tree)? && is_no_larger(tree, than))
}

/// A refutation of the same parts that is no larger. Steps whose side no cycle behind them uses are left out, and splits that one half doesn't
/// need, wherever the checker says yes to what is left.
pub fn shortened(alloc: Global, parts: &Parts, tree: Tree) -> Result<Tree, NoMemory>
    requires good { IsGood parts.now }
    // A call goes down the tree's levels, on the stack: there are at most 4,096.
    requires refutes { IsRefutation parts.now tree }
    ensures refutes { IfOk result (IsRefutation parts.now) }
    ensures size { IfOk result (λ short. size_of short ≤ size_of tree) }
{
    let mut done = Vec::new(alloc);
    prune(alloc, &mut done, &tree)?;
    match done.pop() {
        Some(left) if is_shorter(alloc, parts, &left.tree, &tree)? => Ok(left.tree),
        _ => Ok(tree),
    }
}
