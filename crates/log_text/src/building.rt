//! A tree from its items. They stand in the order node, first half, second half, and a tree may be very deep, so it is put together by a loop, from
//! the last item on: what hangs below a node is then what was made last.
ghost use Rattle.std.specs.Prelude.{◌≡◌, ℕ, List, [], ◌∷◌, ◌++◌, Some, None, map, reverse, IfOk, IfNone, IfSome, MatchOption, OnOk};
ghost use Rattle.refutation.specs.declared.trees.Tree.{Tree};
ghost use Rattle.log_text.specs.Building.{AreBuilt, AreMerged, nodes_behind, trees_in};
ghost use Rattle.log_text.specs.Refutations.{AreNodesOf, IsMerged, IsNoForce, nodes_of};
ghost use Rattle.log_text.specs.declared.tree_items.TreeItem.{TreeItem};
ghost use Rattle.log_text.specs.declared.tree_items.TreeItem.TheVariants as node;

use crate::tree_items::TreeItem;
use refutation::{Leaf, Tree};
use std::alloc::Global;
use txn::{Choice, ForceStep, NoMemory, Sequence};

/// The foremost tree, which is being put together.
#[derive(Drop)]
pub(crate) struct Front {
    /// The steps that stand before the rest, the first of them last.
    steps: Vec<ForceStep>,
    rest: Tree,
}

/// What was put together so far: the foremost tree, where there is one, and whole trees behind it, the next one last.
#[derive(Drop)]
struct Built {
    front: Option<Front>,
    behind: Vec<Tree>,
}

/// A tree with nothing before it yet.
fn front_of(alloc: Global, rest: Tree) -> Front
    ensures steps { result.steps.items ≡ [] }
    ensures rest { result.rest ≡ rest }
{
    Front {
        steps: Vec::new(alloc),
        rest,
    }
}

impl Front {
    /// The whole tree: its steps are one node.
    fn put_together(self, alloc: Global) -> Result<Tree, NoMemory>
        ensures nodes { IfOk result (λ tree. nodes_of tree ≡ map node.Force (reverse self.steps.items) ++ nodes_of self.rest) }
        ensures merged { IfOk result (λ tree. IsNoForce self.rest → IsMerged self.rest → IsMerged tree) }
    {
        let Front { mut steps, rest } = self;
        if steps.is_empty() {
            return Ok(rest);
        }
        steps.reverse();
        let rest = Box::new(alloc, rest)?;
        Ok(Tree::Force {
            steps: Sequence::new(steps),
            rest,
        })
    }
}

/// Moves the foremost tree behind the one that is next to be put together.
fn put_behind(alloc: Global, front: Option<Front>, behind: &mut Vec<Tree>) -> Result<(), NoMemory>
    ensures { OnOk result ((nodes : List TreeItem) → AreBuilt front behind.old.items nodes → (nodes ≡ nodes_behind behind.new.items) × AreMerged behind.new.items) }
{
    if let Some(front) = front {
        behind.push(front.put_together(alloc)?)?;
    }
    Ok(())
}

fn put_leaf(alloc: Global, leaf: Leaf, built: Built) -> Result<Built, NoMemory>
    ensures { IfOk result (λ made. (nodes : List TreeItem) → AreBuilt built.front built.behind.items nodes → AreBuilt made.front made.behind.items (node.Close leaf ∷ nodes)) }
{
    let Built { front, mut behind } = built;
    put_behind(alloc, front, &mut behind)?;
    let front = Some(front_of(alloc, Tree::Close(leaf)));
    Ok(Built { front, behind })
}

fn put_step(step: ForceStep, built: Built) -> Result<Option<Built>, NoMemory>
    ensures some { IfOk result (λ made. IfSome made (λ m. (nodes : List TreeItem) → AreBuilt built.front built.behind.items nodes → AreBuilt m.front m.behind.items (node.Force step ∷ nodes))) }
    ensures none { IfOk result (λ made. IfNone made ((nodes : List TreeItem) → AreBuilt built.front built.behind.items nodes → trees_in (node.Force step ∷ nodes) ≡ None)) }
{
    let Built { front, behind } = built;
    let Some(mut front) = front else {
        return Ok(None);
    };
    front.steps.push(step)?;
    let front = Some(front);
    Ok(Some(Built { front, behind }))
}

/// The first half is the foremost tree, and the second one stands behind it.
fn put_split(alloc: Global, choice: Choice, built: Built) -> Result<Option<Built>, NoMemory>
    ensures some { IfOk result (λ made. IfSome made (λ m. (nodes : List TreeItem) → AreBuilt built.front built.behind.items nodes → AreBuilt m.front m.behind.items (node.Split choice ∷ nodes))) }
    ensures none { IfOk result (λ made. IfNone made ((nodes : List TreeItem) → AreBuilt built.front built.behind.items nodes → trees_in (node.Split choice ∷ nodes) ≡ None)) }
{
    let Built { front, mut behind } = built;
    let Some(front) = front else {
        return Ok(None);
    };
    let first = front.put_together(alloc)?;
    let Some(second) = behind.pop() else {
        return Ok(None);
    };
    let first = Box::new(alloc, first)?;
    let second = Box::new(alloc, second)?;
    let split = Tree::Split {
        choice,
        first,
        second,
    };
    let front = Some(front_of(alloc, split));
    give_back_behind(&mut behind);
    Ok(Some(Built { front, behind }))
}

/// Puts an item before all that was made, where it may stand there.
fn put_item(alloc: Global, item: TreeItem, built: Built) -> Result<Option<Built>, NoMemory>
    ensures some { IfOk result (λ made. IfSome made (λ m. (nodes : List TreeItem) → AreBuilt built.front built.behind.items nodes → AreBuilt m.front m.behind.items (item ∷ nodes))) }
    ensures none { IfOk result (λ made. IfNone made ((nodes : List TreeItem) → AreBuilt built.front built.behind.items nodes → trees_in (item ∷ nodes) ≡ None)) }
{
    match item {
        TreeItem::Force(step) => put_step(step, built),
        TreeItem::Split(choice) => put_split(alloc, choice, built),
        TreeItem::Close(leaf) => Ok(Some(put_leaf(alloc, leaf, built)?)),
    }
}

/// Gives back the room that popped items leave, so that a large tree doesn't stand in memory beside all of its items.
fn give_back(items: &mut Vec<TreeItem>)
    ensures { items.new.items ≡ items.old.items }
{
    if items.len() < items.capacity() - items.capacity() / 8 {
        items.shrink_to_fit();
    }
}

/// The same of the trees behind the foremost one.
fn give_back_behind(behind: &mut Vec<Tree>)
    ensures { behind.new.items ≡ behind.old.items }
{
    if behind.len() < behind.capacity() / 2 {
        behind.shrink_to_fit();
    }
}

/// The tree whose items these are, where they are those of one.
pub(crate) fn tree_of_items(alloc: Global, items: Vec<TreeItem>) -> Result<Option<Tree>, NoMemory>
    ensures { IfOk result (λ found. MatchOption found ((tree : Tree) → ¬ AreNodesOf items.items tree) (AreNodesOf items.items)) }
{
    let mut items = items;
    let mut built = Built {
        front: None,
        behind: Vec::new(alloc),
    };
    while let Some(item) = items.pop() {
        give_back(&mut items);
        match put_item(alloc, item, built)? {
            Some(made) => built = made,
            None => return Ok(None),
        }
    }
    let Built { front, behind } = built;
    let Some(front) = front else {
        return Ok(None);
    };
    if !behind.is_empty() {
        return Ok(None);
    }
    Ok(Some(front.put_together(alloc)?))
}
