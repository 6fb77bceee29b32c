//! Deep trees, and what is left of trees once they are shortened.
use crate::trees::{
    BOTH_AFTER, EARLIER, LATER, LOST_UPDATE, SKEWED, WRITE_SKEW, before_writer, cycle, forced,
    leaves, step, wants,
};
use order_check::Parts;
use refutation::{Leaf, Tree, check, shortened};
use std::alloc::Global;
use std::process::Abort;
use std::test::*;
use test_histories::{ID_0_0, Table};
use txn::{Choice, NoMemory, Sequence, Side};

/// The cycle of the write skew below so many nodes without steps.
fn under(alloc: Global, nodes: u64) -> Result<Tree, NoMemory> {
    let mut tree = cycle(alloc, &SKEWED)?;
    for _ in 0..nodes {
        tree = Tree::Force {
            steps: Sequence::new(Vec::new(alloc)),
            rest: Box::new(alloc, tree)?,
        };
    }
    Ok(tree)
}

#[test]
fn a_tree_is_at_most_4096_deep(rt: HostRuntime) -> Result<(), Fail> {
    let alloc = rt.alloc();
    wants(&rt, alloc, &WRITE_SKEW, under(alloc, 4096), true)?;
    wants(&rt, alloc, &WRITE_SKEW, under(alloc, 4097), false)?;
    Ok(())
}

/// So many splits below one another, turn by turn on the first side and on the second.
fn zigzag(alloc: Global, splits: u64) -> Result<Tree, NoMemory> {
    let mut tree = cycle(alloc, &SKEWED)?;
    for at in 0..splits {
        let other = Box::new(alloc, Tree::Close(Leaf::Gone(ID_0_0, 5)))?;
        let below = Box::new(alloc, tree)?;
        let choice = EARLIER;
        let (first, second) = if at % 2 == 0 {
            (below, other)
        } else {
            (other, below)
        };
        tree = Tree::Split {
            choice,
            first,
            second,
        };
    }
    Ok(tree)
}

#[test]
fn very_deep_trees_are_judged_and_let_go(rt: HostRuntime) -> Result<(), Fail> {
    let alloc = rt.alloc();
    wants(&rt, alloc, &LOST_UPDATE, zigzag(alloc, 100_000), false)?;
    wants(&rt, alloc, &LOST_UPDATE, under(alloc, 100_000), false)?;
    Ok(())
}

/// How many steps, splits and leaves a tree has that isn't deep.
fn items_of(tree: &Tree) -> u64 {
    match tree {
        Tree::Close(_) => 1,
        Tree::Force { steps, rest } => items_of(rest).wrapping_add(steps.len() as u64),
        Tree::Split {
            choice: _,
            first,
            second,
        } => items_of(first)
            .wrapping_add(items_of(second))
            .wrapping_add(1),
    }
}

fn halves(alloc: Global, choice: Choice, first: Tree, second: Tree) -> Result<Tree, NoMemory> {
    Ok(Tree::Split {
        choice,
        first: Box::new(alloc, first)?,
        second: Box::new(alloc, second)?,
    })
}

/// So many splits on one choice, each in the second half of the one above, over a split on the later choice.
fn ladder(alloc: Global, splits: u64) -> Result<Tree, NoMemory> {
    let later = cycle(alloc, &before_writer(LATER))?;
    let mut tree = halves(alloc, LATER, later, cycle(alloc, &BOTH_AFTER)?)?;
    for _ in 0..splits {
        let first = cycle(alloc, &before_writer(EARLIER))?;
        tree = halves(alloc, EARLIER, first, tree)?;
    }
    Ok(tree)
}

/// The forced sides of the lost update, the first one twice.
fn forced_twice(alloc: Global) -> Result<Tree, NoMemory> {
    let mut steps = Sequence::new(Vec::new(alloc));
    steps.push(step(alloc, EARLIER, Side::Second)?)?;
    Ok(Tree::Force {
        steps,
        rest: Box::new(alloc, forced(alloc, Side::Second)?)?,
    })
}

/// A split of which neither half uses its side.
fn idle_split(alloc: Global) -> Result<Tree, NoMemory> {
    let first = forced(alloc, Side::Second)?;
    halves(alloc, EARLIER, first, forced_twice(alloc)?)
}

/// Stops unless the tree refutes the parts, and so many items of it are left once it is shortened.
fn is_shortened(
    rt: &impl Abort,
    alloc: Global,
    parts: &Parts,
    tree: Tree,
    wanted: u64,
) -> Result<(), NoMemory> {
    assert!(rt; parts.is_good());
    let refutes = check(alloc, parts, &tree)?;
    assert!(rt; refutes);
    let short = shortened(alloc, parts, tree)?;
    assert!(rt; items_of(&short) == wanted);
    Ok(())
}

fn shortens(
    rt: &impl Abort,
    alloc: Global,
    table: &Table,
    tree: Result<Tree, NoMemory>,
    wanted: u64,
) -> Result<(), NoMemory> {
    let tree = tree?;
    let parts = table.parts(alloc)?;
    is_shortened(rt, alloc, &parts, tree, wanted)
}

#[test]
fn what_plays_no_part_is_left_out(rt: HostRuntime) -> Result<(), Fail> {
    let alloc = rt.alloc();
    shortens(&rt, alloc, &WRITE_SKEW, under(alloc, 4096), 1)?;
    shortens(&rt, alloc, &LOST_UPDATE, forced_twice(alloc), 3)?;
    shortens(&rt, alloc, &LOST_UPDATE, idle_split(alloc), 3)?;
    shortens(&rt, alloc, &LOST_UPDATE, ladder(alloc, 4095), 5)?;
    Ok(())
}
