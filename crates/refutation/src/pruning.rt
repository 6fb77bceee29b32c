//! What is left of a whole tree once it takes no side that none of its cycles uses. Nothing is promised of it: whoever asks has it checked.
use crate::pruned::Pruned;
use crate::steps::first_side;
use crate::trees::{Leaf, Tree};
use std::alloc::Global;
use txn::{Choice, ForceStep, NoMemory};

fn copy_of_leaf(leaf: &Leaf) -> Result<Leaf, NoMemory> {
    match leaf {
        Leaf::Cycle(arcs) => Ok(Leaf::Cycle(arcs.clone()?)),
        Leaf::NoWrite(reader, key) => Ok(Leaf::NoWrite(*reader, *key)),
        Leaf::Gone(reader, key) => Ok(Leaf::Gone(*reader, *key)),
    }
}

fn put_leaf(alloc: Global, done: &mut Vec<Pruned>, leaf: &Leaf) -> Result<(), NoMemory> {
    done.push(Pruned::leaf(alloc, copy_of_leaf(leaf)?)?)?;
    Ok(())
}

/// Puts the steps that are used above the last tree.
fn put_steps(alloc: Global, done: &mut Vec<Pruned>, steps: &[ForceStep]) -> Result<(), NoMemory> {
    if let Some(rest) = done.pop() {
        done.push(Pruned::above(alloc, steps, rest)?)?;
    }
    Ok(())
}

/// Whether the last tree uses the choice's first side.
fn needs_first(done: &[Pruned], choice: Choice) -> bool {
    match done.last() {
        Some(last) => last.uses(first_side(choice)),
        None => false,
    }
}

/// Joins the last two trees by a split, or leaves one alone where it doesn't use its side.
fn put_split(alloc: Global, done: &mut Vec<Pruned>, choice: Choice) -> Result<(), NoMemory> {
    let (Some(second), Some(first)) = (done.pop(), done.pop()) else {
        return Ok(());
    };
    done.push(Pruned::split(alloc, choice, first, second)?)?;
    Ok(())
}

/// Puts what is left of a tree at the end: of its steps those whose side is used behind them, and of its splits those whose sides are
/// both used. It goes down one call a level, and what is done stands in the list, so that a call takes little of the stack.
pub fn prune(alloc: Global, done: &mut Vec<Pruned>, tree: &Tree) -> Result<(), NoMemory> {
    match tree {
        Tree::Close(leaf) => put_leaf(alloc, done, leaf),
        Tree::Force { steps, rest } => {
            prune(alloc, done, rest)?;
            put_steps(alloc, done, steps.as_slice())
        }
        Tree::Split {
            choice,
            first,
            second,
        } => {
            prune(alloc, done, first)?;
            if !needs_first(done.as_slice(), *choice) {
                return Ok(());
            }
            prune(alloc, done, second)?;
            put_split(alloc, done, *choice)
        }
    }
}
