//! The search: it keeps the splits that it stands below in a list, so that it takes little of the stack. Nothing is promised of what it finds.
use crate::choosing::{Places, Recent, is_choice, next_choice};
use crate::conflicts::{Conflict, arc_of, other_side};
use clock_choices::Branch;
use polygraph::Problem;
use refutation::Tree;
use std::alloc::Global;
use txn::{Choice, NoMemory, Sequence, Side, TxnId};

/// What was found, unchecked.
#[derive(Drop)]
pub enum Found {
    Order(Sequence<TxnId>),
    Refutation(Tree),
    Nothing,
}

/// A split that the search stands below, by this side; where the other side is refuted already, why.
#[derive(Drop)]
struct Split {
    choice: Choice,
    side: Side,
    other: Option<Conflict>,
}

/// What the search knows besides the branch.
#[derive(Drop)]
struct Search {
    splits: Vec<Split>,
    recent: Recent,
    places: Places,
}

/// What is seen at a node.
#[derive(Drop)]
enum Node {
    Closed(Conflict),
    Open(Choice),
    Decided,
}

/// Assumes the side, if it is one of a choice.
fn take(alloc: Global, branch: &mut Branch, choice: Choice, side: Side) -> Result<(), NoMemory> {
    if is_choice(branch.parts(), choice) {
        branch.assume(alloc, choice, side)?;
    }
    Ok(())
}

/// Takes back the side that was assumed last.
fn take_back(branch: &mut Branch) {
    if branch.depth() > 0 {
        branch.back();
    }
}

fn look(alloc: Global, branch: &Branch, search: &Search) -> Result<Node, NoMemory> {
    if let Some(arcs) = branch.cycle(alloc)? {
        return Ok(Node::Closed(Conflict::of_cycle(alloc, arcs)?));
    }
    match next_choice(alloc, branch, &search.recent)? {
        Some(choice) => Ok(Node::Open(choice)),
        None => Ok(Node::Decided),
    }
}

/// Splits by the choice, and goes below the side that the order keeps.
fn go_down(
    alloc: Global,
    branch: &mut Branch,
    search: &mut Search,
    choice: Choice,
) -> Result<(), NoMemory> {
    let side = search.places.side_of(choice);
    take(alloc, branch, choice, side)?;
    search.splits.push(Split {
        choice,
        side,
        other: None,
    })?;
    Ok(())
}

/// What a conflict comes to at a split.
#[derive(Drop)]
enum Joined {
    /// It stands for the split, or the two of its sides do.
    Whole(Conflict),
    /// The other side is to be searched.
    Half(Conflict),
}

/// Where the conflict doesn't use the split's side it stands for both.
fn join(
    alloc: Global,
    recent: &mut Recent,
    split: Split,
    conflict: Conflict,
) -> Result<Joined, NoMemory> {
    let Split {
        choice,
        side,
        other,
    } = split;
    let mut conflict = conflict;
    if !conflict.needs(arc_of(choice, side)) {
        return Ok(Joined::Whole(conflict));
    }
    recent.note(choice)?;
    match (other, side) {
        (None, _) => Ok(Joined::Half(conflict)),
        (Some(other), Side::First) => Ok(Joined::Whole(Conflict::split(
            alloc, choice, conflict, other,
        )?)),
        (Some(other), Side::Second) => Ok(Joined::Whole(Conflict::split(
            alloc, choice, other, conflict,
        )?)),
    }
}

/// Goes up as far as the conflict stands, and below the other side of the first split where it doesn't; else gives what stands for all.
fn go_up(
    alloc: Global,
    branch: &mut Branch,
    search: &mut Search,
    conflict: Conflict,
) -> Result<Option<Conflict>, NoMemory> {
    let mut conflict = conflict;
    while let Some(split) = search.splits.pop() {
        let choice = split.choice;
        let side = split.side;
        conflict = conflict.above(alloc, &mut search.recent, branch)?;
        take_back(branch);
        match join(alloc, &mut search.recent, split, conflict)? {
            Joined::Whole(whole) => conflict = whole,
            Joined::Half(half) => {
                let side = other_side(side);
                take(alloc, branch, choice, side)?;
                search.splits.push(Split {
                    choice,
                    side,
                    other: Some(half),
                })?;
                return Ok(None);
            }
        }
    }
    let whole = conflict.above(alloc, &mut search.recent, branch)?;
    Ok(Some(whole))
}

/// The transactions by how many are known to come before each: what is known to come before one comes before whatever that one does.
fn order_of(alloc: Global, branch: &Branch) -> Result<Sequence<TxnId>, NoMemory> {
    let mut ranks = branch.ranks(alloc)?;
    ranks.sort_by_key(|rank| rank.count)?;
    let mut order = Vec::new(alloc);
    for rank in &ranks {
        order.push(rank.id)?;
    }
    Ok(Sequence::new(order))
}

/// Searches from where no side is assumed, within so many nodes; of two sides the one comes first that the order keeps. Where the problem's search
/// was given up, that counts as want of memory.
pub fn search_within(
    alloc: Global,
    problem: &Problem,
    branch: &mut Branch,
    order: &[TxnId],
    nodes: u64,
) -> Result<Found, NoMemory> {
    let mut search = Search {
        splits: Vec::new(alloc),
        recent: Recent::new(alloc),
        places: Places::of(alloc, order)?,
    };
    for _ in 0..nodes {
        problem.go_on()?;
        match look(alloc, branch, &search)? {
            Node::Decided => return Ok(Found::Order(order_of(alloc, branch)?)),
            Node::Open(choice) => go_down(alloc, branch, &mut search, choice)?,
            Node::Closed(conflict) => {
                if let Some(whole) = go_up(alloc, branch, &mut search, conflict)? {
                    return Ok(Found::Refutation(whole.tree));
                }
            }
        }
    }
    Ok(Found::Nothing)
}
