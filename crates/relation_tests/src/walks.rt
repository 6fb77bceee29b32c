//! Branches of the known relation: as sides are assumed and taken back, all that a branch tells is compared with the plain computation.
ghost use Rattle.std.specs.Prelude.{IsTrue};
ghost use Rattle.order_check.specs.Known.{IsChoice};

use crate::arrivals::saturated_of;
use crate::steps::{are_forced, forced_steps, is_cycle, side_of_step};
use clock_choices::{Branch, Saturated};
use order_check::Parts;
use std::alloc::Global;
use std::process::Abort;
use std::test::Fail;
use test_histories::{
    Dice, Facts, Pair, Relation, facts_of, is_open, known_with, parts_by, side_of, stored_by,
};
use txn::{Choice, ForceStep, NoMemory, Side, Source, TxnId};

/// Of how many choices each two are tried together.
const MOST_PAIRED: usize = 5;

/// What is known of a branch besides it.
#[derive(Drop)]
struct Walk<'a> {
    facts: &'a Facts,
    /// The sides that are assumed.
    assumed: Vec<Pair>,
    /// All sides that are taken, assumed and forced.
    taken: Vec<Pair>,
    /// How many were taken before each side was assumed.
    marks: Vec<usize>,
}

fn is_row(branch: &Branch, facts: &Facts, known: &Relation, earlier: TxnId) -> bool {
    facts.ids.iter().all(|later| {
        branch.reaches(earlier, *later) == known.contains((earlier, *later))
    })
}

fn is_relation(branch: &Branch, facts: &Facts, known: &Relation) -> bool {
    for earlier in &facts.ids {
        if !is_row(branch, facts, known, *earlier) {
            return false;
        }
    }
    true
}

fn first_in(facts: &Facts, known: &Relation) -> Option<Choice> {
    for choice in &facts.choices {
        if is_open(known, *choice) {
            return Some(*choice);
        }
    }
    None
}

/// How many are known to come before this one.
fn count_before(facts: &Facts, known: &Relation, later: TxnId) -> usize {
    let mut count = 0usize;
    for earlier in &facts.ids {
        if known.contains((*earlier, later)) {
            count = count.wrapping_add(1);
        }
    }
    count
}

/// Whether each that remains is told, with how many come before it.
fn are_ranked(
    alloc: Global,
    branch: &Branch,
    facts: &Facts,
    known: &Relation,
) -> Result<bool, NoMemory> {
    let ranks = branch.ranks(alloc)?;
    for (rank, id) in ranks.iter().zip(facts.ids.iter()) {
        if rank.id != *id || rank.count != count_before(facts, known, *id) {
            return Ok(false);
        }
    }
    Ok(ranks.len() == facts.ids.len())
}

/// Whether a cycle is found where there is one, and is of pairs that stand.
fn is_cycle_told(
    alloc: Global,
    branch: &Branch,
    known: &Relation,
    standing: &Relation,
) -> Result<bool, NoMemory> {
    match branch.cycle(alloc)? {
        Some(arcs) => Ok(known.has_cycle() && is_cycle(arcs.as_slice(), standing, None)),
        None => Ok(!known.has_cycle()),
    }
}

/// Stops unless what is asked at a node of a search is told as it is known.
fn tells_known(
    rt: &impl Abort,
    alloc: Global,
    branch: &Branch,
    facts: &Facts,
    known: &Relation,
) -> Result<(), NoMemory> {
    assert!(rt; is_relation(branch, facts, known));
    assert!(rt; branch.ids(alloc)?.as_slice() == facts.ids.as_slice());
    assert!(rt; branch.first_open(alloc)? == first_in(facts, known));
    assert!(rt; are_ranked(alloc, branch, facts, known)?);
    Ok(())
}

/// What stands where these sides are taken, not closed.
fn standing_with(alloc: Global, facts: &Facts, taken: &[Pair]) -> Result<Relation, NoMemory> {
    let mut standing = Relation::none(alloc, facts.ids.as_slice())?;
    standing.note_all(facts.plain.as_slice());
    standing.note_all(taken);
    Ok(standing)
}

fn note_taken(walk: &mut Walk, steps: &[ForceStep]) -> Result<(), NoMemory> {
    for step in steps {
        walk.taken.push(side_of_step(step, true))?;
    }
    Ok(())
}

/// Stops unless the branch tells all as it is defined, and all that is known comes of the sides that are taken.
fn is_as_defined(
    rt: &impl Abort,
    alloc: Global,
    branch: &Branch,
    walk: &Walk,
) -> Result<(), NoMemory> {
    assert!(rt; branch.depth() == walk.assumed.len());
    let known = known_with(alloc, walk.facts, walk.assumed.as_slice())?;
    tells_known(rt, alloc, branch, walk.facts, &known)?;
    let mut standing = standing_with(alloc, walk.facts, walk.taken.as_slice())?;
    assert!(rt; is_cycle_told(alloc, branch, &known, &standing)?);
    standing.close();
    assert!(rt; is_relation(branch, walk.facts, &standing));
    Ok(())
}

/// Notes the steps of the last side, or those that were forced before any is assumed, and stops unless each of them is forced.
fn note_steps(
    rt: &impl Abort,
    alloc: Global,
    branch: &Branch,
    walk: &mut Walk,
) -> Result<(), NoMemory> {
    let steps = forced_steps(rt, alloc, branch)?;
    let mut standing = standing_with(alloc, walk.facts, walk.taken.as_slice())?;
    assert!(rt; are_forced(walk.facts, &mut standing, steps.as_slice()));
    note_taken(walk, steps.as_slice())
}

fn is_choice(parts: &Parts, choice: Choice) -> bool
    ensures { IsTrue result → IsChoice parts.now choice }
{
    parts.reads(choice.reader, choice.key, Source::By(choice.writer))
        && parts.writes(choice.writer, choice.key)
        && parts.writes(choice.other, choice.key)
        && choice.other != choice.writer
        && choice.other != choice.reader
}

/// Assumes a side, and stops unless all is as it is defined then.
fn assume(
    rt: &impl Abort,
    alloc: Global,
    branch: &mut Branch,
    walk: &mut Walk,
    choice: Choice,
    side: Side,
) -> Result<(), NoMemory> {
    assert!(rt; is_choice(branch.parts(), choice));
    branch.assume(alloc, choice, side)?;
    let pair = side_of(choice, side == Side::First);
    walk.marks.push(walk.taken.len())?;
    walk.assumed.push(pair)?;
    walk.taken.push(pair)?;
    note_steps(rt, alloc, branch, walk)?;
    is_as_defined(rt, alloc, branch, walk)
}

/// Takes the last side back.
fn take_back(rt: &impl Abort, branch: &mut Branch, walk: &mut Walk) {
    assert!(rt; branch.depth() > 0);
    branch.back();
    let _side = walk.assumed.pop();
    if let Some(taken) = walk.marks.pop() {
        walk.taken.truncate(taken);
    }
}

/// Assumes each side of each choice, one at a time.
fn try_sides(
    rt: &impl Abort,
    alloc: Global,
    branch: &mut Branch,
    walk: &mut Walk,
) -> Result<(), NoMemory> {
    let facts = walk.facts;
    for choice in &facts.choices {
        for side in [Side::First, Side::Second] {
            assume(rt, alloc, branch, walk, *choice, side)?;
            take_back(rt, branch, walk);
        }
    }
    is_as_defined(rt, alloc, branch, walk)
}

/// Assumes each side of each choice, and each side of each choice below it, where there are few.
fn try_pairs(
    rt: &impl Abort,
    alloc: Global,
    branch: &mut Branch,
    walk: &mut Walk,
) -> Result<(), NoMemory> {
    let facts = walk.facts;
    if facts.choices.len() > MOST_PAIRED {
        return try_sides(rt, alloc, branch, walk);
    }
    for choice in &facts.choices {
        for side in [Side::First, Side::Second] {
            assume(rt, alloc, branch, walk, *choice, side)?;
            try_sides(rt, alloc, branch, walk)?;
            take_back(rt, branch, walk);
        }
    }
    is_as_defined(rt, alloc, branch, walk)
}

/// Assumes sides of what is open until nothing is, the other side of each second one. Each decides one choice at least.
fn go_down(
    rt: &impl Abort,
    alloc: Global,
    branch: &mut Branch,
    walk: &mut Walk,
) -> Result<(), NoMemory> {
    let mut side = Side::First;
    for _ in 0..walk.facts.choices.len() {
        let Some(choice) = branch.first_open(alloc)? else {
            break;
        };
        assume(rt, alloc, branch, walk, choice, side)?;
        side = match side {
            Side::First => Side::Second,
            Side::Second => Side::First,
        };
    }
    assert!(rt; branch.first_open(alloc)?.is_none());
    Ok(())
}

/// Takes all sides back, and stops unless all is as it is defined after each.
fn go_up(
    rt: &impl Abort,
    alloc: Global,
    branch: &mut Branch,
    walk: &mut Walk,
) -> Result<(), NoMemory> {
    for _ in 0..walk.assumed.len() {
        take_back(rt, branch, walk);
        is_as_defined(rt, alloc, branch, walk)?;
    }
    Ok(())
}

/// What is known of a branch of which no side is assumed; it stops unless all is as it is defined.
fn start<'a>(
    rt: &impl Abort,
    alloc: Global,
    branch: &Branch,
    facts: &'a Facts,
) -> Result<Walk<'a>, NoMemory> {
    let mut walk = Walk {
        facts,
        assumed: Vec::new(alloc),
        taken: Vec::new(alloc),
        marks: Vec::new(alloc),
    };
    note_steps(rt, alloc, branch, &mut walk)?;
    is_as_defined(rt, alloc, branch, &walk)?;
    Ok(walk)
}

/// Stops unless a branch on which no side is assumed tells all as it is defined, before and after each side of each choice is tried.
pub fn tells_all(rt: &impl Abort, alloc: Global, branch: &mut Branch) -> Result<(), NoMemory> {
    let facts = facts_of(alloc, branch.parts())?;
    let mut walk = start(rt, alloc, branch, &facts)?;
    try_pairs(rt, alloc, branch, &mut walk)
}

/// Goes down a branch of the relation to where nothing is open, and up again.
pub fn walk_down(rt: &impl Abort, alloc: Global, saturated: &Saturated) -> Result<(), NoMemory> {
    let mut branch = Branch::of(alloc, saturated)?;
    let facts = facts_of(alloc, branch.parts())?;
    let mut walk = start(rt, alloc, &branch, &facts)?;
    go_down(rt, alloc, &mut branch, &mut walk)?;
    go_up(rt, alloc, &mut branch, &mut walk)
}

/// Tries sides of choices on a branch of the relation.
fn try_branch(rt: &impl Abort, alloc: Global, saturated: &Saturated) -> Result<(), NoMemory> {
    let mut branch = Branch::of(alloc, saturated)?;
    tells_all(rt, alloc, &mut branch)
}

#[test]
fn branches_tell_what_is_defined(rt: HostRuntime) -> Result<(), Fail> {
    let mut dice = Dice::of(4);
    for _ in 0..60 {
        let parts = parts_by(rt.alloc(), &mut dice)?;
        if parts.is_good() {
            let saturated = saturated_of(&rt, rt.alloc(), &parts)?;
            try_branch(&rt, rt.alloc(), &saturated)?;
        }
    }
    Ok(())
}

/// A branch of so many transactions.
fn is_long(rt: &impl Abort, alloc: Global, count: u64) -> Result<(), NoMemory> {
    let whole = stored_by(alloc, &mut Dice::of(count), count)?;
    let saturated = saturated_of(rt, alloc, &whole)?;
    walk_down(rt, alloc, &saturated)
}

#[test]
fn long_branches_tell_what_is_defined(rt: HostRuntime) -> Result<(), Fail> {
    for count in [12, 24, 40] {
        is_long(&rt, rt.alloc(), count)?;
    }
    Ok(())
}
