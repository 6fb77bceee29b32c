//! Whether all that a known relation tells of its parts is as the plain computation has it.
ghost use Rattle.std.specs.Prelude.{All, IsTrue};
ghost use Rattle.order_check.specs.Based.{Remains};

use crate::steps::{are_forced, logged_steps};
use clock_choices::Saturated;
use order_check::Parts;
use std::alloc::Global;
use std::process::Abort;
use test_histories::{Facts, Relation, facts_of, is_open, known_with};
use txn::{Choice, NoMemory, TxnId};

fn is_row(saturated: &Saturated, facts: &Facts, known: &Relation, earlier: TxnId) -> bool {
    facts.ids.iter().all(|later| {
        saturated.reaches(earlier, *later) == known.contains((earlier, *later))
    })
}

fn is_relation(saturated: &Saturated, facts: &Facts, known: &Relation) -> bool {
    for earlier in &facts.ids {
        if !is_row(saturated, facts, known, *earlier) {
            return false;
        }
    }
    true
}

/// The open choices, in their order.
fn open_in(alloc: Global, facts: &Facts, known: &Relation) -> Result<Vec<Choice>, NoMemory> {
    let mut open = Vec::new(alloc);
    for choice in &facts.choices {
        if is_open(known, *choice) {
            open.push(*choice)?;
        }
    }
    Ok(open)
}

/// Whether the first so many are these, and all are counted.
fn are_first_open(
    alloc: Global,
    saturated: &Saturated,
    open: &[Choice],
    most: usize,
) -> Result<bool, NoMemory> {
    let listed = saturated.first_open(alloc, most)?;
    let first = open.get(..most).unwrap_or(open);
    Ok(listed.count == open.len() && listed.first.as_slice() == first)
}

/// Whether these are the open choices, also where some of them alone are asked for.
fn are_open(alloc: Global, saturated: &Saturated, open: &[Choice]) -> Result<bool, NoMemory> {
    for most in [0, 1, 2, 6, 1000] {
        if !are_first_open(alloc, saturated, open, most)? {
            return Ok(false);
        }
    }
    let listed = saturated.open_choices(alloc)?;
    Ok(listed.as_slice() == open)
}

/// Whether each step of the log was forced, and all that is known comes of the arcs and the log's sides.
fn is_full_log(
    rt: &impl Abort,
    alloc: Global,
    saturated: &Saturated,
    facts: &Facts,
) -> Result<bool, NoMemory> {
    let mut standing = Relation::none(alloc, facts.ids.as_slice())?;
    standing.note_all(facts.plain.as_slice());
    let steps = logged_steps(rt, alloc, saturated)?;
    let forced = are_forced(facts, &mut standing, steps.as_slice());
    standing.close();
    Ok(forced && is_relation(saturated, facts, &standing))
}

fn all_remain(parts: &Parts, ids: &[TxnId]) -> bool
    ensures { IsTrue result → All (Remains parts.now) ids.now }
{
    ids.iter().all(|id| parts.remaining_at(*id).is_some())
}

/// Those of the ids that are known to come before or after each of the others but themselves.
fn ordered_in(
    alloc: Global,
    known: &Relation,
    ids: &[TxnId],
    others: &[TxnId],
) -> Result<Vec<TxnId>, NoMemory> {
    let mut ordered = Vec::new(alloc);
    for id in ids {
        let one = *id;
        if others.iter().all(|other| {
            one == *other || known.contains((one, *other)) || known.contains((*other, one))
        }) {
            ordered.push(one)?;
        }
    }
    Ok(ordered)
}

/// Stops unless those of the ids are told that are ordered with all of the others.
fn tells_ordered(
    rt: &impl Abort,
    alloc: Global,
    saturated: &Saturated,
    known: &Relation,
    ids: &[TxnId],
    others: &[TxnId],
) -> Result<(), NoMemory> {
    assert!(rt; all_remain(saturated.parts(), ids));
    assert!(rt; all_remain(saturated.parts(), others));
    let told = saturated.ordered_with_all(alloc, ids, others)?;
    let ordered = ordered_in(alloc, known, ids, others)?;
    assert!(rt; told.as_slice() == ordered.as_slice());
    Ok(())
}

/// Stops unless those are told that are ordered with all, with each one, and with some.
fn tells_all_ordered(
    rt: &impl Abort,
    alloc: Global,
    saturated: &Saturated,
    known: &Relation,
    ids: &[TxnId],
) -> Result<(), NoMemory> {
    tells_ordered(rt, alloc, saturated, known, ids, ids)?;
    tells_ordered(rt, alloc, saturated, known, ids, &[])?;
    tells_ordered(rt, alloc, saturated, known, &[], ids)?;
    for place in 0..ids.len() {
        let (front, back) = ids.split_at(place);
        tells_ordered(rt, alloc, saturated, known, front, back)?;
        tells_ordered(rt, alloc, saturated, known, ids, front)?;
        tells_ordered(rt, alloc, saturated, known, ids, &[ids[place]])?;
    }
    Ok(())
}

/// Whether what remains, the relation, the open choices and the log are as they are defined.
fn is_known(
    rt: &impl Abort,
    alloc: Global,
    saturated: &Saturated,
    facts: &Facts,
    known: &Relation,
) -> Result<bool, NoMemory> {
    let ids = saturated.ids(alloc)?;
    let open = open_in(alloc, facts, known)?;
    let opens = are_open(alloc, saturated, open.as_slice())?;
    let full = is_full_log(rt, alloc, saturated, facts)?;
    let same = ids.as_slice() == facts.ids.as_slice();
    Ok(same && opens && full && is_relation(saturated, facts, known))
}

/// Stops unless all that the relation tells is as it is defined, but for who is ordered with whom.
pub fn is_as_defined(
    rt: &impl Abort,
    alloc: Global,
    saturated: &Saturated,
) -> Result<(), NoMemory> {
    let facts = facts_of(alloc, saturated.parts())?;
    let known = known_with(alloc, &facts, &[])?;
    assert!(rt; is_known(rt, alloc, saturated, &facts, &known)?);
    Ok(())
}

/// Stops unless all that the relation tells is as it is defined.
pub fn is_all_as_defined(
    rt: &impl Abort,
    alloc: Global,
    saturated: &Saturated,
) -> Result<(), NoMemory> {
    let facts = facts_of(alloc, saturated.parts())?;
    let known = known_with(alloc, &facts, &[])?;
    assert!(rt; is_known(rt, alloc, saturated, &facts, &known)?);
    tells_all_ordered(rt, alloc, saturated, &known, facts.ids.as_slice())
}
