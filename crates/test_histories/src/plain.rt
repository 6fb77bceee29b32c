//! The known relation, plainly: a table of pairs that grows until no rule gives another.
use crate::closure::{Pair, Relation};
use order_check::Parts;
use std::alloc::Global;
use txn::Source::{self, By, Init};
use txn::{Choice, NoMemory, TxnId};

/// What is there from the start.
#[derive(Drop)]
pub struct Facts {
    pub ids: Vec<TxnId>,
    pub plain: Vec<Pair>,
    pub choices: Vec<Choice>,
    bad: bool,
}

fn ids_of(alloc: Global, parts: &Parts) -> Result<Vec<TxnId>, NoMemory> {
    let mut ids = Vec::new(alloc);
    for session in 0..3 {
        for number in 0..80 {
            let id = TxnId { session, number };
            if parts.remaining_at(id).is_some() {
                ids.push(id)?;
            }
        }
    }
    Ok(ids)
}

/// The source is what stands before all that remains.
fn is_of_base(parts: &Parts, key: u64, source: Source) -> bool {
    match source {
        Init => parts.last_gone(key).is_none(),
        By(writer) => parts.last_gone(key) == Some(writer),
    }
}

/// Notes what a read tells of a writer of its key: it comes before the reader that read from it, behind one that read from the base,
/// and is the other writer of a choice where the reader read from another one.
fn note_writer(
    facts: &mut Facts,
    parts: &Parts,
    reader: TxnId,
    key: u64,
    source: Source,
    other: TxnId,
) -> Result<(), NoMemory> {
    match source {
        By(writer) if writer == other => facts.plain.push((writer, reader))?,
        By(writer) if other != reader && parts.writes(writer, key) => {
            facts.choices.push(Choice {
                reader,
                key,
                writer,
                other,
            })?;
        }
        _ if other != reader && is_of_base(parts, key, source) => {
            facts.plain.push((reader, other))?;
        }
        _ => {}
    }
    Ok(())
}

fn note_reads(
    facts: &mut Facts,
    parts: &Parts,
    ids: &[TxnId],
    reader: TxnId,
) -> Result<(), NoMemory> {
    for (key, source) in parts.reads_of(reader) {
        if parts.is_silent(*key, *source) || parts.is_overwritten(*key, *source) {
            facts.bad = true;
        }
        for other in ids {
            if parts.writes(*other, *key) {
                note_writer(facts, parts, reader, *key, *source, *other)?;
            }
        }
    }
    Ok(())
}

fn note_session(facts: &mut Facts, ids: &[TxnId], from: TxnId) -> Result<(), NoMemory> {
    for to in ids {
        if from.session == to.session && from.number < to.number {
            facts.plain.push((from, *to))?;
        }
    }
    Ok(())
}

pub fn facts_of(alloc: Global, parts: &Parts) -> Result<Facts, NoMemory> {
    let ids = ids_of(alloc, parts)?;
    let mut facts = Facts {
        ids: Vec::new(alloc),
        plain: Vec::new(alloc),
        choices: Vec::new(alloc),
        bad: false,
    };
    for id in &ids {
        note_session(&mut facts, ids.as_slice(), *id)?;
        note_reads(&mut facts, parts, ids.as_slice(), *id)?;
    }
    facts.ids = ids;
    Ok(facts)
}

/// A pair that the choice gives, and that isn't there.
fn forced(known: &Relation, choice: Choice) -> Option<Pair> {
    let after = (choice.reader, choice.other);
    let before = (choice.other, choice.writer);
    if known.contains((choice.writer, choice.other)) && !known.contains(after) {
        return Some(after);
    }
    if known.contains((choice.other, choice.reader)) && !known.contains(before) {
        return Some(before);
    }
    None
}

/// Adds the pairs that the choices give; whether there were some.
fn grow(known: &mut Relation, choices: &[Choice]) -> bool {
    let mut more = false;
    for choice in choices {
        if let Some(pair) = forced(known, *choice) {
            known.note(pair);
            more = true;
        }
    }
    more
}

/// What is known with these sides.
pub fn known_with(alloc: Global, facts: &Facts, sides: &[Pair]) -> Result<Relation, NoMemory> {
    let mut known = Relation::none(alloc, facts.ids.as_slice())?;
    known.note_all(facts.plain.as_slice());
    known.note_all(sides);
    for _ in 0..1_000_000 {
        known.close();
        if !grow(&mut known, facts.choices.as_slice()) {
            break;
        }
    }
    Ok(known)
}

pub fn is_open(known: &Relation, choice: Choice) -> bool {
    !known.contains((choice.writer, choice.other))
        && !known.contains((choice.other, choice.reader))
        && !known.contains((choice.other, choice.writer))
        && !known.contains((choice.reader, choice.other))
}

/// The pair that a side of the choice is.
pub fn side_of(choice: Choice, first: bool) -> Pair {
    if first {
        (choice.other, choice.writer)
    } else {
        (choice.reader, choice.other)
    }
}

/// A node as it is looked at.
pub enum Node {
    Closed,
    Decided,
    Open(Choice),
}

fn node_of(facts: &Facts, known: &Relation) -> Node {
    if facts.bad || known.has_cycle() {
        return Node::Closed;
    }
    for choice in &facts.choices {
        if is_open(known, *choice) {
            return Node::Open(*choice);
        }
    }
    Node::Decided
}

pub fn look(alloc: Global, facts: &Facts, sides: &[Pair]) -> Result<Node, NoMemory> {
    let known = known_with(alloc, facts, sides)?;
    Ok(node_of(facts, &known))
}
