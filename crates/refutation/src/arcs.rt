ghost use Rattle.std.specs.Prelude.{◌≡◌, ◌↔◌, Any, Contains, IsTrue, reverse};
ghost use Rattle.txn.specs.History.{reads_in};
ghost use Rattle.order_check.specs.Based.{remaining_at};
ghost use Rattle.order_check.specs.BadReads.{IsSilent, IsOverwritten};
ghost use Rattle.order_check.specs.Cycles.{IsArc, IsPath, IsCycle};
ghost use Rattle.order_check.specs.Known.{ReadsBase, IsBaseSource, IsChoice};

use order_check::Front;
use txn::{Arc, Choice, Source, TxnId};

/// The source that a read of the key from the base names.
fn base_source(parts: &Front<'_>, key: u64) -> Source
    ensures { IsBaseSource parts.now key result }
{
    match parts.last_gone(key) {
        Some(writer) => Source::By(writer),
        None => Source::Init,
    }
}

fn reads_base(parts: &Front<'_>, id: TxnId, key: u64) -> bool
    ensures { IsTrue result ↔ ReadsBase parts.now id key }
{
    parts.reads(id, key, base_source(parts, key))
}

pub fn is_choice(parts: &Front<'_>, choice: Choice) -> bool
    ensures { IsTrue result ↔ IsChoice parts.now choice }
{
    parts.reads(choice.reader, choice.key, Source::By(choice.writer))
        && parts.writes(choice.writer, choice.key)
        && parts.writes(choice.other, choice.key)
        && choice.other != choice.writer
        && choice.other != choice.reader
}

fn is_among(sides: &[(TxnId, TxnId)], side: (TxnId, TxnId)) -> bool
    ensures { IsTrue result ↔ Contains sides.now side }
{
    sides.contains(&side)
}

/// Whether the side is among those taken, the last one last.
fn is_taken(taken: &[(TxnId, TxnId)], side: (TxnId, TxnId)) -> bool
    ensures { IsTrue result ↔ Contains (reverse taken.now) side }
{
    is_among(taken, side)
}

/// Whether the arc is right where these sides are taken, the last one last.
fn is_arc(parts: &Front<'_>, taken: &[(TxnId, TxnId)], arc: Arc) -> bool
    ensures { IsTrue result ↔ IsArc parts.now (reverse taken.now) arc }
{
    match arc {
        Arc::Session { from, to } => {
            parts.remains(from)
                && parts.remains(to)
                && from.session == to.session
                && from.number < to.number
        }
        Arc::Read { key, from, to } => {
            parts.reads(to, key, Source::By(from)) && parts.writes(from, key)
        }
        Arc::Base { key, from, to } => {
            reads_base(parts, from, key) && parts.writes(to, key) && to != from
        }
        Arc::Taken { from, to } => is_taken(taken, (from, to)),
    }
}

/// Whether the arcs are a right path between the two.
#[tactic(auto, using(crate::proofs::Paths::path_step))]
fn is_path(
    parts: &Front<'_>,
    taken: &[(TxnId, TxnId)],
    start: TxnId,
    arcs: &[Arc],
    goal: TxnId,
) -> bool
    ensures { IsTrue result ↔ IsPath parts.now (reverse taken.now) start arcs.now goal }
{
    let mut at = start;
    for arc in arcs {
        if arc.start() != at || !is_arc(parts, taken, *arc) {
            return false;
        }
        at = arc.end();
    }
    at == goal
}

pub fn is_cycle(parts: &Front<'_>, taken: &[(TxnId, TxnId)], arcs: &[Arc]) -> bool
    ensures { IsTrue result ↔ IsCycle parts.now (reverse taken.now) arcs.now }
{
    match arcs.first() {
        Some(arc) => is_path(parts, taken, arc.start(), arcs, arc.start()),
        None => false,
    }
}

/// Whether the transaction reads the key from one that remains and doesn't write it.
pub fn is_no_write(parts: &Front<'_>, reader: TxnId, key: u64) -> bool
    ensures { IsTrue result ↔ Any (λ read. (read.0 ≡ key) × IsSilent parts.now key read.1) (reads_in (remaining_at parts.now reader)) }
{
    parts
        .reads_of(reader)
        .iter()
        .any(|read| read.0 == key && parts.is_silent(key, read.1))
}

/// Whether the transaction reads the key from what is gone, but not from what the base has for the key.
pub fn is_gone_read(parts: &Front<'_>, reader: TxnId, key: u64) -> bool
    ensures { IsTrue result ↔ Any (λ read. (read.0 ≡ key) × IsOverwritten parts.now key read.1) (reads_in (remaining_at parts.now reader)) }
{
    parts
        .reads_of(reader)
        .iter()
        .any(|read| read.0 == key && parts.is_overwritten(key, read.1))
}
