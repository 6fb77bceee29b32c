// The cycle that the other side of a step would close.
ghost use Rattle.std.specs.Prelude.{◌≡◌, ◌↔◌, ◌<◌, ◌++◌, ℕ, List, Contains, IfOk, IsTrue, MatchOption, OnOk};
ghost use Rattle.txn.specs.declared.transactions.Source.{Source};
ghost use Rattle.txn.specs.declared.choices.Arc.{Arc};
ghost use Rattle.order_check.specs.Based.{Remains};
ghost use Rattle.order_check.specs.Cycles.{IsForced, Sides};
ghost use Rattle.order_check.specs.Known.{ReadsKey, WritesKey};
ghost use Rattle.clock_choices.specs.Cycling.{AreLookedUp, Fits, IsRightOf};
ghost use Rattle.clock_choices.specs.Logging.{HasRight, IsStepFrom};
ghost use Rattle.clock_choices.specs.Over.{IsOver};

use crate::indexing::is_base_source;
use crate::steps::Forced;
use order_check::Parts;
use session_clocks::Graph;
use std::alloc::Global;
use txn::{Arc, NoMemory, Sequence, Source, TxnId};

/// Whether a remaining transaction writes the key.
fn writes(parts: &Parts, key: u64, id: TxnId) -> bool
    ensures { IsTrue result ↔ WritesKey parts.now id key }
{
    match parts.remaining_at(id) {
        Some(txn) => txn.writes.as_slice().contains(&key),
        None => false,
    }
}

/// Whether a read of the key is from the base, or from the other transaction, and that writes the key.
fn fits(parts: &Parts, other: TxnId, base: bool, key: u64, source: Source) -> bool
    ensures { IsTrue result ↔ Fits parts.now other base key source }
{
    if !writes(parts, key, other) {
        return false;
    }
    if base {
        return is_base_source(parts, key, source);
    }
    source == Source::By(other)
}

/// What a transaction reads.
fn reads_of(parts: &Parts, id: TxnId) -> &[(u64, Source)]
    ensures { (key : ℕ) (source : Source) → Contains result.now (key, source) ↔ ReadsKey parts.now id key source }
{
    match parts.remaining_at(id) {
        Some(txn) => txn.reads.as_slice(),
        None => &[],
    }
}

/// The key of the reader's first such read.
fn key_of(parts: &Parts, reader: TxnId, other: TxnId, base: bool) -> Option<u64>
    ensures { MatchOption result
        ((key : ℕ) (source : Source) → ReadsKey parts.now reader key source → ¬ Fits parts.now other base key source)
        (λ key. (source : Source) × ReadsKey parts.now reader key source × Fits parts.now other base key source) }
{
    let list = reads_of(parts, reader);
    for (key, source) in list {
        if fits(parts, other, base, *key, *source) {
            return Some(*key);
        }
    }
    None
}

/// Whether the one remains, before the other in its session.
fn is_before(parts: &Parts, from: TxnId, to: TxnId) -> bool
    ensures { IsTrue result ↔ (Remains parts.now from × Remains parts.now to × (from.session ≡ to.session) × (from.number < to.number)) }
{
    from.session == to.session
        && from.number < to.number
        && parts.remaining_at(from).is_some()
        && parts.remaining_at(to).is_some()
}

/// A right arc from the one to the other: a side that is taken, if there is no other one.
fn right_arc(parts: &Parts, from: TxnId, to: TxnId) -> Arc
    ensures { (sides : Sides) → HasRight parts.now sides from to → IsRightOf parts.now sides from to result }
{
    if is_before(parts, from, to) {
        return Arc::Session { from, to };
    }
    if let Some(key) = key_of(parts, to, from, false) {
        return Arc::Read { key, from, to };
    }
    if from == to {
        return Arc::Taken { from, to };
    }
    match key_of(parts, from, to, true) {
        Some(key) => Arc::Base { key, from, to },
        None => Arc::Taken { from, to },
    }
}

/// Puts right arcs at the end, one for each of these.
pub(crate) fn push_right_arcs(
    found: &mut Vec<Arc>,
    parts: &Parts,
    path: &[Arc],
) -> Result<(), NoMemory>
    ensures { OnOk result ((more : List Arc) × (found.new.items ≡ found.old.items ++ more) × AreLookedUp parts.now path.now more) }
{
    for arc in path {
        found.push(right_arc(parts, arc.start(), arc.end()))?;
    }
    Ok(())
}

/// The cycle that the other side of a step would close, where the sides before it are taken.
pub(crate) fn cycle_of_step(
    alloc: Global,
    parts: &Parts,
    graph: &Graph,
    step: Forced,
) -> Result<Sequence<Arc>, NoMemory>
    requires { (taken : Sides) × IsOver parts.now graph.now.gone graph.now.received × IsStepFrom parts.now graph.now.gone graph.now.received graph.now.arcs taken step }
    ensures { IfOk result (λ cycle. (taken : Sides) → IsOver parts.now graph.now.gone graph.now.received → IsStepFrom parts.now graph.now.gone graph.now.received graph.now.arcs taken step
        → IsForced parts.now taken (record { choice = step.choice; side = step.side; cycle = cycle })) }
{
    let (from, to) = step.premise();
    let Some(path) = graph.path_within(alloc, step.arcs, from, to)? else {
        unreachable!()
    };
    let mut cycle = Vec::new(alloc);
    cycle.push(Arc::Taken { from: to, to: from })?;
    push_right_arcs(&mut cycle, parts, path.as_slice())?;
    Ok(Sequence::new(cycle))
}
