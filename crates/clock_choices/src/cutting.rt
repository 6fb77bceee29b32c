// What a cut leaves of the steps of a relation.
ghost use Rattle.std.specs.Prelude.{◌≡◌, ◌+◌, ◌-◌, ◌^◌, ◌<◌, ◌≤◌, ◌++◌, ◌∷◌, [], ℕ, List, All, IfOk, OnOk, if◌then◌else◌, length};
ghost use Rattle.txn.specs.declared.choices.Arc.{Arc};
ghost use Rattle.session_clocks.specs.Drops.{arc_stays, id_stays};
ghost use Rattle.clock_choices.specs.LeftSteps.{IsCount, steps_left};
ghost use Rattle.clock_choices.specs.SaturatedState.{choice_remains};

use crate::steps::Forced;
use order_check::Parts;
use std::alloc::Global;
use txn::{Arc, Choice, NoMemory, TxnId};

/// Whether the reader and both writers of the choice remain.
fn choice_remains(parts: &Parts, choice: Choice) -> bool
    ensures { result ≡ choice_remains parts.now choice }
{
    parts.remaining_at(choice.reader).is_some()
        && parts.remaining_at(choice.writer).is_some()
        && parts.remaining_at(choice.other).is_some()
}

/// Whether the transaction isn't among the first ones of its session, of which so many go.
fn id_stays(left: &[u64], id: TxnId) -> bool
    ensures { result ≡ id_stays left.now id }
{
    let session = usize::from(id.session);
    session >= left.len() || left[session] <= id.number
}

/// Whether both ends of the arc stay.
fn arc_stays(left: &[u64], arc: Arc) -> bool
    ensures { result ≡ arc_stays left.now arc }
{
    id_stays(left, arc.start()) && id_stays(left, arc.end())
}

/// How many arcs at the front were looked at, and how many of them stay.
#[derive(Clone, Copy, Debug)]
pub(crate) struct Count {
    pub seen: usize,
    pub stay: usize,
}

/// Where counting up to a place begins: where it was, or at the front.
fn start_for(count: Count, to: usize) -> Count
    ensures within { result.seen ≤ to }
    ensures count { (left : List ℕ) (arcs : List Arc) → IsCount left arcs count → IsCount left arcs result }
{
    if count.seen <= to {
        return count;
    }
    Count { seen: 0, stay: 0 }
}

/// One more, if so.
fn one_more_if(count: usize, more: bool) -> usize
    requires { count < 2 ^ 64 - 1 }
    ensures { result ≡ count + (if more then 1 else 0) }
{
    if more {
        return count + 1;
    }
    count
}

/// Looks at the arcs up to a place.
fn count_to(left: &[u64], arcs: &[Arc], count: Count, to: usize) -> Count
    requires to { to ≤ length arcs.now }
    requires count { IsCount left.now arcs.now count }
    ensures seen { result.seen ≡ to }
    ensures count { IsCount left.now arcs.now result }
{
    let start = start_for(count, to);
    let mut stay = start.stay;
    for place in start.seen..to {
        stay = one_more_if(stay, arc_stays(left, arcs[place]));
    }
    Count { seen: to, stay }
}

/// Puts a step at the end, if its choice remains, with so many arcs before its own.
fn push_left(
    steps: &mut Vec<Forced>,
    parts: &Parts,
    step: Forced,
    count: usize,
) -> Result<(), NoMemory>
    ensures { OnOk result (steps.new.items ≡ steps.old.items ++ (if choice_remains parts.now step.choice then record step { arcs = count } ∷ [] else [])) }
{
    if !choice_remains(parts, step.choice) {
        return Ok(());
    }
    steps.push(Forced {
        choice: step.choice,
        side: step.side,
        arcs: count,
    })?;
    Ok(())
}

/// Those of whose choices all three remain, with how many of the arcs before each stay.
pub(crate) fn left_steps(
    alloc: Global,
    parts: &Parts,
    left: &[u64],
    arcs: &[Arc],
    steps: &[Forced],
) -> Result<Vec<Forced>, NoMemory>
    requires { All (λ step. step.arcs ≤ length arcs.now) steps.now }
    ensures { IfOk result (λ found. found.items ≡ steps_left parts.now left.now arcs.now steps.now) }
{
    let mut found = Vec::new(alloc);
    let mut count = Count { seen: 0, stay: 0 };
    for step in steps {
        count = count_to(left, arcs, count, step.arcs);
        push_left(&mut found, parts, *step, count.stay)?;
    }
    Ok(found)
}
