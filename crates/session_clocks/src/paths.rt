// Paths of arcs and along sessions, found from the goal backwards.
ghost use Rattle.std.specs.Prelude.{◌≡◌, ◌↔◌, ◌+◌, ◌-◌, ◌^◌, ◌<◌, ◌≤◌, ℕ, List, [], ◌++◌, IsTrue, All, Contains, IfOk, OnOk, MatchOption, length, replicate, slice_index, slice_set};
ghost use Rattle.txn.specs.declared.choices.Arc.{Arc};
ghost use Rattle.txn.specs.Arcs.{start_of, end_of};
ghost use Rattle.session_clocks.specs.Paths.{IsPathOf, Leads};
ghost use Rattle.session_clocks.specs.Reach.{IsThere, Reaches};
ghost use Rattle.session_clocks.specs.Trees.{IsAlong, IsBefore, IsBetween, IsLed, IsTakenOr, IsTreeOf, IsWhole, AreNearer, HasLooked, LeadsOn, along};

use crate::near::find_near;
use crate::nodes::Incoming;
use std::alloc::Global;
use txn::{Arc, NoMemory, Sequence, TxnId};

/// Whether the number is below that of its session.
pub(crate) fn is_led(tops: &[u64], id: TxnId) -> bool
    ensures { IsTrue result ↔ IsLed tops.now id }
{
    match tops.get(usize::from(id.session)) {
        Some(top) => id.number < *top,
        None => false,
    }
}

/// Takes the arc to the tree if it leads on from a transaction from which none does yet.
pub(crate) fn take_arc(
    tree: &mut Vec<Arc>,
    tops: &mut [u64],
    goal: TxnId,
    arc: Arc,
) -> Result<bool, NoMemory>
    requires session { (start_of arc).session < length tops.old }
    requires number { (start_of arc).number < 2 ^ 64 - 1 }
    ensures { IfOk result (λ taken. IsTakenOr taken goal arc tops.old tree.old.items tops.new tree.new.items) }
{
    let start = arc.start();
    let end = arc.end();
    if end != goal && !is_led(tops, end) {
        return Ok(false);
    }
    if is_led(tops, start) {
        return Ok(false);
    }
    tree.push(arc)?;
    tops[usize::from(start.session)] = start.number + 1;
    Ok(true)
}

/// Takes each arc that leads on, from the last to the first; whether there was one.
fn take_arcs(
    tree: &mut Vec<Arc>,
    tops: &mut [u64],
    received: &[u64],
    goal: TxnId,
    arcs: &[Arc],
) -> Result<bool, NoMemory>
    requires tree { IsTreeOf received.now goal arcs.now tops.old tree.old.items }
    requires starts { All (λ arc. (start_of arc).number < slice_index received.now (start_of arc).session) arcs.now }
    ensures tree { OnOk result (IsTreeOf received.now goal arcs.now tops.new tree.new.items) }
    ensures looked { IfOk result (λ taken. HasLooked taken received.now goal arcs.now tops.old tops.new) }
{
    let mut taken = false;
    for place in (0..arcs.len()).rev() {
        if take_arc(tree, tops, goal, arcs[place])? {
            taken = true;
        }
    }
    Ok(taken)
}

/// For each session the number below which nothing but its order leads to the goal.
pub(crate) fn tops_of(alloc: Global, sessions: usize, goal: TxnId) -> Result<Vec<u64>, NoMemory>
    requires { goal.session < sessions }
    ensures { IfOk result (λ tops. tops.items ≡ slice_set (replicate sessions 0) goal.session goal.number) }
{
    let mut tops = Vec::new(alloc);
    tops.resize(sessions, 0)?;
    tops[usize::from(goal.session)] = goal.number;
    Ok(tops)
}

/// Arcs that lead to the goal, and for each session the number below which they do so or its order does: from every transaction
/// from which one comes there.
fn tree_to(
    alloc: Global,
    received: &[u64],
    arcs: &[Arc],
    goal: TxnId,
) -> Result<(Vec<Arc>, Vec<u64>), NoMemory>
    requires goal { goal.number < slice_index received.now goal.session }
    requires starts { All (λ arc. (start_of arc).number < slice_index received.now (start_of arc).session) arcs.now }
    ensures tree { IfOk result (λ made. IsTreeOf received.now goal arcs.now made.1.items made.0.items) }
    ensures whole { IfOk result (λ made. IsWhole goal made.1.items arcs.now) }
{
    let mut tops = tops_of(alloc, received.len(), goal)?;
    let mut tree = Vec::new(alloc);
    let mut goes_on = true;
    while goes_on {
        goes_on = take_arcs(&mut tree, &mut tops, received, goal, arcs)?;
    }
    Ok((tree, tops))
}

/// Whether the one stands before the other in its session.
fn is_before(goal: TxnId, id: TxnId) -> bool
    ensures { IsTrue result ↔ IsBefore goal id }
{
    id.session == goal.session && id.number < goal.number
}

/// Whether the one is the other or stands before it in its session.
fn is_along(id: TxnId, other: TxnId) -> bool
    ensures { IsTrue result ↔ IsAlong id other }
{
    id.session == other.session && id.number <= other.number
}

/// Puts the step along a session from the one to the other behind the path, if they aren't one.
fn push_along(path: &mut Vec<Arc>, from: TxnId, to: TxnId) -> Result<(), NoMemory>
    requires { IsAlong from to }
    ensures { OnOk result (path.new.items ≡ path.old.items ++ along from to) }
{
    if from.number < to.number {
        path.push(Arc::Session { from, to })?;
    }
    Ok(())
}

/// The way from the start to the goal along the tree, whose arcs are gone through from the last to the first.
pub(crate) fn walk(
    alloc: Global,
    tree: &[Arc],
    start: TxnId,
    goal: TxnId,
) -> Result<Sequence<Arc>, NoMemory>
    requires nearer { AreNearer goal tree.now }
    requires leads { LeadsOn goal tree.now start }
    ensures { IfOk result (λ path. (gone received : List ℕ) → IsThere gone received start → IsThere gone received goal
        → All (IsBetween gone received) tree.now → IsPathOf gone received tree.now start path goal) }
{
    let mut path = Vec::new(alloc);
    let mut here = start;
    for place in (0..tree.len()).rev() {
        if is_before(goal, here) {
            break;
        }
        let arc = tree[place];
        if !is_along(here, arc.start()) {
            continue;
        }
        push_along(&mut path, here, arc.start())?;
        path.push(arc)?;
        here = arc.end();
        if here == goal {
            return Ok(Sequence::new(path));
        }
    }
    push_along(&mut path, here, goal)?;
    Ok(Sequence::new(path))
}

/// One or more steps that lead from the start to the goal, if there are any, by a search of all arcs.
fn find_anywhere(
    alloc: Global,
    gone: &[u64],
    received: &[u64],
    arcs: &[Arc],
    start: TxnId,
    goal: TxnId,
) -> Result<Option<Sequence<Arc>>, NoMemory>
    requires arcs { All (IsBetween gone.now received.now) arcs.now }
    requires start { IsThere gone.now received.now start }
    requires goal { IsThere gone.now received.now goal }
    ensures { IfOk result (λ found. MatchOption found (¬ Reaches gone.now received.now arcs.now start goal)
        (λ path. Reaches gone.now received.now arcs.now start goal × IsPathOf gone.now received.now arcs.now start path goal)) }
{
    let (tree, tops) = tree_to(alloc, received, arcs, goal)?;
    if !is_led(&tops, start) {
        return Ok(None);
    }
    let path = walk(alloc, &tree, start, goal)?;
    Ok(Some(path))
}

/// One or more steps that lead from the start to the goal, if there are any. In each session what has this number or a higher one is looked at
/// first.
pub(crate) fn find_path(
    alloc: Global,
    gone: &[u64],
    received: &[u64],
    arcs: &[Arc],
    incoming: &Incoming,
    lows: &[u64],
    start: TxnId,
    goal: TxnId,
) -> Result<Option<Sequence<Arc>>, NoMemory>
    requires arcs { All (IsBetween gone.now received.now) arcs.now }
    requires start { IsThere gone.now received.now start }
    requires goal { IsThere gone.now received.now goal }
    ensures { IfOk result (λ found. MatchOption found (¬ Reaches gone.now received.now arcs.now start goal)
        (λ path. Reaches gone.now received.now arcs.now start goal × IsPathOf gone.now received.now arcs.now start path goal)) }
{
    match find_near(alloc, gone, received, arcs, incoming, lows, start, goal)? {
        Some(path) => Ok(Some(path)),
        None => find_anywhere(alloc, gone, received, arcs, start, goal),
    }
}
