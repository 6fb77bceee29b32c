// A path that is found by looking only at what lies between its ends, as the clocks tell.
ghost use Rattle.std.specs.Prelude.{◌≡◌, ◌<◌, All, IfOk, IfSome, OnOk, length, slice_index};
ghost use Rattle.txn.specs.declared.choices.Arc.{Arc};
ghost use Rattle.txn.specs.Arcs.{start_of, end_of};
ghost use Rattle.session_clocks.specs.Paths.{IsPathOf};
ghost use Rattle.session_clocks.specs.Reach.{IsThere};
ghost use Rattle.session_clocks.specs.Trees.{IsBetween, IsTreeOf};

use crate::nodes::Incoming;
use crate::paths::{is_led, take_arc, tops_of, walk};
use std::alloc::Global;
use txn::{Arc, NoMemory, Sequence, TxnId};

/// How many transactions are looked at for one path. Where it isn't found among them, it is left to the search that looks at all arcs.
const MOST_LOOKED: usize = 1 << 16;

/// Transactions of a session that are still to be looked at: from this one down to the lowest that may lie behind the start.
#[derive(Clone, Copy, Debug)]
struct Stretch {
    last: TxnId,
    low: u64,
}

/// What is next.
enum Next {
    /// To look at the arcs that end at the last of these.
    Look(Stretch),
    /// To take the arc at this place, a side of a choice.
    Take(usize),
    Nothing,
}

/// What is still to be done, the first first.
#[derive(Drop, Debug)]
struct Ahead {
    stretches: Vec<Stretch>,
    /// How many of these were looked at.
    looked: usize,
    /// Where sides of choices are.
    sides: Vec<usize>,
    /// How many of these were taken or passed.
    tried: usize,
}

impl Ahead {
    fn nothing(alloc: Global) -> Ahead {
        Ahead {
            stretches: Vec::new(alloc),
            looked: 0,
            sides: Vec::new(alloc),
            tried: 0,
        }
    }

    /// Puts the transactions of its session up to this one at the end, if it may lie behind the start.
    fn push(&mut self, lows: &[u64], last: TxnId) -> Result<(), NoMemory> {
        if let Some(low) = lows.get(usize::from(last.session)) {
            if *low <= last.number {
                self.stretches.push(Stretch { last, low: *low })?;
            }
        }
        Ok(())
    }

    /// Puts those before the last, which is looked at now, at the end.
    fn push_rest(&mut self, stretch: Stretch) -> Result<(), NoMemory> {
        if stretch.low < stretch.last.number {
            let last = TxnId {
                session: stretch.last.session,
                number: stretch.last.number - 1,
            };
            let low = stretch.low;
            self.stretches.push(Stretch { last, low })?;
        }
        Ok(())
    }

    /// What is next: a side of a choice only where nothing else is.
    fn next(&mut self) -> Next {
        if let Some(stretch) = self.stretches.get(self.looked).copied() {
            self.looked = self.looked.saturating_add(1);
            return Next::Look(stretch);
        }
        if let Some(place) = self.sides.get(self.tried).copied() {
            self.tried = self.tried.saturating_add(1);
            return Next::Take(place);
        }
        Next::Nothing
    }
}

/// Whether the transaction may lie behind the start.
fn is_near(lows: &[u64], id: TxnId) -> bool {
    match lows.get(usize::from(id.session)) {
        Some(low) => *low <= id.number,
        None => false,
    }
}

/// Takes the arc if it leads on from a transaction that may lie behind the start and from which none does yet. That is to be looked at
/// then.
fn take_near(
    tree: &mut Vec<Arc>,
    tops: &mut [u64],
    ahead: &mut Ahead,
    lows: &[u64],
    received: &[u64],
    goal: TxnId,
    arcs: &[Arc],
    place: usize,
) -> Result<(), NoMemory>
    requires tree { IsTreeOf received.now goal arcs.now tops.old tree.old.items }
    requires starts { All (λ arc. (start_of arc).number < slice_index received.now (start_of arc).session) arcs.now }
    ensures tree { OnOk result (IsTreeOf received.now goal arcs.now tops.new tree.new.items) }
{
    if place >= arcs.len() {
        return Ok(());
    }
    let arc = arcs[place];
    if !is_near(lows, arc.start()) {
        return Ok(());
    }
    if take_arc(tree, tops, goal, arc)? {
        ahead.push(lows, arc.start())?;
    }
    Ok(())
}

/// Whether the arc is a side of a choice that was taken.
fn is_taken(arcs: &[Arc], place: usize) -> bool {
    match arcs.get(place) {
        Some(Arc::Taken { .. }) => true,
        _ => false,
    }
}

/// Takes those of the arcs that end at the transaction which lead on, but for sides of choices: these are left for later.
fn take_all_near(
    tree: &mut Vec<Arc>,
    tops: &mut [u64],
    ahead: &mut Ahead,
    lows: &[u64],
    received: &[u64],
    goal: TxnId,
    arcs: &[Arc],
    incoming: &Incoming,
    id: TxnId,
) -> Result<(), NoMemory>
    requires tree { IsTreeOf received.now goal arcs.now tops.old tree.old.items }
    requires starts { All (λ arc. (start_of arc).number < slice_index received.now (start_of arc).session) arcs.now }
    ensures tree { OnOk result (IsTreeOf received.now goal arcs.now tops.new tree.new.items) }
{
    let mut left = incoming.last(id);
    while left > 0 {
        left -= 1;
        if is_taken(arcs, left) {
            ahead.sides.push(left)?;
        } else {
            take_near(tree, tops, ahead, lows, received, goal, arcs, left)?;
        }
        left = incoming.before(left).min(left);
    }
    Ok(())
}

/// Does what is next; whether there was anything, and the start isn't led yet.
fn go_on(
    tree: &mut Vec<Arc>,
    tops: &mut [u64],
    ahead: &mut Ahead,
    lows: &[u64],
    received: &[u64],
    goal: TxnId,
    arcs: &[Arc],
    incoming: &Incoming,
    start: TxnId,
) -> Result<bool, NoMemory>
    requires tree { IsTreeOf received.now goal arcs.now tops.old tree.old.items }
    requires starts { All (λ arc. (start_of arc).number < slice_index received.now (start_of arc).session) arcs.now }
    ensures tree { OnOk result (IsTreeOf received.now goal arcs.now tops.new tree.new.items) }
{
    if is_led(tops, start) {
        return Ok(false);
    }
    match ahead.next() {
        Next::Look(stretch) => {
            ahead.push_rest(stretch)?;
            take_all_near(
                tree,
                tops,
                ahead,
                lows,
                received,
                goal,
                arcs,
                incoming,
                stretch.last,
            )?;
            Ok(true)
        }
        Next::Take(place) => {
            take_near(tree, tops, ahead, lows, received, goal, arcs, place)?;
            Ok(true)
        }
        Next::Nothing => Ok(false),
    }
}

/// A tree of arcs that lead to the goal, which goes on until the start is led there, nothing is left to be looked at, or enough was. Sides of
/// choices are taken where nothing else leads on: each that a path takes is a step more of a refutation.
fn near_tree(
    alloc: Global,
    received: &[u64],
    arcs: &[Arc],
    incoming: &Incoming,
    lows: &[u64],
    start: TxnId,
    goal: TxnId,
) -> Result<(Vec<Arc>, Vec<u64>), NoMemory>
    requires goal { goal.number < slice_index received.now goal.session }
    requires starts { All (λ arc. (start_of arc).number < slice_index received.now (start_of arc).session) arcs.now }
    ensures { IfOk result (λ made. IsTreeOf received.now goal arcs.now made.1.items made.0.items) }
{
    let mut tops = tops_of(alloc, received.len(), goal)?;
    let mut tree = Vec::new(alloc);
    let mut ahead = Ahead::nothing(alloc);
    ahead.push(lows, goal)?;
    let mut left = MOST_LOOKED;
    let mut goes_on = true;
    while goes_on && left > 0 {
        left -= 1;
        goes_on = go_on(
            &mut tree, &mut tops, &mut ahead, lows, received, goal, arcs, incoming, start,
        )?;
    }
    Ok((tree, tops))
}

/// One or more steps that lead from the start to the goal, where they are found near these. In each session only what has this number or
/// a higher one is looked at.
pub(crate) fn find_near(
    alloc: Global,
    gone: &[u64],
    received: &[u64],
    arcs: &[Arc],
    incoming: &Incoming,
    lows: &[u64],
    start: TxnId,
    goal: TxnId,
) -> Result<Option<Sequence<Arc>>, NoMemory>
    requires arcs { All (IsBetween gone.now received.now) arcs.now }
    requires start { IsThere gone.now received.now start }
    requires goal { IsThere gone.now received.now goal }
    ensures { IfOk result (λ found. IfSome found (λ path. IsPathOf gone.now received.now arcs.now start path goal)) }
{
    let (tree, tops) = near_tree(alloc, received, arcs, incoming, lows, start, goal)?;
    if !is_led(&tops, start) {
        return Ok(None);
    }
    let path = walk(alloc, &tree, start, goal)?;
    Ok(Some(path))
}
