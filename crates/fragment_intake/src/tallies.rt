ghost use Rattle.std.specs.Prelude.{◌≡◌, ◌+◌, ◌<◌, ◌++◌, ◌∷◌, [], List, length, slice_set, slice_index};
ghost use Rattle.crossbeam_queue.specs.Passes.{view, IsPassOf};
ghost use Rattle.fragment_intake.specs.declared.rules.Parcel.{Parcel};
ghost use Rattle.fragment_intake.specs.Collectors.{Counts, IsCollectorOf, LeavesOf};
ghost use Rattle.fragment_intake.specs.Delivers.{of, Tells};

use crate::desks::{AuditorPass, CollectorPass};
use crate::rules::{Line, Parcel, Roles, Takes, View};
use crossbeam_queue::Pass;
use std::sync::Wait;

/// How many parcels of each collector were submitted, taken and left.
#[derive(Clone, Copy, Debug, PartialEq, Eq)]
pub struct Tally {
    pub submitted: [u64; 4],
    pub taken: [u64; 4],
    pub left: [u64; 4],
}

/// Counts one more of the collector.
pub fn count(counts: &mut [u64; 4], collector: u64)
    requires place { collector < 4 }
    requires room { slice_index counts.old collector < 281474976710656 }
    ensures { counts.new ≡ slice_set counts.old collector (slice_index counts.old collector + 1) }
{
    counts[collector as usize] += 1;
}

/// Counts the parcel, and drops it.
fn count_last(counts: &mut [u64; 4], parcel: Parcel)
    requires place { parcel.collector < 4 }
    requires room { slice_index counts.old parcel.collector < 281474976710656 }
    ensures { counts.new ≡ slice_set counts.old parcel.collector (slice_index counts.old parcel.collector + 1) }
{
    count(counts, parcel.collector);
}

/// Takes a collector's part in, and tells how much it has submitted.
fn take_in(line: &Line, pass: &mut Pass<Parcel, View>, collector: CollectorPass) -> u64
    requires pass { IsPassOf line.now pass.old }
    requires desk { collector.0 ≡ line.now.table.shared.table_id }
    ensures pass { IsPassOf line.now pass.new }
    ensures mine { (view pass.new).mine ≡ (view pass.old).mine ++ (collector.1, collector.2) ∷ [] }
    ensures rest { ((view pass.new).audits ≡ (view pass.old).audits) × ((view pass.new).got ≡ (view pass.old).got) }
    ensures count { result ≡ length collector.2 }
{
    let CollectorPass {
        pass: theirs,
        who: _,
        next,
    } = collector;
    line.absorb::<Roles>(pass, theirs);
    next
}

/// Takes all that is left, and counts it.
fn drain<R: Wait>(rt: &R, line: &Line, pass: &mut Pass<Parcel, View>) -> [u64; 4]
    requires pass { IsPassOf line.now pass.old }
    requires audits { 0 < (view pass.old).audits }
    ensures pass { IsPassOf line.now pass.new }
    ensures mine { ((view pass.new).mine ≡ (view pass.old).mine) × ((view pass.new).audits ≡ (view pass.old).audits) }
    ensures got { (left : List Parcel) × ((view pass.new).got ≡ (view pass.old).got ++ left) × Counts result left }
    ensures whole { Tells (λ p. of p (view pass.new).got) (view pass.new).mine }
{
    let mut counts = [0u64; 4];
    for _ in rt.forever() {
        let Some(parcel) = line.pop_as::<Takes, R>(rt, pass) else {
            return counts;
        };
        count_last(&mut counts, parcel);
    }
    unreachable!()
}

/// The tally of a desk whose collectors have ended.
pub fn settle_up<R: Wait>(
    rt: &R,
    line: Line,
    first: CollectorPass,
    second: CollectorPass,
    third: CollectorPass,
    fourth: CollectorPass,
    auditor: AuditorPass,
) -> Tally
    requires first { (first.0 ≡ line.table.shared.table_id) × (first.1 ≡ 0) }
    requires second { (second.0 ≡ line.table.shared.table_id) × (second.1 ≡ 1) }
    requires third { (third.0 ≡ line.table.shared.table_id) × (third.1 ≡ 2) }
    requires fourth { (fourth.0 ≡ line.table.shared.table_id) × (fourth.1 ≡ 3) }
    requires auditor { auditor.0 ≡ line.table.shared.table_id }
    ensures submitted { result.submitted ≡ length first.2 ∷ length second.2 ∷ length third.2 ∷ length fourth.2 ∷ [] }
    ensures taken { Counts result.taken auditor.1 }
    ensures left { LeavesOf result.left auditor.1 first.2 second.2 third.2 fourth.2 }
{
    let AuditorPass { mut pass, taken } = auditor;
    let submitted = [
        take_in(&line, &mut pass, first),
        take_in(&line, &mut pass, second),
        take_in(&line, &mut pass, third),
        take_in(&line, &mut pass, fourth),
    ];
    let left = drain(rt, &line, &mut pass);
    Tally {
        submitted,
        taken,
        left,
    }
}
