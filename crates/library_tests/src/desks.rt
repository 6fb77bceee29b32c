ghost use Rattle.std.specs.Prelude.{◌≡◌, ◌+◌, ◌<◌, ◌≤◌, ◌^◌, [], length};
ghost use Rattle.fragment_intake.specs.Collectors.{AreCollectorsOf};

use fragment_intake::{AuditorPass, CollectorPass, CollectorPasses, Desk, Item, Tally};
use std::alloc::Global;
use std::process::Abort;
use std::sync::Wait;
use std::test::*;
use std::thread;
use std::thread::Threads;
use txn::NoMemory;

/// Submits that a session is closed, and tells whether there was room.
fn submits<R: Wait>(rt: &R, desk: &Desk, pass: &mut CollectorPass) -> bool
    requires desk { pass.old.0 ≡ desk.now.0 }
    requires few { length pass.old.2 < 2 ^ 40 }
    ensures same { (pass.new.0 ≡ pass.old.0) × (pass.new.1 ≡ pass.old.1) }
    ensures more { length pass.new.2 ≤ length pass.old.2 + 1 }
{
    desk.submit(rt, pass, Item::Close(7)).is_ok()
}

/// The collector and the place of the parcel that is taken.
fn takes<R: Wait>(rt: &R, desk: &Desk, pass: &mut AuditorPass) -> Option<(u64, u64)>
    requires { pass.old.0 ≡ desk.now.0 }
    ensures { pass.new.0 ≡ pass.old.0 }
{
    let parcel = desk.take(rt, pass)?;
    Some((parcel.collector, parcel.place))
}

/// What a desk with one place answers to a first collector, a second, and the auditor in turn.
fn answers<R: Wait>(
    rt: &R,
    alloc: Global,
) -> Result<([bool; 3], [Option<(u64, u64)>; 3], Tally), NoMemory> {
    let (desk, mut passes, mut auditor) = Desk::new(alloc, 1)?;
    let first = submits(rt, &desk, &mut passes.0);
    let full = submits(rt, &desk, &mut passes.1);
    let one = takes(rt, &desk, &mut auditor);
    let again = submits(rt, &desk, &mut passes.1);
    let two = takes(rt, &desk, &mut auditor);
    let none = takes(rt, &desk, &mut auditor);
    let tally = desk.tally(rt, passes, auditor);
    Ok(([first, full, again], [one, two, none], tally))
}

#[test]
fn a_desk_with_one_place(rt: HostRuntime) -> Result<(), Fail> {
    let (submitted, taken, tally) = answers(&rt, rt.alloc())?;
    assert_eq!(rt; submitted, [true, false, true]);
    assert_eq!(rt; taken, [Some((0, 0)), Some((1, 0)), None]);
    assert_eq!(rt; tally.submitted, [1, 1, 0, 0]);
    assert_eq!(rt; tally.taken, [1, 1, 0, 0]);
    assert_eq!(rt; tally.left, [0, 0, 0, 0]);
    Ok(())
}

/// Submits until a parcel comes back, and tells how many went in.
fn fill<R: Wait>(rt: &R, desk: &Desk, pass: &mut CollectorPass) -> u64
    requires { (pass.old.0 ≡ desk.now.0) × (pass.old.2 ≡ []) }
    ensures { (pass.new.0 ≡ pass.old.0) × (pass.new.1 ≡ pass.old.1) }
{
    let mut count = 0u64;
    for _turn in 0..2000u64 {
        if !submits(rt, desk, pass) {
            break;
        }
        count += 1;
    }
    count
}

/// Takes until something else comes than the first collector's next parcel, and tells how many of these came.
fn take_in_order<R: Wait>(rt: &R, desk: &Desk, pass: &mut AuditorPass) -> u64
    requires { pass.old.0 ≡ desk.now.0 }
    ensures { pass.new.0 ≡ pass.old.0 }
{
    let mut count = 0u64;
    for _turn in 0..2000u64 {
        if takes(rt, desk, pass) != Some((0, count)) {
            break;
        }
        count += 1;
    }
    count
}

/// A desk of 1,024 places is filled, emptied, and filled by another collector.
fn filled_twice<R: Wait>(rt: &R, alloc: Global) -> Result<([u64; 3], bool, Tally), NoMemory> {
    let (desk, mut passes, mut auditor) = Desk::new(alloc, 1024)?;
    let first = fill(rt, &desk, &mut passes.0);
    let room = submits(rt, &desk, &mut passes.1);
    let taken = take_in_order(rt, &desk, &mut auditor);
    let fourth = fill(rt, &desk, &mut passes.3);
    let tally = desk.tally(rt, passes, auditor);
    Ok(([first, taken, fourth], room, tally))
}

#[test]
fn a_desk_with_1024_places(rt: HostRuntime) -> Result<(), Fail> {
    let (counts, room, tally) = filled_twice(&rt, rt.alloc())?;
    assert_eq!(rt; counts, [1024; 3]);
    assert!(rt; !room);
    assert_eq!(rt; tally.submitted, [1024, 0, 0, 1024]);
    assert_eq!(rt; tally.taken, [1024, 0, 0, 0]);
    assert_eq!(rt; tally.left, [0, 0, 0, 1024]);
    Ok(())
}

/// Submits 200 parcels, trying again while the desk is full.
fn submit_all<R: Wait>(rt: &R, desk: &Desk, mut pass: CollectorPass) -> CollectorPass
    requires { (pass.0 ≡ desk.now.0) × (pass.2 ≡ []) }
    ensures { (result.0 ≡ pass.0) × (result.1 ≡ pass.1) }
{
    let mut count = 0u64;
    for _turn in 0..100_000_000u64 {
        if count == 200 {
            break;
        }
        if submits(rt, desk, &mut pass) {
            count += 1;
        } else {
            thread::yield_now();
        }
    }
    pass
}

/// Takes 800 parcels, trying again while the desk is empty.
fn take_all<R: Wait>(rt: &R, desk: &Desk, mut pass: AuditorPass) -> AuditorPass
    requires { pass.0 ≡ desk.now.0 }
    ensures { result.0 ≡ pass.0 }
{
    let mut count = 0u64;
    for _turn in 0..100_000_000u64 {
        if count == 800 {
            break;
        }
        if takes(rt, desk, &mut pass).is_some() {
            count += 1;
        } else {
            thread::yield_now();
        }
    }
    pass
}

/// Two collectors submit, each in a thread.
fn submit_two<R: Threads + Wait + Sync>(
    rt: &R,
    desk: &Desk,
    one: CollectorPass,
    other: CollectorPass,
) -> (CollectorPass, CollectorPass)
    requires one { (one.0 ≡ desk.now.0) × (one.2 ≡ []) }
    requires other { (other.0 ≡ desk.now.0) × (other.2 ≡ []) }
    ensures one { (result.0.0 ≡ one.0) × (result.0.1 ≡ one.1) }
    ensures other { (result.1.0 ≡ other.0) × (result.1.1 ≡ other.1) }
{
    thread::join(
        rt,
        move ||
            requires { (one.0 ≡ desk.now.0) × (one.2 ≡ []) }
            ensures { (result.0 ≡ one.0) × (result.1 ≡ one.1) }
        { submit_all(rt, desk, one) },
        move ||
            requires { (other.0 ≡ desk.now.0) × (other.2 ≡ []) }
            ensures { (result.0 ≡ other.0) × (result.1 ≡ other.1) }
        { submit_all(rt, desk, other) },
    )
}

/// Four collectors submit, each in a thread.
fn submit_four<R: Threads + Wait + Sync>(
    rt: &R,
    desk: &Desk,
    passes: CollectorPasses,
) -> CollectorPasses
    requires desk { AreCollectorsOf desk.now passes }
    requires none { (passes.0.2 ≡ []) × (passes.1.2 ≡ []) × (passes.2.2 ≡ []) × (passes.3.2 ≡ []) }
    ensures { AreCollectorsOf desk.now result }
{
    let (first, second, third, fourth) = passes;
    let ((first, second), (third, fourth)) = thread::join(
        rt,
        move ||
            requires { (first.0 ≡ desk.now.0) × (first.1 ≡ 0) × (first.2 ≡ []) × (second.0 ≡ desk.now.0) × (second.1 ≡ 1) × (second.2 ≡ []) }
            ensures { (result.0.0 ≡ desk.entry.now.0) × (result.0.1 ≡ 0) × (result.1.0 ≡ desk.entry.now.0) × (result.1.1 ≡ 1) }
        { submit_two(rt, desk, first, second) },
        move ||
            requires { (third.0 ≡ desk.now.0) × (third.1 ≡ 2) × (third.2 ≡ []) × (fourth.0 ≡ desk.now.0) × (fourth.1 ≡ 3) × (fourth.2 ≡ []) }
            ensures { (result.0.0 ≡ desk.entry.now.0) × (result.0.1 ≡ 2) × (result.1.0 ≡ desk.entry.now.0) × (result.1.1 ≡ 3) }
        { submit_two(rt, desk, third, fourth) },
    );
    (first, second, third, fourth)
}

/// Four threads submit 200 parcels each to a desk with three places, while this one takes them.
fn tally_of_four<R: Threads + Wait + Sync>(rt: &R, alloc: Global) -> Result<Tally, NoMemory> {
    let (desk, passes, auditor) = Desk::new(alloc, 3)?;
    let line = &desk;
    let (passes, auditor) = thread::join(
        rt,
        move ||
            requires { AreCollectorsOf line.now passes × (passes.0.2 ≡ []) × (passes.1.2 ≡ []) × (passes.2.2 ≡ []) × (passes.3.2 ≡ []) }
            ensures { AreCollectorsOf line.entry.now result }
        { submit_four(rt, line, passes) },
        move ||
            requires { auditor.0 ≡ line.now.0 }
            ensures { result.0 ≡ line.entry.now.0 }
        { take_all(rt, line, auditor) },
    );
    Ok(desk.tally(rt, passes, auditor))
}

#[test]
fn four_threads_lose_nothing(rt: HostRuntime) -> Result<(), Fail> {
    let tally = tally_of_four(&rt, rt.alloc())?;
    assert_eq!(rt; tally.submitted, [200; 4]);
    assert_eq!(rt; tally.taken, [200; 4]);
    assert_eq!(rt; tally.left, [0; 4]);
    Ok(())
}
