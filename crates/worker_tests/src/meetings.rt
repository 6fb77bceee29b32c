//! Gates that let no worker go on alone, and what is answered behind them.
ghost use Rattle.std.specs.Prelude.{◌≡◌, ◌≤◌, ◌^◌};

use crate::cubes::{SetCubes, choices, first_session, said_by};
use crate::histories::{problem_of, real_split};
use polygraph::{Answer, Problem};
use shared_search::{Gate, OpenGate, Shared, solve_all};
use std::alloc::Global;
use std::sync::atomic::{AtomicU64, Ordering};
use std::test::*;
use std::thread;
use std::thread::Threads;
use txn::NoMemory;

/// What workers wait for at a gate: until as many cubes as are wanted were counted. Who waits in vain is counted too.
#[derive(Drop)]
struct Meeting {
    wanted: u64,
    come: AtomicU64,
    gave_up: AtomicU64,
}

impl Meeting {
    fn of(wanted: u64) -> Meeting {
        Meeting {
            wanted,
            come: AtomicU64::new(0),
            gave_up: AtomicU64::new(0),
        }
    }

    fn come(&self) {
        let _ = self.come.fetch_add(1, Ordering::SeqCst);
    }

    fn wait(&self) {
        for _turn in 0..10_000_000u64 {
            if self.come.load(Ordering::SeqCst) >= self.wanted {
                return;
            }
            thread::yield_now();
        }
        let _ = self.gave_up.fetch_add(1, Ordering::SeqCst);
    }

    fn gave_up(&self) -> u64 {
        self.gave_up.load(Ordering::SeqCst)
    }
}

/// Before a cube is searched, as many have to be about to be searched as the meeting wants.
#[derive(Drop)]
struct Together<'a> {
    meeting: &'a Meeting,
}

impl<'a> Gate for Together<'a> {
    fn before(&self, _cube: u64) {
        self.meeting.come();
        self.meeting.wait();
    }

    fn after(&self, _cube: u64) {}
}

/// The low cube is searched after the high one is answered.
#[derive(Drop)]
struct HighFirst<'a> {
    low: u64,
    high: u64,
    meeting: &'a Meeting,
}

impl<'a> Gate for HighFirst<'a> {
    fn before(&self, cube: u64) {
        if cube == self.low {
            self.meeting.wait();
        }
    }

    fn after(&self, cube: u64) {
        if cube == self.high {
            self.meeting.come();
        }
    }
}

/// So many cubes, those of so many choices, are searched; these have a yes.
fn solve_set<R: Threads + Sync, G: Gate + Sync>(
    rt: &R,
    alloc: Global,
    count: usize,
    cubes: u64,
    with_yes: &'static [u64],
    workers: u64,
    gate: &G,
) -> Result<Answer, NoMemory>
    requires cubes { (cubes ≡ 2 ^ count) × (1 ≤ cubes) × (cubes ≤ 64) }
    requires workers { (1 ≤ workers) × (workers ≤ 16) }
{
    let solver = SetCubes {
        choices: choices(alloc, count)?,
        with_yes,
    };
    Ok(solve_all(rt, alloc, &solver, cubes, workers, gate))
}

/// Two workers search two cubes at the same time.
fn two_meet<R: Threads + Sync>(rt: &R, alloc: Global) -> Result<(&'static str, u64), NoMemory> {
    let meeting = Meeting::of(2);
    let answer = solve_set(rt, alloc, 1, 2, &[], 2, &Together { meeting: &meeting })?;
    Ok((said_by(&answer), meeting.gave_up()))
}

/// Four workers of a shared solver search four cubes at the same time.
fn four_meet<R: Threads + Sync>(rt: &R, alloc: Global, problem: &Problem) -> (&'static str, u64) {
    let meeting = Meeting::of(4);
    let solver = Shared::new(rt, Together { meeting: &meeting });
    let answer = solver.answer(alloc, problem, 32, 2, 4);
    (said_by(&answer), meeting.gave_up())
}

#[test]
fn workers_search_at_the_same_time(rt: HostRuntime) -> Result<(), Fail> {
    assert_eq!(&rt; two_meet(&rt, rt.alloc())?, ("no", 0));
    let parts = real_split(rt.alloc())?;
    let problem = problem_of(&rt, rt.alloc(), &parts)?;
    assert_eq!(&rt; four_meet(&rt, rt.alloc(), &problem), ("no", 0));
    Ok(())
}

/// Of 16 cubes two have a yes, and the higher of them is answered first.
fn high_ends_first<R: Threads + Sync>(
    rt: &R,
    alloc: Global,
    workers: u64,
) -> Result<(Option<u8>, u64), NoMemory>
    requires { (1 ≤ workers) × (workers ≤ 16) }
{
    let meeting = Meeting::of(1);
    let gate = HighFirst {
        low: 3,
        high: 9,
        meeting: &meeting,
    };
    let answer = solve_set(rt, alloc, 4, 16, &[3, 9], workers, &gate)?;
    Ok((first_session(&answer), meeting.gave_up()))
}

/// The same with no gate, with 64 cubes.
fn least_of_two<R: Threads + Sync>(
    rt: &R,
    alloc: Global,
    workers: u64,
) -> Result<Option<u8>, NoMemory>
    requires { (1 ≤ workers) × (workers ≤ 16) }
{
    let answer = solve_set(rt, alloc, 6, 64, &[62, 41], workers, &OpenGate)?;
    Ok(first_session(&answer))
}

#[test]
fn the_least_cube_with_a_yes_is_told(rt: HostRuntime) -> Result<(), Fail> {
    for workers in [2, 4, 16] {
        assert_eq!(&rt; high_ends_first(&rt, rt.alloc(), workers)?, (Some(3), 0));
    }
    for workers in [1, 2, 3, 4, 16] {
        assert_eq!(&rt; least_of_two(&rt, rt.alloc(), workers)?, Some(41));
    }
    Ok(())
}
