//! A gate that looks, when it is told of a cube, whether that has been searched.
ghost use Rattle.std.specs.Prelude.{◌≤◌};

use crate::cubes::{choices, first_of};
use polygraph::Cube;
use refutation::{Leaf, Tree};
use shared_search::{CubeSolver, Gate, solve_all};
use std::alloc::Global;
use std::sync::atomic::{AtomicU64, Ordering};
use std::test::*;
use std::thread::Threads;
use txn::{Choice, NoMemory};

/// The cubes that were searched, each by a bit of its own: those before whose search the gate was told of them, those that were searched, and those
/// after whose search it was told of them.
#[derive(Drop)]
struct Notes {
    before: AtomicU64,
    searched: AtomicU64,
    after: AtomicU64,
}

fn bit_of(cube: u64) -> u64 {
    1u64 << (cube % 64)
}

impl Notes {
    fn new() -> Notes {
        Notes {
            before: AtomicU64::new(0),
            searched: AtomicU64::new(0),
            after: AtomicU64::new(0),
        }
    }

    fn is_searched(&self, cube: u64) -> bool {
        self.searched.load(Ordering::SeqCst) & bit_of(cube) != 0
    }

    fn told(&self) -> [u64; 3] {
        [
            self.before.load(Ordering::SeqCst),
            self.searched.load(Ordering::SeqCst),
            self.after.load(Ordering::SeqCst),
        ]
    }
}

/// Notes each cube when it searches it, and finds the same no in all.
#[derive(Drop)]
struct Noting<'a> {
    choices: Vec<Choice>,
    notes: &'a Notes,
}

impl<'a> CubeSolver for Noting<'a> {
    ghost use Rattle.std.specs.Prelude.{⊤};

    ghost may = { λ _ _ _. ⊤ };

    ghost splits = { λ s. s.choices.items };

    fn solve(&self, _alloc: Global, cube: u64) -> Result<Cube, NoMemory> {
        let _ = self
            .notes
            .searched
            .fetch_add(bit_of(cube), Ordering::SeqCst);
        Ok(Cube::No(Tree::Close(Leaf::NoWrite(first_of(0), 5))))
    }

    fn choices(&self) -> &[Choice] {
        self.choices.as_slice()
    }
}

/// Notes a cube only where what it is told of that is so.
#[derive(Drop)]
struct Looking<'a> {
    notes: &'a Notes,
}

impl<'a> Gate for Looking<'a> {
    fn before(&self, cube: u64) {
        if !self.notes.is_searched(cube) {
            let _ = self.notes.before.fetch_add(bit_of(cube), Ordering::SeqCst);
        }
    }

    fn after(&self, cube: u64) {
        if self.notes.is_searched(cube) {
            let _ = self.notes.after.fetch_add(bit_of(cube), Ordering::SeqCst);
        }
    }
}

/// What is noted of 16 cubes.
fn noted<R: Threads + Sync>(rt: &R, alloc: Global, workers: u64) -> Result<[u64; 3], NoMemory>
    requires { (1 ≤ workers) × (workers ≤ 16) }
{
    let notes = Notes::new();
    let choices = choices(alloc, 4)?;
    let solver = Noting {
        choices,
        notes: &notes,
    };
    let _ = solve_all(rt, alloc, &solver, 16, workers, &Looking { notes: &notes });
    Ok(notes.told())
}

#[test]
fn a_gate_is_told_of_each_cube_before_and_after_its_search(rt: HostRuntime) -> Result<(), Fail> {
    for workers in [1, 2, 4, 16] {
        assert_eq!(&rt;
            noted(&rt, rt.alloc(), workers)?,
            [0xffff; 3],
            "by {workers}"
        );
    }
    Ok(())
}
