//! A solver whose searches are counted, and whose first one may be held.
ghost use Rattle.std.specs.Prelude.{⊤};
ghost use Rattle.order_check.specs.Effort.{IsEffort};
ghost use Rattle.polygraph.specs.Outcomes.{IsPicked};
ghost use Rattle.polygraph.specs.Solving.{IsLawful};

use polygraph::{Answer, PlainSolver, Problem, Single, Solver};
use std::alloc::Global;
use std::sync::atomic::{AtomicBool, AtomicU64, Ordering};
use std::thread;

/// How often is looked before a thread gives up waiting, which fails the test.
pub const TURNS: u64 = 10_000_000;

/// A solver whose first search is held until it is let go, or until it is told to stop.
#[derive(Drop)]
pub struct Held {
    searches: AtomicU64,
    goes_on: AtomicBool,
    was_stopped: AtomicBool,
    gave_up: AtomicBool,
}

impl Held {
    /// One that holds its first search, or none.
    pub fn new(is_free: bool) -> Held {
        Held {
            searches: AtomicU64::new(0),
            goes_on: AtomicBool::new(is_free),
            was_stopped: AtomicBool::new(false),
            gave_up: AtomicBool::new(false),
        }
    }

    /// How many searches were begun.
    pub fn searches(&self) -> u64 {
        self.searches.load(Ordering::SeqCst)
    }

    pub fn was_stopped(&self) -> bool {
        self.was_stopped.load(Ordering::SeqCst)
    }

    /// Whether a thread has waited in vain.
    pub fn gave_up(&self) -> bool {
        self.gave_up.load(Ordering::SeqCst)
    }

    pub fn let_go(&self) {
        self.goes_on.store(true, Ordering::SeqCst);
    }

    /// Waits until a search has begun.
    pub fn wait_for_search(&self) {
        for _turn in 0..TURNS {
            if self.searches() > 0 {
                return;
            }
            thread::yield_now();
        }
        self.gave_up.store(true, Ordering::SeqCst);
    }

    fn hold(&self, problem: &Problem) {
        for _turn in 0..TURNS {
            if self.goes_on.load(Ordering::SeqCst) {
                return;
            }
            if problem.go_on().is_err() {
                self.was_stopped.store(true, Ordering::SeqCst);
                return;
            }
            thread::yield_now();
        }
        self.gave_up.store(true, Ordering::SeqCst);
    }

    fn begin(&self, problem: &Problem) {
        if self.searches.fetch_add(1, Ordering::SeqCst) == 0 {
            self.hold(problem);
        }
    }
}

impl Solver for Held {
    ghost ready = { ⊤ };

    fn solve(
        &self,
        alloc: Global,
        problem: &Problem,
        budget: u64,
        depth: u64,
        workers: u64,
    ) -> Answer
        requires effort { IsEffort budget depth workers }
        ensures { IsLawful problem.now.known.parts budget depth result }
    {
        self.begin(problem);
        Single.solve(alloc, problem, budget, depth, workers)
    }
}

impl PlainSolver for Held {
    fn search(
        &self,
        alloc: Global,
        problem: &Problem,
        budget: u64,
        depth: u64,
        workers: u64,
    ) -> Answer
        requires effort { IsEffort budget depth workers }
        ensures lawful { IsLawful problem.now.known.parts budget depth result }
        ensures picked { IsPicked problem.now budget depth result }
    {
        self.begin(problem);
        Single.search(alloc, problem, budget, depth, workers)
    }
}
