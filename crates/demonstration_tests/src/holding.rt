//! A solver whose first search is held until a signal.
ghost use Rattle.std.specs.Prelude.{⊤};
ghost use Rattle.order_check.specs.Effort.{IsEffort};
ghost use Rattle.polygraph.specs.Solving.{IsLawful};

use polygraph::{Answer, Problem, Single, Solver};
use std::alloc::Global;
use std::sync::atomic::{AtomicBool, Ordering};
use std::thread;

/// What one thread tells another, which waits for it. Whether that one gave up is noted.
#[derive(Drop)]
pub struct Signal {
    is_given: AtomicBool,
    gave_up: AtomicBool,
}

impl Signal {
    pub fn new() -> Signal {
        Signal {
            is_given: AtomicBool::new(false),
            gave_up: AtomicBool::new(false),
        }
    }

    pub fn give(&self) {
        self.is_given.store(true, Ordering::SeqCst);
    }

    pub fn wait(&self) {
        for _turn in 0..10_000_000u64 {
            if self.is_given.load(Ordering::SeqCst) {
                return;
            }
            thread::yield_now();
        }
        self.gave_up.store(true, Ordering::SeqCst);
    }

    pub fn gave_up(&self) -> bool {
        self.gave_up.load(Ordering::SeqCst)
    }
}

/// A solver whose first search tells that it was reached, and is held until the signal to go on.
#[derive(Drop)]
pub struct Held {
    pub reached: Signal,
    pub goes_on: Signal,
}

impl Held {
    pub fn new() -> Held {
        Held {
            reached: Signal::new(),
            goes_on: Signal::new(),
        }
    }

    fn hold(&self) {
        if !self.reached.is_given.load(Ordering::SeqCst) {
            self.reached.give();
            self.goes_on.wait();
        }
    }
}

impl Solver for Held {
    ghost ready = { ⊤ };

    fn solve(
        &self,
        alloc: Global,
        problem: &Problem,
        budget: u64,
        depth: u64,
        workers: u64,
    ) -> Answer
        requires effort { IsEffort budget depth workers }
        ensures { IsLawful problem.now.known.parts budget depth result }
    {
        self.hold();
        Single.solve(alloc, problem, budget, depth, workers)
    }
}
