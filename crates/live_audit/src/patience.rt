use std::sync::Wait;
use std::thread;
use std::thread::Parker;
use std::time::Duration;

/// After so many looks in vain, one after another, a waiter sleeps between two looks.
const EAGER: u32 = 1024;

/// So many milliseconds.
const NAP: u64 = 1;

/// How a thread waits for what another one is to do, look by look: it yields at first, and sleeps once it has looked often, so
/// that a program that waits long keeps no processor busy. A look comes a millisecond late then.
#[derive(Clone, Copy, Debug, PartialEq, Eq)]
pub struct Patience {
    looks: u32,
}

impl Patience {
    pub const fn new() -> Patience {
        Patience { looks: 0 }
    }

    /// Waits a little, after a look in vain.
    pub fn wait<R: Wait>(&mut self, rt: &R) {
        if self.looks < EAGER {
            self.looks += 1;
            thread::yield_now();
        } else {
            Parker::new().park_timeout(rt, Duration::from_millis(NAP));
        }
    }

    /// Waits a little, unless the look found something: then the next wait is short again.
    pub fn after<R: Wait>(&mut self, rt: &R, found: bool) {
        if found {
            self.looks = 0;
        } else {
            self.wait(rt);
        }
    }
}
