use std::sync::{OnceLock, Wait};

/// Holds the threads of a run back until it is known whether all of them stand.
#[derive(Drop)]
pub struct Start {
    called: OnceLock<bool>,
}

impl Start {
    pub fn new() -> Start {
        Start {
            called: OnceLock::new(),
        }
    }

    /// Tells the threads whether they are to work.
    pub fn call<R: Wait>(&self, rt: &R, goes: bool) {
        let _ = self.called.set(rt, goes);
    }

    /// Waits to be told whether to work.
    pub fn wait<R: Wait>(&self, rt: &R) -> bool {
        *self.called.wait(rt)
    }
}
