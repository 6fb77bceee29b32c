//! How searches are given up while they run. No contract speaks of it: a search that is given up ends as one does that memory is refused.
use std::alloc::Global;
use std::sync::Arc;
use std::sync::atomic::{AtomicU64, Ordering};
use txn::NoMemory;

/// A word that threads share with the searches that they may give up. Each search has a number, which who begins it chooses.
#[derive(Drop, Debug)]
pub struct StopWord {
    below: Arc<AtomicU64, Global>,
}

impl StopWord {
    /// A word that gives no search up yet.
    pub fn new(alloc: Global) -> Result<StopWord, NoMemory> {
        Ok(StopWord {
            below: Arc::new(alloc, AtomicU64::new(0))?,
        })
    }

    /// The same word, for another thread.
    pub fn another(&self) -> Result<StopWord, NoMemory> {
        Ok(StopWord {
            below: Arc::try_clone(&self.below)?,
        })
    }

    /// Gives up the searches whose numbers are below this one, those that begin later too, and none of the others.
    pub fn give_up_below(&self, number: u64) {
        self.below.store(number, Ordering::SeqCst);
    }

    /// Whether the search with this number is given up.
    pub fn gives_up(&self, number: u64) -> bool {
        number < self.below.load(Ordering::SeqCst)
    }
}

/// What a search looks at: the word, and its own number.
#[derive(Drop, Debug)]
pub struct Stop {
    pub word: StopWord,
    pub number: u64,
}

impl Stop {
    /// The same, for another search.
    pub fn another(&self) -> Result<Stop, NoMemory> {
        Ok(Stop {
            word: self.word.another()?,
            number: self.number,
        })
    }
}
