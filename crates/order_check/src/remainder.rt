ghost use Rattle.std.specs.Prelude.{◌≡◌, ◌↔◌, IfOk, OnOk, OnErr, IsTrue, take, filter, nat_le};
ghost use Rattle.std.specs.FinMap as map;
ghost use Rattle.order_check.specs.Rules.{AreBelowMarks};

use crate::writer_map::WriterMap;
use std::alloc::Global;
use std::marker::Model;
use std::sync::Arc;
use txn::{NoMemory, Sequence, Txn, TxnId};

/// The last writer of each key. Contracts see a finite map. A clone shares the entries, until a writer is inserted into one of
/// the two: who has them alone doesn't copy them.
#[derive(Drop, Debug)]
pub struct LastWriters {
    alloc: Global,
    /// None where no key has a writer.
    shared: Option<Arc<WriterMap>>,
}

impl Model for LastWriters {
    ghost use Rattle.std.specs.Arc.{arc_value};
    ghost use Rattle.std.specs.FinMap as map;
    ghost use Rattle.std.specs.Option.{option_map_or};
    ghost use Rattle.std.specs.Ordering.{nat_cmp};
    ghost use Rattle.std.specs.Coded.{coded_ℕ};
    ghost use Rattle.txn.specs.declared.transactions.TxnId.{TxnId};
    ghost use Rattle.order_check.specs.Codes.{coded_id};

    ghost Value = { map.FinMap nat_cmp TxnId };

    ghost coded = { map.code coded_ℕ coded_id };

    ghost view = { λ a. option_map_or (λ shared. arc_value shared) a.shared map.empty };
}

impl LastWriters {
    pub fn new(alloc: Global) -> Self
        ensures { result ≡ map.empty }
    {
        LastWriters {
            alloc,
            shared: None,
        }
    }

    pub fn get(&self, key: u64) -> Option<TxnId>
        ensures { result ≡ map.get self.now key }
    {
        match &self.shared {
            Some(writers) => writers.get(key),
            None => None,
        }
    }

    /// Makes the id the key's last writer.
    pub fn insert(&mut self, key: u64, writer: TxnId) -> Result<(), NoMemory>
        ensures ok { OnOk result (self.new ≡ map.insert self.old key writer) }
        ensures err { OnErr result (self.new ≡ self.old) }
    {
        let Some(shared) = &mut self.shared else {
            let mut writers = WriterMap::new(self.alloc);
            writers.insert(key, writer)?;
            self.shared = Some(Arc::new(self.alloc, writers)?);
            return Ok(());
        };
        let writers = Arc::make_mut(shared)?;
        writers.insert(key, writer)
    }

    /// Each key with its last writer, keys rising.
    pub fn entries(&self, alloc: Global) -> Result<Sequence<(u64, TxnId)>, NoMemory>
        ensures { IfOk result (λ entries. entries ≡ map.entries self.now) }
    {
        match &self.shared {
            Some(writers) => writers.entries(alloc),
            None => Ok(Sequence::new(Vec::new(alloc))),
        }
    }

    /// So many of the keys from this one on at most, the first ones, each with its last writer.
    pub fn entries_from(
        &self,
        alloc: Global,
        key: u64,
        most: usize,
    ) -> Result<Sequence<(u64, TxnId)>, NoMemory>
        ensures { IfOk result (λ page. page ≡ take most (filter (λ entry. nat_le key entry.0) (map.entries self.now))) }
    {
        match &self.shared {
            Some(writers) => writers.entries_from(alloc, key, most),
            None => Ok(Sequence::new(Vec::new(alloc))),
        }
    }

    /// Whether each writer's number is below the mark of its session.
    pub fn are_below(&self, marks: &[u64]) -> bool
        ensures { IsTrue result ↔ AreBelowMarks marks.now self.now }
    {
        match &self.shared {
            Some(writers) => writers.are_below(marks),
            None => true,
        }
    }
}

impl Clone for LastWriters {
    ghost use Rattle.std.specs.Prelude.{◌≡◌};

    ghost is_clone = { λ old new. new ≡ old };

    fn clone(&self) -> Result<Self, NoMemory> {
        let shared = match &self.shared {
            Some(writers) => Some(writers.clone()?),
            None => None,
        };
        Ok(LastWriters {
            alloc: self.alloc,
            shared,
        })
    }
}

/// What is known of the transactions that are gone: the last gone writer of each key, and how many are gone of each
/// session.
#[derive(Clone, Drop, Debug)]
pub struct Base {
    pub last: LastWriters,
    pub marks: Sequence<u64>,
}

/// What is kept of a history: a base, what remains of each session, which sessions are closed, how many sessions there may be, and how many
/// transactions may remain at a time.
#[derive(Drop, Debug)]
pub struct Parts {
    pub base: Base,
    pub remain: Sequence<Sequence<Txn>>,
    pub closed: Sequence<bool>,
    /// Sessions are numbered below this.
    pub most_sessions: u64,
    pub limit: u64,
}

/// What a check of a history says.
#[derive(Clone, Copy, Debug, PartialEq, Eq)]
pub enum Kind {
    /// Some order explains it, and no read is pending.
    Serial,
    /// Some order explains it, and some read is pending.
    Pending,
    /// No order explains it.
    Violated,
    /// The search ran out of its budget.
    Spent,
}

fn copy_of_session(session: &Sequence<Txn>) -> Result<Sequence<Txn>, NoMemory>
    ensures { IfOk result (λ copy. copy ≡ session.now) }
{
    session.clone()
}

/// A whole copy of each list.
fn copy_of_sessions(
    alloc: Global,
    sessions: &[Sequence<Txn>],
) -> Result<Sequence<Sequence<Txn>>, NoMemory>
    ensures { IfOk result (λ copy. copy ≡ sessions.now) }
{
    let mut copies = Vec::with_capacity(alloc, sessions.len())?;
    for session in sessions {
        copies.push(copy_of_session(session)?)?;
    }
    Ok(Sequence::new(copies))
}

/// A whole copy.
fn copy_of_parts(parts: &Parts) -> Result<Parts, NoMemory>
    ensures { IfOk result (λ copy. copy ≡ parts.now) }
{
    Ok(Parts {
        base: parts.base.clone()?,
        remain: copy_of_sessions(parts.remain.allocator(), parts.remain.as_slice())?,
        closed: parts.closed.clone()?,
        most_sessions: parts.most_sessions,
        limit: parts.limit,
    })
}

impl Clone for Parts {
    ghost use Rattle.std.specs.Prelude.{◌≡◌};

    ghost is_clone = { λ old new. new ≡ old };

    fn clone(&self) -> Result<Self, NoMemory> {
        copy_of_parts(self)
    }
}
