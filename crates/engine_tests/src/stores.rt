//! Stores whose transactions are made from numbers.
ghost use Rattle.std.specs.Prelude.{◌<◌};

use order_check::LastWriters;
use std::alloc::Global;
use txn::Source::{self, By, Init};
use txn::{NoMemory, Sequence, Txn, TxnId};

/// A store whose transactions are made from a seed: each reads what was written last, or now and then something else.
#[derive(Drop)]
pub struct Store {
    state: u64,
    last: LastWriters,
}

impl Store {
    pub fn roll(&mut self, sides: u64) -> u64
        requires { 0 < sides }
        ensures { result < sides }
    {
        self.state = self.state % 2_147_483_648 * 1_103_515_245 + 12_345;
        self.state / 65_536 % sides
    }

    fn source(&mut self, key: u64) -> Source {
        if self.roll(24) == 0 {
            return By(TxnId {
                session: self.roll(2) as u8,
                number: self.roll(4),
            });
        }
        match self.last.get(key) {
            Some(writer) => By(writer),
            None => Init,
        }
    }

    pub fn fence(&mut self, alloc: Global) -> Result<Txn, NoMemory> {
        let reads = [(0, self.source(0))].to_vec(alloc)?;
        let writes = [0].to_vec(alloc)?;
        Ok(Txn {
            reads: Sequence::new(reads),
            writes: Sequence::new(writes),
        })
    }

    /// A transaction that reads the key, writes it, or both.
    fn touch(&mut self, alloc: Global, key: u64) -> Result<Txn, NoMemory> {
        let mut txn = Txn {
            reads: Sequence::new(Vec::new(alloc)),
            writes: Sequence::new(Vec::new(alloc)),
        };
        let way = self.roll(4);
        if way != 0 {
            txn.reads.push((key, self.source(key)))?;
        }
        if way < 3 {
            txn.writes.push(key)?;
        }
        Ok(txn)
    }

    /// A fence, or a transaction on key 5 or 6.
    pub fn txn(&mut self, alloc: Global) -> Result<Txn, NoMemory> {
        if self.roll(2) == 0 {
            return self.fence(alloc);
        }
        let key = 5 + self.roll(2);
        self.touch(alloc, key)
    }

    pub fn note(&mut self, id: TxnId, txn: &Txn) -> Result<(), NoMemory> {
        for key in txn.writes.as_slice() {
            self.last.insert(*key, id)?;
        }
        Ok(())
    }
}

pub fn store_of(alloc: Global, seed: u64) -> Store {
    Store {
        state: seed,
        last: LastWriters::new(alloc),
    }
}
