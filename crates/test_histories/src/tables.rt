//! Parts, written down as tables.
use order_check::{Base, LastWriters, Parts};
use std::alloc::Global;
use txn::{NoMemory, Sequence, Source, Txn, TxnId};

pub const ID_0_0: TxnId = TxnId {
    session: 0,
    number: 0,
};

pub const ID_0_1: TxnId = TxnId {
    session: 0,
    number: 1,
};

pub const ID_0_2: TxnId = TxnId {
    session: 0,
    number: 2,
};

pub const ID_1_0: TxnId = TxnId {
    session: 1,
    number: 0,
};

pub const ID_1_1: TxnId = TxnId {
    session: 1,
    number: 1,
};

pub const ID_2_0: TxnId = TxnId {
    session: 2,
    number: 0,
};

pub const ID_3_0: TxnId = TxnId {
    session: 3,
    number: 0,
};

/// The first of the last session that there may be.
pub const ID_255_0: TxnId = TxnId {
    session: 255,
    number: 0,
};

/// What a transaction reads, and which keys it writes.
pub type Lists = (&'static [(u64, Source)], &'static [u64]);

/// The last gone writers, the marks, what remains of each session, which sessions are closed, and the limit. There may be 64 sessions.
#[derive(Clone, Copy)]
pub struct Table {
    pub last: &'static [(u64, TxnId)],
    pub marks: &'static [u64],
    pub remain: &'static [&'static [Lists]],
    pub closed: &'static [bool],
    pub limit: u64,
}

/// Two open sessions of which nothing is gone and nothing remains.
pub const EMPTY: Table = Table {
    last: &[],
    marks: &[0, 0],
    remain: &[&[], &[]],
    closed: &[false, false],
    limit: 16,
};

fn txn_of(alloc: Global, lists: Lists) -> Result<Txn, NoMemory> {
    Ok(Txn {
        reads: Sequence::new(lists.0.to_vec(alloc)?),
        writes: Sequence::new(lists.1.to_vec(alloc)?),
    })
}

fn session_of(alloc: Global, rows: &[Lists]) -> Result<Sequence<Txn>, NoMemory> {
    let mut txns = Vec::new(alloc);
    for lists in rows {
        txns.push(txn_of(alloc, *lists)?)?;
    }
    Ok(Sequence::new(txns))
}

fn last_writers_of(alloc: Global, rows: &[(u64, TxnId)]) -> Result<LastWriters, NoMemory> {
    let mut last = LastWriters::new(alloc);
    for (key, writer) in rows {
        last.insert(*key, *writer)?;
    }
    Ok(last)
}

impl Table {
    pub fn parts(&self, alloc: Global) -> Result<Parts, NoMemory> {
        let mut remain = Vec::new(alloc);
        for rows in self.remain {
            remain.push(session_of(alloc, *rows)?)?;
        }
        Ok(Parts {
            base: Base {
                last: last_writers_of(alloc, self.last)?,
                marks: Sequence::new(self.marks.to_vec(alloc)?),
            },
            remain: Sequence::new(remain),
            closed: Sequence::new(self.closed.to_vec(alloc)?),
            most_sessions: 64,
            limit: self.limit,
        })
    }
}

/// Parts of 256 sessions, as many as there may be: what remains of the first and of the last. The others are closed, and have nothing.
pub fn crowd(alloc: Global, first: &[Lists], last: &[Lists]) -> Result<Parts, NoMemory> {
    let mut remain = Vec::new(alloc);
    let mut closed = Vec::new(alloc);
    remain.push(session_of(alloc, first)?)?;
    closed.push(false)?;
    for _ in 1..255 {
        remain.push(Sequence::new(Vec::new(alloc)))?;
        closed.push(true)?;
    }
    remain.push(session_of(alloc, last)?)?;
    closed.push(false)?;
    Ok(Parts {
        base: Base {
            last: LastWriters::new(alloc),
            marks: Sequence::new([0; 256].to_vec(alloc)?),
        },
        remain: Sequence::new(remain),
        closed: Sequence::new(closed),
        most_sessions: 256,
        limit: 16,
    })
}
