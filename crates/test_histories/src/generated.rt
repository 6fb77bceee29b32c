//! Histories that are made from numbers.
ghost use Rattle.std.specs.Prelude.{◌<◌};

use order_check::{Base, LastWriters, Parts};
use std::alloc::Global;
use txn::Source::{self, By, Init};
use txn::{NoMemory, Sequence, Txn, TxnId};

const KEYS: usize = 12;

/// Numbers that are made from a seed, one after another.
#[derive(Drop)]
pub struct Dice {
    state: u64,
}

impl Dice {
    pub fn of(seed: u64) -> Dice {
        Dice { state: seed }
    }

    fn roll(&mut self, sides: u64) -> u64
        requires { 0 < sides }
        ensures { result < sides }
    {
        self.state = self.state % 2_147_483_648 * 1_103_515_245 + 12_345;
        self.state / 65_536 % sides
    }
}

/// A source that may come or not, and write the key or not.
fn source_by(dice: &mut Dice) -> Source {
    if dice.roll(4) == 0 {
        return Init;
    }
    By(TxnId {
        session: dice.roll(3) as u8,
        number: dice.roll(3),
    })
}

fn reads_by(alloc: Global, dice: &mut Dice) -> Result<Sequence<(u64, Source)>, NoMemory> {
    let mut reads = Vec::new(alloc);
    for key in 5..7 {
        if dice.roll(2) == 0 {
            reads.push((key, source_by(dice)))?;
        }
    }
    Ok(Sequence::new(reads))
}

fn writes_by(alloc: Global, dice: &mut Dice) -> Result<Sequence<u64>, NoMemory> {
    let mut writes = Vec::new(alloc);
    for key in 5..7 {
        if dice.roll(2) == 0 {
            writes.push(key)?;
        }
    }
    Ok(Sequence::new(writes))
}

fn txn_by(alloc: Global, dice: &mut Dice) -> Result<Txn, NoMemory> {
    let reads = reads_by(alloc, dice)?;
    let writes = writes_by(alloc, dice)?;
    Ok(Txn { reads, writes })
}

fn session_by(alloc: Global, dice: &mut Dice) -> Result<Sequence<Txn>, NoMemory> {
    let mut txns = Vec::new(alloc);
    for _ in 0..2 + dice.roll(2) {
        txns.push(txn_by(alloc, dice)?)?;
    }
    Ok(Sequence::new(txns))
}

fn remain_by(alloc: Global, dice: &mut Dice) -> Result<Sequence<Sequence<Txn>>, NoMemory> {
    let mut remain = Vec::new(alloc);
    for _ in 0..3 {
        remain.push(session_by(alloc, dice)?)?;
    }
    Ok(Sequence::new(remain))
}

/// Nothing is gone, or 0.0, which was the last writer of key 5.
fn base_by(alloc: Global, dice: &mut Dice) -> Result<Base, NoMemory> {
    let mut last = LastWriters::new(alloc);
    let mut marks = [0; 3].to_vec(alloc)?;
    if dice.roll(3) == 0 {
        last.insert(
            5,
            TxnId {
                session: 0,
                number: 0,
            },
        )?;
        marks = [1, 0, 0].to_vec(alloc)?;
    }
    Ok(Base {
        last,
        marks: Sequence::new(marks),
    })
}

fn parts_of(alloc: Global, base: Base, remain: Sequence<Sequence<Txn>>) -> Result<Parts, NoMemory> {
    Ok(Parts {
        base,
        remain,
        closed: Sequence::new([false; 3].to_vec(alloc)?),
        most_sessions: 64,
        limit: 256,
    })
}

/// Three sessions of two or three transactions over two keys.
pub fn parts_by(alloc: Global, dice: &mut Dice) -> Result<Parts, NoMemory> {
    let base = base_by(alloc, dice)?;
    let remain = remain_by(alloc, dice)?;
    parts_of(alloc, base, remain)
}

/// Parts of which nothing remains.
pub fn over(alloc: Global, base: Base) -> Result<Parts, NoMemory> {
    let mut remain = Vec::new(alloc);
    for _ in 0..3 {
        remain.push(Sequence::new(Vec::new(alloc)))?;
    }
    parts_of(alloc, base, Sequence::new(remain))
}

/// Nothing is gone, and nothing remains.
fn nothing(alloc: Global) -> Result<Parts, NoMemory> {
    let marks = Sequence::new([0; 3].to_vec(alloc)?);
    let last = LastWriters::new(alloc);
    over(alloc, Base { last, marks })
}

/// Puts the transaction at the end of its session.
fn append(alloc: Global, parts: &mut Parts, session: u8, txn: Txn) -> Result<(), NoMemory> {
    let mut txns = Vec::new(alloc);
    txns.push(txn)?;
    if usize::from(session) < parts.remain.len() {
        let txns = Sequence::new(txns);
        parts.remain.append_at(usize::from(session), txns)?;
    }
    Ok(())
}

/// A transaction with one read and one write.
fn pair_of(alloc: Global, read: (u64, Source), write: u64) -> Result<Txn, NoMemory> {
    let reads = [read].to_vec(alloc)?;
    let writes = [write].to_vec(alloc)?;
    Ok(Txn {
        reads: Sequence::new(reads),
        writes: Sequence::new(writes),
    })
}

/// So many transactions of three sessions in turn, each of which reads one key as a store would answer it, and writes one.
pub fn stored_by(alloc: Global, dice: &mut Dice, count: u64) -> Result<Parts, NoMemory> {
    let mut parts = nothing(alloc)?;
    let mut last = [Init; KEYS];
    for turn in 0..count {
        let session = (turn % 3) as u8;
        let number = turn / 3;
        let read = dice.roll(12) as usize;
        let write = dice.roll(12) as usize;
        let source = last[read];
        let txn = pair_of(alloc, (5 + read as u64, source), 5 + write as u64)?;
        append(alloc, &mut parts, session, txn)?;
        last[write] = By(TxnId { session, number });
    }
    Ok(parts)
}

/// A transaction that reads one key of the initial state.
fn old_read_of(alloc: Global, key: u64) -> Result<Txn, NoMemory> {
    let reads = [(key, Init)].to_vec(alloc)?;
    Ok(Txn {
        reads: Sequence::new(reads),
        writes: Sequence::new(Vec::new(alloc)),
    })
}

/// As many transactions of two sessions, as a store would answer them, and of a third one that reads the initial state, whatever was
/// written since.
pub fn beside_old_reads_by(alloc: Global, dice: &mut Dice, count: u64) -> Result<Parts, NoMemory> {
    let mut parts = nothing(alloc)?;
    parts.limit = 4096;
    let mut last = [Init; KEYS];
    for number in 0..count {
        for session in 0..2u8 {
            let read = dice.roll(12) as usize;
            let write = dice.roll(12) as usize;
            let source = last[read];
            let txn = pair_of(alloc, (5 + read as u64, source), 5 + write as u64)?;
            append(alloc, &mut parts, session, txn)?;
            last[write] = By(TxnId { session, number });
        }
        append(alloc, &mut parts, 2, old_read_of(alloc, 5 + dice.roll(12))?)?;
    }
    Ok(parts)
}

/// Fences of sessions, each behind the one before it.
static FENCES: [(u8, Source); 5] = [
    (0, Init),
    (
        1,
        By(TxnId {
            session: 0,
            number: 1,
        }),
    ),
    (
        2,
        By(TxnId {
            session: 1,
            number: 1,
        }),
    ),
    (
        0,
        By(TxnId {
            session: 2,
            number: 1,
        }),
    ),
    (
        1,
        By(TxnId {
            session: 0,
            number: 2,
        }),
    ),
];

fn fences() -> &'static [(u8, Source)] {
    &FENCES
}

/// Two transactions of each session, over two keys.
fn append_drawn(alloc: Global, dice: &mut Dice, parts: &mut Parts) -> Result<(), NoMemory> {
    for turn in 0..6u64 {
        append(alloc, parts, (turn % 3) as u8, txn_by(alloc, dice)?)?;
    }
    Ok(())
}

/// Three sessions, each with a transaction in front of the fences, as a store would answer it, and two behind them.
pub fn fenced_by(alloc: Global, dice: &mut Dice) -> Result<Parts, NoMemory> {
    let mut parts = stored_by(alloc, dice, 3)?;
    for (session, source) in fences() {
        append(
            alloc,
            &mut parts,
            *session,
            pair_of(alloc, (0, *source), 0)?,
        )?;
    }
    append_drawn(alloc, dice, &mut parts)?;
    Ok(parts)
}
