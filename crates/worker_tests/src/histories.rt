//! Histories with choices that a search splits: a worked one, and ones that are made from numbers.
ghost use Rattle.std.specs.Prelude.{◌<◌};

use clock_choices::Saturated;
use order_check::{Base, LastWriters, Parts};
use polygraph::Problem;
use std::alloc::Global;
use std::process::Abort;
use std::test::*;
use txn::{NoMemory, Sequence, Source, Txn, TxnId};

/// A read of a key from a session's first transaction.
pub type Read = (u64, u8);

/// Four writers and four readers: each way to order the writers of key 1 and those of key 2 fails one of the readers.
static REAL_SPLIT: [(&[Read], &[u64]); 8] = [
    (&[], &[1, 3]),
    (&[], &[1, 4]),
    (&[], &[2, 5]),
    (&[], &[2, 6]),
    (&[(1, 0), (5, 2), (6, 3)], &[]),
    (&[(1, 1), (5, 2), (6, 3)], &[]),
    (&[(2, 2), (3, 0), (4, 1)], &[]),
    (&[(2, 3), (3, 0), (4, 1)], &[]),
];

pub fn txn_of(alloc: Global, reads: &[Read], writes: &[u64]) -> Result<Txn, NoMemory> {
    let mut sources = Vec::new(alloc);
    for (key, session) in reads {
        let writer = TxnId {
            session: *session,
            number: 0,
        };
        sources.push((*key, Source::By(writer)))?;
    }
    Ok(Txn {
        reads: Sequence::new(sources),
        writes: Sequence::new(writes.to_vec(alloc)?),
    })
}

/// Parts of which nothing is gone.
pub fn whole(alloc: Global, remain: Vec<Sequence<Txn>>) -> Result<Parts, NoMemory> {
    let mut marks = Vec::new(alloc);
    let mut closed = Vec::new(alloc);
    for _ in &remain {
        marks.push(0)?;
        closed.push(false)?;
    }
    Ok(Parts {
        base: Base {
            last: LastWriters::new(alloc),
            marks: Sequence::new(marks),
        },
        remain: Sequence::new(remain),
        closed: Sequence::new(closed),
        most_sessions: 64,
        limit: 4096,
    })
}

/// A session of one transaction.
pub fn alone(alloc: Global, txn: Txn) -> Result<Sequence<Txn>, NoMemory> {
    let mut txns = Vec::new(alloc);
    txns.push(txn)?;
    Ok(Sequence::new(txns))
}

pub fn real_split(alloc: Global) -> Result<Parts, NoMemory> {
    let mut remain = Vec::new(alloc);
    for (reads, writes) in &REAL_SPLIT {
        let txn = txn_of(alloc, reads, writes)?;
        remain.push(alone(alloc, txn)?)?;
    }
    whole(alloc, remain)
}

/// Numbers that are made from a seed, one after another.
#[derive(Drop)]
pub struct Dice {
    state: u64,
}

impl Dice {
    pub fn of(seed: u64) -> Dice {
        Dice { state: seed }
    }

    fn roll(&mut self, sides: u64) -> u64
        requires { 0 < sides }
        ensures { result < sides }
    {
        self.state = self.state % 2_147_483_648 * 1_103_515_245 + 12_345;
        self.state / 65_536 % sides
    }
}

/// How many keys have two writers. Those of the first key are the first two sessions, and so on.
const KEYS: u8 = 4;

/// A writer of a key that another writes too, and of one that none else does.
fn writer_of(alloc: Global, session: u8) -> Result<Sequence<Txn>, NoMemory>
    requires { session < 8 }
{
    let key = u64::from(session / 2) + 1;
    alone(alloc, txn_of(alloc, &[], &[key, u64::from(session) + 10])?)
}

/// A reader of a key from one of its two writers that comes after both writers of another key.
fn reader_of(alloc: Global, key: u8, side: u8, behind: u8) -> Result<Sequence<Txn>, NoMemory>
    requires { (key < 4) × (side < 2) × (behind < 4) }
{
    let first = 2 * behind;
    let reads = [
        (u64::from(key) + 1, 2 * key + side),
        (u64::from(first) + 10, first),
        (u64::from(first) + 11, first + 1),
    ];
    alone(alloc, txn_of(alloc, &reads, &[])?)
}

/// Puts in one of so many of the readers of a key.
fn add_readers(
    alloc: Global,
    dice: &mut Dice,
    sparse: u64,
    key: u8,
    remain: &mut Vec<Sequence<Txn>>,
) -> Result<(), NoMemory>
    requires { (key < 4) × (0 < sparse) }
{
    for behind in 0..KEYS {
        for side in 0..2 {
            if behind != key && dice.roll(sparse) == 0 {
                remain.push(reader_of(alloc, key, side, behind)?)?;
            }
        }
    }
    Ok(())
}

/// Eight writers, and one in two or in three of 24 readers, each in a session of its own. Which of two writers comes first is open, and each
/// two readers that wait for one another's writers rule one way out of four.
pub fn history_by(alloc: Global, dice: &mut Dice) -> Result<Parts, NoMemory> {
    let mut remain = Vec::new(alloc);
    for session in 0..2 * KEYS {
        remain.push(writer_of(alloc, session)?)?;
    }
    let sparse = 2 + dice.roll(2);
    for key in 0..KEYS {
        add_readers(alloc, dice, sparse, key, &mut remain)?;
    }
    whole(alloc, remain)
}

/// Which of three keys each of eight transactions writes, one in two of them.
fn writes_by(alloc: Global, dice: &mut Dice) -> Result<Vec<Vec<u64>>, NoMemory> {
    let mut written = Vec::new(alloc);
    for _ in 0..8u8 {
        let mut keys = Vec::new(alloc);
        for key in 1..4u64 {
            if dice.roll(2) == 0 {
                keys.push(key)?;
            }
        }
        written.push(keys)?;
    }
    Ok(written)
}

/// What the transaction at the place writes: each two of them are a session.
fn written_at(written: &[Vec<u64>], place: u64) -> &[u64] {
    match written.get(place as usize) {
        Some(keys) => keys.as_slice(),
        None => &[],
    }
}

/// Reads of two in three of the keys, each from a transaction of another session, if that one writes the key.
fn reads_by(
    alloc: Global,
    dice: &mut Dice,
    session: u8,
    written: &[Vec<u64>],
) -> Result<Vec<(u64, Source)>, NoMemory> {
    let mut reads = Vec::new(alloc);
    for key in 1..4u64 {
        let place = dice.roll(8);
        let writer = TxnId {
            session: (place / 2) as u8,
            number: place % 2,
        };
        let writes = written_at(written, place).contains(&key);
        if dice.roll(3) > 0 && writer.session != session && writes {
            reads.push((key, Source::By(writer)))?;
        }
    }
    Ok(reads)
}

fn session_by(
    alloc: Global,
    dice: &mut Dice,
    session: u8,
    written: &[Vec<u64>],
) -> Result<Sequence<Txn>, NoMemory>
    requires { session < 4 }
{
    let mut txns = Vec::new(alloc);
    for number in 0..2u64 {
        let writes = written_at(written, 2 * u64::from(session) + number);
        txns.push(Txn {
            reads: Sequence::new(reads_by(alloc, dice, session, written)?),
            writes: Sequence::new(writes.to_vec(alloc)?),
        })?;
    }
    Ok(Sequence::new(txns))
}

/// Four sessions of two transactions each, that read and write three keys in any way.
pub fn small_history_by(alloc: Global, dice: &mut Dice) -> Result<Parts, NoMemory> {
    let written = writes_by(alloc, dice)?;
    let mut remain = Vec::new(alloc);
    for session in 0..4u8 {
        remain.push(session_by(alloc, dice, session, &written)?)?;
    }
    whole(alloc, remain)
}

pub fn problem_of(rt: &impl Abort, alloc: Global, parts: &Parts) -> Result<Problem, NoMemory> {
    assert!(rt; parts.is_good());
    let known = Saturated::of(alloc, parts)?;
    Problem::of(alloc, &known)
}
