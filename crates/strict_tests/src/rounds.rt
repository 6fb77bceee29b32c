//! Scripts over small histories with times, beside a trial of all their orders.
ghost use Rattle.std.specs.Prelude.{◌<◌};

use crate::asked::{Asked, asked_by};
use cobra::{Failure, Means, MemorySink, MemorySource, Pace, Solvers, serve};
use order_check::{Base, Kind, LastWriters, Parts, explains};
use polygraph::Single;
use std::alloc::Global;
use std::process::Abort;
use std::sync::Wait;
use std::test::Fail;
use std::thread;
use std::thread::Threads;
use strict_histories::{Span, TimedTxn};
use txn::Source::{self, By, Init};
use txn::{NoMemory, Sequence, Txn, TxnId};

/// How many histories are tried.
const HISTORIES: u64 = 2_000;

/// Two transactions of session 0, one of session 1 and one of session 2.
static IDS: [TxnId; 4] = [
    TxnId {
        session: 0,
        number: 0,
    },
    TxnId {
        session: 0,
        number: 1,
    },
    TxnId {
        session: 1,
        number: 0,
    },
    TxnId {
        session: 2,
        number: 0,
    },
];

/// It never arrives.
const MISSING: TxnId = TxnId {
    session: 1,
    number: 1,
};

/// Their orders in which session 0 keeps its own, by places in the list of ids.
static ORDERS: [[usize; 4]; 12] = [
    [0, 1, 2, 3],
    [0, 1, 3, 2],
    [0, 2, 1, 3],
    [0, 2, 3, 1],
    [0, 3, 1, 2],
    [0, 3, 2, 1],
    [2, 0, 1, 3],
    [2, 0, 3, 1],
    [2, 3, 0, 1],
    [3, 0, 1, 2],
    [3, 0, 2, 1],
    [3, 2, 0, 1],
];

/// Numbers that are made from a seed, one after another.
#[derive(Drop)]
struct Dice {
    state: u64,
}

impl Dice {
    fn roll(&mut self, sides: u64) -> u64
        requires { 0 < sides }
        ensures { result < sides }
    {
        self.state = self.state % 2_147_483_648 * 1_103_515_245 + 12_345;
        self.state / 65_536 % sides
    }
}

/// A source other than the reader: the initial state, one of the four, or one that never arrives.
fn source_by(dice: &mut Dice, reader: TxnId) -> Source {
    match IDS.get(dice.roll(6) as usize) {
        Some(id) if *id != reader => By(*id),
        Some(_) => Init,
        None => if dice.roll(4) == 0 { By(MISSING) } else { Init },
    }
}

/// A transaction over two keys.
fn txn_by(alloc: Global, dice: &mut Dice, id: TxnId) -> Result<Txn, NoMemory> {
    let mut reads = Vec::new(alloc);
    let mut writes = Vec::new(alloc);
    for key in 5..7 {
        if dice.roll(2) == 0 {
            reads.push((key, source_by(dice, id)))?;
        }
        if dice.roll(2) == 0 {
            writes.push(key)?;
        }
    }
    Ok(Txn {
        reads: Sequence::new(reads),
        writes: Sequence::new(writes),
    })
}

/// Times that may be unknown; few of them end before they begin.
fn span_by(dice: &mut Dice, from: u64) -> Span
    requires { from < 100 }
{
    let began = from + dice.roll(5);
    let ended = began + dice.roll(4);
    Span {
        began: if dice.roll(6) == 0 { None } else { Some(began) },
        ended: match dice.roll(40) {
            0 => Some(began / 2),
            1..6 => None,
            _ => Some(ended),
        },
    }
}

fn is_missing(read: &(u64, Source)) -> bool {
    read.1 == By(MISSING)
}

/// Four transactions with their times.
#[derive(Drop)]
pub(crate) struct Made {
    pub(crate) txns: Vec<TimedTxn>,
}

fn made_by(alloc: Global, dice: &mut Dice) -> Result<Made, NoMemory> {
    let mut txns = Vec::new(alloc);
    for (place, id) in IDS.iter().enumerate() {
        let txn = txn_by(alloc, dice, *id)?;
        let span = span_by(dice, if place == 1 { 2 } else { 0 });
        txns.push(TimedTxn { txn, span })?;
    }
    Ok(Made { txns })
}

fn has_missing(txns: &[TimedTxn]) -> bool {
    for timed in txns {
        if timed
            .txn
            .reads
            .as_slice()
            .iter()
            .any(|read| is_missing(read))
        {
            return true;
        }
    }
    false
}

/// The transactions of a session, in order of number.
pub(crate) fn session_of(
    alloc: Global,
    made: &Made,
    session: u8,
) -> Result<Vec<TimedTxn>, NoMemory> {
    let mut own = Vec::new(alloc);
    for (id, timed) in IDS.iter().zip(made.txns.iter()) {
        if id.session == session {
            own.push(timed.clone()?)?;
        }
    }
    Ok(own)
}

fn untimed(alloc: Global, timed: &[TimedTxn]) -> Result<Sequence<Txn>, NoMemory> {
    let mut txns = Vec::new(alloc);
    for one in timed {
        txns.push(one.txn.clone()?)?;
    }
    Ok(Sequence::new(txns))
}

/// The same history without times, of which nothing is gone.
fn parts_of(alloc: Global, made: &Made) -> Result<Parts, NoMemory> {
    let mut remain = Vec::new(alloc);
    for session in 0..3 {
        let own = session_of(alloc, made, session)?;
        remain.push(untimed(alloc, own.as_slice())?)?;
    }
    Ok(Parts {
        base: Base {
            last: LastWriters::new(alloc),
            marks: Sequence::new([0, 0, 0].to_vec(alloc)?),
        },
        remain: Sequence::new(remain),
        closed: Sequence::new([false, false, false].to_vec(alloc)?),
        most_sessions: 64,
        limit: 16,
    })
}

fn span_at(made: &Made, place: usize) -> Span {
    match made.txns.get(place) {
        Some(timed) => timed.span,
        None => Span {
            began: None,
            ended: None,
        },
    }
}

/// Whether none that ended before another began comes after it.
fn keeps_time(made: &Made, order: &[usize]) -> bool {
    for (at, later) in order.iter().enumerate() {
        for earlier in order.iter().take(at) {
            if span_at(made, *later).ended_before(span_at(made, *earlier)) {
                return false;
            }
        }
    }
    true
}

fn ids_of(alloc: Global, order: &[usize]) -> Result<Vec<TxnId>, NoMemory> {
    let mut ids = Vec::new(alloc);
    for place in order {
        if let Some(id) = IDS.get(*place) {
            ids.push(*id)?;
        }
    }
    Ok(ids)
}

/// The verdict by a trial of each order.
fn tried(rt: &impl Abort, alloc: Global, made: &Made) -> Result<Kind, Fail> {
    let parts = parts_of(alloc, made)?;
    assert!(rt; parts.is_good());
    for order in &ORDERS {
        let ids = ids_of(alloc, order)?;
        if keeps_time(made, order) && explains(alloc, &parts, ids.as_slice())? {
            return if has_missing(made.txns.as_slice()) {
                Ok(Kind::Pending)
            } else {
                Ok(Kind::Serial)
            };
        }
    }
    Ok(Kind::Violated)
}

/// What is replied to the script.
fn replies<R: Threads + Wait>(rt: &R, alloc: Global, script: &str) -> Result<Vec<u8>, Failure> {
    let mut source = MemorySource {
        bytes: script.as_bytes(),
        pace: Pace::new(4096, 0),
        last_read: 0,
    };
    let mut sink = MemorySink {
        bytes: Vec::new(alloc),
        pace: Pace::new(4096, 0),
    };
    let solvers = Solvers {
        plain: Single,
        guided: Single,
    };
    thread::scope(thread::scope_env(), rt, |scope| {
        let means = Means {
            scope,
            rt,
            alloc,
            solvers: &solvers,
        };
        serve(&means, &mut source, &mut sink)
    })?;
    Ok(sink.bytes)
}

fn word_of(kind: Kind) -> &'static str {
    match kind {
        Kind::Serial => "serial",
        Kind::Pending => "pending",
        Kind::Violated => "violated",
        Kind::Spent => "spent",
    }
}

/// The script is answered so: each offer as its times are, and the round, if all are taken, by this kind.
fn assert_answered<R: Threads + Wait + Abort>(
    rt: &R,
    alloc: Global,
    asked: Asked,
    kind: Kind,
) -> Result<(), Fail> {
    let told = replies(rt, alloc, asked.script.as_str())?;
    let mut wanted = asked.replies;
    if asked.is_taken {
        let word = word_of(kind);
        wanted.push_str(format!(in alloc; "[\"report\",1,\"{word}\",[2,1,1],")?.as_str())?;
    }
    assert!(rt; told.starts_with(wanted.as_bytes()));
    Ok(())
}

/// Where a kind is counted.
fn place_of(is_taken: bool, kind: Kind) -> usize
    ensures { result < 4 }
{
    match kind {
        _ if !is_taken => 3,
        Kind::Serial => 0,
        Kind::Pending => 1,
        _ => 2,
    }
}

#[test]
fn small_histories_have_the_verdict_of_all_orders(rt: HostRuntime) -> Result<(), Fail> {
    let alloc = rt.alloc();
    let mut counts = [0u64; 4];
    for seed in 0..HISTORIES {
        let mut dice = Dice { state: seed };
        let made = made_by(alloc, &mut dice)?;
        let kind = tried(&rt, alloc, &made)?;
        let asked = asked_by(alloc, &made)?;
        let place = place_of(asked.is_taken, kind);
        assert_answered(&rt, alloc, asked, kind)?;
        counts[place] = counts[place].wrapping_add(1);
    }
    // There are many of each kind, so that the comparison says something.
    assert!(rt; counts.iter().all(|count| *count > HISTORIES / 100));
    Ok(())
}
