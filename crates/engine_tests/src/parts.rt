//! Parts that an engine is to go on from: which come back, and what it answers over the others.
use crate::steps::{Act, Content, ID_0_0, ID_0_1, ID_0_2, ID_1_0, Row, Want, assert_run};
use order_check::Kind::Serial;
use order_check::{Base, LastWriters, Parts};
use round_state::Engine;
use std::alloc::Global;
use std::process::Abort;
use std::test::*;
use txn::Refusal::{self, BadParts, BadSession, NoCut, NoRound, Repeat, TooLong};
use txn::Source::{By, Init};
use txn::{NoMemory, Sequence, Txn, TxnId};

const ID_0_3: TxnId = TxnId {
    session: 0,
    number: 3,
};

/// 2^48, which is no number of a transaction.
const ALL: u64 = 281_474_976_710_656;

const WRITES_5: Content = (&[], &[5]);

const READS_5_OF_0_0: Content = (&[(5, By(ID_0_0))], &[]);

/// One session: its mark, the last writers that are gone, and what remains. Where an engine goes on from them, its steps with their replies.
#[derive(Clone, Copy)]
struct Case {
    name: &'static str,
    mark: u64,
    last: &'static [(u64, TxnId)],
    remain: &'static [Content],
    closed: &'static [bool],
    most_sessions: u64,
    limit: u64,
    steps: Option<Row>,
}

/// Nothing is gone, nothing remains.
const EMPTY: Case = Case {
    name: "empty",
    mark: 0,
    last: &[],
    remain: &[],
    closed: &[false],
    most_sessions: 64,
    limit: 16,
    steps: None,
};

static CASES: [Case; 15] = [
    Case {
        name: "a flag too many",
        closed: &[false, false],
        ..EMPTY
    },
    Case {
        name: "there may be no session",
        most_sessions: 0,
        ..EMPTY
    },
    Case {
        name: "there may be 257 sessions",
        most_sessions: 257,
        ..EMPTY
    },
    Case {
        name: "limit 0",
        limit: 0,
        ..EMPTY
    },
    Case {
        name: "limit 1048577",
        limit: 1_048_577,
        ..EMPTY
    },
    Case {
        name: "more than the limit",
        remain: &[WRITES_5, WRITES_5],
        limit: 1,
        ..EMPTY
    },
    Case {
        name: "a number too high",
        mark: ALL,
        remain: &[WRITES_5],
        ..EMPTY
    },
    Case {
        name: "a last writer that is to come",
        mark: 3,
        last: &[(5, ID_0_3)],
        ..EMPTY
    },
    Case {
        name: "a last writer of no session",
        last: &[(5, ID_1_0)],
        ..EMPTY
    },
    Case {
        name: "a read from itself",
        remain: &[READS_5_OF_0_0],
        ..EMPTY
    },
    Case {
        name: "there may be one session",
        most_sessions: 1,
        steps: Some(&[
            (Act::Offer(0, 0, FENCE_OF_INIT), Want::Done),
            (Act::Join(1, 0, FENCE_OF_0_0), Want::No(BadSession)),
        ]),
        ..EMPTY
    },
    Case {
        name: "all numbers used up",
        mark: ALL,
        steps: Some(&[
            (Act::Offer(0, ALL, WRITES_5), Want::No(TooLong)),
            (Act::Begin, Want::Done),
            (Act::Finish, Want::Report(1, Serial, &[ALL], &[])),
        ]),
        ..EMPTY
    },
    Case {
        name: "a last writer that is gone",
        mark: 3,
        last: &[(5, ID_0_2)],
        steps: Some(&[
            (Act::Offer(0, 3, (&[(5, By(ID_0_2))], &[])), Want::Done),
            (Act::Begin, Want::Done),
            (Act::Finish, Want::Report(1, Serial, &[4], &[ID_0_3])),
        ]),
        ..EMPTY
    },
    // No history has these parts: 0.0 would be a fence that writes another key. The verdict is by the base.
    Case {
        name: "parts of no history",
        mark: 1,
        last: &[(0, ID_0_0), (5, ID_0_0)],
        steps: Some(&[
            (Act::Offer(0, 1, READS_5_OF_0_0), Want::Done),
            (Act::Begin, Want::Done),
            (Act::Finish, Want::Report(1, Serial, &[2], &[ID_0_1])),
            (Act::Offer(0, 2, (&[(5, Init)], &[])), Want::Done),
            (Act::Begin, Want::Done),
            (Act::Finish, Want::Gone(2, &[3], ID_0_2, 5)),
        ]),
        ..EMPTY
    },
    Case {
        steps: Some(&[
            (Act::Offer(0, 0, WRITES_5), Want::Done),
            (Act::Begin, Want::Done),
            (Act::Finish, Want::Report(1, Serial, &[1], &[ID_0_0])),
        ]),
        ..EMPTY
    },
];

fn cases() -> &'static [Case] {
    &CASES
}

fn last_writers(alloc: Global, rows: &[(u64, TxnId)]) -> Result<LastWriters, NoMemory> {
    let mut last = LastWriters::new(alloc);
    for (key, writer) in rows {
        last.insert(*key, *writer)?;
    }
    Ok(last)
}

fn txn_of(alloc: Global, content: Content) -> Result<Txn, NoMemory> {
    Ok(Txn {
        reads: Sequence::new(content.0.to_vec(alloc)?),
        writes: Sequence::new(content.1.to_vec(alloc)?),
    })
}

fn txns_of(alloc: Global, contents: &[Content]) -> Result<Sequence<Txn>, NoMemory> {
    let mut txns = Vec::new(alloc);
    for content in contents {
        txns.push(txn_of(alloc, *content)?)?;
    }
    Ok(Sequence::new(txns))
}

fn base_of(alloc: Global, case: &Case) -> Result<Base, NoMemory> {
    Ok(Base {
        last: last_writers(alloc, case.last)?,
        marks: Sequence::new([case.mark].to_vec(alloc)?),
    })
}

fn parts_of(alloc: Global, case: &Case) -> Result<Parts, NoMemory> {
    let txns = txns_of(alloc, case.remain)?;
    Ok(Parts {
        base: base_of(alloc, case)?,
        remain: Sequence::new(vec![in alloc; txns]?),
        closed: Sequence::new(case.closed.to_vec(alloc)?),
        most_sessions: case.most_sessions,
        limit: case.limit,
    })
}

/// Whether the parts are those of the case, as far as their sizes show it.
fn are_of(alloc: Global, parts: &Parts, case: &Case) -> Result<bool, NoMemory> {
    let last = parts.base.last.entries(alloc)?;
    Ok(
        last.as_slice() == case.last
            && parts.mark_of(0) == case.mark
            && parts.remaining_of(0).len() == case.remain.len()
            && parts.closed.as_slice() == case.closed
            && parts.most_sessions == case.most_sessions
            && parts.limit == case.limit,
    )
}

fn assert_back(
    rt: &impl Abort,
    alloc: Global,
    back: &(Parts, Refusal),
    case: &Case,
) -> Result<(), NoMemory> {
    assert!(rt; case.steps.is_none() && back.1 == BadParts, "{}", case.name);
    assert!(rt; are_of(alloc, &back.0, case)?, "{}", case.name);
    Ok(())
}

fn assert_goes_on(
    rt: &impl Abort,
    alloc: Global,
    engine: &mut Engine,
    case: &Case,
) -> Result<(), NoMemory> {
    match case.steps {
        Some(steps) => assert_run(rt, alloc, engine, steps),
        None => panic!(rt; "{}", case.name),
    }
}

fn assert_case(rt: &impl Abort, alloc: Global, case: &Case) -> Result<(), NoMemory> {
    let parts = parts_of(alloc, case)?;
    match Engine::from_parts(alloc, parts) {
        Ok(mut engine) => assert_goes_on(rt, alloc, &mut engine, case),
        Err(back) => assert_back(rt, alloc, &back, case),
    }
}

#[test]
fn bad_parts_come_back(rt: HostRuntime) -> Result<(), Fail> {
    for case in cases() {
        assert_case(&rt, rt.alloc(), case)?;
    }
    Ok(())
}

const FENCE_OF_INIT: Content = (&[(0, Init)], &[0]);

const FENCE_OF_0_0: Content = (&[(0, By(ID_0_0))], &[0]);

const FENCE_OF_0_1: Content = (&[(0, By(ID_0_1))], &[0]);

/// A cut is held, and the next round is open.
static BEFORE: [(Act, Want); 6] = [
    (Act::Offer(0, 0, WRITES_5), Want::Done),
    (Act::Offer(0, 1, FENCE_OF_INIT), Want::Done),
    (Act::Offer(1, 0, FENCE_OF_0_1), Want::Done),
    (Act::Begin, Want::Done),
    (
        Act::Finish,
        Want::Report(1, Serial, &[2, 1], &[ID_0_0, ID_0_1, ID_1_0]),
    ),
    (Act::Begin, Want::Done),
];

/// Neither is any more, and nothing else is lost: the same round, by its first number, finds the same cut.
static AFTER: [(Act, Want); 7] = [
    (Act::Finish, Want::No(NoRound)),
    (Act::Truncate, Want::No(NoCut)),
    (Act::Offer(0, 0, WRITES_5), Want::No(Repeat)),
    (Act::Begin, Want::Done),
    (
        Act::Finish,
        Want::Report(1, Serial, &[2, 1], &[ID_0_0, ID_0_1, ID_1_0]),
    ),
    (
        Act::Truncate,
        Want::Cut(ID_0_1, &[ID_0_0, ID_0_1], &[(0, ID_0_1), (5, ID_0_0)]),
    ),
    (Act::Offer(0, 2, READS_5_OF_0_0), Want::Done),
];

fn before() -> Row {
    &BEFORE
}

fn after() -> Row {
    &AFTER
}

/// What is left of an engine with an open round and a held cut.
fn handed_on(rt: &impl Abort, alloc: Global) -> Result<Parts, Refusal> {
    let mut engine = Engine::open(alloc, 64, 2, 8)?;
    assert_run(rt, alloc, &mut engine, before())?;
    Ok(engine.into_parts())
}

/// An engine that goes on from what is left of another.
fn goes_on(rt: &impl Abort, alloc: Global) -> Result<Engine, Refusal> {
    let parts = handed_on(rt, alloc)?;
    match Engine::from_parts(alloc, parts) {
        Ok(engine) => Ok(engine),
        Err(back) => Err(back.1),
    }
}

#[test]
fn an_engine_goes_on_from_the_parts_of_another(rt: HostRuntime) -> Result<(), Fail> {
    let mut engine = goes_on(&rt, rt.alloc())?;
    assert_run(&rt, rt.alloc(), &mut engine, after())?;
    Ok(())
}
