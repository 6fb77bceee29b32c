//! Engines of 256 sessions, as many as there may be: the last of them counts as any other.
use crate::cuts::{FENCE_INIT, READS_5_INIT, WRITES_5};
use crate::steps::{Act, Content, ID_0_0, Row, Want, assert_run};
use logged_fragments::LoggedFragment;
use order_check::Kind::{self, Pending, Serial, Violated};
use order_check::{Base, LastWriters, Parts};
use polygraph::{Single, Solver};
use round_state::{Engine, Report};
use std::alloc::Global;
use std::process::Abort;
use std::test::*;
use txn::Refusal::{self, BadParts, BadSession, Closed, Gap, Repeat};
use txn::Source::{By, Init};
use txn::{Fragment, NoMemory, Sequence, Source, Txn, TxnId};

const ID_64_0: TxnId = TxnId {
    session: 64,
    number: 0,
};

const ID_255_0: TxnId = TxnId {
    session: 255,
    number: 0,
};

const ID_255_1: TxnId = TxnId {
    session: 255,
    number: 1,
};

const FENCE_0_0: Content = (&[(0, By(ID_0_0))], &[0]);

const READS_5_OF_0_0: Content = (&[(5, By(ID_0_0))], &[]);

const READS_5_OF_255_1: Content = (&[(5, By(ID_255_1))], &[]);

/// The report of a round.
fn round(alloc: Global, engine: &mut Engine) -> Result<Report, Refusal> {
    let problem = engine.begin(alloc)?;
    let answer = Single.solve(alloc, &problem, 32, 0, 1);
    engine.finish(alloc, answer)
}

/// How many of the first session are counted, of each other one, and of the last.
type Counts = (u64, u64, u64);

fn count_in(counts: Counts, session: usize) -> u64 {
    match session {
        0 => counts.0,
        255 => counts.2,
        _ => counts.1,
    }
}

fn assert_report(rt: &impl Abort, report: &Report, kind: Kind, counts: Counts) {
    assert_eq!(rt; report.kind, kind);
    assert_eq!(rt; report.counts.len(), 256);
    for (session, count) in report.counts.as_slice().iter().enumerate() {
        assert_eq!(rt; *count, count_in(counts, session), "session {session}");
    }
}

fn assert_round(
    rt: &impl Abort,
    alloc: Global,
    engine: &mut Engine,
    kind: Kind,
    counts: Counts,
) -> Result<(), Refusal> {
    let report = round(alloc, engine)?;
    assert_report(rt, &report, kind, counts);
    Ok(())
}

fn fence_of(alloc: Global, session: u8, source: Source) -> Result<LoggedFragment, NoMemory> {
    let txn = Txn {
        reads: Sequence::new(vec![in alloc; (0, source)]?),
        writes: Sequence::new(vec![in alloc; 0]?),
    };
    let fragment = Fragment {
        session,
        first: 0,
        txns: Sequence::new(vec![in alloc; txn]?),
    };
    Ok(LoggedFragment::committed(alloc, fragment))
}

/// A fence of each session, each after that of the session before.
fn offer_fences(alloc: Global, engine: &mut Engine) -> Result<(), Refusal> {
    let mut source = Init;
    for session in 0..256u64 {
        let session = session as u8;
        let fence = fence_of(alloc, session, source)?;
        engine.offer(alloc, fence)?;
        source = By(TxnId { session, number: 0 });
    }
    Ok(())
}

/// Every session is past the first fence, and the first session past no other.
static CUT: [(Act, Want); 3] = [
    (Act::Truncate, Want::Cut(ID_0_0, &[ID_0_0], &[(0, ID_0_0)])),
    (Act::Offer(255, 1, WRITES_5), Want::Done),
    (Act::Offer(0, 1, READS_5_OF_255_1), Want::Done),
];

/// What the last session reads, it wrote before.
static MISSED: [(Act, Want); 1] = [(Act::Offer(255, 2, READS_5_INIT), Want::Done)];

/// What an engine answers that goes on from what is left.
static LEFT: [(Act, Want); 6] = [
    (Act::Offer(255, 2, WRITES_5), Want::No(Repeat)),
    (Act::Offer(255, 4, WRITES_5), Want::No(Gap)),
    (Act::Offer(255, 3, WRITES_5), Want::Done),
    (Act::Close(255), Want::Done),
    (Act::Offer(255, 4, WRITES_5), Want::No(Closed)),
    (Act::Offer(0, 1, WRITES_5), Want::No(Repeat)),
];

fn cut() -> Row {
    &CUT
}

fn missed() -> Row {
    &MISSED
}

fn left() -> Row {
    &LEFT
}

/// Of 256 sessions all run a fence, one after another; what is in front of the first is cut off.
fn assert_rounds(rt: &impl Abort, alloc: Global) -> Result<Engine, Refusal> {
    let mut engine = Engine::open(alloc, 256, 256, 1024)?;
    offer_fences(alloc, &mut engine)?;
    assert_round(rt, alloc, &mut engine, Serial, (1, 1, 1))?;
    assert_run(rt, alloc, &mut engine, cut())?;
    assert_round(rt, alloc, &mut engine, Serial, (2, 1, 2))?;
    assert_run(rt, alloc, &mut engine, missed())?;
    assert_round(rt, alloc, &mut engine, Violated, (2, 1, 3))?;
    Ok(engine)
}

fn assert_goes_on(rt: &impl Abort, alloc: Global, parts: Parts) -> Result<(), Refusal> {
    match Engine::from_parts(alloc, parts) {
        Ok(engine) => {
            let mut engine = engine;
            assert_run(rt, alloc, &mut engine, left())?;
            assert_round(rt, alloc, &mut engine, Violated, (2, 1, 4))
        }
        Err(back) => Err(back.1),
    }
}

fn assert_lives(rt: &impl Abort, alloc: Global) -> Result<(), Refusal> {
    let engine = assert_rounds(rt, alloc)?;
    assert_goes_on(rt, alloc, engine.into_parts())
}

#[test]
fn an_engine_of_256_sessions(rt: HostRuntime) -> Result<(), Fail> {
    Ok(assert_lives(&rt, rt.alloc())?)
}

/// How many sessions there may be, how many there are, and what a further session gets that joins.
static JOINS: [(u64, u64, u8, Option<Refusal>); 7] = [
    (64, 63, 63, None),
    (64, 64, 64, Some(BadSession)),
    (256, 64, 64, None),
    (256, 255, 255, None),
    (256, 254, 255, Some(BadSession)),
    (255, 255, 255, Some(BadSession)),
    (256, 256, 255, Some(BadSession)),
];

fn joins() -> &'static [(u64, u64, u8, Option<Refusal>)] {
    &JOINS
}

static FENCE: [(Act, Want); 1] = [(Act::Offer(0, 0, FENCE_INIT), Want::Done)];

fn fence() -> Row {
    &FENCE
}

/// The join's refusal, where it is refused, and how many sessions there are then.
fn joined(
    rt: &impl Abort,
    alloc: Global,
    most: u64,
    sessions: u64,
    session: u8,
) -> Result<(Option<Refusal>, usize), Refusal> {
    let mut engine = Engine::open(alloc, most, sessions, 16)?;
    assert_run(rt, alloc, &mut engine, fence())?;
    let fence = fence_of(alloc, session, By(ID_0_0))?;
    let refusal = engine.join(alloc, fence).err();
    Ok((refusal, engine.parts().sessions()))
}

fn assert_joins(rt: &impl Abort, alloc: Global) -> Result<(), Refusal> {
    for (most, sessions, session, wanted) in joins() {
        let (refusal, count) = joined(rt, alloc, *most, *sessions, *session)?;
        assert!(rt; refusal == *wanted, "{session} of {most}");
        let more = u64::from(wanted.is_none());
        assert!(rt;
            count as u64 == sessions.wrapping_add(more),
            "{session} of {most}"
        );
    }
    Ok(())
}

#[test]
fn sessions_join_up_to_the_bound(rt: HostRuntime) -> Result<(), Fail> {
    Ok(assert_joins(&rt, rt.alloc())?)
}

fn txns_of(alloc: Global, content: Content) -> Result<Sequence<Txn>, NoMemory> {
    let txn = Txn {
        reads: Sequence::new(content.0.to_vec(alloc)?),
        writes: Sequence::new(content.1.to_vec(alloc)?),
    };
    Ok(Sequence::new(vec![in alloc; txn]?))
}

/// Parts of so many sessions and one more, which has one transaction; of the others nothing was received.
fn parts_of(
    alloc: Global,
    most_sessions: u64,
    others: usize,
    content: Content,
) -> Result<Parts, NoMemory> {
    let mut marks = Vec::new(alloc);
    let mut remain = Vec::new(alloc);
    let mut closed = Vec::new(alloc);
    for _ in 0..others {
        marks.push(0)?;
        remain.push(Sequence::new(Vec::new(alloc)))?;
        closed.push(false)?;
    }
    marks.push(0)?;
    remain.push(txns_of(alloc, content)?)?;
    closed.push(false)?;
    Ok(Parts {
        base: Base {
            last: LastWriters::new(alloc),
            marks: Sequence::new(marks),
        },
        remain: Sequence::new(remain),
        closed: Sequence::new(closed),
        most_sessions,
        limit: 16,
    })
}

/// How many sessions there may be, how many are in front of the last, what that has, and whether an engine goes on from it.
static PARTS: [(u64, usize, Content, bool); 12] = [
    (64, 63, WRITES_5, true),
    (64, 64, WRITES_5, false),
    (256, 64, WRITES_5, true),
    (255, 255, WRITES_5, false),
    (256, 255, WRITES_5, true),
    (256, 256, WRITES_5, false),
    (257, 255, WRITES_5, false),
    (257, 256, WRITES_5, false),
    // It reads from itself.
    (256, 255, (&[(5, By(ID_255_0))], &[]), false),
    (64, 63, (&[(5, By(ID_64_0))], &[]), false),
    (256, 63, (&[(5, By(ID_64_0))], &[]), true),
    (256, 63, (&[(5, By(ID_255_0))], &[]), true),
];

fn parts() -> &'static [(u64, usize, Content, bool)] {
    &PARTS
}

/// Whether an engine goes on from the parts; else they come back as bad ones.
fn goes_on(rt: &impl Abort, alloc: Global, parts: Parts) -> bool {
    match Engine::from_parts(alloc, parts) {
        Ok(_) => true,
        Err(back) => {
            assert_eq!(rt; back.1, BadParts);
            false
        }
    }
}

#[test]
fn parts_up_to_the_bound(rt: HostRuntime) -> Result<(), Fail> {
    for (most, others, content, wanted) in parts() {
        let parts = parts_of(rt.alloc(), *most, *others, *content)?;
        assert_eq!(rt;
            goes_on(&rt, rt.alloc(), parts),
            *wanted,
            "{others} of {most}"
        );
    }
    Ok(())
}

/// What the last session reads arrives; so it was waited for.
static ARRIVES: [(Act, Want); 2] = [
    (Act::Offer(255, 0, WRITES_5), Want::No(Repeat)),
    (Act::Offer(0, 0, WRITES_5), Want::Done),
];

fn arrives() -> Row {
    &ARRIVES
}

fn assert_awaited(rt: &impl Abort, alloc: Global, engine: &mut Engine) -> Result<(), Refusal> {
    assert_round(rt, alloc, engine, Pending, (0, 0, 1))?;
    assert_run(rt, alloc, engine, arrives())?;
    assert_round(rt, alloc, engine, Serial, (1, 0, 1))
}

fn assert_awaits(rt: &impl Abort, alloc: Global) -> Result<(), Refusal> {
    let parts = parts_of(alloc, 256, 255, READS_5_OF_0_0)?;
    match Engine::from_parts(alloc, parts) {
        Ok(engine) => {
            let mut engine = engine;
            assert_awaited(rt, alloc, &mut engine)
        }
        Err(back) => Err(back.1),
    }
}

#[test]
fn the_last_of_256_sessions_waits(rt: HostRuntime) -> Result<(), Fail> {
    Ok(assert_awaits(&rt, rt.alloc())?)
}
