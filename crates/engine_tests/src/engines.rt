//! Rounds of engines, step by step, in lists of steps and call by call.
use crate::steps::{
    Act, Content, ID_0_0, ID_1_0, Row, Want, assert_reply, assert_run, fragment_of,
};
use order_check::Kind::{Pending, Serial, Spent, Violated};
use polygraph::{Answer, Single, Solver};
use refutation::{Leaf, Tree};
use round_state::{Engine, Report, StepReply, received_counts};
use std::alloc::Global;
use std::process::Abort;
use std::test::*;
use txn::Refusal::{BadCertificate, BadSession, Closed, NoMemory, NoRound, RoundOpen, TooLong};
use txn::Source::{By, Init};
use txn::{Refusal, Sequence, TxnId};

const WRITES_5: Content = (&[], &[5]);

const READS_5_INIT: Content = (&[(5, Init)], &[]);

const READS_5_OF_0_0: Content = (&[(5, By(ID_0_0))], &[]);

static ROWS: [Row; 2] = [
    // What arrives while a round is open, and is closed then, is the next round's.
    &[
        (Act::Offer(0, 0, WRITES_5), Want::Done),
        (Act::Offer(1, 0, READS_5_INIT), Want::Done),
        (Act::Begin, Want::Done),
        (Act::Offer(1, 1, READS_5_INIT), Want::Done),
        (Act::Offer(0, 1, READS_5_INIT), Want::Done),
        (Act::Close(0), Want::Done),
        (Act::Close(0), Want::No(Closed)),
        (Act::Offer(0, 2, WRITES_5), Want::No(Closed)),
        (
            Act::Finish,
            Want::Report(1, Serial, &[1, 1], &[ID_1_0, ID_0_0]),
        ),
        (Act::Begin, Want::Done),
        (Act::Finish, Want::Report(2, Violated, &[2, 2], &[])),
        (Act::Finish, Want::No(NoRound)),
    ],
    // A round that is abandoned doesn't use up its number.
    &[
        (Act::Abandon, Want::No(NoRound)),
        (Act::Offer(1, 0, READS_5_OF_0_0), Want::Done),
        (Act::Begin, Want::Done),
        (Act::Begin, Want::No(RoundOpen)),
        (Act::Abandon, Want::Done),
        (Act::Finish, Want::No(NoRound)),
        (Act::Begin, Want::Done),
        (Act::Finish, Want::Report(1, Pending, &[0, 1], &[ID_1_0])),
        (Act::Offer(0, 0, WRITES_5), Want::Done),
        (Act::Begin, Want::Done),
        (
            Act::Finish,
            Want::Report(2, Serial, &[1, 1], &[ID_0_0, ID_1_0]),
        ),
        (Act::Close(2), Want::No(BadSession)),
    ],
];

fn rows() -> &'static [Row] {
    &ROWS
}

fn assert_fresh(rt: &impl Abort, alloc: Global, row: Row) -> Result<(), Refusal> {
    let mut engine = Engine::open(alloc, 64, 2, 8)?;
    Ok(assert_run(rt, alloc, &mut engine, row)?)
}

#[test]
fn lists_of_steps_have_their_replies(rt: HostRuntime) -> Result<(), Fail> {
    for row in rows() {
        assert_fresh(&rt, rt.alloc(), *row)?;
    }
    Ok(())
}

/// Offers a writer of key 5 and a reader of it from the initial state, and opens a round.
fn open_round(alloc: Global, engine: &mut Engine) -> Result<(), Refusal> {
    let writer = fragment_of(alloc, 0, 0, WRITES_5)?;
    engine.offer(alloc, writer)?;
    let reader = fragment_of(alloc, 1, 0, READS_5_INIT)?;
    engine.offer(alloc, reader)?;
    let _problem = engine.begin(alloc)?;
    Ok(())
}

/// An engine with such a round.
fn reader_first(alloc: Global) -> Result<Engine, Refusal> {
    let mut engine = Engine::open(alloc, 64, 2, 8)?;
    open_round(alloc, &mut engine)?;
    Ok(engine)
}

static FINISHED: [(Act, Want); 1] = [(
    Act::Finish,
    Want::Report(1, Serial, &[1, 1], &[ID_1_0, ID_0_0]),
)];

fn finished() -> Row {
    &FINISHED
}

fn assert_finished(rt: &impl Abort, alloc: Global) -> Result<(), Refusal> {
    let mut engine = reader_first(alloc)?;
    Ok(assert_run(rt, alloc, &mut engine, finished())?)
}

#[test]
fn a_list_of_steps_finishes_a_round_opened_before(rt: HostRuntime) -> Result<(), Fail> {
    Ok(assert_finished(&rt, rt.alloc())?)
}

/// An answer, as rows have it.
#[derive(Clone, Copy)]
enum Told {
    Yes(&'static [TxnId]),
    /// A cycle of no arcs.
    No,
    Spent,
    NoMemory,
}

/// Answers to that round, one after another, each with the reply: a wrong one leaves the round open.
static ANSWERS: [(Told, Want); 6] = [
    (Told::Yes(&[ID_0_0, ID_1_0]), Want::No(BadCertificate)),
    (Told::Yes(&[ID_1_0]), Want::No(BadCertificate)),
    (Told::No, Want::No(BadCertificate)),
    (Told::NoMemory, Want::No(NoMemory)),
    (Told::Spent, Want::Report(1, Spent, &[1, 1], &[])),
    (Told::Spent, Want::No(NoRound)),
];

fn answers() -> &'static [(Told, Want)] {
    &ANSWERS
}

fn answer_of(alloc: Global, told: Told) -> Result<Answer, txn::NoMemory> {
    match told {
        Told::Yes(ids) => Ok(Answer::Yes(Sequence::new(ids.to_vec(alloc)?))),
        Told::No => Ok(Answer::No(Tree::Close(Leaf::Cycle(Sequence::new(Vec::new(alloc)))))),
        Told::Spent => Ok(Answer::Spent),
        Told::NoMemory => Ok(Answer::NoMemory),
    }
}

fn of_finish(answered: Result<Report, Refusal>) -> StepReply {
    match answered {
        Ok(report) => StepReply::Report(report),
        Err(refusal) => StepReply::Refused(refusal),
    }
}

fn reply_to(alloc: Global, engine: &mut Engine, told: Told) -> Result<StepReply, txn::NoMemory> {
    let answer = answer_of(alloc, told)?;
    Ok(of_finish(engine.finish(alloc, answer)))
}

fn assert_answers(rt: &impl Abort, alloc: Global, engine: &mut Engine) -> Result<(), Refusal> {
    for (place, (told, want)) in answers().iter().enumerate() {
        let reply = reply_to(alloc, engine, *told)?;
        assert_reply(rt, alloc, place, &reply, *want)?;
    }
    Ok(())
}

/// The round after the spent one is the next by its number, and about the same.
static AFTER_SPENT: [(Act, Want); 2] = [
    (Act::Begin, Want::Done),
    (
        Act::Finish,
        Want::Report(2, Serial, &[1, 1], &[ID_1_0, ID_0_0]),
    ),
];

fn after_spent() -> Row {
    &AFTER_SPENT
}

fn assert_answered(rt: &impl Abort, alloc: Global) -> Result<(), Refusal> {
    let mut engine = reader_first(alloc)?;
    assert_answers(rt, alloc, &mut engine)?;
    Ok(assert_run(rt, alloc, &mut engine, after_spent())?)
}

#[test]
fn a_wrong_answer_leaves_the_round_open_and_spent_ends_it(rt: HostRuntime) -> Result<(), Fail> {
    Ok(assert_answered(&rt, rt.alloc())?)
}

/// The answer to the open round's problem, where one is open.
fn solved(alloc: Global, engine: &Engine) -> Option<Answer> {
    let problem = engine.problem()?;
    Some(Single.solve(alloc, problem, 1, 0, 1))
}

fn has_counts(alloc: Global, engine: &Engine) -> Result<bool, txn::NoMemory> {
    let counts = received_counts(alloc, engine.parts())?;
    Ok(counts.as_slice() == [1, 1].as_slice())
}

fn assert_seen(rt: &impl Abort, alloc: Global) -> Result<(), Refusal> {
    let engine = reader_first(alloc)?;
    assert_eq!(rt; engine.remaining(), 2);
    assert!(rt; has_counts(alloc, &engine)?);
    assert!(rt; matches!(solved(alloc, &engine), Some(Answer::Yes(_))));
    Ok(())
}

#[test]
fn what_an_engine_shows(rt: HostRuntime) -> Result<(), Fail> {
    Ok(assert_seen(&rt, rt.alloc())?)
}

/// How many sessions there may be, how many there are, a limit, and how an engine of them is refused.
static NUMBERS: [(u64, u64, u64, Option<Refusal>); 16] = [
    (64, 1, 1, None),
    (64, 64, 4097, None),
    (64, 64, 1_048_576, None),
    (64, 0, 1_048_577, Some(BadSession)),
    (64, 65, 1_048_576, Some(BadSession)),
    (64, 1, 0, Some(TooLong)),
    (64, 64, 1_048_577, Some(TooLong)),
    (256, 65, 1, None),
    (256, 256, 1_048_576, None),
    (256, 257, 1, Some(BadSession)),
    (256, 256, 1_048_577, Some(TooLong)),
    (255, 256, 1, Some(BadSession)),
    (257, 1, 1, Some(BadSession)),
    (257, 257, 1, Some(BadSession)),
    (u64::MAX, 1, 1, Some(BadSession)),
    (0, 1, 1, Some(BadSession)),
];

fn numbers() -> &'static [(u64, u64, u64, Option<Refusal>)] {
    &NUMBERS
}

fn refusal_of(alloc: Global, most_sessions: u64, sessions: u64, limit: u64) -> Option<Refusal> {
    Engine::open(alloc, most_sessions, sessions, limit).err()
}

#[test]
fn engines_of_such_numbers(rt: HostRuntime) {
    for (most, sessions, limit, wanted) in numbers() {
        assert_eq!(rt; refusal_of(rt.alloc(), *most, *sessions, *limit), *wanted);
    }
}
