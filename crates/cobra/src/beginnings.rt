//! How a script begins.
ghost use Rattle.std.specs.Prelude.{◌≡◌, ◌≢◌, IfErr, OnOk};
ghost use Rattle.txn.specs.declared.refusals.Refusal.{Refusal};
ghost use Rattle.cobra.specs.Scripts.{MayBegin, MayRemain, IsBeginningRefusal, Opens, OpensStrict, Resumes, Starts, AnswersFirst, BeginsAnew, room_of};
ghost use Rattle.cobra.specs.declared.stages.Stage.{Stage};

use crate::audits::Audit;
use crate::open_engine::OpenEngine;
use crate::stages::Stage;
use log_text::{Command, Opening, Promise, Reply, Version};
use round_state::is_sessions;
use std::alloc::Global;
use strict_offers::Offered;
use txn::Refusal;

/// Whether a script that is opened for this may begin with these numbers.
pub fn may_begin(opening: Opening, sessions: u64, limit: u64) -> Result<(), Refusal>
    ensures ok { OnOk result (MayBegin opening sessions limit) }
    ensures err { IfErr result (IsBeginningRefusal opening sessions limit) }
    ensures memory { IfErr result (λ refusal. refusal ≢ Refusal.NoMemory) }
{
    if !is_sessions(opening.version().most_sessions(), sessions) {
        return Err(Refusal::BadSession);
    }
    if limit < 1 || limit > opening.most_remaining() {
        return Err(Refusal::TooLong);
    }
    Ok(())
}

/// For how many transactions an engine has room: for two of each, where they are split.
pub fn room_of(opening: Opening, limit: u64) -> u64
    requires { MayRemain opening limit }
    ensures { result ≡ room_of opening limit }
{
    match opening {
        Opening::Ordered(_) => limit,
        Opening::Isolated(_) => 2 * limit,
    }
}

fn open(alloc: Global, sessions: u64, limit: u64, opening: Opening) -> (Reply, Option<Stage>)
    ensures { Opens sessions limit opening result.0 result.1 }
{
    if let Err(refusal) = may_begin(opening, sessions, limit) {
        return (Reply::No(refusal), None);
    }
    let most = opening.version().most_sessions();
    match OpenEngine::open(alloc, most, sessions, room_of(opening, limit)) {
        Ok(engine) => {
            let audit = Audit::new(engine);
            (Reply::Done, Some(Stage::Open { audit, opening }))
        }
        Err(refusal) => (Reply::No(refusal), None),
    }
}

/// Opens a script that is asked for strict serializability.
fn open_strict(alloc: Global, sessions: u64, limit: u64, version: Version) -> (Reply, Option<Stage>)
    ensures { OpensStrict sessions limit version result.0 result.1 }
{
    if let Err(refusal) = may_begin(Opening::Ordered(version), sessions, limit) {
        return (Reply::No(refusal), None);
    }
    match Offered::open(alloc, version.most_sessions(), sessions, limit) {
        Ok(offered) => (Reply::Done, Some(Stage::Strict { offered, version })),
        Err(_) => (Reply::No(Refusal::NoMemory), None),
    }
}

fn start(alloc: Global, sessions: u64, limit: u64, promise: Promise) -> (Reply, Option<Stage>)
    ensures { Starts sessions limit promise result.0 result.1 }
{
    match promise {
        Promise::Resumable(opening) => open(alloc, sessions, limit, opening),
        Promise::Strict(version) => open_strict(alloc, sessions, limit, version),
    }
}

fn begin_hand_over(sessions: u64, limit: u64, opening: Opening) -> (Reply, Option<Stage>)
    ensures { Resumes sessions limit opening result.0 result.1 }
{
    if let Err(refusal) = may_begin(opening, sessions, limit) {
        return (Reply::No(refusal), None);
    }
    let begun = Stage::Resuming {
        sessions,
        limit: room_of(opening, limit),
        opening,
    };
    (Reply::Done, Some(begun))
}

/// The reply where no engine is open, and the stage that begins, where one does.
pub(crate) fn answer_first(alloc: Global, command: Command) -> (Reply, Option<Stage>)
    ensures { AnswersFirst command result.0 result.1 }
{
    match command {
        Command::Start {
            sessions,
            limit,
            promise,
        } => start(alloc, sessions, limit, promise),
        Command::Resume {
            sessions,
            limit,
            opening,
        } => begin_hand_over(sessions, limit, opening),
        _ => (Reply::No(Refusal::BadLine), None),
    }
}

/// The reply where nothing has begun, and the stage after it. This, `leave_resuming` and `leave_handing` differ in the stage that stays where
/// none begins, so that no stage which may have an engine is let go here.
pub(crate) fn begin(alloc: Global, command: Command) -> (Reply, Stage)
    ensures { BeginsAnew Stage.Nothing command result.0 result.1 }
{
    let (reply, begun) = answer_first(alloc, command);
    match begun {
        Some(stage) => (reply, stage),
        None => (reply, Stage::Nothing),
    }
}
