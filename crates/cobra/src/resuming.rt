//! How one that was saved is handed over, line by line, until it goes on.
ghost use Rattle.std.specs.Prelude.{◌≡◌, IfOk};
ghost use Rattle.cobra.specs.Scripts.{IsTakenIn, BeginsAnew, AnswersResuming, AnswersHanding, HandsMarks, HandsWriters, HandsOffer, EndsHandOver, TakesHalves, TakesMarks, TakesOver};
ghost use Rattle.cobra.specs.declared.stages.Stage.{Stage};
ghost use Rattle.log_text.specs.declared.commands.Command.{Command};
ghost use Rattle.log_text.specs.declared.versions.Version.{Version};

use crate::audits::Audit;
use crate::beginnings::answer_first;
use crate::handing::Handing;
use crate::stages::Stage;
use isolation_scripts::{half_command, half_marks, have_halves};
use log_text::{Command, Opening, Reply, Version};
use logged_fragments::LoggedFragment;
use std::alloc::Global;
use txn::{Fragment, NoMemory, Refusal, Sequence, TxnId};

fn leave_resuming(
    alloc: Global,
    sessions: u64,
    limit: u64,
    opening: Opening,
    command: Command,
) -> (Reply, Stage)
    ensures { BeginsAnew (Stage.Resuming sessions limit opening) command result.0 result.1 }
{
    let (reply, begun) = answer_first(alloc, command);
    match begun {
        Some(stage) => (reply, stage),
        None => {
            let stage = Stage::Resuming {
                sessions,
                limit,
                opening,
            };
            (reply, stage)
        }
    }
}

fn leave_handing(
    alloc: Global,
    handed: Handing,
    opening: Opening,
    command: Command,
) -> (Reply, Stage)
    ensures { BeginsAnew (Stage.Handing handed opening) command result.0 result.1 }
{
    let (reply, begun) = answer_first(alloc, command);
    match begun {
        Some(stage) => (reply, stage),
        None => (reply, Stage::Handing { handed, opening }),
    }
}

fn hand_marks(
    alloc: Global,
    sessions: u64,
    limit: u64,
    opening: Opening,
    marks: Sequence<u64>,
    closed: Sequence<bool>,
) -> (Reply, Stage)
    ensures { HandsMarks sessions limit opening marks closed result.0 result.1 }
{
    let most = opening.version().most_sessions();
    match Handing::new(alloc, most, sessions, limit, marks, closed) {
        Ok(handed) => (Reply::Done, Stage::Handing { handed, opening }),
        Err(refusal) => {
            let stage = Stage::Resuming {
                sessions,
                limit,
                opening,
            };
            (Reply::No(refusal), stage)
        }
    }
}

fn take_marks(
    alloc: Global,
    sessions: u64,
    limit: u64,
    opening: Opening,
    command: Command,
) -> (Reply, Stage)
    ensures { TakesMarks sessions limit opening command result.0 result.1 }
{
    match command {
        Command::Marks { marks, closed } => {
            hand_marks(alloc, sessions, limit, opening, marks, closed)
        }
        _ => leave_resuming(alloc, sessions, limit, opening, command),
    }
}

/// Takes marks of transactions that are split.
fn hand_halves(
    alloc: Global,
    sessions: u64,
    limit: u64,
    version: Version,
    marks: &[u64],
    closed: Sequence<bool>,
    begun: &[bool],
) -> Result<(Reply, Stage), NoMemory>
    ensures { IfOk result (λ answered. TakesHalves sessions limit version (Command.MarksBegun marks.now closed begun.now) answered.0 answered.1) }
{
    if !have_halves(marks, begun) {
        let stage = Stage::Resuming {
            sessions,
            limit,
            opening: Opening::Isolated(version),
        };
        return Ok((Reply::No(Refusal::BadParts), stage));
    }
    let halves = half_marks(alloc, marks, begun)?;
    Ok(hand_marks(
        alloc,
        sessions,
        limit,
        Opening::Isolated(version),
        halves,
        closed,
    ))
}

fn take_halves(
    alloc: Global,
    sessions: u64,
    limit: u64,
    version: Version,
    command: Command,
) -> Result<(Reply, Stage), NoMemory>
    ensures { IfOk result (λ answered. TakesHalves sessions limit version command answered.0 answered.1) }
{
    match command {
        Command::MarksBegun {
            marks,
            closed,
            begun,
        } => hand_halves(
            alloc,
            sessions,
            limit,
            version,
            marks.as_slice(),
            closed,
            begun.as_slice(),
        ),
        _ => Ok(leave_resuming(alloc, sessions, limit, Opening::Isolated(version), command)),
    }
}

pub(crate) fn answer_resuming(
    alloc: Global,
    sessions: u64,
    limit: u64,
    opening: Opening,
    command: Command,
) -> Result<(Reply, Stage), NoMemory>
    ensures { IfOk result (λ answered. AnswersResuming sessions limit opening command answered.0 answered.1) }
{
    match opening {
        Opening::Ordered(_) => Ok(take_marks(alloc, sessions, limit, opening, command)),
        Opening::Isolated(version) => take_halves(alloc, sessions, limit, version, command),
    }
}

fn hand_writers(handed: Handing, opening: Opening, more: Sequence<(u64, TxnId)>) -> (Reply, Stage)
    ensures { HandsWriters handed opening more result.0 result.1 }
{
    let mut handed = handed;
    match handed.take_writers(more) {
        Ok(()) => (Reply::Done, Stage::Handing { handed, opening }),
        Err(_) => {
            let refused = Reply::No(Refusal::NoMemory);
            (refused, Stage::Handing { handed, opening })
        }
    }
}

fn hand_fragment(handed: Handing, opening: Opening, fragment: Fragment) -> (Reply, Stage)
    ensures { HandsOffer handed opening fragment result.0 result.1 }
{
    let mut handed = handed;
    match handed.take_offer(fragment) {
        Ok(()) => (Reply::Done, Stage::Handing { handed, opening }),
        Err(refusal) => (Reply::No(refusal), Stage::Handing { handed, opening }),
    }
}

/// What is handed over is what transactions did, in every version: none is told to have aborted.
fn hand_offer(handed: Handing, opening: Opening, logged: LoggedFragment) -> (Reply, Stage)
    ensures { IsTakenIn Version.One logged (Stage.Handing handed opening) result.0 result.1 (HandsOffer handed opening logged.fragment result.0 result.1) }
{
    if !Version::One.has_form(&logged) {
        let refused = Reply::No(Refusal::BadLine);
        return (refused, Stage::Handing { handed, opening });
    }
    let LoggedFragment {
        fragment,
        aborted: _,
    } = logged;
    hand_fragment(handed, opening, fragment)
}

fn end_hand_over(alloc: Global, handed: Handing, opening: Opening) -> (Reply, Stage)
    ensures { EndsHandOver handed opening result.0 result.1 }
{
    match handed.resume(alloc) {
        Ok(engine) => {
            let audit = Audit::new(engine);
            (Reply::Done, Stage::Open { audit, opening })
        }
        Err((handed, refusal)) => (Reply::No(refusal), Stage::Handing { handed, opening }),
    }
}

fn take_over(alloc: Global, handed: Handing, opening: Opening, command: Command) -> (Reply, Stage)
    ensures { TakesOver handed opening command result.0 result.1 }
{
    match command {
        Command::Last(more) => hand_writers(handed, opening, more),
        Command::Offer(logged) => hand_offer(handed, opening, logged),
        Command::Resumed => end_hand_over(alloc, handed, opening),
        _ => leave_handing(alloc, handed, opening, command),
    }
}

/// The reply to a command while parts are handed over, of split transactions by halves.
pub(crate) fn answer_handing(
    alloc: Global,
    handed: Handing,
    opening: Opening,
    command: Command,
) -> Result<(Reply, Stage), NoMemory>
    ensures { IfOk result (λ answered. AnswersHanding handed opening command answered.0 answered.1) }
{
    match opening {
        Opening::Ordered(_) => Ok(take_over(alloc, handed, opening, command)),
        Opening::Isolated(_) => match half_command(alloc, &handed.parts, command)? {
            Ok(half) => Ok(take_over(alloc, handed, opening, half)),
            Err(refusal) => Ok((Reply::No(refusal), Stage::Handing { handed, opening })),
        },
    }
}
