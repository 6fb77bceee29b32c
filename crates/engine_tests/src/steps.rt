//! Lists of steps as tables: what an engine is asked, and what its replies have to be.
ghost use Rattle.std.specs.Prelude.{All, IfOk};
ghost use Rattle.round_state.specs.Runs.{HasLimits};

use logged_fragments::LoggedFragment;
use order_check::Kind;
use polygraph::Single;
use refutation::{Leaf, Tree};
use round_state::{Certificate, Claim, Engine, Report, Step, StepReply};
use settle::Cut;
use std::alloc::Global;
use std::process::Abort;
use std::test::*;
use txn::{Fragment, NoMemory, Refusal, Sequence, Source, Txn, TxnId};

pub const ID_0_0: TxnId = TxnId {
    session: 0,
    number: 0,
};

pub const ID_0_1: TxnId = TxnId {
    session: 0,
    number: 1,
};

pub const ID_0_2: TxnId = TxnId {
    session: 0,
    number: 2,
};

pub const ID_1_0: TxnId = TxnId {
    session: 1,
    number: 0,
};

pub const ID_1_1: TxnId = TxnId {
    session: 1,
    number: 1,
};

pub const ID_2_0: TxnId = TxnId {
    session: 2,
    number: 0,
};

/// What a transaction reads, and which keys it writes.
pub type Content = (&'static [(u64, Source)], &'static [u64]);

#[derive(Clone, Copy)]
pub enum Act {
    /// Offers one transaction of a session, with its number.
    Offer(u8, u64, Content),
    /// Offers one that aborted.
    OfferAborted(u8, u64, Content),
    /// Lets a session join with one transaction, with its number.
    Join(u8, u64, Content),
    /// Lets it join with one that aborted.
    JoinAborted(u8, u64, Content),
    Close(u8),
    Begin,
    Finish,
    /// Hands an order in.
    Judge(&'static [TxnId]),
    Abandon,
    Truncate,
    Rebuild,
}

/// What a reply has to be.
#[derive(Clone, Copy)]
pub enum Want {
    Done,
    No(Refusal),
    /// A report with its number, kind, counts, and its order, or none where it has no order.
    Report(u64, Kind, &'static [u64], &'static [TxnId]),
    /// A report with any order.
    Explained(u64, Kind, &'static [u64]),
    /// A report of a violation, shown by a transaction that reads a key from one that is gone and isn't the last that wrote it.
    Gone(u64, &'static [u64], TxnId, u64),
    /// The same by one that reads a key from one that remains and doesn't write it.
    NoWrite(u64, &'static [u64], TxnId, u64),
    /// The fence, what is gone, and the last writers of its keys.
    Cut(TxnId, &'static [TxnId], &'static [(u64, TxnId)]),
}

/// What an engine is asked, each step with its reply.
pub type Row = &'static [(Act, Want)];

fn one_of(alloc: Global, session: u8, first: u64, content: Content) -> Result<Fragment, NoMemory> {
    let txn = Txn {
        reads: Sequence::new(content.0.to_vec(alloc)?),
        writes: Sequence::new(content.1.to_vec(alloc)?),
    };
    Ok(Fragment {
        session,
        first,
        txns: Sequence::new(vec![in alloc; txn]?),
    })
}

pub fn fragment_of(
    alloc: Global,
    session: u8,
    first: u64,
    content: Content,
) -> Result<LoggedFragment, NoMemory> {
    let fragment = one_of(alloc, session, first, content)?;
    Ok(LoggedFragment::committed(alloc, fragment))
}

fn aborted_of(
    alloc: Global,
    session: u8,
    first: u64,
    content: Content,
) -> Result<LoggedFragment, NoMemory> {
    Ok(LoggedFragment {
        fragment: one_of(alloc, session, first, content)?,
        aborted: Sequence::new(vec![in alloc; true]?),
    })
}

fn step_of(alloc: Global, act: Act) -> Result<Step, NoMemory>
    ensures { IfOk result HasLimits }
{
    match act {
        Act::Offer(session, first, content) => {
            Ok(Step::Offer(fragment_of(alloc, session, first, content)?))
        }
        Act::OfferAborted(session, first, content) => {
            Ok(Step::Offer(aborted_of(alloc, session, first, content)?))
        }
        Act::Join(session, first, content) => {
            Ok(Step::Join(fragment_of(alloc, session, first, content)?))
        }
        Act::JoinAborted(session, first, content) => {
            Ok(Step::Join(aborted_of(alloc, session, first, content)?))
        }
        Act::Close(session) => Ok(Step::Close(session)),
        Act::Begin => Ok(Step::Begin),
        Act::Finish => Ok(Step::Finish {
            budget: 32,
            depth: 0,
            workers: 1,
        }),
        Act::Judge(order) => {
            let order = Sequence::new(order.to_vec(alloc)?);
            Ok(Step::Judge(Claim::Order(order)))
        }
        Act::Abandon => Ok(Step::Abandon),
        Act::Truncate => Ok(Step::Truncate),
        Act::Rebuild => Ok(Step::Rebuild),
    }
}

fn steps_of(alloc: Global, row: Row) -> Result<Vec<Step>, NoMemory>
    ensures { IfOk result (λ steps. All HasLimits steps.items) }
{
    let mut steps = Vec::new(alloc);
    for (act, _) in row {
        steps.push(step_of(alloc, *act)?)?;
    }
    Ok(steps)
}

fn order_in(certificate: &Certificate) -> &[TxnId] {
    match certificate {
        Certificate::Order(order) => order.as_slice(),
        _ => &[],
    }
}

fn is_about(report: &Report, round: u64, kind: Kind, counts: &[u64]) -> bool {
    report.round == round && report.kind == kind && report.counts.as_slice() == counts
}

fn is_gone_read(certificate: &Certificate, reader: TxnId, key: u64) -> bool {
    match certificate {
        Certificate::Refuted(Tree::Close(Leaf::Gone(id, of))) => *id == reader && *of == key,
        _ => false,
    }
}

fn is_unwritten_read(certificate: &Certificate, reader: TxnId, key: u64) -> bool {
    match certificate {
        Certificate::Refuted(Tree::Close(Leaf::NoWrite(id, of))) => *id == reader && *of == key,
        _ => false,
    }
}

fn is_cut(
    alloc: Global,
    cut: &Cut,
    fence: TxnId,
    gone: &[TxnId],
    last: &[(u64, TxnId)],
) -> Result<bool, NoMemory> {
    let entries = cut.last.entries(alloc)?;
    Ok(cut.fence == fence && cut.gone.as_slice() == gone && entries.as_slice() == last)
}

fn is_report(report: &Report, want: Want) -> bool {
    match want {
        Want::Report(round, kind, counts, order) => {
            is_about(report, round, kind, counts) && order_in(&report.certificate) == order
        }
        Want::Explained(round, kind, counts) => is_about(report, round, kind, counts),
        Want::Gone(round, counts, reader, key) => {
            is_about(report, round, Kind::Violated, counts)
                && is_gone_read(&report.certificate, reader, key)
        }
        Want::NoWrite(round, counts, reader, key) => {
            is_about(report, round, Kind::Violated, counts)
                && is_unwritten_read(&report.certificate, reader, key)
        }
        _ => false,
    }
}

fn is_reply(alloc: Global, reply: &StepReply, want: Want) -> Result<bool, NoMemory> {
    match (reply, want) {
        (StepReply::Done, Want::Done) => Ok(true),
        (StepReply::Refused(refusal), Want::No(wanted)) => Ok(*refusal == wanted),
        (StepReply::Cut(cut), Want::Cut(fence, gone, last)) => is_cut(
            alloc, cut, fence, gone, last,
        ),
        (StepReply::Report(report), want) => Ok(is_report(report, want)),
        _ => Ok(false),
    }
}

pub fn assert_reply(
    rt: &impl Abort,
    alloc: Global,
    place: usize,
    reply: &StepReply,
    want: Want,
) -> Result<(), NoMemory> {
    let is_right = is_reply(alloc, reply, want)?;
    assert!(rt; is_right, "{place}: {reply:?}");
    Ok(())
}

fn assert_all(
    rt: &impl Abort,
    alloc: Global,
    row: Row,
    replies: &[StepReply],
) -> Result<(), NoMemory> {
    assert_eq!(rt; replies.len(), row.len());
    for (place, (reply, step)) in replies.iter().zip(row.iter()).enumerate() {
        assert_reply(rt, alloc, place, reply, step.1)?;
    }
    Ok(())
}

fn run(alloc: Global, engine: &mut Engine, row: Row) -> Result<Vec<StepReply>, NoMemory> {
    let steps = steps_of(alloc, row)?;
    engine.run(alloc, steps, &Single)
}

/// The engine goes through the steps and gives these replies.
pub fn assert_run(
    rt: &impl Abort,
    alloc: Global,
    engine: &mut Engine,
    row: Row,
) -> Result<(), NoMemory> {
    let replies = run(alloc, engine, row)?;
    assert_all(rt, alloc, row, replies.as_slice())
}
