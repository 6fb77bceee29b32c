ghost use Rattle.std.specs.Prelude.{◌≡◌, IfOk};
ghost use Rattle.cobra.specs.StepReplies.{claim_of, report_of, cut_of, reply_of};

use log_text::{Names, Reply, Shown};
use round_state::{Certificate, Claim, Report, StepReply};
use settle::Cut;
use std::alloc::Global;
use txn::NoMemory;

/// What a line shows, as the engine judges it.
pub fn claim_of(shown: Shown) -> Claim
    ensures { result ≡ claim_of shown }
{
    match shown {
        Shown::Order(order) => Claim::Order(order),
        Shown::Refuted(tree) => Claim::Refuted(tree),
    }
}

/// How a report is told.
pub fn report_of(report: Report) -> Reply
    ensures { result ≡ report_of report }
{
    let Report {
        round,
        kind,
        counts,
        certificate,
    } = report;
    match certificate {
        Certificate::Order(order) => Reply::Order {
            names: Names::Ids,
            round,
            kind,
            counts,
            order,
        },
        Certificate::Refuted(tree) => Reply::Violated {
            names: Names::Ids,
            round,
            counts,
            tree,
        },
        Certificate::Nothing => Reply::Spent { round, counts },
    }
}

/// How a cut is told.
pub fn cut_of(alloc: Global, cut: Cut) -> Result<Reply, NoMemory>
    ensures { IfOk result (λ answer. answer ≡ cut_of cut) }
{
    let Cut { fence, gone, last } = cut;
    let last = last.entries(alloc)?;
    Ok(Reply::Cut { fence, gone, last })
}

/// How the reply to a step is told.
pub fn reply_of(alloc: Global, reply: StepReply) -> Result<Reply, NoMemory>
    ensures { IfOk result (λ answer. answer ≡ reply_of reply) }
{
    match reply {
        StepReply::Done => Ok(Reply::Done),
        StepReply::Refused(refusal) => Ok(Reply::No(refusal)),
        StepReply::Report(report) => Ok(report_of(report)),
        StepReply::Cut(cut) => cut_of(alloc, cut),
    }
}
