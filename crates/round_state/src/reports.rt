ghost use Rattle.std.specs.Prelude.{◌≡◌, IfOk, IfErr, OnOk, OnErr, MatchResult};
ghost use Rattle.order_check.specs.Based.{received_counts};
ghost use Rattle.order_check.specs.Good.{IsGood};
ghost use Rattle.order_check.specs.Verdict.{HasOrder, IsVerdict};
ghost use Rattle.round_state.specs.Steps.{IsHeldAfter};
ghost use Rattle.round_state.specs.Solving.{IsRight, IsReportOn, IsReportRefusal, IsShown, IsHeldBy};

use crate::snapshots::Snapshot;
use order_check::{Kind, Parts};
use polygraph::Answer;
use refutation::Tree;
use settle::{Cut, find_in};
use std::alloc::Global;
use txn::{NoMemory, Refusal, Sequence, TxnId};

/// What shows that a report's kind is right.
#[derive(Drop, Debug)]
pub enum Certificate {
    /// The order explains the snapshot.
    Order(Sequence<TxnId>),
    /// No order explains the snapshot, as the tree shows.
    Refuted(Tree),
    /// The round was spent: nothing is shown.
    Nothing,
}

/// What a round found.
#[derive(Drop, Debug)]
pub struct Report {
    /// The round's number; the first is 1.
    pub round: u64,
    pub kind: Kind,
    /// How many transactions of each session had been received when the round began.
    pub counts: Sequence<u64>,
    pub certificate: Certificate,
}

/// How many were received of each session.
pub fn received_counts(alloc: Global, parts: &Parts) -> Result<Sequence<u64>, NoMemory>
    requires { IsGood parts.now }
    ensures { IfOk result (λ counts. counts ≡ received_counts parts.now) }
{
    parts.received_counts(alloc)
}

/// The kind of a snapshot that some order explains.
fn kind_of_explained(snapshot: &Snapshot<'_>) -> Kind
    ensures { HasOrder snapshot.now → IsVerdict snapshot.now result }
{
    if snapshot.has_pending() {
        Kind::Pending
    } else {
        Kind::Serial
    }
}

/// Checks the answer. A right one earns its kind and its certificate.
fn judge(
    alloc: Global,
    snapshot: &Snapshot<'_>,
    answer: Answer,
) -> Result<(Kind, Certificate), Refusal>
    ensures { MatchResult result (λ judged. IsRight snapshot.now answer judged.0 judged.1) (IsReportRefusal snapshot.now answer) }
{
    match answer {
        Answer::Yes(order) => {
            if !snapshot.is_explained_by(alloc, order.as_slice())? {
                return Err(Refusal::BadCertificate);
            }
            Ok((kind_of_explained(snapshot), Certificate::Order(order)))
        }
        Answer::No(tree) => {
            if !snapshot.is_refuted_by(alloc, &tree)? {
                return Err(Refusal::BadCertificate);
            }
            Ok((Kind::Violated, Certificate::Refuted(tree)))
        }
        Answer::Spent => Ok((Kind::Spent, Certificate::Nothing)),
        Answer::NoMemory => Err(Refusal::NoMemory),
    }
}

/// Makes the held cut that which is found in a snapshot that an order was shown to explain, or none. Without an order it stays.
fn hold_found(
    alloc: Global,
    snapshot: &Snapshot<'_>,
    certificate: &Certificate,
    held: &mut Option<Cut>,
) -> Result<(), NoMemory>
    requires { IsShown snapshot.now certificate.now }
    ensures ok { OnOk result (IsHeldBy snapshot.now certificate.now held.old held.new) }
    ensures err { OnErr result (held.new ≡ held.old) }
{
    if let Certificate::Order(order) = certificate {
        *held = find_in(alloc, snapshot.known(), order.as_slice())?;
    }
    Ok(())
}

/// The report that the answer earns as that of the round with this number. The cut that is held becomes the one found, or none, where the
/// report is serial or pending. A refusal leaves it.
pub(crate) fn report_on(
    alloc: Global,
    snapshot: &Snapshot<'_>,
    round: u64,
    answer: Answer,
    held: &mut Option<Cut>,
) -> Result<Report, Refusal>
    ensures ok { IfOk result (λ report. IsReportOn snapshot.now round answer report × IsHeldAfter snapshot.now report.kind held.old held.new) }
    ensures err { IfErr result (λ refusal. IsReportRefusal snapshot.now answer refusal × (held.new ≡ held.old)) }
{
    let counts = snapshot.counts()?;
    let (kind, certificate) = judge(alloc, snapshot, answer)?;
    hold_found(alloc, snapshot, &certificate, held)?;
    Ok(Report {
        round,
        kind,
        counts,
        certificate,
    })
}
