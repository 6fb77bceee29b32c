ghost use Rattle.std.specs.Prelude.{◌≡◌, ◌↔◌, length, map, not, IfOk, IsTrue};
ghost use Rattle.order_check.specs.declared.remainder.Parts.{Parts};
ghost use Rattle.order_check.specs.Based.{received_counts, HasPending};
ghost use Rattle.order_check.specs.Explains.{Explains};
ghost use Rattle.order_check.specs.Good.{IsGood};
ghost use Rattle.refutation.specs.Refutes.{IsRefutation};
ghost use Rattle.round_state.specs.OpenRounds.{IsOpenOn, IsSnapshotOf};
ghost use Rattle.round_state.specs.Tracked.{IsIndexOf};

use clock_choices::Saturated;
use order_check::{Parts, explains_front};
use pending_reads::PendingReads;
use polygraph::Problem;
use refutation::{Tree, check_front};
use std::alloc::Global;
use std::marker::Model;
use txn::{NoMemory, Sequence, TxnId};

/// What is held of a round that is open: how many had been received of each session when it began, and which sessions were open. It is
/// about the front of the parts up to these counts, since no cut is made while it is open.
#[derive(Drop, Debug)]
pub struct OpenRound {
    pub counts: Sequence<u64>,
    pub live: Sequence<bool>,
}

/// What an open round is about, for as long as an answer is judged. Contracts see the parts when it began.
#[derive(Drop, Debug)]
pub struct Snapshot<'a> {
    parts: &'a Parts,
    begun: &'a OpenRound,
    /// The relation of the snapshot.
    known: &'a Saturated,
    /// The pending reads of the parts as they are now.
    waits: &'a PendingReads,
}

impl<'a> Model for Snapshot<'a> {
    ghost use Rattle.std.specs.Coded.{codes};
    ghost use Rattle.order_check.specs.Codes.{coded_last};
    ghost use Rattle.order_check.specs.declared.remainder.Parts.{Parts};
    ghost use Rattle.round_state.specs.OpenRounds.{IsSnapshotOf};
    ghost use Rattle.round_state.specs.Tracked.{IsIndexOf};

    ghost Value = { Parts };

    ghost coded = { Prim.hlevel (codes, coded_last) };

    ghost view = { λ s. s.known.now.parts };

    ghost invariant = { λ s. IsSnapshotOf s.parts.now s.begun.now s.known.now.parts × IsIndexOf s.waits.now s.parts.now };
}

/// Which sessions are open.
fn live_flags(alloc: Global, closed: &[bool]) -> Result<Sequence<bool>, NoMemory>
    ensures { IfOk result (λ live. live ≡ map not closed.now) }
{
    let mut live = Vec::with_capacity(alloc, closed.len())?;
    for is_closed in closed {
        live.push(!*is_closed)?;
    }
    Ok(Sequence::new(live))
}

/// A round on the parts that the relation is about.
fn open_on(alloc: Global, known: &Saturated) -> Result<OpenRound, NoMemory>
    ensures { IfOk result (IsOpenOn known.now.parts) }
{
    let parts = known.parts();
    let counts = parts.received_counts(alloc)?;
    let live = live_flags(alloc, parts.closed.as_slice())?;
    Ok(OpenRound { counts, live })
}

/// A round on the parts that the relation is about, and the problem of these parts twice: it is shared.
pub(crate) fn asked_of(
    alloc: Global,
    known: Saturated,
) -> Result<(OpenRound, Problem, Problem), NoMemory>
    ensures begun { IfOk result (λ asked. IsOpenOn known.parts asked.0) }
    ensures kept { IfOk result (λ asked. asked.1.known.parts ≡ known.parts) }
    ensures problem { IfOk result (λ asked. asked.2.known.parts ≡ known.parts) }
{
    let begun = open_on(alloc, &known)?;
    let kept = Problem::about(alloc, known)?;
    let problem = kept.clone()?;
    Ok((begun, kept, problem))
}

/// Whether so many were received of each session, and no more.
fn are_received_counts(parts: &Parts, counts: &[u64]) -> bool
    requires good { IsGood parts.now }
    requires sessions { length counts.now ≡ length parts.now.remain }
    ensures { IsTrue result ↔ (counts.now ≡ received_counts parts.now) }
{
    for session in 0..parts.sessions() {
        if counts[session] != parts.received_count(session as u8) {
            return false;
        }
    }
    true
}

impl<'a> Snapshot<'a> {
    pub fn new(
        parts: &'a Parts,
        begun: &'a OpenRound,
        known: &'a Saturated,
        waits: &'a PendingReads,
    ) -> Snapshot<'a>
        requires snapshot { IsSnapshotOf parts.now begun.now known.now.parts }
        requires index { IsIndexOf waits.now parts.now }
        ensures { result ≡ known.now.parts }
    {
        Snapshot {
            parts,
            begun,
            known,
            waits,
        }
    }

    /// The known relation of the snapshot.
    pub fn known(&self) -> &Saturated
        ensures { result.now.parts ≡ self.now }
    {
        self.known
    }

    /// How many had been received of each session.
    pub fn counts(&self) -> Result<Sequence<u64>, NoMemory>
        ensures { IfOk result (λ counts. counts ≡ received_counts self.now) }
    {
        self.begun.counts.clone()
    }

    /// Whether some read waited for an id that wasn't received. The index tells of the parts as they are now. So if something came since the
    /// round began, each read of the snapshot is looked at instead.
    pub fn has_pending(&self) -> bool
        ensures { IsTrue result ↔ HasPending self.now }
    {
        if are_received_counts(self.parts, self.begun.counts.as_slice()) {
            return self.waits.any();
        }
        self.known.parts().has_pending()
    }

    pub fn is_explained_by(&self, alloc: Global, order: &[TxnId]) -> Result<bool, NoMemory>
        ensures { IfOk result (λ found. IsTrue found ↔ Explains self.now order.now) }
    {
        explains_front(alloc, self.parts, self.begun.counts.as_slice(), order)
    }

    pub fn is_refuted_by(&self, alloc: Global, tree: &Tree) -> Result<bool, NoMemory>
        ensures { IfOk result (λ found. IsTrue found ↔ IsRefutation self.now tree.now) }
    {
        check_front(alloc, self.parts, self.begun.counts.as_slice(), tree)
    }
}
