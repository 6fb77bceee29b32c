ghost use Rattle.std.specs.Prelude.{◌≡◌, ℕ, ◌+◌, ◌<◌, ◌++◌, ◌∷◌, [], map, length, All, MatchResult};
ghost use Rattle.std.specs.Option.{option_to_list};
ghost use Rattle.order_check.specs.Effort.{IsEffort};
ghost use Rattle.polygraph.specs.Solving.{IsLawful};
ghost use Rattle.report_queue.specs.Reports.{IsBefore};
ghost use Rattle.live_audit.specs.Moments.{accepted_counts, IsLook, IsRoundMade, IsTimed, IsTurn, Turns};
ghost use Rattle.live_audit.specs.Running.{AreEnded, HasEnded, HasOutcome, HasPublished, IsBetweenRounds, IsRound, CanBeTold, IsSaid, told_in, reports_in};
ghost use Rattle.live_audit.specs.Sides.{FromFresh, HasMovedBy, HasSamePlaces, HasTakenBy, IsLastOf, IsLiveBy, Wherever};
ghost use Rattle.live_audit.specs.Truth.{IsTrueEntry, accepted_history};

use crate::live_core::Core;
use crate::means::Means;
use crate::patience::Patience;
use crate::running::Running;
use crate::searching::{solved, start};
use fragment_intake::{AuditorPass, Desk};
use order_check::Kind;
use polygraph::{Answer, Effort, Problem, Solver};
use report_queue::{Entry, Latest, PublisherSeat, ReportSender};
use round_state::Engine;
use std::sync::atomic::{AtomicBool, Ordering};
use std::sync::{Arc, Wait};
use std::thread::Threads;
use txn::Refusal;

/// The auditor's side of the desk, of the ring and of the word.
#[derive(Drop)]
pub struct AuditorSide {
    pub pass: AuditorPass,
    pub sender: ReportSender,
    pub seat: PublisherSeat,
}

/// Sends the entry, once there is room for it.
fn send<R: Wait>(rt: &R, sender: &mut ReportSender, entry: Entry)
    ensures sent { sender.new.sent ≡ sender.old.sent ++ entry ∷ [] }
    ensures ring { sender.new.ring ≡ sender.old.ring }
{
    let mut entry = entry;
    let mut patience = Patience::new();
    for _ in rt.forever() {
        match sender.send(entry) {
            Ok(()) => return,
            Err(back) => entry = back,
        }
        patience.wait(rt);
    }
    unreachable!()
}

/// The round and the kind of an entry that is a report.
fn told_in(entry: &Entry) -> Option<(u64, Kind)>
    ensures { result ≡ told_in entry.now }
{
    match entry {
        Entry::Report(report) => Some((report.round, report.kind)),
        _ => None,
    }
}

/// What a round that wasn't made was refused for.
fn refusal_in(entry: &Entry) -> Result<(), Refusal>
    ensures { IsSaid entry.now result }
{
    match entry {
        Entry::Skipped(refusal) => Err(*refusal),
        _ => Ok(()),
    }
}

/// Publishes and sends what a round came to.
fn tell<R: Wait>(
    rt: &R,
    latest: &Latest,
    side: &mut AuditorSide,
    outcome: Entry,
    more: Option<Entry>,
) -> Result<(), Refusal>
    requires word { side.old.seat.word ≡ latest.now }
    requires number { CanBeTold side.old.seat.published outcome }
    ensures sent { side.new.sender.sent ≡ side.old.sender.sent ++ (outcome ∷ option_to_list more) }
    ensures published { side.new.seat.published ≡ side.old.seat.published ++ reports_in (outcome ∷ []) }
    ensures said { IsSaid outcome result }
    ensures same { (side.new.pass ≡ side.old.pass) × (side.new.sender.ring ≡ side.old.sender.ring) × (side.new.seat.word ≡ side.old.seat.word) }
{
    if let Some((round, kind)) = told_in(&outcome) {
        latest.publish(&mut side.seat, round, kind);
    }
    let said = refusal_in(&outcome);
    send(rt, &mut side.sender, outcome);
    if let Some(entry) = more {
        send(rt, &mut side.sender, entry);
    }
    said
}

/// Takes a parcel, if one waits, and sends what became of it. It says whether there was one.
fn take_one<R: Wait>(rt: &R, desk: &Desk, side: &mut AuditorSide, running: &mut Running) -> bool
    requires desk { side.old.pass.0 ≡ desk.now.0 }
    requires told { HasPublished running.old.core side.old.sender.sent side.old.seat.published }
    requires ended { AreEnded running.old.ended side.old.pass.1 }
    ensures moved { HasMovedBy running.old.core side.old running.new.core side.new }
    ensures told { HasPublished running.new.core side.new.sender.sent side.new.seat.published }
    ensures round { running.new.core.engine.asked ≡ running.old.core.engine.asked }
    ensures ended { AreEnded running.new.ended side.new.pass.1 }
    ensures look { IsLook result running.old.unasked side.old.pass.1 side.old.sender.sent running.new.unasked side.new.pass.1 side.new.sender.sent }
    ensures same { (side.new.pass.0 ≡ side.old.pass.0) × (side.new.sender.ring ≡ side.old.sender.ring) × (side.new.seat ≡ side.old.seat) }
{
    let Some(parcel) = desk.take(rt, &mut side.pass) else {
        return false;
    };
    let entry = running.take_in(parcel);
    send(rt, &mut side.sender, entry);
    true
}

/// Takes parcels until the search has ended, or all four collectors have.
fn take_until<R: Wait>(
    rt: &R,
    desk: &Desk,
    side: &mut AuditorSide,
    running: &mut Running,
    ended: &AtomicBool,
)
    requires desk { side.old.pass.0 ≡ desk.now.0 }
    requires told { HasPublished running.old.core side.old.sender.sent side.old.seat.published }
    requires ended { AreEnded running.old.ended side.old.pass.1 }
    ensures moved { HasMovedBy running.old.core side.old running.new.core side.new }
    ensures told { HasPublished running.new.core side.new.sender.sent side.new.seat.published }
    ensures round { running.new.core.engine.asked ≡ running.old.core.engine.asked }
    ensures ended { AreEnded running.new.ended side.new.pass.1 }
    // No round is told of, and each parcel that is accepted is counted.
    ensures counted { HasTakenBy running.old.unasked side.old running.new.unasked side.new }
    ensures same { (side.new.pass.0 ≡ side.old.pass.0) × (side.new.sender.ring ≡ side.old.sender.ring) × (side.new.seat ≡ side.old.seat) }
{
    let mut patience = Patience::new();
    for _ in rt.forever() {
        if ended.load(Ordering::SeqCst) || running.is_over() {
            return;
        }
        let is_taken = take_one(rt, desk, side, running);
        patience.after(rt, is_taken);
    }
    unreachable!()
}

/// What the search answers to the problem of the open round. Parcels are taken while it goes on in a thread of its own; where none can be made, or
/// memory is wanting for the flag, it is made in place.
fn answer<'s, E, R: Threads + Wait, S: Solver + Sync>(
    means: &Means<'_, 's, E, R, S>,
    side: &mut AuditorSide,
    running: &mut Running,
    problem: Problem,
) -> Answer
    requires ready { S.ready }
    requires effort { IsEffort running.old.core.search.budget running.old.core.search.depth means.now.effort.workers }
    requires desk { side.old.pass.0 ≡ means.now.desk.now.0 }
    requires told { HasPublished running.old.core side.old.sender.sent side.old.seat.published }
    requires ended { AreEnded running.old.ended side.old.pass.1 }
    ensures moved { HasMovedBy running.old.core side.old running.new.core side.new }
    ensures told { HasPublished running.new.core side.new.sender.sent side.new.seat.published }
    ensures round { running.new.core.engine.asked ≡ running.old.core.engine.asked }
    ensures ended { AreEnded running.new.ended side.new.pass.1 }
    ensures same { (side.new.pass.0 ≡ side.old.pass.0) × (side.new.sender.ring ≡ side.old.sender.ring) × (side.new.seat ≡ side.old.seat) }
    // No round is told of, and each parcel that is accepted is counted.
    ensures counted { HasTakenBy running.old.unasked side.old running.new.unasked side.new }
    ensures lawful { IsLawful problem.known.parts running.old.core.search.budget running.old.core.search.depth result }
{
    let (budget, depth) = running.core.search();
    let effort = Effort {
        budget,
        depth,
        workers: means.effort.workers,
    };
    let Ok(ended) = Arc::new(means.alloc, AtomicBool::new(false)) else {
        return solved(means.alloc, problem, means.solver, effort);
    };
    let Ok(flag) = Arc::try_clone(&ended) else {
        return solved(means.alloc, problem, means.solver, effort);
    };
    match start(means, problem, effort, flag) {
        Ok(thread) => {
            take_until(means.rt, means.desk, side, running, &ended);
            thread.join(means.rt)
        }
        Err(answer) => answer,
    }
}

/// Makes a round on all that was received, and tells what it came to. Meanwhile parcels are taken.
fn make_round_meanwhile<'s, E, R: Threads + Wait, S: Solver + Sync>(
    means: &Means<'_, 's, E, R, S>,
    side: &mut AuditorSide,
    running: &mut Running,
)
    requires ready { S.ready }
    requires effort { IsEffort running.old.core.search.budget running.old.core.search.depth means.now.effort.workers }
    requires desk { side.old.pass.0 ≡ means.now.desk.now.0 }
    requires word { side.old.seat.word ≡ means.now.latest.now }
    requires between { IsBetweenRounds running.old.core side.old.sender.sent side.old.seat.published }
    requires ended { AreEnded running.old.ended side.old.pass.1 }
    ensures moved { HasMovedBy running.old.core side.old running.new.core side.new }
    ensures between { IsBetweenRounds running.new.core side.new.sender.sent side.new.seat.published }
    ensures ended { AreEnded running.new.ended side.new.pass.1 }
    ensures made { Wherever running.old.core side.old (λ sessions. IsRoundMade sessions side.old.pass.1 side.old.sender.sent running.new.unasked side.new.pass.1 side.new.sender.sent) }
    ensures same { HasSamePlaces side.old side.new }
{
    running.unasked = 0;
    match running.core.begin() {
        Ok(problem) => {
            let answer = answer(means, side, running, problem);
            let (outcome, more) = running.core.answered(answer);
            let _ = tell(means.rt, means.latest, side, outcome, more);
        }
        Err(skipped) => {
            let _ = tell(means.rt, means.latest, side, skipped, None);
        }
    }
}

/// Makes a round on all that was received, and tells what it came to.
fn make_round<E, R: Wait, S: Solver>(
    means: &Means<'_, '_, E, R, S>,
    side: &mut AuditorSide,
    running: &mut Running,
) -> Result<(), Refusal>
    requires ready { S.ready }
    requires effort { IsEffort running.old.core.search.budget running.old.core.search.depth means.now.effort.workers }
    requires word { side.old.seat.word ≡ means.now.latest.now }
    requires between { IsBetweenRounds running.old.core side.old.sender.sent side.old.seat.published }
    ensures round { IsRound running.old.core side.old.sender.sent result running.new.core side.new.sender.sent }
    ensures moved { HasMovedBy running.old.core side.old running.new.core side.new }
    ensures between { IsBetweenRounds running.new.core side.new.sender.sent side.new.seat.published }
    ensures counts { Wherever running.old.core side.old (λ sessions. HasOutcome (accepted_counts sessions side.old.pass.1 side.old.sender.sent) side.old.sender.sent side.new.sender.sent) }
    ensures same { (side.new.pass ≡ side.old.pass) × (side.new.sender.ring ≡ side.old.sender.ring) × (side.new.seat.word ≡ side.old.seat.word) × (running.new.ended ≡ running.old.ended) }
{
    let (outcome, more) = running.make_round(means.alloc, means.solver, means.effort.workers);
    tell(means.rt, means.latest, side, outcome, more)
}

/// Takes a parcel, if one waits, and then makes a round, if it is time for one. It says whether either was done.
fn turn<'s, E, R: Threads + Wait, S: Solver + Sync>(
    means: &Means<'_, 's, E, R, S>,
    side: &mut AuditorSide,
    running: &mut Running,
) -> bool
    requires ready { S.ready }
    requires effort { IsEffort running.old.core.search.budget running.old.core.search.depth means.now.effort.workers }
    requires desk { side.old.pass.0 ≡ means.now.desk.now.0 }
    requires word { side.old.seat.word ≡ means.now.latest.now }
    requires between { IsBetweenRounds running.old.core side.old.sender.sent side.old.seat.published }
    requires ended { AreEnded running.old.ended side.old.pass.1 }
    ensures moved { HasMovedBy running.old.core side.old running.new.core side.new }
    ensures between { IsBetweenRounds running.new.core side.new.sender.sent side.new.seat.published }
    ensures ended { AreEnded running.new.ended side.new.pass.1 }
    ensures turn { Wherever running.old.core side.old (λ sessions. IsTurn sessions running.old.unasked side.old.pass.1 side.old.sender.sent running.new.unasked side.new.pass.1 side.new.sender.sent) }
    ensures same { HasSamePlaces side.old side.new }
{
    let found = take_one(means.rt, means.desk, side, running);
    if running.wants_round(found) {
        make_round_meanwhile(means, side, running);
        return true;
    }
    found
}

/// Takes parcels and makes rounds until all four collectors have ended.
fn take_all<'s, E, R: Threads + Wait, S: Solver + Sync>(
    means: &Means<'_, 's, E, R, S>,
    side: &mut AuditorSide,
    running: &mut Running,
)
    requires ready { S.ready }
    requires effort { IsEffort running.old.core.search.budget running.old.core.search.depth means.now.effort.workers }
    requires desk { side.old.pass.0 ≡ means.now.desk.now.0 }
    requires word { side.old.seat.word ≡ means.now.latest.now }
    requires between { IsBetweenRounds running.old.core side.old.sender.sent side.old.seat.published }
    requires ended { AreEnded running.old.ended side.old.pass.1 }
    ensures moved { HasMovedBy running.old.core side.old running.new.core side.new }
    ensures between { IsBetweenRounds running.new.core side.new.sender.sent side.new.seat.published }
    ensures ended { (collector : ℕ) → collector < 4 → HasEnded collector side.new.pass.1 }
    ensures turns { Wherever running.old.core side.old (λ sessions. Turns sessions running.old.unasked side.old.pass.1 side.old.sender.sent running.new.unasked side.new.pass.1 side.new.sender.sent) }
    ensures same { HasSamePlaces side.old side.new }
{
    let mut patience = Patience::new();
    for _ in means.rt.forever() {
        if running.is_over() {
            return;
        }
        let is_done = turn(means, side, running);
        patience.after(means.rt, is_done);
    }
    unreachable!()
}

/// Audits what four collectors hand in at the desk, until all of them have ended. Of each parcel it is sent whether it was accepted, of each round
/// what it came to, and each cut; the latest report's round and kind stand in the word. A round is made where nothing waits at the desk and
/// something was accepted since the last one, where much was accepted since, and at the end, on all that was accepted; where that last round
/// is refused, what it was refused for is answered.
///
/// A round is searched in a thread of the scope, and parcels are taken meanwhile; the last one in this thread. Where the ring is full, it waits for
/// its reader.
pub fn audit_live<'s, E, R: Threads + Wait, S: Solver + Sync>(
    means: &Means<'_, 's, E, R, S>,
    engine: Engine,
    side: &mut AuditorSide,
) -> Result<(), Refusal>
    requires ready { S.ready }
    requires effort { IsEffort means.now.effort.budget means.now.effort.depth means.now.effort.workers }
    requires none_open { engine.asked ≡ None }
    requires desk { side.old.pass.0 ≡ means.now.desk.now.0 }
    requires word { side.old.seat.word ≡ means.now.latest.now }
    requires fresh { (side.old.pass.1 ≡ []) × (side.old.sender.sent ≡ []) × (side.old.seat.published ≡ []) }
    ensures live { FromFresh engine (λ most sessions limit. IsLiveBy means.now.effort most sessions limit side.new) }
    // Each report is true of what was accepted.
    ensures true_reports { FromFresh engine (λ most sessions limit. All (IsTrueEntry (accepted_history sessions side.new.pass.1 side.new.sender.sent)) side.new.sender.sent) }
    ensures ended { (collector : ℕ) → collector < 4 → HasEnded collector side.new.pass.1 }
    // The last report counts all that was accepted.
    ensures last { FromFresh engine (λ most sessions limit. IsLastOf sessions side.new result) }
    // Rounds are made when they are to be, each on all that was accepted by then, and the last one at the end.
    ensures timed { FromFresh engine (λ most sessions limit. IsTimed sessions side.new.pass.1 side.new.sender.sent) }
    ensures published { side.new.seat.published ≡ reports_in side.new.sender.sent }
    ensures same { HasSamePlaces side.old side.new }
{
    let core = Core::new(means.alloc, engine, means.effort.budget, means.effort.depth);
    let mut running = Running::new(core);
    take_all(means, side, &mut running);
    let last = make_round(means, side, &mut running);
    send(means.rt, &mut side.sender, Entry::End);
    last
}
