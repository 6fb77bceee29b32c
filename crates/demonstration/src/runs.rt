ghost use Rattle.std.specs.Prelude.{◌≡◌, ◌≤◌, None, [], IfOk, IsTrue, option_map};
ghost use Rattle.round_state.specs.Opening.{fresh_state};
ghost use Rattle.round_state.specs.Runs.{Holds};
ghost use Rattle.report_queue.specs.Reports.{last_of};
ghost use Rattle.live_audit.specs.Running.{reports_in};
ghost use Rattle.demo_store.specs.Logs.{Follows, IsAnswered};
ghost use Rattle.demonstration.specs.Reading.{last_kind};
ghost use Rattle.demonstration.specs.Runs.{AreDoneBy, AreLogged, IsRunOf, IsOfHall, HaveSubmitted, HaveWorked, HasAudited};

use crate::comparing::{FourDone, is_log_of};
use crate::halls::Hall;
use crate::starting::Start;
use crate::texts::Shown;
use crate::threads::{Returned, run_threads};
use demo_store::{Fault, Store};
use fragment_intake::Desk;
use live_audit::AuditorSide;
use order_check::Kind;
use polygraph::Solver;
use report_queue::{Entry, Latest, ReaderSeat, ReportReader, ReportSender, ring};
use round_state::Engine;
use std::alloc::{AllocError, Global};
use std::sync::{Mutex, Wait};
use std::thread::Threads;
use txn::{NoMemory, Sequence};

/// How many sessions there may be.
const MOST_SESSIONS: u64 = 64;

/// An engine of four sessions.
fn open_engine(alloc: Global) -> Result<Engine, NoMemory>
    ensures none_open { IfOk result (λ engine. engine.asked ≡ None) }
    ensures holds { IfOk result (λ engine. Holds engine (fresh_state 64 4 4096)) }
{
    match Engine::open(alloc, MOST_SESSIONS, 4, 4096) {
        Ok(engine) => Ok(engine),
        Err(_) => Err(AllocError),
    }
}

/// The kind of the latest report.
fn kind_of(latest: Option<(u64, Kind)>) -> Option<Kind>
    ensures { result ≡ option_map (λ told. told.1) latest }
{
    let (_, kind) = latest?;
    Some(kind)
}

/// Whether the reader has heard all that was sent.
fn has_heard_all(sender: ReportSender, reader: &mut ReportReader) -> bool
    requires { reader.old.ring ≡ sender.ring }
    ensures received { reader.new.received ≡ reader.old.received }
    ensures all { IsTrue result → reader.new.received ≡ sender.sent }
{
    match sender.end() {
        Some(mut end) => reader.left(&mut end) == 0,
        None => false,
    }
}

/// What a run came to: what is shown of it, the entries that the auditor sent, the round and kind of the latest report, and the store, with what it
/// executed.
#[derive(Drop)]
pub struct Outcome {
    pub shown: Shown,
    pub entries: Sequence<Entry>,
    pub latest: Option<(u64, Kind)>,
    pub store: Store,
}

/// The store that the threads shared, which has this fault, and has executed what its sessions did. What a lock holds no contract says, so that both
/// are compared once more.
fn store_of(store: Mutex<Store>, fault: Fault, done: &FourDone) -> Result<Store, NoMemory>
    ensures fault { IfOk result (λ store. store.fault ≡ fault) }
    ensures honest { IfOk result (λ store. store.fault ≡ Fault.None → Follows IsAnswered [] store.log) }
    ensures logged { IfOk result (λ store. AreLogged done.now store.log) }
{
    let store = store.into_inner();
    if store.fault() == fault && is_log_of(store.log(), done) {
        Ok(store)
    } else {
        Err(AllocError)
    }
}

/// What a run came to, once its threads have ended.
#[tactic(auto, using(crate::proofs::AllTaken::all_counts, crate::proofs::AllTaken::all_work, crate::proofs::LastKinds::latest_kind))]
fn outcome_of<R: Wait>(
    rt: &R,
    fault: Fault,
    hall: Hall,
    returned: Returned,
    seat: &mut ReaderSeat,
) -> Result<Outcome, NoMemory>
    requires hall { IsOfHall hall returned }
    requires submitted { HaveSubmitted returned.passes }
    requires worked { HaveWorked returned.passes }
    requires done { AreDoneBy returned.done returned.passes }
    requires audited { HasAudited returned.side.pass.1 returned.side.sender.sent }
    requires published { returned.side.seat.published ≡ reports_in returned.side.sender.sent }
    requires heard { returned.last ≡ last_kind returned.reader.received }
    requires entries { returned.entries ≡ returned.reader.received }
    requires word { seat.old.word ≡ hall.latest }
    ensures fault { IfOk result (λ outcome. outcome.shown.fault ≡ fault) }
    ensures run { IfOk result (λ outcome. IsRunOf outcome.store outcome.entries outcome.shown) }
    ensures latest { IfOk result (λ outcome. outcome.latest ≡ last_of (reports_in outcome.entries)) }
{
    let Returned {
        passes,
        done,
        mut side,
        mut reader,
        last,
        entries,
    } = returned;
    let latest = hall.latest.catch_up(&mut side.seat, seat);
    if !has_heard_all(side.sender, &mut reader) {
        return Err(AllocError);
    }
    let Hall {
        start: _,
        store,
        desk,
        latest: _,
    } = hall;
    let tally = desk.tally(rt, passes, side.pass);
    let store = store_of(store, fault, &done)?;
    let shown = Shown {
        fault,
        tally,
        last,
        latest: kind_of(latest),
    };
    Ok(Outcome {
        shown,
        entries,
        latest,
        store,
    })
}

/// Runs the store with this fault, four collectors and the auditor, to their end.
pub fn run<R: Threads + Wait + Sync, S: Solver + Sync>(
    rt: &R,
    alloc: Global,
    solver: &S,
    fault: Fault,
    desk_capacity: usize,
    ring_capacity: usize,
) -> Result<Outcome, NoMemory>
    requires ready { S.ready }
    requires desk { (1 ≤ desk_capacity) × (desk_capacity ≤ 1024) }
    requires ring { (1 ≤ ring_capacity) × (ring_capacity ≤ 1024) }
    ensures fault { IfOk result (λ outcome. outcome.shown.fault ≡ fault) }
    ensures run { IfOk result (λ outcome. IsRunOf outcome.store outcome.entries outcome.shown) }
    ensures latest { IfOk result (λ outcome. outcome.latest ≡ last_of (reports_in outcome.entries)) }
{
    let (desk, passes, pass) = Desk::new(alloc, desk_capacity)?;
    let (sender, reader) = ring(alloc, ring_capacity)?;
    let (latest, seat, mut seats) = Latest::new(alloc, 1)?;
    let engine = open_engine(alloc)?;
    let hall = Hall {
        start: Start::new(),
        store: Mutex::new(Store::new(alloc, fault)),
        desk,
        latest,
    };
    let side = AuditorSide { pass, sender, seat };
    let returned = run_threads(rt, alloc, &hall, engine, solver, passes, side, reader)?;
    outcome_of(rt, fault, hall, returned, &mut seats[0])
}
