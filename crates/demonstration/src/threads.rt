ghost use Rattle.std.specs.Prelude.{◌≡◌, ◌<◌, None, [], IfOk};
ghost use Rattle.fragment_intake.specs.Collectors.{AreCollectorsOf};
ghost use Rattle.round_state.specs.Opening.{fresh_state};
ghost use Rattle.round_state.specs.Runs.{Holds};
ghost use Rattle.live_audit.specs.Running.{reports_in};
ghost use Rattle.demonstration.specs.Runs.{AreFresh, IsFreshSide, HasReturned, HasCollected, HasHeard, HasAudited};

use crate::auditing::audit;
use crate::collecting::{Collected, CollectionOf, collect};
use crate::comparing::FourDone;
use crate::halls::Hall;
use crate::reading::{Heard, HearingOf, hear};
use fragment_intake::{CollectorPass, CollectorPasses};
use live_audit::AuditorSide;
use order_check::Kind;
use polygraph::Solver;
use report_queue::{Entry, ReportReader};
use round_state::Engine;
use std::alloc::{AllocError, Global};
use std::snapshot::Snapshot;
use std::sync::Wait;
use std::thread;
use std::thread::{PromisedHandle, Scope, Threads};
use txn::{NoMemory, Sequence};

/// What the threads of a run come back with, where each did all of its work; what the collectors' transactions did; the reader, the last report's
/// kind, and all that was read.
#[derive(Drop)]
pub struct Returned {
    pub passes: CollectorPasses,
    pub done: FourDone,
    pub side: AuditorSide,
    pub reader: ReportReader,
    pub last: Option<Kind>,
    pub entries: Sequence<Entry>,
}

type Collecting = PromisedHandle<Collected, CollectionOf>;

type Hearing = PromisedHandle<Heard, HearingOf>;

/// Starts a collector.
fn start_collector<'s, E, R: Threads + Wait + Sync>(
    scope: &Scope<'s, E>,
    rt: &'s R,
    alloc: Global,
    hall: &'s Hall,
    session: u8,
    pass: CollectorPass,
) -> Result<Collecting, NoMemory>
    requires session { session < 4 }
    requires number { pass.1 ≡ session }
    requires desk { pass.0 ≡ hall.now.desk.0 }
    requires fresh { pass.2 ≡ [] }
    ensures { IfOk result (λ thread. thread.promise.0.value ≡ pass) }
{
    let promise = CollectionOf(Snapshot::of(&pass));
    let thread = scope.spawn_with(
        promise,
        move || -> Collected
            requires { (session < 4) × (pass.1 ≡ session) × (pass.0 ≡ hall.now.desk.0) × (pass.2 ≡ []) }
            ensures { HasCollected pass result }
        { collect(rt, alloc, hall, session, pass) },
    )?;
    Ok(thread)
}

/// Starts the reader.
fn start_reader<'s, E, R: Threads + Wait + Sync>(
    scope: &Scope<'s, E>,
    rt: &'s R,
    alloc: Global,
    hall: &'s Hall,
    reader: ReportReader,
) -> Result<Hearing, NoMemory>
    requires fresh { reader.received ≡ [] }
    ensures { IfOk result (λ thread. thread.promise.0.value ≡ reader) }
{
    let promise = HearingOf(Snapshot::of(&reader));
    let thread = scope.spawn_with(
        promise,
        move || -> Heard
            requires { reader.received ≡ [] }
            ensures { HasHeard reader result }
        { hear(rt, alloc, hall, reader) },
    )?;
    Ok(thread)
}

/// What the threads come back with, where each did all of its work.
fn join_all<R: Threads>(
    rt: &R,
    hearing: Hearing,
    collectors: (Collecting, Collecting, Collecting, Collecting),
    side: AuditorSide,
) -> Result<Returned, NoMemory>
    requires audited { HasAudited side.pass.1 side.sender.sent }
    requires published { side.seat.published ≡ reports_in side.sender.sent }
    ensures { IfOk result (HasReturned (collectors.0.promise.0.value, collectors.1.promise.0.value, collectors.2.promise.0.value, collectors.3.promise.0.value) side hearing.promise.0.value) }
{
    let (first, second, third, fourth) = collectors;
    let first = first.join(rt);
    let second = second.join(rt);
    let third = third.join(rt);
    let fourth = fourth.join(rt);
    let heard = hearing.join(rt);
    if !(first.is_done && second.is_done && third.is_done && fourth.is_done && heard.is_whole) {
        return Err(AllocError);
    }
    Ok(Returned {
        passes: (first.pass, second.pass, third.pass, fourth.pass),
        done: (first.done, second.done, third.done, fourth.done),
        side,
        reader: heard.reader,
        last: heard.last,
        entries: heard.entries,
    })
}

/// Runs four collectors and a reader, each in a thread of its own, and the auditor in this one. Where one of the threads can't be made none works.
pub fn run_threads<R: Threads + Wait + Sync, S: Solver + Sync>(
    rt: &R,
    alloc: Global,
    hall: &Hall,
    engine: Engine,
    solver: &S,
    passes: CollectorPasses,
    side: AuditorSide,
    reader: ReportReader,
) -> Result<Returned, NoMemory>
    requires ready { S.ready }
    requires none_open { engine.asked ≡ None }
    requires holds { Holds engine (fresh_state 64 4 4096) }
    requires collectors { AreCollectorsOf hall.now.desk passes }
    requires fresh { AreFresh passes }
    requires side { IsFreshSide hall.now side }
    requires reader { reader.received ≡ [] }
    ensures { IfOk result (HasReturned passes side reader) }
{
    thread::scope(
        thread::scope_env(),
        rt,
        move |scope| -> Result<Returned, NoMemory>
            requires { S.ready × (engine.asked ≡ None) × Holds engine (fresh_state 64 4 4096)
                × AreCollectorsOf hall.now.desk passes × AreFresh passes × IsFreshSide hall.now side × (reader.received ≡ []) }
            ensures { IfOk result (HasReturned passes side reader) }
        {
            let (first, second, third, fourth) = passes;
            let hearing = start_reader(scope, rt, alloc, hall, reader);
            let first = start_collector(scope, rt, alloc, hall, 0, first);
            let second = start_collector(scope, rt, alloc, hall, 1, second);
            let third = start_collector(scope, rt, alloc, hall, 2, third);
            let fourth = start_collector(scope, rt, alloc, hall, 3, fourth);
            match (hearing, first, second, third, fourth) {
                (Ok(hearing), Ok(first), Ok(second), Ok(third), Ok(fourth)) => {
                    hall.start.call(rt, true);
                    let mut side = side;
                    let audited = audit(scope, rt, alloc, hall, engine, solver, &mut side);
                    if audited.is_err() {
                        return Err(AllocError);
                    }
                    join_all(rt, hearing, (first, second, third, fourth), side)
                }
                _ => {
                    hall.start.call(rt, false);
                    Err(AllocError)
                }
            }
        },
    )
}
