//! One scaffold for tests: four collectors and a reader in threads of their own, and the auditor in this one, over a desk, a ring and a word. What
//! the collectors and the reader do, a test says by its play.
ghost use Rattle.std.specs.Prelude.{◌≡◌, ◌+◌, ◌<◌, ◌≤◌, ◌^◌, None, [], IfOk, length};
ghost use Rattle.order_check.specs.Effort.{IsEffort};
ghost use Rattle.fragment_intake.specs.Collectors.{AreCollectorsOf};
ghost use Rattle.demonstration_tests.specs.Stage.{AreFresh, IsFreshSide};

use fragment_intake::{CollectorPass, CollectorPasses, Desk, Item, Tally};
use live_audit::{AuditorSide, Effort, Means, audit_live};
use polygraph::Solver;
use report_queue::{Entry, Latest, ReaderSeat, ReportReader, ring};
use round_state::Engine;
use std::alloc::{AllocError, Global};
use std::snapshot::Snapshot;
use std::sync::{OnceLock, Wait};
use std::thread;
use std::thread::{JoinHandle, Promise, PromisedHandle, Scope, Threads};
use txn::NoMemory;

/// What the collectors and the reader of a test do. All of them share it.
pub trait Play {
    /// The whole work of the collector with this number. Its end is among what it submits.
    fn collect<R: Wait>(
        &self,
        rt: &R,
        alloc: Global,
        desk: &Desk,
        number: u8,
        pass: &mut CollectorPass,
    )
        requires { (pass.old.0 ≡ desk.now.0) × (pass.old.2 ≡ []) }
        ensures { (pass.new.0 ≡ pass.old.0) × (pass.new.1 ≡ pass.old.1) };

    /// Returns once the reader is to begin. It may look at the latest report meanwhile.
    fn wait_to_read<R: Wait>(&self, rt: &R, latest: &Latest, seat: &mut ReaderSeat)
        requires { seat.old.word ≡ latest.now };

    /// Hears of an entry that the reader has read. The end isn't one of them.
    fn hear<R: Wait>(&self, rt: &R, entry: &Entry);
}

/// The reader's side of the ring and of the word.
#[derive(Drop)]
struct ReaderSide {
    reader: ReportReader,
    seat: ReaderSeat,
}

/// What the threads share beside the play: whether they are to work, the desk, and the word.
#[derive(Drop)]
struct Hall {
    start: OnceLock<bool>,
    desk: Desk,
    latest: Latest,
}

/// Submits the item, once there is room for it.
pub fn submit<R: Wait>(rt: &R, desk: &Desk, pass: &mut CollectorPass, item: Item)
    requires desk { pass.old.0 ≡ desk.now.0 }
    requires few { length pass.old.2 < 2 ^ 48 }
    ensures same { (pass.new.0 ≡ pass.old.0) × (pass.new.1 ≡ pass.old.1) }
    ensures one { length pass.new.2 ≡ length pass.old.2 + 1 }
{
    let mut item = item;
    for _ in rt.forever() {
        match desk.submit(rt, pass, item) {
            Ok(()) => return,
            Err(back) => item = back,
        }
        thread::yield_now();
    }
    unreachable!()
}

/// That this pass comes back.
#[derive(Drop)]
struct PassOf(Snapshot<CollectorPass>);

impl Promise<CollectorPass> for PassOf {
    ghost use Rattle.std.specs.Prelude.{◌≡◌};

    ghost kept_by = { λ promise pass. (pass.0 ≡ promise.0.value.0) × (pass.1 ≡ promise.0.value.1) };
}

/// A collector's whole work, once it is called.
fn collect<R: Wait, P: Play>(
    rt: &R,
    alloc: Global,
    hall: &Hall,
    play: &P,
    number: u8,
    pass: CollectorPass,
) -> CollectorPass
    requires { (pass.0 ≡ hall.now.desk.0) × (pass.2 ≡ []) }
    ensures { (result.0 ≡ pass.0) × (result.1 ≡ pass.1) }
{
    let mut pass = pass;
    if *hall.start.wait(rt) {
        play.collect(rt, alloc, &hall.desk, number, &mut pass);
    }
    pass
}

/// Reads to the end.
fn read_all<R: Wait, P: Play>(rt: &R, play: &P, reader: &mut ReportReader) {
    for _ in rt.forever() {
        match reader.next() {
            Some(Entry::End) => return,
            Some(entry) => play.hear(rt, &entry),
            None => thread::yield_now(),
        }
    }
    unreachable!()
}

/// The reader's whole work, once it is called.
fn read<R: Wait, P: Play>(rt: &R, hall: &Hall, play: &P, reader_side: ReaderSide)
    requires { reader_side.seat.word ≡ hall.now.latest }
{
    let ReaderSide {
        mut reader,
        mut seat,
    } = reader_side;
    if *hall.start.wait(rt) {
        play.wait_to_read(rt, &hall.latest, &mut seat);
        read_all(rt, play, &mut reader);
    }
}

type Collecting = PromisedHandle<CollectorPass, PassOf>;

/// Starts a collector.
fn start_collector<'s, E, R: Threads + Wait + Sync, P: Play + Sync>(
    scope: &Scope<'s, E>,
    rt: &'s R,
    alloc: Global,
    hall: &'s Hall,
    play: &'s P,
    number: u8,
    pass: CollectorPass,
) -> Result<Collecting, NoMemory>
    requires desk { pass.0 ≡ hall.now.desk.0 }
    requires fresh { pass.2 ≡ [] }
    ensures { IfOk result (λ thread. thread.promise.0.value ≡ pass) }
{
    let promise = PassOf(Snapshot::of(&pass));
    let thread = scope.spawn_with(
        promise,
        move || -> CollectorPass
            requires { (pass.0 ≡ hall.now.desk.0) × (pass.2 ≡ []) }
            ensures { (result.0 ≡ pass.0) × (result.1 ≡ pass.1) }
        { collect(rt, alloc, hall, play, number, pass) },
    )?;
    Ok(thread)
}

/// Starts the reader.
fn start_reader<'s, E, R: Threads + Wait + Sync, P: Play + Sync>(
    scope: &Scope<'s, E>,
    rt: &'s R,
    hall: &'s Hall,
    play: &'s P,
    reader_side: ReaderSide,
) -> Result<JoinHandle<()>, NoMemory>
    requires { reader_side.seat.word ≡ hall.now.latest }
{
    let thread = scope.spawn(
        move || -> ()
            requires { reader_side.seat.word ≡ hall.now.latest }
        { read(rt, hall, play, reader_side) },
    )?;
    Ok(thread)
}

/// What the threads come back with: the collectors' passes and the auditor's, and whether the last round was made.
#[derive(Drop)]
struct Returned {
    passes: CollectorPasses,
    side: AuditorSide,
    is_made: bool,
}

/// The auditor's whole work. Whether its last round was made.
fn audit<'s, E, R: Threads + Wait, S: Solver + Sync>(
    scope: &Scope<'s, E>,
    rt: &R,
    alloc: Global,
    hall: &Hall,
    engine: Engine,
    solver: &'s S,
    effort: Effort,
    side: &mut AuditorSide,
) -> bool
    requires ready { S.ready }
    requires effort { IsEffort effort.budget effort.depth effort.workers }
    requires none_open { engine.asked ≡ None }
    requires side { IsFreshSide hall.now.desk hall.now.latest side.old }
    ensures { side.new.pass.0 ≡ side.old.pass.0 }
{
    let means = Means {
        scope,
        rt,
        alloc,
        desk: &hall.desk,
        latest: &hall.latest,
        solver,
        effort,
    };
    audit_live(&means, engine, side).is_ok()
}

/// Each collector and the reader work in a thread of their own, and the auditor in this one. Where one of the threads can't be made none works.
fn run_threads<R: Threads + Wait + Sync, P: Play + Sync, S: Solver + Sync>(
    rt: &R,
    alloc: Global,
    hall: &Hall,
    play: &P,
    engine: Engine,
    solver: &S,
    effort: Effort,
    passes: CollectorPasses,
    side: AuditorSide,
    reader_side: ReaderSide,
) -> Result<Returned, NoMemory>
    requires ready { S.ready }
    requires effort { IsEffort effort.budget effort.depth effort.workers }
    requires passes { AreCollectorsOf hall.now.desk passes }
    requires none { AreFresh passes }
    requires none_open { engine.asked ≡ None }
    requires side { IsFreshSide hall.now.desk hall.now.latest side }
    requires reader_side { reader_side.seat.word ≡ hall.now.latest }
    ensures passes { IfOk result (λ returned. AreCollectorsOf hall.now.desk returned.passes) }
    ensures side { IfOk result (λ returned. returned.side.pass.0 ≡ hall.now.desk.0) }
{
    thread::scope(
        thread::scope_env(),
        rt,
        move |scope| -> Result<Returned, NoMemory>
            requires { S.ready × IsEffort effort.budget effort.depth effort.workers × AreCollectorsOf hall.now.desk passes
                × AreFresh passes × (engine.asked ≡ None) × IsFreshSide hall.now.desk hall.now.latest side × (reader_side.seat.word ≡ hall.now.latest) }
            ensures { IfOk result (λ returned. AreCollectorsOf hall.entry.now.desk returned.passes × (returned.side.pass.0 ≡ hall.entry.now.desk.0)) }
        {
            let (first, second, third, fourth) = passes;
            let reading = start_reader(scope, rt, hall, play, reader_side);
            let first = start_collector(scope, rt, alloc, hall, play, 0, first);
            let second = start_collector(scope, rt, alloc, hall, play, 1, second);
            let third = start_collector(scope, rt, alloc, hall, play, 2, third);
            let fourth = start_collector(scope, rt, alloc, hall, play, 3, fourth);
            match (reading, first, second, third, fourth) {
                (Ok(reading), Ok(first), Ok(second), Ok(third), Ok(fourth)) => {
                    let _ = hall.start.set(rt, true);
                    let mut side = side;
                    let is_made = audit(scope, rt, alloc, hall, engine, solver, effort, &mut side);
                    let first = first.join(rt);
                    let second = second.join(rt);
                    let third = third.join(rt);
                    let fourth = fourth.join(rt);
                    reading.join(rt);
                    Ok(Returned {
                        passes: (first, second, third, fourth),
                        side,
                        is_made,
                    })
                }
                _ => {
                    let _ = hall.start.set(rt, false);
                    Err(AllocError)
                }
            }
        },
    )
}

/// What a play came to: the desk's counts, and whether the last round was made.
#[derive(Clone, Copy, Debug)]
pub struct Played {
    pub tally: Tally,
    pub is_made: bool,
}

/// What the desk tells, once the threads have ended.
fn outcome_of<R: Wait>(rt: &R, hall: Hall, returned: Returned) -> Played
    requires passes { AreCollectorsOf hall.desk returned.passes }
    requires side { returned.side.pass.0 ≡ hall.desk.0 }
{
    let Hall {
        start: _,
        desk,
        latest: _,
    } = hall;
    let Returned {
        passes,
        side,
        is_made,
    } = returned;
    let AuditorSide {
        pass,
        sender: _,
        seat: _,
    } = side;
    Played {
        tally: desk.tally(rt, passes, pass),
        is_made,
    }
}

fn open_engine(alloc: Global, sessions: u64) -> Result<Engine, NoMemory>
    ensures { IfOk result (λ engine. engine.asked ≡ None) }
{
    match Engine::open(alloc, 64, sessions, 4096) {
        Ok(engine) => Ok(engine),
        Err(_) => Err(AllocError),
    }
}

/// Where a play is made: how many sessions the auditor knows of, how much a search may cost, and how much the desk and the ring hold.
#[derive(Clone, Copy, Debug)]
pub struct Setting {
    pub sessions: u64,
    pub effort: Effort,
    pub desk: usize,
    pub ring: usize,
}

/// Makes the play, to its end.
pub fn run<R: Threads + Wait + Sync, P: Play + Sync, S: Solver + Sync>(
    rt: &R,
    alloc: Global,
    setting: Setting,
    play: &P,
    solver: &S,
) -> Result<Played, NoMemory>
    requires ready { S.ready }
    requires effort { IsEffort setting.effort.budget setting.effort.depth setting.effort.workers }
    requires desk { (1 ≤ setting.desk) × (setting.desk ≤ 1024) }
    requires ring { (1 ≤ setting.ring) × (setting.ring ≤ 1024) }
{
    let (desk, passes, pass) = Desk::new(alloc, setting.desk)?;
    let (sender, reader) = ring(alloc, setting.ring)?;
    let (latest, seat, mut seats) = Latest::new(alloc, 1)?;
    let Some(reader_seat) = seats.pop() else {
        return Err(AllocError);
    };
    let reader_side = ReaderSide {
        reader,
        seat: reader_seat,
    };
    let engine = open_engine(alloc, setting.sessions)?;
    let hall = Hall {
        start: OnceLock::new(),
        desk,
        latest,
    };
    let side = AuditorSide { pass, sender, seat };
    let effort = setting.effort;
    let returned = run_threads(
        rt,
        alloc,
        &hall,
        play,
        engine,
        solver,
        effort,
        passes,
        side,
        reader_side,
    )?;
    Ok(outcome_of(rt, hall, returned))
}
