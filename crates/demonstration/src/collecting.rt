ghost use Rattle.std.specs.Prelude.{◌≡◌, ◌+◌, ◌<◌, ◌^◌, ◌++◌, ◌∷◌, [], length, IfOk, OnOk};
ghost use Rattle.demonstration.specs.Runs.{HasCollected};
ghost use Rattle.logged_fragments.specs.Effects.{effects};
ghost use Rattle.demonstration.specs.Work.{AreStepsFrom, IsHandedIn, IsNextInLog, done_in};
ghost use Rattle.fragment_intake.specs.Collectors.{parcel};

use crate::halls::Hall;
use crate::work::{STEPS, request_of};
use demo_store::{Request, Store};
use fragment_intake::{CollectorPass, Desk, Item};
use logged_fragments::LoggedFragment;
use std::alloc::{AllocError, Global};
use std::snapshot::Snapshot;
use std::sync::{Mutex, Wait};
use std::thread;
use std::thread::Promise;
use txn::{Fragment, NoMemory, Sequence, Txn};

/// What a collector comes back with: its pass, what its transactions did to the store, and whether it did all of its work.
#[derive(Drop)]
pub struct Collected {
    pub pass: CollectorPass,
    pub done: Sequence<Txn>,
    pub is_done: bool,
}

/// That this pass comes back.
#[derive(Drop)]
pub struct CollectionOf(pub Snapshot<CollectorPass>);

impl Promise<Collected> for CollectionOf {
    ghost use Rattle.demonstration.specs.Runs.{HasCollected};

    ghost kept_by = { λ promise collected. HasCollected promise.0.value collected };
}

/// More transactions of a session than the store takes.
const TOO_MANY: u64 = 1 << 48;

/// Has the request executed, and makes a fragment of what was, which says whether it aborted.
fn execute(alloc: Global, store: &mut Store, request: Request) -> Result<LoggedFragment, NoMemory>
    requires { request.session < 64 }
    ensures done { IfOk result (IsNextInLog request store.old.log store.new.log) }
    ensures fault { store.new.fault ≡ store.old.fault }
{
    let session = request.session;
    let first = store.executed(session);
    if first >= TOO_MANY {
        return Err(AllocError);
    }
    let mut txns = Vec::with_capacity(alloc, 1)?;
    let aborted = vec![in alloc; request.abort]?;
    txns.push(store.exec(alloc, request)?)?;
    let fragment = Fragment {
        session,
        first,
        txns: Sequence::new(txns),
    };
    Ok(LoggedFragment {
        fragment,
        aborted: Sequence::new(aborted),
    })
}

/// Has the store execute the request of this step, and makes a fragment of it.
fn fragment<R: Wait>(
    rt: &R,
    alloc: Global,
    store: &Mutex<Store>,
    session: u8,
    step: u64,
) -> Result<LoggedFragment, NoMemory>
    requires { (session < 4) × (step < 9) }
    ensures { IfOk result (IsHandedIn session step) }
{
    let request = request_of(alloc, session, step)?;
    execute(alloc, &mut *store.lock(rt), request)
}

/// Notes what the fragment's transactions did to the store.
fn note(done: &mut Sequence<Txn>, logged: &LoggedFragment) -> Result<(), NoMemory>
    ensures { OnOk result (done.new ≡ done.old ++ (effects logged.now).txns) }
{
    let copy = logged.clone()?;
    done.append(copy.into_effects().txns)
}

/// Submits the item, once there is room for it.
fn submit<R: Wait>(rt: &R, desk: &Desk, pass: &mut CollectorPass, item: Item)
    requires desk { pass.old.0 ≡ desk.now.0 }
    requires few { length pass.old.2 < 2 ^ 48 }
    ensures same { (pass.new.0 ≡ pass.old.0) × (pass.new.1 ≡ pass.old.1) }
    ensures one { length pass.new.2 ≡ length pass.old.2 + 1 }
    ensures handed { pass.new.2 ≡ pass.old.2 ++ parcel pass.old.1 (length pass.old.2) item ∷ [] }
{
    let mut item = item;
    for _ in rt.forever() {
        match desk.submit(rt, pass, item) {
            Ok(()) => return,
            Err(back) => item = back,
        }
        thread::yield_now();
    }
    unreachable!()
}

/// Executes the request of each step, and submits it before the next.
fn work<R: Wait>(
    rt: &R,
    alloc: Global,
    hall: &Hall,
    session: u8,
    pass: &mut CollectorPass,
    done: &mut Sequence<Txn>,
) -> Result<(), NoMemory>
    requires session { session < 4 }
    requires desk { pass.old.0 ≡ hall.now.desk.0 }
    requires fresh { (pass.old.2 ≡ []) × (done.old ≡ []) }
    ensures same { (pass.new.0 ≡ pass.old.0) × (pass.new.1 ≡ pass.old.1) }
    ensures few { length pass.new.2 < 10 }
    ensures handed { AreStepsFrom session 0 pass.new.2 }
    ensures all { OnOk result ((length pass.new.2 ≡ 9) × (done.new ≡ done_in pass.new.2)) }
{
    for step in 0..STEPS {
        let fragment = fragment(rt, alloc, &hall.store, session, step)?;
        note(done, &fragment)?;
        submit(rt, &hall.desk, pass, Item::Fragment(fragment));
    }
    Ok(())
}

/// A collector's whole work, once it is called. Where memory is refused it ends at once.
pub fn collect<R: Wait>(
    rt: &R,
    alloc: Global,
    hall: &Hall,
    session: u8,
    pass: CollectorPass,
) -> Collected
    requires session { session < 4 }
    requires number { pass.1 ≡ session }
    requires desk { pass.0 ≡ hall.now.desk.0 }
    requires fresh { pass.2 ≡ [] }
    ensures { HasCollected pass result }
{
    let mut pass = pass;
    let mut done = Sequence::new(Vec::new(alloc));
    if !hall.start.wait(rt) {
        return Collected {
            pass,
            done,
            is_done: false,
        };
    }
    let is_done = work(rt, alloc, hall, session, &mut pass, &mut done).is_ok();
    if is_done {
        submit(rt, &hall.desk, &mut pass, Item::Close(session));
    }
    submit(rt, &hall.desk, &mut pass, Item::End);
    Collected {
        pass,
        done,
        is_done,
    }
}
