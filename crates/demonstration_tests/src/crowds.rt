//! Four collectors with 2,000 items each, in threads of their own, over a desk with three places and a ring with one, whose reader starts late.
ghost use Rattle.std.specs.Prelude.{◌≡◌, ◌+◌, ◌<◌, ◌^◌, [], length};

use crate::stage::{Play, Setting, run, submit};
use fragment_intake::{CollectorPass, Desk, Item};
use live_audit::Effort;
use logged_fragments::LoggedFragment;
use order_check::Kind;
use polygraph::Single;
use report_queue::{Entry, Latest, ReaderSeat};
use round_state::Report;
use std::alloc::{AllocError, Global};
use std::sync::atomic::{AtomicU64, Ordering};
use std::sync::{Mutex, Wait};
use std::test::*;
use std::thread;
use txn::{Fragment, NoMemory, Sequence, Source, Txn, TxnId};

/// How many transactions a collector submits, before it closes its session and ends.
const TXNS: u64 = 1998;

/// Of each so many transactions of a session the last two are fences: with two of each session, one is known to stand before or behind each
/// transaction, so that a cut comes.
const BETWEEN: u64 = 16;

/// Whether the session's transaction of this number is a fence.
fn is_fence(number: u64) -> bool {
    BETWEEN - 2 <= number % BETWEEN && number < TXNS
}

/// Which fence of all sessions this one is: the sessions take turns with their first fence, and then with their second.
fn turn_of(session: u8, number: u64) -> u64 {
    let second = number % BETWEEN == BETWEEN - 1;
    let half = (number / BETWEEN)
        .saturating_mul(2)
        .saturating_add(u64::from(second));
    half.saturating_mul(4).saturating_add(u64::from(session))
}

/// The fence of this turn.
fn fence_of(turn: u64) -> TxnId {
    let half = turn / 4;
    let first = (half / 2)
        .saturating_mul(BETWEEN)
        .saturating_add(BETWEEN - 2);
    TxnId {
        session: (turn % 4) as u8,
        number: first.saturating_add(half % 2),
    }
}

/// The fence before this turn's.
fn before_fence(turn: u64) -> Source {
    match turn {
        0 => Source::Init,
        _ => Source::By(fence_of(turn.saturating_sub(1))),
    }
}

/// The transaction of the session that wrote its own key before this one.
fn before_own(session: u8, number: u64) -> Source {
    match number {
        0 => Source::Init,
        _ if number % BETWEEN == 0 => Source::By(TxnId {
            session,
            number: number.saturating_sub(3),
        }),
        _ => Source::By(TxnId {
            session,
            number: number.saturating_sub(1),
        }),
    }
}

/// A transaction that reads the key from there, and writes it.
fn update(alloc: Global, key: u64, source: Source) -> Result<Txn, NoMemory> {
    let reads = vec![in alloc; (key, source)]?;
    let writes = vec![in alloc; key]?;
    Ok(Txn {
        reads: Sequence::new(reads),
        writes: Sequence::new(writes),
    })
}

/// A session's transaction: a fence, or one on a key that is the session's own.
fn txn_of(alloc: Global, session: u8, number: u64) -> Result<Txn, NoMemory> {
    if is_fence(number) {
        update(alloc, 0, before_fence(turn_of(session, number)))
    } else {
        let key = u64::from(session).saturating_add(10);
        update(alloc, key, before_own(session, number))
    }
}

/// A fragment of one transaction.
fn fragment_of(alloc: Global, session: u8, number: u64) -> Result<LoggedFragment, NoMemory> {
    let txn = txn_of(alloc, session, number)?;
    let txns = vec![in alloc; txn]?;
    let fragment = Fragment {
        session,
        first: number,
        txns: Sequence::new(txns),
    };
    Ok(LoggedFragment::committed(alloc, fragment))
}

/// A collector's item at this place; an end in the place of what there is no memory for.
fn item_of(alloc: Global, session: u8, place: u64) -> Item {
    if TXNS <= place {
        return Item::Close(session);
    }
    match fragment_of(alloc, session, place) {
        Ok(fragment) => Item::Fragment(fragment),
        Err(_) => Item::End,
    }
}

/// What the threads share: how many fences were submitted, whether a collector has found the desk full (1), and what the reader has heard.
#[derive(Drop)]
struct Crowd {
    fences: AtomicU64,
    full: AtomicU64,
    heard: Mutex<Heard>,
}

/// Waits until so many fences were submitted, so that no session is far behind the others.
fn wait_turn<R: Wait>(rt: &R, crowd: &Crowd, turn: u64) {
    for _ in rt.forever() {
        if turn <= crowd.fences.load(Ordering::SeqCst) {
            return;
        }
        thread::yield_now();
    }
    unreachable!()
}

/// Submits the item once there is room for it, and notes where there is none at first.
fn submit_noting<R: Wait>(rt: &R, crowd: &Crowd, desk: &Desk, pass: &mut CollectorPass, item: Item)
    requires desk { pass.old.0 ≡ desk.now.0 }
    requires few { length pass.old.2 < 2 ^ 48 }
    ensures same { (pass.new.0 ≡ pass.old.0) × (pass.new.1 ≡ pass.old.1) }
    ensures one { length pass.new.2 ≡ length pass.old.2 + 1 }
{
    match desk.submit(rt, pass, item) {
        Ok(()) => {}
        Err(back) => {
            crowd.full.store(1, Ordering::SeqCst);
            submit(rt, desk, pass, back);
        }
    }
}

/// Submits a session's item at this place, a fence in its turn.
fn submit_in_turn<R: Wait>(
    rt: &R,
    alloc: Global,
    crowd: &Crowd,
    desk: &Desk,
    session: u8,
    place: u64,
    pass: &mut CollectorPass,
)
    requires desk { pass.old.0 ≡ desk.now.0 }
    requires few { length pass.old.2 < 2 ^ 48 }
    ensures same { (pass.new.0 ≡ pass.old.0) × (pass.new.1 ≡ pass.old.1) }
    ensures one { length pass.new.2 ≡ length pass.old.2 + 1 }
{
    let item = item_of(alloc, session, place);
    if is_fence(place) {
        let turn = turn_of(session, place);
        wait_turn(rt, crowd, turn);
        submit_noting(rt, crowd, desk, pass, item);
        crowd.fences.store(turn.saturating_add(1), Ordering::SeqCst);
    } else {
        submit_noting(rt, crowd, desk, pass, item);
    }
}

/// A collector's whole work.
fn submit_all<R: Wait>(
    rt: &R,
    alloc: Global,
    crowd: &Crowd,
    desk: &Desk,
    session: u8,
    pass: &mut CollectorPass,
)
    requires { (pass.old.0 ≡ desk.now.0) × (pass.old.2 ≡ []) }
    ensures { (pass.new.0 ≡ pass.old.0) × (pass.new.1 ≡ pass.old.1) }
{
    for place in 0..1999u64 {
        submit_in_turn(rt, alloc, crowd, desk, session, place, pass);
    }
    submit(rt, desk, pass, Item::End);
}

/// What the reader has heard.
#[derive(Clone, Copy, Debug, PartialEq, Eq)]
struct Heard {
    /// How many transactions of each session were accepted.
    accepted: [u64; 4],
    refused: u64,
    cuts: u64,
    /// Reports of another kind than serial and pending, rounds and cuts that were skipped, and transactions that weren't the next of their session.
    wrong: u64,
    /// The last report's kind and counts.
    last: Option<Kind>,
    counts: [u64; 4],
}

/// The four counts.
fn four_of(counts: &[u64]) -> [u64; 4] {
    match counts {
        [first, second, third, fourth] => [*first, *second, *third, *fourth],
        _ => [u64::MAX; 4],
    }
}

impl Heard {
    fn nothing() -> Heard {
        Heard {
            accepted: [0; 4],
            refused: 0,
            cuts: 0,
            wrong: 0,
            last: None,
            counts: [0; 4],
        }
    }

    fn note_accepted(&mut self, collector: u64, place: u64) {
        if collector < 4 && place < TXNS {
            let count = self.accepted[collector as usize];
            if place != count {
                self.wrong = self.wrong.saturating_add(1);
            }
            self.accepted[collector as usize] = count.saturating_add(1);
        }
    }

    fn note_report(&mut self, report: &Report) {
        if report.kind != Kind::Serial && report.kind != Kind::Pending {
            self.wrong = self.wrong.saturating_add(1);
        }
        self.last = Some(report.kind);
        self.counts = four_of(report.counts.as_slice());
    }

    fn note(&mut self, entry: &Entry) {
        match entry {
            Entry::Accepted { collector, place } => self.note_accepted(*collector, *place),
            Entry::Refused { .. } => self.refused = self.refused.saturating_add(1),
            Entry::Report(report) => self.note_report(report),
            Entry::Cut(_) => self.cuts = self.cuts.saturating_add(1),
            Entry::Skipped(_) => self.wrong = self.wrong.saturating_add(1),
            Entry::End => {}
        }
    }
}

impl Play for Crowd {
    fn collect<R: Wait>(
        &self,
        rt: &R,
        alloc: Global,
        desk: &Desk,
        number: u8,
        pass: &mut CollectorPass,
    )
        requires { (pass.old.0 ≡ desk.now.0) × (pass.old.2 ≡ []) }
        ensures { (pass.new.0 ≡ pass.old.0) × (pass.new.1 ≡ pass.old.1) }
    {
        submit_all(rt, alloc, self, desk, number, pass);
    }

    /// The reader begins only when the desk is full.
    fn wait_to_read<R: Wait>(&self, rt: &R, _latest: &Latest, _seat: &mut ReaderSeat)
        requires { _seat.old.word ≡ _latest.now }
    {
        for _ in rt.forever() {
            if self.full.load(Ordering::SeqCst) == 1 {
                return;
            }
            thread::yield_now();
        }
        unreachable!()
    }

    fn hear<R: Wait>(&self, rt: &R, entry: &Entry) {
        self.heard.lock(rt).note(entry);
    }
}

const SETTING: Setting = Setting {
    sessions: 4,
    effort: Effort {
        budget: 4096,
        depth: 0,
        workers: 1,
    },
    desk: 3,
    ring: 1,
};

/// Each collector's items are taken and told in order, none is refused, no report is wrong, and the last one counts all that was accepted, and is
/// serial. What isn't serial before is pending: a parcel may be taken before that of another collector which it has read from. Where the machine
/// gives the search no turn for long, the auditor has no room for more: such a run is made again.
#[test]
fn four_threads_with_2000_items_each(rt: HostRuntime) -> Result<(), Fail> {
    let mut heard = Heard::nothing();
    for _ in 0..20u64 {
        let crowd = Crowd {
            fences: AtomicU64::new(0),
            full: AtomicU64::new(0),
            heard: Mutex::new(Heard::nothing()),
        };
        let played = run(&rt, rt.alloc(), SETTING, &crowd, &Single)?;
        heard = crowd.heard.into_inner();
        assert!(rt; played.is_made);
        assert_eq!(rt; played.tally.submitted, [2000; 4]);
        assert_eq!(rt; played.tally.taken, [2000; 4]);
        assert_eq!(rt; played.tally.left, [0; 4]);
        if heard.refused == 0 {
            break;
        }
    }
    assert_eq!(rt; (heard.refused, heard.wrong), (0, 0), "{heard:?}");
    assert_eq!(rt; heard.accepted, [TXNS; 4], "{heard:?}");
    assert_eq!(rt; heard.counts, heard.accepted, "{heard:?}");
    assert_eq!(rt; heard.last, Some(Kind::Serial), "{heard:?}");
    assert!(rt; 0 < heard.cuts, "{heard:?}");
    Ok(())
}
