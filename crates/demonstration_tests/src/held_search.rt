//! A search that is held until the reader has heard of a fragment that was submitted after its round had begun.
ghost use Rattle.std.specs.Prelude.{◌≡◌, []};

use crate::holding::{Held, Signal};
use crate::stage::{Play, Setting, run, submit};
use fragment_intake::{CollectorPass, Desk, Item};
use live_audit::Effort;
use logged_fragments::LoggedFragment;
use order_check::Kind;
use report_queue::{Entry, Latest, ReaderSeat};
use round_state::{Certificate, Report};
use std::alloc::Global;
use std::sync::{Mutex, Wait};
use std::test::*;
use txn::{Fragment, NoMemory, Sequence, Source, Txn, TxnId};

/// A fragment of session 0 with this one transaction.
fn fragment_of(
    alloc: Global,
    first: u64,
    reads: Sequence<(u64, Source)>,
    writes: Sequence<u64>,
) -> Result<LoggedFragment, NoMemory> {
    let txns = vec![in alloc; Txn { reads, writes }]?;
    let fragment = Fragment {
        session: 0,
        first,
        txns: Sequence::new(txns),
    };
    Ok(LoggedFragment::committed(alloc, fragment))
}

/// 0.0, which writes key 5.
fn writing(alloc: Global) -> Result<LoggedFragment, NoMemory> {
    let writes = vec![in alloc; 5u64]?;
    fragment_of(
        alloc,
        0,
        Sequence::new(Vec::new(alloc)),
        Sequence::new(writes),
    )
}

/// 0.1, which reads key 5 from 0.0.
fn reading(alloc: Global) -> Result<LoggedFragment, NoMemory> {
    let source = Source::By(TxnId {
        session: 0,
        number: 0,
    });
    let reads = vec![in alloc; (5u64, source)]?;
    fragment_of(
        alloc,
        1,
        Sequence::new(reads),
        Sequence::new(Vec::new(alloc)),
    )
}

/// The fragment as an item; an end in the place of what there is no memory for.
fn item_of(fragment: Result<LoggedFragment, NoMemory>) -> Item {
    match fragment {
        Ok(fragment) => Item::Fragment(fragment),
        Err(_) => Item::End,
    }
}

/// What a report says: its kind, its counts, and the numbers of the first two in its order.
#[derive(Clone, Copy, Debug, PartialEq, Eq)]
struct Said {
    kind: Kind,
    count: Option<u64>,
    order: [Option<TxnId>; 2],
}

/// The only count.
fn only_of(counts: &[u64]) -> Option<u64> {
    match counts {
        [count] => Some(*count),
        _ => None,
    }
}

/// The one or two in an order.
fn order_of(order: &[TxnId]) -> [Option<TxnId>; 2] {
    match order {
        [first] => [Some(*first), None],
        [first, second] => [Some(*first), Some(*second)],
        _ => [None; 2],
    }
}

fn said_by(report: &Report) -> Said {
    let order = match &report.certificate {
        Certificate::Order(order) => order_of(order.as_slice()),
        _ => [None; 2],
    };
    Said {
        kind: report.kind,
        count: only_of(report.counts.as_slice()),
        order,
    }
}

/// The first report and the last, and how many there were.
#[derive(Clone, Copy, Debug, PartialEq, Eq)]
struct Heard {
    first: Option<Said>,
    last: Option<Said>,
    rounds: u64,
}

impl Heard {
    fn note(&mut self, report: &Report) {
        let said = said_by(report);
        self.first = Some(self.first.unwrap_or(said));
        self.last = Some(said);
        self.rounds = self.rounds.saturating_add(1);
    }
}

/// What the threads share: the search that is held, that both transactions were reported, and what the reader has heard.
#[derive(Drop)]
struct HeldPlay {
    held: Held,
    both_reported: Signal,
    heard: Mutex<Heard>,
}

impl HeldPlay {
    fn hear_report<R: Wait>(&self, rt: &R, report: &Report) {
        self.heard.lock(rt).note(report);
        if only_of(report.counts.as_slice()) == Some(2) {
            self.both_reported.give();
        }
    }
}

impl Play for HeldPlay {
    /// Collector 0 submits its second fragment, and closes its session, only once the first search is held. It ends only once a report counts both
    /// fragments, and the others end at once.
    fn collect<R: Wait>(
        &self,
        rt: &R,
        alloc: Global,
        desk: &Desk,
        number: u8,
        pass: &mut CollectorPass,
    )
        requires { (pass.old.0 ≡ desk.now.0) × (pass.old.2 ≡ []) }
        ensures { (pass.new.0 ≡ pass.old.0) × (pass.new.1 ≡ pass.old.1) }
    {
        if number == 0 {
            submit(rt, desk, pass, item_of(writing(alloc)));
            self.held.reached.wait();
            submit(rt, desk, pass, item_of(reading(alloc)));
            submit(rt, desk, pass, Item::Close(0));
            self.both_reported.wait();
        }
        submit(rt, desk, pass, Item::End);
    }

    fn wait_to_read<R: Wait>(&self, _rt: &R, _latest: &Latest, _seat: &mut ReaderSeat)
        requires { _seat.old.word ≡ _latest.now }
    {}

    /// Once what collector 0 submitted at its place 2 is accepted, the search goes on.
    fn hear<R: Wait>(&self, rt: &R, entry: &Entry) {
        match entry {
            Entry::Accepted {
                collector: 0,
                place: 2,
            } => self.held.goes_on.give(),
            Entry::Report(report) => self.hear_report(rt, report),
            _ => {}
        }
    }
}

const SETTING: Setting = Setting {
    sessions: 1,
    effort: Effort {
        budget: 32,
        depth: 0,
        workers: 1,
    },
    desk: 16,
    ring: 64,
};

/// The transaction of session 0 with this number.
fn id(number: u64) -> Option<TxnId> {
    Some(TxnId { session: 0, number })
}

/// The auditor takes a fragment while it searches: the search waits for it. A second round reports it, before anything else is submitted, and the
/// third is the one at the end.
#[test]
fn a_fragment_is_accepted_while_a_search_is_held(rt: HostRuntime) -> Result<(), Fail> {
    let play = HeldPlay {
        held: Held::new(),
        both_reported: Signal::new(),
        heard: Mutex::new(Heard {
            first: None,
            last: None,
            rounds: 0,
        }),
    };
    let played = run(&rt, rt.alloc(), SETTING, &play, &play.held)?;
    let HeldPlay {
        held,
        both_reported,
        heard,
    } = play;
    let heard = heard.into_inner();
    let first = Said {
        kind: Kind::Serial,
        count: Some(1),
        order: [id(0), None],
    };
    let last = Said {
        kind: Kind::Serial,
        count: Some(2),
        order: [id(0), id(1)],
    };
    let gave_up = [
        held.reached.gave_up(),
        held.goes_on.gave_up(),
        both_reported.gave_up(),
    ];
    assert_eq!(rt; gave_up, [false; 3], "{heard:?}");
    assert_eq!(rt; heard.first, Some(first), "{heard:?}");
    assert_eq!(rt; heard.last, Some(last), "{heard:?}");
    assert_eq!(rt; heard.rounds, 3, "{heard:?}");
    assert_eq!(rt; played.tally.taken, [4, 1, 1, 1]);
    assert!(rt; played.is_made);
    Ok(())
}
