//! A reader that reads nothing until it has seen the latest report, while the ring has no place for one: a report is published before it is sent.
ghost use Rattle.std.specs.Prelude.{◌≡◌, []};

use crate::holding::Signal;
use crate::stage::{Play, Setting, run, submit};
use fragment_intake::{CollectorPass, Desk, Item};
use live_audit::Effort;
use logged_fragments::LoggedFragment;
use order_check::Kind;
use polygraph::Single;
use report_queue::{Entry, Latest, ReaderSeat};
use std::alloc::Global;
use std::sync::Wait;
use std::sync::atomic::{AtomicU64, Ordering};
use std::test::*;
use std::thread::Parker;
use std::time::Duration;
use txn::{Fragment, Sequence, Txn};

/// What the threads share: that the reader has seen the latest report, which round that is of, and how many reports it has heard of.
#[derive(Drop)]
struct SeenFirst {
    seen: Signal,
    round: AtomicU64,
    heard: AtomicU64,
}

/// How often the reader looks, a millisecond apart, before it gives up, which fails the test.
const TURNS: u64 = 5000;

/// 0.0, which does nothing; an end in the place of what there is no memory for.
fn idle(alloc: Global) -> Item {
    let idle = Txn {
        reads: Sequence::new(Vec::new(alloc)),
        writes: Sequence::new(Vec::new(alloc)),
    };
    match vec![in alloc; idle] {
        Ok(txns) => Item::Fragment(LoggedFragment::committed(
            alloc,
            Fragment {
                session: 0,
                first: 0,
                txns: Sequence::new(txns),
            },
        )),
        Err(_) => Item::End,
    }
}

/// The latest report, once there is one.
fn seen_at_last<R: Wait>(rt: &R, latest: &Latest, seat: &mut ReaderSeat) -> Option<(u64, Kind)>
    requires { seat.old.word ≡ latest.now }
{
    for turn in 0..TURNS {
        let seen = latest.latest(seat);
        if seen.is_some() {
            return seen;
        }
        Parker::new().park_timeout(rt, Duration::from_millis(1));
    }
    None
}

impl Play for SeenFirst {
    /// Collector 0 submits a fragment, and ends, as the others do, only once the reader has seen a report.
    fn collect<R: Wait>(
        &self,
        rt: &R,
        alloc: Global,
        desk: &Desk,
        number: u8,
        pass: &mut CollectorPass,
    )
        requires { (pass.old.0 ≡ desk.now.0) × (pass.old.2 ≡ []) }
        ensures { (pass.new.0 ≡ pass.old.0) × (pass.new.1 ≡ pass.old.1) }
    {
        if number == 0 {
            submit(rt, desk, pass, idle(alloc));
        }
        self.seen.wait();
        submit(rt, desk, pass, Item::End);
    }

    /// The ring has one place, where the entry stands that the fragment was accepted.
    fn wait_to_read<R: Wait>(&self, rt: &R, latest: &Latest, seat: &mut ReaderSeat)
        requires { seat.old.word ≡ latest.now }
    {
        if let Some((round, Kind::Serial)) = seen_at_last(rt, latest, seat) {
            self.round.store(round, Ordering::SeqCst);
        }
        self.seen.give();
    }

    fn hear<R: Wait>(&self, _rt: &R, entry: &Entry) {
        if let Entry::Report(_) = entry {
            self.heard.fetch_add(1, Ordering::SeqCst);
        }
    }
}

const SETTING: Setting = Setting {
    sessions: 1,
    effort: Effort {
        budget: 32,
        depth: 0,
        workers: 1,
    },
    desk: 16,
    ring: 1,
};

/// The auditor waits for a place in the ring while the reader waits for the report: it is seen nevertheless.
#[test]
fn a_report_is_published_before_it_is_sent(rt: HostRuntime) -> Result<(), Fail> {
    let play = SeenFirst {
        seen: Signal::new(),
        round: AtomicU64::new(0),
        heard: AtomicU64::new(0),
    };
    let played = run(&rt, rt.alloc(), SETTING, &play, &Single)?;
    assert_eq!(rt; play.round.load(Ordering::SeqCst), 1);
    assert!(rt; !play.seen.gave_up() && played.is_made);
    assert_eq!(rt; play.heard.load(Ordering::SeqCst), 2);
    Ok(())
}
