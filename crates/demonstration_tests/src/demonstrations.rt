//! The demonstration with each fault, over desks and rings of several sizes.
ghost use Rattle.std.specs.Prelude.{◌≡◌, ◌≤◌};

use crate::judging::judge;
use byte_lines::{MemorySink, MemorySource, Pace};
use demo_store::Fault;
use demonstration::{DemoFailure, Outcome, Shown, demo, demo_run, run};
use fragment_intake::Tally;
use order_check::Kind;
use polygraph::Single;
use report_queue::Entry;
use std::alloc::Global;
use std::process::Abort;
use std::str;
use std::sync::Wait;
use std::test::*;
use std::thread::Threads;
use txn::NoMemory;

/// What is shown of a run with the fault.
fn wanted(fault: Fault) -> Shown {
    let kind = match fault {
        Fault::None => Kind::Serial,
        _ => Kind::Violated,
    };
    Shown {
        fault,
        tally: Tally {
            submitted: [11; 4],
            taken: [11; 4],
            left: [0; 4],
        },
        last: Some(kind),
        latest: Some(kind),
    }
}

/// The round and kind of the last report that was sent.
fn last_report(entries: &[Entry]) -> Option<(u64, Kind)> {
    let mut last = None;
    for entry in entries {
        if let Entry::Report(report) = entry {
            last = Some((report.round, report.kind));
        }
    }
    last
}

/// Each entry is judged, the last report is of all that was executed, and what is shown is what is wanted.
fn judge_outcome(
    rt: &impl Abort,
    alloc: Global,
    fault: Fault,
    outcome: &Outcome,
) -> Result<(), NoMemory> {
    assert_eq!(rt; outcome.shown, wanted(fault));
    let executed = outcome.store.log();
    assert_eq!(rt; executed.len(), 36);
    let told = judge(rt, alloc, executed, outcome.entries.as_slice())?;
    assert_eq!(rt; told.counts, [9; 4]);
    assert_eq!(rt; told.kind, outcome.shown.last);
    assert_eq!(rt; outcome.latest, last_report(outcome.entries.as_slice()));
    Ok(())
}

fn judge_run<R: Threads + Wait + Sync + Abort>(
    rt: &R,
    alloc: Global,
    fault: Fault,
    desk: usize,
    ring: usize,
) -> Result<(), NoMemory>
    requires desk { (1 ≤ desk) × (desk ≤ 1024) }
    requires ring { (1 ≤ ring) × (ring ≤ 1024) }
{
    let outcome = run(rt, alloc, &Single, fault, desk, ring)?;
    judge_outcome(rt, alloc, fault, &outcome)
}

/// The faults of a store.
const FAULTS: [Fault; 6] = [
    Fault::None,
    Fault::StaleRead,
    Fault::LostUpdate,
    Fault::SplitRead,
    Fault::SessionBack,
    Fault::DirtyRead,
];

#[test]
fn each_report_of_each_run_is_judged(rt: HostRuntime) -> Result<(), Fail> {
    for fault in FAULTS {
        judge_run(&rt, rt.alloc(), fault, 1, 1)?;
        judge_run(&rt, rt.alloc(), fault, 1, 64)?;
        judge_run(&rt, rt.alloc(), fault, 16, 64)?;
    }
    Ok(())
}

/// What was written, as text.
fn text_in(sink: &MemorySink) -> &str {
    match str::from_utf8(sink.bytes.as_slice()) {
        Ok(text) => text,
        Err(_) => "no text",
    }
}

fn sink(alloc: Global) -> MemorySink {
    MemorySink {
        bytes: Vec::new(alloc),
        pace: Pace::new(4096, 0),
    }
}

/// What an honest store's run writes.
const HONEST: &str =
    "fault none\ncollector 0 submitted 11 taken 11\ncollector 1 submitted 11 taken 11\ncollector 2 submitted 11 taken 11\ncollector 3 submitted 11 taken 11\nlast serial\nlatest serial\n";

/// What a run with a lost update writes.
const LOST: &str =
    "fault lost-update\ncollector 0 submitted 11 taken 11\ncollector 1 submitted 11 taken 11\ncollector 2 submitted 11 taken 11\ncollector 3 submitted 11 taken 11\nlast violated\nlatest violated\n";

/// What becomes of a command, and what is then written.
fn told<R: Threads + Wait + Sync>(
    rt: &R,
    alloc: Global,
    line: &[u8],
    sink: &mut MemorySink,
) -> Result<(), DemoFailure> {
    let mut source = MemorySource {
        bytes: line,
        pace: Pace::new(4096, 0),
        last_read: 0,
    };
    demo(rt, alloc, &mut source, sink)
}

/// That the command makes the demonstration write this.
fn assert_told<R: Threads + Wait + Sync + Abort>(
    rt: &R,
    alloc: Global,
    line: &'static str,
    wanted: &'static str,
) {
    let mut sink = sink(alloc);
    assert_eq!(rt;
        told(rt, alloc, line.as_bytes(), &mut sink),
        Ok(()),
        "{line}"
    );
    assert_eq!(rt; text_in(&sink), wanted, "{line}");
}

/// Lines that are no command.
const NO_COMMANDS: [&str; 18] = [
    "",
    "\n",
    "none",
    "none ",
    "none 0",
    "none 1025",
    "none 01",
    "none +1",
    "none 1 ",
    " none 1",
    "none  1",
    "none 65537",
    "None 1",
    "stale read 1",
    "lost-update 1\r",
    "dirty read 1",
    "session-back 10000",
    "session-back 1\u{e9}",
];

#[test]
fn first_runs(rt: HostRuntime) -> Result<(), Fail> {
    for (fault, wanted) in [(Fault::None, HONEST), (Fault::LostUpdate, LOST)] {
        let mut sink = sink(rt.alloc());
        let ran = demo_run(&rt, rt.alloc(), fault, 1, 1, &mut sink);
        assert_eq!(rt; ran, Ok(()));
        assert_eq!(rt; text_in(&sink), wanted);
    }
    Ok(())
}

#[test]
fn a_line_asks_for_a_run_or_for_none(rt: HostRuntime) -> Result<(), Fail> {
    assert_told(&rt, rt.alloc(), "none 1", HONEST);
    assert_told(
        &rt,
        rt.alloc(),
        "none 1024\nwhat follows isn't read",
        HONEST,
    );
    assert_told(&rt, rt.alloc(), "lost-update 16\n", LOST);
    for line in NO_COMMANDS {
        let mut sink = sink(rt.alloc());
        let answer = told(&rt, rt.alloc(), line.as_bytes(), &mut sink);
        assert_eq!(rt; answer, Err(DemoFailure::Usage), "{line}");
        assert_eq!(rt; text_in(&sink), "", "{line}");
    }
    Ok(())
}
