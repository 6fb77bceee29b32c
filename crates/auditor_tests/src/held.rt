// What is held of the transactions of a line, and what a script answers to more than an offer may have.
use cobra::{Failure, Means, MemorySink, MemorySource, Pace, Solvers, serve};
use log_text::{Command, Names, read_line_within};
use logged_fragments::LoggedFragment;
use polygraph::Single;
use std::alloc::{AllocError, Global};
use std::process::Abort;
use std::sync::Wait;
use std::test::Fail;
use std::thread;
use std::thread::Threads;
use txn::Refusal;

/// What is held of an offer or a join.
fn held(
    alloc: Global,
    line: &[u8],
    most: Option<usize>,
) -> Result<Option<LoggedFragment>, Refusal> {
    match read_line_within(alloc, Names::Ids, line, most)? {
        Command::Offer(logged) | Command::Join(logged) => Ok(Some(logged)),
        _ => Ok(None),
    }
}

/// The bound, how many of three transactions are held with it, and the key that the last of these writes.
fn bounds() -> &'static [(Option<usize>, usize, u64)] {
    &[
        (None, 3, 7),
        (Some(4), 3, 7),
        (Some(3), 3, 7),
        (Some(2), 2, 6),
    ]
}

fn has_held(rt: &impl Abort, logged: &LoggedFragment, count: usize, key: u64) {
    let fragment = &logged.fragment;
    assert!(rt; fragment.session == 1 && fragment.first == 4);
    let txns = fragment.txns.as_slice();
    assert_eq!(rt; txns.len(), count);
    let last = txns
        .last()
        .map(|txn| txn.writes.as_slice() == [key].as_slice());
    assert_eq!(rt; last, Some(true));
    assert!(rt; logged.aborted.as_slice() == [false, true, false].as_slice());
}

#[test]
fn first_transactions_are_held(rt: HostRuntime) -> Result<(), Fail> {
    let offer = b"[\"offer\",1,4,[[[],[5]],[[],[6],\"aborted\"],[[],[7]]]]";
    let join = b"[\"join\",1,4,[[[],[5]],[[],[6],\"aborted\"],[[],[7]]]]";
    for (most, count, key) in bounds() {
        let Some(offered) = held(rt.alloc(), offer, *most)? else {
            return Err(Fail::from("no offer"));
        };
        has_held(&rt, &offered, *count, *key);
        let Some(joined) = held(rt.alloc(), join, *most)? else {
            return Err(Fail::from("no join"));
        };
        has_held(&rt, &joined, *count, *key);
    }
    Ok(())
}

/// An offer of so many transactions that do nothing.
fn push_offer(script: &mut Vec<u8>, first: &str, count: usize) -> Result<(), AllocError> {
    script.extend_from_slice(b"[\"offer\",0,")?;
    script.extend_from_slice(first.as_bytes())?;
    script.extend_from_slice(b",[[[],[]]")?;
    for _ in 1..count {
        script.extend_from_slice(b",[[],[]]")?;
    }
    script.extend_from_slice(b"]]\n")?;
    Ok(())
}

fn replies<R: Threads + Wait>(rt: &R, alloc: Global, script: &[u8]) -> Result<Vec<u8>, Failure> {
    let mut source = MemorySource {
        bytes: script,
        pace: Pace::new(4096, 0),
        last_read: 0,
    };
    let mut sink = MemorySink {
        bytes: Vec::new(alloc),
        pace: Pace::new(4096, 0),
    };
    let solvers = Solvers {
        plain: Single,
        guided: Single,
    };
    thread::scope(thread::scope_env(), rt, |scope| {
        let means = Means {
            scope,
            rt,
            alloc,
            solvers: &solvers,
        };
        serve(&means, &mut source, &mut sink)
    })?;
    Ok(sink.bytes)
}

#[test]
fn too_many_are_refused(rt: HostRuntime) -> Result<(), Fail> {
    let mut script = Vec::new(rt.alloc());
    script.extend_from_slice(b"[\"open\",1,1000]\n")?;
    push_offer(&mut script, "0", 257)?;
    push_offer(&mut script, "0", 256)?;
    push_offer(&mut script, "256", 258)?;
    push_offer(&mut script, "256", 1)?;
    script.extend_from_slice(b"[\"show\"]\n")?;
    let told =
        "[\"ok\"]\n[\"no\",9,\"TooLong\"]\n[\"ok\"]\n[\"no\",9,\"TooLong\"]\n[\"ok\"]\n[\"show\",[0],[257],[false],[],257]\n";
    assert!(rt; replies(&rt, rt.alloc(), &script)?.as_slice() == told.as_bytes());
    Ok(())
}

#[test]
fn more_may_remain_in_version_3(rt: HostRuntime) -> Result<(), Fail> {
    let mut script = Vec::new(rt.alloc());
    script.extend_from_slice(b"[\"resume\",1,4097,3]\n[\"marks\",[0],[false]]\n")?;
    push_offer(&mut script, "0", 4097)?;
    script.extend_from_slice(b"[\"resumed\"]\n")?;
    push_offer(&mut script, "4097", 1)?;
    script.extend_from_slice(b"[\"show\"]\n")?;
    let told =
        "[\"ok\"]\n[\"ok\"]\n[\"ok\"]\n[\"ok\"]\n[\"no\",8,\"Backlog\"]\n[\"show\",[0],[4097],[false],[],4097]\n";
    assert!(rt; replies(&rt, rt.alloc(), &script)?.as_slice() == told.as_bytes());
    Ok(())
}

#[test]
fn any_number_is_handed_over(rt: HostRuntime) -> Result<(), Fail> {
    let mut script = Vec::new(rt.alloc());
    script.extend_from_slice(b"[\"resume\",1,1000]\n[\"marks\",[0],[false]]\n")?;
    push_offer(&mut script, "0", 300)?;
    script.extend_from_slice(b"[\"resumed\"]\n[\"show\"]\n")?;
    let told = "[\"ok\"]\n[\"ok\"]\n[\"ok\"]\n[\"ok\"]\n[\"show\",[0],[300],[false],[],300]\n";
    assert!(rt; replies(&rt, rt.alloc(), &script)?.as_slice() == told.as_bytes());
    Ok(())
}
