//! Entries through a ring, in one thread and in two.
ghost use Rattle.std.specs.Prelude.{◌≡◌, ◌≤◌};

use order_check::Kind;
use report_queue::{Entry, ReportReader, ReportSender, ring};
use round_state::{Certificate, Report};
use std::alloc::Global;
use std::test::*;
use std::thread;
use std::thread::Threads;
use txn::{NoMemory, Refusal, Sequence};

/// That a parcel of collector 0 is accepted.
fn accepted(place: u64) -> Entry {
    Entry::Accepted {
        collector: 0,
        place,
    }
}

/// The place of an accepted parcel of collector 0.
fn place_of(entry: Option<Entry>) -> Option<u64> {
    match entry {
        Some(
            Entry::Accepted {
                collector: 0,
                place,
            },
        ) => Some(place),
        _ => None,
    }
}

/// Whether the entry goes in, or the place of the one that comes back.
fn sends(sender: &mut ReportSender, place: u64) -> Result<(), Option<u64>>
    ensures { sender.new.ring ≡ sender.old.ring }
{
    match sender.send(accepted(place)) {
        Ok(()) => Ok(()),
        Err(entry) => Err(place_of(Some(entry))),
    }
}

/// The place of the next entry.
fn takes(reader: &mut ReportReader) -> Option<u64>
    ensures { reader.new.ring ≡ reader.old.ring }
{
    place_of(reader.next())
}

/// What a ring with one place answers, to sender and reader in turn.
fn answers_of_one_place(
    alloc: Global,
) -> Result<([Option<u64>; 4], [Result<(), Option<u64>>; 3]), NoMemory> {
    let (mut sender, mut reader) = ring(alloc, 1)?;
    let none = takes(&mut reader);
    let first = sends(&mut sender, 7);
    let full = sends(&mut sender, 8);
    let seven = takes(&mut reader);
    let again = sends(&mut sender, 9);
    let nine = takes(&mut reader);
    let empty = takes(&mut reader);
    Ok(([none, seven, nine, empty], [first, full, again]))
}

#[test]
fn a_ring_with_one_place(rt: HostRuntime) -> Result<(), Fail> {
    let (taken, sent) = answers_of_one_place(rt.alloc())?;
    assert_eq!(rt; taken, [None, Some(7), Some(9), None]);
    assert_eq!(rt; sent, [Ok(()), Err(Some(8)), Ok(())]);
    Ok(())
}

/// Sends entries until one comes back, and tells how many went in.
fn fill(sender: &mut ReportSender) -> u64 {
    for place in 0..2000u64 {
        if sends(sender, place).is_err() {
            return place;
        }
    }
    2000
}

/// Takes entries until another one comes than the next place, and tells how many came.
fn take_in_order(reader: &mut ReportReader) -> u64 {
    for place in 0..2000u64 {
        if takes(reader) != Some(place) {
            return place;
        }
    }
    2000
}

/// How many entries go in, come out and go in again, where the reader starts once the ring is full.
fn filled_twice(alloc: Global, capacity: usize) -> Result<[u64; 3], NoMemory>
    requires { (1 ≤ capacity) × (capacity ≤ 1024) }
{
    let (mut sender, mut reader) = ring(alloc, capacity)?;
    let first = fill(&mut sender);
    let taken = take_in_order(&mut reader);
    let second = fill(&mut sender);
    Ok([first, taken, second])
}

#[test]
fn a_reader_that_starts_late_gets_all_that_went_in(rt: HostRuntime) -> Result<(), Fail> {
    assert_eq!(rt; filled_twice(rt.alloc(), 1)?, [1; 3]);
    assert_eq!(rt; filled_twice(rt.alloc(), 16)?, [16; 3]);
    assert_eq!(rt; filled_twice(rt.alloc(), 1024)?, [1024; 3]);
    Ok(())
}

/// Of three entries one is taken, the sender ends, and the others are taken: what is left then, and after each.
fn left_of_three(alloc: Global) -> Result<Option<([usize; 3], [Option<u64>; 4])>, NoMemory> {
    let (mut sender, mut reader) = ring(alloc, 16)?;
    let _ = sends(&mut sender, 0);
    let _ = sends(&mut sender, 1);
    let _ = sends(&mut sender, 2);
    let first = takes(&mut reader);
    let Some(mut end) = sender.end() else {
        return Ok(None);
    };
    let two = reader.left(&mut end);
    let second = takes(&mut reader);
    let one = reader.left(&mut end);
    let third = takes(&mut reader);
    let none = reader.left(&mut end);
    let fourth = takes(&mut reader);
    Ok(Some(([two, one, none], [first, second, third, fourth])))
}

#[test]
fn what_is_left_after_the_end_is_counted(rt: HostRuntime) -> Result<(), Fail> {
    let (left, taken) = left_of_three(rt.alloc())?.ok_or("the reader is there")?;
    assert_eq!(rt; left, [2, 1, 0]);
    assert_eq!(rt; taken, [Some(0), Some(1), Some(2), None]);
    Ok(())
}

#[test]
fn a_sender_whose_reader_is_gone_ends_too(rt: HostRuntime) -> Result<(), Fail> {
    let (sender, reader) = ring(rt.alloc(), 1)?;
    drop(reader);
    assert!(rt; sender.end().is_none());
    Ok(())
}

/// A report of this round.
fn report(alloc: Global, round: u64) -> Result<Report, NoMemory> {
    let mut counts = Vec::with_capacity(alloc, 1)?;
    counts.push(3)?;
    Ok(Report {
        round,
        kind: Kind::Spent,
        counts: Sequence::new(counts),
        certificate: Certificate::Nothing,
    })
}

/// A parcel refused, a report, a round skipped, and the end.
fn entries(alloc: Global) -> Result<[Entry; 4], NoMemory> {
    let refused = Entry::Refused {
        collector: 3,
        place: 5,
        refusal: Refusal::Gap,
    };
    let found = report(alloc, 6)?;
    Ok([
        refused,
        Entry::Report(found),
        Entry::Skipped(Refusal::NoMemory),
        Entry::End,
    ])
}

/// An entry as text.
fn shown(alloc: Global, entry: Option<Entry>) -> Result<String, NoMemory> {
    Ok(format!(in alloc; "{entry:?}")?)
}

#[test]
fn entries_come_out_as_they_went_in(rt: HostRuntime) -> Result<(), Fail> {
    let (mut sender, mut reader) = ring(rt.alloc(), 4)?;
    for entry in entries(rt.alloc())? {
        let _ = sender.send(entry);
    }
    for entry in entries(rt.alloc())? {
        let text = shown(rt.alloc(), Some(entry))?;
        assert_eq!(rt; shown(rt.alloc(), reader.next())?, text);
    }
    assert_eq!(rt; shown(rt.alloc(), reader.next())?.as_str(), "None");
    Ok(())
}

/// Sends 200 entries, each again while the ring is full.
fn send_all(sender: ReportSender) -> ReportSender {
    let mut sender = sender;
    let mut next = 0u64;
    for _turn in 0..100_000_000u64 {
        if next >= 200 {
            break;
        }
        if sends(&mut sender, next).is_ok() {
            next += 1;
        } else {
            thread::yield_now();
        }
    }
    sender
}

/// Takes entries until 200 came in order, or one out of order, and tells how many came.
fn take_all(reader: ReportReader) -> (ReportReader, u64) {
    let mut reader = reader;
    let mut next = 0u64;
    for _turn in 0..100_000_000u64 {
        if next >= 200 {
            break;
        }
        match takes(&mut reader) {
            None => thread::yield_now(),
            Some(place) if place == next => next += 1,
            Some(_) => break,
        }
    }
    (reader, next)
}

/// One thread sends and another reads, over a ring with three places.
fn through_two<R: Threads + Sync>(rt: &R, alloc: Global) -> Result<u64, NoMemory> {
    let (sender, reader) = ring(alloc, 3)?;
    let (sender, (reader, taken)) = thread::join(
        rt,
        move || send_all(sender),
        move || take_all(reader),
    );
    drop(reader);
    drop(sender);
    Ok(taken)
}

#[test]
fn two_threads_lose_nothing(rt: HostRuntime) -> Result<(), Fail> {
    assert_eq!(&rt; through_two(&rt, rt.alloc())?, 200);
    Ok(())
}

/// Both ends go into threads of their own, and come back. The sender ends by an end, since the reader is still there.
#[test]
fn the_ends_move_into_spawned_threads(rt: HostRuntime) -> Result<(), Fail> {
    let (sender, reader) = ring(rt.alloc(), 3)?;
    let sending = thread::spawn(&rt, move || send_all(sender).end())?;
    let reading = thread::spawn(&rt, move || take_all(reader))?;
    let (reader, taken) = reading.join(&rt);
    assert_eq!(&rt; taken, 200);
    assert!(&rt; sending.join(&rt).is_some());
    drop(reader);
    Ok(())
}
