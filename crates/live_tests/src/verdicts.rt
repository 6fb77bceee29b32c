//! The latest report's round and kind, in one thread and in several.
ghost use Rattle.std.specs.Prelude.{◌≡◌, [], All, Some};
ghost use Rattle.std.specs.Thread.{IsSync};
ghost use Rattle.order_check.specs.declared.remainder.Kind.TheVariants.{Serial, Violated};
ghost use Rattle.report_queue.specs.Reports.{word_of};
ghost use Rattle.report_queue.specs.Seats.{IsNewReader};

use order_check::Kind;
use report_queue::{Latest, PublisherSeat, ReaderSeat};
use std::alloc::Global;
use std::test::*;
use std::thread;
use std::thread::Threads;
use txn::NoMemory;

/// The words that tell of (1, serial) and (2, violated).
fn words_of_the_row()
    ensures { (word_of (Some (1, Serial)) ≡ 4) × (word_of (Some (2, Violated)) ≡ 10) }
{}

#[test]
fn a_seat_that_met_one_that_saw_round_2_never_sees_round_1(rt: HostRuntime) -> Result<(), Fail> {
    // A law that the proof cites. It does nothing when it runs.
    words_of_the_row();
    let (latest, mut publisher, mut seats) = Latest::new(rt.alloc(), 2)?;
    let mut fresh = seats.pop().ok_or("two seats")?;
    let mut seen = seats.pop().ok_or("two seats")?;
    assert_eq!(rt; latest.latest(&mut seen), None);
    latest.publish(&mut publisher, 1, Kind::Serial);
    assert_eq!(rt; latest.latest(&mut seen), Some((1, Kind::Serial)));
    latest.publish(&mut publisher, 2, Kind::Violated);
    assert_eq!(rt; latest.latest(&mut seen), Some((2, Kind::Violated)));
    latest.meet(&mut seen, &mut fresh);
    assert_eq!(rt; latest.latest(&mut seen), Some((2, Kind::Violated)));
    assert_eq!(rt; latest.latest(&mut fresh), Some((2, Kind::Violated)));
    latest.confirm(&mut publisher, &mut seen);
    latest.confirm(&mut publisher, &mut fresh);
    Ok(())
}

/// The kind that this test publishes of a round.
fn kind_of(round: u64) -> Kind {
    match round % 3 {
        0 => Kind::Serial,
        1 => Kind::Pending,
        _ => Kind::Violated,
    }
}

/// Publishes 100 rounds.
fn publish_all(latest: &Latest, publisher: PublisherSeat) -> PublisherSeat
    requires { (publisher.word ≡ latest.now) × (publisher.published ≡ []) }
    ensures { result.word ≡ publisher.word }
{
    let mut publisher = publisher;
    for round in 1..101u64 {
        latest.publish(&mut publisher, round, kind_of(round));
        thread::yield_now();
    }
    publisher
}

/// Looks until round 100 is seen. False where a round went back, or was seen with another kind.
fn look_on(latest: &Latest, seat: ReaderSeat) -> bool
    requires { seat.word ≡ latest.now }
{
    let mut seat = seat;
    let mut last = 0u64;
    for _turn in 0..10_000_000_000u64 {
        if last == 100 {
            return true;
        }
        match latest.latest(&mut seat) {
            None if last == 0 => thread::yield_now(),
            Some((round, kind)) if last <= round && kind == kind_of(round) => last = round,
            _ => return false,
        }
    }
    false
}

/// One thread publishes, and four look on.
fn looked_on_by_four<R: Threads + Sync>(rt: &R, alloc: Global) -> Result<Vec<bool>, NoMemory> {
    let (latest, publisher, seats) = Latest::new(alloc, 4)?;
    let lent = &latest;
    let (_publisher, looked) = thread::join(
        rt,
        move || -> PublisherSeat
            requires { (publisher.word ≡ lent.now) × (publisher.published ≡ []) }
        { publish_all(lent, publisher) },
        move || -> Result<Vec<bool>, NoMemory>
            requires { IsSync R.row × All (IsNewReader lent.now) seats.items }
        { look_on_by_each(rt, lent, seats) },
    );
    looked
}

/// What each of the seats' threads sees.
fn look_on_by_each<R: Threads + Sync>(
    rt: &R,
    latest: &Latest,
    seats: Vec<ReaderSeat>,
) -> Result<Vec<bool>, NoMemory>
    requires { All (IsNewReader latest.now) seats.items }
{
    let looked = thread::map_vec(
        rt,
        seats,
        &|seat: ReaderSeat| -> bool
            requires { IsNewReader latest.now seat }
        { look_on(latest, seat) },
    )?;
    Ok(looked)
}

#[test]
fn rounds_never_go_back_in_four_threads(rt: HostRuntime) -> Result<(), Fail> {
    assert_eq!(&rt;
        looked_on_by_four(&rt, rt.alloc())?.as_slice(),
        [true; 4].as_slice()
    );
    Ok(())
}
