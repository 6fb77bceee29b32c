//! Which times are possible, the keys of ends, and which histories have room for these.
use std::alloc::Global;
use std::test::Fail;
use strict_histories::{Span, TimedTxn, end_key, first_wrong_time, has_room_for_times};
use txn::{NoMemory, Sequence, Txn, TxnId};

/// When each of a session's transactions began and ended, and which is the first with an impossible time.
type Row = (&'static [(Option<u64>, Option<u64>)], Option<u64>);

static ROWS: [Row; 7] = [
    (&[], None),
    (
        &[(Some(1), Some(2)), (Some(2), Some(3)), (Some(3), Some(3))],
        None,
    ),
    // at the same time, which a client that doesn't wait may do
    (&[(Some(1), Some(4)), (Some(2), Some(3))], None),
    (&[(Some(1), Some(2)), (Some(4), Some(3))], Some(1)),
    // before an earlier one that isn't the one before
    (
        &[(Some(5), Some(6)), (None, None), (Some(1), Some(4))],
        Some(2),
    ),
    (
        &[(Some(5), Some(6)), (None, Some(5)), (Some(1), None)],
        None,
    ),
    (&[(Some(2), Some(1)), (Some(2), Some(1))], Some(0)),
];

fn rows() -> &'static [Row] {
    &ROWS
}

fn session_of(
    alloc: Global,
    times: &[(Option<u64>, Option<u64>)],
    key: u64,
) -> Result<Vec<TimedTxn>, NoMemory> {
    let mut all = Vec::new(alloc);
    for (began, ended) in times {
        let txn = Txn {
            reads: Sequence::new(Vec::new(alloc)),
            writes: Sequence::new([key].to_vec(alloc)?),
        };
        all.push(TimedTxn {
            txn,
            span: Span {
                began: *began,
                ended: *ended,
            },
        })?;
    }
    Ok(all)
}

#[test]
fn the_first_wrong_time_is_found(rt: HostRuntime) -> Result<(), Fail> {
    for (times, first) in rows() {
        let txns = session_of(rt.alloc(), *times, 5)?;
        assert_eq!(rt; first_wrong_time(txns.as_slice()), *first);
    }
    Ok(())
}

#[test]
fn keys_of_ends_are_beyond_those_of_histories(rt: HostRuntime) -> Result<(), Fail> {
    for (session, number, key) in [
        (0, 0, 4_611_686_018_427_387_904),
        (1, 1, 4_611_967_493_404_098_561),
    ] {
        assert_eq!(rt; end_key(TxnId { session, number }), key);
    }
    for (key, has_room) in [
        (4_611_686_018_427_387_903, true),
        (4_611_686_018_427_387_904, false),
    ] {
        let txns = session_of(rt.alloc(), &[(None, None)], key)?;
        let mut timed = Vec::new(rt.alloc());
        timed.push(Sequence::new(txns))?;
        assert_eq!(rt; has_room_for_times(timed.as_slice()), has_room);
    }
    Ok(())
}
