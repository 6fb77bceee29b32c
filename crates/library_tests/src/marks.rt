use session_marks::Marks;
use std::alloc::Global;
use std::process::Abort;
use std::test::*;
use txn::{Fragment, NoMemory, Refusal, Sequence, Txn, check_fragment};

/// What a fragment that begins here meets where session 0 has two transactions and session 1 is closed.
static ROWS: [(u8, u64, Result<(), Refusal>); 6] = [
    (2, 0, Err(Refusal::BadSession)),
    (1, 0, Err(Refusal::Closed)),
    (1, 1, Err(Refusal::Closed)),
    (0, 3, Err(Refusal::Gap)),
    (0, 1, Err(Refusal::Repeat)),
    (0, 2, Ok(())),
];

fn rows() -> &'static [(u8, u64, Result<(), Refusal>)] {
    &ROWS
}

fn idle(alloc: Global) -> Txn {
    Txn {
        reads: Sequence::new(Vec::new(alloc)),
        writes: Sequence::new(Vec::new(alloc)),
    }
}

/// Three transactions, so that one that starts below what was received reaches past it.
fn fragment(alloc: Global, session: u8, first: u64) -> Result<Fragment, NoMemory> {
    let txns = vec![in alloc; idle(alloc), idle(alloc), idle(alloc)]?;
    Ok(Fragment {
        session,
        first,
        txns: Sequence::new(txns),
    })
}

fn assert_admits(rt: &impl Abort, marks: &Marks, fragment: &Fragment, wanted: Result<(), Refusal>) {
    let checked = check_fragment(256, fragment);
    assert!(rt; checked.is_ok());
    let (session, first) = (fragment.session, fragment.first);
    assert_eq!(rt; marks.admit(fragment), wanted, "{session}.{first}");
}

#[test]
fn admits_what_is_next(rt: HostRuntime) -> Result<(), Fail> {
    let mut marks = Marks::new(rt.alloc(), 2)?;
    marks.receive(0, 2);
    marks.close(1)?;
    for (session, first, wanted) in rows() {
        let fragment = fragment(rt.alloc(), *session, *first)?;
        assert_admits(&rt, &marks, &fragment, *wanted);
    }
    Ok(())
}

#[test]
fn the_last_of_256_sessions(rt: HostRuntime) -> Result<(), Fail> {
    let mut marks = Marks::new(rt.alloc(), 256)?;
    let first = fragment(rt.alloc(), 255, 0)?;
    assert_admits(&rt, &marks, &first, Ok(()));
    let later = fragment(rt.alloc(), 255, 1)?;
    assert_admits(&rt, &marks, &later, Err(Refusal::Gap));
    marks.close(255)?;
    assert_admits(&rt, &marks, &first, Err(Refusal::Closed));
    assert_eq!(rt; marks.received_counts(rt.alloc())?.len(), 256);
    Ok(())
}

#[test]
fn counts_of_a_copy(rt: HostRuntime) -> Result<(), Fail> {
    let mut marks = Marks::new(rt.alloc(), 2)?;
    marks.receive(1, 3);
    let copy = marks.clone()?;
    marks.receive(1, 1);
    let counts = copy.received_counts(rt.alloc())?;
    assert_eq!(rt; counts.as_slice(), [0, 3].as_slice());
    Ok(())
}
