//! Which fragments can be offered where transactions are split, and what they are split into.
use isolation_histories::{check_offered, has_room_to_split, split_logged};
use logged_fragments::LoggedFragment;
use std::alloc::Global;
use std::test::Fail;
use txn::Source::{By, Init};
use txn::{Fragment, NoMemory, Refusal, Sequence, Source, Txn, TxnId};

/// What a transaction reads and writes.
type Lists = (&'static [(u64, Source)], &'static [u64]);

struct Row {
    session: u8,
    first: u64,
    txns: &'static [Lists],
    fault: Option<Refusal>,
}

const IDLE: Lists = (&[], &[]);

/// It touches the epoch key, and is no fence.
const NO_FENCE: Lists = (&[], &[0]);

const KEYS: u64 = 1 << 63;

const NUMBERS: u64 = 1 << 47;

const LAST: TxnId = TxnId {
    session: 63,
    number: NUMBERS - 1,
};

const TOO_HIGH: TxnId = TxnId {
    session: 0,
    number: NUMBERS,
};

const ITSELF: TxnId = TxnId {
    session: 0,
    number: 1,
};

static ROWS: [Row; 13] = [
    Row {
        session: 64,
        first: 0,
        txns: &[],
        fault: Some(Refusal::BadSession),
    },
    Row {
        session: 0,
        first: 0,
        txns: &[],
        fault: Some(Refusal::TooLong),
    },
    Row {
        session: 63,
        first: NUMBERS - 1,
        txns: &[IDLE],
        fault: None,
    },
    Row {
        session: 0,
        first: NUMBERS - 1,
        txns: &[IDLE, NO_FENCE],
        fault: Some(Refusal::TooLong),
    },
    Row {
        session: 0,
        first: 0,
        txns: &[(&[(KEYS - 1, By(LAST))], &[KEYS - 1])],
        fault: None,
    },
    Row {
        session: 0,
        first: 0,
        txns: &[(&[(KEYS, Init)], &[])],
        fault: Some(Refusal::BadTxn),
    },
    Row {
        session: 0,
        first: 0,
        txns: &[(&[], &[5, KEYS])],
        fault: Some(Refusal::BadTxn),
    },
    Row {
        session: 0,
        first: 0,
        txns: &[(&[(5, By(TOO_HIGH))], &[])],
        fault: Some(Refusal::BadTxn),
    },
    Row {
        session: 0,
        first: 0,
        txns: &[IDLE, (&[(5, By(ITSELF))], &[])],
        fault: Some(Refusal::BadTxn),
    },
    Row {
        session: 0,
        first: 0,
        txns: &[NO_FENCE],
        fault: Some(Refusal::BadFence),
    },
    // the first transaction decides
    Row {
        session: 0,
        first: 0,
        txns: &[NO_FENCE, (&[], &[KEYS])],
        fault: Some(Refusal::BadFence),
    },
    Row {
        session: 0,
        first: 0,
        txns: &[(&[], &[KEYS]), NO_FENCE],
        fault: Some(Refusal::BadTxn),
    },
    // and of one transaction its keys
    Row {
        session: 0,
        first: 0,
        txns: &[(&[], &[0, KEYS])],
        fault: Some(Refusal::BadTxn),
    },
];

fn rows() -> &'static [Row] {
    &ROWS
}

fn txn_of(alloc: Global, lists: Lists) -> Result<Txn, NoMemory> {
    Ok(Txn {
        reads: Sequence::new(lists.0.to_vec(alloc)?),
        writes: Sequence::new(lists.1.to_vec(alloc)?),
    })
}

fn fragment_of(
    alloc: Global,
    session: u8,
    first: u64,
    txns: &[Lists],
) -> Result<Fragment, NoMemory> {
    let mut all = Vec::new(alloc);
    for lists in txns {
        all.push(txn_of(alloc, *lists)?)?;
    }
    Ok(Fragment {
        session,
        first,
        txns: Sequence::new(all),
    })
}

/// The fault that is told of a row's fragment, or that none is.
fn fault_of(alloc: Global, row: &Row) -> Result<Option<Refusal>, NoMemory> {
    let fragment = fragment_of(alloc, row.session, row.first, row.txns)?;
    Ok(check_offered(64, &fragment).err())
}

#[test]
fn faults_are_told_so(rt: HostRuntime) -> Result<(), Fail> {
    for (place, row) in rows().iter().enumerate() {
        assert!(rt; fault_of(rt.alloc(), row)? == row.fault, "at {place}");
    }
    Ok(())
}

/// How many sessions there may be, a session, and the fault of a fragment of it, and of one that reads from it.
type Bound = (u64, u8, Option<Refusal>, Option<Refusal>);

static BOUNDS: [Bound; 6] = [
    (64, 63, None, None),
    (64, 64, Some(Refusal::BadSession), Some(Refusal::BadTxn)),
    (255, 254, None, None),
    (255, 255, Some(Refusal::BadSession), Some(Refusal::BadTxn)),
    (256, 64, None, None),
    (256, 255, None, None),
];

fn bounds() -> &'static [Bound] {
    &BOUNDS
}

/// The transaction 0 of this session, which reads key 5 from 7 of that one.
fn reader(alloc: Global, session: u8, of: u8) -> Result<Fragment, NoMemory> {
    let source = By(TxnId {
        session: of,
        number: 7,
    });
    let txn = Txn {
        reads: Sequence::new(vec![in alloc; (5, source)]?),
        writes: Sequence::new(Vec::new(alloc)),
    };
    Ok(Fragment {
        session,
        first: 0,
        txns: Sequence::new(vec![in alloc; txn]?),
    })
}

#[test]
fn sessions_below_the_bound(rt: HostRuntime) -> Result<(), Fail> {
    let alloc = rt.alloc();
    for (sessions, session, own, other) in bounds() {
        let of_it = check_offered(*sessions, &reader(alloc, *session, 0)?);
        assert!(rt; of_it.err() == *own, "{session} of {sessions}");
        let from_it = check_offered(*sessions, &reader(alloc, 0, *session)?);
        assert!(rt; from_it.err() == *other, "{session} of {sessions}");
    }
    Ok(())
}

/// So many idle transactions.
fn idle_fragment(alloc: Global, count: usize) -> Result<Fragment, NoMemory> {
    let mut all = Vec::new(alloc);
    for place in 0..count {
        all.push(txn_of(alloc, IDLE)?)?;
    }
    Ok(Fragment {
        session: 0,
        first: 0,
        txns: Sequence::new(all),
    })
}

#[test]
fn as_many_as_can_be_split(rt: HostRuntime) -> Result<(), Fail> {
    let alloc = rt.alloc();
    assert!(rt; check_offered(64, &idle_fragment(alloc, 128)?).is_ok());
    assert!(rt; check_offered(64, &idle_fragment(alloc, 129)?).err() == Some(Refusal::TooLong));
    Ok(())
}

/// The first aborted, and the second read and wrote key 5: their halves, as what they did.
fn halves(alloc: Global) -> Result<Option<Fragment>, NoMemory> {
    let txns: [Lists; 2] = [(&[(5, Init)], &[5]), (&[(5, Init)], &[5])];
    let fragment = fragment_of(alloc, 1, 3, txns.as_slice())?;
    let mut aborted = Sequence::new(Vec::new(alloc));
    aborted.push(true)?;
    aborted.push(false)?;
    if check_offered(64, &fragment).is_err() || !has_room_to_split(&fragment) {
        return Ok(None);
    }
    let logged = LoggedFragment { fragment, aborted };
    Ok(Some(split_logged(alloc, &logged)?.into_effects()))
}

#[test]
fn both_halves_of_what_aborted_did_nothing(rt: HostRuntime) -> Result<(), Fail> {
    let Some(fragment) = halves(rt.alloc())? else {
        return Err(Fail::from("it can't be offered"));
    };
    let begin = By(TxnId {
        session: 1,
        number: 8,
    });
    let txns = fragment.txns.as_slice();
    assert!(rt; fragment.session == 1 && fragment.first == 6 && txns.len() == 4);
    assert!(rt; txns[0].reads.is_empty() && txns[0].writes.is_empty());
    assert!(rt; txns[1].reads.is_empty() && txns[1].writes.is_empty());
    assert!(rt; txns[2].reads.as_slice() == [(5, Init)].as_slice());
    assert!(rt; txns[2].writes.as_slice() == [KEYS + 5].as_slice());
    assert!(rt; txns[3].reads.as_slice() == [(KEYS + 5, begin)].as_slice());
    assert!(rt; txns[3].writes.as_slice() == [5].as_slice());
    Ok(())
}
