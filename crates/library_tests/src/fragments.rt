use std::alloc::Global;
use std::process::Abort;
use std::test::*;
use txn::Source::{By, Init};
use txn::{Fragment, NoMemory, Refusal, Sequence, Source, Txn, TxnId, check_fragment};

const ID_2_0: TxnId = TxnId {
    session: 2,
    number: 0,
};

const ID_2_1: TxnId = TxnId {
    session: 2,
    number: 1,
};

const ID_64_0: TxnId = TxnId {
    session: 64,
    number: 0,
};

const ITSELF: TxnId = TxnId {
    session: 1,
    number: 7,
};

const LAST: TxnId = TxnId {
    session: 63,
    number: (1 << 48) - 1,
};

const PAST_NUMBERS: TxnId = TxnId {
    session: 2,
    number: 1 << 48,
};

/// What is found in the transaction 1.7 with these reads and writes.
struct Lists {
    name: &'static str,
    reads: &'static [(u64, Source)],
    writes: &'static [u64],
    found: Result<(), Refusal>,
}

static LISTS: [Lists; 16] = [
    Lists {
        name: "reads fall",
        reads: &[(3, Init), (2, Init)],
        writes: &[],
        found: Err(Refusal::BadTxn),
    },
    Lists {
        name: "a read twice",
        reads: &[(3, By(ID_2_0)), (3, By(ID_2_0))],
        writes: &[],
        found: Err(Refusal::BadTxn),
    },
    Lists {
        name: "a key's sources fall",
        reads: &[(3, By(ID_2_0)), (3, Init)],
        writes: &[],
        found: Err(Refusal::BadTxn),
    },
    Lists {
        name: "writes fall",
        reads: &[],
        writes: &[3, 2],
        found: Err(Refusal::BadTxn),
    },
    Lists {
        name: "a write twice",
        reads: &[],
        writes: &[3, 3],
        found: Err(Refusal::BadTxn),
    },
    Lists {
        name: "it reads from itself",
        reads: &[(3, By(ITSELF))],
        writes: &[],
        found: Err(Refusal::BadTxn),
    },
    Lists {
        name: "a source of session 64",
        reads: &[(3, By(ID_64_0))],
        writes: &[],
        found: Err(Refusal::BadTxn),
    },
    Lists {
        name: "a source numbered 2^48",
        reads: &[(3, By(PAST_NUMBERS))],
        writes: &[],
        found: Err(Refusal::BadTxn),
    },
    Lists {
        name: "it reads key 0",
        reads: &[(0, Init)],
        writes: &[],
        found: Err(Refusal::BadFence),
    },
    Lists {
        name: "it writes key 0",
        reads: &[],
        writes: &[0],
        found: Err(Refusal::BadFence),
    },
    Lists {
        name: "a fence that writes more",
        reads: &[(0, Init)],
        writes: &[0, 3],
        found: Err(Refusal::BadFence),
    },
    Lists {
        name: "lists, then key 0",
        reads: &[],
        writes: &[2, 0],
        found: Err(Refusal::BadTxn),
    },
    Lists {
        name: "nothing",
        reads: &[],
        writes: &[],
        found: Ok(()),
    },
    Lists {
        name: "a fence",
        reads: &[(0, By(ID_2_0))],
        writes: &[0],
        found: Ok(()),
    },
    Lists {
        name: "a key's sources rise",
        reads: &[(3, Init), (3, By(ID_2_0)), (3, By(ID_2_1))],
        writes: &[],
        found: Ok(()),
    },
    Lists {
        name: "the last source",
        reads: &[(3, By(LAST))],
        writes: &[3],
        found: Ok(()),
    },
];

/// What is found in a fragment of so many transactions, each with the writes 1, 2 and on.
struct Size {
    name: &'static str,
    session: u8,
    first: u64,
    txns: usize,
    writes: u64,
    found: Result<(), Refusal>,
}

static SIZES: [Size; 11] = [
    Size {
        name: "session 64",
        session: 64,
        first: 0,
        txns: 1,
        writes: 0,
        found: Err(Refusal::BadSession),
    },
    Size {
        name: "no transaction",
        session: 1,
        first: 7,
        txns: 0,
        writes: 0,
        found: Err(Refusal::TooLong),
    },
    Size {
        name: "session, then lengths",
        session: 64,
        first: 0,
        txns: 0,
        writes: 0,
        found: Err(Refusal::BadSession),
    },
    Size {
        name: "257 transactions",
        session: 1,
        first: 7,
        txns: 257,
        writes: 0,
        found: Err(Refusal::TooLong),
    },
    Size {
        name: "256 transactions",
        session: 1,
        first: 7,
        txns: 256,
        writes: 0,
        found: Ok(()),
    },
    Size {
        name: "number 2^48",
        session: 1,
        first: (1 << 48) - 1,
        txns: 2,
        writes: 0,
        found: Err(Refusal::TooLong),
    },
    Size {
        name: "the last number",
        session: 63,
        first: (1 << 48) - 1,
        txns: 1,
        writes: 0,
        found: Ok(()),
    },
    Size {
        name: "numbers past 64 bits",
        session: 1,
        first: u64::MAX,
        txns: 1,
        writes: 0,
        found: Err(Refusal::TooLong),
    },
    Size {
        name: "257 writes",
        session: 1,
        first: 7,
        txns: 1,
        writes: 257,
        found: Err(Refusal::TooLong),
    },
    Size {
        name: "256 writes",
        session: 1,
        first: 7,
        txns: 1,
        writes: 256,
        found: Ok(()),
    },
    Size {
        name: "lengths, then lists",
        session: 1,
        first: 7,
        txns: 257,
        writes: 2,
        found: Err(Refusal::TooLong),
    },
];

/// How many sessions there may be, a session, and what is found in a fragment of it, and in one that reads from it.
type Bound = (u64, u8, Result<(), Refusal>, Result<(), Refusal>);

static BOUNDS: [Bound; 8] = [
    (64, 63, Ok(()), Ok(())),
    (64, 64, Err(Refusal::BadSession), Err(Refusal::BadTxn)),
    (64, 255, Err(Refusal::BadSession), Err(Refusal::BadTxn)),
    (65, 64, Ok(()), Ok(())),
    (255, 254, Ok(()), Ok(())),
    (255, 255, Err(Refusal::BadSession), Err(Refusal::BadTxn)),
    (256, 64, Ok(()), Ok(())),
    (256, 255, Ok(()), Ok(())),
];

static TEXTS: [(Refusal, &str); 4] = [
    (
        Refusal::BadLine,
        "the line is not a command that may stand here",
    ),
    (
        Refusal::Gap,
        "the fragment starts above what was received of its session",
    ),
    (Refusal::NoMemory, "out of memory"),
    (Refusal::Device, "the reader or the writer failed"),
];

fn list_rows() -> &'static [Lists] {
    &LISTS
}

fn size_rows() -> &'static [Size] {
    &SIZES
}

fn bounds() -> &'static [Bound] {
    &BOUNDS
}

fn texts() -> &'static [(Refusal, &'static str)] {
    &TEXTS
}

fn lone(alloc: Global, row: &Lists) -> Result<Fragment, NoMemory> {
    let reads = Sequence::new(row.reads.to_vec(alloc)?);
    let writes = Sequence::new(row.writes.to_vec(alloc)?);
    Ok(Fragment {
        session: 1,
        first: 7,
        txns: Sequence::new(vec![in alloc; Txn { reads, writes }]?),
    })
}

fn writer(alloc: Global, writes: u64) -> Result<Txn, NoMemory> {
    Ok(Txn {
        reads: Sequence::new(Vec::new(alloc)),
        writes: Sequence::new((0..writes).map(|key| key + 1).collect(alloc)?),
    })
}

fn writers(alloc: Global, row: &Size) -> Result<Sequence<Txn>, NoMemory> {
    let mut txns = Sequence::new(Vec::new(alloc));
    for _ in 0..row.txns {
        txns.push(writer(alloc, row.writes)?)?;
    }
    Ok(txns)
}

fn assert_found(rt: &impl Abort, fragment: &Fragment, wanted: Result<(), Refusal>, row: &str) {
    assert_eq!(rt; check_fragment(64, fragment), wanted, "{row}");
}

#[test]
fn good_and_faulty_lists(rt: HostRuntime) -> Result<(), Fail> {
    for row in list_rows() {
        assert_found(&rt, &lone(rt.alloc(), row)?, row.found, row.name);
    }
    Ok(())
}

#[test]
fn good_and_faulty_sizes(rt: HostRuntime) -> Result<(), Fail> {
    for row in size_rows() {
        let fragment = Fragment {
            session: row.session,
            first: row.first,
            txns: writers(rt.alloc(), row)?,
        };
        assert_found(&rt, &fragment, row.found, row.name);
    }
    Ok(())
}

/// The transaction 0 of this session, which reads key 3 from 5 of that one.
fn reader(alloc: Global, session: u8, of: u8) -> Result<Fragment, NoMemory> {
    let source = By(TxnId {
        session: of,
        number: 5,
    });
    let txn = Txn {
        reads: Sequence::new(vec![in alloc; (3, source)]?),
        writes: Sequence::new(Vec::new(alloc)),
    };
    Ok(Fragment {
        session,
        first: 0,
        txns: Sequence::new(vec![in alloc; txn]?),
    })
}

#[test]
fn sessions_below_the_bound(rt: HostRuntime) -> Result<(), Fail> {
    for (sessions, session, own, other) in bounds() {
        let of_it = reader(rt.alloc(), *session, 0)?;
        assert_eq!(rt;
            check_fragment(*sessions, &of_it),
            *own,
            "{session} of {sessions}"
        );
        let from_it = reader(rt.alloc(), 0, *session)?;
        assert_eq!(rt;
            check_fragment(*sessions, &from_it),
            *other,
            "{session} of {sessions}"
        );
    }
    Ok(())
}

fn text(alloc: Global, refusal: Refusal) -> Result<String, Fail> {
    Ok(format!(in alloc; "{refusal}")?)
}

#[test]
fn sentences_of_refusals(rt: HostRuntime) -> Result<(), Fail> {
    for (refusal, sentence) in texts() {
        assert_eq!(rt; text(rt.alloc(), *refusal)?.as_str(), *sentence);
    }
    Ok(())
}
