use demo_store::{Fault, Request, Store};
use std::alloc::Global;
use std::process::Abort;
use std::test::*;
use txn::Source::{By, Init};
use txn::{NoMemory, Sequence, Source, TxnId};

const ID_0_0: TxnId = TxnId {
    session: 0,
    number: 0,
};

const ID_0_1: TxnId = TxnId {
    session: 0,
    number: 1,
};

/// A request's session, reads and writes.
type Asked = (u8, &'static [u64], &'static [u64]);

/// The requests of session 9 abort, so that no row needs to say it.
const ABORTING: u8 = 9;

const ID_9_0: TxnId = TxnId {
    session: ABORTING,
    number: 0,
};

const ID_9_1: TxnId = TxnId {
    session: ABORTING,
    number: 1,
};

/// What a store with this fault answers to the last of these requests, and what one without answers.
struct Row {
    fault: Fault,
    before: &'static [Asked],
    last: Asked,
    told: &'static [(u64, Source)],
    honest: &'static [(u64, Source)],
}

/// Where each fault applies, and what it lies about; and requests to which it doesn't apply, or hasn't yet.
static ROWS: [Row; 22] = [
    Row {
        fault: Fault::StaleRead,
        before: &[(0, &[], &[5]), (0, &[], &[5])],
        last: (1, &[5], &[]),
        told: &[(5, By(ID_0_0))],
        honest: &[(5, By(ID_0_1))],
    },
    Row {
        fault: Fault::StaleRead,
        before: &[(0, &[], &[0])],
        last: (1, &[0, 5], &[]),
        told: &[(0, By(ID_0_0)), (5, Init)],
        honest: &[(0, By(ID_0_0)), (5, Init)],
    },
    Row {
        fault: Fault::LostUpdate,
        before: &[(0, &[5], &[5])],
        last: (1, &[5], &[5]),
        told: &[(5, Init)],
        honest: &[(5, By(ID_0_0))],
    },
    Row {
        fault: Fault::LostUpdate,
        before: &[(0, &[], &[5])],
        last: (1, &[5], &[5]),
        told: &[(5, By(ID_0_0))],
        honest: &[(5, By(ID_0_0))],
    },
    Row {
        fault: Fault::SplitRead,
        before: &[(0, &[], &[5, 6])],
        last: (1, &[5, 6], &[]),
        told: &[(5, By(ID_0_0)), (6, Init)],
        honest: &[(5, By(ID_0_0)), (6, By(ID_0_0))],
    },
    Row {
        fault: Fault::SplitRead,
        before: &[(0, &[], &[6]), (0, &[], &[5, 6])],
        last: (1, &[5, 6], &[]),
        told: &[(5, By(ID_0_1)), (6, By(ID_0_1))],
        honest: &[(5, By(ID_0_1)), (6, By(ID_0_1))],
    },
    Row {
        fault: Fault::SessionBack,
        before: &[(0, &[], &[5])],
        last: (0, &[5], &[]),
        told: &[(5, Init)],
        honest: &[(5, By(ID_0_0))],
    },
    Row {
        fault: Fault::SessionBack,
        before: &[(0, &[], &[5]), (0, &[5], &[])],
        last: (0, &[5], &[]),
        told: &[(5, By(ID_0_0))],
        honest: &[(5, By(ID_0_0))],
    },
    Row {
        fault: Fault::StaleRead,
        before: &[(0, &[], &[5, 6]), (0, &[], &[5, 6])],
        last: (1, &[5, 6], &[]),
        told: &[(5, By(ID_0_0)), (6, By(ID_0_1))],
        honest: &[(5, By(ID_0_1)), (6, By(ID_0_1))],
    },
    Row {
        fault: Fault::StaleRead,
        before: &[(0, &[], &[5]), (0, &[], &[5]), (1, &[6], &[])],
        last: (1, &[5], &[]),
        told: &[(5, By(ID_0_0))],
        honest: &[(5, By(ID_0_1))],
    },
    Row {
        fault: Fault::LostUpdate,
        before: &[(0, &[5], &[5])],
        last: (1, &[5], &[6]),
        told: &[(5, By(ID_0_0))],
        honest: &[(5, By(ID_0_0))],
    },
    Row {
        fault: Fault::LostUpdate,
        before: &[(0, &[0], &[0]), (0, &[5], &[5])],
        last: (1, &[0, 5], &[0, 5]),
        told: &[(0, By(ID_0_0)), (5, Init)],
        honest: &[(0, By(ID_0_0)), (5, By(ID_0_1))],
    },
    Row {
        fault: Fault::SplitRead,
        before: &[(0, &[], &[0, 5])],
        last: (1, &[0, 5], &[]),
        told: &[(0, By(ID_0_0)), (5, By(ID_0_0))],
        honest: &[(0, By(ID_0_0)), (5, By(ID_0_0))],
    },
    Row {
        fault: Fault::SplitRead,
        before: &[(0, &[], &[5]), (0, &[], &[6])],
        last: (1, &[5, 6], &[]),
        told: &[(5, By(ID_0_0)), (6, By(ID_0_1))],
        honest: &[(5, By(ID_0_0)), (6, By(ID_0_1))],
    },
    Row {
        fault: Fault::SessionBack,
        before: &[(0, &[], &[5])],
        last: (1, &[5], &[]),
        told: &[(5, By(ID_0_0))],
        honest: &[(5, By(ID_0_0))],
    },
    Row {
        fault: Fault::SessionBack,
        before: &[(0, &[], &[0]), (0, &[], &[5, 6])],
        last: (0, &[0, 5, 6], &[]),
        told: &[(0, By(ID_0_0)), (5, Init), (6, By(ID_0_1))],
        honest: &[(0, By(ID_0_0)), (5, By(ID_0_1)), (6, By(ID_0_1))],
    },
    Row {
        fault: Fault::DirtyRead,
        before: &[(0, &[], &[5]), (9, &[], &[5, 6])],
        last: (1, &[5, 6], &[]),
        told: &[(5, By(ID_9_0)), (6, Init)],
        honest: &[(5, By(ID_0_0)), (6, Init)],
    },
    Row {
        fault: Fault::DirtyRead,
        before: &[(9, &[], &[5]), (9, &[5], &[5])],
        last: (1, &[5], &[]),
        told: &[(5, Init)],
        honest: &[(5, Init)],
    },
    Row {
        fault: Fault::DirtyRead,
        before: &[(9, &[], &[5]), (9, &[], &[5])],
        last: (1, &[5], &[]),
        told: &[(5, By(ID_9_1))],
        honest: &[(5, Init)],
    },
    Row {
        fault: Fault::DirtyRead,
        before: &[(9, &[0], &[0])],
        last: (1, &[0], &[0]),
        told: &[(0, Init)],
        honest: &[(0, Init)],
    },
    Row {
        fault: Fault::DirtyRead,
        before: &[(0, &[], &[5]), (9, &[5], &[])],
        last: (1, &[5], &[]),
        told: &[(5, By(ID_0_0))],
        honest: &[(5, By(ID_0_0))],
    },
    Row {
        fault: Fault::StaleRead,
        before: &[(0, &[], &[5]), (9, &[], &[5])],
        last: (1, &[5], &[]),
        told: &[(5, Init)],
        honest: &[(5, By(ID_0_0))],
    },
];

fn rows() -> &'static [Row] {
    &ROWS
}

fn request(alloc: Global, asked: Asked) -> Result<Request, NoMemory> {
    Ok(Request {
        session: asked.0,
        reads: Sequence::new(asked.1.to_vec(alloc)?),
        writes: Sequence::new(asked.2.to_vec(alloc)?),
        abort: asked.0 == ABORTING,
    })
}

fn reads_of(
    rt: &impl Abort,
    alloc: Global,
    store: &mut Store,
    asked: Asked,
) -> Result<Sequence<(u64, Source)>, NoMemory> {
    let request = request(alloc, asked)?;
    assert!(rt; request.session < 64);
    assert!(rt; store.executed(request.session) < 64);
    Ok(store.exec(alloc, request)?.reads)
}

/// What the store answers to the request. Where it is refused memory for that, it is asked once more.
fn reads_at_last(
    rt: &impl Abort,
    alloc: Global,
    store: &mut Store,
    asked: Asked,
) -> Result<Sequence<(u64, Source)>, NoMemory> {
    match reads_of(rt, alloc, store, asked) {
        Ok(reads) => Ok(reads),
        Err(_) => reads_of(rt, alloc, store, asked),
    }
}

/// The answers to the last request of the row.
fn last_reads(
    rt: &impl Abort,
    alloc: Global,
    fault: Fault,
    row: &Row,
) -> Result<Sequence<(u64, Source)>, NoMemory> {
    let mut store = Store::new(alloc, fault);
    for asked in row.before {
        reads_at_last(rt, alloc, &mut store, *asked)?;
    }
    reads_at_last(rt, alloc, &mut store, row.last)
}

/// `bench/check/refused_memory.py` also runs this and the next with each allocation refused in turn. A request that was refused memory is then executed
/// as ever, once it is asked again. The gate refuses none.
#[test]
fn a_fault_acts_once_where_it_applies(rt: HostRuntime) -> Result<(), Fail> {
    for row in rows() {
        let reads = last_reads(&rt, rt.alloc(), row.fault, row)?;
        assert_eq!(rt; reads.as_slice(), row.told);
    }
    Ok(())
}

#[test]
fn an_honest_store_answers_the_last_writer(rt: HostRuntime) -> Result<(), Fail> {
    for row in rows() {
        let reads = last_reads(&rt, rt.alloc(), Fault::None, row)?;
        assert_eq!(rt; reads.as_slice(), row.honest);
    }
    Ok(())
}
