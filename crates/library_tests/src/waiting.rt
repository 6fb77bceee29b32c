use pending_reads::{PendingRead, PendingReads};
use std::process::Abort;
use std::test::*;
use txn::TxnId;

const ID_0_3: TxnId = TxnId {
    session: 0,
    number: 3,
};

const ID_0_4: TxnId = TxnId {
    session: 0,
    number: 4,
};

const ID_1_0: TxnId = TxnId {
    session: 1,
    number: 0,
};

const ID_1_1: TxnId = TxnId {
    session: 1,
    number: 1,
};

static READS: [PendingRead; 3] = [
    PendingRead {
        reader: ID_1_0,
        key: 5,
        writer: ID_0_3,
    },
    PendingRead {
        reader: ID_1_0,
        key: 6,
        writer: ID_0_4,
    },
    PendingRead {
        reader: ID_1_1,
        key: 5,
        writer: ID_0_3,
    },
];

fn assert_arrives(
    rt: &impl Abort,
    pending: &mut PendingReads,
    writer: TxnId,
    wanted: &[(TxnId, u64)],
) {
    let reads = pending.arrive(writer);
    assert_eq!(rt; reads.as_slice(), wanted);
}

#[test]
fn reads_wait_until_the_writer_arrives(rt: HostRuntime) -> Result<(), Fail> {
    let mut pending = PendingReads::new(rt.alloc());
    pending.add_all(&READS)?;
    let copy = pending.clone()?;
    assert_arrives(&rt, &mut pending, ID_0_3, &[(ID_1_0, 5), (ID_1_1, 5)]);
    assert_arrives(&rt, &mut pending, ID_0_3, &[]);
    assert!(rt; pending.any_in(&[ID_1_0]) && !pending.any_in(&[ID_1_1]));
    assert_arrives(&rt, &mut pending, ID_0_4, &[(ID_1_0, 6)]);
    assert!(rt; !pending.any() && copy.any());
    Ok(())
}

#[test]
fn a_read_waits_once_added(rt: HostRuntime) -> Result<(), Fail> {
    let mut pending = PendingReads::new(rt.alloc());
    pending.add(ID_1_0, 5, ID_0_3)?;
    assert!(rt; pending.any_in(&[ID_0_3, ID_1_0]));
    assert!(rt; !pending.any_in(&[ID_0_3, ID_1_1]));
    Ok(())
}
