//! The known relation of four transactions, in each order in which they may arrive.
use crate::arrivals::saturated_of;
use crate::turned::give;
use clock_choices::Saturated;
use order_check::Parts;
use std::alloc::Global;
use std::process::Abort;
use std::test::Fail;
use test_histories::{EMPTY, ID_0_0, ID_0_1, ID_1_0, ID_2_0, Table, over};
use txn::Source::By;
use txn::{Choice, NoMemory, TxnId};

const FOUR: Table = Table {
    marks: &[0; 3],
    remain: &[
        &[(&[], &[5]), (&[(5, By(ID_1_0))], &[])],
        &[(&[], &[5])],
        &[(&[(5, By(ID_0_0))], &[])],
    ],
    closed: &[false; 3],
    ..EMPTY
};

/// Each order that has the first session's own order.
static ORDERS: [[TxnId; 4]; 12] = [
    [ID_0_0, ID_0_1, ID_1_0, ID_2_0],
    [ID_0_0, ID_0_1, ID_2_0, ID_1_0],
    [ID_0_0, ID_1_0, ID_0_1, ID_2_0],
    [ID_0_0, ID_1_0, ID_2_0, ID_0_1],
    [ID_0_0, ID_2_0, ID_0_1, ID_1_0],
    [ID_0_0, ID_2_0, ID_1_0, ID_0_1],
    [ID_1_0, ID_0_0, ID_0_1, ID_2_0],
    [ID_1_0, ID_0_0, ID_2_0, ID_0_1],
    [ID_1_0, ID_2_0, ID_0_0, ID_0_1],
    [ID_2_0, ID_0_0, ID_0_1, ID_1_0],
    [ID_2_0, ID_0_0, ID_1_0, ID_0_1],
    [ID_2_0, ID_1_0, ID_0_0, ID_0_1],
];

/// Who comes before whom in the end.
static CHAIN: [TxnId; 4] = [ID_0_0, ID_2_0, ID_1_0, ID_0_1];

/// What is open where the last of the chain is missing.
const OPEN: Choice = Choice {
    reader: ID_2_0,
    key: 5,
    writer: ID_0_0,
    other: ID_1_0,
};

fn orders() -> &'static [[TxnId; 4]] {
    &ORDERS
}

fn chain() -> &'static [TxnId] {
    &CHAIN
}

/// Stops unless the ids are known to come in this order, and nothing else is known.
fn is_chain(rt: &impl Abort, known: &Saturated, ids: &[TxnId]) {
    for (place, first) in ids.iter().enumerate() {
        for (other, second) in ids.iter().enumerate() {
            let reaches = known.reaches(*first, *second);
            assert!(rt; reaches == (place < other));
        }
    }
}

/// Stops unless these choices are open.
fn leaves_open(
    rt: &impl Abort,
    alloc: Global,
    known: &Saturated,
    choices: &[Choice],
) -> Result<(), NoMemory> {
    let open = known.open_choices(alloc)?;
    assert!(rt; open.as_slice() == choices);
    Ok(())
}

/// Adds the transaction. Before the last of the chain comes as the last of all, one choice is open.
fn arrives(
    rt: &impl Abort,
    alloc: Global,
    whole: &Parts,
    known: &mut Saturated,
    id: TxnId,
) -> Result<(), NoMemory> {
    if known.parts().remaining_count() == 3 && id == ID_0_1 {
        leaves_open(rt, alloc, known, &[OPEN])?;
    }
    give(rt, alloc, whole, known, id)
}

fn arrived(
    rt: &impl Abort,
    alloc: Global,
    whole: &Parts,
    order: &[TxnId],
) -> Result<Saturated, NoMemory> {
    let mut known = saturated_of(rt, alloc, &over(alloc, whole.base.clone()?)?)?;
    for id in order {
        arrives(rt, alloc, whole, &mut known, *id)?;
    }
    Ok(known)
}

#[test]
fn four_transactions_are_a_chain_however_they_arrive(rt: HostRuntime) -> Result<(), Fail> {
    let alloc = rt.alloc();
    let whole = FOUR.parts(alloc)?;
    for order in orders() {
        let known = arrived(&rt, alloc, &whole, order)?;
        is_chain(&rt, &known, chain());
        leaves_open(&rt, alloc, &known, &[])?;
    }
    Ok(())
}
