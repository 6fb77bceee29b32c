//! Transactions that come before those that they read from, and late reads of the initial state, one by one: what is known then is what
//! is known of the whole.
use crate::arrivals::{add, saturated_of};
use clock_choices::Saturated;
use order_check::Parts;
use std::alloc::Global;
use std::process::Abort;
use std::test::Fail;
use test_histories::{Dice, beside_old_reads_by, over};
use txn::{NoMemory, TxnId};

const EACH: u64 = 683;

/// Eight of the second session, then those of the first that it read from, then eight of the third.
fn in_turns(alloc: Global) -> Result<Vec<TxnId>, NoMemory> {
    let mut ids = Vec::new(alloc);
    for first in (0..EACH).step_by(8) {
        for session in [1, 0, 2] {
            for number in first..first + 8 {
                ids.push(TxnId { session, number })?;
            }
        }
    }
    Ok(ids)
}

/// Adds the transaction that has the id in the whole.
pub fn give(
    rt: &impl Abort,
    alloc: Global,
    whole: &Parts,
    known: &mut Saturated,
    id: TxnId,
) -> Result<(), NoMemory> {
    match whole.remaining_at(id) {
        Some(txn) => add(rt, alloc, known, id, txn),
        None => Ok(()),
    }
}

/// The relation of the same parts, as their transactions come in turns.
fn turned(rt: &impl Abort, alloc: Global, whole: &Parts) -> Result<Saturated, NoMemory> {
    let mut none = over(alloc, whole.base.clone()?)?;
    none.limit = whole.limit;
    let mut known = saturated_of(rt, alloc, &none)?;
    for id in in_turns(alloc)?.as_slice() {
        give(rt, alloc, whole, &mut known, *id)?;
    }
    Ok(known)
}

fn is_same_row(one: &Saturated, other: &Saturated, ids: &[TxnId], earlier: TxnId) -> bool {
    ids.iter().all(|later| one.reaches(earlier, *later) == other.reaches(earlier, *later))
}

#[test]
fn who_comes_before_what_it_reads_from_is_known_as_well(rt: HostRuntime) -> Result<(), Fail> {
    let alloc = rt.alloc();
    let whole = beside_old_reads_by(alloc, &mut Dice::of(7), EACH)?;
    let made = saturated_of(&rt, alloc, &whole)?;
    let turned = turned(&rt, alloc, &whole)?;
    let ids = made.ids(alloc)?;
    assert!(rt; ids.len() == 2049 && !turned.log().is_empty());
    for earlier in ids.as_slice() {
        assert!(rt; is_same_row(&made, &turned, ids.as_slice(), *earlier));
    }
    assert!(rt; made.open_choices(alloc)?.as_slice() == turned.open_choices(alloc)?.as_slice());
    Ok(())
}
