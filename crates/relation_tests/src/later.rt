//! A cut behind whose fence a transaction has come since it was found, by which a cycle leads through what goes: the cut takes that out of the relation.
ghost use Rattle.std.specs.Prelude.{◌≡◌, Some, OnOk};
ghost use Rattle.order_check.specs.Cuts.{IsKeptFront};
ghost use Rattle.order_check.specs.StandsFor.{IsOpenSession};
ghost use Rattle.settle.specs.Found.{IsFound};

use crate::arrivals::{add, saturated_of};
use crate::cuts::cut_past;
use crate::relations::cut_behind;
use clock_choices::Saturated;
use order_check::{Parts, fragment_keeps_front, front_of_itself};
use polygraph::Problem;
use settle::Cut;
use std::alloc::Global;
use std::process::Abort;
use std::test::Fail;
use test_histories::{EMPTY, ID_0_0, ID_0_1, ID_0_2, ID_1_0, ID_1_1, Lists, Table};
use txn::Source::{By, Init};
use txn::{NoMemory, Txn, TxnId};

/// Key 5 is written twice in front of the fence 0.2.
const SESSION_0: &[Lists] = &[
    (&[], &[5]),
    (&[(5, By(ID_0_0))], &[5]),
    (&[(0, Init)], &[0]),
];

const FRONT: Table = Table {
    remain: &[SESSION_0, &[(&[(0, By(ID_0_2))], &[0])]],
    ..EMPTY
};

/// 1.1 reads what was overwritten in front of the fence.
const ALL: Table = Table {
    remain: &[
        SESSION_0,
        &[(&[(0, By(ID_0_2))], &[0]), (&[(5, By(ID_0_0))], &[])],
    ],
    ..EMPTY
};

static ORDER: [TxnId; 4] = [ID_0_0, ID_0_1, ID_0_2, ID_1_0];

fn order() -> &'static [TxnId] {
    &ORDER
}

/// Stops unless there are two sessions, of which the second is open.
fn is_open(rt: &impl Abort, front: &Parts)
    ensures { IsOpenSession front.now 1 }
{
    assert!(rt; front.sessions() == 2);
    assert!(rt; !front.is_closed(1));
}

/// Adds 1.1 to what is known of the front.
fn add_late(
    rt: &impl Abort,
    alloc: Global,
    front: &Parts,
    known: &mut Saturated,
    late: &Txn,
) -> Result<(), NoMemory>
    requires { known.old.parts ≡ front.now }
    ensures { OnOk result (IsKeptFront front.now known.new.parts) }
{
    front_of_itself();
    fragment_keeps_front();
    is_open(rt, front);
    let id = TxnId {
        session: 1,
        number: 1,
    };
    add(rt, alloc, known, id, late)
}

/// Goes on with what the cut of the front leaves.
fn cut_late(alloc: Global, front: &Parts, known: &mut Saturated, cut: &Cut) -> Result<(), NoMemory>
    requires kept { IsKeptFront front.now known.old.parts }
    requires found { IsFound front.now (Some cut.now) }
{
    let left = cut_past(alloc, front, known.parts(), cut)?;
    known.cut(alloc, cut.gone.as_slice(), &left)
}

/// Whether something is known to come before itself.
fn has_cycle(alloc: Global, known: &Saturated) -> Result<bool, NoMemory> {
    let ids = known.ids(alloc)?;
    Ok(ids.as_slice().iter().any(|id| known.reaches(*id, *id)))
}

/// Stops unless 1.1 is on a cycle until the cut is made, and nothing is on one then.
fn is_cut_out(
    rt: &impl Abort,
    alloc: Global,
    front: &Parts,
    known: &mut Saturated,
    cut: &Cut,
    late: &Txn,
) -> Result<(), NoMemory>
    requires known { known.old.parts ≡ front.now }
    requires found { IsFound front.now (Some cut.now) }
{
    add_late(rt, alloc, front, known, late)?;
    assert!(rt; known.reaches(ID_1_1, ID_1_1));
    cut_late(alloc, front, known, cut)?;
    assert!(rt; known.ids(alloc)?.as_slice() == [ID_1_0, ID_1_1].as_slice());
    assert!(rt; known.reaches(ID_1_0, ID_1_1));
    assert!(rt; !has_cycle(alloc, known)?);
    Ok(())
}

fn ends_without_a_cycle(
    rt: &impl Abort,
    alloc: Global,
    front: &Parts,
    late: &Txn,
) -> Result<(), NoMemory> {
    let mut known = saturated_of(rt, alloc, front)?;
    let problem = Problem::of(alloc, &known)?;
    match cut_behind(rt, alloc, &problem, order())? {
        Some(cut) => is_cut_out(rt, alloc, front, &mut known, &cut, late),
        None => panic!(rt; "there is no cut"),
    }
}

#[test]
fn a_cut_takes_a_later_cycle_out(rt: HostRuntime) -> Result<(), Fail> {
    let alloc = rt.alloc();
    let front = FRONT.parts(alloc)?;
    let all = ALL.parts(alloc)?;
    match all.remaining_at(ID_1_1) {
        Some(late) => ends_without_a_cycle(&rt, alloc, &front, late)?,
        None => panic!(rt; "1.1 is missing"),
    }
    Ok(())
}
