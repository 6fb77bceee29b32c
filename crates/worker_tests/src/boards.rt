//! A board whose seats are in threads.
ghost use Rattle.shared_search.specs.Boards.{IsFresh};

use shared_search::{Board, Seat};
use std::alloc::Global;
use std::test::*;
use std::thread;
use std::thread::Threads;
use txn::NoMemory;

/// What one seat claims, until no cube is left.
fn claim_all(alloc: Global, board: &Board, seat: Seat) -> Result<Vec<u64>, NoMemory>
    requires { IsFresh board.now seat }
{
    let mut seat = seat;
    let mut claimed = Vec::new(alloc);
    for _turn in 0..101 {
        let Some(cube) = board.claim(&mut seat) else {
            break;
        };
        claimed.push(cube)?;
        thread::yield_now();
    }
    Ok(claimed)
}

/// What four seats claim, each in a thread, sorted.
fn claim_by_four<R: Threads + Sync>(rt: &R, alloc: Global) -> Result<Vec<u64>, NoMemory> {
    let (board, seats) = Board::new(alloc, 100, 4)?;
    let lent = &board;
    let parts = thread::map_vec(
        rt,
        seats,
        &|seat: Seat| -> Result<Vec<u64>, NoMemory>
            requires { IsFresh lent.now seat }
        { claim_all(alloc, lent, seat) },
    )?;
    let mut all = Vec::new(alloc);
    for part in parts {
        all.append(&mut part?)?;
    }
    all.sort()?;
    Ok(all)
}

#[test]
fn four_threads_claim_each_cube_once(rt: HostRuntime) -> Result<(), Fail> {
    let mut cubes = Vec::new(rt.alloc());
    for cube in 0..100u64 {
        cubes.push(cube)?;
    }
    assert_eq!(&rt;
        claim_by_four(&rt, rt.alloc())?.as_slice(),
        cubes.as_slice()
    );
    Ok(())
}
