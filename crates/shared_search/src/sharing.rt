ghost use Rattle.std.specs.Prelude.{◌≡◌, ◌<◌, ◌≤◌, ◌^◌, length, min, All, IfOk, vec_len};
ghost use Rattle.shared_search.specs.Boards.{IsFresh};
ghost use Rattle.shared_search.specs.Gathered.{Gathered, IsBrought};
ghost use Rattle.shared_search.specs.Picks.{Picked};

use crate::gates::Gate;
use crate::picking::{Pick, fill, joined, walk};
use crate::seats::{Board, Seat};
use crate::workers::{CubeSolver, Part, gather, spread};
use polygraph::Answer;
use std::alloc::Global;
use std::thread::Threads;
use txn::NoMemory;

/// Has the seats worked at, and joins what they brought.
fn bring<R: Threads + Sync, S: CubeSolver + Sync, G: Gate + Sync>(
    rt: &R,
    alloc: Global,
    solver: &S,
    board: &Board,
    gate: &G,
    cubes: u64,
    seats: Vec<Seat>,
) -> Result<Part, NoMemory>
    requires seats { All (IsFresh board.now) seats.items }
    requires all { (0 < vec_len seats) × (vec_len seats ≡ board.now.2) }
    requires cubes { (board.now.1 ≡ cubes) × (cubes ≡ 2 ^ length (S.splits solver.now)) }
    ensures { IfOk result (IsBrought (S.may solver.now) cubes) }
{
    let parts = spread(rt, alloc, solver, board, gate, seats)?;
    let mut all = gather(solver, board, parts)?;
    board.settle(&mut all.seat);
    Ok(all)
}

/// Picks of what all workers have brought.
fn pick_of<S: CubeSolver>(
    alloc: Global,
    solver: &S,
    cubes: u64,
    all: Part,
) -> Result<Pick, NoMemory>
    requires few { cubes ≤ 64 }
    requires brought { IsBrought (S.may solver.now) cubes all }
    ensures { IfOk result (Gathered (S.may solver.now) cubes) }
{
    let table = fill(alloc, cubes as usize, all.outcomes)?;
    let pick = walk(alloc, table)?;
    Ok(pick)
}

/// How many seats so many workers need: more than there are cubes would have threads started for nothing.
fn count_seats(cubes: u64, workers: u64) -> u64
    ensures { result ≡ min workers cubes }
{
    workers.min(cubes)
}

/// Has the cubes searched by so many workers, and picks of what they find.
fn pick_all<R: Threads + Sync, S: CubeSolver + Sync, G: Gate + Sync>(
    rt: &R,
    alloc: Global,
    solver: &S,
    cubes: u64,
    workers: u64,
    gate: &G,
) -> Result<Pick, NoMemory>
    requires cubes { (cubes ≡ 2 ^ length (S.splits solver.now)) × (1 ≤ cubes) × (cubes ≤ 64) }
    requires workers { (1 ≤ workers) × (workers ≤ 16) }
    ensures { IfOk result (Gathered (S.may solver.now) cubes) }
{
    let (board, seats) = Board::new(alloc, cubes, count_seats(cubes, workers))?;
    let all = bring(rt, alloc, solver, &board, gate, cubes, seats)?;
    pick_of(alloc, solver, cubes, all)
}

/// The same, with the trees of all cubes joined.
fn search_all<R: Threads + Sync, S: CubeSolver + Sync, G: Gate + Sync>(
    rt: &R,
    alloc: Global,
    solver: &S,
    cubes: u64,
    workers: u64,
    gate: &G,
) -> Result<Answer, NoMemory>
    requires cubes { (cubes ≡ 2 ^ length (S.splits solver.now)) × (1 ≤ cubes) × (cubes ≤ 64) }
    requires workers { (1 ≤ workers) × (workers ≤ 16) }
    ensures { IfOk result (Picked (S.may solver.now) (S.splits solver.now) cubes) }
{
    let pick = pick_all(rt, alloc, solver, cubes, workers, gate)?;
    let answer = joined(alloc, solver.choices(), pick)?;
    Ok(answer)
}

/// The answer of a search whose cubes are shared by workers, no more than there are cubes. The calling thread is one of them; where a thread can't be
/// started its cubes are left to the others.
pub fn solve_all<R: Threads + Sync, S: CubeSolver + Sync, G: Gate + Sync>(
    rt: &R,
    alloc: Global,
    solver: &S,
    cubes: u64,
    workers: u64,
    gate: &G,
) -> Answer
    requires cubes { (cubes ≡ 2 ^ length (S.splits solver.now)) × (1 ≤ cubes) × (cubes ≤ 64) }
    requires workers { (1 ≤ workers) × (workers ≤ 16) }
    ensures { Picked (S.may solver.now) (S.splits solver.now) cubes result }
{
    match search_all(rt, alloc, solver, cubes, workers, gate) {
        Ok(answer) => answer,
        Err(_) => Answer::NoMemory,
    }
}
