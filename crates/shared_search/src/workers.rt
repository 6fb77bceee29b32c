ghost use Rattle.std.specs.Prelude.{◌≡◌, ℕ, ◌+◌, ◌<◌, ◌^◌, ◌++◌, ◌∷◌, [], List, length, All, IfOk, OnOk, vec_len};
ghost use Rattle.list_lemmas.specs.Counts.{times};
ghost use Rattle.txn.specs.declared.choices.Choice.{Choice};
ghost use Rattle.polygraph.specs.declared.solving.Cube.{Cube};
ghost use Rattle.shared_search.specs.declared.words.View.{View};
ghost use Rattle.shared_search.specs.Rule.{claims};
ghost use Rattle.shared_search.specs.Boards.{IsSeatOf, IsFresh};
ghost use Rattle.shared_search.specs.Worked.{is_yes, told, Worked};
ghost use Rattle.shared_search.specs.Gathered.{IsPart};

use crate::gates::Gate;
use crate::seats::{Board, Seat};
use polygraph::Cube;
use std::alloc::{AllocError, Global};
use std::thread;
use std::thread::Threads;
use txn::{Choice, NoMemory};

/// What searches cubes.
pub trait CubeSolver {
    /// What the search of a cube may give.
    ghost may: { Self → ℕ → Cube → Type 0 };

    /// The choices whose sides the cubes take.
    ghost splits: { Self → List Choice };

    fn solve(&self, alloc: Global, cube: u64) -> Result<Cube, NoMemory>
        requires { cube < 2 ^ length (splits self.now) }
        ensures { IfOk result (may self.now cube) };

    fn choices(&self) -> &[Choice]
        ensures { result.now ≡ splits self.now };
}

// What a worker brings back: its seat, the outcomes of the cubes that it searched, and whether memory was refused.
#[derive(Drop)]
pub struct Part {
    pub seat: Seat,
    pub outcomes: Vec<(u64, Cube)>,
    pub refused: bool,
}

/// Whether the outcome is a yes.
fn is_yes(cube: &Cube) -> bool
    ensures { result ≡ is_yes cube.now }
{
    match cube {
        Cube::Yes(_) => true,
        Cube::No(_) => false,
        Cube::Spent => false,
    }
}

/// Tells that a claimed cube is answered, and whether by a yes.
fn tell(board: &Board, seat: &mut Seat, cube: u64, has_yes: bool)
    requires seat { IsSeatOf board.now seat.old }
    requires claimed { times cube seat.old.1.done < times cube seat.old.1.claimed }
    ensures seat { IsSeatOf board.now seat.new }
    ensures told { seat.new.1 ≡ told seat.old.1 cube has_yes }
{
    if has_yes {
        board.found(seat, cube);
        board.done(seat, cube);
    } else {
        board.done(seat, cube);
    }
}

/// Searches the cube that was just claimed, unless a lower one has a yes.
fn one<S: CubeSolver, G: Gate>(
    alloc: Global,
    solver: &S,
    board: &Board,
    gate: &G,
    seat: &mut Seat,
    cube: u64,
    outcomes: &mut Vec<(u64, Cube)>,
) -> Result<(), NoMemory>
    requires seat { IsSeatOf board.now seat.old }
    requires cube { cube < 2 ^ length (S.splits solver.now) }
    requires worked { (u : View) × (seat.old.1 ≡ claims u cube) × Worked (S.may solver.now) board.now.1 1 u outcomes.old.items }
    ensures seat { IsSeatOf board.now seat.new }
    ensures after { seat.new.1.after ≡ seat.old.1.after }
    ensures worked { OnOk result (Worked (S.may solver.now) board.now.1 1 seat.new.1 outcomes.new.items) }
{
    if let Some(lower) = board.least(seat) {
        if lower < cube {
            return Ok(());
        }
    }
    outcomes.reserve(1)?;
    gate.before(cube);
    let outcome = solver.solve(alloc, cube)?;
    tell(board, seat, cube, is_yes(&outcome));
    gate.after(cube);
    outcomes.push_reserved((cube, outcome));
    Ok(())
}

/// Claims cubes and searches them, until none is left.
fn work<S: CubeSolver, G: Gate>(
    alloc: Global,
    solver: &S,
    board: &Board,
    gate: &G,
    seat: Seat,
) -> Part
    requires seat { IsFresh board.now seat }
    requires count { board.now.1 ≡ 2 ^ length (S.splits solver.now) }
    ensures { IsPart (S.may solver.now) board.now result }
{
    let mut seat = seat;
    let mut outcomes = Vec::new(alloc);
    while let Some(cube) = board.claim(&mut seat) {
        let Ok(()) = one(alloc, solver, board, gate, &mut seat, cube, &mut outcomes) else {
            return Part {
                seat,
                outcomes,
                refused: true,
            };
        };
    }
    Part {
        seat,
        outcomes,
        refused: false,
    }
}

/// Has each seat worked at by a thread of its own. The calling thread is one of them; where a thread can't be started its seat is left to the others.
pub fn spread<R: Threads + Sync, S: CubeSolver + Sync, G: Gate + Sync>(
    rt: &R,
    alloc: Global,
    solver: &S,
    board: &Board,
    gate: &G,
    seats: Vec<Seat>,
) -> Result<Vec<Part>, NoMemory>
    requires seats { All (IsFresh board.now) seats.items }
    requires count { board.now.1 ≡ 2 ^ length (S.splits solver.now) }
    ensures len { IfOk result (λ parts. vec_len parts ≡ vec_len seats) }
    ensures parts { IfOk result (λ parts. All (IsPart (S.may solver.now) board.now) parts.items) }
{
    thread::map_vec(
        rt,
        seats,
        &|seat: Seat| -> Part
            requires { IsFresh board.now seat × (board.now.1 ≡ 2 ^ length (S.splits solver.now)) }
            ensures { IsPart (S.may solver.entry.now) board.entry.now result }
        { work(alloc, solver, board, gate, seat) },
    )
}

/// Takes the last part.
fn last_part(parts: &mut Vec<Part>) -> Part
    requires { 0 < vec_len parts.old }
    ensures items { parts.old.items ≡ parts.new.items ++ result ∷ [] }
    ensures len { vec_len parts.old ≡ vec_len parts.new + 1 }
{
    let Some(part) = parts.pop() else {
        unreachable!()
    };
    part
}

/// All that the workers brought, where none of them was refused memory.
pub fn gather<S: CubeSolver>(solver: &S, board: &Board, parts: Vec<Part>) -> Result<Part, NoMemory>
    requires parts { All (IsPart (S.may solver.now) board.now) parts.items }
    requires some { 0 < vec_len parts }
    ensures seat { IfOk result (λ part. IsSeatOf board.now part.seat) }
    ensures over { IfOk result (λ part. 0 < part.seat.1.over) }
    ensures worked { IfOk result (λ part. Worked (S.may solver.now) board.now.1 (vec_len parts) part.seat.1 part.outcomes.items) }
{
    let mut parts = parts;
    let mut all = last_part(&mut parts);
    if all.refused {
        return Err(AllocError);
    }
    while let Some(part) = parts.pop() {
        if part.refused {
            return Err(AllocError);
        }
        let Part {
            seat,
            mut outcomes,
            refused: _,
        } = part;
        board.absorb(&mut all.seat, seat);
        all.outcomes.append(&mut outcomes)?;
    }
    Ok(all)
}
