ghost use Rattle.std.specs.Prelude.{◌≡◌, ◌+◌, ◌-◌, ◌<◌, ◌≤◌, ◌^◌, length, IfOk};
ghost use Rattle.order_check.specs.Effort.{IsEffort};
ghost use Rattle.polygraph.specs.Outcomes.{IsCube, IsPicked, cube_count, split_choices};
ghost use Rattle.polygraph.specs.Solving.{IsLawful};
ghost use Rattle.polygraph.specs.declared.solving.Cube.TheVariants as cubes;

use crate::cubes::{branch_at, search};
use crate::problems::Problem;
use order_check::scans_are_bounded;
use refutation::Tree;
use std::alloc::Global;
use txn::{NoMemory, Sequence, TxnId};

/// What a search may take: so many nodes, cubes of so many splits, so many workers.
#[derive(Clone, Copy, Debug, PartialEq, Eq)]
pub struct Effort {
    pub budget: u64,
    pub depth: u64,
    pub workers: u64,
}

/// What a search of one cube finds.
#[derive(Drop, Debug)]
pub enum Cube {
    /// This order explains the parts.
    Yes(Sequence<TxnId>),
    /// No order that keeps the cube's sides explains the parts, as this tree shows.
    No(Tree),
    /// The nodes were used up, or the sides more than 2,047.
    Spent,
}

/// What a solver answers.
#[derive(Drop, Debug)]
pub enum Answer {
    /// This order explains the parts.
    Yes(Sequence<TxnId>),
    /// No order explains the parts, as this tree shows.
    No(Tree),
    /// The search ran out of its budget.
    Spent,
    NoMemory,
}

/// What searches for an order that explains a problem's parts.
pub trait Solver {
    /// What the bounds of the solver's type say, as that its handle may be lent to threads: its own method isn't told.
    ghost ready: { Type 0 };

    /// The budget is in nodes of the search; the depth says how often it is split, and the workers who shares the parts.
    fn solve(
        &self,
        alloc: Global,
        problem: &Problem,
        budget: u64,
        depth: u64,
        workers: u64,
    ) -> Answer
        requires ready { ready }
        requires effort { IsEffort budget depth workers }
        ensures { IsLawful problem.now.known.parts budget depth result };
}

/// A solver that makes the plain search, and no other. All its answers but want of memory are of one kind, whatever the workers.
pub trait PlainSolver: Solver {
    fn search(
        &self,
        alloc: Global,
        problem: &Problem,
        budget: u64,
        depth: u64,
        workers: u64,
    ) -> Answer
        requires ready { Self.ready }
        requires effort { IsEffort budget depth workers }
        ensures lawful { IsLawful problem.now.known.parts budget depth result }
        ensures picked { IsPicked problem.now budget depth result };
}

/// Searches one cube, within `share` nodes. A search of this depth splits the first so many open choices, of which the cube takes a side each:
/// bit 0 of its number is the first side, and the highest bit is the first choice's.
pub fn solve_cube(
    alloc: Global,
    problem: &Problem,
    cube: u64,
    depth: u64,
    share: u64,
) -> Result<Cube, NoMemory>
    requires depth { depth ≤ 6 }
    requires cube { cube < cube_count problem.now depth }
    ensures told { IfOk result (IsCube problem.now depth share cube) }
    // It is spent only where the share doesn't reach.
    ensures spent { IfOk result (λ told. told ≡ cubes.Spent → share + 1 < 2 ^ (problem.now.open_count - length (split_choices problem.now depth) + 1)) }
{
    // A law that the proof cites. It does nothing when it runs.
    scans_are_bounded();
    problem.go_on()?;
    let choices = problem.choices(depth);
    let mut branch = branch_at(alloc, problem.known(), choices, cube)?;
    let found = search(alloc, &mut branch, share, problem)?;
    Ok(found)
}
