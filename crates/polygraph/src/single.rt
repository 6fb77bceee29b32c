ghost use Rattle.std.specs.Prelude.{◌≡◌, ◌+◌, ◌<◌, ◌≤◌, ⊤, IfOk, MatchOption};
ghost use Rattle.order_check.specs.Effort.{IsEffort};
ghost use Rattle.order_check.specs.Explains.{Explains};
ghost use Rattle.order_check.specs.TakenSides.{KeepsSides};
ghost use Rattle.refutation.specs.Refutes.{IsRefutation};
ghost use Rattle.polygraph.specs.Outcomes.{IsPicked, IsLeastYes, cube_count, sides_of_cube};
ghost use Rattle.polygraph.specs.SoFar.{AreRefuted, IsSoFar, IsPickedOf};
ghost use Rattle.polygraph.specs.Solving.{IsLawful};

use crate::cubes::count_cubes;
use crate::problems::Problem;
use crate::solving::{Answer, Cube, PlainSolver, Solver, solve_cube};
use order_check::scans_find_one;
use refutation::{Tree, join, joined_depth, joined_trees_refute, shortened};
use std::alloc::Global;
use txn::{NoMemory, Sequence, TxnId};

/// The solver of one thread: it goes through the cubes by rising number. It has no use for workers.
#[derive(Clone, Copy, Debug)]
pub struct Single;

/// Searches the next cube: it gives the cube's order, or notes what else was found.
fn search_next(
    alloc: Global,
    problem: &Problem,
    cube: u64,
    depth: u64,
    share: u64,
    trees: &mut Vec<Tree>,
    spent: &mut bool,
) -> Result<Option<Sequence<TxnId>>, NoMemory>
    requires depth { depth ≤ 6 }
    requires cube { cube < cube_count problem.now depth }
    requires so_far { IsSoFar problem.now depth share cube trees.old.items spent.old }
    ensures { IfOk result (λ found. MatchOption found
        (IsSoFar problem.now depth share (cube + 1) trees.new.items spent.new)
        (λ order. Explains problem.now.known.parts order × IsLeastYes problem.now depth share cube × KeepsSides order (sides_of_cube problem.now depth cube))) }
{
    // A law that the proof cites. It does nothing when it runs.
    scans_find_one();
    match solve_cube(alloc, problem, cube, depth, share)? {
        Cube::Yes(order) => Ok(Some(order)),
        Cube::No(tree) => {
            trees.push(tree)?;
            Ok(None)
        }
        Cube::Spent => {
            *spent = true;
            Ok(None)
        }
    }
}

/// The trees of all cubes, joined.
fn joined(
    alloc: Global,
    problem: &Problem,
    depth: u64,
    share: u64,
    trees: Vec<Tree>,
) -> Result<Tree, NoMemory>
    requires depth { depth ≤ 6 }
    requires refuted { AreRefuted problem.now depth share (cube_count problem.now depth) trees.items }
    ensures { IfOk result (IsRefutation problem.now.known.parts) }
{
    // Laws that the proof cites. They do nothing when they run.
    joined_trees_refute();
    joined_depth();
    let choices = problem.choices(depth);
    let tree = join(alloc, choices, trees)?;
    Ok(tree)
}

/// The trees of all cubes, joined, without what plays no part.
fn refutation_of(
    alloc: Global,
    problem: &Problem,
    depth: u64,
    share: u64,
    trees: Vec<Tree>,
) -> Result<Tree, NoMemory>
    requires depth { depth ≤ 6 }
    requires refuted { AreRefuted problem.now depth share (cube_count problem.now depth) trees.items }
    ensures { IfOk result (IsRefutation problem.now.known.parts) }
{
    let tree = joined(alloc, problem, depth, share, trees)?;
    shortened(alloc, problem.parts(), tree)
}

/// Searches all cubes with this share, by rising number.
fn search_all(
    alloc: Global,
    problem: &Problem,
    depth: u64,
    share: u64,
    count: u64,
) -> Result<Answer, NoMemory>
    requires depth { depth ≤ 6 }
    requires count { count ≡ cube_count problem.now depth }
    ensures { IfOk result (IsPickedOf problem.now depth share) }
{
    let mut trees = Vec::new(alloc);
    let mut spent = false;
    for cube in 0..count {
        if let Some(order) = search_next(
            alloc, problem, cube, depth, share, &mut trees, &mut spent,
        )? {
            return Ok(Answer::Yes(order));
        }
    }
    if spent {
        return Ok(Answer::Spent);
    }
    Ok(Answer::No(refutation_of(alloc, problem, depth, share, trees)?))
}

/// Shares the budget among the cubes, and searches them.
fn search_within(
    alloc: Global,
    problem: &Problem,
    budget: u64,
    depth: u64,
) -> Result<Answer, NoMemory>
    requires { depth ≤ 6 }
    ensures lawful { IfOk result (IsLawful problem.now.known.parts budget depth) }
    ensures picked { IfOk result (IsPicked problem.now budget depth) }
{
    let choices = problem.choices(depth);
    let count = count_cubes(choices);
    let answer = search_all(alloc, problem, depth, budget / count, count)?;
    Ok(answer)
}

impl Single {
    /// What it answers, as a solver too.
    pub fn answer(&self, alloc: Global, problem: &Problem, budget: u64, depth: u64) -> Answer
        requires { depth ≤ 6 }
        ensures lawful { IsLawful problem.now.known.parts budget depth result }
        ensures picked { IsPicked problem.now budget depth result }
    {
        match search_within(alloc, problem, budget, depth) {
            Ok(answer) => answer,
            Err(_) => Answer::NoMemory,
        }
    }
}

impl Solver for Single {
    ghost ready = { ⊤ };

    fn solve(
        &self,
        alloc: Global,
        problem: &Problem,
        budget: u64,
        depth: u64,
        workers: u64,
    ) -> Answer
        requires effort { IsEffort budget depth workers }
        ensures lawful { IsLawful problem.now.known.parts budget depth result }
        ensures picked { IsPicked problem.now budget depth result }
    {
        self.answer(alloc, problem, budget, depth)
    }
}

impl PlainSolver for Single {
    fn search(
        &self,
        alloc: Global,
        problem: &Problem,
        budget: u64,
        depth: u64,
        workers: u64,
    ) -> Answer {
        self.answer(alloc, problem, budget, depth)
    }
}
