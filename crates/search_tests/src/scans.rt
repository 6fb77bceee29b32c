//! A plain search, over a plain relation: what it finds within how many nodes is compared with the solver's answers, over generated
//! histories of at most eight transactions.
use crate::searches::{problem_of, solved};
use crate::worked::Said;
use order_check::{Parts, find_order};
use polygraph::{Cube, Problem, solve_cube};
use std::alloc::Global;
use std::process::Abort;
use std::test::*;
use test_histories::{
    Dice, Facts, Node, Pair, facts_of, is_open, known_with, look, parts_by, side_of,
};
use txn::{Choice, NoMemory};

fn with_side(sides: &Vec<Pair>, side: Pair) -> Result<Vec<Pair>, NoMemory> {
    let mut more = sides.clone()?;
    more.push(side)?;
    Ok(more)
}

/// What is found from these sides, and how many nodes were looked at. Nodes that wait are on a stack.
fn scan(alloc: Global, facts: &Facts, sides: Vec<Pair>) -> Result<(Said, u64), NoMemory> {
    let mut waiting = Vec::new(alloc);
    waiting.push(sides)?;
    for looked in 0..1000 {
        let Some(sides) = waiting.pop() else {
            return Ok(("no", looked));
        };
        match look(alloc, facts, sides.as_slice())? {
            Node::Closed => {}
            Node::Decided => return Ok(("yes", looked + 1)),
            Node::Open(choice) => {
                waiting.push(with_side(&sides, side_of(choice, false))?)?;
                waiting.push(with_side(&sides, side_of(choice, true))?)?;
            }
        }
    }
    Ok(("too many nodes", 0))
}

/// The first so many open choices.
fn first_open(alloc: Global, facts: &Facts, depth: usize) -> Result<Vec<Choice>, NoMemory> {
    let known = known_with(alloc, facts, &[])?;
    let mut open = Vec::new(alloc);
    for choice in &facts.choices {
        if open.len() < depth && is_open(&known, *choice) {
            open.push(*choice)?;
        }
    }
    Ok(open)
}

/// The sides that a cube takes. Which cube has which number makes no difference here.
fn sides_of(alloc: Global, open: &[Choice], cube: u64) -> Result<Vec<Pair>, NoMemory> {
    let mut sides = Vec::new(alloc);
    let mut rest = cube;
    for choice in open {
        sides.push(side_of(*choice, rest % 2 == 0))?;
        rest /= 2;
    }
    Ok(sides)
}

/// What is found in each cube, and within how many nodes, where at most two choices are split.
fn found_in_cubes(
    alloc: Global,
    facts: &Facts,
    depth: usize,
) -> Result<Vec<(Said, u64)>, NoMemory> {
    let open = first_open(alloc, facts, depth)?;
    let cubes = match open.len() {
        0 => 1,
        1 => 2,
        _ => 4,
    };
    let mut found = Vec::new(alloc);
    for cube in 0..cubes {
        let sides = sides_of(alloc, open.as_slice(), cube)?;
        found.push(scan(alloc, facts, sides)?)?;
    }
    Ok(found)
}

/// What the cubes come to where the budget is shared among them.
fn picked(cubes: &[(Said, u64)], budget: u64) -> Said {
    let share = budget.checked_div(cubes.len() as u64).unwrap_or(0);
    let mut spent = false;
    for (said, nodes) in cubes {
        if *nodes > share {
            spent = true;
        } else if *said == "yes" {
            return "yes";
        }
    }
    if spent { "spent" } else { "no" }
}

/// With too few nodes the plain search and the solver are spent, and with enough they find the same.
fn finds_the_same(
    rt: &impl Abort,
    alloc: Global,
    problem: &Problem,
    facts: &Facts,
) -> Result<(), Fail> {
    for depth in 0..3 {
        let cubes = found_in_cubes(alloc, facts, depth as usize)?;
        for budget in 1..10 {
            assert_eq!(rt;
                solved(rt, alloc, problem, budget, depth),
                picked(cubes.as_slice(), budget)
            );
        }
    }
    Ok(())
}

/// With enough nodes an order is found where a trial of all orders finds one.
fn has_its_verdict(
    rt: &impl Abort,
    alloc: Global,
    parts: &Parts,
    problem: &Problem,
) -> Result<(), Fail> {
    assert!(rt; parts.is_good() && parts.remaining_count() <= 8);
    let wanted = find_order(alloc, parts)?.is_some();
    let cube = solve_cube(alloc, problem, 0, 0, 1_000_000)?;
    assert_eq!(rt; matches!(cube, Cube::Yes(_)), wanted);
    Ok(())
}

/// Tells how many choices are open.
fn agrees(rt: &impl Abort, alloc: Global, parts: &Parts) -> Result<usize, Fail> {
    let problem = problem_of(rt, alloc, parts)?;
    has_its_verdict(rt, alloc, parts, &problem)?;
    let facts = facts_of(alloc, parts)?;
    finds_the_same(rt, alloc, &problem, &facts)?;
    Ok(problem.open_choices())
}

#[test]
fn generated_histories_are_searched_as_defined(rt: HostRuntime) -> Result<(), Fail> {
    let mut dice = Dice::of(1);
    let mut open = Vec::new(rt.alloc());
    for _ in 0..1100 {
        let parts = parts_by(rt.alloc(), &mut dice)?;
        if open.len() < 500 && parts.is_good() && parts.remaining_count() <= 8 {
            open.push(agrees(&rt, rt.alloc(), &parts)?)?;
        }
    }
    // not all of them are decided at the root
    assert!(&rt; open.len() == 500 && open.as_slice().contains(&1) && open.as_slice().contains(&5));
    Ok(())
}
