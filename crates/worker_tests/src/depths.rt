//! Trees and searches as deep as they may be, in threads.
ghost use Rattle.std.specs.Prelude.{◌≤◌};
ghost use Rattle.order_check.specs.Good.{IsGood};

use crate::cubes::{first_of, said_by};
use crate::histories::{alone, problem_of, txn_of, whole};
use order_check::Parts;
use polygraph::Problem;
use refutation::{Leaf, Tree, check};
use shared_search::{OpenGate, Shared};
use std::alloc::Global;
use std::test::*;
use std::thread;
use std::thread::Threads;
use txn::{NoMemory, Sequence, Txn};

/// 1.0 reads key 5 from 0.0, which doesn't write it.
fn not_written(alloc: Global) -> Result<Parts, NoMemory> {
    let mut remain = Vec::new(alloc);
    remain.push(alone(alloc, txn_of(alloc, &[], &[1])?)?)?;
    remain.push(alone(alloc, txn_of(alloc, &[(5, 0)], &[])?)?)?;
    whole(alloc, remain)
}

/// What refutes that, below so many nodes without steps.
fn under(alloc: Global, nodes: u64) -> Result<Tree, NoMemory> {
    let mut tree = Tree::Close(Leaf::NoWrite(first_of(1), 5));
    for _ in 0..nodes {
        tree = Tree::Force {
            steps: Sequence::new(Vec::new(alloc)),
            rest: Box::new(alloc, tree)?,
        };
    }
    Ok(tree)
}

/// The trees below so many nodes.
fn all_under(alloc: Global, nodes: &[u64]) -> Result<Vec<Tree>, NoMemory> {
    let mut trees = Vec::new(alloc);
    for count in nodes {
        trees.push(under(alloc, *count)?)?;
    }
    Ok(trees)
}

/// How many of the trees refute the parts, each checked in a thread of its own.
fn count_right<R: Threads + Sync>(
    rt: &R,
    alloc: Global,
    parts: &Parts,
    trees: Vec<Tree>,
) -> Result<u64, NoMemory>
    requires { IsGood parts.now }
{
    let told = thread::map_vec(
        rt,
        trees,
        &|tree: Tree| -> Result<bool, NoMemory>
            requires { IsGood parts.now }
        { check(alloc, parts, &tree) },
    )?;
    let mut right = 0u64;
    for each in told {
        if each? {
            right = right.saturating_add(1);
        }
    }
    Ok(right)
}

#[test]
fn a_tree_is_as_deep_in_a_thread(rt: HostRuntime) -> Result<(), Fail> {
    let parts = not_written(rt.alloc())?;
    assert!(&rt; parts.is_good());
    for (nodes, right) in [([4096; 4], 4), ([4097; 4], 0)] {
        let trees = all_under(rt.alloc(), &nodes)?;
        assert_eq!(&rt; count_right(&rt, rt.alloc(), &parts, trees)?, right);
    }
    Ok(())
}

/// So many writers of key 1.
fn writers(alloc: Global, count: u64) -> Result<Sequence<Txn>, NoMemory> {
    let mut txns = Vec::new(alloc);
    for _ in 0..count {
        txns.push(txn_of(alloc, &[], &[1])?)?;
    }
    Ok(Sequence::new(txns))
}

/// One reader of a key, and 2,000 writers of it beside the one that is read from. Each may stand on either side of the two, so that a search goes down a
/// level for each: the first is in a session of its own, so that neither side of it decides another one, and the others follow one another.
fn one_reader(alloc: Global) -> Result<Parts, NoMemory> {
    let mut remain = Vec::new(alloc);
    remain.push(writers(alloc, 1)?)?;
    remain.push(alone(alloc, txn_of(alloc, &[(1, 0)], &[])?)?)?;
    remain.push(writers(alloc, 1)?)?;
    remain.push(writers(alloc, 1999)?)?;
    whole(alloc, remain)
}

/// What two workers answer to this problem of two cubes, with so many nodes for each.
fn solve_two<R: Threads + Sync>(
    rt: &R,
    alloc: Global,
    problem: &Problem,
    nodes: u64,
) -> &'static str
    requires { (1 ≤ nodes) × (nodes ≤ 4096) }
{
    said_by(&Shared::new(rt, OpenGate).answer(alloc, problem, 2 * nodes, 1, 2))
}

/// Each of the two finds its order at the 2,000th node, one level below another.
#[test]
fn two_workers_search_2000_levels_deep(rt: HostRuntime) -> Result<(), Fail> {
    let parts = one_reader(rt.alloc())?;
    let problem = problem_of(&rt, rt.alloc(), &parts)?;
    assert_eq!(&rt; problem.open_choices(), 2000);
    assert_eq!(&rt; solve_two(&rt, rt.alloc(), &problem, 1999), "spent");
    assert_eq!(&rt; solve_two(&rt, rt.alloc(), &problem, 2000), "yes");
    Ok(())
}
