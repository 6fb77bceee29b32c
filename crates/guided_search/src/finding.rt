//! What is found besides the plain search: it isn't told of workers.
ghost use Rattle.std.specs.Prelude.{◌≡◌, IfOk};
ghost use Rattle.order_check.specs.Good.{IsGood};
ghost use Rattle.guided_search.specs.Believed.{IsBelieved};

use crate::guided::Finder;
use crate::running::{Heeds, run_of};
use crate::searching::{Found, search_within};
use clock_choices::Branch;
use order_check::{Parts, explains};
use polygraph::{Answer, Problem};
use refutation::{Tree, check};
use std::alloc::Global;
use txn::{NoMemory, Sequence, TxnId};

/// The order, if it explains the parts.
fn believed_order(alloc: Global, parts: &Parts, order: Sequence<TxnId>) -> Result<Answer, NoMemory>
    requires { IsGood parts.now }
    ensures { IfOk result (IsBelieved parts.now) }
{
    if explains(alloc, parts, order.as_slice())? {
        return Ok(Answer::Yes(order));
    }
    Ok(Answer::Spent)
}

/// The tree, if it refutes the parts.
fn believed_tree(alloc: Global, parts: &Parts, tree: Tree) -> Result<Answer, NoMemory>
    requires { IsGood parts.now }
    ensures { IfOk result (IsBelieved parts.now) }
{
    if check(alloc, parts, &tree)? {
        return Ok(Answer::No(tree));
    }
    Ok(Answer::Spent)
}

/// What of it is believed.
fn believed(alloc: Global, parts: &Parts, found: Found) -> Result<Answer, NoMemory>
    requires { IsGood parts.now }
    ensures { IfOk result (IsBelieved parts.now) }
{
    match found {
        Found::Order(order) => believed_order(alloc, parts, order),
        Found::Refutation(tree) => believed_tree(alloc, parts, tree),
        Found::Nothing => Ok(Answer::Spent),
    }
}

/// The order of a store's run, or else what the search that follows its conflicts finds. The parts are the problem's.
fn answer_from(
    alloc: Global,
    problem: &Problem,
    parts: &Parts,
    budget: u64,
) -> Result<Answer, NoMemory>
    requires { IsGood parts.now }
    ensures { IfOk result (IsBelieved parts.now) }
{
    let order = run_of(alloc, problem, Heeds::Misses)?;
    if explains(alloc, parts, order.as_slice())? {
        return Ok(Answer::Yes(order));
    }
    let order = run_of(alloc, problem, Heeds::Begun)?;
    if explains(alloc, parts, order.as_slice())? {
        return Ok(Answer::Yes(order));
    }
    let order = run_of(alloc, problem, Heeds::Readers)?;
    if explains(alloc, parts, order.as_slice())? {
        return Ok(Answer::Yes(order));
    }
    let mut branch = Branch::of(alloc, problem.known())?;
    let found = search_within(alloc, problem, &mut branch, order.as_slice(), budget)?;
    believed(alloc, parts, found)
}

/// Nothing, where no choice is open: the plain search then needs one node.
fn answer_within(alloc: Global, problem: &Problem, budget: u64) -> Result<Answer, NoMemory>
    ensures { IfOk result (IsBelieved problem.now.known.parts) }
{
    if problem.open_choices() == 0 {
        return Ok(Answer::Spent);
    }
    answer_from(alloc, problem, problem.parts(), budget)
}

/// The three orders of a store's run, which cost no node, and then a search that follows its conflicts.
#[derive(Clone, Copy, Debug)]
pub struct Conflicts;

impl Finder for Conflicts {
    ghost use Rattle.guided_search.specs.Believed.{IsBelieved};

    ghost finds = { λ problem budget found. IsBelieved problem.known.parts found };

    fn find(&self, alloc: Global, problem: &Problem, budget: u64) -> Answer {
        match answer_within(alloc, problem, budget) {
            Ok(answer) => answer,
            Err(_) => Answer::NoMemory,
        }
    }
}
