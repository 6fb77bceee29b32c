ghost use Rattle.std.specs.Prelude.{◌≡◌, ◌<◌, ◌^◌, [], All, None, Some, IfOk, length, slice_set, slice_index_or, vec_len};
ghost use Rattle.shared_search.specs.Worked.{IsTable};
ghost use Rattle.shared_search.specs.Gathered.{GatheredOf, NoGap, HasTrees, IsJoined};

use polygraph::{Answer, Cube};
use refutation::{Tree, join};
use std::alloc::Global;
use std::collections::VecDeque;
use txn::{Choice, NoMemory, Sequence, TxnId};

// What is picked of all outcomes, before trees are joined.
#[derive(Drop)]
pub enum Pick {
    Yes(Sequence<TxnId>),
    No(Vec<Tree>),
    Spent,
}

/// A table without outcomes.
fn nones(alloc: Global, count: usize) -> Result<Vec<Option<Cube>>, NoMemory>
    ensures { IfOk result (λ table. IsTable count [] table.items) }
{
    let mut table = Vec::with_capacity(alloc, count)?;
    for _ in 0..count {
        table.push_reserved(None);
    }
    Ok(table)
}

/// Puts an outcome into its place.
fn put(table: &mut Vec<Option<Cube>>, place: usize, cube: Cube)
    requires { place < vec_len table.old }
    ensures { table.new.items ≡ slice_set table.old.items place (Some cube) }
{
    table[place] = Some(cube);
}

/// The outcome of each cube, where there is one.
pub fn fill(
    alloc: Global,
    count: usize,
    outcomes: Vec<(u64, Cube)>,
) -> Result<Vec<Option<Cube>>, NoMemory>
    requires { All (λ e. e.0 < count) outcomes.items }
    ensures { IfOk result (λ table. IsTable count outcomes.items table.items) }
{
    let mut table = nones(alloc, count)?;
    let mut outcomes = VecDeque::from(outcomes);
    while let Some((n, cube)) = outcomes.pop_front() {
        put(&mut table, n as usize, cube);
    }
    Ok(table)
}

/// Goes over the outcomes by rising number, and picks.
pub fn walk(alloc: Global, table: Vec<Option<Cube>>) -> Result<Pick, NoMemory>
    requires { NoGap table.items }
    ensures { IfOk result (GatheredOf table.items) }
{
    let mut table = VecDeque::from(table);
    let mut trees = Vec::new(alloc);
    let mut spent = false;
    while let Some(slot) = table.pop_front() {
        let Some(cube) = slot else { unreachable!() };
        match cube {
            Cube::Yes(order) => return Ok(Pick::Yes(order)),
            Cube::No(tree) => {
                trees.push(tree)?;
            }
            Cube::Spent => spent = true,
        }
    }
    if spent {
        Ok(Pick::Spent)
    } else {
        Ok(Pick::No(trees))
    }
}

/// The answer that was picked, its trees joined.
pub fn joined(alloc: Global, choices: &[Choice], pick: Pick) -> Result<Answer, NoMemory>
    requires { HasTrees (2 ^ length choices.now) pick }
    ensures { IfOk result (IsJoined choices.now pick) }
{
    match pick {
        Pick::Yes(order) => Ok(Answer::Yes(order)),
        Pick::No(trees) => Ok(Answer::No(join(alloc, choices, trees)?)),
        Pick::Spent => Ok(Answer::Spent),
    }
}
