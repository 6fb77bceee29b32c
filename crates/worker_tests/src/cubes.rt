//! Cubes whose answers are set beforehand, behind gates.
ghost use Rattle.std.specs.Prelude.{◌≡◌, IfOk, vec_len};

use polygraph::{Answer, Cube};
use refutation::{Leaf, Tree};
use shared_search::CubeSolver;
use std::alloc::Global;
use txn::{Choice, NoMemory, Sequence, TxnId};

/// The first transaction of a session.
pub fn first_of(session: u8) -> TxnId {
    TxnId { session, number: 0 }
}

/// A cube with a yes has an order of one transaction, whose session has the cube's number; each other one has the same no.
#[derive(Drop)]
pub struct SetCubes {
    pub choices: Vec<Choice>,
    pub with_yes: &'static [u64],
}

impl CubeSolver for SetCubes {
    ghost use Rattle.std.specs.Prelude.{⊤};

    ghost may = { λ _ _ _. ⊤ };

    ghost splits = { λ s. s.choices.items };

    fn solve(&self, alloc: Global, cube: u64) -> Result<Cube, NoMemory> {
        if self.with_yes.contains(&cube) {
            let mut order = Vec::new(alloc);
            order.push(first_of((cube % 64) as u8))?;
            return Ok(Cube::Yes(Sequence::new(order)));
        }
        Ok(Cube::No(Tree::Close(Leaf::NoWrite(first_of(0), 5))))
    }

    fn choices(&self) -> &[Choice] {
        self.choices.as_slice()
    }
}

/// So many choices, all alike.
pub fn choices(alloc: Global, count: usize) -> Result<Vec<Choice>, NoMemory>
    ensures { IfOk result (λ choices. vec_len choices ≡ count) }
{
    let none = first_of(0);
    let mut choices = Vec::new(alloc);
    for _ in 0..count {
        choices.push(Choice {
            reader: none,
            key: 5,
            writer: none,
            other: none,
        })?;
    }
    Ok(choices)
}

fn is_force(tree: &Tree) -> bool {
    matches!(tree, Tree::Force { .. })
}

/// Whether each node of steps has some, and none of them stands right below another.
fn is_neat(tree: &Tree) -> bool {
    match tree {
        Tree::Close(_) => true,
        Tree::Force { steps, rest } => !steps.is_empty() && !is_force(rest) && is_neat(rest),
        Tree::Split {
            choice: _,
            first,
            second,
        } => is_neat(first) && is_neat(second),
    }
}

/// A word for the answer, if a tree in it is as the searches make them.
pub fn said_by(answer: &Answer) -> &'static str {
    match answer {
        Answer::Yes(_) => "yes",
        Answer::No(tree) if is_neat(tree) => "no",
        Answer::No(_) => "a tree with a node of steps that is empty, or right below another",
        Answer::Spent => "spent",
        Answer::NoMemory => "no memory",
    }
}

/// The session of the first transaction of a yes.
pub fn first_session(answer: &Answer) -> Option<u8> {
    let Answer::Yes(order) = answer else {
        return None;
    };
    let id = order.as_slice().first()?;
    Some(id.session)
}
