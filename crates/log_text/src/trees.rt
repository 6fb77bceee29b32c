ghost use Rattle.std.specs.Prelude.{◌≡◌, ◌+◌, ◌<◌, ℕ, List, [], ◌∷◌, ◌++◌, OnOk, map};
ghost use Rattle.serde_json.specs.Data.{Data};
ghost use Rattle.refutation.specs.Weights.{weight};
ghost use Rattle.log_text.specs.Saved.{GainsData};
ghost use Rattle.log_text.specs.Told.{name_data, choice_data, ends_data, keyed_data, arc_data, cycle_data, step_data, split_data, reader_data, leaf_data, tree_data};
ghost use Rattle.log_text.specs.Trees.{side_number};
ghost use Rattle.log_text.specs.Waiting.{ComeTo, waiting_weight};

use crate::lists::{push_each, push_word};
use crate::names::{Names, key_told, push_name};
use refutation::{Leaf, Tree};
use serde_json::Value;
use std::alloc::Global;
use txn::{Arc, Choice, ForceStep, NoMemory, Side, TxnId};

fn push_choice(
    alloc: Global,
    items: &mut Vec<Value>,
    names: Names,
    choice: &Choice,
) -> Result<(), NoMemory>
    ensures { OnOk result (GainsData items.old.items items.new.items (choice_data names choice.now ∷ [])) }
{
    let mut list = Vec::new(alloc);
    push_name(alloc, &mut list, names, choice.reader)?;
    push_each(&mut list, &[key_told(names, choice.key)])?;
    push_ends(alloc, &mut list, names, choice.writer, choice.other)?;
    items.push(Value::Array(list))?;
    Ok(())
}

/// Puts the names of two transactions at the end, one after another.
fn push_ends(
    alloc: Global,
    items: &mut Vec<Value>,
    names: Names,
    from: TxnId,
    to: TxnId,
) -> Result<(), NoMemory>
    ensures { OnOk result (GainsData items.old.items items.new.items (name_data names from ++ name_data names to)) }
{
    push_name(alloc, items, names, from)?;
    push_name(alloc, items, names, to)
}

/// Puts an arc without a key at the end.
fn push_plain_arc(
    alloc: Global,
    items: &mut Vec<Value>,
    names: Names,
    word: &str,
    from: TxnId,
    to: TxnId,
) -> Result<(), NoMemory>
    ensures { OnOk result (GainsData items.old.items items.new.items (ends_data names word.now from to ∷ [])) }
{
    let mut list = Vec::new(alloc);
    push_word(alloc, &mut list, word)?;
    push_ends(alloc, &mut list, names, from, to)?;
    items.push(Value::Array(list))?;
    Ok(())
}

/// Puts one with a key at the end.
fn push_keyed_arc(
    alloc: Global,
    items: &mut Vec<Value>,
    names: Names,
    word: &str,
    key: u64,
    from: TxnId,
    to: TxnId,
) -> Result<(), NoMemory>
    ensures { OnOk result (GainsData items.old.items items.new.items (keyed_data names word.now key from to ∷ [])) }
{
    let mut list = Vec::new(alloc);
    push_word(alloc, &mut list, word)?;
    push_each(&mut list, &[key_told(names, key)])?;
    push_ends(alloc, &mut list, names, from, to)?;
    items.push(Value::Array(list))?;
    Ok(())
}

fn push_arc(alloc: Global, items: &mut Vec<Value>, names: Names, arc: Arc) -> Result<(), NoMemory>
    ensures { OnOk result (GainsData items.old.items items.new.items (arc_data names arc ∷ [])) }
{
    match arc {
        Arc::Session { from, to } => push_plain_arc(alloc, items, names, "session", from, to),
        Arc::Read { key, from, to } => {
            push_keyed_arc(alloc, items, names, "read", key, from, to)
        }
        Arc::Base { key, from, to } => {
            push_keyed_arc(alloc, items, names, "base", key, from, to)
        }
        Arc::Taken { from, to } => push_plain_arc(alloc, items, names, "taken", from, to),
    }
}

fn push_cycle(
    alloc: Global,
    items: &mut Vec<Value>,
    names: Names,
    arcs: &[Arc],
) -> Result<(), NoMemory>
    ensures { OnOk result (GainsData items.old.items items.new.items (cycle_data names arcs.now ∷ [])) }
{
    let mut list = Vec::new(alloc);
    for arc in arcs {
        push_arc(alloc, &mut list, names, *arc)?;
    }
    items.push(Value::Array(list))?;
    Ok(())
}

fn side_number(side: Side) -> u64
    ensures { result ≡ side_number side }
{
    match side {
        Side::First => 1,
        Side::Second => 2,
    }
}

fn push_step(
    alloc: Global,
    items: &mut Vec<Value>,
    names: Names,
    step: &ForceStep,
) -> Result<(), NoMemory>
    ensures { OnOk result (GainsData items.old.items items.new.items (step_data names step.now ∷ [])) }
{
    let mut list = Vec::new(alloc);
    push_word(alloc, &mut list, "force")?;
    push_choice(alloc, &mut list, names, &step.choice)?;
    push_each(&mut list, &[side_number(step.side)])?;
    push_cycle(alloc, &mut list, names, step.cycle.as_slice())?;
    items.push(Value::Array(list))?;
    Ok(())
}

fn push_split(
    alloc: Global,
    items: &mut Vec<Value>,
    names: Names,
    choice: &Choice,
) -> Result<(), NoMemory>
    ensures { OnOk result (GainsData items.old.items items.new.items (split_data names choice.now ∷ [])) }
{
    let mut list = Vec::new(alloc);
    push_word(alloc, &mut list, "split")?;
    push_choice(alloc, &mut list, names, choice)?;
    items.push(Value::Array(list))?;
    Ok(())
}

fn push_cycle_leaf(
    alloc: Global,
    items: &mut Vec<Value>,
    names: Names,
    arcs: &[Arc],
) -> Result<(), NoMemory>
    ensures { OnOk result (GainsData items.old.items items.new.items (leaf_data names (Leaf.Cycle arcs.now) ∷ [])) }
{
    let mut list = Vec::new(alloc);
    push_word(alloc, &mut list, "cycle")?;
    push_cycle(alloc, &mut list, names, arcs)?;
    items.push(Value::Array(list))?;
    Ok(())
}

/// Puts a leaf about one read at the end.
fn push_read_leaf(
    alloc: Global,
    items: &mut Vec<Value>,
    names: Names,
    word: &str,
    reader: TxnId,
    key: u64,
) -> Result<(), NoMemory>
    ensures { OnOk result (GainsData items.old.items items.new.items (reader_data names word.now reader key ∷ [])) }
{
    let mut list = Vec::new(alloc);
    push_word(alloc, &mut list, word)?;
    push_name(alloc, &mut list, names, reader)?;
    push_each(&mut list, &[key_told(names, key)])?;
    items.push(Value::Array(list))?;
    Ok(())
}

fn push_leaf(
    alloc: Global,
    items: &mut Vec<Value>,
    names: Names,
    leaf: &Leaf,
) -> Result<(), NoMemory>
    ensures { OnOk result (GainsData items.old.items items.new.items (leaf_data names leaf.now ∷ [])) }
{
    match leaf {
        Leaf::Cycle(arcs) => push_cycle_leaf(alloc, items, names, arcs.as_slice()),
        Leaf::NoWrite(reader, key) => {
            push_read_leaf(alloc, items, names, "nowrite", *reader, *key)
        }
        Leaf::Gone(reader, key) => push_read_leaf(alloc, items, names, "gone", *reader, *key),
    }
}

fn push_steps(
    alloc: Global,
    items: &mut Vec<Value>,
    names: Names,
    steps: &[ForceStep],
) -> Result<(), NoMemory>
    ensures { OnOk result (GainsData items.old.items items.new.items (map (step_data names) steps.now)) }
{
    for step in steps {
        push_step(alloc, items, names, step)?;
    }
    Ok(())
}

/// Puts the values of a tree's first node at the end, and has what hangs below it wait, its first half last.
fn push_node<'t>(
    alloc: Global,
    items: &mut Vec<Value>,
    names: Names,
    waiting: &mut Vec<&'t Tree>,
    tree: &'t Tree,
) -> Result<(), NoMemory>
    ensures written { OnOk result ((all : List Data) → ComeTo names items.old.items (waiting.old.items ++ tree.entry ∷ []) all → ComeTo names items.new.items waiting.new.items all) }
    ensures lighter { OnOk result (waiting_weight waiting.new.items < waiting_weight waiting.old.items + weight tree.now) }
{
    match tree {
        Tree::Close(leaf) => push_leaf(alloc, items, names, leaf)?,
        Tree::Force { steps, rest } => {
            push_steps(alloc, items, names, steps.as_slice())?;
            waiting.push(rest)?;
        }
        Tree::Split {
            choice,
            first,
            second,
        } => {
            push_split(alloc, items, names, choice)?;
            waiting.push(second)?;
            waiting.push(first)?;
        }
    }
    Ok(())
}

/// Puts the list of a tree's items, one after another, at the end. A tree may be very deep, so this is a loop.
pub(crate) fn push_tree(
    alloc: Global,
    items: &mut Vec<Value>,
    names: Names,
    tree: &Tree,
) -> Result<(), NoMemory>
    ensures { OnOk result (GainsData items.old.items items.new.items (tree_data names tree.now ∷ [])) }
{
    let mut list = Vec::new(alloc);
    let mut waiting = Vec::new(alloc);
    waiting.push(tree)?;
    while let Some(next) = waiting.pop() {
        push_node(alloc, &mut list, names, &mut waiting, next)?;
    }
    items.push(Value::Array(list))?;
    Ok(())
}
