//! The list that a tree is in a line, token by token.
ghost use Rattle.std.specs.Prelude.{◌≡◌, ◌<◌, ◌≤◌, ◌^◌, ◌-◌, IfOk, option_map};
ghost use Rattle.log_text.specs.Items.{each_of, list_of, one_item};
ghost use Rattle.log_text.specs.Owed.{owed_behind, nodes_in, tree_list};
ghost use Rattle.log_text.specs.Refutations.{choice_of, side_of, arc_of, step_in, reader_in, node_named, node_in, node_of};
ghost use Rattle.log_text.specs.Streams.{IsRead, AreRead};
ghost use Rattle.log_text.specs.declared.tree_items.TreeItem.TheVariants as node;
ghost use Rattle.refutation.specs.declared.trees.Leaf.TheVariants as leaf;

use crate::names::Names;
use crate::streams::{atoms, few, number, takes_array, word};
use crate::tree_items::{TreeItem, arc_in, choice_in, reader_in, side_numbered};
use json::Reader;
use refutation::Leaf;
use std::alloc::Global;
use txn::{Arc, Choice, ForceStep, NoMemory, Sequence, Side, TxnId};

/// A choice has no more parts, by either names, nor does an arc, or a reader with its key.
const MOST_IN_CHOICE: usize = 10;

const MOST_IN_ARC: usize = 8;

const MOST_IN_READER: usize = 4;

fn read_choice(
    alloc: Global,
    names: Names,
    reader: &mut Reader<'_>,
) -> Result<Option<Choice>, NoMemory>
    ensures { IfOk result (λ choice. IsRead (choice_of names) 1 reader.old choice reader.new) }
{
    match few(alloc, reader, MOST_IN_CHOICE)? {
        Some(values) => Ok(choice_in(names, values.as_slice())),
        None => Ok(None),
    }
}

fn read_side(reader: &mut Reader<'_>) -> Option<Side>
    ensures { IsRead side_of 0 reader.old result reader.new }
{
    side_numbered(number(reader)?)
}

fn read_arc(alloc: Global, names: Names, reader: &mut Reader<'_>) -> Result<Option<Arc>, NoMemory>
    ensures { IfOk result (λ arc. IsRead (arc_of names) 1 reader.old arc reader.new) }
{
    match few(alloc, reader, MOST_IN_ARC)? {
        Some(values) => Ok(arc_in(names, values.as_slice())),
        None => Ok(None),
    }
}

/// Arcs up to the end of an array.
fn rest_of_arcs(
    alloc: Global,
    names: Names,
    reader: &mut Reader<'_>,
) -> Result<Option<Sequence<Arc>>, NoMemory>
    ensures { IfOk result (λ arcs. AreRead (each_of (arc_of names)) 1 reader.old arcs reader.new) }
{
    let mut arcs = Vec::new(alloc);
    while !reader.take_end_array() {
        match read_arc(alloc, names, reader)? {
            Some(arc) => arcs.push(arc)?,
            None => return Ok(None),
        }
    }
    arcs.shrink_to_fit();
    Ok(Some(Sequence::new(arcs)))
}

fn read_cycle(
    alloc: Global,
    names: Names,
    reader: &mut Reader<'_>,
) -> Result<Option<Sequence<Arc>>, NoMemory>
    ensures { IfOk result (λ arcs. IsRead (list_of (arc_of names)) 2 reader.old arcs reader.new) }
{
    if takes_array(reader) {
        rest_of_arcs(alloc, names, reader)
    } else {
        Ok(None)
    }
}

/// The parts of a forced step, up to the bracket that closes it.
fn read_step(
    alloc: Global,
    names: Names,
    reader: &mut Reader<'_>,
) -> Result<Option<ForceStep>, NoMemory>
    ensures { IfOk result (λ step. AreRead (step_in names) 2 reader.old step reader.new) }
{
    let Some(choice) = read_choice(alloc, names, reader)? else {
        return Ok(None);
    };
    let Some(side) = read_side(reader) else {
        return Ok(None);
    };
    let Some(cycle) = read_cycle(alloc, names, reader)? else {
        return Ok(None);
    };
    if reader.take_end_array() {
        Ok(Some(ForceStep {
            choice,
            side,
            cycle,
        }))
    } else {
        Ok(None)
    }
}

fn read_force(
    alloc: Global,
    names: Names,
    reader: &mut Reader<'_>,
) -> Result<Option<TreeItem>, NoMemory>
    ensures { IfOk result (λ found. AreRead (λ parts. option_map node.Force (step_in names parts)) 2 reader.old found reader.new) }
{
    match read_step(alloc, names, reader)? {
        Some(step) => Ok(Some(TreeItem::Force(step))),
        None => Ok(None),
    }
}

fn read_split(
    alloc: Global,
    names: Names,
    reader: &mut Reader<'_>,
) -> Result<Option<TreeItem>, NoMemory>
    ensures { IfOk result (λ found. AreRead (one_item node.Split (choice_of names)) 2 reader.old found reader.new) }
{
    let Some(choice) = read_choice(alloc, names, reader)? else {
        return Ok(None);
    };
    if reader.take_end_array() {
        Ok(Some(TreeItem::Split(choice)))
    } else {
        Ok(None)
    }
}

fn read_cycle_leaf(
    alloc: Global,
    names: Names,
    reader: &mut Reader<'_>,
) -> Result<Option<TreeItem>, NoMemory>
    ensures { IfOk result (λ found. AreRead (one_item (λ arcs. node.Close (leaf.Cycle arcs)) (list_of (arc_of names))) 2 reader.old found reader.new) }
{
    let Some(arcs) = read_cycle(alloc, names, reader)? else {
        return Ok(None);
    };
    if reader.take_end_array() {
        Ok(Some(TreeItem::Close(Leaf::Cycle(arcs))))
    } else {
        Ok(None)
    }
}

/// A reader and its key, up to the bracket that closes their leaf.
fn read_reader(
    alloc: Global,
    names: Names,
    reader: &mut Reader<'_>,
) -> Result<Option<(TxnId, u64)>, NoMemory>
    ensures { IfOk result (λ found. AreRead (reader_in names) 2 reader.old found reader.new) }
{
    match atoms(alloc, reader, MOST_IN_READER)? {
        Some(values) => Ok(reader_in(names, values.as_slice())),
        None => Ok(None),
    }
}

fn read_no_write(
    alloc: Global,
    names: Names,
    reader: &mut Reader<'_>,
) -> Result<Option<TreeItem>, NoMemory>
    ensures { IfOk result (λ found. AreRead (λ parts. option_map (λ r. node.Close (leaf.NoWrite r.0 r.1)) (reader_in names parts)) 2 reader.old found reader.new) }
{
    match read_reader(alloc, names, reader)? {
        Some((reader, key)) => Ok(Some(TreeItem::Close(Leaf::NoWrite(reader, key)))),
        None => Ok(None),
    }
}

fn read_gone(
    alloc: Global,
    names: Names,
    reader: &mut Reader<'_>,
) -> Result<Option<TreeItem>, NoMemory>
    ensures { IfOk result (λ found. AreRead (λ parts. option_map (λ r. node.Close (leaf.Gone r.0 r.1)) (reader_in names parts)) 2 reader.old found reader.new) }
{
    match read_reader(alloc, names, reader)? {
        Some((reader, key)) => Ok(Some(TreeItem::Close(Leaf::Gone(reader, key)))),
        None => Ok(None),
    }
}

fn read_named(
    alloc: Global,
    names: Names,
    name: &str,
    reader: &mut Reader<'_>,
) -> Result<Option<TreeItem>, NoMemory>
    ensures { IfOk result (λ found. AreRead (node_named names name.now) 2 reader.old found reader.new) }
{
    match name {
        "force" => read_force(alloc, names, reader),
        "split" => read_split(alloc, names, reader),
        "cycle" => read_cycle_leaf(alloc, names, reader),
        "nowrite" => read_no_write(alloc, names, reader),
        "gone" => read_gone(alloc, names, reader),
        _ => Ok(None),
    }
}

/// An item's word and parts, whose bracket was opened.
fn read_node_parts(
    alloc: Global,
    names: Names,
    reader: &mut Reader<'_>,
) -> Result<Option<TreeItem>, NoMemory>
    ensures { IfOk result (λ found. AreRead (node_in names) 2 reader.old found reader.new) }
{
    match word(reader) {
        Some(name) => read_named(alloc, names, name, reader),
        None => Ok(None),
    }
}

fn read_node(
    alloc: Global,
    names: Names,
    reader: &mut Reader<'_>,
) -> Result<Option<TreeItem>, NoMemory>
    ensures { IfOk result (λ found. IsRead (node_of names) 3 reader.old found reader.new) }
{
    if takes_array(reader) {
        read_node_parts(alloc, names, reader)
    } else {
        Ok(None)
    }
}

/// How many trees are owed behind an item, where so many are owed with it.
fn owed_behind(owed: usize, node: &TreeItem) -> usize
    requires { (0 < owed) × (owed ≤ 2 ^ 63) }
    ensures { result ≡ owed_behind (owed - 1) node.now }
{
    match node {
        TreeItem::Force(_) => owed,
        TreeItem::Split(_) => owed + 1,
        TreeItem::Close(_) => owed - 1,
    }
}

/// The items of a tree up to the end of an array: where its last one was read, no other is.
fn rest_of_nodes(
    alloc: Global,
    names: Names,
    reader: &mut Reader<'_>,
) -> Result<Option<Sequence<TreeItem>>, NoMemory>
    ensures { IfOk result (λ nodes. AreRead (nodes_in names 1) 3 reader.old nodes reader.new) }
{
    let mut nodes = Vec::new(alloc);
    let mut owed = 1;
    while !reader.take_end_array() {
        if owed == 0 {
            return Ok(None);
        }
        match read_node(alloc, names, reader)? {
            Some(node) => {
                owed = owed_behind(owed, &node);
                nodes.push(node)?;
            }
            None => return Ok(None),
        }
    }
    nodes.shrink_to_fit();
    Ok(Some(Sequence::new(nodes)))
}

/// The items of a list, where they may be those of one tree.
pub(crate) fn read_nodes(
    alloc: Global,
    names: Names,
    reader: &mut Reader<'_>,
) -> Result<Option<Sequence<TreeItem>>, NoMemory>
    ensures { IfOk result (λ nodes. IsRead (tree_list names) 4 reader.old nodes reader.new) }
{
    if takes_array(reader) {
        rest_of_nodes(alloc, names, reader)
    } else {
        Ok(None)
    }
}
