//! What a line hands in to be judged, token by token.
ghost use Rattle.std.specs.Prelude.{◌≡◌, IfOk, MatchOption, map};
ghost use Rattle.log_text.specs.Answers.{handed_named, handed_in, IsShownBy, IsAnsweredAt};
ghost use Rattle.log_text.specs.Items.{each_of, list_of, one_item};
ghost use Rattle.log_text.specs.Owed.{tree_list};
ghost use Rattle.log_text.specs.Refutations.{AreNodesOf};
ghost use Rattle.log_text.specs.Shown.{id_of};
ghost use Rattle.log_text.specs.Streams.{IsRead, AreRead};
ghost use Rattle.log_text.specs.declared.answers.Handed.TheVariants as handed;
ghost use Rattle.log_text.specs.declared.shown.Shown.{Shown};

use crate::building::tree_of_items;
use crate::named::read_id_parts;
use crate::names::Names;
use crate::shown::Shown;
use crate::streams::{takes_array, word};
use crate::tree_items::TreeItem;
use crate::tree_tokens::read_nodes;
use json::Reader;
use std::alloc::Global;
use txn::{NoMemory, Sequence, TxnId};

/// What is handed in, before its items are put together.
#[derive(Drop)]
pub(crate) enum Handed {
    Order(Sequence<TxnId>),
    Nodes(Sequence<TreeItem>),
}

fn read_id(names: Names, reader: &mut Reader<'_>) -> Option<TxnId>
    ensures { IsRead (id_of names) 1 reader.old result reader.new }
{
    if takes_array(reader) {
        read_id_parts(names, reader)
    } else {
        None
    }
}

/// Ids up to the end of an array.
fn rest_of_ids(
    alloc: Global,
    names: Names,
    reader: &mut Reader<'_>,
) -> Result<Option<Sequence<TxnId>>, NoMemory>
    ensures { IfOk result (λ order. AreRead (each_of (id_of names)) 1 reader.old order reader.new) }
{
    let mut order = Vec::new(alloc);
    while !reader.take_end_array() {
        match read_id(names, reader) {
            Some(id) => order.push(id)?,
            None => return Ok(None),
        }
    }
    order.shrink_to_fit();
    Ok(Some(Sequence::new(order)))
}

fn read_order(
    alloc: Global,
    names: Names,
    reader: &mut Reader<'_>,
) -> Result<Option<Sequence<TxnId>>, NoMemory>
    ensures { IfOk result (λ order. IsRead (list_of (id_of names)) 2 reader.old order reader.new) }
{
    if takes_array(reader) {
        rest_of_ids(alloc, names, reader)
    } else {
        Ok(None)
    }
}

fn order_handed(
    alloc: Global,
    names: Names,
    reader: &mut Reader<'_>,
) -> Result<Option<Handed>, NoMemory>
    ensures { IfOk result (λ found. AreRead (one_item handed.Order (list_of (id_of names))) 4 reader.old found reader.new) }
{
    let Some(order) = read_order(alloc, names, reader)? else {
        return Ok(None);
    };
    if reader.take_end_array() {
        Ok(Some(Handed::Order(order)))
    } else {
        Ok(None)
    }
}

fn nodes_handed(
    alloc: Global,
    names: Names,
    reader: &mut Reader<'_>,
) -> Result<Option<Handed>, NoMemory>
    ensures { IfOk result (λ found. AreRead (one_item handed.Nodes (tree_list names)) 4 reader.old found reader.new) }
{
    let Some(nodes) = read_nodes(alloc, names, reader)? else {
        return Ok(None);
    };
    if reader.take_end_array() {
        Ok(Some(Handed::Nodes(nodes)))
    } else {
        Ok(None)
    }
}

fn handed_named(
    alloc: Global,
    names: Names,
    word: &str,
    reader: &mut Reader<'_>,
) -> Result<Option<Handed>, NoMemory>
    ensures { IfOk result (λ found. AreRead (handed_named names word.now) 4 reader.old found reader.new) }
{
    match word {
        "order" => order_handed(alloc, names, reader),
        "refuted" => nodes_handed(alloc, names, reader),
        _ => Ok(None),
    }
}

fn handed_in(
    alloc: Global,
    names: Names,
    reader: &mut Reader<'_>,
) -> Result<Option<Handed>, NoMemory>
    ensures { IfOk result (λ found. AreRead (handed_in names) 4 reader.old found reader.new) }
{
    match word(reader) {
        Some(word) => handed_named(alloc, names, word, reader),
        None => Ok(None),
    }
}

fn shown_by(alloc: Global, handed: Handed) -> Result<Option<Shown>, NoMemory>
    ensures { IfOk result (λ found. MatchOption found ((shown : Shown) → ¬ IsShownBy handed shown) (IsShownBy handed)) }
{
    match handed {
        Handed::Order(order) => Ok(Some(Shown::Order(order))),
        Handed::Nodes(nodes) => match tree_of_items(alloc, nodes.into_vec())? {
            Some(tree) => Ok(Some(Shown::Refuted(tree))),
            None => Ok(None),
        },
    }
}

/// What a line hands in, from behind its name to its end.
pub(crate) fn read_answer(
    alloc: Global,
    names: Names,
    reader: &mut Reader<'_>,
) -> Result<Option<Shown>, NoMemory>
    ensures { IfOk result (λ found. IsAnsweredAt names reader.old found) }
{
    let Some(handed) = handed_in(alloc, names, reader)? else {
        return Ok(None);
    };
    match reader.next() {
        Some(_) => Ok(None),
        None => shown_by(alloc, handed),
    }
}
