//! The items of the list that a tree is in a line, and in a reply.
ghost use Rattle.std.specs.Prelude.{◌≡◌, IfOk, option_map};
ghost use Rattle.serde_json.specs.View.{view, items_view};
ghost use Rattle.log_text.specs.Items.{list_of, one_item};
ghost use Rattle.log_text.specs.Refutations.{choice_with, choice_in, choice_of, side_numbered, side_of, ends_in, keyed_ends_in, read_arc, base_arc, arc_named, arc_in, arc_of, step_in, reader_with, reader_in, node_named, node_in, node_of};
ghost use Rattle.log_text.specs.declared.names.Names.TheVariants.{Ids, Events};
ghost use Rattle.log_text.specs.declared.tree_items.TreeItem.TheVariants as node;
ghost use Rattle.refutation.specs.declared.trees.Leaf.TheVariants as leaf;

use crate::named::{half_at, id_at, key_read};
use crate::names::Names;
use crate::numbers::whole_number;
use refutation::Leaf;
use serde_json::Value;
use std::alloc::Global;
use txn::{Arc, Choice, ForceStep, NoMemory, Sequence, Side, TxnId};

/// An item of the list that a tree is.
#[derive(Drop)]
pub(crate) enum TreeItem {
    /// One forced step, which stands before the items of the rest.
    Force(ForceStep),
    /// A split, which stands before the items of both halves, the first half's first.
    Split(Choice),
    /// A leaf.
    Close(Leaf),
}

fn choice_with(
    names: Names,
    reader: Option<TxnId>,
    key: Option<u64>,
    writer: Option<TxnId>,
    other: Option<TxnId>,
) -> Option<Choice>
    ensures { result ≡ choice_with names reader key writer other }
{
    let reader = reader?;
    let told = key?;
    let writer = writer?;
    let other = other?;
    Some(Choice {
        reader,
        key: key_read(names, reader, told)?,
        writer,
        other,
    })
}

#[tactic(auto, using(crate::proofs::Arity::choice_none))]
fn choice_of_ids(items: &[Value]) -> Option<Choice>
    ensures { result ≡ choice_in Ids (items_view items.now) }
{
    match items {
        [rs, rn, key, ws, wn, os, on] => choice_with(
            Names::Ids,
            id_at(rs, rn),
            whole_number(key),
            id_at(ws, wn),
            id_at(os, on),
        ),
        _ => None,
    }
}

#[tactic(auto, using(crate::proofs::Arity::events_choice_none))]
fn choice_of_events(items: &[Value]) -> Option<Choice>
    ensures { result ≡ choice_in Events (items_view items.now) }
{
    match items {
        [rs, rn, rw, key, ws, wn, ww, os, on, ow] => choice_with(
            Names::Events,
            half_at(rs, rn, rw),
            whole_number(key),
            half_at(ws, wn, ww),
            half_at(os, on, ow),
        ),
        _ => None,
    }
}

pub(crate) fn choice_in(names: Names, items: &[Value]) -> Option<Choice>
    ensures { result ≡ choice_in names (items_view items.now) }
{
    match names {
        Names::Ids => choice_of_ids(items),
        Names::Events => choice_of_events(items),
    }
}

fn choice_of(names: Names, value: &Value) -> Option<Choice>
    ensures { result ≡ choice_of names (view value.now) }
{
    choice_in(names, value.as_array()?.as_slice())
}

pub(crate) fn side_numbered(number: u64) -> Option<Side>
    ensures { result ≡ side_numbered number }
{
    if number == 1 {
        Some(Side::First)
    } else if number == 2 {
        Some(Side::Second)
    } else {
        None
    }
}

fn side_of(value: &Value) -> Option<Side>
    ensures { result ≡ side_of (view value.now) }
{
    side_numbered(whole_number(value)?)
}

#[tactic(auto, using(crate::proofs::Arity::ends_none))]
fn ends_of_ids(items: &[Value]) -> Option<(TxnId, TxnId)>
    ensures { result ≡ ends_in Ids (items_view items.now) }
{
    match items {
        [fs, fn_, ts, tn] => Some((id_at(fs, fn_)?, id_at(ts, tn)?)),
        _ => None,
    }
}

#[tactic(auto, using(crate::proofs::Arity::events_ends_none))]
fn ends_of_events(items: &[Value]) -> Option<(TxnId, TxnId)>
    ensures { result ≡ ends_in Events (items_view items.now) }
{
    match items {
        [fs, fn_, fw, ts, tn, tw] => Some((half_at(fs, fn_, fw)?, half_at(ts, tn, tw)?)),
        _ => None,
    }
}

fn ends_in(names: Names, items: &[Value]) -> Option<(TxnId, TxnId)>
    ensures { result ≡ ends_in names (items_view items.now) }
{
    match names {
        Names::Ids => ends_of_ids(items),
        Names::Events => ends_of_events(items),
    }
}

fn keyed_ends_in(names: Names, items: &[Value]) -> Option<(u64, (TxnId, TxnId))>
    ensures { result ≡ keyed_ends_in names (items_view items.now) }
{
    match items {
        [key, ends @ ..] => Some((whole_number(key)?, ends_in(names, ends)?)),
        [] => None,
    }
}

/// The end has read the key from the start.
fn read_arc(names: Names, told: u64, from: TxnId, to: TxnId) -> Option<Arc>
    ensures { result ≡ read_arc names (told, (from, to)) }
{
    Some(Arc::Read {
        key: key_read(names, to, told)?,
        from,
        to,
    })
}

/// The start has read the key as it was before everything that remains.
fn base_arc(names: Names, told: u64, from: TxnId, to: TxnId) -> Option<Arc>
    ensures { result ≡ base_arc names (told, (from, to)) }
{
    Some(Arc::Base {
        key: key_read(names, from, told)?,
        from,
        to,
    })
}

fn arc_named(names: Names, name: &str, parts: &[Value]) -> Option<Arc>
    ensures { result ≡ arc_named names name.now (items_view parts.now) }
{
    match name {
        "session" => {
            let (from, to) = ends_in(names, parts)?;
            Some(Arc::Session { from, to })
        }
        "read" => {
            let (key, (from, to)) = keyed_ends_in(names, parts)?;
            read_arc(names, key, from, to)
        }
        "base" => {
            let (key, (from, to)) = keyed_ends_in(names, parts)?;
            base_arc(names, key, from, to)
        }
        "taken" => {
            let (from, to) = ends_in(names, parts)?;
            Some(Arc::Taken { from, to })
        }
        _ => None,
    }
}

pub(crate) fn arc_in(names: Names, items: &[Value]) -> Option<Arc>
    ensures { result ≡ arc_in names (items_view items.now) }
{
    let [name, parts @ ..] = items else {
        return None;
    };
    arc_named(names, name.as_str()?, parts)
}

fn arc_of(names: Names, value: &Value) -> Option<Arc>
    ensures { result ≡ arc_of names (view value.now) }
{
    arc_in(names, value.as_array()?.as_slice())
}

fn cycle_of(alloc: Global, names: Names, value: &Value) -> Result<Option<Sequence<Arc>>, NoMemory>
    ensures { IfOk result (λ arcs. arcs ≡ list_of (arc_of names) (view value.now)) }
{
    let Some(items) = value.as_array() else {
        return Ok(None);
    };
    let mut arcs = Vec::with_capacity(alloc, items.len())?;
    for item in items {
        match arc_of(names, item) {
            Some(arc) => arcs.push(arc)?,
            None => return Ok(None),
        }
    }
    Ok(Some(Sequence::new(arcs)))
}

#[tactic(auto, using(crate::proofs::Arity::three_items_none))]
fn step_in(alloc: Global, names: Names, items: &[Value]) -> Result<Option<ForceStep>, NoMemory>
    ensures { IfOk result (λ step. step ≡ step_in names (items_view items.now)) }
{
    let [choice, side, cycle] = items else {
        return Ok(None);
    };
    let (Some(choice), Some(side)) = (choice_of(names, choice), side_of(side)) else {
        return Ok(None);
    };
    match cycle_of(alloc, names, cycle)? {
        Some(cycle) => Ok(Some(ForceStep {
            choice,
            side,
            cycle,
        })),
        None => Ok(None),
    }
}

fn reader_with(names: Names, reader: Option<TxnId>, key: Option<u64>) -> Option<(TxnId, u64)>
    ensures { result ≡ reader_with names reader key }
{
    let reader = reader?;
    let told = key?;
    Some((reader, key_read(names, reader, told)?))
}

#[tactic(auto, using(crate::proofs::Arity::reader_none))]
fn reader_of_ids(items: &[Value]) -> Option<(TxnId, u64)>
    ensures { result ≡ reader_in Ids (items_view items.now) }
{
    match items {
        [session, number, key] => {
            reader_with(Names::Ids, id_at(session, number), whole_number(key))
        }
        _ => None,
    }
}

#[tactic(auto, using(crate::proofs::Arity::events_reader_none))]
fn reader_of_events(items: &[Value]) -> Option<(TxnId, u64)>
    ensures { result ≡ reader_in Events (items_view items.now) }
{
    match items {
        [session, number, word, key] => {
            reader_with(
                Names::Events,
                half_at(session, number, word),
                whole_number(key),
            )
        }
        _ => None,
    }
}

pub(crate) fn reader_in(names: Names, items: &[Value]) -> Option<(TxnId, u64)>
    ensures { result ≡ reader_in names (items_view items.now) }
{
    match names {
        Names::Ids => reader_of_ids(items),
        Names::Events => reader_of_events(items),
    }
}

fn force_in(alloc: Global, names: Names, items: &[Value]) -> Result<Option<TreeItem>, NoMemory>
    ensures { IfOk result (λ found. found ≡ option_map node.Force (step_in names (items_view items.now))) }
{
    match step_in(alloc, names, items)? {
        Some(step) => Ok(Some(TreeItem::Force(step))),
        None => Ok(None),
    }
}

#[tactic(auto, using(crate::proofs::Arity::one_item_none))]
fn split_in(names: Names, items: &[Value]) -> Option<TreeItem>
    ensures { result ≡ one_item node.Split (choice_of names) (items_view items.now) }
{
    match items {
        [choice] => Some(TreeItem::Split(choice_of(names, choice)?)),
        _ => None,
    }
}

#[tactic(auto, using(crate::proofs::Arity::one_item_none))]
fn cycle_in(alloc: Global, names: Names, items: &[Value]) -> Result<Option<TreeItem>, NoMemory>
    ensures { IfOk result (λ found. found ≡ one_item (λ arcs. node.Close (leaf.Cycle arcs)) (list_of (arc_of names)) (items_view items.now)) }
{
    let [cycle] = items else {
        return Ok(None);
    };
    match cycle_of(alloc, names, cycle)? {
        Some(arcs) => Ok(Some(TreeItem::Close(Leaf::Cycle(arcs)))),
        None => Ok(None),
    }
}

fn no_write_in(names: Names, items: &[Value]) -> Option<TreeItem>
    ensures { result ≡ option_map (λ r. node.Close (leaf.NoWrite r.0 r.1)) (reader_in names (items_view items.now)) }
{
    let (reader, key) = reader_in(names, items)?;
    Some(TreeItem::Close(Leaf::NoWrite(reader, key)))
}

fn gone_in(names: Names, items: &[Value]) -> Option<TreeItem>
    ensures { result ≡ option_map (λ r. node.Close (leaf.Gone r.0 r.1)) (reader_in names (items_view items.now)) }
{
    let (reader, key) = reader_in(names, items)?;
    Some(TreeItem::Close(Leaf::Gone(reader, key)))
}

fn node_named(
    alloc: Global,
    names: Names,
    name: &str,
    parts: &[Value],
) -> Result<Option<TreeItem>, NoMemory>
    ensures { IfOk result (λ found. found ≡ node_named names name.now (items_view parts.now)) }
{
    match name {
        "force" => force_in(alloc, names, parts),
        "split" => Ok(split_in(names, parts)),
        "cycle" => cycle_in(alloc, names, parts),
        "nowrite" => Ok(no_write_in(names, parts)),
        "gone" => Ok(gone_in(names, parts)),
        _ => Ok(None),
    }
}

fn node_in(alloc: Global, names: Names, items: &[Value]) -> Result<Option<TreeItem>, NoMemory>
    ensures { IfOk result (λ found. found ≡ node_in names (items_view items.now)) }
{
    let [name, parts @ ..] = items else {
        return Ok(None);
    };
    match name.as_str() {
        Some(name) => node_named(alloc, names, name, parts),
        None => Ok(None),
    }
}

fn node_of(alloc: Global, names: Names, value: &Value) -> Result<Option<TreeItem>, NoMemory>
    ensures { IfOk result (λ found. found ≡ node_of names (view value.now)) }
{
    match value.as_array() {
        Some(items) => node_in(alloc, names, items.as_slice()),
        None => Ok(None),
    }
}

/// The items of a list, where each is one that a tree may have.
pub(crate) fn nodes_of(
    alloc: Global,
    names: Names,
    value: &Value,
) -> Result<Option<Sequence<TreeItem>>, NoMemory>
    ensures { IfOk result (λ nodes. nodes ≡ list_of (node_of names) (view value.now)) }
{
    let Some(items) = value.as_array() else {
        return Ok(None);
    };
    let mut nodes = Vec::with_capacity(alloc, items.len())?;
    for item in items {
        match node_of(alloc, names, item)? {
            Some(node) => nodes.push(node)?,
            None => return Ok(None),
        }
    }
    Ok(Some(Sequence::new(nodes)))
}
