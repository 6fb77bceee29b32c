//! What is handed in to be judged: an order, or a tree that refutes.
ghost use Rattle.std.specs.Prelude.{◌≡◌, Option, IfOk, MatchOption, OnErr, IsUtf8, codes};
ghost use Rattle.serde_json.specs.Data.{string};
ghost use Rattle.serde_json.specs.View.{view, items_view};
ghost use Rattle.refutation.specs.declared.trees.Tree.{Tree};
ghost use Rattle.log_text.specs.Items.{list_of};
ghost use Rattle.log_text.specs.Refutations.{IsTree};
ghost use Rattle.log_text.specs.ReadBack.{IsSameShown};
ghost use Rattle.log_text.specs.Shown.{ShownOrNone, id_of, Shows, ShowsAs, Reports, ReportsBy, IsReportOf, IsShownIn};
ghost use Rattle.log_text.specs.declared.shown.Shown.{Shown};

use crate::building::tree_of_items;
use crate::named::id_in;
use crate::names::Names;
use crate::tree_items::nodes_of;
use refutation::Tree;
use serde_json::Value;
use std::alloc::{AllocError, Global};
use txn::{NoMemory, Sequence, TxnId};

/// What a certificate shows. Nothing is known of it before it is judged.
#[derive(Drop, Debug)]
pub enum Shown {
    /// An order that is to explain the history.
    Order(Sequence<TxnId>),
    /// A tree that is to show that no order explains it.
    Refuted(Tree),
}

fn id_of(names: Names, value: &Value) -> Option<TxnId>
    ensures { result ≡ id_of names (view value.now) }
{
    id_in(names, value.as_array()?.as_slice())
}

fn order_of(alloc: Global, names: Names, value: &Value) -> Result<Option<Sequence<TxnId>>, NoMemory>
    ensures { IfOk result (λ order. order ≡ list_of (id_of names) (view value.now)) }
{
    let Some(items) = value.as_array() else {
        return Ok(None);
    };
    let mut order = Vec::with_capacity(alloc, items.len())?;
    for item in items {
        match id_of(names, item) {
            Some(id) => order.push(id)?,
            None => return Ok(None),
        }
    }
    Ok(Some(Sequence::new(order)))
}

fn tree_of(alloc: Global, names: Names, value: &Value) -> Result<Option<Tree>, NoMemory>
    ensures { IfOk result (λ found. MatchOption found ((tree : Tree) → ¬ IsTree names (view value.now) tree) (IsTree names (view value.now))) }
{
    match nodes_of(alloc, names, value)? {
        Some(nodes) => tree_of_items(alloc, nodes.into_vec()),
        None => Ok(None),
    }
}

fn order_shown(alloc: Global, names: Names, given: &Value) -> Result<Option<Shown>, NoMemory>
    ensures { IfOk result (ShownOrNone (Shows names (string (codes "order")) (view given.now))) }
{
    match order_of(alloc, names, given)? {
        Some(order) => Ok(Some(Shown::Order(order))),
        None => Ok(None),
    }
}

fn tree_shown(alloc: Global, names: Names, given: &Value) -> Result<Option<Shown>, NoMemory>
    ensures { IfOk result (ShownOrNone (Shows names (string (codes "refuted")) (view given.now))) }
{
    match tree_of(alloc, names, given)? {
        Some(tree) => Ok(Some(Shown::Refuted(tree))),
        None => Ok(None),
    }
}

/// What a report of this kind shows.
fn shown_by(
    alloc: Global,
    names: Names,
    kind: &str,
    given: &Value,
) -> Result<Option<Shown>, NoMemory>
    ensures { IfOk result (ShownOrNone (ShowsAs names (string kind.now) (view given.now))) }
{
    match kind {
        "serial" => order_shown(alloc, names, given),
        "pending" => order_shown(alloc, names, given),
        "violated" => tree_shown(alloc, names, given),
        _ => Ok(None),
    }
}

fn reported(
    alloc: Global,
    names: Names,
    name: &Value,
    kind: &Value,
    given: &Value,
) -> Result<Option<Shown>, NoMemory>
    ensures { IfOk result (ShownOrNone (ReportsBy names (view name.now) (view kind.now) (view given.now))) }
{
    let Some(name) = name.as_str() else {
        return Ok(None);
    };
    let Some(kind) = kind.as_str() else {
        return Ok(None);
    };
    if name != "report" {
        return Ok(None);
    }
    shown_by(alloc, names, kind, given)
}

#[tactic(auto, using(crate::proofs::Arity::reports_none))]
fn report_in(alloc: Global, names: Names, items: &[Value]) -> Result<Option<Shown>, NoMemory>
    ensures { IfOk result (ShownOrNone (Reports names (items_view items.now))) }
{
    match items {
        [name, _, kind, _, given] => reported(alloc, names, name, kind, given),
        _ => Ok(None),
    }
}

fn report_of(alloc: Global, names: Names, value: &Value) -> Result<Option<Shown>, NoMemory>
    ensures { IfOk result (ShownOrNone (IsReportOf names (view value.now))) }
{
    match value.as_array() {
        Some(items) => report_in(alloc, names, items.as_slice()),
        None => Ok(None),
    }
}

/// What the text of a reply shows, where it is a report's that tells of transactions by these names: the order or the tree that it ends in, of
/// halves where it tells of begins and commits. It is the only one that the text shows, and is none the truer for that. NoMemory may take its place where the text is UTF-8: it is answered where room for what is read of
/// the text is refused.
pub fn read_shown(alloc: Global, names: Names, reply: &[u8]) -> Result<Option<Shown>, NoMemory>
    ensures shown { IfOk result (IsShownIn names reply.now) }
    ensures only { IfOk result (λ found. (other : Option Shown) → IsShownIn names reply.now other → IsSameShown found other) }
    ensures err { OnErr result (IsUtf8 reply.now) }
{
    let Ok(text) = std::str::from_utf8(reply) else {
        return Ok(None);
    };
    match Value::from_str(alloc, text) {
        Ok(value) => report_of(alloc, names, &value),
        Err(error) if error.is_memory() => Err(AllocError),
        Err(_) => Ok(None),
    }
}
