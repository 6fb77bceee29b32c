//! By which names transactions are told.
ghost use Rattle.std.specs.Prelude.{◌≡◌, [], ◌∷◌, OnOk};
ghost use Rattle.serde_json.specs.Data.{string};
ghost use Rattle.log_text.specs.Names.{key_told};
ghost use Rattle.log_text.specs.Saved.{GainsData, list_data, number_data};
ghost use Rattle.log_text.specs.Told.{event_data, name_data, named_id_data};

use crate::lists::{push_each, push_word};
use isolation_histories::{Event, event_of, plain_key};
use serde_json::Value;
use std::alloc::Global;
use txn::{NoMemory, TxnId};

/// By their ids, or as halves of those that were split: by the events that these stand for, and keys without stars.
#[derive(Clone, Copy, Debug, PartialEq, Eq)]
pub enum Names {
    Ids,
    Events,
}

fn push_event_named(
    alloc: Global,
    items: &mut Vec<Value>,
    id: TxnId,
    word: &str,
) -> Result<(), NoMemory>
    ensures { OnOk result (GainsData items.old.items items.new.items (number_data id.session ∷ number_data id.number ∷ string word.now ∷ [])) }
{
    push_each(items, &[u64::from(id.session), id.number])?;
    push_word(alloc, items, word)
}

fn push_event(alloc: Global, items: &mut Vec<Value>, event: Event) -> Result<(), NoMemory>
    ensures { OnOk result (GainsData items.old.items items.new.items (event_data event)) }
{
    match event {
        Event::Begin(id) => push_event_named(alloc, items, id, "begin"),
        Event::Commit(id) => push_event_named(alloc, items, id, "commit"),
    }
}

/// Puts the parts of a transaction's name at the end.
pub(crate) fn push_name(
    alloc: Global,
    items: &mut Vec<Value>,
    names: Names,
    id: TxnId,
) -> Result<(), NoMemory>
    ensures { OnOk result (GainsData items.old.items items.new.items (name_data names id)) }
{
    match names {
        Names::Ids => push_each(items, &[u64::from(id.session), id.number]),
        Names::Events => {
            let event = event_of(id);
            push_event(alloc, items, event)
        }
    }
}

pub(crate) fn key_told(names: Names, key: u64) -> u64
    ensures { result ≡ key_told names key }
{
    match names {
        Names::Ids => key,
        Names::Events => plain_key(key),
    }
}

/// Puts a list at the end that is the transaction's name.
pub(crate) fn push_named(
    alloc: Global,
    items: &mut Vec<Value>,
    names: Names,
    id: TxnId,
) -> Result<(), NoMemory>
    ensures { OnOk result (GainsData items.old.items items.new.items (named_id_data names id ∷ [])) }
{
    let mut list = Vec::new(alloc);
    push_name(alloc, &mut list, names, id)?;
    items.push(Value::Array(list))?;
    Ok(())
}

/// Puts a list of such names at the end.
pub(crate) fn push_all_named(
    alloc: Global,
    items: &mut Vec<Value>,
    names: Names,
    ids: &[TxnId],
) -> Result<(), NoMemory>
    ensures { OnOk result (GainsData items.old.items items.new.items (list_data (named_id_data names) ids.now ∷ [])) }
{
    let mut list = Vec::new(alloc);
    for id in ids {
        push_named(alloc, &mut list, names, *id)?;
    }
    items.push(Value::Array(list))?;
    Ok(())
}
