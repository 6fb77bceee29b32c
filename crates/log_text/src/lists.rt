ghost use Rattle.std.specs.Prelude.{[], ◌∷◌, OnOk, map};
ghost use Rattle.serde_json.specs.Data.{boolean, string};
ghost use Rattle.log_text.specs.Saved.{GainsData, list_data, number_data, writer_data};

use serde_json::Value;
use std::alloc::Global;
use txn::{NoMemory, TxnId};

/// Puts a word at the end of a list.
pub(crate) fn push_word(alloc: Global, items: &mut Vec<Value>, word: &str) -> Result<(), NoMemory>
    ensures { OnOk result (GainsData items.old.items items.new.items (string word.now ∷ [])) }
{
    let word = word.to_string(alloc)?;
    items.push(Value::from(word))?;
    Ok(())
}

/// Puts numbers at the end of a list, one after another.
pub(crate) fn push_each(items: &mut Vec<Value>, numbers: &[u64]) -> Result<(), NoMemory>
    ensures { OnOk result (GainsData items.old.items items.new.items (map number_data numbers.now)) }
{
    for number in numbers {
        items.push(Value::from(*number))?;
    }
    Ok(())
}

/// Puts a list of numbers at the end of a list.
pub(crate) fn push_numbers(
    alloc: Global,
    items: &mut Vec<Value>,
    numbers: &[u64],
) -> Result<(), NoMemory>
    ensures { OnOk result (GainsData items.old.items items.new.items (list_data number_data numbers.now ∷ [])) }
{
    let mut list = Vec::new(alloc);
    push_each(&mut list, numbers)?;
    items.push(Value::Array(list))?;
    Ok(())
}

/// Puts a list of flags at the end of a list.
pub(crate) fn push_flags(
    alloc: Global,
    items: &mut Vec<Value>,
    flags: &[bool],
) -> Result<(), NoMemory>
    ensures { OnOk result (GainsData items.old.items items.new.items (list_data boolean flags.now ∷ [])) }
{
    let mut list = Vec::new(alloc);
    for flag in flags {
        list.push(Value::from(*flag))?;
    }
    items.push(Value::Array(list))?;
    Ok(())
}

/// Puts a list of keys with their last writers at the end of a list.
pub(crate) fn push_writers(
    alloc: Global,
    items: &mut Vec<Value>,
    writers: &[(u64, TxnId)],
) -> Result<(), NoMemory>
    ensures { OnOk result (GainsData items.old.items items.new.items (list_data writer_data writers.now ∷ [])) }
{
    let mut list = Vec::new(alloc);
    for (key, id) in writers {
        let entry = [*key, u64::from(id.session), id.number];
        push_numbers(alloc, &mut list, &entry)?;
    }
    items.push(Value::Array(list))?;
    Ok(())
}
