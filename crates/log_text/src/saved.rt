//! The replies that give parts out, as values. Their lines are read as lines of a hand-over.
ghost use Rattle.std.specs.Prelude.{◌≡◌, [], ◌∷◌, IfOk, OnOk};
ghost use Rattle.serde_json.specs.Data.{boolean, string, array};
ghost use Rattle.serde_json.specs.View.{view, items_of};
ghost use Rattle.log_text.specs.Saved.{GainsData, list_data, number_data, writer_data, read_data, txn_data, saved_data};

use serde_json::Value;
use std::alloc::Global;
use txn::{Fragment, NoMemory, Sequence, Source, Txn, TxnId};

/// What is given out of an audit's parts.
#[derive(Drop, Debug)]
pub enum Saved {
    /// Of each session how many transactions are gone, and whether it is closed.
    Marks {
        marks: Sequence<u64>,
        closed: Sequence<bool>,
    },
    /// The same, and whether the begin of the next transaction is gone, so that its commit alone remains.
    MarksBegun {
        marks: Sequence<u64>,
        closed: Sequence<bool>,
        begun: Sequence<bool>,
    },
    /// Last gone writers, keys rising.
    Last(Sequence<(u64, TxnId)>),
    /// Transactions of a session that remain.
    Offer(Fragment),
}

fn numbers_value(alloc: Global, numbers: &[u64]) -> Result<Value, NoMemory>
    ensures { IfOk result (λ value. view value ≡ list_data number_data numbers.now) }
{
    let mut list = Vec::with_capacity(alloc, numbers.len())?;
    for number in numbers {
        list.push(Value::from(*number))?;
    }
    Ok(Value::Array(list))
}

fn flags_value(alloc: Global, flags: &[bool]) -> Result<Value, NoMemory>
    ensures { IfOk result (λ value. view value ≡ list_data boolean flags.now) }
{
    let mut list = Vec::with_capacity(alloc, flags.len())?;
    for flag in flags {
        list.push(Value::from(*flag))?;
    }
    Ok(Value::Array(list))
}

fn writer_value(alloc: Global, entry: (u64, TxnId)) -> Result<Value, NoMemory>
    ensures { IfOk result (λ value. view value ≡ writer_data entry) }
{
    let (key, id) = entry;
    numbers_value(alloc, &[key, u64::from(id.session), id.number])
}

fn writers_value(alloc: Global, writers: &[(u64, TxnId)]) -> Result<Value, NoMemory>
    ensures { IfOk result (λ value. view value ≡ list_data writer_data writers.now) }
{
    let mut list = Vec::with_capacity(alloc, writers.len())?;
    for entry in writers {
        list.push(writer_value(alloc, *entry)?)?;
    }
    Ok(Value::Array(list))
}

fn word_value(alloc: Global, word: &str) -> Result<Value, NoMemory>
    ensures { IfOk result (λ value. view value ≡ string word.now) }
{
    Ok(Value::from(word.to_string(alloc)?))
}

fn pair_value(alloc: Global, first: Value, second: Value) -> Result<Value, NoMemory>
    ensures { IfOk result (λ value. view value ≡ array (items_of (view first ∷ view second ∷ []))) }
{
    let mut pair = Vec::with_capacity(alloc, 2)?;
    pair.push(first)?;
    pair.push(second)?;
    Ok(Value::Array(pair))
}

fn read_value(alloc: Global, read: (u64, Source)) -> Result<Value, NoMemory>
    ensures { IfOk result (λ value. view value ≡ read_data read) }
{
    let (key, source) = read;
    match source {
        Source::Init => {
            let word = word_value(alloc, "init")?;
            pair_value(alloc, Value::from(key), word)
        }
        Source::By(writer) => {
            numbers_value(alloc, &[key, u64::from(writer.session), writer.number])
        }
    }
}

fn reads_value(alloc: Global, reads: &[(u64, Source)]) -> Result<Value, NoMemory>
    ensures { IfOk result (λ value. view value ≡ list_data read_data reads.now) }
{
    let mut list = Vec::with_capacity(alloc, reads.len())?;
    for read in reads {
        list.push(read_value(alloc, *read)?)?;
    }
    Ok(Value::Array(list))
}

fn txn_value(alloc: Global, txn: &Txn) -> Result<Value, NoMemory>
    ensures { IfOk result (λ value. view value ≡ txn_data txn.now) }
{
    let reads = reads_value(alloc, txn.reads.as_slice())?;
    let writes = numbers_value(alloc, txn.writes.as_slice())?;
    pair_value(alloc, reads, writes)
}

fn txns_value(alloc: Global, txns: &[Txn]) -> Result<Value, NoMemory>
    ensures { IfOk result (λ value. view value ≡ list_data txn_data txns.now) }
{
    let mut list = Vec::with_capacity(alloc, txns.len())?;
    for txn in txns {
        list.push(txn_value(alloc, txn)?)?;
    }
    Ok(Value::Array(list))
}

/// Puts the parts of the line at the end.
pub(crate) fn push_saved(
    alloc: Global,
    items: &mut Vec<Value>,
    saved: &Saved,
) -> Result<(), NoMemory>
    ensures { OnOk result (GainsData items.old.items items.new.items (saved_data saved.now)) }
{
    match saved {
        Saved::Marks { marks, closed } => {
            items.push(word_value(alloc, "marks")?)?;
            items.push(numbers_value(alloc, marks.as_slice())?)?;
            items.push(flags_value(alloc, closed.as_slice())?)?;
        }
        Saved::MarksBegun {
            marks,
            closed,
            begun,
        } => {
            items.push(word_value(alloc, "marks")?)?;
            items.push(numbers_value(alloc, marks.as_slice())?)?;
            items.push(flags_value(alloc, closed.as_slice())?)?;
            items.push(flags_value(alloc, begun.as_slice())?)?;
        }
        Saved::Last(last) => {
            items.push(word_value(alloc, "last")?)?;
            items.push(writers_value(alloc, last.as_slice())?)?;
        }
        Saved::Offer(fragment) => {
            items.push(word_value(alloc, "offer")?)?;
            items.push(Value::from(u64::from(fragment.session)))?;
            items.push(Value::from(fragment.first))?;
            items.push(txns_value(alloc, fragment.txns.as_slice())?)?;
        }
    }
    Ok(())
}
