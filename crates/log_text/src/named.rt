//! How lines name transactions, by either names.
ghost use Rattle.std.specs.Prelude.{◌≡◌, ◌<◌, ◌^◌, IfSome};
ghost use Rattle.isolation_histories.specs.Split.{star};
ghost use Rattle.serde_json.specs.View.{view, items_view};
ghost use Rattle.log_text.specs.Items.{two_items, three_items};
ghost use Rattle.log_text.specs.Named.{commit_by, commit_named, event_key, half_at, half_with, id_at, id_in, id_with, if_low, key_read, low_number};
ghost use Rattle.log_text.specs.Numbers.{whole_number, session_of};
ghost use Rattle.log_text.specs.Streams.{IsRead, AreRead};

use crate::names::Names;
use crate::numbers::{session_of, whole_number};
use crate::streams::{number, session, word};
use isolation_histories::{Event, event_of};
use json::Reader;
use serde_json::Value;
use txn::{EPOCH, TxnId};

/// Transactions of which there are halves are numbered below it, and keys of which there are stars are below it.
const HIGH: u64 = 1 << 63;

fn if_low(number: u64) -> Option<u64>
    ensures form { result ≡ if_low number }
    ensures low { IfSome result (λ n. n < 2 ^ 63) }
{
    if number < HIGH { Some(number) } else { None }
}

/// Whether the word of an event is a commit's.
fn commit_named(word: &str) -> Option<bool>
    ensures { result ≡ commit_named word.now }
{
    match word {
        "begin" => Some(false),
        "commit" => Some(true),
        _ => None,
    }
}

fn half_with(session: u8, number: u64, commit: bool) -> TxnId
    requires { number < 2 ^ 63 }
    ensures { result ≡ half_with session number commit }
{
    let begin = 2 * number;
    TxnId {
        session,
        number: if commit { begin + 1 } else { begin },
    }
}

pub(crate) fn id_at(session: &Value, number: &Value) -> Option<TxnId>
    ensures { result ≡ id_at (view session.now) (view number.now) }
{
    Some(TxnId {
        session: session_of(session)?,
        number: whole_number(number)?,
    })
}

fn low_number(value: &Value) -> Option<u64>
    ensures form { result ≡ low_number (view value.now) }
    ensures low { IfSome result (λ n. n < 2 ^ 63) }
{
    if_low(whole_number(value)?)
}

fn commit_by(value: &Value) -> Option<bool>
    ensures { result ≡ commit_by (view value.now) }
{
    commit_named(value.as_str()?)
}

/// The half that stands for the event of this session, number and word.
pub(crate) fn half_at(session: &Value, number: &Value, word: &Value) -> Option<TxnId>
    ensures { result ≡ half_at (view session.now) (view number.now) (view word.now) }
{
    let session = session_of(session)?;
    let number = low_number(number)?;
    let commit = commit_by(word)?;
    Some(half_with(session, number, commit))
}

#[tactic(auto, using(crate::proofs::Arity::two_items_none))]
fn plain_id(items: &[Value]) -> Option<TxnId>
    ensures { result ≡ two_items id_with session_of whole_number (items_view items.now) }
{
    match items {
        [session, number] => id_at(session, number),
        _ => None,
    }
}

#[tactic(auto, using(crate::proofs::Arity::three_items_none))]
fn half_in(items: &[Value]) -> Option<TxnId>
    ensures { result ≡ three_items half_with session_of low_number commit_by (items_view items.now) }
{
    match items {
        [session, number, word] => half_at(session, number, word),
        _ => None,
    }
}

pub(crate) fn id_in(names: Names, items: &[Value]) -> Option<TxnId>
    ensures { result ≡ id_in names (items_view items.now) }
{
    match names {
        Names::Ids => plain_id(items),
        Names::Events => half_in(items),
    }
}

fn starred(key: u64) -> u64
    requires { key < 2 ^ 63 }
    ensures { result ≡ star key }
{
    if key == EPOCH { EPOCH } else { key + HIGH }
}

fn event_key(event: Event, key: u64) -> u64
    requires { key < 2 ^ 63 }
    ensures { result ≡ event_key event key }
{
    match event {
        Event::Begin(_) => key,
        Event::Commit(_) => starred(key),
    }
}

/// The key that a transaction has read, by what is told of it.
pub(crate) fn key_read(names: Names, reader: TxnId, key: u64) -> Option<u64>
    ensures { result ≡ key_read names reader key }
{
    match names {
        Names::Ids => Some(key),
        Names::Events => {
            let key = if_low(key)?;
            Some(event_key(event_of(reader), key))
        }
    }
}

fn next_low(reader: &mut Reader<'_>) -> Option<u64>
    ensures form { IsRead low_number 0 reader.old result reader.new }
    ensures low { IfSome result (λ n. n < 2 ^ 63) }
{
    if_low(number(reader)?)
}

fn next_commit(reader: &mut Reader<'_>) -> Option<bool>
    ensures { IsRead commit_by 0 reader.old result reader.new }
{
    match word(reader) {
        Some(word) => commit_named(word),
        None => None,
    }
}

fn plain_id_parts(reader: &mut Reader<'_>) -> Option<TxnId>
    ensures { AreRead (two_items id_with session_of whole_number) 0 reader.old result reader.new }
{
    let Some(session) = session(reader) else {
        return None;
    };
    let Some(number) = number(reader) else {
        return None;
    };
    if reader.take_end_array() {
        Some(TxnId { session, number })
    } else {
        None
    }
}

fn half_parts(reader: &mut Reader<'_>) -> Option<TxnId>
    ensures { AreRead (three_items half_with session_of low_number commit_by) 0 reader.old result reader.new }
{
    let Some(session) = session(reader) else {
        return None;
    };
    let Some(number) = next_low(reader) else {
        return None;
    };
    let Some(commit) = next_commit(reader) else {
        return None;
    };
    if reader.take_end_array() {
        Some(half_with(session, number, commit))
    } else {
        None
    }
}

/// The parts of a name, whose bracket was opened.
pub(crate) fn read_id_parts(names: Names, reader: &mut Reader<'_>) -> Option<TxnId>
    ensures { AreRead (id_in names) 0 reader.old result reader.new }
{
    match names {
        Names::Ids => plain_id_parts(reader),
        Names::Events => half_parts(reader),
    }
}
