//! The fragment that an offer or a join has, read token by token.
ghost use Rattle.std.specs.Prelude.{◌≡◌, IfOk, OnOk, option_map};
ghost use Rattle.serde_json.specs.View.{view, items_view};
ghost use Rattle.log_text.specs.Items.{each_of, list_of, one_item};
ghost use Rattle.log_text.specs.Numbers.{whole_number, session_of};
ghost use Rattle.log_text.specs.Commands.{init_of, source_in, read_in, read_of, aborted_by, aborted_in, txn_in, txn_of};
ghost use Rattle.log_text.specs.Streams.{IsRead, AreRead};
ghost use Rattle.log_text.specs.Kept.{has_room, with_one_more, kept, txns_of, made, behind_in, behind_of, joined_within};

use crate::numbers::{session_of, whole_number};
use crate::streams::{
    atoms, exact, few, number, number_at, numbers, opens_array, session, takes_array,
};
use json::Reader;
use logged_fragments::LoggedFragment;
use serde_json::Value;
use std::alloc::Global;
use txn::{Fragment, NoMemory, Sequence, Source, Txn, TxnId};

/// What stands behind the session of a join.
#[derive(Drop)]
enum Behind {
    /// A number, which the fragment begins with.
    First(u64),
    /// The transactions that are kept, and for each that was told whether it aborted.
    Txns(Sequence<Txn>, Sequence<bool>),
}

fn init_of(value: &Value) -> Option<Source>
    ensures { result ≡ init_of (view value.now) }
{
    if value.as_str()? == "init" {
        Some(Source::Init)
    } else {
        None
    }
}

#[tactic(auto, using(crate::proofs::Arity::source_none))]
fn source_in(items: &[Value]) -> Option<Source>
    ensures { result ≡ source_in (items_view items.now) }
{
    match items {
        [source] => init_of(source),
        [session, number] => Some(Source::By(TxnId {
            session: session_of(session)?,
            number: whole_number(number)?,
        })),
        _ => None,
    }
}

fn read_in(items: &[Value]) -> Option<(u64, Source)>
    ensures { result ≡ read_in (items_view items.now) }
{
    match items {
        [key, source @ ..] => Some((whole_number(key)?, source_in(source)?)),
        [] => None,
    }
}

fn read(alloc: Global, reader: &mut Reader<'_>) -> Result<Option<(u64, Source)>, NoMemory>
    ensures { IfOk result (λ found. IsRead read_of 1 reader.old found reader.new) }
{
    match few(alloc, reader, 3)? {
        Some(parts) => Ok(read_in(parts.as_slice())),
        None => Ok(None),
    }
}

fn rest_of_reads(
    alloc: Global,
    reader: &mut Reader<'_>,
) -> Result<Option<Sequence<(u64, Source)>>, NoMemory>
    ensures { IfOk result (λ reads. AreRead (each_of read_of) 1 reader.old reads reader.new) }
{
    let mut reads = Vec::new(alloc);
    while !reader.take_end_array() {
        match read(alloc, reader)? {
            Some(read) => reads.push(read)?,
            None => return Ok(None),
        }
    }
    let reads = exact(alloc, reads)?;
    Ok(Some(Sequence::new(reads)))
}

fn reads(
    alloc: Global,
    reader: &mut Reader<'_>,
) -> Result<Option<Sequence<(u64, Source)>>, NoMemory>
    ensures { IfOk result (λ reads. IsRead (list_of read_of) 2 reader.old reads reader.new) }
{
    if takes_array(reader) {
        rest_of_reads(alloc, reader)
    } else {
        Ok(None)
    }
}

fn aborted_by(word: &Value) -> Option<bool>
    ensures { result ≡ aborted_by (view word.now) }
{
    if word.as_str()? == "aborted" {
        Some(true)
    } else {
        None
    }
}

/// Whether a transaction aborted, by what stands behind its writes.
#[tactic(auto, using(crate::proofs::Arity::aborted_none))]
fn aborted_in(behind: &[Value]) -> Option<bool>
    ensures { result ≡ aborted_in (items_view behind.now) }
{
    match behind {
        [] => Some(false),
        [word] => aborted_by(word),
        _ => None,
    }
}

fn aborted(alloc: Global, reader: &mut Reader<'_>) -> Result<Option<bool>, NoMemory>
    ensures { IfOk result (λ aborted. AreRead aborted_in 0 reader.old aborted reader.new) }
{
    match atoms(alloc, reader, 1)? {
        Some(behind) => Ok(aborted_in(behind.as_slice())),
        None => Ok(None),
    }
}

fn parts_of_txn(alloc: Global, reader: &mut Reader<'_>) -> Result<Option<(Txn, bool)>, NoMemory>
    ensures { IfOk result (λ txn. AreRead txn_in 2 reader.old txn reader.new) }
{
    let Some(reads) = reads(alloc, reader)? else {
        return Ok(None);
    };
    let Some(writes) = numbers(alloc, reader)? else {
        return Ok(None);
    };
    match aborted(alloc, reader)? {
        Some(aborted) => Ok(Some((Txn { reads, writes }, aborted))),
        None => Ok(None),
    }
}

fn one_txn(alloc: Global, reader: &mut Reader<'_>) -> Result<Option<(Txn, bool)>, NoMemory>
    ensures { IfOk result (λ txn. IsRead txn_of 3 reader.old txn reader.new) }
{
    if takes_array(reader) {
        parts_of_txn(alloc, reader)
    } else {
        Ok(None)
    }
}

fn has_room(most: Option<usize>, count: usize) -> bool
    ensures { result ≡ has_room most count }
{
    match most {
        Some(most) => count < most,
        None => true,
    }
}

/// Keeps the transaction where there is room for it.
fn keep(txns: &mut Vec<Txn>, txn: Txn, most: Option<usize>) -> Result<(), NoMemory>
    ensures { OnOk result (txns.new.items ≡ with_one_more most txns.old.items txn) }
{
    if has_room(most, txns.len()) {
        txns.push(txn)?;
    }
    Ok(())
}

/// Transactions up to the end of an array, and whether each of them aborted: the first so many are kept, and every flag.
fn rest_of_txns(
    alloc: Global,
    reader: &mut Reader<'_>,
    most: Option<usize>,
) -> Result<Option<(Sequence<Txn>, Sequence<bool>)>, NoMemory>
    ensures { IfOk result (λ told. AreRead (λ given. option_map (kept most) (each_of txn_of given)) 3 reader.old told reader.new) }
{
    let mut txns = Vec::new(alloc);
    let mut flags = Vec::new(alloc);
    while !reader.take_end_array() {
        match one_txn(alloc, reader)? {
            Some((txn, aborted)) => {
                keep(&mut txns, txn, most)?;
                flags.push(aborted)?;
            }
            None => return Ok(None),
        }
    }
    txns.shrink_to_fit();
    flags.shrink_to_fit();
    Ok(Some((Sequence::new(txns), Sequence::new(flags))))
}

/// A list of transactions, and whether each of them aborted: the first so many are kept, and every flag.
pub(crate) fn list_of_txns(
    alloc: Global,
    reader: &mut Reader<'_>,
    most: Option<usize>,
) -> Result<Option<(Sequence<Txn>, Sequence<bool>)>, NoMemory>
    ensures { IfOk result (λ told. IsRead (txns_of most) 4 reader.old told reader.new) }
{
    if takes_array(reader) {
        rest_of_txns(alloc, reader, most)
    } else {
        Ok(None)
    }
}

pub(crate) fn made(
    session: u8,
    first: u64,
    txns: Sequence<Txn>,
    aborted: Sequence<bool>,
) -> LoggedFragment
    ensures { result ≡ made session first (txns, aborted) }
{
    LoggedFragment {
        fragment: Fragment {
            session,
            first,
            txns,
        },
        aborted,
    }
}

/// A fragment of the transactions that end the line.
fn fragment_from(
    alloc: Global,
    reader: &mut Reader<'_>,
    session: u8,
    first: u64,
    most: Option<usize>,
) -> Result<Option<LoggedFragment>, NoMemory>
    ensures { IfOk result (λ logged. AreRead (one_item (made session first) (txns_of most)) 4 reader.old logged reader.new) }
{
    let Some((txns, aborted)) = list_of_txns(alloc, reader, most)? else {
        return Ok(None);
    };
    if reader.take_end_array() {
        Ok(Some(made(session, first, txns, aborted)))
    } else {
        Ok(None)
    }
}

/// Transactions behind their opening bracket.
fn behind_bracket(
    alloc: Global,
    reader: &mut Reader<'_>,
    most: Option<usize>,
) -> Result<Option<Behind>, NoMemory>
    ensures { IfOk result (λ found. AreRead (behind_in most) 3 reader.old found reader.new) }
{
    match rest_of_txns(alloc, reader, most)? {
        Some((txns, aborted)) => Ok(Some(Behind::Txns(txns, aborted))),
        None => Ok(None),
    }
}

fn behind_session(
    alloc: Global,
    reader: &mut Reader<'_>,
    most: Option<usize>,
) -> Result<Option<Behind>, NoMemory>
    ensures { IfOk result (λ found. IsRead (behind_of most) 4 reader.old found reader.new) }
{
    let Some(token) = reader.next() else {
        return Ok(None);
    };
    if opens_array(&token) {
        behind_bracket(alloc, reader, most)
    } else {
        match number_at(&token) {
            Some(first) => Ok(Some(Behind::First(first))),
            None => Ok(None),
        }
    }
}

/// What a session joins with: the shorter form begins with number 0.
pub(crate) fn joined(
    alloc: Global,
    reader: &mut Reader<'_>,
    most: Option<usize>,
) -> Result<Option<LoggedFragment>, NoMemory>
    ensures { IfOk result (λ logged. AreRead (joined_within most) 4 reader.old logged reader.new) }
{
    let Some(session) = session(reader) else {
        return Ok(None);
    };
    match behind_session(alloc, reader, most)? {
        Some(Behind::First(first)) => fragment_from(alloc, reader, session, first, most),
        Some(Behind::Txns(txns, aborted)) => if reader.take_end_array() {
            Ok(Some(made(session, 0, txns, aborted)))
        } else {
            Ok(None)
        },
        None => Ok(None),
    }
}
