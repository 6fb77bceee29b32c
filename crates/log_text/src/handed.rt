//! What is handed over of an audit's parts, read token by token: lists of flags and of last gone writers.
ghost use Rattle.std.specs.Prelude.{◌≡◌, IfOk, option_and_then};
ghost use Rattle.json.specs.Reads.{token_of};
ghost use Rattle.serde_json.specs.View.{items_view};
ghost use Rattle.log_text.specs.Items.{each_of, list_of};
ghost use Rattle.log_text.specs.Commands.{flag_of, writer_in, writer_of};
ghost use Rattle.log_text.specs.Streams.{IsRead, AreRead, data_at};

use crate::numbers::{session_of, whole_number};
use crate::streams::{few, takes_array};
use json::{Reader, Token};
use serde_json::Value;
use std::alloc::Global;
use txn::{NoMemory, Sequence, TxnId};

fn flag_at(token: &Token<'_>) -> Option<bool>
    ensures { result ≡ option_and_then flag_of (data_at (token_of token.now)) }
{
    match token {
        Token::Bool(flag) => Some(*flag),
        _ => None,
    }
}

fn flag(reader: &mut Reader<'_>) -> Option<bool>
    ensures { IsRead flag_of 0 reader.old result reader.new }
{
    match reader.next() {
        Some(token) => flag_at(&token),
        None => None,
    }
}

fn rest_of_flags(alloc: Global, reader: &mut Reader<'_>) -> Result<Option<Sequence<bool>>, NoMemory>
    ensures { IfOk result (λ flags. AreRead (each_of flag_of) 0 reader.old flags reader.new) }
{
    let mut flags = Vec::new(alloc);
    while !reader.take_end_array() {
        match flag(reader) {
            Some(flag) => flags.push(flag)?,
            None => return Ok(None),
        }
    }
    flags.shrink_to_fit();
    Ok(Some(Sequence::new(flags)))
}

pub(crate) fn flags(
    alloc: Global,
    reader: &mut Reader<'_>,
) -> Result<Option<Sequence<bool>>, NoMemory>
    ensures { IfOk result (λ flags. IsRead (list_of flag_of) 1 reader.old flags reader.new) }
{
    if takes_array(reader) {
        rest_of_flags(alloc, reader)
    } else {
        Ok(None)
    }
}

#[tactic(auto, using(crate::proofs::Arity::three_items_none))]
fn writer_in(items: &[Value]) -> Option<(u64, TxnId)>
    ensures { result ≡ writer_in (items_view items.now) }
{
    match items {
        [key, session, number] => Some((
            whole_number(key)?,
            TxnId {
                session: session_of(session)?,
                number: whole_number(number)?,
            },
        )),
        _ => None,
    }
}

fn writer(alloc: Global, reader: &mut Reader<'_>) -> Result<Option<(u64, TxnId)>, NoMemory>
    ensures { IfOk result (λ found. IsRead writer_of 1 reader.old found reader.new) }
{
    match few(alloc, reader, 3)? {
        Some(parts) => Ok(writer_in(parts.as_slice())),
        None => Ok(None),
    }
}

fn rest_of_writers(
    alloc: Global,
    reader: &mut Reader<'_>,
) -> Result<Option<Sequence<(u64, TxnId)>>, NoMemory>
    ensures { IfOk result (λ writers. AreRead (each_of writer_of) 1 reader.old writers reader.new) }
{
    let mut writers = Vec::new(alloc);
    while !reader.take_end_array() {
        match writer(alloc, reader)? {
            Some(writer) => writers.push(writer)?,
            None => return Ok(None),
        }
    }
    writers.shrink_to_fit();
    Ok(Some(Sequence::new(writers)))
}

pub(crate) fn writers(
    alloc: Global,
    reader: &mut Reader<'_>,
) -> Result<Option<Sequence<(u64, TxnId)>>, NoMemory>
    ensures { IfOk result (λ writers. IsRead (list_of writer_of) 2 reader.old writers reader.new) }
{
    if takes_array(reader) {
        rest_of_writers(alloc, reader)
    } else {
        Ok(None)
    }
}
