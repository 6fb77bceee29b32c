//! A line is read token by token, into what its form keeps and nothing else.
ghost use Rattle.std.specs.Prelude.{◌≡◌, ◌==◌, List, ◌∷◌, slice_index, IfOk, Some, None, option_and_then, option_map};
ghost use Rattle.std.specs.Bool.{MatchBool};
ghost use Rattle.fast_float.specs.Text.{minus};
ghost use Rattle.json.specs.Reads.{token_of};
ghost use Rattle.json.specs.Token as spec;
ghost use Rattle.serde_json.specs.View.{view, items_view};
ghost use Rattle.log_text.specs.Items.{array_of, each_of, list_of};
ghost use Rattle.log_text.specs.Numbers.{whole_number, session_of, word_of};
ghost use Rattle.log_text.specs.Streams.{IsRead, AreRead, opens_array, data_at, whole_in, whole_of, atom_of, few_in};

use fast_float::Numeral;
use json::{Reader, Token};
use serde_json::Value;
use std::alloc::Global;
use txn::{NoMemory, Sequence};

/// So many items are cut to their room where they stand.
const MANY: usize = 64;

fn has_minus(bytes: &[u8]) -> bool
    ensures { result ≡ (slice_index bytes.now 0 == minus) }
{
    !bytes.is_empty() && bytes[0] == b'-'
}

fn whole_of(numeral: &Numeral<'_>) -> Option<u64>
    ensures { result ≡ whole_of numeral.now }
{
    numeral.to_u64()
}

/// The number that this is the text of, where it is an unsigned whole one of 64 bits.
fn whole_in(text: &str) -> Option<u64>
    ensures { result ≡ whole_in text.now }
{
    let bytes = text.as_bytes();
    if has_minus(bytes) {
        None
    } else {
        whole_of(&Numeral::scan(bytes))
    }
}

pub(crate) fn number_at(token: &Token<'_>) -> Option<u64>
    ensures { result ≡ option_and_then whole_number (data_at (token_of token.now)) }
{
    match token {
        Token::Number(text) => whole_in(text),
        _ => None,
    }
}

fn session_at(token: &Token<'_>) -> Option<u8>
    ensures { result ≡ option_and_then session_of (data_at (token_of token.now)) }
{
    u8::try_from(number_at(token)?).ok()
}

fn word_at<'a>(token: Token<'a>) -> Option<&'a str>
    ensures { option_map (λ word. word.now) result ≡ option_and_then word_of (data_at (token_of token.entry)) }
{
    match token {
        Token::String(word) => Some(word),
        _ => None,
    }
}

pub(crate) fn number(reader: &mut Reader<'_>) -> Option<u64>
    ensures { IsRead whole_number 0 reader.old result reader.new }
{
    match reader.next() {
        Some(token) => number_at(&token),
        None => None,
    }
}

pub(crate) fn session(reader: &mut Reader<'_>) -> Option<u8>
    ensures { IsRead session_of 0 reader.old result reader.new }
{
    match reader.next() {
        Some(token) => session_at(&token),
        None => None,
    }
}

pub(crate) fn word<'a>(reader: &mut Reader<'a>) -> Option<&'a str>
    ensures { IsRead word_of 0 reader.old (option_map (λ word. word.now) result) reader.new }
{
    match reader.next() {
        Some(token) => word_at(token),
        None => None,
    }
}

pub(crate) fn opens_array(token: &Token<'_>) -> bool
    ensures { (more : List spec.Token) → MatchBool result (opens_array (token_of token.now ∷ more) ≡ Some more) (opens_array (token_of token.now ∷ more) ≡ None) }
{
    matches!(token, Token::BeginArray)
}

/// Takes the bracket that opens an array, or what stands in its place.
pub(crate) fn takes_array(reader: &mut Reader<'_>) -> bool
    ensures { MatchBool result (opens_array reader.old ≡ Some reader.new) (opens_array reader.old ≡ None) }
{
    matches!(reader.next(), Some(Token::BeginArray))
}

fn atom_at(alloc: Global, token: &Token<'_>) -> Result<Option<Value>, NoMemory>
    ensures { IfOk result (λ found. option_map view found ≡ option_and_then atom_of (data_at (token_of token.now))) }
{
    match token {
        Token::String(word) => Ok(Some(Value::from(word.to_string(alloc)?))),
        Token::Number(text) => match whole_in(text) {
            Some(number) => Ok(Some(Value::from(number))),
            None => Ok(None),
        },
        _ => Ok(None),
    }
}

fn atom(alloc: Global, reader: &mut Reader<'_>) -> Result<Option<Value>, NoMemory>
    ensures { IfOk result (λ found. IsRead atom_of 0 reader.old (option_map view found) reader.new) }
{
    match reader.next() {
        Some(token) => atom_at(alloc, &token),
        None => Ok(None),
    }
}

/// The items up to the end of an array, where each is a word or a number and there are no more than this.
pub(crate) fn atoms(
    alloc: Global,
    reader: &mut Reader<'_>,
    most: usize,
) -> Result<Option<Vec<Value>>, NoMemory>
    ensures { IfOk result (λ found. AreRead (few_in most) 0 reader.old (option_map (λ values. items_view values.items) found) reader.new) }
{
    let mut values = Vec::new(alloc);
    while !reader.take_end_array() {
        if values.len() == most {
            return Ok(None);
        }
        match atom(alloc, reader)? {
            Some(value) => values.push(value)?,
            None => return Ok(None),
        }
    }
    Ok(Some(values))
}

/// The items of an array, where each is a word or a number and there are no more than this.
pub(crate) fn few(
    alloc: Global,
    reader: &mut Reader<'_>,
    most: usize,
) -> Result<Option<Vec<Value>>, NoMemory>
    ensures { IfOk result (λ found. IsRead (array_of (few_in most)) 1 reader.old (option_map (λ values. items_view values.items) found) reader.new) }
{
    if takes_array(reader) {
        atoms(alloc, reader, most)
    } else {
        Ok(None)
    }
}

/// The items in room for just them. A few are copied, so that what they were gathered in is free again as a whole.
pub(crate) fn exact<T: Copy + Drop>(alloc: Global, mut items: Vec<T>) -> Result<Vec<T>, NoMemory>
    ensures { IfOk result (λ kept. kept.items ≡ items.items) }
{
    if items.len() < MANY {
        let mut kept = Vec::with_capacity(alloc, items.len())?;
        kept.extend_from_slice(items.as_slice())?;
        Ok(kept)
    } else {
        items.shrink_to_fit();
        Ok(items)
    }
}

/// Numbers up to the end of an array.
fn rest_of_numbers(
    alloc: Global,
    reader: &mut Reader<'_>,
) -> Result<Option<Sequence<u64>>, NoMemory>
    ensures { IfOk result (λ numbers. AreRead (each_of whole_number) 0 reader.old numbers reader.new) }
{
    let mut numbers = Vec::new(alloc);
    while !reader.take_end_array() {
        match number(reader) {
            Some(number) => numbers.push(number)?,
            None => return Ok(None),
        }
    }
    let numbers = exact(alloc, numbers)?;
    Ok(Some(Sequence::new(numbers)))
}

pub(crate) fn numbers(
    alloc: Global,
    reader: &mut Reader<'_>,
) -> Result<Option<Sequence<u64>>, NoMemory>
    ensures { IfOk result (λ numbers. IsRead (list_of whole_number) 1 reader.old numbers reader.new) }
{
    if takes_array(reader) {
        rest_of_numbers(alloc, reader)
    } else {
        Ok(None)
    }
}
