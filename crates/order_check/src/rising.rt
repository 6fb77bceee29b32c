//! Entries with rising keys: a search among them, and two lists made one.
ghost use Rattle.std.specs.Prelude.{◌≡◌, ◌≤◌, ◌++◌, ◌∷◌, [], ◌==◌, if◌then◌else◌, Some, None, ◌<◌, MatchOption, length, slice_index_or, take, drop, nat_le, nat_lt, not, filter, IfOk, OnOk};
ghost use Rattle.std.specs.FinMap as map;
ghost use Rattle.std.specs.Ordering.{nat_cmp};
ghost use Rattle.order_check.specs.Rising.{IsRising};

use std::alloc::Global;
use std::marker::Model;
use std::sync::Arc;
use txn::{NoMemory, Sequence, TxnId};

/// Entries with rising keys. Contracts see the list. A clone shares it.
#[derive(Drop, Debug)]
pub struct RisingEntries {
    /// None where there is no entry.
    shared: Option<Arc<Sequence<(u64, TxnId)>>>,
}

impl Model for RisingEntries {
    ghost use Rattle.std.specs.Prelude.{ℕ, List, []};
    ghost use Rattle.std.specs.Arc.{arc_value};
    ghost use Rattle.std.specs.Option.{option_map_or};
    ghost use Rattle.std.specs.Coded.{coded_list, coded×, coded_ℕ};
    ghost use Rattle.txn.specs.declared.transactions.TxnId.{TxnId};
    ghost use Rattle.order_check.specs.Codes.{coded_id};
    ghost use Rattle.order_check.specs.Rising.{IsRising};

    ghost Value = { List (ℕ × TxnId) };

    ghost coded = { coded_list (coded× coded_ℕ coded_id) };

    ghost view = { λ a. option_map_or (λ shared. arc_value shared) a.shared [] };

    ghost invariant = { λ a. IsRising (option_map_or (λ shared. arc_value shared) a.shared []) };
}

impl RisingEntries {
    pub fn none() -> Self
        ensures { result ≡ [] }
    {
        RisingEntries { shared: None }
    }

    pub fn new(alloc: Global, entries: Vec<(u64, TxnId)>) -> Result<Self, NoMemory>
        requires { IsRising entries.items }
        ensures { IfOk result (λ rising. rising ≡ entries.items) }
    {
        let shared = Some(Arc::new(alloc, Sequence::new(entries))?);
        Ok(RisingEntries { shared })
    }

    pub fn as_slice(&self) -> &[(u64, TxnId)]
        ensures value { result.now ≡ self.now }
        ensures rising { IsRising self.now }
    {
        match &self.shared {
            Some(entries) => entries.as_slice(),
            None => &[],
        }
    }
}

impl Clone for RisingEntries {
    ghost use Rattle.std.specs.Prelude.{◌≡◌};

    ghost is_clone = { λ old new. new ≡ old };

    fn clone(&self) -> Result<Self, NoMemory> {
        let shared = match &self.shared {
            Some(entries) => Some(entries.clone()?),
            None => None,
        };
        Ok(RisingEntries { shared })
    }
}

/// How many of the entries have keys below.
pub fn count_below(entries: &[(u64, TxnId)], key: u64) -> usize
    requires { IsRising entries.now }
    ensures within { result ≤ length entries.now }
    ensures front { take result entries.now ≡ filter (λ entry. nat_lt entry.0 key) entries.now }
    ensures rest { drop result entries.now ≡ filter (λ entry. not (nat_lt entry.0 key)) entries.now }
{
    entries.partition_point(|entry| entry.0 < key)
}

/// How many of the entries have keys that aren't above.
fn count_up_to(entries: &[(u64, TxnId)], key: u64) -> usize
    requires { IsRising entries.now }
    ensures within { result ≤ length entries.now }
    ensures rest { drop result entries.now ≡ filter (λ entry. not (nat_le entry.0 key)) entries.now }
{
    entries.partition_point(|entry| entry.0 <= key)
}

/// The entry's writer, where it is the key's.
fn writer_if(key: u64, entry: (u64, TxnId)) -> Option<TxnId>
    ensures { result ≡ (if key == entry.0 then Some entry.1 else None) }
{
    if key == entry.0 { Some(entry.1) } else { None }
}

pub fn entry_in(entries: &[(u64, TxnId)], place: usize) -> Option<(u64, TxnId)>
    ensures { MatchOption result (length entries.now ≤ place) (λ entry. (place < length entries.now) × (entry ≡ slice_index_or entries.now place entry)) }
{
    entries.get(place).copied()
}

/// The writer of the key, where one of the entries has it.
pub fn writer_at(entries: &[(u64, TxnId)], key: u64) -> Option<TxnId>
    requires { IsRising entries.now }
    ensures { result ≡ map.get (map.from_entries {R = nat_cmp} entries.now) key }
{
    let place = count_below(entries, key);
    match entry_in(entries, place) {
        Some(entry) => writer_if(key, entry),
        None => None,
    }
}

pub fn in_front(entries: &[(u64, TxnId)], to: usize) -> &[(u64, TxnId)]
    requires { to ≤ length entries.now }
    ensures { result.now ≡ take to entries.now }
{
    entries.split_at(to).0
}

pub fn behind(entries: &[(u64, TxnId)], from: usize) -> &[(u64, TxnId)]
    requires { from ≤ length entries.now }
    ensures { result.now ≡ drop from entries.now }
{
    entries.split_at(from).1
}

/// Puts the older entries in front of the newer one at the end, and then the newer one. Gives the place of the older ones
/// behind it: one with the same key goes.
fn push_up_to(
    all: &mut Vec<(u64, TxnId)>,
    older: &[(u64, TxnId)],
    newer: (u64, TxnId),
) -> Result<usize, NoMemory>
    requires { IsRising older.now }
    ensures within { IfOk result (λ next. next ≤ length older.now) }
    ensures pushed { OnOk result (all.new.items ≡ all.old.items ++ (filter (λ entry. nat_lt entry.0 newer.0) older.now ++ newer ∷ [])) }
    ensures rest { IfOk result (λ next. drop next older.now ≡ filter (λ entry. not (nat_le entry.0 newer.0)) older.now) }
{
    let below = count_below(older, newer.0);
    all.extend_from_slice(&older[..below])?;
    all.push(newer)?;
    Ok(count_up_to(older, newer.0))
}

/// All entries of both lists, but for those older ones whose keys newer ones have.
pub fn merged(
    alloc: Global,
    newer: &[(u64, TxnId)],
    older: &[(u64, TxnId)],
) -> Result<Vec<(u64, TxnId)>, NoMemory>
    requires newer { IsRising newer.now }
    requires older { IsRising older.now }
    ensures rising { IfOk result (λ all. IsRising all.items) }
    ensures same { IfOk result (λ all. map.from_entries {R = nat_cmp} all.items ≡ map.from_entries (newer.now ++ older.now)) }
{
    let mut all = Vec::with_capacity(alloc, newer.len() + older.len())?;
    let mut from = 0;
    for entry in newer {
        let rest = behind(older, from);
        from += push_up_to(&mut all, rest, *entry)?;
    }
    let last = behind(older, from);
    all.extend_from_slice(last)?;
    Ok(all)
}
