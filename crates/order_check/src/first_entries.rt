//! The first entries from a key on, of a map that is kept as a tree and as a list.
ghost use Rattle.std.specs.Prelude.{◌≡◌, ◌++◌, take, filter, not, nat_lt, IfOk};
ghost use Rattle.std.specs.FinMap as map;
ghost use Rattle.std.specs.Ordering.{nat_cmp};
ghost use Rattle.order_check.specs.Rising.{IsRising};

use crate::rising::{behind, count_below, entry_in, in_front, merged};
use std::alloc::Global;
use std::collections::BTreeMap;
use txn::{NoMemory, TxnId};

/// The entries with keys below.
fn below(entries: &[(u64, TxnId)], key: u64) -> &[(u64, TxnId)]
    requires { IsRising entries.now }
    ensures value { result.now ≡ filter (λ entry. nat_lt entry.0 key) entries.now }
    ensures rising { IsRising result.now }
{
    in_front(entries, count_below(entries, key))
}

/// The entries with keys that aren't below.
fn from(entries: &[(u64, TxnId)], key: u64) -> &[(u64, TxnId)]
    requires { IsRising entries.now }
    ensures value { result.now ≡ filter (λ entry. not (nat_lt entry.0 key)) entries.now }
    ensures rising { IsRising result.now }
{
    behind(entries, count_below(entries, key))
}

/// What both have below the key.
fn merged_below(
    alloc: Global,
    newer: &[(u64, TxnId)],
    older: &[(u64, TxnId)],
    bound: u64,
) -> Result<Vec<(u64, TxnId)>, NoMemory>
    requires newer { IsRising newer.now }
    requires older { IsRising older.now }
    ensures { IfOk result (λ all. all.items ≡ filter (λ entry. nat_lt entry.0 bound) (map.entries (map.from_entries {R = nat_cmp} (newer.now ++ older.now)))) }
{
    let first = below(newer, bound);
    let second = below(older, bound);
    let all = merged(alloc, first, second)?;
    Ok(all)
}

/// So many entries of both at most, the first ones. Where the older ones are more, only what is below the one behind so many of them is merged.
fn first_of_both(
    alloc: Global,
    newer: &[(u64, TxnId)],
    older: &[(u64, TxnId)],
    most: usize,
) -> Result<Vec<(u64, TxnId)>, NoMemory>
    requires newer { IsRising newer.now }
    requires older { IsRising older.now }
    ensures { IfOk result (λ page. page.items ≡ take most (map.entries (map.from_entries {R = nat_cmp} (newer.now ++ older.now)))) }
{
    if let Some(bound) = entry_in(older, most) {
        let mut page = merged_below(alloc, newer, older, bound.0)?;
        if page.len() >= most {
            page.truncate(most);
            return Ok(page);
        }
    }
    let mut all = merged(alloc, newer, older)?;
    all.truncate(most);
    Ok(all)
}

/// What the tree has, as a list.
fn listed(alloc: Global, newer: &BTreeMap<u64, TxnId>) -> Result<Vec<(u64, TxnId)>, NoMemory>
    ensures value { IfOk result (λ all. all.items ≡ newer.now.entries) }
    ensures rising { IfOk result (λ all. IsRising all.items) }
{
    let all: Vec<(u64, TxnId)> = newer
        .iter()
        .map(|(key, writer)| (*key, *writer))
        .collect(alloc)?;
    Ok(all)
}

/// So many entries from the key on at most, the first ones.
pub fn first_entries(
    alloc: Global,
    newer: &BTreeMap<u64, TxnId>,
    older: &[(u64, TxnId)],
    key: u64,
    most: usize,
) -> Result<Vec<(u64, TxnId)>, NoMemory>
    requires { IsRising older.now }
    ensures { IfOk result (λ page. page.items ≡ take most (filter (λ entry. not (nat_lt entry.0 key)) (map.entries (map.from_entries {R = nat_cmp} (newer.now.entries ++ older.now))))) }
{
    let newer = listed(alloc, newer)?;
    let first = from(newer.as_slice(), key);
    let second = from(older, key);
    let page = first_of_both(alloc, first, second, most)?;
    Ok(page)
}
