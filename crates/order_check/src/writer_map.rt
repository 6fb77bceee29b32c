ghost use Rattle.std.specs.Prelude.{◌≡◌, ◌↔◌, ◌++◌, All, IfOk, OnOk, OnErr, IsTrue, Some, take, filter, nat_le};
ghost use Rattle.std.specs.BTreeMap as tree;
ghost use Rattle.std.specs.FinMap as map;
ghost use Rattle.std.specs.Ordering.{nat_cmp};
ghost use Rattle.order_check.specs.Rising.{IsHiddenOrBelow, IsRising};
ghost use Rattle.order_check.specs.Rules.{IsBelowMark, AreBelowMarks};

use crate::first_entries::first_entries;
use crate::rising::{RisingEntries, merged, writer_at};
use std::alloc::Global;
use std::collections::BTreeMap;
use std::marker::Model;
use txn::{NoMemory, Sequence, TxnId};

/// How many keys the tree may have before it is merged into the list: so many, and one for so many of the list's.
const LEAST: usize = 4096;

const PART: usize = 16;

/// A writer of each key. Contracts see a finite map. What was inserted last is in a tree, and the rest in a list that clones
/// share: so a clone copies the tree alone, and a key of the list takes 24 bytes.
#[derive(Clone, Drop, Debug)]
pub struct WriterMap {
    alloc: Global,
    newer: BTreeMap<u64, TxnId>,
    /// A key that the tree has too has its writer there.
    older: RisingEntries,
}

impl Model for WriterMap {
    ghost use Rattle.std.specs.Prelude.{◌++◌};
    ghost use Rattle.std.specs.FinMap as map;
    ghost use Rattle.std.specs.Ordering.{nat_cmp};
    ghost use Rattle.std.specs.Coded.{coded_ℕ};
    ghost use Rattle.txn.specs.declared.transactions.TxnId.{TxnId};
    ghost use Rattle.order_check.specs.Codes.{coded_id};

    ghost Value = { map.FinMap nat_cmp TxnId };

    ghost coded = { map.code coded_ℕ coded_id };

    ghost view = { λ a. map.from_entries (a.newer.entries ++ a.older) };
}

impl WriterMap {
    pub fn new(alloc: Global) -> Self
        ensures { result ≡ map.empty }
    {
        WriterMap {
            alloc,
            newer: BTreeMap::new(alloc),
            older: RisingEntries::none(),
        }
    }

    pub fn get(&self, key: u64) -> Option<TxnId>
        ensures { result ≡ map.get self.now key }
    {
        match self.newer.get(&key) {
            Some(writer) => Some(*writer),
            None => writer_at(self.older.as_slice(), key),
        }
    }

    /// Makes the id the key's last writer.
    pub fn insert(&mut self, key: u64, writer: TxnId) -> Result<(), NoMemory>
        ensures ok { OnOk result (self.new ≡ map.insert self.old key writer) }
        ensures err { OnErr result (self.new ≡ self.old) }
    {
        self.put(key, writer)?;
        if self.is_due() {
            self.merge();
        }
        Ok(())
    }

    fn put(&mut self, key: u64, writer: TxnId) -> Result<(), NoMemory>
        ensures ok { OnOk result (self.new ≡ map.insert self.old key writer) }
        ensures err { OnErr result (self.new ≡ self.old) }
    {
        self.newer.insert(key, writer)?;
        Ok(())
    }

    fn is_due(&self) -> bool {
        self.newer.len() > LEAST + self.older.as_slice().len() / PART
    }

    /// Merges the tree into the list. Where memory is wanting for a new list it waits for the next insertion.
    fn merge(&mut self)
        ensures { self.new ≡ self.old }
    {
        let Ok(older) = merged_list(self.alloc, &self.newer, &self.older) else {
            return;
        };
        self.newer.clear();
        self.older = older;
    }

    /// Each key with its last writer, keys rising.
    pub fn entries(&self, alloc: Global) -> Result<Sequence<(u64, TxnId)>, NoMemory>
        ensures { IfOk result (λ entries. entries ≡ map.entries self.now) }
    {
        let entries = all_entries(alloc, &self.newer, &self.older)?;
        Ok(Sequence::new(entries))
    }

    /// So many of the keys from this one on at most, the first ones, each with its last writer. What was inserted last is walked,
    /// and of the rest only these.
    pub fn entries_from(
        &self,
        alloc: Global,
        key: u64,
        most: usize,
    ) -> Result<Sequence<(u64, TxnId)>, NoMemory>
        ensures { IfOk result (λ page. page ≡ take most (filter (λ entry. nat_le key entry.0) (map.entries self.now))) }
    {
        let page = first_entries(alloc, &self.newer, self.older.as_slice(), key, most)?;
        Ok(Sequence::new(page))
    }

    /// Whether each writer's number is below the mark of its session.
    pub fn are_below(&self, marks: &[u64]) -> bool
        ensures { IsTrue result ↔ AreBelowMarks marks.now self.now }
    {
        are_newer_below(marks, &self.newer)
            && are_older_below(marks, &self.newer, self.older.as_slice())
    }
}

/// The entries of both, but for those of the list whose keys the tree has.
fn all_entries(
    alloc: Global,
    newer: &BTreeMap<u64, TxnId>,
    older: &RisingEntries,
) -> Result<Vec<(u64, TxnId)>, NoMemory>
    ensures rising { IfOk result (λ all. IsRising all.items) }
    ensures same { IfOk result (λ all. map.from_entries {R = nat_cmp} all.items ≡ map.from_entries (newer.now.entries ++ older.now)) }
{
    let newer: Vec<(u64, TxnId)> = newer
        .iter()
        .map(|(key, writer)| (*key, *writer))
        .collect(alloc)?;
    merged(alloc, newer.as_slice(), older.as_slice())
}

/// What both have, as a list.
fn merged_list(
    alloc: Global,
    newer: &BTreeMap<u64, TxnId>,
    older: &RisingEntries,
) -> Result<RisingEntries, NoMemory>
    ensures { IfOk result (λ all. map.from_entries {R = nat_cmp} all ≡ map.from_entries (newer.now.entries ++ older.now)) }
{
    let all = all_entries(alloc, newer, older)?;
    RisingEntries::new(alloc, all)
}

/// Whether each of the tree's writers is below its mark.
fn are_newer_below(marks: &[u64], newer: &BTreeMap<u64, TxnId>) -> bool
    ensures told { IsTrue result ↔ All (λ entry. IsBelowMark marks.now entry.1) newer.now.entries }
    ensures found { All (λ entry. tree.get nat_cmp newer.now entry.0 ≡ Some entry.1) newer.now.entries }
{
    newer
        .iter()
        .all(|(_, writer)| is_below_mark(marks, *writer))
}

/// Whether each of the list's writers is below its mark, but for those whose keys the tree has.
fn are_older_below(marks: &[u64], newer: &BTreeMap<u64, TxnId>, older: &[(u64, TxnId)]) -> bool
    ensures { IsTrue result ↔ All (IsHiddenOrBelow marks.now newer.now) older.now }
{
    older
        .iter()
        .all(|entry| is_hidden_or_below(marks, newer, *entry))
}

#[tactic(auto, unfolding(crate::specs::Rising::IsHiddenOrBelow))]
fn is_hidden_or_below(marks: &[u64], newer: &BTreeMap<u64, TxnId>, entry: (u64, TxnId)) -> bool
    ensures { IsTrue result ↔ IsHiddenOrBelow marks.now newer.now entry }
{
    newer.contains_key(&entry.0) || is_below_mark(marks, entry.1)
}

fn is_below_mark(marks: &[u64], id: TxnId) -> bool
    ensures { IsTrue result ↔ IsBelowMark marks.now id }
{
    match marks.get(usize::from(id.session)) {
        Some(mark) => id.number < *mark,
        None => false,
    }
}
