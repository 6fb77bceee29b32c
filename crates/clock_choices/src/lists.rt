// Lists by key.
ghost use Rattle.std.specs.Prelude.{◌≡◌, ◌≢◌, ◌⊎◌, ℕ, [], ◌∷◌, ◌++◌, Contains, OnOk};
ghost use Rattle.clock_choices.specs.Adds.{Adds};
ghost use Rattle.clock_choices.specs.Lists.{list_at};

use std::alloc::Global;
use std::collections::BTreeMap;
use txn::NoMemory;

/// The list of a key.
pub(crate) fn list_of<T>(lists: &BTreeMap<u64, Vec<T>>, key: u64) -> &[T]
    ensures { result.now ≡ list_at lists.now key }
{
    match lists.get(&key) {
        Some(list) => list.as_slice(),
        None => &[],
    }
}

/// Takes out the list of a key.
pub(crate) fn take_list<T: Drop>(
    alloc: Global,
    lists: &mut BTreeMap<u64, Vec<T>>,
    key: u64,
) -> Vec<T>
    ensures taken { result.items ≡ list_at lists.old key }
    ensures others { (other : ℕ) → other ≢ key → list_at lists.new other ≡ list_at lists.old other }
{
    match lists.remove(&key) {
        Some(list) => list,
        None => Vec::new(alloc),
    }
}

/// Puts in the list of a key.
pub(crate) fn put_list<T: Drop>(
    lists: &mut BTreeMap<u64, Vec<T>>,
    key: u64,
    list: Vec<T>,
) -> Result<(), NoMemory>
    ensures put { OnOk result (list_at lists.new key ≡ list.items) }
    ensures others { OnOk result ((other : ℕ) → other ≢ key → list_at lists.new other ≡ list_at lists.old other) }
{
    lists.insert(key, list)?;
    Ok(())
}

/// Puts an item at the end of the list of a key.
pub(crate) fn add_to_list<T: Drop>(
    alloc: Global,
    lists: &mut BTreeMap<u64, Vec<T>>,
    key: u64,
    item: T,
) -> Result<(), NoMemory>
    ensures { OnOk result ((other : ℕ) → Adds (Contains (list_at lists.old other)) (Contains (list_at lists.new other)) (λ one. (one ≡ item) × (other ≡ key))) }
{
    let mut list = take_list(alloc, lists, key);
    list.push(item)?;
    put_list(lists, key, list)?;
    Ok(())
}
