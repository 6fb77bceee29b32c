// What is looked up of parts is shared: a relation, its copies and their branches have it in common, and it is made once for parts.
ghost use Rattle.std.specs.Prelude.{◌≡◌, IfOk, IfSome};
ghost use Rattle.order_check.specs.declared.remainder.Parts.{Parts};
ghost use Rattle.order_check.specs.Good.{IsGood};
ghost use Rattle.clock_choices.specs.Indexing.{IsIndex};
ghost use Rattle.clock_choices.specs.SharedIndexes.{IsIndexIn, index_in};

use crate::indexing::{Index, index_of};
use order_check::Parts;
use std::alloc::Global;
use std::sync::Arc;
use txn::NoMemory;

/// An index that nobody changes.
#[derive(Drop, Debug)]
pub(crate) struct SharedIndex {
    shared: Arc<Index>,
}

impl SharedIndex {
    pub(crate) fn new(alloc: Global, index: Index) -> Result<SharedIndex, NoMemory>
        ensures { IfOk result (λ made. index_in made ≡ index) }
    {
        let shared = Arc::new(alloc, index)?;
        Ok(SharedIndex { shared })
    }

    pub(crate) fn get(&self) -> &Index
        ensures { result.now ≡ index_in self.now }
    {
        &self.shared
    }

    /// The index, shared once more. Nothing of it is copied.
    fn share(&self) -> Result<SharedIndex, NoMemory>
        ensures { IfOk result (λ other. index_in other ≡ index_in self.now) }
    {
        let shared = Arc::try_clone(&self.shared)?;
        Ok(SharedIndex { shared })
    }

    /// The index itself, if nobody else has it.
    fn into_own(self) -> Option<Index>
        ensures { IfSome result (λ index. index ≡ index_in self) }
    {
        let SharedIndex { shared } = self;
        match Arc::try_unwrap(shared) {
            Ok(index) => Some(index),
            Err(_others) => None,
        }
    }
}

/// The index to be shared, or none where memory is refused: then it is made again once it's asked for.
pub(crate) fn shared_or_none(alloc: Global, index: Index) -> Option<SharedIndex>
    ensures { (parts : Parts) → IsIndex parts index → IfSome result (IsIndexIn parts) }
{
    match SharedIndex::new(alloc, index) {
        Ok(shared) => Some(shared),
        Err(_refused) => None,
    }
}

/// The index that is kept, or one that is made.
pub(crate) fn shared_index(
    alloc: Global,
    kept: &Option<SharedIndex>,
    parts: &Parts,
) -> Result<SharedIndex, NoMemory>
    requires good { IsGood parts.now }
    requires kept { IfSome kept.now (IsIndexIn parts.now) }
    ensures { IfOk result (IsIndexIn parts.now) }
{
    match kept {
        Some(shared) => {
            let other = shared.share()?;
            Ok(other)
        }
        None => {
            let index = index_of(alloc, parts)?;
            let made = SharedIndex::new(alloc, index)?;
            Ok(made)
        }
    }
}

/// The index that is kept, if one is.
pub(crate) fn kept_index(kept: &Option<SharedIndex>) -> Result<Option<SharedIndex>, NoMemory>
    ensures { IfOk result (λ other. (parts : Parts) → IfSome kept.now (IsIndexIn parts) → IfSome other (IsIndexIn parts)) }
{
    match kept {
        Some(shared) => {
            let other = shared.share()?;
            Ok(Some(other))
        }
        None => Ok(None),
    }
}

/// The index that is kept, if nobody else has it.
fn kept_alone(kept: Option<SharedIndex>) -> Option<Index>
    ensures { (parts : Parts) → IfSome kept (IsIndexIn parts) → IfSome result (IsIndex parts) }
{
    match kept {
        Some(shared) => shared.into_own(),
        None => None,
    }
}

/// An index that nobody else has: the one that is kept, or one that is made.
pub(crate) fn own_index(
    alloc: Global,
    kept: Option<SharedIndex>,
    parts: &Parts,
) -> Result<Index, NoMemory>
    requires good { IsGood parts.now }
    requires kept { IfSome kept (IsIndexIn parts.now) }
    ensures { IfOk result (IsIndex parts.now) }
{
    match kept_alone(kept) {
        Some(index) => Ok(index),
        None => {
            let index = index_of(alloc, parts)?;
            Ok(index)
        }
    }
}
