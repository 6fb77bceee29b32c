//! The last writers after a cut.
ghost use Rattle.std.specs.Prelude.{◌≡◌, ℕ, IfOk, OnOk};
ghost use Rattle.std.specs.FinMap as map;
ghost use Rattle.order_check.specs.Settled.{or_else};
ghost use Rattle.truncate.specs.Overruled.{AreOverruled};

use order_check::LastWriters;
use std::alloc::Global;
use txn::NoMemory;

/// The old last writers, overruled by others on their keys.
pub fn overruled(
    alloc: Global,
    writers: &LastWriters,
    others: &LastWriters,
) -> Result<LastWriters, NoMemory>
    ensures { IfOk result (λ all. (key : ℕ) → map.get all key ≡ or_else (map.get others.now key) (map.get writers.now key)) }
{
    let mut all = writers.clone()?;
    let entries = others.entries(alloc)?;
    for entry in entries.as_slice() {
        all.insert(entry.0, entry.1)?;
    }
    Ok(all)
}
