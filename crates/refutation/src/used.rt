ghost use Rattle.std.specs.Prelude.{◌≡◌, ◌≢◌, ◌↔◌, ◌⊎◌, ◌∷◌, [], Contains, IfOk, IsTrue, OnOk, Some, List, length};
ghost use Rattle.txn.specs.declared.transactions.TxnId.{TxnId};
ghost use Rattle.txn.specs.declared.choices.Arc.TheVariants.{Taken};
ghost use Rattle.refutation.specs.Pruned.{UseSide};

use std::alloc::Global;
use std::collections::BTreeSet;
use std::marker::Model;
use txn::{Arc, NoMemory, TxnId};

/// Sides that cycles of a tree use.
#[derive(Drop)]
pub struct UsedSides {
    sides: BTreeSet<(TxnId, TxnId)>,
}

impl Model for UsedSides {
    ghost use Rattle.std.specs.Prelude.{List};
    ghost use Rattle.txn.specs.declared.transactions.TxnId.{TxnId};

    ghost Value = { List (TxnId × TxnId) };

    ghost view = { λ used. used.sides.keys };
}

fn is_skipped(skipped: Option<(TxnId, TxnId)>, side: (TxnId, TxnId)) -> bool
    ensures { IsTrue result ↔ (skipped ≡ Some side) }
{
    skipped == Some(side)
}

impl UsedSides {
    pub fn none(alloc: Global) -> UsedSides
        ensures { result ≡ [] }
    {
        UsedSides {
            sides: BTreeSet::new(alloc),
        }
    }

    pub fn len(&self) -> usize
        ensures { result ≡ length self.now }
    {
        self.sides.len()
    }

    pub fn has(&self, side: (TxnId, TxnId)) -> bool
        ensures { IsTrue result ↔ Contains self.now side }
    {
        self.sides.contains(&side)
    }

    fn add(&mut self, side: (TxnId, TxnId)) -> Result<(), NoMemory>
        ensures { OnOk result ((other : TxnId × TxnId) → Contains self.new other ↔ (Contains self.old other ⊎ (other ≡ side))) }
    {
        self.sides.insert(side)?;
        Ok(())
    }

    /// Leaves the side out, and says whether it was used.
    pub fn remove(&mut self, side: (TxnId, TxnId)) -> bool
        ensures was { IsTrue result ↔ Contains self.old side }
        ensures others { (other : TxnId × TxnId) → Contains self.new other ↔ (Contains self.old other × (other ≢ side)) }
    {
        self.sides.remove(&side)
    }

    /// Adds the arc's side, if it is that of a side and not the one skipped.
    fn add_arc(&mut self, arc: Arc, skipped: Option<(TxnId, TxnId)>) -> Result<(), NoMemory>
        ensures { OnOk result ((other : TxnId × TxnId) → Contains self.new other ↔ (Contains self.old other ⊎ ((arc ≡ Taken other.0 other.1) × (skipped ≢ Some other)))) }
    {
        let Arc::Taken { from, to } = arc else {
            return Ok(());
        };
        let side = (from, to);
        if is_skipped(skipped, side) {
            return Ok(());
        }
        self.add(side)
    }

    /// Adds the sides that the arcs use, but for the one skipped.
    pub fn add_arcs(
        &mut self,
        arcs: &[Arc],
        skipped: Option<(TxnId, TxnId)>,
    ) -> Result<(), NoMemory>
        ensures { OnOk result ((other : TxnId × TxnId) → Contains self.new other ↔ (Contains self.old other ⊎ (UseSide arcs.now other × (skipped ≢ Some other)))) }
    {
        for arc in arcs {
            self.add_arc(*arc, skipped)?;
        }
        Ok(())
    }

    /// Adds all sides of the other.
    fn add_all(&mut self, more: UsedSides) -> Result<(), NoMemory>
        ensures { OnOk result ((other : TxnId × TxnId) → Contains self.new other ↔ (Contains self.old other ⊎ Contains more other)) }
    {
        let UsedSides { sides } = more;
        for side in sides {
            self.add(side)?;
        }
        Ok(())
    }

    fn with_all(self, more: UsedSides) -> Result<UsedSides, NoMemory>
        ensures { IfOk result (λ both. (side : TxnId × TxnId) → Contains both side ↔ (Contains self side ⊎ Contains more side)) }
    {
        let mut all = self;
        all.add_all(more)?;
        Ok(all)
    }

    /// The sides of both: the fewer are added to the more.
    pub fn united(self, other: UsedSides) -> Result<UsedSides, NoMemory>
        ensures { IfOk result (λ both. (side : TxnId × TxnId) → Contains both side ↔ (Contains self side ⊎ Contains other side)) }
    {
        if self.len() < other.len() {
            other.with_all(self)
        } else {
            self.with_all(other)
        }
    }
}
