ghost use Rattle.std.specs.Prelude.{◌≡◌, ℕ, []};
ghost use Rattle.txn.specs.Transactions.{IsWellFormedFragment};
ghost use Rattle.logged_fragments.specs.Effects.{effects, effects_of};

use std::alloc::Global;
use txn::{Fragment, Sequence, Txn};

/// A fragment with what its transactions tried to read and write, and, for each of them in order, whether it aborted. Those
/// behind the last flag committed, and flags behind the last transaction mean nothing.
#[derive(Clone, Drop, Debug)]
pub struct LoggedFragment {
    pub fragment: Fragment,
    pub aborted: Sequence<bool>,
}

/// A transaction that reads nothing and writes nothing.
fn idle(alloc: Global) -> Txn
    ensures { (result.reads ≡ []) × (result.writes ≡ []) }
{
    Txn {
        reads: Sequence::new(Vec::new(alloc)),
        writes: Sequence::new(Vec::new(alloc)),
    }
}

/// Puts an idle transaction in the place of each that is flagged.
fn make_idle(txns: &mut Sequence<Txn>, flags: &[bool])
    ensures { txns.new ≡ effects_of flags.now txns.old }
{
    for place in 0..flags.len() {
        if place < txns.len() && flags[place] {
            let none = idle(txns.allocator());
            txns.set(place, none);
        }
    }
}

impl LoggedFragment {
    /// The fragment, of whose transactions none aborted.
    pub fn committed(alloc: Global, fragment: Fragment) -> Self
        ensures { (result.fragment ≡ fragment) × (result.aborted ≡ []) }
    {
        LoggedFragment {
            fragment,
            aborted: Sequence::new(Vec::new(alloc)),
        }
    }

    /// What it did to the store, without taking memory: a transaction that aborted did nothing.
    pub fn into_effects(self) -> Fragment
        ensures effects { result ≡ effects self }
        ensures formed { (sessions : ℕ) → IsWellFormedFragment sessions self.fragment → IsWellFormedFragment sessions result }
    {
        let LoggedFragment { fragment, aborted } = self;
        let mut fragment = fragment;
        make_idle(&mut fragment.txns, aborted.as_slice());
        fragment
    }
}
