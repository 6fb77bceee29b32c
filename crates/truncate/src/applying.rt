ghost use Rattle.std.specs.Prelude.{◌≡◌, ◌+◌, ◌≤◌, ◌^◌, ℕ, length, OnOk, OnErr};
ghost use Rattle.txn.specs.History.{session_of};
ghost use Rattle.order_check.specs.Based.{mark_of};
ghost use Rattle.order_check.specs.Cutting.{CanBeApplied};
ghost use Rattle.order_check.specs.Good.{IsGood};
ghost use Rattle.order_check.specs.Settled.{IsCutOf, count_in};
ghost use Rattle.truncate.specs.Keeping.{KeepsStandsFor};
ghost use Rattle.truncate.specs.TakenOut.{AreCutBelow, AreRaisedBelow};

use crate::fronts::{drop_fronts, raise};
use crate::writers::overruled;
use order_check::{
    LastWriters, Parts, cut_keeps_good, cut_keeps_stands_for, settled_stays_settled,
};
use std::alloc::Global;
use std::mem::replace;
use txn::{NoMemory, Sequence, TxnId};

/// Takes the gone out of the parts, where nothing can fail any more.
fn take_out(alloc: Global, parts: &mut Parts, gone: &[TxnId], last: LastWriters)
    requires few { (s : ℕ) → count_in gone.now s ≤ length (session_of parts.old.remain s) }
    requires numbers { (s : ℕ) → mark_of parts.old s + count_in gone.now s ≤ 2 ^ 48 }
    ensures remain { AreCutBelow gone.now (length parts.old.remain) parts.old.remain parts.new.remain }
    ensures marks { AreRaisedBelow gone.now (length parts.old.base.marks) parts.old.base.marks parts.new.base.marks }
    ensures writers { parts.new.base.last ≡ last }
    ensures closed { parts.new.closed ≡ parts.old.closed }
    ensures bounds { (parts.new.most_sessions ≡ parts.old.most_sessions) × (parts.new.limit ≡ parts.old.limit) }
{
    let none = Sequence::new(Vec::new(alloc));
    let mut sessions = replace(&mut parts.remain, none).into_vec();
    drop_fronts(&mut sessions, gone);
    parts.remain = Sequence::new(sessions);
    raise(&mut parts.base.marks, gone);
    parts.base.last = last;
}

/// Takes the gone out, makes their last writers the base's, and raises the marks. What arrived later stays. Where memory is
/// wanting the parts are as they were.
pub fn apply(
    alloc: Global,
    parts: &mut Parts,
    gone: &[TxnId],
    last: &LastWriters,
) -> Result<(), NoMemory>
    requires good { IsGood parts.old }
    requires can { CanBeApplied parts.old gone.now last.now }
    ensures ok { OnOk result (IsCutOf parts.old parts.new gone.now last.now) }
    ensures good { OnOk result (IsGood parts.new) }
    ensures stands { OnOk result (KeepsStandsFor parts.old parts.new gone.now last.now) }
    ensures err { OnErr result (parts.new ≡ parts.old) }
{
    let writers = overruled(alloc, &parts.base.last, last)?;
    take_out(alloc, parts, gone, writers);
    // Laws that the proof cites. They do nothing when they run.
    cut_keeps_good();
    settled_stays_settled();
    cut_keeps_stands_for();
    Ok(())
}
