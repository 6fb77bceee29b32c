ghost use Rattle.std.specs.Prelude.{◌≡◌, [], ◌∷◌, ◌++◌, ◌+◌, ◌≤◌, ◌^◌, length, OnOk, OnErr, IfOk, MatchResult};
ghost use Rattle.std.specs.Option.{option_to_list};
ghost use Rattle.txn.specs.Transactions.{FragmentFault, IsWellFormedFragment};
ghost use Rattle.logged_fragments.specs.Effects.{effects};
ghost use Rattle.order_check.specs.Good.{IsGood};
ghost use Rattle.order_check.specs.StandsFor.{parts_with};
ghost use Rattle.round_state.specs.Awaiting.{awaited_of, awaited_from, HaveArrived};
ghost use Rattle.round_state.specs.Steps.{IsAdmitted, IntakeFault};
ghost use Rattle.round_state.specs.Tracked.{AreMarksOf, IsTracked};

use logged_fragments::LoggedFragment;
use order_check::Parts;
use pending_reads::{PendingRead, PendingReads};
use session_marks::Marks;
use std::alloc::Global;
use txn::{Fragment, NoMemory, Refusal, Source, Txn, TxnId, check_fragment};

/// What the fragment did to the store, where it is well formed as it was logged and sessions are numbered below this; if not, its first fault.
pub(crate) fn effects_of(sessions: u64, logged: LoggedFragment) -> Result<Fragment, Refusal>
    ensures judged { MatchResult result (λ _. IsWellFormedFragment sessions logged.fragment) (FragmentFault sessions logged.fragment) }
    ensures effects { IfOk result (λ fragment. (fragment ≡ effects logged) × IsWellFormedFragment sessions fragment) }
{
    check_fragment(sessions, &logged.fragment)?;
    Ok(logged.into_effects())
}

/// Whether a well-formed fragment is next in an open session and finds room; if not, why.
pub(crate) fn admit(parts: &Parts, marks: &Marks, fragment: &Fragment) -> Result<(), Refusal>
    requires good { IsGood parts.now }
    requires marks { AreMarksOf marks.now parts.now }
    requires well_formed { IsWellFormedFragment parts.now.most_sessions fragment.now }
    ensures { MatchResult result (λ _. IsAdmitted parts.now fragment.now) (IntakeFault parts.now fragment.now) }
{
    marks.admit(fragment)?;
    if (parts.remaining_count() + fragment.txns.len()) as u64 > parts.limit {
        return Err(Refusal::Backlog);
    }
    Ok(())
}

/// The read, where it waits for a transaction that wasn't received.
fn awaited_read(marks: &Marks, reader: TxnId, key: u64, source: Source) -> Option<PendingRead>
    ensures { option_to_list result ≡ awaited_of marks.now reader ((key, source) ∷ []) }
{
    match source {
        Source::Init => None,
        Source::By(writer) => {
            if marks.is_received(writer) {
                return None;
            }
            Some(PendingRead {
                reader,
                key,
                writer,
            })
        }
    }
}

/// Puts those reads of a transaction that wait for one that wasn't received at the end.
fn push_awaited(
    awaited: &mut Vec<PendingRead>,
    marks: &Marks,
    reader: TxnId,
    txn: &Txn,
) -> Result<(), NoMemory>
    ensures { OnOk result (awaited.new.items ≡ awaited.old.items ++ awaited_of marks.now reader txn.now.reads) }
{
    let reads = txn.reads.as_slice();
    for place in 0..reads.len() {
        let (key, source) = reads[place];
        if let Some(read) = awaited_read(marks, reader, key, source) {
            awaited.push(read)?;
        }
    }
    Ok(())
}

/// The reads of transactions of a session that wait for one that wasn't received, where the first has this number.
pub(crate) fn awaited_reads(
    alloc: Global,
    marks: &Marks,
    session: u8,
    first: u64,
    txns: &[Txn],
) -> Result<Vec<PendingRead>, NoMemory>
    requires { first + length txns.now ≤ 2 ^ 48 }
    ensures { IfOk result (λ awaited. awaited.items ≡ awaited_from marks.now session first txns.now) }
{
    let mut awaited = Vec::new(alloc);
    for place in 0..txns.len() {
        let reader = TxnId {
            session,
            number: first + place as u64,
        };
        push_awaited(&mut awaited, marks, reader, &txns[place])?;
    }
    Ok(awaited)
}

/// Takes the reads out of the index that wait for these transactions.
pub(crate) fn arrive_all(waits: &mut PendingReads, session: u8, first: u64, count: u64)
    requires { first + count ≤ 2 ^ 48 }
    ensures { HaveArrived waits.old waits.new session first count }
{
    for number in first..first + count {
        waits.arrive(TxnId { session, number });
    }
}

/// Takes in a fragment that is admitted, or leaves the parts as they were.
pub(crate) fn take_in(
    alloc: Global,
    parts: &mut Parts,
    marks: &mut Marks,
    waits: &mut PendingReads,
    fragment: Fragment,
) -> Result<(), NoMemory>
    requires tracked { IsTracked marks.old waits.old parts.old }
    requires fits { IsAdmitted parts.old fragment }
    ensures tracked { IsTracked marks.new waits.new parts.new }
    ensures ok { OnOk result (parts.new ≡ parts_with parts.old fragment) }
    ensures err { OnErr result (parts.new ≡ parts.old) }
{
    let txns = fragment.txns.as_slice();
    let awaited = awaited_reads(alloc, marks, fragment.session, fragment.first, txns)?;
    let before = parts.remaining_of(fragment.session).len();
    let Fragment {
        session,
        first,
        txns,
    } = fragment;
    let count = txns.len() as u64;
    let place = usize::from(session);
    parts.remain.append_at(place, txns)?;
    if let Err(refused) = waits.add_all(awaited.as_slice()) {
        parts.remain.truncate_at(place, before);
        return Err(refused);
    }
    marks.receive(session, count);
    arrive_all(waits, session, first, count);
    Ok(())
}
