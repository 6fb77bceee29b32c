//! The auditor without queues and threads: what it tells of parcels, of a round whose budget is spent, and of one that finds a violation.
ghost use Rattle.std.specs.Prelude.{◌≡◌, None, IfOk};
ghost use Rattle.order_check.specs.Effort.{IsEffort};

use fragment_intake::{Item, Parcel};
use live_audit::Core;
use logged_fragments::LoggedFragment;
use order_check::Kind;
use polygraph::{Single, Solver};
use report_queue::Entry;
use round_state::Engine;
use std::alloc::{AllocError, Global};
use std::process::Abort;
use std::test::*;
use txn::{Fragment, NoMemory, Refusal, Sequence, Source, Txn, TxnId};

/// A key, and which session's first transaction it is read from.
type Read = (u64, u8);

/// What the first transaction of each of eight sessions reads, and which keys it writes. The choices between the writers of keys 1 and 2 are open, and
/// none is forced before one is taken.
static SPLIT: [(&'static [Read], &'static [u64]); 8] = [
    (&[], &[1, 3]),
    (&[], &[1, 4]),
    (&[], &[2, 5]),
    (&[], &[2, 6]),
    (&[(1, 0), (5, 2), (6, 3)], &[]),
    (&[(1, 1), (5, 2), (6, 3)], &[]),
    (&[(2, 2), (3, 0), (4, 1)], &[]),
    (&[(2, 3), (3, 0), (4, 1)], &[]),
];

fn reads_of(alloc: Global, reads: &[Read]) -> Result<Sequence<(u64, Source)>, NoMemory> {
    let mut all = Vec::new(alloc);
    for (key, session) in reads {
        let source = TxnId {
            session: *session,
            number: 0,
        };
        all.push((*key, Source::By(source)))?;
    }
    Ok(Sequence::new(all))
}

/// The parcel of collector 0 with this first transaction of a session.
fn parcel_of(alloc: Global, session: u8) -> Result<Parcel, NoMemory> {
    let (reads, writes) = SPLIT
        .get(usize::from(session))
        .copied()
        .unwrap_or((&[], &[]));
    let txn = Txn {
        reads: reads_of(alloc, reads)?,
        writes: Sequence::new(writes.to_vec(alloc)?),
    };
    let fragment = Fragment {
        session,
        first: 0,
        txns: Sequence::new(vec![in alloc; txn]?),
    };
    Ok(Parcel {
        collector: 0,
        place: u64::from(session),
        item: Item::Fragment(LoggedFragment::committed(alloc, fragment)),
    })
}

/// What a round comes to: its number and its kind, if it is reported, and whether anything is told behind it.
fn round(alloc: Global, core: &mut Core) -> Option<(u64, Kind, bool)>
    requires effort { IsEffort core.old.search.budget core.old.search.depth 1 }
    requires closed { core.old.engine.asked ≡ None }
    ensures search { core.new.search ≡ core.old.search }
    ensures closed { core.new.engine.asked ≡ None }
{
    let problem = match core.begin() {
        Ok(problem) => problem,
        Err(_) => return None,
    };
    let (budget, depth) = core.search();
    let answer = Single.solve(alloc, &problem, budget, depth, 1);
    let (outcome, more) = core.answered(answer);
    match &outcome {
        Entry::Report(report) => Some((report.round, report.kind, more.is_some())),
        _ => None,
    }
}

fn open_engine(alloc: Global) -> Result<Engine, NoMemory>
    ensures { IfOk result (λ engine. engine.asked ≡ None) }
{
    match Engine::open(alloc, 64, 8, 64) {
        Ok(engine) => Ok(engine),
        Err(_) => Err(AllocError),
    }
}

/// Hands in what there is, each parcel once, and the first one again.
fn take_all(rt: &impl Abort, alloc: Global, core: &mut Core) -> Result<(), NoMemory>
    requires closed { core.old.engine.asked ≡ None }
    ensures search { core.new.search ≡ core.old.search }
    ensures closed { core.new.engine.asked ≡ None }
{
    for session in 0..8u8 {
        let told = core.took(parcel_of(alloc, session)?);
        assert!(rt;
            matches!(told, Entry::Accepted { collector: 0, place } if place == u64::from(session))
        );
    }
    let told = core.took(parcel_of(alloc, 0)?);
    let is_repeat = matches!(
        told,
        Entry::Refused {
            collector: 0,
            place: 0,
            refusal: Refusal::Repeat
        }
    );
    assert!(rt; is_repeat);
    Ok(())
}

/// Two rounds within this budget come to this kind: a spent one is reported as such, and nothing is refused.
fn rounds_come_to(rt: &impl Abort, alloc: Global, budget: u64, kind: Kind) -> Result<(), NoMemory>
    requires { IsEffort budget 0 1 }
{
    let mut core = Core::new(alloc, open_engine(alloc)?, budget, 0);
    take_all(rt, alloc, &mut core)?;
    let first = round(alloc, &mut core);
    let second = round(alloc, &mut core);
    assert_eq!(rt; first, Some((1, kind, false)));
    assert_eq!(rt; second, Some((2, kind, false)));
    Ok(())
}

#[test]
fn a_round_is_spent_where_its_budget_is(rt: HostRuntime) -> Result<(), Fail> {
    rounds_come_to(&rt, rt.alloc(), 1, Kind::Spent)?;
    Ok(rounds_come_to(&rt, rt.alloc(), 32, Kind::Violated)?)
}
