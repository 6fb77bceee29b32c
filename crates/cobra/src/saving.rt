//! What is given out of the parts of an engine.
ghost use Rattle.std.specs.Prelude.{◌≡◌, ◌-◌, take, IfOk};
ghost use Rattle.order_check.specs.Based.{mark_of, remaining_of, received_count};
ghost use Rattle.order_check.specs.Good.{IsGood};
ghost use Rattle.cobra.specs.Checkpoints.{GivenOutFits, GivenOutIsTaken, IsolatedOutIsTaken, WiderBoundsAreKept};
ghost use Rattle.cobra.specs.Saving.{writers_from, first_told, fragment_told, saved_told};

use isolation_scripts::given_is_taken;
use log_text::{Reply, Saved, Wanted};
use order_check::Parts;
use round_state::Engine;
use std::alloc::Global;
use txn::{Fragment, NoMemory, Refusal, Sequence, Txn, TxnId};

/// How many last writers are told at a time.
const MOST_WRITERS: usize = 16_384;

/// How many transactions are told at a time.
const MOST_TXNS: usize = 256;

fn writers_told(alloc: Global, parts: &Parts, key: u64) -> Result<Sequence<(u64, TxnId)>, NoMemory>
    ensures { IfOk result (λ writers. writers ≡ take 16384 (writers_from parts.now key)) }
{
    parts.base.last.entries_from(alloc, key, MOST_WRITERS)
}

fn first_told(parts: &Parts, session: u8, number: u64) -> u64
    requires { IsGood parts.now }
    ensures { result ≡ first_told parts.now session number }
{
    let received = parts.received_count(session);
    let within = if number < received { number } else { received };
    let mark = parts.mark_of(session);
    if within < mark { mark } else { within }
}

fn copy_of(txn: &Txn) -> Result<Txn, NoMemory>
    ensures { IfOk result (λ copy. copy ≡ txn.now) }
{
    txn.clone()
}

fn copied(alloc: Global, txns: &[Txn]) -> Result<Sequence<Txn>, NoMemory>
    ensures { IfOk result (λ copy. copy ≡ txns.now) }
{
    let mut copies = Vec::with_capacity(alloc, txns.len())?;
    for txn in txns {
        copies.push(copy_of(txn)?)?;
    }
    Ok(Sequence::new(copies))
}

/// The first of the transactions, as many as are told at a time.
fn front_of(txns: &[Txn]) -> &[Txn]
    ensures { result.now ≡ take 256 txns.now }
{
    if txns.len() < MOST_TXNS {
        txns
    } else {
        &txns[..MOST_TXNS]
    }
}

fn fragment_told(
    alloc: Global,
    parts: &Parts,
    session: u8,
    number: u64,
) -> Result<Fragment, NoMemory>
    requires { IsGood parts.now }
    ensures { IfOk result (λ fragment. fragment ≡ fragment_told parts.now session number) }
{
    let first = first_told(parts, session, number);
    let skipped = (first - parts.mark_of(session)) as usize;
    let rest = &parts.remaining_of(session)[skipped..];
    Ok(Fragment {
        session,
        first,
        txns: copied(alloc, front_of(rest))?,
    })
}

/// What was asked for of the parts, to be told.
pub fn saved_told(alloc: Global, engine: &Engine, wanted: Wanted) -> Result<Reply, NoMemory>
    ensures { IfOk result (λ answer. answer ≡ saved_told engine.now.parts wanted) }
{
    let parts = engine.parts();
    match wanted {
        Wanted::Marks => Ok(Reply::Saved(Saved::Marks {
            marks: parts.base.marks.clone()?,
            closed: parts.closed.clone()?,
        })),
        Wanted::Last { key } => Ok(Reply::Saved(Saved::Last(writers_told(alloc, parts, key)?))),
        Wanted::Remain { session, number } => {
            if usize::from(session) >= parts.remain.len() {
                return Ok(Reply::No(Refusal::BadSession));
            }
            let fragment = fragment_told(alloc, parts, session, number)?;
            Ok(Reply::Saved(Saved::Offer(fragment)))
        }
    }
}

/// Whatever is given out of parts, line after line, is taken where it is handed over under bounds that they keep, and comes to the same parts.
pub fn given_out_is_taken()
    ensures { GivenOutIsTaken }
{}

/// The same of parts whose transactions are split, by transactions as they were offered.
pub fn isolated_out_is_taken()
    ensures { IsolatedOutIsTaken }
{
    given_is_taken();
}

/// What good parts give out at once is no more than fits into a line.
pub fn given_out_fits()
    ensures { GivenOutFits }
{}

/// Good parts are good under wider bounds, too.
pub fn wider_bounds_are_kept()
    ensures { WiderBoundsAreKept }
{}
