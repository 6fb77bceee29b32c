//! What is handed over of an audit whose transactions are split, by transactions as they were offered.
ghost use Rattle.std.specs.Prelude.{◌≡◌, ◌↔◌, ◌+◌, ◌*◌, ◌<◌, ◌≤◌, ◌^◌, All, cond, drop, map, nat_eq, IfOk, IsTrue, MatchResult};
ghost use Rattle.order_check.specs.Based.{received_count};
ghost use Rattle.log_text.specs.declared.commands.Command.{Command};
ghost use Rattle.isolation_histories.specs.Halves.{begin_half, commit_half};
ghost use Rattle.isolation_histories.specs.Splittable.{HasRoomToSplit};
ghost use Rattle.isolation_scripts.specs.Handed.{HaveHalves, CanBeHanded, half_marks, taken_half, taken_fragment, half_command};

use isolation_histories::{has_room_to_split, split_fragment};
use log_text::Command;
use logged_fragments::LoggedFragment;
use order_check::Parts;
use std::alloc::Global;
use txn::{EPOCH, Fragment, NoMemory, Refusal, Sequence, Txn, TxnId};

/// Keys from here on are stars.
const KEYS: u64 = 1 << 63;

/// Transactions are numbered below it.
const NUMBERS: u64 = 1 << 47;

/// Whether there is a flag for each mark, and no mark above 2^47.
pub fn have_halves(marks: &[u64], begun: &[bool]) -> bool
    ensures { IsTrue result ↔ HaveHalves marks.now begun.now }
{
    begun.len() == marks.len() && marks.iter().all(|mark| *mark <= NUMBERS)
}

fn half_mark(mark: u64, begun: bool) -> u64
    requires { mark ≤ 2 ^ 47 }
    ensures { result ≡ cond begun (2 * mark + 1) (2 * mark) }
{
    if begun { 2 * mark + 1 } else { 2 * mark }
}

/// How many halves of each session are gone.
pub fn half_marks(alloc: Global, marks: &[u64], begun: &[bool]) -> Result<Sequence<u64>, NoMemory>
    requires { HaveHalves marks.now begun.now }
    ensures { IfOk result (λ halves. halves ≡ half_marks marks.now begun.now) }
{
    let mut halves = Vec::with_capacity(alloc, marks.len())?;
    for place in 0..marks.len() {
        halves.push(half_mark(marks[place], begun[place]))?;
    }
    Ok(Sequence::new(halves))
}

fn is_low(entry: &(u64, TxnId)) -> bool
    ensures { IsTrue result ↔ (entry.now.1.number < 2 ^ 47) }
{
    entry.1.number < NUMBERS
}

fn are_low(writers: &[(u64, TxnId)]) -> bool
    ensures { IsTrue result ↔ All (λ entry. entry.1.number < 2 ^ 47) writers.now }
{
    writers.iter().all(|entry| is_low(entry))
}

fn half_of(id: TxnId, is_commit: bool) -> TxnId
    requires { id.number < 2 ^ 47 }
    ensures { result ≡ cond is_commit (commit_half id) (begin_half id) }
{
    let begin = 2 * id.number;
    TxnId {
        session: id.session,
        number: if is_commit { begin + 1 } else { begin },
    }
}

fn taken_half(entry: (u64, TxnId)) -> (u64, TxnId)
    requires { entry.1.number < 2 ^ 47 }
    ensures { result ≡ taken_half entry }
{
    let (key, id) = entry;
    if key < KEYS {
        return (key, half_of(id, true));
    }
    let own = if key == KEYS { EPOCH } else { key };
    (own, half_of(id, false))
}

fn taken_writers(
    alloc: Global,
    writers: &[(u64, TxnId)],
) -> Result<Sequence<(u64, TxnId)>, NoMemory>
    requires { All (λ entry. entry.1.number < 2 ^ 47) writers.now }
    ensures { IfOk result (λ taken. taken ≡ map taken_half writers.now) }
{
    let mut taken = Vec::with_capacity(alloc, writers.len())?;
    for entry in writers {
        let half = taken_half(*entry);
        taken.push(half)?;
    }
    Ok(Sequence::new(taken))
}

/// Whether this half comes next in the session.
fn is_next(parts: &Parts, session: u8, half: u64) -> bool
    ensures { result ≡ nat_eq (received_count parts.now session) half }
{
    let remaining = parts.remaining_of(session).len() as u64;
    match parts.mark_of(session).checked_add(remaining) {
        Some(next) => next == half,
        None => false,
    }
}

fn without_first(txns: Sequence<Txn>) -> Sequence<Txn>
    ensures { result ≡ drop 1 txns }
{
    let mut rest = txns.into_vec();
    if !rest.is_empty() {
        rest.drain(..1);
    }
    Sequence::new(rest)
}

fn taken_fragment(alloc: Global, parts: &Parts, fragment: &Fragment) -> Result<Fragment, NoMemory>
    requires { HasRoomToSplit fragment.now }
    ensures { IfOk result (λ taken. taken ≡ taken_fragment (received_count parts.now fragment.now.session) fragment.now) }
{
    let split = split_fragment(alloc, fragment)?;
    let commit = 2 * fragment.first + 1;
    if !is_next(parts, fragment.session, commit) {
        return Ok(split);
    }
    Ok(Fragment {
        session: fragment.session,
        first: commit,
        txns: without_first(split.txns),
    })
}

fn taken_offer(
    alloc: Global,
    parts: &Parts,
    logged: LoggedFragment,
) -> Result<Result<Command, Refusal>, NoMemory>
    ensures { IfOk result (λ judged. MatchResult judged
        (λ taken. HasRoomToSplit logged.fragment × (taken ≡ half_command parts.now (Command.Offer logged)))
        (λ refusal. (refusal ≡ Refusal.BadParts) × (¬ HasRoomToSplit logged.fragment))) }
{
    if !has_room_to_split(&logged.fragment) {
        return Ok(Err(Refusal::BadParts));
    }
    let fragment = taken_fragment(alloc, parts, &logged.fragment)?;
    Ok(Ok(Command::Offer(LoggedFragment {
        fragment,
        aborted: logged.aborted,
    })))
}

/// What is handed over of split parts, of which so much was; BadParts where a number or a key leaves no room for halves.
pub fn half_command(
    alloc: Global,
    parts: &Parts,
    command: Command,
) -> Result<Result<Command, Refusal>, NoMemory>
    ensures halves { IfOk result (λ judged. MatchResult judged
        (λ half. CanBeHanded command × (half ≡ half_command parts.now command))
        (λ refusal. (refusal ≡ Refusal.BadParts) × (¬ CanBeHanded command))) }
{
    match command {
        Command::Last(more) => {
            if !are_low(more.as_slice()) {
                return Ok(Err(Refusal::BadParts));
            }
            Ok(Ok(Command::Last(taken_writers(alloc, more.as_slice())?)))
        }
        Command::Offer(logged) => taken_offer(alloc, parts, logged),
        command => Ok(Ok(command)),
    }
}
