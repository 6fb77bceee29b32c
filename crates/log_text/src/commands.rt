ghost use Rattle.std.specs.Prelude.{◌≡◌, IfSome};
ghost use Rattle.serde_json.specs.View.{view, items_view};
ghost use Rattle.order_check.specs.Effort.{IsEffort};
ghost use Rattle.serde_json.specs.Data.{string};
ghost use Rattle.log_text.specs.Items.{alone, one_item, two_items};
ghost use Rattle.log_text.specs.Lines.{plain_named};
ghost use Rattle.log_text.specs.Numbers.{whole_number, session_of};
ghost use Rattle.log_text.specs.Commands.{start_in, close_in, effort_in, finish_in, round_in, begin_search_in, waits_by, waits_in, collect_in, resume_in, save_named, save_in, HasLimits};

use crate::numbers::{number_within, session_of, whole_number};
use crate::searches::{Search, search_in};
use crate::shown::Shown;
use crate::versions::{Opening, Promise, opening_in, promise_in};
use logged_fragments::LoggedFragment;
use serde_json::Value;
use txn::{Sequence, TxnId};

const MOST_BUDGET: u64 = 1 << 32;

const MOST_DEPTH: u64 = 6;

const MOST_WORKERS: u64 = 16;

/// What a line of a script asks for.
#[derive(Drop, Debug)]
pub enum Command {
    /// To open a script that is asked for this.
    Start {
        sessions: u64,
        limit: u64,
        promise: Promise,
    },
    /// To take a fragment: it has a flag for each of its transactions, whether it is told to have aborted.
    Offer(LoggedFragment),
    /// To take one, with when each of its transactions began and when it ended.
    OfferTimed {
        logged: LoggedFragment,
        began: Sequence<u64>,
        ended: Sequence<u64>,
    },
    /// To let a session join with a fragment, or come back with it.
    Join(LoggedFragment),
    /// To close a session.
    Close(u8),
    /// To begin a round.
    Begin,
    /// To search, and finish the round that is open.
    Finish {
        budget: u64,
        depth: u64,
        workers: u64,
        search: Search,
    },
    /// To begin a round, search, and finish it.
    Round {
        budget: u64,
        depth: u64,
        workers: u64,
        search: Search,
    },
    /// To search for the round that is open, beside the lines that come next.
    BeginSearch {
        budget: u64,
        depth: u64,
        workers: u64,
        search: Search,
    },
    /// To finish the open round by what its search has found, where that has ended or is waited for.
    Collect {
        waits: bool,
    },
    /// To give the search up, and the round that is open.
    Skip,
    /// To apply the cut that the engine holds.
    Truncate,
    /// To have the engine made anew of its parts.
    Rebuild,
    /// To tell the state.
    Show,
    /// To begin with parts, which are handed over next, and to go on as in a script that is opened for this.
    Resume {
        sessions: u64,
        limit: u64,
        opening: Opening,
    },
    /// Handed over: of each session how many transactions are gone, and whether it is closed.
    Marks {
        marks: Sequence<u64>,
        closed: Sequence<bool>,
    },
    /// The same, and whether the begin of the next transaction is gone, so that its commit alone remains.
    MarksBegun {
        marks: Sequence<u64>,
        closed: Sequence<bool>,
        begun: Sequence<bool>,
    },
    /// Handed over: last gone writers.
    Last(Sequence<(u64, TxnId)>),
    /// To end the hand-over.
    Resumed,
    /// To give parts out.
    Save(Wanted),
    /// To finish the round that is open by what is shown, which is judged.
    Answer(Shown),
}

/// Which parts are to be given out.
#[derive(Clone, Copy, Debug)]
pub enum Wanted {
    /// How many transactions of each session are gone, and which sessions are closed.
    Marks,
    /// The last gone writers of the keys from this one on.
    Last { key: u64 },
    /// What remains of a session from this number on.
    Remain { session: u8, number: u64 },
}

/// Which search a round is to make, and what that may cost.
#[derive(Clone, Copy)]
pub struct Effort {
    pub budget: u64,
    pub depth: u64,
    pub workers: u64,
    pub search: Search,
}

#[tactic(auto, using(crate::proofs::Arity::alone_none))]
fn alone(command: Command, parts: &[Value]) -> Option<Command>
    ensures form { result ≡ alone command (items_view parts.now) }
    ensures given { IfSome result (λ given. given ≡ command) }
{
    if parts.is_empty() {
        Some(command)
    } else {
        None
    }
}

#[tactic(auto, using(crate::proofs::Arity::start_none))]
fn start_in(parts: &[Value]) -> Option<Command>
    ensures form { result ≡ start_in (items_view parts.now) }
    ensures limits { IfSome result HasLimits }
{
    match parts {
        [sessions, limit, behind @ ..] => Some(Command::Start {
            sessions: whole_number(sessions)?,
            limit: whole_number(limit)?,
            promise: promise_in(behind)?,
        }),
        _ => None,
    }
}

#[tactic(auto, using(crate::proofs::Arity::one_item_none))]
fn close_in(parts: &[Value]) -> Option<Command>
    ensures form { result ≡ close_in (items_view parts.now) }
    ensures limits { IfSome result HasLimits }
{
    match parts {
        [session] => Some(Command::Close(session_of(session)?)),
        _ => None,
    }
}

#[tactic(auto, using(crate::proofs::Arity::effort_none))]
fn effort_in(parts: &[Value]) -> Option<Effort>
    ensures form { result ≡ effort_in (items_view parts.now) }
    ensures limits { IfSome result (λ effort. IsEffort effort.budget effort.depth effort.workers) }
{
    match parts {
        [budget, depth, workers, behind @ ..] => Some(Effort {
            budget: number_within(1, MOST_BUDGET, budget)?,
            depth: number_within(0, MOST_DEPTH, depth)?,
            workers: number_within(1, MOST_WORKERS, workers)?,
            search: search_in(behind)?,
        }),
        _ => None,
    }
}

fn finish_in(parts: &[Value]) -> Option<Command>
    ensures form { result ≡ finish_in (items_view parts.now) }
    ensures limits { IfSome result HasLimits }
{
    let Effort {
        budget,
        depth,
        workers,
        search,
    } = effort_in(parts)?;
    Some(Command::Finish {
        budget,
        depth,
        workers,
        search,
    })
}

fn round_in(parts: &[Value]) -> Option<Command>
    ensures form { result ≡ round_in (items_view parts.now) }
    ensures limits { IfSome result HasLimits }
{
    let Effort {
        budget,
        depth,
        workers,
        search,
    } = effort_in(parts)?;
    Some(Command::Round {
        budget,
        depth,
        workers,
        search,
    })
}

fn begin_search_in(parts: &[Value]) -> Option<Command>
    ensures form { result ≡ begin_search_in (items_view parts.now) }
    ensures limits { IfSome result HasLimits }
{
    let Effort {
        budget,
        depth,
        workers,
        search,
    } = effort_in(parts)?;
    Some(Command::BeginSearch {
        budget,
        depth,
        workers,
        search,
    })
}

fn waits_named(name: &str) -> Option<bool>
    ensures { result ≡ waits_by (string name.now) }
{
    if name == "wait" { Some(true) } else { None }
}

fn waits_by(value: &Value) -> Option<bool>
    ensures { result ≡ waits_by (view value.now) }
{
    waits_named(value.as_str()?)
}

#[tactic(auto, using(crate::proofs::Arity::waits_none))]
fn waits_in(behind: &[Value]) -> Option<bool>
    ensures { result ≡ waits_in (items_view behind.now) }
{
    match behind {
        [] => Some(false),
        [word] => waits_by(word),
        _ => None,
    }
}

fn collect_in(parts: &[Value]) -> Option<Command>
    ensures form { result ≡ collect_in (items_view parts.now) }
    ensures limits { IfSome result HasLimits }
{
    Some(Command::Collect {
        waits: waits_in(parts)?,
    })
}

#[tactic(auto, using(crate::proofs::Arity::resume_none))]
fn resume_in(parts: &[Value]) -> Option<Command>
    ensures form { result ≡ resume_in (items_view parts.now) }
    ensures limits { IfSome result HasLimits }
{
    match parts {
        [sessions, limit, behind @ ..] => Some(Command::Resume {
            sessions: whole_number(sessions)?,
            limit: whole_number(limit)?,
            opening: opening_in(behind)?,
        }),
        _ => None,
    }
}

#[tactic(auto, using(crate::proofs::Arity::one_item_none))]
fn last_wanted(parts: &[Value]) -> Option<Command>
    ensures form { result ≡ one_item (λ key. Command.Save (Wanted.Last key)) whole_number (items_view parts.now) }
    ensures limits { IfSome result HasLimits }
{
    match parts {
        [key] => Some(Command::Save(Wanted::Last {
            key: whole_number(key)?,
        })),
        _ => None,
    }
}

#[tactic(auto, using(crate::proofs::Arity::two_items_none))]
fn remain_wanted(parts: &[Value]) -> Option<Command>
    ensures form { result ≡ two_items (λ session place. Command.Save (Wanted.Remain session place)) session_of whole_number (items_view parts.now) }
    ensures limits { IfSome result HasLimits }
{
    match parts {
        [session, number] => Some(Command::Save(Wanted::Remain {
            session: session_of(session)?,
            number: whole_number(number)?,
        })),
        _ => None,
    }
}

fn save_named(name: &str, parts: &[Value]) -> Option<Command>
    ensures form { result ≡ save_named name.now (items_view parts.now) }
    ensures limits { IfSome result HasLimits }
{
    match name {
        "marks" => alone(Command::Save(Wanted::Marks), parts),
        "last" => last_wanted(parts),
        "remain" => remain_wanted(parts),
        _ => None,
    }
}

fn save_in(items: &[Value]) -> Option<Command>
    ensures form { result ≡ save_in (items_view items.now) }
    ensures limits { IfSome result HasLimits }
{
    let [name, parts @ ..] = items else {
        return None;
    };
    save_named(name.as_str()?, parts)
}

/// The command of this name, where it is one whose parts are a few words and numbers.
pub(crate) fn plain_named(name: &str, parts: &[Value]) -> Option<Command>
    ensures form { result ≡ plain_named name.now (items_view parts.now) }
    ensures limits { IfSome result HasLimits }
{
    match name {
        "open" => start_in(parts),
        "close" => close_in(parts),
        "begin" => alone(Command::Begin, parts),
        "finish" => finish_in(parts),
        "round" => round_in(parts),
        "search" => begin_search_in(parts),
        "collect" => collect_in(parts),
        "skip" => alone(Command::Skip, parts),
        "truncate" => alone(Command::Truncate, parts),
        "rebuild" => alone(Command::Rebuild, parts),
        "show" => alone(Command::Show, parts),
        "resume" => resume_in(parts),
        "resumed" => alone(Command::Resumed, parts),
        "save" => save_in(parts),
        _ => None,
    }
}
