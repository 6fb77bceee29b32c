// What a command says, as a word and three numbers.
use log_text::{Command, Opening, Promise, Search, Shown, Version, Wanted};
use logged_fragments::LoggedFragment;

// What a script is opened for.
fn promised(promise: Promise) -> (&'static str, Version) {
    match promise {
        Promise::Resumable(Opening::Ordered(version)) => ("open", version),
        Promise::Resumable(Opening::Isolated(version)) => ("open isolated", version),
        Promise::Strict(version) => ("open strict", version),
    }
}

// What a command says, for comparison; the transactions of an offer and of a join are counted.
pub(crate) fn numbers_of(command: &Command) -> (&'static str, [u64; 3]) {
    match command {
        Command::Start {
            sessions,
            limit,
            promise,
        } => {
            let (name, version) = promised(*promise);
            (name, [*sessions, *limit, version_number(version)])
        }
        Command::Offer(logged) => ("offer", fragment_numbers(logged)),
        Command::OfferTimed {
            logged,
            began,
            ended,
        } => {
            let numbers = [
                logged.fragment.txns.len() as u64,
                times_sum(began.as_slice()),
                times_sum(ended.as_slice()),
            ];
            ("offer timed", numbers)
        }
        Command::Join(logged) => ("join", fragment_numbers(logged)),
        Command::Close(session) => ("close", [u64::from(*session), 0, 0]),
        Command::Begin => ("begin", [0, 0, 0]),
        Command::Finish {
            budget,
            depth,
            workers,
            search: Search::Plain,
        } => ("finish", [*budget, *depth, *workers]),
        Command::Finish {
            budget,
            depth,
            workers,
            search: Search::Guided,
        } => ("guided finish", [*budget, *depth, *workers]),
        Command::Round {
            budget,
            depth,
            workers,
            search: Search::Plain,
        } => ("round", [*budget, *depth, *workers]),
        Command::Round {
            budget,
            depth,
            workers,
            search: Search::Guided,
        } => ("guided round", [*budget, *depth, *workers]),
        Command::BeginSearch {
            budget,
            depth,
            workers,
            search: Search::Plain,
        } => ("search", [*budget, *depth, *workers]),
        Command::BeginSearch {
            budget,
            depth,
            workers,
            search: Search::Guided,
        } => ("guided search", [*budget, *depth, *workers]),
        Command::Collect { waits } => ("collect", [u64::from(*waits), 0, 0]),
        Command::Skip => ("skip", [0, 0, 0]),
        Command::Truncate => ("truncate", [0, 0, 0]),
        Command::Rebuild => ("rebuild", [0, 0, 0]),
        Command::Show => ("show", [0, 0, 0]),
        Command::Resume {
            sessions,
            limit,
            opening,
        } => ("resume", [*sessions, *limit, opening_number(*opening)]),
        Command::Marks { marks, closed } => {
            ("marks", [marks.len() as u64, closed.len() as u64, 0])
        }
        Command::MarksBegun {
            marks,
            closed,
            begun,
        } => {
            let numbers = [marks.len() as u64, closed.len() as u64, begun.len() as u64];
            ("marks begun", numbers)
        }
        Command::Last(writers) => ("last", [writers.len() as u64, 0, 0]),
        Command::Resumed => ("resumed", [0, 0, 0]),
        Command::Save(wanted) => saved_numbers(*wanted),
        Command::Answer(shown) => shown_numbers(shown),
    }
}

// Times by their places, so that their order tells.
fn times_sum(times: &[u64]) -> u64 {
    let mut sum = 0u64;
    for time in times {
        sum = sum.wrapping_mul(10).wrapping_add(*time);
    }
    sum
}

fn opening_number(opening: Opening) -> u64 {
    match opening {
        Opening::Ordered(version) => version_number(version),
        Opening::Isolated(version) => version_number(version).wrapping_add(10),
    }
}

fn version_number(version: Version) -> u64 {
    match version {
        Version::One => 1,
        Version::Two => 2,
        Version::Three => 3,
    }
}

fn fragment_numbers(logged: &LoggedFragment) -> [u64; 3] {
    [
        u64::from(logged.fragment.session),
        logged.fragment.first,
        logged.fragment.txns.len() as u64,
    ]
}

fn saved_numbers(wanted: Wanted) -> (&'static str, [u64; 3]) {
    match wanted {
        Wanted::Marks => ("save marks", [0, 0, 0]),
        Wanted::Last { key } => ("save last", [key, 0, 0]),
        Wanted::Remain { session, number } => ("save remain", [u64::from(session), number, 0]),
    }
}

// The trees that are handed in are told by `reply_texts`.
fn shown_numbers(shown: &Shown) -> (&'static str, [u64; 3]) {
    match shown {
        Shown::Order(order) => ("answer order", [order.len() as u64, 0, 0]),
        Shown::Refuted(_) => ("answer refuted", [0, 0, 0]),
    }
}
