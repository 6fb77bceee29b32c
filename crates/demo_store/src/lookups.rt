ghost use Rattle.std.specs.Prelude.{◌≡◌, ◌<◌, ◌↔◌, length, Contains, IfSome, IsTrue, Some};
ghost use Rattle.txn.specs.History.{writes_key};
ghost use Rattle.demo_store.specs.Logs.{of_session, IsLastLost, IsLastPlace, IsSourceIn};

use crate::requests::Executed;
use txn::{Source, TxnId};

pub fn writes(executed: &Executed, key: u64) -> bool
    ensures { result ≡ writes_key (Some executed.now.txn) key }
{
    executed.txn.writes.as_slice().contains(&key)
}

/// The place of the last transaction that wrote the key.
pub fn last_place(log: &[Executed], key: u64) -> Option<usize>
    ensures last { IsLastPlace log.now key result }
    ensures within { IfSome result (λ place. place < length log.now) }
{
    let mut last = None;
    for place in 0..log.len() {
        if writes(&log[place], key) {
            last = Some(place);
        }
    }
    last
}

/// The last writer of the key, or the initial state.
pub fn source_of(log: &[Executed], key: u64) -> Source
    ensures { IsSourceIn log.now key result }
{
    match last_place(log, key) {
        Some(place) => Source::By(log[place].id),
        None => Source::Init,
    }
}

/// Whether it wrote the key in vain.
fn lost(executed: &Executed, key: u64) -> bool
    ensures { IsTrue result ↔ Contains executed.now.lost key }
{
    executed.lost.as_slice().contains(&key)
}

/// The last of the aborted transactions that wrote the key.
pub fn last_lost(log: &[Executed], key: u64) -> Option<TxnId>
    ensures { IsLastLost log.now key result }
{
    let mut last = None;
    for place in 0..log.len() {
        let executed = &log[place];
        if lost(executed, key) {
            last = Some(executed.id);
        }
    }
    last
}

/// How many transactions of the session were executed.
pub fn count_of(log: &[Executed], session: u8) -> u64
    ensures { result ≡ length (of_session session log.now) }
{
    let mut count = 0u64;
    for executed in log {
        if executed.id.session == session {
            count += 1;
        }
    }
    count
}
