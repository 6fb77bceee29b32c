ghost use Rattle.std.specs.Prelude.{◌≡◌, ◌+◌, ◌<◌, [], ◌∷◌, IfOk, true, false};
ghost use Rattle.demonstration.specs.Work.{own_keys, IsRequestOf};

use demo_store::Request;
use std::alloc::Global;
use txn::{NoMemory, Sequence};

/// How many requests a collector executes.
pub const STEPS: u64 = 9;

/// The keys of which a session reads some and writes some, each of the two lists strictly ascending.
fn request(session: u8, reads: Vec<u64>, writes: Vec<u64>) -> Request
    ensures { (result.session ≡ session) × (result.reads ≡ reads.items) × (result.writes ≡ writes.items) × (result.abort ≡ false) }
{
    Request {
        session,
        reads: Sequence::new(reads),
        writes: Sequence::new(writes),
        abort: false,
    }
}

/// A request that writes a key and aborts.
fn attempt(session: u8, writes: Vec<u64>) -> Request
    ensures { (result.session ≡ session) × (result.reads ≡ []) × (result.writes ≡ writes.items) × (result.abort ≡ true) }
{
    Request {
        session,
        reads: Sequence::new(Vec::new(*writes.allocator())),
        writes: Sequence::new(writes),
        abort: true,
    }
}

/// The key that a session writes in vain.
fn vain_key(alloc: Global, session: u8) -> Result<Vec<u64>, NoMemory>
    ensures { IfOk result (λ keys. keys.items ≡ (30 + session) ∷ []) }
{
    Ok(vec![in alloc; 30 + u64::from(session)]?)
}

/// Two keys that no other session reads or writes.
fn own_keys(alloc: Global, session: u8) -> Result<Vec<u64>, NoMemory>
    ensures { IfOk result (λ keys. keys.items ≡ own_keys session) }
{
    let first = 10 + 2 * u64::from(session);
    Ok(vec![in alloc; first, first + 1]?)
}

/// A request that reads and writes one key.
fn update(alloc: Global, session: u8, key: u64) -> Result<Request, NoMemory>
    ensures { IfOk result (λ request. (request.session ≡ session) × (request.reads ≡ key ∷ []) × (request.writes ≡ key ∷ []) × (request.abort ≡ false)) }
{
    let reads = vec![in alloc; key]?;
    let writes = vec![in alloc; key]?;
    Ok(request(session, reads, writes))
}

/// What a session asks of the store at this step.
pub fn request_of(alloc: Global, session: u8, step: u64) -> Result<Request, NoMemory>
    requires { step < 9 }
    ensures { IfOk result (IsRequestOf session step) }
{
    match step {
        0 => Ok(request(session, Vec::new(alloc), own_keys(alloc, session)?)),
        1 => Ok(request(session, own_keys(alloc, session)?, Vec::new(alloc))),
        2 => Ok(attempt(session, vain_key(alloc, session)?)),
        3 => Ok(request(session, vain_key(alloc, session)?, Vec::new(alloc))),
        4 | 6 => update(alloc, session, 1),
        5 | 8 => update(alloc, session, 0),
        7 => update(alloc, session, 2),
        _ => unreachable!(),
    }
}
