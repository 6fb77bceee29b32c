ghost use Rattle.std.specs.Prelude.{◌≡◌, ◌<◌, ◌^◌, ◌||◌, if◌then◌else◌, ℕ, [], length, All, Any, IfOk, OnOk, OnErr, IsNone, IsSome, MatchOption, true, false};
ghost use Rattle.std.specs.Option.{ForSome};
ghost use Rattle.txn.specs.declared.transactions.Source.{Source};
ghost use Rattle.demo_store.specs.declared.requests.Fault.TheVariants.{None};
ghost use Rattle.demo_store.specs.Faults.{AnswersBut, IsLie, IsToldBut};
ghost use Rattle.demo_store.specs.Logs.{of_session, entry_of, Answers, IsSourceIn, AreOfKeys, IsExecuted, IsExplained};
ghost use Rattle.logged_fragments.specs.Effects.{idle};

use crate::faults::{Lie, lie_of};
use crate::lookups::{count_of, source_of};
use crate::requests::{Executed, Fault, Request};
use std::alloc::Global;
use std::marker::Model;
use txn::{NoMemory, Sequence, Source, Txn, TxnId};

/// A store whose only state is its log. Contracts see its fault, whether that has acted, and the log in order of execution.
#[derive(Drop, Debug)]
pub struct Store {
    fault: Fault,
    acted: bool,
    log: Sequence<Executed>,
}

impl Model for Store {
    ghost use Rattle.std.specs.Prelude.{[], ◌≡◌, false};
    ghost use Rattle.demo_store.specs.declared.requests.Fault.TheVariants.{None};
    ghost use Rattle.demo_store.specs.Logs.{StoreState, Follows, HasNextNumber, IsAnswered, ReadsRun};

    ghost Value = { StoreState };

    ghost view = { λ s. record { fault = s.fault; acted = s.acted; log = s.log } };

    ghost invariant = { λ s. Follows HasNextNumber [] s.log × (s.fault ≡ None → (s.acted ≡ false) × Follows IsAnswered [] s.log) × Follows ReadsRun [] s.log };
}

impl Store {
    pub fn new(alloc: Global, fault: Fault) -> Store
        ensures { result ≡ record { fault = fault; acted = false; log = [] } }
    {
        Store {
            fault,
            acted: false,
            log: Sequence::new(Vec::new(alloc)),
        }
    }

    pub fn fault(&self) -> Fault
        ensures { result ≡ self.now.fault }
    {
        self.fault
    }

    /// What was executed, in order.
    pub fn log(&self) -> &[Executed]
        ensures { result.now ≡ self.now.log }
    {
        self.log.as_slice()
    }

    /// How many transactions of the session were executed.
    pub fn executed(&self, session: u8) -> u64
        ensures { result ≡ length (of_session session self.now.log) }
    {
        count_of(self.log.as_slice(), session)
    }

    /// Executes a request as its session's next transaction, and gives what it read and wrote: each read is answered with the
    /// last writer of the key. One that aborts did nothing in the end. At the first request to which the fault applies, one key
    /// that isn't key 0 is answered as the fault has it. Where memory is refused nothing changed. It takes time of the log's
    /// length for each read.
    pub fn exec(&mut self, alloc: Global, request: Request) -> Result<Txn, NoMemory>
        requires session { request.session < 64 }
        requires room { length (of_session request.session self.old.log) < 2 ^ 48 }
        ensures done { IfOk result (λ txn. IsExecuted request self.old.log txn self.new.log) }
        ensures told { IfOk result (λ txn. self.new.acted ≡ self.old.acted → Answers self.old.log request.reads txn.reads) }
        ensures once { OnOk result (self.old.acted ≡ true → self.new.acted ≡ true) }
        ensures lies { IfOk result (λ txn. self.old.acted ≡ false → self.new.acted ≡ true
            → (key : ℕ) × (source : Source) × IsLie self.old.fault self.old.log request key source × AnswersBut self.old.log request.reads key source txn.reads) }
        ensures untrue { IfOk result (λ txn. self.old.acted ≡ false → self.new.acted ≡ true → Any (λ read. ¬ IsSourceIn self.old.log read.0 read.1) txn.reads) }
        ensures acts { OnOk result ((key : ℕ) (source : Source) → IsLie self.old.fault self.old.log request key source → self.new.acted ≡ true) }
        ensures honest { OnOk result (self.old.fault ≡ None → (self.new.acted ≡ false) × IsExplained self.new.log) }
        ensures fault { self.new.fault ≡ self.old.fault }
        ensures err { OnErr result (self.new ≡ self.old) }
    {
        let lie = self.lie(&request);
        let (executed, txn) = executed(alloc, self.log.as_slice(), request, lie)?;
        self.log.push(executed)?;
        self.acted = either(self.acted, lie.is_some());
        Ok(txn)
    }

    /// What the fault tells of this request, unless it has acted.
    fn lie(&self, request: &Request) -> Option<Lie>
        ensures exact { MatchOption result
            (self.now.acted ≡ false → (key : ℕ) (source : Source) → ¬ IsLie self.now.fault self.now.log request.now key source)
            (λ lie. IsLie self.now.fault self.now.log request.now lie.key lie.source) }
        ensures honest { self.now.fault ≡ None → IsNone result }
        ensures once { self.now.acted ≡ true → IsNone result }
    {
        if self.acted {
            return None;
        }
        lie_of(self.fault, self.log.as_slice(), request)
    }
}

fn either(first: bool, second: bool) -> bool
    ensures { result ≡ (first || second) }
{
    first || second
}

/// The request as the next transaction of its session, for the log and for who asked.
fn executed(
    alloc: Global,
    log: &[Executed],
    request: Request,
    lie: Option<Lie>,
) -> Result<(Executed, Txn), NoMemory>
    requires { length (of_session request.session log.now) < 2 ^ 48 }
    ensures entry { IfOk result (λ r. r.0 ≡ entry_of request log.now r.1) }
    ensures id { IfOk result (λ r. r.0.id ≡ record { session = request.session; number = length (of_session request.session log.now) }) }
    ensures writes { IfOk result (λ r. r.1.writes ≡ request.writes) }
    ensures reads { IfOk result (λ r. AreOfKeys request.reads r.1.reads) }
    ensures sources { IfOk result (λ r. IsNone lie → All (λ read. IsSourceIn log.now read.0 read.1) r.1.reads) }
    ensures lies { IfOk result (λ r. ForSome lie (λ l. All (IsToldBut log.now l.key l.source) r.1.reads)) }
{
    let reads = told(alloc, log, request.reads.as_slice(), lie)?;
    let id = TxnId {
        session: request.session,
        number: count_of(log, request.session),
    };
    let abort = request.abort;
    let writes = request.writes;
    let txn = Txn { reads, writes };
    let copy = txn.clone()?;
    let entry = entry(alloc, id, copy, abort);
    Ok((entry, txn))
}

/// A transaction for the log, as what it did: nothing, where it aborted.
fn entry(alloc: Global, id: TxnId, txn: Txn, abort: bool) -> Executed
    ensures id { result.id ≡ id }
    ensures txn { result.txn ≡ (if abort then idle else txn) }
    ensures lost { result.lost ≡ (if abort then txn.writes else []) }
{
    let none = Sequence::new(Vec::new(alloc));
    if !abort {
        return Executed {
            id,
            txn,
            lost: none,
        };
    }
    let Txn { writes, .. } = txn;
    let idle = Txn {
        reads: Sequence::new(Vec::new(alloc)),
        writes: Sequence::new(Vec::new(alloc)),
    };
    Executed {
        id,
        txn: idle,
        lost: writes,
    }
}

/// What is told of the key: its last writer, or the lie if that is about it.
fn told_source(log: &[Executed], key: u64, lie: Option<Lie>) -> Source
    ensures source { IsNone lie → IsSourceIn log.now key result }
    ensures lies { ForSome lie (λ l. IsToldBut log.now l.key l.source (key, result)) }
{
    match lie {
        Some(lie) if lie.key == key => lie.source,
        _ => source_of(log, key),
    }
}

/// The answers to reads of these keys.
fn told(
    alloc: Global,
    log: &[Executed],
    keys: &[u64],
    lie: Option<Lie>,
) -> Result<Sequence<(u64, Source)>, NoMemory>
    ensures keys { IfOk result (λ reads. AreOfKeys keys.now reads) }
    ensures sources { IfOk result (λ reads. IsNone lie → All (λ read. IsSourceIn log.now read.0 read.1) reads) }
    ensures lies { IfOk result (λ reads. ForSome lie (λ l. All (IsToldBut log.now l.key l.source) reads)) }
{
    let mut reads = Sequence::new(Vec::with_capacity(alloc, keys.len())?);
    for key in keys {
        reads.push((*key, told_source(log, *key, lie)))?;
    }
    Ok(reads)
}
