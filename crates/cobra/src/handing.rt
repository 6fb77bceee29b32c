//! Parts that are handed over, line by line.
ghost use Rattle.std.specs.Prelude.{◌≡◌, ◌↔◌, IfOk, IfErr, OnOk, OnErr, IsTrue, MatchOption, MatchResult};
ghost use Rattle.std.specs.FinMap as map;
ghost use Rattle.round_state.specs.EngineState.{engine_over};
ghost use Rattle.round_state.specs.Opening.{no_history};
ghost use Rattle.cobra.specs.HandOver.{AreOfSessions, AreGoodParts, IsHandRefusal, IsMarksRefusal, IsNextOffer, IsOfferFault, IsResumedRefusal, KeysDiffer, handed_first, handed_offer, handed_parts, handed_writers};

use crate::open_engine::OpenEngine;
use order_check::{Base, LastWriters, Parts};
use std::alloc::Global;
use txn::{Fragment, NoMemory, Refusal, Sequence, Txn, TxnId};

/// What was handed over so far: the parts but for their last writers, and these in a list.
#[derive(Drop, Debug)]
pub struct Handing {
    pub parts: Parts,
    pub last: Sequence<(u64, TxnId)>,
}

fn empty_sessions(alloc: Global, count: usize) -> Result<Sequence<Sequence<Txn>>, NoMemory>
    ensures { IfOk result (λ sessions. sessions ≡ no_history count) }
{
    let mut remain = Vec::with_capacity(alloc, count)?;
    for session in 0..count {
        remain.push(Sequence::new(Vec::new(alloc)))?;
    }
    Ok(Sequence::new(remain))
}

fn are_of_sessions(sessions: u64, marks: &[u64], closed: &[bool]) -> bool
    ensures { IsTrue result ↔ AreOfSessions sessions marks.now closed.now }
{
    marks.len() as u64 == sessions && closed.len() as u64 == sessions
}

/// The map of the last writers, where no key stands twice.
fn writers_of(alloc: Global, entries: &[(u64, TxnId)]) -> Result<Option<LastWriters>, NoMemory>
    ensures { IfOk result (λ found. MatchOption found (¬ KeysDiffer entries.now) (λ last. KeysDiffer entries.now × (last ≡ map.from_entries entries.now))) }
{
    let mut last = LastWriters::new(alloc);
    let mut left = entries.len();
    while left > 0 {
        left -= 1;
        let (key, writer) = entries[left];
        if last.get(key).is_some() {
            return Ok(None);
        }
        last.insert(key, writer)?;
    }
    Ok(Some(last))
}

impl Handing {
    fn first(
        alloc: Global,
        most_sessions: u64,
        limit: u64,
        marks: Sequence<u64>,
        closed: Sequence<bool>,
    ) -> Result<Handing, NoMemory>
        ensures { IfOk result (λ handed. handed ≡ handed_first most_sessions limit marks closed) }
    {
        let remain = empty_sessions(alloc, marks.len())?;
        let base = Base {
            last: LastWriters::new(alloc),
            marks,
        };
        Ok(Handing {
            parts: Parts {
                base,
                remain,
                closed,
                most_sessions,
                limit,
            },
            last: Sequence::new(Vec::new(alloc)),
        })
    }

    /// What is handed over once the marks and the flags are, where sessions are numbered below this.
    pub(crate) fn new(
        alloc: Global,
        most_sessions: u64,
        sessions: u64,
        limit: u64,
        marks: Sequence<u64>,
        closed: Sequence<bool>,
    ) -> Result<Handing, Refusal>
        ensures ok { IfOk result (λ handed. AreOfSessions sessions marks closed × (handed ≡ handed_first most_sessions limit marks closed)) }
        ensures err { IfErr result (IsMarksRefusal sessions marks closed) }
    {
        if !are_of_sessions(sessions, marks.as_slice(), closed.as_slice()) {
            return Err(Refusal::BadParts);
        }
        Ok(Handing::first(alloc, most_sessions, limit, marks, closed)?)
    }

    /// Takes last writers, all of them or none.
    pub(crate) fn take_writers(&mut self, more: Sequence<(u64, TxnId)>) -> Result<(), NoMemory>
        ensures ok { OnOk result (self.new ≡ handed_writers self.old more) }
        ensures err { OnErr result (self.new ≡ self.old) }
    {
        self.last.append(more)
    }

    /// Whether the fragment is the next one of its session; if not, why.
    fn judge(&self, fragment: &Fragment) -> Result<(), Refusal>
        ensures { MatchResult result (λ _. IsNextOffer self.now fragment.now) (IsOfferFault self.now fragment.now) }
    {
        let session = fragment.session;
        let first = fragment.first;
        if usize::from(session) >= self.parts.remain.len() {
            return Err(Refusal::BadSession);
        }
        let count = self.parts.remaining_of(session).len() as u64;
        let Some(next) = self.parts.mark_of(session).checked_add(count) else {
            return Err(Refusal::Repeat);
        };
        if next < first {
            return Err(Refusal::Gap);
        }
        if first < next {
            return Err(Refusal::Repeat);
        }
        Ok(())
    }

    /// Takes transactions of a session that remain, all of them or none.
    pub(crate) fn take_offer(&mut self, fragment: Fragment) -> Result<(), Refusal>
        ensures ok { OnOk result (IsNextOffer self.old fragment × (self.new ≡ handed_offer self.old fragment)) }
        ensures err { IfErr result (λ refusal. IsHandRefusal self.old fragment refusal × (self.new ≡ self.old)) }
    {
        self.judge(&fragment)?;
        let Fragment {
            session,
            first: _,
            txns,
        } = fragment;
        self.parts.remain.append_at(usize::from(session), txns)?;
        Ok(())
    }

    /// The engine that has what was handed over and nothing else, where that keeps the rules; a refusal hands it back.
    pub(crate) fn resume(self, alloc: Global) -> Result<OpenEngine, (Handing, Refusal)>
        ensures ok { IfOk result (λ engine. AreGoodParts self × (engine ≡ engine_over (handed_parts self))) }
        ensures err { IfErr result (λ back. (back.0 ≡ self) × IsResumedRefusal self back.1) }
    {
        let found = match writers_of(alloc, self.last.as_slice()) {
            Ok(found) => found,
            Err(_) => return Err((self, Refusal::NoMemory)),
        };
        match found {
            Some(last) => resume_with(alloc, self, last),
            None => Err((self, Refusal::BadParts)),
        }
    }
}

/// The engine, where these are the last writers that were handed over.
fn resume_with(
    alloc: Global,
    handed: Handing,
    last: LastWriters,
) -> Result<OpenEngine, (Handing, Refusal)>
    requires keys { KeysDiffer handed.last }
    requires last { last ≡ map.from_entries handed.last }
    ensures ok { IfOk result (λ engine. AreGoodParts handed × (engine ≡ engine_over (handed_parts handed))) }
    ensures err { IfErr result (λ back. (back.0 ≡ handed) × IsResumedRefusal handed back.1) }
{
    let Handing {
        parts,
        last: entries,
    } = handed;
    let (parts, none) = with_writers(parts, last);
    match OpenEngine::over(alloc, parts) {
        Ok(engine) => Ok(engine),
        Err((parts, refusal)) => {
            let (parts, _) = with_writers(parts, none);
            let handed = Handing {
                parts,
                last: entries,
            };
            Err((handed, refusal))
        }
    }
}

/// The parts with other last writers, and those that they had.
fn with_writers(parts: Parts, last: LastWriters) -> (Parts, LastWriters)
    ensures parts { result.0 ≡ record parts { base = record { last = last; marks = parts.base.marks } } }
    ensures before { result.1 ≡ parts.base.last }
{
    let Parts {
        base,
        remain,
        closed,
        most_sessions,
        limit,
    } = parts;
    let Base {
        last: before,
        marks,
    } = base;
    let parts = Parts {
        base: Base { last, marks },
        remain,
        closed,
        most_sessions,
        limit,
    };
    (parts, before)
}
