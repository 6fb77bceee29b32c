//! What was offered with its times.
ghost use Rattle.std.specs.Prelude.{◌≡◌, ◌↔◌, ◌≤◌, ◌<◌, ◌-◌, ◌^◌, [], ◌++◌, length, replicate, slice_set, sum_by, IfOk, IfErr, IsTrue, OnOk, MatchResult};
ghost use Rattle.txn.specs.History.{session_of};
ghost use Rattle.txn.specs.Transactions.{IsWellFormedFragment};
ghost use Rattle.order_check.specs.Good.{IsGood};
ghost use Rattle.strict_histories.specs.Rewriting.{HasRoomForTimes};
ghost use Rattle.strict_offers.specs.Offers.{AreBounds, AreGoodOffers, ComesNext, HasRoom, HaveGoodTimes, IsOfferedRefusal, IsRoundRefusal, IsTaken, PlaceFault, TimesFault, nothing_offered, offered, one_round_more, strict_parts};

use crate::fitting::have_good_times;
use crate::laws::{offers_stay_good, rounds_are_of_good_parts};
use crate::spans::with_times;
use logged_fragments::LoggedFragment;
use order_check::{Base, LastWriters, Parts};
use std::alloc::Global;
use std::marker::Model;
use strict_histories::{Span, TimedTxn, strict_history};
use txn::{Fragment, NoMemory, Refusal, Sequence, check_fragment};

/// The number of the last round.
const LAST_ROUND: u64 = (1 << 48) - 1;

/// What was offered with its times, for rounds that are about all of it. Nothing of it is forgotten.
#[derive(Drop, Debug)]
pub struct Offered {
    sessions: Sequence<Sequence<TimedTxn>>,
    most_sessions: u64,
    limit: u64,
    rounds: u64,
}

impl Model for Offered {
    ghost use Rattle.std.specs.Coded.{codes};
    ghost use Rattle.strict_offers.specs.Offers.{AreGoodOffers, OfferedState};

    ghost Value = { OfferedState };

    ghost coded = { Prim.hlevel codes };

    ghost view = { λ o. record { timed = o.sessions; most_sessions = o.most_sessions; limit = o.limit; rounds = o.rounds } };

    ghost invariant = { λ o. AreGoodOffers (record { timed = o.sessions; most_sessions = o.most_sessions; limit = o.limit; rounds = o.rounds }) };
}

fn empty_sessions(alloc: Global, count: usize) -> Result<Sequence<Sequence<TimedTxn>>, NoMemory>
    ensures { IfOk result (λ sessions. sessions ≡ replicate count []) }
{
    let mut sessions = Vec::with_capacity(alloc, count)?;
    for session in 0..count {
        sessions.push(Sequence::new(Vec::new(alloc)))?;
    }
    Ok(Sequence::new(sessions))
}

/// How many transactions sessions have together.
fn count_of(sessions: &[Sequence<TimedTxn>]) -> usize
    requires { sum_by length sessions.now ≤ 1048576 }
    ensures { result ≡ sum_by length sessions.now }
{
    sessions.iter().map(|txns| txns.len()).sum()
}

/// Whether what comes of a session can have its times, behind what was offered of it.
fn can_take(sessions: &[Sequence<TimedTxn>], session: u8, given: &[TimedTxn]) -> bool
    requires there { session < length sessions.now }
    requires few { length sessions.now ≤ 256 }
    ensures { IsTrue result ↔ HaveGoodTimes (length sessions.now) (session_of sessions.now session) given.now }
{
    let place = usize::from(session);
    have_good_times(sessions.len(), sessions[place].as_slice(), given)
}

/// Puts what comes of a session behind what was offered of it, where it can have its times.
fn take(
    sessions: &mut Sequence<Sequence<TimedTxn>>,
    session: u8,
    given: Sequence<TimedTxn>,
) -> Result<(), Refusal>
    requires there { session < length sessions.old }
    requires few { length sessions.old ≤ 256 }
    ensures ok { OnOk result (HaveGoodTimes (length sessions.old) (session_of sessions.old session) given
        × (sessions.new ≡ slice_set sessions.old session (session_of sessions.old session ++ given))) }
    ensures err { IfErr result (λ refusal. TimesFault (length sessions.old) (session_of sessions.old session) given refusal × (sessions.new ≡ sessions.old)) }
{
    if !can_take(sessions.as_slice(), session, given.as_slice()) {
        return Err(Refusal::BadTxn);
    }
    match sessions.append_at(usize::from(session), given) {
        Ok(()) => Ok(()),
        Err(_) => Err(Refusal::NoMemory),
    }
}

/// The parts that a round over these sessions is about.
fn parts_of(
    alloc: Global,
    sessions: &[Sequence<TimedTxn>],
    most_sessions: u64,
    limit: u64,
) -> Result<Parts, NoMemory>
    requires { HasRoomForTimes sessions.now }
    ensures { IfOk result (λ parts. parts ≡ strict_parts (record { timed = sessions.now; most_sessions = most_sessions; limit = limit; rounds = 0 })) }
{
    let count = sessions.len();
    let base = Base {
        last: LastWriters::new(alloc),
        marks: Sequence::new(vec![in alloc; 0u64; count]?),
    };
    Ok(Parts {
        base,
        remain: strict_history(alloc, sessions)?,
        closed: Sequence::new(vec![in alloc; false; count]?),
        most_sessions,
        limit,
    })
}

impl Offered {
    /// Of so many sessions, numbered below `most_sessions`, in which at most so many transactions may be offered.
    pub fn open(
        alloc: Global,
        most_sessions: u64,
        sessions: u64,
        limit: u64,
    ) -> Result<Offered, NoMemory>
        requires { AreBounds most_sessions sessions limit }
        ensures { IfOk result (λ opened. opened ≡ nothing_offered most_sessions sessions limit) }
    {
        // A law that the proof cites. It does nothing when it runs.
        offers_stay_good();
        Ok(Offered {
            sessions: empty_sessions(alloc, sessions as usize)?,
            most_sessions,
            limit,
            rounds: 0,
        })
    }

    /// Whether a fragment is next in a session that is there, and finds room; if not, why.
    fn admit(&self, fragment: &Fragment) -> Result<(), Refusal>
        requires { IsWellFormedFragment self.now.most_sessions fragment.now }
        ensures { MatchResult result (λ _. ComesNext self.now fragment.now × HasRoom self.now fragment.now) (PlaceFault self.now fragment.now) }
    {
        let sessions = self.sessions.as_slice();
        let place = usize::from(fragment.session);
        if place >= sessions.len() {
            return Err(Refusal::BadSession);
        }
        let next = sessions[place].len() as u64;
        if fragment.first > next {
            return Err(Refusal::Gap);
        }
        if fragment.first < next {
            return Err(Refusal::Repeat);
        }
        if (count_of(sessions) + fragment.txns.len()) as u64 > self.limit {
            return Err(Refusal::Backlog);
        }
        Ok(())
    }

    /// Takes a fragment with the times of its transactions, in order: of those behind the last of these times none is known. It looks once at
    /// each earlier one of its session. What a transaction that aborted has read and written is judged as that of any other; then it counts
    /// as one that did nothing.
    pub fn offer(
        &mut self,
        alloc: Global,
        logged: LoggedFragment,
        spans: &[Span],
    ) -> Result<(), Refusal>
        ensures ok { OnOk result (IsTaken self.old logged spans.now × (self.new ≡ offered self.old logged spans.now)) }
        ensures err { IfErr result (λ refusal. IsOfferedRefusal self.old logged spans.now refusal × (self.new ≡ self.old)) }
    {
        // A law that the proof cites. It does nothing when it runs.
        offers_stay_good();
        match check_fragment(self.most_sessions, &logged.fragment) {
            Ok(()) => {}
            Err(refusal) => return Err(refusal),
        }
        self.admit(&logged.fragment)?;
        let session = logged.fragment.session;
        let did = logged.into_effects();
        let given = with_times(alloc, did.txns.as_slice(), spans)?;
        match take(&mut self.sessions, session, given) {
            Ok(()) => Ok(()),
            Err(refusal) => Err(refusal),
        }
    }

    /// The parts that a round is about. Time grows with the transactions times the sessions.
    pub fn parts(&self, alloc: Global) -> Result<Parts, NoMemory>
        ensures value { IfOk result (λ parts. parts ≡ strict_parts self.now) }
        ensures good { IfOk result IsGood }
    {
        // A law that the proof cites. It does nothing when it runs.
        rounds_are_of_good_parts();
        let parts = parts_of(
            alloc,
            self.sessions.as_slice(),
            self.most_sessions,
            self.limit,
        )?;
        Ok(parts)
    }

    /// What was offered keeps its bounds. It does nothing when it runs: a caller calls it for this contract.
    pub fn is_good(&self)
        ensures { AreGoodOffers self.now }
    {
        let _ = self.sessions.len();
    }

    /// Whether one round more may be numbered.
    pub fn may_begin(&self) -> Result<(), Refusal>
        ensures ok { OnOk result (self.now.rounds < 2 ^ 48 - 1) }
        ensures err { IfErr result (λ refusal. (refusal ≡ Refusal.TooLong) × IsRoundRefusal self.now refusal) }
    {
        if self.rounds >= LAST_ROUND {
            return Err(Refusal::TooLong);
        }
        Ok(())
    }

    /// Counts a round that is finished, and gives its number.
    pub fn finish_round(&mut self) -> u64
        requires { self.old.rounds < 2 ^ 48 - 1 }
        ensures number { result ≡ self.new.rounds }
        ensures counted { self.new ≡ one_round_more self.old }
    {
        // A law that the proof cites. It does nothing when it runs.
        offers_stay_good();
        self.rounds += 1;
        self.rounds
    }
}
