ghost use Rattle.std.specs.Prelude.{◌≡◌, ◌+◌, length, sum_by, Some, None, IfOk, IfErr, OnOk, IsSome, IsSomeAnd, MatchBool, MatchOption};
ghost use Rattle.txn.specs.History.{History};
ghost use Rattle.logged_fragments.specs.Effects.{effects};
ghost use Rattle.settle.specs.declared.cuts.Cut.{Cut};
ghost use Rattle.order_check.specs.Good.{IsGood};
ghost use Rattle.order_check.specs.StandsFor.{IsOpenSession, StandsFor};
ghost use Rattle.round_state.specs.Opening.{IsSessions, IsLimit, IsOpenRefusal, IsPartsRefusal, fresh, fresh_state};
ghost use Rattle.round_state.specs.Steps.{IsJoinRefusal, IsOfferRefusal, IsCloseRefusal, MayBegin, IsBeginRefusal, IsFinishRefusal, IsAbandonRefusal, IsRebuildRefusal, IsReported, IsTruncateRefusal, IsTruncated, StepsTo, engine_closed, engine_begun, engine_abandoned, engine_rebuilt};
ghost use Rattle.round_state.specs.EngineState.{engine_over};
ghost use Rattle.round_state.specs.Runs.{Holds};
ghost use Rattle.round_state.specs.Kept.{IsFitting};
ghost use Rattle.round_state.specs.declared.steps.Step.TheVariants as step;
ghost use Rattle.round_state.specs.declared.steps.StepReply.TheVariants as reply;

use crate::catching_up::{known_after_cut, known_of, known_to_cut};
use crate::fronts::kept_cuts_fit;
use crate::intake::{admit, effects_of, take_in};
use crate::joining::{join_with, let_in};
use crate::opening::{empty_parts, is_limit, is_sessions};
use crate::phases::Phase;
use crate::reports::{Report, report_on};
use crate::snapshots::{OpenRound, Snapshot, asked_of};
use crate::tracking::{raise_all, tracks_of};
use clock_choices::Saturated;
use logged_fragments::LoggedFragment;
use order_check::{
    Parts, close_keeps_front, fragment_keeps_front, front_of_itself, kept_fronts_are_counted,
    stands_for_what_remains,
};
use pending_reads::PendingReads;
use polygraph::{Answer, Problem};
use session_marks::Marks;
use settle::Cut;
use std::alloc::Global;
use std::marker::Model;
use truncate::apply;
use txn::{NoMemory, Refusal, Sequence};

/// The number of the last round.
const LAST_ROUND: u64 = (1 << 48) - 1;

/// Takes in fragments, and checks in rounds all that was received. Fragments may be taken in while a round is open: it
/// is about what had been received when it began.
#[derive(Drop, Debug)]
pub struct Engine {
    parts: Parts,
    /// How far each session is.
    marks: Marks,
    /// The pending reads.
    waits: PendingReads,
    /// The open round with its problem, or the known relation of a front of the parts.
    phase: Phase,
    /// The cut that the last yes found.
    held: Option<Cut>,
    /// The number of the last finished round.
    round: u64,
}

impl Model for Engine {
    ghost use Rattle.std.specs.Coded.{codes};
    ghost use Rattle.order_check.specs.Codes.{coded_last};
    ghost use Rattle.round_state.specs.EngineState.{EngineState};
    ghost use Rattle.round_state.specs.Behind.{AreKnownBehind};
    ghost use Rattle.round_state.specs.Kept.{IsKept};
    ghost use Rattle.round_state.specs.OpenRounds.{snapshot_in};
    ghost use Rattle.round_state.specs.Phases.{begun_in, known_in};

    ghost Value = { EngineState };

    ghost coded = { Prim.hlevel (codes, coded_last) };

    ghost view = { λ e. record { parts = e.parts; asked = snapshot_in e.parts (begun_in e.phase); held = e.held; rounds = e.round } };

    ghost invariant = { λ e. IsKept e.parts e.marks e.waits (snapshot_in e.parts (begun_in e.phase)) e.held e.round × AreKnownBehind e.parts (begun_in e.phase) (known_in e.phase) };
}

impl Engine {
    /// A fresh engine of so many sessions, which lets at most so many transactions remain. There may be at most `most_sessions`, at most 256:
    /// sessions are numbered below this.
    pub fn open(
        alloc: Global,
        most_sessions: u64,
        sessions: u64,
        limit: u64,
    ) -> Result<Engine, Refusal>
        ensures ok { IfOk result (λ engine. engine ≡ fresh most_sessions sessions limit) }
        ensures holds { IfOk result (λ engine. Holds engine (fresh_state most_sessions sessions limit)) }
        ensures numbers { OnOk result (IsSessions most_sessions sessions × IsLimit limit) }
        ensures err { IfErr result (IsOpenRefusal most_sessions sessions limit) }
    {
        if !is_sessions(most_sessions, sessions) {
            return Err(Refusal::BadSession);
        }
        if !is_limit(limit) {
            return Err(Refusal::TooLong);
        }
        // A law that the proof cites. It does nothing when it runs.
        stands_for_what_remains();
        Ok(Engine {
            parts: empty_parts(alloc, most_sessions, sessions, limit)?,
            marks: Marks::new(alloc, sessions as usize)?,
            waits: PendingReads::new(alloc),
            phase: Phase::Between(None),
            held: None,
            round: 0,
        })
    }

    /// An engine that goes on from these parts, where they keep their rules; a refusal hands them back.
    pub fn from_parts(alloc: Global, parts: Parts) -> Result<Engine, (Parts, Refusal)>
        ensures ok { IfOk result (λ engine. IsGood parts × (engine ≡ engine_over parts)) }
        ensures err { IfErr result (λ back. (back.0 ≡ parts) × IsPartsRefusal parts back.1) }
    {
        if !parts.is_good() {
            return Err((parts, Refusal::BadParts));
        }
        match tracks_of(alloc, &parts) {
            Ok((marks, waits)) => Ok(Engine {
                parts,
                marks,
                waits,
                phase: Phase::Between(None),
                held: None,
                round: 0,
            }),
            Err(refused) => Err((parts, Refusal::from(refused))),
        }
    }

    /// How many transactions remain.
    pub fn remaining(&self) -> usize
        ensures { result ≡ sum_by length self.now.parts.remain }
    {
        self.parts.remaining_count()
    }

    pub fn parts(&self) -> &Parts
        ensures value { result.now ≡ self.now.parts }
        ensures good { IsGood result.now }
    {
        &self.parts
    }

    /// Whether a round is open.
    fn is_open(&self) -> bool
        ensures { MatchBool result (IsSome self.now.asked) (self.now.asked ≡ None) }
    {
        self.phase.is_open()
    }

    /// Takes a fragment in, whether or not a round is open. Beside memory it takes time of the sessions, and of the fragment's
    /// reads and transactions times the logarithm of the pending reads, however much remains. What a transaction that aborted has read
    /// and written is judged as that of any other; then it counts as one that did nothing.
    pub fn offer(&mut self, alloc: Global, logged: LoggedFragment) -> Result<(), Refusal>
        ensures ok { OnOk result (StepsTo self.old (step.Offer logged) reply.Done self.new) }
        ensures err { IfErr result (λ refusal. IsOfferRefusal self.old.parts logged refusal × (self.new ≡ self.old)) }
    {
        // Laws that the proof cites. They do nothing when they run.
        fragment_keeps_front();
        kept_fronts_are_counted();
        let fragment = effects_of(self.parts.most_sessions, logged)?;
        admit(&self.parts, &self.marks, &fragment)?;
        take_in(
            alloc,
            &mut self.parts,
            &mut self.marks,
            &mut self.waits,
            fragment,
        )?;
        Ok(())
    }

    /// Lets a session join with a fragment, while no round is open: the next new session with its first fragment, or one that was
    /// closed and of which nothing remains with its next. The fragment begins with a fence that reads from a fence that
    /// remains, or from the last gone writer of the epoch key; one that aborted is no fence. After it the session is open, and a cut
    /// that was held is dropped.
    pub fn join(&mut self, alloc: Global, logged: LoggedFragment) -> Result<(), Refusal>
        ensures ok { OnOk result (StepsTo self.old (step.Join logged) reply.Done self.new) }
        ensures err { IfErr result (λ refusal. IsJoinRefusal self.old logged refusal × (self.new ≡ self.old)) }
    {
        let fragment = effects_of(self.parts.most_sessions, logged)?;
        if self.is_open() {
            return Err(Refusal::RoundOpen);
        }
        let_in(&self.parts, &fragment)?;
        join_with(
            alloc,
            &mut self.parts,
            &mut self.marks,
            &mut self.waits,
            fragment,
        )?;
        self.held = None; // It was settled without this session.
        self.phase = Phase::Between(None);
        Ok(())
    }

    /// Closes a session, whether or not a round is open: it receives no more. It takes no memory.
    pub fn close(&mut self, session: u8) -> Result<(), Refusal>
        ensures ok { OnOk result (IsOpenSession self.old.parts session × (self.new ≡ engine_closed self.old session)) }
        ensures err { IfErr result (λ refusal. IsCloseRefusal self.old.parts session refusal × (self.new ≡ self.old)) }
    {
        // A law that the proof cites. It does nothing when it runs.
        close_keeps_front();
        self.marks.close(session)?;
        self.parts.closed.set(usize::from(session), true);
        Ok(())
    }

    /// Opens a round on what has been received, and gives the problem that an answer finishes it by. The engine keeps the same one.
    pub fn begin(&mut self, alloc: Global) -> Result<Problem, Refusal>
        ensures ok { IfOk result (λ problem. MayBegin self.old × (problem.known.parts ≡ self.old.parts) × (self.new ≡ engine_begun self.old)) }
        ensures err { IfErr result (λ refusal. IsBeginRefusal self.old refusal × (self.new ≡ self.old)) }
    {
        if self.is_open() {
            return Err(Refusal::RoundOpen);
        }
        if self.round >= LAST_ROUND {
            return Err(Refusal::TooLong);
        }
        // Laws that the proof cites. They do nothing when they run.
        front_of_itself();
        kept_fronts_are_counted();
        let last = known_of(alloc, self.phase.take(), &self.parts)?;
        let (begun, kept, problem) = asked_of(alloc, last)?;
        self.phase = Phase::Open(begun, kept);
        Ok(problem)
    }

    /// Finishes the open round by an answer, which is checked here. A wrong answer and want of memory leave it open. A yes replaces the held
    /// cut by the one found in the snapshot, or by none.
    pub fn finish(&mut self, alloc: Global, answer: Answer) -> Result<Report, Refusal>
        ensures ok { IfOk result (λ report. IsReported self.old answer report self.new) }
        ensures err { IfErr result (λ refusal. IsFinishRefusal self.old answer refusal × (self.new ≡ self.old)) }
    {
        // A law that the proof cites. It does nothing when it runs.
        kept_fronts_are_counted();
        let Phase::Open(begun, problem) = &self.phase else {
            return Err(Refusal::NoRound);
        };
        let snapshot = Snapshot::new(&self.parts, begun, problem.known(), &self.waits);
        let report = report_on(alloc, &snapshot, self.round + 1, answer, &mut self.held)?;
        self.phase.end();
        self.round += 1;
        Ok(report)
    }

    /// The problem of the round that is open, if one is.
    pub fn problem(&self) -> Option<&Problem>
        ensures { MatchOption result (self.now.asked ≡ None) (λ problem. self.now.asked ≡ Some problem.now.known.parts) }
    {
        // A law that the proof cites. It does nothing when it runs.
        kept_fronts_are_counted();
        self.phase.problem()
    }

    /// The snapshot of the round that is open keeps the rules.
    pub(crate) fn has_good_snapshot(&self)
        ensures { (parts : Parts) → self.now.asked ≡ Some parts → IsGood parts }
    {
        // A law that the proof cites. It does nothing when it runs.
        kept_fronts_are_counted();
        let _ = self.phase.is_open();
    }

    /// Ends the open round without a report; its number isn't used up.
    pub fn abandon(&mut self) -> Result<(), Refusal>
        ensures ok { OnOk result (IsSome self.old.asked × (self.new ≡ engine_abandoned self.old)) }
        ensures err { IfErr result (λ refusal. IsAbandonRefusal self.old refusal × (self.new ≡ self.old)) }
    {
        if !self.is_open() {
            return Err(Refusal::NoRound);
        }
        self.phase.end();
        Ok(())
    }

    /// The held cut can be applied, and leaves parts that stand for what these stand for.
    pub(crate) fn has_fitting_cut(&self)
        ensures { (cut : Cut) → self.now.held ≡ Some cut → IsFitting self.now.parts cut }
    {
        let _ = self.held.is_some();
        kept_cuts_fit();
    }

    /// Applies the held cut, and gives it. What was taken in since it was found stays. It isn't done while a round is open.
    pub fn truncate(&mut self, alloc: Global) -> Result<Cut, Refusal>
        ensures ok { IfOk result (λ cut. IsTruncated self.old cut self.new) }
        ensures keeps { OnOk result ((history : History) → StandsFor self.old.parts history → StandsFor self.new.parts history) }
        ensures err { IfErr result (λ refusal. IsTruncateRefusal self.old refusal × (self.new ≡ self.old)) }
    {
        if self.is_open() {
            return Err(Refusal::RoundOpen);
        }
        // A law that the proof cites. It does nothing when it runs.
        front_of_itself();
        self.has_fitting_cut();
        let Some(cut) = self.held.take() else {
            return Err(Refusal::NoCut);
        };
        let whole = known_to_cut(alloc, self.phase.take(), &self.parts, cut.gone.len());
        if let Err(refused) = apply(alloc, &mut self.parts, cut.gone.as_slice(), &cut.last) {
            self.held = Some(cut);
            return Err(Refusal::from(refused));
        }
        raise_all(&mut self.marks, &self.parts);
        let left = known_after_cut(alloc, whole, cut.gone.as_slice(), &self.parts);
        self.phase = Phase::Between(left);
        Ok(cut)
    }

    /// Makes all that is kept beside the parts anew from them: no cut is held, and rounds are numbered from 1.
    pub fn rebuild(&mut self, alloc: Global) -> Result<(), Refusal>
        ensures ok { OnOk result ((self.old.asked ≡ None) × (self.new ≡ engine_rebuilt self.old)) }
        ensures keeps { OnOk result ((history : History) → StandsFor self.old.parts history → StandsFor self.new.parts history) }
        ensures err { IfErr result (λ refusal. IsRebuildRefusal self.old refusal × (self.new ≡ self.old)) }
    {
        if self.is_open() {
            return Err(Refusal::RoundOpen);
        }
        let (marks, waits) = tracks_of(alloc, &self.parts)?;
        self.marks = marks;
        self.waits = waits;
        self.held = None;
        self.round = 0;
        self.phase = Phase::Between(None);
        Ok(())
    }

    /// The parts, without which no engine goes on: an open round and a held cut are dropped.
    pub fn into_parts(self) -> Parts
        ensures { result ≡ self.parts }
    {
        engine_fields(self)
    }
}

/// All that an open round has: with one field more, as for a copy of what remains, this doesn't compile.
fn round_fields(begun: OpenRound) -> (Sequence<u64>, Sequence<bool>) {
    let OpenRound { counts, live } = begun;
    (counts, live)
}

/// All that an engine has: with one field more, as for what is gone, this doesn't compile. The relation that is kept is of a front of the parts,
/// so of nothing but what remains.
fn engine_fields(engine: Engine) -> Parts
    ensures { result ≡ engine.parts }
{
    let Engine {
        parts,
        marks,
        waits,
        phase,
        held,
        round,
    } = engine;
    drop(marks);
    drop(waits);
    drop(held);
    drop(round);
    if let Phase::Open(begun, _) = phase {
        drop(round_fields(begun));
    }
    parts
}
