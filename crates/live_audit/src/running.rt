ghost use Rattle.std.specs.Prelude.{◌≡◌, ℕ, ◌<◌, ◌++◌, ◌∷◌, ◌↔◌, [], true, false, IsTrue, None, List, slice_index_or};
ghost use Rattle.std.specs.Option.{option_to_list};
ghost use Rattle.order_check.specs.Effort.{IsEffort};
ghost use Rattle.fragment_intake.specs.declared.rules.Item.{Item};
ghost use Rattle.fragment_intake.specs.declared.rules.Parcel.{Parcel};
ghost use Rattle.live_audit.specs.Live.{MovesOn};
ghost use Rattle.live_audit.specs.Moments.{IsTime, unasked_after};
ghost use Rattle.live_audit.specs.Running.{AreEnded, IsRoundTold};
ghost use Rattle.live_audit.specs.Told.{IsTold, IsFollowUp};

use crate::live_core::Core;
use crate::searching::solved;
use fragment_intake::{Item, Parcel};
use polygraph::{Effort, Solver};
use report_queue::Entry;
use std::alloc::Global;

/// So many parcels are taken in before a round is made while more wait.
const MOST_UNASKED: u64 = 1024;

/// Whether the parcel tells that nothing more comes.
fn is_end(parcel: &Parcel) -> bool
    ensures { IsTrue result ↔ (parcel.now.item ≡ Item.End) }
{
    matches!(parcel.item, Item::End)
}

/// An auditor between two rounds.
#[derive(Drop)]
pub(crate) struct Running {
    pub core: Core,
    /// Which collectors have ended.
    pub ended: [bool; 4],
    /// How many fragments and closes were accepted since the last round began; no more than the most are counted.
    pub unasked: u64,
}

impl Running {
    pub(crate) fn new(core: Core) -> Running
        ensures core { result.core ≡ core }
        ensures unasked { result.unasked ≡ 0 }
        ensures ended { AreEnded result.ended [] }
    {
        Running {
            core,
            ended: [false; 4],
            unasked: 0,
        }
    }

    /// Whether all four collectors have ended.
    pub(crate) fn is_over(&self) -> bool
        ensures { IsTrue result → (collector : ℕ) → collector < 4 → slice_index_or self.now.ended collector false ≡ true }
    {
        self.ended[0] && self.ended[1] && self.ended[2] && self.ended[3]
    }

    /// Whether it is time for a round, where a look at the desk has found something or not.
    pub(crate) fn wants_round(&self, found: bool) -> bool
        ensures { IsTrue result ↔ IsTime self.now.unasked found }
    {
        self.unasked >= MOST_UNASKED || !found && self.unasked > 0
    }

    /// Takes a parcel in.
    pub(crate) fn take_in(&mut self, parcel: Parcel) -> Entry
        requires { parcel.collector < 4 }
        ensures moves { MovesOn self.old.core.search self.old.core.engine (parcel ∷ []) (result ∷ []) self.new.core.engine }
        ensures told { IsTold parcel result }
        ensures search { self.new.core.search ≡ self.old.core.search }
        ensures round { (self.new.core.engine.asked ≡ self.old.core.engine.asked) × (self.new.core.engine.rounds ≡ self.old.core.engine.rounds) }
        ensures ended { (taken : List Parcel) → AreEnded self.old.ended taken → AreEnded self.new.ended (taken ++ parcel ∷ []) }
        ensures counted { self.new.unasked ≡ unasked_after self.old.unasked parcel.item result }
    {
        self.note_end(&parcel);
        let is_end = is_end(&parcel);
        let entry = self.core.took(parcel);
        self.count(&entry, is_end);
        entry
    }

    /// Notes that the parcel's collector has ended, if it has.
    fn note_end(&mut self, parcel: &Parcel)
        requires { parcel.now.collector < 4 }
        ensures core { self.new.core ≡ self.old.core }
        ensures unasked { self.new.unasked ≡ self.old.unasked }
        ensures ended { (taken : List Parcel) → AreEnded self.old.ended taken → AreEnded self.new.ended (taken ++ parcel.now ∷ []) }
    {
        if is_end(parcel) {
            self.ended[parcel.collector as usize] = true;
        }
    }

    /// Counts what was accepted, unless it was an end.
    fn count(&mut self, entry: &Entry, is_end: bool)
        ensures same { (self.new.core ≡ self.old.core) × (self.new.ended ≡ self.old.ended) }
        ensures counted { (item : Item) → (IsTrue is_end ↔ (item ≡ Item.End)) → self.new.unasked ≡ unasked_after self.old.unasked item entry.now }
    {
        if !is_end && matches!(entry, Entry::Accepted { .. }) && self.unasked < MOST_UNASKED {
            self.unasked += 1;
        }
    }

    /// Makes a round on all that was received: what it came to, and the cut that stands behind it, if one was applied.
    pub(crate) fn make_round<S: Solver>(
        &mut self,
        alloc: Global,
        solver: &S,
        workers: u64,
    ) -> (Entry, Option<Entry>)
        requires ready { S.ready }
        requires effort { IsEffort self.old.core.search.budget self.old.core.search.depth workers }
        requires closed { self.old.core.engine.asked ≡ None }
        ensures moves { MovesOn self.old.core.search self.old.core.engine [] (result.0 ∷ option_to_list result.1) self.new.core.engine }
        ensures told { IsRoundTold self.old.core result.0 result.1 self.new.core }
        ensures more { IsFollowUp result.0 result.1 }
        ensures closed { self.new.core.engine.asked ≡ None }
        ensures same { (self.new.core.search ≡ self.old.core.search) × (self.new.ended ≡ self.old.ended) }
    {
        self.unasked = 0;
        match self.core.begin() {
            Ok(problem) => {
                let (budget, depth) = self.core.search();
                let effort = Effort {
                    budget,
                    depth,
                    workers,
                };
                let answer = solved(alloc, problem, solver, effort);
                self.core.answered(answer)
            }
            Err(skipped) => (skipped, None),
        }
    }
}
