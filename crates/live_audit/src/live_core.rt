ghost use Rattle.std.specs.Prelude.{◌≡◌, ◌-◌, ◌<◌, ◌≤◌, ◌^◌, [], ◌∷◌, Some, None, IfOk, IfErr, OnOk, OnErr, IsSome, IsSomeAnd};
ghost use Rattle.std.specs.Option.{option_to_list};
ghost use Rattle.polygraph.specs.Solving.{IsLawful};
ghost use Rattle.round_state.specs.Runs.{StepsLegally};
ghost use Rattle.live_audit.specs.Live.{MovesOn};
ghost use Rattle.live_audit.specs.Takes.{TakesIn, Finishes, Forgets};
ghost use Rattle.live_audit.specs.Told.{IsTold, IsSkipped, IsOutcome, IsFollowUp};

use crate::steps::{begin, finish, forget, give_up, take_in};
use fragment_intake::{Item, Parcel};
use polygraph::{Answer, Problem};
use report_queue::Entry;
use round_state::{Engine, Report, Step, StepReply};
use std::alloc::Global;
use std::marker::Model;
use txn::Refusal;

/// The auditor without queues and threads: what it does with a parcel, at the begin of a round, and with a round's answer. Contracts see the
/// engine, and the budget and the depth of the rounds' searches.
#[derive(Drop)]
pub struct Core {
    engine: Engine,
    alloc: Global,
    budget: u64,
    depth: u64,
}

impl Model for Core {
    ghost use Rattle.std.specs.Coded.{codes};
    ghost use Rattle.order_check.specs.Codes.{coded_last};
    ghost use Rattle.live_audit.specs.CoreState.{CoreState, IsCore};

    ghost Value = { CoreState };

    ghost coded = { Prim.hlevel (codes, coded_last) };

    ghost view = { λ c. record { engine = c.engine; search = record { budget = c.budget; depth = c.depth } } };

    ghost invariant = { λ c. IsCore c.engine c.budget c.depth };
}

impl Core {
    /// An auditor over an engine of which no round is open. Each round's search may take so many nodes, and is split so often.
    pub fn new(alloc: Global, engine: Engine, budget: u64, depth: u64) -> Core
        requires none_open { engine.asked ≡ None }
        requires budget { (1 ≤ budget) × (budget ≤ 2 ^ 32) }
        requires depth { depth ≤ 6 }
        ensures { result ≡ record { engine = engine; search = record { budget = budget; depth = depth } } }
    {
        Core {
            engine,
            alloc,
            budget,
            depth,
        }
    }

    /// Takes a parcel in: its fragment is offered or joined with, or its session closed. The entry tells whether that was done. A refused fragment isn't kept.
    pub fn took(&mut self, parcel: Parcel) -> Entry
        ensures moves { MovesOn self.old.search self.old.engine (parcel ∷ []) (result ∷ []) self.new.engine }
        ensures told { IsTold parcel result }
        ensures search { self.new.search ≡ self.old.search }
        ensures round { (self.new.engine.asked ≡ self.old.engine.asked) × (self.new.engine.rounds ≡ self.old.engine.rounds) }
    {
        let Parcel {
            collector,
            place,
            item,
        } = parcel;
        match self.take_in(item) {
            Ok(()) => Entry::Accepted { collector, place },
            Err(refusal) => Entry::Refused {
                collector,
                place,
                refusal,
            },
        }
    }

    fn take_in(&mut self, item: Item) -> Result<(), Refusal>
        ensures taken { TakesIn self.old.engine item result self.new.engine }
        ensures search { self.new.search ≡ self.old.search }
        ensures round { (self.new.engine.asked ≡ self.old.engine.asked) × (self.new.engine.rounds ≡ self.old.engine.rounds) }
    {
        take_in(self.alloc, &mut self.engine, item)
    }

    /// Begins a round on what was received, and gives the problem that it is answered by.
    pub fn begin(&mut self) -> Result<Problem, Entry>
        requires { self.old.engine.asked ≡ None }
        ensures moves { OnOk result (MovesOn self.old.search self.old.engine [] [] self.new.engine) }
        ensures legal { OnOk result (StepsLegally self.old.engine Step.Begin StepReply.Done self.new.engine) }
        ensures asked { IfOk result (λ problem. self.new.engine.asked ≡ Some problem.known.parts) }
        ensures skipped { IfErr result (λ entry. MovesOn self.old.search self.old.engine [] (entry ∷ []) self.new.engine) }
        ensures told { IfErr result (IsSkipped self.old.engine) }
        ensures closed { OnErr result (self.new.engine.asked ≡ None) }
        ensures same { (self.new.search ≡ self.old.search) × (self.new.engine.rounds ≡ self.old.engine.rounds) }
    {
        begin(self.alloc, &mut self.engine)
    }

    /// The budget and the depth of a round's search.
    pub fn search(&self) -> (u64, u64)
        ensures { (result.0 ≡ self.now.search.budget) × (result.1 ≡ self.now.search.depth) }
    {
        (self.budget, self.depth)
    }

    /// Ends the open round by an answer that its search may give: it is reported, and the cut that is held, if one is, applied. Where memory is
    /// wanting for the report the round is abandoned, and where it is wanting for the cut that stays held.
    pub fn answered(&mut self, answer: Answer) -> (Entry, Option<Entry>)
        requires { IsSomeAnd self.old.engine.asked (λ parts. IsLawful parts self.old.search.budget self.old.search.depth answer) }
        ensures moves { MovesOn self.old.search self.old.engine [] (result.0 ∷ option_to_list result.1) self.new.engine }
        ensures told { IsOutcome self.old.engine result.0 self.new.engine }
        ensures more { IsFollowUp result.0 result.1 }
        ensures closed { self.new.engine.asked ≡ None }
        ensures search { self.new.search ≡ self.old.search }
    {
        match self.finish(answer) {
            Some(report) => {
                let cut = self.forget();
                (Entry::Report(report), cut)
            }
            None => {
                self.give_up();
                (Entry::Skipped(Refusal::NoMemory), None)
            }
        }
    }

    /// Finishes the open round, unless memory is wanting: it is still open then.
    fn finish(&mut self, answer: Answer) -> Option<Report>
        requires { IsSomeAnd self.old.engine.asked (λ parts. IsLawful parts self.old.search.budget self.old.search.depth answer) }
        ensures finishes { Finishes self.old.search self.old.engine result self.new.engine }
        ensures number { IsSome result → self.old.engine.rounds < 2 ^ 48 - 1 }
        ensures search { self.new.search ≡ self.old.search }
    {
        finish(self.alloc, &mut self.engine, answer)
    }

    /// Applies the cut that is held, if one is.
    fn forget(&mut self) -> Option<Entry>
        requires { self.old.engine.asked ≡ None }
        ensures forgot { Forgets self.old.engine result self.new.engine }
        ensures same { (self.new.search ≡ self.old.search) × (self.new.engine.asked ≡ None) × (self.new.engine.rounds ≡ self.old.engine.rounds) }
    {
        forget(self.alloc, &mut self.engine)
    }

    /// Abandons the open round.
    fn give_up(&mut self)
        requires { IsSome self.old.engine.asked }
        ensures legal { StepsLegally self.old.engine Step.Abandon StepReply.Done self.new.engine }
        ensures same { (self.new.search ≡ self.old.search) × (self.new.engine.asked ≡ None) × (self.new.engine.rounds ≡ self.old.engine.rounds) }
    {
        give_up(&mut self.engine);
    }
}
