ghost use Rattle.std.specs.Prelude.{◌≡◌, ◌+◌, ◌<◌, ◌≤◌, ◌^◌, ◌++◌, ◌∷◌, [], List, length, IfOk, MatchOption, MatchResult};
ghost use Rattle.crossbeam_queue.specs.Fifo.{Held};
ghost use Rattle.fragment_intake.specs.declared.rules.Parcel.{Parcel};
ghost use Rattle.fragment_intake.specs.Collectors.{AreCollectorsOf, Counts, HasSubmitted, HasTaken, LeavesOf};
ghost use Rattle.fragment_intake.specs.Delivers.{of, seen, collector, Settled, Waits};

use crate::rules::{Item, Line, Parcel, Puts, Roles, Takes, View};
use crate::tallies::{Tally, count, settle_up};
use crossbeam_queue::Pass;
use std::alloc::Global;
use std::marker::Model;
use std::sync::Wait;
use txn::NoMemory;

/// Where collectors submit. Contracts see which desk it is, and its capacity.
#[derive(Drop)]
pub struct Desk {
    line: Line,
}

impl Model for Desk {
    ghost use Rattle.std.specs.Prelude.{ℕ};
    ghost use Rattle.atomic_table.specs.Seated.{TableId};

    ghost Value = { TableId × ℕ };

    ghost view = { λ d. (d.line.table.shared.table_id, d.line.cap) };
}

/// The right of one collector to submit. Contracts see the desk, the collector's number and what it has submitted.
#[derive(Drop)]
pub struct CollectorPass {
    pub(crate) pass: Pass<Parcel, View>,
    pub(crate) who: u64,
    pub(crate) next: u64,
}

impl Model for CollectorPass {
    ghost use Rattle.std.specs.Prelude.{◌≡◌, ◌<◌, ℕ, List, [], length};
    ghost use Rattle.atomic_table.specs.Seated.{TableId};
    ghost use Rattle.fragment_intake.specs.declared.rules.Parcel.{Parcel};
    ghost use Rattle.fragment_intake.specs.Delivers.{put_of, collector};

    ghost Value = { TableId × ℕ × List Parcel };

    ghost view = { λ s. (s.pass.table_id, s.who, put_of s.pass.me.0.client.mine) };

    ghost invariant = { λ s. (s.pass.me.1 ≡ []) × (s.pass.me.0.client ≡ collector s.who (put_of s.pass.me.0.client.mine)) × (s.next ≡ length (put_of s.pass.me.0.client.mine)) × (s.who < 4) };
}

/// The right to take. Contracts see the desk and what was taken.
#[derive(Drop)]
pub struct AuditorPass {
    pub(crate) pass: Pass<Parcel, View>,
    pub(crate) taken: [u64; 4],
}

impl Model for AuditorPass {
    ghost use Rattle.std.specs.Prelude.{◌≡◌, List, []};
    ghost use Rattle.atomic_table.specs.Seated.{TableId};
    ghost use Rattle.fragment_intake.specs.declared.rules.Parcel.{Parcel};
    ghost use Rattle.fragment_intake.specs.Collectors.{Counts};
    ghost use Rattle.fragment_intake.specs.Delivers.{seen};

    ghost Value = { TableId × List Parcel };

    ghost view = { λ s. (s.pass.table_id, s.pass.me.0.client.got) };

    ghost invariant = { λ s. (s.pass.me.1 ≡ []) × (s.pass.me.0.client ≡ seen [] 1 s.pass.me.0.client.got) × Counts s.taken s.pass.me.0.client.got };
}

/// The passes of a desk's four collectors, in order of their numbers.
pub type CollectorPasses = (CollectorPass, CollectorPass, CollectorPass, CollectorPass);

impl Desk {
    /// A desk with this many places, with the passes of its four collectors and of the auditor.
    pub fn new(
        alloc: Global,
        capacity: usize,
    ) -> Result<(Desk, CollectorPasses, AuditorPass), NoMemory>
        requires { (0 < capacity) × (capacity ≤ 1024) }
        ensures collectors { IfOk result (λ r. AreCollectorsOf r.0 r.1) }
        ensures nothing { IfOk result (λ r. (r.1.0.2 ≡ []) × (r.1.1.2 ≡ []) × (r.1.2.2 ≡ []) × (r.1.3.2 ≡ [])) }
        ensures auditor { IfOk result (λ r. (r.2.0 ≡ r.0.0) × (r.2.1 ≡ [])) }
        ensures capacity { IfOk result (λ r. r.0.1 ≡ capacity) }
    {
        let (line, mut pass) = Line::ruled(alloc, capacity)?;
        let first = line.another::<Roles>(&mut pass);
        let second = line.another::<Roles>(&mut pass);
        let third = line.another::<Roles>(&mut pass);
        let fourth = line.another::<Roles>(&mut pass);
        let collectors = (
            collector_pass(first, 0),
            collector_pass(second, 1),
            collector_pass(third, 2),
            collector_pass(fourth, 3),
        );
        let auditor = AuditorPass {
            pass,
            taken: [0; 4],
        };
        Ok((Desk { line }, collectors, auditor))
    }

    /// Submits the item as its collector's next parcel. Where the queue is full the item comes back, and the pass is as it was.
    pub fn submit<R: Wait>(&self, rt: &R, pass: &mut CollectorPass, item: Item) -> Result<(), Item>
        requires desk { pass.old.0 ≡ self.now.0 }
        requires few { length pass.old.2 < 2 ^ 48 }
        ensures same { (pass.new.0 ≡ pass.old.0) × (pass.new.1 ≡ pass.old.1) }
        ensures submitted { MatchResult result
            (λ _. HasSubmitted pass.old.1 pass.old.2 item pass.new.2)
            (λ x. (x ≡ item) × (pass.new.2 ≡ pass.old.2) × Held self.now.1 (Waits (collector pass.old.1 pass.old.2))) }
    {
        let parcel = Parcel {
            collector: pass.who,
            place: pass.next,
            item,
        };
        match self.line.push_as::<Puts, R>(rt, &mut pass.pass, parcel) {
            Ok(()) => {
                pass.next += 1;
                Ok(())
            }
            Err(
                Parcel {
                    collector: _,
                    place: _,
                    item,
                },
            ) => Err(item),
        }
    }

    /// Takes the oldest parcel, unless the queue is empty.
    pub fn take<R: Wait>(&self, rt: &R, pass: &mut AuditorPass) -> Option<Parcel>
        requires { pass.old.0 ≡ self.now.0 }
        ensures same { pass.new.0 ≡ pass.old.0 }
        ensures taken { MatchOption result ((pass.new.1 ≡ pass.old.1) × Held 0 (Settled (seen [] 1 pass.old.1))) (λ next. HasTaken pass.old.1 next pass.new.1) }
    {
        let parcel = self.line.pop_as::<Takes, R>(rt, &mut pass.pass)?;
        count(&mut pass.taken, parcel.collector);
        Some(parcel)
    }

    /// Ends the desk, once the collectors have ended: of each, what was taken and then what is left is what it submitted.
    pub fn tally<R: Wait>(self, rt: &R, collectors: CollectorPasses, auditor: AuditorPass) -> Tally
        requires collectors { AreCollectorsOf self collectors }
        requires auditor { auditor.0 ≡ self.0 }
        ensures submitted { result.submitted ≡ length collectors.0.2 ∷ length collectors.1.2 ∷ length collectors.2.2 ∷ length collectors.3.2 ∷ [] }
        ensures taken { Counts result.taken auditor.1 }
        ensures left { LeavesOf result.left auditor.1 collectors.0.2 collectors.1.2 collectors.2.2 collectors.3.2 }
    {
        let Desk { line } = self;
        let (first, second, third, fourth) = collectors;
        settle_up(rt, line, first, second, third, fourth, auditor)
    }
}

/// The pass of a collector that has submitted nothing.
fn collector_pass(pass: Pass<Parcel, View>, who: u64) -> CollectorPass
    requires slots { pass.me.1 ≡ [] }
    requires fresh { pass.me.0.client ≡ collector who [] }
    requires number { who < 4 }
    ensures { (result.0 ≡ pass.table_id) × (result.1 ≡ who) × (result.2 ≡ []) }
{
    CollectorPass { pass, who, next: 0 }
}
