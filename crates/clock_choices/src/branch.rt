ghost use Rattle.std.specs.Prelude.{◌≡◌, ◌↔◌, ◌≢◌, ◌<◌, [], ◌∷◌, ◌++◌, Contains, IfOk, OnOk, OnErr, IsTrue, List, MatchOption, Some, drop, length, map, slice_get, take, Vec};
ghost use Rattle.std.specs.declared.alloc.Global.{Global};
ghost use Rattle.txn.specs.declared.transactions.TxnId.{TxnId};
ghost use Rattle.txn.specs.declared.choices.Choice.{Choice};
ghost use Rattle.txn.specs.declared.choices.ForceStep.{ForceStep};
ghost use Rattle.order_check.specs.declared.remainder.Parts.{Parts};
ghost use Rattle.order_check.specs.Based.{Remains};
ghost use Rattle.order_check.specs.Cycles.{AreNew, IsCycle, IsForced, sides_after};
ghost use Rattle.order_check.specs.Explains.{KeepsSessions};
ghost use Rattle.order_check.specs.Good.{IsGood};
ghost use Rattle.order_check.specs.Known.{Known, IsChoice, IsOpen};
ghost use Rattle.order_check.specs.Search.{HasCycle, IsFirstOpen};
ghost use Rattle.session_clocks.specs.Graphs.{last_mark};
ghost use Rattle.clock_choices.specs.BranchState.{AreFullFrom, assumed, all_taken, last_steps, taken_before, taken_with};
ghost use Rattle.clock_choices.specs.declared.steps.Forced.{Forced};
ghost use Rattle.clock_choices.specs.Indexing.{AreInOrder, IsIndex};
ghost use Rattle.clock_choices.specs.Linking.{AreNodesOf};
ghost use Rattle.clock_choices.specs.Opens.{IsAsked};
ghost use Rattle.clock_choices.specs.Stacks.{IsMoreBy, IsSeen, seen_of_last, stack_onto, steps_of_last};
ghost use Rattle.clock_choices.specs.Steps.{bare};

use crate::acyclic::{acyclic_in, cycle_in};
use crate::cycles::cycle_of_step;
use crate::first_open::{Asked, first_open_from};
use crate::indexing::{Index, remaining_ids_of};
use crate::saturated::Saturated;
use crate::saturating::saturate;
use crate::sharing::SharedIndex;
use crate::steps::{Forced, conclusion_of};
use order_check::Parts;
use session_clocks::Graph;
use std::alloc::Global;
use std::marker::Model;
use txn::{Arc, Choice, NoMemory, Sequence, Side, TxnId};

/// What was seen of the relation before a side was assumed.
#[derive(Clone, Copy, Debug)]
struct Seen {
    /// How many transactions at the front had no open choice.
    passed: usize,
    /// How many arcs at the front made no cycle.
    acyclic: usize,
}

/// A side of a choice that is assumed, and what was seen before.
#[derive(Clone, Copy, Debug)]
struct Assumed {
    choice: Choice,
    side: Side,
    seen: Seen,
}

/// A side that is assumed, and the steps that it forces.
#[derive(Drop, Debug)]
struct Top {
    assumed: Assumed,
    steps: Vec<Forced>,
}

/// The known relation where sides of choices are assumed, one after another. All are on one graph, which has a mark for each
/// side, so that coming back takes no memory, and time of what the side changed.
#[derive(Debug)]
pub struct Branch {
    parts: Parts,
    /// What remains, in order of id.
    pub(crate) ids: Vec<TxnId>,
    log: Vec<Forced>,
    index: SharedIndex,
    pub(crate) graph: Graph,
    tops: Vec<Top>,
}

impl Model for Branch {
    ghost use Rattle.std.specs.Prelude.{[], map};
    ghost use Rattle.std.specs.Coded.{codes};
    ghost use Rattle.order_check.specs.Codes.{coded_last};
    ghost use Rattle.clock_choices.specs.BranchState.{BranchState};
    ghost use Rattle.clock_choices.specs.SharedIndexes.{index_in};
    ghost use Rattle.clock_choices.specs.Steps.{bare};
    ghost use Rattle.clock_choices.specs.Stacks.{IsBranch, levels_of, stack_onto};

    ghost Value = { BranchState };

    ghost coded = { Prim.hlevel (codes, coded_last) };

    ghost view = { λ b. record { parts = b.parts; log = map bare b.log.items; levels = levels_of (stack_onto [] b.tops.items) } };

    ghost invariant = { λ b. IsBranch b.parts b.ids.items b.log.items (index_in b.index) b.graph b.tops.items };
}

// Written out, so that whoever lets a branch go calls this: a derived one would be written into each of its proofs, field by field.
impl Drop for Branch {
    fn drop(self) {
        let Branch {
            parts: _,
            ids: _,
            log: _,
            index: _,
            graph: _,
            tops: _,
        } = self;
    }
}

/// Puts one more side into the relation, and gives the steps that it forces.
fn relation_with(
    alloc: Global,
    index: &Index,
    graph: &mut Graph,
    assumed: Assumed,
) -> Result<Vec<Forced>, NoMemory>
    requires { (parts : Parts) × IsIndex parts index.now × AreNodesOf parts graph.old.gone graph.old.received × IsChoice parts assumed.choice }
    ensures relation { IfOk result (λ steps. (parts : Parts) → IsIndex parts index.now → IsMoreBy parts graph.old graph.new assumed.choice assumed.side steps.items) }
    ensures mark { last_mark graph.new ≡ last_mark graph.old }
{
    let (from, to) = conclusion_of(assumed.choice, assumed.side);
    let mut due = Vec::new(alloc);
    graph.add_arc(alloc, Arc::Taken { from, to }, &mut due)?;
    let mut steps = Vec::new(alloc);
    saturate(alloc, &index.writers, &index.reads, graph, &mut steps, due)?;
    Ok(steps)
}

/// Puts one more side into the relation, and on top of those that are assumed.
fn take_side(
    alloc: Global,
    index: &Index,
    graph: &mut Graph,
    tops: &mut Vec<Top>,
    assumed: Assumed,
) -> Result<(), NoMemory>
    requires { (parts : Parts) × IsIndex parts index.now × AreNodesOf parts graph.old.gone graph.old.received × IsChoice parts assumed.choice }
    ensures ok { OnOk result ((steps : Vec Forced Global) × (tops.new.items ≡ tops.old.items ++ record { assumed = assumed; steps = steps } ∷ [])
        × ((parts : Parts) → IsIndex parts index.now → IsMoreBy parts graph.old graph.new assumed.choice assumed.side steps.items)) }
    ensures err { OnErr result (tops.new.items ≡ tops.old.items) }
    ensures mark { last_mark graph.new ≡ last_mark graph.old }
{
    let steps = relation_with(alloc, index, graph, assumed)?;
    tops.push(Top { assumed, steps })?;
    Ok(())
}

/// The steps that the last side assumed forces; where none is assumed, those forced before.
fn last_steps<'a>(log: &'a [Forced], tops: &'a [Top]) -> &'a [Forced]
    ensures { result.now ≡ steps_of_last log.now (stack_onto [] tops.now) }
{
    match tops.last() {
        Some(top) => top.steps.as_slice(),
        None => log,
    }
}

/// What is known to hold of the relation: what was seen before the last side was assumed, which leaves no more open and takes no arc
/// away.
fn seen_by(tops: &[Top]) -> Seen
    ensures { result ≡ seen_of_last (stack_onto [] tops.now) }
{
    match tops.last() {
        Some(top) => top.assumed.seen,
        None => Seen {
            passed: 0,
            acyclic: 0,
        },
    }
}

/// What is seen of the relation, where so much is known of it.
fn seen_in(asked: &Asked, ids: &[TxnId], known: Seen) -> Seen
    requires asked { IsAsked asked.now.parts.now asked.now.index.now asked.now.graph.now }
    requires members { (id : TxnId) → Contains ids.now id ↔ Remains asked.now.parts.now id }
    requires rise { AreInOrder ids.now }
    requires known { IsSeen asked.now.parts.now ids.now asked.now.graph.now known }
    ensures { IsSeen asked.now.parts.now ids.now asked.now.graph.now result }
{
    let first = first_open_from(asked, ids, known.passed);
    let acyclic = acyclic_in(asked.graph, known.acyclic);
    Seen {
        passed: first.passed,
        acyclic,
    }
}

impl Branch {
    /// No side is assumed yet.
    pub fn of(alloc: Global, known: &Saturated) -> Result<Branch, NoMemory>
        ensures { IfOk result (λ branch. branch ≡ record { parts = known.now.parts; log = known.now.log; levels = [] }) }
    {
        let (parts, graph, log) = known.copies(alloc)?;
        let ids = remaining_ids_of(alloc, &parts)?;
        let index = known.index(alloc)?;
        Ok(Branch {
            parts,
            ids,
            log,
            index,
            graph,
            tops: Vec::new(alloc),
        })
    }

    /// What remains, in order of id.
    pub fn ids(&self, alloc: Global) -> Result<Vec<TxnId>, NoMemory>
        ensures sessions { IfOk result (λ ids. KeepsSessions self.now.parts ids.items) }
        ensures members { IfOk result (λ ids. (id : TxnId) → Remains self.now.parts id → Contains ids.items id) }
        ensures known { IfOk result (λ ids. (a b : TxnId) → Known self.now.parts (assumed self.now.levels) a b → Contains ids.items a × Contains ids.items b) }
    {
        let ids = Vec::from_slice(alloc, &self.ids)?;
        Ok(ids)
    }

    /// A cycle of right arcs, where what is known has one.
    pub fn cycle(&self, alloc: Global) -> Result<Option<Sequence<Arc>>, NoMemory>
        ensures { IfOk result (λ found. MatchOption found
            (¬ HasCycle self.now.parts (assumed self.now.levels))
            (λ arcs. HasCycle self.now.parts (assumed self.now.levels) × IsCycle self.now.parts (all_taken self.now.log self.now.levels) arcs)) }
    {
        let known = seen_by(&self.tops);
        cycle_in(alloc, &self.parts, &self.graph, known.acyclic)
    }

    /// The first choice that is open, where one is.
    pub fn first_open(&self, alloc: Global) -> Result<Option<Choice>, NoMemory>
        ensures { IfOk result (λ found. MatchOption found
            ((choice : Choice) → ¬ IsOpen self.now.parts (assumed self.now.levels) choice)
            (IsFirstOpen self.now.parts (assumed self.now.levels))) }
    {
        let _ = alloc;
        let known = seen_by(&self.tops);
        let index = self.index.get();
        let asked = Asked {
            parts: &self.parts,
            index,
            graph: &self.graph,
        };
        let first = first_open_from(&asked, &self.ids, known.passed);
        Ok(first.choice)
    }

    /// Assumes a side of a choice, and forces what it forces.
    pub fn assume(&mut self, alloc: Global, choice: Choice, side: Side) -> Result<(), NoMemory>
        requires { IsChoice self.old.parts choice }
        ensures ok { OnOk result ((steps : List ForceStep) × (self.new ≡ record self.old { levels = record { choice = choice; side = side; steps = steps } ∷ self.old.levels })) }
        ensures full { OnOk result (AreFullFrom self.new.parts (assumed self.new.levels) (taken_with self.old choice side) (last_steps self.new.log self.new.levels)) }
        ensures new { OnOk result (AreNew self.new.parts (taken_with self.old choice side) (last_steps self.new.log self.new.levels)) }
        ensures err { OnErr result (self.new ≡ self.old) }
    {
        let known = seen_by(&self.tops);
        let index = self.index.get();
        let asked = Asked {
            parts: &self.parts,
            index,
            graph: &self.graph,
        };
        let seen = seen_in(&asked, &self.ids, known);
        self.graph.mark()?;
        let assumed = Assumed { choice, side, seen };
        match take_side(alloc, index, &mut self.graph, &mut self.tops, assumed) {
            Ok(()) => Ok(()),
            Err(error) => {
                self.graph.back();
                Err(error)
            }
        }
    }

    /// Takes back the side that was assumed last. It takes no memory.
    pub fn back(&mut self)
        requires { self.old.levels ≢ [] }
        ensures { self.new ≡ record self.old { levels = drop 1 self.old.levels } }
    {
        self.graph.back();
        let _last = self.tops.pop();
    }

    pub fn parts(&self) -> &Parts
        ensures value { result.now ≡ self.now.parts }
        ensures good { IsGood result.now }
    {
        &self.parts
    }

    /// How many sides are assumed.
    pub fn depth(&self) -> usize
        ensures { result ≡ length self.now.levels }
    {
        self.tops.len()
    }

    /// Whether the one is known to come before the other. It takes no memory.
    pub fn reaches(&self, earlier: TxnId, later: TxnId) -> bool
        ensures { IsTrue result ↔ Known self.now.parts (assumed self.now.levels) earlier later }
    {
        self.graph.reaches(earlier, later)
    }

    /// The steps that the last side assumed forces; where none is assumed, those forced before.
    pub fn steps(&self) -> &[Forced]
        ensures { map bare result.now ≡ last_steps self.now.log self.now.levels }
    {
        last_steps(&self.log, &self.tops)
    }

    /// The cycle that the other side of one of these steps would close, where the sides taken before it are taken.
    pub fn cycle_of(&self, alloc: Global, place: usize) -> Result<Sequence<Arc>, NoMemory>
        requires { place < length (last_steps self.now.log self.now.levels) }
        ensures { IfOk result (λ cycle. (step : ForceStep) → slice_get (last_steps self.now.log self.now.levels) place ≡ Some step
            → IsForced self.now.parts (sides_after (taken_before self.now.log self.now.levels) (take place (last_steps self.now.log self.now.levels))) (record step { cycle = cycle })) }
    {
        let step = last_steps(&self.log, &self.tops)[place];
        cycle_of_step(alloc, &self.parts, &self.graph, step)
    }
}
