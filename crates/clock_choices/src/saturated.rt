ghost use Rattle.std.specs.Prelude.{◌≡◌, ◌↔◌, ◌<◌, List, [], true, Contains, Some, length, map, slice_get, take, IfOk, IfSome, IsTrue, OnOk, OnErr};
ghost use Rattle.std.specs.List.{AllPairs};
ghost use Rattle.txn.specs.declared.transactions.TxnId.{TxnId};
ghost use Rattle.txn.specs.declared.choices.ForceStep.{ForceStep};
ghost use Rattle.txn.specs.Transactions.{id_below};
ghost use Rattle.order_check.specs.Based.{Remains, received_count};
ghost use Rattle.order_check.specs.Cuts.{IsContentCutOff};
ghost use Rattle.order_check.specs.Cycles.{AreNew, IsForced, IsFullLog, sides_after};
ghost use Rattle.order_check.specs.Good.{IsGood};
ghost use Rattle.order_check.specs.Known.{AreOpenChoices, Known};
ghost use Rattle.order_check.specs.StandsFor.{parts_closed, parts_with};
ghost use Rattle.session_clocks.specs.Reach.{Reaches};
ghost use Rattle.clock_choices.specs.CountedChoices.{AreFirstOpen};
ghost use Rattle.clock_choices.specs.Held.{IsHeld};
ghost use Rattle.clock_choices.specs.Over.{IsOver};
ghost use Rattle.clock_choices.specs.SaturatedState.{AreNewBehind, LogsOnAfterCut, fragment_of, sides_logged};
ghost use Rattle.clock_choices.specs.SharedIndexes.{IsIndexIn};
ghost use Rattle.clock_choices.specs.Steps.{bare};

use crate::catching_up::catch_up;
use crate::cutting::left_steps;
use crate::cycles::cycle_of_step;
use crate::indexing::{index_of, remaining_ids_of};
use crate::open_choices::{Listed, OpenChoices, all_of, listed_for, open_of};
use crate::sharing::{SharedIndex, kept_index, own_index, shared_index, shared_or_none};
use crate::steps::Forced;
use crate::whole::relation_of;
use order_check::{
    Parts, cut_keeps_known, cut_keeps_received, cut_leaves_the_rest, cut_moves_base,
};
use session_clocks::Graph;
use std::alloc::Global;
use std::marker::Model;
use txn::{Arc, Choice, Fragment, NoMemory, Sequence, Txn, TxnId};

/// The known relation of parts: what every order that explains them has to keep. Contracts see the parts, and the steps
/// by which sides of choices were forced.
#[derive(Debug)]
pub struct Saturated {
    parts: Parts,
    graph: Graph,
    steps: Vec<Forced>,
    /// What is looked up of the parts, shared with copies and branches; none where it isn't made yet.
    index: Option<SharedIndex>,
    /// The first open choices, and how many there are; none where they aren't listed yet.
    listed: Option<Listed>,
}

impl Model for Saturated {
    ghost use Rattle.std.specs.Prelude.{IfSome, map};
    ghost use Rattle.std.specs.Coded.{codes};
    ghost use Rattle.order_check.specs.Codes.{coded_last};
    ghost use Rattle.order_check.specs.Good.{IsGood};
    ghost use Rattle.clock_choices.specs.Held.{IsHeld};
    ghost use Rattle.clock_choices.specs.KeptLists.{IsListed};
    ghost use Rattle.clock_choices.specs.SaturatedState.{SaturatedState};
    ghost use Rattle.clock_choices.specs.SharedIndexes.{IsIndexIn};
    ghost use Rattle.clock_choices.specs.Steps.{bare};

    ghost Value = { SaturatedState };

    ghost coded = { Prim.hlevel (codes, coded_last) };

    ghost view = { λ s. record { parts = s.parts; log = map bare s.steps.items } };

    ghost invariant = { λ s. IsGood s.parts × IsHeld s.parts s.graph.gone s.graph.received s.graph.arcs s.steps.items × IfSome s.index (IsIndexIn s.parts) × IfSome s.listed (IsListed s.parts) };
}

/// A whole copy.
fn copy_of_txns(txns: &Sequence<Txn>) -> Result<Sequence<Txn>, NoMemory>
    ensures { IfOk result (λ copy. copy ≡ txns.now) }
{
    txns.clone()
}

/// A whole copy.
fn copy_of_parts(parts: &Parts) -> Result<Parts, NoMemory>
    ensures { IfOk result (λ copy. copy ≡ parts.now) }
{
    parts.clone()
}

/// The known relation of the parts.
fn of_whole(alloc: Global, parts: Parts) -> Result<Saturated, NoMemory>
    requires { IsGood parts }
    ensures parts { IfOk result (λ saturated. saturated.parts ≡ parts) }
    ensures new { IfOk result (λ saturated. AreNew parts [] saturated.log) }
{
    let index = index_of(alloc, &parts)?;
    let (graph, steps) = relation_of(alloc, &parts, &index)?;
    Ok(Saturated {
        parts,
        graph,
        steps,
        index: shared_or_none(alloc, index),
        listed: None,
    })
}

impl Saturated {
    /// The known relation of the parts, which are copied.
    pub fn of(alloc: Global, parts: &Parts) -> Result<Saturated, NoMemory>
        requires { IsGood parts.now }
        ensures parts { IfOk result (λ saturated. saturated.parts ≡ parts.now) }
        ensures new { IfOk result (λ saturated. AreNew parts.now [] saturated.log) }
    {
        let copy = copy_of_parts(parts)?;
        of_whole(alloc, copy)
    }

    pub fn parts(&self) -> &Parts
        ensures value { result.now ≡ self.now.parts }
        ensures good { IsGood result.now }
    {
        &self.parts
    }

    /// Whole copies of the parts, of the graph and of the steps.
    pub(crate) fn copies(&self, alloc: Global) -> Result<(Parts, Graph, Vec<Forced>), NoMemory>
        ensures parts { IfOk result (λ copies. copies.0 ≡ self.now.parts) }
        ensures log { IfOk result (λ copies. map bare copies.2.items ≡ self.now.log) }
        ensures good { IfOk result (λ copies. IsGood copies.0) }
        ensures held { IfOk result (λ copies. IsHeld copies.0 copies.1.gone copies.1.received copies.1.arcs copies.2.items) }
    {
        let parts = copy_of_parts(&self.parts)?;
        let graph = copy_of_graph(&self.graph)?;
        let steps = Vec::from_slice(alloc, &self.steps)?;
        Ok((parts, graph, steps))
    }

    /// What is looked up of the parts, shared.
    pub(crate) fn index(&self, alloc: Global) -> Result<SharedIndex, NoMemory>
        ensures { IfOk result (IsIndexIn self.now.parts) }
    {
        shared_index(alloc, &self.index, &self.parts)
    }

    /// What remains, with arcs by which it reaches what is known to come after it.
    pub(crate) fn graph(&self) -> &Graph
        ensures sessions { length result.now.gone ≡ length self.now.parts.remain }
        ensures over { IsOver self.now.parts result.now.gone result.now.received }
        ensures exact { (a b : TxnId) → Reaches result.now.gone result.now.received result.now.arcs a b ↔ Known self.now.parts [] a b }
    {
        &self.graph
    }

    /// What remains, in order of id.
    pub fn ids(&self, alloc: Global) -> Result<Vec<TxnId>, NoMemory>
        ensures rise { IfOk result (λ ids. AllPairs (λ a b. id_below a b ≡ true) ids.items) }
        ensures members { IfOk result (λ ids. (id : TxnId) → Contains ids.items id ↔ Remains self.now.parts id) }
        ensures known { IfOk result (λ ids. (a b : TxnId) → Known self.now.parts [] a b → Contains ids.items a × Contains ids.items b) }
    {
        let ids = remaining_ids_of(alloc, &self.parts)?;
        Ok(ids)
    }

    /// Whether every order that explains the parts is known to have the one before the other. Where the relation has a
    /// cycle, each transaction on it comes before itself. It takes no memory.
    pub fn reaches(&self, earlier: TxnId, later: TxnId) -> bool
        ensures { IsTrue result ↔ Known self.now.parts [] earlier later }
    {
        self.graph.reaches(earlier, later)
    }

    /// Makes what is looked up of the parts, if none is kept.
    fn keep_index(&mut self, alloc: Global) -> Result<(), NoMemory>
        ensures { self.new ≡ self.old }
    {
        let index = shared_index(alloc, &self.index, &self.parts)?;
        self.index = Some(index);
        Ok(())
    }

    /// Lists the first so many of the open choices, so that who asks for as many gets them at once until a change. Contracts see no
    /// difference.
    pub fn keep_open(&mut self, alloc: Global, most: usize) -> Result<(), NoMemory>
        ensures { self.new ≡ self.old }
    {
        self.keep_index(alloc)?;
        let choices = self.first_open(alloc, most)?;
        self.listed = Some(Listed { most, choices });
        Ok(())
    }

    /// The open choices, in order of reader, key, writer, other writer.
    pub fn open_choices(&self, alloc: Global) -> Result<Sequence<Choice>, NoMemory>
        ensures { IfOk result (AreOpenChoices self.now.parts []) }
    {
        let found = self.first_open(alloc, usize::MAX)?;
        Ok(all_of(found))
    }

    /// The first so many of the open choices, and how many there are. It takes memory of those, and not of all.
    pub fn first_open(&self, alloc: Global, most: usize) -> Result<OpenChoices, NoMemory>
        ensures { IfOk result (AreFirstOpen self.now.parts most) }
    {
        let listed = listed_for(&self.listed, most)?;
        match listed {
            Some(choices) => Ok(choices),
            None => open_of(alloc, &self.parts, &self.index, &self.graph, most),
        }
    }

    /// The sides that were forced, one after another. There are cycles that the other sides would close, with which they are a full
    /// log.
    pub fn log(&self) -> &[Forced]
        ensures value { map bare result.now ≡ self.now.log }
        ensures full { (whole : List ForceStep) × (sides_logged whole ≡ sides_logged self.now.log) × IsFullLog self.now.parts whole }
    {
        self.steps.as_slice()
    }

    /// The cycle that the other side of a step would close, where the sides of the steps before it are taken.
    pub fn cycle_of(&self, alloc: Global, place: usize) -> Result<Sequence<Arc>, NoMemory>
        requires { place < length self.now.log }
        ensures { IfOk result (λ cycle. (step : ForceStep) → slice_get self.now.log place ≡ Some step
            → IsForced self.now.parts (sides_after [] (take place self.now.log)) (record step { cycle = cycle })) }
    {
        let step = self.steps[place];
        cycle_of_step(alloc, &self.parts, &self.graph, step)
    }

    /// Adds the next transaction of a session.
    pub fn add(&mut self, alloc: Global, id: TxnId, txn: &Txn) -> Result<(), NoMemory>
        requires session { id.session < length self.old.parts.remain }
        requires next { id.number ≡ received_count self.old.parts id.session }
        requires good { IsGood (parts_with self.old.parts (fragment_of id txn.now)) }
        ensures ok { OnOk result (self.new.parts ≡ parts_with self.old.parts (fragment_of id txn.now)) }
        ensures logged { OnOk result (AreNewBehind self.new.parts self.old.log self.new.log) }
        ensures err { OnErr result (self.new ≡ self.old) }
    {
        let mut txns = Vec::with_capacity(alloc, 1)?;
        txns.push(txn.clone()?)?;
        let fragment = Fragment {
            session: id.session,
            first: id.number,
            txns: Sequence::new(txns),
        };
        self.add_all(alloc, &fragment)
    }

    /// Adds the transactions of a fragment, all or none.
    pub fn add_all(&mut self, alloc: Global, fragment: &Fragment) -> Result<(), NoMemory>
        requires session { fragment.now.session < length self.old.parts.remain }
        requires next { fragment.now.first ≡ received_count self.old.parts fragment.now.session }
        requires good { IsGood (parts_with self.old.parts fragment.now) }
        ensures ok { OnOk result (self.new.parts ≡ parts_with self.old.parts fragment.now) }
        ensures logged { OnOk result (AreNewBehind self.new.parts self.old.log self.new.log) }
        ensures err { OnErr result (self.new ≡ self.old) }
    {
        let index = own_index(alloc, self.index.take(), &self.parts)?;
        let txns = copy_of_txns(&fragment.txns)?;
        let place = usize::from(fragment.session);
        let before = self.parts.remaining_of(fragment.session).len();
        self.parts.remain.append_at(place, txns)?;
        match catch_up(
            alloc,
            &self.parts,
            fragment,
            index,
            &mut self.graph,
            &mut self.steps,
        ) {
            Ok(index) => {
                self.index = shared_or_none(alloc, index);
                self.listed = None;
                Ok(())
            }
            Err(error) => {
                self.parts.remain.truncate_at(place, before);
                Err(error)
            }
        }
    }

    /// Goes on with the parts that a cut leaves, in place unless something that stays is known to come before what goes, which is
    /// so on a cycle alone. It asks nothing of which sessions are closed, nor of the bounds: the cut may be one of the same
    /// transactions over the same base, closed since.
    pub fn cut(&mut self, alloc: Global, gone: &[TxnId], parts: &Parts) -> Result<(), NoMemory>
        requires good { IsGood parts.now }
        requires cut_off { IsContentCutOff self.old.parts gone.now parts.now }
        ensures ok { OnOk result (self.new.parts ≡ parts.now) }
        ensures logged { OnOk result (LogsOnAfterCut self.new.parts self.old.log self.new.log) }
        ensures err { OnErr result (self.new ≡ self.old) }
    {
        cut_leaves_the_rest();
        cut_moves_base();
        cut_keeps_known();
        cut_keeps_received();
        let copy = copy_of_parts(parts)?;
        let left = parts.base.marks.as_slice();
        if !self.graph.can_drop(left) {
            return self.go_on(alloc, copy);
        }
        let steps = left_steps(alloc, parts, left, self.graph.arcs(), &self.steps)?;
        self.graph.drop_fronts(left);
        self.steps = steps;
        self.parts = copy;
        self.index = None;
        self.listed = None;
        Ok(())
    }

    /// Goes on with the parts.
    fn go_on(&mut self, alloc: Global, parts: Parts) -> Result<(), NoMemory>
        requires { IsGood parts }
        ensures ok { OnOk result (self.new.parts ≡ parts) }
        ensures new { OnOk result (AreNew self.new.parts [] self.new.log) }
        ensures err { OnErr result (self.new ≡ self.old) }
    {
        *self = of_whole(alloc, parts)?;
        Ok(())
    }
}

impl Saturated {
    /// Closes a session: it receives no more. It takes no memory.
    pub fn close(&mut self, session: u8)
        requires { session < length self.old.parts.remain }
        ensures { self.new ≡ record self.old { parts = parts_closed self.old.parts session } }
    {
        self.parts.closed.set(usize::from(session), true);
        self.listed = None;
    }

    /// The parts, without what is known of them.
    pub fn into_parts(self) -> Parts
        ensures { result ≡ self.parts }
    {
        let Saturated {
            parts,
            graph: _,
            steps: _,
            index: _,
            listed: _,
        } = self;
        parts
    }
}

/// A relation whose open choices aren't listed yet.
fn saturated_from(
    parts: Parts,
    graph: Graph,
    steps: Vec<Forced>,
    index: Option<SharedIndex>,
) -> Saturated
    requires good { IsGood parts }
    requires held { IsHeld parts graph.gone graph.received graph.arcs steps.items }
    requires index { IfSome index (IsIndexIn parts) }
    ensures parts { result.parts ≡ parts }
    ensures log { result.log ≡ map bare steps.items }
{
    Saturated {
        parts,
        graph,
        steps,
        index,
        listed: None,
    }
}

/// A whole copy.
fn copy_of_graph(graph: &Graph) -> Result<Graph, NoMemory>
    ensures { IfOk result (λ copy. copy ≡ graph.now) }
{
    graph.clone()
}

// Written out, so that whoever lets a relation go calls this: a derived one would be written into each of its proofs, field by field.
impl Drop for Saturated {
    fn drop(self) {
        let Saturated {
            parts: _,
            graph: _,
            steps: _,
            index: _,
            listed: _,
        } = self;
    }
}

impl Clone for Saturated {
    ghost use Rattle.std.specs.Prelude.{◌≡◌};

    ghost is_clone = { λ old new. new ≡ old };

    fn clone(&self) -> Result<Self, NoMemory> {
        let alloc = *self.steps.allocator();
        let parts = copy_of_parts(&self.parts)?;
        let graph = copy_of_graph(&self.graph)?;
        let steps = Vec::from_slice(alloc, &self.steps)?;
        let index = kept_index(&self.index)?;
        Ok(saturated_from(parts, graph, steps, index))
    }
}
