ghost use Rattle.std.specs.Prelude.{◌≡◌, ◌≢◌, ◌⊎◌, ◌↔◌, ℕ, [], ◌∷◌, ◌++◌, ◌+◌, ◌-◌, ◌*◌, ◌^◌, ◌<◌, ◌≤◌, IsTrue, filter, IfOk, IfSome, MatchOption, OnOk, OnErr, length, slice_index, take};
ghost use Rattle.txn.specs.declared.transactions.TxnId.{TxnId};
ghost use Rattle.txn.specs.Arcs.{start_of, end_of};
ghost use Rattle.session_clocks.specs.Additions.{IsAddition, AreTold, IsFrontOf};
ghost use Rattle.session_clocks.specs.Drops.{arc_stays, NoneReachesBack};
ghost use Rattle.session_clocks.specs.Graphs.{HasNode, IsOneMore, back_to, last_mark};
ghost use Rattle.session_clocks.specs.Lines.{AreSameNumbers, HasCountRow, HasFirstRow};
ghost use Rattle.session_clocks.specs.Nodes.{AreSameNodes, HasNodeMore};
ghost use Rattle.session_clocks.specs.Paths.{IsPathOf};
ghost use Rattle.session_clocks.specs.Reach.{IsThere, Reaches, IsOrReaches};
ghost use Rattle.session_clocks.specs.Removals.{IsLast, IsUntouched};
ghost use Rattle.session_clocks.specs.Rows.{line_at};

use crate::drops::{are_behind, drop_arcs, drop_rows};
use crate::lines::{copied, no_lines, push_rows};
use crate::nodes::{Incoming, Nodes};
use crate::notes::{note_spans, note_tails};
use crate::paths::find_path;
use crate::removals::pop_row;
use crate::rows::{NONE, clock, count_row, first_row};
use crate::sweeps::{lower_all, raise_all};
use crate::trail::{Mark, Trail, put_back};
use crate::widths::{widened_lines, with_one};
use std::alloc::Global;
use std::marker::Model;
use txn::{Arc, NoMemory, Sequence, TxnId};

/// What became of an arc.
#[derive(Clone, Copy, Debug, PartialEq, Eq)]
pub enum Addition {
    /// It closed no cycle.
    Added,
    /// It is added too, and closed a cycle.
    Cycle,
}

/// Transactions in sessions with arcs between them, and which of them reaches which.
#[derive(Drop, Debug)]
pub struct Graph {
    /// How many of each session are gone.
    gone: Vec<u64>,
    /// How many of each session were received, the gone ones among them.
    received: Vec<u64>,
    /// For each session a row for each transaction that is there: the first one of each session that it reaches.
    first: Vec<Vec<u64>>,
    /// For each session a row for each transaction that is there: how many of each session reach it.
    count: Vec<Vec<u64>>,
    arcs: Vec<Arc>,
    nodes: Nodes,
    /// The place of the first arc that closed a cycle when it was added, as far as is remembered: a help to find short cycles.
    closing: Option<usize>,
    trail: Trail,
}

impl Model for Graph {
    ghost use Rattle.session_clocks.specs.Graphs.{GraphState};
    ghost use Rattle.session_clocks.specs.Marks.{IsMarkedGraph, marks_of};
    ghost use Rattle.session_clocks.specs.Nodes.{AreNodes};

    ghost Value = { GraphState };

    ghost view = { λ graph. record { gone = graph.gone.items; received = graph.received.items; arcs = graph.arcs.items; marks = marks_of graph.trail.marks.items } };

    ghost invariant = { λ graph. IsMarkedGraph graph.gone.items graph.received.items graph.arcs.items graph.first.items graph.count.items graph.trail × AreNodes graph.gone.items graph.received.items graph.nodes.nodes.slots graph.nodes.keys.items };
}

/// Whether a transaction is there.
fn is_there(gone: &[u64], received: &[u64], id: TxnId) -> bool
    requires { length received.now ≡ length gone.now }
    ensures { IsTrue result ↔ IsThere gone.now received.now id }
{
    let session = usize::from(id.session);
    session < gone.len() && gone[session] <= id.number && id.number < received[session]
}

/// Whether both are.
fn are_there(gone: &[u64], received: &[u64], a: TxnId, b: TxnId) -> bool
    requires { length received.now ≡ length gone.now }
    ensures { IsTrue result ↔ (IsThere gone.now received.now a × IsThere gone.now received.now b) }
{
    is_there(gone, received, a) && is_there(gone, received, b)
}

/// Puts a node, and its rows behind the others of its session.
fn push_node(
    first: &mut [Vec<u64>],
    count: &mut [Vec<u64>],
    nodes: &mut Nodes,
    width: usize,
    id: TxnId,
) -> Result<(), NoMemory>
    requires first { id.session < length first.old }
    requires count { id.session < length count.old }
    requires width { id.session < width }
    requires rows { (length (line_at count.old id.session) ≡ 0) ⊎ (width ≤ length (line_at count.old id.session)) }
    requires number { id.number < 2 ^ 64 - 1 }
    requires keys { id.session < length nodes.old.keys.items }
    ensures first { OnOk result (HasFirstRow first.old first.new width id.session id.number) }
    ensures count { OnOk result (HasCountRow count.old count.new width id.session id.number) }
    ensures first_err { OnErr result (AreSameNumbers first.old first.new) }
    ensures count_err { OnErr result (AreSameNumbers count.old count.new) }
    ensures node { OnOk result (HasNodeMore nodes.old.nodes.slots nodes.new.nodes.slots nodes.old.keys.items nodes.new.keys.items id) }
    ensures nodes_err { OnErr result (AreSameNodes nodes.old.nodes.slots nodes.new.nodes.slots) }
    ensures keys_err { OnErr result (AreSameNumbers nodes.old.keys.items nodes.new.keys.items) }
{
    nodes.push(id)?;
    let line = usize::from(id.session);
    let pushed = push_rows(first, count, width, line, id.number);
    if pushed.is_err() {
        nodes.pop(line);
    }
    pushed
}

/// Puts an arc behind the others, and among those of the node where it ends.
fn push_arc(arcs: &mut Vec<Arc>, nodes: &mut Nodes, gone: &[u64], arc: Arc) -> Result<(), NoMemory>
    ensures ok { OnOk result (arcs.new.items ≡ arcs.old.items ++ arc ∷ []) }
    ensures err { OnErr result (arcs.new.items ≡ arcs.old.items) }
    ensures nodes { AreSameNodes nodes.old.nodes.slots nodes.new.nodes.slots }
    ensures keys { nodes.new.keys ≡ nodes.old.keys }
{
    let len = arcs.len();
    arcs.push(arc)?;
    let pushed = nodes.push_arc(gone, arc.end());
    if pushed.is_err() {
        arcs.truncate(len);
    }
    pushed
}

impl Graph {
    /// A graph with no transaction, of whose sessions so many are gone.
    pub fn new(alloc: Global, gone: &[u64]) -> Result<Self, NoMemory>
        requires { length gone.now ≤ 256 }
        ensures gone { IfOk result (λ graph. graph.gone ≡ gone.now) }
        ensures received { IfOk result (λ graph. graph.received ≡ gone.now) }
        ensures arcs { IfOk result (λ graph. graph.arcs ≡ []) }
        ensures marks { IfOk result (λ graph. graph.marks ≡ []) }
    {
        let sessions = gone.len();
        let received = Vec::from_slice(alloc, gone)?;
        let gone = Vec::from_slice(alloc, gone)?;
        let first = no_lines(alloc, sessions)?;
        let count = no_lines(alloc, sessions)?;
        let arcs = Vec::new(alloc);
        let nodes = Nodes::new(alloc, sessions)?;
        let trail = Trail::new(alloc);
        Ok(Graph {
            gone,
            received,
            first,
            count,
            arcs,
            nodes,
            closing: None,
            trail,
        })
    }

    pub fn contains(&self, id: TxnId) -> bool
        ensures { IsTrue result ↔ HasNode self.now id }
    {
        is_there(&self.gone, &self.received, id)
    }

    /// Whether one or more steps lead from the one to the other, each an arc or one to a later one of the session. It takes no
    /// memory.
    pub fn reaches(&self, from: TxnId, to: TxnId) -> bool
        ensures exact { IsTrue result ↔ Reaches self.now.gone self.now.received self.now.arcs from to }
        ensures there { IsTrue result → HasNode self.now from × HasNode self.now to }
    {
        if !are_there(&self.gone, &self.received, from, to) {
            return false;
        }
        clock(&self.first, &self.gone, from, usize::from(to.session)) <= to.number
    }

    /// How many of a session reach the transaction, the gone ones among them: of those that are there, the ones with a lower
    /// number.
    pub fn before(&self, id: TxnId, session: u8) -> u64
        requires there { HasNode self.now id }
        requires session { session < length self.now.gone }
        ensures low { slice_index self.now.gone session ≤ result }
        ensures high { result ≤ slice_index self.now.received session }
        ensures exact { (other : TxnId) → other.session ≡ session → HasNode self.now other → (other.number < result) ↔ Reaches self.now.gone self.now.received self.now.arcs other id }
    {
        let line = usize::from(session);
        clock(&self.count, &self.gone, id, line).max(self.gone[line])
    }

    /// The number of the first of a session that the transaction reaches, and how many were received where it reaches none.
    pub fn after(&self, id: TxnId, session: u8) -> u64
        requires there { HasNode self.now id }
        requires session { session < length self.now.gone }
        ensures low { slice_index self.now.gone session ≤ result }
        ensures high { result ≤ slice_index self.now.received session }
        ensures exact { (other : TxnId) → other.session ≡ session → HasNode self.now other → (result ≤ other.number) ↔ Reaches self.now.gone self.now.received self.now.arcs id other }
    {
        let line = usize::from(session);
        clock(&self.first, &self.gone, id, line).min(self.received[line])
    }

    /// For each session how many of it are gone.
    pub fn gone(&self) -> &[u64]
        ensures numbers { result.now ≡ self.now.gone }
        ensures few { length result.now ≤ 256 }
    {
        self.gone.as_slice()
    }

    /// For each session how many were received, the gone ones among them: the number of its next transaction.
    pub fn received(&self) -> &[u64]
        ensures numbers { result.now ≡ self.now.received }
        ensures sessions { length result.now ≡ length self.now.gone }
    {
        self.received.as_slice()
    }

    /// The arcs, in the order in which they were added.
    pub fn arcs(&self) -> &[Arc]
        ensures { result.now ≡ self.now.arcs }
    {
        self.arcs.as_slice()
    }

    /// One or more steps that lead from the one to the other, each one of the first so many arcs or one to a later transaction of
    /// the session, if there are any. What lies between the two is looked at first, and all arcs only where no path is found there.
    pub fn path_within(
        &self,
        alloc: Global,
        len: usize,
        from: TxnId,
        to: TxnId,
    ) -> Result<Option<Sequence<Arc>>, NoMemory>
        requires from { HasNode self.now from }
        requires to { HasNode self.now to }
        requires len { len ≤ length self.now.arcs }
        ensures { IfOk result (λ found. MatchOption found
            (¬ Reaches self.now.gone self.now.received (take len self.now.arcs) from to)
            (λ path. Reaches self.now.gone self.now.received (take len self.now.arcs) from to
            × IsPathOf self.now.gone self.now.received (take len self.now.arcs) from path to)) }
    {
        let lows = self.lows(alloc, from)?;
        find_path(
            alloc,
            &self.gone,
            &self.received,
            &self.arcs[..len],
            &Incoming {
                gone: &self.gone,
                nodes: &self.nodes,
            },
            &lows,
            from,
            to,
        )
    }

    /// The lowest number of a session that may lie behind the transaction or be its own.
    fn low(&self, from: TxnId, session: u8) -> u64
        requires { HasNode self.now from }
    {
        if usize::from(session) >= self.gone.len() {
            return 0;
        }
        let after = self.after(from, session);
        if session == from.session {
            after.min(from.number)
        } else {
            after
        }
    }

    /// The same for each session.
    fn lows(&self, alloc: Global, from: TxnId) -> Result<Vec<u64>, NoMemory>
        requires { HasNode self.now from }
    {
        let sessions = self.gone.len();
        let mut lows = Vec::with_capacity(alloc, sessions)?;
        for session in 0..sessions {
            lows.push(self.low(from, session as u8))?;
        }
        Ok(lows)
    }

    /// Adds the next transaction of a session, which all of its session reach, and takes all marks away.
    pub fn add_node(&mut self, session: u8) -> Result<TxnId, NoMemory>
        requires session { session < length self.old.gone }
        requires number { slice_index self.old.received session < 2 ^ 64 - 1 }
        ensures session { IfOk result (λ id. id.session ≡ session) }
        ensures number { IfOk result (λ id. id.number ≡ slice_index self.old.received session) }
        ensures received { OnOk result (IsOneMore self.old.received self.new.received session) }
        ensures gone { self.new.gone ≡ self.old.gone }
        ensures arcs { self.new.arcs ≡ self.old.arcs }
        ensures marks { OnOk result (self.new.marks ≡ []) }
        ensures err { OnErr result (self.new ≡ self.old) }
    {
        let line = usize::from(session);
        let number = self.received[line];
        let id = TxnId { session, number };
        push_node(
            &mut self.first,
            &mut self.count,
            &mut self.nodes,
            self.gone.len(),
            id,
        )?;
        self.received[line] = number + 1;
        self.trail.clear();
        Ok(id)
    }

    /// Takes the last transaction of a session away, which no arc touches, and all marks. It takes no memory.
    pub fn remove_node(&mut self, id: TxnId)
        requires there { HasNode self.old id }
        requires last { IsLast self.old.received id }
        requires untouched { IsUntouched self.old.arcs id }
        ensures received { IsOneMore self.new.received self.old.received id.session }
        ensures gone { self.new.gone ≡ self.old.gone }
        ensures arcs { self.new.arcs ≡ self.old.arcs }
        ensures marks { self.new.marks ≡ [] }
        // Among the rest all stays as it was.
        ensures rest { (a b : TxnId) → Reaches self.new.gone self.new.received self.new.arcs a b
            ↔ (Reaches self.old.gone self.old.received self.old.arcs a b × HasNode self.new a × HasNode self.new b) }
    {
        let line = usize::from(id.session);
        let width = self.gone.len();
        pop_row(&mut self.first, line, width);
        pop_row(&mut self.count, line, width);
        self.nodes.pop(line);
        self.received[line] = id.number;
        self.trail.clear();
    }

    /// Adds a session behind the others, of which so many are gone, and takes all marks away.
    pub fn add_session(&mut self, alloc: Global, count: u64) -> Result<(), NoMemory>
        requires { length self.old.gone < 256 }
        ensures gone { OnOk result (self.new.gone ≡ self.old.gone ++ count ∷ []) }
        ensures received { OnOk result (self.new.received ≡ self.old.received ++ count ∷ []) }
        ensures arcs { self.new.arcs ≡ self.old.arcs }
        ensures marks { OnOk result (self.new.marks ≡ []) }
        ensures same { OnOk result ((a b : TxnId) → Reaches self.new.gone self.new.received self.new.arcs a b ↔ Reaches self.old.gone self.old.received self.old.arcs a b) }
        ensures err { OnErr result (self.new ≡ self.old) }
    {
        let first = widened_lines(alloc, &self.first, &self.gone, &self.received, NONE)?;
        let counts = widened_lines(alloc, &self.count, &self.gone, &self.received, 0)?;
        let gone = with_one(alloc, &self.gone, count)?;
        let received = with_one(alloc, &self.received, count)?;
        self.nodes.add_session(alloc)?;
        self.first = first;
        self.count = counts;
        self.gone = gone;
        self.received = received;
        self.trail.clear();
        Ok(())
    }

    /// Whether one more arc closes a cycle.
    fn outcome(&self, arc: Arc) -> Addition
        ensures { IsAddition self.now.gone self.now.received self.now.arcs arc result }
    {
        if arc.end() == arc.start() || self.reaches(arc.end(), arc.start()) {
            Addition::Cycle
        } else {
            Addition::Added
        }
    }

    /// The same; of an arc that is refused it may tell some.
    fn add_telling(
        &mut self,
        alloc: Global,
        arc: Arc,
        told: &mut Vec<TxnId>,
    ) -> Result<Addition, NoMemory>
        requires start { HasNode self.old (start_of arc) }
        requires end { HasNode self.old (end_of arc) }
        ensures gone { self.new.gone ≡ self.old.gone }
        ensures received { self.new.received ≡ self.old.received }
        ensures arcs { OnOk result (self.new.arcs ≡ self.old.arcs ++ arc ∷ []) }
        ensures addition { IfOk result (IsAddition self.old.gone self.old.received self.old.arcs arc) }
        ensures told { OnOk result (AreTold self.old.gone self.old.received self.old.arcs arc told.old.items told.new.items) }
        ensures front { IsFrontOf told.old.items told.new.items }
        ensures marks { self.new.marks ≡ self.old.marks }
        ensures last { last_mark self.new ≡ last_mark self.old }
        ensures err { OnErr result (self.new ≡ self.old) }
    {
        let addition = self.outcome(arc);
        if self.reaches(arc.start(), arc.end()) {
            push_arc(&mut self.arcs, &mut self.nodes, &self.gone, arc)?;
            return Ok(addition);
        }
        let tops = count_row(alloc, &self.count, &self.gone, arc.start())?;
        let starts = first_row(alloc, &self.first, &self.gone, arc.end())?;
        self.trail
            .save_first(&self.first, &self.gone, &tops, arc.end(), &starts)?;
        self.trail.save_count(
            &self.count,
            &self.gone,
            &self.received,
            &starts,
            arc.start(),
            &tops,
        )?;
        note_tails(told, &self.first, &self.gone, &tops, arc.end())?;
        note_spans(
            told,
            &self.count,
            &self.gone,
            &self.received,
            &starts,
            arc.start(),
        )?;
        push_arc(&mut self.arcs, &mut self.nodes, &self.gone, arc)?;
        lower_all(&mut self.first, &self.gone, &tops, arc.end(), &starts);
        raise_all(
            &mut self.count,
            &self.gone,
            &self.received,
            &starts,
            arc.start(),
            &tops,
        );
        Ok(addition)
    }

    /// Adds an arc, also where it closes a cycle. It tells which transactions reach more by it, or are reached by more, behind
    /// those that were told before. One may be told twice.
    pub fn add_arc(
        &mut self,
        alloc: Global,
        arc: Arc,
        told: &mut Vec<TxnId>,
    ) -> Result<Addition, NoMemory>
        requires start { HasNode self.old (start_of arc) }
        requires end { HasNode self.old (end_of arc) }
        ensures gone { self.new.gone ≡ self.old.gone }
        ensures received { self.new.received ≡ self.old.received }
        ensures arcs { OnOk result (self.new.arcs ≡ self.old.arcs ++ arc ∷ []) }
        ensures addition { IfOk result (IsAddition self.old.gone self.old.received self.old.arcs arc) }
        ensures told { OnOk result (AreTold self.old.gone self.old.received self.old.arcs arc told.old.items told.new.items) }
        ensures front { OnOk result (IsFrontOf told.old.items told.new.items) }
        ensures marks { self.new.marks ≡ self.old.marks }
        ensures last { last_mark self.new ≡ last_mark self.old }
        ensures err { OnErr result ((self.new ≡ self.old) × (told.new.items ≡ told.old.items)) }
    {
        let before = told.len();
        let added = self.add_telling(alloc, arc, told);
        match added {
            Ok(Addition::Cycle) => self.note_closing(),
            Ok(Addition::Added) => {}
            Err(_) => told.truncate(before),
        }
        added
    }

    /// Remembers that the last arc closes a cycle, if none is remembered that came before it.
    fn note_closing(&mut self)
        ensures { self.new ≡ self.old }
    {
        let last = self.arcs.len().saturating_sub(1);
        self.closing = match self.closing {
            Some(place) if place < last => Some(place),
            _ => Some(last),
        };
    }

    /// The place of an arc that closed a cycle when it was added, if one is remembered.
    pub fn closing(&self) -> Option<usize>
        ensures { IfSome result (λ place. place < length self.now.arcs) }
    {
        match self.closing {
            Some(place) if place < self.arcs.len() => Some(place),
            _ => None,
        }
    }

    /// Sets a mark, to which the graph can be taken back.
    pub fn mark(&mut self) -> Result<(), NoMemory>
        ensures ok { OnOk result (self.new ≡ record self.old { marks = length self.old.arcs ∷ self.old.marks }) }
        ensures err { OnErr result (self.new ≡ self.old) }
    {
        let mark = Mark {
            arcs: self.arcs.len(),
            first: self.trail.first.len(),
            count: self.trail.count.len(),
        };
        self.trail.marks.push(mark)?;
        Ok(())
    }

    /// Takes all marks away, and leaves the arcs as they are. It takes no memory.
    pub fn forget_marks(&mut self)
        ensures { self.new ≡ record self.old { marks = [] } }
    {
        self.trail.clear();
    }

    /// Takes the arcs behind the last mark back, and the mark away, in time of what they changed. It takes no memory.
    pub fn back(&mut self)
        requires { self.old.marks ≢ [] }
        ensures { self.new ≡ back_to self.old self.old.marks }
    {
        let Some(mark) = self.trail.marks.pop() else {
            unreachable!()
        };
        put_back(&mut self.first, &mut self.trail.first, mark.first);
        put_back(&mut self.count, &mut self.trail.count, mark.count);
        self.nodes.take_back(&self.gone, &self.arcs, mark.arcs);
        self.arcs.truncate(mark.arcs);
        self.closing = match self.closing {
            Some(place) if place < mark.arcs => Some(place),
            _ => None,
        };
    }

    /// Whether none that stays reaches one that goes, where the first transactions of each session go, up to these numbers. It
    /// takes no memory.
    pub fn can_drop(&self, gone: &[u64]) -> bool
        requires sessions { length gone.now ≡ length self.now.gone }
        requires more { (session : ℕ) → slice_index self.now.gone session ≤ slice_index gone.now session }
        requires within { (session : ℕ) → slice_index gone.now session ≤ slice_index self.now.received session }
        ensures { IsTrue result ↔ NoneReachesBack self.now.gone self.now.received self.now.arcs gone.now }
    {
        are_behind(&self.first, &self.gone, &self.received, gone)
    }

    /// Drops the first transactions of each session, up to these numbers, which none that stays reaches, with the arcs that
    /// touch them, and takes all marks away. It takes no memory.
    pub fn drop_fronts(&mut self, gone: &[u64])
        requires sessions { length gone.now ≡ length self.old.gone }
        requires more { (session : ℕ) → slice_index self.old.gone session ≤ slice_index gone.now session }
        requires within { (session : ℕ) → slice_index gone.now session ≤ slice_index self.old.received session }
        requires before { NoneReachesBack self.old.gone self.old.received self.old.arcs gone.now }
        ensures gone { self.new.gone ≡ gone.now }
        ensures received { self.new.received ≡ self.old.received }
        ensures arcs { self.new.arcs ≡ filter (arc_stays gone.now) self.old.arcs }
        ensures marks { self.new.marks ≡ [] }
        // Among the rest all stays as it was.
        ensures rest { (a b : TxnId) → Reaches self.new.gone self.new.received self.new.arcs a b
            ↔ (Reaches self.old.gone self.old.received self.old.arcs a b × HasNode self.new a × HasNode self.new b) }
    {
        drop_rows(&mut self.first, &self.gone, gone);
        drop_rows(&mut self.count, &self.gone, gone);
        drop_arcs(&mut self.arcs, gone);
        self.nodes.drop_fronts(&self.gone, gone, &self.arcs);
        self.gone.copy_from_slice(gone);
        self.trail.clear();
    }
}

impl Clone for Graph {
    ghost use Rattle.std.specs.Prelude.{◌≡◌};

    ghost is_clone = { λ old new. new ≡ old };

    fn clone(&self) -> Result<Self, NoMemory> {
        let alloc = *self.arcs.allocator();
        let closing = self.closing;
        let gone = Vec::from_slice(alloc, &self.gone)?;
        let received = Vec::from_slice(alloc, &self.received)?;
        let first = copied(alloc, &self.first)?;
        let count = copied(alloc, &self.count)?;
        let arcs = Vec::from_slice(alloc, &self.arcs)?;
        let nodes = self.nodes.copied(alloc)?;
        let trail = self.trail.copied(alloc)?;
        Ok(Graph {
            gone,
            received,
            first,
            count,
            arcs,
            nodes,
            closing,
            trail,
        })
    }
}
