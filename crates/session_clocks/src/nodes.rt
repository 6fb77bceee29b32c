// The nodes of a graph in a slab, each with the arcs that end at it.
ghost use Rattle.std.specs.Prelude.{◌≡◌, ◌≤◌, ◌<◌, ◌-◌, ℕ, [], ◌∷◌, ◌++◌, None, IfOk, OnOk, OnErr, length, slice_index};
ghost use Rattle.session_clocks.specs.Drops.{IsDropped};
ghost use Rattle.session_clocks.specs.Lines.{AreEmptyLines, AreSameNumbers};
ghost use Rattle.session_clocks.specs.Nodes.{id_at, left_in, AreSameNodes, HasKeyMore, HasLineMore, HasNodeLess, HasNodeMore, IsChangedAt};
ghost use Rattle.session_clocks.specs.Rows.{line_at};

use crate::drops::{drop_line, id_stays};
use crate::lines::{copied, no_lines};
use crate::removals::pop_row;
use crate::rows::line;
use slab::Slab;
use std::alloc::Global;
use txn::{Arc, NoMemory, TxnId};

/// A transaction that is there.
#[derive(Clone, Copy, Debug)]
pub(crate) struct Node {
    pub id: TxnId,
    /// The place behind the last arc that ends at it, 0 where none does.
    pub last: usize,
}

/// A node for each transaction that is there, under a key that it keeps until it goes. Where its arcs are is a help to look them up, of which
/// nothing is promised: who is told of an arc looks at the arc.
#[derive(Drop, Debug)]
pub(crate) struct Nodes {
    pub nodes: Slab<Node>,
    /// For each session the keys of its transactions that are there, in order.
    pub keys: Vec<Vec<u64>>,
    /// For each arc the place behind the one before it that ends where it does, 0 where none does.
    before: Vec<usize>,
}

/// Puts a key at the end of a session's.
fn push_key(keys: &mut [Vec<u64>], session: usize, key: u64) -> Result<(), NoMemory>
    requires { session < length keys.old }
    ensures ok { OnOk result (HasKeyMore keys.old keys.new session key) }
    ensures err { OnErr result (AreSameNumbers keys.old keys.new) }
{
    keys[session].push(key)?;
    Ok(())
}

/// The last of a session's keys.
fn last_key(keys: &[Vec<u64>], session: usize) -> u64
    requires { 0 < length (line_at keys.now session) }
    ensures { result ≡ slice_index (line_at keys.now session) (length (line_at keys.now session) - 1) }
{
    let numbers = line(keys, session);
    numbers[numbers.len() - 1]
}

/// Takes the keys of what goes away in each session.
fn drop_keys(keys: &mut [Vec<u64>], were: &[u64], gone: &[u64])
    requires were { length were.now ≡ length keys.old }
    requires gone { length gone.now ≡ length keys.old }
    requires more { (session : ℕ) → slice_index were.now session ≤ slice_index gone.now session }
    requires within { (session : ℕ) → session < length keys.old → slice_index gone.now session - slice_index were.now session ≤ length (line_at keys.old session) }
    ensures sessions { length keys.new ≡ length keys.old }
    ensures dropped { (session : ℕ) → session < length keys.old → IsDropped (line_at keys.old session) (line_at keys.new session) (slice_index gone.now session - slice_index were.now session) }
{
    for session in 0..keys.len() {
        drop_line(keys, session, gone[session] - were[session], 1);
    }
}

/// Takes the nodes of the first transactions of each session out, up to these numbers, and forgets where arcs are.
fn drop_nodes(nodes: &mut Slab<Node>, gone: &[u64])
    ensures { (key : ℕ) → id_at nodes.new.slots key ≡ left_in gone.now (id_at nodes.old.slots key) }
{
    nodes.retain(|_, node| {
        node.last = 0;
        id_stays(gone, node.id)
    });
}

/// Takes a node out.
fn take_out(nodes: &mut Slab<Node>, key: usize)
    ensures { IsChangedAt nodes.old.slots nodes.new.slots key None }
{
    let _node = nodes.try_remove(key);
}

/// Makes the arc before this place the last one that ends at the node.
fn set_last(nodes: &mut Slab<Node>, key: usize, behind: usize)
    ensures { AreSameNodes nodes.old.slots nodes.new.slots }
{
    if let Some(node) = nodes.get_mut(key) {
        node.last = behind;
    }
}

impl Nodes {
    /// No node, of so many sessions.
    pub fn new(alloc: Global, sessions: usize) -> Result<Nodes, NoMemory>
        ensures keys { IfOk result (λ nodes. AreEmptyLines sessions nodes.keys.items) }
        ensures nodes { IfOk result (λ nodes. (key : ℕ) → id_at nodes.nodes.slots key ≡ None) }
    {
        let keys = no_lines(alloc, sessions)?;
        Ok(Nodes {
            nodes: Slab::new(alloc),
            keys,
            before: Vec::new(alloc),
        })
    }

    pub fn copied(&self, alloc: Global) -> Result<Nodes, NoMemory>
        ensures keys { IfOk result (λ copy. AreSameNumbers self.now.keys.items copy.keys.items) }
        ensures nodes { IfOk result (λ copy. AreSameNodes self.now.nodes.slots copy.nodes.slots) }
    {
        let nodes = self.nodes.clone()?;
        let keys = copied(alloc, &self.keys)?;
        let before = Vec::from_slice(alloc, &self.before)?;
        Ok(Nodes {
            nodes,
            keys,
            before,
        })
    }

    /// Adds a session with no node.
    pub fn add_session(&mut self, alloc: Global) -> Result<(), NoMemory>
        ensures ok { OnOk result (HasLineMore self.old.keys.items self.new.keys.items) }
        ensures err { OnErr result (self.new.keys.items ≡ self.old.keys.items) }
        ensures nodes { self.new.nodes ≡ self.old.nodes }
    {
        self.keys.push(Vec::new(alloc))?;
        Ok(())
    }

    /// Adds a node behind the others of its session.
    pub fn push(&mut self, id: TxnId) -> Result<(), NoMemory>
        requires { id.session < length self.old.keys.items }
        ensures ok { OnOk result (HasNodeMore self.old.nodes.slots self.new.nodes.slots self.old.keys.items self.new.keys.items id) }
        ensures err_nodes { OnErr result (AreSameNodes self.old.nodes.slots self.new.nodes.slots) }
        ensures err_keys { OnErr result (AreSameNumbers self.old.keys.items self.new.keys.items) }
    {
        let key = self.nodes.insert(Node { id, last: 0 })?;
        let pushed = push_key(&mut self.keys, usize::from(id.session), key as u64);
        if pushed.is_err() {
            take_out(&mut self.nodes, key);
        }
        pushed
    }

    /// Takes the last node of a session away.
    pub fn pop(&mut self, session: usize)
        requires session { session < length self.old.keys.items }
        requires some { 0 < length (line_at self.old.keys.items session) }
        ensures { HasNodeLess self.old.nodes.slots self.new.nodes.slots self.old.keys.items self.new.keys.items session }
    {
        let key = last_key(&self.keys, session);
        pop_row(&mut self.keys, session, 1);
        take_out(&mut self.nodes, key as usize);
    }

    /// The key of a transaction, where so many of each session are gone.
    fn key_of(&self, gone: &[u64], id: TxnId) -> Option<usize> {
        let session = usize::from(id.session);
        let row = id.number.checked_sub(*gone.get(session)?)?;
        let key = self.keys.get(session)?.get(row as usize)?;
        Some(*key as usize)
    }

    /// The place behind the last arc that ends at the transaction, 0 where none does.
    fn last(&self, gone: &[u64], id: TxnId) -> usize {
        let Some(key) = self.key_of(gone, id) else {
            return 0;
        };
        match self.nodes.get(key) {
            Some(node) => node.last,
            None => 0,
        }
    }

    /// The place behind the arc before this one that ends where it does, 0 where none does.
    fn before(&self, place: usize) -> usize {
        match self.before.get(place) {
            Some(before) => *before,
            None => 0,
        }
    }

    /// Makes the arc before this place the last one that ends at the transaction.
    fn set_last(&mut self, gone: &[u64], id: TxnId, behind: usize)
        ensures nodes { AreSameNodes self.old.nodes.slots self.new.nodes.slots }
        ensures keys { self.new.keys ≡ self.old.keys }
    {
        if let Some(key) = self.key_of(gone, id) {
            set_last(&mut self.nodes, key, behind);
        }
    }

    /// Makes the arc at this place the last one that ends at the transaction.
    fn link(&mut self, gone: &[u64], end: TxnId, place: usize)
        ensures nodes { AreSameNodes self.old.nodes.slots self.new.nodes.slots }
        ensures keys { self.new.keys ≡ self.old.keys }
    {
        let last = self.last(gone, end);
        if let Some(before) = self.before.get_mut(place) {
            *before = last;
        }
        self.set_last(gone, end, place.saturating_add(1));
    }

    /// Adds the next arc to those of the transaction where it ends.
    pub fn push_arc(&mut self, gone: &[u64], end: TxnId) -> Result<(), NoMemory>
        ensures nodes { AreSameNodes self.old.nodes.slots self.new.nodes.slots }
        ensures keys { self.new.keys ≡ self.old.keys }
    {
        let place = self.before.len();
        self.before.push(0)?;
        self.link(gone, end, place);
        Ok(())
    }

    /// Takes the arcs behind the first so many away, the last one first.
    pub fn take_back(&mut self, gone: &[u64], arcs: &[Arc], len: usize)
        ensures nodes { AreSameNodes self.old.nodes.slots self.new.nodes.slots }
        ensures keys { self.new.keys ≡ self.old.keys }
    {
        for place in (len..arcs.len()).rev() {
            self.set_last(gone, arcs[place].end(), self.before(place));
        }
        self.before.truncate(len);
    }

    /// Makes these arcs, in their order, all that there are.
    fn link_all(&mut self, gone: &[u64], arcs: &[Arc])
        ensures nodes { AreSameNodes self.old.nodes.slots self.new.nodes.slots }
        ensures keys { self.new.keys ≡ self.old.keys }
    {
        self.before.truncate(arcs.len());
        for (place, arc) in arcs.iter().enumerate() {
            self.link(gone, arc.end(), place);
        }
    }

    /// Takes the nodes of the first transactions of each session out, up to these numbers, where these arcs are left.
    pub fn drop_fronts(&mut self, were: &[u64], gone: &[u64], arcs: &[Arc])
        requires were { length were.now ≡ length self.old.keys.items }
        requires gone { length gone.now ≡ length self.old.keys.items }
        requires more { (session : ℕ) → slice_index were.now session ≤ slice_index gone.now session }
        requires within { (session : ℕ) → session < length self.old.keys.items → slice_index gone.now session - slice_index were.now session ≤ length (line_at self.old.keys.items session) }
        ensures nodes { (key : ℕ) → id_at self.new.nodes.slots key ≡ left_in gone.now (id_at self.old.nodes.slots key) }
        ensures sessions { length self.new.keys.items ≡ length self.old.keys.items }
        ensures keys { (session : ℕ) → session < length self.old.keys.items
            → IsDropped (line_at self.old.keys.items session) (line_at self.new.keys.items session) (slice_index gone.now session - slice_index were.now session) }
    {
        drop_nodes(&mut self.nodes, gone);
        drop_keys(&mut self.keys, were, gone);
        self.link_all(gone, arcs);
    }
}

/// The arcs by where they end.
#[derive(Clone, Copy, Debug)]
pub(crate) struct Incoming<'a> {
    pub gone: &'a [u64],
    pub nodes: &'a Nodes,
}

impl Incoming<'_> {
    /// The place behind the last arc that ends at the transaction, 0 where none does.
    pub fn last(&self, id: TxnId) -> usize {
        self.nodes.last(self.gone, id)
    }

    /// The place behind the arc before this one that ends where it does, 0 where none does.
    pub fn before(&self, place: usize) -> usize {
        self.nodes.before(place)
    }
}
