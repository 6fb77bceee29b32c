// Transactions whose reads are due to be looked at, each once.
ghost use Rattle.std.specs.Prelude.{◌≡◌, ◌≢◌, ◌⊎◌, ◌+◌, ℕ, true, false, [], Contains, IfOk, IfSome, IsTrue, OnOk, slice_index, slice_index_or};
ghost use Rattle.clock_choices.specs.Due.{flag_at, IsNoted, AreNoted};

use std::alloc::Global;
use std::marker::Model;
use txn::{NoMemory, TxnId};

/// Transactions, each once, in the order in which they were noted.
#[derive(Drop, Debug)]
pub(crate) struct Due {
    /// How many of each session are gone.
    gone: Vec<u64>,
    /// For each session a flag for each transaction that is there.
    flags: Vec<Vec<bool>>,
    ids: Vec<TxnId>,
}

impl Model for Due {
    ghost use Rattle.std.specs.Prelude.{List};
    ghost use Rattle.txn.specs.declared.transactions.TxnId.{TxnId};
    ghost use Rattle.clock_choices.specs.Due.{AreListed};

    ghost Value = { List TxnId };

    ghost view = { λ due. due.ids.items };

    ghost invariant = { λ due. AreListed due.gone.items due.flags.items due.ids.items };
}

/// The flag at a place of a line, none past its end.
fn flag_in(line: &[bool], place: usize) -> bool
    ensures { result ≡ slice_index_or line.now place false }
{
    if place < line.len() {
        line[place]
    } else {
        false
    }
}

/// The flag at a place of a session.
fn flag_of(flags: &[Vec<bool>], session: usize, place: usize) -> bool
    ensures { result ≡ flag_at flags.now session place }
{
    if session >= flags.len() {
        return false;
    }
    flag_in(&flags[session], place)
}

/// The transaction's place behind those of its session that are gone, if it isn't one of these.
fn place_of(gone: &[u64], id: TxnId) -> Option<usize>
    ensures { IfSome result (λ place. slice_index gone.now id.session + place ≡ id.number) }
{
    let session = usize::from(id.session);
    if session >= gone.len() || id.number < gone[session] {
        return None;
    }
    Some((id.number - gone[session]) as usize)
}

/// Sets the flag at a place of a line, if there is one.
fn set_one(line: &mut Vec<bool>, place: usize)
    ensures { (p : ℕ) → slice_index_or line.new.items p false ≡ true → (slice_index_or line.old.items p false ≡ true) ⊎ (p ≡ place) }
{
    if place < line.len() {
        line[place] = true;
    }
}

/// Sets the flag of a place of a session, if there is one.
fn set_flag(flags: &mut [Vec<bool>], session: usize, place: usize)
    ensures { (s p : ℕ) → flag_at flags.new s p ≡ true → (flag_at flags.old s p ≡ true) ⊎ ((s ≡ session) × (p ≡ place)) }
{
    if session < flags.len() {
        set_one(&mut flags[session], place);
    }
}

/// So many flags that aren't set.
fn no_line(alloc: Global, count: usize) -> Result<Vec<bool>, NoMemory>
    ensures { IfOk result (λ line. (p : ℕ) → slice_index_or line.items p false ≢ true) }
{
    let mut line = Vec::new(alloc);
    line.resize(count, false)?;
    Ok(line)
}

/// Lines of flags that aren't set, one for each transaction that is there.
fn no_flags(alloc: Global, gone: &[u64], received: &[u64]) -> Result<Vec<Vec<bool>>, NoMemory>
    ensures { IfOk result (λ flags. (s p : ℕ) → flag_at flags.items s p ≢ true) }
{
    let mut flags = Vec::new(alloc);
    for (from, to) in gone.iter().zip(received) {
        let count = to.saturating_sub(*from) as usize;
        flags.push(no_line(alloc, count)?)?;
    }
    Ok(flags)
}

impl Due {
    /// None is due, of these that are there.
    pub fn new(alloc: Global, gone: &[u64], received: &[u64]) -> Result<Self, NoMemory>
        ensures { IfOk result (λ due. due ≡ []) }
    {
        let flags = no_flags(alloc, gone, received)?;
        let gone = Vec::from_slice(alloc, gone)?;
        let ids = Vec::new(alloc);
        Ok(Due { gone, flags, ids })
    }

    /// Notes a transaction, if it isn't noted yet.
    pub fn note(&mut self, id: TxnId) -> Result<(), NoMemory>
        ensures { OnOk result (IsNoted self.old self.new id) }
    {
        let Some(place) = place_of(&self.gone, id) else {
            self.ids.push(id)?;
            return Ok(());
        };
        let session = usize::from(id.session);
        if flag_of(&self.flags, session, place) {
            return Ok(());
        }
        self.ids.push(id)?;
        set_flag(&mut self.flags, session, place);
        Ok(())
    }

    /// Notes all those.
    pub fn note_all(&mut self, ids: &[TxnId]) -> Result<(), NoMemory>
        ensures { OnOk result (AreNoted self.old self.new ids.now) }
    {
        for id in ids {
            self.note(*id)?;
        }
        Ok(())
    }

    /// Whether a transaction that is there is noted.
    pub fn has(&self, id: TxnId) -> bool
        ensures { IsTrue result → Contains self.now id }
    {
        match place_of(&self.gone, id) {
            Some(place) => flag_of(&self.flags, usize::from(id.session), place),
            None => false,
        }
    }

    pub fn ids(&self) -> &[TxnId]
        ensures { result.now ≡ self.now }
    {
        self.ids.as_slice()
    }

    pub fn into_ids(self) -> Vec<TxnId>
        ensures { result.items ≡ self }
    {
        let Due { ids, .. } = self;
        ids
    }
}
