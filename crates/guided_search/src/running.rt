//! A lucky order: what a store would do that takes one transaction after another. Nothing is promised of it.
use clock_choices::Saturated;
use order_check::Parts;
use polygraph::Problem;
use std::alloc::Global;
use std::collections::BTreeMap;
use txn::{NoMemory, Sequence, Source, Txn, TxnId};

/// What a run heeds after the reads that are missed.
#[derive(Clone, Copy, Debug, PartialEq, Eq)]
pub enum Heeds {
    /// Nothing.
    Misses,
    /// How many versions that others read it begins.
    Begun,
    /// How far off the readers of the versions are that it begins.
    Readers,
}

/// Who reads a version: how many that aren't taken, and of all of them the greatest place in a session, and which session that is.
#[derive(Clone, Copy, Debug, PartialEq, Eq)]
struct Readers {
    left: usize,
    furthest: (usize, usize),
}

/// What speaks against a session's next transaction: the reads that are missed, what is heeded, and how far the session has come.
type Cost = (usize, usize, u64);

/// What stands at a place of the run.
#[derive(Drop)]
struct Run {
    /// How many of each session were taken.
    taken: Vec<usize>,
    /// Of each session, how many sessions have nothing left that is known to come before its next transaction.
    clear: Vec<usize>,
    /// Of each session what speaks against its next transaction, where that is worked out and nothing has changed it since.
    costs: Vec<Option<Cost>>,
    /// Who wrote each key last.
    last: BTreeMap<u64, Source>,
    /// Who reads the key from the source.
    readers: BTreeMap<(u64, Source), Readers>,
    order: Vec<TxnId>,
}

/// Notes that the transaction at this place of a session reads what it reads.
fn note_reads(
    readers: &mut BTreeMap<(u64, Source), Readers>,
    txn: &Txn,
    place: (usize, usize),
) -> Result<(), NoMemory> {
    for read in txn.reads.as_slice() {
        let noted = readers.entry(*read)?.or_insert(Readers {
            left: 0,
            furthest: place,
        });
        noted.left = noted.left.saturating_add(1);
        if noted.furthest < place {
            noted.furthest = place;
        }
    }
    Ok(())
}

fn readers_of(alloc: Global, parts: &Parts) -> Result<BTreeMap<(u64, Source), Readers>, NoMemory> {
    let mut readers = BTreeMap::new(alloc);
    for (session, txns) in parts.remain.as_slice().iter().enumerate() {
        for (place, txn) in txns.as_slice().iter().enumerate() {
            note_reads(&mut readers, txn, (place, session))?;
        }
    }
    Ok(readers)
}

/// The id of a session's transaction at this place of what remains.
fn id_at(parts: &Parts, session: usize, place: usize) -> Option<TxnId> {
    let session = u8::try_from(session).ok()?;
    if place >= parts.remaining_of(session).len() {
        return None;
    }
    let number = parts.mark_of(session).checked_add(place as u64)?;
    Some(TxnId { session, number })
}

/// How far a place is in the session, of 2^32.
fn progress(parts: &Parts, session: usize, place: usize) -> u64 {
    match parts.remain.as_slice().get(session) {
        Some(txns) => (place as u64)
            .saturating_mul(4_294_967_296)
            .checked_div(txns.len() as u64)
            .unwrap_or(0),
        None => 0,
    }
}

impl Run {
    fn new(alloc: Global, parts: &Parts) -> Result<Run, NoMemory> {
        Ok(Run {
            taken: vec![in alloc; 0; parts.sessions()]?,
            clear: vec![in alloc; 0; parts.sessions()]?,
            costs: vec![in alloc; None; parts.sessions()]?,
            last: BTreeMap::new(alloc),
            readers: readers_of(alloc, parts)?,
            order: Vec::new(alloc),
        })
    }

    /// The session's next transaction.
    fn next_of(&self, parts: &Parts, session: usize) -> Option<TxnId> {
        id_at(parts, session, self.taken.get(session).copied()?)
    }

    /// Whether nothing that isn't taken is known to come before the session's next transaction. What is next of a session comes before
    /// the rest of it, so that a session that is clear stays so.
    fn is_ready(&mut self, known: &Saturated, session: usize, id: TxnId) -> bool {
        let sessions = self.sessions();
        let blocking = self.blocking(known, session, id);
        self.set_clear(session, blocking);
        blocking >= sessions
    }

    /// The first session that is known to hold the transaction up; where none does, how many there are.
    fn blocking(&self, known: &Saturated, session: usize, id: TxnId) -> usize {
        for other in self.clear_of(session)..self.sessions() {
            if let Some(next) = self.next_of(known.parts(), other)
                && other != session
                && known.reaches(next, id)
            {
                return other;
            }
        }
        self.sessions()
    }

    fn clear_of(&self, session: usize) -> usize {
        self.clear.get(session).copied().unwrap_or(0)
    }

    fn sessions(&self) -> usize {
        self.taken.len()
    }

    fn set_clear(&mut self, session: usize, sessions: usize) {
        if let Some(clear) = self.clear.get_mut(session) {
            *clear = sessions;
        }
    }

    /// Who wrote the key last, in front or of what is gone.
    fn last_of(&self, parts: &Parts, key: u64) -> Source {
        match self.last.get(&key) {
            Some(source) => *source,
            None => match parts.last_gone(key) {
                Some(writer) => Source::By(writer),
                None => Source::Init,
            },
        }
    }

    /// How many that aren't taken read the version.
    fn left_of(&self, read: (u64, Source)) -> usize {
        match self.readers.get(&read) {
            Some(readers) => readers.left,
            None => 0,
        }
    }

    /// How many of the transaction's reads aren't of what is current, and how many others that aren't taken read what it overwrites.
    fn misses(&self, parts: &Parts, txn: &Txn) -> usize {
        let mut misses = 0usize;
        for (key, source) in txn.reads.as_slice() {
            if self.last_of(parts, *key) != *source && !is_pending(parts, *source) {
                misses = misses.saturating_add(1);
            }
        }
        for key in txn.writes.as_slice() {
            let read = (*key, self.last_of(parts, *key));
            let own = usize::from(txn.reads.as_slice().contains(&read));
            misses = misses.saturating_add(self.left_of(read).saturating_sub(own));
        }
        misses
    }

    /// Of how many keys the transaction's write is read by what isn't taken.
    fn begun(&self, id: TxnId, txn: &Txn) -> usize {
        let mut begun = 0usize;
        for key in txn.writes.as_slice() {
            if self.left_of((*key, Source::By(id))) > 0 {
                begun = begun.saturating_add(1);
            }
        }
        begun
    }

    /// How many transactions stand in front of the furthest reader of each version that the transaction, the session's next, begins.
    fn in_front_of_readers(&self, session: usize, id: TxnId, txn: &Txn) -> usize {
        let mut in_front = 0usize;
        for key in txn.writes.as_slice() {
            if let Some(readers) = self.readers.get(&(*key, Source::By(id)))
                && readers.left > 0
            {
                let (place, reader) = readers.furthest;
                let taken = self.taken.get(reader).copied().unwrap_or(0);
                let own = usize::from(reader == session);
                let behind = place.saturating_sub(taken).saturating_sub(own);
                in_front = in_front.saturating_add(behind);
            }
        }
        in_front
    }

    /// The best session to take from.
    fn best(&mut self, known: &Saturated, heeds: Heeds) -> Option<(usize, TxnId)> {
        let mut best = None;
        for session in 0..self.sessions() {
            let Some(id) = self.next_of(known.parts(), session) else {
                continue;
            };
            if !self.is_ready(known, session, id) {
                continue;
            }
            let cost = self.cost(known.parts(), session, id, heeds);
            best = match best {
                Some((least, found)) if least <= cost => Some((least, found)),
                _ => Some((cost, (session, id))),
            };
        }
        match best {
            Some((_, found)) => Some(found),
            None => None,
        }
    }

    /// What speaks against the session's next transaction, which is worked out if it isn't known.
    fn cost(&mut self, parts: &Parts, session: usize, id: TxnId, heeds: Heeds) -> Cost {
        if let Some(Some(cost)) = self.costs.get(session) {
            return *cost;
        }
        let cost = self.worked_out(parts, session, id, heeds);
        self.set_cost(session, Some(cost));
        cost
    }

    fn set_cost(&mut self, session: usize, cost: Option<Cost>) {
        if let Some(known) = self.costs.get_mut(session) {
            *known = cost;
        }
    }

    /// The less the better.
    fn worked_out(&self, parts: &Parts, session: usize, id: TxnId, heeds: Heeds) -> Cost {
        let Some(txn) = parts.remaining_at(id) else {
            return (0, 0, 0);
        };
        let heeded = match heeds {
            Heeds::Misses => 0,
            Heeds::Begun => self.begun(id, txn),
            Heeds::Readers => self.in_front_of_readers(session, id, txn),
        };
        let place = self.taken.get(session).copied().unwrap_or(0);
        (
            self.misses(parts, txn),
            heeded,
            progress(parts, session, place),
        )
    }

    /// Forgets what speaks against the next transactions, where one that is taken may have changed that: those that access its keys, and
    /// all where it is heeded how far off readers are.
    fn forget_costs(&mut self, parts: &Parts, txn: &Txn, heeds: Heeds) {
        for session in 0..self.sessions() {
            if heeds == Heeds::Readers || self.is_next_touched(parts, session, txn) {
                self.set_cost(session, None);
            }
        }
    }

    /// Whether the session's next transaction accesses a key that the other accesses.
    fn is_next_touched(&self, parts: &Parts, session: usize, txn: &Txn) -> bool {
        match self.next_of(parts, session) {
            Some(id) => match parts.remaining_at(id) {
                Some(next) => touches(next, txn),
                None => false,
            },
            None => false,
        }
    }

    /// Takes the session's next transaction.
    fn take(
        &mut self,
        parts: &Parts,
        session: usize,
        id: TxnId,
        heeds: Heeds,
    ) -> Result<(), NoMemory> {
        if let Some(taken) = self.taken.get_mut(session) {
            *taken = taken.saturating_add(1);
        }
        self.set_clear(session, 0);
        self.set_cost(session, None);
        self.order.push(id)?;
        let Some(txn) = parts.remaining_at(id) else {
            return Ok(());
        };
        for read in txn.reads.as_slice() {
            if let Some(readers) = self.readers.get_mut(read) {
                readers.left = readers.left.saturating_sub(1);
            }
        }
        for key in txn.writes.as_slice() {
            self.last.insert(*key, Source::By(id))?;
        }
        self.forget_costs(parts, txn, heeds);
        Ok(())
    }
}

/// Whether the one writes a key that the other accesses, or the other way round.
fn touches(one: &Txn, other: &Txn) -> bool {
    writes_any(one, other) || writes_any(other, one)
}

/// Whether the one writes a key that the other accesses.
fn writes_any(writer: &Txn, other: &Txn) -> bool {
    for key in writer.writes.as_slice() {
        if accesses(other, *key) {
            return true;
        }
    }
    false
}

/// Whether the transaction reads the key or writes it.
fn accesses(txn: &Txn, key: u64) -> bool {
    for (read, _source) in txn.reads.as_slice() {
        if *read == key {
            return true;
        }
    }
    txn.writes.as_slice().contains(&key)
}

/// Whether the source wasn't received.
fn is_pending(parts: &Parts, source: Source) -> bool {
    match source {
        Source::Init => false,
        Source::By(writer) => {
            writer.number >= parts.mark_of(writer.session) && parts.remaining_at(writer).is_none()
        }
    }
}

/// How many transactions remain.
fn count_remaining(parts: &Parts) -> usize {
    let mut count = 0usize;
    for txns in parts.remain.as_slice() {
        count = count.saturating_add(txns.len());
    }
    count
}

/// The order of a store's run: next comes what may by what is known, misses the fewest reads, has the least of what it heeds, and stands foremost
/// in its session. Where the problem's search was given up, that counts as want of memory.
pub fn run_of(alloc: Global, problem: &Problem, heeds: Heeds) -> Result<Sequence<TxnId>, NoMemory> {
    let known = problem.known();
    let parts = problem.parts();
    let mut run = Run::new(alloc, parts)?;
    for _ in 0..count_remaining(parts) {
        problem.go_on()?;
        let Some((session, id)) = run.best(known, heeds) else {
            break;
        };
        run.take(parts, session, id, heeds)?;
    }
    Ok(Sequence::new(run.order))
}
