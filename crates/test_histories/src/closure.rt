//! A relation of ids, plainly: a table, closed by Warshall's loops.
use std::alloc::Global;
use txn::{NoMemory, TxnId};

/// The one stands before the other.
pub type Pair = (TxnId, TxnId);

/// Which of the ids stands before which, a row after another.
#[derive(Drop)]
pub struct Relation {
    ids: Vec<TxnId>,
    rows: Vec<bool>,
}

impl Relation {
    /// None of the ids stands before another.
    pub fn none(alloc: Global, ids: &[TxnId]) -> Result<Relation, NoMemory> {
        let mut rows = Vec::new(alloc);
        rows.resize(ids.len().wrapping_mul(ids.len()), false)?;
        let ids = ids.to_vec(alloc)?;
        Ok(Relation { ids, rows })
    }

    fn place(&self, row: usize, column: usize) -> usize {
        row.wrapping_mul(self.ids.len()).wrapping_add(column)
    }

    fn has(&self, row: usize, column: usize) -> bool {
        self.rows.get(self.place(row, column)).copied() == Some(true)
    }

    fn set(&mut self, row: usize, column: usize) {
        let place = self.place(row, column);
        if place < self.rows.len() {
            self.rows[place] = true;
        }
    }

    /// Where the id's row is. An id that isn't there has none.
    fn row_of(&self, id: TxnId) -> usize {
        let place = self.ids.iter().position(|other| *other == id);
        place.unwrap_or(self.ids.len())
    }

    pub fn contains(&self, pair: Pair) -> bool {
        self.has(self.row_of(pair.0), self.row_of(pair.1))
    }

    pub fn note(&mut self, pair: Pair) {
        let (row, column) = (self.row_of(pair.0), self.row_of(pair.1));
        self.set(row, column);
    }

    pub fn note_all(&mut self, pairs: &[Pair]) {
        for pair in pairs {
            self.note(*pair);
        }
    }

    /// Adds to a row what the middle one has.
    fn join(&mut self, row: usize, middle: usize) {
        for column in 0..self.ids.len() {
            if self.has(middle, column) {
                self.set(row, column);
            }
        }
    }

    pub fn close(&mut self) {
        for middle in 0..self.ids.len() {
            for row in 0..self.ids.len() {
                if self.has(row, middle) {
                    self.join(row, middle);
                }
            }
        }
    }

    pub fn has_cycle(&self) -> bool {
        self.ids.iter().any(|id| self.contains((*id, *id)))
    }
}
