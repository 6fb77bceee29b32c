ghost use Rattle.std.specs.Prelude.{◌≡◌, ◌<◌, ◌≤◌, ◌^◌, ◌⊎◌, ⊤, All, IfOk, MatchOption, unwrap_or, vec_len};
ghost use Rattle.list_lemmas.specs.Counts.{times};
ghost use Rattle.shared_search.specs.Counts.{nothing};
ghost use Rattle.shared_search.specs.Rule.{claims, ends, finds, sees, answers, both_of, Whole};
ghost use Rattle.shared_search.specs.Boards.{IsSeatOf, IsFresh};

use crate::words::{Place, Shares, Size, View, answer, draw, find, fork, look, pool, settle};
use atomic_table::Table;
use std::alloc::Global;
use std::marker::{Brand, Model};
use txn::NoMemory;

/// Which cubes are claimed and answered, and the least that has a yes, as workers share it. Contracts see which board it is, how many cubes it has, and
/// how many seats.
#[derive(Drop)]
pub struct Board {
    table: Table<(), View, Size, Shares, Global>,
    cubes: u64,
}

impl Model for Board {
    ghost use Rattle.std.specs.Prelude.{◌≡◌, ℕ};
    ghost use Rattle.atomic_table.specs.Seated.{TableId};

    ghost Value = { TableId × ℕ × ℕ };

    ghost view = { λ b. (b.table.shared.table_id, b.cubes, b.table.shared.key.seats) };

    ghost invariant = { λ b. (b.table.shared.table_id.words ≡ 3) × (b.cubes ≡ b.table.shared.key.cubes) };
}

/// The right to step on a board. Contracts see the board, and what is known at this seat.
#[derive(Drop)]
pub struct Seat {
    place: Place,
    ended: bool,
}

impl Model for Seat {
    ghost use Rattle.std.specs.Prelude.{◌≡◌, ◌<◌, ℕ, [], false, true};
    ghost use Rattle.atomic_table.specs.Seated.{TableId};
    ghost use Rattle.shared_search.specs.declared.words.View.{View};

    ghost Value = { TableId × View };

    ghost view = { λ s. (s.place.table_id, s.place.me.0) };

    ghost invariant = { λ s. (s.place.me.1 ≡ []) × (s.ended ≡ false → s.place.me.0.over ≡ 0) × (s.ended ≡ true → 0 < s.place.me.0.over) × (0 < s.place.me.0.parts) };
}

impl Board {
    /// A board, with its seats.
    pub fn new(alloc: Global, cubes: u64, seats: u64) -> Result<(Board, Vec<Seat>), NoMemory>
        requires cubes { cubes ≤ 2 ^ 48 }
        requires seats { (0 < seats) × (seats ≤ 16) }
        ensures size { IfOk result (λ r. (r.0.1 ≡ cubes) × (r.0.2 ≡ seats) × (vec_len r.1 ≡ seats)) }
        ensures fresh { IfOk result (λ r. All (IsFresh r.0) r.1.items) }
    {
        let mut all = Vec::with_capacity(alloc, seats as usize)?;
        let size = Size { cubes, seats };
        let (table, mut place) = Table::of_words(alloc, &[0, u64::MAX, 0], &size)?;
        for _ in 1..seats {
            let place = fork(&table.shared, &mut place);
            all.push_reserved(Seat {
                place,
                ended: false,
            });
        }
        all.push_reserved(Seat {
            place,
            ended: false,
        });
        Ok((Board { table, cubes }, all))
    }

    /// Claims the next cube, if one is left. A seat that was told that none is left changes nothing any more.
    pub fn claim(&self, seat: &mut Seat) -> Option<u64>
        requires seat { IsSeatOf self.now seat.old }
        ensures seat { IsSeatOf self.now seat.new }
        ensures claimed { MatchOption result
            ((0 < seat.new.1.over) × ((seat.new.1 ≡ seat.old.1) ⊎ (seat.new.1 ≡ ends seat.old.1)))
            (λ i. (i < self.now.1) × (seat.old.1.after ≤ i) × (seat.new.1 ≡ claims seat.old.1 i)) }
        ensures ended { 0 < seat.old.1.over → seat.new.1 ≡ seat.old.1 }
    {
        if seat.ended {
            return None;
        }
        let i = draw(&self.table.shared, &mut seat.place);
        if i < self.cubes {
            Some(i)
        } else {
            seat.ended = true;
            None
        }
    }

    /// Tells that a cube that the seat has claimed has a yes.
    pub fn found(&self, seat: &mut Seat, cube: u64)
        requires seat { IsSeatOf self.now seat.old }
        requires claimed { 0 < times cube seat.old.1.claimed }
        ensures seat { IsSeatOf self.now seat.new }
        ensures found { seat.new.1 ≡ finds seat.old.1 cube }
    {
        find(&self.table.shared, &mut seat.place, cube);
    }

    /// The least cube that has a yes, as one look sees it: no later look of the seat sees a greater one.
    pub fn least(&self, seat: &mut Seat) -> Option<u64>
        requires seat { IsSeatOf self.now seat.old }
        ensures seat { IsSeatOf self.now seat.new }
        ensures some { MatchOption result ⊤ (λ n. n < nothing) }
        ensures least { (seat.new.1 ≡ sees seat.old.1 (unwrap_or result nothing)) × (unwrap_or result nothing ≤ seat.old.1.least) }
    {
        let n = look(&self.table.shared, &mut seat.place);
        if n == u64::MAX { None } else { Some(n) }
    }

    /// Counts a cube that the seat has claimed as answered.
    pub fn done(&self, seat: &mut Seat, cube: u64)
        requires seat { IsSeatOf self.now seat.old }
        requires claimed { times cube seat.old.1.done < times cube seat.old.1.claimed }
        ensures seat { IsSeatOf self.now seat.new }
        ensures done { seat.new.1 ≡ answers seat.old.1 cube }
    {
        answer::<Brand>(&self.table.shared, &mut seat.place, cube);
    }

    /// Tells the first seat all that the other knows.
    pub fn absorb(&self, seat: &mut Seat, other: Seat)
        requires seat { IsSeatOf self.now seat.old }
        requires other { IsSeatOf self.now other }
        ensures seat { IsSeatOf self.now seat.new }
        ensures both { seat.new.1 ≡ both_of seat.old.1 other.1 }
    {
        let Seat { place, ended } = other;
        pool(&self.table.shared, &mut seat.place, place);
        seat.ended = seat.ended || ended;
    }

    /// What a seat that has taken all others in knows: each cube was claimed once, where none is left, and no cube that it saw as having a yes is lower than the
    /// least that was found.
    pub fn settle(&self, seat: &mut Seat)
        requires seat { IsSeatOf self.now seat.old }
        requires all { seat.old.1.parts ≡ self.now.2 }
        ensures seat { seat.new ≡ seat.old }
        ensures whole { Whole seat.old.1 }
    {
        settle(&self.table.shared, &mut seat.place);
    }
}
