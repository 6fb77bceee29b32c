ghost use Rattle.std.specs.Prelude.{◌≡◌, ◌+◌, ◌^◌, ◌<◌, ◌≤◌, ◌++◌, ◌∷◌, [], All, IfOk, vec_len};
ghost use Rattle.report_queue.specs.Reports.{IsBefore, IsNoLater, WasPublished, last_of};
ghost use Rattle.report_queue.specs.Seats.{IsNewReader};

use crate::words::{Place, Rises, View, look, open, publish, tell};
use atomic_table::Table;
use order_check::Kind;
use std::alloc::Global;
use std::marker::Model;
use txn::NoMemory;

/// The latest report's round and kind, in one word of memory. Contracts see which word it is.
#[derive(Drop)]
pub struct Latest {
    table: Table<(), View, (), Rises, Global>,
}

impl Model for Latest {
    ghost use Rattle.std.specs.Prelude.{◌≡◌};
    ghost use Rattle.atomic_table.specs.Seated.{TableId};

    ghost Value = { TableId };

    ghost view = { λ l. l.table.shared.table_id };

    ghost invariant = { λ l. l.table.shared.table_id.words ≡ 1 };
}

/// The right to publish. Contracts see which word it is of, and what was published.
#[derive(Drop)]
pub struct PublisherSeat {
    place: Place,
}

impl Model for PublisherSeat {
    ghost use Rattle.std.specs.Prelude.{◌≡◌, []};
    ghost use Rattle.report_queue.specs.Seats.{Publisher};

    ghost Value = { Publisher };

    ghost view = { λ s. record { word = s.place.table_id; published = s.place.me.0.published } };

    ghost invariant = { λ s. (s.place.me.1 ≡ []) × (s.place.me.0.publishes ≡ 1) };
}

/// The right to look. Contracts see which word it is of, how often it has looked, and the report that it saw last.
#[derive(Drop)]
pub struct ReaderSeat {
    place: Place,
}

impl Model for ReaderSeat {
    ghost use Rattle.std.specs.Prelude.{◌≡◌, []};
    ghost use Rattle.report_queue.specs.Seats.{Reader};

    ghost Value = { Reader };

    ghost view = { λ s. record { word = s.place.table_id; looks = s.place.me.0.looks; seen = s.place.me.0.seen } };

    ghost invariant = { λ s. s.place.me.1 ≡ [] };
}

impl Latest {
    /// A word in which nothing is published, with its seats.
    pub fn new(
        alloc: Global,
        readers: u64,
    ) -> Result<(Latest, PublisherSeat, Vec<ReaderSeat>), NoMemory>
        requires { (1 ≤ readers) × (readers ≤ 16) }
        ensures publisher { IfOk result (λ r. (r.1.word ≡ r.0) × (r.1.published ≡ [])) }
        ensures count { IfOk result (λ r. vec_len r.2 ≡ readers) }
        ensures readers { IfOk result (λ r. All (IsNewReader r.0) r.2.items) }
    {
        let mut seats = Vec::with_capacity(alloc, readers as usize)?;
        let (table, mut place) = Table::of_words(alloc, &[0], &())?;
        for _ in 0..readers {
            let place = open(&table.shared, &mut place);
            seats.push_reserved(ReaderSeat { place });
        }
        Ok((Latest { table }, PublisherSeat { place }, seats))
    }

    /// Publishes a report, of a round above all that were published.
    pub fn publish(&self, seat: &mut PublisherSeat, round: u64, kind: Kind)
        requires word { seat.old.word ≡ self.now }
        requires round { (1 ≤ round) × (round < 2 ^ 48) }
        requires later { All (IsBefore round) seat.old.published }
        ensures word { seat.new.word ≡ seat.old.word }
        ensures published { seat.new.published ≡ seat.old.published ++ (round, kind) ∷ [] }
    {
        publish(&self.table.shared, &mut seat.place, round, kind);
    }

    /// The latest report's round and kind, if one was published, as one look saw it.
    pub fn latest(&self, seat: &mut ReaderSeat) -> Option<(u64, Kind)>
        requires word { seat.old.word ≡ self.now }
        ensures word { seat.new.word ≡ seat.old.word }
        ensures looked { (seat.new.looks ≡ seat.old.looks + 1) × (seat.new.seen ≡ result) }
        ensures later { IsNoLater seat.old.seen result }
    {
        look(&self.table.shared, &mut seat.place)
    }

    /// A look of each seat, after which both have seen at least the later of what they had seen.
    pub fn meet(&self, first: &mut ReaderSeat, second: &mut ReaderSeat)
        requires word { (first.old.word ≡ self.now) × (second.old.word ≡ self.now) }
        ensures word { (first.new.word ≡ first.old.word) × (second.new.word ≡ second.old.word) }
        ensures looks { (first.new.looks ≡ first.old.looks + 1) × (second.new.looks ≡ second.old.looks + 1) }
        ensures first { IsNoLater first.old.seen first.new.seen × IsNoLater second.old.seen first.new.seen }
        ensures second { IsNoLater first.old.seen second.new.seen × IsNoLater second.old.seen second.new.seen }
    {
        let word = &self.table.shared;
        tell(word, &mut first.place, &mut second.place);
        let _ = look(word, &mut second.place);
        tell(word, &mut second.place, &mut first.place);
        let _ = look(word, &mut first.place);
    }

    /// Has the reader see the report that was published last, if any was, and gives it back.
    pub fn catch_up(
        &self,
        publisher: &mut PublisherSeat,
        reader: &mut ReaderSeat,
    ) -> Option<(u64, Kind)>
        requires word { (publisher.old.word ≡ self.now) × (reader.old.word ≡ self.now) }
        ensures publisher { publisher.new ≡ publisher.old }
        ensures word { reader.new.word ≡ reader.old.word }
        ensures looked { (reader.new.looks ≡ reader.old.looks + 1) × (reader.new.seen ≡ result) }
        ensures last { result ≡ last_of publisher.old.published }
    {
        let word = &self.table.shared;
        let _ = look(word, &mut publisher.place);
        tell(word, &mut publisher.place, &mut reader.place);
        let seen = look(word, &mut reader.place);
        tell(word, &mut reader.place, &mut publisher.place);
        let _ = look(word, &mut publisher.place);
        seen
    }

    /// Shows that what the reader has seen is among what was published.
    pub fn confirm(&self, publisher: &mut PublisherSeat, reader: &mut ReaderSeat)
        requires word { (publisher.old.word ≡ self.now) × (reader.old.word ≡ self.now) }
        ensures same { (publisher.new ≡ publisher.old) × (reader.new ≡ reader.old) }
        ensures published { WasPublished publisher.old.published reader.old.seen }
    {
        let word = &self.table.shared;
        tell(word, &mut reader.place, &mut publisher.place);
        let _ = look(word, &mut publisher.place);
    }
}
