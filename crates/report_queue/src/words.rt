// The word of the latest report, and each step on it. The only ones that may step are those who hold a seat.
ghost use Rattle.std.specs.Prelude.{◌≡◌, ◌^◌, ◌<◌, ◌≤◌, [], All};
ghost use Rattle.report_queue.specs.Reports.{code_of, told_by, IsBefore, IsNoLater, WasPublished, last_of};
ghost use Rattle.report_queue.specs.Rule.{publishes, looks_at, heard_of, reader};

use atomic_table::{Join, Play, Split, TableRule};
use order_check::Kind;
use std::collections::LinkedList;

// What a seat knows: whether it publishes, and what it has published; how often it has looked, the report that it saw last,
// and the last that it was told of. No value of it is made.
pub struct View {
    pub publishes: u64,
    pub published: LinkedList<(u64, Kind)>,
    pub looks: u64,
    pub seen: Option<(u64, Kind)>,
    pub told: Option<(u64, Kind)>,
}

/// The rule of the word.
pub struct Rises;

impl TableRule<(), View, ()> for Rises {
    ghost use Rattle.report_queue.specs.Rule.{Kept, publisher};

    ghost holds = { λ _. Kept };

    ghost first = { λ _. publisher };
}

struct Publishes;

impl Play<(), View> for Publishes {
    ghost use Rattle.report_queue.specs.Rule.{published_after};

    ghost then = { published_after };
}

struct Looks;

impl Play<(), View> for Looks {
    ghost use Rattle.report_queue.specs.Rule.{looked_after};

    ghost then = { looked_after };
}

// A new reader's seat.
struct Opens;

impl Split<View> for Opens {
    ghost use Rattle.report_queue.specs.Rule.{reader};

    ghost left = { λ v. v };

    ghost right = { λ v. reader };
}

// A note of what the seat has seen, and its reading.
struct Notes;

impl Split<View> for Notes {
    ghost use Rattle.report_queue.specs.Rule.{note_of};

    ghost left = { λ v. v };

    ghost right = { note_of };
}

impl Join<View> for Notes {
    ghost use Rattle.report_queue.specs.Rule.{heard_of, reader};

    ghost both = { λ v w. heard_of v w.seen };

    ghost spent = { reader };
}

pub type Word = atomic_table::Shared<(), View, (), Rises>;

pub type Place = atomic_table::Seat<(), View>;

/// A kind's number in the word.
fn code_of(kind: Kind) -> u64
    ensures value { result ≡ code_of kind }
    ensures small { result < 4 }
{
    match kind {
        Kind::Serial => 0,
        Kind::Pending => 1,
        Kind::Violated => 2,
        Kind::Spent => 3,
    }
}

/// The report that a word tells of.
fn told_by(word: u64) -> Option<(u64, Kind)>
    ensures { result ≡ told_by word }
{
    if word == 0 {
        return None;
    }
    let kind = match word % 4 {
        0 => Kind::Serial,
        1 => Kind::Pending,
        2 => Kind::Violated,
        _ => Kind::Spent,
    };
    Some((word / 4, kind))
}

/// Publishes a report.
pub fn publish(word: &Word, seat: &mut Place, round: u64, kind: Kind)
    requires one { word.now.table_id.words ≡ 1 }
    requires table { seat.old.table_id ≡ word.now.table_id }
    requires publisher { seat.old.me.0.publishes ≡ 1 }
    requires round { (1 ≤ round) × (round < 2 ^ 48) }
    requires later { All (IsBefore round) seat.old.me.0.published }
    ensures same { (seat.new.table_id ≡ seat.old.table_id) × (seat.new.me.1 ≡ seat.old.me.1) }
    ensures published { seat.new.me.0 ≡ publishes seat.old.me.0 (round, kind) }
{
    word.store::<Publishes>(seat, 0, 4 * round + code_of(kind));
}

/// Looks at the latest report.
pub fn look(word: &Word, seat: &mut Place) -> Option<(u64, Kind)>
    requires one { word.now.table_id.words ≡ 1 }
    requires table { seat.old.table_id ≡ word.now.table_id }
    ensures same { (seat.new.table_id ≡ seat.old.table_id) × (seat.new.me.1 ≡ seat.old.me.1) }
    ensures looked { seat.new.me.0 ≡ looks_at seat.old.me.0 result }
    ensures seen { IsNoLater seat.old.me.0.seen result }
    ensures told { IsNoLater seat.old.me.0.told result }
    ensures within { 0 < seat.old.me.0.publishes → WasPublished seat.old.me.0.published seat.old.me.0.told }
    ensures last { 0 < seat.old.me.0.publishes → (result ≡ last_of seat.old.me.0.published) × IsNoLater seat.old.me.0.told (last_of seat.old.me.0.published) }
{
    told_by(word.load::<Looks>(seat, 0))
}

/// Makes a new reader's seat.
pub fn open(word: &Word, seat: &mut Place) -> Place
    requires one { word.now.table_id.words ≡ 1 }
    requires table { seat.old.table_id ≡ word.now.table_id }
    ensures same { (seat.new.table_id ≡ seat.old.table_id) × (seat.new.me ≡ seat.old.me) }
    ensures new { (result.table_id ≡ seat.old.table_id) × (result.me ≡ (reader, [])) }
{
    word.split_seat::<Opens>(seat)
}

/// Tells the second seat what the first has seen.
pub fn tell(word: &Word, from: &mut Place, to: &mut Place)
    requires one { word.now.table_id.words ≡ 1 }
    requires table { (from.old.table_id ≡ word.now.table_id) × (to.old.table_id ≡ word.now.table_id) }
    ensures from { (from.new.table_id ≡ from.old.table_id) × (from.new.me ≡ from.old.me) }
    ensures to { (to.new.table_id ≡ to.old.table_id) × (to.new.me.1 ≡ to.old.me.1) × (to.new.me.0 ≡ heard_of to.old.me.0 from.old.me.0.seen) }
{
    let note = word.split_seat::<Notes>(from);
    word.join_seat::<Notes>(to, note);
}
