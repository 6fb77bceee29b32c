// The words of a board, and each step on them. The only ones that may step are those who hold a seat.
ghost use Rattle.std.specs.Prelude.{◌≡◌, ◌<◌, ◌≤◌, []};
ghost use Rattle.list_lemmas.specs.Counts.{times};
ghost use Rattle.shared_search.specs.Rule.{fresh, claims, ends, finds, sees, answers, gives_one, both_of, Whole};

use atomic_table::{Join, Play, Split, TableRule};
use std::collections::LinkedList;
use std::marker::{Brand, PhantomData};

// What a seat knows: how many cubes there are, its parts, the cubes that it has claimed, told a yes of, and answered, the least cube with a yes
// that it has seen or found, how often it was told that no cube is left, and one more than the cube claimed last. No value of it is made.
pub struct View {
    pub cubes: u64,
    pub parts: u64,
    pub claimed: LinkedList<u64>,
    pub found: LinkedList<u64>,
    pub done: LinkedList<u64>,
    pub least: u64,
    pub over: u64,
    pub after: u64,
}

/// How many cubes there are, and how many seats.
#[derive(Clone, Copy, Debug)]
pub struct Size {
    pub cubes: u64,
    pub seats: u64,
}

/// The rule of a board's words.
pub struct Shares;

impl TableRule<(), View, Size> for Shares {
    ghost use Rattle.shared_search.specs.Rule.{Kept, fresh};

    ghost holds = { λ k. Kept k.cubes k.seats };

    ghost first = { λ k. fresh k.cubes k.seats };
}

struct Claims;

impl Play<(), View> for Claims {
    ghost use Rattle.shared_search.specs.Rule.{claimed_after};

    ghost then = { claimed_after };
}

struct Finds;

impl Play<(), View> for Finds {
    ghost use Rattle.shared_search.specs.Rule.{found_after};

    ghost then = { found_after };
}

struct Looks;

impl Play<(), View> for Looks {
    ghost use Rattle.shared_search.specs.Rule.{looked_after};

    ghost then = { looked_after };
}

struct Settles;

impl Play<(), View> for Settles {
    ghost use Rattle.shared_search.specs.Rule.{settled_after};

    ghost then = { settled_after };
}

// The cube of which a step tells, which is in none of its operands: the call picks it.
pub trait Which {
    ghost use Rattle.std.specs.Prelude.{ℕ};

    ghost cube: { ℕ };
}

impl Which for Brand {
    ghost cube = { 0 };
}

struct Answers<N> {
    marker: PhantomData<N>,
}

impl<N: Which> Play<(), View> for Answers<N> {
    ghost use Rattle.shared_search.specs.Rule.{done_after};

    ghost then = { done_after N.cube };
}

struct Halves;

impl Split<View> for Halves {
    ghost use Rattle.shared_search.specs.Rule.{fresh, gives_one};

    ghost left = { gives_one };

    ghost right = { λ v. fresh v.cubes 1 };
}

struct Sums;

impl Join<View> for Sums {
    ghost use Rattle.shared_search.specs.Rule.{fresh, both_of};

    ghost both = { both_of };

    ghost spent = { fresh 0 0 };
}

// The words: the next number, the least cube with a yes, and how many cubes were answered.
const NEXT: usize = 0;

const LEAST: usize = 1;

const DONE: usize = 2;

pub type Words = atomic_table::Shared<(), View, Size, Shares>;

pub type Place = atomic_table::Seat<(), View>;

/// Draws the next number.
pub fn draw(words: &Words, seat: &mut Place) -> u64
    requires three { words.now.table_id.words ≡ 3 }
    requires table { seat.old.table_id ≡ words.now.table_id }
    requires parts { (0 < seat.old.me.0.parts) × (seat.old.me.0.over ≡ 0) }
    requires cubes { seat.old.me.0.cubes ≡ words.now.key.cubes }
    ensures same { (seat.new.table_id ≡ seat.old.table_id) × (seat.new.me.1 ≡ seat.old.me.1) }
    ensures some { result < words.now.key.cubes → (seat.old.me.0.after ≤ result) × (seat.new.me.0 ≡ claims seat.old.me.0 result) }
    ensures none { words.now.key.cubes ≤ result → seat.new.me.0 ≡ ends seat.old.me.0 }
{
    words.fetch_add::<Claims>(seat, NEXT, 1)
}

/// Counts the cube as answered.
pub fn answer<N: Which>(words: &Words, seat: &mut Place, cube: u64)
    requires three { words.now.table_id.words ≡ 3 }
    requires table { seat.old.table_id ≡ words.now.table_id }
    requires named { cube ≡ N.cube }
    requires parts { 0 < seat.old.me.0.parts }
    requires claimed { times N.cube seat.old.me.0.done < times N.cube seat.old.me.0.claimed }
    ensures same { (seat.new.table_id ≡ seat.old.table_id) × (seat.new.me.1 ≡ seat.old.me.1) }
    ensures told { seat.new.me.0 ≡ answers seat.old.me.0 N.cube }
{
    let _ = words.fetch_add::<Answers<N>>(seat, DONE, 1);
}

/// Looks at the least cube with a yes.
pub fn look(words: &Words, seat: &mut Place) -> u64
    requires three { words.now.table_id.words ≡ 3 }
    requires table { seat.old.table_id ≡ words.now.table_id }
    ensures same { (seat.new.table_id ≡ seat.old.table_id) × (seat.new.me.1 ≡ seat.old.me.1) }
    ensures seen { (seat.new.me.0 ≡ sees seat.old.me.0 result) × (result ≤ seat.old.me.0.least) }
{
    words.load::<Looks>(seat, LEAST)
}

/// Tells that the cube has a yes.
pub fn find(words: &Words, seat: &mut Place, cube: u64)
    requires three { words.now.table_id.words ≡ 3 }
    requires table { seat.old.table_id ≡ words.now.table_id }
    requires parts { 0 < seat.old.me.0.parts }
    requires claimed { 0 < times cube seat.old.me.0.claimed }
    ensures same { (seat.new.table_id ≡ seat.old.table_id) × (seat.new.me.1 ≡ seat.old.me.1) }
    ensures told { seat.new.me.0 ≡ finds seat.old.me.0 cube }
{
    let _ = words.fetch_min::<Finds>(seat, LEAST, cube);
}

/// Learns what all seats together know.
pub fn settle(words: &Words, seat: &mut Place)
    requires three { words.now.table_id.words ≡ 3 }
    requires table { seat.old.table_id ≡ words.now.table_id }
    requires parts { (0 < seat.old.me.0.parts) × (seat.old.me.0.parts ≡ words.now.key.seats) }
    ensures same { (seat.new.table_id ≡ seat.old.table_id) × (seat.new.me ≡ seat.old.me) }
    ensures whole { Whole seat.old.me.0 }
{
    let _ = words.load::<Settles>(seat, LEAST);
}

/// Splits one part off a seat that has done nothing.
pub fn fork(words: &Words, seat: &mut Place) -> Place
    requires three { words.now.table_id.words ≡ 3 }
    requires table { seat.old.table_id ≡ words.now.table_id }
    requires fresh { (seat.old.me.0 ≡ fresh seat.old.me.0.cubes seat.old.me.0.parts) × (1 < seat.old.me.0.parts) }
    ensures same { (seat.new.table_id ≡ seat.old.table_id) × (seat.new.me.1 ≡ seat.old.me.1) }
    ensures left { seat.new.me.0 ≡ gives_one seat.old.me.0 }
    ensures right { (result.table_id ≡ seat.old.table_id) × (result.me.1 ≡ []) × (result.me.0 ≡ fresh seat.old.me.0.cubes 1) }
{
    words.split_seat::<Halves>(seat)
}

/// Takes another seat in.
pub fn pool(words: &Words, seat: &mut Place, other: Place)
    requires three { words.now.table_id.words ≡ 3 }
    requires table { seat.old.table_id ≡ words.now.table_id }
    requires other { (other.table_id ≡ words.now.table_id) × (other.me.1 ≡ []) }
    requires parts { 0 < seat.old.me.0.parts }
    ensures same { (seat.new.table_id ≡ seat.old.table_id) × (seat.new.me.1 ≡ seat.old.me.1) }
    ensures both { seat.new.me.0 ≡ both_of seat.old.me.0 other.me.0 }
{
    words.join_seat::<Sums>(seat, other);
}
