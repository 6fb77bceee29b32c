// The writers of a key in one session, by their numbers, which climb.
ghost use Rattle.std.specs.Prelude.{◌≡◌, ◌+◌, ◌-◌, ◌^◌, ◌<◌, ◌≤◌, ℕ, true, false, IsTrue, MatchOption, length, slice_index};
ghost use Rattle.txn.specs.declared.transactions.TxnId.{TxnId};
ghost use Rattle.clock_choices.specs.Runs.{Climbs, AreBelow, IsBetween, IsThird, IsLastThird, IsFirstThird};

use txn::TxnId;

/// The writers of a key in one session, by their numbers.
#[derive(Drop, Debug)]
pub(crate) struct Run {
    pub session: u8,
    pub numbers: Vec<u64>,
}

/// A step of this power of two, or none. It is a shift, which needs no branch: which way a search goes can't be guessed.
fn step_if(taken: bool, power: u32) -> usize
    requires { power < 64 }
    ensures taken { IsTrue taken → result ≡ 2 ^ power }
    ensures passed { taken ≡ false → result ≡ 0 }
{
    usize::from(taken) << power
}

/// Before how many of the numbers, of which all but a power of two are left out, the search begins.
fn first_step(numbers: &[u64], bound: u64, rest: usize) -> usize
    requires within { rest ≤ length numbers.now }
    requires climbs { Climbs numbers.now }
    requires half { rest + rest ≤ length numbers.now }
    ensures { IsBetween numbers.now bound result (length numbers.now - rest) }
{
    if rest > 0 && numbers[rest - 1] < bound {
        rest
    } else {
        0
    }
}

/// How many of the numbers are below this one, by steps of powers of two.
pub(crate) fn count_below(numbers: &[u64], bound: u64) -> usize
    requires { Climbs numbers.now }
    ensures { AreBelow numbers.now bound result }
{
    if numbers.is_empty() {
        return 0;
    }
    let powers = numbers.len().ilog2();
    let rest = numbers.len() - step_if(true, powers);
    let mut low = first_step(numbers, bound, rest);
    for power in (0..powers).rev() {
        let step = step_if(true, power);
        low += step_if(numbers[low + step - 1] < bound, power);
    }
    low + step_if(numbers[low] < bound, 0)
}

/// Whether so many of the numbers are below this one.
fn is_count_below(numbers: &[u64], bound: u64, count: usize) -> bool
    requires { Climbs numbers.now }
    ensures { IsTrue result → AreBelow numbers.now bound count }
{
    if count > numbers.len() {
        return false;
    }
    if count > 0 && bound <= numbers[count - 1] {
        return false;
    }
    count == numbers.len() || bound <= numbers[count]
}

/// How many of the numbers are below this one. A good guess spares the search.
pub(crate) fn count_below_near(numbers: &[u64], bound: u64, guess: usize) -> usize
    requires { Climbs numbers.now }
    ensures { AreBelow numbers.now bound result }
{
    if is_count_below(numbers, bound, guess) {
        guess
    } else {
        count_below(numbers, bound)
    }
}

/// The session's last transaction with one of the first so many numbers that is neither of the two.
pub(crate) fn last_in(
    session: u8,
    numbers: &[u64],
    reader: TxnId,
    writer: TxnId,
    count: usize,
) -> Option<TxnId>
    requires climbs { Climbs numbers.now }
    requires count { count ≤ length numbers.now }
    ensures { (bound : ℕ) → AreBelow numbers.now bound count → MatchOption result
        ((other : TxnId) → IsThird session numbers.now reader writer other → bound ≤ other.number)
        (IsLastThird session numbers.now reader writer bound) }
{
    for place in (0..count).rev() {
        let number = numbers[place];
        let id = TxnId { session, number };
        if id != reader && id != writer {
            return Some(id);
        }
    }
    None
}

/// The first one with a number behind the first so many.
pub(crate) fn first_behind(
    session: u8,
    numbers: &[u64],
    reader: TxnId,
    writer: TxnId,
    count: usize,
) -> Option<TxnId>
    requires { Climbs numbers.now }
    ensures { (bound : ℕ) → AreBelow numbers.now bound count → MatchOption result
        ((other : TxnId) → IsThird session numbers.now reader writer other → other.number < bound)
        (IsFirstThird session numbers.now reader writer bound) }
{
    for place in count..numbers.len() {
        let number = numbers[place];
        let id = TxnId { session, number };
        if id != reader && id != writer {
            return Some(id);
        }
    }
    None
}

/// The last one below the bound.
pub(crate) fn last_below(
    session: u8,
    numbers: &[u64],
    reader: TxnId,
    writer: TxnId,
    bound: u64,
) -> Option<TxnId>
    requires { Climbs numbers.now }
    ensures { MatchOption result
        ((other : TxnId) → IsThird session numbers.now reader writer other → bound ≤ other.number)
        (IsLastThird session numbers.now reader writer bound) }
{
    let count = count_below(numbers, bound);
    last_in(session, numbers, reader, writer, count)
}

/// The first one from the bound on.
pub(crate) fn first_from(
    session: u8,
    numbers: &[u64],
    reader: TxnId,
    writer: TxnId,
    bound: u64,
) -> Option<TxnId>
    requires { Climbs numbers.now }
    ensures { MatchOption result
        ((other : TxnId) → IsThird session numbers.now reader writer other → other.number < bound)
        (IsFirstThird session numbers.now reader writer bound) }
{
    let count = count_below(numbers, bound);
    first_behind(session, numbers, reader, writer, count)
}
