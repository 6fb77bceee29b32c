// Who writes each key, and who reads which key from whom.
ghost use Rattle.std.specs.Prelude.{◌≡◌, ◌↔◌, All, Contains, IsTrue};
ghost use Rattle.clock_choices.specs.Index.{IsInRuns, reads_in, reads_of, runs_of};
ghost use Rattle.clock_choices.specs.Runs.{Climbs};

use crate::reads::Read;
use crate::runs::{Run, count_below};
use std::collections::BTreeMap;
use txn::TxnId;

/// The sessions' writers of a key.
pub(crate) fn runs_of(writers: &BTreeMap<u64, Vec<Run>>, key: u64) -> &[Run]
    ensures { result.now ≡ runs_of writers.now key }
{
    match writers.get(&key) {
        Some(runs) => runs.as_slice(),
        None => &[],
    }
}

/// The reads in which the transaction takes part.
pub(crate) fn reads_of(reads: &[BTreeMap<u64, Vec<Read>>], id: TxnId) -> &[Read]
    ensures { result.now ≡ reads_of reads.now id }
{
    match reads.get(usize::from(id.session)) {
        Some(numbers) => reads_in(numbers, id.number),
        None => &[],
    }
}

/// Those of a session's transaction.
fn reads_in(numbers: &BTreeMap<u64, Vec<Read>>, number: u64) -> &[Read]
    ensures { result.now ≡ reads_in numbers.now number }
{
    match numbers.get(&number) {
        Some(reads) => reads.as_slice(),
        None => &[],
    }
}

/// Whether the numbers, which climb, have this one.
fn has_number(numbers: &[u64], number: u64) -> bool
    requires { Climbs numbers.now }
    ensures { IsTrue result ↔ Contains numbers.now number }
{
    let place = count_below(numbers, number);
    place < numbers.len() && numbers[place] == number
}

/// Whether the transaction is among the writers.
pub(crate) fn is_in_runs(runs: &[Run], id: TxnId) -> bool
    requires { All (λ run. Climbs run.numbers.items) runs.now }
    ensures { IsTrue result ↔ IsInRuns runs.now id }
{
    for run in runs {
        if run.session == id.session && has_number(&run.numbers, id.number) {
            return true;
        }
    }
    false
}
