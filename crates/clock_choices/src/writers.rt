// The writers of each key, as transactions are added.
ghost use Rattle.std.specs.Prelude.{◌≡◌, ◌≢◌, ℕ, Contains, OnOk, IfOk};
ghost use Rattle.clock_choices.specs.Adds.{Adds, Among};
ghost use Rattle.clock_choices.specs.Index.{IsInRuns, runs_of};
ghost use Rattle.clock_choices.specs.Runs.{Climbs};
ghost use Rattle.clock_choices.specs.Writers.{AreRuns, IsOneOf, IsRunOf, IsRunPlace, SessionsRise};

use crate::lists::{put_list, take_list};
use crate::runs::{Run, count_below};
use std::alloc::Global;
use std::collections::BTreeMap;
use txn::{NoMemory, TxnId};

/// How many of the runs, which are in order, are of sessions before this one.
fn runs_before(runs: &[Run], session: u8) -> usize
    requires { SessionsRise runs.now }
    ensures { IsRunPlace runs.now session result }
{
    for place in 0..runs.len() {
        if runs[place].session >= session {
            return place;
        }
    }
    runs.len()
}

/// Puts a number among those that climb, unless it is there already.
fn add_number(numbers: &mut Vec<u64>, number: u64) -> Result<(), NoMemory>
    requires { Climbs numbers.old.items }
    ensures climbs { OnOk result (Climbs numbers.new.items) }
    ensures adds { OnOk result (Adds (Contains numbers.old.items) (Contains numbers.new.items) (λ one. one ≡ number)) }
{
    let place = count_below(numbers, number);
    if place < numbers.len() && numbers[place] == number {
        return Ok(());
    }
    numbers.insert(place, number)?;
    Ok(())
}

/// A run of one transaction.
fn run_of(alloc: Global, id: TxnId) -> Result<Run, NoMemory>
    ensures { IfOk result (IsOneOf id) }
{
    let mut numbers = Vec::new(alloc);
    numbers.push(id.number)?;
    Ok(Run {
        session: id.session,
        numbers,
    })
}

/// Puts a number among those of a run.
fn add_to_run(runs: &mut Vec<Run>, place: usize, id: TxnId) -> Result<(), NoMemory>
    requires runs { AreRuns runs.old.items }
    requires place { IsRunOf runs.old.items place id.session }
    ensures runs { OnOk result (AreRuns runs.new.items) }
    ensures adds { OnOk result (Adds (IsInRuns runs.old.items) (IsInRuns runs.new.items) (λ other. other ≡ id)) }
{
    let run = &mut runs[place];
    add_number(&mut run.numbers, id.number)
}

/// Puts a transaction among those of the runs.
pub(crate) fn add_to_runs(alloc: Global, runs: &mut Vec<Run>, id: TxnId) -> Result<(), NoMemory>
    requires { AreRuns runs.old.items }
    ensures runs { OnOk result (AreRuns runs.new.items) }
    ensures adds { OnOk result (Adds (IsInRuns runs.old.items) (IsInRuns runs.new.items) (λ other. other ≡ id)) }
{
    let place = runs_before(runs, id.session);
    if place < runs.len() && runs[place].session == id.session {
        return add_to_run(runs, place, id);
    }
    let run = run_of(alloc, id)?;
    runs.insert(place, run)?;
    Ok(())
}

/// Makes a transaction a writer of a key.
fn add_writer(
    alloc: Global,
    writers: &mut BTreeMap<u64, Vec<Run>>,
    key: u64,
    id: TxnId,
) -> Result<(), NoMemory>
    requires { (other : ℕ) → AreRuns (runs_of writers.old other) }
    ensures runs { OnOk result ((other : ℕ) → AreRuns (runs_of writers.new other)) }
    ensures adds { OnOk result ((other : ℕ) → Adds (IsInRuns (runs_of writers.old other)) (IsInRuns (runs_of writers.new other)) (λ one. (key ≡ other) × (one ≡ id))) }
{
    let mut runs = take_list(alloc, writers, key);
    add_to_runs(alloc, &mut runs, id)?;
    put_list(writers, key, runs)
}

/// Makes a transaction a writer of these keys.
pub(crate) fn add_writes(
    alloc: Global,
    writers: &mut BTreeMap<u64, Vec<Run>>,
    keys: &[u64],
    id: TxnId,
) -> Result<(), NoMemory>
    requires { (other : ℕ) → AreRuns (runs_of writers.old other) }
    ensures runs { OnOk result ((other : ℕ) → AreRuns (runs_of writers.new other)) }
    ensures adds { OnOk result ((other : ℕ) → Adds (IsInRuns (runs_of writers.old other)) (IsInRuns (runs_of writers.new other)) (Among (λ key one. (key ≡ other) × (one ≡ id)) keys.now)) }
{
    for key in keys {
        add_writer(alloc, writers, *key, id)?;
    }
    Ok(())
}
