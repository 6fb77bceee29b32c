//! Steps by which sides were forced, each with the cycle that its other side would close, and whether they are as they are defined.
ghost use Rattle.std.specs.Prelude.{◌≡◌, ◌<◌, length};
ghost use Rattle.clock_choices.specs.BranchState.{last_steps};

use clock_choices::{Branch, Forced, Saturated};
use std::alloc::Global;
use std::process::Abort;
use test_histories::{Facts, Pair, Relation, side_of};
use txn::{Arc, ForceStep, NoMemory, Sequence, Side};

/// How many sides were forced.
fn count_logged(known: &Saturated) -> usize
    ensures { result ≡ length known.now.log }
{
    known.log().len()
}

/// How many sides the last side assumed forces; where none is assumed, how many were forced before.
fn count_forced(branch: &Branch) -> usize
    ensures { result ≡ length (last_steps branch.now.log branch.now.levels) }
{
    branch.steps().len()
}

fn step_with(rt: &impl Abort, steps: &[Forced], place: usize, cycle: Sequence<Arc>) -> ForceStep {
    let step = steps.get(place).copied().expect(rt, "a step");
    ForceStep {
        choice: step.choice,
        side: step.side,
        cycle,
    }
}

/// The steps of a relation's log.
pub fn logged_steps(
    rt: &impl Abort,
    alloc: Global,
    known: &Saturated,
) -> Result<Vec<ForceStep>, NoMemory> {
    let mut steps = Vec::new(alloc);
    for place in 0..count_logged(known) {
        let cycle = known.cycle_of(alloc, place)?;
        steps.push(step_with(rt, known.log(), place, cycle))?;
    }
    Ok(steps)
}

/// The steps that the last side assumed forces; where none is assumed, those forced before.
pub fn forced_steps(
    rt: &impl Abort,
    alloc: Global,
    branch: &Branch,
) -> Result<Vec<ForceStep>, NoMemory> {
    let mut steps = Vec::new(alloc);
    for place in 0..count_forced(branch) {
        let cycle = branch.cycle_of(alloc, place)?;
        steps.push(step_with(rt, branch.steps(), place, cycle))?;
    }
    Ok(steps)
}

/// The pair that the step's side is, or the other side's.
pub fn side_of_step(step: &ForceStep, taken: bool) -> Pair {
    side_of(step.choice, (step.side == Side::First) == taken)
}

/// Whether the arcs are a cycle of pairs that stand, but for the side that is ruled out.
pub fn is_cycle(arcs: &[Arc], standing: &Relation, side: Option<Pair>) -> bool {
    let Some(first) = arcs.first() else {
        return false;
    };
    let mut at = first.start();
    for arc in arcs {
        let pair = (arc.start(), arc.end());
        if pair.0 != at || Some(pair) != side && !standing.contains(pair) {
            return false;
        }
        at = pair.1;
    }
    at == first.start()
}

/// Whether each step's cycle rules the other side out. The sides that were forced stand then.
pub fn are_forced(facts: &Facts, standing: &mut Relation, steps: &[ForceStep]) -> bool {
    for step in steps {
        let ruled_out = Some(side_of_step(step, false));
        if !facts.choices.as_slice().contains(&step.choice)
            || !is_cycle(step.cycle.as_slice(), standing, ruled_out)
        {
            return false;
        }
        standing.note(side_of_step(step, true));
    }
    true
}
