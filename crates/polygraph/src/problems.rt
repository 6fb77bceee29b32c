ghost use Rattle.std.specs.Prelude.{◌≡◌, ◌≤◌, length, All, IfOk, IfSome};
ghost use Rattle.order_check.specs.CountedFronts.{AreFrontCounts, front_at};
ghost use Rattle.order_check.specs.Good.{IsGood};
ghost use Rattle.order_check.specs.Known.{IsChoice};
ghost use Rattle.polygraph.specs.Outcomes.{split_choices};
ghost use Rattle.polygraph.specs.ProblemState.{IsProblem};

use crate::stopping::{Stop, StopWord};
use clock_choices::{OpenChoices, Saturated};
use order_check::{Parts, front_parts};
use std::alloc::{AllocError, Global};
use std::marker::Model;
use std::sync::Arc;
use txn::{Choice, NoMemory};

/// How many choices a search splits first at most.
const MOST_SPLIT: usize = 6;

/// What is asked: the known relation of a snapshot's parts, and the choices that it leaves open.
#[derive(Drop, Debug)]
pub(crate) struct Asked {
    known: Saturated,
    choices: OpenChoices,
}

/// What a solver is asked: the known relation of a snapshot's parts, the first of the choices that it leaves open, and how many it does. Whoever
/// searches has it in common with whoever asks: a clone copies none of it. Contracts don't see that, nor what may give the search up.
#[derive(Drop, Debug)]
pub struct Problem {
    asked: Arc<Asked>,
    stop: Option<Stop>,
}

impl Model for Problem {
    ghost use Rattle.std.specs.Coded.{codes};
    ghost use Rattle.order_check.specs.Codes.{coded_last};
    ghost use Rattle.polygraph.specs.ProblemState.{ProblemState, IsProblem};
    ghost use Rattle.std.specs.Arc.{arc_value};
    ghost use Rattle.polygraph.specs.SharedProblems.{problem_in};

    ghost Value = { ProblemState };

    ghost coded = { Prim.hlevel (codes, coded_last) };

    ghost view = { λ p. problem_in (arc_value p.asked) };

    ghost invariant = { λ p. IsProblem (problem_in (arc_value p.asked)) };
}

/// A problem whose search nothing gives up yet.
fn shared(alloc: Global, known: Saturated, choices: OpenChoices) -> Result<Problem, NoMemory>
    requires { IsProblem (record { known = known; first = choices.first; open_count = choices.count }) }
    ensures { IfOk result (λ problem. problem ≡ record { known = known; first = choices.first; open_count = choices.count }) }
{
    let asked = Arc::new(alloc, Asked { known, choices })?;
    Ok(Problem { asked, stop: None })
}

impl Problem {
    /// The problem of the parts that the relation is about. The relation is copied, with its parts.
    pub fn of(alloc: Global, known: &Saturated) -> Result<Problem, NoMemory>
        ensures known { IfOk result (λ problem. problem.known ≡ known.now) }
        ensures choices { IfOk result IsProblem }
    {
        Problem::about(alloc, known.clone()?)
    }

    /// The same of a relation that is moved in. It keeps what is listed here, for a problem of the same parts later.
    pub fn about(alloc: Global, known: Saturated) -> Result<Problem, NoMemory>
        ensures known { IfOk result (λ problem. problem.known ≡ known) }
        ensures choices { IfOk result IsProblem }
    {
        let mut listed = known;
        listed.keep_open(alloc, MOST_SPLIT)?;
        let choices = listed.first_open(alloc, MOST_SPLIT)?;
        shared(alloc, listed, choices)
    }

    /// The problem of the front of the parts up to these counts, where these sessions are open. The front is copied, and its relation is
    /// made of the whole.
    pub fn of_front(
        alloc: Global,
        parts: &Parts,
        counts: &[u64],
        live: &[bool],
    ) -> Result<Problem, NoMemory>
        requires good { IsGood parts.now }
        requires counts { AreFrontCounts parts.now counts.now }
        requires flags { length live.now ≡ length parts.now.remain }
        ensures parts { IfOk result (λ problem. problem.known.parts ≡ front_at parts.now counts.now live.now) }
        ensures choices { IfOk result IsProblem }
    {
        let front = front_parts(alloc, parts, counts, live)?;
        let known = Saturated::of(alloc, &front)?;
        Problem::about(alloc, known)
    }

    /// The same problem, whose search has this number where the word gives searches up. Where memory is wanting for that it can't be given up.
    pub fn stopped_by(self, word: &StopWord, number: u64) -> Problem
        ensures { result ≡ self }
    {
        let Problem { asked, stop: _ } = self;
        let stop = match word.another() {
            Ok(word) => Some(Stop { word, number }),
            Err(_) => None,
        };
        Problem { asked, stop }
    }

    /// Whether a search of it may go on. Where it was given up it ends as if memory were refused, which a search may answer at any time.
    pub fn go_on(&self) -> Result<(), NoMemory> {
        match &self.stop {
            Some(stop) if stop.word.gives_up(stop.number) => Err(AllocError),
            _ => Ok(()),
        }
    }

    pub fn parts(&self) -> &Parts
        ensures value { result.now ≡ self.now.known.parts }
        ensures good { IsGood result.now }
    {
        self.asked.known.parts()
    }

    pub fn known(&self) -> &Saturated
        ensures { result.now ≡ self.now.known }
    {
        &self.asked.known
    }

    /// The relation, without its open choices; none while a clone of the problem is left.
    pub fn into_known(self) -> Option<Saturated>
        ensures { IfSome result (λ known. known ≡ self.known) }
    {
        let Problem { asked, stop: _ } = self;
        match Arc::try_unwrap(asked) {
            Ok(Asked { known, choices: _ }) => Some(known),
            Err(_others) => None,
        }
    }

    /// The open choices that a search of this depth splits first, in order of reader, key, writer, other writer.
    pub fn choices(&self, depth: u64) -> &[Choice]
        requires { depth ≤ 6 }
        ensures value { result.now ≡ split_choices self.now depth }
        ensures choices { All (IsChoice self.now.known.parts) result.now }
        ensures problem { IsProblem self.now }
    {
        let depth = depth as usize;
        let first = self.asked.choices.first.as_slice();
        if depth < first.len() {
            &first[..depth]
        } else {
            first
        }
    }

    /// How many choices are open.
    pub fn open_choices(&self) -> usize
        ensures value { result ≡ self.now.open_count }
        ensures problem { IsProblem self.now }
    {
        self.asked.choices.count
    }
}

impl Clone for Problem {
    ghost use Rattle.std.specs.Prelude.{◌≡◌};

    ghost is_clone = { λ old new. new ≡ old };

    fn clone(&self) -> Result<Self, NoMemory> {
        Ok(Problem {
            asked: Arc::try_clone(&self.asked)?,
            stop: match &self.stop {
                Some(stop) => Some(stop.another()?),
                None => None,
            },
        })
    }
}
