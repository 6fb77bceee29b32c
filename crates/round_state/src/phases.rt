//! Whether a round is open, and what is kept in it and after it. A problem, or a relation, is there once: a round's problem is lent to whoever
//! searches it.
ghost use Rattle.std.specs.Prelude.{◌≡◌, None, Some, IfSome, MatchOption};
ghost use Rattle.std.specs.Option.{is_some};
ghost use Rattle.round_state.specs.Phases.{begun_in, known_in, problem_in};
ghost use Rattle.round_state.specs.declared.phases.Phase.TheVariants as phase;

use crate::snapshots::OpenRound;
use clock_choices::Saturated;
use polygraph::Problem;
use std::mem::replace;

/// Where an engine is with its rounds.
#[derive(Drop, Debug)]
pub(crate) enum Phase {
    /// No round is open. The known relation of a front of the parts, if one is left.
    Between(Option<Saturated>),
    /// No round is open. The last round's problem, whose relation can be taken once nobody searches it.
    Ended(Problem),
    /// A round is open, and has this problem.
    Open(OpenRound, Problem),
}

impl Phase {
    pub(crate) fn is_open(&self) -> bool
        ensures { result ≡ is_some (begun_in self.now) }
    {
        match self {
            Phase::Open(_, _) => true,
            _ => false,
        }
    }

    /// The problem of the round that is open, if one is.
    pub(crate) fn problem(&self) -> Option<&Problem>
        ensures { MatchOption result (begun_in self.now ≡ None) (λ problem. problem_in self.now ≡ Some problem.now) }
    {
        match self {
            Phase::Open(_, problem) => Some(problem),
            _ => None,
        }
    }

    /// Takes the relation out, if there is one that nobody else has.
    pub(crate) fn take(&mut self) -> Option<Saturated>
        ensures taken { IfSome result (λ known. known_in self.old ≡ Some known) }
        ensures after { self.new ≡ phase.Between None }
    {
        match replace(self, Phase::Between(None)) {
            Phase::Between(known) => known,
            Phase::Ended(problem) => problem.into_known(),
            Phase::Open(_, problem) => problem.into_known(),
        }
    }

    /// Ends the round that is open.
    pub(crate) fn end(&mut self)
        ensures begun { begun_in self.new ≡ None }
        ensures known { known_in self.new ≡ known_in self.old }
    {
        *self = match replace(self, Phase::Between(None)) {
            Phase::Open(_begun, problem) => Phase::Ended(problem),
            between => between,
        };
    }
}
