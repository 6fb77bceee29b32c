ghost use Rattle.isolation_scripts.specs.Given.{GivenIsTaken};
ghost use Rattle.isolation_scripts.specs.Legal.{FreshEnginesAreSplit, NothingIsSplit, SplitStepsAreLegal, SplitStepsFollow};
ghost use Rattle.isolation_scripts.specs.SplitParts.{SplitEnginesStay};
ghost use Rattle.isolation_scripts.specs.Telling.{CommittedAreOfCommits, HalvedCountsAreWhole};

use isolation_histories::{
    arrivals_can_be_split, effects_can_be_split, split_doubles_counts, split_goes_with_arrivals,
    split_keeps_effects, split_keeps_verdict,
};

/// A fresh engine is one of split histories.
pub fn fresh_engines_are_split()
    ensures { FreshEnginesAreSplit }
{}

/// A history in which nothing was received is split as it is.
pub fn nothing_is_split()
    ensures { NothingIsSplit }
{}

/// What an engine of split histories replies to a split step is right of the history as it was offered.
pub fn split_steps_are_legal()
    ensures { SplitStepsAreLegal }
{
    // Laws that the proof cites. They do nothing when they run.
    arrivals_can_be_split();
    split_doubles_counts();
    split_goes_with_arrivals();
    split_keeps_verdict();
    split_keeps_effects();
    effects_can_be_split();
}

/// What a split step makes of split histories is what the step makes of the histories, split.
pub fn split_steps_follow()
    ensures { SplitStepsFollow }
{
    arrivals_can_be_split();
    split_doubles_counts();
    split_goes_with_arrivals();
    split_keeps_verdict();
    split_keeps_effects();
    effects_can_be_split();
}

/// The transactions that are told of halves are those whose commit is among them.
pub fn committed_are_of_commits()
    ensures { CommittedAreOfCommits }
{}

/// Of two halves for each transaction as many are told as there are transactions.
pub fn halved_counts_are_whole()
    ensures { HalvedCountsAreWhole }
{}

/// What is given out of split parts is what is taken where it is handed over.
pub fn given_is_taken()
    ensures { GivenIsTaken }
{}

/// The parts of an engine of split transactions stay such parts.
pub fn split_engines_stay()
    ensures { SplitEnginesStay }
{
    split_keeps_effects();
    effects_can_be_split();
}
