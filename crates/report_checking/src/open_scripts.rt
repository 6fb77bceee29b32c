//! Scripts whose engine is open.
ghost use Rattle.std.specs.Prelude.{◌≡◌, false, IfOk};
ghost use Rattle.log_text.specs.Replies.{HasKindOfOrder};
ghost use Rattle.round_state.specs.declared.steps.Step.TheVariants as step;
ghost use Rattle.log_text.specs.declared.names.Names.TheVariants as named;
ghost use Rattle.log_text.specs.declared.versions.Opening.TheVariants as openings;
ghost use Rattle.log_text.specs.Versions.{names_of};
ghost use Rattle.report_checking.specs.Isolation.{OwesIsolated};
ghost use Rattle.report_checking.specs.OwedLines.{OwesIn};
ghost use Rattle.report_checking.specs.Owing.{BeginsSearch, FinishesWhere, IsOfEngine, IsStep, OwesBeside, searched_after};
ghost use Rattle.report_checking.specs.Reading.{Leads, LeadsIn, LeadsSplit, IsOwedBy, IsToldOf, OfRight, OwesText, IsAlone, EarnsWhere, GivesWhere, EarnsBeside, EarnsIn, GivesBeside, GivesIn, GivesIsolated, isolated_owed, Unshows};
ghost use Rattle.report_checking.specs.Unshown.{ShowsWrongOf, EndsWrong};

use crate::findings::Owed;
use crate::owed::{owed_finish, owed_open, owed_step};
use crate::replayed::Replayed;
use isolation_histories::{split_doubles_counts, split_keeps_verdict};
use isolation_scripts::{isolated_of, split_command, split_steps_are_legal};
use log_text::{Command, Names, Opening, Reply, Version};
use round_state::Step;
use std::alloc::Global;
use txn::{NoMemory, Refusal};

/// A script whose engine is open, with what it asks.
#[derive(Drop)]
pub(crate) struct OpenScript {
    engine: Replayed,
    opening: Opening,
    /// A search was begun for the round that is open, and isn't collected yet.
    searched: bool,
}

/// Whether a search goes on, if one did: it does for as long as its round is open.
#[tactic(auto, using(crate::proofs::OwedReplies::lasts_open, crate::proofs::OwedReplies::lasts_closed))]
fn lasts(searched: bool, engine: &Replayed) -> bool
    ensures { result ≡ searched_after searched engine.now.asked }
{
    if engine.has_round() { searched } else { false }
}

impl OpenScript {
    pub(crate) fn new(engine: Replayed, opening: Opening) -> OpenScript
        ensures { result ≡ record { engine = engine; opening = opening; searched = false } }
    {
        OpenScript {
            engine,
            opening,
            searched: false,
        }
    }

    /// How its lines name transactions.
    pub(crate) fn names(&self) -> Names
        ensures { result ≡ names_of self.now.opening }
    {
        self.opening.names()
    }

    /// Whether a search was begun that isn't collected yet.
    pub(crate) fn is_searched(&self) -> bool
        ensures { result ≡ self.now.searched }
    {
        self.searched
    }

    /// The search is over.
    pub(crate) fn end_search(&mut self)
        ensures { self.new ≡ record self.old { searched = false } }
    {
        self.searched = false;
    }

    /// What is owed to the beginning of a search.
    fn begin_search(&mut self) -> Reply
        ensures begins { BeginsSearch self.old.engine.asked self.old.searched result self.new.searched }
        ensures kind { HasKindOfOrder result }
        ensures same { (self.new.engine ≡ self.old.engine) × (self.new.opening ≡ self.old.opening) }
    {
        if !self.engine.has_round() {
            return Reply::No(Refusal::NoRound);
        }
        if self.searched {
            return Reply::No(Refusal::RoundOpen);
        }
        self.searched = true;
        Reply::Done
    }

    /// What is owed to a finish where it may be made, and else this refusal.
    fn finish_where(
        &mut self,
        alloc: Global,
        may: bool,
        refusal: Refusal,
        names: Names,
        stored: &[u8],
    ) -> Result<Owed, NoMemory>
        ensures owed { IfOk result (IsOwedBy (λ answer. Leads self.old.engine self.new.engine (λ before after. FinishesWhere may refusal self.old.searched before answer self.new.searched after))) }
        ensures opening { self.new.opening ≡ self.old.opening }
        ensures right { IfOk result (λ owed. OfRight names (EarnsWhere may self.old.engine) stored.now (λ text. OwesText names text owed)) }
        ensures unshown { IfOk result (Unshows (ShowsWrongOf names stored.now self.old.engine.asked)) }
        ensures alone { IfOk result (IsAlone (GivesWhere may refusal self.old.engine)) }
    {
        if may {
            self.searched = false;
            owed_finish(&mut self.engine, alloc, names, stored)
        } else {
            Ok(Owed::Reply(Reply::No(refusal)))
        }
    }

    /// What is owed to who gives the search and the round up.
    fn skip(&mut self, alloc: Global) -> Result<Owed, NoMemory>
        ensures owed { IfOk result (IsOwedBy (λ answer. Leads self.old.engine self.new.engine (λ before after. IsStep before step.Abandon answer after × (self.new.searched ≡ false)))) }
        ensures opening { self.new.opening ≡ self.old.opening }
        ensures told { IfOk result (IsToldOf self.old.engine step.Abandon) }
    {
        self.searched = false;
        owed_step(&mut self.engine, alloc, Step::Abandon)
    }

    /// What is owed to a command that is about the engine alone. A search goes on beside it, for as long as its round is open.
    fn owed_by_engine(
        &mut self,
        alloc: Global,
        version: Version,
        names: Names,
        command: Command,
        stored: &[u8],
    ) -> Result<Owed, NoMemory>
        requires { IsOfEngine command }
        ensures owed { IfOk result (IsOwedBy (λ answer. Leads self.old.engine self.new.engine (λ before after. OwesBeside version self.old.searched before command answer self.new.searched after))) }
        ensures opening { self.new.opening ≡ self.old.opening }
        ensures right { IfOk result (λ owed. OfRight names (EarnsBeside self.old.searched self.old.engine command) stored.now (λ text. OwesText names text owed)) }
        ensures unshown { IfOk result (Unshows (EndsWrong names self.old.engine command stored.now)) }
        ensures alone { IfOk result (IsAlone (GivesBeside version self.old.searched self.old.engine command)) }
    {
        let owed = owed_open(&mut self.engine, alloc, version, names, command, stored)?;
        self.searched = lasts(self.searched, &self.engine);
        Ok(owed)
    }

    /// What is owed to a command, for lines of this version, where the stored reply tells by these names.
    fn owed_beside(
        &mut self,
        alloc: Global,
        version: Version,
        names: Names,
        command: Command,
        stored: &[u8],
    ) -> Result<Owed, NoMemory>
        ensures owed { IfOk result (IsOwedBy (λ answer. Leads self.old.engine self.new.engine (λ before after. OwesBeside version self.old.searched before command answer self.new.searched after))) }
        ensures opening { self.new.opening ≡ self.old.opening }
        ensures right { IfOk result (λ owed. OfRight names (EarnsBeside self.old.searched self.old.engine command) stored.now (λ text. OwesText names text owed)) }
        ensures unshown { IfOk result (Unshows (EndsWrong names self.old.engine command stored.now)) }
        ensures alone { IfOk result (IsAlone (GivesBeside version self.old.searched self.old.engine command)) }
    {
        match command {
            Command::BeginSearch { .. } => Ok(Owed::Reply(self.begin_search())),
            Command::Collect { .. } => {
                self.finish_where(alloc, self.searched, Refusal::NoRound, names, stored)
            }
            Command::Skip => self.skip(alloc),
            Command::Finish { .. } => {
                self.finish_where(alloc, !self.searched, Refusal::RoundOpen, names, stored)
            }
            command => self.owed_by_engine(alloc, version, names, command, stored),
        }
    }

    /// What is owed to a command where transactions are split, for lines of this version: the command is split before, and what is owed
    /// told of begins and commits after.
    fn owed_isolated(
        &mut self,
        alloc: Global,
        version: Version,
        command: Command,
        stored: &[u8],
    ) -> Result<Owed, NoMemory>
        ensures owed { IfOk result (IsOwedBy (λ answer. LeadsSplit self.old.engine self.new.engine
            (λ before after. OwesIsolated version self.old.searched before command answer self.new.searched after))) }
        ensures opening { self.new.opening ≡ self.old.opening }
        ensures right { IfOk result (λ owed. OfRight named.Events (EarnsIn (openings.Isolated version) self.old.searched self.old.engine command) stored.now (λ text. OwesText named.Ids text owed)) }
        ensures unshown { IfOk result (Unshows (EndsWrong named.Events self.old.engine command stored.now)) }
        ensures alone { IfOk result (IsAlone (GivesIsolated version self.old.searched self.old.engine command)) }
    {
        // Laws that the proof cites. They do nothing when they run.
        split_steps_are_legal();
        split_doubles_counts();
        split_keeps_verdict();
        match split_command(alloc, version.most_sessions(), command)? {
            Ok(split) => {
                let owed = self.owed_beside(alloc, version, Names::Events, split, stored)?;
                isolated_owed(alloc, owed)
            }
            Err(refusal) => Ok(Owed::Reply(Reply::No(refusal))),
        }
    }

    /// What is owed to a command.
    pub(crate) fn owed(
        &mut self,
        alloc: Global,
        command: Command,
        stored: &[u8],
    ) -> Result<Owed, NoMemory>
        ensures owed { IfOk result (IsOwedBy (λ answer. LeadsIn self.old.opening self.old.engine self.new.engine
            (λ before after. OwesIn self.old.opening self.old.searched before command answer self.new.searched after))) }
        ensures opening { self.new.opening ≡ self.old.opening }
        ensures right { IfOk result (λ owed. OfRight (names_of self.old.opening) (EarnsIn self.old.opening self.old.searched self.old.engine command) stored.now
            (λ text. OwesText named.Ids text owed)) }
        ensures unshown { IfOk result (Unshows (EndsWrong (names_of self.old.opening) self.old.engine command stored.now)) }
        ensures alone { IfOk result (IsAlone (GivesIn self.old.opening self.old.searched self.old.engine command)) }
    {
        match self.opening {
            Opening::Ordered(version) => {
                self.owed_beside(alloc, version, Names::Ids, command, stored)
            }
            Opening::Isolated(version) => self.owed_isolated(alloc, version, command, stored),
        }
    }
}

/// What is owed by halves, told of begins and commits.
fn isolated_owed(alloc: Global, owed: Owed) -> Result<Owed, NoMemory>
    ensures { IfOk result (λ told. told ≡ isolated_owed owed) }
{
    match owed {
        Owed::Reply(inner) => Ok(Owed::Reply(isolated_of(alloc, inner)?)),
        nothing => Ok(nothing),
    }
}
