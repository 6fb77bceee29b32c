ghost use Rattle.std.specs.Prelude.{◌≡◌, ◌≢◌, ◌↔◌, true, None, IfOk, IsTrue};
ghost use Rattle.log_text.specs.declared.replies.Reply.TheVariants as told;
ghost use Rattle.log_text.specs.Replies.{text_of, HasKindOfOrder};
ghost use Rattle.txn.specs.declared.refusals.Refusal.TheVariants as refusals;
ghost use Rattle.report_checking.specs.Checking.{TakesMemory};
ghost use Rattle.log_text.specs.declared.names.Names.TheVariants as named;
ghost use Rattle.report_checking.specs.OwedLines.{Owes};
ghost use Rattle.report_checking.specs.Reading.{LeadsScript, MayGoOn, script_left, IsOwedBy, IsOfKind, Finds, FindsFor, IsFoundBy, IsFoundOf, EarnsScript, OfRight, OwesText, names_in, IsFair, IsFairTo, GivesScript, IsAlone, IsOtherwise, IsOtherwiseTo, has_brace, Unshows, IsUnshownIn};

use crate::findings::{Fault, Found, Owed, Unshown, What, what_of};
use crate::open_scripts::OpenScript;
use crate::replayed::Replayed;
use byte_lines::Next;
use cobra::command_in;
use log_text::{Command, Names, Opening, Promise, Reply, write_reply};
use std::alloc::{AllocError, Global};
use txn::{NoMemory, Refusal};

/// A script that is gone through once more.
#[derive(Drop)]
pub(crate) struct Replay {
    /// It is open once a line has opened it.
    script: Option<OpenScript>,
}

/// The text of a reply, without its line feed.
fn text_of(alloc: Global, answer: &Reply) -> Result<Vec<u8>, NoMemory>
    requires { HasKindOfOrder answer.now }
    ensures { IfOk result (λ text. text.items ≡ text_of answer.now) }
{
    let mut text = write_reply(alloc, answer)?;
    let _ = text.pop();
    Ok(text)
}

impl Replay {
    pub(crate) fn new() -> Replay
        ensures { result.script ≡ None }
    {
        Replay { script: None }
    }

    /// How lines name transactions.
    fn names(&self) -> Names
        ensures { result ≡ names_in self.now.script }
    {
        match &self.script {
            Some(script) => script.names(),
            None => Names::Ids,
        }
    }

    /// Whether the command may be refused for want of memory.
    fn takes_memory(&self, command: &Command) -> bool
        ensures { IsTrue result ↔ TakesMemory self.now.script command.now }
    {
        match command {
            Command::Start {
                promise: Promise::Resumable(_),
                ..
            } => self.script.is_none(),
            Command::Start { .. }
            | Command::Close(_)
            | Command::BeginSearch { .. }
            | Command::Skip
            | Command::Show
            | Command::Save(_)
            | Command::OfferTimed { .. }
            | Command::Resume { .. }
            | Command::Marks { .. }
            | Command::MarksBegun { .. }
            | Command::Last(_)
            | Command::Resumed => false,
            _ => self.script.is_some(),
        }
    }

    fn open(&mut self, alloc: Global, sessions: u64, limit: u64, opening: Opening) -> Reply
        requires { self.old.script ≡ None }
        ensures owed { LeadsScript self.old.script self.new.script (λ before after. Owes before (Command.Start sessions limit (Promise.Resumable opening)) result after) }
        ensures kind { HasKindOfOrder result }
        ensures alone { IsAlone (GivesScript self.old.script (Command.Start sessions limit (Promise.Resumable opening))) (Owed.Reply result) }
    {
        match Replayed::open(alloc, sessions, limit, opening) {
            Ok(engine) => {
                self.script = Some(OpenScript::new(engine, opening));
                Reply::Done
            }
            Err(refusal) => Reply::No(refusal),
        }
    }

    /// What is owed to a command.
    fn owed(&mut self, alloc: Global, command: Command, stored: &[u8]) -> Result<Owed, NoMemory>
        ensures owed { IfOk result (IsOwedBy (λ answer. LeadsScript self.old.script self.new.script (λ before after. Owes before command answer after))) }
        ensures right { IfOk result (λ owed. OfRight (names_in self.old.script) (EarnsScript self.old.script command) stored.now (λ text. OwesText named.Ids text owed)) }
        ensures unshown { IfOk result (Unshows (IsUnshownIn self.old.script command stored.now)) }
        ensures alone { IfOk result (IsAlone (GivesScript self.old.script command)) }
    {
        if let Some(script) = &mut self.script {
            return script.owed(alloc, command, stored);
        }
        match command {
            Command::Start {
                sessions,
                limit,
                promise: Promise::Resumable(opening),
            } => Ok(Owed::Reply(self.open(alloc, sessions, limit, opening))),
            Command::Start { .. } => Ok(Owed::Nothing(Unshown::Strict)),
            Command::Resume { .. } => Ok(Owed::Nothing(Unshown::Beginning)),
            _ => Ok(Owed::Reply(Reply::No(Refusal::BadLine))),
        }
    }

    /// Whether the stored reply to the command says that memory was wanting, as it may.
    fn is_left_out(&self, alloc: Global, command: &Command, stored: &[u8]) -> Result<bool, NoMemory>
        ensures takes { IfOk result (λ is. IsTrue is → TakesMemory self.now.script command.now) }
        ensures text { IfOk result (λ is. IsTrue is → stored.now ≡ text_of (told.No refusals.NoMemory)) }
        ensures none { IfOk result (λ is. ¬ IsTrue is → TakesMemory self.now.script command.now → stored.now ≢ text_of (told.No refusals.NoMemory)) }
    {
        if !self.takes_memory(command) {
            return Ok(false);
        }
        is_text_of(alloc, &Reply::No(Refusal::NoMemory), stored)
    }

    /// What is left where memory was wanting for a command: a search that was to be collected is over, and else nothing has changed.
    fn leave_out(&mut self, command: &Command)
        ensures { self.new.script ≡ script_left command.now self.old.script }
    {
        if let Command::Collect { .. } = command {
            if let Some(script) = &mut self.script {
                script.end_search();
            }
        }
    }

    /// Whether the command may be told that a search goes on.
    fn may_go_on(&self, command: &Command) -> bool
        ensures { IsTrue result ↔ MayGoOn self.now.script command.now }
    {
        match command {
            Command::Collect { waits: false } => match &self.script {
                Some(script) => script.is_searched(),
                None => false,
            },
            _ => false,
        }
    }

    /// Whether the stored reply to the command says that a search goes on, as it may at any moment.
    fn is_going_on(&self, alloc: Global, command: &Command, stored: &[u8]) -> Result<bool, NoMemory>
        ensures takes { IfOk result (λ is. IsTrue is → MayGoOn self.now.script command.now) }
        ensures text { IfOk result (λ is. IsTrue is → stored.now ≡ text_of told.Searching) }
        ensures none { IfOk result (λ is. ¬ IsTrue is → MayGoOn self.now.script command.now → stored.now ≢ text_of told.Searching) }
    {
        if !self.may_go_on(command) {
            return Ok(false);
        }
        is_text_of(alloc, &Reply::Searching, stored)
    }

    /// What is found of a stored reply with a brace to a command. No report's text has one, so it shows nothing, and isn't read.
    fn check_unread(
        &mut self,
        alloc: Global,
        command: Command,
        stored: &[u8],
    ) -> Result<Found, NoMemory>
        requires brace { has_brace stored.now ≡ true }
        requires checked { TakesMemory self.old.script command → stored.now ≢ text_of (told.No refusals.NoMemory) }
        requires ended { MayGoOn self.old.script command → stored.now ≢ text_of told.Searching }
        ensures finds { IfOk result (λ found. FindsFor self.old.script command stored.now found self.new.script) }
        ensures fair { IfOk result (λ found. IsFair self.old.script command stored.now found) }
        ensures otherwise { IfOk result (λ found. IsOtherwise self.old.script command stored.now found) }
    {
        let owed = self.owed(alloc, command, &[])?;
        found_of(alloc, owed, stored)
    }

    /// What is found of the stored reply to a command.
    fn check_command(
        &mut self,
        alloc: Global,
        command: Command,
        stored: &[u8],
    ) -> Result<Found, NoMemory>
        ensures finds { IfOk result (λ found. FindsFor self.old.script command stored.now found self.new.script) }
        ensures fair { IfOk result (λ found. IsFair self.old.script command stored.now found) }
        ensures otherwise { IfOk result (λ found. IsOtherwise self.old.script command stored.now found) }
    {
        if self.is_left_out(alloc, &command, stored)? {
            self.leave_out(&command);
            return Ok(Found::Unchecked);
        }
        if self.is_going_on(alloc, &command, stored)? {
            return Ok(Found::Right(What::Other));
        }
        if stored.contains(&b'{') {
            return self.check_unread(alloc, command, stored);
        }
        let owed = self.owed(alloc, command, stored)?;
        found_of(alloc, owed, stored)
    }

    /// What is found of the stored reply to what was read.
    pub(crate) fn check(
        &mut self,
        alloc: Global,
        next: &Next,
        stored: &[u8],
    ) -> Result<Found, NoMemory>
        ensures finds { IfOk result (λ found. Finds self.old.script next.now stored.now found self.new.script) }
        ensures fair { IfOk result (λ found. IsFairTo self.old.script next.now stored.now found) }
        ensures otherwise { IfOk result (λ found. IsOtherwiseTo self.old.script next.now stored.now found) }
    {
        match command_in(alloc, self.names(), next)? {
            Some(command) => self.check_command(alloc, command, stored),
            None => found_by(alloc, &Reply::No(Refusal::BadLine), stored),
        }
    }
}

/// Whether this is the text of the reply.
fn is_text_of(alloc: Global, answer: &Reply, stored: &[u8]) -> Result<bool, NoMemory>
    requires { HasKindOfOrder answer.now }
    ensures { IfOk result (λ is. IsTrue is ↔ (stored.now ≡ text_of answer.now)) }
{
    let text = text_of(alloc, answer)?;
    Ok(text.as_slice() == stored)
}

/// What is found of a stored reply, where this one is owed.
fn found_by(alloc: Global, answer: &Reply, stored: &[u8]) -> Result<Found, NoMemory>
    requires { HasKindOfOrder answer.now }
    ensures { IfOk result (IsFoundBy answer.now stored.now) }
{
    let text = text_of(alloc, answer)?;
    if text.as_slice() == stored {
        Ok(Found::Right(what_of(answer)))
    } else {
        Ok(Found::Wrong(Fault::Other(text)))
    }
}

/// What is found of a stored reply, where this is owed. Where our own engine found no memory, nothing is.
fn found_of(alloc: Global, owed: Owed, stored: &[u8]) -> Result<Found, NoMemory>
    requires { IsOfKind owed }
    ensures { IfOk result (IsFoundOf owed stored.now) }
{
    match owed {
        Owed::Nothing(unshown) => Ok(Found::Wrong(Fault::Unshown(unshown))),
        Owed::Reply(Reply::No(Refusal::NoMemory)) => Err(AllocError),
        Owed::Reply(answer) => found_by(alloc, &answer, stored),
    }
}
