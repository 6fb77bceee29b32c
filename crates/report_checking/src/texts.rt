//! What is told of replies.
ghost use Rattle.std.specs.Prelude.{◌≡◌, ◌+◌, IfOk, OnOk, OnErr, IsErrOf, option_map, string_bytes};
ghost use Rattle.std.specs.Io.KnownBytes.{Appends};
ghost use Rattle.report_checking.specs.Telling.{AppendsFront, counted, words_of, words_of_fault, found_line, last_line, no_tally, numbered, outcome_of, text_owed, outcome_word};

use crate::findings::{Fault, Found, Outcome, Unshown, What};
use byte_lines::{ByteSink, Failure, write_all};
use order_check::Kind;
use std::alloc::Global;
use txn::NoMemory;

/// How many replies were checked, and what they are.
#[derive(Clone, Copy)]
pub(crate) struct Tally {
    pub replies: u64,
    pub reports: u64,
    pub spent: u64,
    pub unchecked: u64,
}

impl Tally {
    pub(crate) fn new() -> Tally
        ensures { result ≡ no_tally }
    {
        Tally {
            replies: 0,
            reports: 0,
            spent: 0,
            unchecked: 0,
        }
    }

    /// Counts a reply of which this was found.
    pub(crate) fn count(&mut self, found: &Found)
        ensures { self.new ≡ counted self.old found.now }
    {
        self.replies = self.replies.saturating_add(1);
        match found {
            Found::Right(What::Report(Kind::Spent)) => self.spent = self.spent.saturating_add(1),
            Found::Right(What::Report(_)) => self.reports = self.reports.saturating_add(1),
            Found::Unchecked => self.unchecked = self.unchecked.saturating_add(1),
            Found::Wrong(fault) => {
                if fault.owes_nothing() {
                    self.unchecked = self.unchecked.saturating_add(1);
                }
            }
            Found::Right(_) => {}
        }
    }

    /// What a check comes to that has counted so much, by whether none is wrong.
    pub(crate) fn outcome(&self, none_is_wrong: bool) -> Outcome
        ensures { result ≡ outcome_of self.now none_is_wrong }
    {
        if !none_is_wrong {
            Outcome::Wrong
        } else if self.unchecked == 0 {
            Outcome::Right
        } else {
            Outcome::Unchecked
        }
    }

    /// The last line: what was counted.
    fn line(&self, alloc: Global, outcome: Outcome) -> Result<String, NoMemory>
        ensures { IfOk result (λ line. string_bytes line ≡ last_line self.now outcome) }
    {
        let word = outcome_word(outcome);
        let Tally {
            replies,
            reports,
            spent,
            unchecked,
        } = *self;
        format!(in alloc;
            "{word}: replies {replies} reports {reports} spent {spent} not-checked {unchecked}\n"
        )
    }
}

fn outcome_word(outcome: Outcome) -> &'static str
    ensures { result.now ≡ outcome_word outcome }
{
    match outcome {
        Outcome::Right => "right",
        Outcome::Unchecked => "unchecked",
        Outcome::Wrong => "wrong",
    }
}

/// The words for a reply that is right, where it has a line.
fn words_of(what: What) -> Option<&'static str>
    ensures { option_map (λ words. words.now) result ≡ words_of what }
{
    match what {
        What::Report(Kind::Spent) => Some("spent, which claims nothing"),
        What::Report(Kind::Serial) => Some("serial, right"),
        What::Report(Kind::Pending) => Some("pending, right"),
        What::Report(Kind::Violated) => Some("violated, right"),
        What::Cut => Some("cut, right"),
        What::Other => None,
    }
}

fn words_of_fault(fault: &Fault) -> &'static str
    ensures { result.now ≡ words_of_fault fault.now }
{
    match fault {
        Fault::Other(_) => "wrong: owed is ",
        Fault::Unshown(Unshown::Order) => "wrong: its order doesn't explain what had been accepted",
        Fault::Unshown(Unshown::Refutation) =>
            "wrong: it refutes nothing of what had been accepted",
        Fault::Unshown(Unshown::Beginning) =>
            "not checked: its script resumes another, and what had gone before isn't shown",
        Fault::Unshown(Unshown::Strict) =>
            "not checked: its script asks for strict serializability",
        Fault::Missing => "wrong: the line has no reply",
        Fault::TooLong => "wrong: it is too long to be read",
    }
}

/// The text that is owed in place of a wrong reply, where it is known.
fn text_owed(fault: &Fault) -> &[u8]
    ensures { result.now ≡ text_owed fault.now }
{
    match fault {
        Fault::Other(text) => text.as_slice(),
        Fault::Unshown(_) | Fault::Missing | Fault::TooLong => b"",
    }
}

/// Writes these words of the reply with this number.
fn tell_words<W: ByteSink>(
    alloc: Global,
    sink: &mut W,
    number: u64,
    words: &str,
    more: &[u8],
) -> Result<(), Failure>
    ensures told { OnOk result (Appends (W.contents sink.old) (W.contents sink.new) (numbered number words.now more.now)) }
    ensures front { OnErr result (AppendsFront (W.contents sink.old) (W.contents sink.new) (numbered number words.now more.now)) }
    ensures ok { OnOk result (W.faults sink.new ≡ W.faults sink.old) }
    ensures device { IsErrOf result Failure.Device → W.faults sink.new ≡ W.faults sink.old + 1 }
    ensures memory { IsErrOf result Failure.NoMemory → W.faults sink.new ≡ W.faults sink.old }
{
    let head = format!(in alloc; "reply {number} {words}")?;
    write_all(sink, head.as_bytes())?;
    write_all(sink, more)?;
    write_all(sink, b"\n")?;
    Ok(())
}

/// Writes what was found of the reply with this number, counted from 1, where it has a line.
pub(crate) fn tell<W: ByteSink>(
    alloc: Global,
    sink: &mut W,
    number: u64,
    found: &Found,
) -> Result<(), Failure>
    ensures told { OnOk result (Appends (W.contents sink.old) (W.contents sink.new) (found_line number found.now)) }
    ensures front { OnErr result (AppendsFront (W.contents sink.old) (W.contents sink.new) (found_line number found.now)) }
    ensures ok { OnOk result (W.faults sink.new ≡ W.faults sink.old) }
    ensures device { IsErrOf result Failure.Device → W.faults sink.new ≡ W.faults sink.old + 1 }
    ensures memory { IsErrOf result Failure.NoMemory → W.faults sink.new ≡ W.faults sink.old }
{
    match found {
        Found::Right(what) => match words_of(*what) {
            Some(words) => tell_words(alloc, sink, number, words, b""),
            None => Ok(()),
        },
        Found::Unchecked => {
            tell_words(alloc, sink, number, "not checked: memory was wanting", b"")
        }
        Found::Wrong(fault) => {
            tell_words(alloc, sink, number, words_of_fault(fault), text_owed(fault))
        }
    }
}

/// Writes the last line.
pub(crate) fn tell_tally<W: ByteSink>(
    alloc: Global,
    sink: &mut W,
    tally: &Tally,
    outcome: Outcome,
) -> Result<(), Failure>
    ensures told { OnOk result (Appends (W.contents sink.old) (W.contents sink.new) (last_line tally.now outcome)) }
    ensures front { OnErr result (AppendsFront (W.contents sink.old) (W.contents sink.new) (last_line tally.now outcome)) }
    ensures ok { OnOk result (W.faults sink.new ≡ W.faults sink.old) }
    ensures device { IsErrOf result Failure.Device → W.faults sink.new ≡ W.faults sink.old + 1 }
    ensures memory { IsErrOf result Failure.NoMemory → W.faults sink.new ≡ W.faults sink.old }
{
    let line = tally.line(alloc, outcome)?;
    write_all(sink, line.as_bytes())?;
    Ok(())
}
