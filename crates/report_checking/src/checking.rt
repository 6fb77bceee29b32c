ghost use Rattle.std.specs.Prelude.{◌≡◌, ℕ, ◌+◌, ◌<◌, List, [], Some, None, IfOk, IfSome, OnOk, OnErr, OnSome, IsErrOf};
ghost use Rattle.byte_lines.specs.Faults.{NoneFailed, OneFailed};
ghost use Rattle.byte_lines.specs.LineReaders.{lines_ahead, lines_left};
ghost use Rattle.report_checking.specs.Checking.{IsAllRight};
ghost use Rattle.report_checking.specs.Reading.{IsRead, IsFine, FindsNext, LeadsOn, Advances, IsFairNext, IsOtherwiseNext, StopsOn, TellsFront};
ghost use Rattle.report_checking.specs.RightReports.{IsRightUnlessUnchecked, StopsAtWrong};
ghost use Rattle.report_checking.specs.Outcomes.{TellsAll, TellsLines, TellsPart};
ghost use Rattle.report_checking.specs.Telling.{TellsNext, no_tally};
ghost use Rattle.cobra.specs.Outputs.{IsTold};

use crate::findings::{Fault, Found, Outcome};
use crate::pairs::Replay;
use crate::texts::{Tally, tell, tell_tally};
use byte_lines::{ByteSink, ByteSource, Failure, LONGEST_LINE, LineReader, Next};
use std::alloc::Global;
use txn::NoMemory;

/// The longest reply that is read, in bytes: replies may be longer than lines of a script.
pub const LONGEST_REPLY: usize = 1 << 30;

/// What was read, as a line of a script.
fn as_line(next: Next) -> Next
    ensures { (line : List ℕ) → IsRead line next → IsTold line result }
{
    match next {
        Next::Line(line) => {
            if line.len() > LONGEST_LINE {
                return Next::TooLong;
            }
            Next::Line(line)
        }
        Next::TooLong => Next::TooLong,
        Next::End => Next::End,
    }
}

/// What is found of the reply that was read behind a line.
fn found_behind(
    alloc: Global,
    replay: &mut Replay,
    line: &Next,
    stored: &Next,
) -> Result<Found, NoMemory>
    ensures finds { IfOk result (λ found. FindsNext replay.old.script line.now stored.now found replay.new.script) }
    ensures fair { IfOk result (λ found. IsFairNext replay.old.script line.now stored.now found) }
    ensures otherwise { IfOk result (λ found. IsOtherwiseNext replay.old.script line.now stored.now found) }
{
    match stored {
        Next::Line(text) => replay.check(alloc, line, text.as_slice()),
        Next::TooLong => Ok(Found::Wrong(Fault::TooLong)),
        Next::End => Ok(Found::Wrong(Fault::Missing)),
    }
}

/// Reads the reply behind a line, and finds what it is.
fn check_reply<R: ByteSource>(
    alloc: Global,
    reader: &mut LineReader,
    replay: &mut Replay,
    next: Next,
    source: &mut R,
) -> Result<Found, Failure>
    requires limit { reader.old.limit ≡ LONGEST_REPLY }
    requires fresh { reader.old.under_way ≡ Some [] }
    ensures on { IfOk result (λ found. LeadsOn reader.old.limit (lines_ahead reader.old (R.remaining source.old)) next replay.old.script found
        (lines_ahead reader.new (R.remaining source.new)) replay.new.script) }
    ensures stops { IfOk result (StopsOn reader.old.limit (lines_ahead reader.old (R.remaining source.old)) next replay.old.script) }
    ensures fresh { OnOk result (reader.new.under_way ≡ Some []) }
    ensures limit { reader.new.limit ≡ reader.old.limit }
    ensures ok { OnOk result (R.faults source.new ≡ R.faults source.old) }
    ensures device { IsErrOf result Failure.Device → R.faults source.new ≡ R.faults source.old + 1 }
    ensures memory { IsErrOf result Failure.NoMemory → R.faults source.new ≡ R.faults source.old }
    ensures fewer { IfOk result (λ found. IsFine found → lines_left reader.new (R.reads_left source.new) < lines_left reader.old (R.reads_left source.old)) }
{
    let line = as_line(next);
    let stored = reader.next_line(source)?;
    let found = found_behind(alloc, replay, &line, &stored)?;
    Ok(found)
}

/// Checks the next line and its reply, and tells what is found of it: nothing where there is no line.
fn check_next<R: ByteSource, W: ByteSink>(
    alloc: Global,
    reader: &mut LineReader,
    replay: &mut Replay,
    tally: &mut Tally,
    source: &mut R,
    sink: &mut W,
) -> Result<Option<Found>, Failure>
    requires limit { reader.old.limit ≡ LONGEST_REPLY }
    requires fresh { reader.old.under_way ≡ Some [] }
    ensures on { IfOk result (λ found. Advances (lines_ahead reader.old (R.remaining source.old)) replay.old.script found (lines_ahead reader.new (R.remaining source.new)) replay.new.script) }
    ensures fresh { IfOk result (λ found. OnSome found (reader.new.under_way ≡ Some [])) }
    ensures limit { reader.new.limit ≡ reader.old.limit }
    ensures fewer { IfOk result (λ found. IfSome found (λ given. IsFine given → lines_left reader.new (R.reads_left source.new) < lines_left reader.old (R.reads_left source.old))) }
    ensures told { IfOk result (λ found. TellsNext found tally.old tally.new (W.contents sink.old) (W.contents sink.new)) }
    ensures front { OnErr result (TellsFront (lines_ahead reader.old (R.remaining source.old)) replay.old.script tally.old (W.contents sink.old) (W.contents sink.new)) }
    ensures ok { OnOk result (NoneFailed (R.faults source.old) (R.faults source.new) (W.faults sink.old) (W.faults sink.new)) }
    ensures device { IsErrOf result Failure.Device → OneFailed (R.faults source.old) (R.faults source.new) (W.faults sink.old) (W.faults sink.new) }
    ensures memory { IsErrOf result Failure.NoMemory → NoneFailed (R.faults source.old) (R.faults source.new) (W.faults sink.old) (W.faults sink.new) }
{
    let next = reader.next_line(source)?;
    if let Next::End = next {
        return Ok(None);
    }
    let found = check_reply(alloc, reader, replay, next, source)?;
    tally.count(&found);
    tell(alloc, sink, tally.replies, &found)?;
    Ok(Some(found))
}

/// Checks line after line, up to the first reply that isn't right, but for want of memory. Answers whether none was wrong.
fn check_lines<R: ByteSource, W: ByteSink>(
    alloc: Global,
    reader: &mut LineReader,
    replay: &mut Replay,
    tally: &mut Tally,
    source: &mut R,
    sink: &mut W,
) -> Result<bool, Failure>
    requires limit { reader.old.limit ≡ LONGEST_REPLY }
    requires ahead { reader.old.ahead ≡ [] }
    requires under_way { reader.old.under_way ≡ Some [] }
    requires unopened { replay.old.script ≡ None }
    requires uncounted { tally.old ≡ no_tally }
    ensures told { IfOk result (λ right. TellsLines right (R.remaining source.old) tally.new (W.contents sink.old) (W.contents sink.new)) }
    ensures front { OnErr result (TellsPart (R.remaining source.old) (W.contents sink.old) (W.contents sink.new)) }
    ensures ok { OnOk result (NoneFailed (R.faults source.old) (R.faults source.new) (W.faults sink.old) (W.faults sink.new)) }
    ensures device { IsErrOf result Failure.Device → OneFailed (R.faults source.old) (R.faults source.new) (W.faults sink.old) (W.faults sink.new) }
    ensures memory { IsErrOf result Failure.NoMemory → NoneFailed (R.faults source.old) (R.faults source.new) (W.faults sink.old) (W.faults sink.new) }
{
    loop {
        let Some(found) = check_next(alloc, reader, replay, tally, source, sink)? else {
            return Ok(true);
        };
        if let Found::Wrong(fault) = &found {
            return Ok(fault.owes_nothing());
        }
    }
}

/// The same, and counts what was checked in a last line. It owns neither reader nor engine, so that nothing is let go where it returns: that
/// keeps its proof short.
fn check_all<R: ByteSource, W: ByteSink>(
    alloc: Global,
    reader: &mut LineReader,
    replay: &mut Replay,
    source: &mut R,
    sink: &mut W,
) -> Result<Outcome, Failure>
    requires limit { reader.old.limit ≡ LONGEST_REPLY }
    requires ahead { reader.old.ahead ≡ [] }
    requires under_way { reader.old.under_way ≡ Some [] }
    requires unopened { replay.old.script ≡ None }
    ensures right { IfOk result (λ outcome. outcome ≡ Outcome.Right → IfSome (R.remaining source.old) IsAllRight) }
    ensures unchecked { IfOk result (λ outcome. outcome ≡ Outcome.Unchecked → IfSome (R.remaining source.old) IsRightUnlessUnchecked) }
    ensures wrong { IfOk result (λ outcome. outcome ≡ Outcome.Wrong → IfSome (R.remaining source.old) StopsAtWrong) }
    ensures told { IfOk result (λ outcome. TellsAll outcome (R.remaining source.old) (W.contents sink.old) (W.contents sink.new)) }
    ensures front { OnErr result (TellsPart (R.remaining source.old) (W.contents sink.old) (W.contents sink.new)) }
    ensures ok { OnOk result (NoneFailed (R.faults source.old) (R.faults source.new) (W.faults sink.old) (W.faults sink.new)) }
    ensures device { IsErrOf result Failure.Device → OneFailed (R.faults source.old) (R.faults source.new) (W.faults sink.old) (W.faults sink.new) }
    ensures memory { IsErrOf result Failure.NoMemory → NoneFailed (R.faults source.old) (R.faults source.new) (W.faults sink.old) (W.faults sink.new) }
{
    let mut tally = Tally::new();
    let none_is_wrong = check_lines(alloc, reader, replay, &mut tally, source, sink)?;
    let outcome = tally.outcome(none_is_wrong);
    tell_tally(alloc, sink, &tally, outcome)?;
    Ok(outcome)
}

/// Checks what an auditor replied to a script: the input has the script's lines and the replies by turns. It writes a line for each report,
/// each cut and each reply that isn't right or isn't checked, and a last one that counts them. Answers what that comes to. What
/// comes behind the first that is wrong isn't read, nor what comes behind a line with which a script begins that isn't checked. A right
/// reply is never told wrong, a report as an auditor writes it.
pub fn check_replies<R: ByteSource, W: ByteSink>(
    alloc: Global,
    source: &mut R,
    sink: &mut W,
) -> Result<Outcome, Failure>
    ensures right { IfOk result (λ outcome. outcome ≡ Outcome.Right → IfSome (R.remaining source.old) IsAllRight) }
    ensures unchecked { IfOk result (λ outcome. outcome ≡ Outcome.Unchecked → IfSome (R.remaining source.old) IsRightUnlessUnchecked) }
    ensures wrong { IfOk result (λ outcome. outcome ≡ Outcome.Wrong → IfSome (R.remaining source.old) StopsAtWrong) }
    // What is written is a line of each reply, by what is found of it, and at its end what that comes to.
    ensures told { IfOk result (λ outcome. TellsAll outcome (R.remaining source.old) (W.contents sink.old) (W.contents sink.new)) }

    // After a failure a front of what is written of the input's first replies, or of all and with the last line.
    ensures front { OnErr result (TellsPart (R.remaining source.old) (W.contents sink.old) (W.contents sink.new)) }

    // One of the devices failed, once, where that is the answer, and else none did.
    ensures ok { OnOk result (NoneFailed (R.faults source.old) (R.faults source.new) (W.faults sink.old) (W.faults sink.new)) }
    ensures device { IsErrOf result Failure.Device → OneFailed (R.faults source.old) (R.faults source.new) (W.faults sink.old) (W.faults sink.new) }
    ensures memory { IsErrOf result Failure.NoMemory → NoneFailed (R.faults source.old) (R.faults source.new) (W.faults sink.old) (W.faults sink.new) }
{
    let mut reader = LineReader::new(alloc, LONGEST_REPLY)?;
    let mut replay = Replay::new();
    check_all(alloc, &mut reader, &mut replay, source, sink)
}
