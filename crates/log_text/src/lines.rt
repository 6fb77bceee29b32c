//! A line of a script is read token by token, by the name that stands first.
ghost use Rattle.std.specs.Prelude.{◌≡◌, ◌⊎◌, IfOk, IfErr, IfSome, IsUtf8, option_map};
ghost use Rattle.log_text.specs.Commands.{join_in, begun_in, marks_in, last_in, command_named, IsCommand, HasLimits};
ghost use Rattle.log_text.specs.Held.{held};
ghost use Rattle.log_text.specs.Lines.{plain_named, IsWhole, IsAnsweredWith, IsTextOf};
ghost use Rattle.log_text.specs.Streams.{AreRead};
ghost use Rattle.log_text.specs.declared.commands.Command.{Command};

use crate::answers::read_answer;
use crate::commands::{Command, plain_named};
use crate::fragments::joined;
use crate::handed::{flags, writers};
use crate::names::Names;
use crate::offers::offer;
use crate::streams::{atoms, numbers, takes_array, word};
use json::{Reader, Scratch};
use std::alloc::Global;
use txn::{NoMemory, Refusal, Sequence};

/// A command whose parts are words and numbers has no more of them.
const MOST_PARTS: usize = 4;

fn plain(alloc: Global, reader: &mut Reader<'_>, name: &str) -> Result<Option<Command>, NoMemory>
    ensures form { IfOk result (λ command. AreRead (plain_named name.now) 0 reader.old command reader.new) }
    ensures limits { IfOk result (λ command. IfSome command HasLimits) }
{
    match atoms(alloc, reader, MOST_PARTS)? {
        Some(parts) => Ok(plain_named(name, parts.as_slice())),
        None => Ok(None),
    }
}

fn join(
    alloc: Global,
    reader: &mut Reader<'_>,
    most: Option<usize>,
) -> Result<Option<Command>, NoMemory>
    ensures form { IfOk result (λ command. AreRead (λ parts. option_map (held most) (join_in parts)) 4 reader.old command reader.new) }
    ensures limits { IfOk result (λ command. IfSome command HasLimits) }
{
    match joined(alloc, reader, most)? {
        Some(logged) => Ok(Some(Command::Join(logged))),
        None => Ok(None),
    }
}

/// What stands behind marks and flags: nothing, or flags of what has begun.
fn begun(
    alloc: Global,
    reader: &mut Reader<'_>,
    marks: Sequence<u64>,
    closed: Sequence<bool>,
) -> Result<Option<Command>, NoMemory>
    ensures form { IfOk result (λ command. AreRead (begun_in marks closed) 1 reader.old command reader.new) }
    ensures limits { IfOk result (λ command. IfSome command HasLimits) }
{
    if reader.take_end_array() {
        return Ok(Some(Command::Marks { marks, closed }));
    }
    let Some(begun) = flags(alloc, reader)? else {
        return Ok(None);
    };
    if reader.take_end_array() {
        Ok(Some(Command::MarksBegun {
            marks,
            closed,
            begun,
        }))
    } else {
        Ok(None)
    }
}

fn marks(alloc: Global, reader: &mut Reader<'_>) -> Result<Option<Command>, NoMemory>
    ensures form { IfOk result (λ command. AreRead marks_in 1 reader.old command reader.new) }
    ensures limits { IfOk result (λ command. IfSome command HasLimits) }
{
    let Some(marks) = numbers(alloc, reader)? else {
        return Ok(None);
    };
    let Some(closed) = flags(alloc, reader)? else {
        return Ok(None);
    };
    begun(alloc, reader, marks, closed)
}

fn last(alloc: Global, reader: &mut Reader<'_>) -> Result<Option<Command>, NoMemory>
    ensures form { IfOk result (λ command. AreRead last_in 2 reader.old command reader.new) }
    ensures limits { IfOk result (λ command. IfSome command HasLimits) }
{
    let Some(writers) = writers(alloc, reader)? else {
        return Ok(None);
    };
    if reader.take_end_array() {
        Ok(Some(Command::Last(writers)))
    } else {
        Ok(None)
    }
}

/// The command of this name, by what stands behind it; no name is that of an answer here.
fn named(
    alloc: Global,
    reader: &mut Reader<'_>,
    name: &str,
    most: Option<usize>,
) -> Result<Option<Command>, NoMemory>
    ensures form { IfOk result (λ command. AreRead (λ parts. option_map (held most) (command_named name.now parts)) 4 reader.old command reader.new) }
    ensures limits { IfOk result (λ command. IfSome command HasLimits) }
{
    match name {
        "offer" => offer(alloc, reader, most),
        "join" => join(alloc, reader, most),
        "marks" => marks(alloc, reader),
        "last" => last(alloc, reader),
        _ => plain(alloc, reader, name),
    }
}

/// The command that hands in what stands behind its name, up to the end.
fn answered(
    alloc: Global,
    names: Names,
    reader: &mut Reader<'_>,
) -> Result<Option<Command>, NoMemory>
    ensures form { IfOk result (IsAnsweredWith names reader.old) }
    ensures limits { IfOk result (λ command. IfSome command HasLimits) }
{
    match read_answer(alloc, names, reader)? {
        Some(shown) => Ok(Some(Command::Answer(shown))),
        None => Ok(None),
    }
}

/// The command that the tokens of a text are, where it is none that hands an answer in.
fn whole_command(
    alloc: Global,
    reader: &mut Reader<'_>,
    name: &str,
    most: Option<usize>,
) -> Result<Option<Command>, NoMemory>
    ensures form { IfOk result (λ command. IsWhole (λ parts. option_map (held most) (command_named name.now parts)) reader.old command) }
    ensures limits { IfOk result (λ command. IfSome command HasLimits) }
{
    match named(alloc, reader, name, most)? {
        Some(command) => match reader.next() {
            Some(_) => Ok(None),
            None => Ok(Some(command)),
        },
        None => Ok(None),
    }
}

/// The same of a text, and of an answer too.
fn text_within(
    alloc: Global,
    names: Names,
    text: &str,
    most: Option<usize>,
) -> Result<Option<Command>, NoMemory>
    ensures form { IfOk result (λ command. IsTextOf names most text.now command) }
    ensures limits { IfOk result (λ command. IfSome command HasLimits) }
{
    let mut scratch = Scratch::new(alloc);
    let mut reader = Reader::new(text, &mut scratch)?;
    if !takes_array(&mut reader) {
        return Ok(None);
    }
    match word(&mut reader) {
        Some("answer") => answered(alloc, names, &mut reader),
        Some(name) => whole_command(alloc, &mut reader, name, most),
        None => Ok(None),
    }
}

/// What is kept of the command that a line is, as `read_line` reads it: of an offer or a join the first so many transactions and every
/// flag. What isn't kept is read all the same, and let go at once. NoMemory comes as there.
pub fn read_line_within(
    alloc: Global,
    names: Names,
    line: &[u8],
    most: Option<usize>,
) -> Result<Command, Refusal>
    ensures ok { IfOk result (λ given. (whole : Command) × IsCommand names line.now whole × (given ≡ held most whole)) }
    ensures limits { IfOk result HasLimits }
    ensures err { IfErr result (λ refusal. ((refusal ≡ Refusal.NoMemory) × IsUtf8 line.now)
        ⊎ ((refusal ≡ Refusal.BadLine) × ((command : Command) → ¬ IsCommand names line.now command))) }
{
    let Ok(text) = std::str::from_utf8(line) else {
        return Err(Refusal::BadLine);
    };
    match text_within(alloc, names, text, most) {
        Ok(Some(command)) => Ok(command),
        Ok(None) => Err(Refusal::BadLine),
        Err(_) => Err(Refusal::NoMemory),
    }
}

/// The command that a line is, without its line feed, where lines name transactions by these names; BadLine where it is none. NoMemory may take the place of either where the
/// line is UTF-8: it is answered where room for the line's text once more, or for what is read of it, is refused, which no clause says.
pub fn read_line(alloc: Global, names: Names, line: &[u8]) -> Result<Command, Refusal>
    ensures ok { IfOk result (IsCommand names line.now) }
    ensures limits { IfOk result HasLimits }
    ensures err { IfErr result (λ refusal. ((refusal ≡ Refusal.NoMemory) × IsUtf8 line.now)
        ⊎ ((refusal ≡ Refusal.BadLine) × ((command : Command) → ¬ IsCommand names line.now command))) }
{
    read_line_within(alloc, names, line, None)
}
