ghost use Rattle.std.specs.Prelude.{◌≡◌, ◌≢◌, ◌+◌, Ok, Err, Some, None, codes, map, string_bytes, IfOk, IfErr, OnOk, OnErr, IsErrOf};
ghost use Rattle.std.specs.Io.KnownBytes.{Appends};
ghost use Rattle.std.specs.IoError.{error_kind};
ghost use Rattle.std.specs.Vec.Iter.{into_iter_items};
ghost use Rattle.byte_lines.specs.Exits.{exit_words};
ghost use Rattle.cobra.specs.Programs.{AppendsPart, asked_by, asked_by_word};

use byte_lines::{ByteSink, Exit, Failure, write_all};
use std::alloc::Global;
use std::env::Args;
use std::io;
use std::io::ErrorKind;

/// What the arguments of a program ask for.
#[derive(Clone, Copy, Debug, PartialEq, Eq)]
pub enum Asked {
    /// That it does its work.
    Work,
    Help,
    Version,
    /// Something that it doesn't know.
    Unknown,
}

fn asked_by_word(word: &str) -> Asked
    ensures { result ≡ asked_by_word word.now }
{
    if word == "--help" {
        Asked::Help
    } else if word == "--version" {
        Asked::Version
    } else {
        Asked::Unknown
    }
}

/// What the arguments ask for, of which the first is the program's name.
pub fn asked_of(args: &[String]) -> Asked
    ensures { result ≡ asked_by (map string_bytes args.now) }
{
    match args {
        [] | [_] => Asked::Work,
        [_, word] => asked_by_word(word.as_str()),
        _ => Asked::Unknown,
    }
}

/// What the arguments ask for, as they were read. One that isn't UTF-8 is unknown.
pub fn asked_in(alloc: Global, given: io::Result<Args>) -> Result<Asked, Failure>
    ensures words { IfOk given (λ args. IfOk result (λ asked. asked ≡ asked_by (map string_bytes (into_iter_items args)))) }
    ensures unknown { IfErr given (λ error. error_kind error ≡ ErrorKind.InvalidData → result ≡ Ok Asked.Unknown) }
    ensures failed { IfErr given (λ error. error_kind error ≢ ErrorKind.InvalidData → result ≡ Err Failure.NoMemory) }
    ensures memory { IfErr result (λ failure. failure ≡ Failure.NoMemory) }
{
    match given {
        Ok(args) => {
            let args: Vec<String> = args.collect(alloc)?;
            Ok(asked_of(&args))
        }
        Err(error) if error.kind() == ErrorKind::InvalidData => Ok(Asked::Unknown),
        Err(_) => Err(Failure::NoMemory),
    }
}

/// Writes the whole text.
pub fn tell<W: ByteSink>(sink: &mut W, text: &str) -> Result<(), Failure>
    ensures written { OnOk result (Appends (W.contents sink.old) (W.contents sink.new) text.now) }

    // A proper front of the text is written.
    ensures front { OnErr result (AppendsPart (W.contents sink.old) (W.contents sink.new) text.now) }
    ensures failed { IfErr result (λ failure. (failure ≡ Failure.Device) × (W.faults sink.new ≡ W.faults sink.old + 1)) }
{
    write_all(sink, text.as_bytes())?;
    Ok(())
}

pub fn exit_of(end: Result<(), Failure>) -> Exit
    ensures done { OnOk end (result.status ≡ 0) }
    ensures silent { OnOk end (result.words ≡ None) }
    ensures failed { OnErr end (result.status ≡ 1) }
    ensures device { IsErrOf end Failure.Device → exit_words result ≡ Some (codes "device failed") }
    ensures memory { IsErrOf end Failure.NoMemory → exit_words result ≡ Some (codes "out of memory") }
{
    match end {
        Ok(()) => Exit {
            status: 0,
            words: None,
        },
        Err(Failure::Device) => Exit {
            status: 1,
            words: Some("device failed"),
        },
        Err(Failure::NoMemory) => Exit {
            status: 1,
            words: Some("out of memory"),
        },
    }
}
