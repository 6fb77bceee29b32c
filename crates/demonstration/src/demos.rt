ghost use Rattle.std.specs.Prelude.{◌≡◌, ◌+◌, ◌<◌, ◌≤◌, IfOk, IfSome, OnOk, IsErrOf};
ghost use Rattle.std.specs.Io.KnownBytes.{Keeps};
ghost use Rattle.std.specs.Thread.{IsSync};
ghost use Rattle.demonstration.specs.declared.commands.Command.{Command};
ghost use Rattle.demonstration.specs.Commands.{AsksFor, IsAllowed};
ghost use Rattle.byte_lines.specs.Faults.{NoneFailed, OneFailed};
ghost use Rattle.demonstration.specs.Shows.{WritesFront, WritesFrontOf, WritesRun, WritesRunOf};

use crate::commands::{Command, LONGEST_COMMAND, command_of};
use crate::failures::DemoFailure;
use crate::runs::run;
use crate::texts::text_of;
use byte_lines::{ByteSink, ByteSource, Failure, LineReader, Next, write_all};
use demo_store::Fault;
use shared_search::{OpenGate, Shared};
use std::alloc::Global;
use std::sync::Wait;
use std::thread::Threads;

/// The ring's places.
const RING: usize = 64;

/// Runs the store with this fault, four collectors and the auditor, over a desk and a ring with so many places, and writes what they came to.
pub fn demo_run<R: Threads + Wait + Sync, W: ByteSink>(
    rt: &R,
    alloc: Global,
    fault: Fault,
    desk: usize,
    ring: usize,
    sink: &mut W,
) -> Result<(), Failure>
    requires desk { (1 ≤ desk) × (desk ≤ 1024) }
    requires ring { (1 ≤ ring) × (ring ≤ 1024) }

    // What a run with this fault comes to is written.
    ensures written { OnOk result (WritesRunOf fault (W.contents sink.old) (W.contents sink.new)) }
    ensures ok { OnOk result (W.faults sink.new ≡ W.faults sink.old) }

    // A proper front of it is written.
    ensures front { IsErrOf result Failure.Device → WritesFrontOf fault (W.contents sink.old) (W.contents sink.new) }
    ensures failed { IsErrOf result Failure.Device → W.faults sink.new ≡ W.faults sink.old + 1 }

    ensures unwritten { IsErrOf result Failure.NoMemory → Keeps (W.contents sink.old) (W.contents sink.new) }
    ensures unfailed { IsErrOf result Failure.NoMemory → W.faults sink.new ≡ W.faults sink.old }
{
    let solver = Shared::new(rt, OpenGate);
    let outcome = run(rt, alloc, &solver, fault, desk, ring)?;
    let text = text_of(alloc, &outcome.shown)?;
    write_all(sink, text.as_bytes())?;
    Ok(())
}

/// The command on the input's first line.
#[tactic(auto, using(crate::proofs::Asking::asks, crate::proofs::Asking::too_long, crate::proofs::Asking::ended))]
fn read_command<S: ByteSource>(alloc: Global, source: &mut S) -> Result<Command, DemoFailure>
    ensures allowed { IfOk result IsAllowed }
    ensures asked { IfOk result (λ command. IfSome (S.remaining source.old) (λ input. AsksFor input command)) }
    ensures usage { IsErrOf result DemoFailure.Usage → IfSome (S.remaining source.old) (λ input. (command : Command) → ¬ AsksFor input command) }
    ensures failed { IsErrOf result DemoFailure.Device → S.faults source.new ≡ S.faults source.old + 1 }
    ensures unfailed { ¬ IsErrOf result DemoFailure.Device → S.faults source.new ≡ S.faults source.old }
{
    let mut reader = LineReader::new(alloc, LONGEST_COMMAND)?;
    match reader.next_line(source)? {
        Next::Line(line) => match command_of(alloc, &line)? {
            Some(command) => Ok(command),
            None => Err(DemoFailure::Usage),
        },
        Next::TooLong => Err(DemoFailure::Usage),
        Next::End => Err(DemoFailure::Usage),
    }
}

/// Reads a command, and writes what it asks to be shown.
pub fn demo<R: Threads + Wait + Sync, S: ByteSource, W: ByteSink>(
    rt: &R,
    alloc: Global,
    source: &mut S,
    sink: &mut W,
) -> Result<(), DemoFailure>
    // The input asks for a run, and what that comes to is written.
    ensures written { OnOk result (WritesRun (S.remaining source.old) (W.contents sink.old) (W.contents sink.new)) }

    // The input asks for none.
    ensures usage { IsErrOf result DemoFailure.Usage → IfSome (S.remaining source.old) (λ input. (command : Command) → ¬ AsksFor input command) }
    ensures unwritten { IsErrOf result DemoFailure.Usage → Keeps (W.contents sink.old) (W.contents sink.new) }

    // Nothing is written where the source failed, and where the sink did a proper front of the text.
    ensures source_failed { S.faults source.old < S.faults source.new → Keeps (W.contents sink.old) (W.contents sink.new) }
    ensures front { W.faults sink.old < W.faults sink.new → WritesFront (S.remaining source.old) (W.contents sink.old) (W.contents sink.new) }
    ensures no_memory { IsErrOf result DemoFailure.NoMemory → Keeps (W.contents sink.old) (W.contents sink.new) }

    // One of the devices failed, once, where that is the answer, and else none did.
    ensures device { IsErrOf result DemoFailure.Device → OneFailed (S.faults source.old) (S.faults source.new) (W.faults sink.old) (W.faults sink.new) }
    ensures none_failed { ¬ IsErrOf result DemoFailure.Device → NoneFailed (S.faults source.old) (S.faults source.new) (W.faults sink.old) (W.faults sink.new) }
{
    let command = read_command(alloc, source)?;
    let desk = usize::from(command.capacity);
    demo_run(rt, alloc, command.fault, desk, RING, sink)?;
    Ok(())
}
