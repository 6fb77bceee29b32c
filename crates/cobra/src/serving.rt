ghost use Rattle.std.specs.Prelude.{◌≡◌, ◌+◌, ◌<◌, [], Some, IfSome, OnOk, IsErrOf};
ghost use Rattle.std.specs.Io.KnownBytes.{Keeps};
ghost use Rattle.byte_lines.specs.Faults.{NoneFailed, OneFailed};
ghost use Rattle.cobra.specs.Outputs.{IsOutput, StopsForMemory, StopsReading, StopsWriting, Writes, WritesFrontOfReply, WritesReply};
ghost use Rattle.cobra.specs.declared.stages.Stage.{Stage};

use crate::means::Means;
use crate::scripts::Script;
use byte_lines::{ByteSink, ByteSource, Failure, LONGEST_LINE, LineReader, Next, write_all};
use polygraph::{PlainSolver, Solver};
use std::thread::Threads;

/// Writes the reply to what was read.
fn reply_to<'s, E, T: Threads, W: ByteSink, P: PlainSolver + Sync, S: Solver + Sync>(
    means: &Means<'_, 's, E, T, P, S>,
    script: &mut Script,
    next: &Next,
    sink: &mut W,
) -> Result<(), Failure>
    requires plain { P.ready }
    requires guided { S.ready }
    ensures written { OnOk result (WritesReply script.old.stage next.now script.new.stage (W.contents sink.old) (W.contents sink.new)) }
    ensures ok { OnOk result (W.faults sink.new ≡ W.faults sink.old) }

    // A proper front of the reply is written.
    ensures front { IsErrOf result Failure.Device → WritesFrontOfReply script.old.stage next.now script.new.stage (W.contents sink.old) (W.contents sink.new) }
    ensures failed { IsErrOf result Failure.Device → W.faults sink.new ≡ W.faults sink.old + 1 }

    ensures unwritten { IsErrOf result Failure.NoMemory → Keeps (W.contents sink.old) (W.contents sink.new) }
    ensures unfailed { IsErrOf result Failure.NoMemory → W.faults sink.new ≡ W.faults sink.old }
{
    let text = script.answer_line(means, next)?;
    write_all(sink, &text)?;
    Ok(())
}

/// Reads on with a reader that has taken nothing yet, for a script that has not begun, to the end of input, and writes the reply to each
/// line before it reads on. It owns neither, so that nothing is let go where it returns: that keeps its proof short.
fn serve_lines<
    's,
    E,
    T: Threads,
    R: ByteSource,
    W: ByteSink,
    P: PlainSolver + Sync,
    S: Solver + Sync,
>(
    means: &Means<'_, 's, E, T, P, S>,
    reader: &mut LineReader,
    script: &mut Script,
    source: &mut R,
    sink: &mut W,
) -> Result<(), Failure>
    requires plain { P.ready }
    requires guided { S.ready }
    requires limit { reader.old.limit ≡ LONGEST_LINE }
    requires ahead { reader.old.ahead ≡ [] }
    requires under_way { reader.old.under_way ≡ Some [] }
    requires unbegun { script.old.stage ≡ Stage.Nothing }

    // All of the input is read, and an output of it is written.
    ensures at_end { OnOk result (IfSome (R.remaining source.old) (λ input. R.remaining source.new ≡ Some [])) }
    ensures whole { OnOk result (Writes IsOutput (R.remaining source.old) (W.contents sink.old) (W.contents sink.new)) }

    // A front of an output is written.
    ensures stops_reading { R.faults source.old < R.faults source.new
        → Writes (λ input. StopsReading input (R.remaining source.new)) (R.remaining source.old) (W.contents sink.old) (W.contents sink.new) }
    ensures stops_writing { W.faults sink.old < W.faults sink.new
        → Writes (λ input. StopsWriting input (R.remaining source.new) (R.last_read source.new)) (R.remaining source.old) (W.contents sink.old) (W.contents sink.new) }
    ensures stops_for_memory { IsErrOf result Failure.NoMemory → Writes (λ input. StopsForMemory input (R.remaining source.new)) (R.remaining source.old) (W.contents sink.old) (W.contents sink.new) }

    // One of the devices failed, once, where that is the answer, and else none did.
    ensures device { IsErrOf result Failure.Device → OneFailed (R.faults source.old) (R.faults source.new) (W.faults sink.old) (W.faults sink.new) }
    ensures none_failed { ¬ IsErrOf result Failure.Device → NoneFailed (R.faults source.old) (R.faults source.new) (W.faults sink.old) (W.faults sink.new) }
{
    loop {
        let next = reader.next_line(source)?;
        if let Next::End = next {
            return Ok(());
        }
        reply_to(means, script, &next, sink)?;
    }
}

/// Reads a script to the end of input, and writes the reply to each line before it reads on. Each round is searched by the solver of the search that
/// it asks for: at a finish or a round before the reply, and at a search in a thread of the scope, while lines are read on. A search that nobody has
/// collected where it returns is told to stop. What a failure of a device or want of memory leaves half done isn't tried again.
pub fn serve<
    's,
    E,
    T: Threads,
    R: ByteSource,
    W: ByteSink,
    P: PlainSolver + Sync,
    S: Solver + Sync,
>(means: &Means<'_, 's, E, T, P, S>, source: &mut R, sink: &mut W) -> Result<(), Failure>
    requires plain { P.ready }
    requires guided { S.ready }

    // All of the input is read, and an output of it is written.
    ensures at_end { OnOk result (IfSome (R.remaining source.old) (λ input. R.remaining source.new ≡ Some [])) }
    ensures whole { OnOk result (Writes IsOutput (R.remaining source.old) (W.contents sink.old) (W.contents sink.new)) }

    // A front of an output is written.
    ensures stops_reading { R.faults source.old < R.faults source.new
        → Writes (λ input. StopsReading input (R.remaining source.new)) (R.remaining source.old) (W.contents sink.old) (W.contents sink.new) }
    ensures stops_writing { W.faults sink.old < W.faults sink.new
        → Writes (λ input. StopsWriting input (R.remaining source.new) (R.last_read source.new)) (R.remaining source.old) (W.contents sink.old) (W.contents sink.new) }
    ensures stops_for_memory { IsErrOf result Failure.NoMemory → Writes (λ input. StopsForMemory input (R.remaining source.new)) (R.remaining source.old) (W.contents sink.old) (W.contents sink.new) }

    // One of the devices failed, once, where that is the answer, and else none did.
    ensures device { IsErrOf result Failure.Device → OneFailed (R.faults source.old) (R.faults source.new) (W.faults sink.old) (W.faults sink.new) }
    ensures none_failed { ¬ IsErrOf result Failure.Device → NoneFailed (R.faults source.old) (R.faults source.new) (W.faults sink.old) (W.faults sink.new) }
{
    let mut reader = LineReader::new(means.alloc, LONGEST_LINE)?;
    let mut script = Script::new();
    serve_lines(means, &mut reader, &mut script, source, sink)
}
