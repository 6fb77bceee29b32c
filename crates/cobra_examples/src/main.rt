//! Serves scripts, each named by an argument: of NAME, whether the replies to NAME.jsonl are those of NAME.replies, by the solver of one thread and
//! by shared searches with 1, 2, 4 and 16 workers.
#![tactic(auto)]

mod crews;

ghost use Rattle.std.specs.Prelude.{◌<◌};

use crate::crews::{Crew, Workers};
use cobra::{Means, MemorySink, MemorySource, Pace, Solvers, serve};
use guided_search::{Conflicts, Guided};
use polygraph::{PlainSolver, Single, Solver};
use shared_search::{OpenGate, Shared};
use std::alloc::Global;
use std::sync::Wait;
use std::thread::Threads;
use std::{env, fs, io, thread};

/// Whether the script is answered so, by devices that move so many bytes a call.
fn is_answered<R: Threads + Wait, P: PlainSolver + Sync, S: Solver + Sync>(
    rt: &R,
    alloc: Global,
    script: &[u8],
    replies: &[u8],
    most: usize,
    solvers: &Solvers<P, S>,
) -> bool
    requires most { 0 < most }
    requires plain { P.ready }
    requires guided { S.ready }
{
    let mut source = MemorySource {
        bytes: script,
        pace: Pace::new(most, 0),
        last_read: 0,
    };
    let mut sink = MemorySink {
        bytes: Vec::new(alloc),
        pace: Pace::new(most, 0),
    };
    let end = thread::scope(
        thread::scope_env(),
        rt,
        |scope|
            requires { P.ready × S.ready }
        {
            let means = Means {
                scope,
                rt,
                alloc,
                solvers,
            };
            serve(&means, &mut source, &mut sink)
        },
    );
    end.is_ok() && sink.bytes.as_slice() == replies
}

/// The same by the solver of one thread, whether the devices move a byte, a few or many.
fn is_answered_alone<R: Threads + Wait>(
    rt: &R,
    alloc: Global,
    script: &[u8],
    replies: &[u8],
) -> bool {
    let solvers = Solvers {
        plain: Single,
        guided: Guided::new(Conflicts, Single),
    };
    is_answered(rt, alloc, script, replies, 1, &solvers)
        && is_answered(rt, alloc, script, replies, 7, &solvers)
        && is_answered(rt, alloc, script, replies, 4096, &solvers)
}

fn main(rt: HostRuntime) -> io::Result<()> {
    let alloc = rt.alloc();
    for name in env::args(&rt)?.skip(1) {
        let script = fs::read(&rt, format!(in alloc; "{name}.jsonl")?)?;
        let replies = fs::read(&rt, format!(in alloc; "{name}.replies")?)?;
        let mut is_so = is_answered_alone(&rt, alloc, &script, &replies);
        for workers in [Workers::One, Workers::Two, Workers::Four, Workers::Sixteen] {
            let solvers = Solvers {
                plain: Crew::new(Shared::new(&rt, OpenGate), workers),
                guided: Guided::new(Conflicts, Crew::new(Shared::new(&rt, OpenGate), workers)),
            };
            is_so = is_so && is_answered(&rt, alloc, &script, &replies, 4096, &solvers);
        }
        if is_so {
            println!(rt; "{name}: as it must be")?;
        } else {
            println!(rt; "{name}: OTHER REPLIES")?;
        }
    }
    Ok(())
}
