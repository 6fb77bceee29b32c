//! The auditor: reads a script on standard input, and writes the reply to each of its lines on standard output.
#![tactic(auto)]

ghost use Rattle.std.specs.Prelude.{◌≡◌, ◌≢◌, ◌<◌, ◌⊎◌, codes, Ok, Err, None, Some, OnErr};
ghost use Rattle.std.specs.Io.KnownBytes.{Appends, Keeps};
ghost use Rattle.std.specs.Thread.{IsSync};
ghost use Rattle.byte_lines.specs.Exits.{exit_words};
ghost use Rattle.byte_lines.specs.Faults.{SomeFailed};
ghost use Rattle.cobra.specs.Outputs.{IsOutput, StopsForMemory, StopsReading, StopsWriting, Writes};
ghost use Rattle.cobra.specs.Programs.{AppendsPart};

use cobra::{
    Asked, ByteSink, ByteSource, Exit, Failure, Means, ReaderSource, Solvers, WriterSink, asked_in,
    exit_of, serve, tell,
};
use guided_search::{Conflicts, Guided};
use shared_search::{OpenGate, Shared};
use std::thread::Threads;
use std::{env, thread};

const VERSION: &str = "cobra_audit 0.1.0\n";

const USAGE: &str = "usage: cobra_audit [--help | --version] < SCRIPT";

const HELP: &str =
    r#"cobra_audit is the auditor of Zanteyard: it checks from logs that a transactional key-value store was
serializable, each session's order kept, or that it kept snapshot isolation. It reads a script on
standard input, and writes the reply to each line on standard output.

  cobra_audit < SCRIPT     serves the script to its end
  cobra_audit --help       writes this
  cobra_audit --version    writes the version

A script of three lines: one session, and at most eight transactions at a time; its first
transaction writes key 5; is there an order that explains what was logged?

  ["open",1,8]
  ["offer",0,0,[[[],[5]]]]
  ["round",32,0,1]

The replies:

  ["ok"]
  ["ok"]
  ["report",1,"serial",[1],[[0,0]]]

A round that ends with "guided", ["round",32,0,1,"guided"], searches in other ways first: it finds more
within its budget. Other lines end a session (close), add one or let one come back (join), begin a round
and finish it later (begin, finish), search for it while lines are read (search, collect, skip), hand in
an answer from elsewhere (answer), forget what is settled (truncate), rebuild from what is kept
(rebuild), show the state (show), give out what is kept (save), and begin with what another run gave
out (resume).

A script that begins with ["open",1,8,2] is of version 2: in it a transaction that aborted is offered
with what it tried, as [[],[5],"aborted"], and a read from it is reported. With 3 in place of 2 there
may be 256 sessions and a million transactions at a time, and with "snapshot" behind the number the
question is whether the store kept snapshot isolation; with "strict", whether it was strictly
serializable, by the times that offers have.

The exit status is 0 at the end of the script, whatever was reported; 1 if a device failed or memory
ran out (standard error says which); 2 for other arguments.

docs/FORMATS.md describes each line, reply and refusal; docs/COLLECTORS.md, what has to be logged.
"#;

/// Does what the arguments ask for, and says how the program ends. The types say which searches are made: no others can be handed in.
fn run<'s, E, T: Threads, H: Threads + Sync + Drop, R: ByteSource, W: ByteSink>(
    means: &Means<'_, 's, E, T, Shared<H, OpenGate>, Guided<Conflicts, Shared<H, OpenGate>>>,
    asked: Result<Asked, Failure>,
    input: &mut R,
    output: &mut W,
) -> Exit
    requires { IsSync H.row }

    // Status 0 says that the script was served to its end.
    ensures served { asked ≡ Ok Asked.Work → result.status ≡ 0 → Writes IsOutput (R.remaining input.old) (W.contents output.old) (W.contents output.new) }

    // Status 1 says that a device failed, or that memory ran out; the words say which, and a front of an output was written.
    ensures statuses { asked ≡ Ok Asked.Work → (result.status ≡ 0) ⊎ (result.status ≡ 1) }
    ensures device { asked ≡ Ok Asked.Work → exit_words result ≡ Some (codes "device failed") → SomeFailed (R.faults input.old) (R.faults input.new) (W.faults output.old) (W.faults output.new) }
    ensures stops_reading { asked ≡ Ok Asked.Work → R.faults input.old < R.faults input.new
        → Writes (λ script. StopsReading script (R.remaining input.new)) (R.remaining input.old) (W.contents output.old) (W.contents output.new) }
    ensures stops_writing { asked ≡ Ok Asked.Work → W.faults output.old < W.faults output.new
        → Writes (λ script. StopsWriting script (R.remaining input.new) (R.last_read input.new)) (R.remaining input.old) (W.contents output.old) (W.contents output.new) }
    ensures memory { asked ≡ Ok Asked.Work → exit_words result ≡ Some (codes "out of memory")
        → Writes (λ script. StopsForMemory script (R.remaining input.new)) (R.remaining input.old) (W.contents output.old) (W.contents output.new) }
    ensures said { result.status ≡ 1 → (exit_words result ≡ Some (codes "device failed")) ⊎ (exit_words result ≡ Some (codes "out of memory")) }

    // And nothing is said where what was asked for is done, whatever was reported.
    ensures silent { result.status ≡ 0 → result.words ≡ None }

    // The text is written, or a front of it where the device failed.
    ensures help { asked ≡ Ok Asked.Help → result.status ≡ 0 → Appends (W.contents output.old) (W.contents output.new) HELP.now }
    ensures version { asked ≡ Ok Asked.Version → result.status ≡ 0 → Appends (W.contents output.old) (W.contents output.new) VERSION.now }
    ensures help_front { asked ≡ Ok Asked.Help → result.status ≢ 0 → AppendsPart (W.contents output.old) (W.contents output.new) HELP.now }
    ensures version_front { asked ≡ Ok Asked.Version → result.status ≢ 0 → AppendsPart (W.contents output.old) (W.contents output.new) VERSION.now }
    ensures printed { (asked ≡ Ok Asked.Help) ⊎ (asked ≡ Ok Asked.Version)
        → (result.status ≡ 0) ⊎ ((result.status ≡ 1) × (exit_words result ≡ Some (codes "device failed")) × (W.faults output.old < W.faults output.new)) }

    // Other arguments: nothing is written but how the program is used.
    ensures unknown { asked ≡ Ok Asked.Unknown → (result.status ≡ 2) × (exit_words result ≡ Some USAGE.now) × Keeps (W.contents output.old) (W.contents output.new) }
    ensures failed { OnErr asked ((result.status ≡ 1) × Keeps (W.contents output.old) (W.contents output.new)) }
{
    match asked {
        Ok(Asked::Work) => exit_of(serve(means, input, output)),
        Ok(Asked::Help) => exit_of(tell(output, HELP)),
        Ok(Asked::Version) => exit_of(tell(output, VERSION)),
        Ok(Asked::Unknown) => Exit {
            status: 2,
            words: Some(USAGE),
        },
        Err(failure) => exit_of(Err(failure)),
    }
}

fn main(rt: HostRuntime) -> Exit {
    let mut input = ReaderSource::new(rt.stdin());
    let mut output = WriterSink::new(rt.stdout());
    let solvers = Solvers {
        plain: Shared::new(&rt, OpenGate),
        guided: Guided::new(Conflicts, Shared::new(&rt, OpenGate)),
    };
    let alloc = rt.alloc();
    let asked = asked_in(alloc, env::args(&rt));
    thread::scope(thread::scope_env(), &rt, |scope| {
        let means = Means {
            scope,
            rt: &rt,
            alloc,
            solvers: &solvers,
        };
        run(&means, asked, &mut input, &mut output)
    })
}
