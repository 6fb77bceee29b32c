//! Checks what an auditor replied to a script: reads the script's lines and the replies by turns on standard input, and writes on standard
//! output what it finds of each report.
#![tactic(auto)]

ghost use Rattle.std.specs.Prelude.{◌≡◌, ◌≢◌, ◌<◌, ◌⊎◌, codes, Ok, Err, None, Some, IfSome, OnErr};
ghost use Rattle.std.specs.Io.KnownBytes.{Appends, Keeps};
ghost use Rattle.report_checking.specs.Checking.{IsAllRight};
ghost use Rattle.report_checking.specs.RightReports.{IsRightUnlessUnchecked, StopsAtWrong};
ghost use Rattle.report_checking.specs.Outcomes.{TellsAll, TellsPart};
ghost use Rattle.byte_lines.specs.Exits.{exit_words};
ghost use Rattle.byte_lines.specs.Faults.{NoneFailed, SomeFailed};
ghost use Rattle.cobra.specs.Programs.{AppendsPart};

use cobra::{
    Asked, ByteSink, ByteSource, Exit, Failure, ReaderSource, WriterSink, asked_in, exit_of, tell,
};
use report_checking::{Outcome, check_replies, exit_of_check};
use std::alloc::Global;
use std::env;

const VERSION: &str = "cobra_check 0.1.0\n";

const USAGE: &str = "usage: cobra_check [--help | --version] < LINES";

const HELP: &str =
    r#"cobra_check checks what Zanteyard's auditor replied to a script, without any search and without
believing the auditor. It reads on standard input the script's lines and the replies by turns: a
line, then the reply to it. It writes a line for each report and each cut, up to the first reply that
is wrong, and a last line that counts what was checked. Of a script that resumes another one, or asks
for strict serializability, nothing is checked.

  cobra_check < LINES      checks the replies
  cobra_check --help       writes this
  cobra_check --version    writes the version

  paste -d '\n' SCRIPT REPLIES | cobra_check     checks the replies in one file to the script in another

Each yes and each no is checked. It isn't checked that the search that the line asked for would have
found it, or that a search that gave up had used its budget.

The exit status:

  0   all replies are right
  1   a device failed, or memory ran out here; standard error says which
  2   other arguments were given
  3   a reply is wrong
  4   no reply is wrong, but some weren't checked: replies that say that memory ran out, and scripts
      that resume another one or ask for strict serializability

docs/FORMATS.md describes what it reads and writes.
"#;

/// Does what the arguments ask for, and says how the program ends.
fn run<R: ByteSource, W: ByteSink>(
    alloc: Global,
    asked: Result<Asked, Failure>,
    input: &mut R,
    output: &mut W,
) -> Exit
    // Status 0 says that all replies are right, 3 that one is wrong, and 4 that none is, but not all are checked.
    ensures right { asked ≡ Ok Asked.Work → result.status ≡ 0 → IfSome (R.remaining input.old) IsAllRight }
    ensures wrong { asked ≡ Ok Asked.Work → result.status ≡ 3 → IfSome (R.remaining input.old) StopsAtWrong }
    ensures unchecked { asked ≡ Ok Asked.Work → result.status ≡ 4 → IfSome (R.remaining input.old) IsRightUnlessUnchecked }

    // What was written is a line of each reply, by what was found of it, and at its end the same as the status.
    ensures told_right { asked ≡ Ok Asked.Work → result.status ≡ 0 → TellsAll Outcome.Right (R.remaining input.old) (W.contents output.old) (W.contents output.new) }
    ensures told_wrong { asked ≡ Ok Asked.Work → result.status ≡ 3 → TellsAll Outcome.Wrong (R.remaining input.old) (W.contents output.old) (W.contents output.new) }
    ensures told_unchecked { asked ≡ Ok Asked.Work → result.status ≡ 4 → TellsAll Outcome.Unchecked (R.remaining input.old) (W.contents output.old) (W.contents output.new) }

    // With status 1 a front was written of what is written of the input's first replies, or of all and with the last line.
    ensures told_front { asked ≡ Ok Asked.Work → result.status ≡ 1 → TellsPart (R.remaining input.old) (W.contents output.old) (W.contents output.new) }

    ensures statuses { asked ≡ Ok Asked.Work → (result.status ≡ 0) ⊎ (result.status ≡ 1) ⊎ (result.status ≡ 3) ⊎ (result.status ≡ 4) }

    // Status 1 says that a device failed, or that memory was wanting; the words say which.
    ensures device { asked ≡ Ok Asked.Work → exit_words result ≡ Some (codes "device failed") → SomeFailed (R.faults input.old) (R.faults input.new) (W.faults output.old) (W.faults output.new) }
    ensures memory { asked ≡ Ok Asked.Work → exit_words result ≡ Some (codes "out of memory") → NoneFailed (R.faults input.old) (R.faults input.new) (W.faults output.old) (W.faults output.new) }
    ensures said { result.status ≡ 1 → (exit_words result ≡ Some (codes "device failed")) ⊎ (exit_words result ≡ Some (codes "out of memory")) }

    // And nothing is said where what was asked for is done, whatever was found.
    ensures silent { (result.status ≡ 0) ⊎ (result.status ≡ 3) ⊎ (result.status ≡ 4) → result.words ≡ None }

    // The text is written, or a front of it where the device failed.
    ensures help { asked ≡ Ok Asked.Help → result.status ≡ 0 → Appends (W.contents output.old) (W.contents output.new) HELP.now }
    ensures version { asked ≡ Ok Asked.Version → result.status ≡ 0 → Appends (W.contents output.old) (W.contents output.new) VERSION.now }
    ensures help_front { asked ≡ Ok Asked.Help → result.status ≢ 0 → AppendsPart (W.contents output.old) (W.contents output.new) HELP.now }
    ensures version_front { asked ≡ Ok Asked.Version → result.status ≢ 0 → AppendsPart (W.contents output.old) (W.contents output.new) VERSION.now }
    ensures printed { (asked ≡ Ok Asked.Help) ⊎ (asked ≡ Ok Asked.Version)
        → (result.status ≡ 0) ⊎ ((result.status ≡ 1) × (exit_words result ≡ Some (codes "device failed")) × (W.faults output.old < W.faults output.new)) }

    // Other arguments: nothing is written but how the program is used.
    ensures unknown { asked ≡ Ok Asked.Unknown → (result.status ≡ 2) × (exit_words result ≡ Some USAGE.now) × Keeps (W.contents output.old) (W.contents output.new) }
    ensures failed { OnErr asked ((result.status ≡ 1) × Keeps (W.contents output.old) (W.contents output.new)) }
{
    match asked {
        Ok(Asked::Work) => exit_of_check(check_replies(alloc, input, output)),
        Ok(Asked::Help) => exit_of(tell(output, HELP)),
        Ok(Asked::Version) => exit_of(tell(output, VERSION)),
        Ok(Asked::Unknown) => Exit {
            status: 2,
            words: Some(USAGE),
        },
        Err(failure) => exit_of(Err(failure)),
    }
}

fn main(rt: HostRuntime) -> Exit {
    let mut input = ReaderSource::new(rt.stdin());
    let mut output = WriterSink::new(rt.stdout());
    run(
        rt.alloc(),
        asked_in(rt.alloc(), env::args(&rt)),
        &mut input,
        &mut output,
    )
}
