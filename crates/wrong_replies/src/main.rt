//! Checks replies to a script that asks for snapshot isolation, of which one is wrong, as `cobra_check` does, and so ends with status 3.
#![tactic(auto)]

use cobra::{ReaderSource, WriterSink};
use report_checking::{check_replies, exit_of_check};
use std::process::ExitCode;

fn main(rt: HostRuntime) -> ExitCode {
    let mut input = ReaderSource::new(rt.stdin());
    let mut output = WriterSink::new(rt.stdout());
    let exit = exit_of_check(check_replies(rt.alloc(), &mut input, &mut output));
    ExitCode::from(exit.status)
}
