//! Shows the running auditor at work: four collectors over a small store with a planted fault, and what the auditor finds.
#![tactic(auto)]

use byte_lines::{Exit, ReaderSource, WriterSink};
use demonstration::{demo, exit_of};

fn main(rt: HostRuntime) -> Exit {
    let mut input = ReaderSource::new(rt.stdin());
    let mut output = WriterSink::new(rt.stdout());
    exit_of(demo(&rt, rt.alloc(), &mut input, &mut output))
}
