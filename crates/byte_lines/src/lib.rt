//! Bytes and lines: devices that give and take bytes, and may fail, and lines cut from what they give.
#![tactic(auto)]

mod block;
mod devices;
mod exits;
mod failures;
mod faults;
mod lines;
mod memory;
mod standard;

pub use devices::{ByteSink, ByteSource, DeviceFault, write_all};
pub use exits::Exit;
pub use failures::Failure;
pub use lines::{LONGEST_LINE, LineReader, Next};
pub use memory::{MemorySink, MemorySource, Pace};
pub use standard::{ReaderSource, StandardInput, StandardOutput, WriterSink};
