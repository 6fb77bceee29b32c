//! The commands of the auditor, over devices that give and take bytes.
#![tactic(auto)]

mod audits;
mod beginnings;
mod handing;
mod last_told;
mod laws;
mod means;
mod open_engine;
mod programs;
mod replies;
mod resuming;
mod rounds;
mod saving;
mod scripts;
mod searches;
mod serving;
mod showing;
mod stages;
mod strict;

pub use background_search::Solvers;
pub use beginnings::{may_begin, room_of};
pub use byte_lines::{
    ByteSink, ByteSource, DeviceFault, Exit, Failure, LONGEST_LINE, LineReader, MemorySink,
    MemorySource, Next, Pace, ReaderSource, StandardInput, StandardOutput, WriterSink, write_all,
};
pub use handing::Handing;
pub use laws::{
    bounds_stay, each_report_is_true, each_strict_report_is_true, held_is_kept, isolated_stays,
    violations_are_final,
};
pub use means::Means;
pub use programs::{Asked, asked_in, asked_of, exit_of, tell};
pub use replies::{claim_of, cut_of, reply_of, report_of};
pub use saving::{
    given_out_fits, given_out_is_taken, isolated_out_is_taken, saved_told, wider_bounds_are_kept,
};
pub use scripts::command_in;
pub use serving::serve;
pub use showing::state_told;
