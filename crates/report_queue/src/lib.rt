//! What the auditor tells: a queue of entries from its thread to one reader's, and the latest report's round and kind, which
//! any thread may read.
#![tactic(auto)]

mod entries;
mod rings;
mod seats;
mod words;

pub use entries::Entry;
pub use rings::{ReportReader, ReportSender, SenderEnd, ring};
pub use seats::{Latest, PublisherSeat, ReaderSeat};
pub use words::View;
