//! What a round over offers with times reports, and that an engine's report about the rewritten history is so.
#![tactic(auto)]

mod laws;

pub use laws::right_reports_are_strict;
