//! Checks what an auditor replied to a script, without any search and without believing the auditor: it goes through the
//! script with an engine of its own, which judges the certificate of each report, and compares the texts.
#![tactic(auto)]

mod certificates;
mod checking;
mod exits;
mod findings;
mod laws;
mod open_scripts;
mod owed;
mod pairs;
mod replayed;
mod texts;

pub use checking::{LONGEST_REPLY, check_replies};
pub use exits::exit_of_check;
pub use findings::Outcome;
pub use laws::right_replies_are_true;
