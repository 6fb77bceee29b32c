//! Commands and replies of scripts that ask for snapshot isolation: commands are split before they get to the auditor, and its replies are
//! told of what was offered.
#![tactic(auto)]

mod commands;
mod handed;
mod laws;
mod replies;
mod wholes;

pub use commands::split_command;
pub use handed::{half_command, half_marks, have_halves};
pub use laws::{
    committed_are_of_commits, fresh_engines_are_split, given_is_taken, halved_counts_are_whole,
    nothing_is_split, split_engines_stay, split_steps_are_legal, split_steps_follow,
};
pub use replies::isolated_of;
