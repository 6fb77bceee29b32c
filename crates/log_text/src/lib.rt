//! The text of a script's lines and of the replies to them, as JSON.
#![tactic(auto)]

mod answers;
mod building;
mod commands;
mod fragments;
mod handed;
mod laws;
mod lines;
mod lists;
mod named;
mod names;
mod numbers;
mod offers;
mod replies;
mod saved;
mod searches;
mod shown;
mod streams;
mod tree_items;
mod tree_tokens;
mod trees;
mod versions;

pub use commands::{Command, Effort, Wanted};
pub use laws::saved_lines_fit;
pub use lines::{read_line, read_line_within};
pub use names::Names;
pub use replies::{Reply, write_reply};
pub use saved::Saved;
pub use searches::{Search, search_in, search_of};
pub use shown::{Shown, read_shown};
pub use versions::{Opening, Promise, Version, version_in};
