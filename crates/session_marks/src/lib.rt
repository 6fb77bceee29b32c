//! How far each session has come: which fragment is next, and why another is refused.
#![tactic(auto)]

mod marks;

pub use marks::{Marks, SessionMark};
