//! What parts of halves tell of a history as it was offered, where something of it is gone: behind the begins and commits that are gone.
#![tactic(auto)]

mod laws;

pub use laws::halves_tell_behind;
