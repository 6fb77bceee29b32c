use fragment_intake::Desk;
use polygraph::Effort;
use report_queue::Latest;
use std::alloc::Global;
use std::thread::Scope;

/// What an audit works with: where its searches run, the desk and the word that it shares with others, and who searches.
#[derive(Drop)]
pub struct Means<'a, 's, E, R, S> {
    pub scope: &'a Scope<'s, E>,
    pub rt: &'a R,
    pub alloc: Global,
    pub desk: &'a Desk,
    pub latest: &'a Latest,
    pub solver: &'s S,
    /// What the search of a round may cost.
    pub effort: Effort,
}
