use background_search::Solvers;
use std::alloc::Global;
use std::thread::Scope;

/// What scripts are answered with: where searches are begun, and what searches.
#[derive(Drop)]
pub struct Means<'a, 's, E, R, P, S> {
    pub scope: &'a Scope<'s, E>,
    pub rt: &'a R,
    pub alloc: Global,
    pub solvers: &'s Solvers<P, S>,
}
