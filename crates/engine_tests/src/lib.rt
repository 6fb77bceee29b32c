//! Tests of the engine, by its public calls alone.
#![tactic(auto)]

#[cfg(test)]
mod aborts;
#[cfg(test)]
mod beside;
#[cfg(test)]
mod cuts;
#[cfg(test)]
mod engines;
#[cfg(test)]
mod joins;
#[cfg(test)]
mod many_sessions;
#[cfg(test)]
mod parts;
#[cfg(test)]
mod runs;
#[cfg(test)]
mod splits;
#[cfg(test)]
mod steps;
#[cfg(test)]
mod stores;
