//! Tests of searches beside a script, while they are held: what no contract says of threads, of giving up, and of how often is searched.
#![tactic(auto)]

#[cfg(test)]
mod cubes;
#[cfg(test)]
mod devices;
#[cfg(test)]
mod solvers;
#[cfg(test)]
mod tests;
