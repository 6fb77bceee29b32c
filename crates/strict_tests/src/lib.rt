//! Tests of histories with times, by the public calls of these libraries.
#![tactic(auto)]

#[cfg(test)]
mod asked;
#[cfg(test)]
mod histories;
#[cfg(test)]
mod rounds;
#[cfg(test)]
mod times;
