//! Tests of the known relation, of fences, and of the cuts that are found by them, by the public calls of these libraries.
#![tactic(auto)]

#[cfg(test)]
mod arrivals;
#[cfg(test)]
mod copies;
#[cfg(test)]
mod cuts;
#[cfg(test)]
mod defined;
#[cfg(test)]
mod fences;
#[cfg(test)]
mod later;
#[cfg(test)]
mod many_sessions;
#[cfg(test)]
mod orders;
#[cfg(test)]
mod relations;
#[cfg(test)]
mod settled;
#[cfg(test)]
mod sides;
#[cfg(test)]
mod steps;
#[cfg(test)]
mod turned;
#[cfg(test)]
mod walks;
