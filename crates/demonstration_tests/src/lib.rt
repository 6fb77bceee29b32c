//! Tests of the demonstration and of the running auditor in threads, by public calls alone.
#![tactic(auto)]

#[cfg(test)]
mod cores;
#[cfg(test)]
mod crowds;
#[cfg(test)]
mod demonstrations;
#[cfg(test)]
mod held_search;
#[cfg(test)]
mod holding;
#[cfg(test)]
mod judging;
#[cfg(test)]
mod publishing;
#[cfg(test)]
mod stage;
