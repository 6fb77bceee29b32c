//! Tests of the lowest libraries, by their public calls alone: of fragments and those that wait, of marks, of the desk, and of the store
//! that shows what the auditor finds.
#![tactic(auto)]

#[cfg(test)]
mod desks;
#[cfg(test)]
mod fragments;
#[cfg(test)]
mod marks;
#[cfg(test)]
mod stores;
#[cfg(test)]
mod waiting;
