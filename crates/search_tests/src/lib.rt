//! Tests of orders and of trees that refute them, and of the search that finds one or the other, by the public calls of these libraries.
#![tactic(auto)]

#[cfg(test)]
mod deep_trees;
#[cfg(test)]
mod fronts;
#[cfg(test)]
mod many_sessions;
#[cfg(test)]
mod orders;
#[cfg(test)]
mod scans;
#[cfg(test)]
mod searches;
#[cfg(test)]
mod tables;
#[cfg(test)]
mod trees;
#[cfg(test)]
mod worked;
