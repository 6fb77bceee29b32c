//! Tests of histories that are split for snapshot isolation, by the public calls of these libraries.
#![tactic(auto)]

#[cfg(test)]
mod histories;
#[cfg(test)]
mod offered;
