//! Tests of session clocks beside a plain closure, by their public calls alone.
#![tactic(auto)]

#[cfg(test)]
mod closures;
#[cfg(test)]
mod drawn;
#[cfg(test)]
mod drops;
#[cfg(test)]
mod nodes;
#[cfg(test)]
mod paths;
#[cfg(test)]
mod sessions;
