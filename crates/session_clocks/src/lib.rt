//! A directed graph of transactions in which each session is a chain, with its reachability kept up to date by session
//! clocks: two numbers a transaction and session.
#![tactic(auto)]

mod drops;
mod graph;
mod lines;
mod near;
mod nodes;
mod notes;
mod paths;
mod removals;
mod rows;
mod sweeps;
mod tails;
mod trail;
mod widths;

pub use graph::{Addition, Graph};
