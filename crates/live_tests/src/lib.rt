//! Tests of the running auditor and of what it tells, by public calls alone.
#![tactic(auto)]

#[cfg(test)]
mod rings;
#[cfg(test)]
mod verdicts;
