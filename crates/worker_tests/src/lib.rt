//! Tests of workers that share cubes, and of the guided search over them, by the public calls of these libraries and of those below.
#![tactic(auto)]

#[cfg(test)]
mod agreement;
#[cfg(test)]
mod boards;
#[cfg(test)]
mod cubes;
#[cfg(test)]
mod depths;
#[cfg(test)]
mod guided;
#[cfg(test)]
mod histories;
#[cfg(test)]
mod looks;
#[cfg(test)]
mod meetings;
#[cfg(test)]
mod stops;
