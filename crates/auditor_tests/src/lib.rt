//! Tests of lines, of the text of replies, and of scripts, by the public calls of these libraries.
#![tactic(auto)]

#[cfg(test)]
mod bad_lines;
#[cfg(test)]
mod devices;
#[cfg(test)]
mod held;
#[cfg(test)]
mod lines;
#[cfg(test)]
mod reply_texts;
#[cfg(test)]
mod said;
#[cfg(test)]
mod scripts;
