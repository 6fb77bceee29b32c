//! Devices that talk with a script: each read gives a line, and each reply is heard as it is written.
ghost use Rattle.std.specs.Prelude.{◌≤◌, length};

use crate::solvers::Held;
use byte_lines::{ByteSink, ByteSource, DeviceFault};
use std::sync::atomic::{AtomicBool, AtomicU64, Ordering};
use std::thread;

const COLLECT: &str = "[\"collect\"]\n";

/// What has been heard of the replies.
#[derive(Drop)]
pub struct Heard {
    lines: AtomicU64,
    is_searching: AtomicBool,
}

impl Heard {
    pub fn new() -> Heard {
        Heard {
            lines: AtomicU64::new(0),
            is_searching: AtomicBool::new(false),
        }
    }

    fn note(&self, bytes: &[u8]) {
        for byte in bytes {
            if *byte == b'\n' {
                self.lines.fetch_add(1, Ordering::SeqCst);
            }
        }
        let is_searching = bytes == b"[\"searching\"]\n".as_slice();
        self.is_searching.store(is_searching, Ordering::SeqCst);
    }

    fn lines(&self) -> u64 {
        self.lines.load(Ordering::SeqCst)
    }

    /// Whether the last reply was that a search goes on.
    fn is_searching(&self) -> bool {
        self.is_searching.load(Ordering::SeqCst)
    }
}

/// Keeps the replies, and notes each as it is written.
#[derive(Drop)]
pub struct Ear<'a> {
    pub bytes: Vec<u8>,
    /// Whether memory was wanting for a reply.
    pub has_lost: bool,
    pub heard: &'a Heard,
}

impl<'a> ByteSink for Ear<'a> {
    ghost use Rattle.std.specs.Prelude.{None};

    ghost contents = { λ s. None };

    ghost faults = { λ s. 0 };

    fn write(&mut self, bytes: &[u8]) -> Result<usize, DeviceFault> {
        if self.bytes.extend_from_slice(bytes).is_err() {
            self.has_lost = true;
        }
        self.heard.note(bytes);
        Ok(bytes.len())
    }
}

/// What comes next on the input.
#[derive(Clone, Copy)]
pub enum Turn {
    Line(&'static str),
    /// The line comes once a search has begun.
    OnceBegun(&'static str),
    /// The search that is held is let go before the line.
    LetGo(&'static str),
}

/// Gives a line at each read, and at the end `["collect"]` as long as the reply is that a search goes on, but at most so often.
#[derive(Drop)]
pub struct Mouth<'a> {
    pub turns: &'a [Turn],
    pub again: u64,
    pub held: &'a Held,
    pub heard: &'a Heard,
    pub lines: u64,
    /// How many bytes the last read gave.
    pub last_read: usize,
    /// Whether a line was asked for before each line so far was answered.
    pub is_ahead: bool,
}

impl<'a> Mouth<'a> {
    ghost use Rattle.std.specs.Prelude.{◌+◌, ◌<◌, ◌≤◌, length, OnSome};

    /// The next line.
    fn next(&mut self) -> Option<&'static str>
        ensures fewer { OnSome result (length self.new.turns.now + self.new.again < length self.old.turns.now + self.old.again) }
        ensures no_more { length self.new.turns.now + self.new.again ≤ length self.old.turns.now + self.old.again }
    {
        match self.turns.split_first() {
            Some((turn, rest)) => {
                self.turns = rest;
                match turn {
                    Turn::Line(line) => Some(*line),
                    Turn::OnceBegun(line) => {
                        self.held.wait_for_search();
                        Some(*line)
                    }
                    Turn::LetGo(line) => {
                        self.held.let_go();
                        Some(*line)
                    }
                }
            }
            None => {
                if self.again == 0 || !self.heard.is_searching() {
                    return None;
                }
                self.again -= 1;
                thread::yield_now();
                Some(COLLECT)
            }
        }
    }
}

/// Moves a line to the front of the buffer, and answers how many bytes it has.
fn put(line: &str, buffer: &mut [u8]) -> usize
    ensures count { result ≤ length buffer.old }
{
    let bytes = line.as_bytes();
    let count = bytes.len().min(buffer.len());
    buffer[..count].copy_from_slice(&bytes[..count]);
    count
}

impl<'a> ByteSource for Mouth<'a> {
    ghost use Rattle.std.specs.Prelude.{◌+◌, None, length};

    ghost remaining = { λ s. None };

    ghost faults = { λ s. 0 };

    ghost reads_left = { λ s. length s.turns.now + s.again };

    ghost last_read = { λ s. s.last_read };

    fn read(&mut self, buffer: &mut [u8]) -> Result<usize, DeviceFault> {
        self.is_ahead = self.is_ahead || self.heard.lines() != self.lines;
        self.last_read = match self.next() {
            Some(line) => {
                self.lines = self.lines.saturating_add(1);
                put(line, buffer)
            }
            None => 0,
        };
        Ok(self.last_read)
    }
}
