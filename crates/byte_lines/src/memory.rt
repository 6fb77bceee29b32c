ghost use Rattle.std.specs.Prelude.{◌≡◌, ◌↔◌, ◌+◌, ◌<◌, ◌≤◌, ◌++◌, length, take, drop, min, IsErr, IfOk, OnOk, OnErr};
ghost use Rattle.byte_lines.specs.Memory.{pace_after};

use crate::devices::{ByteSink, ByteSource, DeviceFault};
use crate::faults::FaultCount;
use std::marker::Model;

/// How the calls of a device over memory go.
#[derive(Drop)]
pub struct Pace {
    most: usize,
    fails_in: u64,
    faults: FaultCount,
}

impl Model for Pace {
    ghost use Rattle.std.specs.Prelude.{◌<◌};
    ghost use Rattle.byte_lines.specs.Faults.{number_of};
    ghost use Rattle.byte_lines.specs.Memory.{PaceState};

    ghost Value = { PaceState };

    ghost view = { λ pace. record { most = pace.most; fails_in = pace.fails_in; faults = number_of pace.faults } };

    ghost invariant = { λ pace. 0 < pace.most };
}

impl Pace {
    /// At most so many bytes go in a call, and this one of the calls fails, the first being 1; at 0 none does.
    pub fn new(most: usize, fails_at: u64) -> Pace
        requires { 0 < most }
        ensures most { result.most ≡ most }
        ensures fails_in { result.fails_in ≡ fails_at }
        ensures faults { result.faults ≡ 0 }
    {
        Pace {
            most,
            fails_in: fails_at,
            faults: FaultCount::Never,
        }
    }

    /// How many bytes the next call moves, of so many that it could.
    fn next(&mut self, offered: usize) -> Result<usize, DeviceFault>
        ensures many { IfOk result (λ n. n ≡ min self.old.most offered) }
        ensures some { 0 < self.old.most }
        ensures ok { OnOk result (self.new ≡ pace_after self.old 0) }
        ensures fails { IsErr result ↔ (self.old.fails_in ≡ 1) }
        ensures err { OnErr result (self.new ≡ pace_after self.old 1) }
    {
        let fails = self.fails_in == 1;
        self.fails_in = self.fails_in.saturating_sub(1);
        if fails {
            self.faults.add();
            return Err(DeviceFault);
        }
        Ok(self.most.min(offered))
    }

    fn add_fault(&mut self)
        ensures { self.new ≡ record self.old { faults = self.old.faults + 1 } }
    {
        self.faults.add();
    }
}

/// Gives bytes that stand in memory.
#[derive(Drop)]
pub struct MemorySource<'a> {
    pub bytes: &'a [u8],
    pub pace: Pace,
    /// How many bytes the last read gave of those that didn't fail.
    pub last_read: usize,
}

impl<'a> ByteSource for MemorySource<'a> {
    ghost use Rattle.std.specs.Prelude.{◌≡◌, ◌↔◌, ◌+◌, ◌<◌, ◌≤◌, Some, length, min, take, IsErr, IfOk, OnOk, OnErr};
    ghost use Rattle.std.specs.Io.KnownBytes.{Consumes, IsAtEnd, Keeps};
    ghost use Rattle.byte_lines.specs.Memory.{pace_after};

    ghost remaining = { λ s. Some s.bytes.now };

    ghost faults = { λ s. s.pace.faults };

    ghost reads_left = { λ s. length s.bytes.now };

    ghost last_read = { λ s. s.last_read };

    fn read(&mut self, buffer: &mut [u8]) -> Result<usize, DeviceFault>
        ensures many { IfOk result (λ n. n ≡ min self.old.pace.most (min (length buffer.old) (length self.old.bytes.now))) }
        ensures fails { IsErr result ↔ (self.old.pace.fails_in ≡ 1) }
        ensures paced { OnOk result (self.new.pace ≡ pace_after self.old.pace 0) }
        ensures paced_err { OnErr result (self.new.pace ≡ pace_after self.old.pace 1) }

        // As of each source.
        ensures count { IfOk result (λ n. n ≤ length buffer.old) }
        ensures moved { IfOk result (λ n. Consumes (Some self.old.bytes.now) (Some self.new.bytes.now) (take n buffer.new)) }
        ensures end { IfOk result (λ n. n ≡ 0 → 0 < length buffer.old → IsAtEnd (Some self.new.bytes.now)) }
        ensures last { IfOk result (λ n. self.new.last_read ≡ n) }
        ensures ok { OnOk result (self.new.pace.faults ≡ self.old.pace.faults) }
        ensures last_kept { OnErr result (self.new.last_read ≡ self.old.last_read) }
        ensures kept { OnErr result (Keeps (Some self.old.bytes.now) (Some self.new.bytes.now)) }
        ensures failed { OnErr result (self.new.pace.faults ≡ self.old.pace.faults + 1) }
        ensures fewer { IfOk result (λ n. 0 < n → length self.new.bytes.now < length self.old.bytes.now) }
        ensures no_more { length self.new.bytes.now ≤ length self.old.bytes.now }
    {
        let offered = buffer.len().min(self.bytes.len());
        let count = self.pace.next(offered)?;
        let (front, rest) = self.bytes.split_at(count);
        buffer[..count].copy_from_slice(front);
        self.bytes = rest;
        self.last_read = count;
        Ok(count)
    }
}

/// Keeps the bytes that it takes in memory, and fails too where there is none for them.
#[derive(Drop)]
pub struct MemorySink {
    pub bytes: Vec<u8>,
    pub pace: Pace,
}

impl ByteSink for MemorySink {
    ghost use Rattle.std.specs.Prelude.{◌≡◌, ◌<◌, ◌++◌, Some, length, min, take, IsErr, IfOk, OnOk, OnErr};
    ghost use Rattle.byte_lines.specs.Memory.{pace_after};

    ghost contents = { λ s. Some s.bytes.items };

    ghost faults = { λ s. s.pace.faults };

    fn write(&mut self, bytes: &[u8]) -> Result<usize, DeviceFault>
        ensures many { IfOk result (λ n. n ≡ min self.old.pace.most (length bytes.now)) }
        ensures held { IfOk result (λ n. self.new.bytes.items ≡ self.old.bytes.items ++ take n bytes.now) }
        ensures ok { OnOk result (self.new.pace ≡ pace_after self.old.pace 0) }

        ensures fails { self.old.pace.fails_in ≡ 1 → IsErr result }
        ensures kept { OnErr result (self.new.bytes.items ≡ self.old.bytes.items) }
        ensures err { OnErr result (self.new.pace ≡ pace_after self.old.pace 1) }
        ensures some { 0 < length bytes.now → IfOk result (λ n. 0 < n) }
    {
        let count = self.pace.next(bytes.len())?;
        if self.bytes.extend_from_slice(&bytes[..count]).is_err() {
            self.pace.add_fault();
            return Err(DeviceFault);
        }
        Ok(count)
    }
}
