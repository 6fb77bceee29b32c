ghost use Rattle.std.specs.Prelude.{◌≡◌, ◌≢◌, ◌+◌, ◌<◌, ◌≤◌, [], false, length, drop, IfOk, OnOk, OnErr};
ghost use Rattle.std.specs.Io.KnownBytes.{Consumes, IsAtEnd, Keeps};

use crate::devices::{ByteSource, DeviceFault};
use std::alloc::{AllocError, Global};
use std::marker::Model;

/// How many bytes are asked for at a time.
pub(crate) const BLOCK: usize = 65_536;

/// The bytes that one read gave, as far as they are not used yet.
#[derive(Drop)]
pub(crate) struct Block {
    bytes: Vec<u8>,
    next: usize,
    end: usize,
}

impl Model for Block {
    ghost use Rattle.std.specs.Prelude.{◌≡◌, ◌-◌, ◌≤◌, ℕ, List, length, take, drop};

    ghost Value = { List ℕ };

    ghost view = { λ b. take (b.end - b.next) (drop b.next b.bytes.items) };

    ghost invariant = { λ b. (b.next ≤ b.end) × (b.end ≤ length b.bytes.items) × (length b.bytes.items ≡ 65536) };
}

impl Block {
    pub(crate) fn new(alloc: Global) -> Result<Block, AllocError>
        ensures { IfOk result (λ block. block ≡ []) }
    {
        Ok(Block {
            bytes: vec![in alloc; 0; BLOCK]?,
            next: 0,
            end: 0,
        })
    }

    pub(crate) fn bytes(&self) -> &[u8]
        ensures { result.now ≡ self.now }
    {
        &self.bytes[self.next..self.end]
    }

    pub(crate) fn consume(&mut self, count: usize)
        requires { count ≤ length self.old }
        ensures { self.new ≡ drop count self.old }
    {
        self.next += count;
    }

    /// Answers whether there was more.
    pub(crate) fn refill<S: ByteSource>(&mut self, source: &mut S) -> Result<bool, DeviceFault>
        ensures taken { OnOk result (Consumes (S.remaining source.old) (S.remaining source.new) self.new) }
        ensures end { IfOk result (λ more. more ≡ false → (self.new ≡ []) × IsAtEnd (S.remaining source.new)) }
        ensures fewer { IfOk result (λ more. more ≢ false → S.reads_left source.new < S.reads_left source.old) }
        ensures no_more { S.reads_left source.new ≤ S.reads_left source.old }
        ensures bound { length self.new ≤ BLOCK }
        ensures last { OnOk result (S.last_read source.new ≡ length self.new) }
        ensures ok { OnOk result (S.faults source.new ≡ S.faults source.old) }

        ensures none { OnErr result (self.new ≡ []) }
        ensures kept { OnErr result (Keeps (S.remaining source.old) (S.remaining source.new)) }
        ensures failed { OnErr result (S.faults source.new ≡ S.faults source.old + 1) }
    {
        self.next = 0;
        self.end = 0;
        self.end = source.read(&mut self.bytes)?;
        Ok(self.end > 0)
    }
}
