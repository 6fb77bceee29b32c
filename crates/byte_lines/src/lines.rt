ghost use Rattle.std.specs.Prelude.{◌≡◌, ◌≢◌, ◌↔◌, ℕ, ◌+◌, ◌<◌, ◌≤◌, List, Some, None, [], false, ◌∷◌, ◌++◌, length, take, drop, IfSome, IfNone, IfOk, OnOk, OnErr, IsErrOf, Contains};
ghost use Rattle.std.specs.Io.KnownBytes.{Consumes, IsAtEnd, Keeps};
ghost use Rattle.byte_lines.specs.Lines.{HasNoLf};

use crate::block::Block;
use crate::devices::{ByteSource, DeviceFault};
use crate::failures::Failure;
use memchr::memchr;
use std::alloc::{AllocError, Global};
use std::marker::Model;
use std::mem;

/// The longest line of a script, in bytes.
pub const LONGEST_LINE: usize = 8_388_608;

const LF: u8 = b'\n';

/// What comes next on the input.
#[derive(Debug, PartialEq, Eq, Drop)]
pub enum Next {
    Line(Vec<u8>),
    TooLong,
    End,
}

/// Where the first LF stands.
fn line_end(bytes: &[u8]) -> Option<usize>
    ensures some { IfSome result (λ end. (end < length bytes.now) × HasNoLf (take end bytes.now) × (bytes.now ≡ take end bytes.now ++ 10 ∷ drop (end + 1) bytes.now)) }
    ensures none { IfNone result (HasNoLf bytes.now) }
{
    memchr(LF, bytes)
}

/// Cuts the bytes of a source into lines.
#[derive(Drop)]
pub struct LineReader {
    alloc: Global,
    limit: usize,
    line: Option<Vec<u8>>,
    block: Block,
}

impl Model for LineReader {
    ghost use Rattle.std.specs.Prelude.{◌≤◌, length};
    ghost use Rattle.std.specs.Option.{ForSome};
    ghost use Rattle.byte_lines.specs.LineReaders.{LineState, bytes_of};

    ghost Value = { LineState };

    ghost view = { λ reader. record { limit = reader.limit; ahead = reader.block; under_way = bytes_of reader.line } };

    ghost invariant = { λ reader. ForSome reader.line (λ front. length front.items ≤ reader.limit) };
}

impl LineReader {
    ghost use Rattle.byte_lines.specs.LineReaders.{grown, lines_left, EndsAtLf, HandsOutFirst, IsHandedOut, IsLast, ReadsLine, ReadsNext, StopsInLine};

    pub fn new(alloc: Global, limit: usize) -> Result<LineReader, AllocError>
        ensures limit { IfOk result (λ reader. reader.limit ≡ limit) }
        ensures ahead { IfOk result (λ reader. reader.ahead ≡ []) }
        ensures under_way { IfOk result (λ reader. reader.under_way ≡ Some []) }
    {
        Ok(LineReader {
            alloc,
            limit,
            line: Some(Vec::new(alloc)),
            block: Block::new(alloc)?,
        })
    }

    fn ahead(&self) -> &[u8]
        ensures { result.now ≡ self.now.ahead }
    {
        self.block.bytes()
    }

    /// Leaves out the next bytes of the block.
    fn skip(&mut self, count: usize)
        requires { count ≤ length self.old.ahead }
        ensures limit { self.new.limit ≡ self.old.limit }
        ensures ahead { self.new.ahead ≡ drop count self.old.ahead }
        ensures under_way { self.new.under_way ≡ self.old.under_way }
    {
        self.block.consume(count);
    }

    /// Puts the next bytes of the block onto the line under way.
    fn keep(&mut self, count: usize) -> Result<(), AllocError>
        requires { count ≤ length self.old.ahead }
        ensures limit { self.new.limit ≡ self.old.limit }
        ensures grown { OnOk result (self.new.under_way ≡ grown self.old.limit self.old.under_way (take count self.old.ahead)) }
        ensures ahead { OnOk result (self.new.ahead ≡ drop count self.old.ahead) }
        ensures err { OnErr result (self.new ≡ self.old) }
    {
        let piece = &self.block.bytes()[..count];
        if let Some(front) = &mut self.line {
            if piece.len() <= self.limit - front.len() {
                front.extend_from_slice(piece)?;
            } else {
                self.line = None;
            }
        }
        self.block.consume(count);
        Ok(())
    }

    /// Hands the line under way out, and begins the next.
    fn finish(&mut self) -> Next
        ensures handed { IsHandedOut self.old.under_way result }
        ensures fresh { self.new.under_way ≡ Some [] }
        ensures ahead { self.new.ahead ≡ self.old.ahead }
        ensures limit { self.new.limit ≡ self.old.limit }
    {
        match mem::replace(&mut self.line, Some(Vec::new(self.alloc))) {
            Some(line) => Next::Line(line),
            None => Next::TooLong,
        }
    }

    fn is_line_empty(&self) -> bool
        ensures { result ≢ false ↔ (self.now.under_way ≡ Some []) }
    {
        match &self.line {
            Some(line) => line.is_empty(),
            None => false,
        }
    }

    /// Hands out what the end of input makes of the line under way.
    fn last(&mut self) -> Next
        ensures handed { IsLast self.old.under_way result }
        ensures fresh { self.new.under_way ≡ Some [] }
        ensures ahead { self.new.ahead ≡ self.old.ahead }
        ensures limit { self.new.limit ≡ self.old.limit }
    {
        if self.is_line_empty() {
            return Next::End;
        }
        self.finish()
    }

    /// What comes next, where its LF was read already.
    fn next_ahead(&mut self) -> Result<Option<Next>, AllocError>
        ensures limit { self.new.limit ≡ self.old.limit }
        ensures some { IfOk result (λ found. IfSome found (λ next. EndsAtLf self.old self.new self.old.ahead next × (self.new.under_way ≡ Some []))) }
        ensures none { IfOk result (λ found. IfNone found (StopsInLine self.old self.new self.old.ahead × (self.new.ahead ≡ []))) }
        ensures err { OnErr result (self.new ≡ self.old) }
    {
        let bytes = self.ahead();
        let count = bytes.len();
        match line_end(bytes) {
            Some(end) => {
                self.keep(end)?;
                self.skip(1);
                Ok(Some(self.finish()))
            }
            None => {
                self.keep(count)?;
                Ok(None)
            }
        }
    }

    /// Reads a block, in place of the one before. Answers whether there was more.
    fn refill<S: ByteSource>(&mut self, source: &mut S) -> Result<bool, DeviceFault>
        ensures limit { self.new.limit ≡ self.old.limit }
        ensures under_way { self.new.under_way ≡ self.old.under_way }
        ensures taken { OnOk result (Consumes (S.remaining source.old) (S.remaining source.new) self.new.ahead) }
        ensures end { IfOk result (λ more. more ≡ false → (self.new.ahead ≡ []) × IsAtEnd (S.remaining source.new)) }
        ensures fewer { IfOk result (λ more. more ≢ false → S.reads_left source.new < S.reads_left source.old) }
        ensures no_more { S.reads_left source.new ≤ S.reads_left source.old }
        ensures bound { length self.new.ahead ≤ 65536 }
        ensures last { OnOk result (S.last_read source.new ≡ length self.new.ahead) }
        ensures ok { OnOk result (S.faults source.new ≡ S.faults source.old) }

        ensures none { OnErr result (self.new.ahead ≡ []) }
        ensures kept { OnErr result (Keeps (S.remaining source.old) (S.remaining source.new)) }
        ensures failed { OnErr result (S.faults source.new ≡ S.faults source.old + 1) }
    {
        self.block.refill(source)
    }

    /// Reads on to the end of the next line, by no more reads than that takes. An `Err` loses nothing: the line that was under way
    /// stays so, and a later call goes on with it. A read that failed isn't tried again.
    pub fn next_line<S: ByteSource>(&mut self, source: &mut S) -> Result<Next, Failure>
        // Told what bytes were left, it hands out the first of their lines.
        ensures next { self.old.under_way ≡ Some [] → IfOk result (HandsOutFirst self.old (S.remaining source.old) self.new (S.remaining source.new)) }

        // What it read becomes a line. Of a source that doesn't tell what is left it isn't known what that was. The line's LF is among what the
        // last read gave, where what was ahead came from that, too.
        ensures line { IfOk result (ReadsNext self.old (S.remaining source.old) (S.last_read source.old) self.new (S.remaining source.new) (S.last_read source.new)) }
        ensures stopped { OnErr result ((read : List ℕ) × Consumes (S.remaining source.old) (S.remaining source.new) read × StopsInLine self.old self.new (self.old.ahead ++ read)) }
        ensures limit { self.new.limit ≡ self.old.limit }

        // A line whose LF was read is handed out before anything more is asked for.
        ensures at_once { Contains self.old.ahead 10 → source.new ≡ source.old }
        ensures all_used { IsErrOf result Failure.Device → self.new.ahead ≡ [] }

        ensures ok { OnOk result (S.faults source.new ≡ S.faults source.old) }
        ensures device { IsErrOf result Failure.Device → S.faults source.new ≡ S.faults source.old + 1 }
        ensures memory { IsErrOf result Failure.NoMemory → S.faults source.new ≡ S.faults source.old }
        ensures fewer { IfOk result (λ next. next ≢ Next.End → lines_left self.new (S.reads_left source.new) < lines_left self.old (S.reads_left source.old)) }
    {
        // The proof reads the invariant here.
        let _ = &self.line;
        loop {
            if let Some(next) = self.next_ahead()? {
                return Ok(next);
            }
            if !self.refill(source)? {
                return Ok(self.last());
            }
        }
    }
}
