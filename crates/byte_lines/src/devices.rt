ghost use Rattle.std.specs.Prelude.{◌≡◌, ℕ, ◌+◌, ◌<◌, ◌≤◌, List, Option, length, take, IfOk, OnOk, OnErr};
ghost use Rattle.std.specs.Io.KnownBytes.{Appends, Consumes, IsAtEnd, Keeps};

use thiserror::Error;

/// A device failed: it gave or took nothing.
#[derive(Clone, Copy, Debug, PartialEq, Eq, Error)]
#[error("device failed")]
pub struct DeviceFault;

/// Gives bytes.
pub trait ByteSource {
    /// The bytes that are left, where they are told.
    ghost remaining: { Self → Option (List ℕ) };

    /// How often it has failed.
    ghost faults: { Self → ℕ };

    /// At most how many reads still give bytes, so that whoever reads to the end does come to an end.
    ghost reads_left: { Self → ℕ };

    /// How many bytes the last read gave of those that didn't fail.
    ghost last_read: { Self → ℕ };

    /// Moves some bytes to the front of the buffer, and answers how many: none only at the end, or where the buffer is
    /// empty. What the buffer holds behind them, or after an `Err`, isn't said.
    fn read(&mut self, buffer: &mut [u8]) -> Result<usize, DeviceFault>
        ensures count { IfOk result (λ n. n ≤ length buffer.old) }
        ensures moved { IfOk result (λ n. Consumes (remaining self.old) (remaining self.new) (take n buffer.new)) }
        ensures end { IfOk result (λ n. n ≡ 0 → 0 < length buffer.old → IsAtEnd (remaining self.new)) }
        ensures last { IfOk result (λ n. last_read self.new ≡ n) }
        ensures ok { OnOk result (faults self.new ≡ faults self.old) }

        ensures last_kept { OnErr result (last_read self.new ≡ last_read self.old) }
        ensures kept { OnErr result (Keeps (remaining self.old) (remaining self.new)) }
        ensures failed { OnErr result (faults self.new ≡ faults self.old + 1) }

        ensures fewer { IfOk result (λ n. 0 < n → reads_left self.new < reads_left self.old) }
        ensures no_more { reads_left self.new ≤ reads_left self.old };
}

/// Takes bytes.
pub trait ByteSink {
    /// The bytes that it holds, where they are told.
    ghost contents: { Self → Option (List ℕ) };

    /// How often it has failed.
    ghost faults: { Self → ℕ };

    /// Takes a front of the bytes, and answers how many: at least one where there is one. They are out when it returns,
    /// and not in a buffer of the device's.
    fn write(&mut self, bytes: &[u8]) -> Result<usize, DeviceFault>
        ensures count { IfOk result (λ n. n ≤ length bytes.now) }
        ensures moved { IfOk result (λ n. Appends (contents self.old) (contents self.new) (take n bytes.now)) }
        ensures some { IfOk result (λ n. 0 < length bytes.now → 0 < n) }
        ensures ok { OnOk result (faults self.new ≡ faults self.old) }

        ensures kept { OnErr result (Keeps (contents self.old) (contents self.new)) }
        ensures failed { OnErr result (faults self.new ≡ faults self.old + 1) };
}

/// Writes the bytes, all of them, by one write where the sink takes them at once. A write that failed isn't tried again.
pub fn write_all<W: ByteSink>(sink: &mut W, bytes: &[u8]) -> Result<(), DeviceFault>
    ensures written { OnOk result (Appends (W.contents sink.old) (W.contents sink.new) bytes.now) }
    ensures ok { OnOk result (W.faults sink.new ≡ W.faults sink.old) }

    // A proper front of the bytes is written.
    ensures front { OnErr result ((n : ℕ) × (n < length bytes.now) × Appends (W.contents sink.old) (W.contents sink.new) (take n bytes.now)) }
    ensures failed { OnErr result (W.faults sink.new ≡ W.faults sink.old + 1) }
{
    let mut done = 0;
    while done < bytes.len() {
        done += sink.write(&bytes[done..])?;
    }
    Ok(())
}
