//! The traits of readers and writers of bytes.

ghost use Rattle.std.specs.Prelude.{◌≡◌, ◌<◌, ◌≤◌, IfOk, OnErr, length, take};
ghost use Rattle.hsms_frame.specs.Io.{SourceState, SinkState, Takes, IsAtEnd, Stays, Grows, CountsPull, CountsGive};

use thiserror::Error;

/// A read or write failed. The cause is not available.
#[derive(Clone, Copy, Debug, PartialEq, Eq, Error)]
#[error("Failed")]
pub struct Failed;

/// A reader of bytes. A call that fails takes no bytes.
pub trait Source {
    /// The state that contracts see: the bytes that are left, if the source records them, and four counts. These are
    /// the numbers of calls, of calls with an empty slice, of times the end was found, and of failures. A count stays
    /// at its maximum.
    ghost state: { Self → SourceState };

    /// Reads bytes to the start of a slice. Returns how many it read: 0 only if the slice is empty, or at the end of
    /// the input.
    fn pull(&mut self, into: &mut [u8]) -> Result<usize, Failed>
        ensures bound { IfOk result (λ n. n ≤ length into.new) }
        ensures octets { IfOk result (λ n. Takes (state self.old).left (state self.new).left n into.new) }
        ensures end { IfOk result (λ n. n ≡ 0 → 0 < length into.new → IsAtEnd (state self.old).left) }
        ensures none_lost { OnErr result (Stays (state self.old).left (state self.new).left) }
        ensures counts { CountsPull (length into.old) result (state self.old) (state self.new) };
}

/// A writer of bytes. A call with a nonempty slice writes at least one byte, or fails and writes none.
pub trait Sink {
    /// The state that contracts see: the bytes that were written, if the sink records them, and the numbers of calls
    /// and of failures. A count stays at its maximum.
    ghost state: { Self → SinkState };

    /// Writes bytes from the start of a slice. Returns how many it wrote.
    fn give(&mut self, from: &[u8]) -> Result<usize, Failed>
        ensures bound { IfOk result (λ n. n ≤ length from.now) }
        ensures some { IfOk result (λ n. 0 < length from.now → 0 < n) }
        ensures octets { IfOk result (λ n. Grows (state self.old).written (state self.new).written (take n from.now)) }
        ensures none_written { OnErr result (Stays (state self.old).written (state self.new).written) }
        ensures counts { CountsGive result (state self.old) (state self.new) };
}
