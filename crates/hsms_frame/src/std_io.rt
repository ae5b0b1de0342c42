//! Readers and writers of std as sources and sinks. Each counts its calls. Every error of std is a failure at once,
//! without a retry.

ghost use Rattle.std.specs.Prelude.{◌≡◌};

use crate::call_counts::Tally;
use crate::io::{Failed, Sink, Source};
use std::io::{Read, Write};

/// A reader of std as a [`Source`].
#[derive(Drop)]
pub struct Reader<R> {
    inner: R,
    tally: Tally,
}

impl<R: Read> Reader<R> {
    /// Creates a source of the bytes that the reader has left.
    pub fn new(inner: R) -> Reader<R>
        ensures { ⟦<Reader<R> as Source>⟧.state result
            ≡ record { left = R.remaining inner; pulls = 0; empty_pulls = 0; ends = 0; failures = 0 } }
    {
        Reader {
            inner,
            tally: Tally::default(),
        }
    }
}

impl<R: Read> Source for Reader<R> {
    ghost state = { λ s. record {
      left = R.remaining s.inner;
      pulls = s.tally.calls;
      empty_pulls = s.tally.empty;
      ends = s.tally.ends;
      failures = s.tally.failures;
    } };

    fn pull(&mut self, into: &mut [u8]) -> Result<usize, Failed> {
        self.tally.count(into.is_empty());
        let Ok(count) = self.inner.read(into) else {
            return Err(self.tally.fail());
        };
        self.tally.end(into.len(), count);
        Ok(count)
    }
}

/// A writer of std as a [`Sink`]. A write that takes nothing from a nonempty slice is a failure.
#[derive(Drop)]
pub struct Writer<W> {
    inner: W,
    tally: Tally,
}

impl<W: Write> Writer<W> {
    ghost use Rattle.hsms_frame.specs.CallCounts.{count_failure};
    ghost use Rattle.hsms_frame.specs.Io.{Stays};

    /// Creates a sink that appends to the writer's output.
    pub fn new(inner: W) -> Writer<W>
        ensures { ⟦<Writer<W> as Sink>⟧.state result ≡ record { written = W.contents inner; gives = 0; failures = 0 } }
    {
        Writer {
            inner,
            tally: Tally::default(),
        }
    }

    /// Flushes the writer, if it buffers output. To contracts, this writes nothing more.
    pub fn flush(&mut self) -> Result<(), Failed>
        ensures octets { Stays (⟦<Writer<W> as Sink>⟧.state self.old).written
            (⟦<Writer<W> as Sink>⟧.state self.new).written }
        ensures gives { (⟦<Writer<W> as Sink>⟧.state self.new).gives ≡ (⟦<Writer<W> as Sink>⟧.state self.old).gives }
        ensures failures { (⟦<Writer<W> as Sink>⟧.state self.new).failures
            ≡ count_failure result (⟦<Writer<W> as Sink>⟧.state self.old).failures }
    {
        match self.inner.flush() {
            Ok(()) => Ok(()),
            Err(_) => Err(self.tally.fail()),
        }
    }
}

impl<W: Write> Sink for Writer<W> {
    ghost state = { λ s. record { written = W.contents s.inner; gives = s.tally.calls; failures = s.tally.failures } };

    fn give(&mut self, from: &[u8]) -> Result<usize, Failed> {
        self.tally.count(from.is_empty());
        match self.inner.write(from) {
            Ok(count) if count > 0 || from.is_empty() => Ok(count),
            _ => Err(self.tally.fail()),
        }
    }
}
