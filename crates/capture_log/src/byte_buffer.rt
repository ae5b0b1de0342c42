//! Text in memory, as what octets are written to.

ghost use Rattle.std.specs.Prelude.{◌≡◌, [], ◌++◌, OnErr, OnOk, take};
ghost use Rattle.capture_log.specs.ByteBuffer.{sink_of, Kept};

use hsms_frame::{Failed, Sink};
use std::alloc::{AllocError, Global};
use std::marker::Model;

/// Octets in memory. A write takes all octets of a slice, or fails where memory is refused.
#[derive(Drop)]
pub struct Text {
    octets: Vec<u8>,
    calls: u64,
    failures: u64,
}

impl Model for Text {
    ghost Value = { Kept };

    ghost view = { λ t. record { octets = t.octets.items; calls = t.calls; failures = t.failures } };
}

impl Text {
    /// No octets.
    pub fn new(alloc: Global) -> Text
        ensures { result.octets ≡ [] }
    {
        Text {
            octets: Vec::new(alloc),
            calls: 0,
            failures: 0,
        }
    }

    /// The octets.
    pub fn octets(&self) -> &[u8]
        ensures { result.now ≡ self.now.octets }
    {
        self.octets.as_slice()
    }

    /// Lays octets behind those that are there.
    pub fn append_chunk(&mut self, octets: &[u8]) -> Result<(), AllocError>
        ensures appended_text { OnOk result (self.new.octets ≡ self.old.octets ++ octets.now) }
        ensures kept { OnErr result (self.new.octets ≡ self.old.octets) }
    {
        self.octets.extend_from_slice(octets)?;
        Ok(())
    }

    /// Lets all octets go but so many at the front.
    pub fn cut(&mut self, length: usize)
        ensures { self.new.octets ≡ take length self.old.octets }
    {
        self.octets.truncate(length);
    }

    /// Lets all octets go.
    pub fn clear(&mut self)
        ensures { self.new.octets ≡ [] }
    {
        self.octets.clear();
    }
}

impl Sink for Text {
    ghost state = { sink_of };

    fn give(&mut self, from: &[u8]) -> Result<usize, Failed> {
        self.calls = self.calls.saturating_add(1);
        match self.octets.extend_from_slice(from) {
            Ok(()) => Ok(from.len()),
            Err(_) => {
                self.failures = self.failures.saturating_add(1);
                Err(Failed)
            }
        }
    }
}
