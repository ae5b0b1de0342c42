//! Counts of the messages passed to a handler.

ghost use Rattle.std.specs.Prelude.{◌≡◌};
ghost use Rattle.hsms_endpoint.specs.PrimaryCounts.{name_of};

use indexmap::IndexMap;
use std::alloc::{AllocError, Global};
use std::marker::Model;

/// The number of messages of each stream and function that were passed to the handler.
pub struct Asked {
    counts: IndexMap<u16, u64>,
}

impl Model for Asked {
    ghost use Rattle.std.specs.Prelude.{ℕ, List};

    ghost Value = { List (ℕ × ℕ) };

    ghost view = { λ asked. asked.counts.entries };
}

// Written out so that a proof over a dropped endpoint has one step for the map, not one for each of its parts.
impl Drop for Asked {
    fn drop(self) {
        let Asked { counts } = self;
        drop(counts);
    }
}

impl Asked {
    ghost use Rattle.std.specs.Prelude.{◌≡◌, [], OnOk};
    ghost use Rattle.hsms_endpoint.specs.PrimaryCounts.{name_of, times, once_more};

    /// Creates empty counts.
    pub fn new(alloc: Global) -> Self
        ensures { result ≡ [] }
    {
        Asked {
            counts: IndexMap::new(alloc),
        }
    }

    /// Returns the number of messages of this stream and function.
    pub fn times(&self, stream: u8, function: u8) -> u64
        ensures { result ≡ times (name_of stream function) self.now }
    {
        self.counts
            .get(&name(stream, function))
            .copied()
            .unwrap_or(0)
    }

    /// Counts one more message of this stream and function.
    pub fn count(&mut self, stream: u8, function: u8) -> Result<(), AllocError>
        ensures { OnOk result (self.new ≡ once_more (name_of stream function) self.old) }
    {
        let times = self.times(stream, function).saturating_add(1);
        self.counts.insert(name(stream, function), times)?;
        Ok(())
    }
}

/// Returns a stream and a function as one number.
fn name(stream: u8, function: u8) -> u16
    ensures { result ≡ name_of stream function }
{
    u16::from(stream) * 256 + u16::from(function)
}
