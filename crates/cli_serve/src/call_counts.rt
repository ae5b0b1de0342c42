//! The counts of a link's calls.

ghost use Rattle.std.specs.Prelude.{Err, []};
ghost use Rattle.hsms_ends.specs.Link.{IsGot, Waits};
ghost use Rattle.cli_serve.specs.CallCounts.{recorded_of};

use hsms_ends::{Got, LinkFault};

/// The number of waits that returned, the number of them that returned `Closed`, whether the last one did, and the
/// number of failures of the link. The counts saturate.
#[derive(Clone, Copy, Default)]
pub struct Counters {
    pub waits: u64,
    pub closes: u64,
    pub is_closed: bool,
    pub failures: u64,
}

impl Counters {
    /// Counts a wait that returns.
    pub fn reception(&mut self, got: Got, into: &[u8]) -> Result<Got, LinkFault>
        requires { IsGot into.now got }
        ensures { Waits (recorded_of self.old) (recorded_of self.new) into.now result }
    {
        self.waits = self.waits.saturating_add(1);
        self.is_closed = matches!(got, Got::Closed);
        if self.is_closed {
            self.closes = self.closes.saturating_add(1);
        }
        Ok(got)
    }

    /// Counts a wait that fails. A failed send counts as a failed wait.
    pub fn failed(&mut self) -> LinkFault
        ensures { Waits (recorded_of self.old) (recorded_of self.new) [] (Err result) }
    {
        self.failures = self.failures.saturating_add(1);
        LinkFault
    }
}
