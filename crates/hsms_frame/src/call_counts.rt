//! Counts of the calls of a reader or writer. A count stays at its maximum.

ghost use Rattle.std.specs.Prelude.{◌≡◌, Ok, if◌then◌else◌};
ghost use Rattle.hsms_frame.specs.CallCounts.{next_count};
ghost use Rattle.hsms_frame.specs.Io.{ends_after};

use crate::io::Failed;

/// The numbers of calls, of calls with an empty slice, of times the end was found, and of failures.
#[derive(Clone, Copy, Default)]
pub struct Tally {
    pub calls: u64,
    pub empty: u64,
    pub ends: u64,
    pub failures: u64,
}

impl Tally {
    /// Counts a call.
    pub fn count(&mut self, is_empty: bool)
        ensures calls { self.new.calls ≡ next_count self.old.calls }
        ensures empty { self.new.empty ≡ (if is_empty then next_count self.old.empty else self.old.empty) }
        ensures ends { self.new.ends ≡ self.old.ends }
        ensures failures { self.new.failures ≡ self.old.failures }
    {
        self.calls = self.calls.saturating_add(1);
        if is_empty {
            self.empty = self.empty.saturating_add(1);
        }
    }

    /// Counts an end of the input if `count`, the result of a read into `room` bytes, is 0 and `room` is not 0.
    pub fn end(&mut self, room: usize, count: usize)
        ensures { self.new ≡ record self.old { ends = ends_after room (Ok count) self.old.ends } }
    {
        if count == 0 && room > 0 {
            self.ends = self.ends.saturating_add(1);
        }
    }

    /// Counts a failure, and returns it.
    pub fn fail(&mut self) -> Failed
        ensures { self.new ≡ record self.old { failures = next_count self.old.failures } }
    {
        self.failures = self.failures.saturating_add(1);
        Failed
    }
}
