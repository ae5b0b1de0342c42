//! The clock of a log, which may be set back.

/// The offset that is added to the times of a log, in ms, and the offset before the last step of the clock.
#[derive(Clone, Copy)]
pub struct Clock {
    pub offset: u64,
    pub before: u64,
}

impl Clock {
    ghost use Rattle.std.specs.Prelude.{◌≡◌, ◌+◌};
    ghost use Rattle.explain_lines.specs.Counted.{counted};
    ghost use Rattle.explain_session.specs.Clock.{clock_at, steady, stepped as after_step};

    /// Creates the clock of a log without a step.
    pub fn new() -> Clock
        ensures { result ≡ steady }
    {
        Clock {
            offset: 0,
            before: 0,
        }
    }

    /// Returns the clock at an entry with this time, after an entry whose time was audited as `last`.
    pub fn at(self, last: u64, time: u64) -> Clock
        ensures { result ≡ clock_at last self time }
    {
        if time.saturating_add(self.before) < last {
            return self;
        }
        Clock {
            offset: self.before,
            before: self.before,
        }
    }

    /// Returns the time as it is audited.
    pub fn audited(self, time: u64) -> u64
        ensures value { result ≡ counted (time + self.offset) }
        ensures kept { self.offset ≡ 0 → result ≡ time }
    {
        time.saturating_add(self.offset)
    }

    /// Returns the clock after an entry with this time, after an entry whose time was audited as `last`.
    pub fn stepped(self, t3: u32, last: u64, time: u64) -> Clock
        ensures { result ≡ after_step t3 last self time }
    {
        if self.audited(time).saturating_add(u64::from(t3)) >= last {
            return self;
        }
        Clock {
            offset: last.saturating_sub(time),
            before: self.offset,
        }
    }
}
