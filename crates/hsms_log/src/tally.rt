//! Counts of the lines and entries of a log, as they are read.

use crate::verdict::Summary;
use hsms_machine::{Entry, Event, Mark};
use std::marker::Model;

/// The number of lines and of entries.
#[derive(Default, Drop)]
pub struct Tally {
    lines: u64,
    counts: Summary,
}

impl Model for Tally {
    ghost use Rattle.hsms_log.specs.Counters.{Counters};
    ghost use Rattle.hsms_log.specs.InnerCounters.{IsBounded};

    ghost Value = { Counters };

    ghost view = { λ t. record { lines = t.lines; entries = t.counts.entries; sent = t.counts.sent; taken = t.counts.taken; discarded = t.counts.discarded; expired = t.counts.expired } };

    ghost invariant = { λ t. IsBounded (record { lines = t.lines; entries = t.counts.entries; sent = t.counts.sent; taken = t.counts.taken; discarded = t.counts.discarded; expired = t.counts.expired }) };
}

impl Tally {
    ghost use Rattle.std.specs.Prelude.{◌≡◌, ◌+◌, ◌-◌, ◌<◌, ◌^◌, ℕ, List};
    ghost use Rattle.hsms_frame.specs.declared.header.Header.{Header};
    ghost use Rattle.hsms_machine.specs.Entry.{frame_entry};
    ghost use Rattle.hsms_log.specs.InnerAuditState.{counted};

    /// Counts a line without an entry.
    pub fn count_line(&mut self)
        requires { self.old.lines < 2 ^ 64 - 1 }
        ensures { self.new ≡ record self.old { lines = self.old.lines + 1 } }
    {
        self.lines += 1;
    }

    /// Counts a line with an entry.
    pub fn count_entry(&mut self, entry: &Entry)
        requires { self.old.lines < 2 ^ 64 - 1 }
        ensures { self.new ≡ counted self.old entry.now }
    {
        self.lines += 1;
        self.counts.entries += 1;
        match &entry.event {
            Event::Sent(_) => self.counts.sent += 1,
            Event::Taken(_) => self.counts.taken += 1,
            Event::Discarded(_) => self.counts.discarded += 1,
            Event::T3(_) => self.counts.expired += 1,
            _ => {}
        }
    }

    /// Counts a line with a frame with this mark.
    pub fn count_frame(&mut self, mark: Mark)
        requires { self.old.lines < 2 ^ 64 - 1 }
        ensures { (time : ℕ) (header : Header) (text : List ℕ) → self.new ≡ counted self.old (frame_entry time mark header text) }
    {
        self.lines += 1;
        self.counts.entries += 1;
        match mark {
            Mark::Sent => self.counts.sent += 1,
            Mark::Taken => self.counts.taken += 1,
            Mark::Discarded => self.counts.discarded += 1,
        }
    }

    /// Returns the number of lines.
    pub fn lines(&self) -> u64
        ensures { result ≡ self.now.lines }
    {
        self.lines
    }

    /// Returns the summary of the entries.
    pub fn summary(&self, waiting: u64) -> Summary
        ensures { result ≡ record { entries = self.now.entries; sent = self.now.sent; taken = self.now.taken; discarded = self.now.discarded; expired = self.now.expired; waiting = waiting } }
    {
        Summary {
            waiting,
            ..self.counts
        }
    }
}
