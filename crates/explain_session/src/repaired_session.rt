//! A session as repaired.

use hsms_frame::Header;
use hsms_machine::{EntryRef, Places, RepairAction, Rule, Settings, Tracker};
use std::alloc::{AllocError, Global};
use std::marker::Model;

/// The opening of a transaction: the number of its line, and its time in ms.
#[derive(Clone, Copy)]
pub struct Opening {
    pub line: u64,
    pub time: u64,
}

/// A rule that an entry breaks, the line of the open transaction involved, and the repair with which the log continues.
#[derive(Clone, Copy)]
pub struct Failure {
    pub rule: Rule,
    pub concerns: Option<u64>,
    pub repair_action: RepairAction,
}

/// The result of the check of an entry: it is accepted, and closes the transaction with this opening; or it breaks a
/// rule.
#[derive(Clone, Copy)]
pub enum Checked {
    Lawful(Option<Opening>),
    Broken(Failure),
}

/// The state of the check of a log that continues after each failure: a tracker, and the lines and times at which the
/// open transactions were opened. It receives the entries of a line, and then a call for the next line.
pub struct RepairedSession {
    tracker: Tracker,
    lines: Places,
    times: Places,
    line: u64,
}

// Written out so that a proof has one step for a dropped value, not one for each field.
impl Drop for RepairedSession {
    fn drop(self) {
        let RepairedSession {
            tracker,
            lines,
            times,
            line: _,
        } = self;
        drop(tracker);
        drop(lines);
        drop(times);
    }
}

impl Model for RepairedSession {
    ghost use Rattle.std.specs.Prelude.{◌≤◌};
    ghost use Rattle.explain_session.specs.RepairedSession.{CurrentState};

    ghost Value = { CurrentState };

    ghost view = { λ c. record { tracker = c.tracker; lines = c.lines; times = c.times; line = c.line } };

    ghost invariant = { λ c. (c.lines.last_time ≤ c.line) × (c.times.last_time ≤ c.tracker.last_time) };
}

impl RepairedSession {
    ghost use Rattle.std.specs.Prelude.{◌≡◌, ◌+◌, ◌-◌, ◌^◌, min, [], Some, None, IfOk, OnOk, IfSome, IfNone, IsSome};
    ghost use Rattle.hsms_machine.specs.declared.entry.Event.{Event};
    ghost use Rattle.hsms_machine.specs.declared.rule.Rule.{Rule};
    ghost use Rattle.hsms_machine.specs.declared.rule.Rule.TheVariants.{SystemInUse, T3Overdue};
    ghost use Rattle.hsms_machine.specs.View.{IsBrokenAfter, IfValid, oldest_of, waiting_of};
    ghost use Rattle.hsms_machine.specs.OpeningLines.{IsNotInUse};
    ghost use Rattle.explain_session.specs.RepairedSession.{HasProgress, ProgressLeadsTo, Closes, Concerns, ChecksAs};

    /// Creates the session after the first line of a log.
    pub fn new(alloc: Global, settings: Settings) -> RepairedSession
        ensures repaired_session { HasProgress settings [] [] result }
        ensures line { result.line ≡ 1 }
    {
        RepairedSession {
            tracker: Tracker::new(alloc, settings),
            lines: Places::new(alloc, settings),
            times: Places::new(alloc, settings),
            line: 1,
        }
    }

    /// Returns the number of the current line, from 1.
    pub fn line(&self) -> u64
        ensures { result ≡ self.now.line }
    {
        self.line
    }

    /// Returns the time of the last entry in the repaired log, in ms, or 0 if there is none.
    pub fn last_time(&self) -> u64
        ensures { result ≡ self.now.tracker.last_time }
    {
        self.tracker.last_time()
    }

    /// Returns the number of sent primaries with the W bit that wait for a reply.
    pub fn waiting(&self) -> usize
        ensures { result ≡ waiting_of self.now.tracker }
    {
        self.tracker.waiting()
    }

    /// Returns the time and the header of the sent primary with the W bit that waits for a reply, the oldest one if
    /// several wait. A failure of `T3Overdue` involves this primary.
    pub fn oldest_data(&self) -> Option<(u64, Header)>
        ensures { result ≡ oldest_of self.now.tracker.sent_data }
    {
        self.tracker.oldest_data()
    }

    /// Returns the time and the header of the sent Select.req or Linktest.req that waits for a response, the oldest one
    /// if several wait.
    pub fn oldest_control(&self) -> Option<(u64, Header)>
        ensures { result ≡ oldest_of self.now.tracker.sent_control }
    {
        self.tracker.oldest_control()
    }

    /// Advances to the next line.
    pub fn next_line(&mut self)
        ensures { self.new ≡ record self.old { line = min (self.old.line + 1) (2 ^ 64 - 1) } }
    {
        self.line = self.line.saturating_add(1);
    }

    /// Checks an entry of the current line. A valid entry is accepted; otherwise nothing changes.
    pub fn judge(&mut self, entry: &EntryRef<'_>) -> Result<Checked, AllocError>
        ensures check_result { IfOk result (ChecksAs self.old entry.now self.new) }
        ensures line { OnOk result (self.new.line ≡ self.old.line) }
    {
        let closed = self.closed_by(entry);
        match self.step(entry)? {
            None => Ok(Checked::Lawful(closed)),
            Some(rule) => Ok(Checked::Broken(Failure {
                rule,
                concerns: self.concerned(rule, entry),
                repair_action: self.tracker.repair_action(rule, entry),
            })),
        }
    }

    /// Returns the opening of the transaction that the entry closes.
    fn closed_by(&self, entry: &EntryRef<'_>) -> Option<Opening>
        ensures { Closes self.now entry.now.event result }
    {
        match (self.lines.closes(entry), self.times.closes(entry)) {
            (Some(line), Some(time)) => Some(Opening { line, time }),
            (None, _) | (Some(_), None) => None,
        }
    }

    /// Returns the line of the open transaction that the failure of an entry involves.
    fn concerned(&self, rule: Rule, entry: &EntryRef<'_>) -> Option<u64>
        ensures { IfSome result (Concerns self.now entry.now.event rule) }
    {
        if rule == Rule::T3Overdue {
            self.lines.oldest_data()
        } else if rule == Rule::SystemInUse {
            self.in_use(entry)
        } else {
            None
        }
    }

    /// Returns the line of the open transaction with the direction and the system bytes of this sent or received frame.
    pub fn in_use(&self, entry: &EntryRef<'_>) -> Option<u64>
        ensures concerns { IfSome result (Concerns self.now entry.now.event SystemInUse) }
        ensures none { IfNone result (IsNotInUse self.now.lines entry.now.event) }
    {
        self.lines.in_use(entry)
    }

    /// Returns the line of the sent primary with the W bit that waits for a reply, if there is exactly one.
    pub fn only_primary(&self) -> Option<u64>
        ensures concerns { IfSome result (λ line. (event : Event) → Concerns self.now event T3Overdue line) }
        ensures alone { IsSome result → waiting_of self.now.tracker ≡ 1 }
    {
        match self.waiting() {
            1 => self.lines.oldest_data(),
            _ => None,
        }
    }

    /// Accepts an entry, or returns the first rule that it breaks.
    fn step(&mut self, entry: &EntryRef<'_>) -> Result<Option<Rule>, AllocError>
        ensures answer { IfOk result (λ answer. IsBrokenAfter self.old.tracker entry.now answer) }
        ensures broken { IfOk result (λ answer. (rule : Rule) → answer ≡ Some rule → self.new ≡ self.old) }
        ensures is_valid { IfValid result (ProgressLeadsTo self.old entry.now self.new) }
        ensures line { OnOk result (self.new.line ≡ self.old.line) }
    {
        let broken = self.tracker.step_ref(entry)?;
        if broken.is_none() {
            self.lines.note(self.line, entry)?;
            self.times.note(self.tracker.last_time(), entry)?;
        }
        Ok(broken)
    }
}
