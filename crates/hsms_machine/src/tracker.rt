//! The tracker of a session, which checks it entry by entry.

use crate::entry::{Entry, EntryRef};
use crate::open_transactions::{Transactions, earlier};
use crate::phase::Phase;
use crate::repair::RepairAction;
use crate::rule::Rule;
use crate::settings::Settings;
use crate::view::View;
use hsms_frame::Header;
use std::alloc::{AllocError, Global};
use std::marker::Model;

/// The tracker of a session, which decides which entries are valid (SEMI E37, E37.1). It keeps what the rules need to
/// know of the entries so far: the settings, the phase, the times of the last `up` and of the last entry, and the open
/// transactions with their times and headers. It stores no log; some valid log has led to it. In a log of several
/// connections (`Settings::several`) the open transactions and the phase are those of the connection since the last
/// `up`.
#[derive(Debug)]
pub struct Tracker {
    view: View,
}

// Written out so that a proof has one step for a dropped value, not one for each of its parts.
impl Drop for Tracker {
    fn drop(self) {
        let Tracker { view } = self;
        drop(view);
    }
}

impl Model for Tracker {
    ghost use Rattle.hsms_machine.specs.declared.view.View.{View};
    ghost use Rattle.hsms_machine.specs.View.{HasRun};
    ghost use Rattle.hsms_machine.specs.ViewRules.{IsUntil};

    ghost Value = { View };

    ghost view = { λ tracker. tracker.view };

    ghost invariant = { λ tracker. ∥ HasRun tracker.view ∥₁ × IsUntil tracker.view.last_time tracker.view };
}

impl Tracker {
    ghost use Rattle.std.specs.Prelude.{◌≡◌, [], Some, None, IsTrue, IfOk, OnErr};
    ghost use Rattle.hsms_machine.specs.declared.rule.Rule.{Rule};
    ghost use Rattle.hsms_machine.specs.Transaction.{opens};
    ghost use Rattle.hsms_machine.specs.View.{HasView, IsBrokenAfter, LeadsTo, IfValid, waiting_of, own_open_of, next_due_of, in_use_of, oldest_of};
    ghost use Rattle.hsms_machine.specs.ViewRules.{IsBrokenAt, IsInOrder, view_after};
    ghost use Rattle.hsms_machine.specs.Repair.{repair_of};

    /// Creates the tracker of a session without an entry.
    pub fn new(alloc: Global, settings: Settings) -> Tracker
        ensures { HasView settings [] result }
    {
        Tracker {
            view: View::new(alloc, settings),
        }
    }

    /// Returns the time of the last entry, in milliseconds, or 0 if there is none. Allocates no memory.
    pub fn last_time(&self) -> u64
        ensures { result ≡ self.now.last_time }
    {
        self.view.last_time
    }

    /// Returns the first rule that the entry would break as the next one. Returns `None` if it is valid. Allocates no
    /// memory.
    pub fn check(&self, entry: &Entry) -> Option<Rule>
        ensures answer { IsBrokenAfter self.now entry.now result }
        ensures named_rule { IsBrokenAt self.now entry.now result }
    {
        self.check_ref(&entry.as_ref())
    }

    /// Does the same as `check`, for an entry whose text is stored elsewhere.
    pub fn check_ref(&self, entry: &EntryRef<'_>) -> Option<Rule>
        ensures answer { IsBrokenAfter self.now entry.now result }
        ensures named_rule { IsBrokenAt self.now entry.now result }
    {
        let (time, act, text) = entry.parts();
        self.view.first_broken(time, act, text)
    }

    /// Checks the entry as the next one. Returns the first rule that it breaks. Returns `None` if it is valid, and then
    /// adds it. A broken rule leaves the tracker unchanged, and so does a failed allocation. An allocation error is
    /// returned only for a valid entry that opens a transaction.
    pub fn step(&mut self, entry: &Entry) -> Result<Option<Rule>, AllocError>
        ensures answer { IfOk result (λ answer. IsBrokenAfter self.old entry.now answer) }
        ensures named_rule { IfOk result (λ answer. IsBrokenAt self.old entry.now answer) }
        ensures is_valid { IfValid result (LeadsTo self.old entry.now self.new) }
        ensures next { IfValid result (self.new ≡ view_after self.old entry.now) }
        ensures broken { IfOk result (λ answer. (rule : Rule) → answer ≡ Some rule → self.new ≡ self.old) }
        ensures err { OnErr result (self.new ≡ self.old) }
        ensures err_valid { OnErr result (IsBrokenAfter self.old entry.now None) }
        ensures err_opens { OnErr result (IsTrue (opens entry.now.event)) }
    {
        self.step_ref(&entry.as_ref())
    }

    /// Does the same as `step`, for an entry whose text is stored elsewhere.
    #[inline(always)]
    pub fn step_ref(&mut self, entry: &EntryRef<'_>) -> Result<Option<Rule>, AllocError>
        ensures answer { IfOk result (λ answer. IsBrokenAfter self.old entry.now answer) }
        ensures named_rule { IfOk result (λ answer. IsBrokenAt self.old entry.now answer) }
        ensures is_valid { IfValid result (LeadsTo self.old entry.now self.new) }
        ensures next { IfValid result (self.new ≡ view_after self.old entry.now) }
        ensures broken { IfOk result (λ answer. (rule : Rule) → answer ≡ Some rule → self.new ≡ self.old) }
        ensures err { OnErr result (self.new ≡ self.old) }
        ensures err_valid { OnErr result (IsBrokenAfter self.old entry.now None) }
        ensures err_opens { OnErr result (IsTrue (opens entry.now.event)) }
    {
        let (time, act, text) = entry.parts();
        let broken = self.view.first_broken(time, act, text);
        if broken.is_none() {
            self.view.take_in(time, act)?;
        }
        Ok(broken)
    }

    /// Returns how the log is repaired if an entry, as the next one, breaks this rule first. Allocates no memory.
    pub fn repair_action(&self, rule: Rule, entry: &EntryRef<'_>) -> RepairAction
        ensures { result ≡ repair_of self.now entry.now rule }
    {
        let (time, act, _) = entry.parts();
        self.view.repair_action(rule, time, act)
    }

    /// Returns the phase of the session.
    pub fn phase(&self) -> Phase
        ensures { result ≡ self.now.phase }
    {
        self.view.phase
    }

    /// Returns how many sent primaries with the W bit are open, in any phase.
    pub fn waiting(&self) -> usize
        ensures { result ≡ waiting_of self.now }
    {
        self.view.sent_data.len()
    }

    /// Returns how many sent transactions are open: primaries with the W bit, Select.req and Linktest.req.
    pub fn own_open(&self) -> usize
        ensures { result ≡ own_open_of self.now }
    {
        self.view.sent_control.len() + self.view.sent_data.len()
    }

    /// Returns the earliest time, in the milliseconds of the entries, at which a timer expires in the phases
    /// `NotSelected` and `Selected`. The timers are T3 of an open sent primary, T6 of an open sent Select.req or
    /// Linktest.req, and T7 if the session is not selected. Times above 18,446,744,073,709,551,615 are omitted.
    pub fn next_due(&self) -> Option<u64>
        ensures { result ≡ next_due_of self.now }
    {
        let view = &self.view;
        let data = view.sent_data.first_due(view.settings.t3());
        let control = view.sent_control.first_due(view.settings.t6());
        let requests = earlier(data, control);
        let selection = Transactions::due_at(view.up_time, view.settings.t7());
        match view.phase {
            Phase::NotSelected => earlier(requests, selection),
            Phase::Selected => requests,
            Phase::Before | Phase::Over | Phase::Gone => None,
        }
    }

    /// Returns whether an open sent transaction, of data or of control, has these system bytes. Allocates no memory.
    pub fn in_use(&self, system: u32) -> bool
        ensures { result ≡ in_use_of self.now system }
    {
        self.view.sent_data.is_in_use(system) || self.view.sent_control.is_in_use(system)
    }

    /// Returns the time and the header of the first opened among the open sent primaries with the W bit. Returns `None`
    /// if none is open. Allocates no memory.
    pub fn oldest_data(&self) -> Option<(u64, Header)>
        ensures { result ≡ oldest_of self.now.sent_data }
    {
        let opened = self.view.sent_data.first()?;
        Some((opened.time, opened.header))
    }

    /// Returns the time and the header of the first opened among the open sent Select.req and Linktest.req. Returns
    /// `None` if none is open. Allocates no memory.
    pub fn oldest_control(&self) -> Option<(u64, Header)>
        ensures { result ≡ oldest_of self.now.sent_control }
    {
        let opened = self.view.sent_control.first()?;
        Some((opened.time, opened.header))
    }

    /// Proves that the open transactions are in order. In each of the four lists of the view no time decreases, and
    /// none is later than that of the last entry. No two transactions have the same system bytes. Called for this fact
    /// only; it does nothing.
    pub fn keeps_order(&self)
        ensures { IsInOrder self.now }
    {
        self.view.sent_data.keeps_order();
        self.view.sent_control.keeps_order();
        self.view.taken_data.keeps_order();
        self.view.taken_control.keeps_order();
    }
}
