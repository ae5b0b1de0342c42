//! Expiry of timers, the entries logged for it, and the time of the next link test.

ghost use Rattle.std.specs.Prelude.{◌≡◌, true, false, OnOk, IfOk};
ghost use Rattle.hsms_machine.specs.declared.entry.Event.TheVariants.{Down};
ghost use Rattle.hsms_machine.specs.ViewRules.{IsBrokenAt};
ghost use Rattle.hsms_endpoint.specs.Turn.{is_up as is_connection_up, is_t8_overdue, overdue_cause, expiries};
ghost use Rattle.hsms_endpoint.specs.Invariant.{IsSound};
ghost use Rattle.hsms_endpoint.specs.InnerInvariant.{Completes};
ghost use Rattle.hsms_endpoint.specs.InnerExpiring.{IsLate, HasExpired, MayWarn, is_data_overdue, overdue_of, warnings_of};
ghost use Rattle.hsms_endpoint.specs.InnerInternals.{known, at_later};
ghost use Rattle.hsms_endpoint.specs.NextDue.{octets_due, next_due, test_due};

use crate::state::State;
use hsms_frame::Header;
use hsms_machine::{Cause, Entry, Event, Rule, earlier};
use std::alloc::AllocError;

impl State {
    /// Returns the earliest time at which a timer expires while the connection is up. Times past
    /// 18,446,744,073,709,551,615 are skipped.
    pub fn next_due(&self) -> Option<u64>
        ensures { result ≡ next_due (known self.now) }
    {
        earlier(self.tracker.next_due(), self.octets_due())
    }

    /// Returns the time from which the link is to be tested: after `pause` milliseconds in which nothing was received
    /// or logged. Returns `None` if it cannot be tested, or if that time is past 18,446,744,073,709,551,615.
    pub fn test_due(&self, pause: u64) -> Option<u64>
        ensures { result ≡ test_due pause (known self.now) }
    {
        let open = self.tracker.own_open();
        if self.is_selected() && open == self.tracker.waiting() && open < 64 {
            self.reception
                .max(self.tracker.last_time())
                .checked_add(pause)
        } else {
            None
        }
    }

    /// Returns the time at which pending bytes have waited for T8.
    fn octets_due(&self) -> Option<u64>
        ensures { result ≡ octets_due (known self.now) }
    {
        if self.is_up() && !self.framer.pending().is_empty() {
            self.reception.checked_add(u64::from(self.settings.t8()))
        } else {
            None
        }
    }

    /// Logs the expiry of each overdue own primary, in order of opening. Returns their headers.
    pub fn expire_data(&mut self, entries: &mut Vec<Entry>) -> Result<Vec<Header>, AllocError>
        requires { IsLate self.old }
        ensures expired { IfOk result (λ headers. HasExpired self.old entries.old.items self.new entries.new.items headers.items) }
        ensures in_time { OnOk result (is_data_overdue self.new ≡ false) }
    {
        let mut expired = Vec::new(self.alloc);
        'oldest: while let Some(header) = self.overdue(
            self.tracker.oldest_data(),
            self.settings.t3(),
        ) {
            expired.push(header)?;
            self.log(entries, Event::T3(header.system))?;
        }
        Ok(expired)
    }

    /// Returns the first rule that a `down` would break at the endpoint's current time.
    fn check_down_event(&self) -> Option<Rule>
        ensures { IsBrokenAt self.now.tracker (record { time = self.now.moment; event = Down }) result }
    {
        let down = Entry {
            time: self.moment,
            event: Event::Down,
        };
        self.tracker.check(&down)
    }

    /// Returns the cause for which the connection is to be cut, if no own primary is overdue.
    fn overdue_cause(&self) -> Option<Cause>
        requires late { IsLate self.now }
        requires in_time { is_data_overdue self.now ≡ false }
        ensures { result ≡ overdue_cause (known self.now) }
    {
        if self
            .overdue(self.tracker.oldest_control(), self.settings.t6())
            .is_some()
        {
            Some(Cause::T6)
        } else if self.check_down_event().is_some() {
            // T7 is overdue: nothing else could keep the tracker from accepting a `down` without a cut.
            Some(Cause::T7)
        } else if self.is_t8_overdue() {
            Some(Cause::T8)
        } else {
            None
        }
    }

    fn is_t8_overdue(&self) -> bool
        ensures { result ≡ is_t8_overdue (known self.now) }
    {
        !self.framer.pending().is_empty()
            && u64::from(self.settings.t8()) < self.moment.saturating_sub(self.reception)
    }

    /// Advances the endpoint's time to `now`, unless it is already later, and logs what is overdue: own primaries,
    /// then a cut. Without a cut, equipment then sends its warnings.
    pub fn tick(&mut self, entries: &mut Vec<Entry>, now: u64) -> Result<(), AllocError>
        requires sound { IsSound self.old }
        requires up { is_connection_up self.old.tracker.phase ≡ true }
        ensures { OnOk result (Completes (at_later self.old now) entries.old.items (expiries (known (at_later self.old now))) self.new entries.new.items) }
    {
        self.tracker.keeps_order();
        self.moment = self.moment.max(now);
        let expired = self.expire_data(entries)?;
        match self.overdue_cause() {
            Some(cause) => self.cut(entries, cause),
            None => self.warn_expired(entries, &expired),
        }
    }

    /// Reports each expired primary if the endpoint is equipment.
    fn warn_expired(
        &mut self,
        entries: &mut Vec<Entry>,
        expired: &[Header],
    ) -> Result<(), AllocError>
        requires sound { IsSound self.old }
        requires selected { MayWarn self.old.tracker.phase expired.now }
        ensures { OnOk result (Completes self.old entries.old.items (warnings_of self.old.settings expired.now) self.new entries.new.items) }
    {
        for header in expired {
            self.warn(entries, 9, *header)?;
        }
        Ok(())
    }

    /// Returns the header of a transaction that was opened longer ago than the limit.
    fn overdue(&self, oldest: Option<(u64, Header)>, limit: u32) -> Option<Header>
        ensures { result ≡ overdue_of limit self.now.moment oldest }
    {
        let (time, header) = oldest?;
        (u64::from(limit) < self.moment.saturating_sub(time)).then_some(header)
    }
}
