//! The repair of a log after an entry that breaks a rule.

use crate::entry::{Act, Cause};
use crate::phase::Phase;
use crate::rule::Rule;
use crate::view::View;

/// The repair of a log after an entry that breaks a rule: what replaces the entry, or is inserted before it. Times are
/// in ms.
#[derive(Clone, Copy, Debug, PartialEq, Eq)]
pub enum RepairAction {
    /// The entry gets this time.
    Raise(u64),
    /// The accepted frame of the entry becomes discarded.
    Discard,
    /// At this time T3 expired for the sent primary with these system bytes. Then the entry follows.
    ExpireFirst(u64, u32),
    /// At this time the connection was cut. Then the entry follows.
    CutFirst(u64, Cause),
    /// At this time the connection was closed. Then the entry follows.
    DownFirst(u64),
    /// The entry is omitted.
    LeaveOut,
}

impl View {
    ghost use Rattle.std.specs.Prelude.{◌≡◌, []};
    ghost use Rattle.hsms_machine.specs.EventParts.{event_of, entry_of};
    ghost use Rattle.hsms_machine.specs.OpeningOrder.{first_of};
    ghost use Rattle.hsms_machine.specs.Repair.{repair_of, discarded, missing_down, expired, cut, expiry_of};

    /// Returns the repair for the rule that the entry broke first.
    pub fn repair_action(&self, rule: Rule, time: u64, act: &Act) -> RepairAction
        ensures { result ≡ repair_of self.now (entry_of time act.now []) rule }
    {
        match rule {
            Rule::Backwards => RepairAction::Raise(self.last_time),
            Rule::NotUp => self.down_first(time, act),
            Rule::T3Overdue => self.expire_first(time),
            Rule::LinkOverdue => self.cut_first(time),
            Rule::NotDue | Rule::NoCause => RepairAction::LeaveOut,
            _ => Self::discard(act),
        }
    }

    fn discard(act: &Act) -> RepairAction
        ensures { result ≡ discarded (event_of act.now []) }
    {
        match act {
            Act::Taken(_) => RepairAction::Discard,
            _ => RepairAction::LeaveOut,
        }
    }

    fn down_first(&self, time: u64, act: &Act) -> RepairAction
        ensures { result ≡ missing_down self.now time (event_of act.now []) }
    {
        let connected = !matches!(self.phase, Phase::Before | Phase::Gone);
        if matches!(act, Act::Up) && self.settings.version() == 2 && connected {
            RepairAction::DownFirst(time)
        } else {
            RepairAction::LeaveOut
        }
    }

    fn expire_first(&self, time: u64) -> RepairAction
        ensures { result ≡ expired self.now time (first_of self.now.sent_data) }
    {
        match self.sent_data.first() {
            Some(opened) => {
                let expiry = self.expiry(time, opened.time, self.settings.t3());
                RepairAction::ExpireFirst(expiry, opened.header.system)
            }
            None => RepairAction::LeaveOut,
        }
    }

    fn cut_first(&self, time: u64) -> RepairAction
        ensures { result ≡ cut self.now time (first_of self.now.sent_control) }
    {
        let limit = self.settings.t6();
        match self.sent_control.first() {
            Some(opened) if u64::from(limit) < time.saturating_sub(opened.time) => {
                RepairAction::CutFirst(self.expiry(time, opened.time, limit), Cause::T6)
            }
            _ => {
                let expiry = self.expiry(time, self.up_time, self.settings.t7());
                RepairAction::CutFirst(expiry, Cause::T7)
            }
        }
    }

    /// Returns when the limit had passed since a time: no later than `now`, and no earlier than the last entry.
    fn expiry(&self, now: u64, since: u64, limit: u32) -> u64
        ensures { result ≡ expiry_of self.now now since limit }
    {
        let passed = since.saturating_add(u64::from(limit));
        passed.min(now).max(self.last_time)
    }
}
