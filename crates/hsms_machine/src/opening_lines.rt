//! Line numbers of the open transactions. Next to a tracker, they give the line of the input that opened each one.

use crate::direction::Flow;
use crate::entry::{Act, EntryRef};
use crate::message::Message;
use crate::open_transactions::Transactions;
use crate::settings::Settings;
use crate::view::View;
use std::alloc::{AllocError, Global};
use std::marker::Model;

/// The line numbers of the open transactions. They are updated with each valid entry and its line number. For an entry
/// they return the line that opened the transaction which it closes.
#[derive(Debug)]
pub struct Places {
    // the view of the log in which the time of each entry is its line number
    view: View,
}

// Written out so that a proof has one step for a dropped value, not one for each of its parts.
impl Drop for Places {
    fn drop(self) {
        let Places { view } = self;
        drop(view);
    }
}

impl Model for Places {
    ghost use Rattle.hsms_machine.specs.declared.view.View.{View};
    ghost use Rattle.hsms_machine.specs.ViewRules.{IsUntil};

    ghost Value = { View };

    ghost view = { λ places. places.view };

    ghost invariant = { λ places. IsUntil places.view.last_time places.view };
}

impl Places {
    ghost use Rattle.std.specs.Prelude.{◌≡◌, ◌≤◌, ◌==◌, ◌&&◌, ◌||◌, false, [], IsTrue, OnOk, OnErr, IfSome, IfNone};
    ghost use Rattle.std.specs.List.{list_any};
    ghost use Rattle.hsms_machine.specs.Transaction.{concludes as is_conclusion};
    ghost use Rattle.hsms_machine.specs.InnerOpeningOrder.{uses};
    ghost use Rattle.hsms_machine.specs.OpeningLines.{HasPlaces, PlacesLeadTo, ClosesOneOpenedAt, ClosesNothing, IsPlaceOfOldest, NoPrimaryIsOpen, IsPlaceInUse, IsNotInUse};
    ghost use Rattle.hsms_machine.specs.InnerOpeningLines.{is_fresh as is_new};

    /// Creates an empty set of line numbers.
    pub fn new(alloc: Global, settings: Settings) -> Places
        ensures places { HasPlaces [] [] result }
        ensures last { result.last_time ≡ 0 }
    {
        Places {
            view: View::new(alloc, settings),
        }
    }

    /// Records the line number of a valid entry, which is no lower than that of the entry before. An entry that is not
    /// valid is also recorded, or skipped: nothing is specified about the line numbers after it.
    ///
    /// # Errors
    ///
    /// Returns an error if an allocation fails, and then changes nothing.
    pub fn note(&mut self, place: u64, entry: &EntryRef<'_>) -> Result<(), AllocError>
        requires rising { self.old.last_time ≤ place }
        ensures next { OnOk result (PlacesLeadTo self.old place entry.now self.new) }
        ensures err { OnErr result (self.new ≡ self.old) }
        ensures last { self.new.last_time ≤ place }
    {
        let (_, act, _) = entry.parts();
        if self.is_fresh(act) {
            self.view.take_in(place, act)?;
        }
        Ok(())
    }

    /// Returns whether no open transaction of its direction has the system bytes of this event, if it is a request.
    fn is_fresh(&self, act: &Act) -> bool
        ensures { result ≡ is_new self.now act.now }
    {
        match act {
            Act::Sent(message) => !self.view.is_in_use(Flow::Outgoing, *message),
            Act::Taken(message) => !self.view.is_in_use(Flow::Incoming, *message),
            _ => true,
        }
    }

    /// Returns the line that opened the transaction which this entry, as the next one, closes: as its response, as a
    /// reject, or as its `t3`. Returns `None` if it closes none. Allocates no memory.
    pub fn closes(&self, entry: &EntryRef<'_>) -> Option<u64>
        ensures place { IfSome result (ClosesOneOpenedAt self.now entry.now.event) }
        ensures none { IfNone result (ClosesNothing self.now entry.now.event) }
    {
        let (_, act, _) = entry.parts();
        match act {
            Act::Sent(message) => {
                Self::concluded(&self.view.taken_data, &self.view.taken_control, *message)
            }
            Act::Taken(message) => {
                Self::concluded(&self.view.sent_data, &self.view.sent_control, *message)
            }
            Act::T3(system) => Some(self.view.sent_data.get(*system)?.time),
            _ => None,
        }
    }

    /// Returns the line of the first opened among the open sent primaries with the W bit. Returns `None` if none is
    /// open. A failure of `T3Overdue` involves this primary. Allocates no memory.
    pub fn oldest_data(&self) -> Option<u64>
        ensures place { IfSome result (IsPlaceOfOldest self.now) }
        ensures none { IfNone result (NoPrimaryIsOpen self.now) }
    {
        let opened = self.view.sent_data.first()?;
        Some(opened.time)
    }

    /// Returns the line of the open transaction with the direction and the system bytes of this sent or accepted frame.
    /// Returns `None` if there is none. A failure of `SystemInUse` involves this transaction. Allocates no memory.
    pub fn in_use(&self, entry: &EntryRef<'_>) -> Option<u64>
        ensures place { IfSome result (IsPlaceInUse self.now entry.now.event) }
        ensures none { IfNone result (IsNotInUse self.now entry.now.event) }
    {
        let (_, act, _) = entry.parts();
        match act {
            Act::Sent(message) => {
                Self::using(&self.view.sent_data, &self.view.sent_control, *message)
            }
            Act::Taken(message) => {
                Self::using(&self.view.taken_data, &self.view.taken_control, *message)
            }
            _ => None,
        }
    }

    /// Returns the line of the transaction with the message's system bytes.
    fn using(primaries: &Transactions, requests: &Transactions, message: Message) -> Option<u64>
        ensures place { IfSome result (λ place. IsTrue (list_any (λ opened. (opened.header.system == message.system) && (opened.time == place)) primaries.now || list_any (λ opened. (opened.header.system == message.system) && (opened.time == place)) requests.now)) }
        ensures none { IfNone result ((uses message.system primaries.now || uses message.system requests.now) ≡ false) }
    {
        match primaries.time_of(message) {
            Some(used) => Some(used),
            None => requests.time_of(message),
        }
    }

    /// Returns the line of the transaction that the message, sent in the other direction, answers or rejects.
    fn concluded(primaries: &Transactions, requests: &Transactions, message: Message) -> Option<u64>
        ensures place { IfSome result (λ place. IsTrue (list_any (λ opened. is_conclusion opened.header message && (opened.time == place)) primaries.now || list_any (λ opened. is_conclusion opened.header message && (opened.time == place)) requests.now)) }
        ensures none { IfNone result ((list_any (λ opened. is_conclusion opened.header message) primaries.now || list_any (λ opened. is_conclusion opened.header message) requests.now) ≡ false) }
    {
        match primaries.time_concluded(message) {
            Some(place) => Some(place),
            None => requests.time_concluded(message),
        }
    }
}
