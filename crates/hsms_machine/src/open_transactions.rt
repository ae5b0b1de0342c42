//! Open transactions of one direction and kind.

ghost use Rattle.std.specs.Prelude.{◌≡◌};
ghost use Rattle.hsms_machine.specs.Timer.{least_of};

use crate::message::{Message, answers, concludes};
use crate::transaction_map::Queue;
use hsms_frame::Header;
use std::alloc::{AllocError, Global};
use std::marker::Model;

/// A transaction: when it was opened, in milliseconds, and the header of its request.
#[derive(Clone, Copy, Debug)]
pub struct Transaction {
    pub time: u64,
    pub header: Header,
}

/// The maximum number of open transactions, which exceeds what memory can hold.
const MOST: usize = usize::MAX / 4;

/// Open transactions, in order of opening. No two have the same system bytes, and none was opened before an earlier
/// one. A transaction that is opened when no other is open is stored outside the map of those that are opened after it.
/// So nothing is hashed if one transaction is open at a time.
#[derive(Debug, Drop)]
pub struct Transactions {
    oldest: Option<Transaction>,
    queue: Queue,
}

impl Model for Transactions {
    ghost use Rattle.std.specs.Prelude.{List, ◌++◌, option_to_list};
    ghost use Rattle.hsms_machine.specs.declared.open_transactions.Transaction.{Transaction};
    ghost use Rattle.hsms_machine.specs.InnerOpeningOrder.{AreListed};

    ghost Value = { List Transaction };

    ghost view = { λ t. option_to_list t.oldest ++ t.queue };

    ghost invariant = { λ t. AreListed t.oldest t.queue };
}

impl Transactions {
    ghost use Rattle.std.specs.Prelude.{◌≡◌, ◌-◌, ◌^◌, ◌<◌, ◌==◌, ◌&&◌, not, [], ◌∷◌, ◌++◌, option_to_list, length, filter, true, false, nat_lt, nat_le, OnOk, OnErr, IfSome, IfNone};
    ghost use Rattle.std.specs.List.{list_any, find};
    ghost use Rattle.hsms_machine.specs.Timer.{least_in, due_times, due_at};
    ghost use Rattle.hsms_machine.specs.Transaction.{answers as is_answer, concludes as is_conclusion};
    ghost use Rattle.hsms_machine.specs.OpeningOrder.{AreUntil, first_of};
    ghost use Rattle.hsms_machine.specs.InnerOpeningOrder.{AreInOrder, AreApart, uses};

    /// Creates a list without transactions.
    pub fn new(alloc: Global) -> Self
        ensures { result ≡ [] }
    {
        Transactions {
            oldest: None,
            queue: Queue::new(alloc),
        }
    }

    /// Returns how many are open.
    pub fn len(&self) -> usize
        ensures value { result ≡ length self.now }
        ensures bound { result < 2 ^ 63 }
    {
        match self.oldest {
            Some(_) => self.queue.len() + 1,
            None => self.queue.len(),
        }
    }

    /// Proves that they are in order of opening, and no two have the same system bytes. Does nothing at run time.
    pub fn keeps_order(&self)
        ensures in_order { AreInOrder self.now }
        ensures apart { AreApart self.now }
    {
        let _oldest = &self.oldest;
    }

    /// Returns the transaction that was opened first.
    pub fn first(&self) -> Option<Transaction>
        ensures first { result ≡ first_of self.now }
        ensures in_order { AreInOrder self.now }
    {
        match self.oldest {
            Some(opened) => Some(opened),
            None => self.queue.first(),
        }
    }

    /// Returns the transaction with these system bytes.
    #[inline(always)]
    pub fn get(&self, system: u32) -> Option<Transaction>
        ensures found { result ≡ find (λ opened. opened.header.system == system) self.now }
        ensures apart { AreApart self.now }
    {
        if Self::has_system(self.oldest, system) {
            self.oldest
        } else {
            self.queue.get(system)
        }
    }

    /// Returns when the transaction with the message's system bytes was opened.
    pub fn time_of(&self, message: Message) -> Option<u64>
        ensures time { IfSome result (λ time. list_any (λ opened. (opened.header.system == message.system) && (opened.time == time)) self.now ≡ true) }
        ensures none { IfNone result (uses message.system self.now ≡ false) }
    {
        let opened = self.get(message.header().system)?;
        Some(opened.time)
    }

    /// Appends a transaction.
    #[inline(always)]
    pub fn push(&mut self, transaction: Transaction) -> Result<(), AllocError>
        requires fresh { uses transaction.header.system self.old ≡ false }
        requires later { AreUntil transaction.time self.old }
        ensures ok { OnOk result (self.new ≡ self.old ++ transaction ∷ []) }
        ensures err { OnErr result (self.new ≡ self.old) }
    {
        if self.len() == 0 {
            self.oldest = Some(transaction);
            return Ok(());
        }
        if self.queue.len() >= MOST {
            return Err(AllocError);
        }
        self.queue.push(transaction)
    }

    /// Returns whether it has these system bytes.
    #[inline(always)]
    fn has_system(oldest: Option<Transaction>, system: u32) -> bool
        ensures { result ≡ uses system (option_to_list oldest) }
    {
        match oldest {
            Some(opened) => opened.header.system == system,
            None => false,
        }
    }

    /// Returns the transaction, unless the message ends it.
    #[inline(always)]
    fn unconcluded(oldest: Option<Transaction>, other: Message) -> Option<Transaction>
        ensures { option_to_list result ≡ filter (λ opened. not (is_conclusion opened.header other)) (option_to_list oldest) }
    {
        match oldest {
            Some(opened) => {
                if concludes(opened.header, other) {
                    None
                } else {
                    Some(opened)
                }
            }
            None => None,
        }
    }

    /// Returns whether some transaction has waited for longer than the limit.
    pub fn has_overdue(&self, now: u64, limit: u32) -> bool
        ensures { result ≡ list_any (λ opened. nat_lt limit (now - opened.time)) self.now }
    {
        match self.first() {
            Some(opened) => u64::from(limit) < now.saturating_sub(opened.time),
            None => false,
        }
    }

    /// Returns whether some transaction has waited for at least the limit.
    pub fn has_due(&self, now: u64, limit: u32) -> bool
        ensures { result ≡ list_any (λ opened. nat_le limit (now - opened.time)) self.now }
    {
        match self.first() {
            Some(opened) => u64::from(limit) <= now.saturating_sub(opened.time),
            None => false,
        }
    }

    /// Returns whether the transaction with these system bytes has waited for at least the limit.
    #[inline(never)]
    pub fn is_due(&self, system: u32, now: u64, limit: u32) -> bool
        ensures { result ≡ list_any (λ opened. (opened.header.system == system) && nat_le limit (now - opened.time)) self.now }
    {
        match self.get(system) {
            Some(opened) => u64::from(limit) <= now.saturating_sub(opened.time),
            None => false,
        }
    }

    /// Returns whether some transaction has these system bytes.
    #[inline(always)]
    pub fn is_in_use(&self, system: u32) -> bool
        ensures { result ≡ uses system self.now }
    {
        self.get(system).is_some()
    }

    /// Returns whether the message, sent in the other direction, answers a transaction.
    #[inline(always)]
    pub fn has_request_of(&self, response: Message) -> bool
        ensures { result ≡ list_any (λ opened. is_answer opened.header response) self.now }
    {
        match self.get(response.header().system) {
            Some(opened) => answers(opened.header, response),
            None => false,
        }
    }

    /// Returns the earliest time at which a transaction has waited for the limit.
    pub fn first_due(&self, limit: u32) -> Option<u64>
        ensures { result ≡ least_in (due_times limit self.now) }
    {
        let opened = self.first()?;
        Self::due_at(opened.time, limit)
    }

    /// Returns the time at which the limit has passed since a time.
    pub fn due_at(time: u64, limit: u32) -> Option<u64>
        ensures { result ≡ due_at limit time }
    {
        time.checked_add(u64::from(limit))
    }

    /// Returns when the transaction was opened that the message, sent in the other direction, answers or rejects.
    pub fn time_concluded(&self, other: Message) -> Option<u64>
        ensures time { IfSome result (λ time. list_any (λ opened. is_conclusion opened.header other && (opened.time == time)) self.now ≡ true) }
        ensures none { IfNone result (list_any (λ opened. is_conclusion opened.header other) self.now ≡ false) }
    {
        let opened = self.get(other.header().system)?;
        concludes(opened.header, other).then_some(opened.time)
    }

    /// Removes all transactions, in time proportional to their number.
    pub fn clear(&mut self)
        ensures { self.new ≡ [] }
    {
        self.oldest = None;
        self.queue.clear();
    }

    /// Removes the transaction that the message, sent in the other direction, answers or rejects.
    #[inline(always)]
    pub fn remove_concluded(&mut self, other: Message)
        ensures { self.new ≡ filter (λ opened. not (is_conclusion opened.header other)) self.old }
    {
        if Self::has_system(self.oldest, other.header().system) {
            self.oldest = Self::unconcluded(self.oldest, other);
        } else if self.queue.len() > 0 {
            self.queue.remove_concluded(other);
        }
    }

    /// Removes the transaction with these system bytes.
    pub fn remove_system(&mut self, system: u32)
        ensures { self.new ≡ filter (λ opened. not (opened.header.system == system)) self.old }
    {
        if Self::has_system(self.oldest, system) {
            self.oldest = None;
        } else {
            self.queue.remove_system(system);
        }
    }
}

/// Returns the earlier of two times, or the only one.
pub fn earlier(one: Option<u64>, other: Option<u64>) -> Option<u64>
    ensures { result ≡ least_of one other }
{
    match (one, other) {
        (Some(one), Some(other)) => Some(one.min(other)),
        (Some(one), None) => Some(one),
        (None, other) => other,
    }
}
