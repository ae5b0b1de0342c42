//! Open transactions in a map, in order of opening.

use crate::message::{Message, concludes};
use crate::open_transactions::Transaction;
use indexmap::IndexMap;
use std::alloc::{AllocError, Global};
use std::marker::Model;

/// How many slots are empty before they are dropped.
const MANY: usize = 64;

/// The first key that is not the system bytes of any transaction.
const SPARE: u64 = 4_294_967_296;

/// Slots in order of opening, under the system bytes of their transactions. A closed transaction leaves an empty slot,
/// so closing moves no other.
///
/// Empty slots are dropped together, once they are many and more than half of the map. If their system bytes are used
/// again before, they get a spare key.
#[derive(Debug, Drop)]
struct Slots {
    map: IndexMap<u64, Option<Transaction>>,
    // The index of the first open transaction, or the number of slots.
    first: usize,
    // How many slots are empty.
    empty: usize,
}

impl Slots {
    ghost use Rattle.std.specs.Prelude.{ℕ, ◌≡◌, ◌+◌, ◌^◌, ◌<◌, ◌≤◌, ◌==◌, not, Option, Some, None, [], ◌∷◌, ◌++◌, length, filter, nat_eq, false, slice_get, slice_set, is_some, OnOk, OnErr, IsSome, IfSome};
    ghost use Rattle.std.specs.List.{find};
    ghost use Rattle.std.specs.Map.{values_of};
    ghost use Rattle.std.specs.Option.{option_map};
    ghost use Rattle.indexmap.specs.IndexMap.{index_map_len, set_value_at};
    ghost use Rattle.hsms_machine.specs.declared.open_transactions.Transaction.{Transaction as Opened};
    ghost use Rattle.hsms_machine.specs.OpeningOrder.{AreUntil};
    ghost use Rattle.hsms_machine.specs.InnerOpeningOrder.{AreBelow, AreKept, open_in, open_at as opened_at, first_open, uses};

    /// Creates a map without slots.
    fn new(alloc: Global) -> Self
        ensures kept { AreKept result.first result.empty result.map.entries }
        ensures none { open_in (values_of result.map.entries) ≡ [] }
    {
        let map = IndexMap::new(alloc);
        Slots {
            map,
            first: 0,
            empty: 0,
        }
    }

    /// Returns the open transaction at an index.
    #[inline(always)]
    fn open_at(map: &IndexMap<u64, Option<Transaction>>, index: usize) -> Option<Transaction>
        ensures { result ≡ opened_at (values_of map.now.entries) index }
    {
        match map.get_index(index) {
            Some((_, slot)) => *slot,
            None => None,
        }
    }

    /// Returns the open transaction with these system bytes, and its index. Checks the first one without a hash,
    /// because it is usually the requested one.
    #[inline(always)]
    fn found(&self, system: u32) -> Option<(usize, Transaction)>
        requires kept { AreKept self.now.first self.now.empty self.now.map.entries }
        ensures found { option_map (λ x. x.1) result ≡ find (λ opened. opened.header.system == system) (open_in (values_of self.now.map.entries)) }
        ensures place { IfSome result (λ x. opened_at (values_of self.now.map.entries) x.0 ≡ Some x.1) }
    {
        let oldest = Self::open_at(&self.map, self.first)?;
        if oldest.header.system == system {
            return Some((self.first, oldest));
        }
        let key = system as u64;
        let index = self.map.get_index_of(&key)?;
        let opened = Self::open_at(&self.map, index)?;
        Some((index, opened))
    }

    /// Appends an open transaction with these system bytes.
    #[inline(always)]
    fn push(&mut self, system: u32, transaction: Transaction) -> Result<(), AllocError>
        requires kept { AreKept self.old.first self.old.empty self.old.map.entries }
        requires system { system ≡ transaction.header.system }
        requires fresh { uses transaction.header.system (open_in (values_of self.old.map.entries)) ≡ false }
        requires later { AreUntil transaction.time (open_in (values_of self.old.map.entries)) }
        ensures kept { AreKept self.new.first self.new.empty self.new.map.entries }
        ensures ok { OnOk result (open_in (values_of self.new.map.entries) ≡ open_in (values_of self.old.map.entries) ++ transaction ∷ []) }
        ensures err { OnErr result (open_in (values_of self.new.map.entries) ≡ open_in (values_of self.old.map.entries)) }
    {
        let key = system as u64;
        let (index, before) = self.map.insert_full(key, Some(transaction))?;
        if before.is_none() {
            return Ok(());
        }
        // An empty slot had these system bytes, and the new transaction is in that slot.
        Self::move_last(&mut self.map, index)
    }

    /// Moves the slot at this index to the end, and leaves an empty slot with a spare key. If an allocation fails,
    /// empties it instead.
    #[inline(never)]
    fn move_last(
        map: &mut IndexMap<u64, Option<Transaction>>,
        index: usize,
    ) -> Result<(), AllocError>
        requires within { index < length map.old.entries }
        requires below { AreBelow (2 ^ 32 + length map.old.entries) map.old.entries }
        ensures ok { OnOk result ((slot : ℕ × Option Opened) → slice_get map.old.entries index ≡ Some slot → map.new.entries ≡ slice_set map.old.entries index (2 ^ 32 + length map.old.entries, None) ++ slot ∷ []) }
        ensures err { OnErr result (map.new.entries ≡ set_value_at map.old.entries index None) }
    {
        let last = map.len();
        match map.insert(SPARE + last as u64, None) {
            Ok(_) => {
                map.swap_indices(index, last);
                Ok(())
            }
            Err(_) => {
                map[index] = None;
                Err(AllocError)
            }
        }
    }

    /// Closes the open transaction at this index.
    #[inline(always)]
    fn close(&mut self, index: usize, opened: Transaction)
        requires kept { AreKept self.old.first self.old.empty self.old.map.entries }
        requires place { opened_at (values_of self.old.map.entries) index ≡ Some opened }
        ensures kept { AreKept self.new.first self.new.empty self.new.map.entries }
        ensures closed { open_in (values_of self.new.map.entries) ≡ filter (λ other. not (other.header.system == opened.header.system)) (open_in (values_of self.old.map.entries)) }
    {
        let slots = self.map.len();
        self.map[index] = None;
        self.empty += 1;
        self.first = Self::next_open(&self.map, self.first);
        if self.empty >= MANY && self.empty > slots / 2 {
            self.sweep();
        }
    }

    /// Returns the index of the first open transaction. None is open before this index.
    #[inline(always)]
    fn next_open(map: &IndexMap<u64, Option<Transaction>>, from: usize) -> usize
        requires { from ≤ first_open (values_of map.now.entries) }
        ensures { result ≡ first_open (values_of map.now.entries) }
    {
        for index in from..map.len() {
            if Self::open_at(map, index).is_some() {
                return index;
            }
        }
        map.len()
    }

    /// Drops the empty slots, in time proportional to the number of slots.
    #[inline(never)]
    fn sweep(&mut self)
        requires kept { AreKept self.old.first self.old.empty self.old.map.entries }
        ensures kept { AreKept self.new.first self.new.empty self.new.map.entries }
        ensures same { open_in (values_of self.new.map.entries) ≡ open_in (values_of self.old.map.entries) }
    {
        self.map.retain(
            |_key: &u64, slot: &mut Option<Transaction>| -> bool
                ensures { (result ≡ is_some slot.old) × (slot.new ≡ slot.old) }
            { slot.is_some() },
        );
        self.first = 0;
        self.empty = 0;
    }

    /// Drops all slots, in time proportional to their number.
    fn clear(&mut self)
        ensures kept { AreKept self.new.first self.new.empty self.new.map.entries }
        ensures none { open_in (values_of self.new.map.entries) ≡ [] }
    {
        self.map.truncate(0);
        self.first = 0;
        self.empty = 0;
    }
}

/// Open transactions, in order of opening. No two have the same system bytes, and none was opened before an earlier
/// one.
#[derive(Debug, Drop)]
pub struct Queue {
    slots: Slots,
}

impl Model for Queue {
    ghost use Rattle.std.specs.Prelude.{List};
    ghost use Rattle.std.specs.Map.{values_of};
    ghost use Rattle.hsms_machine.specs.declared.open_transactions.Transaction.{Transaction};
    ghost use Rattle.hsms_machine.specs.InnerOpeningOrder.{AreKept, open_in};

    ghost Value = { List Transaction };

    ghost view = { λ t. open_in (values_of t.slots.map.entries) };

    ghost invariant = { λ t. AreKept t.slots.first t.slots.empty t.slots.map.entries };
}

impl Queue {
    ghost use Rattle.std.specs.Prelude.{◌≡◌, ◌^◌, ◌<◌, ◌==◌, not, [], ◌∷◌, ◌++◌, length, filter, false, OnOk, OnErr};
    ghost use Rattle.std.specs.List.{find};
    ghost use Rattle.hsms_machine.specs.Transaction.{concludes as is_conclusion};
    ghost use Rattle.hsms_machine.specs.OpeningOrder.{AreUntil, first_of};
    ghost use Rattle.hsms_machine.specs.InnerOpeningOrder.{AreInOrder, AreApart, uses};

    /// Creates a map without transactions.
    pub fn new(alloc: Global) -> Self
        ensures { result ≡ [] }
    {
        let slots = Slots::new(alloc);
        Queue { slots }
    }

    /// Returns how many are open.
    pub fn len(&self) -> usize
        ensures value { result ≡ length self.now }
        ensures bound { result < 2 ^ 63 }
    {
        self.slots.map.len() - self.slots.empty
    }

    /// Returns the transaction that was opened first.
    pub fn first(&self) -> Option<Transaction>
        ensures first { result ≡ first_of self.now }
        ensures in_order { AreInOrder self.now }
    {
        Slots::open_at(&self.slots.map, self.slots.first)
    }

    /// Returns the transaction with these system bytes.
    #[inline(always)]
    pub fn get(&self, system: u32) -> Option<Transaction>
        ensures found { result ≡ find (λ opened. opened.header.system == system) self.now }
        ensures apart { AreApart self.now }
    {
        let (_, opened) = self.slots.found(system)?;
        Some(opened)
    }

    /// Appends a transaction.
    #[inline(always)]
    pub fn push(&mut self, transaction: Transaction) -> Result<(), AllocError>
        requires fresh { uses transaction.header.system self.old ≡ false }
        requires later { AreUntil transaction.time self.old }
        ensures ok { OnOk result (self.new ≡ self.old ++ transaction ∷ []) }
        ensures err { OnErr result (self.new ≡ self.old) }
    {
        self.slots.push(transaction.header.system, transaction)
    }

    /// Removes all transactions, in time proportional to their number.
    pub fn clear(&mut self)
        ensures { self.new ≡ [] }
    {
        self.slots.clear();
    }

    /// Removes the transaction that the message, sent in the other direction, answers or rejects.
    #[inline(never)]
    pub fn remove_concluded(&mut self, other: Message)
        ensures { self.new ≡ filter (λ opened. not (is_conclusion opened.header other)) self.old }
    {
        let Some((index, opened)) = self.slots.found(other.header().system) else {
            return;
        };
        if concludes(opened.header, other) {
            self.slots.close(index, opened);
        }
    }

    /// Removes the transaction with these system bytes.
    pub fn remove_system(&mut self, system: u32)
        ensures { self.new ≡ filter (λ opened. not (opened.header.system == system)) self.old }
    {
        if let Some((index, opened)) = self.slots.found(system) {
            self.slots.close(index, opened);
        }
    }
}
