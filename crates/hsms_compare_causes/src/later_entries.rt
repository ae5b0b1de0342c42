//! What is known of the entries from an index on.

ghost use Rattle.std.specs.Prelude.{◌≡◌, ℕ, nat_eq, OnOk};
ghost use Rattle.indexmap.specs.IndexMap.{get};
ghost use Rattle.hsms_compare_causes.specs.InnerGroups.{first_if, is_system, later_if};

use crate::events::{ends_connection, system_of};
use hsms_machine::{Entry, Event};
use indexmap::IndexMap;
use std::alloc::{AllocError, Global};

/// The next entries after an entry.
#[derive(Clone, Copy)]
pub struct NextEntries {
    /// The index of the next one with the same system bytes.
    pub same: Option<usize>,
    /// The index of the next one that ends the session or the connection.
    pub end: Option<usize>,
    /// The latest time of those of the session, or 0 if there is none.
    pub latest: u64,
}

/// What is known of the entries from an index on.
#[derive(Drop)]
pub struct LaterEntries {
    /// The index of the first one with these system bytes.
    pub systems: IndexMap<u32, usize>,
    /// The index of the first one that ends the session or the connection.
    pub end: Option<usize>,
    /// The latest time of those of the session, or 0 if there is none.
    pub latest: u64,
}

impl NextEntries {
    ghost use Rattle.std.specs.Prelude.{◌≡◌};
    ghost use Rattle.hsms_compare_causes.specs.InnerGroups.{no_entries};

    /// Returns the entries after the last one.
    pub fn none() -> NextEntries
        ensures { result ≡ no_entries }
    {
        NextEntries {
            same: None,
            end: None,
            latest: 0,
        }
    }
}

impl LaterEntries {
    ghost use Rattle.std.specs.Prelude.{◌≡◌, ◌+◌, ◌<◌, ℕ, List, Some, length, nat_eq, nat_lt, MatchOption, OnOk};
    ghost use Rattle.indexmap.specs.IndexMap.{get};
    ghost use Rattle.hsms_machine.specs.Entry.{entry_at};
    ghost use Rattle.hsms_machine.specs.declared.entry.Entry.{Entry as LogEntry};
    ghost use Rattle.hsms_compare_causes.specs.OwnOutcome.{session_of};
    ghost use Rattle.hsms_compare_causes.specs.InnerGroups.{IsLater, IsNext, system_of as system_by};

    /// Returns what is known after the last entry.
    pub fn new(alloc: Global) -> LaterEntries
        ensures { (log : List LogEntry) → IsLater log (length log) result }
    {
        LaterEntries {
            systems: IndexMap::new(alloc),
            end: None,
            latest: 0,
        }
    }

    /// Returns the next entries after the one before the index, which has this event.
    pub fn after(&self, event: &Event) -> NextEntries
        ensures { (log : List LogEntry) (i : ℕ) → IsLater log (i + 1) self.now → event.now ≡ (entry_at log i).event
            → IsNext log i result }
    {
        NextEntries {
            same: self.first_like(event),
            end: self.end,
            latest: self.latest,
        }
    }

    /// Returns the index of the first entry with the system bytes of an event.
    fn first_like(&self, event: &Event) -> Option<usize>
        ensures { (s : ℕ) → system_by event.now ≡ Some s → result ≡ get nat_eq self.now.systems s }
    {
        let system = system_of(event)?;
        self.systems.get(&system).copied()
    }

    /// Adds the entry before the index, which is of the session or not.
    pub fn add(
        &mut self,
        index: usize,
        entry: &Entry,
        is_in_session: bool,
    ) -> Result<(), AllocError>
        ensures { OnOk result ((log : List LogEntry) → IsLater log (index + 1) self.old → index < length log
            → entry.now ≡ entry_at log index → is_in_session ≡ nat_lt index (length (session_of log))
            → IsLater log index self.new) }
    {
        note_system(&mut self.systems, system_of(&entry.event), index)?;
        self.end = first_end(ends_connection(&entry.event), index, self.end);
        self.latest = latest(is_in_session, self.latest, entry.time);
        Ok(())
    }
}

/// Records the index of an entry with these system bytes.
fn note_system(
    systems: &mut IndexMap<u32, usize>,
    system: Option<u32>,
    index: usize,
) -> Result<(), AllocError>
    ensures { OnOk result ((s : ℕ) → get nat_eq systems.new s ≡ first_if (is_system system s) index (get nat_eq systems.old s)) }
{
    if let Some(system) = system {
        systems.insert(system, index)?;
    }
    Ok(())
}

fn first_end(is_end: bool, index: usize, end: Option<usize>) -> Option<usize>
    ensures { result ≡ first_if is_end index end }
{
    if is_end { Some(index) } else { end }
}

/// Returns the later one of two times, if the second one counts.
fn latest(counts: bool, latest: u64, time: u64) -> u64
    ensures { result ≡ later_if counts latest time }
{
    if counts && latest <= time {
        time
    } else {
        latest
    }
}
