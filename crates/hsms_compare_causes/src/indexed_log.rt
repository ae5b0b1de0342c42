//! A log in which each entry leads to later ones.

ghost use Rattle.std.specs.Prelude.{◌≡◌, IfOk, length};
ghost use Rattle.hsms_compare_causes.specs.OwnOutcome.{session_of};
ghost use Rattle.hsms_compare_causes.specs.InnerGroups.{AreNextFrom};

use crate::events::ends_session;
use crate::later_entries::{LaterEntries, NextEntries};
use crate::search::{first_after, latest_after};
use crate::wanted::Wanted;
use hsms_machine::Entry;
use std::alloc::{AllocError, Global};
use std::marker::Model;

/// The entries of a log, each of which leads to the next ones. Contracts see the entries.
#[derive(Drop)]
pub struct IndexedLog {
    entries: Vec<Entry>,
    nexts: Vec<NextEntries>,
}

impl Model for IndexedLog {
    ghost use Rattle.std.specs.Prelude.{List};
    ghost use Rattle.hsms_machine.specs.declared.entry.Entry.{Entry as LogEntry};
    ghost use Rattle.hsms_compare_causes.specs.InnerGroups.{AreNextFrom};

    ghost Value = { List LogEntry };

    ghost view = { λ log. log.entries.items };

    ghost invariant = { λ log. AreNextFrom log.entries.items 0 log.nexts.items };
}

impl IndexedLog {
    ghost use Rattle.std.specs.Prelude.{◌≡◌, ◌+◌, IfOk, drop};
    ghost use Rattle.hsms_compare_causes.specs.OwnOutcome.{session_of};
    ghost use Rattle.hsms_compare_causes.specs.InnerGroups.{latest_of};
    ghost use Rattle.hsms_compare_causes.specs.InnerSearch.{is_wanted};
    ghost use Rattle.hsms_compare_causes.specs.Search.{FirstFrom};

    /// Indexes a log in one pass.
    pub(crate) fn of(alloc: Global, entries: Vec<Entry>) -> Result<IndexedLog, AllocError>
        ensures { IfOk result (λ log. log ≡ entries.items) }
    {
        let nexts = next_entries(alloc, entries.as_slice())?;
        Ok(IndexedLog { entries, nexts })
    }

    /// Returns the entries.
    pub fn as_slice(&self) -> &[Entry]
        ensures { result.now ≡ self.now }
    {
        self.entries.as_slice()
    }

    /// Returns the index of the first entry after the one at `index` that is searched for.
    pub(crate) fn first_after(&self, index: usize, wanted: Wanted) -> Option<usize>
        ensures { FirstFrom (is_wanted wanted) self.now (index + 1) result }
    {
        first_after(
            self.entries.as_slice(),
            self.nexts.as_slice(),
            index,
            wanted,
        )
    }

    /// Returns the latest time of the entries of the session after the one at an index, or 0 if there is none.
    pub(crate) fn latest_after(&self, index: usize) -> u64
        ensures { result ≡ latest_of (drop (index + 1) (session_of self.now)) }
    {
        latest_after(self.entries.as_slice(), self.nexts.as_slice(), index)
    }
}

/// Returns the next entries after each entry of a log.
fn next_entries(alloc: Global, log: &[Entry]) -> Result<Vec<NextEntries>, AllocError>
    ensures { IfOk result (λ nexts. AreNextFrom log.now 0 nexts.items) }
{
    let session = session_length(log);
    let mut later = LaterEntries::new(alloc);
    let mut nexts = vec![in alloc; NextEntries::none(); log.len()]?;
    for i in 0..log.len() {
        let index = log.len() - 1 - i;
        let entry = &log[index];
        nexts[index] = later.after(&entry.event);
        later.add(index, entry, index < session)?;
    }
    Ok(nexts)
}

/// Returns the number of entries up to the end of the session.
fn session_length(log: &[Entry]) -> usize
    ensures { result ≡ length (session_of log.now) }
{
    for i in 0..log.len() {
        if ends_session(&log[i].event) {
            return i + 1;
        }
    }
    log.len()
}
