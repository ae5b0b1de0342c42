//! Searches in a log.

ghost use Rattle.std.specs.Prelude.{◌≡◌, ◌+◌, ◌-◌, ◌<◌, ℕ, IsTrue, drop, false, length};
ghost use Rattle.hsms_machine.specs.Entry.{entry_at};
ghost use Rattle.hsms_machine.specs.declared.entry.Entry.{Entry as LogEntry};
ghost use Rattle.hsms_compare.specs.Outcome.{time_between};
ghost use Rattle.hsms_compare_causes.specs.OwnOutcome.{session_of};
ghost use Rattle.hsms_compare_causes.specs.InnerGroups.{AreNextFrom, IsReached, IsReachedAt, is_in, latest_of, leads as leads_on, remaining};
ghost use Rattle.hsms_compare_causes.specs.InnerSearch.{is_wanted};
ghost use Rattle.hsms_compare_causes.specs.Search.{FirstFrom};

use crate::group::Group;
use crate::later_entries::NextEntries;
use crate::wanted::Wanted;
use hsms_machine::Entry;

/// Returns the index of the first entry from `start` on that is searched for.
fn first_from(log: &[Entry], start: usize, wanted: Wanted) -> Option<usize>
    ensures { FirstFrom (is_wanted wanted) log.now start result }
{
    for i in start..log.len() {
        if wanted.is(&log[i]) {
            return Some(i);
        }
    }
    None
}

/// Returns the index of the first entry after the one at `index` that is searched for. If that leads to the next one of
/// its group, only entries of the group are looked at.
pub fn first_after(
    log: &[Entry],
    nexts: &[NextEntries],
    index: usize,
    wanted: Wanted,
) -> Option<usize>
    requires { AreNextFrom log.now 0 nexts.now }
    ensures { FirstFrom (is_wanted wanted) log.now (index + 1) result }
{
    if index >= log.len() {
        return None;
    }
    if let Some(group) = wanted.group() {
        if group.leads(&log[index].event) {
            return first_of_group(log, nexts, index, wanted, group);
        }
    }
    first_from(log, index + 1, wanted)
}

fn first_of_group(
    log: &[Entry],
    nexts: &[NextEntries],
    index: usize,
    wanted: Wanted,
    group: Group,
) -> Option<usize>
    requires next { AreNextFrom log.now 0 nexts.now }
    requires within { index < length log.now }
    requires leading { IsTrue (leads_on group (entry_at log.now index).event) }
    requires group { (entry : LogEntry) → IsTrue (is_wanted wanted entry) → IsTrue (is_in group entry) }
    ensures { FirstFrom (is_wanted wanted) log.now (index + 1) result }
{
    let mut at = first_reached(log, nexts, index, wanted, group);
    while let Some(k) = at {
        if wanted.is(&log[k]) {
            return Some(k);
        }
        at = next_reached(log, nexts, index, k, wanted, group);
    }
    None
}

/// Returns the index of the first entry of the group after the one at `index`.
fn first_reached(
    log: &[Entry],
    nexts: &[NextEntries],
    index: usize,
    wanted: Wanted,
    group: Group,
) -> Option<usize>
    requires next { AreNextFrom log.now 0 nexts.now }
    requires within { index < length log.now }
    requires leading { IsTrue (leads_on group (entry_at log.now index).event) }
    requires group { (entry : LogEntry) → IsTrue (is_wanted wanted entry) → IsTrue (is_in group entry) }
    ensures { IsReached (is_wanted wanted) group log.now (index + 1) result }
{
    next_of_group(log, nexts, index, group)
}

/// Returns the index of the next entry of the group after the one at `reached`, which is not searched for.
fn next_reached(
    log: &[Entry],
    nexts: &[NextEntries],
    index: usize,
    reached: usize,
    wanted: Wanted,
    group: Group,
) -> Option<usize>
    requires next { AreNextFrom log.now 0 nexts.now }
    requires reached { IsReachedAt (is_wanted wanted) group log.now (index + 1) reached }
    requires other { is_wanted wanted (entry_at log.now reached) ≡ false }
    requires group { (entry : LogEntry) → IsTrue (is_wanted wanted entry) → IsTrue (is_in group entry) }
    ensures reached { IsReached (is_wanted wanted) group log.now (index + 1) result }
    ensures fewer { remaining (length log.now) result < length log.now - reached }
{
    next_of_group(log, nexts, reached, group)
}

fn next_of_group(log: &[Entry], nexts: &[NextEntries], index: usize, group: Group) -> Option<usize>
    requires next { AreNextFrom log.now 0 nexts.now }
    requires within { index < length log.now }
    requires leading { IsTrue (leads_on group (entry_at log.now index).event) }
    ensures { FirstFrom (is_in group) log.now (index + 1) result }
{
    match group {
        Group::System(_) => nexts[index].same,
        Group::Ends => nexts[index].end,
    }
}

/// Returns the latest time of the entries of the session after the one at an index, or 0 if there is none.
pub fn latest_after(log: &[Entry], nexts: &[NextEntries], index: usize) -> u64
    requires { AreNextFrom log.now 0 nexts.now }
    ensures { result ≡ latest_of (drop (index + 1) (session_of log.now)) }
{
    if index < nexts.len() {
        return nexts[index].latest;
    }
    0
}

/// Returns the time of the entry at an index, or 0 if there is none.
pub fn time_at(log: &[Entry], index: usize) -> u64
    ensures { result ≡ (entry_at log.now index).time }
{
    if index < log.len() {
        return log[index].time;
    }
    0
}

/// Returns the milliseconds from one entry to another one, or 0 if that is earlier.
pub fn time_from(log: &[Entry], from: usize, to: usize) -> u64
    ensures { result ≡ time_between log.now from to }
{
    time_at(log, to).saturating_sub(time_at(log, from))
}
