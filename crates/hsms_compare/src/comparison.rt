//! The comparison of two logs that are in memory.

ghost use Rattle.std.specs.Prelude.{◌≡◌, ◌↔◌, ◌≤◌, ◌+◌, ◌<◌, List, [], ◌∷◌, ◌++◌, None, length, take, drop, IfOk, IsTrue};
ghost use Rattle.hsms_machine.specs.Entry.{is_down as ends_connection};
ghost use Rattle.hsms_machine.specs.declared.entry.Entry.{Entry};
ghost use Rattle.hsms_compare.specs.Conversation.{Line, sent, sent_by};
ghost use Rattle.hsms_compare.specs.InnerConversation.{numbered};
ghost use Rattle.hsms_compare.specs.Agreement.{AgreeUpTo, AreLost, CanAgree, StopsAt, FirstContradiction, is_open as may_have_more};
ghost use Rattle.hsms_compare.specs.Merge.{IsMergeOf};

use crate::contradiction::Contradiction;
use crate::merge::Merge;
use crate::stop::{MergeResult, Stop};
use hsms_machine::{Entry, Event, Role};
use std::alloc::{AllocError, Global};

/// How far a log is merged, and why no further.
#[derive(Clone, Copy, Debug, PartialEq, Eq)]
pub struct Reach {
    /// The number of merged entries, from the first one on.
    pub entries: usize,
    pub stop: Stop,
}

/// How far two logs agree.
#[derive(Clone, Copy, Debug, PartialEq, Eq)]
pub struct Comparison {
    pub host: Reach,
    pub equipment: Reach,
    /// The number of frames that the host sent and equipment did not receive.
    pub lost_to_equipment: usize,
    /// The number of frames that equipment sent and the host did not receive.
    pub lost_to_host: usize,
}

/// Returns the first contradiction of the logs of one connection. Returns `None` if they agree with what may follow
/// them. A log that does not end with `down` is open, and what the other one received beyond it may have been sent
/// later.
///
/// # Errors
///
/// Returns `AllocError` if an allocation fails.
pub fn first_contradiction(
    alloc: Global,
    host: &[Entry],
    equipment: &[Entry],
) -> Result<Option<Contradiction>, AllocError>
    ensures answer { IfOk result
        (FirstContradiction (may_have_more host.now) (may_have_more equipment.now) host.now equipment.now) }
    ensures agree { IfOk result (λ found.
        (found ≡ None) ↔ CanAgree (may_have_more host.now) (may_have_more equipment.now) host.now equipment.now) }
{
    contradiction_of(alloc, host, is_open(host), equipment, is_open(equipment))
}

/// Returns the first contradiction of two logs. An open log may have more entries.
pub fn contradiction_of(
    alloc: Global,
    host: &[Entry],
    host_open: bool,
    equipment: &[Entry],
    equipment_open: bool,
) -> Result<Option<Contradiction>, AllocError>
    ensures answer { IfOk result (FirstContradiction host_open equipment_open host.now equipment.now) }
    ensures agree { IfOk result (λ found. (found ≡ None) ↔ CanAgree host_open equipment_open host.now equipment.now) }
{
    let comparison = compare(alloc, host, equipment)?;
    Ok(contradiction_at(host, host_open, equipment, equipment_open, comparison))
}

/// Returns whether a log may have more entries: it does not end with `down`.
pub fn is_open(log: &[Entry]) -> bool
    ensures { result ≡ may_have_more log.now }
{
    log.is_empty() || !is_down(&log[log.len() - 1].event)
}

fn is_down(event: &Event) -> bool
    ensures { result ≡ ends_connection event.now }
{
    match event {
        Event::Down => true,
        Event::Up => false,
        Event::Sent(_) => false,
        Event::Taken(_) => false,
        Event::Discarded(_) => false,
        Event::T3(_) => false,
        Event::Cut(_) => false,
    }
}

/// Returns the contradiction at the end of the entries that agree.
fn contradiction_at(
    host: &[Entry],
    host_open: bool,
    equipment: &[Entry],
    equipment_open: bool,
    comparison: Comparison,
) -> Option<Contradiction>
    requires furthest { AgreeUpTo host.now equipment.now comparison.host.entries comparison.equipment.entries }
    requires host { StopsAt host.now comparison.host.entries
        (take comparison.equipment.entries equipment.now) comparison.host.stop }
    requires equipment { StopsAt equipment.now comparison.equipment.entries
        (take comparison.host.entries host.now) comparison.equipment.stop }
    ensures { FirstContradiction host_open equipment_open host.now equipment.now result }
{
    let i = comparison.host.entries;
    let j = comparison.equipment.entries;
    match comparison.host.stop {
        Stop::OtherSent(sent) => Some(Contradiction::Differs(Role::Host, sent, i as u64)),
        Stop::Ended => match comparison.equipment.stop {
            Stop::OtherSent(sent) => Some(Contradiction::Differs(Role::Equipment, sent, j as u64)),
            Stop::Ended => None,
            Stop::Waits if host_open => None,
            Stop::Waits => Some(Contradiction::Unsent(Role::Equipment, j as u64)),
        },
        Stop::Waits => match comparison.equipment.stop {
            Stop::OtherSent(sent) => Some(Contradiction::Differs(Role::Equipment, sent, j as u64)),
            Stop::Ended if equipment_open => None,
            Stop::Ended => Some(Contradiction::Unsent(Role::Host, i as u64)),
            Stop::Waits => {
                if !sends_any(&equipment[j..]) {
                    Some(Contradiction::Unsent(Role::Host, i as u64))
                } else if !sends_any(&host[i..]) {
                    Some(Contradiction::Unsent(Role::Equipment, j as u64))
                } else {
                    Some(Contradiction::Order(i as u64, j as u64))
                }
            }
        },
    }
}

/// Returns whether a log sends a frame.
fn sends_any(log: &[Entry]) -> bool
    ensures { IsTrue result ↔ (0 < length (sent log.now)) }
{
    for entry in log {
        if is_sent(&entry.event) {
            return true;
        }
    }
    false
}

/// Returns whether an event sends a frame.
pub fn is_sent(event: &Event) -> bool
    ensures { IsTrue result ↔ (0 < length (sent_by event.now)) }
{
    match event {
        Event::Sent(_) => true,
        Event::Taken(_) => false,
        Event::Discarded(_) => false,
        Event::Up => false,
        Event::T3(_) => false,
        Event::Cut(_) => false,
        Event::Down => false,
    }
}

/// Returns how far the logs of one connection agree, each from its `up` on.
///
/// # Errors
///
/// Returns `AllocError` if an allocation fails.
pub fn compare(alloc: Global, host: &[Entry], equipment: &[Entry]) -> Result<Comparison, AllocError>
    ensures furthest { IfOk result (λ c. AgreeUpTo host.now equipment.now c.host.entries c.equipment.entries) }
    ensures host { IfOk result (λ c.
        StopsAt host.now c.host.entries (take c.equipment.entries equipment.now) c.host.stop) }
    ensures equipment { IfOk result (λ c.
        StopsAt equipment.now c.equipment.entries (take c.host.entries host.now) c.equipment.stop) }
    ensures lost { IfOk result (λ c.
        AreLost (take c.host.entries host.now) (take c.equipment.entries equipment.now) c.lost_to_equipment
        × AreLost (take c.equipment.entries equipment.now) (take c.host.entries host.now) c.lost_to_host) }
{
    let mut merge = Merge::new(alloc);
    let mut host_entries = 0;
    let mut equipment_entries = 0;
    loop {
        let host_reach = advance(alloc, &mut merge, Role::Host, host, host_entries)?;
        let equipment_reach = advance(
            alloc,
            &mut merge,
            Role::Equipment,
            equipment,
            equipment_entries,
        )?;
        if equipment_reach.entries == equipment_entries {
            return Ok(Comparison {
                host: host_reach,
                equipment: equipment_reach,
                lost_to_equipment: merge.in_flight(Role::Equipment),
                lost_to_host: merge.in_flight(Role::Host),
            });
        }
        host_entries = host_reach.entries;
        equipment_entries = equipment_reach.entries;
    }
}

/// Merges the log of this endpoint from an index on, up to the first entry that does not agree with what is merged of
/// the other log.
fn advance(
    alloc: Global,
    merge: &mut Merge,
    end: Role,
    log: &[Entry],
    from: usize,
) -> Result<Reach, AllocError>
    requires { from ≤ length log.now }
    ensures within { IfOk result (λ reach. (from ≤ reach.entries) × (reach.entries ≤ length log.now)) }
    ensures reached { IfOk result (λ reach. (other : List Entry)
        → IsMergeOf end merge.old (numbered 0 (take from log.now)) (numbered 0 other)
        → IsMergeOf end merge.new (numbered 0 (take reach.entries log.now)) (numbered 0 other)) }
    ensures stops { IfOk result (λ reach. (other : List Entry)
        → IsMergeOf end merge.old (numbered 0 (take from log.now)) (numbered 0 other)
        → StopsAt log.now reach.entries other reach.stop) }
{
    for i in from..log.len() {
        match merge.add(alloc, end, i as u64, &log[i])? {
            MergeResult::Merged => {}
            MergeResult::NoneInFlight => {
                return Ok(Reach {
                    entries: i,
                    stop: Stop::Waits,
                });
            }
            MergeResult::OtherInFlight(position) => {
                return Ok(Reach {
                    entries: i,
                    stop: Stop::OtherSent(position),
                });
            }
        }
    }
    Ok(Reach {
        entries: log.len(),
        stop: Stop::Ended,
    })
}
