//! The counterparts of the frames of two logs that agree.

ghost use Rattle.std.specs.Prelude.{◌≡◌, ◌≤◌, ◌++◌, [], ◌∷◌, IfOk, OnOk, length};
ghost use Rattle.hsms_compare.specs.Conversation.{sent_by, received_by};
ghost use Rattle.hsms_compare_causes.specs.Counterparts.{counterpart_by, counterparts_from, counterparts_of, index_if, indexes_from, received_counterpart, sent_counterpart};
ghost use Rattle.hsms_compare_causes.specs.InnerSearch.{is_wanted};

use crate::connection_log::ConnectionLog;
use crate::traced_log::Counterpart;
use crate::wanted::Wanted;
use hsms_machine::{Entry, Event};
use std::alloc::{AllocError, Global};

/// Returns the counterparts of the own log's entries in the other log, which agrees with it.
pub fn counterparts(
    alloc: Global,
    own: &ConnectionLog,
    other: &ConnectionLog,
) -> Result<Vec<Counterpart>, AllocError>
    ensures { IfOk result (λ found.
        found.items ≡ counterparts_of own.now.entries.items other.now.entries.items other.now.is_open) }
{
    let sent = indexes(alloc, other.entries.as_slice(), Wanted::Sent)?;
    let received = indexes(alloc, other.entries.as_slice(), Wanted::Received)?;
    counterparts_in(
        alloc,
        own.entries.as_slice(),
        sent.as_slice(),
        received.as_slice(),
        other.is_open,
    )
}

/// Returns the indexes of the entries that are searched for.
fn indexes(alloc: Global, log: &[Entry], wanted: Wanted) -> Result<Vec<usize>, AllocError>
    ensures { IfOk result (λ found. found.items ≡ indexes_from (is_wanted wanted) 0 log.now) }
{
    let mut found = Vec::new(alloc);
    for i in 0..log.len() {
        push_if(&mut found, wanted.is(&log[i]), i)?;
    }
    Ok(found)
}

/// Appends an index if its entry is searched for.
fn push_if(found: &mut Vec<usize>, is_wanted: bool, index: usize) -> Result<(), AllocError>
    ensures { OnOk result (found.new.items ≡ found.old.items ++ index_if is_wanted index) }
{
    if is_wanted {
        found.push(index)?;
    }
    Ok(())
}

/// Returns the counterparts of the own entries. The other log sends and receives its frames with the entries at these
/// indexes.
fn counterparts_in(
    alloc: Global,
    own: &[Entry],
    sent: &[usize],
    received: &[usize],
    is_open: bool,
) -> Result<Vec<Counterpart>, AllocError>
    ensures { IfOk result (λ found. found.items ≡ counterparts_from sent.now received.now is_open 0 0 own.now) }
{
    let mut found = Vec::new(alloc);
    let mut sent_count = 0;
    let mut received_count = 0;
    for i in 0..own.len() {
        let event = &own[i].event;
        let next = counterpart(sent, received, is_open, sent_count, received_count, event);
        push_counterpart(&mut found, next)?;
        sent_count += count_of_sent(event);
        received_count += count_of_received(event);
    }
    Ok(found)
}

fn push_counterpart(
    found: &mut Vec<Counterpart>,
    counterpart: Counterpart,
) -> Result<(), AllocError>
    ensures { OnOk result (found.new.items ≡ found.old.items ++ counterpart ∷ []) }
{
    found.push(counterpart)?;
    Ok(())
}

/// Returns the counterpart of an event's frame. The own log sends and receives these numbers of frames before it.
fn counterpart(
    sent: &[usize],
    received: &[usize],
    is_open: bool,
    sent_count: usize,
    received_count: usize,
    event: &Event,
) -> Counterpart
    ensures { result ≡ counterpart_by sent.now received.now is_open sent_count received_count event.now }
{
    match event {
        Event::Sent(_) => of_sent(received, is_open, sent_count),
        Event::Taken(_) => of_received(sent, received_count),
        Event::Discarded(_) => of_received(sent, received_count),
        Event::Up => Counterpart::Undecided,
        Event::T3(_) => Counterpart::Undecided,
        Event::Cut(_) => Counterpart::Undecided,
        Event::Down => Counterpart::Undecided,
    }
}

fn of_sent(received: &[usize], is_open: bool, number: usize) -> Counterpart
    ensures { result ≡ sent_counterpart received.now is_open number }
{
    if number < received.len() {
        return Counterpart::At(received[number]);
    }
    if is_open {
        return Counterpart::Undecided;
    }
    Counterpart::NotReached
}

fn of_received(sent: &[usize], number: usize) -> Counterpart
    ensures { result ≡ received_counterpart sent.now number }
{
    if number < sent.len() {
        return Counterpart::At(sent[number]);
    }
    Counterpart::Undecided
}

/// Returns 1 if an event sends a frame, and otherwise 0.
fn count_of_sent(event: &Event) -> usize
    ensures count { result ≡ length (sent_by event.now) }
    ensures few { result ≤ 1 }
{
    match event {
        Event::Sent(_) => 1,
        Event::Taken(_) => 0,
        Event::Discarded(_) => 0,
        Event::Up => 0,
        Event::T3(_) => 0,
        Event::Cut(_) => 0,
        Event::Down => 0,
    }
}

/// Returns 1 if an event receives a frame, and otherwise 0.
fn count_of_received(event: &Event) -> usize
    ensures count { result ≡ length (received_by event.now) }
    ensures few { result ≤ 1 }
{
    match event {
        Event::Sent(_) => 0,
        Event::Taken(_) => 1,
        Event::Discarded(_) => 1,
        Event::Up => 0,
        Event::T3(_) => 0,
        Event::Cut(_) => 0,
        Event::Down => 0,
    }
}
