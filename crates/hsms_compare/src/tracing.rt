//! A request traced through the logs of both ends.

ghost use Rattle.std.specs.Prelude.{◌≡◌, ◌↔◌, ◌+◌, ◌<◌, ◌≤◌, [], Some, length, take, MatchOption, IfSome, IfNone, IsTrue};
ghost use Rattle.hsms_machine.specs.Entry.{entry_at};
ghost use Rattle.hsms_machine.specs.Transaction.{closes_taken};
ghost use Rattle.hsms_compare.specs.Conversation.{sent, received, sent_by, received_by};
ghost use Rattle.hsms_compare.specs.Agreement.{ReceivesAs};
ghost use Rattle.hsms_compare.specs.Outcome.{IsOutcome, IsDeliveredAt, IsNotDelivered, IsTakenAt, IsClosedAt, IsNeverClosed, taken_by};
ghost use Rattle.hsms_frame.specs.Frame.{Frame};

use crate::comparison::is_sent;
use crate::outcome::Outcome;
use hsms_frame::Header;
use hsms_machine::{Entry, Event, Message, concludes};

/// Returns the outcome of the frame that the own log sends with the entry at an index. Returns `None` if that entry
/// sends no frame. An answer is in time within `limit` milliseconds, by the other endpoint's clock.
pub fn outcome_of(own: &[Entry], other: &[Entry], index: usize, limit: u64) -> Option<Outcome>
    ensures some { IfSome result (IsOutcome own.now other.now index limit) }
    ensures none { IfNone result (sent_by (entry_at own.now index).event ≡ []) }
{
    if index < own.len() && is_sent(&own[index].event) {
        Some(outcome_at(own, other, index, limit))
    } else {
        None
    }
}

fn outcome_at(own: &[Entry], other: &[Entry], index: usize, limit: u64) -> Outcome
    requires within { index < length own.now }
    requires sends { 0 < length (sent_by (entry_at own.now index).event) }
    ensures { IsOutcome own.now other.now index limit result }
{
    let Some(at) = delivered(own, index, other) else {
        return Outcome::NotReceived;
    };
    let received = at as u64;
    let Some(request) = taken(&other[at].event) else {
        return Outcome::Discarded {
            discarded: received,
        };
    };
    let Some(answer) = closing(other, at, request) else {
        return Outcome::Unanswered { received };
    };
    let answered = answer as u64;
    let took = other[answer].time.saturating_sub(other[at].time);
    if took > limit {
        return Outcome::AnsweredLate {
            received,
            answered,
            took,
        };
    }
    let Some(receipt) = delivered(other, answer, own) else {
        return Outcome::ReplyNotReceived {
            received,
            answered,
            took,
        };
    };
    Outcome::Replied {
        received,
        answered,
        took,
        reply: receipt as u64,
        after: own[receipt].time.saturating_sub(own[index].time),
    }
}

/// Returns the entry with which the receiver's log receives what the sender's log sends with the entry at an index.
fn delivered(sender: &[Entry], index: usize, receiver: &[Entry]) -> Option<usize>
    requires within { index < length sender.now }
    requires sends { 0 < length (sent_by (entry_at sender.now index).event) }
    ensures { MatchOption result
        (IsNotDelivered sender.now index receiver.now) (IsDeliveredAt sender.now index receiver.now) }
{
    receipt(receiver, sent_before(sender, index))
}

/// Returns the number of frames that a log sends before the entry at an index.
fn sent_before(log: &[Entry], index: usize) -> usize
    requires { index < length log.now }
    ensures { result ≡ length (sent (take index log.now)) }
{
    let mut count = 0;
    for i in 0..index {
        if is_sent(&log[i].event) {
            count += 1;
        }
    }
    count
}

/// Returns the entry with which a log receives its frame of this number, counted from 0.
fn receipt(log: &[Entry], number: usize) -> Option<usize>
    ensures { MatchOption result
        (length (received log.now) ≤ number) (λ i. (frame : Frame) × ReceivesAs log.now i frame number) }
{
    let mut count = 0;
    for i in 0..log.len() {
        if is_received(&log[i].event) {
            if count == number {
                return Some(i);
            }
            count += 1;
        }
    }
    None
}

/// Returns whether an event receives a frame.
pub fn is_received(event: &Event) -> bool
    ensures { IsTrue result ↔ (0 < length (received_by event.now)) }
{
    match event {
        Event::Sent(_) => false,
        Event::Taken(_) => true,
        Event::Discarded(_) => true,
        Event::Up => false,
        Event::T3(_) => false,
        Event::Cut(_) => false,
        Event::Down => false,
    }
}

/// Returns the header of the request that an event accepts.
fn taken(event: &Event) -> Option<Header>
    ensures { result ≡ taken_by event.now }
{
    match event {
        Event::Sent(_) => None,
        Event::Taken(frame) => Some(frame.header),
        Event::Discarded(_) => None,
        Event::Up => None,
        Event::T3(_) => None,
        Event::Cut(_) => None,
        Event::Down => None,
    }
}

/// Returns the first entry that closes the transaction that the entry at an index opened, by accepting this request.
fn closing(log: &[Entry], index: usize, request: Header) -> Option<usize>
    requires within { index < length log.now }
    requires taken { taken_by (entry_at log.now index).event ≡ Some request }
    ensures { MatchOption result (IsNeverClosed log.now index) (IsClosedAt log.now index) }
{
    for i in index + 1..log.len() {
        if closes(request, &log[i].event) {
            return Some(i);
        }
    }
    None
}

/// Returns whether an event closes the transaction of an accepted request.
pub fn closes(request: Header, event: &Event) -> bool
    ensures { result ≡ closes_taken request event.now }
{
    match event {
        Event::Sent(frame) => concludes(request, Message::of(frame.header)),
        Event::Taken(_) => false,
        Event::Discarded(_) => false,
        Event::Up => false,
        Event::T3(_) => false,
        Event::Cut(_) => false,
        Event::Down => false,
    }
}
