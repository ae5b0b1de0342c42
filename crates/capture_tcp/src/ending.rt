//! How the events of a connection end.

ghost use Rattle.std.specs.Prelude.{◌≡◌, Some, IfOk, OnOk};
ghost use Rattle.capture_tcp.specs.EndOfStream.{broken};
ghost use Rattle.capture_tcp.specs.InnerEndOfStream.{Finishes};
ghost use Rattle.capture_tcp.specs.InnerTimestamps.{EmitsInTime};
ghost use Rattle.capture_tcp.specs.TcpStreams.{earlier};

use crate::emitter::{Emitter, emit_before};
use crate::events::TimedEvent;
use crate::streams::Due;
use std::alloc::{AllocError, Global};
use std::collections::VecDeque;

/// How the events of a connection end.
#[derive(Clone, Copy, Debug, PartialEq, Eq)]
pub enum Ending {
    /// The connection is closed, and all its events were emitted. Nothing that follows adds to them.
    Closed,
    /// All events that its packets show were emitted, and more may follow.
    Complete,
    /// The capture lost something, as the packet with this number shows: it acknowledges missing bytes or, if no packet
    /// does, is out of order. Nothing is emitted from the first packet with missing data on, which may come before this
    /// packet.
    Lost(u64),
    /// The packet with this number carries other bytes than an earlier one. Nothing is emitted from it on.
    Differs(u64),
}

// Returns the lower of two packet numbers, if there are any.
pub(crate) fn least(one: Option<u64>, other: Option<u64>) -> Option<u64>
    ensures { result ≡ earlier one other }
{
    match (one, other) {
        (Some(one), Some(other)) => Some(one.min(other)),
        (one, None) => one,
        (None, other) => other,
    }
}

// Returns the ending of a log that stops at a loss or a conflicting retransmission.
fn broken(lost: Option<u64>, differs: Option<u64>) -> Ending
    ensures { result ≡ broken lost differs }
{
    match (lost, differs) {
        (Some(lost), Some(differs)) => {
            if lost < differs {
                Ending::Lost(lost)
            } else {
                Ending::Differs(differs)
            }
        }
        (Some(lost), None) => Ending::Lost(lost),
        (None, Some(differs)) => Ending::Differs(differs),
        (None, None) => Ending::Complete,
    }
}

/// Emits the remaining events before a loss and a conflicting retransmission, and returns the ending.
pub(crate) fn finish(
    alloc: Global,
    emitter: &mut Emitter,
    due: &mut VecDeque<Due>,
    lost: Option<u64>,
    differs: Option<u64>,
    emitted: &mut Vec<TimedEvent>,
) -> Result<Ending, AllocError>
    ensures emitted { IfOk result (λ e. Finishes lost differs emitter.old due.old.items emitted.old.items emitted.new.items e) }
    ensures times { OnOk result (EmitsInTime due.old.items emitted.old.items due.new.items emitted.new.items) }
{
    if emit_before(alloc, emitter, due, least(lost, differs), emitted)? {
        return Ok(Ending::Closed);
    }
    Ok(broken(lost, differs))
}
