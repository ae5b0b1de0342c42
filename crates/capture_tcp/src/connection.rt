//! One connection: it processes segments one after another and emits events.

ghost use Rattle.std.specs.Prelude.{◌≡◌, IfErr, IfOk, OnOk, []};
ghost use Rattle.capture_tcp.specs.declared.connection.ConnectionFault.TheVariants.{Memory};
ghost use Rattle.capture_tcp.specs.ReaderInvariant.{EndsAs, StateInvariant, TakesOn};
ghost use Rattle.capture_tcp.specs.InnerReaderInvariant.{Followed, of_side};
ghost use Rattle.std.specs.Option.{option_map};
ghost use Rattle.capture_tcp.specs.EndOfStream.{shown_by};
ghost use Rattle.capture_tcp.specs.Losses.{shown_of};
ghost use Rattle.capture_tcp.specs.Limits.{of_turns, of_held, ContinuesBy, StopsBy};
ghost use Rattle.capture_tcp.specs.InnerLimits.{ContinuesAt, StopsAt};
ghost use Rattle.capture_tcp.specs.Timestamps.{EndsInTime, IsInTime, TakesInTime};
ghost use Rattle.capture_tcp.specs.InnerTimestamps.{FollowsInTime};
ghost use Rattle.capture_tcp.specs.KnownStreams.{bases, seen_of};

use crate::delivery::{DeliveryFault, DeliveryQueue};
use crate::emitter::Emitter;
use crate::ending::{Ending, finish};
use crate::events::{EmitterState, TimedEvent};
use crate::losses::{BothEnds, Losses};
use crate::packet::{Segment, Side};
use crate::reader_state::{Arrival, Reading, react};
use crate::reassembly::{ReassemblyBuffer, ReassemblyFault};
use crate::streams::{Stream, Streams};
use std::alloc::{AllocError, Global};
use std::collections::VecDeque;

/// Why a connection cannot be followed further.
#[derive(Clone, Copy, Debug, PartialEq, Eq)]
pub enum ConnectionFault {
    /// A stream is longer than 2^62 bytes.
    Far,
    /// More than 2^26 bytes of a direction wait to be emitted or acknowledged.
    Full,
    /// An allocation failed.
    Memory,
}

impl From<AllocError> for ConnectionFault {
    ghost from_gives = { λ _ f. f ≡ Memory };

    fn from(_: AllocError) -> ConnectionFault {
        ConnectionFault::Memory
    }
}

impl From<DeliveryFault> for ConnectionFault {
    ghost from_gives = { λ fault f. f ≡ of_turns fault };

    fn from(fault: DeliveryFault) -> ConnectionFault {
        match fault {
            DeliveryFault::Far => ConnectionFault::Far,
            DeliveryFault::Memory => ConnectionFault::Memory,
        }
    }
}

impl From<ReassemblyFault> for ConnectionFault {
    ghost from_gives = { λ fault f. f ≡ of_held fault };

    fn from(fault: ReassemblyFault) -> ConnectionFault {
        match fault {
            ReassemblyFault::Full => ConnectionFault::Full,
            ReassemblyFault::Memory => ConnectionFault::Memory,
        }
    }
}

/// A connection that starts with a SYN, while its capture is read. The numbers of its packets increase, from 1 on.
/// Contracts see what `StateInvariant` states of it.
pub struct Connection {
    turns: DeliveryQueue,
    reading: Reading,
    ending: Option<Ending>,
}

// Written out so that a proof has one step for a dropped value, not one for each of its parts.
impl Drop for Connection {
    fn drop(self) {
        let Connection {
            turns,
            reading,
            ending: _,
        } = self;
        drop(turns);
        drop(reading);
    }
}

impl Connection {
    /// Creates a connection without packets, from the sequence numbers of both SYNs. Does not allocate.
    pub fn new(alloc: Global, active: u32, passive: u32) -> Connection
        ensures emitted { StateInvariant result [] (bases active passive) [] }
        ensures times { IsInTime result [] (bases active passive) [] }
        ensures open { result.ending ≡ None }
    {
        let emitter = Emitter {
            streams: Streams {
                active: Stream {
                    held: ReassemblyBuffer::new(alloc),
                    place: 0,
                },
                passive: Stream {
                    held: ReassemblyBuffer::new(alloc),
                    place: 0,
                },
            },
            emitter_state: EmitterState::Waiting(None),
            opened: false,
        };
        let reading = Reading {
            losses: Losses::new(alloc),
            emitter,
            due: VecDeque::new(alloc),
            differs: None,
        };
        Connection {
            turns: DeliveryQueue::new(alloc, active, passive),
            reading,
            ending: None,
        }
    }

    /// Processes a segment with its payload, and appends to `emitted` the events that are final now. The caller may
    /// have removed earlier events from `emitted`.
    ///
    /// # Errors
    ///
    /// Returns `Far` if a stream is longer than 2^62 bytes. Returns `Full` if a packet ends more than 2^26 bytes after
    /// the first byte of its direction that is not yet emitted or not acknowledged; nothing is emitted with it. Returns
    /// `Memory` if an allocation fails. The connection is dropped then.
    pub fn take(
        self,
        alloc: Global,
        segment: Segment,
        octets: &[u8],
        emitted: &mut Vec<TimedEvent>,
    ) -> Result<Connection, ConnectionFault>
        ensures emitted { IfOk result (λ next. TakesOn self (seen_of segment octets.now) emitted.old.items next emitted.new.items) }
        ensures times { IfOk result (λ next. TakesInTime self (seen_of segment octets.now) emitted.old.items next emitted.new.items) }
        ensures kept { IfErr result (λ fault. (fault ≡ Memory → ⊥) → emitted.new.items ≡ emitted.old.items) }
        ensures stops { IfErr result (λ fault. StopsBy self emitted.old.items (seen_of segment octets.now) fault) }
        ensures proceeds { OnOk result (ContinuesBy self emitted.old.items (seen_of segment octets.now)) }
    {
        let mut connection = self;
        if connection.ending.is_some() {
            return Ok(connection);
        }
        connection.ending = follow(
            alloc,
            &mut connection.turns,
            &mut connection.reading,
            segment,
            octets,
            emitted,
        )?;
        Ok(connection)
    }

    /// Returns how the events end, once that is final: no more events follow then.
    pub fn ending(&self) -> Option<Ending>
        ensures { result ≡ self.now.ending }
    {
        self.ending
    }

    /// Appends the remaining events to `emitted`, if no segment follows, and returns how the events end. The caller may
    /// have removed earlier events from `emitted`.
    ///
    /// # Errors
    ///
    /// Returns `Memory` if an allocation fails.
    pub fn end(
        self,
        alloc: Global,
        emitted: &mut Vec<TimedEvent>,
    ) -> Result<Ending, ConnectionFault>
        ensures emitted { IfOk result (λ ending. EndsAs self emitted.old.items emitted.new.items ending) }
        ensures times { OnOk result (EndsInTime self emitted.old.items emitted.new.items) }
        ensures stops { IfErr result (λ fault. fault ≡ Memory) }
    {
        let mut connection = self;
        if let Some(ending) = connection.ending {
            return Ok(ending);
        }
        let ends = connection.turns.ends();
        let reading = &mut connection.reading;
        let lost = reading.losses.first();
        let ending = finish(
            alloc,
            &mut reading.emitter,
            &mut reading.due,
            lost,
            reading.differs,
            emitted,
        )?;
        Ok(shown(ending, &reading.losses, ends))
    }
}

// Returns the value of one end.
fn of_side(both: BothEnds, side: Side) -> u64
    ensures { result ≡ of_side both side }
{
    match side {
        Side::Active => both.active,
        Side::Passive => both.passive,
    }
}

// Returns the ending, with the packet that shows a loss.
fn shown(ending: Ending, losses: &Losses, ends: BothEnds) -> Ending
    ensures { result ≡ shown_by (shown_of ends losses.now) ending }
{
    match ending {
        Ending::Lost(packet) => Ending::Lost(losses.shown(ends).unwrap_or(packet)),
        Ending::Closed | Ending::Complete | Ending::Differs(_) => ending,
    }
}

// Returns the ending with the packet that shows a loss, if there is an ending.
fn shown_if(ending: Option<Ending>, losses: &Losses, ends: BothEnds) -> Option<Ending>
    ensures { result ≡ option_map (shown_by (shown_of ends losses.now)) ending }
{
    match ending {
        Some(ending) => Some(shown(ending, losses, ends)),
        None => None,
    }
}

// Processes a segment of a connection that has not ended.
fn follow(
    alloc: Global,
    turns: &mut DeliveryQueue,
    reading: &mut Reading,
    segment: Segment,
    octets: &[u8],
    emitted: &mut Vec<TimedEvent>,
) -> Result<Option<Ending>, ConnectionFault>
    ensures emitted { IfOk result (λ r. Followed turns.old reading.old segment octets.now emitted.old.items turns.new reading.new emitted.new.items r) }
    ensures times { OnOk result (FollowsInTime turns.old reading.old segment octets.now emitted.old.items reading.new emitted.new.items) }
    ensures kept { IfErr result (λ fault. (fault ≡ Memory → ⊥) → emitted.new.items ≡ emitted.old.items) }
    ensures stops { IfErr result (λ fault. StopsAt turns.old reading.old segment octets.now emitted.old.items fault) }
    ensures proceeds { OnOk result (ContinuesAt turns.old reading.old segment octets.now emitted.old.items) }
{
    let acknowledged = of_side(turns.received(), segment.from);
    let mut freed = Vec::new(alloc);
    let Some(packet) = turns.take(segment, octets, &mut freed)? else {
        return Ok(None);
    };
    let arrival = Arrival {
        from: segment.from,
        flags: segment.flags,
        packet,
        acknowledged,
        ends: turns.ends(),
        received: turns.received(),
    };
    let ending = react(alloc, reading, arrival, octets, &freed, emitted)?;
    Ok(shown_if(ending, &reading.losses, arrival.ends))
}
