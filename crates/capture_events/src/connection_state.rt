//! A connection that starts with a SYN.

ghost use Rattle.std.specs.Prelude.{◌≡◌, ◌++◌, ◌∷◌, [], ℕ, ◌&&◌, not, IfOk, OnOk, List, map};
ghost use Rattle.capture_tcp.specs.KnownStreams.{seen_of};
ghost use Rattle.capture_tcp.specs.Laws.{AreNumbered};
ghost use Rattle.capture_tcp.specs.TcpStreams.{Seen};
ghost use Rattle.capture_events.specs.ConnectionItems.{connection_items, is_over, is_there, lost_by};
ghost use Rattle.capture_events.specs.ConnectionState.{EndsConnection, StateIs, TakesPacket, is_idle};
ghost use Rattle.capture_events.specs.InnerConnectionState.{answers, shows, state_by};
ghost use Rattle.capture_events.specs.declared.connection_state.ConnectionState.TheVariants.{Opening};
ghost use Rattle.capture_events.specs.LoggedEvents.{seen_waiting};

use crate::event::Event;
use crate::incomplete::Shortfall;
use crate::tracked_connection::{TrackedConnection, conclude, end, take, take_all, track};
use crate::waiting::Waiting;
use capture_log::Pair;
use capture_tcp::{Segment, Side};
use std::alloc::{AllocError, Global};

// The maximum number of packets that wait for the sequence number of the passive end's SYN.
const GREATEST_WAIT: usize = 4096;

/// A captured TCP segment with its payload.
#[derive(Clone, Copy)]
pub struct CapturedSegment<'a> {
    pub segment: Segment,
    pub octets: &'a [u8],
}

/// The state of such a connection.
#[derive(Drop)]
pub enum ConnectionState {
    /// The sequence number of the passive end's SYN is not known yet. These packets wait for it.
    Opening(Vec<Waiting>),
    /// The connection is tracked.
    Tracked(TrackedConnection),
    /// The connection has no further events.
    Over,
}

impl ConnectionState {
    /// Creates a connection without packets.
    pub fn new(alloc: Global) -> ConnectionState
        ensures { (most number : ℕ) → StateIs most number [] result }
    {
        ConnectionState::Opening(Vec::new(alloc))
    }

    /// Processes a packet, and appends its events. `syn` is the sequence number of the active end's SYN, and `max` the
    /// length of the longest message that the endpoints take.
    ///
    /// # Errors
    ///
    /// Returns `AllocError` if an allocation fails.
    pub fn take(
        self,
        alloc: Global,
        max: u32,
        pair: &Pair,
        syn: u32,
        packet: CapturedSegment<'_>,
        events: &mut Vec<Event>,
    ) -> Result<ConnectionState, AllocError>
        ensures { IfOk result (λ state. TakesPacket max pair.now syn
            (seen_of packet.entry.segment packet.entry.octets.now) self state events.old.items events.new.items) }
    {
        match self {
            ConnectionState::Over => Ok(ConnectionState::Over),
            ConnectionState::Tracked(tracked) => {
                let CapturedSegment { segment, octets } = packet;
                let left = take(alloc, max, pair, tracked, segment, octets, events)?;
                Ok(state_of(left))
            }
            ConnectionState::Opening(waiting) => {
                wait(alloc, max, pair, syn, waiting, packet, events)
            }
        }
    }

    /// Appends the last events of a connection without further packets: a later connection replaces it, or the capture
    /// ends, where data may be missing.
    ///
    /// # Errors
    ///
    /// Returns `AllocError` if an allocation fails.
    pub fn end(
        self,
        alloc: Global,
        pair: &Pair,
        is_replaced: bool,
        missing: Option<Shortfall>,
        events: &mut Vec<Event>,
    ) -> Result<(), AllocError>
        ensures { OnOk result ((most number : ℕ) → EndsConnection most pair.now number is_replaced missing self
            events.old.items events.new.items) }
    {
        match self {
            ConnectionState::Over => Ok(()),
            ConnectionState::Tracked(tracked) => end(
                alloc,
                pair,
                tracked,
                is_replaced,
                missing,
                events,
            ),
            ConnectionState::Opening(waiting) => conclude(pair, false, lost_by(&waiting), events),
        }
    }

    /// Returns true if the connection has no further events, whichever packets follow.
    pub fn is_over(&self) -> bool
        ensures { (most number : ℕ) (seen : List Seen) → AreNumbered 0 seen → StateIs most number seen self.now
            → result ≡ is_over (connection_items most number seen) }
    {
        match self {
            ConnectionState::Opening(_) => false,
            ConnectionState::Tracked(_) => false,
            ConnectionState::Over => true,
        }
    }

    /// Returns true if the connection has no further events, unless more of its packets follow.
    pub fn is_idle(&self) -> bool
        ensures { (most number : ℕ) (seen : List Seen) → AreNumbered 0 seen → StateIs most number seen self.now
            → result ≡ is_idle most number seen }
    {
        match self {
            ConnectionState::Opening(waiting) => lost_by(waiting).is_none(),
            ConnectionState::Tracked(_) => false,
            ConnectionState::Over => true,
        }
    }
}

// Returns the state of a tracked connection, or of one that has ended.
fn state_of(left: Option<TrackedConnection>) -> ConnectionState
    ensures { result ≡ state_by left }
{
    match left {
        Some(tracked) => ConnectionState::Tracked(tracked),
        None => ConnectionState::Over,
    }
}

// Buffers a packet. If it is the passive end's SYN, processes all buffered packets. If too many wait, ends the
// connection.
fn wait(
    alloc: Global,
    max: u32,
    pair: &Pair,
    syn: u32,
    mut waiting: Vec<Waiting>,
    packet: CapturedSegment<'_>,
    events: &mut Vec<Event>,
) -> Result<ConnectionState, AllocError>
    ensures { IfOk result (λ state. TakesPacket max pair.now syn
        (seen_of packet.entry.segment packet.entry.octets.now) (Opening waiting) state
        events.old.items events.new.items) }
{
    let CapturedSegment { segment, octets } = packet;
    let mut held = Vec::new(alloc);
    held.extend_from_slice(octets)?;
    waiting.push(Waiting {
        segment,
        octets: held,
    })?;
    if is_answer(&segment, syn) {
        let tracked = track(alloc, syn, segment.number);
        let left = take_all(alloc, max, pair, tracked, waiting, events)?;
        return Ok(state_of(left));
    }
    if waiting.len() <= GREATEST_WAIT {
        return Ok(ConnectionState::Opening(waiting));
    }
    conclude(pair, false, lost_by(&waiting), events)?;
    Ok(ConnectionState::Over)
}

// Returns true if a segment is the passive end's SYN that acknowledges this sequence number of the active end's.
fn is_answer(segment: &Segment, syn: u32) -> bool
    ensures { result ≡ answers syn segment.now }
{
    match (segment.from, segment.acknowledged) {
        (Side::Passive, Some(number)) => segment.flags.syn && number == syn.wrapping_add(1),
        (Side::Passive, None) | (Side::Active, _) => false,
    }
}

// Returns the loss of the passive end's SYN, at the first packet that shows it. Returns `None` if none does: the
// connection was refused, or is half open.
fn lost_by(waiting: &[Waiting]) -> Option<Shortfall>
    ensures { result ≡ lost_by (map seen_waiting waiting.now) }
{
    for packet in waiting {
        if shows_loss(packet) {
            return Some(Shortfall::Lost(packet.segment.packet));
        }
    }
    None
}

// Returns true if a packet shows that the passive end sent its SYN. The payload of a reset is text for a reader.
fn shows_loss(packet: &Waiting) -> bool
    ensures { result ≡ shows packet.now.segment.from packet.now.segment.acknowledged
        (is_there packet.now.octets.items && not packet.now.segment.reset) }
{
    let is_some = !packet.octets.is_empty() && !packet.segment.reset;
    match packet.segment.from {
        Side::Active => packet.segment.acknowledged.is_some() || is_some,
        Side::Passive => is_some,
    }
}
