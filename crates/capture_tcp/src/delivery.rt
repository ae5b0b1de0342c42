//! Packets of one connection by their offsets, and their delivery in order.

ghost use Rattle.std.specs.Prelude.{◌≡◌, ◌≤◌, ◌<◌, ◌+◌, ◌^◌, ◌++◌, IfOk, OnOk, OnErr, None, length, max, [], Err, IsOk};
ghost use Rattle.capture_tcp.specs.KnownStreams.{packet_of, seen_of, Flow, Known, ContinuesWith, bases, known};
ghost use Rattle.capture_tcp.specs.InnerKnownStreams.{latest_after, placed_as, step, step_by};
ghost use Rattle.capture_tcp.specs.TcpStreams.{is_taken};
ghost use Rattle.capture_tcp.specs.declared.delivery.DeliveryFault.TheVariants.{Memory, Far};

use crate::keep_alive::only_asks;
use crate::losses::BothEnds;
use crate::out_of_order::{free, put};
use crate::packet::{Packet, Segment, Side};
use crate::stream_offset::{acknowledged_place, numbered_place};
use std::alloc::{AllocError, Global};
use std::collections::VecDeque;
use std::marker::Model;

// The length up to which streams are followed.
const FAR: u64 = 1 << 62;

/// Why a segment is not accepted.
#[derive(Clone, Copy, Debug, PartialEq, Eq)]
pub enum DeliveryFault {
    /// A stream is longer than 2^62 bytes.
    Far,
    /// An allocation failed.
    Memory,
}

impl From<AllocError> for DeliveryFault {
    ghost from_gives = { λ _ f. f ≡ Memory };

    fn from(_: AllocError) -> DeliveryFault {
        DeliveryFault::Memory
    }
}

// The state of one direction. In-order packets of the other direction acknowledge it, and any packet of the other
// direction confirms it.
#[derive(Drop)]
struct Direction {
    base: u32,
    end: u64,
    acknowledged: u64,
    confirmed: u64,
    waiting: VecDeque<Packet>,
}

impl Model for Direction {
    ghost Value = { Flow };

    ghost view = { λ d. record {
      base = d.base;
      end = d.end;
      acknowledged = d.acknowledged;
      confirmed = d.confirmed;
      waiting = d.waiting.items;
    } };
}

impl Direction {
    // Creates an empty direction.
    fn new(alloc: Global, base: u32) -> Direction
        ensures { result ≡ record { base = base; end = 0; acknowledged = 0; confirmed = 0; waiting = [] } }
    {
        Direction {
            base,
            end: 0,
            acknowledged: 0,
            confirmed: 0,
            waiting: VecDeque::new(alloc),
        }
    }
}

/// The state of both directions of a connection, and the latest time of the packets. For each direction: where the
/// bytes without a gap end, what was acknowledged by in-order packets and by any packet, and which packets are out of
/// order. Contracts see what `known` states.
#[derive(Drop)]
pub struct DeliveryQueue {
    active: Direction,
    passive: Direction,
    latest: u64,
}

impl Model for DeliveryQueue {
    ghost Value = { Known };

    ghost view = { λ t. record { active = t.active; passive = t.passive; latest = t.latest } };
}

impl DeliveryQueue {
    /// Creates a connection without packets, from the sequence numbers of both SYNs. Does not allocate.
    pub fn new(alloc: Global, active: u32, passive: u32) -> DeliveryQueue
        ensures { result ≡ known (bases active passive) [] }
    {
        DeliveryQueue {
            active: Direction::new(alloc, active),
            passive: Direction::new(alloc, passive),
            latest: 0,
        }
    }

    /// Processes a segment with this payload, and returns the packets that are delivered at it, in their order. There
    /// are none if it is out of order or outside the window. Otherwise they are the packet itself and then those that
    /// it releases. Also returns the segment by its offset, if it is in the window, with the latest time of the packets
    /// up to it.
    ///
    /// # Errors
    ///
    /// Returns `Memory` if an allocation fails, and `Far` if a stream is longer than 2^62 bytes. Neither changes
    /// anything.
    pub fn take(
        &mut self,
        segment: Segment,
        octets: &[u8],
        emitted: &mut Vec<Packet>,
    ) -> Result<Option<Packet>, DeliveryFault>
        ensures ok { IfOk result (ContinuesWith self.old emitted.old.items (seen_of segment octets.now) self.new emitted.new.items) }
        ensures err { OnErr result ((self.new ≡ self.old) × (emitted.new.items ≡ emitted.old.items)) }
        ensures far { result ≡ Err Far → 2 ^ 62 ≤ max self.old.active.end self.old.passive.end }
        ensures near { IsOk result → max self.old.active.end self.old.passive.end < 2 ^ 62 }
    {
        if self.active.end.max(self.passive.end) >= FAR {
            return Err(DeliveryFault::Far);
        }
        let timed = raised(self.latest, segment);
        match segment.from {
            Side::Active => {
                let placed = follow(&mut self.active, &mut self.passive, timed, octets, emitted)?;
                self.latest = latest_after(self.latest, placed);
                Ok(placed)
            }
            Side::Passive => {
                let placed = follow(&mut self.passive, &mut self.active, timed, octets, emitted)?;
                self.latest = latest_after(self.latest, placed);
                Ok(placed)
            }
        }
    }

    /// Returns the ends of the bytes without a gap.
    pub fn ends(&self) -> BothEnds
        ensures { result ≡ record { active = self.now.active.end; passive = self.now.passive.end } }
    {
        BothEnds {
            active: self.active.end,
            passive: self.passive.end,
        }
    }

    /// Returns the offsets up to which the in-order packets of the other direction acknowledge each direction.
    pub fn received(&self) -> BothEnds
        ensures { result ≡ record { active = self.now.active.acknowledged; passive = self.now.passive.acknowledged } }
    {
        BothEnds {
            active: self.active.acknowledged,
            passive: self.passive.acknowledged,
        }
    }
}

// Returns the segment with the latest time of the packets up to it.
fn raised(latest: u64, segment: Segment) -> Segment
    ensures { result ≡ record segment { time = max latest segment.time } }
{
    Segment {
        time: latest.max(segment.time),
        ..segment
    }
}

// Returns the latest time after a packet, if it has an offset.
fn latest_after(latest: u64, placed: Option<Packet>) -> u64
    ensures { result ≡ latest_after latest placed }
{
    match placed {
        Some(packet) => packet.time,
        None => latest,
    }
}

// Processes a segment of one direction.
fn follow(
    own: &mut Direction,
    peer: &mut Direction,
    segment: Segment,
    octets: &[u8],
    emitted: &mut Vec<Packet>,
) -> Result<Option<Packet>, AllocError>
    requires own { own.old.end < 2 ^ 62 }
    requires peer { peer.old.end < 2 ^ 62 }
    ensures own { OnOk result (own.new ≡ (step own.old peer.old (seen_of segment octets.now)).own) }
    ensures peer { OnOk result (peer.new ≡ (step own.old peer.old (seen_of segment octets.now)).peer) }
    ensures emitted { OnOk result (emitted.new.items ≡ emitted.old.items ++ (step own.old peer.old (seen_of segment octets.now)).emitted) }
    ensures placed { IfOk result (λ placed. placed ≡ (step own.old peer.old (seen_of segment octets.now)).placed) }
    ensures err { OnErr result ((own.new ≡ own.old) × (peer.new ≡ peer.old) × (emitted.new.items ≡ emitted.old.items)) }
{
    let Some(place) = numbered_place(own.base, own.end, segment.number) else {
        return Ok(None);
    };
    let acknowledged = acknowledged_place(peer.base, peer.end, segment.acknowledged);
    let packet = packet_at(own.end, own.confirmed, place, acknowledged, segment, octets);
    queue(own, peer, packet, emitted)?;
    Ok(Some(packet))
}

// Returns a segment as a packet at its offset.
fn packet_at(
    end: u64,
    received: u64,
    place: u64,
    acknowledged: Option<u64>,
    segment: Segment,
    octets: &[u8],
) -> Packet
    requires { place ≤ 2 ^ 62 + 2 ^ 26 }
    ensures { result ≡ packet_of (placed_as end received (seen_of segment octets.now) place acknowledged) }
{
    Packet {
        packet: segment.packet,
        time: segment.time,
        from: place,
        to: place + count_of(received, place, segment, octets),
        acknowledged,
        reset: segment.reset && takes_reset(end, received, segment.acknowledged, place),
    }
}

// Returns true if the other end takes a RST at an offset.
fn takes_reset(end: u64, received: u64, acknowledged: Option<u32>, place: u64) -> bool
    ensures { result ≡ is_taken end received acknowledged place }
{
    received <= place && (acknowledged.is_some() || place <= end)
}

// Returns the number of cells that a segment carries.
fn count_of(received: u64, place: u64, segment: Segment, octets: &[u8]) -> u64
    ensures value { result ≡ length (placed_as 0 received (seen_of segment octets.now) place None).cells }
    ensures bound { result < 2 ^ 63 + 2 }
{
    let flags = segment.flags;
    if segment.reset || only_asks(received, place, flags, octets) {
        return 0;
    }
    u64::from(flags.syn) + octets.len() as u64 + u64::from(flags.fin)
}

// Inserts a packet into the queue of its direction, and removes from its front the packets that are delivered now.
fn queue(
    own: &mut Direction,
    peer: &mut Direction,
    packet: Packet,
    emitted: &mut Vec<Packet>,
) -> Result<(), AllocError>
    ensures own { OnOk result (own.new ≡ (step_by own.old peer.old packet).own) }
    ensures peer { OnOk result (peer.new ≡ (step_by own.old peer.old packet).peer) }
    ensures emitted { OnOk result (emitted.new.items ≡ emitted.old.items ++ (step_by own.old peer.old packet).emitted) }
    ensures err { OnErr result ((own.new ≡ own.old) × (peer.new ≡ peer.old) × (emitted.new.items ≡ emitted.old.items)) }
{
    emitted.reserve(own.waiting.len() + 1)?;
    put(&mut own.waiting, packet)?;
    let (end, acknowledged) = free(&mut own.waiting, own.end, peer.acknowledged, emitted)?;
    own.end = end;
    peer.acknowledged = acknowledged;
    peer.confirmed = peer.confirmed.max(packet.acknowledged.unwrap_or(0));
    Ok(())
}
