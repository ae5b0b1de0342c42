//! The packets of a session, as those of a connection whose SYNs stand before the places at which its directions begin.

ghost use Rattle.std.specs.Prelude.{◌≡◌, ◌&&◌, ◌||◌, IfNone, IfSome, false};
ghost use Rattle.capture_midstream.specs.SyntheticHandshake.{IsStart, has_both, opening_as, opening_by, segment_by, shows};

use crate::buffered_packet::BufferedPacket;
use crate::sequence_numbers::{is_from, number_following, number_from, reaches};
use crate::sync_packet::Start;
use capture_tcp::{Flags, Segment, Side};

/// The packet with which both directions have begun, where they begin at these numbers.
#[tactic(auto, using(crate::proofs::Starts::passed_none, crate::proofs::Starts::passed_all))]
pub fn start_of(packets: &[BufferedPacket], active: u32, passive: u32) -> Option<Start>
    ensures some { IfSome result (IsStart active passive packets.now) }
    ensures none { IfNone result (has_both active passive packets.now ≡ false) }
{
    let mut has_active = false;
    let mut has_passive = false;
    let mut time = 0;
    let mut rest = packets;
    while let Some((packet, others)) = rest.split_first() {
        has_active = has_begun(has_active, packet, Side::Active, active);
        has_passive = has_begun(has_passive, packet, Side::Passive, passive);
        time = packet.segment.time.max(time);
        if are_both(has_active, has_passive) {
            return Some(Start {
                packet: packet.segment.packet,
                time,
            });
        }
        rest = others;
    }
    None
}

// Whether a direction has begun, before a packet or with it.
fn has_begun(before: bool, packet: &BufferedPacket, side: Side, begin: u32) -> bool
    ensures { result ≡ (before || shows side begin packet.now) }
{
    if before {
        return true;
    }
    shows(packet, side, begin)
}

// Whether both directions have begun.
fn are_both(active: bool, passive: bool) -> bool
    ensures { result ≡ (active && passive) }
{
    if active {
        return passive;
    }
    false
}

// Whether a packet shows that a direction has begun: it brings what stands there, or ends there, or acknowledges it.
fn shows(packet: &BufferedPacket, side: Side, begin: u32) -> bool
    ensures { result ≡ shows side begin packet.now }
{
    if packet.segment.from == side {
        return reaches(begin, packet.segment.number, packet.octets.len());
    }
    match packet.segment.acknowledged {
        Some(number) => is_from(begin, number),
        None => false,
    }
}

/// The part of a segment that stands from the beginning of its direction on, where it has so many octets: those of
/// `octets_before` are cut off. A FIN before the beginning is none.
pub fn segment_from(begin: u32, segment: Segment, length: usize) -> Segment
    ensures { result ≡ segment_by begin segment length }
{
    let is_there = is_from(begin, number_following(segment.number, length));
    let flags = Flags {
        syn: false,
        fin: segment.flags.fin && is_there,
        pushed: segment.flags.pushed,
    };
    Segment {
        number: number_from(begin, segment.number),
        flags,
        ..segment
    }
}

/// The three segments by which a connection comes up (RFC 9293, section 3.5).
#[derive(Clone, Copy)]
pub struct Handshake {
    /// The SYN of the active end.
    pub syn: Segment,
    /// The SYN of the passive end, which acknowledges it.
    pub answer: Segment,
    /// The active end's ACK of that.
    pub acknowledgement: Segment,
}

/// The three segments by which a connection comes up (RFC 9293, section 3.5), whose directions begin at these
/// numbers.
pub fn opening(active: u32, passive: u32) -> Handshake
    ensures { result ≡ opening_by active passive }
{
    let syn = opening_segment(1, Side::Active, active.wrapping_sub(1), None, true);
    let answer = opening_segment(
        2,
        Side::Passive,
        passive.wrapping_sub(1),
        Some(active),
        true,
    );
    let acknowledgement = opening_segment(3, Side::Active, active, Some(passive), false);
    Handshake {
        syn,
        answer,
        acknowledgement,
    }
}

// One of them.
fn opening_segment(
    packet: u64,
    from: Side,
    number: u32,
    acknowledged: Option<u32>,
    syn: bool,
) -> Segment
    ensures { result ≡ opening_as packet from number acknowledged syn }
{
    Segment {
        from,
        packet,
        time: 0,
        number,
        acknowledged,
        flags: Flags {
            syn,
            fin: false,
            pushed: false,
        },
        reset: false,
    }
}
