//! The octets of a direction by their places, as packets brought them.

ghost use Rattle.std.specs.Prelude.{◌≡◌, ◌≤◌, IfOk, map};
ghost use Rattle.capture_tcp.specs.declared.packet.Side.{Side as Direction};
ghost use Rattle.capture_midstream.specs.BufferedPacket.{acknowledged_after, counts, acknowledged_number, acknowledged_of, first_number, highest, is_same, later_of, lowest, midst, number_at, own_number, own_of, piece_of, pieces_from, place_by};
ghost use Rattle.capture_midstream.specs.InnerBufferedPacket.{placed_by, placed_of};

use crate::buffered_packet::BufferedPacket;
use crate::chunk::Piece;
use crate::sequence_numbers::is_from;
use capture_tcp::{Flags, Side, only_asks};
use std::alloc::{AllocError, Global};

// The place of the first number that is known of a direction.
pub(crate) const MIDST: u32 = 1 << 25;

// The place behind the last one that an octet may have.
const END: u64 = 1 << 26;

/// The first number that is known of a direction.
pub(crate) fn first_number(packets: &[BufferedPacket], side: Side) -> u32
    ensures { result ≡ first_number side packets.now }
{
    let own = own_number(packets, side);
    let acknowledged = acknowledged_number(packets, side);
    later_of(own, acknowledged)
}

// The number of the first packet of a direction.
fn own_number(packets: &[BufferedPacket], side: Side) -> Option<u32>
    ensures { result ≡ own_number side packets.now }
{
    let mut rest = packets;
    while let Some((packet, others)) = rest.split_first() {
        if let Some(number) = own_of(packet, side) {
            return Some(number);
        }
        rest = others;
    }
    None
}

// The number of a packet, if it is of a direction.
fn own_of(packet: &BufferedPacket, side: Side) -> Option<u32>
    ensures { result ≡ own_of side packet.now }
{
    if packet.segment.from == side {
        Some(packet.segment.number)
    } else {
        None
    }
}

// The first number that the other direction acknowledges.
fn acknowledged_number(packets: &[BufferedPacket], side: Side) -> Option<u32>
    ensures { result ≡ acknowledged_number side packets.now }
{
    let mut rest = packets;
    while let Some((packet, others)) = rest.split_first() {
        if let Some(number) = acknowledged_of(packet, side) {
            return Some(number);
        }
        rest = others;
    }
    None
}

// What a packet acknowledges of a direction.
fn acknowledged_of(packet: &BufferedPacket, side: Side) -> Option<u32>
    ensures { result ≡ acknowledged_of side packet.now }
{
    if packet.segment.from == side {
        None
    } else {
        packet.segment.acknowledged
    }
}

// The later one of two numbers, as far as they are known.
fn later_of(own: Option<u32>, acknowledged: Option<u32>) -> u32
    ensures { result ≡ later_of own acknowledged }
{
    let Some(own) = own else {
        return acknowledged.unwrap_or(0);
    };
    let Some(number) = acknowledged else {
        return own;
    };
    if is_from(own, number) { number } else { own }
}

// The place of a number.
fn place_by(first: u32, number: u32) -> u32
    ensures { result ≡ place_by first number }
{
    number.wrapping_sub(first).wrapping_add(MIDST)
}

/// The number of a place.
pub(crate) fn number_at(first: u32, place: u64) -> u32
    ensures { result ≡ number_at first place }
{
    first.wrapping_add(((place % (1 << 32)) as u32).wrapping_sub(MIDST))
}

/// The octets of a direction, packet by packet, by the first number that is known of it.
#[tactic(auto, unfolding(crate::specs::BufferedPacket::pieces_from), using(crate::proofs::PiecesFrom::one_more, crate::proofs::PiecesFrom::as_before))]
pub(crate) fn pieces_of(
    alloc: Global,
    packets: &[BufferedPacket],
    side: Side,
    first: u32,
) -> Result<Vec<Piece>, AllocError>
    ensures { IfOk result (λ pieces. map (placed_by side) pieces.items ≡ pieces_from side first 0 packets.now) }
{
    let mut pieces = Vec::new(alloc);
    let mut acknowledged = 0;
    let mut rest = packets;
    while let Some((packet, others)) = rest.split_first() {
        if let Some(piece) = piece_of(alloc, packet, side, first, acknowledged)? {
            pieces.push(piece)?;
        }
        acknowledged = acknowledged_after(packet, side, first, acknowledged);
        rest = others;
    }
    Ok(pieces)
}

// What a packet brings of a direction, if it counts.
fn piece_of(
    alloc: Global,
    packet: &BufferedPacket,
    side: Side,
    first: u32,
    acknowledged: u32,
) -> Result<Option<Piece>, AllocError>
    ensures { IfOk result (λ piece. placed_of side piece ≡ piece_of side first acknowledged packet.now) }
{
    if packet.segment.from != side {
        return Ok(None);
    }
    let place = place_by(first, packet.segment.number);
    if !counts(packet, place, acknowledged) {
        return Ok(None);
    }
    Ok(Some(Piece {
        place,
        octets: Vec::from_slice(alloc, &packet.octets)?,
    }))
}

// Whether the octets of a packet count at a place.
fn counts(packet: &BufferedPacket, place: u32, acknowledged: u32) -> bool
    ensures { result ≡ counts acknowledged place packet.now }
{
    let octets = packet.octets.as_slice();
    if packet.segment.reset || octets.is_empty() {
        return false;
    }
    if octets.len() as u64 > END.saturating_sub(u64::from(place)) {
        return false;
    }
    let flags = Flags {
        syn: false,
        fin: false,
        pushed: packet.segment.flags.pushed,
    };
    !only_asks(u64::from(acknowledged), u64::from(place), flags, octets)
}

// The greatest place of a direction that is acknowledged behind a packet.
fn acknowledged_after(packet: &BufferedPacket, side: Side, first: u32, before: u32) -> u32
    ensures { result ≡ acknowledged_after side first before packet.now }
{
    if packet.segment.from == side {
        return before;
    }
    match packet.segment.acknowledged {
        Some(number) => before.max(place_by(first, number)),
        None => before,
    }
}

/// The first place that was captured, or that of the first number that is known.
#[tactic(auto, unfolding(crate::specs::BufferedPacket::lowest))]
pub(crate) fn lowest(pieces: &[Piece]) -> u64
    ensures value { (side : Direction) → result ≡ lowest midst (map (placed_by side) pieces.now) }
    ensures most { result ≤ midst }
{
    let mut low = u64::from(MIDST);
    let mut rest = pieces;
    while let Some((piece, others)) = rest.split_first() {
        low = low.min(u64::from(piece.place));
        rest = others;
    }
    low
}

/// The place behind the last one that was captured, or that of the first number that is known.
#[tactic(auto, unfolding(crate::specs::BufferedPacket::highest), using(crate::proofs::PiecesFrom::cells_length))]
pub(crate) fn highest(pieces: &[Piece]) -> u64
    ensures value { (side : Direction) → result ≡ highest midst (map (placed_by side) pieces.now) }
    ensures least { midst ≤ result }
{
    let mut high = u64::from(MIDST);
    let mut rest = pieces;
    while let Some((piece, others)) = rest.split_first() {
        high = high.max(u64::from(piece.place) + piece.octets.len() as u64);
        rest = others;
    }
    high
}
