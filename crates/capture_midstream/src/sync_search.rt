//! The first place of a direction from which on whole messages are read.

ghost use Rattle.std.specs.Prelude.{◌≡◌, ◌≤◌, ◌-◌, IfOk, List, length, map};
ghost use Rattle.capture_tcp.specs.Reassembly.{IsStoreOf};
ghost use Rattle.capture_tcp.specs.KnownStreams.{end_at};
ghost use Rattle.capture_tcp.specs.TcpStreams.{End, Placed};
ghost use Rattle.capture_tcp.specs.declared.packet.Side.{Side as Direction};
ghost use Rattle.capture_midstream.specs.BufferedPacket.{BeginsWith, midst, octet_at, octets_upto, unbroken};
ghost use Rattle.capture_midstream.specs.InnerBufferedPacket.{FindsIn, IsSpotOf, held_octet, placed_by};

use crate::buffered_packet::{Begun, BufferedPacket};
use crate::candidate::Spot;
use crate::chunk::Piece;
use crate::chunk_map::{MIDST, first_number, highest, lowest, number_at, pieces_of};
use crate::session_filter::Session;
use crate::sync_point::{begins_at_end, is_sure};
use capture_tcp::{Cell, Flags, ReassemblyBuffer, Side};
use std::alloc::{AllocError, Global};

/// Where a direction begins, as far as these packets tell.
pub(crate) fn begun_of(
    alloc: Global,
    session: Session,
    packets: &[BufferedPacket],
    side: Side,
) -> Result<Begun, AllocError>
    requires { session.depth ≤ 100 }
    ensures { IfOk result (BeginsWith session side packets.now) }
{
    let first = first_number(packets, side);
    let pieces = pieces_of(alloc, packets, side, first)?;
    let spot = spot_of(alloc, session, &pieces)?;
    Ok(Begun {
        number: number_at(first, spot.place),
        is_sure: spot.is_sure,
    })
}

// The place at which these octets begin.
fn spot_of(alloc: Global, session: Session, pieces: &[Piece]) -> Result<Spot, AllocError>
    requires { session.depth ≤ 100 }
    ensures { IfOk result (λ spot. (side : Direction) → IsSpotOf session (end_at side) (map (placed_by side) pieces.now) spot) }
{
    let low = lowest(pieces);
    let upto = highest(pieces);
    let held = held_of(alloc, low, pieces)?;
    let from = unbroken(&held, low);
    find(alloc, session, &held, from, upto)
}

// The first place, from one on, from which on no octet is missing before the first number that is known.
#[tactic(auto, using(crate::proofs::Unbroken::unbroken_begins))]
fn unbroken(held: &ReassemblyBuffer, low: u64) -> u64
    requires low { low ≤ midst }
    requires held { held.now.place ≤ low }
    ensures value { (ps : List Placed) (d : End) → IsStoreOf held.now ps d → result ≡ unbroken (midst - low) (octet_at ps d) midst }
    ensures least { low ≤ result }
    ensures most { result ≤ midst }
{
    let mut place = u64::from(MIDST);
    while place > low {
        let Some(_) = octet_in(held.cell(place - 1)) else {
            return place;
        };
        place -= 1;
    }
    place
}

// The octets by their places.
#[tactic(auto, using(crate::proofs::Holding::holds_none, crate::proofs::Holding::holds_all))]
fn held_of(alloc: Global, from: u64, pieces: &[Piece]) -> Result<ReassemblyBuffer, AllocError>
    ensures place { IfOk result (λ held. held.place ≡ from) }
    ensures held { IfOk result (λ held. (side : Direction) → IsStoreOf held (map (placed_by side) pieces.now) (end_at side)) }
{
    let mut held = ReassemblyBuffer::new(alloc);
    held.pass(from);
    let flags = Flags {
        syn: false,
        fin: false,
        pushed: false,
    };
    let mut rest = pieces;
    while let Some((piece, others)) = rest.split_first() {
        match held.put(u64::from(piece.place), flags, &piece.octets) {
            Ok(()) => {}
            Err(_) => return Err(AllocError),
        }
        rest = others;
    }
    Ok(held)
}

// The first place from which on whole messages are read, from one on and before another one, or that one.
fn find(
    alloc: Global,
    session: Session,
    held: &ReassemblyBuffer,
    from: u64,
    upto: u64,
) -> Result<Spot, AllocError>
    requires depth { session.depth ≤ 100 }
    requires order { from ≤ upto }
    requires held { held.now.place ≤ from }
    ensures { IfOk result (λ spot. (ps : List Placed) (d : End) → IsStoreOf held.now ps d → FindsIn session (octet_at ps d) from upto spot) }
{
    let mut place = from;
    while place < upto {
        let octets = octets_from(alloc, held, place, upto)?;
        let index = begins_at_end(session, &octets, 0);
        place += index as u64;
        if index < octets.len() {
            let (_, subsequent) = octets.split_at(index);
            return Ok(Spot {
                place,
                is_sure: is_sure(session, subsequent),
            });
        }
        if place < upto {
            place += 1;
        }
    }
    Ok(Spot {
        place: upto,
        is_sure: false,
    })
}

// The octets from a place on, up to the first one that isn't there, or up to another place.
fn octets_from(
    alloc: Global,
    held: &ReassemblyBuffer,
    place: u64,
    upto: u64,
) -> Result<Vec<u8>, AllocError>
    requires { held.now.place ≤ place }
    ensures octets { IfOk result (λ octets. (ps : List Placed) (d : End) → IsStoreOf held.now ps d
        → octets.items ≡ octets_upto upto (octet_at ps d) place) }
    ensures bound { IfOk result (λ octets. length octets.items ≤ upto - place) }
{
    let mut octets = Vec::new(alloc);
    let mut at = place;
    while at < upto {
        let Some(octet) = octet_in(held.cell(at)) else {
            return Ok(octets);
        };
        octets.push(octet)?;
        at += 1;
    }
    Ok(octets)
}

// The octet of a cell, if it is one.
fn octet_in(cell: Option<Cell>) -> Option<u8>
    ensures { result ≡ held_octet cell }
{
    match cell {
        Some(Cell::Octet(octet)) => Some(octet),
        Some(Cell::Syn | Cell::Fin) | None => None,
    }
}
