//! The messages of a direction that are emitted, up to an offset.

ghost use Rattle.std.specs.Prelude.{◌≤◌, IfOk, OnOk, length, max, take, []};
ghost use Rattle.capture_tcp.specs.Reassembly.{piece_from};
ghost use Rattle.capture_tcp.specs.KnownStreams.{end_at};
ghost use Rattle.capture_tcp.specs.ConnectionEvents.{entry_of};
ghost use Rattle.capture_tcp.specs.EventSteps.{processes_input};
ghost use Rattle.capture_tcp.specs.InnerEventSteps.{Cuts, ProcessesInput, entries_as};
ghost use Rattle.capture_tcp.specs.InnerTimestamps.{KeepsTimes};

use crate::events::{EmitterState, TimedEvent};
use crate::packet::Side;
use crate::reassembly::{Piece, ReassemblyBuffer};
use std::alloc::{AllocError, Global};

/// What one end sent was certainly received up to an offset, at a packet and a time.
#[derive(Clone, Copy)]
pub(crate) struct Delivery {
    pub of: Side,
    pub upto: u64,
    pub packet: u64,
    pub time: u64,
}

// Emits the messages of a direction, from an offset on, that end within what is delivered. Returns the offset after
// them.
#[tactic(auto, using(crate::proofs::Timing::keeps_none))]
pub(crate) fn cut(
    alloc: Global,
    held: &ReassemblyBuffer,
    place: u64,
    delivery: Delivery,
    emitter_state: &mut EmitterState,
    emitted: &mut Vec<TimedEvent>,
) -> Result<u64, AllocError>
    ensures emitted { IfOk result (λ later. Cuts held.now (end_at delivery.of) delivery.packet delivery.upto place emitted.old.items emitter_state.old later emitted.new.items emitter_state.new) }
    ensures times { OnOk result (KeepsTimes delivery.packet delivery.time emitted.old.items emitted.new.items) }
    ensures within { IfOk result (λ later. (place ≤ later) × (later ≤ max place delivery.upto)) }
{
    let mut place = place;
    while let Some(count) = held.front(place, delivery.upto) {
        let piece = held.piece(alloc, place, count)?;
        submit(piece, delivery, emitter_state, emitted)?;
        place += count;
    }
    Ok(place)
}

// Emits the event that the cells of a message give.
#[tactic(auto, using(crate::proofs::Slicing::message_processed, crate::proofs::Slicing::down_processed, crate::proofs::Slicing::none_processed, crate::proofs::Timing::keeps_none))]
fn submit(
    piece: Piece,
    delivery: Delivery,
    emitter_state: &mut EmitterState,
    emitted: &mut Vec<TimedEvent>,
) -> Result<(), AllocError>
    ensures emitted { OnOk result (ProcessesInput (processes_input emitter_state.old (entries_as (end_at delivery.of) delivery.packet piece)) emitted.old.items emitter_state.new emitted.new.items) }
    ensures times { OnOk result (KeepsTimes delivery.packet delivery.time emitted.old.items emitted.new.items) }
{
    let Delivery {
        of,
        packet,
        time,
        ..
    } = delivery;
    match piece {
        Piece::Message(octets) => emitter_state.say(packet, time, of, octets, emitted),
        Piece::Opens => Ok(()),
        Piece::Closes => emitter_state.go_down(packet, time, emitted),
    }
}
