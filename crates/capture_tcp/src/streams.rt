//! Both streams of a connection, from the first cell that is not emitted, and the delivery of a packet.

ghost use Rattle.std.specs.Prelude.{◌≡◌, IfOk, OnOk};
ghost use Rattle.capture_tcp.specs.EventSteps.{processes_input};
ghost use Rattle.capture_tcp.specs.InnerEventSteps.{ProcessesInput};
ghost use Rattle.capture_tcp.specs.DeliverySteps.{acked_by, answer_entries, answers, opens, other_side, reset_entry, resets};
ghost use Rattle.capture_tcp.specs.InnerDeliverySteps.{AckMoves, Acknowledges, Delivers, Moves, TakesTurn};
ghost use Rattle.capture_tcp.specs.InnerTimestamps.{KeepsTimes};

use crate::events::{EmitterState, TimedEvent};
use crate::framing::{Delivery, cut};
use crate::packet::{Packet, Side};
use crate::reassembly::ReassemblyBuffer;
use std::alloc::{AllocError, Global};

/// A packet that is delivered at a packet and a time.
#[derive(Clone, Copy)]
pub(crate) struct Due {
    pub at: u64,
    pub time: u64,
    pub from: Side,
    pub packet: Packet,
}

/// What is buffered of a direction, and the offset of the first cell that is not emitted.
#[derive(Drop)]
pub(crate) struct Stream {
    pub held: ReassemblyBuffer,
    pub place: u64,
}

/// Both directions.
#[derive(Drop)]
pub(crate) struct Streams {
    pub active: Stream,
    pub passive: Stream,
}

// Returns the other end.
pub(crate) fn other_side(side: Side) -> Side
    ensures { result ≡ other_side side }
{
    match side {
        Side::Active => Side::Passive,
        Side::Passive => Side::Active,
    }
}

// Returns the offset up to which a packet acknowledges what an end sent.
fn acked_by(side: Side, due: Due) -> u64
    ensures { result ≡ acked_by side due }
{
    if side == due.from {
        return 0;
    }
    due.packet.acknowledged.unwrap_or(0)
}

// Returns true if it acknowledges the SYN of the passive end.
fn answers(due: Due) -> bool
    ensures { result ≡ answers due }
{
    1 <= acked_by(Side::Passive, due)
}

// Returns true if it opens the connection.
pub(crate) fn opens(due: Due) -> bool
    ensures { result ≡ opens due }
{
    answers(due) || 2 <= acked_by(Side::Active, due) || 2 <= due.packet.to
}

// Returns true if it resets the connection.
pub(crate) fn resets(opened: bool, due: Due) -> bool
    ensures { result ≡ resets opened due }
{
    due.packet.reset && (opened || opens(due))
}

// Emits that the connection is established, if the packet acknowledges the SYN of the passive end.
#[tactic(auto, using(crate::proofs::Timing::keeps_none))]
fn answer(
    due: Due,
    emitter_state: &mut EmitterState,
    emitted: &mut Vec<TimedEvent>,
) -> Result<(), AllocError>
    ensures emitted { OnOk result (ProcessesInput (processes_input emitter_state.old (answer_entries due)) emitted.old.items emitter_state.new emitted.new.items) }
    ensures times { OnOk result (KeepsTimes due.at due.time emitted.old.items emitted.new.items) }
{
    if answers(due) {
        return emitter_state.come_up(due.at, due.time, emitted);
    }
    Ok(())
}

// Emits that the connection is closed, if it is reset.
#[tactic(auto, using(crate::proofs::Timing::keeps_none))]
fn reset(
    opened: bool,
    due: Due,
    emitter_state: &mut EmitterState,
    emitted: &mut Vec<TimedEvent>,
) -> Result<(), AllocError>
    ensures emitted { OnOk result (ProcessesInput (processes_input emitter_state.old (reset_entry opened due)) emitted.old.items emitter_state.new emitted.new.items) }
    ensures times { OnOk result (KeepsTimes due.at due.time emitted.old.items emitted.new.items) }
{
    if resets(opened, due) {
        return emitter_state.go_down(due.at, due.time, emitted);
    }
    Ok(())
}

// Emits what is delivered.
fn deliver(
    alloc: Global,
    streams: &mut Streams,
    delivery: Delivery,
    emitter_state: &mut EmitterState,
    emitted: &mut Vec<TimedEvent>,
) -> Result<(), AllocError>
    ensures emitted { OnOk result (Delivers delivery streams.old emitted.old.items emitter_state.old streams.new emitted.new.items emitter_state.new) }
    ensures moves { OnOk result (Moves delivery streams.old streams.new) }
    ensures times { OnOk result (KeepsTimes delivery.packet delivery.time emitted.old.items emitted.new.items) }
{
    match delivery.of {
        Side::Active => {
            let active = &mut streams.active;
            active.place = cut(
                alloc,
                &active.held,
                active.place,
                delivery,
                emitter_state,
                emitted,
            )?;
        }
        Side::Passive => {
            let passive = &mut streams.passive;
            passive.place = cut(
                alloc,
                &passive.held,
                passive.place,
                delivery,
                emitter_state,
                emitted,
            )?;
        }
    }
    Ok(())
}

// Emits what a packet acknowledges.
#[tactic(auto, using(crate::proofs::Timing::keeps_none))]
fn acknowledge(
    alloc: Global,
    streams: &mut Streams,
    due: Due,
    emitter_state: &mut EmitterState,
    emitted: &mut Vec<TimedEvent>,
) -> Result<(), AllocError>
    ensures emitted { OnOk result (Acknowledges due streams.old emitted.old.items emitter_state.old streams.new emitted.new.items emitter_state.new) }
    ensures moves { OnOk result (AckMoves due streams.old streams.new) }
    ensures times { OnOk result (KeepsTimes due.at due.time emitted.old.items emitted.new.items) }
{
    let Some(upto) = due.packet.acknowledged else {
        return Ok(());
    };
    let delivery = Delivery {
        of: other_side(due.from),
        upto,
        packet: due.at,
        time: due.time,
    };
    deliver(alloc, streams, delivery, emitter_state, emitted)
}

/// Emits the events of a delivered packet: first what it acknowledges, then what it carries, and last a reset.
pub(crate) fn turn(
    alloc: Global,
    streams: &mut Streams,
    opened: bool,
    due: Due,
    emitter_state: &mut EmitterState,
    emitted: &mut Vec<TimedEvent>,
) -> Result<(), AllocError>
    ensures emitted { OnOk result (TakesTurn opened due streams.old emitted.old.items emitter_state.old streams.new emitted.new.items emitter_state.new) }
    ensures times { OnOk result (KeepsTimes due.at due.time emitted.old.items emitted.new.items) }
{
    answer(due, emitter_state, emitted)?;
    acknowledge(alloc, streams, due, emitter_state, emitted)?;
    let delivery = Delivery {
        of: due.from,
        upto: due.packet.to,
        packet: due.at,
        time: due.time,
    };
    deliver(alloc, streams, delivery, emitter_state, emitted)?;
    reset(opened, due, emitter_state, emitted)
}
