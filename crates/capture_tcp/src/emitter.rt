//! The emitter of events, one delivered packet after another.

ghost use Rattle.std.specs.Prelude.{◌≡◌, ◌+◌, ◌∷◌, ◌||◌, true, false, IfSome, IfNone, IfOk, OnOk};
ghost use Rattle.std.specs.VecDeque.{deque_len};
ghost use Rattle.capture_tcp.specs.Emitted.{IsHeldBack, is_sure};
ghost use Rattle.capture_tcp.specs.InnerEmitted.{Drains};
ghost use Rattle.capture_tcp.specs.InnerReaderState.{EmitsBefore};
ghost use Rattle.capture_tcp.specs.InnerTimestamps.{KeepsTimes, EmitsInTime};
ghost use Rattle.capture_tcp.specs.DeliverySteps.{is_over, opens, resets};
ghost use Rattle.capture_tcp.specs.InnerDeliverySteps.{TakesTurn};

use crate::events::{EmitterState, TimedEvent};
use crate::streams::{Due, Streams, opens, resets, turn};
use std::alloc::{AllocError, Global};
use std::collections::VecDeque;

/// The streams of a connection, its state, and whether it is open.
#[derive(Drop)]
pub(crate) struct Emitter {
    pub streams: Streams,
    pub emitter_state: EmitterState,
    pub opened: bool,
}

// Emits the events of a delivered packet, and returns whether it resets the connection.
fn emit_turn(
    alloc: Global,
    emitter: &mut Emitter,
    due: Due,
    emitted: &mut Vec<TimedEvent>,
) -> Result<bool, AllocError>
    ensures emitted { OnOk result (TakesTurn emitter.old.opened due emitter.old.streams emitted.old.items emitter.old.emitter_state emitter.new.streams emitted.new.items emitter.new.emitter_state) }
    ensures opened { OnOk result (emitter.new.opened ≡ (emitter.old.opened || opens due)) }
    ensures times { OnOk result (KeepsTimes due.at due.time emitted.old.items emitted.new.items) }
    ensures reset { IfOk result (λ is_reset. is_reset ≡ resets emitter.old.opened due) }
{
    let opened = emitter.opened;
    turn(
        alloc,
        &mut emitter.streams,
        opened,
        due,
        &mut emitter.emitter_state,
        emitted,
    )?;
    emitter.opened = opened || opens(due);
    Ok(resets(opened, due))
}

// Removes the first delivery, if it is at a packet before a limit.
fn take_sure(due: &mut VecDeque<Due>, limit: Option<u64>) -> Option<Due>
    ensures some { IfSome result (λ first. (due.old.items ≡ first ∷ due.new.items) × (is_sure limit first.at ≡ true)) }
    ensures none { IfNone result ((due.new.items ≡ due.old.items) × IsHeldBack limit due.old.items) }
    ensures len { IfSome result (λ first. deque_len due.old ≡ deque_len due.new + 1) }
{
    if !is_sure(limit, due.front()?.at) {
        return None;
    }
    due.pop_front()
}

// Returns true if a packet is before a limit.
fn is_sure(limit: Option<u64>, packet: u64) -> bool
    ensures { result ≡ is_sure limit packet }
{
    match limit {
        Some(limit) => packet < limit,
        None => true,
    }
}

/// Emits the events of the deliveries at the front that are at packets before a limit, up to a reset. Returns whether
/// there was a reset.
#[tactic(auto, using(crate::proofs::LaterEvents::drained_none, crate::proofs::Timing::emits_none))]
pub(crate) fn drain(
    alloc: Global,
    emitter: &mut Emitter,
    due: &mut VecDeque<Due>,
    limit: Option<u64>,
    emitted: &mut Vec<TimedEvent>,
) -> Result<bool, AllocError>
    ensures emitted { IfOk result (λ closed. Drains limit due.old.items emitter.old emitted.old.items due.new.items emitter.new emitted.new.items closed) }
    ensures times { OnOk result (EmitsInTime due.old.items emitted.old.items due.new.items emitted.new.items) }
    ensures back { IfOk result (λ closed. closed ≡ false → IsHeldBack limit due.new.items) }
{
    while let Some(first) = take_sure(due, limit) {
        let is_reset = emit_turn(alloc, emitter, first, emitted)?;
        if is_reset {
            return Ok(true);
        }
    }
    Ok(false)
}

// Returns true if the connection is closed.
fn is_over(emitter_state: EmitterState) -> bool
    ensures { result ≡ is_over emitter_state }
{
    matches!(emitter_state, EmitterState::Over)
}

/// Emits the events of the deliveries at packets before a limit, up to the end of the connection. Returns whether the
/// connection ended.
pub(crate) fn emit_before(
    alloc: Global,
    emitter: &mut Emitter,
    due: &mut VecDeque<Due>,
    limit: Option<u64>,
    emitted: &mut Vec<TimedEvent>,
) -> Result<bool, AllocError>
    ensures emitted { IfOk result (λ closed. EmitsBefore limit emitter.old due.old.items emitted.old.items emitter.new due.new.items emitted.new.items closed) }
    ensures times { OnOk result (EmitsInTime due.old.items emitted.old.items due.new.items emitted.new.items) }
{
    if drain(alloc, emitter, due, limit, emitted)? {
        return Ok(true);
    }
    Ok(is_over(emitter.emitter_state))
}
