//! Resets without an ACK. The time at which the other endpoint received such a packet is not known.

ghost use Rattle.std.specs.Prelude.{◌≡◌, ◌&&◌, ◌++◌, OnOk, is_none};
ghost use Rattle.capture_events.specs.ConnectionItems.{bare_if};
ghost use Rattle.capture_events.specs.LoggedEvents.{log_time_by};

use capture_tcp::{Event, Segment, TimedEvent};
use std::alloc::AllocError;

/// Appends the packet number of a segment, if it is a reset without an ACK.
pub fn note_reset(bare_resets: &mut Vec<u64>, segment: &Segment) -> Result<(), AllocError>
    ensures { OnOk result (bare_resets.new.items ≡ bare_resets.old.items
        ++ bare_if (segment.now.reset && is_none segment.now.acknowledged) segment.now.packet) }
{
    if segment.reset && segment.acknowledged.is_none() {
        bare_resets.push(segment.packet)?;
    }
    Ok(())
}

/// Returns the time of an event in milliseconds. Returns 0 if a reset without an ACK closes the connection:
/// the entry gets the time of the entry before.
pub fn time_of(bare_resets: &[u64], timed_event: &TimedEvent) -> u64
    ensures { result ≡ log_time_by bare_resets.now timed_event.now }
{
    match &timed_event.event {
        Event::Up | Event::Message { .. } => timed_event.time,
        Event::Down => {
            if bare_resets.contains(&timed_event.packet) {
                0
            } else {
                timed_event.time
            }
        }
    }
}
