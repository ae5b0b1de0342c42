//! Packets that reset a connection and acknowledge nothing: nobody knows when the other end had them.

ghost use Rattle.std.specs.Prelude.{◌≡◌, ◌&&◌, ◌++◌, OnOk, is_none};
ghost use Rattle.cli_capture.specs.TrackedConnection.{time_by};
ghost use Rattle.cli_capture.specs.ConnectionLog.{bare_if, is_among};

use capture_tcp::{Event, Segment, TimedEvent};
use std::alloc::AllocError;

/// Notes the number of such a packet.
pub fn note_reset(bare_resets: &mut Vec<u64>, segment: &Segment) -> Result<(), AllocError>
    ensures { OnOk result (bare_resets.new.items ≡ bare_resets.old.items
        ++ bare_if (segment.now.reset && is_none segment.now.acknowledged) segment.now.packet) }
{
    if segment.reset && segment.acknowledged.is_none() {
        bare_resets.push(segment.packet)?;
    }
    Ok(())
}

/// When something happens, in milliseconds: 0 where such a packet ends the connection. No entry is earlier than the one
/// before it, so it goes down at that one's time.
pub fn time_of(bare_resets: &[u64], happening: &TimedEvent) -> u64
    ensures { result ≡ time_by happening.now.event (is_among bare_resets.now happening.now.packet) happening.now.time }
{
    match &happening.event {
        Event::Up | Event::Message { .. } => happening.time,
        Event::Down => {
            if bare_resets.contains(&happening.packet) {
                0
            } else {
                happening.time
            }
        }
    }
}
