//! The items that both endpoints log of the events of a TCP connection.

ghost use Rattle.std.specs.Prelude.{◌≡◌, ◌∷◌, [], IfOk, OnOk, Some};
ghost use Rattle.capture_log.specs.declared.audited_log.LogComment.TheVariants.{Packet};
ghost use Rattle.capture_events.specs.InnerLoggedEvents.{LogsBy, LogsItems, frame_by};

use crate::bare_resets::time_of;
use crate::event::Event;
use crate::incomplete::Shortfall;
use crate::log_item::{EntryKind, LogItem};
use capture_log::{LogComment, Pair};
use capture_midstream::header_at;
use capture_tcp::{Event as TcpEvent, TimedEvent};
use hsms_frame::{Frame, drop_front};
use std::alloc::AllocError;

// The number of bytes of a message's length and of its header.
const FRONT: usize = 14;

/// Appends the items of these events, up to a `down`, or up to a message that no endpoint takes. Returns what is
/// missing then, or `None` if further events may follow.
pub fn log_all(
    max: u32,
    bare_resets: &[u64],
    pair: &Pair,
    emitted: Vec<TimedEvent>,
    events: &mut Vec<Event>,
) -> Result<Option<Option<Shortfall>>, AllocError>
    ensures { IfOk result (λ over.
        LogsBy max bare_resets.now pair.now emitted.items over events.old.items events.new.items) }
{
    for timed_event in emitted {
        let over = log_event(max, bare_resets, pair, timed_event, events)?;
        if over.is_some() {
            return Ok(over);
        }
    }
    Ok(None)
}

// Appends the item of one event.
#[tactic(auto, unfolding(crate::specs::LoggedEvents::logged_by))]
fn log_event(
    max: u32,
    bare_resets: &[u64],
    pair: &Pair,
    timed_event: TimedEvent,
    events: &mut Vec<Event>,
) -> Result<Option<Option<Shortfall>>, AllocError>
    ensures { IfOk result (λ over.
        LogsBy max bare_resets.now pair.now (timed_event ∷ []) over events.old.items events.new.items) }
{
    let time = time_of(bare_resets, &timed_event);
    let packet = timed_event.packet;
    match timed_event.event {
        TcpEvent::Up => {
            push_item(pair, packet, time, EntryKind::Up(packet), events)?;
            Ok(None)
        }
        TcpEvent::Down => {
            push_item(pair, packet, time, EntryKind::Down, events)?;
            Ok(Some(None))
        }
        TcpEvent::Message { from, octets } => match frame_of(max, octets) {
            Some(frame) => {
                push_item(pair, packet, time, EntryKind::Message(from, frame), events)?;
                Ok(None)
            }
            None => Ok(Some(Some(Shortfall::Length(packet)))),
        },
    }
}

// Appends an item at a packet.
fn push_item(
    pair: &Pair,
    packet: u64,
    time: u64,
    kind: EntryKind,
    events: &mut Vec<Event>,
) -> Result<(), AllocError>
    ensures { OnOk result (LogsItems pair.now (record { comment = Packet packet; time = time; kind = Some kind } ∷ [])
        events.old.items events.new.items) }
{
    let item = LogItem {
        comment: LogComment::Packet(packet),
        time,
        kind: Some(kind),
    };
    Ok(events.push(Event::Logged(*pair, item))?)
}

// Returns the message of these bytes, those of its length first. Returns `None` if no endpoint takes this length.
fn frame_of(max: u32, octets: Vec<u8>) -> Option<Frame>
    ensures { result ≡ frame_by max octets.items }
{
    let header = header_at(octets.as_slice(), max)?;
    let mut text = octets;
    drop_front(&mut text, FRONT);
    Some(Frame { header, text })
}
