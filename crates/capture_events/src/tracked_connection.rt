//! A connection with the sequence numbers of both SYNs.

ghost use Rattle.std.specs.Prelude.{◌≡◌, ◌&&◌, ◌||◌, ◌++◌, [], ℕ, IfOk, OnOk, Some, map};
ghost use Rattle.capture_tcp.specs.KnownStreams.{bases, seen_of};
ghost use Rattle.capture_events.specs.declared.event.Event.TheVariants.{Logged};
ghost use Rattle.capture_events.specs.ConnectionItems.{down_if, end_event, shortfall_of};
ghost use Rattle.capture_events.specs.LoggedEvents.{seen_waiting};
ghost use Rattle.capture_events.specs.TrackedConnection.{IsTracked};
ghost use Rattle.capture_events.specs.InnerTrackedConnection.{EndsTracked, FollowsSegment, TakesAll, TakesTracked, left_by, over_by};

use crate::bare_resets::note_reset;
use crate::event::Event;
use crate::incomplete::Shortfall;
use crate::log_item::{EntryKind, LogItem};
use crate::logging::log_all;
use crate::waiting::Waiting;
use capture_log::{LogComment, Pair};
use capture_tcp::{Connection, ConnectionFault, Ending, Segment, TimedEvent};
use std::alloc::{AllocError, Global};

/// A connection that is tracked.
#[derive(Drop)]
pub struct TrackedConnection {
    connection: Connection,
    // The numbers of its resets without an ACK.
    bare_resets: Vec<u64>,
    // Whether there is an item of it.
    is_up: bool,
}

// The result of one packet: further events may follow, the connection has ended and data may be missing, or too many
// bytes wait.
#[derive(Drop)]
enum Followed {
    Proceeds(Connection),
    Ends(Option<Shortfall>),
    Full,
}

/// Creates a connection without packets, from the sequence numbers of both SYNs.
pub fn track(alloc: Global, active: u32, passive: u32) -> TrackedConnection
    ensures { (most : ℕ) → IsTracked most (bases active passive) [] result }
{
    TrackedConnection {
        connection: Connection::new(alloc, active, passive),
        bare_resets: Vec::new(alloc),
        is_up: false,
    }
}

/// Processes a packet. Returns `None` once the connection has ended.
pub fn take(
    alloc: Global,
    max: u32,
    pair: &Pair,
    tracked: TrackedConnection,
    segment: Segment,
    octets: &[u8],
    events: &mut Vec<Event>,
) -> Result<Option<TrackedConnection>, AllocError>
    ensures { IfOk result (λ left. TakesTracked max pair.now (seen_of segment octets.now) tracked left
        events.old.items events.new.items) }
{
    let TrackedConnection {
        connection,
        mut bare_resets,
        is_up,
    } = tracked;
    let mut emitted = Vec::new(alloc);
    let followed = follow(alloc, connection, segment, octets, &mut emitted)?;
    note_reset(&mut bare_resets, &segment)?;
    let before = events.len();
    let over = log_all(max, &bare_resets, pair, emitted, events)?;
    let is_up = either(is_up, before < events.len());
    go_on(
        pair,
        is_up,
        bare_resets,
        segment.packet,
        over,
        followed,
        events,
    )
}

/// Processes the packets that waited. Returns `None` once the connection has ended.
pub fn take_all(
    alloc: Global,
    max: u32,
    pair: &Pair,
    tracked: TrackedConnection,
    waiting: Vec<Waiting>,
    events: &mut Vec<Event>,
) -> Result<Option<TrackedConnection>, AllocError>
    ensures { IfOk result (λ left. TakesAll max pair.now (map seen_waiting waiting.items) tracked left
        events.old.items events.new.items) }
{
    let mut left = Some(tracked);
    for packet in waiting {
        left = match left {
            Some(tracked) => take(
                alloc,
                max,
                pair,
                tracked,
                packet.segment,
                &packet.octets,
                events,
            )?,
            None => None,
        };
    }
    Ok(left)
}

/// Appends the last events of a connection without further packets: a later connection replaces it, or the capture
/// ends, where data may be missing.
pub fn end(
    alloc: Global,
    pair: &Pair,
    tracked: TrackedConnection,
    is_replaced: bool,
    missing: Option<Shortfall>,
    events: &mut Vec<Event>,
) -> Result<(), AllocError>
    ensures { OnOk result ((most : ℕ) → EndsTracked most pair.now is_replaced missing tracked
        events.old.items events.new.items) }
{
    let TrackedConnection {
        connection,
        bare_resets: _,
        is_up,
    } = tracked;
    let mut emitted = Vec::new(alloc);
    let ending = match connection.end(alloc, &mut emitted) {
        Ok(ending) => ending,
        Err(_) => return Err(AllocError),
    };
    let shortfall = shortfall_of(ending, missing);
    go_down_if(all(is_replaced, shortfall.is_none(), is_up), pair, events)?;
    conclude(pair, is_up, shortfall, events)
}

// Returns true if all three are.
fn all(one: bool, other: bool, third: bool) -> bool
    ensures { result ≡ (one && (other && third)) }
{
    one && other && third
}

// Returns true if one of both is.
fn either(one: bool, other: bool) -> bool
    ensures { result ≡ (one || other) }
{
    one || other
}

// Returns the connection, unless its items or the packet end it. Appends the last event then.
fn go_on(
    pair: &Pair,
    is_up: bool,
    bare_resets: Vec<u64>,
    packet: u64,
    over: Option<Option<Shortfall>>,
    followed: Followed,
    events: &mut Vec<Event>,
) -> Result<Option<TrackedConnection>, AllocError>
    ensures left { IfOk result (λ left. left ≡ left_by is_up bare_resets over followed) }
    ensures appended { OnOk result
        (events.new.items ≡ events.old.items ++ end_event pair.now is_up (over_by packet over followed)) }
{
    let shortfall = match (over, followed) {
        (None, Followed::Proceeds(connection)) => {
            return Ok(Some(TrackedConnection {
                connection,
                bare_resets,
                is_up,
            }));
        }
        (Some(shortfall), _) => shortfall,
        (None, Followed::Ends(shortfall)) => shortfall,
        (None, Followed::Full) => Some(Shortfall::Full(packet)),
    };
    conclude(pair, is_up, shortfall, events)?;
    Ok(None)
}

/// Appends the last event of a connection, if there is an item of it or data is missing.
pub fn conclude(
    pair: &Pair,
    is_up: bool,
    shortfall: Option<Shortfall>,
    events: &mut Vec<Event>,
) -> Result<(), AllocError>
    ensures { OnOk result (events.new.items ≡ events.old.items ++ end_event pair.now is_up (Some shortfall)) }
{
    if is_up || shortfall.is_some() {
        events.push(Event::Ended(*pair, shortfall))?;
    }
    Ok(())
}

// Appends a `down` of a connection that a later one replaces, if `closes` is true.
fn go_down_if(closes: bool, pair: &Pair, events: &mut Vec<Event>) -> Result<(), AllocError>
    ensures { OnOk result (events.new.items ≡ events.old.items ++ map (Logged pair.now) (down_if closes)) }
{
    if closes {
        let item = LogItem {
            comment: LogComment::Replaced,
            time: 0,
            kind: Some(EntryKind::Down),
        };
        events.push(Event::Logged(*pair, item))?;
    }
    Ok(())
}

// Returns what is missing of a connection by its ending, if this may be missing after it.
fn shortfall_of(ending: Ending, missing: Option<Shortfall>) -> Option<Shortfall>
    ensures { result ≡ shortfall_of ending missing }
{
    match ending {
        Ending::Closed => None,
        Ending::Complete => missing,
        Ending::Lost(packet) => Some(Shortfall::Lost(packet)),
        Ending::Differs(packet) => Some(Shortfall::Differs(packet)),
    }
}

// Passes a packet to the connection.
fn follow(
    alloc: Global,
    connection: Connection,
    segment: Segment,
    octets: &[u8],
    emitted: &mut Vec<TimedEvent>,
) -> Result<Followed, AllocError>
    ensures { IfOk result (λ followed. FollowsSegment connection (seen_of segment octets.now)
        emitted.old.items emitted.new.items followed) }
{
    match connection.take(alloc, segment, octets, emitted) {
        Ok(connection) => match connection.ending() {
            None => Ok(Followed::Proceeds(connection)),
            Some(ending) => Ok(Followed::Ends(shortfall_of(ending, None))),
        },
        Err(ConnectionFault::Memory) => Err(AllocError),
        Err(ConnectionFault::Far | ConnectionFault::Full) => Ok(Followed::Full),
    }
}
