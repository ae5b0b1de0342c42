//! A connection of a session that was running before the capture, once both of its directions have begun.

ghost use Rattle.std.specs.Prelude.{◌≡◌, ◌-◌, IfErr, IfOk, OnOk, map};
ghost use Rattle.capture_log.specs.declared.stop.Stop.TheVariants.{Memory};
ghost use Rattle.cli_capture.specs.InnerMidstreamLog.{HearsEach, IsQuiet};
ghost use Rattle.cli_capture.specs.MidstreamSync.{brought};
ghost use Rattle.cli_capture.specs.InnerMidstreamSync.{TakesThrough};
ghost use Rattle.cli_capture.specs.InnerLogRejectionMidstream.{EachRefused, FinishRefused, PacketRefused, PacketsRefused, ReplaceRefused, WithinEndRefused};
ghost use Rattle.cli_capture.specs.InnerReport.{StopsUnrefused, Emits};
ghost use Rattle.cli_capture.specs.MidstreamConnection.{begin_at, cut_by, ending_in};
ghost use Rattle.cli_capture.specs.InnerMidstreamConnection.{BeginsWithin, EndsWithin, Opens, TakesCut, TakesWithin, over_as};
ghost use Rattle.cli_capture.specs.MidstreamOutput.{in_capture, uncaptured};
ghost use Rattle.cli_capture.specs.InnerMidstreamOutput.{FinishesAs, ReplacedAs};

use crate::bare_resets::{note_reset, time_of};
use crate::midstream_log::Joined;
use crate::progress::{Followed, Progress, lack_behind};
use crate::report::Report;
use capture_errors::Shortfall;
use capture_log::{Pair, Stop};
use capture_midstream::{
    Beginnings, BufferedPacket, Handshake, Start, octets_before, opening, segment_from,
};
use capture_tcp::{Connection, ConnectionFault, Ending, Segment, Side, TimedEvent};
use std::alloc::Global;

// So many packets of the connection weren't captured: those by which it came up.
const OPENING: u64 = 3;

/// Such a connection: it is followed as one that came up just before, by three packets that weren't captured.
pub struct Within {
    connection: Connection,
    // The numbers at which its directions begin.
    active: u32,
    passive: u32,
    // The numbers of its packets that reset it and acknowledge nothing.
    bare_resets: Vec<u64>,
    joined: Joined,
}

// Written out: a proof over one that is dropped has one step for it, not one for each of its parts.
impl Drop for Within {
    fn drop(self) {
        let Within {
            connection,
            active: _,
            passive: _,
            bare_resets,
            joined,
        } = self;
        drop(connection);
        drop(bare_resets);
        drop(joined);
    }
}

impl Within {
    /// The connection of a session whose directions begin at these numbers, and have begun with this packet.
    ///
    /// # Errors
    ///
    /// `Memory`.
    pub fn new(alloc: Global, beginnings: Beginnings, start: Start) -> Result<Within, Stop>
        ensures begins { IfOk result (λ within. BeginsWithin beginnings.active.number beginnings.passive.number start within) }
        ensures memory { IfErr result (λ stop. stop ≡ Memory) }
    {
        let active = beginnings.active.number;
        let passive = beginnings.passive.number;
        let connection = Connection::new(alloc, active.wrapping_sub(1), passive.wrapping_sub(1));
        let Handshake {
            syn,
            answer,
            acknowledgement,
        } = opening(active, passive);
        let connection = opened(alloc, connection, syn)?;
        let connection = opened(alloc, connection, answer)?;
        Ok(Within {
            connection: opened(alloc, connection, acknowledgement)?,
            active,
            passive,
            bare_resets: Vec::new(alloc),
            joined: Joined::new(alloc, start),
        })
    }

    /// It takes a packet; none is left where nothing more is told of it.
    #[tactic(auto, using(crate::proofs::Unrefused::telling_steps))]
    pub fn take(
        self,
        alloc: Global,
        report: &mut Report,
        pair: &Pair,
        segment: Segment,
        octets: &[u8],
    ) -> Result<Option<Within>, Stop>
        ensures emitted { OnOk result (Emits report.old report.new) }
        ensures takes { IfOk result (λ left.
            TakesWithin pair.now (record { segment = segment; octets = octets.now }) self left report.old report.new) }
        ensures unrefused { IfErr result (StopsUnrefused report.old) }
        ensures refuses { IfErr result (λ stop. PacketRefused pair.now (record { segment = segment; octets = octets.now })
            self stop report.old report.new) }
    {
        let begin = self.begin_of(segment.from);
        let Within {
            connection,
            active,
            passive,
            mut bare_resets,
            mut joined,
        } = self;
        note_reset(&mut bare_resets, &segment)?;
        let mut emitted = Vec::new(alloc);
        let followed = take_segment(alloc, connection, begin, segment, octets, &mut emitted)?;
        let progress = hear_all(alloc, report, pair, &bare_resets, &mut joined, emitted)?;
        match over_by(progress, followed) {
            Followed::Proceeds(connection) => Ok(Some(Within {
                connection,
                active,
                passive,
                bare_resets,
                joined,
            })),
            Followed::BothLogs(shortfall) => {
                finish(alloc, report, pair, joined, shortfall)?;
                Ok(None)
            }
        }
    }

    /// Tells what is left of it, where no packet follows: since a later connection replaces it, or at the end of what is
    /// read, where something may be missing.
    #[tactic(auto, using(crate::proofs::Unrefused::telling_steps))]
    pub fn end(
        self,
        alloc: Global,
        report: &mut Report,
        pair: &Pair,
        is_replaced: bool,
        missing: Option<Shortfall>,
    ) -> Result<(), Stop>
        ensures emitted { OnOk result (Emits report.old report.new) }
        ensures ends { OnOk result (EndsWithin pair.now is_replaced missing self report.old report.new) }
        ensures unrefused { IfErr result (StopsUnrefused report.old) }
        ensures refuses { IfErr result (λ stop. WithinEndRefused pair.now missing self stop report.old report.new) }
    {
        let Within {
            connection,
            active: _,
            passive: _,
            bare_resets,
            mut joined,
        } = self;
        let mut emitted = Vec::new(alloc);
        let ending = match connection.end(alloc, &mut emitted) {
            Ok(ending) => ending,
            Err(_) => return Err(Stop::Memory),
        };
        let progress = hear_all(alloc, report, pair, &bare_resets, &mut joined, emitted)?;
        let shortfall = match progress {
            Progress::Over(shortfall) => return finish(alloc, report, pair, joined, shortfall),
            Progress::Proceeds => lack_behind(ending_in(ending), missing),
        };
        if is_replaced && shortfall.is_none() {
            return replace(alloc, report, pair, joined);
        }
        finish(alloc, report, pair, joined, shortfall)
    }

    // Where a direction begins.
    fn begin_of(&self, side: Side) -> u32
        ensures { result ≡ begin_at self.now.active self.now.passive side }
    {
        match side {
            Side::Active => self.active,
            Side::Passive => self.passive,
        }
    }
}

/// Takes the packets that were kept until both directions had begun. None is left where it is over with one of them.
#[tactic(auto, using(crate::proofs::Unrefused::telling_steps))]
pub fn take_all(
    alloc: Global,
    report: &mut Report,
    pair: &Pair,
    within: Within,
    packets: &[BufferedPacket],
) -> Result<Option<Within>, Stop>
    ensures emitted { OnOk result (Emits report.old report.new) }
    ensures takes { IfOk result (λ left.
        TakesThrough pair.now (map brought packets.now) within left report.old report.new) }
    ensures unrefused { IfErr result (StopsUnrefused report.old) }
    ensures refuses { IfErr result (λ stop.
        PacketsRefused pair.now (map brought packets.now) within stop report.old report.new) }
{
    let mut left = Some(within);
    let mut rest = packets;
    while let Some((packet, others)) = rest.split_first() {
        left = match left {
            Some(within) => within.take(alloc, report, pair, packet.segment, &packet.octets)?,
            None => None,
        };
        rest = others;
    }
    Ok(left)
}

// A connection takes one of the packets by which it came up.
fn opened(alloc: Global, connection: Connection, segment: Segment) -> Result<Connection, Stop>
    ensures opens { IfOk result (λ next. Opens connection segment next) }
    ensures memory { IfErr result (λ stop. stop ≡ Memory) }
{
    let mut emitted = Vec::new(alloc);
    match connection.take(alloc, segment, &[], &mut emitted) {
        Ok(connection) => Ok(connection),
        Err(_) => Err(Stop::Memory),
    }
}

// A connection takes the part of a packet that stands from the beginning of its direction on.
fn take_segment(
    alloc: Global,
    connection: Connection,
    begin: u32,
    segment: Segment,
    octets: &[u8],
    emitted: &mut Vec<TimedEvent>,
) -> Result<Followed, Stop>
    ensures takes { IfOk result (λ followed. TakesCut connection (cut_by begin segment octets.now) segment.packet
        emitted.old.items emitted.new.items followed) }
    ensures memory { IfErr result (λ stop. stop ≡ Memory) }
{
    let (_, kept) = octets.split_at(octets_before(begin, segment.number, octets.len()));
    let cut = segment_from(begin, segment, octets.len());
    let counted = Segment {
        packet: segment.packet.saturating_add(OPENING),
        ..cut
    };
    match connection.take(alloc, counted, kept, emitted) {
        Ok(connection) => match connection.ending() {
            None => Ok(Followed::Proceeds(connection)),
            Some(ending) => Ok(Followed::BothLogs(lack_behind(ending_in(ending), None))),
        },
        Err(ConnectionFault::Memory) => Err(Stop::Memory),
        Err(_) => Ok(Followed::BothLogs(Some(Shortfall::Full(segment.packet)))),
    }
}

// How it ends, at a packet of the capture.
fn ending_in(ending: Ending) -> Ending
    ensures { result ≡ ending_in ending }
{
    match ending {
        Ending::Closed => Ending::Closed,
        Ending::Complete => Ending::Complete,
        Ending::Lost(packet) => Ending::Lost(captured(packet)),
        Ending::Differs(packet) => Ending::Differs(captured(packet)),
    }
}

// The number of a packet in the capture.
fn captured(packet: u64) -> u64
    ensures { result ≡ packet - uncaptured }
{
    packet.saturating_sub(OPENING)
}

// A connection is over by what was heard of it, or goes on as it did.
fn over_by(progress: Progress, followed: Followed) -> Followed
    ensures { result ≡ over_as progress followed }
{
    match progress {
        Progress::Proceeds => followed,
        Progress::Over(shortfall) => Followed::BothLogs(shortfall),
    }
}

// Hears what happens.
#[tactic(auto, using(crate::proofs::Quiet::quiet_steps))]
fn hear_all(
    alloc: Global,
    report: &mut Report,
    pair: &Pair,
    bare_resets: &[u64],
    joined: &mut Joined,
    emitted: Vec<TimedEvent>,
) -> Result<Progress, Stop>
    ensures emitted { OnOk result (Emits report.old report.new) }
    ensures processes_input { IfOk result (λ progress. HearsEach pair.now (map (in_capture bare_resets.now) emitted.items)
        joined.old report.old progress joined.new report.new) }
    ensures quiet { OnOk result (IsQuiet joined.old.is_up joined.new.is_up report.old report.new) }
    ensures unrefused { IfErr result (StopsUnrefused report.old) }
    ensures refuses { IfErr result (λ stop. EachRefused pair.now (map (in_capture bare_resets.now) emitted.items)
        joined.old stop report.old report.new) }
{
    for happening in emitted {
        let happening = in_capture(bare_resets, happening);
        match joined.process_input(alloc, report, pair, happening)? {
            Progress::Proceeds => {}
            Progress::Over(shortfall) => return Ok(Progress::Over(shortfall)),
        }
    }
    Ok(Progress::Proceeds)
}

// What happens, at its packet of the capture.
fn in_capture(bare_resets: &[u64], happening: TimedEvent) -> TimedEvent
    ensures { result ≡ in_capture bare_resets.now happening }
{
    let packet = captured(happening.packet);
    let happening = TimedEvent {
        packet,
        ..happening
    };
    let time = time_of(bare_resets, &happening);
    TimedEvent { time, ..happening }
}

// It is over, and what waits is told before.
#[tactic(auto, using(crate::proofs::Unrefused::telling_steps))]
fn finish(
    alloc: Global,
    report: &mut Report,
    pair: &Pair,
    mut joined: Joined,
    shortfall: Option<Shortfall>,
) -> Result<(), Stop>
    ensures emitted { OnOk result (Emits report.old report.new) }
    ensures finishes { OnOk result (FinishesAs pair.now joined shortfall report.old report.new) }
    ensures unrefused { IfErr result (StopsUnrefused report.old) }
    ensures refuses { IfErr result (λ stop. FinishRefused pair.now joined shortfall stop report.old report.new) }
{
    match joined.settle(alloc, report, pair)? {
        Progress::Proceeds => joined.conclude(alloc, report, pair, shortfall),
        Progress::Over(other) => joined.conclude(alloc, report, pair, other.or(shortfall)),
    }
}

// It is over since a later one replaces it, and lacks nothing. What waits is told before.
#[tactic(auto, using(crate::proofs::Unrefused::telling_steps))]
fn replace(alloc: Global, report: &mut Report, pair: &Pair, mut joined: Joined) -> Result<(), Stop>
    ensures emitted { OnOk result (Emits report.old report.new) }
    ensures replaced { OnOk result (ReplacedAs pair.now joined report.old report.new) }
    ensures unrefused { IfErr result (StopsUnrefused report.old) }
    ensures refuses { IfErr result (λ stop. ReplaceRefused pair.now joined stop report.old report.new) }
{
    match joined.settle(alloc, report, pair)? {
        Progress::Proceeds => {
            joined.replace(alloc, report)?;
            joined.conclude(alloc, report, pair, None)
        }
        Progress::Over(shortfall) => joined.conclude(alloc, report, pair, shortfall),
    }
}
