//! A session that was running before the capture, until both of its directions have begun.

ghost use Rattle.std.specs.Prelude.{IfErr, IfOk, IsTrue, OnOk, ◌↔◌};
ghost use Rattle.capture_midstream.specs.PacketBuffer.{AreSure};
ghost use Rattle.cli_capture.specs.InnerMidstreamSync.{BeginsWith, GathersOn, TakesFrom};
ghost use Rattle.cli_capture.specs.InnerLogRejection.{InLog};
ghost use Rattle.cli_capture.specs.InnerLogRejectionMidstream.{BeginRefused, FromRefused, GatherRefused};
ghost use Rattle.cli_capture.specs.Report.{session_of};
ghost use Rattle.cli_capture.specs.InnerReport.{StopsUnrefused, Emits};

use crate::midstream_connection::{Within, take_all};
use crate::report::Report;
use capture_log::{Pair, Stop};
use capture_midstream::{Beginnings, Gathering, start_of};
use capture_tcp::Segment;
use capture_unjudged::Unjudged;
use std::alloc::Global;

/// How far such a session is: some packets are kept, both directions have begun, or nothing more is told of it.
#[derive(Drop)]
pub enum Joining {
    BuffersPackets(Gathering),
    Within(Within),
    Over,
}

/// One packet more is kept, and taken with those before it once both directions have begun.
#[tactic(auto, using(crate::proofs::Unrefused::telling_steps))]
pub fn buffer_pending(
    alloc: Global,
    report: &mut Report,
    unjudged: &mut Unjudged,
    pair: &Pair,
    gathering: Gathering,
    segment: Segment,
    octets: &[u8],
) -> Result<Joining, Stop>
    ensures emitted { OnOk result (Emits report.old report.new) }
    ensures gathers { IfOk result (λ joining. GathersOn pair.now (session_of report.old.active) segment octets.now
        gathering joining report.old report.new) }
    ensures unrefused { IfErr result (StopsUnrefused report.old) }
    ensures refuses { IfErr result (λ stop. InLog stop report.old (λ journal. GatherRefused pair.now
        (session_of report.old.active) segment octets.now gathering stop journal report.old report.new)) }
{
    let mut gathering = gathering;
    gathering.take(alloc, segment, octets)?;
    let is_last = segment.reset || gathering.is_full();
    if !is_last && !gathering.is_due() {
        return Ok(Joining::BuffersPackets(gathering));
    }
    begin(alloc, report, unjudged, pair, gathering, is_last)
}

/// The packets that are kept are taken, where both directions surely begin or no more are kept.
#[tactic(auto, using(crate::proofs::Unrefused::telling_steps))]
pub fn begin(
    alloc: Global,
    report: &mut Report,
    unjudged: &mut Unjudged,
    pair: &Pair,
    gathering: Gathering,
    is_last: bool,
) -> Result<Joining, Stop>
    ensures emitted { OnOk result (Emits report.old report.new) }
    ensures begins { IfOk result (λ joining. BeginsWith pair.now (session_of report.old.active) gathering is_last joining
        report.old report.new) }
    ensures unrefused { IfErr result (StopsUnrefused report.old) }
    ensures refuses { IfErr result (λ stop. InLog stop report.old (λ journal. BeginRefused pair.now
        (session_of report.old.active) gathering is_last stop journal report.old report.new)) }
{
    let Some(beginnings) = gathering.beginnings(alloc, report.session(), is_last)? else {
        return Ok(Joining::BuffersPackets(gathering));
    };
    if !are_sure(&beginnings) {
        unjudged.give_up(alloc, gathering.packets())?;
    }
    match take_from(alloc, report, pair, &gathering, beginnings)? {
        Some(within) => Ok(Joining::Within(within)),
        None => Ok(Joining::Over),
    }
}

// Whether both directions surely begin so.
fn are_sure(beginnings: &Beginnings) -> bool
    ensures { IsTrue result ↔ AreSure beginnings.now }
{
    beginnings.active.is_sure && beginnings.passive.is_sure
}

// The packets that are kept are taken as those of a session whose directions begin so.
#[tactic(auto, using(crate::proofs::Unrefused::telling_steps))]
fn take_from(
    alloc: Global,
    report: &mut Report,
    pair: &Pair,
    gathering: &Gathering,
    beginnings: Beginnings,
) -> Result<Option<Within>, Stop>
    ensures emitted { OnOk result (Emits report.old report.new) }
    ensures takes { IfOk result (λ left. TakesFrom pair.now gathering.now beginnings left report.old report.new) }
    ensures unrefused { IfErr result (StopsUnrefused report.old) }
    ensures refuses { IfErr result (λ stop. InLog stop report.old (λ journal.
        FromRefused pair.now gathering.now beginnings stop journal report.old report.new)) }
{
    let packets = gathering.packets();
    let active = beginnings.active.number;
    let passive = beginnings.passive.number;
    let Some(start) = start_of(packets, active, passive) else {
        return Ok(None);
    };
    let within = Within::new(alloc, beginnings, start)?;
    take_all(alloc, report, pair, within, packets)
}
