//! `hsms capture`: a capture, read once.

ghost use Rattle.std.specs.Prelude.{◌≡◌, ◌++◌, [], IfErr, IfOk, OnOk, Ok, Err, None};
ghost use Rattle.hsms_frame.specs.Io.{IfRecorded};
ghost use Rattle.capture_errors.specs.Errors.{IsRefusal, reads_after, writes_after};
ghost use Rattle.cli_capture.specs.Command.{CapturesTo, GrowsBySome, HasMany, IsEndless};
ghost use Rattle.cli_capture.specs.InnerCommand.{IsMissingBy, IsNoRead};
ghost use Rattle.cli_capture.specs.FileDispatch.{CapturesFile};
ghost use Rattle.cli_capture.specs.TableInvariant.{wanted_of};
ghost use Rattle.cli_capture.specs.InnerTableInvariant.{ConcludesAsDealt, FinishesAsDealt, PutsAsDealt, ReadsAsDealt, ShowsAsDealt};
ghost use Rattle.cli_capture.specs.LogRejectionFile.{RefusesFile};
ghost use Rattle.cli_capture.specs.InnerLogRejectionFile.{ConcludesAsRefused, FinishesAsRefused, PutsAsRefused, ReadsAsRefused, ShowsAsRefused};
ghost use Rattle.cli_capture.specs.InnerReport.{Concludes, EndsWith, FailsUnrefused, StopsUnrefused, TellsBehind, Writes};
ghost use Rattle.cli_capture.specs.declared.report.OutputMode.TheVariants.{Verdicts};
ghost use Rattle.cli_capture.specs.Segments.{body_in};
ghost use Rattle.cli_capture.specs.InnerStopError.{IsRefused};

use crate::connection_table::{Capture, Table};
use crate::report::Report;
use crate::stop_error::error_of;
use capture_errors::{CaptureError, Shortfall};
use capture_log::Stop;
use capture_pcap::laws::each_rest_is_read;
use capture_pcap::{FileFault, Packets, Record, Segment, Shown, Step, octets_of, segment_of};
use capture_unjudged::Unjudged;
use cli_options::Capturing;
use hsms_frame::{Sink, Source};
use std::alloc::Global;

// How many steps a capture is read in at most: behind each packet's number there are three more, for the packets by which a
// session came up that was running before.
const MOST_STEPS: u64 = u64::MAX - 3;

// A packet of a file.
#[derive(Clone, Copy)]
struct FilePacket<'a> {
    // Its number, from 1.
    number: u64,
    header: Record,
    octets: &'a [u8],
}

/// Reads a capture (pcap or pcapng) once, packet by packet, and follows each TCP connection at a port. As soon as a
/// connection is over it writes two lines, the verdicts of the audit on the logs of both of its ends, of which the active
/// one is the first; or, where the options say so, it writes the log of one end, line by line. It says whether each log
/// passes. What looks like HSMS and is not judged is recorded in `unjudged`.
///
/// Of the capture no more is held than a packet, what connections that are open wait for, and at most 8,192 connections
/// of which nothing is left to be told; and of what is told, that which is told with one packet.
///
/// # Errors
///
/// - `Refused`: where what is told is incomplete and no log fails, by what was missing first; where no connection came
///   up; and where the log of an end would be one of two connections at once, or of other addresses. What is sure was
///   written before.
/// - `Read` or `Write`, where a device failed, and `Endless`, where the capture has 2^64 - 4 blocks or more.
/// - `Memory`, also where a log may have more than 2^62 lines.
#[tactic(auto, using(crate::proofs::Written::none_more, crate::proofs::Written::some_more))]
pub fn capture_to<R: Source, W: Sink>(
    alloc: Global,
    options: Capturing,
    source: &mut R,
    sink: &mut W,
    unjudged: &mut Unjudged,
) -> Result<bool, CaptureError>
    ensures endless { IfErr result (λ fault. IsEndless fault → IfRecorded (R.state source.old).left HasMany) }
    ensures reads { (R.state source.new).failures ≡ reads_after result (R.state source.old).failures }
    ensures writes { (W.state sink.new).failures ≡ writes_after result (W.state sink.old).failures }
    ensures some { GrowsBySome (W.state sink.old).written (W.state sink.new).written }
    ensures lines { IfOk result (λ well. options.log ≡ None → CapturesTo options.active.role options.passive.role
        (W.state sink.old).written (W.state sink.new).written (Ok well)) }
    ensures emitted { IfErr result (λ fault. IsRefusal fault → options.log ≡ None → CapturesTo options.active.role
        options.passive.role (W.state sink.old).written (W.state sink.new).written (Err fault)) }
    ensures file { IfOk result (λ well. IfRecorded (R.state source.old).left (λ input.
        CapturesFile (wanted_of options) input (W.state sink.old).written (W.state sink.new).written (Ok well))) }
    ensures refused { IfErr result (λ fault. IsRefusal fault → IfRecorded (R.state source.old).left (λ input.
        RefusesFile (wanted_of options) input (W.state sink.old).written (W.state sink.new).written fault)) }
{
    let mut report = Report::new(alloc, &options);
    let mut table = Table::new(alloc, options.port, options.peer, options.joined);
    match Packets::open(alloc, source) {
        Ok(mut packets) => {
            let missing = read_all(
                alloc,
                &mut packets,
                source,
                sink,
                &mut table,
                &mut report,
                unjudged,
            )?;
            finish(alloc, sink, table, report, unjudged, missing)
        }
        Err(fault) => {
            let missing = missing_by(fault, 0)?;
            finish(alloc, sink, table, report, unjudged, Some(missing))
        }
    }
}

// Reads a capture up to its end, or to what nothing behind can be told of.
#[tactic(auto, using(crate::proofs::Written::none_more, crate::proofs::Written::some_more, crate::proofs::Refusing::fails_behind))]
fn read_all<R: Source, W: Sink>(
    alloc: Global,
    packets: &mut Packets,
    source: &mut R,
    sink: &mut W,
    table: &mut Table,
    report: &mut Report,
    unjudged: &mut Unjudged,
) -> Result<Option<Shortfall>, CaptureError>
    ensures endless { IfErr result (λ fault. IsEndless fault → IfRecorded (R.state source.old).left (λ input.
        HasMany (packets.old.ahead ++ input))) }
    ensures reads { (R.state source.new).failures ≡ reads_after result (R.state source.old).failures }
    ensures writes { (W.state sink.new).failures ≡ writes_after result (W.state sink.old).failures }
    ensures some { GrowsBySome (W.state sink.old).written (W.state sink.new).written }
    ensures lines { OnOk result (Writes report.old (W.state sink.old).written report.new (W.state sink.new).written) }
    ensures deals { IfOk result (λ missing. ReadsAsDealt packets.old missing (R.state source.old).left table.old table.new
        report.old report.new (W.state sink.old).written (W.state sink.new).written) }
    ensures unrefused { IfErr result (λ fault. report.old.page.octets ≡ [] → FailsUnrefused report.old fault) }
    ensures refuses { IfErr result (λ fault. ReadsAsRefused packets.old (R.state source.old).left table.old report.old
        (W.state sink.old).written (W.state sink.new).written fault) }
{
    each_rest_is_read();
    for _ in 0..MOST_STEPS {
        let step = match packets.next(source) {
            Ok(step) => step,
            Err(fault) => return Ok(Some(missing_by(fault, packets.reader().packets())?)),
        };
        match step {
            Step::Packet(number, record) => {
                let octets = octets_of(&record, packets.octets());
                let packet = FilePacket {
                    number,
                    header: record,
                    octets,
                };
                let missing = take(alloc, sink, table, report, unjudged, packet)?;
                if missing.is_some() {
                    return Ok(missing);
                }
            }
            Step::Passed => {}
            Step::End => return Ok(None),
        }
    }
    Err(CaptureError::Endless)
}

// Takes a packet, and writes what is told with it.
#[tactic(auto, using(crate::proofs::Written::none_more, crate::proofs::Written::some_more, crate::proofs::Refusing::fails_write, crate::proofs::Refusing::fails_told, crate::proofs::FileRefusals::never_puts))]
fn take<W: Sink>(
    alloc: Global,
    sink: &mut W,
    table: &mut Table,
    report: &mut Report,
    unjudged: &mut Unjudged,
    packet: FilePacket<'_>,
) -> Result<Option<Shortfall>, CaptureError>
    ensures error { IfErr result IsNoRead }
    ensures writes { (W.state sink.new).failures ≡ writes_after result (W.state sink.old).failures }
    ensures some { GrowsBySome (W.state sink.old).written (W.state sink.new).written }
    ensures lines { OnOk result (Writes report.old (W.state sink.old).written report.new (W.state sink.new).written) }
    ensures deals { IfOk result (λ missing. PutsAsDealt packet.entry.number packet.entry.header
        packet.entry.octets.now missing table.old table.new report.old report.new
        (W.state sink.old).written (W.state sink.new).written) }
    ensures unrefused { IfErr result (FailsUnrefused report.old) }
    ensures refuses { IfErr result (λ fault. PutsAsRefused packet.entry.number packet.entry.header
        packet.entry.octets.now table.old report.old (W.state sink.old).written (W.state sink.new).written fault) }
{
    let taken = take_packet(alloc, table, report, unjudged, packet);
    report.put_out(sink)?;
    match taken {
        Ok(missing) => Ok(missing),
        Err(stop) => Err(error_of(stop)),
    }
}

// Takes a packet, or counts it as left out.
fn take_packet(
    alloc: Global,
    table: &mut Table,
    report: &mut Report,
    unjudged: &mut Unjudged,
    packet: FilePacket<'_>,
) -> Result<Option<Shortfall>, Stop>
    ensures emitted { OnOk result (TellsBehind report.old report.new) }
    ensures deals { IfOk result (λ missing. ShowsAsDealt packet.entry.number packet.entry.header
        packet.entry.octets.now missing table.old table.new report.old report.new) }
    ensures unrefused { IfErr result (StopsUnrefused report.old) }
    ensures refuses { IfErr result (λ stop. ShowsAsRefused packet.entry.number packet.entry.header
        packet.entry.octets.now table.old stop report.old report.new) }
{
    match segment_of(packet.header.link, packet.octets) {
        Shown::Segment(segment) => {
            let capture = Capture {
                segment,
                packet: packet.number,
                time: packet.header.time,
                octets: body_of(&segment, packet.octets),
            };
            table.take(alloc, report, unjudged, capture)
        }
        Shown::Other => Ok(None),
        Shown::LeftOut(reason) => {
            report.left_out.count(reason);
            Ok(None)
        }
    }
}

// The octets of a segment.
fn body_of<'a>(segment: &Segment, octets: &'a [u8]) -> &'a [u8]
    ensures { result.now ≡ body_in segment.now octets.now }
{
    octets.get(segment.body..segment.end).unwrap_or(&[])
}

// What a fault of a file behind so many packets leaves out, where it isn't one of the device.
fn missing_by(fault: FileFault, packets: u64) -> Result<Shortfall, CaptureError>
    ensures { IsMissingBy fault packets result }
{
    match fault {
        FileFault::Read => Err(CaptureError::Read),
        FileFault::Memory => Err(CaptureError::Memory),
        FileFault::Capture { .. } | FileFault::CutOff => {
            Ok(Shortfall::File(fault, packets.saturating_add(1)))
        }
    }
}

// Tells what is left of each connection, and whether each log passes.
#[tactic(auto, using(crate::proofs::Written::none_more, crate::proofs::Written::some_more, crate::proofs::Refusing::write_holds, crate::proofs::FileRefusals::never_finishes))]
fn finish<W: Sink>(
    alloc: Global,
    sink: &mut W,
    table: Table,
    mut report: Report,
    unjudged: &mut Unjudged,
    missing: Option<Shortfall>,
) -> Result<bool, CaptureError>
    ensures error { IfErr result IsNoRead }
    ensures writes { (W.state sink.new).failures ≡ writes_after result (W.state sink.old).failures }
    ensures some { GrowsBySome (W.state sink.old).written (W.state sink.new).written }
    ensures lines { IfOk result (λ well. EndsWith missing report (W.state sink.old).written (W.state sink.new).written (Ok well)) }
    ensures emitted { IfErr result (λ fault. IsRefusal fault → EndsWith missing report (W.state sink.old).written
        (W.state sink.new).written (Err fault)) }
    ensures deals { IfOk result (λ well. FinishesAsDealt missing table report (W.state sink.old).written
        (W.state sink.new).written (Ok well)) }
    ensures refuses { IfErr result (λ fault. IsRefusal fault → report.manner ≡ Verdicts → FinishesAsDealt missing table report
        (W.state sink.old).written (W.state sink.new).written (Err fault)) }
    ensures stops { IfErr result (λ fault. FinishesAsRefused missing table report
        (W.state sink.old).written (W.state sink.new).written fault) }
{
    let well = conclude(alloc, table, &mut report, unjudged, missing);
    report.put_out(sink)?;
    match well {
        Ok(well) => Ok(well),
        Err(stop) => Err(error_of(stop)),
    }
}

// The same, on the page of the report.
fn conclude(
    alloc: Global,
    table: Table,
    report: &mut Report,
    unjudged: &mut Unjudged,
    missing: Option<Shortfall>,
) -> Result<bool, Stop>
    ensures lines { IfOk result (λ well. Concludes missing report.old report.new (Ok well)) }
    ensures emitted { IfErr result (λ stop. IsRefused stop → Concludes missing report.old report.new (Err stop)) }
    ensures deals { IfOk result (λ well. ConcludesAsDealt missing table report.old report.new (Ok well)) }
    ensures refuses { IfErr result (λ stop. IsRefused stop → report.old.manner ≡ Verdicts
        → ConcludesAsDealt missing table report.old report.new (Err stop)) }
    ensures stops { IfErr result (λ stop. ConcludesAsRefused missing table report.old report.new stop) }
{
    report.note_missing(missing);
    table.finish(alloc, report, unjudged, missing)?;
    unjudged.complete();
    report.finish(alloc)
}
