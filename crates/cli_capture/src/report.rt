//! What is told of the connections of a capture.

use crate::skipped_packets::LeftOut;
use crate::verdict_line::end_line;
use capture_errors::{CaptureError, Rejection, Shortfall};
use capture_log::{BothLogs, LogResult, LogVerdict, Pair, Stop, Text, WrittenLog};
use capture_midstream::{Session, Start};
use capture_tcp::{Side, TimedEvent};
use cli_options::Capturing;
use hsms_frame::{Frame, Header, Sink, give_all};
use hsms_log::Verdict;
use hsms_machine::{Role, Settings};
use std::alloc::Global;

/// What is told: the verdicts on the logs of both ends, or the log of one end.
#[derive(Drop)]
enum OutputMode {
    Verdicts,
    Log(WrittenLog),
}

/// What is told of the connections of a capture, and what was found.
#[derive(Drop)]
pub struct Report {
    active: Settings,
    passive: Settings,
    manner: OutputMode,
    shortfall: Option<Shortfall>,
    has_failed: bool,
    has_told: bool,
    pub left_out: LeftOut,
    // What is told and not written yet.
    page: Text,
}

impl Report {
    ghost use Rattle.std.specs.Prelude.{◌≡◌, ◌≤◌, ◌⊎◌, ◌++◌, ◌∷◌, [], None, Some, IfErr, IfOk, OnOk, true};
    ghost use Rattle.hsms_frame.specs.CallCounts.{count_failure};
    ghost use Rattle.hsms_frame.specs.Io.{Grows};
    ghost use Rattle.capture_errors.specs.declared.capture_error.CaptureError.TheVariants.{Write};
    ghost use Rattle.cli_capture.specs.Command.{GrowsBySome};
    ghost use Rattle.cli_capture.specs.declared.report.OutputMode.TheVariants.{Verdicts};
    ghost use Rattle.capture_log.specs.Stop.{IsNoRefusal};
    ghost use Rattle.capture_log.specs.declared.stop.Stop.TheVariants.{Memory};
    ghost use Rattle.capture_log.specs.declared.written_log.WrittenLog.{WrittenLog};
    ghost use Rattle.capture_log.specs.declared.socket_pair.Pair.{Pair};
    ghost use Rattle.cli_capture.specs.declared.report.OutputMode.TheVariants.{Log};
    ghost use Rattle.cli_capture.specs.Progress.{course_behind};
    ghost use Rattle.cli_capture.specs.declared.progress.Progress.TheVariants.{Proceeds};
    ghost use Rattle.cli_capture.specs.TrackedConnection.{TellsOnce};
    ghost use Rattle.cli_capture.specs.InnerTrackedConnection.{Begins, HearsOn, Replaces};
    ghost use Rattle.cli_capture.specs.MidstreamItems.{comes_up, leaves_out, supposes};
    ghost use Rattle.cli_capture.specs.InnerMidstreamItems.{TakesItems, most_of};
    ghost use Rattle.cli_capture.specs.InnerMidstreamLog.{HearsItem};
    ghost use Rattle.cli_capture.specs.InnerLogOutput.{GoesDown, LogsThem};
    ghost use Rattle.cli_capture.specs.InnerLogRejection.{HearsRefused, LacksRefused};
    ghost use Rattle.cli_capture.specs.InnerLogRejectionMidstream.{CantComeUp};
    ghost use Rattle.cli_capture.specs.FileDispatch.{BeginsAs};
    ghost use Rattle.cli_capture.specs.TableInvariant.{way_of};
    ghost use Rattle.cli_capture.specs.SkippedPackets.{line_of, none_left_out};
    ghost use Rattle.cli_capture.specs.VerdictLine.{end_line_of};
    ghost use Rattle.cli_capture.specs.InnerStopError.{IsRefused};
    ghost use Rattle.cli_capture.specs.Report.{failed_after, first_of, found_of, missing_after, nothing_found, session_of};
    ghost use Rattle.cli_capture.specs.InnerReport.{Finishes, IsReported, StopsUnrefused, Emits, TellsBy, TellsVerdicts, role_at};

    /// Nothing is told yet.
    pub fn new(alloc: Global, options: &Capturing) -> Report
        ensures manner { options.now.log ≡ None → result.manner ≡ Verdicts }
        ensures way { BeginsAs (way_of options.now) result.manner }
        ensures active { result.active ≡ options.now.active }
        ensures passive { result.passive ≡ options.now.passive }
        ensures found { found_of result ≡ nothing_found }
        ensures left_out { result.left_out ≡ none_left_out }
        ensures page { result.page.octets ≡ [] }
    {
        let manner = match options.log {
            None => OutputMode::Verdicts,
            Some(role) if role == options.active.role() => {
                OutputMode::Log(WrittenLog::new(options.active, Side::Active))
            }
            Some(_) => OutputMode::Log(WrittenLog::new(options.passive, Side::Passive)),
        };
        Report {
            active: options.active,
            passive: options.passive,
            manner,
            shortfall: None,
            has_failed: false,
            has_told: false,
            left_out: LeftOut::new(),
            page: Text::new(alloc),
        }
    }

    /// Writes what is told.
    pub fn put_out<W: Sink>(&mut self, sink: &mut W) -> Result<(), CaptureError>
        ensures ok { OnOk result (Grows (W.state sink.old).written (W.state sink.new).written self.old.page.octets) }
        ensures none { OnOk result (self.new.page.octets ≡ []) }
        ensures some { GrowsBySome (W.state sink.old).written (W.state sink.new).written }
        ensures error { IfErr result (λ error. error ≡ Write) }
        ensures writes { (W.state sink.new).failures ≡ count_failure result (W.state sink.old).failures }
        ensures same { self.new ≡ record self.old { page = self.new.page } }
    {
        if self.page.octets().is_empty() {
            return Ok(());
        }
        give_all(sink, self.page.octets())?;
        self.page.clear();
        Ok(())
    }

    /// Something happens on the connection of a pair.
    #[tactic(auto, using(crate::proofs::Unrefused::telling_steps))]
    pub fn process_input(
        &mut self,
        alloc: Global,
        pair: &Pair,
        ends: &mut Option<Box<BothLogs>>,
        happening: TimedEvent,
    ) -> Result<LogResult, Stop>
        ensures emitted { OnOk result (Emits self.old self.new) }
        ensures reception { IfOk result (λ reception. self.old.manner ≡ Verdicts
            → HearsOn self.old.active self.old.passive happening reception ends.old ends.new) }
        ensures logged { IfOk result (λ reception. (j : WrittenLog) → self.old.manner ≡ Log j
            → LogsThem pair.now (happening ∷ []) (course_behind reception happening.packet) j self.old self.new) }
        ensures item { IfOk result (λ reception. HearsItem pair.now happening (course_behind reception happening.packet)
            ends.old self.old ends.new self.new) }
        ensures same { OnOk result (self.old.manner ≡ Verdicts → self.new ≡ self.old) }
        ensures unrefused { IfErr result (StopsUnrefused self.old) }
        ensures refuses { IfErr result (λ stop. HearsRefused pair.now happening stop self.old self.new) }
    {
        self.begin(alloc, ends)?;
        match (&mut self.manner, ends) {
            (OutputMode::Log(journal), _) => {
                journal.process_input(&mut self.page, pair, happening)
            }
            (OutputMode::Verdicts, Some(ends)) => ends.process_input(alloc, happening),
            (OutputMode::Verdicts, None) => Ok(LogResult::Proceeds),
        }
    }

    // Begins the logs of the ends of a connection, where they are audited.
    fn begin(&self, alloc: Global, ends: &mut Option<Box<BothLogs>>) -> Result<(), Stop>
        ensures begins { OnOk result (self.now.manner ≡ Verdicts
            → Begins self.now.active self.now.passive ends.old ends.new) }
        ensures unrefused { IfErr result IsNoRefusal }
    {
        match &self.manner {
            OutputMode::Verdicts if ends.is_none() => {
                let new = BothLogs::new(alloc, &self.active, &self.passive)?;
                let Ok(new) = Box::new(alloc, new) else {
                    return Err(Stop::Memory);
                };
                *ends = Some(new);
                Ok(())
            }
            OutputMode::Verdicts | OutputMode::Log(_) => Ok(()),
        }
    }

    /// The connection is replaced by a later one of the same pair, and was up.
    #[tactic(auto, using(crate::proofs::Unrefused::telling_steps))]
    pub fn replace(&mut self, alloc: Global, ends: &mut Option<Box<BothLogs>>) -> Result<(), Stop>
        ensures emitted { OnOk result (Emits self.old self.new) }
        ensures replaced { OnOk result (self.old.manner ≡ Verdicts → Replaces ends.old ends.new) }
        ensures logged { OnOk result ((j : WrittenLog) → self.old.manner ≡ Log j → GoesDown j self.old self.new) }
        ensures same { OnOk result (self.old.manner ≡ Verdicts → self.new ≡ self.old) }
        ensures unrefused { IfErr result IsNoRefusal }
    {
        match (&mut self.manner, ends) {
            (OutputMode::Log(journal), _) => journal.replace(&mut self.page),
            (OutputMode::Verdicts, Some(ends)) => ends.replace(alloc),
            (OutputMode::Verdicts, None) => Ok(()),
        }
    }

    /// The connection of a pair came up where it begins, as it is supposed.
    #[tactic(auto, using(crate::proofs::Unrefused::telling_steps))]
    pub fn assume_up(
        &mut self,
        alloc: Global,
        pair: &Pair,
        ends: &mut Option<Box<BothLogs>>,
        start: Start,
    ) -> Result<(), Stop>
        ensures emitted { OnOk result (Emits self.old self.new) }
        ensures logged { OnOk result (TakesItems pair.now Proceeds (comes_up start.time ∷ []) ends.old self.old ends.new self.new) }
        ensures unrefused { IfErr result (StopsUnrefused self.old) }
        ensures refuses { IfErr result (λ stop. CantComeUp pair.now start stop self.old self.new) }
    {
        self.begin(alloc, ends)?;
        match (&mut self.manner, ends) {
            (OutputMode::Log(journal), _) => {
                journal.assume_up(&mut self.page, pair, start.packet, start.time)
            }
            (OutputMode::Verdicts, Some(ends)) => ends.assume_up(alloc, start.time),
            (OutputMode::Verdicts, None) => Ok(()),
        }
    }

    /// An end sent a message without a text, as it is supposed.
    #[tactic(auto, using(crate::proofs::Unrefused::telling_steps))]
    pub fn assume_message(
        &mut self,
        alloc: Global,
        ends: &mut Option<Box<BothLogs>>,
        from: Side,
        header: Header,
    ) -> Result<(), Stop>
        ensures emitted { OnOk result (Emits self.old self.new) }
        ensures logged { (pair : Pair) → OnOk result
            (TakesItems pair Proceeds (supposes from header ∷ []) ends.old self.old ends.new self.new) }
        ensures unrefused { IfErr result IsNoRefusal }
    {
        self.begin(alloc, ends)?;
        let frame = Frame {
            header,
            text: Vec::new(alloc),
        };
        match (&mut self.manner, ends) {
            (OutputMode::Log(journal), _) => journal.assume_message(&mut self.page, from, frame),
            (OutputMode::Verdicts, Some(ends)) => ends.assume_message(alloc, from, frame),
            (OutputMode::Verdicts, None) => Ok(()),
        }
    }

    /// There is no entry of a packet: what it answers may stand before the capture.
    #[tactic(auto, using(crate::proofs::Unrefused::telling_steps))]
    pub fn leave_out(
        &mut self,
        alloc: Global,
        ends: &mut Option<Box<BothLogs>>,
        packet: u64,
    ) -> Result<(), Stop>
        ensures emitted { OnOk result (Emits self.old self.new) }
        ensures logged { (pair : Pair) → OnOk result
            (TakesItems pair Proceeds (leaves_out packet ∷ []) ends.old self.old ends.new self.new) }
        ensures unrefused { IfErr result IsNoRefusal }
    {
        self.begin(alloc, ends)?;
        match (&mut self.manner, ends) {
            (OutputMode::Log(journal), _) => journal.leave_out(&mut self.page, packet),
            (OutputMode::Verdicts, Some(ends)) => ends.leave_out(alloc, packet),
            (OutputMode::Verdicts, None) => Ok(()),
        }
    }

    /// By what the messages of a session are known.
    pub fn session(&self) -> Session
        ensures by { result ≡ session_of self.now.active }
        ensures depth { result.depth ≤ 100 }
    {
        Session {
            device: self.active.device(),
            max: self.active.max(),
            depth: self.active.depth(),
        }
    }

    /// How many octets header and text of a message have at most.
    pub fn max(&self) -> u32
        ensures { result ≡ most_of self.now }
    {
        match &self.manner {
            OutputMode::Verdicts => self.active.max(),
            OutputMode::Log(journal) => journal.max(),
        }
    }

    /// T3 of the ends, in milliseconds.
    pub fn t3(&self) -> u32
        ensures { result ≡ self.now.active.t3 }
    {
        self.active.t3()
    }

    /// A connection is over that came up, with the logs of its ends, or one that did not and lacks something. In the log
    /// of an end nothing may be told behind what is missing.
    ///
    /// # Errors
    ///
    /// `Refused` where something is missing of a log; `Memory`.
    #[tactic(auto, using(crate::proofs::Tellings::concluded, crate::proofs::Unrefused::unrefused_steps))]
    pub fn conclude(
        &mut self,
        alloc: Global,
        pair: &Pair,
        ends: Option<BothLogs>,
        shortfall: Option<Shortfall>,
    ) -> Result<(), Stop>
        ensures emitted { OnOk result (Emits self.old self.new) }
        ensures once { OnOk result (self.old.manner ≡ Verdicts → TellsOnce pair.now shortfall ends self.old self.new) }
        ensures missing { OnOk result (self.new.shortfall ≡ missing_after self.old.shortfall shortfall) }
        ensures has_told { OnOk result (self.new.has_told ≡ true) }
        ensures lines { OnOk result (TellsBy self.old.manner pair.now shortfall ends self.old self.new) }
        ensures same { OnOk result (self.new.manner ≡ self.old.manner) }
        ensures proceeds { OnOk result ((shortfall ≡ None) ⊎ (self.old.manner ≡ Verdicts)) }
        ensures logged { OnOk result ((j : WrittenLog) → self.old.manner ≡ Log j
            → (shortfall ≡ None) × (self.new ≡ record self.old { has_told = true })) }
        ensures unrefused { IfErr result (StopsUnrefused self.old) }
        ensures refuses { IfErr result (λ stop. LacksRefused shortfall stop self.old self.new) }
    {
        self.conclude_with(shortfall)?;
        self.submit(alloc, pair, ends, shortfall)?;
        Ok(())
    }

    // Notes that a connection is told, and what it lacks. Behind that no log of an end goes on.
    #[tactic(auto, using(crate::proofs::Unrefused::unrefused_steps))]
    fn conclude_with(&mut self, shortfall: Option<Shortfall>) -> Result<(), Stop>
        ensures noted { OnOk result (self.new ≡ record self.old {
          has_told = true;
          shortfall = missing_after self.old.shortfall shortfall;
        }) }
        ensures proceeds { OnOk result ((shortfall ≡ None) ⊎ (self.old.manner ≡ Verdicts)) }
        ensures unrefused { IfErr result (StopsUnrefused self.old) }
        ensures refuses { IfErr result (λ stop. LacksRefused shortfall stop self.old self.new) }
    {
        self.has_told = true;
        let Some(shortfall) = shortfall else {
            return Ok(());
        };
        let first = self.note(shortfall);
        match &self.manner {
            OutputMode::Log(_) => Err(Stop::Refused(Rejection::Incomplete(first))),
            OutputMode::Verdicts => Ok(()),
        }
    }

    // Tells the verdicts on the logs of both ends, or that there are none, where verdicts are told.
    fn submit(
        &mut self,
        alloc: Global,
        pair: &Pair,
        ends: Option<BothLogs>,
        shortfall: Option<Shortfall>,
    ) -> Result<(), Stop>
        ensures lines { OnOk result (TellsBy self.old.manner pair.now shortfall ends self.old self.new) }
        ensures same { OnOk result (self.new ≡ record self.old { has_failed = self.new.has_failed; page = self.new.page }) }
        ensures memory { IfErr result (λ stop. stop ≡ Memory) }
    {
        match (&self.manner, ends) {
            (OutputMode::Verdicts, Some(ends)) => self.tell_verdicts(alloc, pair, ends, shortfall),
            (OutputMode::Verdicts, None) => self.emit_ends(alloc, pair, shortfall, None, None),
            (OutputMode::Log(_), _) => Ok(()),
        }
    }

    /// Something is missing. What is noted first is kept, and answered.
    pub fn note(&mut self, shortfall: Shortfall) -> Shortfall
        ensures first { result ≡ first_of self.old.shortfall shortfall }
        ensures noted { self.new ≡ record self.old { shortfall = Some result } }
    {
        let first = self.shortfall.unwrap_or(shortfall);
        self.shortfall = Some(first);
        first
    }

    /// Something is missing of the capture, or nothing.
    pub fn note_missing(&mut self, missing: Option<Shortfall>)
        ensures { self.new ≡ record self.old { shortfall = missing_after self.old.shortfall missing } }
    {
        if let Some(shortfall) = missing {
            self.note(shortfall);
        }
    }

    // Tells the verdicts on the logs of both ends.
    fn tell_verdicts(
        &mut self,
        alloc: Global,
        pair: &Pair,
        ends: BothLogs,
        shortfall: Option<Shortfall>,
    ) -> Result<(), Stop>
        ensures lines { OnOk result (TellsVerdicts pair.now shortfall (Some ends) self.old self.new) }
        ensures same { OnOk result (self.new ≡ record self.old { has_failed = self.new.has_failed; page = self.new.page }) }
        ensures memory { IfErr result (λ stop. stop ≡ Memory) }
    {
        let (active, passive) = ends.verdicts(alloc)?;
        self.emit_ends(alloc, pair, shortfall, Some(active), Some(passive))
    }

    // Tells the lines of both ends.
    fn emit_ends(
        &mut self,
        alloc: Global,
        pair: &Pair,
        shortfall: Option<Shortfall>,
        active: Option<LogVerdict>,
        passive: Option<LogVerdict>,
    ) -> Result<(), Stop>
        ensures emitted { OnOk result (IsReported
            (record { pair = pair.now; shortfall = shortfall; active = active; passive = passive }) self.old self.new) }
        ensures same { OnOk result (self.new ≡ record self.old { has_failed = self.new.has_failed; page = self.new.page }) }
        ensures memory { IfErr result (λ stop. stop ≡ Memory) }
    {
        self.emit_end(alloc, pair, Side::Active, shortfall, active)?;
        self.emit_end(alloc, pair, Side::Passive, shortfall, passive)?;
        Ok(())
    }

    // Tells the line of an end.
    fn emit_end(
        &mut self,
        alloc: Global,
        pair: &Pair,
        side: Side,
        shortfall: Option<Shortfall>,
        emitted: Option<LogVerdict>,
    ) -> Result<(), Stop>
        ensures line { OnOk result (self.new.page.octets
            ≡ self.old.page.octets ++ end_line_of pair.now (role_at self.old side) side shortfall emitted) }
        ensures failed { OnOk result
            (self.new ≡ record self.old { has_failed = failed_after self.old.has_failed emitted; page = self.new.page }) }
        ensures memory { IfErr result (λ stop. stop ≡ Memory) }
    {
        let line = end_line(alloc, pair, self.role_of(side), side, shortfall, emitted)?;
        self.page.append_chunk(line.as_bytes())?;
        if emitted.is_some_and(|emitted| matches!(emitted.verdict, Verdict::Fail { .. })) {
            self.has_failed = true;
        }
        Ok(())
    }

    fn role_of(&self, side: Side) -> Role
        ensures { result ≡ role_at self.now side }
    {
        match side {
            Side::Active => self.active.role(),
            Side::Passive => self.passive.role(),
        }
    }

    /// Tells the packets that were left out, and says whether each log passes.
    ///
    /// # Errors
    ///
    /// `Refused` where something is missing and no log fails, by what was missing first, and where there was no
    /// connection; `Memory`.
    #[tactic(auto, using(crate::proofs::Refusing::memory_refuses, crate::proofs::Refusing::err_holds))]
    pub fn finish(&mut self, alloc: Global) -> Result<bool, Stop>
        ensures answer { Finishes (found_of self.old) result }
        ensures page { OnOk result (self.new.page.octets ≡ self.old.page.octets ++ line_of self.old.left_out) }
        ensures refused { IfErr result (λ stop. IsRefused stop
            → self.new.page.octets ≡ self.old.page.octets ++ line_of self.old.left_out) }
    {
        self.tell_left_out(alloc)?;
        self.answer()
    }

    // Tells the packets that were left out.
    fn tell_left_out(&mut self, alloc: Global) -> Result<(), Stop>
        ensures same { OnOk result (self.new ≡ record self.old { page = self.new.page }) }
        ensures page { OnOk result (self.new.page.octets ≡ self.old.page.octets ++ line_of self.old.left_out) }
        ensures memory { IfErr result (λ stop. stop ≡ Memory) }
    {
        let line = self.left_out.line(alloc)?;
        self.page.append_chunk(line.as_bytes())?;
        Ok(())
    }

    // Whether each log passes, or why that can't be said.
    fn answer(&self) -> Result<bool, Stop>
        ensures { Finishes (found_of self.now) result }
    {
        match self.shortfall {
            _ if self.has_failed => Ok(false),
            Some(shortfall) => Err(Stop::Refused(Rejection::Incomplete(shortfall))),
            None if self.has_told => Ok(true),
            None => Err(Stop::Refused(Rejection::NoConnection)),
        }
    }
}
