//! The log of one end of a connection, and what the audit says of it.

ghost use Rattle.std.specs.Prelude.{◌≡◌, ◌+◌, ◌++◌, [], ◌∷◌, ℕ, List, IfOk, OnErr, OnOk, Some, codes, decimal, is_some, length, ◌≤◌, ◌^◌, IfSome, IfErr, IsTrue, IsSome, None};
ghost use Rattle.hsms_log.specs.Auditor.{HasAtMost, HasProcessed, HasRoom, CanProcess, IsBetween};
ghost use Rattle.hsms_log.specs.LineFormat.{entry_line, settings_line, IsComment};
ghost use Rattle.capture_log.specs.AuditedLog.{note_text, packet_named, remark_text, CurrentState, HasLogged, Note, SaysOf};
ghost use Rattle.capture_log.specs.InnerAuditedLog.{failed_by, ProcessesInput};
ghost use Rattle.capture_log.specs.InnerByteBuffer.{Leads};
ghost use Rattle.capture_log.specs.declared.audited_log.LogComment.TheVariants.{LeftOut};
ghost use Rattle.hsms_machine.specs.Settings.{Parameters};
ghost use Rattle.capture_log.specs.BothLogs.{Adds, remark_alone};
ghost use Rattle.capture_log.specs.Stop.{IsNoRefusal};

use crate::byte_buffer::Text;
use crate::stop::Stop;
use hsms_log::laws::{each_text_has_one_verdict, settings_are_in_range, written_log_is_its_text};
use hsms_log::{Auditor, Verdict, write_entry, write_settings};
use hsms_machine::laws::{each_entry_has_one_answer, empty_log_is_run, front_of_run_is_run};
use hsms_machine::{Entry, Settings};
use itoa::Buffer;
use std::alloc::{AllocError, Global};
use std::marker::Model;

// How many lines a log may have.
const GREATEST: u64 = 1 << 62;

/// The comment above an entry, or in the place of one.
#[derive(Clone, Copy, PartialEq, Eq)]
pub enum LogComment {
    /// It happened at the packet with this number.
    Packet(u64),
    /// It is supposed, since a later connection of the same ends follows.
    Replaced,
    /// It is supposed, since the capture begins within the session.
    Assumption,
    /// There is none of the packet with this number: what it answers may stand before the capture.
    LeftOut(u64),
}

/// The log of one end of a connection, which is audited as it comes. None of its lines is held, and an entry is told to
/// the audit without being written. Contracts see the audit, which is gone where memory was refused.
pub struct AuditedLog {
    auditor: Option<Auditor>,
    // A bound of how many lines the log has: an octet counts as one.
    lines: u64,
    // The packet that a comment named last, and that of the line that fails.
    packet: u64,
    failed: Option<u64>,
}

// Written out: a proof over one that is dropped has one step for it, not one for each of its parts.
impl Drop for AuditedLog {
    fn drop(self) {
        let AuditedLog {
            auditor,
            lines: _,
            packet: _,
            failed: _,
        } = self;
        drop(auditor);
    }
}

impl Model for AuditedLog {
    ghost Value = { CurrentState };

    ghost view = { λ a. record { auditor = a.auditor; lines = a.lines; packet = a.packet; failed = a.failed } };

    ghost invariant = { λ a. IfSome a.auditor (HasAtMost a.lines) × (a.lines ≤ 2 ^ 62) };
}

impl AuditedLog {
    /// The log of an end with these settings, without an entry.
    ///
    /// # Errors
    ///
    /// `Memory`.
    #[tactic(auto, using(crate::proofs::Logs::begins))]
    pub fn new(alloc: Global, settings: &Settings) -> Result<AuditedLog, Stop>
        ensures begins { IfOk result (HasLogged settings.now []) }
        ensures unrefused { IfErr result IsNoRefusal }
    {
        each_text_has_one_verdict();
        empty_log_is_run();
        written_log_is_its_text();
        settings_are_in_range(settings);
        let mut account = AuditedLog {
            auditor: Some(Auditor::new(alloc)),
            lines: 0,
            packet: 0,
            failed: None,
        };
        let mut text = Text::new(alloc);
        append_settings(&mut text, settings)?;
        account.process_input(alloc, text.octets())?;
        Ok(account)
    }

    /// One more entry, behind a comment.
    ///
    /// # Errors
    ///
    /// `Memory`, also where the log may have more than 2^62 lines. Then it has no verdict, and nothing more is noted.
    #[tactic(auto, using(crate::proofs::Logs::noted))]
    pub fn note(&mut self, alloc: Global, remark: LogComment, entry: &Entry) -> Result<(), Stop>
        ensures added { OnOk result (Adds (record { remark = remark; entry = Some entry.now }) self.old self.new) }
        ensures there { OnOk result (IsSome self.old.auditor) }
        ensures gone { OnErr result (self.new.auditor ≡ None) }
        ensures unrefused { IfErr result IsNoRefusal }
    {
        self.packet = packet_of(remark, self.packet);
        self.comment(alloc, remark)?;
        self.enter(alloc, entry)
    }

    /// A comment alone.
    ///
    /// # Errors
    ///
    /// As of an entry.
    #[tactic(auto, using(crate::proofs::Logs::remarked))]
    pub fn remark(&mut self, alloc: Global, remark: LogComment) -> Result<(), Stop>
        ensures added { OnOk result (Adds (remark_alone remark) self.old self.new) }
        ensures there { OnOk result (IsSome self.old.auditor) }
        ensures gone { OnErr result (self.new.auditor ≡ None) }
        ensures unrefused { IfErr result IsNoRefusal }
    {
        self.packet = packet_of(remark, self.packet);
        self.comment(alloc, remark)
    }

    /// The verdict of the audit on the log, which ends here, and where it fails the number of the packet of the line.
    ///
    /// # Errors
    ///
    /// Where memory is refused, or was refused to the log.
    #[tactic(auto, using(crate::proofs::Logs::says))]
    pub fn verdict(self, alloc: Global) -> Result<LogVerdict, AllocError>
        ensures gives_verdict { IfOk result (λ emitted. (settings : Parameters) (notes : List Note)
            → HasLogged settings notes self → SaysOf settings notes emitted) }
        ensures there { OnOk result (IsSome self.auditor) }
    {
        front_of_run_is_run();
        each_entry_has_one_answer();
        let AuditedLog {
            auditor,
            lines: _,
            packet: _,
            failed: packet,
        } = self;
        match auditor {
            Some(auditor) => {
                let verdict = auditor.finish(alloc)?;
                Ok(LogVerdict { verdict, packet })
            }
            None => Err(AllocError),
        }
    }

    // A comment: told by itself where that can be, and else by its octets.
    #[tactic(auto, using(crate::proofs::Logs::passed))]
    fn comment(&mut self, alloc: Global, remark: LogComment) -> Result<(), Stop>
        ensures reception { OnOk result (ProcessesInput (remark_text remark) self.old self.new) }
        ensures there { OnOk result (IsSome self.old.auditor) }
        ensures gone { OnErr result (self.new.auditor ≡ None) }
        ensures unrefused { IfErr result IsNoRefusal }
    {
        if self.is_between() {
            return self.pass_comment();
        }
        let mut text = Text::new(alloc);
        match append_remark(&mut text, remark) {
            Ok(()) => self.process_input(alloc, text.octets()),
            Err(_) => Err(self.give_up()),
        }
    }

    // An entry: told by itself where that can be, and else by its line.
    fn enter(&mut self, alloc: Global, entry: &Entry) -> Result<(), Stop>
        ensures reception { OnOk result (ProcessesInput (entry_line entry.now ++ 10 ∷ []) self.old self.new) }
        ensures there { OnOk result (IsSome self.old.auditor) }
        ensures gone { OnErr result (self.new.auditor ≡ None) }
        ensures unrefused { IfErr result IsNoRefusal }
    {
        if self.can_process(entry) {
            return self.submit(entry);
        }
        let mut text = Text::new(alloc);
        match append_entry(&mut text, entry) {
            Ok(()) => self.process_input(alloc, text.octets()),
            Err(_) => Err(self.give_up()),
        }
    }

    // Whether the audit can be told a comment by itself.
    fn is_between(&self) -> bool
        ensures { IsTrue result → IfSome self.now.auditor IsBetween }
    {
        match &self.auditor {
            Some(auditor) => auditor.is_between(),
            None => false,
        }
    }

    // Whether the audit can be told an entry by itself.
    fn can_process(&self, entry: &Entry) -> bool
        ensures { IsTrue result → IfSome self.now.auditor (λ auditor. CanProcess auditor entry.now) }
    {
        match &self.auditor {
            Some(auditor) => auditor.can_process(entry),
            None => false,
        }
    }

    // Tells the audit a comment, whichever it is.
    fn pass_comment(&mut self) -> Result<(), Stop>
        requires { IfSome self.old.auditor IsBetween }
        ensures reception { OnOk result ((comment : List ℕ) → IsComment comment → ProcessesInput (comment ++ 10 ∷ []) self.old self.new) }
        ensures there { OnOk result (IsSome self.old.auditor) }
        ensures gone { OnErr result (self.new.auditor ≡ None) }
        ensures unrefused { IfErr result IsNoRefusal }
    {
        if self.lines >= GREATEST {
            return Err(self.give_up());
        }
        let Some(auditor) = &mut self.auditor else {
            return Err(Stop::Memory);
        };
        auditor.take_comment();
        self.failed = failed_by(self.failed, auditor, self.packet);
        self.lines += 1;
        Ok(())
    }

    // Tells the audit an entry.
    fn submit(&mut self, entry: &Entry) -> Result<(), Stop>
        requires { IfSome self.old.auditor (λ auditor. CanProcess auditor entry.now) }
        ensures reception { OnOk result (ProcessesInput (entry_line entry.now ++ 10 ∷ []) self.old self.new) }
        ensures there { OnOk result (IsSome self.old.auditor) }
        ensures gone { OnErr result (self.new.auditor ≡ None) }
        ensures unrefused { IfErr result IsNoRefusal }
    {
        if self.lines >= GREATEST {
            return Err(self.give_up());
        }
        let Some(auditor) = &mut self.auditor else {
            return Err(Stop::Memory);
        };
        match auditor.take_entry(entry) {
            Ok(()) => {
                self.failed = failed_by(self.failed, auditor, self.packet);
                self.lines += 1;
                Ok(())
            }
            Err(_) => {
                self.auditor = None;
                Err(Stop::Memory)
            }
        }
    }

    // The audit hears octets.
    fn process_input(&mut self, alloc: Global, octets: &[u8]) -> Result<(), Stop>
        ensures reception { OnOk result (ProcessesInput octets.now self.old self.new) }
        ensures there { OnOk result (IsSome self.old.auditor) }
        ensures gone { OnErr result (self.new.auditor ≡ None) }
        ensures unrefused { IfErr result IsNoRefusal }
    {
        let Some(auditor) = self.auditor.take() else {
            return Err(Stop::Memory);
        };
        let count = octets.len() as u64;
        if count > GREATEST - self.lines {
            return Err(Stop::Memory);
        }
        let next = process_input(alloc, auditor, octets)?;
        self.failed = failed_by(self.failed, &next, self.packet);
        self.lines += count;
        self.auditor = Some(next);
        Ok(())
    }

    // Nothing more is noted.
    fn give_up(&mut self) -> Stop
        ensures gone { self.new.auditor ≡ None }
        ensures memory { IsNoRefusal result }
    {
        self.auditor = None;
        Stop::Memory
    }
}

// An audit goes on by octets.
fn process_input(alloc: Global, auditor: Auditor, octets: &[u8]) -> Result<Auditor, AllocError>
    requires { HasRoom auditor octets.now }
    ensures reception { IfOk result (λ next. (text : List ℕ) → HasProcessed auditor text → HasProcessed next (text ++ octets.now)) }
    ensures lines { IfOk result (λ next. (n : ℕ) → HasAtMost n auditor → HasAtMost (n + length octets.now) next) }
{
    let mut next = auditor;
    next.take(alloc, octets)?;
    Ok(next)
}

// The packet of the line that fails: the last one, where none has failed before.
fn failed_by(failed: Option<u64>, auditor: &Auditor, packet: u64) -> Option<u64>
    ensures { result ≡ failed_by failed (is_some auditor.now.found) packet }
{
    match (failed, auditor.failure()) {
        (None, Some(_)) => Some(packet),
        (None, None) | (Some(_), _) => failed,
    }
}

// The packet that a comment names, or the one before.
fn packet_of(remark: LogComment, before: u64) -> u64
    ensures { result ≡ packet_named before remark }
{
    match remark {
        LogComment::Packet(packet) => packet,
        LogComment::Replaced | LogComment::Assumption | LogComment::LeftOut(_) => before,
    }
}

/// What the audit says of a log: the verdict, and where it is a failure the number of the packet of the line.
#[derive(Clone, Copy)]
pub struct LogVerdict {
    pub verdict: Verdict,
    pub packet: Option<u64>,
}

/// Lays an entry and the comment above it behind a text.
#[tactic(auto, using(crate::proofs::ByteBuffers::stay, crate::proofs::ByteBuffers::follow, crate::proofs::ByteBuffers::follow_in))]
pub fn append_note(text: &mut Text, remark: LogComment, entry: &Entry) -> Result<(), AllocError>
    ensures appended_text { OnOk result
        (text.new.octets ≡ text.old.octets ++ note_text (record { remark = remark; entry = Some entry.now })) }
    ensures kept { OnErr result (Leads text.old.octets text.new.octets) }
{
    append_remark(text, remark)?;
    append_entry(text, entry)
}

/// Lays a comment behind a text.
#[tactic(auto, using(crate::proofs::ByteBuffers::stay, crate::proofs::ByteBuffers::follow, crate::proofs::ByteBuffers::follow_in))]
pub fn append_remark(text: &mut Text, remark: LogComment) -> Result<(), AllocError>
    ensures appended_text { OnOk result (text.new.octets ≡ text.old.octets ++ remark_text remark) }
    ensures kept { OnErr result (Leads text.old.octets text.new.octets) }
{
    match remark {
        LogComment::Packet(packet) => append_packet(text, packet),
        LogComment::Replaced => text.append_chunk(b"# assumed: replaced by a new connection\n"),
        LogComment::Assumption => text.append_chunk(b"# assumed: before the capture\n"),
        LogComment::LeftOut(packet) => append_skipped(text, packet),
    }
}

// Lays the comment that names a packet.
#[tactic(auto, using(crate::proofs::ByteBuffers::stay, crate::proofs::ByteBuffers::follow, crate::proofs::ByteBuffers::follow_in))]
fn append_packet(text: &mut Text, packet: u64) -> Result<(), AllocError>
    ensures appended_text { OnOk result (text.new.octets ≡ text.old.octets ++ (codes "# packet " ++ (decimal packet ++ 10 ∷ []))) }
    ensures kept { OnErr result (Leads text.old.octets text.new.octets) }
{
    append_number(text, packet)?;
    text.append_chunk(b"\n")
}

// Lays the front of a comment that names a packet.
#[tactic(auto, using(crate::proofs::ByteBuffers::stay, crate::proofs::ByteBuffers::follow, crate::proofs::ByteBuffers::follow_in))]
fn append_number(text: &mut Text, packet: u64) -> Result<(), AllocError>
    ensures appended_text { OnOk result (text.new.octets ≡ text.old.octets ++ (codes "# packet " ++ decimal packet)) }
    ensures kept { OnErr result (Leads text.old.octets text.new.octets) }
{
    let mut buffer = Buffer::new();
    text.append_chunk(b"# packet ")?;
    text.append_chunk(buffer.format(packet).as_bytes())?;
    Ok(())
}

// Lays the comment that names a packet of which there is no entry.
#[tactic(auto, using(crate::proofs::ByteBuffers::stay, crate::proofs::ByteBuffers::follow, crate::proofs::ByteBuffers::follow_in))]
fn append_skipped(text: &mut Text, packet: u64) -> Result<(), AllocError>
    ensures appended_text { OnOk result (text.new.octets ≡ text.old.octets ++ remark_text (LeftOut packet)) }
    ensures kept { OnErr result (Leads text.old.octets text.new.octets) }
{
    append_number(text, packet)?;
    text.append_chunk(b" skipped: its request is not in the capture\n")
}

// Lays the line of an entry behind a text.
fn append_entry(text: &mut Text, entry: &Entry) -> Result<(), AllocError>
    ensures appended_text { OnOk result (text.new.octets ≡ text.old.octets ++ (entry_line entry.now ++ 10 ∷ [])) }
    ensures kept { OnErr result (Leads text.old.octets text.new.octets) }
{
    match write_entry(text, entry) {
        Ok(()) => Ok(()),
        Err(_) => Err(AllocError),
    }
}

/// Lays the line of the settings behind a text.
pub fn append_settings(text: &mut Text, settings: &Settings) -> Result<(), AllocError>
    ensures appended_text { OnOk result (text.new.octets ≡ text.old.octets ++ (settings_line settings.now ++ 10 ∷ [])) }
    ensures kept { OnErr result (Leads text.old.octets text.new.octets) }
{
    match write_settings(text, settings) {
        Ok(()) => Ok(()),
        Err(_) => Err(AllocError),
    }
}
