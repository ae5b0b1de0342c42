//! The logs of both endpoints of a connection.

ghost use Rattle.std.specs.Prelude.{◌≡◌, ◌++◌, ◌∷◌, [], IfOk, IfErr, OnOk, List};
ghost use Rattle.capture_log.specs.AuditedLog.{Note, SaysOf};
ghost use Rattle.capture_log.specs.BothLogs.{Adds, event_of, remark_alone};
ghost use Rattle.capture_log.specs.Stop.{IsNoRefusal};
ghost use Rattle.hsms_frame.specs.Frame.{Frame as HsmsFrame};
ghost use Rattle.hsms_machine.specs.Settings.{Parameters};
ghost use Rattle.hsms_machine.specs.declared.entry.Event.TheVariants.{Sent, Taken};
ghost use Rattle.capture_tcp.specs.declared.packet.Side.TheVariants.{Active, Passive};
ghost use Rattle.capture_events.specs.declared.log_item.LogItem.{LogItem};
ghost use Rattle.capture_verdicts.specs.VerdictReport.{event_at, notes};
ghost use Rattle.capture_verdicts.specs.ReportState.{AddsItem, HaveLogged};
ghost use Rattle.capture_verdicts.specs.InnerReportState.{note_by};

use capture_events::{EntryKind, LogItem};
use capture_log::{AuditedLog, LogComment, LogVerdict, Stop};
use capture_tcp::Side;
use hsms_frame::Frame;
use hsms_machine::{Entry, Event, Settings};
use std::alloc::Global;

/// The logs of the active and of the passive endpoint.
pub struct PairLogs {
    active: AuditedLog,
    passive: AuditedLog,
    // The time of the last entry.
    time: u64,
}

// Written out so that a proof has one step for a dropped value, not one for each of its parts.
impl Drop for PairLogs {
    fn drop(self) {
        let PairLogs {
            active,
            passive,
            time: _,
        } = self;
        drop(active);
        drop(passive);
    }
}

impl PairLogs {
    /// Creates logs without entries, of endpoints with these settings.
    pub fn new(alloc: Global, active: &Settings, passive: &Settings) -> Result<PairLogs, Stop>
        ensures begins { IfOk result (HaveLogged active.now passive.now []) }
        ensures unrefused { IfErr result IsNoRefusal }
    {
        Ok(PairLogs {
            active: AuditedLog::new(alloc, active)?,
            passive: AuditedLog::new(alloc, passive)?,
            time: 0,
        })
    }

    /// Logs an item at both endpoints.
    pub fn log(&mut self, alloc: Global, item: LogItem) -> Result<(), Stop>
        ensures added { OnOk result (AddsItem item self.old self.new) }
        ensures unrefused { IfErr result IsNoRefusal }
    {
        let LogItem {
            comment,
            time,
            kind,
        } = item;
        self.time = self.time.max(time);
        match kind {
            None => self.log_comment(alloc, comment),
            Some(kind) => self.log_entry(alloc, comment, kind),
        }
    }

    // Logs a comment alone.
    fn log_comment(&mut self, alloc: Global, comment: LogComment) -> Result<(), Stop>
        ensures active { OnOk result (Adds (remark_alone comment) self.old.active self.new.active) }
        ensures passive { OnOk result (Adds (remark_alone comment) self.old.passive self.new.passive) }
        ensures same { OnOk result (self.new.time ≡ self.old.time) }
        ensures unrefused { IfErr result IsNoRefusal }
    {
        self.active.remark(alloc, comment)?;
        self.passive.remark(alloc, comment)
    }

    // Logs an entry after its comment.
    fn log_entry(&mut self, alloc: Global, comment: LogComment, kind: EntryKind) -> Result<(), Stop>
        ensures active { OnOk result
            (Adds (note_by comment self.old.time (event_at Active kind)) self.old.active self.new.active) }
        ensures passive { OnOk result
            (Adds (note_by comment self.old.time (event_at Passive kind)) self.old.passive self.new.passive) }
        ensures same { OnOk result (self.new.time ≡ self.old.time) }
        ensures unrefused { IfErr result IsNoRefusal }
    {
        match kind {
            EntryKind::Up(_) => self.log_both(alloc, comment, Event::Up),
            EntryKind::Down => self.log_both(alloc, comment, Event::Down),
            EntryKind::Message(from, frame) => self.log_message(alloc, comment, from, frame),
        }
    }

    // Logs a message that one endpoint sent, and the other one took.
    fn log_message(
        &mut self,
        alloc: Global,
        comment: LogComment,
        from: Side,
        frame: Frame,
    ) -> Result<(), Stop>
        ensures active { OnOk result
            (Adds (note_by comment self.old.time (event_of Active from frame)) self.old.active self.new.active) }
        ensures passive { OnOk result
            (Adds (note_by comment self.old.time (event_of Passive from frame)) self.old.passive self.new.passive) }
        ensures same { OnOk result (self.new.time ≡ self.old.time) }
        ensures unrefused { IfErr result IsNoRefusal }
    {
        let (time, active, passive) = (self.time, &mut self.active, &mut self.passive);
        match from {
            Side::Active => pass(alloc, comment, time, frame, active, passive),
            Side::Passive => pass(alloc, comment, time, frame, passive, active),
        }
    }

    /// Returns the verdicts on both logs, which end here: on that of the active endpoint, and of the passive one.
    pub fn verdicts(self, alloc: Global) -> Result<(LogVerdict, LogVerdict), Stop>
        ensures says { IfOk result (λ both. (a p : Parameters) (items : List LogItem) → HaveLogged a p items self
            → SaysOf a (notes Active 0 items) both.0 × SaysOf p (notes Passive 0 items) both.1) }
        ensures unrefused { IfErr result IsNoRefusal }
    {
        let PairLogs {
            active,
            passive,
            time: _,
        } = self;
        Ok((active.verdict(alloc)?, passive.verdict(alloc)?))
    }

    // Logs the same entry at both endpoints.
    fn log_both(&mut self, alloc: Global, comment: LogComment, event: Event) -> Result<(), Stop>
        ensures active { OnOk result (Adds (note_by comment self.old.time event) self.old.active self.new.active) }
        ensures passive { OnOk result (Adds (note_by comment self.old.time event) self.old.passive self.new.passive) }
        ensures same { OnOk result (self.new.time ≡ self.old.time) }
        ensures unrefused { IfErr result IsNoRefusal }
    {
        let entry = Entry {
            time: self.time,
            event,
        };
        self.active.note(alloc, comment, &entry)?;
        self.passive.note(alloc, comment, &entry)
    }
}

// Logs a message as sent at the endpoint that sends it, and as taken at the other one.
fn pass(
    alloc: Global,
    comment: LogComment,
    time: u64,
    frame: Frame,
    sender: &mut AuditedLog,
    taker: &mut AuditedLog,
) -> Result<(), Stop>
    ensures sender { OnOk result (Adds (note_by comment time (Sent frame)) sender.old sender.new) }
    ensures taker { OnOk result (Adds (note_by comment time (Taken frame)) taker.old taker.new) }
    ensures unrefused { IfErr result IsNoRefusal }
{
    let sent = Entry {
        time,
        event: Event::Sent(frame),
    };
    sender.note(alloc, comment, &sent)?;
    let taken = Entry {
        time,
        event: taken(sent.event),
    };
    taker.note(alloc, comment, &taken)
}

// Returns the event of the endpoint that takes a message, from that of the endpoint that sent it.
fn taken(sent: Event) -> Event
    ensures { (frame : HsmsFrame) → sent ≡ Sent frame → result ≡ Taken frame }
{
    match sent {
        Event::Sent(frame) => Event::Taken(frame),
        other => other,
    }
}
