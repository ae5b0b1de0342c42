//! The logs of both ends of a connection.

ghost use Rattle.std.specs.Prelude.{◌≡◌, ◌<◌, ◌≤◌, ◌+◌, ◌⊎◌, IfErr, IfOk, IfSome, OnOk, None, Some, length, drop, [], List, max};
ghost use Rattle.std.specs.Option.{option_map};
ghost use Rattle.hsms_frame.specs.Frame.{Frame as Message};
ghost use Rattle.hsms_machine.specs.declared.entry.Event.TheVariants.{Sent, Taken, Down, Up};
ghost use Rattle.capture_log.specs.BothLogs.{Adds, note_of, LogsEventAs, event_of, reception_of, remark_alone};
ghost use Rattle.capture_log.specs.Stop.{IsNoRefusal};
ghost use Rattle.hsms_log.specs.LineFormat.{message_octets};
ghost use Rattle.capture_tcp.specs.declared.packet.Side.TheVariants.{Active, Passive};
ghost use Rattle.hsms_machine.specs.Settings.{Parameters};
ghost use Rattle.capture_log.specs.AuditedLog.{HasLogged, Note, SaysOf};
ghost use Rattle.capture_log.specs.declared.audited_log.LogComment.TheVariants.{LeftOut, Replaced, Assumption};

use crate::audited_log::{AuditedLog, LogComment, LogVerdict};
use crate::frame_parts::{LENGTH, frame_of};
use crate::stop::Stop;
use capture_tcp::{Event as Happens, Side, TimedEvent};
use hsms_frame::Frame;
use hsms_machine::{Entry, Event, Settings};
use std::alloc::{AllocError, Global};

/// The logs of both ends of a connection: the one that connected, and the one that was connected to.
pub struct BothLogs {
    pub active: AuditedLog,
    pub passive: AuditedLog,
    // The time of the last entry.
    time: u64,
    max: u32,
}

// Written out: a proof over one that is dropped has one step for it, not one for each of its parts.
impl Drop for BothLogs {
    fn drop(self) {
        let BothLogs {
            active,
            passive,
            time: _,
            max: _,
        } = self;
        drop(active);
        drop(passive);
    }
}

/// Whether what happens has an entry.
#[derive(Clone, Copy)]
pub enum LogResult {
    /// It has one, and more may follow.
    Proceeds,
    /// It has one, and the connection went down.
    Down,
    /// It is a message that no end takes, by its length.
    Length,
}

impl BothLogs {
    /// The logs of ends with these settings, without an entry.
    pub fn new(alloc: Global, active: &Settings, passive: &Settings) -> Result<BothLogs, Stop>
        ensures active { IfOk result (λ ends. HasLogged active.now [] ends.active) }
        ensures passive { IfOk result (λ ends. HasLogged passive.now [] ends.passive) }
        ensures max { IfOk result (λ ends. ends.max ≡ active.now.max) }
        ensures time { IfOk result (λ ends. ends.time ≡ 0) }
        ensures unrefused { IfErr result IsNoRefusal }
    {
        Ok(BothLogs {
            active: AuditedLog::new(alloc, active)?,
            passive: AuditedLog::new(alloc, passive)?,
            time: 0,
            max: active.max(),
        })
    }

    /// Both ends log what happens, where it is no message that none takes: at its time, or at that of the entry before,
    /// where it is later.
    pub fn process_input(&mut self, alloc: Global, happening: TimedEvent) -> Result<LogResult, Stop>
        ensures active { IfOk result (λ reception. LogsEventAs self.old.max self.old.time Active happening reception self.old.active self.new.active) }
        ensures passive { IfOk result (λ reception. LogsEventAs self.old.max self.old.time Passive happening reception self.old.passive self.new.passive) }
        ensures answer { IfOk result (λ reception. reception ≡ reception_of self.old.max happening.event) }
        ensures time { OnOk result (self.new.time ≡ max self.old.time happening.time) }
        ensures max { OnOk result (self.new.max ≡ self.old.max) }
        ensures unrefused { IfErr result IsNoRefusal }
    {
        let remark = LogComment::Packet(happening.packet);
        self.time = self.time.max(happening.time);
        match happening.event {
            Happens::Up => {
                self.both(alloc, remark, Event::Up)?;
                Ok(LogResult::Proceeds)
            }
            Happens::Down => {
                self.both(alloc, remark, Event::Down)?;
                Ok(LogResult::Down)
            }
            Happens::Message { from, octets } => {
                let Some(frame) = frame_within(self.max, octets) else {
                    return Ok(LogResult::Length);
                };
                self.message(alloc, remark, from, frame)?;
                Ok(LogResult::Proceeds)
            }
        }
    }

    /// The verdicts on both logs, which end here: of the active end's, and of the passive end's.
    pub fn verdicts(self, alloc: Global) -> Result<(LogVerdict, LogVerdict), AllocError>
        ensures active { IfOk result (λ both. (settings : Parameters) (notes : List Note)
            → HasLogged settings notes self.active → SaysOf settings notes both.0) }
        ensures passive { IfOk result (λ both. (settings : Parameters) (notes : List Note)
            → HasLogged settings notes self.passive → SaysOf settings notes both.1) }
    {
        let BothLogs {
            active,
            passive,
            time: _,
            max: _,
        } = self;
        Ok((active.verdict(alloc)?, passive.verdict(alloc)?))
    }

    /// Both ends log that the connection went down, since a later one follows, at the time of the entry before.
    pub fn replace(&mut self, alloc: Global) -> Result<(), Stop>
        ensures active { OnOk result (Adds (note_of Replaced self.old.time Down) self.old.active self.new.active) }
        ensures passive { OnOk result (Adds (note_of Replaced self.old.time Down) self.old.passive self.new.passive) }
        ensures unrefused { IfErr result IsNoRefusal }
    {
        self.both(alloc, LogComment::Replaced, Event::Down)
    }

    /// Both ends log that the connection came up at a time, or at that of the entry before, as it is supposed.
    pub fn assume_up(&mut self, alloc: Global, time: u64) -> Result<(), Stop>
        ensures active { OnOk result (Adds (note_of Assumption (max self.old.time time) Up) self.old.active self.new.active) }
        ensures passive { OnOk result (Adds (note_of Assumption (max self.old.time time) Up) self.old.passive self.new.passive) }
        ensures time { OnOk result (self.new.time ≡ max self.old.time time) }
        ensures max { OnOk result (self.new.max ≡ self.old.max) }
        ensures unrefused { IfErr result IsNoRefusal }
    {
        self.time = self.time.max(time);
        self.both(alloc, LogComment::Assumption, Event::Up)
    }

    /// Both ends log a message that one of them sent, as it is supposed, at the time of the entry before.
    pub fn assume_message(&mut self, alloc: Global, from: Side, frame: Frame) -> Result<(), Stop>
        ensures active { OnOk result
            (Adds (note_of Assumption self.old.time (event_of Active from frame)) self.old.active self.new.active) }
        ensures passive { OnOk result
            (Adds (note_of Assumption self.old.time (event_of Passive from frame)) self.old.passive self.new.passive) }
        ensures same { OnOk result ((self.new.time ≡ self.old.time) × (self.new.max ≡ self.old.max)) }
        ensures unrefused { IfErr result IsNoRefusal }
    {
        self.message(alloc, LogComment::Assumption, from, frame)
    }

    /// Both logs say that there is no entry of a packet: what it answers may stand before the capture.
    pub fn leave_out(&mut self, alloc: Global, packet: u64) -> Result<(), Stop>
        ensures active { OnOk result (Adds (remark_alone (LeftOut packet)) self.old.active self.new.active) }
        ensures passive { OnOk result (Adds (remark_alone (LeftOut packet)) self.old.passive self.new.passive) }
        ensures same { OnOk result ((self.new.time ≡ self.old.time) × (self.new.max ≡ self.old.max)) }
        ensures unrefused { IfErr result IsNoRefusal }
    {
        self.active.remark(alloc, LogComment::LeftOut(packet))?;
        self.passive.remark(alloc, LogComment::LeftOut(packet))
    }

    // Both log the same.
    fn both(&mut self, alloc: Global, remark: LogComment, event: Event) -> Result<(), Stop>
        ensures active { OnOk result (Adds (note_of remark self.old.time event) self.old.active self.new.active) }
        ensures passive { OnOk result (Adds (note_of remark self.old.time event) self.old.passive self.new.passive) }
        ensures same { OnOk result ((self.new.time ≡ self.old.time) × (self.new.max ≡ self.old.max)) }
        ensures unrefused { IfErr result IsNoRefusal }
    {
        let entry = Entry {
            time: self.time,
            event,
        };
        self.active.note(alloc, remark, &entry)?;
        self.passive.note(alloc, remark, &entry)
    }

    // One logs that it sent a message, and the other one that it took it.
    fn message(
        &mut self,
        alloc: Global,
        remark: LogComment,
        from: Side,
        frame: Frame,
    ) -> Result<(), Stop>
        ensures active { OnOk result
            (Adds (note_of remark self.old.time (event_of Active from frame)) self.old.active self.new.active) }
        ensures passive { OnOk result
            (Adds (note_of remark self.old.time (event_of Passive from frame)) self.old.passive self.new.passive) }
        ensures same { OnOk result ((self.new.time ≡ self.old.time) × (self.new.max ≡ self.old.max)) }
        ensures unrefused { IfErr result IsNoRefusal }
    {
        let (time, active, passive) = (self.time, &mut self.active, &mut self.passive);
        match from {
            Side::Active => pass(alloc, remark, time, frame, active, passive),
            Side::Passive => pass(alloc, remark, time, frame, passive, active),
        }
    }
}

// The end that sends a message logs it, and the other one that it takes it.
fn pass(
    alloc: Global,
    remark: LogComment,
    time: u64,
    frame: Frame,
    sender: &mut AuditedLog,
    taker: &mut AuditedLog,
) -> Result<(), Stop>
    ensures sender { OnOk result (Adds (note_of remark time (Sent frame)) sender.old sender.new) }
    ensures taker { OnOk result (Adds (note_of remark time (Taken frame)) taker.old taker.new) }
    ensures unrefused { IfErr result IsNoRefusal }
{
    let sent = Entry {
        time,
        event: Event::Sent(frame),
    };
    sender.note(alloc, remark, &sent)?;
    let taken = Entry {
        time,
        event: taken(sent.event),
    };
    taker.note(alloc, remark, &taken)
}

// What the other end logs of a message that one sent.
fn taken(sent: Event) -> Event
    ensures { (frame : Message) → sent ≡ Sent frame → result ≡ Taken frame }
{
    match sent {
        Event::Sent(frame) => Event::Taken(frame),
        other => other,
    }
}

/// The logs of the ends of a connection, out of their box.
pub fn unboxed(ends: Option<Box<BothLogs>>) -> Option<BothLogs>
    ensures { result ≡ option_map (λ ends. ends.value) ends }
{
    Some(Box::into_inner(ends?))
}

/// The message of these octets, those of its length first, where header and text have from ten octets up to so many.
pub fn frame_within(max: u32, octets: Vec<u8>) -> Option<Frame>
    ensures some { IfSome result (λ frame. drop 4 octets.items ≡ message_octets frame) }
    ensures none { result ≡ None → (length octets.items < 14) ⊎ (max + 4 < length octets.items) }
    ensures most { IfSome result (λ frame. length octets.items ≤ max + 4) }
    ensures least { IfSome result (λ frame. 14 ≤ length octets.items) }
{
    if octets.len() as u64 > u64::from(max) + LENGTH as u64 {
        return None;
    }
    frame_of(octets)
}
