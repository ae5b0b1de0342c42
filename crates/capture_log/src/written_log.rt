//! The log of one end, of one connection after another.

ghost use Rattle.std.specs.Prelude.{◌≡◌, ◌<◌, IfErr, OnOk, Some, ◌++◌, IfOk, None, OnErr, max, true, false};
ghost use Rattle.capture_log.specs.WrittenLog.{IsLater, MayBeAssumed, MayComeUp, Refuses, RefusesAssumed, Leaves, MayHappen, Stops, WritesEventAs, begun_by, came_up, front_of, went_down};
ghost use Rattle.hsms_machine.specs.declared.entry.Event.TheVariants.{Down, Up};
ghost use Rattle.capture_log.specs.declared.audited_log.LogComment.TheVariants.{LeftOut, Packet, Replaced, Assumption};
ghost use Rattle.capture_log.specs.declared.stop.Stop.TheVariants.{Memory};
ghost use Rattle.capture_log.specs.AuditedLog.{note_text, remark_text};
ghost use Rattle.capture_log.specs.BothLogs.{event_of, reception_of, note_of};
ghost use Rattle.capture_log.specs.InnerByteBuffer.{Leads};

use crate::audited_log::{LogComment, append_note, append_remark, append_settings};
use crate::both_logs::{LogResult, frame_within};
use crate::byte_buffer::Text;
use crate::socket_pair::Pair;
use crate::stop::Stop;
use capture_errors::Rejection;
use capture_tcp::{Event as Happens, Side, TimedEvent};
use hsms_frame::Frame;
use hsms_machine::{Entry, Event, Settings};

/// The log of the ends with these settings, on this side of each connection between the same two addresses.
#[derive(Drop)]
pub struct WrittenLog {
    settings: Settings,
    side: Side,
    begun: Option<Begun>,
    // The time of the last entry.
    time: u64,
}

// The connection that came up last, and whether it is up.
#[derive(Clone, Copy)]
struct Begun {
    pair: Pair,
    is_up: bool,
}

impl Begun {
    // Whether another connection may come up behind it.
    fn may_follow(&self, pair: &Pair, packet: u64) -> Result<(), Stop>
        ensures may { OnOk result (MayComeUp (Some self.now) pair.now) }
        ensures refused { IfErr result (λ stop. Refuses (Some self.now) pair.now packet stop) }
    {
        if !self.pair.has_addresses_of(pair) {
            return Err(Stop::Refused(Rejection::Peer { packet }));
        }
        if self.is_up {
            return Err(Stop::Refused(Rejection::Overlap { packet }));
        }
        Ok(())
    }
}

impl WrittenLog {
    /// A log of which nothing is told.
    pub fn new(settings: Settings, side: Side) -> WrittenLog
        ensures settings { result.settings ≡ settings }
        ensures side { result.side ≡ side }
        ensures begun { result.begun ≡ None }
        ensures time { result.time ≡ 0 }
    {
        WrittenLog {
            settings,
            side,
            begun: None,
            time: 0,
        }
    }

    /// How many octets header and text of a message have at most.
    pub fn max(&self) -> u32
        ensures { result ≡ self.now.settings.max }
    {
        self.settings.max()
    }

    /// Tells on a page what happens on the connection of a pair, where it is no message that no end takes.
    ///
    /// # Errors
    ///
    /// `Refused`: `Overlap` where another connection is up, and `Peer` where it has other addresses; `Memory`. The page
    /// stays as it was then.
    #[tactic(auto, using(crate::proofs::ByteBuffers::cut))]
    pub fn process_input(
        &mut self,
        page: &mut Text,
        pair: &Pair,
        happening: TimedEvent,
    ) -> Result<LogResult, Stop>
        ensures emitted { IfOk result (λ reception. WritesEventAs self.old.begun self.old.settings self.old.time self.old.side happening
            reception page.old.octets page.new.octets) }
        ensures answer { IfOk result (λ reception. reception ≡ reception_of self.old.settings.max happening.event) }
        ensures may { OnOk result (MayHappen self.old.begun pair.now happening.event) }
        ensures stops { IfErr result (λ stop. Stops self.old.begun pair.now happening.packet happening.event stop) }
        ensures kept { OnErr result (page.new.octets ≡ page.old.octets) }
        ensures begun { OnOk result (self.new.begun ≡ begun_by self.old.begun pair.now happening.event) }
        ensures refused { IfErr result (λ stop. Leaves stop self.old.begun self.new.begun) }
        ensures time { self.new.time ≡ max self.old.time happening.time }
        ensures same { (self.new.settings ≡ self.old.settings) × (self.new.side ≡ self.old.side) }
    {
        let length = page.octets().len();
        match self.submit(page, pair, happening) {
            Ok(reception) => Ok(reception),
            Err(stop) => {
                page.cut(length);
                Err(stop)
            }
        }
    }

    // The same, where what is told before a fault may stay on the page.
    fn submit(
        &mut self,
        page: &mut Text,
        pair: &Pair,
        happening: TimedEvent,
    ) -> Result<LogResult, Stop>
        ensures emitted { IfOk result (λ reception. WritesEventAs self.old.begun self.old.settings self.old.time self.old.side happening
            reception page.old.octets page.new.octets) }
        ensures answer { IfOk result (λ reception. reception ≡ reception_of self.old.settings.max happening.event) }
        ensures may { OnOk result (MayHappen self.old.begun pair.now happening.event) }
        ensures stops { IfErr result (λ stop. Stops self.old.begun pair.now happening.packet happening.event stop) }
        ensures kept { OnErr result (Leads page.old.octets page.new.octets) }
        ensures begun { OnOk result (self.new.begun ≡ begun_by self.old.begun pair.now happening.event) }
        ensures refused { IfErr result (λ stop. Leaves stop self.old.begun self.new.begun) }
        ensures time { self.new.time ≡ max self.old.time happening.time }
        ensures same { (self.new.settings ≡ self.old.settings) × (self.new.side ≡ self.old.side) }
    {
        let remark = LogComment::Packet(happening.packet);
        self.time = self.time.max(happening.time);
        match happening.event {
            Happens::Up => {
                self.come_up(page, pair, happening.packet, remark)?;
                Ok(LogResult::Proceeds)
            }
            Happens::Down => {
                self.go_down();
                self.write(page, remark, Event::Down)?;
                Ok(LogResult::Down)
            }
            Happens::Message { from, octets } => {
                let Some(frame) = frame_within(self.settings.max(), octets) else {
                    return Ok(LogResult::Length);
                };
                self.write(page, remark, self.event_of(from, frame))?;
                Ok(LogResult::Proceeds)
            }
        }
    }

    /// Tells on a page that the connection went down, since a later one follows.
    ///
    /// # Errors
    ///
    /// `Memory`. The page stays as it was then.
    #[tactic(auto, using(crate::proofs::ByteBuffers::cut))]
    pub fn replace(&mut self, page: &mut Text) -> Result<(), Stop>
        ensures emitted { OnOk result
            (page.new.octets ≡ page.old.octets ++ note_text (note_of Replaced self.old.time Down)) }
        ensures memory { IfErr result (λ stop. stop ≡ Memory) }
        ensures kept { OnErr result (page.new.octets ≡ page.old.octets) }
        ensures begun { self.new.begun ≡ went_down self.old.begun }
        ensures time { self.new.time ≡ self.old.time }
        ensures same { (self.new.settings ≡ self.old.settings) × (self.new.side ≡ self.old.side) }
    {
        let length = page.octets().len();
        self.go_down();
        match self.write(page, LogComment::Replaced, Event::Down) {
            Ok(()) => Ok(()),
            Err(stop) => {
                page.cut(length);
                Err(stop)
            }
        }
    }

    /// Tells on a page that the connection of a pair came up at a time, as it is supposed of a capture whose packet of
    /// this number is the first that counts.
    ///
    /// # Errors
    ///
    /// As what happens; and `Overlap` where the last entry of the log is later: the times of the session would be
    /// raised. The page stays as it was then.
    #[tactic(auto, using(crate::proofs::ByteBuffers::cut))]
    pub fn assume_up(
        &mut self,
        page: &mut Text,
        pair: &Pair,
        packet: u64,
        time: u64,
    ) -> Result<(), Stop>
        ensures emitted { OnOk result (page.new.octets
            ≡ (page.old.octets ++ front_of self.old.begun self.old.settings)
            ++ note_text (note_of Assumption (max self.old.time time) Up)) }
        ensures may { OnOk result (MayBeAssumed self.old.begun pair.now self.old.time time) }
        ensures stops { IfErr result (λ stop. RefusesAssumed self.old.begun pair.now packet self.old.time time stop) }
        ensures kept { OnErr result (page.new.octets ≡ page.old.octets) }
        ensures begun { OnOk result (self.new.begun ≡ came_up pair.now) }
        ensures refused { IfErr result (λ stop. Leaves stop self.old.begun self.new.begun) }
        ensures time { self.new.time ≡ max self.old.time time }
        ensures same { (self.new.settings ≡ self.old.settings) × (self.new.side ≡ self.old.side) }
    {
        let length = page.octets().len();
        let is_later = self.is_later(pair, time);
        self.time = self.time.max(time);
        if is_later {
            let overlap = Rejection::Overlap { packet };
            return Err(Stop::Refused(overlap));
        }
        match self.come_up(page, pair, packet, LogComment::Assumption) {
            Ok(()) => Ok(()),
            Err(stop) => {
                page.cut(length);
                Err(stop)
            }
        }
    }

    /// Tells on a page a message that an end sent, as it is supposed.
    ///
    /// # Errors
    ///
    /// `Memory`. The page stays as it was then.
    #[tactic(auto, using(crate::proofs::ByteBuffers::cut))]
    pub fn assume_message(&mut self, page: &mut Text, from: Side, frame: Frame) -> Result<(), Stop>
        ensures emitted { OnOk result (page.new.octets
            ≡ page.old.octets ++ note_text (note_of Assumption self.old.time (event_of self.old.side from frame))) }
        ensures memory { IfErr result (λ stop. stop ≡ Memory) }
        ensures kept { OnErr result (page.new.octets ≡ page.old.octets) }
        ensures same { self.new ≡ self.old }
    {
        let length = page.octets().len();
        match self.write(page, LogComment::Assumption, self.event_of(from, frame)) {
            Ok(()) => Ok(()),
            Err(stop) => {
                page.cut(length);
                Err(stop)
            }
        }
    }

    /// Tells on a page that there is no entry of a packet: what it answers may stand before the capture.
    ///
    /// # Errors
    ///
    /// `Memory`. The page stays as it was then.
    #[tactic(auto, using(crate::proofs::ByteBuffers::cut))]
    pub fn leave_out(&self, page: &mut Text, packet: u64) -> Result<(), Stop>
        ensures emitted { OnOk result (page.new.octets ≡ page.old.octets ++ remark_text (LeftOut packet)) }
        ensures memory { IfErr result (λ stop. stop ≡ Memory) }
        ensures kept { OnErr result (page.new.octets ≡ page.old.octets) }
    {
        let length = page.octets().len();
        match append_remark(page, LogComment::LeftOut(packet)) {
            Ok(()) => Ok(()),
            Err(_) => {
                page.cut(length);
                Err(Stop::Memory)
            }
        }
    }

    // The connection of a pair comes up. The first one that does begins the log.
    #[tactic(auto, using(crate::proofs::ByteBuffers::come_up, crate::proofs::ByteBuffers::follow))]
    fn come_up(
        &mut self,
        page: &mut Text,
        pair: &Pair,
        packet: u64,
        remark: LogComment,
    ) -> Result<(), Stop>
        ensures emitted { OnOk result (page.new.octets
            ≡ (page.old.octets ++ front_of self.old.begun self.old.settings)
            ++ note_text (note_of remark self.old.time Up)) }
        ensures may { OnOk result (MayComeUp self.old.begun pair.now) }
        ensures stops { IfErr result (λ stop. Refuses self.old.begun pair.now packet stop) }
        ensures kept { OnErr result (Leads page.old.octets page.new.octets) }
        ensures begun { OnOk result (self.new.begun ≡ came_up pair.now) }
        ensures refused { IfErr result (λ stop. Leaves stop self.old.begun self.new.begun) }
        ensures same { (self.new.settings ≡ self.old.settings) × (self.new.side ≡ self.old.side)
            × (self.new.time ≡ self.old.time) }
    {
        self.begin(page, pair, packet)?;
        self.begun = Some(Begun {
            pair: *pair,
            is_up: true,
        });
        self.write(page, remark, Event::Up)
    }

    // The front of the log, where the connection is the first one; and whether it may come up.
    #[tactic(auto, using(crate::proofs::ByteBuffers::stay, crate::proofs::ByteBuffers::same))]
    fn begin(&self, page: &mut Text, pair: &Pair, packet: u64) -> Result<(), Stop>
        ensures emitted { OnOk result
            (page.new.octets ≡ page.old.octets ++ front_of self.now.begun self.now.settings) }
        ensures may { OnOk result (MayComeUp self.now.begun pair.now) }
        ensures stops { IfErr result (λ stop. Refuses self.now.begun pair.now packet stop) }
        ensures kept { OnErr result (Leads page.old.octets page.new.octets) }
    {
        match &self.begun {
            None => Ok(append_settings(page, &self.settings)?),
            Some(begun) => begun.may_follow(pair, packet),
        }
    }

    // Returns true if the log of the same two addresses has an entry later than this time.
    fn is_later(&self, pair: &Pair, time: u64) -> bool
        ensures yes { result ≡ true → IsLater self.now.begun pair.now self.now.time time }
        ensures no { result ≡ false → IsLater self.now.begun pair.now self.now.time time → ⊥ }
    {
        match &self.begun {
            None => false,
            Some(begun) => time < self.time && begun.pair.has_addresses_of(pair),
        }
    }

    // The connection goes down.
    fn go_down(&mut self)
        ensures begun { self.new.begun ≡ went_down self.old.begun }
        ensures same { (self.new.settings ≡ self.old.settings) × (self.new.side ≡ self.old.side)
            × (self.new.time ≡ self.old.time) }
    {
        if let Some(begun) = &mut self.begun {
            begun.is_up = false;
        }
    }

    // What this end logs of a message that an end sent.
    fn event_of(&self, from: Side, frame: Frame) -> Event
        ensures { result ≡ event_of self.now.side from frame }
    {
        if self.side == from {
            Event::Sent(frame)
        } else {
            Event::Taken(frame)
        }
    }

    // Tells an entry behind its comment.
    fn write(&self, page: &mut Text, remark: LogComment, event: Event) -> Result<(), Stop>
        ensures emitted { OnOk result
            (page.new.octets ≡ page.old.octets ++ note_text (note_of remark self.now.time event)) }
        ensures memory { IfErr result (λ stop. stop ≡ Memory) }
        ensures kept { OnErr result (Leads page.old.octets page.new.octets) }
    {
        let entry = Entry {
            time: self.time,
            event,
        };
        Ok(append_note(page, remark, &entry)?)
    }
}
