//! What is told of a session that was running before the capture.

ghost use Rattle.std.specs.Prelude.{◌≡◌, IfErr, OnOk};
ghost use Rattle.cli_capture.specs.InnerMidstreamLog.{IsQuiet};
ghost use Rattle.cli_capture.specs.Assumptions.{counts_by, other_side, said_by};
ghost use Rattle.cli_capture.specs.InnerReport.{StopsUnrefused, Emits};

use crate::pending_requests::Said;
use crate::progress::Progress;
use crate::report::Report;
use capture_errors::Shortfall;
use capture_log::{BothLogs, Pair, Stop, unboxed};
use capture_midstream::{Assumption, Start, header_at};
use capture_tcp::{Event, Side, TimedEvent};
use hsms_frame::{Header, select_req, select_rsp};
use std::alloc::Global;
use std::mem;

// So many messages wait at most for one that decides what stood before.
const GREATEST_WAIT: usize = 4096;

// The system bytes of a Select that is supposed.
const SUPPOSED_SYSTEM: u32 = u32::MAX;

/// What is told of such a session, from the packet on with which both of its directions have begun.
pub struct Joined {
    start: Start,
    /// The logs of its ends, where they are audited and it came up.
    ends: Option<Box<BothLogs>>,
    // Whether it came up: what is supposed is told, and then a message. Before nothing is told of it.
    is_up: bool,
    // Whether it is decided what stood before.
    is_decided: bool,
    // What is supposed, and which end has asked, where one has: that the session was selected, unless a message says
    // otherwise.
    assumed: Assumption,
    asker: Side,
    // The messages that wait for one that decides it.
    waiting: Vec<TimedEvent>,
    // The packets of the messages that are left out before the first one that isn't.
    left_out: Vec<u64>,
    // What both ends have asked for since then, or, once it is decided, with what is supposed; none past T3.
    said: Option<Said>,
}

// Written out: a proof over one that is dropped has one step for it, not one for each of its parts.
impl Drop for Joined {
    fn drop(self) {
        let Joined {
            start: _,
            ends,
            is_up: _,
            is_decided: _,
            assumed: _,
            asker: _,
            waiting,
            left_out,
            said,
        } = self;
        drop(ends);
        drop(waiting);
        drop(left_out);
        drop(said);
    }
}

// What becomes of what happens.
#[derive(Clone, Copy)]
enum Part {
    // It is a message, which is told.
    Message,
    // It is a response to what may stand before the capture.
    LeftOut,
    // It is no message that an end takes: the session is over with it.
    End,
}

impl Joined {
    ghost use Rattle.std.specs.Prelude.{◌≡◌, ◌≢◌, ◌++◌, ◌∷◌, [], ◌||◌, ◌⊎◌, ℕ, IfErr, IfOk, List, None, OnOk, Some, false, is_some, map, true};
    ghost use Rattle.capture_log.specs.declared.written_log.WrittenLog.{WrittenLog};
    ghost use Rattle.capture_log.specs.declared.socket_pair.Pair.{Pair};
    ghost use Rattle.capture_log.specs.declared.stop.Stop.TheVariants.{Memory};
    ghost use Rattle.capture_tcp.specs.declared.events.TimedEvent.{TimedEvent};
    ghost use Rattle.capture_midstream.specs.Assumption.{assumed_by};
    ghost use Rattle.capture_midstream.specs.declared.assumption.Assumption.TheVariants.{Selected};
    ghost use Rattle.hsms_machine.specs.Settings.{Parameters};
    ghost use Rattle.cli_capture.specs.declared.progress.Progress.TheVariants.{Proceeds};
    ghost use Rattle.cli_capture.specs.declared.midstream_log.Part.TheVariants.{Message};
    ghost use Rattle.cli_capture.specs.declared.report.OutputMode.TheVariants.{Log, Verdicts};
    ghost use Rattle.cli_capture.specs.declared.pending_requests.Said.{Said};
    ghost use Rattle.cli_capture.specs.OutputMode.{Way};
    ghost use Rattle.cli_capture.specs.TrackedConnection.{WhenTold};
    ghost use Rattle.cli_capture.specs.InnerTrackedConnection.{Replaces, unboxed_ends};
    ghost use Rattle.cli_capture.specs.MidstreamItems.{leaves_out};
    ghost use Rattle.cli_capture.specs.InnerMidstreamItems.{TakesItems};
    ghost use Rattle.cli_capture.specs.InnerMidstreamLog.{Decides, HearsItem, HearsNext, HearsOn, IsNew, IsPartOf, IsQuiet, Settles, TellsPart, TellsThem, Waits, SettlesAndTells, come_items_if, end_course, ends_if, left_items, left_packets};
    ghost use Rattle.cli_capture.specs.LogOutput.{CountsIf};
    ghost use Rattle.cli_capture.specs.InnerLogOutput.{GoesDown};
    ghost use Rattle.capture_log.specs.Stop.{IsNoRefusal};
    ghost use Rattle.cli_capture.specs.InnerLogRejection.{HearsRefused, LacksRefused};
    ghost use Rattle.cli_capture.specs.InnerLogRejectionMidstream.{ComesUpRefused, DecidesRefused, EachRefused, SettlesAndTellsRefused, HearsNextRefused, PartRefused, SettlesRefused, TellsRefused, UndecidedRefused};
    ghost use Rattle.cli_capture.specs.InnerReport.{StopsUnrefused, Emits, TellsBy};
    ghost use Rattle.cli_capture.specs.PendingRequests.{KnowsBoth, Spoken, spoken_to, with_message};
    ghost use Rattle.cli_capture.specs.Assumptions.{asked_by, supposed_messages};

    /// A session of which nothing is told.
    #[tactic(auto, using(crate::proofs::Sessions::new_joined))]
    pub fn new(alloc: Global, start: Start) -> Joined
        ensures { IsNew start result }
    {
        Joined {
            start,
            ends: None,
            is_up: false,
            is_decided: false,
            assumed: Assumption::Selected,
            asker: Side::Active,
            waiting: Vec::new(alloc),
            left_out: Vec::new(alloc),
            said: Some(Said::new(alloc)),
        }
    }

    /// Something happens on it. Messages before both directions had begun are left out, and that it came up is supposed.
    #[tactic(auto, using(crate::proofs::Quiet::quiet_steps))]
    pub fn process_input(
        &mut self,
        alloc: Global,
        report: &mut Report,
        pair: &Pair,
        happening: TimedEvent,
    ) -> Result<Progress, Stop>
        ensures emitted { OnOk result (Emits report.old report.new) }
        ensures quiet { OnOk result (IsQuiet self.old.is_up self.new.is_up report.old report.new) }
        ensures processes_input { IfOk result (λ progress. HearsOn pair.now happening self.old report.old progress self.new report.new) }
        ensures unrefused { IfErr result (StopsUnrefused report.old) }
        ensures refuses { IfErr result (λ stop.
            EachRefused pair.now (happening ∷ []) self.old stop report.old report.new) }
    {
        if counts(&happening, self.start) {
            self.hear_next(alloc, report, pair, happening)
        } else {
            Ok(Progress::Proceeds)
        }
    }

    // A message is sent, or it goes down.
    #[tactic(auto, using(crate::proofs::Quiet::quiet_steps))]
    fn hear_next(
        &mut self,
        alloc: Global,
        report: &mut Report,
        pair: &Pair,
        happening: TimedEvent,
    ) -> Result<Progress, Stop>
        ensures emitted { OnOk result (Emits report.old report.new) }
        ensures quiet { OnOk result (IsQuiet self.old.is_up self.new.is_up report.old report.new) }
        ensures processes_input { IfOk result (λ progress. HearsNext pair.now happening self.old report.old progress self.new report.new) }
        ensures unrefused { IfErr result (StopsUnrefused report.old) }
        ensures refuses { IfErr result (λ stop. HearsNextRefused pair.now happening self.old stop report.old report.new) }
    {
        if self.is_decided {
            return self.submit(alloc, report, pair, happening);
        }
        let Some((from, message)) = message_of(&happening, report.max()) else {
            return self.settle_and_tell(alloc, report, pair, happening);
        };
        let Some(assumed) = self.decided_by(from, message) else {
            return self.wait(alloc, report, pair, from, message, happening);
        };
        match self.decide(alloc, report, pair, assumed, other(from))? {
            Progress::Proceeds => self.submit(alloc, report, pair, happening),
            Progress::Over(shortfall) => Ok(Progress::Over(shortfall)),
        }
    }

    // What a message says of what stood before, if it decides that.
    fn decided_by(&self, from: Side, message: Header) -> Option<Assumption>
        ensures { (said : Said) (spoken : Spoken) → self.now.said ≡ Some said → KnowsBoth spoken said
            → result ≡ assumed_by message (spoken_to from spoken) }
    {
        self.said.as_ref()?.decided_by(from, message)
    }

    // A message waits, or too many do.
    #[tactic(auto, using(crate::proofs::Quiet::quiet_steps))]
    fn wait(
        &mut self,
        alloc: Global,
        report: &mut Report,
        pair: &Pair,
        from: Side,
        message: Header,
        happening: TimedEvent,
    ) -> Result<Progress, Stop>
        ensures emitted { OnOk result (Emits report.old report.new) }
        ensures quiet { OnOk result (IsQuiet self.old.is_up self.new.is_up report.old report.new) }
        ensures waits { IfOk result (λ progress.
            Waits pair.now from message happening self.old report.old progress self.new report.new) }
        ensures unrefused { IfErr result (StopsUnrefused report.old) }
        ensures refuses { IfErr result (λ stop.
            UndecidedRefused pair.now from message happening self.old stop report.old report.new) }
    {
        self.note(from, message)?;
        if self.waiting.push(happening).is_err() {
            return Err(Stop::Memory);
        }
        if self.waiting.len() <= GREATEST_WAIT {
            return Ok(Progress::Proceeds);
        }
        self.decide(alloc, report, pair, Assumption::Selected, Side::Active)
    }

    // An end sent a message.
    fn note(&mut self, from: Side, message: Header) -> Result<(), Stop>
        ensures same { self.new ≡ record self.old { said = self.new.said } }
        ensures noted { OnOk result ((said : Said) (spoken : Spoken) → self.old.said ≡ Some said → KnowsBoth spoken said
            → (next : Said) × (self.new.said ≡ Some next) × KnowsBoth (with_message from message spoken) next) }
        ensures none { self.old.said ≡ None → self.new.said ≡ None }
        ensures memory { IfErr result (λ stop. stop ≡ Memory) }
    {
        match &mut self.said {
            Some(said) => Ok(said.note(from, message)?),
            None => Ok(()),
        }
    }

    // What waits is told, and then what happens.
    #[tactic(auto, using(crate::proofs::Quiet::quiet_steps))]
    fn settle_and_tell(
        &mut self,
        alloc: Global,
        report: &mut Report,
        pair: &Pair,
        happening: TimedEvent,
    ) -> Result<Progress, Stop>
        ensures emitted { OnOk result (Emits report.old report.new) }
        ensures quiet { OnOk result (IsQuiet self.old.is_up self.new.is_up report.old report.new) }
        ensures emits { IfOk result (λ progress.
            SettlesAndTells pair.now happening self.old report.old progress self.new report.new) }
        ensures unrefused { IfErr result (StopsUnrefused report.old) }
        ensures refuses { IfErr result (λ stop. SettlesAndTellsRefused pair.now happening self.old stop report.old report.new) }
    {
        match self.settle(alloc, report, pair)? {
            Progress::Proceeds => self.submit(alloc, report, pair, happening),
            Progress::Over(shortfall) => Ok(Progress::Over(shortfall)),
        }
    }

    /// What waits is told, where no message decides what stood before: it was selected.
    #[tactic(auto, using(crate::proofs::Quiet::quiet_steps))]
    pub fn settle(
        &mut self,
        alloc: Global,
        report: &mut Report,
        pair: &Pair,
    ) -> Result<Progress, Stop>
        ensures emitted { OnOk result (Emits report.old report.new) }
        ensures quiet { OnOk result (IsQuiet self.old.is_up self.new.is_up report.old report.new) }
        ensures settles { IfOk result (λ progress. Settles pair.now self.old report.old progress self.new report.new) }
        ensures nothing { self.old.waiting.items ≡ [] → IfOk result (λ progress.
            (progress ≡ Proceeds) × (self.new ≡ self.old) × (report.new ≡ report.old)) }
        ensures unrefused { IfErr result (StopsUnrefused report.old) }
        ensures refuses { IfErr result (λ stop. SettlesRefused pair.now self.old stop report.old report.new) }
    {
        if self.waiting.is_empty() {
            return Ok(Progress::Proceeds);
        }
        self.decide(alloc, report, pair, Assumption::Selected, Side::Active)
    }

    // What stood before is decided, and an end may have asked: what waits is told.
    #[tactic(auto, using(crate::proofs::Quiet::quiet_steps))]
    fn decide(
        &mut self,
        alloc: Global,
        report: &mut Report,
        pair: &Pair,
        assumed: Assumption,
        asker: Side,
    ) -> Result<Progress, Stop>
        ensures emitted { OnOk result (Emits report.old report.new) }
        ensures quiet { OnOk result (IsQuiet self.old.is_up self.new.is_up report.old report.new) }
        ensures decides { IfOk result (λ progress.
            Decides pair.now assumed asker self.old report.old progress self.new report.new) }
        ensures unrefused { IfErr result (StopsUnrefused report.old) }
        ensures refuses { IfErr result (λ stop.
            DecidesRefused pair.now assumed asker self.old stop report.old report.new) }
    {
        self.suppose(alloc, assumed, asker)?;
        let waiting = mem::replace(&mut self.waiting, Vec::new(alloc));
        self.submit_all(alloc, report, pair, waiting)
    }

    // What stood before is decided.
    fn suppose(&mut self, alloc: Global, assumed: Assumption, asker: Side) -> Result<(), Stop>
        ensures same { self.new ≡ record self.old {
          is_decided = self.new.is_decided;
          assumed = self.new.assumed;
          asker = self.new.asker;
          said = self.new.said;
        } }
        ensures decided { (self.new.is_decided ≡ true) × (self.new.assumed ≡ assumed) × (self.new.asker ≡ asker) }
        ensures said { OnOk result ((said : Said) × (self.new.said ≡ Some said) × KnowsBoth (asked_by assumed asker) said) }
        ensures memory { IfErr result (λ stop. stop ≡ Memory) }
    {
        self.is_decided = true;
        self.assumed = assumed;
        self.asker = asker;
        self.said = Some(Said::new(alloc));
        match assumed {
            Assumption::Asked(system) => self.note(asker, select_req(system)),
            Assumption::Selected | Assumption::Nothing => Ok(()),
        }
    }

    // It comes up with the first message that is told: what is supposed is told, and what was left out.
    #[tactic(auto, using(crate::proofs::Unrefused::telling_steps, crate::proofs::Taking::takes_nothing, crate::proofs::Taking::takes_one_then))]
    fn come_up(&mut self, alloc: Global, report: &mut Report, pair: &Pair) -> Result<(), Stop>
        ensures emitted { OnOk result (Emits report.old report.new) }
        ensures up { OnOk result (self.new.is_up ≡ true) }
        ensures items { OnOk result (TakesItems pair.now Proceeds (come_items_if self.old.is_up self.old)
            self.old.ends report.old self.new.ends report.new) }
        ensures same { OnOk result (self.new ≡ record self.old {
          is_up = true;
          ends = self.new.ends;
          left_out = self.new.left_out;
        }) }
        ensures left { self.old.is_up ≡ true → self.new ≡ self.old }
        ensures none { self.old.is_up ≡ false → OnOk result (self.new.left_out.items ≡ []) }
        ensures unrefused { IfErr result (StopsUnrefused report.old) }
        ensures refuses { IfErr result (λ stop. ComesUpRefused pair.now self.old stop report.old report.new) }
    {
        if self.is_up {
            return Ok(());
        }
        report.assume_up(alloc, pair, &mut self.ends, self.start)?;
        self.suppose_before(alloc, report)?;
        self.tell_left_out(alloc, report)?;
        self.is_up = true;
        Ok(())
    }

    // What is supposed is told, besides that the connection came up.
    #[tactic(auto, using(crate::proofs::Unrefused::telling_steps, crate::proofs::Taking::takes_nothing, crate::proofs::Taking::takes_one_then))]
    fn suppose_before(&mut self, alloc: Global, report: &mut Report) -> Result<(), Stop>
        ensures emitted { OnOk result (Emits report.old report.new) }
        ensures items { (pair : Pair) → OnOk result (TakesItems pair Proceeds
            (supposed_messages self.old.assumed self.old.asker) self.old.ends report.old self.new.ends report.new) }
        ensures same { self.new ≡ record self.old { ends = self.new.ends } }
        ensures unrefused { IfErr result IsNoRefusal }
    {
        match self.assumed {
            Assumption::Selected => self.suppose_select(alloc, report),
            Assumption::Asked(system) => {
                report.assume_message(alloc, &mut self.ends, self.asker, select_req(system))
            }
            Assumption::Nothing => Ok(()),
        }
    }

    // A Select is supposed, and its answer.
    #[tactic(auto, using(crate::proofs::Unrefused::telling_steps, crate::proofs::Taking::takes_nothing, crate::proofs::Taking::takes_one_then))]
    fn suppose_select(&mut self, alloc: Global, report: &mut Report) -> Result<(), Stop>
        ensures emitted { OnOk result (Emits report.old report.new) }
        ensures items { (pair : Pair) → OnOk result (TakesItems pair Proceeds
            (supposed_messages Selected self.old.asker) self.old.ends report.old self.new.ends report.new) }
        ensures same { self.new ≡ record self.old { ends = self.new.ends } }
        ensures unrefused { IfErr result IsNoRefusal }
    {
        let request = select_req(SUPPOSED_SYSTEM);
        let response = select_rsp(request, 0);
        report.assume_message(alloc, &mut self.ends, Side::Active, request)?;
        report.assume_message(alloc, &mut self.ends, Side::Passive, response)
    }

    // The messages are told that were left out so far.
    #[tactic(auto, using(crate::proofs::Unrefused::telling_steps, crate::proofs::Taking::takes_nothing, crate::proofs::Taking::takes_one_then))]
    fn tell_left_out(&mut self, alloc: Global, report: &mut Report) -> Result<(), Stop>
        ensures emitted { OnOk result (Emits report.old report.new) }
        ensures items { (pair : Pair) → OnOk result (TakesItems pair Proceeds (map leaves_out self.old.left_out.items)
            self.old.ends report.old self.new.ends report.new) }
        ensures same { self.new ≡ record self.old { ends = self.new.ends; left_out = self.new.left_out } }
        ensures none { self.new.left_out.items ≡ [] }
        ensures unrefused { IfErr result IsNoRefusal }
    {
        let left_out = mem::replace(&mut self.left_out, Vec::new(alloc));
        for packet in left_out {
            report.leave_out(alloc, &mut self.ends, packet)?;
        }
        Ok(())
    }

    // What happens is told, thing by thing.
    #[tactic(auto, using(crate::proofs::Quiet::quiet_steps))]
    fn submit_all(
        &mut self,
        alloc: Global,
        report: &mut Report,
        pair: &Pair,
        waiting: Vec<TimedEvent>,
    ) -> Result<Progress, Stop>
        ensures emitted { OnOk result (Emits report.old report.new) }
        ensures quiet { OnOk result (IsQuiet self.old.is_up self.new.is_up report.old report.new) }
        ensures emits { IfOk result (λ progress.
            TellsThem pair.now waiting.items self.old report.old progress self.new report.new) }
        ensures same { OnOk result (self.new.is_decided ≡ self.old.is_decided) }
        ensures unrefused { IfErr result (StopsUnrefused report.old) }
        ensures refuses { IfErr result (λ stop.
            TellsRefused pair.now waiting.items self.old stop report.old report.new) }
    {
        for happening in waiting {
            match self.submit(alloc, report, pair, happening)? {
                Progress::Proceeds => {}
                Progress::Over(shortfall) => return Ok(Progress::Over(shortfall)),
            }
        }
        Ok(Progress::Proceeds)
    }

    // What happens is told, or left out.
    #[tactic(auto, using(crate::proofs::Quiet::quiet_steps))]
    fn submit(
        &mut self,
        alloc: Global,
        report: &mut Report,
        pair: &Pair,
        happening: TimedEvent,
    ) -> Result<Progress, Stop>
        ensures emitted { OnOk result (Emits report.old report.new) }
        ensures quiet { OnOk result (IsQuiet self.old.is_up self.new.is_up report.old report.new) }
        ensures emits { IfOk result (λ progress.
            TellsThem pair.now (happening ∷ []) self.old report.old progress self.new report.new) }
        ensures same { OnOk result (self.new.is_decided ≡ self.old.is_decided) }
        ensures unrefused { IfErr result (StopsUnrefused report.old) }
        ensures refuses { IfErr result (λ stop.
            TellsRefused pair.now (happening ∷ []) self.old stop report.old report.new) }
    {
        let part = self.part_of(&happening, report)?;
        self.tell_as(alloc, report, pair, part, happening)
    }

    // What happens is told by what becomes of it. It comes up with a message that is told, and with nothing else.
    #[tactic(auto, using(crate::proofs::Quiet::quiet_steps))]
    fn tell_as(
        &mut self,
        alloc: Global,
        report: &mut Report,
        pair: &Pair,
        part: Part,
        happening: TimedEvent,
    ) -> Result<Progress, Stop>
        ensures emitted { OnOk result (Emits report.old report.new) }
        ensures quiet { OnOk result (IsQuiet self.old.is_up self.new.is_up report.old report.new) }
        ensures up { OnOk result (self.new.is_up ≡ true → (self.old.is_up ≡ true) ⊎ (part ≡ Message)) }
        ensures emits { IfOk result (λ progress.
            TellsPart pair.now part happening self.old report.old progress self.new report.new) }
        ensures same { OnOk result ((self.new.is_decided ≡ self.old.is_decided) × (self.new.said ≡ self.old.said)) }
        ensures unrefused { IfErr result (StopsUnrefused report.old) }
        ensures refuses { IfErr result (λ stop.
            PartRefused pair.now part happening self.old stop report.old report.new) }
    {
        match part {
            Part::Message => {
                self.come_up(alloc, report, pair)?;
                self.tell_up(alloc, report, pair, happening)
            }
            Part::LeftOut => self.leave_out(alloc, report, happening.packet),
            Part::End => self.emit_end(alloc, report, pair, happening),
        }
    }

    // What becomes of what happens. A message is noted.
    fn part_of(&mut self, happening: &TimedEvent, report: &Report) -> Result<Part, Stop>
        ensures same { self.new ≡ record self.old { said = self.new.said } }
        ensures part { IfOk result (λ part. IsPartOf happening.now report.now self.old part self.new) }
        ensures memory { IfErr result (λ stop. stop ≡ Memory) }
    {
        let begun = self.start.time;
        let t3 = report.t3();
        if happening.time.saturating_sub(begun) > u64::from(t3) {
            self.said = None;
        }
        match (message_of(happening, report.max()), &mut self.said) {
            (None, _) => Ok(Part::End),
            (Some(_), None) => Ok(Part::Message),
            (Some((from, message)), Some(said)) => {
                said.note(from, message)?;
                if said.leaves_out(from, message, begun, t3, happening.time) {
                    return Ok(Part::LeftOut);
                }
                Ok(Part::Message)
            }
        }
    }

    // A message is left out: the comment in its place is told, once the session came up.
    #[tactic(auto, using(crate::proofs::Quiet::quiet_steps, crate::proofs::Sessions::left_nothing, crate::proofs::Sessions::left_told))]
    fn leave_out(
        &mut self,
        alloc: Global,
        report: &mut Report,
        packet: u64,
    ) -> Result<Progress, Stop>
        ensures emitted { OnOk result (Emits report.old report.new) }
        ensures quiet { OnOk result (IsQuiet self.old.is_up self.new.is_up report.old report.new) }
        ensures proceeds { IfOk result (λ progress. progress ≡ Proceeds) }
        ensures items { (pair : Pair) → OnOk result (TakesItems pair Proceeds (left_items self.old.is_up packet)
            self.old.ends report.old self.new.ends report.new) }
        ensures left { OnOk result (self.new.left_out.items ≡ self.old.left_out.items ++ left_packets self.old.is_up packet) }
        ensures same { self.new ≡ record self.old { ends = self.new.ends; left_out = self.new.left_out } }
        ensures unrefused { IfErr result IsNoRefusal }
    {
        if self.is_up {
            report.leave_out(alloc, &mut self.ends, packet)?;
            return Ok(Progress::Proceeds);
        }
        if self.left_out.push(packet).is_err() {
            return Err(Stop::Memory);
        }
        Ok(Progress::Proceeds)
    }

    // It is over. Where it never came up nothing is told of that.
    #[tactic(auto, using(crate::proofs::Quiet::quiet_steps))]
    fn emit_end(
        &mut self,
        alloc: Global,
        report: &mut Report,
        pair: &Pair,
        happening: TimedEvent,
    ) -> Result<Progress, Stop>
        ensures emitted { OnOk result (Emits report.old report.new) }
        ensures quiet { OnOk result (IsQuiet self.old.is_up self.new.is_up report.old report.new) }
        ensures processes_input { self.old.is_up ≡ true → IfOk result (λ progress.
            HearsItem pair.now happening progress self.old.ends report.old self.new.ends report.new) }
        ensures never { self.old.is_up ≡ false → IfOk result (λ progress.
            (progress ≡ end_course happening.event happening.packet) × (self.new ≡ self.old) × (report.new ≡ report.old)) }
        ensures same { self.new ≡ record self.old { ends = self.new.ends } }
        ensures unrefused { IfErr result (StopsUnrefused report.old) }
        ensures refuses { IfErr result (λ stop. HearsRefused pair.now happening stop report.old report.new) }
    {
        if self.is_up {
            return self.tell_up(alloc, report, pair, happening);
        }
        match happening.event {
            Event::Up => Ok(Progress::Proceeds),
            Event::Down => Ok(Progress::Over(None)),
            Event::Message { .. } => Ok(Progress::Over(Some(Shortfall::Length(happening.packet)))),
        }
    }

    // What happens is told of a session that came up.
    #[tactic(auto, using(crate::proofs::Unrefused::telling_steps))]
    fn tell_up(
        &mut self,
        alloc: Global,
        report: &mut Report,
        pair: &Pair,
        happening: TimedEvent,
    ) -> Result<Progress, Stop>
        ensures emitted { OnOk result (Emits report.old report.new) }
        ensures processes_input { IfOk result (λ progress.
            HearsItem pair.now happening progress self.old.ends report.old self.new.ends report.new) }
        ensures same { self.new ≡ record self.old { ends = self.new.ends } }
        ensures unrefused { IfErr result (StopsUnrefused report.old) }
        ensures refuses { IfErr result (λ stop. HearsRefused pair.now happening stop report.old report.new) }
    {
        let packet = happening.packet;
        let reception = report.process_input(alloc, pair, &mut self.ends, happening)?;
        Ok(Progress::subsequent(reception, packet))
    }

    /// The session is over. Where it never came up nothing is told, unless something is missing: then that it has no
    /// verdict.
    #[tactic(auto, using(crate::proofs::Unrefused::telling_steps))]
    pub fn conclude(
        self,
        alloc: Global,
        report: &mut Report,
        pair: &Pair,
        shortfall: Option<Shortfall>,
    ) -> Result<(), Stop>
        ensures emitted { OnOk result (Emits report.old report.new) }
        ensures quiet { self.is_up ≡ false → shortfall ≡ None → OnOk result (report.new ≡ report.old) }
        ensures missing { self.is_up ≡ false → shortfall ≢ None
            → OnOk result (TellsBy report.old.manner pair.now shortfall None report.old report.new) }
        ensures once { OnOk result (report.old.manner ≡ Verdicts
            → WhenTold (self.is_up || is_some shortfall) pair.now shortfall (ends_if self.is_up self.ends)
            report.old report.new) }
        ensures logged { OnOk result ((j : WrittenLog) → report.old.manner ≡ Log j
            → (shortfall ≡ None) × CountsIf self.is_up report.old report.new) }
        ensures unrefused { IfErr result (StopsUnrefused report.old) }
        ensures refuses { IfErr result (λ stop. LacksRefused shortfall stop report.old report.new) }
    {
        let Joined {
            start: _,
            ends,
            is_up,
            is_decided: _,
            assumed: _,
            asker: _,
            waiting: _,
            left_out: _,
            said: _,
        } = self;
        if is_up {
            return report.conclude(alloc, pair, unboxed(ends), shortfall);
        }
        if shortfall.is_none() {
            return Ok(());
        }
        report.conclude(alloc, pair, None, shortfall)
    }

    /// A later connection of the same ends replaces it.
    #[tactic(auto, using(crate::proofs::Unrefused::telling_steps))]
    pub fn replace(&mut self, alloc: Global, report: &mut Report) -> Result<(), Stop>
        ensures emitted { OnOk result (Emits report.old report.new) }
        ensures quiet { self.old.is_up ≡ false → OnOk result ((self.new ≡ self.old) × (report.new ≡ report.old)) }
        ensures replaced { self.old.is_up ≡ true → OnOk result (report.old.manner ≡ Verdicts
            → (report.new ≡ report.old) × Replaces self.old.ends self.new.ends) }
        ensures logged { self.old.is_up ≡ true → OnOk result ((j : WrittenLog) → report.old.manner ≡ Log j
            → GoesDown j report.old report.new) }
        ensures same { self.new ≡ record self.old { ends = self.new.ends } }
        ensures unrefused { IfErr result IsNoRefusal }
    {
        if !self.is_up {
            return Ok(());
        }
        report.replace(alloc, &mut self.ends)
    }
}

// Whether what happens counts: a message since both directions had begun, or that the connection goes down.
fn counts(happening: &TimedEvent, start: Start) -> bool
    ensures { result ≡ counts_by start.packet happening.now.packet happening.now.event }
{
    match &happening.event {
        Event::Up => false,
        Event::Message { .. } => start.packet <= happening.packet,
        Event::Down => true,
    }
}

// The header of a message that an end takes, and which one sent it.
fn message_of(happening: &TimedEvent, max: u32) -> Option<(Side, Header)>
    ensures { result ≡ said_by max happening.now.event }
{
    match &happening.event {
        Event::Message { from, octets } => Some((*from, header_at(octets.as_slice(), max)?)),
        Event::Up | Event::Down => None,
    }
}

// The other end.
fn other(side: Side) -> Side
    ensures { result ≡ other_side side }
{
    match side {
        Side::Active => Side::Passive,
        Side::Passive => Side::Active,
    }
}
