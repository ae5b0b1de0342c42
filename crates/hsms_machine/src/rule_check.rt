//! The first rule that an entry breaks, computed from the view.

use crate::direction::Flow;
use crate::entry::{Act, Cause};
use crate::message::{
    Message, establishes, has_right_direction, has_right_session, has_right_wait, is_control,
    is_control_request, is_data, is_data_request, is_response,
};
use crate::phase::Phase;
use crate::rule::Rule;
use crate::view::View;
use hsms_frame::{HEADER_LENGTH, Kind};
use secs_item::measure_text;

impl View {
    ghost use Rattle.std.specs.Prelude.{◌↔◌, ◌+◌, ◌<◌, ◌++◌, [], ◌∷◌, length, IsTrue};
    ghost use Rattle.hsms_machine.specs.declared.entry.Event.{Event};
    ghost use Rattle.hsms_machine.specs.declared.rule.Rule.{Rule};
    ghost use Rattle.secs_item.specs.Encoding.{IsText};
    ghost use Rattle.hsms_machine.specs.Message.{is_request, is_response as is_response_message};
    ghost use Rattle.hsms_machine.specs.Timer.{IsTimed, IsT6Overdue, IsNotDue, IsCutNotDue};
    ghost use Rattle.hsms_machine.specs.Rule.{Breaks, FrameBreaks, IsNotUp, IsNoCause, IsInUse, IsAnswer, IsFirst, needs_session, order_rules, timer_rules, format_rules, transaction_rules};
    ghost use Rattle.hsms_machine.specs.EventParts.{event_of, entry_of, frame_of};
    ghost use Rattle.hsms_machine.specs.ViewRules.{facts_of, IsBrokenAt};

    /// Returns the first rule that the entry breaks.
    #[inline(always)]
    pub fn first_broken(&self, time: u64, act: &Act, text: &[u8]) -> Option<Rule>
        ensures { IsBrokenAt self.now (entry_of time act.now text.now) result }
    {
        let order = self.broken_order(time, act);
        if order.is_some() {
            return order;
        }
        let timer = self.broken_timer(time, act);
        if timer.is_some() {
            return timer;
        }
        self.broken_event(act, text)
    }

    #[inline(always)]
    fn broken_order(&self, time: u64, act: &Act) -> Option<Rule>
        ensures { IsFirst (Breaks (facts_of self.now) self.now.settings (entry_of time act.now [])) order_rules result }
    {
        if time < self.last_time {
            Some(Rule::Backwards)
        } else if self.is_not_up(act) {
            Some(Rule::NotUp)
        } else if self.is_ended(act) {
            Some(Rule::Ended)
        } else {
            None
        }
    }

    fn is_not_up(&self, act: &Act) -> bool
        ensures { IsTrue result ↔ IsNotUp (facts_of self.now) self.now.settings (event_of act.now []) }
    {
        match (act, self.phase) {
            (Act::Up, Phase::Before) => false,
            (Act::Up, Phase::Gone) => self.settings.version() != 2,
            (Act::Up, _) => true,
            (_, phase) => matches!(phase, Phase::Before | Phase::Gone),
        }
    }

    /// Returns whether anything may be overdue now.
    fn is_timed(&self) -> bool
        ensures { IsTrue result ↔ IsTimed (facts_of self.now) }
    {
        self.phase != Phase::Over && self.phase != Phase::Gone
    }

    fn is_ended(&self, act: &Act) -> bool
        ensures { IsTrue result ↔ IsTrue (needs_session (event_of act.now [])) × (facts_of self.now).IsOver }
    {
        self.phase == Phase::Over
            && matches!(act, Act::Sent(_) | Act::Taken(_) | Act::T3(_) | Act::Cut(_))
    }

    #[inline(always)]
    fn broken_timer(&self, time: u64, act: &Act) -> Option<Rule>
        ensures { IsFirst (Breaks (facts_of self.now) self.now.settings (entry_of time act.now [])) timer_rules result }
    {
        if self.is_t3_overdue(time, act) {
            Some(Rule::T3Overdue)
        } else if self.is_link_overdue(time, act) {
            Some(Rule::LinkOverdue)
        } else if self.is_not_due(time, act) {
            Some(Rule::NotDue)
        } else {
            None
        }
    }

    fn is_t3_overdue(&self, time: u64, act: &Act) -> bool
        ensures { IsTrue result ↔ Breaks (facts_of self.now) self.now.settings (entry_of time act.now []) Rule.T3Overdue }
    {
        match act {
            Act::T3(_) => false,
            _ => self.is_timed() && self.sent_data.has_overdue(time, self.settings.t3()),
        }
    }

    fn is_link_overdue(&self, time: u64, act: &Act) -> bool
        ensures { IsTrue result ↔ Breaks (facts_of self.now) self.now.settings (entry_of time act.now []) Rule.LinkOverdue }
    {
        match act {
            Act::T3(_) | Act::Cut(Cause::T6) | Act::Cut(Cause::T7) => false,
            _ => {
                self.is_t6_overdue(time)
                    || self.phase == Phase::NotSelected
                        && u64::from(self.settings.t7()) < time.saturating_sub(self.up_time)
            }
        }
    }

    fn is_t6_overdue(&self, time: u64) -> bool
        ensures { IsTrue result ↔ IsT6Overdue (facts_of self.now) self.now.settings time }
    {
        self.is_timed() && self.sent_control.has_overdue(time, self.settings.t6())
    }

    #[inline(always)]
    fn is_not_due(&self, time: u64, act: &Act) -> bool
        ensures { IsTrue result ↔ IsNotDue (facts_of self.now) self.now.settings time (event_of act.now []) }
    {
        match act {
            Act::T3(system) => !self.sent_data.is_due(*system, time, self.settings.t3()),
            Act::Cut(cause) => self.is_cut_not_due(time, *cause),
            _ => false,
        }
    }

    fn is_cut_not_due(&self, time: u64, cause: Cause) -> bool
        ensures { IsTrue result ↔ IsCutNotDue (facts_of self.now) self.now.settings time cause }
    {
        match cause {
            Cause::T6 => !self.sent_control.has_due(time, self.settings.t6()),
            Cause::T7 => match self.phase {
                Phase::Before | Phase::Gone => false,
                Phase::Selected => true,
                Phase::NotSelected | Phase::Over => time.saturating_sub(self.up_time)
                    < u64::from(self.settings.t7()),
            },
            _ => false,
        }
    }

    #[inline(always)]
    fn broken_event(&self, act: &Act, text: &[u8]) -> Option<Rule>
        ensures { IsFirst (Breaks (facts_of self.now) self.now.settings (entry_of 0 act.now text.now)) (format_rules ++ (transaction_rules ++ Rule.NoCause ∷ [])) result }
    {
        match act {
            Act::Sent(message) => self.broken_frame(Flow::Outgoing, *message, text),
            Act::Taken(message) => self.broken_frame(Flow::Incoming, *message, text),
            Act::Discarded(message) => self.broken_discard(*message, text),
            _ => None,
        }
    }

    #[inline(never)]
    fn broken_discard(&self, message: Message, text: &[u8]) -> Option<Rule>
        ensures { IsFirst (λ rule. IsNoCause (facts_of self.now) self.now.settings (Event.Discarded (frame_of message text.now))) (Rule.NoCause ∷ []) result }
    {
        let cause = self.broken_frame(Flow::Incoming, message, text);
        if self.phase != Phase::Over && cause.is_none() {
            Some(Rule::NoCause)
        } else {
            None
        }
    }

    /// Returns the first rule that a sent or accepted frame breaks.
    #[inline(always)]
    fn broken_frame(&self, flow: Flow, message: Message, text: &[u8]) -> Option<Rule>
        ensures { IsFirst (FrameBreaks (facts_of self.now) self.now.settings flow (frame_of message text.now)) (format_rules ++ transaction_rules) result }
    {
        let format = self.broken_format(flow, message, text);
        if format.is_some() {
            return format;
        }
        self.broken_transaction(flow, message, text)
    }

    fn broken_format(&self, flow: Flow, message: Message, text: &[u8]) -> Option<Rule>
        ensures { IsFirst (FrameBreaks (facts_of self.now) self.now.settings flow (frame_of message text.now)) format_rules result }
    {
        let max = self.settings.max() as usize;
        if max - HEADER_LENGTH < text.len() {
            return Some(Rule::TooLong);
        }
        match message.kind() {
            Kind::OtherPType => return Some(Rule::PType),
            Kind::OtherSType => return Some(Rule::SType),
            _ => {}
        }
        if is_control(message) && !text.is_empty() {
            Some(Rule::ControlText)
        } else if !has_right_session(self.settings, message) {
            Some(Rule::Session)
        } else if !has_right_direction(self.settings, flow, message) {
            Some(Rule::Direction)
        } else {
            None
        }
    }

    fn broken_transaction(&self, flow: Flow, message: Message, text: &[u8]) -> Option<Rule>
        ensures { IsFirst (FrameBreaks (facts_of self.now) self.now.settings flow (frame_of message text.now)) transaction_rules result }
    {
        let selected = self.phase == Phase::Selected;
        if is_data(message) && !selected {
            Some(Rule::NotSelected)
        } else if !has_right_wait(message) {
            Some(Rule::WBit)
        } else if is_data(message) && !self.is_text(text) {
            Some(Rule::Text)
        } else if self.is_in_use(flow, message) {
            Some(Rule::SystemInUse)
        } else if self.is_without_transaction(flow, message) {
            Some(Rule::NoTransaction)
        } else if establishes(message) && selected {
            Some(Rule::SelectStatus)
        } else {
            None
        }
    }

    #[inline(never)]
    fn is_text(&self, text: &[u8]) -> bool
        ensures { IsTrue result ↔ IsText self.now.settings.depth text.now }
    {
        measure_text(text, self.settings.depth()).is_ok()
    }

    /// Returns whether the frame opens a transaction while one of its direction has its system bytes.
    #[inline(always)]
    pub fn is_in_use(&self, flow: Flow, message: Message) -> bool
        ensures { IsTrue result ↔ IsTrue (is_request message) × IsInUse (facts_of self.now) flow message.system }
    {
        if !is_data_request(message) && !is_control_request(message) {
            return false;
        }
        let system = message.header().system;
        match flow {
            Flow::Outgoing => self.sent_data.is_in_use(system)
                || self.sent_control.is_in_use(system),
            Flow::Incoming => self.taken_data.is_in_use(system)
                || self.taken_control.is_in_use(system),
        }
    }

    /// Returns whether the frame is a response that answers no open transaction.
    fn is_without_transaction(&self, flow: Flow, message: Message) -> bool
        ensures { IsTrue result ↔ IsTrue (is_response_message message) × ¬ IsAnswer (facts_of self.now) flow message }
    {
        if !is_response(message) {
            return false;
        }
        let answered = match flow {
            Flow::Outgoing => {
                self.taken_data.has_request_of(message)
                    || self.taken_control.has_request_of(message)
            }
            Flow::Incoming => {
                self.sent_data.has_request_of(message) || self.sent_control.has_request_of(message)
            }
        };
        !answered
    }
}
