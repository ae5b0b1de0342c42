//! A received frame: its entry, and the immediate reaction.

ghost use Rattle.std.specs.Prelude.{◌≡◌, ℕ, [], OnOk, IfOk};
ghost use Rattle.secs_text.specs.Content.{Content};
ghost use Rattle.secs_item.specs.Encoding.{IsText};
ghost use Rattle.hsms_frame.specs.Header.{kind_of};
ghost use Rattle.hsms_frame.specs.declared.kinds.Kind.TheVariants.{Primary};
ghost use Rattle.hsms_machine.specs.declared.phase.Phase.TheVariants.{Selected};
ghost use Rattle.hsms_machine.specs.declared.rule.Rule.TheVariants.{Text};
ghost use Rattle.hsms_machine.specs.Message.{is_data_kind};
ghost use Rattle.hsms_machine.specs.ViewRules.{is_selected as is_selected_phase};
ghost use Rattle.hsms_endpoint.specs.Answer.{Answered, answered};
ghost use Rattle.hsms_endpoint.specs.PrimaryCounts.{name_in, times};
ghost use Rattle.hsms_endpoint.specs.Reaction.{answers_discarded, is_control_response as is_control_response_of};
ghost use Rattle.hsms_endpoint.specs.InnerReceiving.{HasHandled};
ghost use Rattle.hsms_endpoint.specs.InnerAwaitingReply.{PeerAwaits, Settles, CanTake, CanDiscard, IsAnsweredBy};

use crate::answer::{Answer, TurnDesk};
use crate::state::{State, bare};
use hsms_frame::{Frame, Header, Kind, kind, linktest_rsp, select_rsp};
use hsms_machine::{Entry, Event, Rule};
use secs_item::{ItemFault, decode_text};
use secs_text::Message;
use std::alloc::AllocError;

impl State {
    /// Returns the handler's answer to a primary. The primary's text decodes, since the frame was accepted.
    fn ask<D: TurnDesk>(&self, desk: &D, frame: &Frame) -> Result<Answer, AllocError>
        requires { ¬ ¬ IsText self.now.settings.depth frame.now.text }
        ensures { IfOk result (λ answer. IsAnsweredBy (D.answers_after desk.now (times (name_in frame.now.header) self.now.asked)) self.now.settings.depth frame.now (answered answer)) }
    {
        match decode_text(self.alloc, frame.text.as_slice(), self.settings.depth()) {
            Ok(item) => {
                let header = frame.header;
                let before = self.asked.times(header.stream(), header.function());
                let message = Message::new(header.stream(), header.function(), header.wait(), item);
                desk.answer_after(self.alloc, &message, before)
            }
            Err(fault) => {
                if fault != ItemFault::Memory {
                    unreachable!()
                }
                Err(AllocError)
            }
        }
    }

    /// Accepts a primary with the handler's answer: logs it, and sends what the answer requires.
    fn take_answered(
        &mut self,
        entries: &mut Vec<Entry>,
        frame: Frame,
        answer: &Answer,
    ) -> Result<(), AllocError>
        requires can { CanTake self.old frame }
        requires primary { kind_of frame.header ≡ Primary }
        ensures { OnOk result ((desk : ℕ → Content → Answered) → IsAnsweredBy (desk (times (name_in frame.header) self.old.asked)) self.old.settings.depth frame (answered answer.now) → HasHandled desk self.old entries.old.items frame self.new entries.new.items) }
    {
        let header = frame.header;
        self.asked.count(header.stream(), header.function())?;
        self.log(entries, Event::Taken(frame))?;
        self.answer_primary(entries, header, answer)
    }

    /// Accepts a primary that breaks no rule.
    fn take_primary<D: TurnDesk>(
        &mut self,
        desk: &D,
        entries: &mut Vec<Entry>,
        frame: Frame,
    ) -> Result<(), AllocError>
        requires can { CanTake self.old frame }
        requires primary { kind_of frame.header ≡ Primary }
        ensures { OnOk result (HasHandled (D.answers_after desk.now) self.old entries.old.items frame self.new entries.new.items) }
    {
        let answer = self.ask(desk, &frame)?;
        self.take_answered(entries, frame, &answer)
    }

    /// Accepts a frame that breaks no rule: logs it, and reacts to it.
    pub fn take<D: TurnDesk>(
        &mut self,
        desk: &D,
        entries: &mut Vec<Entry>,
        frame: Frame,
    ) -> Result<(), AllocError>
        requires { CanTake self.old frame }
        ensures { OnOk result (HasHandled (D.answers_after desk.now) self.old entries.old.items frame self.new entries.new.items) }
    {
        let header = frame.header;
        match kind(header) {
            Kind::SelectReq => {
                let status = u8::from(self.is_selected());
                self.log(entries, Event::Taken(frame))?;
                let response = bare(self.alloc, select_rsp(header, status));
                self.log(entries, Event::Sent(response))
            }
            Kind::LinktestReq => {
                self.log(entries, Event::Taken(frame))?;
                self.log(entries, Event::Sent(bare(self.alloc, linktest_rsp(header))))
            }
            Kind::Separate => {
                self.log(entries, Event::Taken(frame))?;
                self.log(entries, Event::Down)
            }
            Kind::Primary => self.take_primary(desk, entries, frame),
            _ => self.log(entries, Event::Taken(frame)),
        }
    }

    /// Reacts to a discarded frame according to the rule that it breaks.
    fn answer_discarded(
        &mut self,
        entries: &mut Vec<Entry>,
        header: Header,
        rule: Rule,
    ) -> Result<(), AllocError>
        requires awaits { PeerAwaits self.old [] [] }
        requires readable { rule ≡ Text → self.old.tracker.phase ≡ Selected }
        ensures { OnOk result (Settles self.old entries.old.items (answers_discarded self.old.settings (is_selected_phase self.old.tracker.phase) header rule) self.new entries.new.items) }
    {
        match rule {
            Rule::PType => self.reject(entries, header, 2),
            Rule::SType => self.reject(entries, header, 1),
            Rule::NotSelected => self.reject(entries, header, 4),
            Rule::NoTransaction => {
                if is_control_response(header) {
                    return self.reject(entries, header, 3);
                }
                Ok(())
            }
            Rule::Session => {
                let selected = self.is_selected();
                if selected && is_data(header) {
                    return self.warn(entries, 1, header);
                }
                Ok(())
            }
            Rule::Text => self.warn(entries, 7, header),
            _ => Ok(()),
        }
    }

    /// Discards a frame that breaks a rule: logs it, and reacts to it.
    pub fn discard(
        &mut self,
        entries: &mut Vec<Entry>,
        frame: Frame,
        rule: Rule,
    ) -> Result<(), AllocError>
        requires { CanDiscard self.old frame rule }
        ensures { OnOk result ((desk : ℕ → Content → Answered) → HasHandled desk self.old entries.old.items frame self.new entries.new.items) }
    {
        let header = frame.header;
        self.log(entries, Event::Discarded(frame))?;
        self.answer_discarded(entries, header, rule)
    }
}

/// Returns whether a message is a Select.rsp or a Linktest.rsp, which is rejected if it answers no open request.
fn is_control_response(header: Header) -> bool
    ensures { result ≡ is_control_response_of (kind_of header) }
{
    matches!(kind(header), Kind::SelectRsp | Kind::LinktestRsp)
}

/// Returns whether a message is a data message.
fn is_data(header: Header) -> bool
    ensures { result ≡ is_data_kind (kind_of header) }
{
    matches!(kind(header), Kind::Primary | Kind::Reply)
}
