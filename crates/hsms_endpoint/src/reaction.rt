//! The messages that an endpoint sends at once after a received frame.

ghost use Rattle.std.specs.Prelude.{◌≡◌, ◌<◌, ◌==◌, ◌%◌, ◌&&◌, [], true, OnOk, IfOk, option_map};
ghost use Rattle.std.specs.List.{AllByRecursion};
ghost use Rattle.secs_item.specs.Item.{view};
ghost use Rattle.hsms_frame.specs.Header.{header_octets};
ghost use Rattle.hsms_machine.specs.declared.phase.Phase.TheVariants.{Selected};
ghost use Rattle.hsms_machine.specs.Settings.{IsWithinLimits};
ghost use Rattle.hsms_machine.specs.ViewRules.{is_selected as is_selected_phase};
ghost use Rattle.hsms_endpoint.specs.Answer.{answered};
ghost use Rattle.hsms_endpoint.specs.Frame.{warning, abort_of, reply_of};
ghost use Rattle.hsms_endpoint.specs.Reaction.{warns, rejects, answers_primary};
ghost use Rattle.hsms_endpoint.specs.InnerAwaitingReply.{PeerAwaits, Settles, Interjects, replies_by, IsAsked, IsReplyTo};

use crate::answer::Answer;
use crate::state::{State, bare};
use hsms_frame::{Frame, Header, data_header, reject_of};
use hsms_machine::{Entry, Event, Phase, Role};
use secs_item::Item;
use std::alloc::{AllocError, Global};

impl State {
    /// Returns whether the session is selected.
    pub fn is_selected(&self) -> bool
        ensures { result ≡ is_selected_phase self.now.tracker.phase }
    {
        matches!(self.tracker.phase(), Phase::Selected)
    }

    /// Returns whether S9F11 is due for a message that is too long and has this header.
    pub fn is_warned(&self, header: Header) -> bool
        ensures { result ≡ (is_selected_phase self.now.tracker.phase && (header.stype == 0) && (header.ptype == 0) && (header.session == self.now.settings.device)) }
    {
        self.is_selected()
            && header.stype == 0
            && header.ptype == 0
            && header.session == self.settings.device()
    }

    /// Returns the message of stream 9 that reports the header in error.
    fn warning_frame(&self, function: u8, header: Header, number: u32) -> Result<Frame, AllocError>
        ensures exact { IfOk result (λ frame. frame ≡ warning self.now.settings function header number) }
        ensures octets { IfOk result (λ frame. AllByRecursion (λ n. n < 256) (header_octets header)) }
    {
        let mut text = vec![in self.alloc; 33, 10]?;
        text.extend_from_slice(&header.octets())?;
        Ok(Frame {
            header: data_header(self.settings.device(), 9, function, false, number),
            text,
        })
    }

    /// Reports an error by stream 9 if the endpoint is equipment.
    pub fn warn(
        &mut self,
        entries: &mut Vec<Entry>,
        function: u8,
        header: Header,
    ) -> Result<(), AllocError>
        requires awaits { PeerAwaits self.old self.old.tracker.taken_data self.old.tracker.taken_control }
        requires odd { (function % 2 == 1) ≡ true }
        requires selected { self.old.tracker.phase ≡ Selected }
        ensures { OnOk result (Interjects self.old entries.old.items (warns self.old.settings function header) self.new entries.new.items) }
    {
        match self.settings.role() {
            Role::Equipment => {
                let number = self.free_number();
                let frame = self.warning_frame(function, header, number)?;
                self.send_numbered(entries, frame, number)
            }
            Role::Host => Ok(()),
        }
    }

    /// Rejects a message by Reject.req.
    pub fn reject(
        &mut self,
        entries: &mut Vec<Entry>,
        header: Header,
        reason: u8,
    ) -> Result<(), AllocError>
        requires { PeerAwaits self.old [] [] }
        ensures { OnOk result (Settles self.old entries.old.items (rejects header reason) self.new entries.new.items) }
    {
        let frame = bare(self.alloc, reject_of(header, reason));
        self.log(entries, Event::Sent(frame))
    }

    /// Returns the SxF0 that aborts a primary.
    fn abort_frame(&self, header: Header) -> Frame
        ensures { result ≡ abort_of self.now.settings header }
    {
        let device = self.settings.device();
        let header = data_header(device, header.stream(), 0, false, header.system);
        bare(self.alloc, header)
    }

    /// Returns the reply to a primary with this item, or SxF0 if no such reply is possible.
    fn reply_frame(&self, header: Header, item: Option<&Item>) -> Result<Frame, AllocError>
        requires { IsWithinLimits self.now.settings }
        ensures exact { IfOk result (λ frame. frame ≡ reply_of self.now.settings header (option_map (λ i. view i.now) item.entry)) }
        ensures shape { IfOk result (λ frame. IsReplyTo self.now.settings header frame) }
    {
        if header.byte3 == 255 {
            return Ok(self.abort_frame(header));
        }
        let Some(text) = self.fitting_text(item)? else {
            return Ok(self.abort_frame(header));
        };
        let device = self.settings.device();
        let function = header.byte3 + 1;
        let header = data_header(device, header.stream(), function, false, header.system);
        Ok(Frame { header, text })
    }

    /// Replies to a primary if it requests a reply: with the item of the answer, otherwise with SxF0.
    fn reply(
        &mut self,
        entries: &mut Vec<Entry>,
        header: Header,
        answer: &Answer,
    ) -> Result<(), AllocError>
        requires { IsAsked self.old header }
        ensures { OnOk result (Settles self.old entries.old.items (replies_by self.old.settings header (answered answer.now)) self.new entries.new.items) }
    {
        if !header.wait() {
            return Ok(());
        }
        let frame = match answer {
            Answer::Reply(item) => self.reply_frame(header, item.as_ref())?,
            _ => self.abort_frame(header),
        };
        self.log(entries, Event::Sent(frame))
    }

    /// Sends what the handler's answer to an accepted primary requires: the error report, and the reply.
    pub fn answer_primary(
        &mut self,
        entries: &mut Vec<Entry>,
        header: Header,
        answer: &Answer,
    ) -> Result<(), AllocError>
        requires { IsAsked self.old header }
        ensures { OnOk result (Settles self.old entries.old.items (answers_primary self.old.settings header (answered answer.now)) self.new entries.new.items) }
    {
        let function = match answer {
            Answer::NoStream => 3,
            Answer::NoFunction => 5,
            Answer::Illegal => 7,
            _ => return self.reply(entries, header, answer),
        };
        self.warn(entries, function, header)?;
        self.reply(entries, header, answer)
    }
}
