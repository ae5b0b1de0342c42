//! Processing of received bytes.

ghost use Rattle.std.specs.Prelude.{◌≡◌, ◌++◌, true, OnOk};
ghost use Rattle.hsms_frame.specs.Framing.{FramesAs};
ghost use Rattle.hsms_machine.specs.declared.entry.Cause.TheVariants.{Length};
ghost use Rattle.hsms_machine.specs.declared.entry.Event.TheVariants.{Taken};
ghost use Rattle.hsms_endpoint.specs.Turn.{is_up as is_connection_up, cut_by, warns_too_long, BreaksAsTaken, received_as};
ghost use Rattle.hsms_endpoint.specs.InnerInternals.{known, after_octets};
ghost use Rattle.hsms_endpoint.specs.InnerActionSteps.{IsValidEvent};
ghost use Rattle.hsms_endpoint.specs.Invariant.{IsSound};
ghost use Rattle.hsms_endpoint.specs.InnerInvariant.{Completes};
ghost use Rattle.hsms_endpoint.specs.InnerReceiving.{HasHandled, HasReceivedAll};

use crate::answer::TurnDesk;
use crate::state::State;
use hsms_frame::{Frame, FrameFault, Header};
use hsms_machine::{Cause, Entry, EntryRef, Mark, Rule};
use std::alloc::AllocError;

impl State {
    /// Appends bytes to the pending ones.
    fn take_in(&mut self, octets: &[u8]) -> Result<(), AllocError>
        ensures { OnOk result (self.new ≡ after_octets self.old octets.now) }
    {
        if !octets.is_empty() {
            self.reception = self.moment;
        }
        match self.framer.push(octets) {
            Ok(()) => Ok(()),
            Err(_) => Err(AllocError),
        }
    }

    /// Appends received bytes to the pending ones, and receives the complete messages at their start.
    pub fn process_input<D: TurnDesk>(
        &mut self,
        desk: &D,
        entries: &mut Vec<Entry>,
        octets: &[u8],
    ) -> Result<(), AllocError>
        requires { IsSound self.old }
        ensures { OnOk result (HasReceivedAll (D.answers_after desk.now) (after_octets self.old octets.now) entries.old.items self.new entries.new.items) }
    {
        self.take_in(octets)?;
        self.receive_all(desk, entries)
    }

    /// Receives the complete messages at the start of the pending bytes, one after the other, while the connection is
    /// up.
    pub fn receive_all<D: TurnDesk>(
        &mut self,
        desk: &D,
        entries: &mut Vec<Entry>,
    ) -> Result<(), AllocError>
        requires { IsSound self.old }
        ensures { OnOk result (HasReceivedAll (D.answers_after desk.now) self.old entries.old.items self.new entries.new.items) }
    {
        'messages: while self.is_up() {
            match self.next_message() {
                Ok(Some(frame)) => self.handle(desk, entries, frame)?,
                Ok(None) => return Ok(()),
                Err(FrameFault::TooShort { .. }) => return self.cut(entries, Cause::Length),
                Err(FrameFault::TooLong { header, .. }) => {
                    return self.cut_too_long(entries, header);
                }
                Err(FrameFault::Memory) => return Err(AllocError),
            }
        }
        Ok(())
    }

    /// Removes the first message from the pending bytes.
    fn next_message(&mut self) -> Result<Option<Frame>, FrameFault>
        ensures front { FramesAs self.old.framer.max self.old.framer.pending result self.new.framer.pending }
        ensures off { self.new ≡ record self.old { framer = record self.old.framer { pending = self.new.framer.pending } } }
    {
        self.framer.next()
    }

    /// Returns the first rule that a received frame would break if it were accepted.
    fn judge(&self, frame: &Frame) -> Option<Rule>
        requires sound { IsSound self.now }
        requires up { is_connection_up self.now.tracker.phase ≡ true }
        ensures broken { BreaksAsTaken self.now.tracker frame.now result }
        ensures is_valid { IsValidEvent self.now (received_as frame.now result) }
    {
        let text = frame.text.as_slice();
        let taken = EntryRef::of_frame(self.moment, Mark::Taken, frame.header, text);
        self.tracker.check_ref(&taken)
    }

    /// Logs a received message as accepted or discarded, and reacts to it.
    fn handle<D: TurnDesk>(
        &mut self,
        desk: &D,
        entries: &mut Vec<Entry>,
        frame: Frame,
    ) -> Result<(), AllocError>
        requires sound { IsSound self.old }
        requires up { is_connection_up self.old.tracker.phase ≡ true }
        ensures { OnOk result (HasHandled (D.answers_after desk.now) self.old entries.old.items frame self.new entries.new.items) }
    {
        match self.judge(&frame) {
            None => self.take(desk, entries, frame),
            Some(rule) => self.discard(entries, frame, rule),
        }
    }

    /// Cuts the connection because a message is too long. Equipment may report it first.
    fn cut_too_long(&mut self, entries: &mut Vec<Entry>, header: Header) -> Result<(), AllocError>
        requires sound { IsSound self.old }
        requires up { is_connection_up self.old.tracker.phase ≡ true }
        ensures { OnOk result (Completes self.old entries.old.items (warns_too_long (known self.old) header ++ cut_by Length) self.new entries.new.items) }
    {
        if self.is_warned(header) {
            self.warn(entries, 11, header)?;
            return self.cut(entries, Cause::Length);
        }
        self.cut(entries, Cause::Length)
    }
}
