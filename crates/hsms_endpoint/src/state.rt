//! The state of an endpoint.

ghost use Rattle.std.specs.Prelude.{◌≡◌};
ghost use Rattle.hsms_endpoint.specs.Frame.{bare as bare_frame};

use crate::fault::EndFault;
use crate::primary_counts::Asked;
use hsms_frame::{Frame, Framer, Header, linktest_req, select_req, separate as separate_req};
use hsms_machine::{Cause, Entry, Event, Phase, Settings, Side, Tracker};
use std::alloc::{AllocError, Global};

/// The state of an endpoint, without its message handler.
#[derive(Drop)]
pub struct State {
    /// The allocator.
    pub alloc: Global,
    /// The settings of its session.
    pub settings: Settings,
    /// The session state that its log shows.
    pub tracker: Tracker,
    /// The received bytes that belong to no complete message yet.
    pub framer: Framer,
    /// Its current time, in milliseconds.
    pub moment: u64,
    /// The first value that is tried for own system bytes.
    pub next: u32,
    /// The time of the last received byte, in milliseconds.
    pub reception: u64,
    /// The number of messages of each stream and function that were passed to the handler.
    pub asked: Asked,
}

impl State {
    ghost use Rattle.std.specs.Prelude.{◌≤◌, ◌<◌, true, false, [], ◌∷◌, OnOk, IfErr};
    ghost use Rattle.hsms_machine.specs.declared.entry.Event.TheVariants.{Sent, Down};
    ghost use Rattle.hsms_machine.specs.View.{own_open_of};
    ghost use Rattle.hsms_endpoint.specs.Action.{logs, asks};
    ghost use Rattle.hsms_endpoint.specs.InnerInternals.{IsRefusedAs};
    ghost use Rattle.hsms_endpoint.specs.Fault.{is_before};
    ghost use Rattle.hsms_endpoint.specs.Frame.{linktest_req as linktest_req_of, separate_req as separate_req_of};
    ghost use Rattle.hsms_endpoint.specs.Turn.{opening_of, cut_by, is_up as is_connection_up};
    ghost use Rattle.hsms_endpoint.specs.Invariant.{IsSound};
    ghost use Rattle.hsms_endpoint.specs.InnerInvariant.{CanCut, Completes};
    ghost use Rattle.hsms_endpoint.specs.InnerActionSteps.{IsValidEvent, HasLogged, HasAsked};
    ghost use Rattle.hsms_endpoint.specs.SystemBytes.{IsFirstFree};

    /// Logs an event at the endpoint's current time.
    pub fn log(&mut self, entries: &mut Vec<Entry>, event: Event) -> Result<(), AllocError>
        requires { IsValidEvent self.old event }
        ensures { OnOk result (HasLogged self.old entries.old.items event self.new entries.new.items) }
    {
        let entry = Entry {
            time: self.moment,
            event,
        };
        self.tracker.step(&entry)?;
        entries.push(entry)?;
        Ok(())
    }

    /// Logs a frame that is sent with the first free system bytes.
    pub fn send_numbered(
        &mut self,
        entries: &mut Vec<Entry>,
        frame: Frame,
        number: u32,
    ) -> Result<(), AllocError>
        requires free { IsFirstFree self.old.tracker self.old.next number }
        requires is_valid { IsValidEvent self.old (Sent frame) }
        ensures { OnOk result (HasAsked self.old entries.old.items frame number self.new entries.new.items) }
    {
        self.log(entries, Event::Sent(frame))?;
        self.next = number.wrapping_add(1);
        Ok(())
    }

    /// Returns whether the connection is up.
    pub fn is_up(&self) -> bool
        ensures { result ≡ is_connection_up self.now.tracker.phase }
    {
        matches!(self.tracker.phase(), Phase::NotSelected | Phase::Selected)
    }

    /// Returns an error for a call that needs a connection if the endpoint is spent or the connection is not up.
    pub fn ready(&self, spent: bool) -> Result<(), EndFault>
        ensures fresh { OnOk result (spent ≡ false) }
        ensures up { OnOk result (is_connection_up self.now.tracker.phase ≡ true) }
        ensures refused { IfErr result (λ fault. IsRefusedAs spent (is_connection_up self.now.tracker.phase) fault) }
    {
        if spent {
            Err(EndFault::Spent)
        } else if self.is_up() {
            Ok(())
        } else {
            Err(EndFault::NotUp)
        }
    }

    /// Logs that the connection was established. An active endpoint then sends Select.req.
    pub fn start(&mut self, entries: &mut Vec<Entry>, now: u64) -> Result<(), AllocError>
        requires sound { IsSound self.old }
        requires before { is_before self.old.tracker.phase ≡ true }
        ensures { OnOk result (Completes (record self.old { moment = now }) entries.old.items (opening_of self.old.settings.link) self.new entries.new.items) }
    {
        self.moment = now;
        self.log(entries, Event::Up)?;
        match self.settings.link() {
            Side::Active => {
                let number = self.free_number();
                self.send_numbered(entries, bare(self.alloc, select_req(number)), number)
            }
            Side::Passive => Ok(()),
        }
    }

    /// Sends Linktest.req to check that the peer is still there.
    pub fn test_link(&mut self, entries: &mut Vec<Entry>) -> Result<(), AllocError>
        requires sound { IsSound self.old }
        requires up { is_connection_up self.old.tracker.phase ≡ true }
        requires room { own_open_of self.old.tracker < 64 }
        ensures { OnOk result (Completes self.old entries.old.items (asks linktest_req_of ∷ []) self.new entries.new.items) }
    {
        let number = self.free_number();
        self.send_numbered(entries, bare(self.alloc, linktest_req(number)), number)
    }

    /// Ends the session and the connection.
    pub fn separate(&mut self, entries: &mut Vec<Entry>) -> Result<(), AllocError>
        requires sound { IsSound self.old }
        requires up { is_connection_up self.old.tracker.phase ≡ true }
        ensures { OnOk result (Completes self.old entries.old.items (asks separate_req_of ∷ logs Down ∷ []) self.new entries.new.items) }
    {
        let number = self.free_number();
        self.send_numbered(entries, bare(self.alloc, separate_req(number)), number)?;
        self.log(entries, Event::Down)
    }

    /// Cuts the connection.
    pub fn cut(&mut self, entries: &mut Vec<Entry>, cause: Cause) -> Result<(), AllocError>
        requires { CanCut self.old cause }
        ensures { OnOk result (Completes self.old entries.old.items (cut_by cause) self.new entries.new.items) }
    {
        self.log(entries, Event::Cut(cause))?;
        self.log(entries, Event::Down)
    }

    /// Returns the first system bytes, from `next` on, that no open own transaction has.
    pub fn free_number(&self) -> u32
        requires { own_open_of self.now.tracker ≤ 64 }
        ensures { IsFirstFree self.now.tracker self.now.next result }
    {
        for places in 0..65u32 {
            let number = self.next.wrapping_add(places);
            if !self.tracker.in_use(number) {
                return number;
            }
        }
        unreachable!()
    }
}

/// Returns a frame with this header and no text.
pub fn bare(alloc: Global, header: Header) -> Frame
    ensures { result ≡ bare_frame header }
{
    Frame {
        header,
        text: Vec::new(alloc),
    }
}
