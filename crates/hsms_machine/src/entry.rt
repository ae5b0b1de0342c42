//! Entries of a session log.

use crate::message::Message;
use hsms_frame::{Frame, Header};
use std::marker::Model;

/// Why an endpoint cut its connection (SEMI E37, section 10, parameters).
#[derive(Clone, Copy, Debug, PartialEq, Eq)]
pub enum Cause {
    /// T6 expired: a Select.req or Linktest.req got no response in time.
    T6,
    /// T7 expired: the connection was not selected in time.
    T7,
    /// T8 expired: the bytes of one message came too slowly.
    T8,
    /// The length field of a message was below ten or above the maximum size.
    Length,
}

/// The mark of a frame in a log.
#[derive(Clone, Copy, Debug, PartialEq, Eq)]
pub enum Mark {
    /// The frame was sent.
    Sent,
    /// The frame was received and accepted.
    Taken,
    /// The frame was received and discarded, because accepting it would break a rule.
    Discarded,
}

/// An event, as the logging endpoint saw it.
#[derive(Debug, Drop)]
pub enum Event {
    /// The connection was established.
    Up,
    /// A frame was sent.
    Sent(Frame),
    /// A frame was received and accepted.
    Taken(Frame),
    /// A frame was received and discarded, because accepting it would break a rule.
    Discarded(Frame),
    /// T3 expired for the sent primary with these system bytes (SEMI E5, section 8, transactions).
    T3(u32),
    /// The connection was cut.
    Cut(Cause),
    /// The connection was closed.
    Down,
}

/// An entry of a session log.
#[derive(Debug, Drop)]
pub struct Entry {
    /// The time of the event, in milliseconds from any start.
    pub time: u64,
    /// The event.
    pub event: Event,
}

impl Entry {
    ghost use Rattle.std.specs.Prelude.{◌≡◌};

    /// Returns the entry with the text of its frame borrowed.
    pub fn as_ref<'a>(&'a self) -> EntryRef<'a>
        ensures { result ≡ self.now }
    {
        let time = self.time;
        let (mark, frame) = match &self.event {
            Event::Sent(frame) => (Mark::Sent, frame),
            Event::Taken(frame) => (Mark::Taken, frame),
            Event::Discarded(frame) => (Mark::Discarded, frame),
            Event::Up => return EntryRef::without_frame(time, Act::Up),
            Event::T3(system) => return EntryRef::without_frame(time, Act::T3(*system)),
            Event::Cut(cause) => return EntryRef::without_frame(time, Act::Cut(*cause)),
            Event::Down => return EntryRef::without_frame(time, Act::Down),
        };
        EntryRef::of_frame(time, mark, frame.header, frame.text.as_slice())
    }
}

/// An event without the text of its frame, and with the kind of its message, which is computed once. The effect of an
/// entry, and most of the rules, do not depend on the text.
#[derive(Clone, Copy)]
pub enum Act {
    Up,
    Sent(Message),
    Taken(Message),
    Discarded(Message),
    T3(u32),
    Cut(Cause),
    Down,
}

/// An entry of a session log whose text is stored elsewhere, in an [`Entry`] or in a buffer that was read. A tracker
/// checks it without a copy. Contracts see it as the entry.
#[derive(Drop)]
pub struct EntryRef<'a> {
    time: u64,
    act: Act,
    text: &'a [u8],
}

impl<'a> Model for EntryRef<'a> {
    ghost use Rattle.hsms_machine.specs.declared.entry.Entry.{Entry};
    ghost use Rattle.hsms_machine.specs.EventParts.{entry_of};

    ghost Value = { Entry };

    ghost view = { λ e. entry_of e.time e.act e.text.now };
}

impl<'a> EntryRef<'a> {
    ghost use Rattle.std.specs.Prelude.{◌≡◌, []};
    ghost use Rattle.hsms_machine.specs.Entry.{frame_entry};
    ghost use Rattle.hsms_machine.specs.EventParts.{entry_of};

    /// Creates the entry of a frame with this mark, header and text.
    #[inline(always)]
    pub fn of_frame(time: u64, mark: Mark, header: Header, text: &'a [u8]) -> EntryRef<'a>
        ensures { result ≡ frame_entry time mark header text.now }
    {
        let message = Message::of(header);
        let act = match mark {
            Mark::Sent => Act::Sent(message),
            Mark::Taken => Act::Taken(message),
            Mark::Discarded => Act::Discarded(message),
        };
        EntryRef { time, act, text }
    }

    #[inline(always)]
    fn without_frame(time: u64, act: Act) -> EntryRef<'a>
        ensures { result ≡ entry_of time act [] }
    {
        let text: &[u8] = &[];
        EntryRef { time, act, text }
    }

    /// Returns the time, the event without its text, and the text.
    #[inline(always)]
    pub(crate) fn parts(&self) -> (u64, &Act, &[u8])
        ensures { entry_of result.0 result.1.now result.2.now ≡ self.now }
    {
        (self.time, &self.act, self.text)
    }
}
