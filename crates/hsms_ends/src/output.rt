//! Output of entries to the log and to the link.

ghost use Rattle.std.specs.Prelude.{All};
ghost use Rattle.hsms_log.specs.LineFormat.{IsEntry};
ghost use Rattle.hsms_ends.specs.Link.{processed_nothing};
ghost use Rattle.hsms_ends.specs.Output.{sent_of};
ghost use Rattle.hsms_ends.specs.InnerOutput.{FitsLengthField, AllFitLengthField, SendsAll, PutsOut, RestLogged};

use crate::fault::LinkFault;
use crate::link::Link;
use crate::sending::send_frame;
use hsms_frame::Sink;
use hsms_log::laws::entry_is_in_range;
use hsms_log::write_entry;
use hsms_machine::{Entry, Event};

/// Why serving stops before the connection ends.
#[derive(Clone, Copy, Debug, PartialEq, Eq)]
pub enum Stop {
    /// The link failed.
    Link,
    /// A write to the log failed.
    Log,
    /// An allocation failed.
    Memory,
}

/// Writes the entries of a call, in order. Each entry's line goes to the log first. If the entry is a sent message,
/// its bytes then go to the link. If the link fails, nothing more is sent and the remaining entries are logged.
pub fn put_out<L: Link, W: Sink>(link: &mut L, log: &mut W, entries: &[Entry]) -> Result<(), Stop>
    requires { AllFitLengthField entries.now }
    ensures { PutsOut result (W.state log.old) (W.state log.new) (L.link_state link.old) (L.link_state link.new)
        entries.now processed_nothing }
{
    let mut place = 0;
    while place < entries.len() {
        let entry = &entries[place];
        match write_entry(log, entry) {
            Ok(()) => match send_event(link, &entry.event) {
                Ok(()) => place += 1,
                Err(_) => return Err(log_rest(log, &entries[place + 1..])),
            },
            Err(_) => return Err(Stop::Log),
        }
    }
    Ok(())
}

/// Sends the message of an event that records a sent message. Sends nothing for other events.
fn send_event<L: Link>(link: &mut L, event: &Event) -> Result<(), LinkFault>
    requires { FitsLengthField event.now }
    ensures { SendsAll (L.link_state link.old) (L.link_state link.new) (sent_of event.now) result }
{
    match event {
        Event::Sent(frame) => send_frame(link, frame),
        _ => Ok(()),
    }
}

/// Logs the remaining entries of a call after the link has failed, and returns why serving stops.
pub fn log_rest<W: Sink>(log: &mut W, entries: &[Entry]) -> Stop
    ensures { RestLogged (Err result) (W.state log.old) (W.state log.new) entries.now }
{
    let mut place = 0;
    while place < entries.len() {
        match write_entry(log, &entries[place]) {
            Ok(()) => place += 1,
            Err(_) => return Stop::Log,
        }
    }
    Stop::Link
}

/// Ensures that the numbers of a program's entries are within the ranges of their types. The contract is the only
/// purpose.
pub fn entries_are_in_range(entries: &[Entry])
    ensures { All IsEntry entries.now }
{
    let mut place = 0;
    while place < entries.len() {
        entry_is_in_range(&entries[place]);
        place += 1;
    }
}
