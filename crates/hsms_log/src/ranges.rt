//! The facts that the numbers of a program's values are within the ranges of their types. The functions do nothing:
//! their contracts are the facts.

ghost use Rattle.hsms_frame.specs.Frame.{IsOctets};
ghost use Rattle.hsms_frame.specs.Header.{IsHeader};
ghost use Rattle.hsms_machine.specs.Settings.{IsWithinLimits};
ghost use Rattle.hsms_log.specs.LineFormat.{IsEntry, IsEvent, IsMessage};

use hsms_frame::{Frame, Header};
use hsms_machine::{Entry, Event, Settings};

/// Proves that each entry in a program has numbers within the ranges of their types, like an entry that a line encodes.
pub fn entry_is_in_range(entry: &Entry)
    ensures { IsEntry entry.now }
{
    let _time = entry.time;
    event_is_in_range(&entry.event);
}

fn event_is_in_range(event: &Event)
    ensures { IsEvent event.now }
{
    match event {
        Event::Sent(frame) => message_is_in_range(frame),
        Event::Taken(frame) => message_is_in_range(frame),
        Event::Discarded(frame) => message_is_in_range(frame),
        Event::T3(system) => {
            let _system = *system;
        }
        _ => {}
    }
}

fn message_is_in_range(frame: &Frame)
    ensures { IsMessage frame.now }
{
    parts_are_in_range(frame.header, frame.text.as_slice());
}

fn parts_are_in_range(header: Header, text: &[u8])
    ensures header { IsHeader header }
    ensures text { IsOctets text.now }
{
    let _header = header;
    let _count = text.len();
}

/// Proves that all settings in a program are within their limits.
pub fn settings_are_in_range(settings: &Settings)
    ensures { IsWithinLimits settings.now }
{
    settings.are_within_limits();
}
