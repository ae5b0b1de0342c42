//! The entry of a line.

use hsms_log::{Line, LineFault, read_line};
use hsms_machine::{Entry, Event};
use std::alloc::{AllocError, Global};

/// The content of a line.
#[derive(Drop)]
pub enum Content {
    /// It is no entry, comment or empty line, or exceeds its limit.
    Unreadable,
    Blank,
    Entry(Entry),
}

impl Content {
    ghost use Rattle.std.specs.Prelude.{◌≡◌, IfOk};
    ghost use Rattle.hsms_compare_logs.specs.LogEntries.{has_frame as carries_frame};
    ghost use Rattle.hsms_compare_logs.specs.InnerReader.{IsContent};
    ghost use Rattle.hsms_machine.specs.Entry.{is_up as begins, is_down as ends};

    /// Returns the content of a line.
    pub fn of(alloc: Global, line: &[u8], max: u32) -> Result<Content, AllocError>
        ensures { IfOk result (IsContent max line.now) }
    {
        match read_line(alloc, line, max) {
            Ok(Line::Nothing) => Ok(Content::Blank),
            Ok(Line::Entry(entry)) => Ok(Content::Entry(entry)),
            Err(LineFault::Unreadable) => Ok(Content::Unreadable),
            Err(LineFault::Memory) => Err(AllocError),
        }
    }

    /// Returns whether an event has a frame.
    pub fn has_frame(event: &Event) -> bool
        ensures { result ≡ carries_frame event.now }
    {
        match event {
            Event::Sent(_) => true,
            Event::Taken(_) => true,
            Event::Discarded(_) => true,
            Event::Up => false,
            Event::T3(_) => false,
            Event::Cut(_) => false,
            Event::Down => false,
        }
    }

    pub fn is_up(event: &Event) -> bool
        ensures { result ≡ begins event.now }
    {
        match event {
            Event::Up => true,
            Event::Sent(_) => false,
            Event::Taken(_) => false,
            Event::Discarded(_) => false,
            Event::T3(_) => false,
            Event::Cut(_) => false,
            Event::Down => false,
        }
    }

    pub fn is_down(event: &Event) -> bool
        ensures { result ≡ ends event.now }
    {
        match event {
            Event::Down => true,
            Event::Up => false,
            Event::Sent(_) => false,
            Event::Taken(_) => false,
            Event::Discarded(_) => false,
            Event::T3(_) => false,
            Event::Cut(_) => false,
        }
    }
}
