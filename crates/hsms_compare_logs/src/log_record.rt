//! What is kept of the entries of a connection.

use hsms_compare::NumberedEntry;
use hsms_compare_repair::LogFrames;
use hsms_frame::Frame;
use hsms_machine::{Entry, Event};
use std::alloc::{AllocError, Global};

/// What is kept of the entries of a connection: their frames, and all entries without the texts of their messages.
#[derive(Drop)]
pub struct LogRecord {
    pub frames: LogFrames,
    pub entries: Vec<Entry>,
    /// Of each entry, its line number.
    pub lines: Vec<u64>,
}

impl LogRecord {
    ghost use Rattle.std.specs.Prelude.{◌++◌, List, [], ◌∷◌, OnOk};
    ghost use Rattle.hsms_compare.specs.Conversation.{Line};
    ghost use Rattle.hsms_compare.specs.Readings.{line_of};
    ghost use Rattle.hsms_compare_logs.specs.Records.{HasRecordOf};

    /// Returns the record of no entries.
    pub fn new(alloc: Global) -> LogRecord
        ensures { HasRecordOf [] result }
    {
        LogRecord {
            frames: LogFrames::new(alloc, false),
            entries: Vec::new(alloc),
            lines: Vec::new(alloc),
        }
    }

    /// Adds the next entry.
    pub fn add(&mut self, alloc: Global, next: &NumberedEntry) -> Result<(), AllocError>
        ensures { OnOk result ((lines : List Line) → HasRecordOf lines self.old
            → HasRecordOf (lines ++ line_of next.now ∷ []) self.new) }
    {
        self.frames.add(alloc, next.position, &next.entry.event)?;
        self.entries.push(bare_entry(alloc, &next.entry))?;
        self.lines.push(next.position)?;
        Ok(())
    }
}

ghost use Rattle.std.specs.Prelude.{◌≡◌};
ghost use Rattle.hsms_compare_logs.specs.Records.{bare_entry as without_text, bare_frame as frame_without_text};

/// Returns an entry without the text of its message. Allocates no memory.
fn bare_entry(alloc: Global, entry: &Entry) -> Entry
    ensures { result ≡ without_text entry.now }
{
    let event = match &entry.event {
        Event::Sent(frame) => Event::Sent(bare_frame(alloc, frame)),
        Event::Taken(frame) => Event::Taken(bare_frame(alloc, frame)),
        Event::Discarded(frame) => Event::Discarded(bare_frame(alloc, frame)),
        Event::Up => Event::Up,
        Event::T3(system) => Event::T3(*system),
        Event::Cut(cause) => Event::Cut(*cause),
        Event::Down => Event::Down,
    };
    Entry {
        time: entry.time,
        event,
    }
}

fn bare_frame(alloc: Global, frame: &Frame) -> Frame
    ensures { result ≡ frame_without_text frame.now }
{
    Frame {
        header: frame.header,
        text: Vec::new(alloc),
    }
}
