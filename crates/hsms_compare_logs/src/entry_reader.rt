//! The entries of a log that is read from a source.

use crate::input::Input;
use crate::line_read::LineRead;
use crate::read_entry::Content;
use hsms_compare::{NumberedEntry, ReadFault};
use hsms_frame::Source;
use hsms_log::Verdict;
use std::alloc::Global;

/// A reader of the entries of a log after its settings.
#[derive(Drop)]
pub struct EntryReader<R> {
    pub input: Input<R>,
    /// The maximum length of a message.
    pub max: u32,
    /// The number of lines that were read.
    pub lines: u64,
    /// True if no entries follow.
    pub is_ended: bool,
}

impl<R: Source + Drop> EntryReader<R> {
    ghost use Rattle.std.specs.Prelude.{◌≡◌, ◌+◌, ◌≤◌, ℕ, List, IfOk, OnOk, length};
    ghost use Rattle.hsms_log.specs.Verdict.{HasAuditVerdict};
    ghost use Rattle.hsms_compare.specs.Conversation.{Line};
    ghost use Rattle.hsms_compare.specs.Readings.{IsRead, pending};
    ghost use Rattle.hsms_compare_logs.specs.Audited.{ReadsText};
    ghost use Rattle.hsms_compare_logs.specs.LogEntries.{after_up, up_line};
    ghost use Rattle.hsms_compare_logs.specs.Entries.{AreLeft, most_left};

    /// Returns the next entry, or `None` at the end.
    pub fn next(&mut self, alloc: Global) -> Result<Option<NumberedEntry>, ReadFault>
        ensures entry { IfOk result (λ next. (found : List Line)
            → AreLeft self.old.input.block.items (R.state self.old.input.source).left self.old.max self.old.lines self.old.is_ended found
            → (later : List Line) × IsRead found next later
            × AreLeft self.new.input.block.items (R.state self.new.input.source).left self.new.max self.new.lines self.new.is_ended later) }
        ensures text { OnOk result ((text : List ℕ) → ReadsText text self.old.input.audit (R.state self.old.input.source).left
            → ReadsText text self.new.input.audit (R.state self.new.input.source).left) }
        ensures fewer { IfOk result (λ next. length (pending next) + most_left self.new.input.block.items self.new.input.audit self.new.is_ended
            ≤ most_left self.old.input.block.items self.old.input.audit self.old.is_ended) }
    {
        while !self.is_ended {
            let Some(number) = self.lines.checked_add(1) else {
                return Err(ReadFault::Endless);
            };
            let line = self.input.line(alloc, 2 * self.max as usize + 64)?;
            let read = LineRead::of(alloc, line, self.max, number)?;
            self.lines = number;
            match read {
                LineRead::Blank => {}
                LineRead::Entry(next) => return Ok(Some(next)),
                LineRead::Last(next) => {
                    self.is_ended = true;
                    return Ok(Some(next));
                }
                LineRead::End => self.is_ended = true,
            }
        }
        Ok(None)
    }

    /// Reads up to the first `up`, or to the end. Returns the number of the line of that `up`.
    pub fn skip_to_up(&mut self, alloc: Global) -> Result<Option<u64>, ReadFault>
        ensures entries { IfOk result (λ up. (found : List Line)
            → AreLeft self.old.input.block.items (R.state self.old.input.source).left self.old.max self.old.lines self.old.is_ended found
            → (up ≡ up_line found)
            × AreLeft self.new.input.block.items (R.state self.new.input.source).left self.new.max self.new.lines self.new.is_ended (after_up found)) }
        ensures text { OnOk result ((text : List ℕ) → ReadsText text self.old.input.audit (R.state self.old.input.source).left
            → ReadsText text self.new.input.audit (R.state self.new.input.source).left) }
    {
        loop {
            match self.next(alloc)? {
                None => return Ok(None),
                Some(next) => {
                    if Content::is_up(&next.entry.event) {
                        return Ok(Some(next.position));
                    }
                }
            }
        }
    }

    /// Reads the rest of the log, and returns the verdict on it.
    pub fn finish(self, alloc: Global) -> Result<Verdict, ReadFault>
        ensures { IfOk result (λ verdict. (text : List ℕ)
            → ReadsText text self.input.audit (R.state self.input.source).left → HasAuditVerdict text verdict) }
    {
        let EntryReader {
            input,
            max: _,
            lines: _,
            is_ended: _,
        } = self;
        input.finish(alloc)
    }
}
