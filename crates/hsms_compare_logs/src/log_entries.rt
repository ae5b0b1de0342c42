//! The log of one connection, for a comparison.

use crate::entry_reader::EntryReader;
use crate::log_record::LogRecord;
use crate::read_entry::Content;
use crate::read_log::{FinishedLog, ReadLog};
use hsms_compare::{Entries, NumberedEntry, ReadFault};
use hsms_compare_causes::ConnectionLog;
use hsms_compare_repair::LogFrames;
use hsms_frame::Source;
use std::alloc::Global;

/// A reader of the first connection of a log.
#[derive(Drop)]
pub struct LogEntries<R> {
    pub reader: EntryReader<R>,
    /// The number of the line of the first `up`, or `None` if there is none.
    pub up: Option<u64>,
    /// What is kept of the entries that were returned.
    pub kept: LogRecord,
    /// The next entry, or `None` at the end of the connection.
    pub next: Option<NumberedEntry>,
    /// True if the last entry that was returned is `down`.
    pub is_down: bool,
    /// True if another connection follows.
    pub is_followed: bool,
}

impl<R: Source + Drop> LogEntries<R> {
    ghost use Rattle.std.specs.Prelude.{◌≡◌, ◌≤◌, ◌+◌, ◌++◌, ◌&&◌, not, [], ◌∷◌, None, false, ℕ, List, IfOk, OnOk, length};
    ghost use Rattle.hsms_machine.specs.Entry.{is_down as ends};
    ghost use Rattle.hsms_compare.specs.Conversation.{Line};
    ghost use Rattle.hsms_compare.specs.Readings.{line_of, pending};
    ghost use Rattle.hsms_compare_logs.specs.Records.{HasRecordOf};
    ghost use Rattle.hsms_compare_logs.specs.Audited.{ReadsText};
    ghost use Rattle.hsms_compare_logs.specs.LogEntries.{has_up, may_continue, until_up};
    ghost use Rattle.hsms_compare_logs.specs.Entries.{AreLeft, most_left};
    ghost use Rattle.hsms_compare_logs.specs.Connection.{LogLeft, ReadsConnection};
    ghost use Rattle.hsms_compare_logs.specs.ReadLogs.{IsFinished};

    /// Reads the entry after the next one.
    pub fn advance(&mut self, alloc: Global) -> Result<(), ReadFault>
        ensures entry { OnOk result ((found : List Line) → self.old.is_followed ≡ false
            → AreLeft self.old.reader.input.block.items (R.state self.old.reader.input.source).left self.old.reader.max
            self.old.reader.lines self.old.reader.is_ended found
            → LogLeft self.new.reader.input.block.items (R.state self.new.reader.input.source).left self.new.reader.max
            self.new.reader.lines self.new.reader.is_ended self.new.next self.new.is_down self.new.is_followed
            (until_up found) (may_continue self.old.is_down found) (has_up found)) }
        ensures text { OnOk result ((text : List ℕ) → ReadsText text self.old.reader.input.audit (R.state self.old.reader.input.source).left
            → ReadsText text self.new.reader.input.audit (R.state self.new.reader.input.source).left) }
        ensures fewer { OnOk result (length (pending self.new.next)
            + most_left self.new.reader.input.block.items self.new.reader.input.audit self.new.reader.is_ended
            ≤ most_left self.old.reader.input.block.items self.old.reader.input.audit self.old.reader.is_ended) }
        ensures kept { self.new.kept ≡ self.old.kept }
        ensures up { self.new.up ≡ self.old.up }
    {
        self.next = None;
        match self.reader.next(alloc)? {
            None => {}
            Some(next) => {
                if Content::is_up(&next.entry.event) {
                    self.is_followed = true;
                } else {
                    self.next = Some(next);
                }
            }
        }
        Ok(())
    }

    /// Adds the frame of the entry that was the next one, and reads the one after it.
    fn pass(&mut self, alloc: Global, entry: &NumberedEntry) -> Result<(), ReadFault>
        ensures entry { OnOk result ((found : List Line) → self.old.is_followed ≡ false
            → AreLeft self.old.reader.input.block.items (R.state self.old.reader.input.source).left self.old.reader.max
            self.old.reader.lines self.old.reader.is_ended found
            → LogLeft self.new.reader.input.block.items (R.state self.new.reader.input.source).left self.new.reader.max
            self.new.reader.lines self.new.reader.is_ended self.new.next self.new.is_down self.new.is_followed
            (until_up found) (may_continue (ends entry.now.entry.event) found) (has_up found)) }
        ensures text { OnOk result ((text : List ℕ) → ReadsText text self.old.reader.input.audit (R.state self.old.reader.input.source).left
            → ReadsText text self.new.reader.input.audit (R.state self.new.reader.input.source).left) }
        ensures fewer { OnOk result (length (pending self.new.next)
            + most_left self.new.reader.input.block.items self.new.reader.input.audit self.new.reader.is_ended
            ≤ most_left self.old.reader.input.block.items self.old.reader.input.audit self.old.reader.is_ended) }
        ensures kept { OnOk result ((lines : List Line) → HasRecordOf lines self.old.kept
            → HasRecordOf (lines ++ line_of entry.now ∷ []) self.new.kept) }
        ensures up { OnOk result (self.new.up ≡ self.old.up) }
    {
        self.kept.add(alloc, entry)?;
        self.is_down = Content::is_down(&entry.entry.event);
        self.advance(alloc)
    }

    /// Returns at the end whether the connection may have more entries.
    fn may_have_more(&self) -> bool
        ensures { result ≡ (not self.now.is_followed && not self.now.is_down) }
    {
        !self.is_followed && !self.is_down
    }

    /// Reads the connection to its end.
    fn drain(&mut self, alloc: Global) -> Result<(), ReadFault>
        ensures text { OnOk result ((text : List ℕ) → ReadsText text self.old.reader.input.audit (R.state self.old.reader.input.source).left
            → ReadsText text self.new.reader.input.audit (R.state self.new.reader.input.source).left) }
        ensures entries { OnOk result ((text : List ℕ)
            → ReadsConnection text self.old.reader.input.block.items (R.state self.old.reader.input.source).left self.old.reader.max
            self.old.reader.lines self.old.reader.is_ended self.old.next self.old.is_down self.old.is_followed self.old.up self.old.kept
            → ReadsConnection text self.new.reader.input.block.items (R.state self.new.reader.input.source).left self.new.reader.max
            self.new.reader.lines self.new.reader.is_ended self.new.next self.new.is_down self.new.is_followed self.new.up self.new.kept) }
        ensures end { OnOk result (self.new.next ≡ None) }
    {
        while let Some(next) = self.next.take() {
            self.pass(alloc, &next)?;
        }
        Ok(())
    }

    /// Reads the rest of the log.
    ///
    /// # Errors
    ///
    /// Returns `Read` if a read fails, `Endless` after 2^62 bytes, or `Memory` if an allocation fails.
    pub fn finish(self, alloc: Global) -> Result<FinishedLog, ReadFault>
        ensures { IfOk result (λ log. (text : List ℕ)
            → ReadsText text self.reader.input.audit (R.state self.reader.input.source).left
            → ReadsConnection text self.reader.input.block.items (R.state self.reader.input.source).left self.reader.max
            self.reader.lines self.reader.is_ended self.next self.is_down self.is_followed self.up self.kept → IsFinished text log) }
    {
        let mut log = self;
        log.drain(alloc)?;
        let is_open = log.may_have_more();
        let LogEntries {
            reader,
            up,
            kept,
            next,
            is_down: _,
            is_followed,
        } = log;
        drop(next);
        let verdict = reader.finish(alloc)?;
        let LogRecord {
            frames,
            entries,
            lines,
        } = kept;
        let LogFrames {
            sent,
            received,
            is_open: _,
        } = frames;
        let frames = LogFrames {
            sent,
            received,
            is_open,
        };
        Ok(FinishedLog {
            log: ReadLog {
                up,
                frames,
                is_followed,
                verdict,
            },
            entries: ConnectionLog {
                entries,
                lines,
                is_open,
            },
        })
    }
}

impl<R: Source + Drop> Entries for LogEntries<R> {
    ghost use Rattle.std.specs.Prelude.{◌+◌, Bool, length};
    ghost use Rattle.hsms_compare.specs.Readings.{pending};
    ghost use Rattle.hsms_compare_logs.specs.Audited.{ReadsText};
    ghost use Rattle.hsms_compare_logs.specs.Entries.{most_left};
    ghost use Rattle.hsms_compare_logs.specs.Connection.{LogLeft, ReadsConnection};

    ghost left = { λ log lines more. (others : Bool)
        × LogLeft log.reader.input.block.items (R.state log.reader.input.source).left log.reader.max
        log.reader.lines log.reader.is_ended log.next log.is_down log.is_followed lines more others };

    ghost reads = { λ log text. ReadsText text log.reader.input.audit (R.state log.reader.input.source).left
        × ReadsConnection text log.reader.input.block.items (R.state log.reader.input.source).left log.reader.max
        log.reader.lines log.reader.is_ended log.next log.is_down log.is_followed log.up log.kept };

    ghost most = { λ log. length (pending log.next)
        + most_left log.reader.input.block.items log.reader.input.audit log.reader.is_ended };

    fn next(&mut self, alloc: Global) -> Result<Option<NumberedEntry>, ReadFault> {
        let Some(next) = self.next.take() else {
            return Ok(None);
        };
        self.pass(alloc, &next)?;
        Ok(Some(next))
    }

    fn is_open(&self) -> bool {
        self.may_have_more()
    }
}
