//! The entry of a line of a log.

use crate::input::InputLine;
use crate::read_entry::Content;
use hsms_compare::NumberedEntry;
use hsms_log::without_carriage_return;
use std::alloc::{AllocError, Global};

/// The result of one line.
#[derive(Drop)]
pub enum LineRead {
    /// It has no entry.
    Blank,
    /// More entries may follow this one.
    Entry(NumberedEntry),
    /// No entries follow this one.
    Last(NumberedEntry),
    /// No entries follow.
    End,
}

impl LineRead {
    ghost use Rattle.std.specs.Prelude.{◌+◌, ◌*◌, ◌++◌, ◌∷◌, ℕ, List, IfOk};
    ghost use Rattle.hsms_compare.specs.Conversation.{Line};
    ghost use Rattle.hsms_log.specs.Lines.{HasNone};
    ghost use Rattle.hsms_compare_logs.specs.InnerReader.{IsLine};
    ghost use Rattle.hsms_compare_logs.specs.Entries.{AreOfText};
    ghost use Rattle.hsms_compare_logs.specs.InnerEntries.{FollowsLine, IsLast, IsLineRead};

    /// Returns the entry of a line with this number.
    pub fn of(alloc: Global, line: InputLine, max: u32, number: u64) -> Result<LineRead, AllocError>
        ensures entry { IfOk result (λ read. (text left : List ℕ) (found : List Line) → IsLine (2 * max + 64) text line left
            → AreOfText max number text found → IsLineRead max number left found read) }
        ensures ended { IfOk result (FollowsLine line) }
    {
        match line {
            InputLine::Ended(line) => Self::of_ended(alloc, &line, max, number),
            InputLine::Last(line) => Self::of_last(alloc, &line, max, number),
            InputLine::TooLong => Ok(LineRead::End),
        }
    }

    /// Returns the entry of a line that a line feed ends.
    fn of_ended(alloc: Global, line: &[u8], max: u32, number: u64) -> Result<LineRead, AllocError>
        ensures { IfOk result (λ read. (left : List ℕ) (found : List Line) → HasNone 10 line.now
            → AreOfText max number (line.now ++ 10 ∷ left) found → IsLineRead max number left found read) }
    {
        match Content::of(alloc, without_carriage_return(line), max)? {
            Content::Unreadable => Ok(LineRead::End),
            Content::Blank => Ok(LineRead::Blank),
            Content::Entry(entry) => Ok(LineRead::Entry(NumberedEntry {
                position: number,
                entry,
            })),
        }
    }

    /// Returns the entry of the last line, which no line feed ends.
    fn of_last(alloc: Global, line: &[u8], max: u32, number: u64) -> Result<LineRead, AllocError>
        ensures entry { IfOk result (λ read. (left : List ℕ) (found : List Line) → HasNone 10 line.now
            → AreOfText max number line.now found → IsLineRead max number left found read) }
        ensures last { IfOk result IsLast }
    {
        if line.is_empty() {
            return Ok(LineRead::End);
        }
        match Content::of(alloc, without_carriage_return(line), max)? {
            Content::Unreadable => Ok(LineRead::End),
            Content::Blank => Ok(LineRead::End),
            Content::Entry(entry) => {
                if Content::has_frame(&entry.event) {
                    return Ok(LineRead::End);
                }
                Ok(LineRead::Last(NumberedEntry {
                    position: number,
                    entry,
                }))
            }
        }
    }
}
