//! The last lines of a log that is read in blocks, for the message on an unreadable line.

use crate::caret::marked;
use hsms_frame::drop_front;
use hsms_log::{
    LineFault, Unreadable, Verdict, Why, read_line, read_settings, unreadable_entry,
    unreadable_settings, without_carriage_return,
};
use std::alloc::{AllocError, Global};
use std::io;
use std::io::Read;

// The maximum number of bytes of the first line that are kept: those that it may have, and what is shown past them.
const FIRST: usize = 300;

/// A reader that keeps the first line, and the lines of which a part was in the last block.
#[derive(Drop)]
pub struct KeptLines<R> {
    inner: R,
    first: Vec<u8>,
    last: Vec<u8>,
    // The number of these bytes in lines that have ended.
    ended: usize,
    // True if these start with the first line.
    has_first: bool,
    // True if an allocation failed: nothing more is kept then.
    is_refused: bool,
}

impl<R: Read> KeptLines<R> {
    /// Creates a reader of which nothing was read.
    pub fn new(alloc: Global, inner: R) -> KeptLines<R> {
        KeptLines {
            inner,
            first: Vec::new(alloc),
            last: Vec::new(alloc),
            ended: 0,
            has_first: true,
            is_refused: false,
        }
    }

    /// Returns why the failing line cannot be read, and the line itself, with a mark. Returns `None` if the line fails
    /// for another reason, or an allocation failed.
    pub fn words_for(&self, alloc: Global, verdict: Verdict) -> Option<String> {
        match verdict {
            Verdict::Fail { line, why } if why == Why::Unreadable && !self.is_refused => {
                self.words_of(alloc, line).ok()
            }
            _ => None,
        }
    }

    fn words_of(&self, alloc: Global, number: u64) -> Result<String, AllocError> {
        if self.first.is_empty() {
            let unreadable = Unreadable::of_empty_log();
            return format!(in alloc; "line {number}, {unreadable}");
        }
        let first = line_at_front(&self.first);
        let (line, unreadable) = match read_settings(first) {
            None => (first, unreadable_settings(first)),
            Some(settings) => self.unreadable_line(alloc, settings.max())?,
        };
        let (before, subsequent) = line.split_at(
            unreadable.column.saturating_sub(1).min(line.len()),
        );
        let words = format!(in alloc; "line {number}, {unreadable}")?;
        marked(words, before, subsequent)
    }

    // Returns the first line that cannot be read, except for the line of the settings. An audit has read all lines
    // before it.
    fn unreadable_line(&self, alloc: Global, max: u32) -> Result<(&[u8], Unreadable), AllocError> {
        let skipped = usize::from(self.has_first);
        for line in self.last.split(is_feed).skip(skipped) {
            let line = without_carriage_return(line);
            match read_line(alloc, line, max) {
                Err(LineFault::Unreadable) => return Ok((line, unreadable_entry(line, max))),
                Err(LineFault::Memory) => return Err(AllocError),
                Ok(_) => {}
            }
        }
        Err(AllocError)
    }

    // Keeps a block, after the line that it continues.
    fn keep(&mut self, block: &[u8]) -> Result<(), AllocError> {
        let missing = FIRST.saturating_sub(self.first.len()).min(block.len());
        self.first.extend_from_slice(&block[..missing])?;
        let ended = self.ended.min(self.last.len());
        if ended > 0 {
            self.has_first = false;
        }
        drop_front(&mut self.last, ended);
        let held = self.last.len();
        self.last.extend_from_slice(block)?;
        self.ended = match block.iter().rposition(is_feed) {
            Some(end) => held.saturating_add(end).saturating_add(1),
            None => 0,
        };
        Ok(())
    }
}

impl<R: Read> Read for KeptLines<R> {
    fn read(&mut self, into: &mut [u8]) -> io::Result<usize> {
        let count = self.inner.read(into)?;
        if !self.is_refused {
            self.is_refused = self.keep(&into[..count]).is_err();
        }
        Ok(count)
    }
}

// Returns the first line of a text, without its end.
fn line_at_front(text: &[u8]) -> &[u8] {
    let line = text.split(is_feed).next().unwrap_or(text);
    without_carriage_return(line)
}

fn is_feed(octet: &u8) -> bool {
    *octet == b'\n'
}
