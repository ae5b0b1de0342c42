//! A writer of complete lines.

use crate::answer_counts::AnswerCounts;
use std::alloc::{AllocError, Global};
use std::io;
use std::io::{ErrorKind, Write};

/// Buffers bytes until a slice of them ends with LF, and then passes all of them to a writer as one slice. Standard
/// output gets them in one system call, if the system accepts that. Each error of the writer is returned at once,
/// without a retry, also if a signal caused it. Counts the replies in the lines, if that is requested.
#[derive(Drop)]
pub struct Lines<W: Write + Drop> {
    output: W,
    held: Vec<u8>,
    counts: Option<AnswerCounts>,
    // The bytes of the last message that was counted.
    message: Vec<u8>,
}

impl<W: Write + Drop> Lines<W> {
    /// Creates a buffer for a writer, with capacity for a line of `room` bytes. A longer line allocates. `counts_answers`
    /// requests that replies are counted.
    pub fn with_capacity(
        alloc: Global,
        room: usize,
        output: W,
        counts_answers: bool,
    ) -> Result<Lines<W>, AllocError> {
        let held = Vec::with_capacity(alloc, room)?;
        let digits = if counts_answers { room } else { 0 };
        Ok(Lines {
            output,
            held,
            counts: counts_answers.then_some(AnswerCounts::default()),
            message: Vec::with_capacity(alloc, digits / 2)?,
        })
    }

    /// Returns whether each primary with W that the lines show as sent got a reply whose function is not 0. Returns
    /// true if replies are not counted.
    pub fn are_answered(&self) -> bool {
        match self.counts {
            Some(counts) => counts.is_complete(),
            None => true,
        }
    }

    /// Returns how many primaries with W that the lines show as sent got no such reply. Returns 0 if replies are not
    /// counted.
    pub fn unanswered(&self) -> u64 {
        match self.counts {
            Some(counts) => counts.asked.saturating_sub(counts.answered),
            None => 0,
        }
    }

    // Counts the message of the buffered line, which ends with LF.
    fn count_line(&mut self) -> Result<(), AllocError> {
        let line = &self.held[..self.held.len().saturating_sub(1)];
        match &mut self.counts {
            Some(counts) => counts.count_line(line, &mut self.message),
            None => Ok(()),
        }
    }
}

impl<W: Write + Drop> Write for Lines<W> {
    fn write(&mut self, octets: &[u8]) -> io::Result<usize> {
        self.held.extend_from_slice(octets)?;
        if octets.ends_with(b"\n") {
            self.count_line()?;
            write_whole(&mut self.output, &self.held)?;
            self.held.clear();
        }
        Ok(octets.len())
    }

    // A line that has not ended stays buffered.
    fn flush(&mut self) -> io::Result<()> {
        self.output.flush()
    }
}

// Writes all bytes, in as many writes as necessary. Each write accepts at least one byte.
fn write_whole<W: Write>(output: &mut W, octets: &[u8]) -> io::Result<()> {
    let mut left = octets;
    for _ in 0..octets.len() {
        if left.is_empty() {
            break;
        }
        let count = output.write(left)?;
        if count == 0 {
            return Err(io::Error::from(ErrorKind::WriteZero));
        }
        left = left.get(count..).unwrap_or(&[]);
    }
    Ok(())
}
