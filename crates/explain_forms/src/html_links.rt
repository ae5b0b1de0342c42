//! Link targets of the lines of a page.

use explain_lines::{Closing, Concern, Note};
use hsms_machine::RepairAction;
use std::alloc::{AllocError, Global};
use std::collections::VecDeque;
use std::fmt;

// The maximum number of runs of lines, and of open lines, that are kept.
const KEPT: usize = 1024;

// Consecutive log lines: the first and the last.
#[derive(Clone, Copy)]
struct Run {
    from: u64,
    to: u64,
}

/// A line that is not written: its number, and whether it is an `up`.
#[derive(Clone, Copy)]
pub struct Skipped {
    pub line: u64,
    pub is_up: bool,
}

/// How a transaction ends at a line that is not written.
#[derive(Clone, Copy)]
pub enum EndsBy {
    /// The line closes it.
    Closing(Closing),
    /// It is overdue there, and no `t3` is logged.
    Overdue,
    /// A connection starts.
    Up,
}

/// The end of an open transaction at a line that is not written.
#[derive(Clone, Copy)]
pub struct Ending {
    pub line: u64,
    pub opened: u64,
    pub ends_by: EndsBy,
}

impl fmt::Display for Ending {
    fn fmt<W: fmt::Write>(&self, f: &mut fmt::Formatter<W>) -> fmt::Result {
        let Ending {
            line,
            opened,
            ends_by,
        } = *self;
        let open = Concern { line: opened };
        match ends_by {
            EndsBy::Closing(closing) => write!(f, "line {line}: {closing}"),
            EndsBy::Overdue => write!(f, "line {line}: T3Overdue, {open}"),
            EndsBy::Up => write!(f, "line {line}: up, {open}"),
        }
    }
}

/// Returns whether the entry of a line with these annotations is accepted: only an entry before it is missing, or its
/// time is wrong.
pub fn accepts(notes: &[Note]) -> bool {
    notes.iter().all(|note| match repair_of(note) {
        Some(RepairAction::Discard | RepairAction::LeaveOut) => false,
        Some(_) => true,
        None => matches!(note, Note::Closes(_)),
    })
}

/// Returns the line of the open transaction that expires by the repair of a failure.
pub fn expired_by(note: &Note) -> Option<u64> {
    let concerns = match note {
        Note::Closes(_) => None,
        Note::Fails(failing) => failing.concerns,
        Note::FailsInGroup(failure_group) => failure_group.concerns,
    };
    match repair_of(note) {
        Some(RepairAction::ExpireFirst(_, _)) => concerns,
        _ => None,
    }
}

fn repair_of(note: &Note) -> Option<RepairAction> {
    match note {
        Note::Closes(_) => None,
        Note::Fails(failing) => failing.repair_action,
        Note::FailsInGroup(failure_group) => failure_group.repair_action,
    }
}

/// The written lines, and those of them with a link to the line that will close their transaction. Only the last ones
/// of both are kept, so that a page of any length can be written. Also the transactions that end at the lines that were
/// skipped since the last written one.
pub struct Links {
    runs: VecDeque<Run>,
    open: Vec<u64>,
    endings: Vec<Ending>,
}

// Written out so that a proof has one step for a dropped value, not one for each field.
impl Drop for Links {
    fn drop(self) {
        let Links {
            runs,
            open,
            endings,
        } = self;
        drop(runs);
        drop(open);
        drop(endings);
    }
}

impl Links {
    /// Creates links without written lines.
    pub fn new(alloc: Global) -> Links {
        Links {
            runs: VecDeque::new(alloc),
            open: Vec::new(alloc),
            endings: Vec::new(alloc),
        }
    }

    /// Records that a line is written, after the earlier ones.
    pub fn note(&mut self, line: u64) -> Result<(), AllocError> {
        if let Some(last) = self.runs.back_mut() {
            if last.to.saturating_add(1) == line {
                last.to = line;
                return Ok(());
            }
        }
        if self.runs.len() >= KEPT {
            drop(self.runs.pop_front());
        }
        let run = Run {
            from: line,
            to: line,
        };
        self.runs.push_back(run)?;
        Ok(())
    }

    /// Returns the line if it is known to be written.
    pub fn shown_line(&self, line: u64) -> Option<u64> {
        let mut runs = self.runs.iter();
        runs.any(|run| run.from <= line && line <= run.to)
            .then_some(line)
    }

    /// Records an open line, if there is space for it. Returns whether there is.
    pub fn open(&mut self, line: u64) -> Result<bool, AllocError> {
        if self.open.len() >= KEPT {
            return Ok(false);
        }
        self.open.push(line)?;
        Ok(true)
    }

    /// Records that a line is closed. Returns the line if it was recorded as open.
    pub fn close(&mut self, line: u64) -> Option<u64> {
        for place in 0..self.open.len() {
            if self.open[place] == line {
                self.open.remove(place);
                return Some(line);
            }
        }
        None
    }

    /// Returns the open lines, in the order in which they were written.
    pub fn all_open(&self) -> &[u64] {
        &self.open
    }

    /// Records that no open line will be closed.
    pub fn close_all(&mut self) {
        self.open.clear();
    }

    /// Records a line that is not written: which open transactions end there.
    pub fn skip(&mut self, skipped: Skipped, notes: &[Note]) -> Result<(), AllocError> {
        for note in notes {
            self.skip_note(skipped.line, note)?;
        }
        if skipped.is_up && accepts(notes) {
            self.end_all(skipped.line)?;
        }
        Ok(())
    }

    fn skip_note(&mut self, line: u64, note: &Note) -> Result<(), AllocError> {
        if let Note::Closes(closing) = note {
            return self.end(line, closing.line, EndsBy::Closing(*closing));
        }
        match expired_by(note) {
            Some(opened) => self.end(line, opened, EndsBy::Overdue),
            None => Ok(()),
        }
    }

    // Records that a transaction ends at a line, if it was recorded as open.
    fn end(&mut self, line: u64, opened: u64, ends_by: EndsBy) -> Result<(), AllocError> {
        if self.close(opened).is_some() {
            self.endings.push(Ending {
                line,
                opened,
                ends_by,
            })?;
        }
        Ok(())
    }

    // Records that all open transactions end at a line, since a connection starts.
    fn end_all(&mut self, line: u64) -> Result<(), AllocError> {
        for opened in self.open.iter() {
            self.endings.push(Ending {
                line,
                opened: *opened,
                ends_by: EndsBy::Up,
            })?;
        }
        self.open.clear();
        Ok(())
    }

    /// Returns the transactions that end at the lines that were skipped since the last written one.
    pub fn endings(&self) -> &[Ending] {
        &self.endings
    }

    /// Forgets those that end up to a line.
    pub fn clear_endings(&mut self, to: u64) {
        self.endings.retain(|ending| ending.line > to);
    }
}
