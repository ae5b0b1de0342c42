//! The log of one connection, and what the other log has of its frames.

use crate::indexed_log::IndexedLog;

/// What the other log has of the frame that an entry sends or receives.
#[derive(Clone, Copy, Debug, PartialEq, Eq)]
pub enum Counterpart {
    /// The frame is in the other log, at the entry with this index.
    At(usize),
    /// The connection of the other log has ended, and it receives neither the frame nor one that was sent later.
    NotReached,
    /// The logs do not decide it, or the entry has no frame.
    Undecided,
}

impl Counterpart {
    ghost use Rattle.std.specs.Prelude.{◌≡◌};
    ghost use Rattle.hsms_compare_causes.specs.Trace.{index_of};

    /// Returns the index of the other log's entry.
    pub fn index(self) -> Option<usize>
        ensures { result ≡ index_of self }
    {
        match self {
            Counterpart::At(index) => Some(index),
            Counterpart::NotReached => None,
            Counterpart::Undecided => None,
        }
    }
}

/// The entries that an endpoint logs of one connection, and what the other endpoint's log has of their frames.
#[derive(Drop)]
pub struct TracedLog {
    pub entries: IndexedLog,
    /// Of each entry, its line number.
    pub lines: Vec<u64>,
    /// Of each entry, the counterpart of its frame.
    pub counterparts: Vec<Counterpart>,
    /// Whether the connection may have more entries.
    pub is_open: bool,
}

impl TracedLog {
    ghost use Rattle.std.specs.Prelude.{◌≡◌};
    ghost use Rattle.hsms_compare_causes.specs.Trace.{counterpart_at, line_number};

    /// Returns what the other log has of the frame of the entry at an index.
    pub fn matched(&self, index: usize) -> Counterpart
        ensures { result ≡ counterpart_at self.now index }
    {
        if index < self.counterparts.len() {
            return self.counterparts[index];
        }
        Counterpart::Undecided
    }

    /// Returns the line number of the entry at an index, or 0 if there is none.
    pub fn line(&self, index: usize) -> u64
        ensures { result ≡ line_number self.now index }
    {
        if index < self.lines.len() {
            return self.lines[index];
        }
        0
    }
}
