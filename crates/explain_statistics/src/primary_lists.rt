//! Lists of primaries that request a reply: those with the slowest replies, those that expired, and those without a
//! reply.

use crate::primary_stats::{Wait, closing_of, is_request, key_of};
use crate::reply_stats::ReplyOutcome;
use explain_lines::{Function, System};
use hsms_frame::Header;
use hsms_log::What;
use hsms_machine::Mark;
use indexmap::IndexMap;
use std::alloc::{AllocError, Global};
use std::fmt;

// The maximum number of primaries in the list of the slowest replies, and in each other list.
const SLOWEST: usize = 10;

const LISTED: usize = 100;

/// A primary that was sent or accepted: its line, its stream and function, and its system bytes.
#[derive(Clone, Copy)]
pub struct Asked {
    pub line: u64,
    pub function: Function,
    pub system: System,
    is_sent: bool,
}

impl Asked {
    fn of(line: u64, mark: Mark, header: Header) -> Asked {
        Asked {
            line,
            function: Function::of(header),
            system: System(header.system),
            is_sent: mark == Mark::Sent,
        }
    }

    /// Returns the direction of the primary: `sent` or `received`.
    pub fn way(&self) -> &'static str {
        if self.is_sent { "sent" } else { "received" }
    }
}

/// The line at which the wait for a reply ends, and after how many ms.
#[derive(Clone, Copy)]
pub struct Ended {
    pub line: u64,
    pub after: u64,
}

/// A primary of one of the lists.
#[derive(Clone, Copy)]
pub enum Listed {
    /// One of those with the slowest replies.
    Slowest(Asked, Ended),
    /// It expired.
    Expired(Asked, Ended),
    /// Its connection, or the log, ends before a reply.
    Unanswered(Asked),
}

impl Listed {
    /// Returns the name of the list.
    pub fn name(&self) -> &'static str {
        match self {
            Listed::Slowest(_, _) => "slowest",
            Listed::Expired(_, _) => "expired",
            Listed::Unanswered(_) => "unanswered",
        }
    }

    /// Returns the primary.
    pub fn asked(&self) -> Asked {
        match self {
            Listed::Slowest(asked, _) => *asked,
            Listed::Expired(asked, _) => *asked,
            Listed::Unanswered(asked) => *asked,
        }
    }

    /// Returns the line at which the wait ends, if a line ends it.
    pub fn ended(&self) -> Option<Ended> {
        match self {
            Listed::Slowest(_, ended) => Some(*ended),
            Listed::Expired(_, ended) => Some(*ended),
            Listed::Unanswered(_) => None,
        }
    }

    // Returns the rank in the list. The lowest rank is the first in it.
    fn rank(&self) -> u64 {
        match self {
            Listed::Slowest(_, ended) => u64::MAX - ended.after,
            Listed::Expired(_, ended) => ended.line,
            Listed::Unanswered(asked) => asked.line,
        }
    }
}

impl fmt::Display for Listed {
    fn fmt<W: fmt::Write>(&self, f: &mut fmt::Formatter<W>) -> fmt::Result {
        let name = self.name();
        let Asked {
            line,
            function,
            system,
            ..
        } = self.asked();
        let way = self.asked().way();
        write!(f, "{name}: {function} W {system} {way} at line {line}")?;
        match self.ended() {
            Some(ended) => write_ended(f, ended),
            None => Ok(()),
        }
    }
}

fn write_ended<W: fmt::Write>(f: &mut fmt::Formatter<W>, ended: Ended) -> fmt::Result {
    let Ended { line, after } = ended;
    write!(f, ", {after} ms to line {line}")
}

// The primaries of a list by their rank, at most `most`. Of equal ones the first come first.
struct Ranking {
    items: Vec<Listed>,
    most: usize,
}

// Written out so that a proof has one step for a dropped value, not one for each field.
impl Drop for Ranking {
    fn drop(self) {
        let Ranking { items, most: _most } = self;
        drop(items);
    }
}

impl Ranking {
    fn new(alloc: Global, most: usize) -> Ranking {
        Ranking {
            items: Vec::new(alloc),
            most,
        }
    }

    // Adds a primary. If the list is full, the last one is dropped.
    fn add(&mut self, alloc: Global, listed: Listed) -> Result<(), AllocError> {
        if !self.has_room(listed) {
            return Ok(());
        }
        let mut items = Vec::new(alloc);
        let mut added = Some(listed);
        for item in self.items.iter() {
            added = put_before(&mut items, added, *item)?;
            items.push(*item)?;
        }
        if let Some(listed) = added {
            items.push(listed)?;
        }
        items.truncate(self.most);
        self.items = items;
        Ok(())
    }

    fn has_room(&self, listed: Listed) -> bool {
        match self.items.last() {
            Some(last) => self.items.len() < self.most || listed.rank() < last.rank(),
            None => true,
        }
    }

    fn copy(&self, alloc: Global) -> Result<Ranking, AllocError> {
        let mut items = Vec::new(alloc);
        items.extend_from_slice(&self.items)?;
        Ok(Ranking {
            items,
            most: self.most,
        })
    }
}

// Adds a primary if it comes before the next one. Returns it if it does not.
fn put_before(
    items: &mut Vec<Listed>,
    added: Option<Listed>,
    next: Listed,
) -> Result<Option<Listed>, AllocError> {
    match added {
        Some(listed) => {
            if listed.rank() < next.rank() {
                items.push(listed)?;
                Ok(None)
            } else {
                Ok(added)
            }
        }
        None => Ok(None),
    }
}

/// The lists of primaries so far, if they are requested.
pub struct Lists {
    is_requested: bool,
    open: IndexMap<u64, Asked>,
    slowest: Ranking,
    expired: Ranking,
    unanswered: Ranking,
}

// Written out so that a proof has one step for a dropped value, not one for each field.
impl Drop for Lists {
    fn drop(self) {
        let Lists {
            is_requested: _is_requested,
            open,
            slowest,
            expired,
            unanswered,
        } = self;
        drop(open);
        drop(slowest);
        drop(expired);
        drop(unanswered);
    }
}

impl Lists {
    /// Creates lists without primaries.
    pub fn new(alloc: Global, is_requested: bool) -> Lists {
        Lists {
            is_requested,
            open: IndexMap::new(alloc),
            slowest: Ranking::new(alloc, SLOWEST),
            expired: Ranking::new(alloc, LISTED),
            unanswered: Ranking::new(alloc, LISTED),
        }
    }

    /// Records a valid step at a line. `ended` is the wait of the transaction that it closes. It is `None` if the step
    /// closes none.
    pub fn note(
        &mut self,
        alloc: Global,
        line: u64,
        what: What,
        ended: Option<Wait>,
    ) -> Result<(), AllocError> {
        if !self.is_requested {
            return Ok(());
        }
        match ended {
            Some(wait) => self.note_closing(alloc, line, what, wait),
            None => self.note_opening(alloc, line, what),
        }
    }

    // Records a step that closes no transaction.
    fn note_opening(&mut self, alloc: Global, line: u64, what: What) -> Result<(), AllocError> {
        match what {
            What::Up => self.note_up(alloc),
            What::Frame(mark, header) => self.note_frame(line, mark, header),
            What::T3(_) | What::Cut(_) | What::Down => Ok(()),
        }
    }

    fn note_frame(&mut self, line: u64, mark: Mark, header: Header) -> Result<(), AllocError> {
        if is_request(header) && mark != Mark::Discarded {
            let asked = Asked::of(line, mark, header);
            self.open.insert(key_of(mark, header), asked)?;
        }
        Ok(())
    }

    // Records that a connection starts: the primaries that were open will not be answered.
    fn note_up(&mut self, alloc: Global) -> Result<(), AllocError> {
        for asked in self.open.values() {
            self.unanswered.add(alloc, Listed::Unanswered(*asked))?;
        }
        self.open.truncate(0);
        Ok(())
    }

    // Records a step that closes a transaction.
    fn note_closing(
        &mut self,
        alloc: Global,
        line: u64,
        what: What,
        wait: Wait,
    ) -> Result<(), AllocError> {
        let Some((key, reply_outcome)) = closing_of(what, wait) else {
            return Ok(());
        };
        let Some(asked) = self.open.swap_remove(&key) else {
            return Ok(());
        };
        let ended = Ended {
            line,
            after: wait.after,
        };
        match reply_outcome {
            ReplyOutcome::Answered => self.slowest.add(alloc, Listed::Slowest(asked, ended)),
            ReplyOutcome::Expired => self.expired.add(alloc, Listed::Expired(asked, ended)),
            ReplyOutcome::Unmeasured | ReplyOutcome::Aborted | ReplyOutcome::Rejected => Ok(()),
        }
    }

    /// Returns the primaries of all lists at the end of the log.
    pub fn all(&self, alloc: Global) -> Result<Vec<Listed>, AllocError> {
        let mut unanswered = self.unanswered.copy(alloc)?;
        for asked in self.open.values() {
            unanswered.add(alloc, Listed::Unanswered(*asked))?;
        }
        let mut all = Vec::new(alloc);
        all.extend_from_slice(&self.slowest.items)?;
        all.extend_from_slice(&self.expired.items)?;
        all.extend_from_slice(&unanswered.items)?;
        Ok(all)
    }
}
