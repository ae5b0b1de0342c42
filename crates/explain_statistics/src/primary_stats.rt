//! Statistics of the primaries of a log that request a reply, by stream, function and direction.

ghost use Rattle.std.specs.Prelude.{◌<◌};

use crate::histogram::Histogram;
use crate::reply_stats::{Counts, Replies, ReplyOutcome};
use explain_lines::Function;
use hsms_frame::{Header, Kind, kind};
use hsms_log::{Step, What};
use hsms_machine::Mark;
use indexmap::IndexMap;
use std::alloc::{AllocError, Global};
use std::fmt;

// The direction of a primary.
#[derive(Clone, Copy)]
enum Direction {
    Sent,
    Received,
}

impl Direction {
    fn number(self) -> u32
        ensures { result < 2 }
    {
        match self {
            Direction::Sent => 0,
            Direction::Received => 1,
        }
    }
}

// The number of the messages beyond those that are counted separately. The number of a stream and function is less.
const OTHERS: u16 = 1 << 15;

/// The wait that a step ends, in ms. It is not measured if the clock was set during it.
#[derive(Clone, Copy)]
pub struct Wait {
    pub after: u64,
    pub is_measured: bool,
}

impl Wait {
    /// Returns the time of a wait that is measured.
    pub fn measured(self) -> Option<u64> {
        self.is_measured.then_some(self.after)
    }
}

/// The outcomes of the primaries of each kind, and the times of the replies.
pub struct Primaries {
    replies: Replies,
    times: IndexMap<u32, Histogram>,
}

/// The outcomes of the primaries of a kind, and the times of their replies, if there are any.
#[derive(Clone, Copy)]
pub struct Outcome {
    kind: u32,
    pub counts: Counts,
    /// The number of primaries that wait for a reply.
    pub waiting: u64,
    pub times: Option<Times>,
}

/// The times of replies in ms: the minimum, the median, the time that 99 of 100 do not exceed, and the maximum. `line`
/// is that of the last reply that took the maximum time.
#[derive(Clone, Copy)]
pub struct Times {
    pub least: u64,
    pub median: u64,
    pub most: u64,
    pub greatest: u64,
    pub line: u64,
}

impl Times {
    fn of(counts: Counts, histogram: &Histogram) -> Times {
        let most = if counts.answered < 100 {
            counts.greatest
        } else {
            histogram.most().max(counts.least)
        };
        Times {
            least: counts.least,
            median: histogram.median().max(counts.least),
            most,
            greatest: counts.greatest,
            line: counts.line,
        }
    }

    /// Returns the times and the line with their names.
    pub fn named(&self) -> [(&'static str, u64); 5] {
        [
            ("min", self.least),
            ("median", self.median),
            ("p99", self.most),
            ("max", self.greatest),
            ("line", self.line),
        ]
    }
}

// Written out so that a proof has one step for a dropped value, not one for each field.
impl Drop for Primaries {
    fn drop(self) {
        let Primaries { replies, times } = self;
        drop(replies);
        drop(times);
    }
}

impl Primaries {
    /// Creates statistics without primaries.
    pub fn new(alloc: Global) -> Primaries {
        Primaries {
            replies: Replies::new(alloc),
            times: IndexMap::new(alloc),
        }
    }

    /// Records a valid step at a line. `ended` is the wait of the transaction that it closes. It is `None` if the step
    /// closes none.
    pub fn note(
        &mut self,
        alloc: Global,
        line: u64,
        what: What,
        ended: Option<Wait>,
    ) -> Result<(), AllocError> {
        match ended {
            Some(wait) => self.note_closing(alloc, line, what, wait),
            None => self.note_opening(what),
        }
    }

    // Records a step that closes no transaction.
    fn note_opening(&mut self, what: What) -> Result<(), AllocError> {
        match what {
            What::Up => {
                self.replies.note_ended();
                Ok(())
            }
            What::Frame(mark, header) => self.note_primary(mark, header),
            _ => Ok(()),
        }
    }

    // Records a frame that closes no transaction.
    fn note_primary(&mut self, mark: Mark, header: Header) -> Result<(), AllocError> {
        if !is_request(header) {
            return Ok(());
        }
        match mark {
            Mark::Sent => self.open(Direction::Sent, header),
            Mark::Taken => self.open(Direction::Received, header),
            Mark::Discarded => Ok(()),
        }
    }

    fn open(&mut self, direction: Direction, header: Header) -> Result<(), AllocError> {
        let message = u16::from_be_bytes([header.stream(), header.function()]);
        let others = kind_of(OTHERS, direction);
        let kind = self.replies.kept_kind(kind_of(message, direction), others);
        self.replies
            .note_opened(key(direction, header.system), kind)
    }

    // Records a step that closes a transaction after a wait.
    fn note_closing(
        &mut self,
        alloc: Global,
        line: u64,
        what: What,
        wait: Wait,
    ) -> Result<(), AllocError> {
        let Some((key, reply_outcome)) = closing_of(what, wait) else {
            return Ok(());
        };
        if let Some(kind) = self
            .replies
            .note_closed(key, reply_outcome, wait.after, line)?
        {
            if matches!(reply_outcome, ReplyOutcome::Answered) {
                self.count_time(alloc, kind, wait.after)?;
            }
        }
        Ok(())
    }

    fn count_time(&mut self, alloc: Global, kind: u32, after: u64) -> Result<(), AllocError> {
        if let Some(times) = self.times.get_mut(&kind) {
            times.count(after);
            return Ok(());
        }
        let mut times = Histogram::new(alloc)?;
        times.count(after);
        self.times.insert(kind, times)?;
        Ok(())
    }

    /// Returns the number of kinds.
    pub fn len(&self) -> usize {
        self.replies.len()
    }

    /// Returns the outcome of the kind at this index, from 0, in the order of first occurrence.
    pub fn outcome(&self, place: usize) -> Option<Outcome> {
        let (kind, counts) = self.replies.at(place)?;
        let waiting = self.replies.waiting(kind) as u64;
        let times = self
            .times
            .get(&kind)
            .map(|histogram| Times::of(counts, histogram));
        Some(Outcome {
            kind,
            counts,
            waiting,
            times,
        })
    }
}

/// Returns whether a message is a primary that requests a reply.
pub fn is_request(header: Header) -> bool {
    kind(header) == Kind::Primary && header.wait()
}

/// Returns the key of a primary with this mark, which is not that of a discarded one.
pub fn key_of(mark: Mark, header: Header) -> u64 {
    let direction = match mark {
        Mark::Sent => Direction::Sent,
        Mark::Taken | Mark::Discarded => Direction::Received,
    };
    key(direction, header.system)
}

// Returns the kind of the primaries of a message in a direction: twice its number, plus one if they were received.
fn kind_of(message: u16, direction: Direction) -> u32 {
    u32::from(message) * 2 + direction.number()
}

// Returns the key of a primary: its direction and its system bytes.
fn key(direction: Direction, system: u32) -> u64 {
    u64::from(direction.number()) * (1 << 32) + u64::from(system)
}

/// Returns the key of the primary that a closing step closes after a wait, and the outcome.
pub fn closing_of(what: What, wait: Wait) -> Option<(u64, ReplyOutcome)> {
    match what {
        What::Frame(Mark::Sent, header) => Some((
            key(Direction::Received, header.system),
            reply_outcome_by(header, wait),
        )),
        What::Frame(Mark::Taken, header) => Some((
            key(Direction::Sent, header.system),
            reply_outcome_by(header, wait),
        )),
        What::T3(system) => Some((key(Direction::Sent, system), ReplyOutcome::Expired)),
        _ => None,
    }
}

fn reply_outcome_by(header: Header, wait: Wait) -> ReplyOutcome {
    if kind(header) == Kind::Reject {
        ReplyOutcome::Rejected
    } else if header.function() == 0 {
        ReplyOutcome::Aborted
    } else if wait.is_measured {
        ReplyOutcome::Answered
    } else {
        ReplyOutcome::Unmeasured
    }
}

impl Outcome {
    /// Returns the direction of the primaries: `sent` or `received`.
    pub fn way(&self) -> &'static str {
        if self.kind % 2 == 0 {
            "sent"
        } else {
            "received"
        }
    }

    /// Returns the stream and function of the primaries. `None` for those beyond the kinds that are counted separately.
    pub fn function(&self) -> Option<Function> {
        let message = self.kind / 2;
        if message >= u32::from(OTHERS) {
            return None;
        }
        let [_, _, stream, function] = message.to_be_bytes();
        Some(Function { stream, function })
    }

    /// Returns the number of primaries that were open when their connection ended.
    pub fn ended(&self) -> u64 {
        let counts = self.counts;
        let closed = [
            counts.answered,
            counts.unmeasured,
            counts.aborted,
            counts.expired,
            counts.rejected,
        ];
        let left = closed
            .iter()
            .fold(counts.opened, |left, count| left.saturating_sub(*count));
        left.saturating_sub(self.waiting)
    }

    /// Returns the number of primaries with each outcome, except the answered ones without a time.
    pub fn fates(&self) -> [(&'static str, u64); 6] {
        [
            ("answered", self.counts.answered),
            ("aborted", self.counts.aborted),
            ("expired", self.counts.expired),
            ("rejected", self.counts.rejected),
            ("ended", self.ended()),
            ("waiting", self.waiting),
        ]
    }

    // Writes the stream and function, and the number of primaries with their direction.
    fn write_kind<W: fmt::Write>(&self, f: &mut fmt::Formatter<W>) -> fmt::Result {
        let way = self.way();
        let opened = self.counts.opened;
        match self.function() {
            Some(function) => write!(f, "{function} W {way}={opened}"),
            None => write!(f, "others W {way}={opened}"),
        }
    }
}

// Writes numbers, each after its name.
fn write_named<W: fmt::Write>(
    f: &mut fmt::Formatter<W>,
    numbers: &[(&'static str, u64)],
) -> fmt::Result {
    for (name, number) in numbers {
        write!(f, " {name}={number}")?;
    }
    Ok(())
}

impl fmt::Display for Outcome {
    fn fmt<W: fmt::Write>(&self, f: &mut fmt::Formatter<W>) -> fmt::Result {
        self.write_kind(f)?;
        for reply_outcome in self.fates() {
            if reply_outcome.1 > 0 {
                write_named(f, &[reply_outcome])?;
            }
        }
        if self.counts.unmeasured > 0 {
            write_named(f, &[("unmeasured", self.counts.unmeasured)])?;
        }
        match self.times {
            Some(times) => write_named(f, &times.named()),
            None => Ok(()),
        }
    }
}
