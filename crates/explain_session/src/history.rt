//! History of a connection: earlier events that may explain a later failure.

use crate::repaired_session::{Checked, Opening};
use explain_lines::{ClockStep, Fit, MOST_CLOSED, Tie};
use explain_statistics::Wait;
use hsms_frame::{Header, Kind, kind};
use hsms_log::{Step, What};
use hsms_machine::{Mark, RepairAction, Rule};
use std::alloc::{AllocError, Global};
use std::collections::VecDeque;

// The maximum number of requests of a direction that are kept, and the number of closed transactions that are known for
// longer than T3.
const KEPT: usize = 256;

/// A primary, a Select.req or a Linktest.req: its line, its header, and whether it was discarded.
#[derive(Clone, Copy)]
pub struct Request {
    pub line: u64,
    pub header: Header,
    pub is_discarded: bool,
}

/// A closed transaction: the line that opened it, the line that closed it, and at which time.
#[derive(Clone, Copy)]
pub struct Closed {
    pub tie: Tie,
    pub line: u64,
    pub by: u64,
    time: u64,
    system: u32,
}

/// The last requests of a direction, and its last closed transactions, each oldest first.
#[derive(Drop)]
pub struct Requests {
    t3: u32,
    opened: VecDeque<Request>,
    closed: VecDeque<Closed>,
    // When the last transaction was closed that was dropped because too many were kept.
    dropped: Option<u64>,
}

/// A Select.req that is left out: its line, and the rule that it breaks.
#[derive(Clone, Copy)]
pub struct LeftOut {
    pub line: u64,
    pub rule: Rule,
}

/// The lines of the last two entries that are not of the same line, with their times, and the clock at the last one: the
/// offset that is added to times, and the last line at which it changed.
#[derive(Clone, Copy)]
pub struct Times {
    last: Option<Opening>,
    before: Option<Opening>,
    pub offset: u64,
    changed: u64,
}

/// The history of a connection: its start, the last requests of each direction, the line of the last Select.req, the last
/// one that is left out, and the line at which the session ended. Also the last times of the log.
pub struct Past {
    pub up: Option<Opening>,
    pub sent: Requests,
    pub received: Requests,
    pub select: Option<u64>,
    pub left_out: Option<LeftOut>,
    pub over: Option<u64>,
    pub times: Times,
}

// Written out so that a proof has one step for a dropped value, not one for each field.
impl Drop for Past {
    fn drop(self) {
        let Past {
            up: _up,
            sent,
            received,
            select: _select,
            left_out: _left_out,
            over: _over,
            times: _times,
        } = self;
        drop(sent);
        drop(received);
    }
}

impl Requests {
    fn new(alloc: Global, t3: u32) -> Requests {
        Requests {
            t3,
            opened: VecDeque::new(alloc),
            closed: VecDeque::new(alloc),
            dropped: None,
        }
    }

    fn clear(&mut self) {
        self.opened.clear();
        self.closed.clear();
        self.dropped = None;
    }

    /// Returns the last request with these system bytes, if it is kept.
    pub fn last_of(&self, system: u32) -> Option<Request> {
        let mut requests = self.opened.iter().rev().copied();
        requests.find(|request| request.header.system == system)
    }

    /// Returns the request that opened a transaction at this line, if it is kept.
    pub fn opened_at(&self, line: u64) -> Option<Request> {
        let mut requests = self.opened.iter().rev().copied();
        requests.find(|request| request.line == line && !request.is_discarded)
    }

    /// Returns the last closed transaction with these system bytes, if it is known at this time.
    pub fn closed_with(&self, system: u32, now: u64) -> Option<Closed> {
        let mut closed = self.closed.iter().rev().copied().enumerate();
        let (later, last) = closed.find(|(_, closed)| closed.system == system)?;
        let is_known = later < KEPT || self.is_recent(last.time, now);
        is_known.then_some(last)
    }

    /// Returns whether a transaction that was closed at most T3 before this time is not kept.
    pub fn is_full(&self, now: u64) -> bool {
        self.dropped.is_some_and(|time| self.is_recent(time, now))
    }

    // Returns whether T3 has not passed between two times.
    fn is_recent(&self, time: u64, now: u64) -> bool {
        time.saturating_add(u64::from(self.t3)) >= now
    }

    // Records a request. If the maximum number is kept, the oldest is dropped.
    fn open(&mut self, request: Request) -> Result<(), AllocError> {
        if self.opened.len() >= KEPT {
            drop(self.opened.pop_front());
        }
        self.opened.push_back(request)?;
        Ok(())
    }

    // Records a closed transaction. The oldest is dropped if the maximum number is kept, or if it will not be known.
    fn close(&mut self, closed: Closed) -> Result<(), AllocError> {
        if self.closed.len() >= MOST_CLOSED {
            self.dropped = self.closed.pop_front().map(|oldest| oldest.time);
        } else if self.closed.len() >= KEPT {
            self.drop_old(closed.time);
        }
        self.closed.push_back(closed)?;
        Ok(())
    }

    // Drops the oldest closed transaction if it was closed more than T3 ago.
    fn drop_old(&mut self, now: u64) {
        let oldest = self.closed.front().copied();
        if oldest.is_some_and(|oldest| !self.is_recent(oldest.time, now)) {
            drop(self.closed.pop_front());
        }
    }
}

impl Times {
    fn new() -> Times {
        Times {
            last: None,
            before: None,
            offset: 0,
            changed: 0,
        }
    }

    /// Records the offset that is added to the time of the entry at a line, and whether the clock changes there.
    pub fn note_clock(&mut self, line: u64, offset: u64, is_changed: bool) {
        self.offset = offset;
        if is_changed {
            self.changed = line;
        }
    }

    // Records the line and the time of a valid step.
    fn note(&mut self, entry: Opening) {
        if self.last.is_some_and(|last| last.line != entry.line) {
            self.before = self.last;
        }
        self.last = Some(entry);
    }

    /// Returns the wait of a transaction that is closed at this time.
    pub fn wait(&self, opening: Opening, now: u64) -> Wait {
        Wait {
            after: now.saturating_sub(opening.time),
            is_measured: opening.line >= self.changed,
        }
    }

    /// Returns the step of the clock at a line with this time, if the time goes back by more than T3.
    pub fn step_at(&self, line: u64, time: u64, t3: u32) -> Option<ClockStep> {
        let last = self.last?;
        let back = last.time.saturating_sub(time);
        (back > u64::from(t3)).then_some(ClockStep {
            line,
            back,
            from: last.line,
            fits: self.fit(time, back),
        })
    }

    // Returns the line of the entry before the last one, if the time is after it, by at most a tenth of the step.
    fn fit(&self, time: u64, back: u64) -> Option<Fit> {
        let Opening { line, time: before } = self.before?;
        let after = time.checked_sub(before)?;
        (after.saturating_mul(10) <= back).then_some(Fit { line, after })
    }
}

impl Past {
    /// Creates an empty history of a log with this T3.
    pub fn new(alloc: Global, t3: u32) -> Past {
        Past {
            up: None,
            sent: Requests::new(alloc, t3),
            received: Requests::new(alloc, t3),
            select: None,
            left_out: None,
            over: None,
            times: Times::new(),
        }
    }

    /// Records a valid step at a line, and the transaction that it closes.
    pub fn note(
        &mut self,
        line: u64,
        step: Step,
        closed: Option<Opening>,
    ) -> Result<(), AllocError> {
        let time = step.time;
        self.times.note(Opening { line, time });
        match step.what {
            What::Up => {
                self.begin(Opening { line, time });
                Ok(())
            }
            What::Frame(mark, header) => {
                self.note_frame(line, mark, header)?;
                self.note_closing(line, step, header.system, closed)
            }
            What::T3(system) => self.note_closing(line, step, system, closed),
            What::Cut(_) => {
                self.over = Some(line);
                Ok(())
            }
            What::Down => Ok(()),
        }
    }

    /// Records a step at a line that fails: a Select.req that is left out.
    pub fn note_failure(&mut self, line: u64, what: What, check_result: Checked) {
        let Checked::Broken(failure) = check_result else {
            return;
        };
        let What::Frame(_, header) = what else {
            return;
        };
        let is_left_out = failure.repair_action == RepairAction::LeaveOut;
        if is_left_out && kind(header) == Kind::SelectReq {
            let rule = failure.rule;
            self.left_out = Some(LeftOut { line, rule });
        }
    }

    // Starts a connection.
    fn begin(&mut self, up: Opening) {
        self.up = Some(up);
        self.sent.clear();
        self.received.clear();
        self.select = None;
        self.left_out = None;
        self.over = None;
    }

    // Records a frame: a request, or the end of the session.
    fn note_frame(&mut self, line: u64, mark: Mark, header: Header) -> Result<(), AllocError> {
        match kind(header) {
            Kind::SelectReq => {
                self.select = Some(line);
                self.note_request(line, mark, header)
            }
            Kind::Primary | Kind::LinktestReq => self.note_request(line, mark, header),
            Kind::Separate => {
                if mark != Mark::Discarded {
                    self.over = Some(line);
                }
                Ok(())
            }
            Kind::Reply
            | Kind::SelectRsp
            | Kind::LinktestRsp
            | Kind::Reject
            | Kind::OtherSType
            | Kind::OtherPType => Ok(()),
        }
    }

    fn note_request(&mut self, line: u64, mark: Mark, header: Header) -> Result<(), AllocError> {
        let is_discarded = mark == Mark::Discarded;
        let request = Request {
            line,
            header,
            is_discarded,
        };
        match mark {
            Mark::Sent => self.sent.open(request),
            Mark::Taken | Mark::Discarded => self.received.open(request),
        }
    }

    // Records the transaction that a step with these system bytes closes, if it closes one.
    fn note_closing(
        &mut self,
        by: u64,
        step: Step,
        system: u32,
        closed: Option<Opening>,
    ) -> Result<(), AllocError> {
        let Some(opening) = closed else {
            return Ok(());
        };
        let closed = Closed {
            tie: Tie::of(step.what),
            line: opening.line,
            by,
            time: step.time,
            system,
        };
        match step.what {
            What::Frame(Mark::Sent, _) => self.received.close(closed),
            _ => self.sent.close(closed),
        }
    }
}
