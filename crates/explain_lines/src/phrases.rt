//! Phrases below a line.

ghost use Rattle.std.specs.Prelude.{◌≡◌, Some};
ghost use Rattle.explain_lines.specs.Phrases.{group_text, closing_text, closing_word, concern_text, rest_text, tie_word, why_name};

use crate::expected::Function;
use crate::timestamp::Moment;
use hsms_frame::{Header, Kind, kind};
use hsms_log::{What, Why, cause_word};
use hsms_machine::{Cause, RepairAction};
use std::fmt;

/// The relation of an entry to the transaction that it closes.
#[derive(Clone, Copy)]
pub enum Tie {
    Answers,
    Rejects,
    Expires,
}

impl Tie {
    /// Returns the relation of an entry to the transaction that it closes: a reject, an answer, or, for a `t3`, an
    /// expiry.
    pub fn of(what: What) -> Tie {
        match what {
            What::Frame(_, header) => {
                if kind(header) == Kind::Reject {
                    Tie::Rejects
                } else {
                    Tie::Answers
                }
            }
            _ => Tie::Expires,
        }
    }
}

/// Returns the word for the relation.
pub fn word_of(tie: Tie) -> &'static str
    ensures { result.now ≡ tie_word tie }
{
    match tie {
        Tie::Answers => "answers",
        Tie::Rejects => "rejects",
        Tie::Expires => "expires",
    }
}

// Returns the start of the phrase for an entry that closes a transaction.
fn closing_phrase(tie: Tie) -> &'static str
    ensures { result.now ≡ closing_word tie }
{
    match tie {
        Tie::Expires => "T3 timeout of",
        Tie::Answers | Tie::Rejects => word_of(tie),
    }
}

/// An entry that closes the transaction opened by a line, `after` ms later. `after` is `None` if the clock was set in
/// between.
#[derive(Clone, Copy)]
pub struct Closing {
    pub tie: Tie,
    pub line: u64,
    pub after: Option<u64>,
}

impl fmt::Display for Closing {
    ghost output = { λ closing. Some (closing_text closing) };

    fn fmt<W: fmt::Write>(&self, f: &mut fmt::Formatter<W>) -> fmt::Result {
        let tie = closing_phrase(self.tie);
        let line = self.line;
        match self.after {
            Some(after) => write!(f, "{tie} line {line} after {after} ms"),
            None => write!(f, "{tie} line {line}, across a step of the clock"),
        }
    }
}

/// The line of an open transaction that a failure involves.
#[derive(Clone, Copy)]
pub struct Concern {
    pub line: u64,
}

impl fmt::Display for Concern {
    ghost output = { λ concern. Some (concern_text concern) };

    fn fmt<W: fmt::Write>(&self, f: &mut fmt::Formatter<W>) -> fmt::Result {
        let line = self.line;
        write!(f, "open transaction: line {line}")
    }
}

/// What waits until a timer expires: a request, or a connection whose session is not selected.
#[derive(Clone, Copy)]
pub enum Waiting {
    Request(Header),
    Connection,
}

/// A request or a connection whose timer has expired: its line, for how long it waited, the timer, and whether the failing
/// entry is the reply. Times are in ms.
#[derive(Clone, Copy)]
pub struct Overdue {
    pub waiting: Waiting,
    pub line: u64,
    pub waited: u64,
    pub timer: &'static str,
    pub limit: u32,
    pub is_reply: bool,
}

impl Overdue {
    // Returns how long after the timer expired.
    fn late(&self) -> u64 {
        self.waited.saturating_sub(u64::from(self.limit))
    }
}

impl fmt::Display for Overdue {
    fn fmt<W: fmt::Write>(&self, f: &mut fmt::Formatter<W>) -> fmt::Result {
        write_waiting(f, self.waiting)?;
        let Overdue {
            line,
            waited,
            timer,
            limit,
            ..
        } = *self;
        write!(f, " of line {line} waited {waited} ms ({timer} {limit})")?;
        if self.is_reply {
            let late = self.late();
            return write!(f, "; this is its reply, {late} ms late");
        }
        Ok(())
    }
}

// Writes the name of what waits.
fn write_waiting<W: fmt::Write>(f: &mut fmt::Formatter<W>, waiting: Waiting) -> fmt::Result {
    match waiting {
        Waiting::Request(request) => write_request(f, request),
        Waiting::Connection => write!(f, "up"),
    }
}

// Writes the name of a request and its system bytes.
fn write_request<W: fmt::Write>(f: &mut fmt::Formatter<W>, request: Header) -> fmt::Result {
    let system = System(request.system);
    match kind(request) {
        Kind::SelectReq => write!(f, "select.req {system}"),
        Kind::LinktestReq => write!(f, "linktest.req {system}"),
        _ => write_primary(f, request),
    }
}

fn write_primary<W: fmt::Write>(f: &mut fmt::Formatter<W>, primary: Header) -> fmt::Result {
    let function = Function::of(primary);
    let system = System(primary.system);
    write!(f, "{function} W {system}")
}

/// One or more failures like that of an earlier line. `times` is their number. A failure that involves an open
/// transaction is alone, with the line of that transaction. The repair is that of the first of them.
#[derive(Clone, Copy)]
pub struct FailureGroup {
    pub why: Why,
    pub line: u64,
    pub times: u64,
    pub concerns: Option<u64>,
    pub repair_action: Option<RepairAction>,
}

impl fmt::Display for FailureGroup {
    ghost output = { λ failure_group. Some (group_text failure_group) };

    fn fmt<W: fmt::Write>(&self, f: &mut fmt::Formatter<W>) -> fmt::Result {
        let name = name_of(self.why);
        let line = self.line;
        let times = self.times;
        if let Some(open) = self.concerns {
            return write!(
                f,
                "FAIL {name}: same as line {line}, open transaction: line {open}"
            );
        }
        if times > 1 {
            write!(f, "FAIL {name}: same as line {line} ({times} times)")
        } else {
            write!(f, "FAIL {name}: same as line {line}")
        }
    }
}

/// The number of further failures like that of `line`, up to the line `last`.
#[derive(Clone, Copy)]
pub struct Rest {
    pub why: Why,
    pub count: u64,
    pub line: u64,
    pub last: u64,
}

impl fmt::Display for Rest {
    ghost output = { λ rest. Some (rest_text rest) };

    fn fmt<W: fmt::Write>(&self, f: &mut fmt::Formatter<W>) -> fmt::Result {
        let name = name_of(self.why);
        let count = self.count;
        let line = self.line;
        let last = self.last;
        write!(
            f,
            "{name}: {count} more like line {line}, the last at line {last}"
        )
    }
}

/// Skipped lines: the first and the last.
#[derive(Clone, Copy)]
pub struct Gap {
    pub from: u64,
    pub to: u64,
}

/// The line that comes next out of order: an earlier one, or one after that.
#[derive(Clone, Copy)]
pub enum Jump {
    Back(u64),
    On(u64),
}

/// Why nothing of a log was checked.
#[derive(Clone, Copy)]
pub enum Unjudged {
    /// The log has no lines.
    Empty,
    /// Its first line is unreadable.
    Unreadable,
    /// The log has no entries.
    NoEntry,
}

impl Unjudged {
    /// Returns why a log of `lines` lines without settings was not checked.
    pub fn without_settings(lines: u64) -> Unjudged {
        if lines == 0 {
            Unjudged::Empty
        } else {
            Unjudged::Unreadable
        }
    }

    /// Returns the reason as text.
    pub fn words(self) -> &'static str {
        match self {
            Unjudged::Empty => "not audited: the log is empty",
            Unjudged::Unreadable => "not audited: line 1 is unreadable",
            Unjudged::NoEntry => "not audited: the log has no entries",
        }
    }
}

impl fmt::Display for Unjudged {
    fn fmt<W: fmt::Write>(&self, f: &mut fmt::Formatter<W>) -> fmt::Result {
        let words = self.words();
        write!(f, "{words}")
    }
}

/// System bytes, as a log has them.
#[derive(Clone, Copy)]
pub struct System(pub u32);

impl fmt::Display for System {
    fn fmt<W: fmt::Write>(&self, f: &mut fmt::Formatter<W>) -> fmt::Result {
        let system = self.0;
        write!(f, "{system:08x}")
    }
}

/// Returns the name of the broken rule, or `unreadable`.
pub fn name_of(why: Why) -> &'static str
    ensures { result.now ≡ why_name why }
{
    match why {
        Why::Unreadable => "unreadable",
        Why::Broken(rule) => rule.name(),
    }
}

/// How the log continues after a failure. `utc` selects a date instead of a time in ms. `is_step` says that the clock was
/// set back.
#[derive(Clone, Copy)]
pub struct Continuation {
    pub repair_action: RepairAction,
    pub utc: bool,
    pub is_step: bool,
}

/// An entry that is inserted before a line, as the log would have it.
#[derive(Clone, Copy)]
pub enum Put {
    T3(u64, u32),
    Cut(u64, Cause),
    Down(u64),
}

impl Put {
    /// Returns the entry that the repair inserts before the line, if it inserts one.
    pub fn of(repair_action: RepairAction) -> Option<Put> {
        match repair_action {
            RepairAction::ExpireFirst(time, system) => Some(Put::T3(time, system)),
            RepairAction::CutFirst(time, cause) => Some(Put::Cut(time, cause)),
            RepairAction::DownFirst(time) => Some(Put::Down(time)),
            RepairAction::Raise(_) | RepairAction::Discard | RepairAction::LeaveOut => None,
        }
    }
}

impl fmt::Display for Put {
    fn fmt<W: fmt::Write>(&self, f: &mut fmt::Formatter<W>) -> fmt::Result {
        match *self {
            Put::T3(time, system) => write!(f, "{time} t3 {system:08x}"),
            Put::Cut(time, cause) => {
                let cause = cause_word(cause);
                write!(f, "{time} cut {cause}")
            }
            Put::Down(time) => write!(f, "{time} down"),
        }
    }
}

impl fmt::Display for Continuation {
    fn fmt<W: fmt::Write>(&self, f: &mut fmt::Formatter<W>) -> fmt::Result {
        if let Some(put) = Put::of(self.repair_action) {
            return write!(f, "continues as if `{put}` were logged before it");
        }
        match self.repair_action {
            RepairAction::Raise(time) => {
                let moment = Moment {
                    time,
                    utc: self.utc,
                };
                write!(f, "continues as if its time were {moment}")?;
                write_step(f, self.is_step)
            }
            RepairAction::Discard => write!(f, "continues as if it were discarded"),
            _ => write!(f, "continues without it"),
        }
    }
}

// Writes that later times count from the time of a step of the clock.
fn write_step<W: fmt::Write>(f: &mut fmt::Formatter<W>, is_step: bool) -> fmt::Result {
    if is_step {
        return write!(f, ", and later times count from there");
    }
    Ok(())
}

/// Returns the repair with its times in those of the log, to which this offset is added.
pub fn in_log_times(repair_action: RepairAction, offset: u64) -> RepairAction {
    let logged = |time: u64| time.saturating_sub(offset);
    match repair_action {
        RepairAction::Raise(time) => RepairAction::Raise(logged(time)),
        RepairAction::ExpireFirst(time, system) => {
            RepairAction::ExpireFirst(logged(time), system)
        }
        RepairAction::CutFirst(time, cause) => RepairAction::CutFirst(logged(time), cause),
        RepairAction::DownFirst(time) => RepairAction::DownFirst(logged(time)),
        RepairAction::Discard => RepairAction::Discard,
        RepairAction::LeaveOut => RepairAction::LeaveOut,
    }
}
