//! What was expected instead of an entry that fails, and its text.

use crate::phrases::Tie;
use hsms_frame::Header;
use hsms_log::Unreadable;
use hsms_machine::{Role, Rule, Side};
use std::fmt;

/// The maximum number of closed transactions of a direction that are kept.
pub const MOST_CLOSED: usize = 4096;

/// A SECS-II stream and function.
#[derive(Clone, Copy)]
pub struct Function {
    pub stream: u8,
    pub function: u8,
}

impl Function {
    /// Returns the stream and function of a data message.
    pub fn of(header: Header) -> Function {
        Function {
            stream: header.stream(),
            function: header.function(),
        }
    }

    /// Returns the stream and function of the reply to a primary. After function 255 there is only function 0, which
    /// aborts.
    pub fn of_reply_to(primary: Header) -> Function {
        Function {
            stream: primary.stream(),
            function: primary.function().checked_add(1).unwrap_or(0),
        }
    }
}

/// A setting in line 1 that an entry does not agree with.
#[derive(Clone, Copy)]
pub enum Setting {
    /// Version 1: the log has one connection.
    Version,
    /// The link: the active end sends Select.req.
    Link(Side),
    /// The role: equipment sends the primaries of stream 9.
    Role(Role),
}

/// A step of the clock: the time of `line` is `back` ms before that of `from`, the line with the last entry. If the time
/// of `line` fits that of the line with the entry before, `from` alone is ahead.
#[derive(Clone, Copy)]
pub struct ClockStep {
    pub line: u64,
    pub back: u64,
    pub from: u64,
    pub fits: Option<Fit>,
}

/// A line, and how many ms after it another one is.
#[derive(Clone, Copy)]
pub struct Fit {
    pub line: u64,
    pub after: u64,
}

/// What was expected instead of an entry that fails, if known, or why the entry is not allowed there.
#[derive(Clone, Copy)]
pub enum Expected {
    /// The open primary at the line has the same system bytes, and expects another function.
    Function {
        line: u64,
        expected: Function,
        came: Function,
    },
    /// The primary at the line has the same system bytes, but no W bit.
    NoWait(u64),
    /// The request at the line has the same system bytes, but was discarded.
    ThrownAway(u64),
    /// The transaction of the line has the same system bytes, but was closed.
    Closed {
        line: u64,
        tie: Tie,
        by: u64,
    },
    /// More transactions were closed within T3 than are kept.
    Forgotten,
    /// The primary at the line is the only sent one that waits for a reply. It expects the stream and function of this
    /// one, and other system bytes.
    OnlyOne {
        line: u64,
        expected: Function,
        system: u32,
    },
    /// Another session ID of a control message.
    Session {
        expected: u16,
        came: u16,
    },
    /// The device ID of line 1.
    Device {
        expected: u16,
        came: u16,
    },
    /// Line 1 has another setting.
    LineOne(Setting),
    /// The text has this item error, at this offset from 0.
    Text {
        fault: &'static str,
        at: usize,
    },
    /// The Select.req at the line was not answered with status 0. `None` if there was no Select.req.
    Selected(Option<u64>),
    /// The only Select.req, at the line, breaks this rule, and is left out.
    SelectLeftOut {
        line: u64,
        rule: Rule,
    },
    /// The session ended at the line.
    Over(u64),
    /// The clock was set back.
    Clock(ClockStep),
    /// The line is unreadable.
    Form(Unreadable),
}

impl Expected {
    /// Returns the line that the hint names, if it names one.
    pub fn line(self) -> Option<u64> {
        match self {
            Expected::Function { line, .. }
            | Expected::NoWait(line)
            | Expected::ThrownAway(line)
            | Expected::Closed { line, .. }
            | Expected::OnlyOne { line, .. }
            | Expected::SelectLeftOut { line, .. }
            | Expected::Over(line) => Some(line),
            Expected::Selected(line) => line,
            Expected::Device { .. } | Expected::LineOne(_) => Some(1),
            Expected::Clock(step) => Some(step.from),
            Expected::Forgotten
            | Expected::Session { .. }
            | Expected::Text { .. }
            | Expected::Form(_) => None,
        }
    }
}

impl fmt::Display for Function {
    fn fmt<W: fmt::Write>(&self, f: &mut fmt::Formatter<W>) -> fmt::Result {
        let Function { stream, function } = *self;
        write!(f, "S{stream}F{function}")
    }
}

impl fmt::Display for Expected {
    fn fmt<W: fmt::Write>(&self, f: &mut fmt::Formatter<W>) -> fmt::Result {
        match *self {
            Expected::Function {
                line,
                expected,
                came,
            } => write_function(f, line, expected, came),
            Expected::NoWait(line) => write_namesake(f, line, "but no W bit"),
            Expected::ThrownAway(line) => write_namesake(f, line, "but was discarded"),
            Expected::Closed { line, tie, by } => write_closed(f, line, tie, by),
            Expected::Forgotten => write_forgotten(f),
            Expected::OnlyOne {
                line,
                expected,
                system,
            } => write_only_one(f, line, expected, system),
            Expected::Session { expected, came } => write_session(f, expected, "", came),
            Expected::Device { expected, came } => write_session(f, expected, " of line 1", came),
            Expected::LineOne(setting) => write_setting(f, setting),
            Expected::Text { fault, at } => write!(f, "item error: {fault} at={at}"),
            Expected::Selected(request) => write_selected(f, request),
            Expected::SelectLeftOut { line, rule } => write_left_out(f, line, rule),
            Expected::Over(line) => write!(f, "the session ended at line {line}"),
            Expected::Clock(step) => write_clock(f, step),
            Expected::Form(unreadable) => write!(f, "{unreadable}"),
        }
    }
}

// Each case writes its text in a function of its own: the time of one proof of all cases grows faster than their
// number.

fn write_function<W: fmt::Write>(
    f: &mut fmt::Formatter<W>,
    line: u64,
    expected: Function,
    came: Function,
) -> fmt::Result {
    write!(f, "line {line} expects {expected}, got {came}")
}

// Writes that the line has the same system bytes, and why it does not match.
fn write_namesake<W: fmt::Write>(
    f: &mut fmt::Formatter<W>,
    line: u64,
    matter: &str,
) -> fmt::Result {
    write!(f, "line {line} has the same system bytes, {matter}")
}

fn write_closed<W: fmt::Write>(
    f: &mut fmt::Formatter<W>,
    line: u64,
    tie: Tie,
    by: u64,
) -> fmt::Result {
    write_namesake(f, line, closed_word(tie))?;
    write!(f, " line {by}")
}

fn write_forgotten<W: fmt::Write>(f: &mut fmt::Formatter<W>) -> fmt::Result {
    write!(
        f,
        "the memory of closed transactions is full: more than {MOST_CLOSED} were closed within T3"
    )
}

fn write_only_one<W: fmt::Write>(
    f: &mut fmt::Formatter<W>,
    line: u64,
    expected: Function,
    system: u32,
) -> fmt::Result {
    write!(
        f,
        "the only open primary is line {line}: it expects {expected} {system:08x}"
    )
}

fn write_session<W: fmt::Write>(
    f: &mut fmt::Formatter<W>,
    expected: u16,
    whose: &str,
    came: u16,
) -> fmt::Result {
    write!(
        f,
        "expected session ID {expected:04x}{whose}, got {came:04x}"
    )
}

fn write_setting<W: fmt::Write>(f: &mut fmt::Formatter<W>, setting: Setting) -> fmt::Result {
    f.write_str(match setting {
        Setting::Version => "line 1 is of version 1: version 2 allows several connections",
        Setting::Link(Side::Active) => "line 1 says active, so only this end sends Select.req",
        Setting::Link(Side::Passive) => "line 1 says passive, so only the peer sends Select.req",
        Setting::Role(Role::Host) => "line 1 says host, so only the peer sends stream 9",
        Setting::Role(Role::Equipment) => "line 1 says equipment, so only this end sends stream 9",
    })
}

fn write_selected<W: fmt::Write>(f: &mut fmt::Formatter<W>, request: Option<u64>) -> fmt::Result {
    match request {
        Some(line) => write!(f, "line {line} has no select.rsp with status 0"),
        None => write!(f, "no select.req yet on this connection"),
    }
}

fn write_left_out<W: fmt::Write>(f: &mut fmt::Formatter<W>, line: u64, rule: Rule) -> fmt::Result {
    let name = rule.name();
    write!(
        f,
        "the select.req of line {line} is left out: it breaks {name}"
    )
}

fn write_clock<W: fmt::Write>(f: &mut fmt::Formatter<W>, step: ClockStep) -> fmt::Result {
    let ClockStep {
        line,
        back,
        from,
        ..
    } = step;
    match step.fits {
        Some(fit) => {
            write!(f, "clock: line {from} is {back} ms after line {line}")?;
            write_fit(f, fit)
        }
        None => write!(f, "clock: line {line} is {back} ms before line {from}"),
    }
}

fn write_fit<W: fmt::Write>(f: &mut fmt::Formatter<W>, fit: Fit) -> fmt::Result {
    let Fit { line, after } = fit;
    write!(f, ", which is {after} ms after line {line}")
}

fn closed_word(tie: Tie) -> &'static str {
    match tie {
        Tie::Answers => "but was already answered by",
        Tie::Rejects => "but was already rejected by",
        Tie::Expires => "but already timed out at",
    }
}
