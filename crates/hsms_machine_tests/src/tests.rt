//! Example sessions, as texts: the events of an endpoint, as in its log, and the expected results.

mod closing;
mod connections;
mod depths;
mod discards;
mod forms;
mod limits;
mod orders;
mod other_ends;
mod places;
mod readers;
mod remedies;
mod rules;
mod sessions;
mod timers;

use closing::CLOSING;
use connections::{ALONE, CONNECTIONS, FIRST};
use discards::DISCARDS;
use forms::FORMS;
use hsms_frame::{Frame, Header};
use hsms_machine::{
    Cause, Entry, EntryRef, Event, Mark, Phase, Role, Rule, Settings, Side, Tracker,
};
use orders::ORDERS;
use other_ends::{CONNECTS, LISTENS};
use readers::{IN_USE, LATE, LISTENING, READ, SIZES};
use rules::BROKEN;
use sessions::SESSIONS;
use std::alloc::{AllocError, Global};
use std::fmt::InlineText;
use std::process::Abort;
use timers::TIMERS;

/// Why a test ends: an allocation failed twice, or a line cannot be read.
#[derive(Clone, Copy, Debug)]
enum Stop {
    Memory,
    Line,
}

impl From<AllocError> for Stop {
    fn from(_: AllocError) -> Stop {
        Stop::Memory
    }
}

// Sessions are one text, because the check of a constant with many parts takes longer. So does the check of each
// function with such an argument. Each begins with a line with its name. A line `selected`, `connected` or `first`
// represents the entries of that name. The other lines are entries, as in a log, and the results that are expected
// there. `= ` gives the rule that the entry before breaks, and how many sent primaries are open. `told` gives what the
// readers return, `data` and `control` the oldest transactions, `used` or `free` system bytes. An entry that breaks a
// rule is followed by a line that says so.

/// A host connects.
const CONNECTED: &str = "0 up
0 > ffff0000000100000001
";

/// A host connects and is selected.
const SELECTED: &str = "0 up
0 > ffff0000000100000001
5 < ffff0000000200000001
";

/// Returns the lines that a line represents.
fn lines_of<'a>(line: &'a str) -> &'a str {
    match line {
        "connected" => CONNECTED,
        "selected" => SELECTED,
        "first" => FIRST,
        _ => line,
    }
}

fn number_of(digits: &str) -> Result<u64, Stop> {
    let number = u128::from_str_radix(digits, 10).ok().ok_or(Stop::Line)?;
    u64::try_from(number).ok().ok_or(Stop::Line)
}

/// Returns the number of these hexadecimal digits.
fn hexadecimal(digits: &str) -> Result<u128, Stop> {
    u128::from_str_radix(digits, 16).ok().ok_or(Stop::Line)
}

fn system_of(digits: &str) -> Result<u32, Stop> {
    u32::try_from(hexadecimal(digits)?).ok().ok_or(Stop::Line)
}

/// Returns the header of 20 digits.
fn header_of(digits: &str) -> Result<Header, Stop> {
    let number = hexadecimal(digits)?.to_be_bytes();
    let (_, part) = number.split_at(6);
    let mut octets = [0u8; 10];
    octets.copy_from_slice(part);
    Ok(Header::of(octets))
}

/// Returns one item of binary bytes, all zero.
fn zeros(alloc: Global, count: u8) -> Result<Vec<u8>, AllocError> {
    let zeros = [0u8; 255];
    let (zeros, _) = zeros.split_at(usize::from(count));
    let mut text = Vec::from_slice(alloc, &[0x21, count])?;
    text.extend_from_slice(zeros)?;
    Ok(text)
}

/// Returns the bytes of at most 32 digits.
fn octets_of(alloc: Global, digits: &str) -> Result<Vec<u8>, Stop> {
    if digits.is_empty() {
        return Ok(Vec::new(alloc));
    }
    let octets = hexadecimal(digits)?.to_be_bytes();
    let (_, octets) = octets.split_at(16usize.saturating_sub(digits.len() / 2));
    Ok(Vec::from_slice(alloc, octets)?)
}

/// Returns the text of digits, or an item of this many zeros.
fn text_of(alloc: Global, text: &str) -> Result<Vec<u8>, Stop> {
    match text.strip_prefix(" zeros ") {
        Some(count) => {
            let count = u8::try_from(number_of(count)?).ok().ok_or(Stop::Line)?;
            Ok(zeros(alloc, count)?)
        }
        None => octets_of(alloc, text),
    }
}

fn frame_of(alloc: Global, digits: &str) -> Result<Frame, Stop> {
    let (header, text) = digits.split_at_checked(20).ok_or(Stop::Line)?;
    let header = header_of(header)?;
    let text = text_of(alloc, text)?;
    Ok(Frame { header, text })
}

fn cause_of(word: &str) -> Result<Cause, Stop> {
    match word {
        "t6" => Ok(Cause::T6),
        "t7" => Ok(Cause::T7),
        "t8" => Ok(Cause::T8),
        "length" => Ok(Cause::Length),
        _ => Err(Stop::Line),
    }
}

/// Returns the event of a line.
fn event_of(alloc: Global, word: &str, rest: &str) -> Result<Event, Stop> {
    match word {
        ">" => Ok(Event::Sent(frame_of(alloc, rest)?)),
        "<" => Ok(Event::Taken(frame_of(alloc, rest)?)),
        "!" => Ok(Event::Discarded(frame_of(alloc, rest)?)),
        "t3" => Ok(Event::T3(system_of(rest)?)),
        "cut" => Ok(Event::Cut(cause_of(rest)?)),
        "up" => Ok(Event::Up),
        "down" => Ok(Event::Down),
        _ => Err(Stop::Line),
    }
}

fn entry_of(alloc: Global, line: &str) -> Result<Entry, Stop> {
    let (time, rest) = line.split_once(' ').ok_or(Stop::Line)?;
    let (word, rest) = rest.split_once(' ').unwrap_or((rest, ""));
    let time = number_of(time)?;
    let event = event_of(alloc, word, rest)?;
    Ok(Entry { time, event })
}

/// Returns the entry of a line. If an allocation fails, a retry succeeds.
fn happened(alloc: Global, line: &str) -> Result<Entry, Stop> {
    match entry_of(alloc, line) {
        Err(Stop::Memory) => entry_of(alloc, line),
        entry => entry,
    }
}

fn settings(max: u32) -> Result<Settings, Stop> {
    settings_of(Role::Host, Side::Active, max)
}

fn settings_of(role: Role, link: Side, max: u32) -> Result<Settings, Stop> {
    Settings::new(role, link, 0, 45000, 6000, 10000, 5000, max, 32).ok_or(Stop::Line)
}

fn assert_so(rt: &impl Abort, is_so: bool, name: &str) {
    assert!(rt; is_so, "{name}");
}

/// Asserts that a result is the expected one.
fn assert_said(rt: &impl Abort, said: InlineText<160>, want: &str, name: &str) {
    assert_so(rt, said.as_str() == want, name);
}

/// What the readers return.
type SeenState = (Phase, usize, usize, Option<u64>);

fn named_rule(tracker: &Tracker) -> SeenState {
    (
        tracker.phase(),
        tracker.waiting(),
        tracker.own_open(),
        tracker.next_due(),
    )
}

/// Returns whether the readers return what they returned before.
fn is_reported(tracker: &Tracker, before: SeenState) -> bool {
    named_rule(tracker) == before
}

/// Adds an entry. An allocation fails only for an entry that may need memory and breaks no rule. Then the tracker is
/// unchanged, and a retry succeeds.
fn step(rt: &impl Abort, tracker: &mut Tracker, entry: &Entry) -> Result<Option<Rule>, AllocError> {
    let before = named_rule(tracker);
    let checked = tracker.check(entry);
    match tracker.step(entry) {
        Ok(broken) => {
            assert_so(rt, broken == checked, "step and check");
            Ok(broken)
        }
        Err(_) => {
            assert_so(rt, is_reported(tracker, before), "memory was refused");
            assert_so(rt, checked.is_none(), "memory was refused");
            let may_grow = matches!(entry.event, Event::Sent(_) | Event::Taken(_));
            assert_so(rt, may_grow, "memory was refused");
            tracker.step(entry)
        }
    }
}

/// Adds the entry of a line.
fn step_line(
    rt: &impl Abort,
    alloc: Global,
    tracker: &mut Tracker,
    line: &str,
) -> Result<Option<Rule>, Stop> {
    let entry = happened(alloc, line)?;
    Ok(step(rt, tracker, &entry)?)
}

/// Returns what a tracker returns for the keyword of a line.
fn said(tracker: &Tracker, word: &str) -> InlineText<160> {
    match word {
        "told" => {
            let (phase, waiting, open, due) = named_rule(tracker);
            InlineText::of(format_args!("{phase:?}, {waiting} waiting, {open} open, due {due:?}"))
        }
        "data" => InlineText::of(format_args!("{:?}", tracker.oldest_data())),
        "control" => InlineText::of(format_args!("{:?}", tracker.oldest_control())),
        _ => InlineText::new(),
    }
}

/// Checks what a line states, or adds the entry of the line. Returns the rule that the entry breaks.
fn check_other(
    rt: &impl Abort,
    alloc: Global,
    tracker: &mut Tracker,
    line: &str,
    name: &str,
) -> Result<Option<Rule>, Stop> {
    let (word, want) = line.split_once(' ').ok_or(Stop::Line)?;
    match word {
        "used" => assert_so(rt, tracker.in_use(system_of(want)?), name),
        "free" => assert_so(rt, !tracker.in_use(system_of(want)?), name),
        "told" | "data" | "control" => assert_said(rt, said(tracker, word), want, name),
        _ => return step_line(rt, alloc, tracker, line),
    }
    Ok(None)
}

/// Returns the result of the check of an entry, as text.
fn verdict_of(tracker: &Tracker, broken: Option<Rule>) -> InlineText<160> {
    let waiting = tracker.waiting();
    InlineText::of(format_args!("{broken:?}, {waiting} waiting"))
}

/// Processes a line, after an entry that broke a rule or none. Returns the rule that the line's entry breaks.
fn check_line(
    rt: &impl Abort,
    alloc: Global,
    tracker: &mut Tracker,
    broken: Option<Rule>,
    line: &str,
    name: &str,
) -> Result<Option<Rule>, Stop> {
    match line.strip_prefix("= ") {
        Some(want) => {
            assert_said(rt, verdict_of(tracker, broken), want, name);
            Ok(None)
        }
        None => {
            assert_so(rt, broken.is_none(), name);
            check_other(rt, alloc, tracker, line, name)
        }
    }
}

/// Processes lines.
fn check_lines(
    rt: &impl Abort,
    alloc: Global,
    tracker: &mut Tracker,
    lines: &str,
    name: &str,
) -> Result<(), Stop> {
    let mut broken = None;
    for line in lines.lines() {
        for line in lines_of(line).lines() {
            broken = check_line(rt, alloc, tracker, broken, line, name)?;
        }
    }
    assert_so(rt, broken.is_none(), name);
    Ok(())
}

fn check_session(
    rt: &impl Abort,
    alloc: Global,
    settings: Settings,
    lines: &str,
    name: &str,
) -> Result<(), Stop> {
    let mut tracker = Tracker::new(alloc, settings);
    check_lines(rt, alloc, &mut tracker, lines, name)
}

/// Checks that each session is as it states.
fn check_all(
    rt: &impl Abort,
    alloc: Global,
    settings: Settings,
    sessions: &str,
) -> Result<(), Stop> {
    for session in sessions.split("# ") {
        if let Some((name, lines)) = session.split_once('\n') {
            check_session(rt, alloc, settings, lines, name)?;
        }
    }
    Ok(())
}

/// Checks each session of a host that connects.
fn check_host(rt: &impl Abort, alloc: Global, sessions: &str) -> Result<(), Stop> {
    check_all(rt, alloc, settings(1_048_576)?, sessions)
}

/// Checks each session of a host that connects, with messages of at most 256 bytes.
fn check_small(rt: &impl Abort, alloc: Global, sessions: &str) -> Result<(), Stop> {
    check_all(rt, alloc, settings(256)?, sessions)
}

#[test]
fn worked_sessions(rt: HostRuntime) -> Result<(), Stop> {
    check_host(&rt, rt.alloc(), SESSIONS)
}

#[test]
fn each_rule_is_broken(rt: HostRuntime) -> Result<(), Stop> {
    check_host(&rt, rt.alloc(), BROKEN)
}

#[test]
fn returns_first_broken_rule(rt: HostRuntime) -> Result<(), Stop> {
    check_host(&rt, rt.alloc(), ORDERS)
}

#[test]
fn what_is_discarded_has_a_cause(rt: HostRuntime) -> Result<(), Stop> {
    check_host(&rt, rt.alloc(), DISCARDS)
}

#[test]
fn timers_to_the_millisecond(rt: HostRuntime) -> Result<(), Stop> {
    check_host(&rt, rt.alloc(), TIMERS)
}

#[test]
fn what_messages_look_like(rt: HostRuntime) -> Result<(), Stop> {
    check_host(&rt, rt.alloc(), FORMS)
}

#[test]
fn which_end_may_send_what(rt: HostRuntime) -> Result<(), Stop> {
    let listens = settings_of(Role::Host, Side::Passive, 256)?;
    check_all(&rt, rt.alloc(), listens, LISTENS)?;
    let connects = settings_of(Role::Equipment, Side::Active, 256)?;
    check_all(&rt, rt.alloc(), connects, CONNECTS)
}

#[test]
fn what_answers_what(rt: HostRuntime) -> Result<(), Stop> {
    check_host(&rt, rt.alloc(), CLOSING)
}

#[test]
fn several_connections(rt: HostRuntime) -> Result<(), Stop> {
    let one = settings(1_048_576)?;
    check_all(&rt, rt.alloc(), one, ALONE)?;
    check_all(&rt, rt.alloc(), one.several(), CONNECTIONS)
}

#[test]
fn a_frame_of_the_greatest_size(rt: HostRuntime) -> Result<(), Stop> {
    check_small(&rt, rt.alloc(), SIZES)
}

#[test]
fn the_readers_of_a_tracker(rt: HostRuntime) -> Result<(), Stop> {
    check_small(&rt, rt.alloc(), READ)
}

#[test]
fn when_a_tracker_is_due_late(rt: HostRuntime) -> Result<(), Stop> {
    check_small(&rt, rt.alloc(), LATE)
}

/// Equipment that listens is selected, and reports the two primaries that expired to the host.
#[test]
fn an_equipment_that_listens(rt: HostRuntime) -> Result<(), Stop> {
    let settings = settings_of(Role::Equipment, Side::Passive, 1_048_576)?;
    check_all(&rt, rt.alloc(), settings, LISTENING)
}

/// Checks the readers of open transactions: the first of the sent primaries, and the system bytes in use.
#[test]
fn the_oldest_and_what_is_in_use(rt: HostRuntime) -> Result<(), Stop> {
    check_small(&rt, rt.alloc(), IN_USE)
}

/// Adds a frame without text, which breaks no rule. If an allocation fails, a retry succeeds.
fn step_frame(
    rt: &impl Abort,
    tracker: &mut Tracker,
    time: u64,
    mark: Mark,
    header: Header,
) -> Result<(), Stop> {
    let entry = EntryRef::of_frame(time, mark, header, &[]);
    let broken = match tracker.step_ref(&entry) {
        Ok(broken) => broken,
        Err(_) => tracker.step_ref(&entry)?,
    };
    assert_so(rt, broken.is_none(), "a frame");
    Ok(())
}

/// Accepts S1F1 W, with each of many system bytes.
fn take_many(rt: &impl Abort, tracker: &mut Tracker) -> Result<(), Stop> {
    let header = header_of("00008101000000000000")?;
    for system in 0u32..10_000 {
        step_frame(rt, tracker, 6, Mark::Taken, Header { system, ..header })?;
    }
    Ok(())
}

/// Sends S1F2 to each, the newest first.
fn answer_many(rt: &impl Abort, tracker: &mut Tracker) -> Result<(), Stop> {
    let header = header_of("00000102000000000000")?;
    for system in (0u32..10_000).rev() {
        step_frame(rt, tracker, 7, Mark::Sent, Header { system, ..header })?;
    }
    Ok(())
}

/// Any number may be open, and be answered in any order: each by its own system bytes.
#[test]
fn many_are_answered_from_the_newest(rt: HostRuntime) -> Result<(), Stop> {
    let mut tracker = Tracker::new(rt.alloc(), settings(256)?);
    check_lines(&rt, rt.alloc(), &mut tracker, SELECTED, "selected")?;
    take_many(&rt, &mut tracker)?;
    answer_many(&rt, &mut tracker)
}
