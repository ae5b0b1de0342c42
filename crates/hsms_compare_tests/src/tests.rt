//! Pairs of logs as text, with the expected results.

mod connections;
mod pairs;
mod texts;

use connections::CONNECTIONS;
use hsms_compare::{
    LogContradiction, LogCounts, Outcome, ReadFault, RequestState, first_contradiction, outcome_of,
};
use hsms_compare_logs::{CompareFault, LogComparison};
use hsms_frame::Feed;
use hsms_log::{Line, LineFault, read_line};
use hsms_machine::{Entry, Event};
use pairs::PAIRS;
use std::alloc::{AllocError, Global};
use std::fmt::InlineText;
use std::process::Abort;
use texts::TEXTS;

/// Why a test ends: an allocation fails, or a line cannot be read.
#[derive(Clone, Copy, Debug)]
enum Stop {
    Memory,
    Line,
}

impl From<AllocError> for Stop {
    fn from(_: AllocError) -> Stop {
        Stop::Memory
    }
}

// The pairs are one text, since a constant of many parts takes the check longer. Each begins with `# ` and its name.
// Its lines begin with a keyword: `host` and `equipment` add an entry to a log. The others state a result for the
// logs so far: `contradiction` that of the first contradiction; `first` that of the first contradiction of several
// connections; `outcome` that of the host's entry with this index and limit, and `answer` that of the equipment's.

/// Returns the entry of a line.
fn entry_of(alloc: Global, line: &str) -> Result<Entry, Stop> {
    match read_line(alloc, line.as_bytes(), 1_048_576) {
        Ok(Line::Entry(entry)) => Ok(entry),
        Ok(Line::Nothing) => Err(Stop::Line),
        Err(LineFault::Memory) => Err(Stop::Memory),
        Err(LineFault::Unreadable) => Err(Stop::Line),
    }
}

fn push(log: &mut Vec<Entry>, entry: Entry) -> Result<(), AllocError> {
    log.push(entry)?;
    Ok(())
}

fn number_of(digits: &str) -> Result<u64, Stop> {
    let number = u128::from_str_radix(digits, 10).ok().ok_or(Stop::Line)?;
    u64::try_from(number).ok().ok_or(Stop::Line)
}

fn assert_text(rt: &impl Abort, text: InlineText<200>, want: &str, name: &str) {
    assert!(rt; text.as_str() == want, "{name}");
}

/// Adds an entry to the counts of its log.
fn count(counts: &mut LogCounts, event: &Event) {
    counts.entries = counts.entries.saturating_add(1);
    match event {
        Event::Sent(_) => counts.sent = counts.sent.saturating_add(1),
        Event::Taken(_) | Event::Discarded(_) => {
            counts.received = counts.received.saturating_add(1)
        }
        _ => {}
    }
}

/// Returns the outcome of the request with an index, entry by entry: first of the other log, then of the own one.
fn outcome_by_entries(own: &[Entry], other: &[Entry], index: usize, limit: u64) -> Outcome {
    let mut before = LogCounts {
        entries: 0,
        received: 0,
        sent: 0,
    };
    let mut seen = before;
    let (earlier, later) = own.split_at(index.min(own.len()));
    for entry in earlier {
        count(&mut before, &entry.event);
    }
    let mut state = RequestState::InFlight;
    for entry in other {
        state = state.after_other(before.sent, limit, entry, seen);
        count(&mut seen, &entry.event);
    }
    let Some((request, later)) = later.split_first() else {
        return state.outcome();
    };
    count(&mut before, &request.event);
    for entry in later {
        state = state.after_own(request.time, entry, before);
        count(&mut before, &entry.event);
    }
    state.outcome()
}

/// Checks the outcome of the request that a line names by its index and limit.
fn check_outcome(
    rt: &impl Abort,
    own: &[Entry],
    other: &[Entry],
    line: &str,
    name: &str,
) -> Result<(), Stop> {
    let (index, rest) = line.split_once(' ').ok_or(Stop::Line)?;
    let (limit, want) = rest.split_once(' ').ok_or(Stop::Line)?;
    let index = usize::try_from(number_of(index)?).ok().ok_or(Stop::Line)?;
    let limit = number_of(limit)?;
    let outcome = outcome_of(own, other, index, limit);
    assert_text(rt, InlineText::of(format_args!("{outcome:?}")), want, name);
    if let Some(outcome) = outcome {
        assert!(rt;
            outcome == outcome_by_entries(own, other, index, limit),
            "{name}"
        );
    }
    Ok(())
}

/// Processes a line of a pair.
fn process_line(
    rt: &impl Abort,
    alloc: Global,
    host: &mut Vec<Entry>,
    equipment: &mut Vec<Entry>,
    line: &str,
    name: &str,
) -> Result<(), Stop> {
    let (word, rest) = line.split_once(' ').ok_or(Stop::Line)?;
    match word {
        "host" => push(host, entry_of(alloc, rest)?)?,
        "equipment" => push(equipment, entry_of(alloc, rest)?)?,
        "contradiction" => {
            let found = first_contradiction(alloc, host.as_slice(), equipment.as_slice())?;
            assert_text(rt, InlineText::of(format_args!("{found:?}")), rest, name);
        }
        "first" => {
            let found = LogContradiction::first(alloc, host.as_slice(), equipment.as_slice())?;
            assert_text(rt, InlineText::of(format_args!("{found:?}")), rest, name);
        }
        "outcome" => check_outcome(rt, host.as_slice(), equipment.as_slice(), rest, name)?,
        "answer" => check_outcome(rt, equipment.as_slice(), host.as_slice(), rest, name)?,
        _ => return Err(Stop::Line),
    }
    Ok(())
}

fn check_pair(rt: &impl Abort, alloc: Global, lines: &str, name: &str) -> Result<(), Stop> {
    let mut host = Vec::new(alloc);
    let mut equipment = Vec::new(alloc);
    for line in lines.lines() {
        process_line(rt, alloc, &mut host, &mut equipment, line, name)?;
    }
    Ok(())
}

/// Checks each pair of logs.
fn check_pairs(rt: &impl Abort, alloc: Global, pairs: &str) -> Result<(), Stop> {
    for pair in pairs.split("# ") {
        if let Some((name, lines)) = pair.split_once('\n') {
            check_pair(rt, alloc, lines, name)?;
        }
    }
    Ok(())
}

#[test]
fn compares_logs_of_one_connection(rt: HostRuntime) -> Result<(), Stop> {
    check_pairs(&rt, rt.alloc(), PAIRS)
}

#[test]
fn compares_logs_of_several_connections(rt: HostRuntime) -> Result<(), Stop> {
    check_pairs(&rt, rt.alloc(), CONNECTIONS)
}

/// Adds a line to a text.
fn push_line(text: &mut Vec<u8>, line: &str) -> Result<(), AllocError> {
    text.extend_from_slice(line.as_bytes())?;
    text.push(b'\n')?;
    Ok(())
}

/// Returns a comparison. A failed allocation is passed on.
fn compared(answer: Result<LogComparison, CompareFault>) -> Result<LogComparison, Stop> {
    match answer {
        Ok(found) => Ok(found),
        Err(CompareFault::Log(ReadFault::Memory)) => Err(Stop::Memory),
        Err(_) => Err(Stop::Line),
    }
}

/// Checks the comparison of two texts, in either order. Each read returns seven bytes.
fn check_texts(rt: &impl Abort, alloc: Global, lines: &str, name: &str) -> Result<(), Stop> {
    let mut host = Vec::new(alloc);
    let mut equipment = Vec::new(alloc);
    for line in lines.lines() {
        let (word, rest) = line.split_once(' ').ok_or(Stop::Line)?;
        match word {
            "host" => push_line(&mut host, rest)?,
            "equipment" => push_line(&mut equipment, rest)?,
            _ => {
                let one = Feed::new(Vec::from_slice(alloc, host.as_slice())?, 7, u64::MAX);
                let other = Feed::new(Vec::from_slice(alloc, equipment.as_slice())?, 7, u64::MAX);
                let found = compared(LogComparison::of_logs(alloc, other, one))?;
                let contradiction = found.contradiction;
                assert_text(
                    rt,
                    InlineText::of(format_args!("{contradiction:?}")),
                    rest,
                    name,
                );
            }
        }
    }
    Ok(())
}

#[test]
fn compares_texts(rt: HostRuntime) -> Result<(), Stop> {
    for pair in TEXTS.split("# ") {
        if let Some((name, lines)) = pair.split_once('\n') {
            check_texts(&rt, rt.alloc(), lines, name)?;
        }
    }
    Ok(())
}
