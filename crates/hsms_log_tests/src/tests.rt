mod cases;
mod connections;

ghost use Rattle.std.specs.Prelude.{◌<◌};

use cases::{CASES, Case, ENTRIES, FIRST_LINES, NO_LINES, REPLY, SELECTED, WRITTEN};
use connections::{TEXTS, Text};
use hsms_frame::{Feed, Store};
use hsms_log::{
    AuditFault, Line, LineFault, LogFault, Summary, Verdict, Why, audit, audit_text, audit_within,
    read_line, read_settings, write_entry, write_settings,
};
use hsms_machine::{Entry, Rule, Settings};
use std::alloc::{AllocError, Global};
use std::process::Abort;
use std::test::Fail;

const SMALL: &str = "hsms-log 1 host active 0 45000 6000 10000 5000 256 32\n";

fn joined(alloc: Global, parts: &[&str]) -> Result<Vec<u8>, AllocError> {
    let mut text = Vec::new(alloc);
    for part in parts {
        text.extend_from_slice(part.as_bytes())?;
    }
    Ok(text)
}

/// Returns the result of an audit. Propagates a failed allocation.
fn found_fact(
    answer: Result<Verdict, AuditFault>,
) -> Result<Result<Verdict, AuditFault>, AuditFault> {
    match answer {
        Err(AuditFault::Memory) => Err(AuditFault::Memory),
        other => Ok(other),
    }
}

fn assert_answer(
    rt: &impl Abort,
    answer: Result<Verdict, AuditFault>,
    want: Result<Verdict, AuditFault>,
    name: &str,
) {
    assert_eq!(rt; answer, want, "{name}");
}

/// Checks the result of an audit of a log that comes in chunks of this many bytes.
fn check_chunks(rt: &impl Abort, alloc: Global, case: &Case, piece: usize) -> Result<(), Fail>
    requires { 0 < piece }
{
    let mut feed = Feed::new(joined(alloc, &[case.after, case.lines])?, piece, u64::MAX);
    let answer = found_fact(audit(alloc, &mut feed))?;
    assert_answer(rt, answer, Ok(case.verdict), case.name);
    Ok(())
}

fn check_case(rt: &impl Abort, alloc: Global, case: &Case) -> Result<(), Fail> {
    for piece in [1, 2, 3, 4096] {
        check_chunks(rt, alloc, case, piece)?;
    }
    Ok(())
}

#[test]
fn audits_each_log(rt: HostRuntime) -> Result<(), Fail> {
    for case in CASES {
        check_case(&rt, rt.alloc(), case)?;
    }
    Ok(())
}

fn check_text(rt: &impl Abort, alloc: Global, text: &Text) -> Result<(), Fail> {
    let octets = joined(alloc, text.parts)?;
    let verdict = audit_text(alloc, &octets)?;
    assert_answer(rt, Ok(verdict), Ok(text.verdict), text.name);
    Ok(())
}

#[test]
fn audits_each_log_of_many_connections(rt: HostRuntime) -> Result<(), Fail> {
    for text in TEXTS {
        check_text(&rt, rt.alloc(), text)?;
    }
    Ok(())
}

/// Checks that an audit returns this error within this many reads. The source returns chunks of this many bytes, and
/// fails after this many calls.
fn check_fault(
    rt: &impl Abort,
    alloc: Global,
    piece: usize,
    fuse: u64,
    reads: u32,
    fault: AuditFault,
) -> Result<(), Fail>
    requires { 0 < piece }
{
    let mut feed = Feed::new(joined(alloc, &[SELECTED, REPLY])?, piece, fuse);
    let answer = found_fact(audit_within(alloc, &mut feed, reads))?;
    assert_answer(rt, answer, Err(fault), "a fault");
    Ok(())
}

#[test]
fn returns_each_fault(rt: HostRuntime) -> Result<(), Fail> {
    let alloc = rt.alloc();
    check_fault(&rt, alloc, 1, u64::MAX, 3, AuditFault::Endless)?;
    check_fault(&rt, alloc, 1, 0, 100, AuditFault::Read)?;
    check_fault(&rt, alloc, 58, 1, 100, AuditFault::Read)
}

// The reads after the second fail.
#[test]
fn names_a_failing_line_before_a_failing_read(rt: HostRuntime) -> Result<(), Fail> {
    let mut feed = Feed::new(joined(rt.alloc(), &["x\n"])?, 1, 2);
    let first = Verdict::Fail {
        line: 1,
        why: Why::Unreadable,
    };
    let answer = found_fact(audit(rt.alloc(), &mut feed))?;
    assert_answer(&rt, answer, Ok(first), "a line");
    Ok(())
}

const PASSES: Verdict = Verdict::Pass(Summary {
    entries: 3,
    sent: 1,
    taken: 1,
    discarded: 0,
    expired: 0,
    waiting: 0,
});

const SENT: Verdict = Verdict::Pass(Summary {
    entries: 4,
    sent: 2,
    taken: 1,
    discarded: 0,
    expired: 0,
    waiting: 0,
});

const DISCARDED: Verdict = Verdict::Pass(Summary {
    entries: 4,
    sent: 1,
    taken: 1,
    discarded: 1,
    expired: 0,
    waiting: 0,
});

const TOO_LONG: Verdict = Verdict::Fail {
    line: 5,
    why: Why::Broken(Rule::TooLong),
};

const NO_CAUSE: Verdict = Verdict::Fail {
    line: 5,
    why: Why::Broken(Rule::NoCause),
};

const UNREADABLE: Verdict = Verdict::Fail {
    line: 5,
    why: Why::Unreadable,
};

/// The start of a line, the byte that fills it, how often, its end, and the verdict.
type Filled = (&'static str, u8, u32, &'static str, Verdict);

const FILLED: &[Filled] = &[
    ("#", b'.', 575, "\n", PASSES),
    ("#", b'.', 575, "\r\n", PASSES),
    ("#", b'.', 575, "\r\r\n", UNREADABLE),
    ("#", b'.', 576, "\n", UNREADABLE),
    ("#", b'.', 576, "", UNREADABLE),
    ("5 > ", b'0', 572, "\n", TOO_LONG),
    ("5 > 0000010100000000000221f5", b'0', 490, "\n", TOO_LONG),
    ("5 > 0000010100000000000221f4", b'0', 488, "\n", SENT),
    ("5 < 0000010100000000000221f5", b'0', 490, "\n", TOO_LONG),
    ("5 < 00008101010000000002", b'0', 494, "\n", TOO_LONG),
    ("5 < ffff0000000300000002", b'0', 494, "\n", TOO_LONG),
    ("5 < ffff0000000500000002", b'0', 494, "\n", TOO_LONG),
    ("5 < 00018101000000000002", b'0', 494, "\n", TOO_LONG),
    ("5 < 00008901000000000002", b'0', 494, "\n", TOO_LONG),
    ("5 ! 0000010100000000000221f4", b'0', 488, "\n", NO_CAUSE),
    ("5 ! 0000010100000000000221f5", b'0', 490, "\n", DISCARDED),
    ("5 > ", b'0', 574, "\n", UNREADABLE),
];

fn filled(
    alloc: Global,
    front: &str,
    filling: u8,
    count: u32,
    end: &str,
) -> Result<Vec<u8>, AllocError> {
    let mut text = joined(alloc, &[SMALL, ENTRIES, front])?;
    for _ in 0..count {
        text.push(filling)?;
    }
    text.extend_from_slice(end.as_bytes())?;
    Ok(text)
}

fn assert_filled(
    rt: &impl Abort,
    answer: Result<Verdict, AuditFault>,
    want: Verdict,
    front: &str,
    count: u32,
) {
    assert_eq!(rt; answer, Ok(want), "{front} {count}");
}

fn check_filled(rt: &impl Abort, alloc: Global, row: Filled) -> Result<(), Fail> {
    let (front, filling, count, end, verdict) = row;
    let mut feed = Feed::new(filled(alloc, front, filling, count, end)?, 4096, u64::MAX);
    let answer = found_fact(audit(alloc, &mut feed))?;
    assert_filled(rt, answer, verdict, front, count);
    Ok(())
}

// The limit of a later line is 576 bytes here.
#[test]
fn keeps_to_the_limits_of_lines(rt: HostRuntime) -> Result<(), Fail> {
    for row in FILLED {
        check_filled(&rt, rt.alloc(), *row)?;
    }
    Ok(())
}

/// What precedes a line, its length so far and what ends it, and the verdict before its end is read.
type Open = (
    &'static [&'static str],
    u32,
    &'static str,
    Result<Verdict, AuditFault>,
);

const OPEN: &[Open] = &[
    (&[], 256, "", Err(AuditFault::Endless)),
    (&[], 256, "\r", Err(AuditFault::Endless)),
    (&[], 257, "", Ok(UNREADABLE_FIRST)),
    (&[], 256, "\r#", Ok(UNREADABLE_FIRST)),
    (&[], 257, "\r", Ok(UNREADABLE_FIRST)),
    (&[SMALL, ENTRIES], 576, "", Err(AuditFault::Endless)),
    (&[SMALL, ENTRIES], 576, "\r", Err(AuditFault::Endless)),
    (&[SMALL, ENTRIES], 577, "", Ok(UNREADABLE)),
    (&[SMALL, ENTRIES], 576, "\r\r", Ok(UNREADABLE)),
];

const UNREADABLE_FIRST: Verdict = Verdict::Fail {
    line: 1,
    why: Why::Unreadable,
};

fn begun(alloc: Global, row: Open) -> Result<Vec<u8>, AllocError> {
    let (before, count, end, _) = row;
    let mut text = joined(alloc, before)?;
    for _ in 0..count {
        text.push(b'#')?;
    }
    text.extend_from_slice(end.as_bytes())?;
    Ok(text)
}

/// Checks that all reads are used, and none finds the end.
fn check_open(rt: &impl Abort, alloc: Global, row: Open) -> Result<(), Fail> {
    let mut feed = Feed::new(begun(alloc, row)?, 4096, u64::MAX);
    let answer = found_fact(audit_within(alloc, &mut feed, 1))?;
    let (_, _, _, want) = row;
    assert_answer(rt, answer, want, "a line that may go on");
    Ok(())
}

#[test]
fn checks_line_already_too_long(rt: HostRuntime) -> Result<(), Fail> {
    for row in OPEN {
        check_open(&rt, rt.alloc(), *row)?;
    }
    Ok(())
}

fn assert_written(rt: &impl Abort, store: &Store, octets: &[u8]) {
    assert_eq!(rt; store.written(), octets);
}

fn assert_entry(rt: &impl Abort, store: &mut Store, entry: &Entry, line: &[u8]) {
    assert!(rt; write_entry(store, entry).is_ok());
    assert_written(rt, store, line);
}

fn check_next_entry(
    rt: &impl Abort,
    alloc: Global,
    entry: &Entry,
    line: &str,
) -> Result<(), AllocError> {
    let text = joined(alloc, &[line, "\n"])?;
    let mut store = Store::new(vec![in alloc; 0u8; 128]?, 7, u64::MAX);
    assert_entry(rt, &mut store, entry, &text);
    Ok(())
}

fn entry_of(alloc: Global, line: &str) -> Result<Entry, Fail> {
    match read_line(alloc, line.as_bytes(), 256)? {
        Line::Entry(entry) => Ok(entry),
        Line::Nothing => Err("an entry".into()),
    }
}

fn check_line(rt: &impl Abort, alloc: Global, line: &str) -> Result<(), Fail> {
    let entry = entry_of(alloc, line)?;
    check_next_entry(rt, alloc, &entry, line)?;
    Ok(())
}

fn assert_settings(rt: &impl Abort, store: &mut Store, settings: &Settings, line: &[u8]) {
    assert!(rt; write_settings(store, settings).is_ok());
    assert_written(rt, store, line);
}

fn check_settings_line(
    rt: &impl Abort,
    alloc: Global,
    settings: &Settings,
    line: &str,
) -> Result<(), AllocError> {
    let text = joined(alloc, &[line, "\n"])?;
    let mut store = Store::new(vec![in alloc; 0u8; 128]?, 7, u64::MAX);
    assert_settings(rt, &mut store, settings, &text);
    Ok(())
}

fn assert_full(rt: &impl Abort, store: &mut Store, settings: &Settings) {
    assert!(rt; write_settings(store, settings) == Err(LogFault::Write));
    assert_written(rt, store, b"hsms");
}

fn check_first_line(rt: &impl Abort, alloc: Global, line: &str) -> Result<(), Fail> {
    let settings = read_settings(line.as_bytes()).ok_or("settings")?;
    check_settings_line(rt, alloc, &settings, line)?;
    let mut full = Store::new(vec![in alloc; 0u8; 4]?, 7, u64::MAX);
    assert_full(rt, &mut full, &settings);
    Ok(())
}

fn check_first_lines(rt: &impl Abort, alloc: Global) -> Result<(), Fail> {
    for line in FIRST_LINES {
        check_first_line(rt, alloc, line)?;
    }
    Ok(())
}

fn assert_nothing(rt: &impl Abort, alloc: Global, line: &[u8]) {
    assert!(rt; matches!(read_line(alloc, line, 256), Ok(Line::Nothing)));
}

fn assert_unreadable(rt: &impl Abort, fault: Option<LineFault>, line: &str) {
    assert!(rt; matches!(fault, Some(LineFault::Unreadable)), "{line}");
}

/// Checks that a line is unreadable. Propagates a failed allocation.
fn check_unreadable(rt: &impl Abort, alloc: Global, line: &str) -> Result<(), Fail> {
    match read_line(alloc, line.as_bytes(), 256) {
        Err(LineFault::Memory) => Err(LineFault::Memory.into()),
        answer => {
            assert_unreadable(rt, answer.err(), line);
            Ok(())
        }
    }
}

#[test]
fn writes_what_it_reads(rt: HostRuntime) -> Result<(), Fail> {
    let alloc = rt.alloc();
    for line in WRITTEN {
        check_line(&rt, alloc, line)?;
    }
    assert_nothing(&rt, alloc, b"# comment");
    check_first_lines(&rt, alloc)
}

#[test]
fn reads_no_other_lines(rt: HostRuntime) -> Result<(), Fail> {
    for line in NO_LINES {
        check_unreadable(&rt, rt.alloc(), line)?;
    }
    Ok(())
}
