use super::connections::{ROWS, part_of};
use super::{Outcome, WANT_OF_MEMORY, assert_octets, assert_so, feed_of, judge, store_of};
use cli_filters::audit_to;
use hsms_frame::Store;
use std::alloc::{AllocError, Global};
use std::fmt::InlineText;
use std::process::Abort;

pub const LOG: &[u8] = b"hsms-log 1 host active 0 45000 6000 10000 5000 1048576 32\n\
    0 up\n\
    0 > ffff0000000100000001\n\
    5 < ffff0000000200000001\n\
    1000 > 00008101000000000002\n\
    46000 < 000001020000000000020102410141410142\n";

// The same log, with a line whose time goes back.
const LATE: &[u8] = b"hsms-log 1 host active 0 45000 6000 10000 5000 1048576 32\n\
    0 up\n\
    0 > ffff0000000100000001\n\
    5 < ffff0000000200000001\n\
    1000 > 00008101000000000002\n\
    46000 < 000001020000000000020102410141410142\n\
    3 down";

pub const PASS: &[u8] = b"pass entries=5 sent=2 taken=2 discarded=0 expired=0 waiting=0\n";

fn audited(alloc: Global, log: &[u8], sink: &mut Store) -> Result<Outcome, AllocError> {
    let mut source = feed_of(alloc, log, 100, u64::MAX)?;
    let result = audit_to(alloc, &mut source, sink);
    Ok(InlineText::of(format_args!("{result:?}")))
}

// Checks that the audit of a log has this result and writes this verdict line.
fn check_log_lines(
    rt: &impl Abort,
    alloc: Global,
    log: &[u8],
    want: &str,
    line: &[u8],
) -> Result<(), AllocError> {
    let mut sink = store_of(alloc, 128, 11, u64::MAX)?;
    let outcome = audited(alloc, log, &mut sink)?;
    judge(rt, outcome, &sink, want, line, "the verdict")
}

#[test]
fn writes_the_verdict(rt: HostRuntime) -> Result<(), AllocError> {
    let alloc = rt.alloc();
    check_log_lines(&rt, alloc, LOG, "Ok(true)", PASS)?;
    check_log_lines(
        &rt,
        alloc,
        LATE,
        "Ok(false)",
        b"fail line=7 rule=Backwards\n",
    )?;
    check_log_lines(&rt, alloc, &[], "Ok(false)", b"fail line=1 unreadable\n")
}

// Returns the log of these words, each of which represents some lines.
fn log_of(alloc: Global, words: &str) -> Result<Vec<u8>, AllocError> {
    let mut log = Vec::new(alloc);
    for word in words.split(' ') {
        log.extend_from_slice(part_of(word).as_bytes())?;
    }
    Ok(log)
}

fn check_command_words(
    rt: &impl Abort,
    alloc: Global,
    words: &str,
    want: &str,
    line: &str,
) -> Result<(), AllocError> {
    let log = log_of(alloc, words)?;
    check_log_lines(rt, alloc, &log, want, line.as_bytes())
}

// Checks a row: the words of a log, the result of its audit, and its verdict line.
fn check_table_row(rt: &impl Abort, alloc: Global, row: &str) -> Result<(), AllocError> {
    let (words, rest) = row.split_once(" = ").unwrap_or((row, ""));
    let (want, line) = rest.split_once(' ').unwrap_or((rest, ""));
    check_command_words(rt, alloc, words, want, line)
}

// The first connection is closed while a primary waits for its reply.
#[test]
fn writes_the_verdict_on_two_connections(rt: HostRuntime) -> Result<(), AllocError> {
    for row in ROWS.split_inclusive('\n') {
        check_table_row(&rt, rt.alloc(), row)?;
    }
    Ok(())
}

// Asserts the verdict; or a failed allocation and no output.
fn assert_verdict(rt: &impl Abort, outcome: Outcome, written: &[u8]) {
    if outcome.as_str() == "Ok(true)" {
        assert_octets(rt, written, PASS, "the verdict");
    } else {
        assert_so(rt, outcome.as_str() == WANT_OF_MEMORY, "out of memory");
        assert_so(rt, written.is_empty(), "nothing");
    }
}

// If the allocation of its own input fails, this test checks nothing.
#[test]
fn refused_verdicts(rt: HostRuntime) {
    let Ok(mut sink) = store_of(rt.alloc(), 128, 11, u64::MAX) else {
        return;
    };
    if let Ok(outcome) = audited(rt.alloc(), LOG, &mut sink) {
        assert_verdict(&rt, outcome, sink.written());
    }
}
