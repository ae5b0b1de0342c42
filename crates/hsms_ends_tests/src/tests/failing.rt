//! A served connection whose link or log fails after N calls, for each N in turn.

ghost use Rattle.std.specs.Prelude.{◌<◌};

use super::connection::{answer_of, audited, link_of, log_of, settings_of};
use super::{Abort, AllocError, Global, Role, Stop, Store, assert_octets, assert_so};
use hsms_ends::{Scripted, ServeFault, Served};
use hsms_log::{Summary, Verdict, audit_text};

/// Select.req, Linktest.req and Separate.req of the host.
const SAID: &str = "ffff0000000100000001
ffff0000000500000002
ffff0000000900000003
";

/// The equipment's Select.rsp and Linktest.rsp.
const ANSWERED: &[u8] = b"\x00\x00\x00\x0a\xff\xff\x00\x00\x00\x02\x00\x00\x00\x01\
\x00\x00\x00\x0a\xff\xff\x00\x00\x00\x06\x00\x00\x00\x02";

const WHOLE_LOG: &str = "hsms-log 1 equipment passive 0 45000 6000 10000 5000 1048576 32
0 up
0 < ffff0000000100000001
0 > ffff0000000200000001
0 < ffff0000000500000002
0 > ffff0000000600000002
0 < ffff0000000900000003
0 down
";

const LOG_WITHOUT_SELECT_RSP: &str =
    "hsms-log 1 equipment passive 0 45000 6000 10000 5000 1048576 32
0 up
0 < ffff0000000100000001
0 > ffff0000000200000001
0 down
";

const LOG_OF_NOTHING: &str = "hsms-log 1 equipment passive 0 45000 6000 10000 5000 1048576 32
0 up
0 down
";

/// Returns the result of equipment, served over this link with this log. A failed allocation ends the test.
fn served(
    alloc: Global,
    link: &mut Scripted,
    log: &mut Store,
) -> Result<Result<Served, ServeFault>, Stop> {
    let settings = settings_of(Role::Equipment).ok_or(Stop::Line)?;
    match answer_of(alloc, link, log, settings, &[], 200)? {
        Err(ServeFault::Memory) => Err(Stop::Memory),
        answer => Ok(answer),
    }
}

fn assert_whole(rt: &impl Abort, answer: Served, link: &Scripted, log: &Store) {
    let whole = Served {
        entries: 7,
        refused: 0,
    };
    assert_so(rt, answer == whole, "a whole connection");
    assert_octets(rt, log.written(), WHOLE_LOG.as_bytes(), "a whole log");
    assert_octets(rt, link.taken(), ANSWERED, "all that is answered");
}

fn assert_fault(rt: &impl Abort, fault: Option<ServeFault>, want: ServeFault) {
    assert_so(rt, fault == Some(want), "a fault");
}

fn assert_begins(rt: &impl Abort, whole: &[u8], part: &[u8]) {
    assert_so(rt, whole.starts_with(part), "a front");
}

/// Checks that the link sent nothing.
fn assert_none_taken(rt: &impl Abort, link: &Scripted) {
    assert_octets(rt, link.taken(), b"", "nothing is taken");
}

/// Checks that the log of a failed link passes the audit and ends with `down`.
fn assert_closed(rt: &impl Abort, alloc: Global, link: &Scripted, log: &Store) -> Result<(), Stop> {
    let summary = audited(alloc, log.written())?;
    assert_so(rt, summary.entries <= 7, "entries");
    assert_so(rt, log.written().ends_with(b"0 down\n"), "the last line");
    assert_begins(rt, ANSWERED, link.taken());
    Ok(())
}

/// Returns the number of complete lines of a log that record a sent message.
fn sent_lines(log: &[u8]) -> usize {
    let mut count = 0usize;
    let mut is_sent = false;
    for octet in log {
        if *octet == b'\n' && is_sent {
            count = count.saturating_add(1);
        }
        is_sent = *octet == b'>' || (is_sent && *octet != b'\n');
    }
    count
}

/// Checks the log after the log or an allocation failed: it is a prefix of the complete log. The messages of its
/// complete lines were sent, and no others.
fn assert_front(rt: &impl Abort, link: &Scripted, log: &Store) {
    assert_begins(rt, WHOLE_LOG.as_bytes(), log.written());
    assert_begins(rt, ANSWERED, link.taken());
    let taken = sent_lines(log.written()).saturating_mul(14);
    assert_so(rt, link.taken().len() == taken, "what was sent");
}

/// Checks the log after a failed allocation: it has complete lines and passes the audit.
fn assert_refused(rt: &impl Abort, alloc: Global, fault: ServeFault, link: &Scripted, log: &Store) {
    assert_fault(rt, Some(fault), ServeFault::Memory);
    assert_front(rt, link, log);
    assert_so(rt, log.written().ends_with(b"\n"), "whole lines");
    let verdict = audit_text(alloc, log.written());
    assert_so(
        rt,
        matches!(verdict, Ok(Verdict::Pass(_))),
        "a log that passes",
    );
}

/// Serves a connection in which the link or the log fails as expected, or nothing fails. Returns whether nothing
/// failed.
fn check_served(
    rt: &impl Abort,
    alloc: Global,
    link: &mut Scripted,
    log: &mut Store,
    want: ServeFault,
) -> Result<bool, Stop> {
    match served(alloc, link, log)? {
        Ok(answer) => {
            assert_whole(rt, answer, link, log);
            return Ok(true);
        }
        Err(fault) => assert_fault(rt, Some(fault), want),
    }
    match want {
        ServeFault::Link => assert_closed(rt, alloc, link, log)?,
        _ => assert_front(rt, link, log),
    }
    Ok(false)
}

/// Serves a connection in which link and log move `piece` bytes per call, and fail after this many calls. Returns
/// whether nothing failed.
fn fail_at(
    rt: &impl Abort,
    alloc: Global,
    piece: usize,
    link: u64,
    log: u64,
    want: ServeFault,
) -> Result<bool, Stop>
    requires { 0 < piece }
{
    let mut link = link_of(alloc, &[], SAID, piece, link)?;
    let mut log = log_of(alloc, 400, piece, log)?;
    check_served(rt, alloc, &mut link, &mut log, want)
}

/// Lets the link fail after each number of calls, until nothing fails.
fn fail_link(rt: &impl Abort, alloc: Global, piece: usize) -> Result<(), Stop>
    requires { 0 < piece }
{
    for fuse in 0..100 {
        if fail_at(rt, alloc, piece, fuse, u64::MAX, ServeFault::Link)? {
            return Ok(());
        }
    }
    Err(Stop::Endless)
}

/// Lets the log fail after each number of calls, until nothing fails.
fn fail_log(rt: &impl Abort, alloc: Global, piece: usize) -> Result<(), Stop>
    requires { 0 < piece }
{
    for fuse in 0..400 {
        if fail_at(rt, alloc, piece, u64::MAX, fuse, ServeFault::Log)? {
            return Ok(());
        }
    }
    Err(Stop::Endless)
}

#[test]
fn each_call_of_the_link_fails(rt: HostRuntime) -> Result<(), Stop> {
    fail_link(&rt, rt.alloc(), 400)?;
    fail_link(&rt, rt.alloc(), 1)
}

#[test]
fn each_call_of_the_log_fails(rt: HostRuntime) -> Result<(), Stop> {
    fail_log(&rt, rt.alloc(), 400)?;
    fail_log(&rt, rt.alloc(), 1)
}

/// A connection with a failure: the number of calls after which the link fails, and the log; the error, and the log
/// that remains; the summary of that log, if it passes.
struct Failing {
    link: u64,
    log: u64,
    fault: ServeFault,
    left: &'static str,
    passes: Option<Summary>,
}

const FAILING: &[Failing] = &[
    // The first send.
    Failing {
        link: 1,
        log: u64::MAX,
        fault: ServeFault::Link,
        left: LOG_WITHOUT_SELECT_RSP,
        passes: Some(Summary {
            entries: 4,
            sent: 1,
            taken: 1,
            discarded: 0,
            expired: 0,
            waiting: 0,
        }),
    },
    // The first wait.
    Failing {
        link: 0,
        log: u64::MAX,
        fault: ServeFault::Link,
        left: LOG_OF_NOTHING,
        passes: Some(Summary {
            entries: 2,
            sent: 0,
            taken: 0,
            discarded: 0,
            expired: 0,
            waiting: 0,
        }),
    },
    // The log's first write.
    Failing {
        link: u64::MAX,
        log: 0,
        fault: ServeFault::Log,
        left: "",
        passes: None,
    },
];

/// Checks that the log passes the audit with this summary.
fn assert_summary(rt: &impl Abort, alloc: Global, log: &Store, want: Summary) -> Result<(), Stop> {
    let summary = audited(alloc, log.written())?;
    assert_so(rt, summary == want, "a summary");
    Ok(())
}

/// Checks a row in which nothing is sent.
fn check_table_row(
    rt: &impl Abort,
    alloc: Global,
    row: &Failing,
    link: &mut Scripted,
    log: &mut Store,
) -> Result<(), Stop> {
    let answer = served(alloc, link, log)?;
    assert_fault(rt, answer.err(), row.fault);
    assert_octets(
        rt,
        log.written(),
        row.left.as_bytes(),
        "the log that is left",
    );
    assert_none_taken(rt, link);
    match row.passes {
        Some(summary) => assert_summary(rt, alloc, log, summary),
        None => Ok(()),
    }
}

fn check_failing(rt: &impl Abort, alloc: Global, row: &Failing) -> Result<(), Stop> {
    let mut link = link_of(alloc, &[], SAID, 400, row.link)?;
    let mut log = log_of(alloc, 400, 400, row.log)?;
    check_table_row(rt, alloc, row, &mut link, &mut log)
}

#[test]
fn worked_failures(rt: HostRuntime) -> Result<(), Stop> {
    for row in FAILING {
        check_failing(&rt, rt.alloc(), row)?;
    }
    Ok(())
}

/// Lets the first send fail, and then the log, after this many bytes.
fn check_twice(
    rt: &impl Abort,
    alloc: Global,
    room: usize,
    link: &mut Scripted,
    log: &mut Store,
) -> Result<(), Stop> {
    let answer = served(alloc, link, log)?;
    assert_fault(rt, answer.err(), ServeFault::Log);
    assert_so(rt, log.written().len() == room, "a full log");
    assert_begins(rt, LOG_WITHOUT_SELECT_RSP.as_bytes(), log.written());
    assert_none_taken(rt, link);
    Ok(())
}

fn fail_twice(rt: &impl Abort, alloc: Global, room: usize) -> Result<(), Stop> {
    let mut link = link_of(alloc, &[], SAID, 400, 1)?;
    let mut log = log_of(alloc, room, 400, u64::MAX)?;
    check_twice(rt, alloc, room, &mut link, &mut log)
}

/// The log fails at each byte of the line `0 down`.
#[test]
fn returns_later_fault(rt: HostRuntime) -> Result<(), Stop> {
    let whole = LOG_WITHOUT_SELECT_RSP.len();
    for less in 1..=7 {
        fail_twice(&rt, rt.alloc(), whole.saturating_sub(less))?;
    }
    Ok(())
}

fn check_refused(rt: &impl Abort, alloc: Global, link: &mut Scripted, log: &mut Store) {
    let Some(settings) = settings_of(Role::Equipment) else {
        return;
    };
    match answer_of(alloc, link, log, settings, &[], 200) {
        Ok(Ok(answer)) => assert_whole(rt, answer, link, log),
        Ok(Err(fault)) => assert_refused(rt, alloc, fault, link, log),
        Err(_) => {}
    }
}

// If the allocation of its own input fails, a test of failed allocations checks nothing.
#[test]
fn refused_connection(rt: HostRuntime) {
    let alloc = rt.alloc();
    let Ok(mut link) = link_of(alloc, &[], SAID, 400, u64::MAX) else {
        return;
    };
    let Ok(mut log) = log_of(alloc, 400, 400, u64::MAX) else {
        return;
    };
    check_refused(&rt, alloc, &mut link, &mut log)
}
