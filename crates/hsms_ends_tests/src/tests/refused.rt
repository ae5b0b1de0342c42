//! The log and the sent bytes of a served connection after a failed allocation.

use super::connection::link_of;
use super::{
    AllocError, Global, HostDesk, Message, Role, Settings, Side, Stop, Store, assert_so, equipment,
    settings,
};
use hsms_ends::{Scripted, ServeFault, Served, Step, serve};
use hsms_log::{Verdict, audit_text};
use std::process::Abort;

/// A connection: what the peer sends, one message for each wait; the lines that each call of the endpoint adds to the
/// log, and the bytes that it sends.
struct Connection {
    role: Role,
    side: Side,
    said: &'static str,
    log: &'static [&'static str],
    sent: &'static [&'static [u8]],
}

const SELECT_REQ: &[u8] = b"\0\0\0\x0a\xff\xff\0\0\0\x01\0\0\0\x01";

const SELECT_RSP: &[u8] = b"\0\0\0\x0a\xff\xff\0\0\0\x02\0\0\0\x01";

/// Equipment is selected, tested and left.
const EQUIPMENT: Connection = Connection {
    role: Role::Equipment,
    side: Side::Passive,
    said: "ffff0000000100000001
ffff0000000500000002
ffff0000000900000003
",
    log: &[
        "hsms-log 1 equipment passive 0 45000 6000 10000 5000 1048576 32\n",
        "0 up\n",
        "0 < ffff0000000100000001\n0 > ffff0000000200000001\n",
        "0 < ffff0000000500000002\n0 > ffff0000000600000002\n",
        "0 < ffff0000000900000003\n0 down\n",
    ],
    sent: &[
        b"",
        b"",
        SELECT_RSP,
        b"\0\0\0\x0a\xff\xff\0\0\0\x06\0\0\0\x02",
        b"",
    ],
};

/// A host sends S1F1, is answered and separates.
const HOST: Connection = Connection {
    role: Role::Host,
    side: Side::Active,
    said: "ffff0000000200000001
00000102000000000002
",
    log: &[
        "hsms-log 1 host active 0 45000 6000 10000 5000 1048576 32\n",
        "0 up\n0 > ffff0000000100000001\n",
        "0 < ffff0000000200000001\n",
        "0 > 00008101000000000002\n",
        "0 < 00000102000000000002\n",
        "0 > ffff0000000900000003\n0 down\n",
    ],
    sent: &[
        b"",
        SELECT_REQ,
        b"",
        b"\0\0\0\x0a\0\0\x81\x01\0\0\0\0\0\x02",
        b"",
        b"\0\0\0\x0a\xff\xff\0\0\0\x09\0\0\0\x03",
    ],
};

/// Serves the connection. The host has a script.
fn served(
    alloc: Global,
    case: &Connection,
    settings: Settings,
    link: &mut Scripted,
    log: &mut Store,
) -> Result<Served, ServeFault> {
    let script = [Step::Send(Message::new(1, 1, true, None)), Step::Separate];
    match case.role {
        Role::Host => serve(alloc, link, log, settings, HostDesk, 1, &script, 100),
        Role::Equipment => {
            let Ok(desk) = equipment(alloc) else {
                return Err(ServeFault::Memory);
            };
            serve(alloc, link, log, settings, desk, 1, &[], 100)
        }
    }
}

/// Returns the number of the endpoint's calls in the log, with its first line. The link sent their messages.
fn calls_of(rt: &impl Abort, case: &Connection, log: &[u8], taken: &[u8]) -> usize {
    let mut calls = 0usize;
    let (mut lines, mut octets) = (log, taken);
    for (more, sent) in case.log.iter().zip(case.sent) {
        let Some(rest) = lines.strip_prefix(more.as_bytes()) else {
            break;
        };
        lines = rest;
        octets = octets.strip_prefix(*sent).unwrap_or(b"other octets");
        calls = calls.saturating_add(1);
    }
    assert_so(rt, lines.is_empty() && octets.is_empty(), "whole calls");
    calls
}

/// Checks that all calls were served, or that an allocation failed in the call after the first `calls`.
fn assert_answer(rt: &impl Abort, answer: Result<Served, ServeFault>, calls: usize, of_all: usize) {
    match answer {
        Ok(served) => {
            let is_whole = served.entries == 7 && served.refused == 0;
            assert_so(rt, is_whole && calls == of_all, "all is served");
        }
        Err(fault) => {
            let is_part = fault == ServeFault::Memory && calls < of_all;
            assert_so(rt, is_part, "a part is served");
        }
    }
}

fn assert_not_failing(rt: &impl Abort, alloc: Global, log: &[u8]) {
    let verdict = audit_text(alloc, log);
    assert_so(
        rt,
        !matches!(verdict, Ok(Verdict::Fail { .. })),
        "a log that fails",
    );
}

/// Checks that the log has the entries of the calls before the failed one, and passes the audit.
fn check_calls(
    rt: &impl Abort,
    alloc: Global,
    case: &Connection,
    link: &mut Scripted,
    log: &mut Store,
) -> Result<(), Stop> {
    let settings = settings(case.role, case.side, 1_048_576).ok_or(Stop::Line)?;
    let answer = served(alloc, case, settings, link, log);
    let calls = calls_of(rt, case, log.written(), link.taken());
    assert_answer(rt, answer, calls, case.log.len());
    if calls > 0 {
        assert_not_failing(rt, alloc, log.written());
    }
    Ok(())
}

/// If an allocation of the test itself fails, it checks nothing.
fn assert_log_of_calls(rt: &impl Abort, alloc: Global, case: &Connection) -> Result<(), Stop> {
    let room = vec![in alloc; 0u8; 400];
    let (Ok(mut link), Ok(room)) = (link_of(alloc, &[], case.said, 100, u64::MAX), room) else {
        return Ok(());
    };
    let mut log = Store::new(room, 400, u64::MAX);
    check_calls(rt, alloc, case, &mut link, &mut log)
}

#[test]
fn refused_connections(rt: HostRuntime) -> Result<(), Stop> {
    assert_log_of_calls(&rt, rt.alloc(), &EQUIPMENT)?;
    assert_log_of_calls(&rt, rt.alloc(), &HOST)
}
