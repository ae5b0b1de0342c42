//! An endpoint over a loopback connection. The peer is in the same process, and sends everything before the endpoint runs.

use crate::answer_counts::AnswerCounts;
use crate::attempt::{Attempts, ConnectError, Ending};
use crate::comments::without_comments;
use crate::handler_choice::desk_of;
use crate::serving::serve_to;
use crate::tcp_link::{SocketLink, connected, listener_of};
use cli_filters::audit_to;
use cli_options::{CommandLine, Request, Service, ToolFault, parse};
use hsms_ends::{ServeFault, Step};
use hsms_frame::{Feed, Store};
use std::alloc::{AllocError, Global};
use std::io;
use std::io::{ErrorKind, Read, Write};
use std::net::{Net, OpenListener, TcpListener, TcpStream};
use std::process::Abort;
use std::time::Clock;

const HERE: &str = "127.0.0.1";

// The capacity of a log, in bytes.
const ROOM: usize = 4096;

const SELECT_RSP: &[u8; 14] = b"\x00\x00\x00\x0a\xff\xff\x00\x00\x00\x02\x00\x00\x00\x01";

// Select.req, Linktest.req and Separate.req.
const REQUESTS: &[u8; 42] = b"\x00\x00\x00\x0a\xff\xff\x00\x00\x00\x01\x00\x00\x00\x01\
    \x00\x00\x00\x0a\xff\xff\x00\x00\x00\x05\x00\x00\x00\x02\
    \x00\x00\x00\x0a\xff\xff\x00\x00\x00\x09\x00\x00\x00\x03";

// Select.rsp and Linktest.rsp.
const RESPONSES: &[u8; 28] = b"\x00\x00\x00\x0a\xff\xff\x00\x00\x00\x02\x00\x00\x00\x01\
    \x00\x00\x00\x0a\xff\xff\x00\x00\x00\x06\x00\x00\x00\x02";

// Select.req and Separate.req.
const SELECTS_AND_LEAVES: &[u8; 28] = b"\x00\x00\x00\x0a\xff\xff\x00\x00\x00\x01\x00\x00\x00\x01\
    \x00\x00\x00\x0a\xff\xff\x00\x00\x00\x09\x00\x00\x00\x02";

// An endpoint of one connection attempts it once.
#[derive(Drop)]
struct Once;

impl Attempts for Once {
    fn failed(&mut self, _: ConnectError) {}

    fn ended(&mut self, _: Ending) {}
}

fn assert_so(rt: &impl Abort, is_so: bool, name: &str) {
    assert!(rt; is_so, "{name}");
}

// Returns an error after a failed allocation. Any other failure fails the test.
fn failed(rt: &impl Abort, is_memory: bool, name: &str) -> Result<(), AllocError> {
    if is_memory {
        return Err(AllocError);
    }
    assert_so(rt, false, name);
    Ok(())
}

fn is_memory(error: ConnectError) -> bool {
    error == ConnectError::System(ErrorKind::OutOfMemory)
}

fn is_memory_of(error: &io::Error) -> bool {
    error.kind() == ErrorKind::OutOfMemory
}

// The words of a command line that serves one connection at this port.
fn words_for(alloc: Global, role: &str, link: &str, port: u16) -> Result<Vec<String>, AllocError> {
    let line = format!(in alloc;
        "hsms serve --role {role} --link {link} --address {HERE} --port {port} --t8 100"
    )?;
    let mut words = Vec::new(alloc);
    for word in line.as_str().split(' ') {
        words.push(String::from_str(alloc, word)?)?;
    }
    Ok(words)
}

// A port that was free a moment ago.
fn free_port<R: Net>(rt: &R) -> Option<u16> {
    let listener = TcpListener::bind(rt, (HERE, 0)).ok()?;
    Some(listener.local_addr().ok()?.port())
}

// Serves a connection. Checks the verdict on its log.
fn serve_and_audit<R: Abort + Clock + Net>(
    rt: &R,
    alloc: Global,
    mut link: SocketLink<'_, '_, R, Once>,
    service: &Service<'_>,
    steps: &[Step],
    verdict: &str,
) -> Result<(), AllocError> {
    let desk = desk_of(alloc, service, Vec::new(alloc))?;
    let mut log = Store::new(vec![in alloc; 0u8; ROOM]?, ROOM, u64::MAX);
    let served = serve_to(alloc, &mut link, &mut log, service, desk, steps);
    link.end();
    if let Err(fault) = served {
        return failed(
            rt,
            fault == ServeFault::Memory,
            "the connection is served to its end",
        );
    }
    let mut text = Feed::new(Vec::from_slice(alloc, log.written())?, ROOM, u64::MAX);
    let mut line = Store::new(vec![in alloc; 0u8; ROOM]?, ROOM, u64::MAX);
    match audit_to(alloc, &mut text, &mut line) {
        Ok(passes) => assert_so(rt, passes, "the log passes"),
        Err(fault) => return failed(rt, matches!(fault, ToolFault::Memory), "the log is audited"),
    }
    assert_so(rt, line.written() == verdict.as_bytes(), verdict);
    Ok(())
}

// Checks that a peer receives these bytes and no more.
fn check_received<S: Read>(rt: &impl Abort, stream: &mut S, want: &[u8; 28]) {
    let mut received = [0u8; 28];
    assert_so(
        rt,
        stream.read_exact(&mut received).is_ok(),
        "the peer receives",
    );
    assert_so(rt, received == *want, "what the peer receives");
    let mut more = [0u8; 1];
    assert_so(
        rt,
        matches!(stream.read(&mut more), Ok(0)),
        "the peer receives no more",
    );
}

fn check_passive<R: Abort + Clock + Net>(
    rt: &R,
    alloc: Global,
    service: &Service<'_>,
) -> Result<(), AllocError> {
    let listener = match listener_of(rt, service) {
        Ok(listener) => listener,
        Err(error) => return failed(rt, is_memory(error), "the endpoint listens"),
    };
    let mut peer = match TcpStream::connect(rt, (service.address, service.port)) {
        Ok(peer) => peer,
        Err(error) => return failed(rt, is_memory_of(&error), "the peer connects"),
    };
    assert_so(rt, peer.write_all(REQUESTS).is_ok(), "the peer sends");
    let link = match connected(rt, service, listener, Once) {
        Ok(link) => link,
        Err(error) => return failed(rt, is_memory(error), "the endpoint accepts"),
    };
    let verdict = "pass entries=7 sent=2 taken=3 discarded=0 expired=0 waiting=0\n";
    serve_and_audit(rt, alloc, link, service, &[], verdict)?;
    check_received(rt, &mut peer, RESPONSES);
    Ok(())
}

fn check_active<R: Abort + Clock + Net>(
    rt: &R,
    alloc: Global,
    service: &Service<'_>,
    listener: R::Listener,
) -> Result<(), AllocError> {
    let link = match connected(rt, service, None, Once) {
        Ok(link) => link,
        Err(error) => return failed(rt, is_memory(error), "the endpoint connects"),
    };
    let Ok((mut peer, _)) = listener.accept() else {
        assert_so(rt, false, "the peer accepts");
        return Ok(());
    };
    assert_so(rt, peer.write_all(SELECT_RSP).is_ok(), "the peer sends");
    let verdict = "pass entries=5 sent=2 taken=1 discarded=0 expired=0 waiting=0\n";
    serve_and_audit(rt, alloc, link, service, &[Step::Separate], verdict)?;
    check_received(rt, &mut peer, SELECTS_AND_LEAVES);
    Ok(())
}

// Lines of a log: S1F1 W, S1F2, S1F3 W, S1F0, and a primary without W.
const LINES: [&[u8]; 6] = [
    b"0 > 00008101000000000002",
    b"0 < 00000102000000000002",
    b"1 > 00008103000000000003",
    b"1 < 00000100000000000003",
    b"2 > 00000105000000000004",
    b"3 down",
];

#[test]
fn aborted_primaries_are_not_answered(rt: HostRuntime) -> Result<(), AllocError> {
    let mut counts = AnswerCounts::default();
    let mut octets = Vec::new(rt.alloc());
    for line in &LINES[..2] {
        counts.count_line(line, &mut octets)?;
    }
    assert_so(&rt, counts.is_complete(), "the primary is answered");
    for line in &LINES[2..] {
        counts.count_line(line, &mut octets)?;
    }
    assert_so(
        &rt,
        counts.asked == 2 && counts.answered == 1,
        "function 0 answers nothing",
    );
    Ok(())
}

#[test]
fn comments_are_read_as_spaces(rt: HostRuntime) -> Result<(), AllocError> {
    let script = b"# \"\nS1F1 W <A \"#\"># S1F3 .\n.";
    let read = without_comments(Vec::from_slice(rt.alloc(), script)?);
    let wanted = b"   \nS1F1 W <A \"#\">        \n.";
    assert_so(
        &rt,
        read.as_slice() == wanted.as_slice(),
        "comments are spaces",
    );
    Ok(())
}

#[test]
fn equipment_is_selected_tested_and_left(rt: HostRuntime) -> Result<(), AllocError> {
    let alloc = rt.alloc();
    let words = words_for(alloc, "equipment", "passive", free_port(&rt).unwrap_or(0))?;
    match &parse(alloc, &words) {
        Ok(
            CommandLine {
                request: Request::Serve(service),
                ..
            },
        ) => check_passive(&rt, alloc, service),
        Err(ToolFault::Memory) => Err(AllocError),
        _ => failed(&rt, false, "the command line asks for a service"),
    }
}

#[test]
fn host_selects_and_leaves(rt: HostRuntime) -> Result<(), AllocError> {
    let alloc = rt.alloc();
    let Ok(listener) = TcpListener::bind(&rt, (HERE, 0)) else {
        assert_so(&rt, false, "a port is free");
        return Ok(());
    };
    let port = listener.local_addr().map_or(0, |address| address.port());
    let words = words_for(alloc, "host", "active", port)?;
    match &parse(alloc, &words) {
        Ok(
            CommandLine {
                request: Request::Serve(service),
                ..
            },
        ) => check_active(&rt, alloc, service, listener),
        Err(ToolFault::Memory) => Err(AllocError),
        _ => failed(&rt, false, "the command line asks for a service"),
    }
}
