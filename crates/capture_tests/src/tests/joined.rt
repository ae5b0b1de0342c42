//! Bytes within which a session starts, and messages because of which something is assumed or skipped.

use super::assert_so;
use capture_midstream::{
    Assumption, Beginning, Requests, Session, assumed_by, begins, begins_at_end, is_from,
    octets_before, reaches,
};
use hsms_frame::{Header, data_header, linktest_req, linktest_rsp, select_req, select_rsp};
use std::alloc::AllocError;
use std::process::Abort;

const SESSION: Session = Session {
    device: 0,
    max: 1048576,
    depth: 32,
};

// A text contains a Select.req, with fourteen bytes of text after it. From its third byte on they might be data of
// 720,895 bytes. After the text come an S1F13, a Linktest.req, and the answer to it, from offset 61 on.
const MIDST: &[u8] =
    b"\x09\x09\x09\0\0\0\x0a\xff\xff\0\0\0\x01\0\0\0\x01AAAAAAAAAAAAAA\0\0\0\x0c\0\0\x81\x0d\0\0\0\0\0\x01\x01\0\0\0\0\x0a\xff\xff\0\0\0\x05\0\0\0\x02\0\0\0\x0a\xff\xff\0\0\0\x06\0\0\0\x02";

// The number of bytes, the offset where the search starts, and where a direction starts then.
const BEGINNINGS: &[(usize, usize, Beginning)] = &[
    (0, 0, Beginning::Open(0)),
    (17, 0, Beginning::Open(3)),
    (30, 0, Beginning::Open(3)),
    (31, 0, Beginning::Open(5)),
    (70, 0, Beginning::Open(5)),
    (70, 6, Beginning::Open(31)),
    (75, 31, Beginning::Sure(31)),
];

fn check_beginnings(rt: &impl Abort, octets: &[u8], rows: &[(usize, usize, Beginning)]) {
    for (length, from, want) in rows {
        let octets = octets.get(..*length).unwrap_or(b"");
        let place = begins(SESSION, octets, (*from).min(octets.len()));
        assert_so(rt, place == *want, "where it begins");
    }
}

#[test]
fn fronts_within_a_text(rt: std::rt::HostRuntime) {
    check_beginnings(&rt, MIDST, BEGINNINGS);
}

// The number of bytes, and where a direction starts at their end.
const ENDS: &[(usize, usize)] = &[(70, 31), (30, 3), (46, 46), (47, 31)];

fn check_ends(rt: &impl Abort, octets: &[u8], rows: &[(usize, usize)]) {
    for (length, want) in rows {
        let place = begins_at_end(SESSION, octets.get(..*length).unwrap_or(b""), 0);
        assert_so(rt, place == *want, "where it begins");
    }
}

#[test]
fn beginnings_at_the_end(rt: std::rt::HostRuntime) {
    check_ends(&rt, MIDST, ENDS);
}

// A segment from this sequence number on with this number of bytes, and how many of them are before the number 1000 or
// 4.
const BEFORE: &[(u32, u32, usize, usize)] = &[
    (1000, 990, 14, 10),
    (1000, 990, 4, 4),
    (1000, 1000, 14, 0),
    (4, 4294967290, 14, 10),
];

// A segment's first sequence number, its length, and whether it reaches the number 1000.
const REACHING: &[(u32, usize, bool)] = &[(990, 10, true), (990, 9, false), (1001, 14, false)];

// Whether a number is at or after the other one.
const FROM: &[(u32, u32, bool)] = &[
    (1000, 1000, true),
    (1000, 999, false),
    (4294967290, 4, true),
];

#[test]
fn segments_at_the_beginning(rt: std::rt::HostRuntime) {
    for (first, number, octets, want) in BEFORE {
        assert_so(
            &rt,
            octets_before(*first, *number, *octets) == *want,
            "octets before",
        );
    }
    for (number, octets, want) in REACHING {
        assert_so(
            &rt,
            reaches(1000, *number, *octets) == *want,
            "what reaches",
        );
    }
    for (first, number, want) in FROM {
        assert_so(&rt, is_from(*first, *number) == *want, "a number");
    }
}

// Returns the header of a data message of device 0 and stream 1.
fn data(wait: bool, function: u8, system: u32) -> Header {
    data_header(0, 1, function, wait, system)
}

// Checks what is assumed because of a header.
fn assert_assumed(rt: &impl Abort, header: Header, requests: &Requests, want: Option<Assumption>) {
    assert_so(rt, assumed_by(header, requests) == want, "what is assumed");
}

// Returns a Select.rsp to a Select.req with these system bytes.
fn selects(system: u32, status: u8) -> Header {
    select_rsp(select_req(system), status)
}

// Checks the assumptions from requests, of which none is recorded yet.
fn check_assumed(rt: &impl Abort, requests: &mut Requests) -> Result<(), AllocError> {
    assert_assumed(rt, linktest_rsp(linktest_req(5)), requests, None);
    assert_assumed(rt, data(true, 13, 5), requests, Some(Assumption::Selected));
    assert_assumed(rt, selects(5, 1), requests, Some(Assumption::Selected));
    assert_assumed(rt, selects(5, 0), requests, Some(Assumption::Asked(5)));
    requests.note(select_req(5))?;
    assert_assumed(rt, selects(5, 0), requests, Some(Assumption::Nothing));
    assert_assumed(rt, selects(6, 0), requests, Some(Assumption::Asked(6)));
    Ok(())
}

#[test]
fn infers_assumptions(rt: std::rt::HostRuntime) -> Result<(), AllocError> {
    let mut requests = Requests::new(rt.alloc());
    check_assumed(&rt, &mut requests)
}

// Checks whether a header that comes at this time is skipped, by what was captured since 1000.
fn assert_leaves_out(rt: &impl Abort, requests: &Requests, header: Header, time: u64, want: bool) {
    assert_so(
        rt,
        requests.leaves_out(header, 1000, 45000, time) == want,
        "what is left out",
    );
}

fn check_responses(rt: &impl Abort, requests: &mut Requests) -> Result<(), AllocError> {
    requests.note(linktest_req(5))?;
    assert_leaves_out(rt, requests, linktest_rsp(linktest_req(5)), 1000, false);
    assert_leaves_out(rt, requests, data(false, 14, 5), 46000, true);
    assert_leaves_out(rt, requests, data(false, 14, 5), 46001, false);
    assert_leaves_out(rt, requests, data(true, 13, 6), 1000, false);
    requests.note(data(true, 13, 5))?;
    assert_leaves_out(rt, requests, data(false, 14, 5), 1000, false);
    Ok(())
}

#[test]
fn responses_to_others(rt: std::rt::HostRuntime) -> Result<(), AllocError> {
    let mut requests = Requests::new(rt.alloc());
    check_responses(&rt, &mut requests)
}
