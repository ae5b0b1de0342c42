mod auditing;
mod connections;
mod devices;
mod encoding;
mod explaining;
mod hex_lines;

ghost use Rattle.std.specs.Prelude.{◌<◌};

use cli_filters::show;
use cli_options::ToolFault;
use hsms_frame::{Feed, Store};
use std::alloc::{AllocError, Global};
use std::fmt::InlineText;
use std::process::Abort;

const SELECT: [u8; 14] = *b"\x00\x00\x00\x0a\xff\xff\x00\x00\x00\x01\x00\x00\x00\x01";

// The result of a run, as `Debug` text. The output is read from the store to which it was written. So little is owned
// when both are checked. The only error that a test returns is a failed allocation: with a test error, which holds a
// text, the check takes several times as long.
type Outcome = InlineText<96>;

const DONE: &str = "Ok(())";

const WANT_OF_MEMORY: &str = "Err(Memory)";

fn outcome_of(answer: Result<(), ToolFault>) -> Outcome {
    InlineText::of(format_args!("{answer:?}"))
}

// Creates a store with a capacity of `room` bytes. It takes at most `piece` bytes a call, and fails after `fuse` calls.
fn store_of(alloc: Global, room: usize, piece: usize, fuse: u64) -> Result<Store, AllocError>
    requires { 0 < piece }
{
    Ok(Store::new(vec![in alloc; 0u8; room]?, piece, fuse))
}

// Creates an input that returns at most `piece` bytes a call, and fails after `fuse` calls.
fn feed_of(alloc: Global, input: &[u8], piece: usize, fuse: u64) -> Result<Feed, AllocError>
    requires { 0 < piece }
{
    Ok(Feed::new(Vec::from_slice(alloc, input)?, piece, fuse))
}

fn shown(
    alloc: Global,
    octets: &[u8],
    piece: usize,
    sink: &mut Store,
) -> Result<Outcome, AllocError>
    requires { 0 < piece }
{
    let mut source = feed_of(alloc, octets, piece, u64::MAX)?;
    Ok(outcome_of(show(alloc, &mut source, sink, 1048576, 32)))
}

// An assertion is in a function of its own, because it is proved in a tenth of the time there.

fn assert_so(rt: &impl Abort, is_so: bool, name: &str) {
    assert!(rt; is_so, "{name}");
}

fn assert_octets(rt: &impl Abort, octets: &[u8], want: &[u8], name: &str) {
    assert_so(rt, octets == want, name);
}

// Asserts this result of a run and this output. Returns an error if an allocation failed.
fn judge(
    rt: &impl Abort,
    outcome: Outcome,
    sink: &Store,
    want: &str,
    written: &[u8],
    name: &str,
) -> Result<(), AllocError> {
    if outcome.as_str() == WANT_OF_MEMORY {
        return Err(AllocError);
    }
    assert_so(rt, outcome.as_str() == want, name);
    assert_octets(rt, sink.written(), written, name);
    Ok(())
}

fn check_shown(
    rt: &impl Abort,
    alloc: Global,
    octets: &[u8],
    piece: usize,
    want: &str,
    lines: &str,
) -> Result<(), AllocError>
    requires { 0 < piece }
{
    let mut sink = store_of(alloc, 256, piece, u64::MAX)?;
    let outcome = shown(alloc, octets, piece, &mut sink)?;
    judge(rt, outcome, &sink, want, lines.as_bytes(), lines)
}

// Messages and their lines.
const KINDS: &[(&[u8], &str)] = &[
    (&SELECT, "select.req ffff 00000001\n"),
    (
        b"\x00\x00\x00\x0c\x00\x00\x81\x0d\x00\x00\x00\x00\x00\x01\x01\x00",
        "data 0000 00000001 S1F13 W <L [0]> .\n",
    ),
    (
        b"\x00\x00\x00\x0a\x00\x00\x81\x01\x00\x00\x00\x00\x00\x02",
        "data 0000 00000002 S1F1 W .\n",
    ),
    (
        b"\x00\x00\x00\x0b\x00\x00\x81\x01\x00\x00\x00\x00\x00\x02\x40",
        "data 0000 00000002 S1F1 W ! 40\n",
    ),
    (
        b"\x00\x00\x00\x0a\xff\xff\x00\x00\x00\x02\x00\x00\x00\x01",
        "select.rsp ffff 00000001 0\n",
    ),
    (
        b"\x00\x00\x00\x0a\x00\x00\x00\x04\x00\x07\x00\x00\x00\x02",
        "reject 0000 00000002 0 4\n",
    ),
    (
        b"\x00\x00\x00\x0a\xff\xff\x00\x00\x00\x03\x00\x00\x00\x05",
        "other-stype ffff 00000005 3\n",
    ),
    (
        b"\x00\x00\x00\x0a\xff\xff\x00\x00\x01\x01\x00\x00\x00\x05",
        "other-ptype ffff 00000005 1\n",
    ),
    (
        b"\x00\x00\x00\x0b\xff\xff\x00\x00\x00\x05\x00\x00\x00\x02\x00",
        "linktest.req ffff 00000002 ! 00\n",
    ),
];

// Checks that a message is shown with one byte, three bytes and all bytes a call.
fn check_kind(rt: &impl Abort, alloc: Global, octets: &[u8], line: &str) -> Result<(), AllocError> {
    check_shown(rt, alloc, octets, 1, DONE, line)?;
    check_shown(rt, alloc, octets, 3, DONE, line)?;
    check_shown(rt, alloc, octets, 4096, DONE, line)
}

#[test]
fn shows_each_kind(rt: HostRuntime) -> Result<(), AllocError> {
    for (octets, line) in KINDS {
        check_kind(&rt, rt.alloc(), octets, line)?;
    }
    Ok(())
}

const TOO_SHORT: &str = "Err(Refused(\"TooShort length=9\"))";

// A message, and half of a length.
const CUT_OFF: &[u8] = b"\x00\x00\x00\x0a\xff\xff\x00\x00\x00\x01\x00\x00\x00\x01\x00\x00";

#[test]
fn refuses_what_is_no_message(rt: HostRuntime) -> Result<(), AllocError> {
    let alloc = rt.alloc();
    check_shown(&rt, alloc, &[0, 0, 0, 9], 4096, TOO_SHORT, "")?;
    check_shown(
        &rt,
        alloc,
        CUT_OFF,
        1,
        "Err(Refused(\"CutOff\"))",
        "select.req ffff 00000001\n",
    )
}

// Two messages, and a length that is too small.
const TWO: &[u8] = b"\x00\x00\x00\x0a\xff\xff\x00\x00\x00\x01\x00\x00\x00\x01\
    \x00\x00\x00\x0c\x00\x00\x81\x0d\x00\x00\x00\x00\x00\x01\x01\x00\x00\x00\x00\x09";

const TWO_LINES: &str = "select.req ffff 00000001\ndata 0000 00000001 S1F13 W <L [0]> .\n";

// Asserts the error and each line; or a failed allocation and complete lines.
fn assert_lines(rt: &impl Abort, outcome: Outcome, written: &[u8]) {
    if outcome.as_str() == TOO_SHORT {
        assert_octets(rt, written, TWO_LINES.as_bytes(), "each line");
    } else {
        let count = written.len();
        assert_so(rt, outcome.as_str() == WANT_OF_MEMORY, "out of memory");
        assert_so(rt, count == 0 || count == 25 || count == 62, "a line");
        assert_so(rt, TWO_LINES.as_bytes().starts_with(written), "whole lines");
    }
}

// If the allocation of its own input fails, this test checks nothing.
#[test]
fn refused_lines(rt: HostRuntime) {
    let Ok(mut sink) = store_of(rt.alloc(), 256, 4096, u64::MAX) else {
        return;
    };
    if let Ok(outcome) = shown(rt.alloc(), TWO, 4096, &mut sink) {
        assert_lines(&rt, outcome, sink.written());
    }
}
