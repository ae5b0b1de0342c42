use super::{
    DONE, Outcome, WANT_OF_MEMORY, assert_octets, assert_so, feed_of, judge, outcome_of, store_of,
};
use cli_filters::encode_all;
use hsms_frame::Store;
use std::alloc::{AllocError, Global};
use std::process::Abort;

const NOTATION: &str = "S6F11 W <L <A \"AB\"> <U1 1 255>> .";

const FRAME: &str = "000000140000860b000000000001010241024142a50201ff\n";

// Encodes a text as lines of hexadecimal, with `max` 256 and depth 32.
fn encoded(
    alloc: Global,
    text: &str,
    system: u32,
    sink: &mut Store,
) -> Result<Outcome, AllocError> {
    let mut source = feed_of(alloc, text.as_bytes(), 7, u64::MAX)?;
    Ok(outcome_of(encode_all(alloc, &mut source, sink, 0, system, 256, 32, true)))
}

fn check_encoded(
    rt: &impl Abort,
    alloc: Global,
    text: &str,
    system: u32,
    want: &str,
    lines: &str,
) -> Result<(), AllocError> {
    let mut sink = store_of(alloc, 256, 11, u64::MAX)?;
    let outcome = encoded(alloc, text, system, &mut sink)?;
    judge(rt, outcome, &sink, want, lines.as_bytes(), text)
}

#[test]
fn encodes_messages(rt: HostRuntime) -> Result<(), AllocError> {
    let alloc = rt.alloc();
    check_encoded(&rt, alloc, NOTATION, 1, DONE, FRAME)?;
    check_encoded(
        &rt,
        alloc,
        "S1F1 W . S1F2 .",
        u32::MAX,
        DONE,
        "0000000a000081010000ffffffff\n0000000a00000102000000000000\n",
    )?;
    check_encoded(&rt, alloc, "", 1, DONE, "")?;
    check_encoded(&rt, alloc, " \n", 1, DONE, "")
}

// Checks that a text is rejected and nothing is written.
fn check_refused(rt: &impl Abort, alloc: Global, text: &str, want: &str) -> Result<(), AllocError> {
    check_encoded(rt, alloc, text, 1, want, "")
}

#[test]
fn writes_nothing_of_what_is_refused(rt: HostRuntime) -> Result<(), AllocError> {
    let alloc = rt.alloc();
    check_refused(
        &rt,
        alloc,
        "S1F1 W <U1 256> .",
        "Err(Refused(\"Number at=11\"))",
    )?;
    check_refused(
        &rt,
        alloc,
        "S1F1 . S1F1 <B [2] 0x00> .",
        "Err(Refused(\"Count at=15\"))",
    )?;
    check_refused(&rt, alloc, "S1F1", "Err(Refused(\"Syntax at=4\"))")
}

// Returns a message, and another one with `count` bytes in its item.
fn two_messages(alloc: Global, count: usize) -> Result<String, AllocError> {
    let mut text = String::from_str(alloc, "S1F1 . S1F1 <B")?;
    for _ in 0..count {
        text.push_str(" 0x00")?;
    }
    text.push_str("> .")?;
    Ok(text)
}

// The first message is valid, and the second is one byte past the limit.
#[test]
fn writes_nothing_before_all_are_encoded(rt: HostRuntime) -> Result<(), AllocError> {
    let text = two_messages(rt.alloc(), 245)?;
    check_refused(
        &rt,
        rt.alloc(),
        text.as_str(),
        "Err(Refused(\"TooLong length=257\"))",
    )
}

// Asserts the frame; or a failed allocation and no output.
fn assert_frame(rt: &impl Abort, outcome: Outcome, written: &[u8]) {
    if outcome.as_str() == DONE {
        assert_octets(rt, written, FRAME.as_bytes(), "the frame");
    } else {
        assert_so(rt, outcome.as_str() == WANT_OF_MEMORY, "out of memory");
        assert_so(rt, written.is_empty(), "nothing");
    }
}

// If the allocation of its own input fails, this test checks nothing.
#[test]
fn refused_frames(rt: HostRuntime) {
    let Ok(mut sink) = store_of(rt.alloc(), 256, 11, u64::MAX) else {
        return;
    };
    if let Ok(outcome) = encoded(rt.alloc(), NOTATION, 1, &mut sink) {
        assert_frame(&rt, outcome, sink.written());
    }
}
