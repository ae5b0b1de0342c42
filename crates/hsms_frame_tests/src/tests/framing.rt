use super::{DATA, LONG, SELECT, assert_octets, assert_so};
use hsms_frame::{Frame, FrameFault, Framer, Header, encode_frame};
use std::alloc::Global;
use std::process::Abort;

// Asserts that an allocation failed, and the framer is unchanged.
fn assert_as_before(rt: &impl Abort, framer: &Framer, fault: FrameFault, before: &[u8]) {
    assert_so(rt, fault == FrameFault::Memory, "out of memory");
    assert_octets(rt, framer.pending(), before);
}

fn assert_empty(rt: &impl Abort, framer: &Framer) {
    assert_so(rt, framer.pending().is_empty(), "nothing is pending");
}

// Pushes bytes. If an allocation fails, the framer is unchanged, and a retry succeeds.
fn push(
    rt: &impl Abort,
    alloc: Global,
    framer: &mut Framer,
    octets: &[u8],
) -> Result<(), FrameFault> {
    let before = Vec::from_slice(alloc, framer.pending())?;
    if let Err(fault) = framer.push(octets) {
        assert_as_before(rt, framer, fault, &before);
        framer.push(octets)?;
    }
    Ok(())
}

// Removes the message at the front. If an allocation fails, the framer is unchanged, and a retry succeeds.
fn next(rt: &impl Abort, alloc: Global, framer: &mut Framer) -> Result<Option<Frame>, FrameFault> {
    let before = Vec::from_slice(alloc, framer.pending())?;
    match framer.next() {
        Ok(taken) => Ok(taken),
        Err(FrameFault::Memory) => {
            assert_as_before(rt, framer, FrameFault::Memory, &before);
            framer.next()
        }
        Err(fault) => Err(fault),
    }
}

// Appends the bytes of a message.
fn add_frame(alloc: Global, frame: &Frame, given: &mut Vec<u8>) -> Result<(), FrameFault> {
    let octets = encode_frame(alloc, frame)?;
    given.extend_from_slice(&octets)?;
    Ok(())
}

// Removes the messages at the front, and appends their bytes.
fn add_frames(
    rt: &impl Abort,
    alloc: Global,
    framer: &mut Framer,
    given: &mut Vec<u8>,
) -> Result<(), FrameFault> {
    for _ in 0..4 {
        match next(rt, alloc, framer)? {
            Some(frame) => add_frame(alloc, &frame, given)?,
            None => break,
        }
    }
    Ok(())
}

// Checks that after this chunk all returned messages have these bytes.
fn check_chunk(
    rt: &impl Abort,
    alloc: Global,
    framer: &mut Framer,
    given: &mut Vec<u8>,
    piece: &[u8],
    want: &[u8],
) -> Result<(), FrameFault> {
    push(rt, alloc, framer, piece)?;
    add_frames(rt, alloc, framer, given)?;
    assert_octets(rt, given, want);
    Ok(())
}

// Pushes bytes in two chunks. Checks the bytes of the returned messages after the first chunk, and all of them after
// the second.
fn check_chunks(
    rt: &impl Abort,
    alloc: Global,
    framer: &mut Framer,
    first: &[u8],
    last: &[u8],
    before: &[u8],
    all: &[u8],
) -> Result<(), FrameFault> {
    let mut given = Vec::new(alloc);
    check_chunk(rt, alloc, framer, &mut given, first, before)?;
    check_chunk(rt, alloc, framer, &mut given, last, all)
}

fn check_cut(
    rt: &impl Abort,
    alloc: Global,
    first: &[u8],
    last: &[u8],
    before: &[u8],
    all: &[u8],
) -> Result<(), FrameFault> {
    let mut framer = Framer::new(alloc, 256);
    check_chunks(rt, alloc, &mut framer, first, last, before, all)?;
    assert_empty(rt, &framer);
    Ok(())
}

// SELECT and DATA.
const BOTH: &[u8] =
    b"\x00\x00\x00\x0a\xff\xff\x00\x00\x00\x01\x00\x00\x00\x01\x00\x00\x00\x0c\x00\x00\x81\x0d\x00\x00\x00\x00\x00\x01\x01\x00";

// Returns the bytes of the messages that are complete after this many bytes of both.
fn given_of_both(length: usize) -> &'static [u8] {
    match length {
        0..14 => b"",
        14..30 => &SELECT,
        _ => BOTH,
    }
}

#[test]
fn gives_the_same_from_any_two_pieces(rt: HostRuntime) -> Result<(), FrameFault> {
    for cut in 0..=BOTH.len() {
        let (first, last) = BOTH.split_at(cut);
        check_cut(&rt, rt.alloc(), first, last, given_of_both(cut), BOTH)?;
    }
    Ok(())
}

// Messages of each kind, with and without a text.
const MESSAGES: &[&[u8]] = &[
    b"\0\0\0\n\xff\xff\0\0\0\x01\0\0\0\x01",
    b"\0\0\0\x0c\0\0\x81\x0d\0\0\0\0\0\x01\x01\0",
    b"\0\0\0\x0b\0\0\x81\x01\0\0\0\0\0\x02@",
    b"\0\0\0\n\0\0\x81\x01\0\0\0\0\0\x02",
    b"\0\0\0\n\xff\xff\0\0\0\x02\0\0\0\x01",
    b"\0\0\0\n\0\0\0\x04\0\x07\0\0\0\x02",
    b"\0\0\0\n\xff\xff\0\0\0\x03\0\0\0\x05",
    b"\0\0\0\n\xff\xff\0\0\x01\x01\0\0\0\x05",
    b"\0\0\0\x0b\xff\xff\0\0\0\x05\0\0\0\x02\0",
    b"\0\0\0\x14\0\0\x86\x0b\0\0\0\0\0\x01\x01\x02A\x02AB\xa5\x02\x01\xff",
    b"\0\0\0\x17\0\0\x01\x0e\0\0\0\0\0\x07\x01\x02!\x01\0\x01\x02A\x01MA\x011",
    b"\0\0\0\x0e\0\0\x82\x19\0\0\0\0\0\t!\x02\x01\x02",
    b"\0\0\0\x16\0\0\t\x03\0\0\0\0\0\x01!\n\0\0\x87\x03\0\0\0\0\0\x08",
    b"\0\0\0\n\xff\xff\0\0\0\t\0\0\0\x03",
];

// The other control messages of the example sessions.
const CONTROL: &[&[u8]] = &[
    b"\0\0\0\n\xff\xff\0\0\0\x01\0\0\0\x06",
    b"\0\0\0\n\xff\xff\0\x01\0\x02\0\0\0\x06",
    b"\0\0\0\n\xff\xff\0\0\0\x05\0\0\0\0",
    b"\0\0\0\n\xff\xff\0\0\0\x05\0\0\0\x02",
    b"\0\0\0\n\xff\xff\0\0\0\x05\0\0\0\x04",
    b"\0\0\0\n\xff\xff\0\0\0\x06\0\0\0\x02",
    b"\0\0\0\n\xff\xff\0\0\0\x06\0\0\0\t",
    b"\0\0\0\n\xff\xff\0\0\0\t\0\0\0\x02",
    b"\0\0\0\n\0\0\x01\x02\0\x07\0\0\0\x02",
    b"\0\0\0\n\xff\xff\x03\x01\0\x07\0\0\0\x05",
    b"\0\0\0\n\xff\xff\x06\x03\0\x07\0\0\0\t",
];

// S1F255 and its abort, S9F9 of two primaries, S9F11, other primaries, replies and aborts.
const DATA_MESSAGES: &[&[u8]] = &[
    b"\0\0\0\n\0\0\x81\xff\0\0\0\0\0\x02",
    b"\0\0\0\n\0\0\x01\0\0\0\0\0\0\x02",
    b"\0\0\0\n\0\0\x81\x01\0\0\xff\xff\xff\xfe",
    b"\0\0\0\n\0\0\x81\x01\0\0\xff\xff\xff\xff",
    b"\0\0\0\x16\0\0\t\t\0\0\0\0\0\0!\n\0\0\x81\x01\0\0\xff\xff\xff\xfe",
    b"\0\0\0\x16\0\0\t\t\0\0\0\0\0\x01!\n\0\0\x81\x01\0\0\xff\xff\xff\xff",
    b"\0\0\0\x16\0\0\t\x0b\0\0\0\0\0\x01!\n\0\0\x81\x01\0\0\0\0\0\x05",
    b"\0\0\0\x12\0\0\x01\x02\0\0\0\0\0\x02\x01\x02A\x01AA\x01B",
    b"\0\0\0\n\0\0\x01\x02\0\0\0\0\0\x02",
    b"\0\0\0\n\0\0\x01\x02\0\0\0\0\0\x07",
    b"\0\0\0\n\0\0\x01\x02\0\0\0\0\0\0",
    b"\0\0\0\n\0\0\x81\x01\0\0\0\0\0\x03",
    b"\0\0\0\x0c\0\0\x81\x0d\0\0\0\0\0\x07\x01\0",
    b"\0\0\0\n\0\0\x81\x01\x01\0\0\0\0\x02",
    b"\0\0\0\n\0\x01\x81\x01\0\0\0\0\0\x02",
    b"\0\0\0\x0b\0\0\x81\x01\0\0\0\0\0\x03@",
    b"\0\0\0\x0e\0\0\x82\x19\0\0\0\0\0\x04A\x02AB",
    b"\0\0\0\x0e\0\0\x02\x1a\0\0\0\0\0\t!\x02\x01\x02",
    b"\0\0\0\n\0\0\x02\0\0\0\0\0\0\x04",
    b"\0\0\0\n\0\0\x87\x03\0\0\0\0\0\x08",
    b"\0\0\0\n\0\0\x07\0\0\0\0\0\0\x08",
    b"\0\0\0\x16\0\0\t\x01\0\0\0\0\0\x01!\n\0\x01\x81\x01\0\0\0\0\0\x02",
    b"\0\0\0\x16\0\0\t\x07\0\0\0\0\0\x02!\n\0\0\x81\x01\0\0\0\0\0\x03",
    b"\0\0\0\x16\0\0\t\x07\0\0\0\0\0\x03!\n\0\0\x82\x19\0\0\0\0\0\x04",
];

fn gives_each_back(rt: &impl Abort, alloc: Global, messages: &[&[u8]]) -> Result<(), FrameFault> {
    for octets in messages {
        gives_back_from_any_two_pieces(rt, alloc, octets)?;
    }
    Ok(())
}

#[test]
fn gives_each_message_from_any_two_pieces(rt: HostRuntime) -> Result<(), FrameFault> {
    gives_each_back(&rt, rt.alloc(), MESSAGES)
}

#[test]
fn gives_each_control_message_from_any_two_pieces(rt: HostRuntime) -> Result<(), FrameFault> {
    gives_each_back(&rt, rt.alloc(), CONTROL)
}

#[test]
fn gives_each_data_message_from_any_two_pieces(rt: HostRuntime) -> Result<(), FrameFault> {
    gives_each_back(&rt, rt.alloc(), DATA_MESSAGES)
}

// Returns a message of the maximum size that the framer accepts.
fn longest(alloc: Global) -> Result<Vec<u8>, FrameFault> {
    let mut octets = Vec::from_slice(alloc, b"\0\0\x01\0\0\0\x01\x01\0\0\0\0\0\x01!\xf4")?;
    octets.extend_from_slice(&[0; 244])?;
    Ok(octets)
}

// Returns a message of 32 nested lists.
fn deepest(alloc: Global) -> Result<Vec<u8>, FrameFault> {
    let mut octets = Vec::from_slice(alloc, b"\0\0\0J\0\0\x01\x01\0\0\0\0\0\x02")?;
    for _ in 0..31 {
        octets.extend_from_slice(b"\x01\x01")?;
    }
    octets.extend_from_slice(b"\x01\0")?;
    Ok(octets)
}

#[test]
fn gives_long_messages_from_any_two_pieces(rt: HostRuntime) -> Result<(), FrameFault> {
    let alloc = rt.alloc();
    gives_back_from_any_two_pieces(&rt, alloc, &longest(alloc)?)?;
    gives_back_from_any_two_pieces(&rt, alloc, &deepest(alloc)?)
}

fn gives_back_from_any_two_pieces(
    rt: &impl Abort,
    alloc: Global,
    octets: &[u8],
) -> Result<(), FrameFault> {
    for cut in 0..octets.len() {
        let (first, last) = octets.split_at(cut);
        check_cut(rt, alloc, first, last, b"", octets)?;
    }
    Ok(())
}

// A chunk, all messages that are returned after it, if they are requested, and the error that is returned then.
type Step = (&'static [u8], Option<&'static [u8]>, Option<FrameFault>);

fn fault_of(
    rt: &impl Abort,
    alloc: Global,
    framer: &mut Framer,
    given: &mut Vec<u8>,
) -> Result<Option<FrameFault>, FrameFault> {
    match add_frames(rt, alloc, framer, given) {
        Ok(()) => Ok(None),
        Err(FrameFault::Memory) => Err(FrameFault::Memory),
        Err(fault) => Ok(Some(fault)),
    }
}

fn check_one_step(
    rt: &impl Abort,
    alloc: Global,
    framer: &mut Framer,
    given: &mut Vec<u8>,
    step: &Step,
) -> Result<(), FrameFault> {
    push(rt, alloc, framer, step.0)?;
    if let Some(want) = step.1 {
        let fault = fault_of(rt, alloc, framer, given)?;
        assert_so(rt, fault == step.2, "a fault");
        assert_octets(rt, given, want);
    }
    Ok(())
}

// Checks steps that leave these bytes pending.
fn check_steps(
    rt: &impl Abort,
    alloc: Global,
    framer: &mut Framer,
    steps: &[Step],
    pending: &[u8],
) -> Result<(), FrameFault> {
    let mut given = Vec::new(alloc);
    for step in steps {
        check_one_step(rt, alloc, framer, &mut given, step)?;
    }
    assert_octets(rt, framer.pending(), pending);
    Ok(())
}

fn check_session(
    rt: &impl Abort,
    alloc: Global,
    steps: &[Step],
    pending: &[u8],
) -> Result<(), FrameFault> {
    let mut framer = Framer::new(alloc, 256);
    check_steps(rt, alloc, &mut framer, steps, pending)
}

// The bytes of DATA come one by one.
const ONE_BY_ONE: &[Step] = &[
    (b"\x00", Some(b""), None),
    (b"\x00", Some(b""), None),
    (b"\x00", Some(b""), None),
    (b"\x0c", Some(b""), None),
    (b"\x00", Some(b""), None),
    (b"\x00", Some(b""), None),
    (b"\x81", Some(b""), None),
    (b"\x0d", Some(b""), None),
    (b"\x00", Some(b""), None),
    (b"\x00", Some(b""), None),
    (b"\x00", Some(b""), None),
    (b"\x00", Some(b""), None),
    (b"\x00", Some(b""), None),
    (b"\x01", Some(b""), None),
    (b"\x01", Some(b""), None),
    (b"\x00", Some(&DATA), None),
];

#[test]
fn waits_for_the_last_octet(rt: HostRuntime) -> Result<(), FrameFault> {
    check_session(&rt, rt.alloc(), ONE_BY_ONE, b"")
}

const TOO_SHORT: &[Step] = &[
    (b"\0\0\0", Some(b""), None),
    (b"\x09", Some(b""), Some(FrameFault::TooShort { length: 9 })),
];

// The bytes of LONG come one by one.
const TOO_LONG: &[Step] = &[
    (b"\x00", Some(b""), None),
    (b"\x00", Some(b""), None),
    (b"\x01", Some(b""), None),
    (b"\x01", Some(b""), None),
    (b"\x00", Some(b""), None),
    (b"\x00", Some(b""), None),
    (b"\x81", Some(b""), None),
    (b"\x01", Some(b""), None),
    (b"\x00", Some(b""), None),
    (b"\x00", Some(b""), None),
    (b"\x00", Some(b""), None),
    (b"\x00", Some(b""), None),
    (b"\x00", Some(b""), None),
    (
        b"\x02",
        Some(b""),
        Some(FrameFault::TooLong {
            length: 257,
            header: Header {
                session: 0,
                byte2: 0x81,
                byte3: 1,
                ptype: 0,
                stype: 0,
                system: 2,
            },
        }),
    ),
];

#[test]
fn returns_fault_as_soon_as_found(rt: HostRuntime) -> Result<(), FrameFault> {
    check_session(&rt, rt.alloc(), TOO_SHORT, b"\0\0\0\x09")?;
    check_session(&rt, rt.alloc(), TOO_LONG, &LONG)
}

fn push_thousand(framer: &mut Framer) -> Result<(), FrameFault> {
    for _ in 0..1000 {
        framer.push(&SELECT)?;
    }
    Ok(())
}

fn assert_thousand(rt: &impl Abort, framer: &mut Framer) {
    for _ in 0..1000 {
        assert_so(rt, matches!(framer.next(), Ok(Some(_))), "a message");
    }
    assert_empty(rt, framer);
    assert_so(rt, matches!(framer.next(), Ok(None)), "no message");
}

#[test]
fn gives_each_of_a_thousand_once(rt: HostRuntime) -> Result<(), FrameFault> {
    let mut framer = Framer::new(rt.alloc(), 256);
    push_thousand(&mut framer)?;
    assert_thousand(&rt, &mut framer);
    Ok(())
}

// Two messages come in two chunks, and are requested after both.
const TWO: &[Step] = &[(&SELECT, None, None), (&DATA, Some(BOTH), None)];

#[test]
fn returns_text_after_bare_header(rt: HostRuntime) -> Result<(), FrameFault> {
    check_session(&rt, rt.alloc(), TWO, b"")
}
