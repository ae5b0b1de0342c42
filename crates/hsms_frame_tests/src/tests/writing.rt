use super::{DATA, SELECT, assert_octets};
use hsms_frame::{
    Frame, FrameFault, Header, Store, WriteFault, data_header, encode_frame, linktest_req,
    linktest_rsp, reject_of, select_req, select_rsp, separate, write_frame,
};
use std::alloc::{AllocError, Global};
use std::process::Abort;

// The headers that are built, one after another.
const HEADERS: &[u8] = b"\
    \x00\x00\x81\x0d\x00\x00\x00\x00\x00\x01\
    \x00\x00\x01\x02\x00\x00\x00\x00\x00\x02\
    \xff\xff\x00\x00\x00\x01\x00\x00\x00\x01\
    \xff\xff\x00\x01\x00\x02\x00\x00\x00\x06\
    \xff\xff\x00\x00\x00\x05\x00\x00\x00\x00\
    \xff\xff\x00\x00\x00\x06\x00\x00\x00\x06\
    \xff\xff\x00\x00\x00\x09\x00\x00\x00\x02\
    \x00\x00\x00\x04\x00\x07\x00\x00\x00\x02\
    \x00\x00\x01\x02\x00\x07\x00\x00\x00\x02\
    \xff\xff\x03\x01\x00\x07\x00\x00\x00\x05\
";

#[test]
fn builds_each_header(rt: HostRuntime) {
    let request = Header::of(*b"\xff\xff\x00\x00\x00\x01\x00\x00\x00\x06");
    let no_select = Header::of(*b"\x00\x00\x81\x01\x00\x00\x00\x00\x00\x02");
    let no_ptype = Header::of(*b"\x00\x00\x81\x01\x01\x00\x00\x00\x00\x02");
    let no_stype = Header::of(*b"\xff\xff\x00\x00\x00\x03\x00\x00\x00\x05");
    let headers = [
        data_header(0, 1, 13, true, 1).octets(),
        data_header(0, 1, 2, false, 2).octets(),
        select_req(1).octets(),
        select_rsp(request, 1).octets(),
        linktest_req(0).octets(),
        linktest_rsp(request).octets(),
        separate(2).octets(),
        reject_of(no_select, 4).octets(),
        reject_of(no_ptype, 2).octets(),
        reject_of(no_stype, 1).octets(),
    ];
    assert_octets(&rt, headers.as_flattened(), HEADERS);
}

fn data_frame(alloc: Global) -> Result<Frame, AllocError> {
    Ok(Frame {
        header: data_header(0, 1, 13, true, 1),
        text: Vec::from_slice(alloc, &[1, 0])?,
    })
}

fn assert_writes(
    rt: &impl Abort,
    store: &mut Store,
    frame: &Frame,
    want: Result<(), WriteFault>,
    octets: &[u8],
) {
    assert!(rt; write_frame(store, frame) == want);
    assert_octets(rt, store.written(), octets);
}

// Writes a message into this much room.
fn check_writes(
    rt: &impl Abort,
    alloc: Global,
    room: usize,
    want: Result<(), WriteFault>,
    octets: &[u8],
) -> Result<(), AllocError> {
    let frame = data_frame(alloc)?;
    let mut store = Store::new(vec![in alloc; 0u8; room]?, 5, 6);
    assert_writes(rt, &mut store, &frame, want, octets);
    Ok(())
}

#[test]
fn writes_messages(rt: HostRuntime) -> Result<(), AllocError> {
    check_writes(&rt, rt.alloc(), 16, Ok(()), &DATA)?;
    check_writes(&rt, rt.alloc(), 15, Err(WriteFault::Write), &DATA[..15])
}

fn assert_encoded(rt: &impl Abort, answer: Result<Vec<u8>, FrameFault>, want: &[u8]) {
    match answer {
        Ok(octets) => assert_octets(rt, octets.as_slice(), want),
        Err(fault) => assert!(rt; fault == FrameFault::Memory),
    }
}

// If the allocation of its own input fails, this test checks nothing.
#[test]
fn refused_octets(rt: HostRuntime) {
    let alloc = rt.alloc();
    let bare = Frame {
        header: select_req(1),
        text: Vec::new(alloc),
    };
    assert_encoded(&rt, encode_frame(alloc, &bare), &SELECT);
    if let Ok(frame) = data_frame(alloc) {
        assert_encoded(&rt, encode_frame(alloc, &frame), &DATA);
    }
}
