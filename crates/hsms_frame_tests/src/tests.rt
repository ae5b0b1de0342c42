mod failing;
mod framing;
mod reading_ahead;
mod writing;

use hsms_frame::{
    Feed, Header, Kind, ReadFault, Reader, Sink, Store, Writer, front, give_all, kind, read_frame,
};
use std::alloc::{AllocError, Global};
use std::fmt::Debug;
use std::io::Write;
use std::process::Abort;

const SELECT: [u8; 14] = *b"\x00\x00\x00\x0a\xff\xff\x00\x00\x00\x01\x00\x00\x00\x01";

const DATA: [u8; 16] = *b"\x00\x00\x00\x0c\x00\x00\x81\x0d\x00\x00\x00\x00\x00\x01\x01\x00";

const LONG: [u8; 14] = *b"\x00\x00\x01\x01\x00\x00\x81\x01\x00\x00\x00\x00\x00\x02";

const LONGEST: [u8; 15] = *b"\xff\xff\xff\xff\xff\xff\x00\x00\x00\x01\x00\x00\x00\x01\x00";

const REPORT: [u8; 24] = *b"\0\0\0\x14\0\0\x86\x0b\0\0\0\0\0\x01\x01\x02A\x02AB\xa5\x02\x01\xff";

// An assertion is in a function of its own, because its proof there takes a tenth of the time. Values are compared as
// their Debug text: it contains all of a value, and comparing one text takes less time than comparing its parts. A
// constant is followed through the function that names it, so another function iterates over a table.

fn assert_so(rt: &impl Abort, is_so: bool, what: &str) {
    assert!(rt; is_so, "{what}");
}

fn assert_octets(rt: &impl Abort, octets: &[u8], want: &[u8]) {
    assert_so(rt, octets == want, "octets");
}

fn assert_kind(rt: &impl Abort, header: Header, want: Kind) {
    assert_so(rt, kind(header) == want, "a kind");
}

// Asserts that Debug writes a value like this.
fn assert_named<T: Debug>(
    rt: &impl Abort,
    alloc: Global,
    value: &T,
    want: &str,
) -> Result<(), AllocError> {
    let name = format!(in alloc; "{value:?}")?;
    assert_so(rt, name.as_str() == want, want);
    Ok(())
}

// Checks what a message is read as, and how many bytes are left. Propagates a failed allocation.
fn check_source(
    rt: &impl Abort,
    alloc: Global,
    source: &mut Feed,
    want: &str,
) -> Result<(), AllocError> {
    match read_frame(alloc, source, 256) {
        Err(ReadFault::Memory) => Err(AllocError),
        read => assert_named(rt, alloc, &(read, source.left().len()), want),
    }
}

fn check_read(rt: &impl Abort, alloc: Global, octets: &[u8], want: &str) -> Result<(), AllocError> {
    let mut source = Feed::new(Vec::from_slice(alloc, octets)?, 5, u64::MAX);
    check_source(rt, alloc, &mut source, want)
}

// What is read from bytes, and how many of them are left: one message of two, no message, a text, and each error.
const READ: &[(&[u8], &str)] = &[
    (
        b"\x00\x00\x00\x0a\xff\xff\x00\x00\x00\x01\x00\x00\x00\x01\x00\x00\x00\x0c\x00\x00\x81\x0d\x00\x00\x00\x00\x00\x01\x01\x00",
        "(Ok(Some(Frame { header: Header { session: 65535, byte2: 0, byte3: 0, ptype: 0, stype: 1, system: 1 }, text: [] })), 16)",
    ),
    (b"", "(Ok(None), 0)"),
    (
        &DATA,
        "(Ok(Some(Frame { header: Header { session: 0, byte2: 129, byte3: 13, ptype: 0, stype: 0, system: 1 }, text: [1, 0] })), 0)",
    ),
    (
        b"\x00\x00\x01\x01\x00\x00\x81\x01\x00\x00\x00\x00\x00",
        "(Err(CutOff), 0)",
    ),
    (b"\x00\x00\x01\x01", "(Err(CutOff), 0)"),
    (b"\x00\x00\x00\x09\x07", "(Err(TooShort { length: 9 }), 1)"),
    (
        &LONG,
        "(Err(TooLong { length: 257, header: Header { session: 0, byte2: 129, byte3: 1, ptype: 0, stype: 0, system: 2 } }), 0)",
    ),
    (
        &LONGEST,
        "(Err(TooLong { length: 4294967295, header: Header { session: 65535, byte2: 0, byte3: 0, ptype: 0, stype: 1, system: 1 } }), 1)",
    ),
];

fn check_each_read(
    rt: &impl Abort,
    alloc: Global,
    rows: &[(&[u8], &str)],
) -> Result<(), AllocError> {
    for (octets, want) in rows {
        check_read(rt, alloc, octets, want)?;
    }
    Ok(())
}

#[test]
fn reads_messages_and_finds_each_fault(rt: HostRuntime) -> Result<(), AllocError> {
    check_each_read(&rt, rt.alloc(), READ)
}

fn check_cuts(rt: &impl Abort, alloc: Global, octets: &[u8]) -> Result<(), AllocError> {
    for length in 1..octets.len() {
        check_read(rt, alloc, &octets[..length], "(Err(CutOff), 0)")?;
    }
    Ok(())
}

#[test]
fn finds_each_cut(rt: HostRuntime) -> Result<(), AllocError> {
    check_cuts(&rt, rt.alloc(), &REPORT)?;
    check_cuts(&rt, rt.alloc(), &DATA)?;
    check_cuts(&rt, rt.alloc(), &SELECT)
}

// The message at the start of this many bytes of DATA, with this limit. Its text has two bytes.
const FRONTS: &[(usize, u32, &str)] = &[
    (
        16,
        256,
        "Ok(Some((Header { session: 0, byte2: 129, byte3: 13, ptype: 0, stype: 0, system: 1 }, 2)))",
    ),
    (
        16,
        12,
        "Ok(Some((Header { session: 0, byte2: 129, byte3: 13, ptype: 0, stype: 0, system: 1 }, 2)))",
    ),
    (15, 256, "Ok(None)"),
    (
        16,
        11,
        "Err(TooLong { length: 12, header: Header { session: 0, byte2: 129, byte3: 13, ptype: 0, stype: 0, system: 1 } })",
    ),
];

fn check_prefixes(
    rt: &impl Abort,
    alloc: Global,
    octets: &[u8],
    fronts: &[(usize, u32, &str)],
) -> Result<(), AllocError> {
    for (length, max, want) in fronts {
        let front = front(octets.get(..*length).unwrap_or(b""), *max);
        assert_named(rt, alloc, &front, want)?;
    }
    Ok(())
}

#[test]
fn finds_a_message_at_the_front(rt: HostRuntime) -> Result<(), AllocError> {
    check_prefixes(&rt, rt.alloc(), &DATA, FRONTS)
}

// Checks that the header of DATA is that of S1F13 W, and has its bytes.
#[test]
fn has_a_header(rt: HostRuntime) {
    let octets = *b"\x00\x00\x81\x0d\x00\x00\x00\x00\x00\x01";
    let header = Header::of(octets);
    let is_s1f13 = header.stream() == 1 && header.function() == 13;
    assert_so(&rt, is_s1f13 && header.wait(), "S1F13 W");
    assert_so(&rt, header.octets() == octets, "octets");
}

fn assert_gives<W: Sink>(rt: &impl Abort, sink: &mut W, is_well: bool) {
    assert_so(
        rt,
        give_all(sink, &DATA).is_ok() == is_well,
        "what is given",
    );
}

fn check_reader(
    rt: &impl Abort,
    alloc: Global,
    octets: &[u8],
    want: Kind,
) -> Result<(), ReadFault> {
    let mut source = Reader::new(octets);
    match read_frame(alloc, &mut source, 256)? {
        Some(frame) => assert_kind(rt, frame.header, want),
        None => assert_so(rt, false, "a message"),
    }
    Ok(())
}

fn assert_flushes<W: Write>(rt: &impl Abort, sink: &mut Writer<W>) {
    assert_gives(rt, sink, true);
    assert_so(rt, sink.flush().is_ok(), "a flush");
}

fn check_writer(rt: &impl Abort, alloc: Global) -> Result<(), AllocError> {
    let mut sink = Writer::new(Vec::with_capacity(alloc, 16)?);
    assert_flushes(rt, &mut sink);
    Ok(())
}

fn assert_stores(rt: &impl Abort, store: &mut Store) {
    assert_gives(rt, store, true);
    assert_octets(rt, store.written(), &DATA);
    assert_gives(rt, store, false);
}

fn check_store(rt: &impl Abort, alloc: Global) -> Result<(), AllocError> {
    let mut store = Store::new(vec![in alloc; 0u8; 16]?, 3, 6);
    assert_stores(rt, &mut store);
    Ok(())
}

#[test]
fn moves_octets_through_std(rt: HostRuntime) -> Result<(), ReadFault> {
    check_reader(&rt, rt.alloc(), &SELECT, Kind::SelectReq)?;
    check_reader(&rt, rt.alloc(), &DATA, Kind::Primary)?;
    check_writer(&rt, rt.alloc())?;
    check_store(&rt, rt.alloc())?;
    Ok(())
}

fn check_refused(rt: &impl Abort, alloc: Global, source: &mut Feed) {
    match read_frame(alloc, source, 256) {
        Ok(Some(frame)) => assert_octets(rt, &frame.text, &DATA[14..]),
        Err(ReadFault::Memory) => assert_octets(rt, source.left(), &DATA[14..]),
        _ => assert_so(rt, false, "the message, or out of memory"),
    }
}

// If the allocation of its own input fails, this test checks nothing.
#[test]
fn refused_text(rt: HostRuntime) {
    if let Ok(octets) = Vec::from_slice(rt.alloc(), &DATA) {
        let mut source = Feed::new(octets, 5, u64::MAX);
        check_refused(&rt, rt.alloc(), &mut source);
    }
}
