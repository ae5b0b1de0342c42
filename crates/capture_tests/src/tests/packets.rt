//! Files and packets with literal bytes, each with what its format says of them.

mod blocks;
mod kinds;

use super::{assert_named, assert_so};
use capture_pcap::{
    Address, CaptureFault, Front, Opening, Reader, Record, Segment, Shown, format_of, octets_of,
    segment_of,
};
use kinds::OLD;
use std::alloc::{AllocError, Global};
use std::process::Abort;

// A SYN and a RST in pcap: raw IP, lowest byte first, microseconds.
const REFUSED: &[u8] = b"\
    \xd4\xc3\xb2\xa1\x02\x00\x04\x00\x00\x00\x00\x00\x00\x00\x00\x00\
    \x00\x00\x04\x00\x65\x00\x00\x00\x00\xf1\x53\x65\x00\x00\x00\x00\
    \x28\x00\x00\x00\x28\x00\x00\x00\x45\x00\x00\x28\x00\x00\x40\x00\
    \x40\x06\x00\x00\x0a\x00\x00\x01\x0a\x00\x00\x02\x9c\x40\x13\x88\
    \x00\x00\x03\xe8\x00\x00\x00\x00\x50\x02\xff\xff\x00\x00\x00\x00\
    \x00\xf1\x53\x65\xe8\x03\x00\x00\x28\x00\x00\x00\x28\x00\x00\x00\
    \x45\x00\x00\x28\x00\x00\x40\x00\x40\x06\x00\x00\x0a\x00\x00\x02\
    \x0a\x00\x00\x01\x13\x88\x9c\x40\x00\x00\x23\x28\x00\x00\x03\xe9\
    \x50\x14\xff\xff\x00\x00\x00\x00\
";

// A SYN and a RST in pcap, but the second packet claims too many bytes.
const DAMAGED: &[u8] = b"\
    \xd4\xc3\xb2\xa1\x02\x00\x04\x00\x00\x00\x00\x00\x00\x00\x00\x00\
    \x00\x00\x04\x00\x65\x00\x00\x00\x00\xf1\x53\x65\x00\x00\x00\x00\
    \x28\x00\x00\x00\x28\x00\x00\x00\x45\x00\x00\x28\x00\x00\x40\x00\
    \x40\x06\x00\x00\x0a\x00\x00\x01\x0a\x00\x00\x02\x9c\x40\x13\x88\
    \x00\x00\x03\xe8\x00\x00\x00\x00\x50\x02\xff\xff\x00\x00\x00\x00\
    \x00\xf1\x53\x65\xe8\x03\x00\x00\x28\x00\x00\x01\x28\x00\x00\x00\
    \x45\x00\x00\x28\x00\x00\x40\x00\x40\x06\x00\x00\x0a\x00\x00\x02\
    \x0a\x00\x00\x01\x13\x88\x9c\x40\x00\x00\x23\x28\x00\x00\x03\xe9\
    \x50\x14\xff\xff\x00\x00\x00\x00\
";

// A section of pcapng: an interface that counts nanoseconds, a custom block, and the SYN.
const SECTION: &[u8] = b"\
    \x0a\x0d\x0d\x0a\x1c\x00\x00\x00\x4d\x3c\x2b\x1a\x01\x00\x00\x00\
    \xff\xff\xff\xff\xff\xff\xff\xff\x1c\x00\x00\x00\x01\x00\x00\x00\
    \x20\x00\x00\x00\x65\x00\x00\x00\x00\x00\x00\x00\x09\x00\x01\x00\
    \x09\x00\x00\x00\x00\x00\x00\x00\x20\x00\x00\x00\xad\x0b\x00\x00\
    \x10\x00\x00\x00\x00\x00\x00\x00\x10\x00\x00\x00\x06\x00\x00\x00\
    \x48\x00\x00\x00\x00\x00\x00\x00\xfe\x9c\x97\x17\x7f\x8d\x85\x36\
    \x28\x00\x00\x00\x28\x00\x00\x00\x45\x00\x00\x28\x00\x00\x40\x00\
    \x40\x06\x00\x00\x0a\x00\x00\x01\x0a\x00\x00\x02\x9c\x40\x13\x88\
    \x00\x00\x03\xe8\x00\x00\x00\x00\x50\x02\xff\xff\x00\x00\x00\x00\
    \x48\x00\x00\x00\
";

// A packet after a VLAN tag: IPv6 with a hop-by-hop header, two bytes of TCP.
const TAGGED: &[u8] = b"\
    \x00\x00\x00\x00\x00\x00\x00\x00\x00\x00\x00\x00\x81\x00\x00\x05\
    \x86\xdd\x60\x00\x00\x00\x00\x1e\x00\x40\xfe\x80\x00\x00\x00\x00\
    \x00\x00\x00\x00\x00\x00\x00\x00\x00\x0a\xfe\x80\x00\x00\x00\x00\
    \x00\x00\x00\x00\x00\x00\x00\x00\x00\x0b\x06\x00\x01\x04\x00\x00\
    \x00\x00\x9c\x40\x13\x88\x00\x00\x03\xe9\x00\x00\x23\x29\x50\x18\
    \xff\xff\x00\x00\x00\x00\x41\x42\
";

// An Ethernet packet with padding: IPv4 with an option, the same two bytes of TCP.
const PADDED: &[u8] = b"\
    \x00\x00\x00\x00\x00\x00\x00\x00\x00\x00\x00\x00\x08\x00\x46\x00\
    \x00\x2e\x00\x00\x40\x00\x40\x06\x00\x00\x0a\x00\x00\x01\x0a\x00\
    \x00\x02\x01\x01\x01\x01\x9c\x40\x13\x88\x00\x00\x03\xe9\x00\x00\
    \x23\x29\x50\x18\xff\xff\x00\x00\x00\x00\x41\x42\x00\x00\x00\x00\
    \x00\x00\
";

// The SYN and the RST.
const SYN: Segment = Segment {
    source: Address::V4(0x0a000001),
    source_port: 40000,
    target: Address::V4(0x0a000002),
    target_port: 5000,
    number: 1000,
    acknowledged: None,
    flags: 2,
    body: 40,
    end: 40,
};

const RESET: Segment = Segment {
    source: Address::V4(0x0a000002),
    source_port: 5000,
    target: Address::V4(0x0a000001),
    target_port: 40000,
    number: 9000,
    acknowledged: Some(1001),
    flags: 4,
    body: 40,
    end: 40,
};

// The record or block at the start: which of the two packets it is, with its time, or a block, or a cut packet; and its
// size in bytes. Or the number of packets and bytes that were passed.
type Row = (&'static str, Option<u128>, usize);

const OF_PCAP: &[Row] = &[
    ("syn", Some(1_700_000_000_000), 56),
    ("reset", Some(1_700_000_000_001), 56),
    ("passed", Some(2), 136),
];

const OF_PCAPNG: &[Row] = &[
    ("block", None, 28),
    ("block", None, 32),
    ("block", None, 16),
    ("passed", Some(1), 76),
    ("syn", Some(1_700_000_000_005), 72),
    ("passed", Some(2), 148),
];

const OF_OTHER_KINDS: &[Row] = &[
    ("block", None, 28),
    ("block", None, 44),
    ("syn", Some(1_700_000_001_500), 72),
    ("cut", None, 56),
];

// A file, the size of its header in bytes, and what follows the header.
type File = (&'static [u8], usize, &'static [Row]);

const FILES: &[File] = &[
    (REFUSED, 24, OF_PCAP),
    (SECTION, 0, OF_PCAPNG),
    (OLD, 0, OF_OTHER_KINDS),
];

#[test]
fn packets_of_files(rt: std::rt::HostRuntime) -> Result<(), CaptureFault> {
    check_files(&rt, rt.alloc(), FILES)
}

fn check_files(rt: &impl Abort, alloc: Global, files: &[File]) -> Result<(), CaptureFault> {
    for (octets, header, rows) in files {
        let subsequent = octets.get(*header..).unwrap_or(b"");
        check_rows(rt, opened(alloc, octets)?, subsequent, rows)?;
    }
    Ok(())
}

fn opened(alloc: Global, octets: &[u8]) -> Result<Reader, CaptureFault> {
    match format_of(octets)? {
        Opening::Opened(format, size) => Ok(Reader::new(alloc, format, size)),
        Opening::More => Err(CaptureFault::Unknown),
    }
}

// Checks that these rows are passed, and that nothing follows them.
fn check_rows(
    rt: &impl Abort,
    mut reader: Reader,
    octets: &[u8],
    rows: &[Row],
) -> Result<(), CaptureFault> {
    let mut rest = octets;
    for row in rows {
        if row.0 == "passed" {
            assert_passed(rt, &reader, row);
        } else {
            rest = pass(rt, &mut reader, rest, row)?;
        }
    }
    assert_so(rt, rest.is_empty(), "the end");
    Ok(())
}

// Passes what this row says. Returns the bytes after it.
fn pass<'a>(
    rt: &impl Abort,
    reader: &mut Reader,
    octets: &'a [u8],
    row: &Row,
) -> Result<&'a [u8], CaptureFault> {
    let (kind, time) = found(reader, octets)?;
    let size = reader.pass(reader.front(octets)?)?;
    assert_so(rt, (kind, time, size) == *row, row.0);
    octets.get(size..).ok_or(CaptureFault::Length)
}

// Checks the number of packets and bytes that were passed.
fn assert_passed(rt: &impl Abort, reader: &Reader, row: &Row) {
    let packets = Some(u128::from(reader.packets()));
    assert_so(rt, packets == row.1, "how many packets");
    assert_so(rt, reader.place() == row.2 as u64, "the place");
}

// Returns which packet is at the start, with its time, or that it is another block.
fn found(reader: &Reader, octets: &[u8]) -> Result<(&'static str, Option<u128>), CaptureFault> {
    match reader.front(octets)? {
        Front::Packet(record) => Ok((kind_of(&record, octets_of(&record, octets)), record.time)),
        _ => Ok(("block", None)),
    }
}

// Returns which of the literal packets it is.
fn kind_of(record: &Record, held: &[u8]) -> &'static str {
    if !record.whole {
        return cut_of(record);
    }
    match segment_of(record.link, held) {
        Shown::Segment(segment) => name_of(&segment),
        _ => "no segment",
    }
}

// Returns which cut packet it is: the one without a time, of which 40 bytes are captured, or another one.
fn cut_of(record: &Record) -> &'static str {
    if record.time.is_none() && record.link == 101 && record.held == 40 {
        "cut"
    } else {
        "another cut"
    }
}

fn name_of(segment: &Segment) -> &'static str {
    if is_like(segment, &SYN) {
        "syn"
    } else if is_like(segment, &RESET) {
        "reset"
    } else {
        "another segment"
    }
}

fn is_like(segment: &Segment, other: &Segment) -> bool {
    segment.source == other.source
        && segment.source_port == other.source_port
        && segment.target == other.target
        && segment.target_port == other.target_port
        && segment.number == other.number
        && segment.acknowledged == other.acknowledged
        && segment.flags == other.flags
        && segment.body == other.body
        && segment.end == other.end
}

#[test]
fn files_that_are_none(rt: std::rt::HostRuntime) {
    let zipped = format_of(b"\x1f\x8b\x08\x00".as_slice());
    assert_so(&rt, matches!(zipped, Err(CaptureFault::Gzip)), "gzip");
    let packed = format_of(b"\x28\xb5\x2f\xfd".as_slice());
    assert_so(&rt, matches!(packed, Err(CaptureFault::Zstd)), "zstd");
    let text = format_of(b"hsms-log 1".as_slice());
    assert_so(&rt, matches!(text, Err(CaptureFault::Unknown)), "a log");
    let part = format_of(b"\x0a\x0d".as_slice());
    assert_so(&rt, matches!(part, Ok(Opening::More)), "two octets");
}

// Bytes from one offset to another, and the record or block at their start.
type Part = (&'static [u8], usize, usize, &'static str);

const OF_SECTION: &[Part] = &[
    (SECTION, 0, 27, "Ok(More)"),
    (SECTION, 76, 148, "Err(Interface)"),
    (SECTION, 2, 148, "Err(Length)"),
];

#[test]
fn what_is_damaged(rt: std::rt::HostRuntime) -> Result<(), CaptureFault> {
    let reader = opened(rt.alloc(), SECTION)?;
    check_parts(&rt, rt.alloc(), &reader, OF_SECTION).map_err(|_| CaptureFault::Memory)
}

fn check_parts(
    rt: &impl Abort,
    alloc: Global,
    reader: &Reader,
    parts: &[Part],
) -> Result<(), AllocError> {
    for (octets, from, to, want) in parts {
        let front = reader.front(octets.get(*from..*to).unwrap_or(b""));
        assert_named(rt, alloc, &front, want)?;
    }
    Ok(())
}

// A link type, a packet, the number of its captured bytes, and what it shows. The segments have the bytes 41 and 42.
type Linked = (u32, &'static [u8], usize, &'static str);

const LINKED: &[Linked] = &[
    (
        1,
        TAGGED,
        88,
        "Segment(Segment { source: V6(338288524927261089654018896841347694602), source_port: 40000, target: V6(338288524927261089654018896841347694603), target_port: 5000, number: 1001, acknowledged: Some(9001), flags: 8, body: 86, end: 88 })",
    ),
    (
        1,
        PADDED,
        66,
        "Segment(Segment { source: V4(167772161), source_port: 40000, target: V4(167772162), target_port: 5000, number: 1001, acknowledged: Some(9001), flags: 8, body: 58, end: 60 })",
    ),
    (1, PADDED, 50, "LeftOut(Cut)"),
    (147, PADDED, 50, "LeftOut(Link)"),
    (1, b"\0\0\0\0\0\0\0\0\0\0\0\0\0\0", 14, "Other"),
];

#[test]
fn segments_of_links(rt: std::rt::HostRuntime) -> Result<(), AllocError> {
    check_links(&rt, rt.alloc(), LINKED)
}

fn check_links(rt: &impl Abort, alloc: Global, rows: &[Linked]) -> Result<(), AllocError> {
    for (link, packet, length, want) in rows {
        let shown = segment_of(*link, packet.get(..*length).unwrap_or(b""));
        assert_named(rt, alloc, &shown, want)?;
    }
    Ok(())
}
