//! Blocks of the other kinds, and maximum numbers.

use super::super::assert_so;
use super::{Part, check_parts};
use capture_pcap::{CaptureFault, Format, Front, Interface, Order, Reader};
use std::alloc::{AllocError, Global};
use std::process::Abort;

// A section of pcapng. Its interface counts 1,024 ticks a second from 1,700,000,000 seconds on, and captures 40 bytes
// of a packet. An old packet block has the SYN and drops before it. A simple block has a prefix of a longer packet.
pub const OLD: &[u8] = b"\
    \x0a\x0d\x0d\x0a\x1c\x00\x00\x00\x4d\x3c\x2b\x1a\x01\x00\x00\x00\
    \xff\xff\xff\xff\xff\xff\xff\xff\x1c\x00\x00\x00\x01\x00\x00\x00\
    \x2c\x00\x00\x00\x65\x00\x00\x00\x28\x00\x00\x00\x09\x00\x01\x00\
    \x8a\x00\x00\x00\x0e\x00\x08\x00\x00\xf1\x53\x65\x00\x00\x00\x00\
    \x00\x00\x00\x00\x2c\x00\x00\x00\x02\x00\x00\x00\x48\x00\x00\x00\
    \x00\x00\x07\x00\x00\x00\x00\x00\x00\x06\x00\x00\x28\x00\x00\x00\
    \x28\x00\x00\x00\x45\x00\x00\x28\x00\x00\x40\x00\x40\x06\x00\x00\
    \x0a\x00\x00\x01\x0a\x00\x00\x02\x9c\x40\x13\x88\x00\x00\x03\xe8\
    \x00\x00\x00\x00\x50\x02\xff\xff\x00\x00\x00\x00\x48\x00\x00\x00\
    \x03\x00\x00\x00\x38\x00\x00\x00\x3c\x00\x00\x00\x45\x00\x00\x28\
    \x00\x00\x40\x00\x40\x06\x00\x00\x0a\x00\x00\x01\x0a\x00\x00\x02\
    \x9c\x40\x13\x88\x00\x00\x03\xe8\x00\x00\x00\x00\x50\x02\xff\xff\
    \x00\x00\x00\x00\x38\x00\x00\x00\
";

// The header of a pcapng block, and nothing else of it.
const LONG_BLOCK: &[u8] = b"\x06\x00\x00\x00\x00\x00\x00\x01\x00\x00\x00\x00";

const TOO_LONG_BLOCK: &[u8] = b"\x06\x00\x00\x00\x04\x00\x00\x01\x00\x00\x00\x00";

// The header of a pcap record, and nothing else of it.
const LONG_RECORD: &[u8] = b"\x00\x00\x00\x00\x00\x00\x00\x00\x00\x00\x00\x01\x00\x00\x00\x01";

const TOO_LONG_RECORD: &[u8] = b"\x00\x00\x00\x00\x00\x00\x00\x00\x01\x00\x00\x01\x01\x00\x00\x01";

const BLOCKS: Format = Format::Pcapng {
    order: Order::Little,
};

const RECORDS: Format = Format::Pcap {
    order: Order::Little,
    parts: 1000,
    link: 101,
};

const OF_BLOCKS: &[Part] = &[
    (LONG_BLOCK, 0, 12, "Ok(More)"),
    (TOO_LONG_BLOCK, 0, 12, "Err(Length)"),
];

const OF_RECORDS: &[Part] = &[
    (LONG_RECORD, 0, 16, "Ok(More)"),
    (TOO_LONG_RECORD, 0, 16, "Err(Length)"),
];

#[test]
fn the_longest_of_each(rt: std::rt::HostRuntime) -> Result<(), AllocError> {
    let blocks = Reader::new(rt.alloc(), BLOCKS, 0);
    check_parts(&rt, rt.alloc(), &blocks, OF_BLOCKS)?;
    let records = Reader::new(rt.alloc(), RECORDS, 0);
    check_parts(&rt, rt.alloc(), &records, OF_RECORDS)
}

// A resolution, and the time of the old block after an interface with this resolution, or its error.
type Resolved = (u8, Result<Option<u128>, CaptureFault>);

const RESOLUTIONS: &[Resolved] = &[
    (0x13, Ok(Some(1_700_000_000_000))),
    (0x14, Err(CaptureFault::Resolution)),
    (0x7f, Err(CaptureFault::Resolution)),
    (0x80, Ok(Some(1_700_001_536_000))),
    (0xbf, Ok(Some(1_700_000_000_000))),
    (0xc0, Err(CaptureFault::Resolution)),
];

#[test]
fn resolutions(rt: std::rt::HostRuntime) -> Result<(), CaptureFault> {
    check_resolutions(&rt, rt.alloc(), OLD, RESOLUTIONS)
}

fn check_resolutions(
    rt: &impl Abort,
    alloc: Global,
    octets: &[u8],
    rows: &[Resolved],
) -> Result<(), CaptureFault> {
    let old = octets.get(72..).unwrap_or(b"");
    for (resolution, want) in rows {
        let reader = described(alloc, *resolution)?;
        assert_so(rt, time_of(&reader, old) == *want, "a time");
    }
    Ok(())
}

// Returns a reader after an interface with this resolution.
fn described(alloc: Global, resolution: u8) -> Result<Reader, CaptureFault> {
    let mut reader = Reader::new(alloc, BLOCKS, 0);
    let interface = Interface {
        link: 101,
        snap: 0,
        resolution,
        offset: 1_700_000_000,
    };
    reader.pass(Front::Described(interface, 0))?;
    Ok(reader)
}

// Returns the time of a packet, or its error.
fn time_of(reader: &Reader, octets: &[u8]) -> Result<Option<u128>, CaptureFault> {
    match reader.front(octets)? {
        Front::Packet(record) => Ok(record.time),
        _ => Ok(None),
    }
}
