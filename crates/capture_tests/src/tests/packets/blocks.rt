//! Files that are read in chunks of each size.

ghost use Rattle.std.specs.Prelude.{◌<◌};

use super::super::assert_so;
use super::{DAMAGED, REFUSED, SECTION, kind_of};
use capture_pcap::{CaptureFault, FileFault, Packets, Record, Step};
use hsms_frame::Feed;
use std::alloc::Global;
use std::process::Abort;

// What a step finds: which packet, with its number, or what else; or its error.
type Found = Result<(&'static str, u64), FileFault>;

const SYN: Found = Ok(("syn", 1));

const RESET: Found = Ok(("reset", 2));

const PASSED: Found = Ok(("passed", 0));

const END: Found = Ok(("end", 0));

// At the RST there is no record.
const NO_RECORD: Found = Err(FileFault::Capture {
    place: 80,
    fault: CaptureFault::Length,
});

const NO_CAPTURE: Found = Err(FileFault::Capture {
    place: 0,
    fault: CaptureFault::Unknown,
});

// A file, the number of its bytes that are present, the chunk size, what its steps find, and the final offset; or why
// the file is not opened.
type File = (&'static [u8], usize, usize, &'static [Found], Option<u64>);

const FILES: &[File] = &[
    (REFUSED, 136, 1, &[SYN, RESET, END], Some(136)),
    (REFUSED, 136, 7, &[SYN, RESET, END], Some(136)),
    (REFUSED, 136, 65536, &[SYN, RESET, END], Some(136)),
    (
        SECTION,
        148,
        5,
        &[PASSED, PASSED, PASSED, Ok(("syn", 2)), END],
        Some(148),
    ),
    (REFUSED, 135, 64, &[SYN, Err(FileFault::CutOff)], Some(80)),
    (DAMAGED, 136, 3, &[SYN, NO_RECORD, NO_RECORD], Some(80)),
    (REFUSED, 23, 64, &[Err(FileFault::CutOff)], None),
    (b"hsms-log 1", 10, 3, &[NO_CAPTURE], None),
];

#[test]
fn files_in_pieces(rt: std::rt::HostRuntime) -> Result<(), FileFault> {
    check_files(&rt, rt.alloc(), FILES)
}

fn check_files(rt: &impl Abort, alloc: Global, files: &[File]) -> Result<(), FileFault> {
    for (octets, length, piece, expectations, place) in files {
        let octets = octets.get(..*length).unwrap_or(b"");
        let source = feed(alloc, octets, (*piece).max(1), u64::MAX)?;
        reads(rt, alloc, source, expectations, *place)?;
    }
    Ok(())
}

#[test]
fn failed_reads_lose_nothing(rt: std::rt::HostRuntime) -> Result<(), FileFault> {
    let mut broken = feed(rt.alloc(), REFUSED, 9, 5)?;
    let mut packets = Packets::open(rt.alloc(), &mut broken)?;
    can_continue(&rt, rt.alloc(), &mut packets, &mut broken)
}

// Checks that the rest is read from another source after the first one failed.
fn can_continue(
    rt: &impl Abort,
    alloc: Global,
    packets: &mut Packets,
    broken: &mut Feed,
) -> Result<(), FileFault> {
    finds(rt, packets, broken, &[Err(FileFault::Read)])?;
    let mut source = feed(alloc, broken.left(), 9, u64::MAX)?;
    finds(rt, packets, &mut source, &[SYN, RESET])
}

// Opens a file, and checks what its steps find, and the final offset. A file that is not opened has this error.
fn reads(
    rt: &impl Abort,
    alloc: Global,
    mut source: Feed,
    expectations: &[Found],
    place: Option<u64>,
) -> Result<(), FileFault> {
    match Packets::open(alloc, &mut source) {
        Ok(packets) => comes_to(rt, packets, &mut source, expectations, place),
        Err(FileFault::Memory) => Err(FileFault::Memory),
        Err(fault) => {
            let is_expected = expectations.first() == Some(&Err(fault)) && place.is_none();
            assert_so(rt, is_expected, "why it isn't opened");
            Ok(())
        }
    }
}

fn comes_to(
    rt: &impl Abort,
    mut packets: Packets,
    source: &mut Feed,
    expectations: &[Found],
    place: Option<u64>,
) -> Result<(), FileFault> {
    finds(rt, &mut packets, source, expectations)?;
    assert_so(rt, place == Some(packets.reader().place()), "the place");
    Ok(())
}

// Checks what each step finds.
fn finds(
    rt: &impl Abort,
    packets: &mut Packets,
    source: &mut Feed,
    expectations: &[Found],
) -> Result<(), FileFault> {
    for want in expectations {
        assert_so(rt, found(packets, source)? == *want, "what is found");
    }
    Ok(())
}

// Returns what the next step finds. A failed allocation is passed on.
fn found(packets: &mut Packets, source: &mut Feed) -> Result<Found, FileFault> {
    match packets.next(source) {
        Ok(Step::Packet(number, record)) => Ok(Ok((kind_in(packets, &record), number))),
        Ok(Step::Passed) => Ok(PASSED),
        Ok(Step::End) => Ok(END),
        Err(FileFault::Memory) => Err(FileFault::Memory),
        Err(fault) => Ok(Err(fault)),
    }
}

// Returns which packet was read.
fn kind_in(packets: &Packets, record: &Record) -> &'static str {
    let subsequent = packets.octets().get(record.body..).unwrap_or(b"");
    kind_of(record, subsequent.get(..record.held).unwrap_or(b""))
}

fn feed(alloc: Global, octets: &[u8], piece: usize, fuse: u64) -> Result<Feed, FileFault>
    requires { 0 < piece }
{
    Ok(Feed::new(Vec::from_slice(alloc, octets)?, piece, fuse))
}
