//! Readers and writers that fail one call later in each run, until a run has no failure.

use super::auditing::{LOG, PASS};
use super::{
    DONE, Outcome, SELECT, WANT_OF_MEMORY, assert_octets, assert_so, feed_of, outcome_of, store_of,
};
use cli_filters::{audit_to, encode_all, show};
use cli_options::ToolFault;
use hsms_frame::{Feed, Sink, Store, Writer};
use std::alloc::{AllocError, Global};
use std::io;
use std::io::Write;
use std::process::Abort;

// More calls than any run makes.
const FUSE: u64 = 1000;

#[derive(Clone, Copy)]
enum Work {
    Show,
    Encode,
    Audit,
}

// An input and its output, and the maximum number of bytes of a read and of a write. `reads` and `writes` are the
// numbers of calls that a run then makes.
#[derive(Clone, Copy)]
struct Row {
    work: Work,
    input: &'static [u8],
    output: &'static [u8],
    read: usize,
    write: usize,
    reads: u64,
    writes: u64,
}

const SHOW: Row = Row {
    work: Work::Show,
    input: &SELECT,
    output: b"select.req ffff 00000001\n",
    read: 4096,
    write: 4096,
    reads: 2,
    writes: 1,
};

// Two messages.
const TWO: Row = Row {
    input: b"\x00\x00\x00\x0a\xff\xff\x00\x00\x00\x01\x00\x00\x00\x01\x00\x00\x00\x0a\xff\xff\x00\x00\x00\x01\x00\x00\x00\x01",
    output: b"select.req ffff 00000001\nselect.req ffff 00000001\n",
    ..SHOW
};

const ENCODE: Row = Row {
    work: Work::Encode,
    input: b"S6F11 W <L <A \"AB\"> <U1 1 255>> .",
    output: b"000000140000860b000000000001010241024142a50201ff\n",
    ..SHOW
};

const AUDIT: Row = Row {
    work: Work::Audit,
    input: LOG,
    output: PASS,
    ..SHOW
};

// Each input with all bytes, some bytes and one byte a call.
const ROWS: &[Row] = &[
    SHOW,
    Row {
        read: 1,
        write: 1,
        reads: 15,
        writes: 25,
        ..SHOW
    },
    TWO,
    Row {
        read: 14,
        write: 25,
        reads: 3,
        writes: 2,
        ..TWO
    },
    ENCODE,
    Row {
        read: 7,
        write: 11,
        reads: 6,
        writes: 5,
        ..ENCODE
    },
    Row {
        read: 1,
        write: 1,
        reads: 34,
        writes: 49,
        ..ENCODE
    },
    AUDIT,
    Row {
        read: 100,
        write: 11,
        reads: 3,
        writes: 6,
        ..AUDIT
    },
    Row {
        read: 1,
        write: 1,
        reads: 187,
        writes: 62,
        ..AUDIT
    },
];

fn worked<W: Sink>(
    alloc: Global,
    work: Work,
    source: &mut Feed,
    sink: &mut W,
) -> Result<(), ToolFault> {
    match work {
        Work::Show => show(alloc, source, sink, 1048576, 32),
        Work::Encode => encode_all(alloc, source, sink, 0, 1, 256, 32, true),
        Work::Audit => match audit_to(alloc, source, sink) {
            Ok(_) => Ok(()),
            Err(fault) => Err(fault),
        },
    }
}

const NO_READ: &str = "Err(Device(\"Read\"))";

const NO_WRITE: &str = "Err(Device(\"Write\"))";

// Returns the result of a row if each read after the first `reads` fails.
fn run(alloc: Global, row: &Row, reads: u64, sink: &mut Store) -> Result<Outcome, AllocError> {
    let mut source = feed_of(alloc, row.input, row.read.max(1), reads)?;
    Ok(outcome_of(worked(alloc, row.work, &mut source, sink)))
}

// Asserts that nothing failed, or that a read or write failed after this number of bytes of the output was written.
// Returns whether one failed, or an error if an allocation failed.
fn check_failure(
    rt: &impl Abort,
    row: &Row,
    outcome: Outcome,
    sink: &Store,
    want: &str,
    count: u64,
) -> Result<bool, AllocError> {
    let written = sink.written();
    if outcome.as_str() == WANT_OF_MEMORY {
        return Err(AllocError);
    }
    if outcome.as_str() == DONE {
        assert_octets(rt, written, row.output, want);
        return Ok(false);
    }
    assert_so(rt, outcome.as_str() == want, want);
    assert_so(rt, written.len() as u64 == count, want);
    assert_so(rt, row.output.starts_with(written), want);
    Ok(true)
}

// Runs a row in which each read after the first `reads` fails, and each write after the first `writes`. Returns whether
// one failed.
fn fails(
    rt: &impl Abort,
    alloc: Global,
    row: &Row,
    reads: u64,
    writes: u64,
    want: &str,
    count: u64,
) -> Result<bool, AllocError> {
    let mut sink = store_of(alloc, 256, row.write.max(1), writes)?;
    let outcome = run(alloc, row, reads, &mut sink)?;
    check_failure(rt, row, outcome, &sink, want, count)
}

// Returns the number of bytes written before the read after `reads` reads: the line of each message that was read.
fn written_before(row: &Row, reads: u64) -> u64 {
    let messages = reads.saturating_mul(row.read as u64) / 14;
    match row.work {
        Work::Show => messages.saturating_mul(25).min(row.output.len() as u64),
        Work::Encode | Work::Audit => 0,
    }
}

// Returns the number of reads of a run. Checks a run in which each of them fails.
fn failing_reads(rt: &impl Abort, alloc: Global, row: &Row) -> Result<u64, AllocError> {
    for reads in 0..FUSE {
        let count = written_before(row, reads);
        if !fails(rt, alloc, row, reads, u64::MAX, NO_READ, count)? {
            return Ok(reads);
        }
    }
    Ok(FUSE)
}

// Returns the number of writes of a run. Checks a run in which each of them fails.
fn failing_writes(rt: &impl Abort, alloc: Global, row: &Row) -> Result<u64, AllocError> {
    for writes in 0..FUSE {
        let count = writes.saturating_mul(row.write as u64);
        if !fails(rt, alloc, row, u64::MAX, writes, NO_WRITE, count)? {
            return Ok(writes);
        }
    }
    Ok(FUSE)
}

fn check_table_row(rt: &impl Abort, alloc: Global, row: &Row) -> Result<(), AllocError> {
    assert_so(rt, failing_reads(rt, alloc, row)? == row.reads, "reads");
    assert_so(rt, failing_writes(rt, alloc, row)? == row.writes, "writes");
    Ok(())
}

#[test]
fn returns_whether_read_or_write_failed(rt: HostRuntime) -> Result<(), AllocError> {
    for row in ROWS {
        check_table_row(&rt, rt.alloc(), row)?;
    }
    Ok(())
}

// A `std` writer that takes no bytes, and returns no error.
#[derive(Drop)]
struct Full;

impl Write for Full {
    fn write(&mut self, _from: &[u8]) -> io::Result<usize> {
        Ok(0)
    }

    fn flush(&mut self) -> io::Result<()> {
        Ok(())
    }
}

// Returns the result of a row with such a writer.
fn run_full(alloc: Global, row: &Row) -> Result<Outcome, AllocError> {
    let mut source = feed_of(alloc, row.input, 4096, u64::MAX)?;
    let mut sink = Writer::new(Full);
    Ok(outcome_of(worked(alloc, row.work, &mut source, &mut sink)))
}

fn check_full(rt: &impl Abort, alloc: Global, row: &Row) -> Result<(), AllocError> {
    let outcome = run_full(alloc, row)?;
    if outcome.as_str() == WANT_OF_MEMORY {
        return Err(AllocError);
    }
    assert_so(rt, outcome.as_str() == NO_WRITE, "a full device");
    Ok(())
}

#[test]
fn writer_that_takes_nothing_has_failed(rt: HostRuntime) -> Result<(), AllocError> {
    check_full(&rt, rt.alloc(), &SHOW)?;
    check_full(&rt, rt.alloc(), &ENCODE)?;
    check_full(&rt, rt.alloc(), &AUDIT)
}
