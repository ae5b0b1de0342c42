use super::assert_so;
use hsms_frame::{Failed, Reader, Sink, Source, Writer};
use std::io;
use std::io::{ErrorKind, Read, Write};
use std::process::Abort;

// A reader and writer that fails at its first call as if interrupted, which the helpers of std would retry. Then it
// moves one byte a call.
#[derive(Drop)]
struct Flaky {
    is_well: bool,
}

impl Flaky {
    fn call(&mut self) -> io::Result<()> {
        if self.is_well {
            return Ok(());
        }
        self.is_well = true;
        Err(io::Error::from(ErrorKind::Interrupted))
    }
}

impl Read for Flaky {
    fn read(&mut self, into: &mut [u8]) -> io::Result<usize> {
        self.call()?;
        Ok(into.len().min(1))
    }
}

impl Write for Flaky {
    fn write(&mut self, from: &[u8]) -> io::Result<usize> {
        self.call()?;
        Ok(from.len().min(1))
    }

    fn flush(&mut self) -> io::Result<()> {
        self.call()
    }
}

// Asserts that the first call fails, and the second moves one byte.
fn assert_second(rt: &impl Abort, first: Result<usize, Failed>, second: Result<usize, Failed>) {
    assert_so(rt, first == Err(Failed), "the first call");
    assert_so(rt, second == Ok(1), "the second call");
}

fn check_reads(rt: &impl Abort, source: &mut Reader<Flaky>) {
    let first = source.pull(&mut [0u8; 2]);
    assert_second(rt, first, source.pull(&mut [0u8; 2]));
}

fn check_writes(rt: &impl Abort, sink: &mut Writer<Flaky>) {
    let first = sink.give(b"ab");
    assert_second(rt, first, sink.give(b"ab"));
}

fn check_flushes(rt: &impl Abort, sink: &mut Writer<Flaky>) {
    assert_so(rt, sink.flush() == Err(Failed), "the first flush");
    assert_so(rt, sink.flush() == Ok(()), "the second flush");
}

#[test]
fn returns_each_std_error_at_once(rt: HostRuntime) {
    let mut source = Reader::new(Flaky { is_well: false });
    check_reads(&rt, &mut source);
    let mut sink = Writer::new(Flaky { is_well: false });
    check_writes(&rt, &mut sink);
    let mut sink = Writer::new(Flaky { is_well: false });
    check_flushes(&rt, &mut sink);
}
