//! `hsms capture` of several files, as those of a ring buffer.

use crate::input::{Opened, STANDARD, check_named_once, check_standard, open_input};
use crate::painter::Painting;
use crate::presentation::Console;
use capture_errors::{CaptureError, Rejection, Shortfall};
use capture_pcap::FileFault;
use capture_series::{FailedPart, NextPart, Part, PartStart, Parts, Series};
use capture_unjudged::{Unjudged, emit_unjudged};
use cli_advice::Failure;
use cli_capture::capture_to;
use cli_options::{Capturing, ToolFault, exit_status};
use cli_reports::ObjectLines;
use hsms_frame::{Reader, Sink, Writer, give_all};
use std::alloc::{AllocError, Global};
use std::fs::Files;

/// A file of the command line.
#[derive(Drop)]
struct CaptureFile<'n, I> {
    name: &'n str,
    // The time of its first packet.
    time: Option<u128>,
    // What opening it gave, if it is not opened again.
    part: Option<Result<Part<I>, FileFault>>,
}

/// Files in the order of their first packets. Regular files are opened again.
#[derive(Drop)]
struct CaptureFiles<'a, 'n, R: Files + Input> {
    alloc: Global,
    rt: &'a R,
    files: Vec<CaptureFile<'n, Opened<R::Reader, R::File>>>,
    next: usize,
}

impl<'a, 'n, R: Files + Input> Parts<'n> for CaptureFiles<'a, 'n, R> {
    type Input = Opened<R::Reader, R::File>;

    fn next_part(&mut self) -> Option<NextPart<'n, Opened<R::Reader, R::File>>> {
        let file = self.files.get_mut(self.next)?;
        self.next = self.next.saturating_add(1);
        let name = file.name;
        let part = match file.part.take() {
            Some(part) => part,
            None => opened_again(self.alloc, self.rt, name),
        };
        Some(NextPart { name, part })
    }
}

/// Reads capture files as one capture, in the order of their first packets. After the verdicts or the log it writes the
/// number of each file's first packet. Returns the status.
///
/// # Errors
///
/// Returns the error of an invalid command line if standard input is named twice, that of a file that cannot be opened
/// or is not a capture, before anything is judged, or that of `hsms capture` on the capture.
pub fn capture_files<R: Eprint + Files + Input + Print>(
    alloc: Global,
    rt: &R,
    options: Capturing,
    names: &[&str],
    has_port: bool,
    console: &Console,
) -> Result<u8, Failure> {
    check_named_once(alloc, names, console.is_verbose)?;
    check_standard(rt, names)?;
    let files = in_order(alloc, rt, names, console.is_verbose)?;
    let parts = CaptureFiles {
        alloc,
        rt,
        files,
        next: 0,
    };
    let mut series = Series::new(alloc, parts)?;
    let painting = capture_painting(&options);
    let mut sink = Writer::new(console.output(alloc, rt, painting));
    let done = series_by(alloc, options, &mut series, &mut sink, has_port);
    match done {
        Ok(well) => Ok(exit_status(&Ok(well))),
        Err(error) => {
            let named = named_by(error, series.failed());
            Err(Failure::from(error).of_file(alloc, named))
        }
    }
}

/// Returns which lines of the verdicts on a capture are in colors. A log and JSON have none.
pub fn capture_painting(options: &Capturing) -> Painting {
    if options.log.is_none() && !options.json {
        return Painting::Verdicts;
    }
    Painting::Nothing
}

// Reads files as one capture, and writes its verdicts or a log in the requested format.
fn series_by<'n, P: Parts<'n> + Drop, W: Sink>(
    alloc: Global,
    options: Capturing,
    series: &mut Series<'n, P>,
    sink: &mut W,
    has_port: bool,
) -> Result<bool, CaptureError> {
    if !options.json {
        return series_lines(alloc, options, series, sink, has_port);
    }
    let mut objects = ObjectLines::new(alloc, sink);
    let done = series_lines(
        alloc,
        options,
        series,
        &mut Writer::new(&mut objects),
        has_port,
    );
    if objects.is_refused() {
        return Err(CaptureError::Memory);
    }
    done
}

// Reads files as one capture, and then writes where each begins, and what of them is not audited.
fn series_lines<'n, P: Parts<'n> + Drop, W: Sink>(
    alloc: Global,
    options: Capturing,
    series: &mut Series<'n, P>,
    sink: &mut W,
    has_port: bool,
) -> Result<bool, CaptureError> {
    let mut unjudged = Unjudged::new(alloc, options.port, options.peer, options.active);
    let mut source = Reader::new(&mut *series);
    let done = capture_to(alloc, options, &mut source, sink, &mut unjudged);
    let done = series_result(done, series.failed());
    if matches!(&done, Ok(_) | Err(CaptureError::Refused(_))) {
        write_starts(alloc, series.starts(), sink)?;
    }
    emit_unjudged(alloc, sink, &unjudged, has_port, done)
}

// Returns the files in the order of their first packets. Those without a time are the last.
fn in_order<'n, R: Files + Input>(
    alloc: Global,
    rt: &R,
    names: &[&'n str],
    is_verbose: bool,
) -> Result<Vec<CaptureFile<'n, Opened<R::Reader, R::File>>>, Failure> {
    let mut files = Vec::new(alloc);
    for name in names {
        let input = open_input(alloc, rt, name, is_verbose)?;
        let is_regular = input.is_regular();
        let file = match Part::open(alloc, input) {
            Ok(part) => CaptureFile {
                name: *name,
                time: part.time(),
                part: (!is_regular).then_some(Ok(part)),
            },
            // An empty file, or one that ends within its header.
            Err(FileFault::CutOff) => CaptureFile {
                name: *name,
                time: None,
                part: Some(Err(FileFault::CutOff)),
            },
            Err(fault) => return Err(Failure::from(error_of(fault, 1)).of_file(alloc, name)),
        };
        match files.push(file) {
            Ok(()) => {}
            Err(_) => return Err(Failure::from(ToolFault::Memory)),
        }
    }
    files.sort_by_key(|file| file.time.unwrap_or(u128::MAX))?;
    Ok(files)
}

// Opens a file again.
fn opened_again<R: Files + Input>(
    alloc: Global,
    rt: &R,
    name: &str,
) -> Result<Part<Opened<R::Reader, R::File>>, FileFault> {
    match open_input(alloc, rt, name, false) {
        Ok(input) => Part::open(alloc, input),
        Err(_) => Err(FileFault::Read),
    }
}

// Returns the result on a series, with the error of the file that cannot be read to its end.
fn series_result(
    done: Result<bool, CaptureError>,
    failed: Option<FailedPart<'_>>,
) -> Result<bool, CaptureError> {
    match (done, failed) {
        (
            Err(CaptureError::Refused(Rejection::Incomplete(Shortfall::File(_, packet)))),
            Some(failed),
        ) => { Err(error_of(failed.fault, packet)) }
        (Err(CaptureError::Read), Some(failed)) => Err(error_of(failed.fault, 1)),
        (done, _) => done,
    }
}

// Returns the name of the file if the error is that of the file, and otherwise that of standard input.
fn named_by<'n>(error: CaptureError, failed: Option<FailedPart<'n>>) -> &'n str {
    match (error, failed) {
        (
            CaptureError::Read | CaptureError::Refused(Rejection::Incomplete(Shortfall::File(..))),
            Some(failed),
        ) => failed.name,
        _ => STANDARD,
    }
}

// Returns the error for a file that cannot be read from this packet on.
fn error_of(fault: FileFault, packet: u64) -> CaptureError {
    match fault {
        FileFault::Read => CaptureError::Read,
        FileFault::Memory => CaptureError::Memory,
        FileFault::Capture { .. } | FileFault::CutOff => {
            CaptureError::Refused(Rejection::Incomplete(Shortfall::File(fault, packet)))
        }
    }
}

// Writes the number of each file's first packet.
fn write_starts<W: Sink>(
    alloc: Global,
    starts: &[PartStart<'_>],
    sink: &mut W,
) -> Result<(), CaptureError> {
    for start in starts {
        let line = start_line(alloc, start)?;
        give_all(sink, line.as_bytes())?;
    }
    Ok(())
}

// Returns the number of a file's first packet and its name, as a comment. Control characters of the name become U+FFFD.
fn start_line(alloc: Global, start: &PartStart<'_>) -> Result<String, AllocError> {
    let packet = start.packet;
    let mut line = format!(in alloc; "# from packet {packet}: ")?;
    for character in start.name.chars() {
        line.push(if character.is_control() {
            '\u{fffd}'
        } else {
            character
        })?;
    }
    line.push('\n')?;
    Ok(line)
}
