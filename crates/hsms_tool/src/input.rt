//! The input of a command: standard input, or a file.

use cli_advice::{Failure, open_words};
use cli_options::{ToolFault, no_request, refusal};
use std::alloc::Global;
use std::fs::{File, Files, OpenFile};
use std::io;
use std::io::{BufReader, ErrorKind, Read};

// The number of bytes that are buffered between the command and its input.
const BUFFER: usize = 65536;

/// The name of standard input.
pub const STANDARD: &str = "-";

/// Standard input, or an open file.
#[derive(Drop)]
pub enum Opened<S, F> {
    /// Standard input.
    Standard(S),
    /// A file.
    File(F),
}

impl<S, F: OpenFile> Opened<S, F> {
    /// Returns true if it is a regular file, which can be opened and read again.
    pub fn is_regular(&self) -> bool {
        match self {
            Opened::Standard(_) => false,
            Opened::File(file) => match file.metadata() {
                Ok(metadata) => metadata.is_file(),
                Err(_) => false,
            },
        }
    }
}

impl<S: Read, F: Read> Read for Opened<S, F> {
    fn read(&mut self, into: &mut [u8]) -> io::Result<usize> {
        match self {
            Opened::Standard(input) => input.read(into),
            Opened::File(file) => file.read(into),
        }
    }
}

/// Opens the file with this name. The name `-` is standard input.
///
/// # Errors
///
/// Returns the text `Open file=NAME` if the file cannot be opened or is a directory. If errors are explained, the
/// failure has the reason.
pub fn open_input<R: Files + Input>(
    alloc: Global,
    rt: &R,
    name: &str,
    is_verbose: bool,
) -> Result<Opened<R::Reader, R::File>, Failure> {
    if name == STANDARD {
        return Ok(Opened::Standard(rt.reader()));
    }
    match opened_file(rt, name) {
        Ok(file) => Ok(Opened::File(file)),
        Err(error) => Err(open_failure(alloc, name, error.kind(), is_verbose)),
    }
}

/// Checks that standard input is open if one of the names is `-`. If it is closed, the first file that is opened would take
/// its place.
///
/// # Errors
///
/// Returns `Read` if standard input is closed, or cannot be read.
pub fn check_standard<R: Input>(rt: &R, names: &[&str]) -> Result<(), ToolFault> {
    if names.iter().any(|name| *name == STANDARD) {
        return match rt.reader().read(&mut []) {
            Ok(_) => Ok(()),
            Err(_) => Err(ToolFault::Device("Read")),
        };
    }
    Ok(())
}

/// Checks that standard input is named once at most, since it is read once.
///
/// # Errors
///
/// Returns the error of an invalid command line if it is named twice. If errors are explained, the failure has the
/// reason.
pub fn check_named_once(alloc: Global, names: &[&str], is_verbose: bool) -> Result<(), Failure> {
    let mut is_named = false;
    for name in names {
        let is_standard = *name == STANDARD;
        if is_named && is_standard {
            return Err(named_twice(alloc, is_verbose));
        }
        is_named = is_named || is_standard;
    }
    Ok(())
}

fn named_twice(alloc: Global, is_verbose: bool) -> Failure {
    if is_verbose {
        let words = String::from_str(alloc, "standard input can be read once: name - once");
        return Failure::said(no_request(alloc), words);
    }
    Failure::from(no_request(alloc))
}

// Opens a file that is no directory.
fn opened_file<R: Files>(rt: &R, name: &str) -> io::Result<R::File> {
    let file = File::open(rt, name)?;
    if file.metadata()?.is_dir() {
        return Err(io::Error::from(ErrorKind::IsADirectory));
    }
    Ok(file)
}

// Returns the error for a file that cannot be opened.
fn open_failure(alloc: Global, name: &str, kind: ErrorKind, is_verbose: bool) -> Failure {
    let fault = refusal(format!(in alloc; "Open file={name}"));
    if is_verbose {
        return Failure::said(fault, open_words(alloc, kind));
    }
    Failure::from(fault)
}

/// Returns an input that is read in blocks.
pub fn buffered<I: Read + Drop>(alloc: Global, input: I) -> Result<BufReader<I>, ToolFault> {
    BufReader::with_capacity(alloc, BUFFER, input).map_err(|_| ToolFault::Memory)
}
