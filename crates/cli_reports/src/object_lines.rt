//! A writer of JSON objects in the place of lines.

use crate::connection_object::capture_object;
use hsms_frame::{Sink, give_all};
use std::alloc::{AllocError, Global};
use std::io;
use std::io::{ErrorKind, Write};

/// A writer that gets the lines of `hsms capture`, and writes the JSON object of each once it is complete.
#[derive(Drop)]
pub struct ObjectLines<'a, W> {
    alloc: Global,
    sink: &'a mut W,
    // The bytes of a line that is not complete.
    line: Vec<u8>,
    // True if an allocation failed.
    is_refused: bool,
}

impl<'a, W: Sink> ObjectLines<'a, W> {
    /// Creates a writer that got no line.
    pub fn new(alloc: Global, sink: &'a mut W) -> ObjectLines<'a, W> {
        ObjectLines {
            alloc,
            sink,
            line: Vec::new(alloc),
            is_refused: false,
        }
    }

    /// Returns true if a write failed because an allocation did.
    pub fn is_refused(&self) -> bool {
        self.is_refused
    }

    // Writes the object of each line that ends with these bytes.
    fn write_lines(&mut self, octets: &[u8]) -> Result<bool, AllocError> {
        for piece in octets.split_inclusive(is_feed) {
            self.line.extend_from_slice(piece)?;
            if piece.ends_with(b"\n") {
                if !self.write_line()? {
                    return Ok(false);
                }
            }
        }
        Ok(true)
    }

    // Writes the object of the line. Returns false if the write failed.
    fn write_line(&mut self) -> Result<bool, AllocError> {
        let line = String::from_utf8_lossy(self.alloc, &self.line)?;
        let object = capture_object(self.alloc, line.as_str().trim_end_matches('\n'))?;
        self.line.clear();
        Ok(give_all(self.sink, object.as_bytes()).is_ok())
    }
}

impl<W: Sink> Write for ObjectLines<'_, W> {
    fn write(&mut self, octets: &[u8]) -> io::Result<usize> {
        match self.write_lines(octets) {
            Ok(true) => Ok(octets.len()),
            Ok(false) => Err(io::Error::from(ErrorKind::Other)),
            Err(_) => {
                self.is_refused = true;
                Err(io::Error::from(ErrorKind::OutOfMemory))
            }
        }
    }

    // A line that is not complete stays buffered.
    fn flush(&mut self) -> io::Result<()> {
        Ok(())
    }
}

fn is_feed(octet: &u8) -> bool {
    *octet == b'\n'
}
