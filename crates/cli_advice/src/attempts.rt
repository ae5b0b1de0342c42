//! The messages on attempts to connect that fail and are repeated, and on connections that end.

use crate::error_help::link_words;
use cli_serve::{Attempts, ConnectError, Ending};
use std::alloc::Global;
use std::io;
use std::io::{ErrorKind, Printer, Write};

/// Writes one line for each kind of failure to standard error, and one on each connection whose end the socket shows,
/// if errors are explained.
#[derive(Drop)]
pub struct FailedAttempts<'a, R: Eprint> {
    alloc: Global,
    rt: &'a R,
    address: &'a str,
    port: u16,
    is_verbose: bool,
    // The kinds of failure that were written.
    written: Vec<ConnectError>,
}

impl<'a, R: Eprint> FailedAttempts<'a, R> {
    /// Creates a value for a service at this address and port, without failed attempts.
    pub fn new(
        alloc: Global,
        rt: &'a R,
        address: &'a str,
        port: u16,
        is_verbose: bool,
    ) -> FailedAttempts<'a, R> {
        FailedAttempts {
            alloc,
            rt,
            address,
            port,
            is_verbose,
            written: Vec::new(alloc),
        }
    }
}

impl<'a, R: Eprint> Attempts for FailedAttempts<'a, R> {
    fn failed(&mut self, error: ConnectError) {
        if !self.is_verbose || self.written.contains(&error) || self.written.push(error).is_err() {
            return;
        }
        if let Ok(words) = link_words(self.alloc, self.address, self.port, error) {
            let _ = eprintln!(self.rt; "hsms: it tries again: {words}");
        }
    }

    fn ended(&mut self, why: Ending) {
        if self.is_verbose {
            let _ = eprintln!(self.rt; "hsms: the connection ended: {}", ending_words(why));
        }
    }
}

// Returns why a connection ended.
fn ending_words(why: Ending) -> &'static str {
    match why {
        Ending::Closed => "the peer closed it",
        Ending::Reset => "the peer reset it",
        Ending::NotAccepted => "the peer accepted no data for T8",
        Ending::Failed(ErrorKind::TimedOut) => "the peer does not answer",
        Ending::Failed(ErrorKind::Interrupted) => "a signal interrupted a message",
        Ending::Failed(_) => "the network failed",
    }
}

/// Standard output for a log, which receives each line in one piece. If errors are explained, it writes to standard
/// error why a connection ended, if the lines before `down` show it.
#[derive(Drop)]
pub struct ExplainedLog<'a, R: Print> {
    output: Printer<'a, R>,
    rt: &'a R,
    is_verbose: bool,
    why: Option<&'static str>,
}

impl<'a, R: Eprint + Print> ExplainedLog<'a, R> {
    /// Creates a writer to standard output.
    pub fn new(rt: &'a R, is_verbose: bool) -> ExplainedLog<'a, R> {
        ExplainedLog {
            output: io::writer(rt),
            rt,
            is_verbose,
            why: None,
        }
    }

    // Keeps why the connection ends, if a line shows it, and writes it once the connection has ended.
    fn explain(&mut self, line: &[u8]) {
        let words = words_of(line);
        if let Some(why) = closing_words(words) {
            self.why = Some(why);
        } else if words == b"down".as_slice() {
            if let Some(why) = self.why {
                let _ = eprintln!(self.rt; "hsms: the connection ended: {why}");
            }
            self.why = None;
        }
    }
}

impl<'a, R: Eprint + Print> Write for ExplainedLog<'a, R> {
    fn write(&mut self, octets: &[u8]) -> io::Result<usize> {
        let count = self.output.write(octets)?;
        if self.is_verbose {
            self.explain(octets);
        }
        Ok(count)
    }

    fn flush(&mut self) -> io::Result<()> {
        self.output.flush()
    }
}

// Returns the words of a line of a log after its time.
fn words_of(line: &[u8]) -> &[u8] {
    let line = line.strip_suffix(b"\n").unwrap_or(line);
    match line.iter().position(|octet| *octet == b' ') {
        Some(at) => line.get(at.saturating_add(1)..).unwrap_or(&[]),
        None => &[],
    }
}

// Returns why a connection ends after an entry with these words, if it does.
fn closing_words(words: &[u8]) -> Option<&'static str> {
    match words {
        b"cut t6" => Some("T6 expired, since a control message got no response in time"),
        b"cut t7" => Some("T7 expired, since the session was not selected in time"),
        b"cut t8" => Some("T8 expired inside a message"),
        b"cut length" => Some("a message was shorter than 10 bytes or longer than --max"),
        words if is_separate(words, b'<') => Some("the peer sent Separate.req"),
        words if is_separate(words, b'>') => Some("this end sent Separate.req"),
        _ => None,
    }
}

// Returns true if these are the words of a Separate.req (SEMI E37, section 7, separate procedure) with this mark.
fn is_separate(words: &[u8], mark: u8) -> bool {
    words.first() == Some(&mark) && words.get(6..14) == Some(b"00000009".as_slice())
}
