//! A TCP connection whose reads have a deadline, by a clock that starts when it is made.

ghost use Rattle.std.specs.Prelude.{◌≤◌, IfOk, length};

use std::io;
use std::io::{ErrorKind, Read, Write};
use std::net::{OpenStream, Shutdown};
use std::thread::sleep;
use std::time::{Clock, Duration, Instant};

// The number of bytes that are discarded at a time.
const ROOM: usize = 4096;

// The system may end a read late: by an eighth of its time, and by this number of milliseconds, which is two ticks of
// at most 10 ms.
const LATE: u64 = 20;

// The milliseconds between two checks of what has arrived, if the system cannot end a read in time.
const PAUSE: u64 = 1;

/// A TCP connection, and a clock that returns the milliseconds since the first connection was made. If the clock fails,
/// it returns the last time again, and 0 at first.
#[derive(Drop)]
pub struct Wire<'a, C: Clock, S: Read + Write + OpenStream + Drop> {
    clock: &'a C,
    // `None` once the connection is closed.
    stream: Option<S>,
    began: Option<Instant>,
    last: u64,
    // The maximum time that a read waits, in milliseconds. `None` for no limit.
    limit: Option<u64>,
}

impl<'a, C: Clock, S: Read + Write + OpenStream + Drop> Wire<'a, C, S> {
    /// Creates a value for a stream that was connected just now. Its reads wait without a limit.
    pub fn new(clock: &'a C, stream: S) -> Wire<'a, C, S> {
        Wire {
            clock,
            stream: Some(stream),
            began: Instant::now(clock).ok(),
            last: 0,
            limit: None,
        }
    }

    /// Switches to the next connection, which was made just now. The time continues.
    pub fn go_over(&mut self, stream: S) {
        self.stream = Some(stream);
        self.limit = None;
    }

    /// Returns the time since the first connection was made.
    pub fn time(&mut self) -> u64 {
        if let Some(began) = self.began {
            if let Ok(now) = Instant::now(self.clock) {
                let passed = now.saturating_duration_since(began).as_millis();
                self.last = u64::try_from(passed).unwrap_or(u64::MAX);
            }
        }
        self.last
    }

    /// Writes some bytes, and returns how many.
    pub fn write(&mut self, octets: &[u8]) -> io::Result<usize>
        ensures { IfOk result (λ n. n ≤ length octets.now) }
    {
        self.open_stream()?.write(octets)
    }

    // Returns the stream, or an error if the connection is closed.
    fn open_stream(&mut self) -> io::Result<&mut S> {
        match &mut self.stream {
            Some(stream) => Ok(stream),
            None => Err(io::Error::from(ErrorKind::NotConnected)),
        }
    }

    /// Reads once, until a time or without a limit.
    pub fn read_until(&mut self, until: Option<u64>, into: &mut [u8]) -> io::Result<usize>
        ensures { IfOk result (λ n. n ≤ length into.new) }
    {
        match until {
            Some(until) => self.read_in_parts(until, into),
            None => {
                self.limit_reads(None)?;
                self.open_stream()?.read(into)
            }
        }
    }

    // Reads until a time. The system ends a read late, and the more so the longer it waits. So one read waits for most
    // of what is left, and the next one for most of the rest.
    fn read_in_parts(&mut self, until: u64, into: &mut [u8]) -> io::Result<usize>
        ensures { IfOk result (λ n. n ≤ length into.new) }
    {
        for _ in 0..u64::MAX {
            let left = until.saturating_sub(self.time());
            let part = part_of(left, self.limit);
            if part == 0 {
                return self.read_soon(until, into);
            }
            self.limit_reads(Some(part))?;
            match self.open_stream()?.read(into) {
                Err(error) if is_late(error.kind()) => {}
                answer => return answer,
            }
        }
        Err(io::Error::from(ErrorKind::TimedOut))
    }

    // Reads until a time that is near, by reads that do not wait.
    fn read_soon(&mut self, until: u64, into: &mut [u8]) -> io::Result<usize>
        ensures { IfOk result (λ n. n ≤ length into.new) }
    {
        self.open_stream()?.set_nonblocking(true)?;
        let answer = self.look_until(until, into);
        self.open_stream()?.set_nonblocking(false)?;
        answer
    }

    // Reads what has arrived, or tries again after a pause, until a time.
    fn look_until(&mut self, until: u64, into: &mut [u8]) -> io::Result<usize>
        ensures { IfOk result (λ n. n ≤ length into.new) }
    {
        for _ in 0..u64::MAX {
            match self.open_stream()?.read(into) {
                Err(error) if is_late(error.kind()) && self.time() < until => {}
                answer => return answer,
            }
            sleep(self.clock, Duration::from_millis(PAUSE));
        }
        Err(io::Error::from(ErrorKind::TimedOut))
    }

    // Limits the wait of a read, if the limit is not set yet.
    fn limit_reads(&mut self, limit: Option<u64>) -> io::Result<()> {
        if self.limit != limit {
            self.open_stream()?
                .set_read_timeout(limit.map(Duration::from_millis))?;
            self.limit = limit;
        }
        Ok(())
    }

    /// Closes the connection at once.
    pub fn close(&mut self) {
        self.stream = None;
    }

    /// Stops sending, discards what still arrives until the peer has closed the connection too or `longest`
    /// milliseconds are over, and closes the connection. Closing it with unread bytes would reset it, and the peer
    /// would lose what it was sent and has not read.
    pub fn hang_up(&mut self, longest: u64) {
        self.let_go(longest);
        self.close();
    }

    // Stops sending, and discards what still arrives.
    fn let_go(&mut self, longest: u64) {
        let has_ended = match &self.stream {
            Some(stream) => stream.shutdown(Shutdown::Write).is_ok(),
            None => false,
        };
        if !has_ended {
            return;
        }
        let until = self.time().saturating_add(longest);
        let mut room = [0u8; ROOM];
        for _ in 0..u64::MAX {
            let can_continue = match self.read_until(Some(until), &mut room) {
                Ok(count) => count > 0,
                Err(error) => is_quiet(error.kind()),
            };
            if !can_continue || self.time() >= until {
                return;
            }
        }
    }
}

/// Returns true if a read with this error has read nothing, and another one may follow: its time is over, or a signal
/// ended it early.
pub fn is_quiet(kind: ErrorKind) -> bool {
    is_late(kind) || kind == ErrorKind::Interrupted
}

// Returns true if the time of a read with this error is over.
fn is_late(kind: ErrorKind) -> bool {
    matches!(kind, ErrorKind::WouldBlock | ErrorKind::TimedOut)
}

// Returns the milliseconds that the next read waits if `left` are left, or 0 if it cannot end in time. Returns the last
// limit if that is well within what is left, to save a system call.
fn part_of(left: u64, limit: Option<u64>) -> u64 {
    let most = left.saturating_sub(left / 8).saturating_sub(LATE);
    match limit {
        Some(limit) if limit <= most && limit >= most / 16 => limit,
        _ => most,
    }
}
