//! TCP connections, one after another, as a link.

ghost use Rattle.std.specs.Prelude.{◌≡◌};
ghost use Rattle.cli_serve.specs.CallCounts.{recorded_of};

use crate::attempt::{Attempts, ConnectError, Ending};
use crate::call_counts::Counters;
use crate::tcp_stream::{Wire, is_quiet};
use cli_options::Service;
use hsms_ends::{Again, Got, Link, LinkFault, ServeFault};
use hsms_machine::Side;
use std::io;
use std::io::{ErrorKind, Read, Write};
use std::net::{Net, OpenListener, OpenStream, TcpListener, TcpStream};
use std::thread::sleep;
use std::time::{Clock, Duration};

/// TCP connections, one after another, with one clock and the counts of all their calls.
#[derive(Drop)]
pub struct SocketLink<'a, 's, R: Clock + Net, A: Attempts + Drop> {
    rt: &'a R,
    service: &'a Service<'s>,
    attempts: A,
    // The listener for further connections.
    listener: Option<R::Listener>,
    wire: Wire<'a, R, R::Stream>,
    counters: Counters,
    // The number of failures of the link when the connection was made.
    failures: u64,
    // True if the connection is the first one, and no end was served with it yet.
    is_new: bool,
    // Why there is no further connection.
    fault: Option<ConnectError>,
    // Why the connection ended, if its socket shows it.
    ending: Option<Ending>,
}

impl<'a, 's, R: Clock + Net, A: Attempts + Drop> SocketLink<'a, 's, R, A> {
    /// Closes the last connection, after the service has ended. Returns why there is no further connection, if one was
    /// requested.
    pub fn end(mut self) -> Option<ConnectError> {
        if self.fault.is_none() {
            self.hang_up();
        }
        self.fault
    }

    // Closes the connection once the peer has closed it too, or T8 expires. Closes it at once if the link failed.
    fn hang_up(&mut self)
        ensures { recorded_of self.new.counters ≡ recorded_of self.old.counters }
    {
        if self.counters.failures == self.failures {
            self.wire.hang_up(u64::from(self.service.settings.t8()));
        } else {
            self.wire.close();
        }
        if let Some(why) = self.ending {
            self.attempts.ended(why);
        }
        self.ending = None;
    }
}

impl<'a, 's, R: Clock + Net, A: Attempts + Drop> Link for SocketLink<'a, 's, R, A> {
    ghost link_state = { λ s. recorded_of s.counters };

    fn now(&mut self) -> u64 {
        self.wire.time()
    }

    // A read of nothing is the end of what the peer sends.
    fn wait(&mut self, until: Option<u64>, into: &mut [u8]) -> Result<Got, LinkFault> {
        match self.wire.read_until(until, into) {
            Ok(0) => {
                self.ending = Some(Ending::Closed);
                self.counters.reception(Got::Closed, into)
            }
            Ok(count) => self.counters.reception(Got::Octets(count), into),
            Err(error) if is_quiet(error.kind()) => self.counters.reception(Got::Quiet, into),
            Err(error) => {
                self.ending = Some(Ending::of_read(error.kind()));
                Err(self.counters.failed())
            }
        }
    }

    fn send(&mut self, octets: &[u8]) -> Result<usize, LinkFault> {
        match self.wire.write(octets) {
            Ok(count) if count > 0 || octets.is_empty() => Ok(count),
            answer => {
                self.ending = Some(ending_of_write(answer));
                Err(self.counters.failed())
            }
        }
    }
}

// Returns why a connection ends after a write that wrote nothing.
fn ending_of_write(answer: io::Result<usize>) -> Ending {
    match answer {
        Ok(_) => Ending::Failed(ErrorKind::WriteZero),
        Err(error) => Ending::of_write(error.kind()),
    }
}

/// Closes the ended connection before it waits for the next one. A passive end continues to listen. An active one
/// connects again after T5, and waits T5 between failed attempts.
impl<'a, 's, R: Clock + Net, A: Attempts + Drop> Again for SocketLink<'a, 's, R, A> {
    fn again(&mut self) -> bool {
        if self.is_new {
            self.is_new = false;
            return true;
        }
        self.hang_up();
        pause(self.rt, self.service);
        match next_stream(self.rt, self.service, &self.listener, &mut self.attempts) {
            Ok(stream) => {
                self.failures = self.counters.failures;
                self.wire.go_over(stream);
            }
            Err(error) => self.fault = Some(error),
        }
        self.fault.is_none()
    }
}

/// Returns the listener of a passive end.
///
/// # Errors
///
/// Returns the system's error if it cannot listen there.
pub fn listener_of<R: Net>(
    rt: &R,
    service: &Service<'_>,
) -> Result<Option<R::Listener>, ConnectError> {
    match service.settings.link() {
        Side::Active => Ok(None),
        Side::Passive => {
            let listener = TcpListener::bind(rt, (service.address, service.port))?;
            Ok(Some(listener))
        }
    }
}

/// Returns the connection of a service, or the first one of a service that continues after it. An active end makes it,
/// and a passive end accepts it by its listener. If the service ends after it, it no longer listens then.
///
/// # Errors
///
/// Returns the system's error if there is no connection. A service that continues tries again: an active end unless an
/// allocation failed, and a passive one if the peer gave up the connection or a signal came. `attempts` receives each
/// failed attempt.
pub fn connected<'a, 's, R: Clock + Net, A: Attempts + Drop>(
    rt: &'a R,
    service: &'a Service<'s>,
    mut listener: Option<R::Listener>,
    mut attempts: A,
) -> Result<SocketLink<'a, 's, R, A>, ConnectError> {
    let stream = if service.repeat.again {
        next_stream(rt, service, &listener, &mut attempts)?
    } else {
        let stream = stream_of(rt, service, &listener)?;
        listener = None;
        stream
    };
    Ok(SocketLink {
        rt,
        service,
        attempts,
        listener,
        wire: Wire::new(rt, stream),
        counters: Counters::default(),
        failures: 0,
        is_new: true,
        fault: None,
        ending: None,
    })
}

/// Returns the error if there is no connection: `Link`, or `Memory` if an allocation failed.
pub fn unconnected(error: ConnectError) -> ServeFault {
    if is_memory(error) {
        ServeFault::Memory
    } else {
        ServeFault::Link
    }
}

// Returns true if an allocation failed for a connection.
fn is_memory(error: ConnectError) -> bool {
    error == ConnectError::System(ErrorKind::OutOfMemory)
}

// Returns the next connection of a service that continues.
fn next_stream<R: Clock + Net, A: Attempts>(
    rt: &R,
    service: &Service<'_>,
    listener: &Option<R::Listener>,
    attempts: &mut A,
) -> Result<R::Stream, ConnectError> {
    for _ in 0..u64::MAX {
        let error = match stream_of(rt, service, listener) {
            Ok(stream) => return Ok(stream),
            Err(error) => ConnectError::from(error),
        };
        if !is_passing(error, service) {
            return Err(error);
        }
        attempts.failed(error);
        pause(rt, service);
    }
    Err(ConnectError::System(ErrorKind::TimedOut))
}

// Returns true if the next connection may succeed, although one failed.
fn is_passing(error: ConnectError, service: &Service<'_>) -> bool {
    match service.settings.link() {
        Side::Active => !is_memory(error),
        Side::Passive => matches!(
            error,
            ConnectError::System(ErrorKind::ConnectionAborted | ErrorKind::Interrupted)
        ),
    }
}

// Waits for T5 before an active end connects. A passive end does not wait.
fn pause<R: Clock>(rt: &R, service: &Service<'_>) {
    if service.settings.link() == Side::Active {
        sleep(rt, Duration::from_millis(u64::from(service.repeat.t5)));
    }
}

// Returns a connection: the next one that is accepted, or one that is made. A small message does not wait for another
// one, and bytes that the peer does not accept wait at most T8.
fn stream_of<R: Net>(
    rt: &R,
    service: &Service<'_>,
    listener: &Option<R::Listener>,
) -> io::Result<R::Stream> {
    let stream = match listener {
        Some(listener) => accepted::<R>(listener, service)?,
        None => TcpStream::connect(rt, (service.address, service.port))?,
    };
    stream.set_nodelay(true)?;
    let t8 = u64::from(service.settings.t8());
    stream.set_write_timeout(Some(Duration::from_millis(t8)))?;
    Ok(stream)
}

// Accepts the next connection. If silent ones are skipped, it is the next one whose peer sends a byte within T7.
fn accepted<R: Net>(listener: &R::Listener, service: &Service<'_>) -> io::Result<R::Stream> {
    for _ in 0..u64::MAX {
        let (stream, _) = listener.accept()?;
        if !service.skip_silent || speaks(&stream, service.settings.t7())? {
            return Ok(stream);
        }
    }
    Err(io::Error::from(ErrorKind::TimedOut))
}

// Returns true if the peer sends a byte within a time, in milliseconds. The byte stays unread.
fn speaks<S: OpenStream>(stream: &S, within: u32) -> io::Result<bool> {
    stream.set_read_timeout(Some(Duration::from_millis(u64::from(within))))?;
    let count = peeked(stream);
    stream.set_read_timeout(None)?;
    Ok(count > 0)
}

// Returns the number of bytes that a peek sees, or 0 if it fails. A signal does not end it.
fn peeked<S: OpenStream>(stream: &S) -> usize {
    let mut first = [0u8; 1];
    for _ in 0..u64::MAX {
        match stream.peek(&mut first) {
            Err(error) if error.kind() == ErrorKind::Interrupted => {}
            answer => return answer.unwrap_or(0),
        }
    }
    0
}
