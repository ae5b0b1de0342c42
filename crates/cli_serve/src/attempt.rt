//! Attempts to connect that fail, and connections that end.

use std::io;
use std::io::ErrorKind;

/// Why there is no connection, according to the system.
#[derive(Clone, Copy, Debug, PartialEq, Eq)]
pub enum ConnectError {
    /// The process or the machine has no free file descriptor.
    NoDescriptor,
    /// Any other error.
    System(ErrorKind),
}

// The system's error numbers for that (errno(3)): EMFILE and ENFILE.
const TOO_MANY_OF_PROCESS: i32 = 24;

const TOO_MANY_OF_SYSTEM: i32 = 23;

impl From<io::Error> for ConnectError {
    fn from(error: io::Error) -> ConnectError {
        match error.raw_os_error() {
            Some(TOO_MANY_OF_PROCESS | TOO_MANY_OF_SYSTEM) => ConnectError::NoDescriptor,
            _ => ConnectError::System(error.kind()),
        }
    }
}

/// Why a connection ended, as far as its socket shows it.
#[derive(Clone, Copy, Debug, PartialEq, Eq)]
pub enum Ending {
    /// The peer closed it.
    Closed,
    /// The peer reset it.
    Reset,
    /// The peer accepted no bytes for T8.
    NotAccepted,
    /// Any other error.
    Failed(ErrorKind),
}

impl Ending {
    /// Returns why a connection ends after a failed read.
    pub fn of_read(kind: ErrorKind) -> Ending {
        match kind {
            ErrorKind::ConnectionReset | ErrorKind::BrokenPipe => Ending::Reset,
            kind => Ending::Failed(kind),
        }
    }

    /// Returns why a connection ends after a failed write. A write waits for at most T8.
    pub fn of_write(kind: ErrorKind) -> Ending {
        match kind {
            ErrorKind::WouldBlock | ErrorKind::TimedOut => Ending::NotAccepted,
            kind => Ending::of_read(kind),
        }
    }
}

/// A receiver of each attempt to connect that fails and is repeated, and of why connections ended.
pub trait Attempts {
    /// Records a failed attempt. An active end makes the next one after T5.
    fn failed(&mut self, error: ConnectError);

    /// Records why a connection ended. It is closed.
    fn ended(&mut self, why: Ending);
}
