//! The error of a link, and the errors of serving a connection.

use thiserror::Error;

/// The link failed. The cause is not given.
#[derive(Clone, Copy, Debug, PartialEq, Eq, Error)]
#[error("LinkFault")]
pub struct LinkFault;

/// Why a connection was not served until it ended. If the link fails and then its end cannot be logged, this is the
/// error of logging it.
#[derive(Clone, Copy, Debug, PartialEq, Eq, Error)]
pub enum ServeFault {
    /// The link failed. The log records that the connection was closed.
    #[error("Link")]
    Link,
    /// A write to the log failed. A prefix of the log was written.
    #[error("Log")]
    Log,
    /// All turns were used, and the connection is up.
    #[error("Turns")]
    Turns,
    /// An allocation failed. The entries returned before are logged.
    #[error("Memory")]
    Memory,
}
