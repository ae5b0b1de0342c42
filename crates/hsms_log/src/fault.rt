//! Why a line is not read or written, and why a log has no verdict.

use hsms_frame::Failed;
use std::alloc::AllocError;
use thiserror::Error;

/// Why a log has no verdict.
#[derive(Clone, Copy, Debug, PartialEq, Eq, Error)]
pub enum AuditFault {
    /// A read failed.
    #[error("Read")]
    Read,
    /// All reads were used, and neither the end nor a failing line was found.
    #[error("Endless")]
    Endless,
    /// An allocation failed.
    #[error("Memory")]
    Memory,
}

impl From<Failed> for AuditFault {
    ghost use Rattle.std.specs.Prelude.{◌≡◌};
    ghost use Rattle.hsms_log.specs.declared.fault.AuditFault.TheVariants.{Read};

    ghost from_gives = { λ _ e. e ≡ Read };

    fn from(_: Failed) -> AuditFault {
        AuditFault::Read
    }
}

impl From<AllocError> for AuditFault {
    ghost use Rattle.std.specs.Prelude.{◌≡◌};
    ghost use Rattle.hsms_log.specs.declared.fault.AuditFault.TheVariants.{Memory};

    ghost from_gives = { λ _ e. e ≡ Memory };

    fn from(_: AllocError) -> AuditFault {
        AuditFault::Memory
    }
}

/// Why a line was not read.
#[derive(Clone, Copy, Debug, PartialEq, Eq, Error)]
pub enum LineFault {
    /// The line is not an entry, a comment or an empty line, or has more than `2 * max + 64` bytes.
    #[error("Unreadable")]
    Unreadable,
    /// An allocation failed.
    #[error("Memory")]
    Memory,
}

impl From<AllocError> for LineFault {
    ghost use Rattle.hsms_log.specs.declared.fault.LineFault.TheVariants.{Memory};
    ghost use Rattle.std.specs.Prelude.{◌≡◌};

    ghost from_gives = { λ _ e. e ≡ Memory };

    fn from(_: AllocError) -> LineFault {
        LineFault::Memory
    }
}

/// Why a line was not written.
#[derive(Clone, Copy, Debug, PartialEq, Eq, Error)]
pub enum LogFault {
    /// A write failed. A prefix of the line was written, and not all of it.
    #[error("Write")]
    Write,
}

impl From<Failed> for LogFault {
    fn from(_: Failed) -> LogFault {
        LogFault::Write
    }
}
