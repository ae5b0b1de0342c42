//! Why the verdict on a log is not written.

ghost use Rattle.std.specs.Prelude.{◌≡◌, Some};
ghost use Rattle.hsms_log.specs.declared.fault.AuditFault.TheVariants.{Memory};
ghost use Rattle.cli_filters.specs.Audit.{audit_error_text};
ghost use Rattle.cli_filters.specs.declared.audit_error.AuditError.TheVariants as audit;

use hsms_frame::Failed;
use hsms_log::AuditFault;
use std::alloc::AllocError;
use std::error::Error;
use std::fmt;

/// Why the verdict on a log is not written. Each error is shown as its name.
#[derive(Clone, Copy, Debug, PartialEq, Eq)]
pub enum AuditError {
    /// There is no verdict, or the allocation for its line failed.
    Log(AuditFault),
    /// A write failed.
    Write,
}

impl fmt::Display for AuditError {
    ghost output = { λ error. Some (audit_error_text error) };

    fn fmt<W: fmt::Write>(&self, f: &mut fmt::Formatter<W>) -> fmt::Result {
        match *self {
            AuditError::Log(AuditFault::Read) => write!(f, "Read"),
            AuditError::Log(AuditFault::Endless) => write!(f, "Endless"),
            AuditError::Log(AuditFault::Memory) => write!(f, "Memory"),
            AuditError::Write => write!(f, "Write"),
        }
    }
}

impl Error for AuditError {}

impl From<AuditFault> for AuditError {
    ghost from_gives = { λ fault e. e ≡ audit.Log fault };

    fn from(fault: AuditFault) -> AuditError {
        AuditError::Log(fault)
    }
}

impl From<AllocError> for AuditError {
    ghost from_gives = { λ _ e. e ≡ audit.Log Memory };

    fn from(_: AllocError) -> AuditError {
        AuditError::Log(AuditFault::Memory)
    }
}

// Only writes are passed on as `Failed`.
impl From<Failed> for AuditError {
    ghost from_gives = { λ _ e. e ≡ audit.Write };

    fn from(_: Failed) -> AuditError {
        AuditError::Write
    }
}
