//! Why two logs are not compared, or are not decided.

ghost use Rattle.std.specs.Prelude.{◌≡◌, Some};
ghost use Rattle.hsms_compare_logs.specs.declared.comparing_logs.CompareFault.TheVariants as logs;
ghost use Rattle.hsms_compare.specs.declared.reading.ReadFault.TheVariants.{Memory};
ghost use Rattle.cli_filters.specs.CommandErrors.{status_of};
ghost use Rattle.cli_compare.specs.CompareErrors.{IsFaultOf, compare_cause, compare_error_text, logs_cause};
ghost use Rattle.cli_compare.specs.declared.compare_error.CompareError.TheVariants as compare;

use cli_filters::Cause;
use cli_options::{ToolFault, refusal};
use hsms_compare::ReadFault;
use hsms_compare_logs::CompareFault;
use hsms_frame::Failed;
use std::alloc::{AllocError, Global};
use std::error::Error;
use std::fmt;

/// Why two logs are not compared, or are not decided. Each error is shown as its name.
#[derive(Clone, Copy, Debug, PartialEq, Eq)]
pub enum CompareError {
    /// The logs are not compared. Nothing is written.
    Logs(CompareFault),
    /// A write failed.
    Write,
    /// Both logs pass, and it is not decided whether they agree. All is written.
    Undecided,
}

impl CompareError {
    /// Returns what kind of error it is.
    pub fn cause(self) -> Cause
        ensures { result ≡ compare_cause self }
    {
        match self {
            CompareError::Logs(fault) => logs_cause(fault),
            CompareError::Write => Cause::Write,
            CompareError::Undecided => Cause::Refused,
        }
    }

    /// Returns the status with which the command ends: 2 if the logs cannot be compared or are undecided, and 3 if I/O or
    /// an allocation failed.
    pub fn status(self) -> u8
        ensures { result ≡ status_of (compare_cause self) }
    {
        match self.cause() {
            Cause::Refused => 2,
            Cause::Read | Cause::Write | Cause::Endless | Cause::Memory => 3,
        }
    }
}

fn logs_cause(fault: CompareFault) -> Cause
    ensures { result ≡ logs_cause fault }
{
    match fault {
        CompareFault::Log(ReadFault::Read) => Cause::Read,
        CompareFault::Log(ReadFault::Endless) => Cause::Endless,
        CompareFault::Log(ReadFault::Memory) => Cause::Memory,
        CompareFault::FirstLineOfFirst | CompareFault::FirstLineOfSecond => Cause::Refused,
        CompareFault::SameRole | CompareFault::SameLink | CompareFault::Device => Cause::Refused,
    }
}

/// Returns the error with its text, or `Memory` if an allocation fails for the text.
pub fn fault_of(alloc: Global, error: CompareError) -> ToolFault
    ensures { IsFaultOf error result }
{
    match error.cause() {
        Cause::Refused => refusal(error.to_string(alloc)),
        Cause::Read => ToolFault::Device("Read"),
        Cause::Write => ToolFault::Device("Write"),
        Cause::Endless => ToolFault::Device("Endless"),
        Cause::Memory => ToolFault::Memory,
    }
}

impl fmt::Display for CompareError {
    ghost output = { λ error. Some (compare_error_text error) };

    fn fmt<W: fmt::Write>(&self, f: &mut fmt::Formatter<W>) -> fmt::Result {
        match *self {
            CompareError::Logs(CompareFault::Log(ReadFault::Read)) => write!(f, "Read"),
            CompareError::Logs(CompareFault::Log(ReadFault::Endless)) => write!(f, "Endless"),
            CompareError::Logs(CompareFault::Log(ReadFault::Memory)) => write!(f, "Memory"),
            CompareError::Logs(CompareFault::FirstLineOfFirst) => write!(f, "FirstLine operand=1"),
            CompareError::Logs(CompareFault::FirstLineOfSecond) => write!(f, "FirstLine operand=2"),
            CompareError::Logs(CompareFault::SameRole) => write!(f, "SameRole"),
            CompareError::Logs(CompareFault::SameLink) => write!(f, "SameLink"),
            CompareError::Logs(CompareFault::Device) => write!(f, "Device"),
            CompareError::Write => write!(f, "Write"),
            CompareError::Undecided => write!(f, "Undecided"),
        }
    }
}

impl Error for CompareError {}

impl From<CompareFault> for CompareError {
    ghost from_gives = { λ fault e. e ≡ compare.Logs fault };

    fn from(fault: CompareFault) -> CompareError {
        CompareError::Logs(fault)
    }
}

impl From<AllocError> for CompareError {
    ghost from_gives = { λ _ e. e ≡ compare.Logs (logs.Log Memory) };

    fn from(_: AllocError) -> CompareError {
        CompareError::Logs(CompareFault::Log(ReadFault::Memory))
    }
}

// Only writes are passed on as `Failed`.
impl From<Failed> for CompareError {
    ghost from_gives = { λ _ e. e ≡ compare.Write };

    fn from(_: Failed) -> CompareError {
        CompareError::Write
    }
}
