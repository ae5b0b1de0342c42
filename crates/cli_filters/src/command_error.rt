//! Why the command ends before its work is done.

ghost use Rattle.std.specs.Prelude.{◌≡◌, Some};
ghost use Rattle.cli_filters.specs.CommandErrors.{IsFaultOf, audit_cause, capture_cause, command_cause, command_error_text, encode_cause, show_cause, status_of};
ghost use Rattle.cli_filters.specs.declared.command_error.CommandError.TheVariants as command;

use crate::audit_error::AuditError;
use crate::encode_error::EncodeError;
use capture_errors::CaptureError;
use cli_options::{ToolFault, refusal};
use cli_show::ShowError;
use hsms_frame::{Failed, ReadFault};
use hsms_log::AuditFault;
use secs_text::TextFault;
use std::alloc::Global;
use std::error::Error;
use std::fmt;

/// Why the command ends before its work is done. Each error is shown as that of its part.
#[derive(Clone, Copy, Debug, PartialEq, Eq)]
pub enum CommandError {
    /// The help is not written.
    Help,
    /// The messages of an input are not shown.
    Show(ShowError),
    /// Notation is not encoded.
    Encode(EncodeError),
    /// The verdict on a log is not written.
    Audit(AuditError),
    /// A capture is not audited in full.
    Capture(CaptureError),
}

/// What kind of error it is.
#[derive(Clone, Copy, Debug, PartialEq, Eq)]
pub enum Cause {
    /// The input is invalid.
    Refused,
    /// A read failed.
    Read,
    /// A write failed.
    Write,
    /// The input is larger than the command accepts.
    Endless,
    /// An allocation failed.
    Memory,
}

impl CommandError {
    /// Returns what kind of error it is.
    pub fn cause(self) -> Cause
        ensures { result ≡ command_cause self }
    {
        match self {
            CommandError::Help => Cause::Write,
            CommandError::Show(error) => show_cause(error),
            CommandError::Encode(error) => encode_cause(error),
            CommandError::Audit(error) => audit_cause(error),
            CommandError::Capture(error) => capture_cause(error),
        }
    }

    /// Returns the status with which the command ends: 2 if the input is invalid, and 3 if I/O or an allocation failed.
    pub fn status(self) -> u8
        ensures { result ≡ status_of (command_cause self) }
    {
        match self.cause() {
            Cause::Refused => 2,
            Cause::Read | Cause::Write | Cause::Endless | Cause::Memory => 3,
        }
    }
}

fn show_cause(error: ShowError) -> Cause
    ensures { result ≡ show_cause error }
{
    match error {
        ShowError::Read(ReadFault::Read) => Cause::Read,
        ShowError::Read(ReadFault::Memory) => Cause::Memory,
        ShowError::Read(
            ReadFault::TooShort { .. } | ReadFault::TooLong { .. } | ReadFault::CutOff,
        ) => { Cause::Refused }
        ShowError::NoHex { .. } | ShowError::NoMessage { .. } => Cause::Refused,
        ShowError::Write => Cause::Write,
        ShowError::Endless => Cause::Endless,
    }
}

fn encode_cause(error: EncodeError) -> Cause
    ensures { result ≡ encode_cause error }
{
    match error {
        EncodeError::Text(TextFault::Memory) => Cause::Memory,
        EncodeError::Text(TextFault::Syntax { .. } | TextFault::Number { .. }) => Cause::Refused,
        EncodeError::Text(TextFault::Count { .. } | TextFault::Deep { .. }) => Cause::Refused,
        EncodeError::Input | EncodeError::Frame(_) => Cause::Refused,
        EncodeError::Read => Cause::Read,
        EncodeError::Write => Cause::Write,
    }
}

fn audit_cause(error: AuditError) -> Cause
    ensures { result ≡ audit_cause error }
{
    match error {
        AuditError::Log(AuditFault::Read) => Cause::Read,
        AuditError::Log(AuditFault::Endless) => Cause::Endless,
        AuditError::Log(AuditFault::Memory) => Cause::Memory,
        AuditError::Write => Cause::Write,
    }
}

fn capture_cause(error: CaptureError) -> Cause
    ensures { result ≡ capture_cause error }
{
    match error {
        CaptureError::Refused(_) => Cause::Refused,
        CaptureError::Read => Cause::Read,
        CaptureError::Write => Cause::Write,
        CaptureError::Endless => Cause::Endless,
        CaptureError::Memory => Cause::Memory,
    }
}

/// Returns the error with its text, or `Memory` if an allocation fails for the text.
pub fn fault_of(alloc: Global, error: CommandError) -> ToolFault
    ensures { IsFaultOf error result }
{
    match error.cause() {
        Cause::Refused => refusal(error.to_string(alloc)),
        Cause::Read => ToolFault::Device("Read"),
        Cause::Write => ToolFault::Device("Write"),
        Cause::Endless => ToolFault::Device("Endless"),
        Cause::Memory => ToolFault::Memory,
    }
}

impl fmt::Display for CommandError {
    ghost output = { λ error. Some (command_error_text error) };

    fn fmt<W: fmt::Write>(&self, f: &mut fmt::Formatter<W>) -> fmt::Result {
        match *self {
            CommandError::Help => write!(f, "Write"),
            CommandError::Show(error) => write!(f, "{error}"),
            CommandError::Encode(error) => write!(f, "{error}"),
            CommandError::Audit(error) => write!(f, "{error}"),
            CommandError::Capture(error) => write!(f, "{error}"),
        }
    }
}

impl Error for CommandError {}

// Only the help is written outside of the other parts.
impl From<Failed> for CommandError {
    ghost from_gives = { λ _ e. e ≡ command.Help };

    fn from(_: Failed) -> CommandError {
        CommandError::Help
    }
}

impl From<ShowError> for CommandError {
    ghost from_gives = { λ error e. e ≡ command.Show error };

    fn from(error: ShowError) -> CommandError {
        CommandError::Show(error)
    }
}

impl From<EncodeError> for CommandError {
    ghost from_gives = { λ error e. e ≡ command.Encode error };

    fn from(error: EncodeError) -> CommandError {
        CommandError::Encode(error)
    }
}

impl From<AuditError> for CommandError {
    ghost from_gives = { λ error e. e ≡ command.Audit error };

    fn from(error: AuditError) -> CommandError {
        CommandError::Audit(error)
    }
}

impl From<CaptureError> for CommandError {
    ghost from_gives = { λ error e. e ≡ command.Capture error };

    fn from(error: CaptureError) -> CommandError {
        CommandError::Capture(error)
    }
}
