//! Why the messages of an input are not shown.

ghost use Rattle.std.specs.Prelude.{◌≡◌, Some};
ghost use Rattle.hsms_frame.specs.declared.fault.ReadFault.TheVariants as read;
ghost use Rattle.cli_show.specs.ShowErrors.{show_error_text};
ghost use Rattle.cli_show.specs.declared.show_error.ShowError.TheVariants as show;

use hsms_frame::{Failed, ReadFault};
use std::alloc::AllocError;
use std::error::Error;
use std::fmt;

/// Why the messages of an input are not shown. Each error is shown as its name, and its number if it has one, as in
/// `NoHex line=3`.
#[derive(Clone, Copy, Debug, PartialEq, Eq)]
pub enum ShowError {
    /// The input is not messages, a read failed, or an allocation failed.
    Read(ReadFault),
    /// The line with this number is not hexadecimal.
    NoHex { line: u32 },
    /// The line with this number is not exactly one message within the limit, or is too long for one.
    NoMessage { line: u32 },
    /// A write failed.
    Write,
    /// The input continues after the maximum number of messages or lines.
    Endless,
}

impl fmt::Display for ShowError {
    ghost output = { λ error. Some (show_error_text error) };

    fn fmt<W: fmt::Write>(&self, f: &mut fmt::Formatter<W>) -> fmt::Result {
        match *self {
            ShowError::Read(fault) => write!(f, "{fault}"),
            ShowError::NoHex { line } => write!(f, "NoHex line={line}"),
            ShowError::NoMessage { line } => write!(f, "NoMessage line={line}"),
            ShowError::Write => write!(f, "Write"),
            ShowError::Endless => write!(f, "Endless"),
        }
    }
}

impl Error for ShowError {}

impl From<ReadFault> for ShowError {
    ghost from_gives = { λ fault e. e ≡ show.Read fault };

    fn from(fault: ReadFault) -> ShowError {
        ShowError::Read(fault)
    }
}

impl From<AllocError> for ShowError {
    ghost from_gives = { λ _ e. e ≡ show.Read read.Memory };

    fn from(_: AllocError) -> ShowError {
        ShowError::Read(ReadFault::Memory)
    }
}

// Only writes return `Failed`: a failed read is a `ReadFault`.
impl From<Failed> for ShowError {
    ghost from_gives = { λ _ e. e ≡ show.Write };

    fn from(_: Failed) -> ShowError {
        ShowError::Write
    }
}
