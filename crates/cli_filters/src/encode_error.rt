//! Why notation is not encoded.

ghost use Rattle.std.specs.Prelude.{◌≡◌, Some};
ghost use Rattle.secs_text.specs.declared.fault.TextFault.TheVariants as text;
ghost use Rattle.cli_filters.specs.EncodeErrors.{encode_error_text};
ghost use Rattle.cli_filters.specs.declared.encode_error.EncodeError.TheVariants as encode;

use hsms_frame::Failed;
use secs_text::TextFault;
use std::alloc::AllocError;
use std::error::Error;
use std::fmt;

/// Why a message has no frame.
#[derive(Clone, Copy, Debug, PartialEq, Eq)]
pub enum Refusal {
    /// Its item has no encoding.
    TooLarge,
    /// Its header and text have this number of bytes, which is too many.
    TooLong(u64),
}

/// Why notation is not encoded. Each error is shown as its name, and its number if it has one, as in `Syntax at=7`.
#[derive(Clone, Copy, Debug, PartialEq, Eq)]
pub enum EncodeError {
    /// The input is longer than the command accepts.
    Input,
    /// The input is not messages, or an allocation failed.
    Text(TextFault),
    /// A message has no frame.
    Frame(Refusal),
    /// A read failed.
    Read,
    /// A write failed.
    Write,
}

impl fmt::Display for EncodeError {
    ghost output = { λ error. Some (encode_error_text error) };

    fn fmt<W: fmt::Write>(&self, f: &mut fmt::Formatter<W>) -> fmt::Result {
        match *self {
            EncodeError::Input => write!(f, "Input"),
            EncodeError::Text(TextFault::Syntax { at }) => write!(f, "Syntax at={at}"),
            EncodeError::Text(TextFault::Number { at }) => write!(f, "Number at={at}"),
            EncodeError::Text(TextFault::Count { at }) => write!(f, "Count at={at}"),
            EncodeError::Text(TextFault::Deep { at }) => write!(f, "Deep at={at}"),
            EncodeError::Text(TextFault::Memory) => write!(f, "Memory"),
            EncodeError::Frame(Refusal::TooLarge) => write!(f, "TooLarge"),
            EncodeError::Frame(Refusal::TooLong(length)) => write!(f, "TooLong length={length}"),
            EncodeError::Read => write!(f, "Read"),
            EncodeError::Write => write!(f, "Write"),
        }
    }
}

impl Error for EncodeError {}

impl From<TextFault> for EncodeError {
    ghost from_gives = { λ fault e. e ≡ encode.Text fault };

    fn from(fault: TextFault) -> EncodeError {
        EncodeError::Text(fault)
    }
}

impl From<Refusal> for EncodeError {
    ghost from_gives = { λ refusal e. e ≡ encode.Frame refusal };

    fn from(refusal: Refusal) -> EncodeError {
        EncodeError::Frame(refusal)
    }
}

impl From<AllocError> for EncodeError {
    ghost from_gives = { λ _ e. e ≡ encode.Text text.Memory };

    fn from(_: AllocError) -> EncodeError {
        EncodeError::Text(TextFault::Memory)
    }
}

// Only writes are passed on as `Failed`.
impl From<Failed> for EncodeError {
    ghost from_gives = { λ _ e. e ≡ encode.Write };

    fn from(_: Failed) -> EncodeError {
        EncodeError::Write
    }
}
