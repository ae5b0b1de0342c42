//! Why the command ends before each connection of a capture is audited in full.

ghost use Rattle.std.specs.Prelude.{◌≡◌, Some};
ghost use Rattle.capture_errors.specs.Errors.{capture_error_text};
ghost use Rattle.capture_errors.specs.declared.capture_error.CaptureError.TheVariants as capture;

use crate::rejection::Rejection;
use hsms_frame::Failed;
use std::alloc::AllocError;
use std::error::Error;
use std::fmt;

/// Why the command ends before each connection of a capture is audited in full. Each error is shown as its name, and its
/// number if it has one, as in `Lost packet=9`.
#[derive(Clone, Copy, Debug, PartialEq, Eq)]
pub enum CaptureError {
    /// The capture is rejected.
    Refused(Rejection),
    /// A read failed.
    Read,
    /// A write failed.
    Write,
    /// The capture has more blocks than the command counts.
    Endless,
    /// An allocation failed, or a log may have more than 2^62 lines.
    Memory,
}

impl fmt::Display for CaptureError {
    ghost output = { λ error. Some (capture_error_text error) };

    fn fmt<W: fmt::Write>(&self, f: &mut fmt::Formatter<W>) -> fmt::Result {
        match *self {
            CaptureError::Refused(rejection) => write!(f, "{rejection}"),
            CaptureError::Read => write!(f, "Read"),
            CaptureError::Write => write!(f, "Write"),
            CaptureError::Endless => write!(f, "Endless"),
            CaptureError::Memory => write!(f, "Memory"),
        }
    }
}

impl Error for CaptureError {}

impl From<AllocError> for CaptureError {
    ghost from_gives = { λ _ e. e ≡ capture.Memory };

    fn from(_: AllocError) -> CaptureError {
        CaptureError::Memory
    }
}

// Only writes return `Failed`: a failed read is a `FileFault`.
impl From<Failed> for CaptureError {
    ghost from_gives = { λ _ e. e ≡ capture.Write };

    fn from(_: Failed) -> CaptureError {
        CaptureError::Write
    }
}
