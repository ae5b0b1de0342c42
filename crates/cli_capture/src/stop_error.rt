//! The error of the command, by why the audit of a capture stops.

ghost use Rattle.std.specs.Prelude.{◌≡◌};
ghost use Rattle.cli_capture.specs.StopError.{error_of};

use capture_errors::CaptureError;
use capture_log::Stop;

/// Returns the error of the command.
pub fn error_of(stop: Stop) -> CaptureError
    ensures { result ≡ error_of stop }
{
    match stop {
        Stop::Refused(rejection) => CaptureError::Refused(rejection),
        Stop::Memory => CaptureError::Memory,
    }
}
