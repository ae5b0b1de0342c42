//! Why nothing more is told of a capture.

ghost use Rattle.std.specs.Prelude.{◌≡◌};
ghost use Rattle.capture_log.specs.declared.stop.Stop.TheVariants.{Memory};

use capture_errors::Rejection;
use std::alloc::AllocError;

/// Why nothing more is told of a capture, beside what its devices do.
#[derive(Clone, Copy)]
pub enum Stop {
    /// The capture is rejected.
    Refused(Rejection),
    /// Memory is wanting, or a log may have more than 2^62 lines.
    Memory,
}

impl From<AllocError> for Stop {
    ghost from_gives = { λ _ stop. stop ≡ Memory };

    fn from(_: AllocError) -> Stop {
        Stop::Memory
    }
}
