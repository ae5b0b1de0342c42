//! The reasons why a text is not a message.

ghost use Rattle.std.specs.Prelude.{◌≡◌};
ghost use Rattle.secs_text.specs.declared.fault.TextFault.TheVariants.{Memory};

use std::alloc::{AllocError, AllocFailed};
use thiserror::Error;

/// The reason why a text is not a message: its first token that is not allowed at its position. `at` is the byte offset
/// of the token's first byte, counted from 0. For a missing token it is the length of the text.
#[derive(Clone, Copy, Debug, PartialEq, Eq, Error)]
pub enum TextFault {
    /// A token that is not allowed at its position, a byte that begins no token or is invalid in a quoted text, or a
    /// missing closing quote.
    #[error("unexpected at {at}")]
    Syntax { at: usize },
    /// A word at a valid position with an invalid value: in an item, a head or a count.
    #[error("no such value at {at}")]
    Number { at: usize },
    /// A wrong count. `at` is the offset of its `[`.
    #[error("wrong count at {at}")]
    Count { at: usize },
    /// A list that exceeds the maximum depth. `at` is the offset of its `<`.
    #[error("nested too deep at {at}")]
    Deep { at: usize },
    /// An allocation failed.
    #[error("out of memory")]
    Memory,
}

impl From<AllocError> for TextFault {
    ghost from_gives = { λ _ e. e ≡ Memory };

    fn from(_e: AllocError) -> TextFault {
        TextFault::Memory
    }
}

impl<T: Drop> From<AllocFailed<T>> for TextFault {
    ghost from_gives = { λ _ e. e ≡ Memory };

    fn from(_e: AllocFailed<T>) -> TextFault {
        TextFault::Memory
    }
}
