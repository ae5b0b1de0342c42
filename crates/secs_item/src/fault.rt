//! The errors of items.

ghost use Rattle.std.specs.Prelude.{◌≡◌};
ghost use Rattle.secs_item.specs.declared.fault.ItemFault.TheVariants.{Memory};

use std::alloc::AllocError;
use thiserror::Error;

/// The reason why bytes are not an item, or why an item has no encoding.
///
/// `at` is a byte offset from the start of the input, counted from 0. It is the offset of the invalid header; if an
/// element is missing, it is the offset where its header would begin. The errors of one header are checked in this
/// order: no byte is left (`Truncated`), `NoLength`, `Format`, `Deep`, a length byte is missing (`Truncated`),
/// `Ragged`, the body is cut off (`Truncated`).
#[derive(Clone, Copy, Debug, PartialEq, Eq, Error)]
pub enum ItemFault {
    /// 1: the header's format byte gives no length bytes, which SEMI E5 forbids.
    #[error("no length octets at {at}")]
    NoLength { at: usize },
    /// 2: no item format has this code.
    #[error("unknown format code at {at}")]
    Format { at: usize },
    /// 3: a list would exceed the maximum depth.
    #[error("nested too deep at {at}")]
    Deep { at: usize },
    /// 4: the body's length is not a multiple of the size of a value.
    #[error("no whole number of values at {at}")]
    Ragged { at: usize },
    /// 5: the bytes end before the item does.
    #[error("truncated at {at}")]
    Truncated { at: usize },
    /// 6: bytes follow the item of a text, from this offset on.
    #[error("octets follow the item at {at}")]
    Trailing { at: usize },
    /// 7: the length of a body or a list exceeds 16,777,215, the maximum that three bytes hold. Only `encode` returns
    /// it.
    #[error("too large for three length octets")]
    TooLarge,
    /// 8: an allocation failed. The partial result is dropped, and the arguments are unchanged.
    #[error("out of memory")]
    Memory,
}

impl From<AllocError> for ItemFault {
    ghost from_gives = { λ _ f. f ≡ Memory };

    fn from(_: AllocError) -> ItemFault {
        ItemFault::Memory
    }
}
