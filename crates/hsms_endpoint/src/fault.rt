//! The errors of the calls of an endpoint.

ghost use Rattle.std.specs.Prelude.{◌≡◌};
ghost use Rattle.hsms_endpoint.specs.declared.fault.EndFault.TheVariants.{Memory};

use std::alloc::AllocError;

/// Why a call of an endpoint returned no entries. All errors but `Memory` change nothing.
#[derive(Clone, Copy, Debug, PartialEq, Eq)]
pub enum EndFault {
    /// An allocation failed in an earlier call.
    Spent,
    /// The connection is not up. A start returns it if the connection was up before.
    NotUp,
    /// A message is sent while the session is not selected (SEMI E37, section 7).
    NotSelected,
    /// The function of the message to send is not odd (SEMI E5, section 8, transactions).
    NotPrimary,
    /// The message to send is of stream 9. An endpoint reports errors by itself.
    Nine,
    /// 64 own transactions are open, and the call would open another one.
    Full,
    /// The message's item has no encoding, or header and text have more bytes than the settings allow.
    TooLong,
    /// The message's item nests deeper than the settings allow.
    TooDeep,
    /// An allocation failed. The endpoint is no longer usable, and the entries of the call are lost.
    Memory,
}

impl From<AllocError> for EndFault {
    ghost from_gives = { λ _ e. e ≡ Memory };

    fn from(_: AllocError) -> EndFault {
        EndFault::Memory
    }
}
