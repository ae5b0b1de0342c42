//! A contradiction of two logs.

use hsms_machine::Role;

/// A contradiction of two logs. Entries are counted from 0.
#[derive(Clone, Copy, Debug, PartialEq, Eq)]
pub enum Contradiction {
    /// The receiver's role, an entry of the sender's log, and one of the receiver's log. The frame that the second
    /// entry receives is not the one that the first entry sends, and both have the same number.
    Differs(Role, u64, u64),
    /// The receiver's role and an entry of its log, which receives one frame more than the other log sends in all.
    Unsent(Role, u64),
    /// An entry of the host's log and one of the equipment's. Each receives a frame that the other log sends only after
    /// the other entry: no history has both orders.
    Order(u64, u64),
}
