//! Facts of one direction.

/// What two logs tell of a frame that one endpoint sent or the other one received, by line numbers of the sender's log
/// and of the receiver's.
#[derive(Clone, Copy, Debug, PartialEq, Eq)]
pub enum Fact {
    /// The sent frame is not received, but a later one, at the receiver's line.
    Skipped { sender: u64, receiver: u64 },
    /// The sent frame is received after a later one.
    Swapped { sender: u64, receiver: u64 },
    /// Another text is received than was sent, under one header.
    Differs { sender: u64, receiver: u64 },
    /// The frame is received once more than it was sent.
    Again { receiver: u64 },
    /// The frame is received, and was not sent.
    Unsent { receiver: u64 },
    /// From this line on this number of frames is received after all that the sender's log has, which is open: they may
    /// have been sent later. No more than 256 are counted.
    Later { receiver: u64, received: u64 },
    /// From this line on the received frames are not found. A part of a log may be missing.
    Unfound { receiver: u64 },
}
