//! The packet with which both directions have begun.

/// The number of the packet, and the greatest time of the packets up to it.
#[derive(Clone, Copy, Debug, PartialEq, Eq)]
pub struct Start {
    pub packet: u64,
    pub time: u64,
}
