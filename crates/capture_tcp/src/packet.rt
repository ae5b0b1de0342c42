//! Segments of a connection, and the packets that carry them, by their offsets.

use crate::keep_alive::Flags;

/// An end of a connection: the active end, which connected, or the passive end, which was connected to.
#[derive(Clone, Copy, Debug, PartialEq, Eq)]
pub enum Side {
    Active,
    Passive,
}

/// A segment as it was captured, without its payload: the sender, the packet number, the capture time in milliseconds,
/// and the TCP sequence numbers.
#[derive(Clone, Copy, Debug)]
pub struct Segment {
    pub from: Side,
    pub packet: u64,
    pub time: u64,
    pub number: u32,
    pub acknowledged: Option<u32>,
    pub flags: Flags,
    pub reset: bool,
}

/// A packet by its offset. It carries the cells of its stream from one offset up to another; the first cell of a stream
/// is the SYN. It acknowledges what comes before an offset of the other direction.
#[derive(Clone, Copy, Debug, PartialEq, Eq)]
pub struct Packet {
    pub packet: u64,
    pub time: u64,
    pub from: u64,
    pub to: u64,
    pub acknowledged: Option<u64>,
    pub reset: bool,
}
