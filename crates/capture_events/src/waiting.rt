//! A packet that waits.

use capture_tcp::Segment;

/// A packet that waits for the sequence number of the passive end's SYN.
#[derive(Drop)]
pub struct Waiting {
    /// The packet's TCP segment.
    pub segment: Segment,
    /// The payload.
    pub octets: Vec<u8>,
}
