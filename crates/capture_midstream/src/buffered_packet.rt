//! Packets of a session that are kept until both of its directions have begun, and where a direction begins.

use capture_tcp::Segment;

/// A packet that is kept: its segment, and the octets that it brings.
#[derive(Drop)]
pub struct BufferedPacket {
    pub segment: Segment,
    pub octets: Vec<u8>,
}

/// Where a direction begins.
#[derive(Clone, Copy, Debug, PartialEq, Eq)]
pub struct Begun {
    /// The number of its first octet.
    pub number: u32,
    /// Whether three messages stand there one behind another.
    pub is_sure: bool,
}
