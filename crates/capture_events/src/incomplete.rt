//! Why events are missing.

use capture_pcap::FileFault;

/// Why the events of a connection, or of a capture, are incomplete, with a packet number: the packet that shows a loss,
/// or otherwise the packet from which on there are no events.
#[derive(Clone, Copy)]
pub enum Shortfall {
    /// The capture lost data.
    Lost(u64),
    /// A retransmission conflicts with an earlier packet.
    Differs(u64),
    /// A message has fewer than ten bytes, or more than an endpoint takes.
    Length(u64),
    /// Too many bytes wait, out of order or not acknowledged.
    Full(u64),
    /// A packet has no time in milliseconds since 1970.
    Time(u64),
    /// The file cannot be read further.
    File(FileFault, u64),
}
