//! Packets of a network capture, and the TCP segments in them.
//!
//! [`Packets`] reads a file from a source in blocks, and returns one record (pcap) or block (pcapng) at a time. It
//! holds at most one of them and one block of the source. If the bytes are in memory already, [`format_of`] returns the
//! format from the first bytes. A [`Reader`] then finds the record or block at the start of the bytes that follow, and
//! continues after it. [`segment_of`] returns the content of a packet, for each link layer. The bytes stay where they
//! were read.
//!
//! ```
//! let mut packets = Packets::open(alloc, &mut source)?;
//! match packets.next(&mut source)? {
//!     Step::Packet(number, record) => segment_of(record.link, octets_of(&record, packets.octets())),
//!     Step::Passed => .., // not a packet
//!     Step::End => ..,
//! }
//! ```
#![tactic(auto)]

mod block_reader;
mod byte_order;
mod checksum;
mod fault;
pub mod laws;
mod next_block;
mod packet_reader;
mod segment;

pub use block_reader::{Format, Opening, Reader, format_of, octets_of};
pub use byte_order::Order;
pub use fault::{CaptureFault, FileFault};
pub use next_block::{Front, Interface, Record};
pub use packet_reader::{Packets, Step};
pub use segment::{Address, Reason, Segment, Shown, segment_of};
