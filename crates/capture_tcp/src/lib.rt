//! What the packets show of a TCP connection.
//!
//! The definitions are in `specs/TcpStreams.antt`: which bytes of both directions are buffered, where each packet is
//! delivered in order, and where the capture lost something. They also give the messages that each end sent, in causal
//! order. [`laws`] states what holds of them.
//!
//! [`Connection`] processes the segments of one connection, one after another. It emits the connection's events as soon
//! as they are final, and says how they end. It is built on these:
//!
//! - [`DeliveryQueue`] finds which packets are delivered in order.
//! - [`Losses`] finds where the capture lost something, from the offsets of packets and the ends of both directions
//!   after each.
//! - [`ReassemblyBuffer`] buffers the cells of a direction by offset, and keeps the first copy of each. It finds
//!   conflicting retransmissions, and the message at an offset.
//!
//! In-order delivery depends on the offsets of bytes ([`numbered_place`], [`acknowledged_place`]) and on keep-alive
//! bytes, which carry nothing ([`only_asks`]).
#![tactic(auto)]

mod cells;
mod connection;
mod delivery;
mod emitter;
mod ending;
mod events;
pub mod examples;
mod framing;
mod keep_alive;
pub mod laws;
mod losses;
mod out_of_order;
mod packet;
mod reader_state;
mod reassembly;
mod runs;
mod stream_offset;
mod streams;
mod waiting_runs;

pub use connection::{Connection, ConnectionFault};
pub use delivery::{DeliveryFault, DeliveryQueue};
pub use ending::Ending;
pub use events::{Event, TimedEvent};
pub use keep_alive::{Flags, only_asks};
pub use losses::{BothEnds, Losses, Need};
pub use packet::{Packet, Segment, Side};
pub use reassembly::{Cell, ReassemblyBuffer, ReassemblyFault};
pub use stream_offset::{acknowledged_place, nearest_place, numbered_place};
