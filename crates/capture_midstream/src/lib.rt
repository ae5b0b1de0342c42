//! Where the session stands in a capture that begins within it, and what is supposed to stand before.
//!
//! Such a capture has no SYN, and may begin anywhere within a message. [`begins`] finds the place at which a direction
//! begins in its octets, as they come, and [`begins_at_end`] where none follows; [`reaches`], [`octets_before`] and
//! [`is_from`] hold segments against that place. What stood before is supposed, by the first message that says
//! something of it ([`assumed_by`]); and a response is left out whose request may stand before ([`Requests`]). The
//! definitions are in `specs/`; [`laws`] has what follows from them.
#![tactic(auto)]

mod assumption;
mod buffered_packet;
mod candidate;
mod chunk;
mod chunk_map;
pub mod laws;
mod message_check;
mod packet_buffer;
mod requests;
mod sequence_numbers;
mod session_filter;
mod sync_packet;
mod sync_point;
mod sync_search;
mod synthetic_handshake;

pub use assumption::{Assumption, assumed_by};
pub use buffered_packet::{Begun, BufferedPacket};
pub use message_check::header_at;
pub use packet_buffer::{Beginnings, Gathering};
pub use requests::Requests;
pub use sequence_numbers::{is_from, octets_before, reaches};
pub use session_filter::Session;
pub use sync_packet::Start;
pub use sync_point::{Beginning, begins, begins_at_end};
pub use synthetic_handshake::{Handshake, opening, segment_from, start_of};
