//! HSMS messages (SEMI E37): headers, complete messages, and the readers and writers of their bytes.
//!
//! A message is four bytes with the length of what follows, a header of ten bytes, and a text. [`read_frame`] reads
//! one message from a [`Source`] and no byte after it. Contracts see how often a [`Source`] or [`Sink`] was called and
//! how often it failed. If it records bytes, contracts also see which bytes are left or were written. So a contract
//! can state what a program did to them. [`laws`] contains facts about messages that hold for every program.
//!
//! A program builds a message and writes it with one call. A program that receives bytes in chunks pushes each chunk,
//! and takes messages until there are no more. A program that may wait reads one message at a time. [`Ahead`] reads a
//! source in blocks, for a program that looks for messages in a buffer ([`front`]), or for other data:
//!
//! ```
//! let frame = Frame { header: data_header(0, 1, 13, true, 1), text };
//! write_frame(&mut sink, &frame)?;
//!
//! let mut framer = Framer::new(alloc, 1048576);
//! framer.push(piece)?;
//! while let Some(frame) = framer.next()? {
//!     let kind = kind(frame.header); // Kind::Primary, ..
//! }
//!
//! let frame = read_frame(alloc, &mut source, 1048576)?;  // None at the end of the input
//! ```
#![tactic(auto)]

mod build;
mod call_counts;
mod classify;
mod fault;
mod frame;
mod framer;
mod header;
mod io;
mod io_loops;
mod kinds;
pub mod laws;
mod prefix;
mod read;
mod read_ahead;
mod std_io;
mod test_io;
mod write;

pub use build::{
    data_header, linktest_req, linktest_rsp, reject_of, select_req, select_rsp, separate,
};
pub use classify::kind;
pub use fault::{AheadFault, FrameFault, ReadFault, WriteFault};
pub use frame::Frame;
pub use framer::{Framer, front};
pub use header::{CONTROL_SESSION, HEADER_LENGTH, Header};
pub use io::{Failed, Sink, Source};
pub use io_loops::{fill, give_all};
pub use kinds::Kind;
pub use prefix::{copy_front, drop_front};
pub use read::read_frame;
pub use read_ahead::Ahead;
pub use std_io::{Reader, Writer};
pub use test_io::{Feed, Store};
pub use write::{encode_frame, front_octets, write_frame};
