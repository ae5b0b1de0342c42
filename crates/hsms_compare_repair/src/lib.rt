//! Comparison of the session logs of both endpoints of a connection, continued behind a contradiction. In each
//! direction a received frame that is not the next sent one is given one row of a table, and the comparison continues
//! as if the logs agreed there. So one missing line is one fact.
//!
//! ```
//! let facts = facts_of(alloc, host_sent.as_slice(), equipment_received.as_slice(), host_is_open, shown)?;
//! ```
#![tactic(auto)]

mod fact;
mod facts;
mod finding;
pub mod laws;
mod matching;
mod numbered_frame;
mod pair;

pub use fact::Fact;
pub use facts::{facts_of, shown_line};
pub use finding::Finding;
pub use numbered_frame::NumberedFrame;
pub use pair::{ConnectionFacts, LogFrames};
