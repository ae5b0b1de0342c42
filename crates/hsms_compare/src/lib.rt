//! Comparison of the session logs of both endpoints of a connection: do they describe one conversation, and what
//! happened to each request? Two logs agree if some possible history gives both of them. A history is an order of all
//! their entries. It is possible if at each time what an endpoint has received is a prefix of what the other one has
//! sent. TCP promises that, and no more. What is sent and never received is lost, which is no contradiction.
//!
//! ```
//! match first_contradiction(alloc, host.as_slice(), equipment.as_slice())? {
//!     None => {}                 // the logs of one connection agree
//!     Some(contradiction) => {}  // the entries that contradict each other
//! }
//! let outcome = outcome_of(host.as_slice(), equipment.as_slice(), request, 45000);
//! ```
#![tactic(auto)]

mod channel;
mod comparison;
mod connections;
mod contradiction;
pub mod laws;
mod line_contradiction;
mod merge;
mod outcome;
mod pass;
mod reading;
mod request_state;
mod stop;
mod tracing;

pub use comparison::{Comparison, Reach, compare, first_contradiction};
pub use connections::LogContradiction;
pub use contradiction::Contradiction;
pub use line_contradiction::LineContradiction;
pub use merge::Merge;
pub use outcome::Outcome;
pub use reading::{Entries, NumberedEntry, ReadFault};
pub use request_state::{LogCounts, RequestState};
pub use stop::{MergeResult, Stop};
pub use tracing::outcome_of;
