//! What became of each request of a connection, by the logs of both endpoints: how it ended by the log of the endpoint
//! that sent it, and where the other endpoint's log has the request and its answer. The cause of a failure follows from
//! these positions and from times within each log. Nothing is matched by system bytes.
//!
//! ```
//! match TracedRequest::of(&own, &other, index, settings) {
//!     None => {}           // the entry at this index sends no request
//!     Some(traced) => {}   // its outcome by the own log, the cause, and the entries of both logs
//! }
//! ```
#![tactic(auto)]

mod causes;
mod connection_log;
mod counterparts;
mod events;
mod failed_request;
mod failure_cause;
mod failures;
mod group;
mod indexed_log;
mod later_entries;
mod own_outcome;
mod own_outcomes;
mod request_trace;
mod search;
mod traced_log;
mod traced_logs;
mod traced_request;
mod tracing;
mod wanted;

pub use connection_log::ConnectionLog;
pub use failed_request::{FailedRequest, RequestLines, RequestTimes};
pub use failure_cause::FailureCause;
pub use failures::failures_of;
pub use own_outcome::OwnOutcome;
pub use request_trace::RequestTrace;
pub use traced_log::{Counterpart, TracedLog};
pub use traced_logs::TracedLogs;
pub use traced_request::TracedRequest;
