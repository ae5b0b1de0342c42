//! What both ends of a captured connection log of it, and what the audit says of their logs.
//!
//! [`BothLogs`] are the logs of both ends of a [`Pair`], an [`AuditedLog`] is one of them: each is audited as it grows, and none
//! is held. A [`WrittenLog`] is the log of one end of all connections between the same two addresses, as it is written.
#![tactic(auto)]

mod audited_log;
mod both_logs;
mod byte_buffer;
mod frame_parts;
mod socket_pair;
mod stop;
mod written_log;

pub use audited_log::{AuditedLog, LogComment, LogVerdict};
pub use both_logs::{BothLogs, LogResult, unboxed};
pub use byte_buffer::Text;
pub use socket_pair::{Pair, pairs_of};
pub use stop::Stop;
pub use written_log::WrittenLog;
