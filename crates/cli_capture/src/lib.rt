//! `hsms capture`: from what passed a wire to verdicts on the logs of both ends.
//!
//! [`capture_to`] reads a network capture once, packet by packet, follows each connection at a port, and writes the
//! verdict on the log of each of its ends, or the log of one end:
//!
//! ```
//! let all_pass = capture_to(alloc, options, &mut source, &mut sink, &mut unjudged)?;
//! ```
//!
//! What happens on a connection is told by `capture_tcp`; what its ends log of it, and what the audit says of their
//! logs, by `capture_log`. What looks like HSMS and is not judged is recorded by `capture_unjudged`.
#![tactic(auto)]

mod bare_resets;
mod command;
mod connection_table;
mod midstream_connection;
mod midstream_log;
mod midstream_sync;
mod pending_requests;
mod progress;
mod report;
mod skipped_packets;
mod stop_error;
mod tracked_connection;
mod verdict_line;

pub use command::capture_to;
