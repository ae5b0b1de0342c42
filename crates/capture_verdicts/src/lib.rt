//! The verdicts on the logs of both endpoints of each connection of a capture, from the capture's events.
//!
//! A [`VerdictReport`] processes [`capture_events::Event`]s. It audits the logs of both endpoints as they grow, and
//! appends the lines of their verdicts to a buffer.
#![tactic(auto)]

mod pair_logs;
mod skipped_packets;
mod verdict_line;
mod verdict_report;

pub use pair_logs::PairLogs;
pub use skipped_packets::SkippedPackets;
pub use verdict_report::VerdictReport;
