//! A log that was read to its end.

use hsms_compare_causes::ConnectionLog;
use hsms_compare_repair::LogFrames;
use hsms_log::Verdict;

/// What is compared of a log, and the verdict on it.
#[derive(Drop)]
pub struct ReadLog {
    /// The number of the line of the first `up`, or `None` if there is none.
    pub up: Option<u64>,
    /// The frames of the first connection.
    pub frames: LogFrames,
    /// True if other connections follow it.
    pub is_followed: bool,
    pub verdict: Verdict,
}

/// A log that was read to its end, and the entries of its first connection without the texts of their messages.
#[derive(Drop)]
pub struct FinishedLog {
    pub log: ReadLog,
    pub entries: ConnectionLog,
}
