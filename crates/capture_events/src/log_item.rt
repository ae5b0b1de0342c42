//! What both endpoints of a connection log of it.

use capture_log::LogComment;
use capture_tcp::Side;
use hsms_frame::Frame;

/// The kind of a log entry.
#[derive(Drop)]
pub enum EntryKind {
    /// The connection was established. The number is that of the packet that an error names, if the log cannot have
    /// this entry.
    Up(u64),
    /// The endpoint of a side sent a message.
    Message(Side, Frame),
    /// The connection was closed.
    Down,
}

/// A comment in the logs of both endpoints, and the entry after it, if there is one.
#[derive(Drop)]
pub struct LogItem {
    /// The comment.
    pub comment: LogComment,
    /// The time of the entry in milliseconds since 1970. The logs use the time of the entry before, if that is later.
    pub time: u64,
    /// The kind of the entry. `None` for a comment alone.
    pub kind: Option<EntryKind>,
}
