//! The outcome of a request by the log of the endpoint that sent it.

/// The outcome of a request by the log of the endpoint that sent it. `reply` and `reject` are entries of that log,
/// counted from 0.
#[derive(Clone, Copy, Debug, PartialEq, Eq)]
pub enum OwnOutcome {
    /// An answer closes it in time.
    Answered { reply: usize },
    /// An answer closes it too late.
    Late { reply: usize },
    /// A Reject closes it.
    Rejected { reject: usize },
    /// Its timer expired: T3 for data, T6 for a control message.
    Expired,
    /// Nothing closes it, and the session goes on for longer than its timer.
    Overdue,
    /// Nothing closes it before the connection ends.
    Ended,
    /// Nothing closes it so far. The connection may have more entries.
    Open,
}
