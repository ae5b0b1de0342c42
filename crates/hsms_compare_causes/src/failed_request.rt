//! A request that was not answered in time.

use crate::failure_cause::FailureCause;
use crate::own_outcome::OwnOutcome;
use hsms_frame::Header;

/// The lines of both logs that belong to a request.
#[derive(Clone, Copy, Debug, PartialEq, Eq)]
pub struct RequestLines {
    /// The other log's line that receives the request.
    pub received: Option<u64>,
    /// The other log's line that sends an answer or a Reject.
    pub answered: Option<u64>,
    /// The own log's line that receives an answer.
    pub reply: Option<u64>,
    /// The other log's line that ends the session or the connection, if the cause is `Ended`.
    pub ended: Option<u64>,
}

/// Times in milliseconds, each by one clock.
#[derive(Clone, Copy, Debug, PartialEq, Eq)]
pub struct RequestTimes {
    /// The other endpoint's time from the request to its answer.
    pub took: Option<u64>,
    /// The own time from the request to the answer.
    pub after: Option<u64>,
    /// The difference: the time between both logs.
    pub between: Option<u64>,
}

/// A request that was not answered in time, and what both logs have of it.
#[derive(Clone, Copy, Debug, PartialEq, Eq)]
pub struct FailedRequest {
    /// Its line in the own log.
    pub line: u64,
    pub request: Header,
    pub outcome: OwnOutcome,
    pub cause: FailureCause,
    pub lines: RequestLines,
    pub times: RequestTimes,
    /// Whether the other log discards the request.
    pub is_discarded: bool,
    /// Whether the other log's answer is a Reject.
    pub is_rejected: bool,
}
