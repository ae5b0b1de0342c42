//! Why a request was not answered in time.

/// Why a request was not answered in time, by both logs. *Own* is the endpoint that sent it.
#[derive(Clone, Copy, Debug, PartialEq, Eq)]
pub enum FailureCause {
    /// The other endpoint sent a Reject.
    Rejected,
    /// The other log lacks the request, but the own log has an answer.
    RequestSkipped,
    /// The other log has neither the request nor what was sent after it.
    RequestMissing,
    /// The other endpoint discarded the request.
    Discarded,
    /// The other endpoint ended the session or the connection before the limit.
    Ended,
    /// The other endpoint accepted the request and sent no answer.
    Unanswered,
    /// The answer was received within the limit: it was discarded, or the own endpoint stopped waiting too early.
    InTime,
    /// The other endpoint answered too late, by its own clock.
    AnsweredLate,
    /// The answer was received too late, and the other endpoint took at least as long as what is between both logs.
    Peer,
    /// The answer was received too late, and most of the time passed between both logs.
    Between,
    /// The own log has neither the answer nor what was sent after it.
    ReplyMissing,
    /// The logs do not decide it.
    Unknown,
}
