//! The outcome of a request, by the logs of both endpoints.

/// The outcome of a frame that an endpoint sent, by the logs of both endpoints. `received`, `discarded` and
/// `answered` are entries of the other log, and `reply` is one of the own log, all counted from 0. `took` and `after`
/// are milliseconds, each within one log.
#[derive(Clone, Copy, Debug, PartialEq, Eq)]
pub enum Outcome {
    /// The other log does not receive it.
    NotReceived,
    /// The other log discards it.
    Discarded {
        discarded: u64,
    },
    /// The other log accepts it and does not answer it.
    Unanswered {
        received: u64,
    },
    /// The other log accepts it and answers it after `took`: too late.
    AnsweredLate {
        received: u64,
        answered: u64,
        took: u64,
    },
    /// The other log accepts it and answers it in time, and the own log does not receive the answer.
    ReplyNotReceived {
        received: u64,
        answered: u64,
        took: u64,
    },
    /// The other log accepts it and answers it in time, and the own log receives the answer, `after` milliseconds
    /// after the frame was sent.
    Replied {
        received: u64,
        answered: u64,
        took: u64,
        reply: u64,
        after: u64,
    },
}
