//! The cause of a failed request, by what both logs have of it.

ghost use Rattle.std.specs.Prelude.{◌≡◌};
ghost use Rattle.hsms_compare_causes.specs.FailureCause.{cause_by, cause_by_times, cause_of_trace, cause_without_answer, cause_without_reply, cause_without_request};

use crate::failure_cause::FailureCause;
use crate::own_outcome::OwnOutcome;
use crate::request_trace::RequestTrace;
use crate::search::time_from;
use crate::traced_log::{Counterpart, TracedLog};
use crate::tracing::is_discarded_at;

/// Returns the cause of a request's failure. The own entry at an index sends it, and an answer is in time within
/// `limit` milliseconds.
pub fn cause_of(
    own: &TracedLog,
    other: &TracedLog,
    index: usize,
    limit: u64,
    outcome: OwnOutcome,
    trace: RequestTrace,
) -> FailureCause
    ensures { result ≡ cause_by own.now other.now index limit outcome trace }
{
    match outcome {
        OwnOutcome::Rejected { .. } => FailureCause::Rejected,
        OwnOutcome::Answered { .. } => of_trace(own, other, index, limit, trace),
        OwnOutcome::Late { .. } => of_trace(own, other, index, limit, trace),
        OwnOutcome::Expired => of_trace(own, other, index, limit, trace),
        OwnOutcome::Overdue => of_trace(own, other, index, limit, trace),
        OwnOutcome::Ended => of_trace(own, other, index, limit, trace),
        OwnOutcome::Open => of_trace(own, other, index, limit, trace),
    }
}

fn of_trace(
    own: &TracedLog,
    other: &TracedLog,
    index: usize,
    limit: u64,
    trace: RequestTrace,
) -> FailureCause
    ensures { result ≡ cause_of_trace own.now other.now index limit trace }
{
    let Some(received) = trace.received else {
        return without_request(own.matched(index), trace.reply);
    };
    if is_discarded_at(other.entries.as_slice(), received) {
        return FailureCause::Discarded;
    }
    let Some(answered) = trace.answered else {
        return match trace.reply {
            Some(_) => FailureCause::Unknown,
            None => without_answer(other, limit, received, trace.ended),
        };
    };
    let took = time_from(other.entries.as_slice(), received, answered);
    match trace.reply {
        Some(reply) => by_times(limit, took, time_from(own.entries.as_slice(), index, reply)),
        None => without_reply(limit, took, other.matched(answered)),
    }
}

/// Returns the cause if the other log lacks the request.
fn without_request(request: Counterpart, reply: Option<usize>) -> FailureCause
    ensures { result ≡ cause_without_request request reply }
{
    match request {
        Counterpart::At(_) => FailureCause::Unknown,
        Counterpart::NotReached => match reply {
            Some(_) => FailureCause::RequestSkipped,
            None => FailureCause::RequestMissing,
        },
        Counterpart::Undecided => FailureCause::Unknown,
    }
}

/// Returns the cause if no log has an answer.
fn without_answer(
    other: &TracedLog,
    limit: u64,
    received: usize,
    ended: Option<usize>,
) -> FailureCause
    ensures { result ≡ cause_without_answer other.now limit received ended }
{
    let entries = other.entries.as_slice();
    let last = match ended {
        Some(end) => end,
        None => entries.len().saturating_sub(1),
    };
    if limit < time_from(entries, received, last) {
        return FailureCause::Unanswered;
    }
    if ended.is_none() && other.is_open {
        return FailureCause::Unknown;
    }
    FailureCause::Ended
}

/// Returns the cause if both logs have the answer: the other endpoint took `took` milliseconds, and the answer was
/// received `after` milliseconds after the request was sent.
fn by_times(limit: u64, took: u64, after: u64) -> FailureCause
    ensures { result ≡ cause_by_times limit took after }
{
    if after < limit {
        return FailureCause::InTime;
    }
    if limit < took {
        return FailureCause::AnsweredLate;
    }
    if after.saturating_sub(took) <= took {
        return FailureCause::Peer;
    }
    FailureCause::Between
}

/// Returns the cause if the own log lacks the answer.
fn without_reply(limit: u64, took: u64, answer: Counterpart) -> FailureCause
    ensures { result ≡ cause_without_reply limit took answer }
{
    if limit < took {
        return FailureCause::AnsweredLate;
    }
    match answer {
        Counterpart::At(_) => FailureCause::Unknown,
        Counterpart::NotReached => FailureCause::ReplyMissing,
        Counterpart::Undecided => FailureCause::Unknown,
    }
}
