//! The failed requests of a connection.

ghost use Rattle.std.specs.Prelude.{◌≡◌, ◌++◌, IfOk, OnOk};
ghost use Rattle.hsms_machine.specs.Entry.{entry_at};
ghost use Rattle.hsms_compare_causes.specs.Failures.{AreFailures, IsFailureAt, discards_at, ended_index, failed_by, failure_list, failure_of, is_failure as fails, line_in, lines_by, rejects_at, shown_trace, sends_reject as is_sent_reject, span_of, time_after, times_by};

use crate::events::{is_discarded, is_reject};
use crate::failed_request::{FailedRequest, RequestLines, RequestTimes};
use crate::failure_cause::FailureCause;
use crate::own_outcome::OwnOutcome;
use crate::request_trace::RequestTrace;
use crate::search::time_from;
use crate::traced_log::TracedLog;
use crate::traced_request::TracedRequest;
use crate::tracing::is_discarded_at;
use hsms_machine::{Entry, Event, Settings};
use std::alloc::{AllocError, Global};

/// Returns the requests of the own log that were not answered in time, in order. `settings` are those of the own log.
///
/// # Errors
///
/// Returns `AllocError` if an allocation fails.
pub fn failures_of(
    alloc: Global,
    own: &TracedLog,
    other: &TracedLog,
    settings: &Settings,
) -> Result<Vec<FailedRequest>, AllocError>
    ensures { IfOk result (λ found. AreFailures own.now other.now settings.now 0 own.now.entries found.items) }
{
    let mut found = Vec::new(alloc);
    for i in 0..own.entries.as_slice().len() {
        push_some(&mut found, failure_at(own, other, i, settings))?;
    }
    Ok(found)
}

/// Appends a failure, if there is one.
fn push_some(
    found: &mut Vec<FailedRequest>,
    failure: Option<FailedRequest>,
) -> Result<(), AllocError>
    ensures { OnOk result (found.new.items ≡ found.old.items ++ failure_list failure) }
{
    if let Some(failed) = failure {
        found.push(failed)?;
    }
    Ok(())
}

/// Returns the failure of the request that the own entry at an index sends, if it sends one that fails.
fn failure_at(
    own: &TracedLog,
    other: &TracedLog,
    index: usize,
    settings: &Settings,
) -> Option<FailedRequest>
    ensures { IsFailureAt own.now other.now settings.now index result }
{
    failure(
        own,
        other,
        index,
        TracedRequest::of(own, other, index, settings),
    )
}

fn failure(
    own: &TracedLog,
    other: &TracedLog,
    index: usize,
    traced: Option<TracedRequest>,
) -> Option<FailedRequest>
    ensures { result ≡ failure_of own.now other.now index traced }
{
    let Some(traced) = traced else {
        return None;
    };
    if is_failure(traced.outcome) {
        return Some(failed(own, other, index, traced));
    }
    None
}

/// Returns whether a request was not answered in time.
fn is_failure(outcome: OwnOutcome) -> bool
    ensures { result ≡ fails outcome }
{
    match outcome {
        OwnOutcome::Answered { .. } => false,
        OwnOutcome::Late { .. } => true,
        OwnOutcome::Rejected { .. } => true,
        OwnOutcome::Expired => true,
        OwnOutcome::Overdue => true,
        OwnOutcome::Ended => true,
        OwnOutcome::Open => true,
    }
}

/// Returns a failed request with the lines and times of both logs.
fn failed(own: &TracedLog, other: &TracedLog, index: usize, traced: TracedRequest) -> FailedRequest
    ensures { result ≡ failed_by own.now other.now index traced }
{
    let shown = shown(own, traced.outcome, traced.entries);
    FailedRequest {
        line: own.line(index),
        request: traced.request,
        outcome: traced.outcome,
        cause: traced.cause,
        lines: lines(own, other, traced.cause, shown),
        times: times(own, other, index, traced.outcome, shown),
        is_discarded: discards(other, shown.received),
        is_rejected: rejects(other, shown.answered),
    }
}

/// Returns the entries that are shown. Of a rejected request that is what received it, and what sent the Reject.
fn shown(own: &TracedLog, outcome: OwnOutcome, entries: RequestTrace) -> RequestTrace
    ensures { result ≡ shown_trace own.now outcome entries }
{
    match outcome {
        OwnOutcome::Rejected { reject } => RequestTrace {
            received: entries.received,
            answered: own.matched(reject).index(),
            reply: None,
            ended: None,
        },
        OwnOutcome::Answered { .. } => entries,
        OwnOutcome::Late { .. } => entries,
        OwnOutcome::Expired => entries,
        OwnOutcome::Overdue => entries,
        OwnOutcome::Ended => entries,
        OwnOutcome::Open => entries,
    }
}

fn lines(
    own: &TracedLog,
    other: &TracedLog,
    cause: FailureCause,
    shown: RequestTrace,
) -> RequestLines
    ensures { result ≡ lines_by own.now other.now cause shown }
{
    RequestLines {
        received: line_of(other, shown.received),
        answered: line_of(other, shown.answered),
        reply: line_of(own, shown.reply),
        ended: line_of(other, ended(cause, shown.ended)),
    }
}

/// Returns the entry that ends the session or the connection, if that is the cause.
fn ended(cause: FailureCause, index: Option<usize>) -> Option<usize>
    ensures { result ≡ ended_index cause index }
{
    match cause {
        FailureCause::Ended => index,
        FailureCause::Rejected => None,
        FailureCause::RequestSkipped => None,
        FailureCause::RequestMissing => None,
        FailureCause::Discarded => None,
        FailureCause::Unanswered => None,
        FailureCause::InTime => None,
        FailureCause::AnsweredLate => None,
        FailureCause::Peer => None,
        FailureCause::Between => None,
        FailureCause::ReplyMissing => None,
        FailureCause::Unknown => None,
    }
}

fn line_of(log: &TracedLog, index: Option<usize>) -> Option<u64>
    ensures { result ≡ line_in log.now index }
{
    match index {
        Some(index) => Some(log.line(index)),
        None => None,
    }
}

/// Returns the times between the entries that are shown. Of a rejected request none is shown.
fn times(
    own: &TracedLog,
    other: &TracedLog,
    index: usize,
    outcome: OwnOutcome,
    shown: RequestTrace,
) -> RequestTimes
    ensures { result ≡ times_by own.now other.now index outcome shown }
{
    if matches!(outcome, OwnOutcome::Rejected { .. }) {
        return RequestTimes {
            took: None,
            after: None,
            between: None,
        };
    }
    let took = span(other.entries.as_slice(), shown.received, shown.answered);
    let after = span(own.entries.as_slice(), Some(index), shown.reply);
    RequestTimes {
        took,
        after,
        between: rest(took, after),
    }
}

/// Returns the milliseconds from one entry to another one, if both exist.
fn span(log: &[Entry], from: Option<usize>, to: Option<usize>) -> Option<u64>
    ensures { result ≡ span_of log.now from to }
{
    let Some(from) = from else {
        return None;
    };
    let Some(to) = to else {
        return None;
    };
    Some(time_from(log, from, to))
}

/// Returns what is left of the second time after the first one, if both exist.
fn rest(took: Option<u64>, after: Option<u64>) -> Option<u64>
    ensures { result ≡ time_after took after }
{
    let Some(took) = took else {
        return None;
    };
    let Some(after) = after else {
        return None;
    };
    Some(after.saturating_sub(took))
}

fn discards(other: &TracedLog, index: Option<usize>) -> bool
    ensures { result ≡ discards_at other.now index }
{
    match index {
        Some(index) => is_discarded_at(other.entries.as_slice(), index),
        None => false,
    }
}

fn rejects(other: &TracedLog, index: Option<usize>) -> bool
    ensures { result ≡ rejects_at other.now index }
{
    match index {
        Some(index) => rejects_in(other.entries.as_slice(), index),
        None => false,
    }
}

/// Returns whether the entry at an index sends a Reject.
fn rejects_in(log: &[Entry], index: usize) -> bool
    ensures { result ≡ is_sent_reject (entry_at log.now index).event }
{
    index < log.len() && sends_reject(&log[index].event)
}

/// Returns whether an event sends a Reject.
fn sends_reject(event: &Event) -> bool
    ensures { result ≡ is_sent_reject event.now }
{
    match event {
        Event::Sent(frame) => is_reject(frame.header),
        Event::Taken(_) => false,
        Event::Discarded(_) => false,
        Event::Up => false,
        Event::T3(_) => false,
        Event::Cut(_) => false,
        Event::Down => false,
    }
}
