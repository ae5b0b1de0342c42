//! A request, traced through both logs.

use crate::causes::cause_of;
use crate::events::sent_request;
use crate::failure_cause::FailureCause;
use crate::own_outcome::OwnOutcome;
use crate::own_outcomes::{limit_of, own_outcome};
use crate::request_trace::RequestTrace;
use crate::traced_log::TracedLog;
use crate::tracing::trace;
use hsms_frame::Header;
use hsms_machine::Settings;

/// A request, traced through both logs.
#[derive(Clone, Copy, Debug, PartialEq, Eq)]
pub struct TracedRequest {
    pub request: Header,
    /// The outcome by the own log.
    pub outcome: OwnOutcome,
    /// Why the request failed, unless the outcome is `Answered`.
    pub cause: FailureCause,
    /// The entries of both logs that belong to it.
    pub entries: RequestTrace,
}

impl TracedRequest {
    ghost use Rattle.std.specs.Prelude.{◌≡◌, None, MatchOption};
    ghost use Rattle.hsms_compare_causes.specs.TracedRequest.{IsTraced, request_at};

    /// Traces the request that the own entry at an index sends. `settings` are those of the own log. Returns `None` if
    /// the entry sends no request.
    pub fn of(
        own: &TracedLog,
        other: &TracedLog,
        index: usize,
        settings: &Settings,
    ) -> Option<TracedRequest>
        ensures { MatchOption result (request_at own.now index ≡ None) (IsTraced own.now other.now index settings.now) }
    {
        let log = own.entries.as_slice();
        if index >= log.len() {
            return None;
        }
        let request = sent_request(&log[index].event)?;
        let limit = limit_of(settings, request);
        let outcome = own_outcome(own, index, request, limit);
        let entries = trace(own, other, index, request);
        let cause = cause_of(own, other, index, limit, outcome, entries);
        Some(TracedRequest {
            request,
            outcome,
            cause,
            entries,
        })
    }
}
