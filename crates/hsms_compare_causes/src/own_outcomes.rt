//! The outcome of a request, by the entries after it.

ghost use Rattle.std.specs.Prelude.{◌≡◌, ◌-◌, is_some, nat_lt};
ghost use Rattle.hsms_machine.specs.Entry.{entry_at};
ghost use Rattle.hsms_compare_causes.specs.OwnOutcome.{IsOwnOutcome, answered_at, closed_by as is_closed_by, limit_of as limit_by, unclosed as is_unclosed, unclosed_by};

use crate::events::{is_control_request, is_reject};
use crate::indexed_log::IndexedLog;
use crate::own_outcome::OwnOutcome;
use crate::search::{time_at, time_from};
use crate::traced_log::TracedLog;
use crate::wanted::Wanted;
use hsms_frame::Header;
use hsms_machine::{Entry, Event, Settings};

/// Returns the time within which a request has to be answered: T6 for a control message, T3 for data.
pub fn limit_of(settings: &Settings, request: Header) -> u64
    ensures { result ≡ limit_by settings.now request }
{
    if is_control_request(request) {
        settings.t6() as u64
    } else {
        settings.t3() as u64
    }
}

/// Returns the outcome of the request that the entry at an index sends.
pub fn own_outcome(log: &TracedLog, index: usize, request: Header, limit: u64) -> OwnOutcome
    ensures { IsOwnOutcome log.now.entries log.now.is_open index request limit result }
{
    let entries = log.entries.as_slice();
    match log.entries.first_after(index, Wanted::Closing(request)) {
        Some(closing) => {
            let after = time_from(entries, index, closing);
            closed_by(limit, closing, after, &entries[closing].event)
        }
        None => unclosed(&log.entries, log.is_open, index, request, limit),
    }
}

/// Returns the outcome of a request that the event at an index closes, this time after it was sent.
fn closed_by(limit: u64, closing: usize, after: u64, event: &Event) -> OwnOutcome
    ensures { result ≡ is_closed_by limit closing after event.now }
{
    match event {
        Event::Sent(_) => OwnOutcome::Expired,
        Event::Taken(frame) => {
            if is_reject(frame.header) {
                return OwnOutcome::Rejected { reject: closing };
            }
            answered(limit, closing, after)
        }
        Event::Discarded(_) => OwnOutcome::Expired,
        Event::Up => OwnOutcome::Expired,
        Event::T3(_) => OwnOutcome::Expired,
        Event::Cut(_) => OwnOutcome::Expired,
        Event::Down => OwnOutcome::Expired,
    }
}

fn answered(limit: u64, reply: usize, after: u64) -> OwnOutcome
    ensures { result ≡ answered_at limit reply after }
{
    if limit < after {
        return OwnOutcome::Late { reply };
    }
    OwnOutcome::Answered { reply }
}

/// Returns the outcome of a request that no entry closes.
fn unclosed(
    entries: &IndexedLog,
    is_open: bool,
    index: usize,
    request: Header,
    limit: u64,
) -> OwnOutcome
    ensures { result ≡ is_unclosed entries.now is_open index request limit }
{
    let since = time_at(entries.as_slice(), index);
    let cut = entries.first_after(index, Wanted::Cut { since, limit });
    let is_late = is_later(entries.latest_after(index), since, limit);
    outcome_by(is_open, is_control_request(request), cut, is_late)
}

/// Returns whether a time is later than the limit after another one.
fn is_later(time: u64, since: u64, limit: u64) -> bool
    ensures { result ≡ nat_lt limit (time - since) }
{
    limit < time.saturating_sub(since)
}

fn outcome_by(is_open: bool, is_control: bool, cut: Option<usize>, is_late: bool) -> OwnOutcome
    ensures { result ≡ unclosed_by is_open is_control (is_some cut) is_late }
{
    if is_control && cut.is_some() {
        return OwnOutcome::Expired;
    }
    if is_late {
        return OwnOutcome::Overdue;
    }
    if is_open {
        return OwnOutcome::Open;
    }
    OwnOutcome::Ended
}
