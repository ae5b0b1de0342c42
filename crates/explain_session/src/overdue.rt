//! The request, or the connection, whose timer has expired when an entry comes.

use crate::context::Known;
use explain_lines::{Overdue, Waiting};
use hsms_frame::{Header, Kind, kind};
use hsms_log::{Step, What};
use hsms_machine::{EntryRef, Mark, Message, Rule, concludes};

/// Returns what a failure of `T3Overdue` or `LinkOverdue` involves: the request that waited longer than T3 or T6, or the
/// connection that waited longer than T7. `step` is what fails.
pub fn overdue_of(known: &Known, step: Step, rule: Rule) -> Option<Overdue> {
    if rule == Rule::T3Overdue {
        let (since, primary) = known.repaired_session.oldest_data()?;
        return overdue(known, step, since, primary, "T3", known.settings.t3());
    }
    if rule == Rule::LinkOverdue {
        return overdue_link(known, step);
    }
    None
}

// Returns the request that waited longer than T6, or otherwise the connection that waited longer than T7.
fn overdue_link(known: &Known, step: Step) -> Option<Overdue> {
    match overdue_control(known, step) {
        Some(overdue) => Some(overdue),
        None => overdue_connection(known, step),
    }
}

// Returns the oldest request that waits for a control message, if T6 has expired.
fn overdue_control(known: &Known, step: Step) -> Option<Overdue> {
    let (since, request) = known.repaired_session.oldest_control()?;
    overdue(known, step, since, request, "T6", known.settings.t6())
}

// Returns the connection if T7 has expired.
fn overdue_connection(known: &Known, step: Step) -> Option<Overdue> {
    let up = known.past.up?;
    let waited = step.time.saturating_sub(up.time);
    let limit = known.settings.t7();
    (waited > u64::from(limit)).then_some(Overdue {
        waiting: Waiting::Connection,
        line: up.line,
        waited,
        timer: "T7",
        limit,
        is_reply: false,
    })
}

// Returns the request if its timer has expired.
fn overdue(
    known: &Known,
    step: Step,
    since: u64,
    request: Header,
    timer: &'static str,
    limit: u32,
) -> Option<Overdue> {
    let waited = step.time.saturating_sub(since);
    if waited <= u64::from(limit) {
        return None;
    }
    let sent = EntryRef::of_frame(0, Mark::Sent, request, &[]);
    Some(Overdue {
        waiting: Waiting::Request(request),
        line: known.repaired_session.in_use(&sent)?,
        waited,
        timer,
        limit,
        is_reply: is_reply(request, step.what),
    })
}

// Returns whether a received frame answers the request.
fn is_reply(request: Header, what: What) -> bool {
    match what {
        What::Frame(Mark::Taken | Mark::Discarded, header) => {
            kind(header) != Kind::Reject && concludes(request, Message::of(header))
        }
        _ => false,
    }
}
