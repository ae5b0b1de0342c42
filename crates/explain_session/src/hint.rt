//! Hints: what was expected instead of an entry that fails, and what came.

use crate::context::Known;
use crate::history::{Closed, LeftOut, Past, Request, Requests};
use explain_lines::{Expected, Function, Setting};
use hsms_frame::{CONTROL_SESSION, Header, Kind, kind};
use hsms_log::{Step, What};
use hsms_machine::{EntryRef, Mark, Rule, Settings};
use secs_item::{ItemFault, measure_text};

/// Returns what is known about why a step breaks a rule. `text` is the text of its frame.
pub fn expected_of(known: &Known, step: Step, text: &[u8], rule: Rule) -> Option<Expected> {
    match rule {
        Rule::Ended => return known.past.over.map(|line| Expected::Over(line)),
        Rule::Backwards => return clock_step(known, step.time),
        _ => {}
    }
    let What::Frame(mark, header) = step.what else {
        return version(known.settings, step.what, rule);
    };
    match rule {
        Rule::Session => Some(session(known.settings, header)),
        Rule::Direction => Some(Expected::LineOne(direction(known.settings, header))),
        Rule::NotSelected => Some(selected(&known.past)),
        Rule::Text => text_fault(known.settings, text),
        Rule::NoTransaction => transaction(known, step.time, mark, header),
        _ => None,
    }
}

// Returns that the version of line 1 allows one connection, if this is the start of another.
fn version(settings: Settings, what: What, rule: Rule) -> Option<Expected> {
    let is_another = matches!(what, What::Up) && rule == Rule::NotUp;
    (is_another && settings.version() == 1).then_some(Expected::LineOne(Setting::Version))
}

// Returns the setting that decides who sends the message.
fn direction(settings: Settings, header: Header) -> Setting {
    match kind(header) {
        Kind::Primary => Setting::Role(settings.role()),
        _ => Setting::Link(settings.link()),
    }
}

// Returns that the clock was set back, if a time goes back by more than T3.
fn clock_step(known: &Known, time: u64) -> Option<Expected> {
    let line = known.repaired_session.line();
    let step = known.past.times.step_at(line, time, known.settings.t3())?;
    Some(Expected::Clock(step))
}

fn session(settings: Settings, header: Header) -> Expected {
    let came = header.session;
    match kind(header) {
        Kind::Primary | Kind::Reply => Expected::Device {
            expected: settings.device(),
            came,
        },
        _ => Expected::Session {
            expected: CONTROL_SESSION,
            came,
        },
    }
}

// Returns why the session is not selected: the last Select.req, or one that is left out.
fn selected(past: &Past) -> Expected {
    match (past.select, past.left_out) {
        (None, Some(LeftOut { line, rule })) => Expected::SelectLeftOut { line, rule },
        (select, _) => Expected::Selected(select),
    }
}

fn text_fault(settings: Settings, text: &[u8]) -> Option<Expected> {
    let (fault, at) = match measure_text(text, settings.depth()) {
        Ok(()) => return None,
        Err(ItemFault::NoLength { at }) => ("NoLength", at),
        Err(ItemFault::Format { at }) => ("Format", at),
        Err(ItemFault::Deep { at }) => ("Deep", at),
        Err(ItemFault::Ragged { at }) => ("Ragged", at),
        Err(ItemFault::Truncated { at }) => ("Truncated", at),
        Err(ItemFault::Trailing { at }) => ("Trailing", at),
        Err(ItemFault::TooLarge) | Err(ItemFault::Memory) => return None,
    };
    Some(Expected::Text { fault, at })
}

// Returns why a frame that has to close a transaction closes none.
fn transaction(known: &Known, now: u64, mark: Mark, header: Header) -> Option<Expected> {
    let (peer, requests) = match mark {
        Mark::Sent => (Mark::Taken, &known.past.received),
        Mark::Taken => (Mark::Sent, &known.past.sent),
        Mark::Discarded => return None,
    };
    let namesake = EntryRef::of_frame(0, peer, header, &[]);
    match known.repaired_session.in_use(&namesake) {
        Some(line) => other_function(requests.opened_at(line), header),
        None => match requests.last_of(header.system) {
            Some(request) => no_longer_open(requests, request, now),
            None => not_among_the_last(known, requests, now, mark, header),
        },
    }
}

// Returns what is known if no request with the system bytes is among the last ones of its direction.
fn not_among_the_last(
    known: &Known,
    requests: &Requests,
    now: u64,
    mark: Mark,
    header: Header,
) -> Option<Expected> {
    match requests.closed_with(header.system, now) {
        Some(closed) => Some(was_closed(closed)),
        None if requests.is_full(now) => Some(Expected::Forgotten),
        None => other_system(known, mark, header),
    }
}

fn was_closed(closed: Closed) -> Expected {
    let Closed { tie, line, by, .. } = closed;
    Expected::Closed { line, tie, by }
}

// Returns that the open request expects another function, if both are data messages.
fn other_function(open: Option<Request>, header: Header) -> Option<Expected> {
    let request = open?;
    if kind(request.header) != Kind::Primary || kind(header) != Kind::Reply {
        return None;
    }
    Some(Expected::Function {
        line: request.line,
        expected: Function::of_reply_to(request.header),
        came: Function::of(header),
    })
}

// Returns why the request is not open.
fn no_longer_open(requests: &Requests, request: Request, now: u64) -> Option<Expected> {
    let line = request.line;
    if request.is_discarded {
        return Some(Expected::ThrownAway(line));
    }
    if kind(request.header) == Kind::Primary && !request.header.wait() {
        return Some(Expected::NoWait(line));
    }
    let closed = requests.closed_with(request.header.system, now)?;
    (closed.line == line).then_some(was_closed(closed))
}

// Returns a hint for a received reply if exactly one sent primary waits for a reply, and the stream and the function fit
// it.
fn other_system(known: &Known, mark: Mark, header: Header) -> Option<Expected> {
    if mark != Mark::Taken || kind(header) != Kind::Reply {
        return None;
    }
    let line = known.repaired_session.only_primary()?;
    let (_, primary) = known.repaired_session.oldest_data()?;
    fits(primary, header).then_some(Expected::OnlyOne {
        line,
        expected: Function::of_reply_to(primary),
        system: primary.system,
    })
}

// Returns whether a reply has the stream of a primary, and the next function or function 0.
fn fits(primary: Header, reply: Header) -> bool {
    let expected = Function::of_reply_to(primary).function;
    let has_function = reply.function() == expected || reply.function() == 0;
    reply.stream() == primary.stream() && has_function
}
