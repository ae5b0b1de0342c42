//! Tests of headers and events.

ghost use Rattle.std.specs.Prelude.{◌≡◌};
ghost use Rattle.hsms_frame.specs.Header.{kind_of};
ghost use Rattle.hsms_machine.specs.Message.{is_data_request as opens_data_transaction, is_control_request as opens_control_transaction, is_request, is_reject_kind, separates as is_separation};
ghost use Rattle.hsms_machine.specs.Session.{ends_session as is_session_end};
ghost use Rattle.hsms_machine.specs.Transaction.{closes_sent as is_closing, closes_taken as is_conclusion};
ghost use Rattle.hsms_compare_causes.specs.InnerGroups.{system_of as system_by};
ghost use Rattle.hsms_compare_causes.specs.Events.{answers_by, is_answer as is_answer_to, ends_connection as is_connection_end, is_discarded as is_discarding, is_received as is_receipt, is_sent as is_sending, is_cut_by_t6 as is_t6, request_if, request_of};

use hsms_frame::{Header, Kind, kind};
use hsms_machine::{Cause, Event, Message, concludes};

/// Returns whether a header is that of a primary with the W bit.
#[tactic(auto, unfolding(hsms_machine::specs::Message::is_data_request))]
pub fn is_data_request(header: Header) -> bool
    ensures { result ≡ opens_data_transaction header }
{
    matches!(kind(header), Kind::Primary) && header.wait()
}

/// Returns whether a header is that of a Select.req or a Linktest.req.
#[tactic(auto, unfolding(hsms_machine::specs::Message::is_control_request))]
pub fn is_control_request(header: Header) -> bool
    ensures { result ≡ opens_control_transaction header }
{
    matches!(kind(header), Kind::SelectReq | Kind::LinktestReq)
}

/// Returns whether a header is that of a Reject.
pub fn is_reject(header: Header) -> bool
    ensures { result ≡ is_reject_kind (kind_of header) }
{
    matches!(kind(header), Kind::Reject)
}

/// Returns whether a header is that of a Separate.
#[tactic(auto, unfolding(hsms_machine::specs::Message::separates))]
fn separates(header: Header) -> bool
    ensures { result ≡ is_separation header }
{
    matches!(kind(header), Kind::Separate)
}

/// Returns the header if it is that of a request.
fn request(header: Header) -> Option<Header>
    ensures { result ≡ request_if header (is_request header) }
{
    if is_data_request(header) || is_control_request(header) {
        return Some(header);
    }
    None
}

/// Returns the header of the request that an event sends.
pub fn sent_request(event: &Event) -> Option<Header>
    ensures { result ≡ request_of event.now }
{
    match event {
        Event::Sent(frame) => request(frame.header),
        Event::Taken(_) => None,
        Event::Discarded(_) => None,
        Event::Up => None,
        Event::T3(_) => None,
        Event::Cut(_) => None,
        Event::Down => None,
    }
}

/// Returns the system bytes of an event.
pub fn system_of(event: &Event) -> Option<u32>
    ensures { result ≡ system_by event.now }
{
    match event {
        Event::Sent(frame) => Some(frame.header.system),
        Event::Taken(frame) => Some(frame.header.system),
        Event::Discarded(frame) => Some(frame.header.system),
        Event::Up => None,
        Event::T3(system) => Some(*system),
        Event::Cut(_) => None,
        Event::Down => None,
    }
}

/// Returns whether an event closes the transaction of a request that its log sends.
pub fn closes_sent(request: Header, event: &Event) -> bool
    ensures { result ≡ is_closing request event.now }
{
    match event {
        Event::Sent(_) => false,
        Event::Taken(frame) => concludes(request, Message::of(frame.header)),
        Event::Discarded(_) => false,
        Event::Up => false,
        Event::T3(system) => is_data_request(request) && request.system == *system,
        Event::Cut(_) => false,
        Event::Down => false,
    }
}

/// Returns whether an event closes the transaction of a request that its log accepts.
pub fn closes_accepted(request: Header, event: &Event) -> bool
    ensures { result ≡ is_conclusion request event.now }
{
    match event {
        Event::Sent(frame) => concludes(request, Message::of(frame.header)),
        Event::Taken(_) => false,
        Event::Discarded(_) => false,
        Event::Up => false,
        Event::T3(_) => false,
        Event::Cut(_) => false,
        Event::Down => false,
    }
}

/// Returns whether a message, sent in the other direction, answers a request.
fn is_answer(request: Header, other: Header) -> bool
    ensures { result ≡ is_answer_to request other }
{
    concludes(request, Message::of(other)) && !is_reject(other)
}

/// Returns whether an event receives an answer to a request.
pub fn answers(request: Header, event: &Event) -> bool
    ensures { result ≡ answers_by request event.now }
{
    match event {
        Event::Sent(_) => false,
        Event::Taken(frame) => is_answer(request, frame.header),
        Event::Discarded(frame) => is_answer(request, frame.header),
        Event::Up => false,
        Event::T3(_) => false,
        Event::Cut(_) => false,
        Event::Down => false,
    }
}

/// Returns whether an event ends the session.
pub fn ends_session(event: &Event) -> bool
    ensures { result ≡ is_session_end event.now }
{
    match event {
        Event::Sent(frame) => separates(frame.header),
        Event::Taken(frame) => separates(frame.header),
        Event::Discarded(_) => false,
        Event::Up => false,
        Event::T3(_) => false,
        Event::Cut(_) => true,
        Event::Down => false,
    }
}

/// Returns whether an event ends the session or the connection.
pub fn ends_connection(event: &Event) -> bool
    ensures { result ≡ is_connection_end event.now }
{
    ends_session(event) || matches!(event, Event::Down)
}

/// Returns whether an event is a `cut t6`.
pub fn is_cut_by_t6(event: &Event) -> bool
    ensures { result ≡ is_t6 event.now }
{
    match event {
        Event::Sent(_) => false,
        Event::Taken(_) => false,
        Event::Discarded(_) => false,
        Event::Up => false,
        Event::T3(_) => false,
        Event::Cut(cause) => matches!(*cause, Cause::T6),
        Event::Down => false,
    }
}

/// Returns whether an event sends a frame.
pub fn is_sent(event: &Event) -> bool
    ensures { result ≡ is_sending event.now }
{
    matches!(event, Event::Sent(_))
}

/// Returns whether an event receives a frame.
pub fn is_received(event: &Event) -> bool
    ensures { result ≡ is_receipt event.now }
{
    matches!(event, Event::Taken(_) | Event::Discarded(_))
}

/// Returns whether an event discards a frame.
pub fn is_discarded(event: &Event) -> bool
    ensures { result ≡ is_discarding event.now }
{
    matches!(event, Event::Discarded(_))
}
