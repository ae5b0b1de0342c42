//! What the rules need to know of a header.

ghost use Rattle.std.specs.Prelude.{◌≡◌};
ghost use Rattle.hsms_machine.specs.Message.{is_data_request as opens_data_transaction, is_control_request as opens_control_transaction, establishes as is_establishment, is_data as carries_data, is_control as is_control_message, is_response as is_response_message, has_right_session as is_session_right, has_right_direction as is_direction_right, has_right_wait as is_wait_right};
ghost use Rattle.hsms_machine.specs.InnerMessage.{may_conclude as is_of_conclusive_kind};
ghost use Rattle.hsms_machine.specs.Transaction.{answers as is_answer, is_reply_to as is_reply, concludes as is_conclusion};

use crate::direction::Flow;
use crate::settings::{Role, Settings, Side};
use hsms_frame::{CONTROL_SESSION, Header, Kind, kind};
use std::marker::Model;

/// The stream that equipment uses to report errors (SEMI E5).
const ERROR_STREAM: u8 = 9;

/// A header, and the kind of its message. Many rules use the kind, so it is computed once.
#[derive(Clone, Copy)]
pub struct Message {
    kind: Kind,
    header: Header,
}

impl Model for Message {
    ghost use Rattle.std.specs.Prelude.{◌≡◌};
    ghost use Rattle.std.proofs.Common.{sym};
    ghost use Rattle.hsms_frame.specs.Header.{kind_of};
    ghost use Rattle.hsms_frame.specs.declared.header.Header.{Header};

    ghost Value = { Header };

    ghost view = { λ m. m.header };

    ghost invariant = { λ m. m.kind ≡ kind_of m.header };

    ghost inverse = { λ h. record { kind = kind_of h; header = h } };

    ghost inverse_ok = { λ m is i. record { kind = sym is i; header = m.header } };
}

impl Message {
    ghost use Rattle.hsms_frame.specs.Header.{kind_of};

    /// Creates the message of a header.
    pub fn of(header: Header) -> Message
        ensures { result ≡ header }
    {
        let kind = kind(header);
        Message { kind, header }
    }

    /// Returns the header.
    pub fn header(self) -> Header
        ensures { result ≡ self }
    {
        self.header
    }

    /// Returns the kind.
    pub fn kind(self) -> Kind
        ensures { result ≡ kind_of self }
    {
        self.kind
    }
}

/// Returns whether the message is a primary that requests a reply.
#[tactic(auto, unfolding(crate::specs::Message::is_data_request))]
pub fn is_data_request(message: Message) -> bool
    ensures { result ≡ opens_data_transaction message }
{
    matches!(message.kind(), Kind::Primary) && message.header().wait()
}

/// Returns whether the message is a Select.req or a Linktest.req.
#[tactic(auto, unfolding(crate::specs::Message::is_control_request))]
pub fn is_control_request(message: Message) -> bool
    ensures { result ≡ opens_control_transaction message }
{
    matches!(message.kind(), Kind::SelectReq | Kind::LinktestReq)
}

fn is_reply_to(primary: Header, reply: Header) -> bool
    ensures { result ≡ is_reply primary reply }
{
    let function = reply.function();
    primary.wait()
        && reply.stream() == primary.stream()
        && (function == 0 || function - 1 == primary.function())
}

/// Returns whether the response, sent in the other direction, answers the request.
#[tactic(auto, unfolding(crate::specs::Transaction::answers))]
pub fn answers(request: Header, response: Message) -> bool
    ensures { result ≡ is_answer request response }
{
    if response.header().system != request.system {
        return false;
    }
    match (kind(request), response.kind()) {
        (Kind::Primary, Kind::Reply) => is_reply_to(request, response.header()),
        (Kind::SelectReq, Kind::SelectRsp) => true,
        (Kind::LinktestReq, Kind::LinktestRsp) => true,
        _ => false,
    }
}

/// Returns whether the message, sent in the other direction, ends the request's transaction: it answers or rejects it.
#[tactic(auto, unfolding(crate::specs::Transaction::rejects))]
pub fn concludes(request: Header, other: Message) -> bool
    ensures { result ≡ is_conclusion request other }
{
    answers(request, other)
        || (other.header().system == request.system && matches!(other.kind(), Kind::Reject))
}

/// Returns whether the message is of a kind that may end a transaction.
#[tactic(auto, unfolding(crate::specs::InnerMessage::may_conclude))]
pub fn may_conclude(message: Message) -> bool
    ensures { result ≡ is_of_conclusive_kind message }
{
    matches!(
        message.kind(),
        Kind::Reply | Kind::SelectRsp | Kind::LinktestRsp | Kind::Reject
    )
}

/// Returns whether the message is a Select.rsp with status 0.
#[tactic(auto, unfolding(crate::specs::Message::establishes))]
pub fn establishes(message: Message) -> bool
    ensures { result ≡ is_establishment message }
{
    matches!(message.kind(), Kind::SelectRsp) && message.header().byte3 == 0
}

#[tactic(auto, unfolding(crate::specs::Message::is_data))]
pub fn is_data(message: Message) -> bool
    ensures { result ≡ carries_data message }
{
    matches!(message.kind(), Kind::Primary | Kind::Reply)
}

#[tactic(auto, unfolding(crate::specs::Message::is_control))]
pub fn is_control(message: Message) -> bool
    ensures { result ≡ is_control_message message }
{
    !matches!(
        message.kind(),
        Kind::Primary | Kind::Reply | Kind::OtherSType | Kind::OtherPType
    )
}

#[tactic(auto, unfolding(crate::specs::Message::is_response))]
pub fn is_response(message: Message) -> bool
    ensures { result ≡ is_response_message message }
{
    matches!(
        message.kind(),
        Kind::Reply | Kind::SelectRsp | Kind::LinktestRsp
    )
}

/// Returns whether the session ID is right for the message's kind.
#[tactic(auto, unfolding(crate::specs::Message::has_right_session))]
pub fn has_right_session(settings: Settings, message: Message) -> bool
    ensures { result ≡ is_session_right settings message }
{
    match message.kind() {
        Kind::Primary | Kind::Reply => message.header().session == settings.device(),
        Kind::Reject | Kind::OtherSType | Kind::OtherPType => true,
        _ => message.header().session == CONTROL_SESSION,
    }
}

/// Returns whether the endpoint that sends the message may send it.
#[tactic(auto, unfolding(crate::specs::Message::has_right_direction))]
pub fn has_right_direction(settings: Settings, flow: Flow, message: Message) -> bool
    ensures { result ≡ is_direction_right settings flow message }
{
    let is_outgoing = flow == Flow::Outgoing;
    let from_active = (settings.link() == Side::Active) == is_outgoing;
    match message.kind() {
        Kind::SelectReq => from_active,
        Kind::SelectRsp => !from_active,
        Kind::Primary => {
            let from_equipment = (settings.role() == Role::Equipment) == is_outgoing;
            message.header().stream() != ERROR_STREAM || from_equipment
        }
        _ => true,
    }
}

/// Returns whether the message may have this value of its W bit.
#[tactic(auto, unfolding(crate::specs::Message::has_right_wait))]
pub fn has_right_wait(message: Message) -> bool
    ensures { result ≡ is_wait_right message }
{
    match message.kind() {
        Kind::Primary => !(message.header().wait() && message.header().stream() == ERROR_STREAM),
        Kind::Reply => !message.header().wait(),
        _ => true,
    }
}
