//! By what the messages of a session are known.

ghost use Rattle.std.specs.Prelude.{◌≡◌, ◌≤◌, true};
ghost use Rattle.hsms_frame.specs.Header.{kind_of};
ghost use Rattle.capture_midstream.specs.MessageCheck.{has_kind, is_of};

use hsms_frame::{CONTROL_SESSION, HEADER_LENGTH, Header, Kind, kind};

/// By what the messages of a session are known: the device of its data, how many octets header and text have at most,
/// and how deep lists may be nested in a text, at most 100.
#[derive(Clone, Copy, Debug)]
pub struct Session {
    pub device: u16,
    pub max: u32,
    pub depth: u8,
}

/// Whether a message of the session may have this header, where its length counts so many octets of header and text.
#[tactic(auto, unfolding(crate::specs::MessageCheck::is_of))]
pub(crate) fn is_of(session: Session, header: Header, length: u32) -> bool
    ensures value { result ≡ is_of session header length }
    ensures least { result ≡ true → 10 ≤ length }
{
    HEADER_LENGTH as u32 <= length && length <= session.max && has_kind(session, header, length)
}

// The same by its kind alone.
fn has_kind(session: Session, header: Header, length: u32) -> bool
    ensures { result ≡ has_kind (kind_of header) session header length }
{
    let is_bare = length == HEADER_LENGTH as u32;
    match kind(header) {
        Kind::Primary | Kind::Reply => header.session == session.device,
        Kind::Reject => is_bare,
        Kind::SelectReq
        | Kind::SelectRsp
        | Kind::LinktestReq
        | Kind::LinktestRsp
        | Kind::Separate => is_bare && header.session == CONTROL_SESSION,
        Kind::OtherSType | Kind::OtherPType => false,
    }
}
