//! Segments that are one HSMS message.

ghost use Rattle.std.specs.Prelude.{◌≡◌, ◌≤◌, ◌↔◌, IfNone, IfSome, IsTrue};
ghost use Rattle.secs_item.specs.Encoding.{IsText};
ghost use Rattle.capture_midstream.specs.MessageCheck.{header_of};
ghost use Rattle.capture_unjudged.specs.Message.{IsMessage, is_length, may_be_data, may_have};
ghost use Rattle.hsms_frame.specs.declared.header.Header.{Header};

use hsms_frame::{CONTROL_SESSION, HEADER_LENGTH, Header, Kind, kind};
use hsms_machine::Settings;
use secs_item::measure_text;

// The highest device ID (SEMI E37.1).
const MAX_DEVICE: u16 = 32767;

/// Returns the header of the one message in a segment. Returns `None` if the bytes are anything other than one message.
/// The length field counts all bytes after it. A data message has a device ID, a stream, and a text of one item or
/// none; without a text it has system bytes. A control message has no text.
pub fn message_of(settings: &Settings, octets: &[u8]) -> Option<Header>
    ensures some { IfSome result (IsMessage settings.now octets.now) }
    ensures none { IfNone result ((header : Header) → IsMessage settings.now octets.now header → ⊥) }
{
    let (field, subsequent) = octets.split_first_chunk::<4>()?;
    let (front, text) = subsequent.split_first_chunk::<HEADER_LENGTH>()?;
    let header = header_in(*front);
    if is_length(u32::from_be_bytes(*field), subsequent.len(), settings.max())
        && may_have(header, text.len())
        && is_readable(text, settings.depth())
    {
        return Some(header);
    }
    None
}

// Returns true if a length field counts this many bytes, at most `max`.
fn is_length(field: u32, length: usize, max: u32) -> bool
    ensures { result ≡ is_length field length max }
{
    length as u64 == u64::from(field) && field <= max
}

// Returns the header in ten bytes.
fn header_in(octets: [u8; HEADER_LENGTH]) -> Header
    ensures { result ≡ header_of octets }
{
    Header::of(octets)
}

// Returns true if bytes are the text of a message.
fn is_readable(octets: &[u8], depth: u8) -> bool
    requires { depth ≤ 100 }
    ensures { IsTrue result ↔ IsText depth octets.now }
{
    measure_text(octets, depth).is_ok()
}

// Returns true if a message with this header may have a text of this length.
fn may_have(header: Header, length: usize) -> bool
    ensures { result ≡ may_have header length }
{
    match kind(header) {
        Kind::Primary | Kind::Reply => may_be_data(header, length),
        Kind::SelectReq
        | Kind::SelectRsp
        | Kind::LinktestReq
        | Kind::LinktestRsp
        | Kind::Reject
        | Kind::Separate => length == 0 && header.session == CONTROL_SESSION,
        Kind::OtherSType | Kind::OtherPType => false,
    }
}

// Returns true if a data message with this header may have a text of this length.
fn may_be_data(header: Header, length: usize) -> bool
    ensures { result ≡ may_be_data header length }
{
    header.session <= MAX_DEVICE && header.stream() > 0 && (length > 0 || header.system > 0)
}
