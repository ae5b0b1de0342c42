//! What stands at the front of octets of a session.

ghost use Rattle.std.specs.Prelude.{◌≡◌, ◌≤◌, ◌<◌, ◌^◌, ◌↔◌, IsTrue};
ghost use Rattle.secs_item.specs.Encoding.{IsText};
ghost use Rattle.capture_midstream.specs.MessageCheck.{FrontAs, header_of, header_within};
ghost use Rattle.capture_midstream.specs.InnerMessageCheck.{TextAs};

use crate::session_filter::{Session, is_of};
use hsms_frame::{HEADER_LENGTH, Header};
use secs_item::measure_text;

/// What stands at the front of octets.
#[derive(Clone, Copy, Debug, PartialEq, Eq)]
pub(crate) enum Found {
    /// There are fewer than fourteen octets, which say nothing.
    Missing,
    /// The length and the header of a message of the session, of which some octets aren't there.
    Begun,
    /// A message of the session, of so many octets with those of its length.
    Whole(usize),
    /// No message of the session.
    Other,
}

/// The header of the message of these octets, those of its length first; none where header and text have fewer than ten
/// octets, or more than this.
pub fn header_at(octets: &[u8], max: u32) -> Option<Header>
    ensures { result ≡ header_within max octets.now }
{
    if octets.len() as u64 > u64::from(max) + 4 {
        return None;
    }
    let (_, subsequent) = octets.split_first_chunk::<4>()?;
    let (header, _) = subsequent.split_first_chunk::<HEADER_LENGTH>()?;
    Some(header_in(*header))
}

/// What stands at the front of octets, as far as they go. Takes no memory.
pub(crate) fn front_of(session: Session, octets: &[u8]) -> Found
    requires { session.depth ≤ 100 }
    ensures { FrontAs session octets.now result }
{
    let Some((field, subsequent)) = octets.split_first_chunk::<4>() else {
        return Found::Missing;
    };
    let Some((header, text)) = subsequent.split_first_chunk::<HEADER_LENGTH>() else {
        return Found::Missing;
    };
    let length = u32::from_be_bytes(*field);
    if !is_of(session, header_in(*header), length) {
        return Found::Other;
    }
    text_in(text, length as usize - HEADER_LENGTH, session.depth)
}

// What a text of so many octets is, by what stands behind its header.
fn text_in(subsequent: &[u8], size: usize, depth: u8) -> Found
    requires depth { depth ≤ 100 }
    requires size { size < 2 ^ 32 }
    ensures { TextAs depth subsequent.now size result }
{
    if subsequent.len() < size {
        return Found::Begun;
    }
    if is_readable(&subsequent[..size], depth) {
        return Found::Whole(14 + size);
    }
    Found::Other
}

// The header that ten octets spell.
fn header_in(octets: [u8; HEADER_LENGTH]) -> Header
    ensures { result ≡ header_of octets }
{
    Header::of(octets)
}

// Whether octets are a message's text.
fn is_readable(octets: &[u8], depth: u8) -> bool
    requires { depth ≤ 100 }
    ensures { IsTrue result ↔ IsText depth octets.now }
{
    measure_text(octets, depth).is_ok()
}
