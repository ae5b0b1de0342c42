//! What an end logs of what happens on its connection.

ghost use Rattle.std.specs.Prelude.{◌≡◌, ◌<◌, ◌≤◌, IfSome, None, length, drop};
ghost use Rattle.hsms_log.specs.LineFormat.{message_octets};

use hsms_frame::{Frame, HEADER_LENGTH, Header, drop_front};

/// The octets of a message's length.
pub const LENGTH: usize = 4;

/// The message of these octets, those of its length first; none where they are fewer than fourteen.
#[tactic(auto, unfolding(hsms_log::specs::LineFormat::message_octets), using(crate::proofs::Logs::encoded_bytes))]
pub fn frame_of(octets: Vec<u8>) -> Option<Frame>
    ensures some { IfSome result (λ frame. drop 4 octets.items ≡ message_octets frame) }
    ensures none { result ≡ None → length octets.items < 14 }
    ensures least { IfSome result (λ frame. 14 ≤ length octets.items) }
{
    if octets.len() < LENGTH + HEADER_LENGTH {
        return None;
    }
    let mut text = octets;
    let header = header_in(&text[LENGTH..LENGTH + HEADER_LENGTH]);
    drop_front(&mut text, LENGTH + HEADER_LENGTH);
    Some(Frame {
        header: Header::of(header),
        text,
    })
}

// The octets of a header.
fn header_in(octets: &[u8]) -> [u8; HEADER_LENGTH]
    requires { length octets.now ≡ 10 }
    ensures { result ≡ octets.now }
{
    let mut header = [0u8; HEADER_LENGTH];
    header.copy_from_slice(octets);
    header
}
