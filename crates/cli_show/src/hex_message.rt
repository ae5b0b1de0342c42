//! The bytes in a line of hexadecimal, and their message.

ghost use Rattle.std.specs.Prelude.{◌≡◌, ◌∷◌, ◌^◌, ◌<◌, ◌++◌, ℕ, List, IfOk, IfSome, None, Ok, Some, length, option_map, true};
ghost use Rattle.std.specs.Int.{w32, to_be_bytes};
ghost use Rattle.hex.specs.Hex.{hex_digit_value};
ghost use Rattle.hsms_frame.specs.Frame.{Frame};
ghost use Rattle.cli_options.specs.Request.{is_bare};
ghost use Rattle.cli_show.specs.ShowHex.{IsMessageOf, is_blank, octet_of, decoded_octets};

use cli_options::Form;
use hsms_frame::Header;
use std::alloc::{AllocError, Global};

/// Returns the bytes in a text: two digits each, with spaces and tabs before, between and after them.
pub fn octets_in(alloc: Global, text: &[u8]) -> Result<Option<Vec<u8>>, AllocError>
    ensures { IfOk result (λ found. option_map (λ octets. octets.items) found ≡ decoded_octets text.now) }
{
    let mut octets = Vec::new(alloc);
    let mut rest = text;
    while let Some((first, others)) = rest.split_first() {
        if is_space(*first) {
            rest = others;
        } else {
            let Some((octet, subsequent)) = octet_at_front(rest) else {
                return Ok(None);
            };
            octets.push(octet)?;
            rest = subsequent;
        }
    }
    Ok(Some(octets))
}

fn is_space(octet: u8) -> bool
    ensures { result ≡ is_blank octet }
{
    octet == b' ' || octet == b'\t'
}

// Returns the byte in the first two digits of a text, and what follows them.
fn octet_at_front(text: &[u8]) -> Option<(u8, &[u8])>
    ensures some { IfSome result (λ x. (high low : ℕ) × (text.now ≡ high ∷ low ∷ x.1.now) × (octet_of high low ≡ Some x.0)) }
    ensures none { result ≡ None → (high low : ℕ) (rest : List ℕ) → text.now ≡ high ∷ low ∷ rest → octet_of high low ≡ None }
{
    match text {
        [high, low, rest @ ..] => Some((digit(*high)? * 16 + digit(*low)?, rest)),
        _ => None,
    }
}

// Returns the value of a digit, in either case.
fn digit(octet: u8) -> Option<u8>
    ensures { result ≡ hex_digit_value octet }
{
    match octet {
        b'A'..=b'F' => Some(octet - b'A' + 10),
        b'a'..=b'f' => Some(octet - b'a' + 10),
        b'0'..=b'9' => Some(octet - b'0'),
        _ => None,
    }
}

/// Returns the header and the text of the message in the bytes, which is within the limit for both together. The bytes
/// of bare lines are header and text alone, without the four length bytes.
pub fn message_of(octets: &[u8], max: u32, form: Form) -> Option<(Header, &[u8])>
    ensures some { IfSome result (λ m. IsMessageOf (is_bare form) max octets.now (record { header = m.0; text = m.1.now })) }
    ensures none { result ≡ None → (f : Frame) → IsMessageOf (is_bare form) max octets.now f → ⊥ }
{
    match form {
        Form::BareLines => header_and_text(octets, max),
        Form::Octets | Form::Lines => header_and_text(after_length_field(octets)?, max),
    }
}

// Returns what follows the four length bytes, if they count it.
fn after_length_field(octets: &[u8]) -> Option<&[u8]>
    ensures some { IfSome result (λ rest. octets.now ≡ to_be_bytes w32 (length rest.now) ++ rest.now) }
    ensures none { result ≡ None → (rest : List ℕ) → length rest < 2 ^ 32
        → octets.now ≡ to_be_bytes w32 (length rest) ++ rest → ⊥ }
{
    let (length, rest) = octets.split_first_chunk::<4>()?;
    if u32::from_be_bytes(*length) as usize == rest.len() {
        Some(rest)
    } else {
        None
    }
}

// Returns the ten bytes of header, and the text after them.
fn header_and_text(octets: &[u8], max: u32) -> Option<(Header, &[u8])>
    ensures some { IfSome result (λ m. IsMessageOf true max octets.now (record { header = m.0; text = m.1.now })) }
    ensures none { result ≡ None → (f : Frame) → IsMessageOf true max octets.now f → ⊥ }
{
    if octets.len() > max as usize {
        return None;
    }
    let (header, text) = octets.split_first_chunk::<10>()?;
    Some((Header::of(*header), text))
}
