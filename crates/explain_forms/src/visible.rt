//! Bytes of the log as text, without control characters.

ghost use Rattle.std.specs.Prelude.{◌≡◌, ◌<◌, true, length};
ghost use Rattle.std.specs.List.{list_all};
ghost use Rattle.explain_forms.specs.Visible.{HasNoControl, is_visible as is_visible_octet};
ghost use Rattle.explain_forms.specs.InnerVisible.{AddsVisible};

use crate::output_buffer::Page;

/// Writes bytes of the log with an escape in place of each control character: `\x1b`, by the bytes that encode it.
/// These are 00 to 1F and 7F, U+0080 to U+009F in UTF-8, and 80 to 9F if they are not part of UTF-8.
pub fn append_visible(page: &mut Page, octets: &[u8])
    ensures { AddsVisible page.old page.new }
{
    if is_plain(octets) {
        page.append_chunk(octets);
    } else {
        append_chunks(page, octets);
    }
}

// Writes bytes of which some may be escaped.
fn append_chunks(page: &mut Page, octets: &[u8])
    ensures { AddsVisible page.old page.new }
{
    for chunk in octets.utf8_chunks() {
        append_text(page, chunk.valid().as_bytes());
        write_other(page, chunk.invalid());
    }
}

// Writes UTF-8.
fn append_text(page: &mut Page, text: &[u8])
    ensures { AddsVisible page.old page.new }
{
    for at in 0..text.len() {
        append_octet(page, text[at], encodes_control(text, at));
    }
}

// Writes bytes that are not UTF-8.
fn write_other(page: &mut Page, octets: &[u8])
    ensures { AddsVisible page.old page.new }
{
    for octet in octets {
        append_octet(page, *octet, is_high_control(*octet));
    }
}

// Writes a byte, or an escape in its place.
fn append_octet(page: &mut Page, octet: u8, is_escaped: bool)
    ensures { AddsVisible page.old page.new }
{
    if is_shown(octet, is_escaped) {
        page.append_chunk(&[octet]);
    } else {
        append_escape(page, octet);
    }
}

fn is_shown(octet: u8, is_escaped: bool) -> bool
    ensures { result ≡ true → is_visible_octet octet ≡ true }
{
    is_visible(octet) && !is_escaped
}

// Writes a byte as `\x` and two hexadecimal digits.
fn append_escape(page: &mut Page, octet: u8)
    ensures { AddsVisible page.old page.new }
{
    page.append_chunk(b"\\x");
    page.append_chunk(&[digit(octet >> 4)]);
    page.append_chunk(&[digit(octet & 15)]);
}

// Returns the hexadecimal digit of a value below 16.
fn digit(value: u8) -> u8
    ensures { is_visible_octet result ≡ true }
{
    match value {
        0 => b'0',
        1 => b'1',
        2 => b'2',
        3 => b'3',
        4 => b'4',
        5 => b'5',
        6 => b'6',
        7 => b'7',
        8 => b'8',
        9 => b'9',
        10 => b'a',
        11 => b'b',
        12 => b'c',
        13 => b'd',
        14 => b'e',
        _ => b'f',
    }
}

// Returns whether the bytes are printable ASCII.
fn is_plain(octets: &[u8]) -> bool
    ensures { result ≡ true → HasNoControl octets.now }
{
    has_no_control(octets) && octets.is_ascii()
}

// Returns whether no byte is an ASCII control character.
fn has_no_control(octets: &[u8]) -> bool
    ensures { result ≡ list_all is_visible_octet octets.now }
{
    octets.iter().all(|octet| is_visible(*octet))
}

// Returns whether a byte is not an ASCII control character.
fn is_visible(octet: u8) -> bool
    ensures { result ≡ is_visible_octet octet }
{
    octet > 31 && octet != 127
}

// Returns whether the byte at this index of UTF-8 is one of the two that encode U+0080 to U+009F.
fn encodes_control(text: &[u8], at: usize) -> bool
    requires { at < length text.now }
{
    if text[at] == 0xc2 {
        return text.get(at + 1).is_some_and(|next| is_high_control(*next));
    }
    is_high_control(text[at]) && at > 0 && text[at - 1] == 0xc2
}

fn is_high_control(octet: u8) -> bool {
    matches!(octet, 0x80..=0x9f)
}
