//! Text in an HTML page.

use crate::output_buffer::Page;
use std::fmt;

// U+FFFD, which replaces a byte that is not allowed in a text.
const REPLACEMENT: &[u8] = b"\xef\xbf\xbd";

// Returns the replacement of a byte: a character reference if the byte could be markup.
fn reference(octet: u8) -> Option<&'static [u8]> {
    match octet {
        b'<' => Some(b"&lt;"),
        b'>' => Some(b"&gt;"),
        b'&' => Some(b"&amp;"),
        b'"' => Some(b"&quot;"),
        b'\'' => Some(b"&#39;"),
        b'\t' => None,
        0..=31 | 127 => Some(REPLACEMENT),
        _ => None,
    }
}

/// Appends UTF-8 as text without markup.
pub fn append_text(page: &mut Page, octets: &[u8]) {
    for octet in octets {
        match reference(*octet) {
            Some(reference) => page.append_chunk(reference),
            None => page.append_chunk(&[*octet]),
        }
    }
}

/// Appends words as text.
pub fn append_words<D: fmt::Display>(page: &mut Page, words: &D) {
    let words = page.words(words);
    append_text(page, words.as_bytes());
}

/// Appends bytes of the log as text. Bytes that are not UTF-8, and control characters, are replaced by U+FFFD.
pub fn append_octets(page: &mut Page, octets: &[u8]) {
    let text = page.text(octets);
    for character in text.chars() {
        match character {
            '\u{80}'..='\u{9f}' => page.append_chunk(REPLACEMENT),
            _ => append_text(page, character.encode_utf8(&mut [0; 4]).as_bytes()),
        }
    }
}
