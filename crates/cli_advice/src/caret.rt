//! A position in a text, for people.

use std::alloc::{AllocError, Global};

// The maximum number of bytes of a line that are shown before the position, and from it on.
const BEFORE: usize = 60;

const BEHIND: usize = 40;

/// Returns a message on the position in a text after the first `at` bytes, or on the text's end. The message follows
/// the number of its line and its column, from 1, in bytes. Below are the line, and a mark under the position.
pub fn placed(alloc: Global, text: &[u8], at: usize, said: &str) -> Result<String, AllocError> {
    let (before, subsequent) = text.split_at(at.min(text.len()));
    let line = before.split(is_feed).count();
    let before = before.rsplit(is_feed).next().unwrap_or(before);
    let subsequent = subsequent.split(is_feed).next().unwrap_or(subsequent);
    let column = before.len().saturating_add(1);
    let words = format!(in alloc; "line {line}, column {column}: {said}")?;
    marked(words, before, subsequent)
}

/// Appends a line of a text, from what is before a position and from it on, and below it a mark under the position. Of
/// a long line the part around the position is shown. A byte that is not printable ASCII is shown as `?`, a tab as a
/// space.
pub fn marked(mut words: String, before: &[u8], subsequent: &[u8]) -> Result<String, AllocError> {
    let before = &before[before.len().saturating_sub(BEFORE)..];
    let subsequent = &subsequent[..subsequent.len().min(BEHIND)];
    words.push('\n')?;
    for octet in before.iter().chain(subsequent) {
        words.push(printable(*octet))?;
    }
    words.push('\n')?;
    for _ in before {
        words.push(' ')?;
    }
    words.push('^')?;
    Ok(words)
}

fn is_feed(octet: &u8) -> bool {
    *octet == b'\n'
}

fn printable(octet: u8) -> char {
    match octet {
        b'\t' => ' ',
        b' '..=b'~' => char::from(octet),
        _ => '?',
    }
}
