//! Runs of values that are single bytes, each a short word after one space, as they are printed.

ghost use Rattle.std.specs.Prelude.{◌≡◌, ◌≤◌, ◌<◌, ◌+◌, ◌*◌, ◌/◌, ℕ, List, length, take, drop, OnOk};
ghost use Rattle.secs_item.specs.Format.{value_size};
ghost use Rattle.secs_text.specs.InnerCanonicalTokens.{EndsWord};
ghost use Rattle.secs_text.specs.InnerRemainingTokens.{left, octets_left};
ghost use Rattle.secs_text.specs.InnerByteWord.{AreShortWords};
ghost use Rattle.secs_text.specs.InnerEncodedText.{CollectsMore, word_octets};

use crate::byte_class::is_of_word;
use crate::formats::ShortWord;
use crate::tokens::Tokens;
use secs_item::Format;
use std::alloc::AllocError;

/// The number of values that are read at a time.
const RUN: usize = 64;

/// The number of words that are read before the next check for the end.
const GROUP: usize = 8;

/// Reads the words with the indexes `from..to`, up to the first invalid one. Returns the index after the last word
/// read.
#[inline(always)]
fn read_words<const N: usize, W: ShortWord<N>>(
    text: &[u8],
    from: usize,
    to: usize,
    octets: &mut [u8; 64],
) -> usize
    requires some { 0 < N }
    requires small { N < 256 }
    requires ordered { from ≤ to }
    requires few { to ≤ 64 }
    requires there { to ≤ length text.now / N }
    requires words { AreShortWords W.reads N (take from octets.old) text.now (drop (N * from) text.now) }
    ensures words { AreShortWords W.reads N (take result octets.new) text.now (drop (N * result) text.now) }
    ensures onward { from ≤ result }
    ensures before { result ≤ to }
    ensures within { N * result ≤ length text.now }
{
    let (words, _) = text.as_chunks::<N>();
    let part = &words[from..to];
    for i in 0..part.len() {
        let Some(octet) = W::read(&part[i]) else {
            return from + i;
        };
        octets[from + i] = octet;
    }
    to
}

/// Reads the words at the start, at most 64, and returns their number. The last word is complete: no byte of a word
/// follows it.
#[inline(never)]
fn read_run<const N: usize, W: ShortWord<N>>(text: &[u8], octets: &mut [u8; 64]) -> usize
    requires some { 0 < N }
    requires small { N < 256 }
    ensures words { AreShortWords W.reads N (take result octets.new) text.now (drop (N * result) text.now) }
    ensures ends { 0 < result → EndsWord (drop (N * result) text.now) }
    ensures few { result ≤ 64 }
    ensures within { N * result ≤ length text.now }
{
    let most = (text.len() / N).min(RUN);
    let mut read = 0;
    while most - read >= GROUP {
        let end = read_words::<N, W>(text, read, read + GROUP, octets);
        if end == read {
            break;
        }
        read = end;
    }
    let count = read_words::<N, W>(text, read, most, octets);
    let end = N * count;
    if count > 0 && end < text.len() && is_of_word(text[end]) {
        return count - 1;
    }
    count
}

/// Appends the bytes of the next words, up to the first one that is not spaced as it is printed.
#[inline(always)]
pub fn parse_run<const N: usize, W: ShortWord<N>>(
    out: &mut Vec<u8>,
    tokens: &mut Tokens,
    format: Format,
) -> Result<(), AllocError>
    requires some { 0 < N }
    requires small { N < 256 }
    requires encoded_bytes { (w : List ℕ) → word_octets format w ≡ W.reads w }
    requires sized { value_size format ≡ 1 }
    ensures collected { OnOk result (CollectsMore format (left tokens.old) (left tokens.new) out.old.items out.new.items) }
    ensures no_longer { octets_left tokens.new ≤ octets_left tokens.old }
{
    let (_, rest) = tokens.text.split_at(tokens.place);
    let Some(first) = rest.first_chunk::<N>() else {
        return Ok(());
    };
    if W::read(first).is_none() {
        return Ok(());
    }
    let mut octets = [0; RUN];
    loop {
        let (_, rest) = tokens.text.split_at(tokens.place);
        let count = read_run::<N, W>(rest, &mut octets);
        if count == 0 {
            return Ok(());
        }
        out.extend_from_slice(&octets[..count])?;
        tokens.place += N * count;
    }
}
