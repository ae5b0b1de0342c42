//! Printing of an item's values straight from its body.

ghost use Rattle.std.specs.Prelude.{◌≡◌, ◌≤◌, ◌+◌, ◌*◌, false, true, length};
ghost use Rattle.secs_text.specs.InnerBlockOutput.{AppendsText, IsPlace, Puts, words_of};
ghost use Rattle.secs_text.specs.Printed.{printed_text};
ghost use Rattle.secs_text.specs.InnerWidths.{is_width};

use crate::block::{Output, room};
use crate::block_copy::append_byte;
use crate::formats::WordFormat;
use crate::printing::text::append_text;

/// The number of bytes of a body that are printed at a time.
const CHUNK: usize = 512;

/// Appends the words of values, each after a space. Ignores the bytes after the last complete value.
fn append_words<const N: usize, W: WordFormat<N>>(
    block: &mut [u8],
    at: usize,
    octets: &[u8],
) -> usize
    requires width { is_width N ≡ true }
    requires room { at + 48 * length octets.now ≤ length block.old }
    ensures appended_text { AppendsText block.old block.new at (words_of W.printed N octets.now) result }
    ensures within { result ≤ length block.old }
    ensures size { length block.new ≡ length block.old }
{
    let mut end = at;
    let mut rest = octets;
    while let Some((first, after)) = rest.split_first_chunk::<N>() {
        end = W::append_chunk(block, end, first);
        rest = after;
    }
    end
}

/// Prints the words of values, each after a space.
pub fn put_words<const N: usize, W: WordFormat<N>, O: Output>(
    out: &mut O,
    block: &mut [u8],
    from: usize,
    octets: &[u8],
) -> usize
    requires width { is_width N ≡ true }
    requires place { IsPlace block.old from }
    ensures { Puts (O.Given out.old) block.old from (O.Given out.new) block.new result (words_of W.printed N octets.now) }
{
    let mut at = room(out, block, from);
    let mut rest = octets;
    while rest.len() > CHUNK {
        let (chunk, after) = rest.split_at(CHUNK);
        at = append_words::<N, W>(block, at, chunk);
        at = room(out, block, at);
        rest = after;
    }
    append_words::<N, W>(block, at, rest)
}

/// Prints text bytes.
pub fn put_text<O: Output>(out: &mut O, block: &mut [u8], from: usize, octets: &[u8]) -> usize
    requires { IsPlace block.old from }
    ensures { Puts (O.Given out.old) block.old from (O.Given out.new) block.new result
        (printed_text false octets.now) }
{
    let mut at = room(out, block, from);
    let mut in_quotes = false;
    let mut rest = octets;
    while rest.len() > CHUNK {
        let (chunk, after) = rest.split_at(CHUNK);
        let (end, quoted) = append_text(block, at, in_quotes, chunk);
        at = room(out, block, end);
        in_quotes = quoted;
        rest = after;
    }
    let (end, quoted) = append_text(block, at, in_quotes, rest);
    if quoted {
        append_byte(block, end, b'"')
    } else {
        end
    }
}
