//! Text bytes: runs of printable bytes in quotes, every other byte in hexadecimal.

ghost use Rattle.std.specs.Prelude.{◌≡◌, ◌≤◌, ◌<◌, ◌+◌, ◌*◌, ◌++◌, ℕ, List, [], true, length, codes, if◌then◌else◌};
ghost use Rattle.std.specs.List.{list_all};
ghost use Rattle.secs_text.specs.InnerBlockOutput.{AppendsText};
ghost use Rattle.secs_text.specs.Octets.{is_quotable};
ghost use Rattle.secs_text.specs.Printed.{printed_octet, printed_text};

use crate::block_copy::{append_byte, append_octet, append_slice, append_word};
use crate::byte_class::is_quotable;

/// Appends an opening quote, unless a quote is open.
#[inline(always)]
fn append_quote(block: &mut [u8], at: usize, quoted: bool) -> usize
    requires { at + 2 ≤ length block.old }
    ensures { AppendsText block.old block.new at (if quoted then [] else codes " \"") result }
{
    if quoted {
        return at;
    }
    append_slice(block, at, b" \"")
}

/// Appends a text byte. `in_quotes` says whether a quote is open.
#[inline(always)]
fn append_text_octet(block: &mut [u8], at: usize, in_quotes: bool, octet: u8) -> usize
    requires { at + 16 ≤ length block.old }
    ensures appended_text { AppendsText block.old block.new at (printed_octet in_quotes octet) result }
    ensures near { result ≤ at + 16 }
{
    if is_quotable(octet) {
        let at = append_quote(block, at, in_quotes);
        return append_byte(block, at, octet);
    }
    if !in_quotes {
        return append_octet(block, at, octet);
    }
    let at = append_byte(block, at, b'"');
    append_octet(block, at, octet)
}

/// Appends text bytes one by one. `quoted` says whether a quote is open. Returns whether one is open after them.
fn append_octets(block: &mut [u8], from: usize, quoted: bool, octets: &[u8]) -> (usize, bool)
    requires { from + 48 * length octets.now ≤ length block.old }
    ensures text { (text : List ℕ) × AppendsText block.old block.new from text result.0
        × ((tail : List ℕ) → text ++ printed_text result.1 tail ≡ printed_text quoted (octets.now ++ tail)) }
    ensures near { result.0 ≤ from + 48 * length octets.now }
    ensures size { length block.new ≡ length block.old }
{
    let mut at = from;
    let mut in_quotes = quoted;
    for octet in octets {
        at = append_text_octet(block, at, in_quotes, *octet);
        in_quotes = is_quotable(*octet);
    }
    (at, in_quotes)
}

/// Appends eight text bytes. `quoted` says whether a quote is open. Returns whether one is open after them.
#[inline(always)]
fn append_run(block: &mut [u8], from: usize, quoted: bool, octets: &[u8; 8]) -> (usize, bool)
    requires { from + 48 * length octets.now ≤ length block.old }
    ensures text { (text : List ℕ) × AppendsText block.old block.new from text result.0
        × ((tail : List ℕ) → text ++ printed_text result.1 tail ≡ printed_text quoted (octets.now ++ tail)) }
    ensures near { result.0 ≤ from + 48 * length octets.now }
    ensures size { length block.new ≡ length block.old }
{
    let mut are_quotable = true;
    for octet in octets {
        are_quotable &= is_quotable(*octet);
    }
    if !are_quotable {
        return append_octets(block, from, quoted, octets.as_slice());
    }
    let at = append_quote(block, from, quoted);
    (append_word::<8>(block, at, octets.as_slice(), 8), true)
}

/// Appends text bytes. `quoted` says whether a quote is open. Returns whether one is open after them.
pub fn append_text(block: &mut [u8], from: usize, quoted: bool, octets: &[u8]) -> (usize, bool)
    requires { from + 48 * length octets.now ≤ length block.old }
    ensures text { (text : List ℕ) × AppendsText block.old block.new from text result.0
        × ((tail : List ℕ) → text ++ printed_text result.1 tail ≡ printed_text quoted (octets.now ++ tail)) }
    ensures near { result.0 ≤ from + 48 * length octets.now }
    ensures size { length block.new ≡ length block.old }
{
    let mut at = from;
    let mut in_quotes = quoted;
    let mut rest = octets;
    while let Some((run, after)) = rest.split_first_chunk::<8>() {
        (at, in_quotes) = append_run(block, at, in_quotes, run);
        rest = after;
    }
    append_octets(block, at, in_quotes, rest)
}
