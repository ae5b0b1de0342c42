//! Fast paths for tokens in canonical spacing: several tokens are read at once if they are spaced as `print` writes
//! them.

ghost use Rattle.std.specs.Prelude.{◌≡◌, ◌≤◌, ◌<◌, ◌+◌, length, true, false, Some, IfSome, IfNone, OnSome};
ghost use Rattle.secs_text.specs.InnerCanonicalTokens.{IsOpening, IsWait, IsHead, NamesType, IsCounted, IsSmall, IsLettered};
ghost use Rattle.secs_text.specs.InnerRemainingTokens.{left, octets_left};
ghost use Rattle.secs_text.specs.Octets.{is_of_word};

use crate::byte_class::{is_digit, is_of_word};
use crate::token::Count;
use crate::tokens::Tokens;
use crate::type_name::format_named;
use crate::word::{leading_number, number_of_digits};
use secs_item::Format;

/// Returns the format of a type name of one or two bytes at the start, and the length of the name. Returns `None`
/// unless a space and a `[` follow it.
#[inline(always)]
fn name_front(octets: &[u8]) -> Option<(Format, usize)>
    ensures names { IfSome result (λ n. NamesType n.0 n.1 octets.now) }
    ensures within { IfSome result (λ n. n.1 + 2 ≤ length octets.now) }
{
    match octets {
        [_, b' ', b'[', ..] => Some((format_named(&octets[..1])?, 1)),
        [_, _, b' ', b'[', ..] => Some((format_named(&octets[..2])?, 2)),
        _ => None,
    }
}

/// Returns the number in the digits at the start, and the number of digits. Returns `None` unless a `]` follows them.
#[inline(always)]
fn count_front(octets: &[u8]) -> Option<(u64, usize)>
    ensures counts { IfSome result (λ n. IsCounted n.0 n.1 octets.now) }
    ensures within { IfSome result (λ n. n.1 < length octets.now) }
{
    match octets {
        [digit, b']', ..] if is_digit(*digit) => Some((u64::from(*digit - b'0'), 1)),
        _ => long_count_front(octets),
    }
}

/// Does the work of `count_front` for any number of digits.
#[inline(never)]
fn long_count_front(octets: &[u8]) -> Option<(u64, usize)>
    ensures counts { IfSome result (λ n. IsCounted n.0 n.1 octets.now) }
    ensures within { IfSome result (λ n. n.1 < length octets.now) }
{
    let (size, number) = leading_number(octets);
    if size == octets.len() || octets[size] != b']' {
        return None;
    }
    let (digits, _) = octets.split_at(size);
    let number = number_of_digits(digits, number)?;
    Some((number, size))
}

/// Consumes a type name and the count after it. Returns `None` unless the name has one or two bytes and both are spaced
/// as they are printed.
#[inline(always)]
pub fn next_opening(tokens: &mut Tokens) -> Option<(Format, Count)>
    ensures taken { IfSome result (λ o. IsOpening o.0 o.1 (left tokens.old) (left tokens.new)) }
    ensures no_longer { octets_left tokens.new ≤ octets_left tokens.old }
    ensures none { IfNone result (tokens.new ≡ tokens.old) }
{
    let (_, rest) = tokens.text.split_at(tokens.place);
    let (format, name) = name_front(rest)?;
    let (_, rest) = rest.split_at(name + 2);
    let (number, digits) = count_front(rest)?;
    let at = tokens.place + name + 1;
    tokens.place += name + digits + 3;
    Some((format, Count { at, number }))
}

/// Consumes a `W` after one space. Returns true if there was one.
#[inline(always)]
pub fn next_wait(tokens: &mut Tokens) -> bool
    ensures taken { result ≡ true → IsWait (left tokens.old) (left tokens.new) }
    ensures no_longer { octets_left tokens.new ≤ octets_left tokens.old }
    ensures none { result ≡ false → tokens.new ≡ tokens.old }
{
    let (_, rest) = tokens.text.split_at(tokens.place);
    let [b' ', b'W', after, ..] = rest else {
        return false;
    };
    if is_of_word(*after) {
        return false;
    }
    tokens.place += 2;
    true
}

/// Returns the number in one or two digits at the start, and the number of digits. Returns `None` if another digit
/// follows.
#[inline(always)]
fn small_number(octets: &[u8]) -> Option<(u8, usize)>
    ensures small { IfSome result (λ n. IsSmall n.0 n.1 octets.now) }
    ensures within { IfSome result (λ n. n.1 < length octets.now) }
{
    match octets {
        [ones, after, ..] if is_digit(*ones) && !is_digit(*after) => Some((*ones - b'0', 1)),
        [tens, ones, after, ..]
            if is_digit(*tens) && *tens != b'0' && is_digit(*ones) && !is_digit(*after) => {
            Some((10 * (*tens - b'0') + (*ones - b'0'), 2))
        }
        _ => None,
    }
}

/// Returns the number in one or two digits after a letter at the start, and the length of letter and digits in bytes.
#[inline(always)]
fn lettered_number(letter: u8, octets: &[u8]) -> Option<(u8, usize)>
    ensures lettered { IfSome result (λ n. IsLettered letter n.0 n.1 octets.now) }
    ensures within { IfSome result (λ n. n.1 < length octets.now) }
{
    let (first, rest) = octets.split_first()?;
    if *first != letter {
        return None;
    }
    let (number, size) = small_number(rest)?;
    Some((number, size + 1))
}

/// Consumes the head of a message. Returns `None` unless its stream and function have one or two digits each.
#[inline(always)]
pub fn next_head(tokens: &mut Tokens) -> Option<(u8, u8)>
    ensures taken { IfSome result (λ h. IsHead h.0 h.1 (left tokens.old) (left tokens.new)) }
    ensures stream { IfSome result (λ h. h.0 < 128) }
    ensures shorter { OnSome result (octets_left tokens.new < octets_left tokens.old) }
    ensures none { IfNone result (tokens.new ≡ tokens.old) }
{
    let (at, rest) = tokens.past_white();
    let (stream, first) = lettered_number(b'S', rest)?;
    let (_, subsequent) = rest.split_at(first);
    let (function, second) = lettered_number(b'F', subsequent)?;
    if is_of_word(subsequent[second]) {
        return None;
    }
    tokens.place = at + (first + second);
    Some((stream, function))
}
